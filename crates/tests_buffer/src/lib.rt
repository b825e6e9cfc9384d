// Tests of the transfer buffer: when it is full and when it is due. They stand above
// `transfer_buffer`, and are proved once.
#![tactic(auto)]

#[cfg(test)]
mod buffer;
