// Tests of the reader of BER elements: how deep it goes. They stand above `ber_core`, and are proved
// once.
#![tactic(auto)]

#[cfg(test)]
mod nested;
