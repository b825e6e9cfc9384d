// Tests of hexadecimal digits: texts about as long as a vector, letters of both cases, and texts that
// are refused. They stand above `hex_text`, and are proved once.
#![tactic(auto)]

#[cfg(test)]
mod texts;
