// Tests of the rehearsal: its text for small numbers, worked out by other means. They stand above
// `rehearsal`, and are proved once.
#![tactic(auto)]

#[cfg(test)]
mod texts;
