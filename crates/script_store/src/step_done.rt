// How a line ended.

/// How a line of a script ended.
#[derive(Clone, Copy, Debug, PartialEq, Eq)]
pub enum StepDone {
    /// It was done.
    Fine,
    /// It was done, and its entry was refused as Full.
    Full,
    /// It is in a wrong state, or no line that runs: nothing was done.
    WrongState,
}
