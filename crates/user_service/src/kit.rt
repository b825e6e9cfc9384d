// What a user's program works with.

/// What a user's program works with.
#[derive(Drop)]
pub struct UserKit<I, O, L, C, E> {
    pub input: I,
    pub output: O,
    /// The connection to the provider; none where it couldn't be made, or isn't wanted.
    pub link: Option<L>,
    pub clock: C,
    /// What asks the user to end.
    pub end: E,
    /// What the numbers of credentials begin from.
    pub draw: u32,
}
