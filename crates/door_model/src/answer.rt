// What a door answers, without the link.

/// What a door answered to a call for the next link.
#[derive(Clone, Copy, Debug, PartialEq, Eq)]
pub enum Answer {
    /// A link.
    Link,
    /// That no further link comes.
    NoMore,
    /// That it failed, and the count of faults rose.
    Failed,
}
