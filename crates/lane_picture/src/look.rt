// How marks look.

/// What a mark is of, which decides how it looks.
#[derive(Clone, Copy, Debug, PartialEq, Eq)]
pub enum Look {
    /// The number of a line.
    Number,
    /// A day.
    Day,
    /// A time that the clock reads.
    Clock,
    /// A time of an entry.
    Time,
    /// A frame without errors.
    Good,
    /// A frame with errors.
    Erred,
    /// A frame of which it isn't known.
    Unknown,
    /// Frames that are missing.
    Gap,
    /// What was refused.
    Refused,
    /// A seal.
    Seal,
    /// A lock that is held.
    Locked,
    /// A lock that is lost, or isn't known.
    Unlocked,
    /// A status that lasts.
    State,
    /// One in which nothing is done.
    Halted,
    /// What a user asked for.
    Asked,
    /// What was done to a connection.
    Steered,
    /// What was offered and taken.
    Offered,
    /// What was late.
    Late,
    /// What ended.
    Ended,
    /// What waits.
    Waiting,
    /// The times in which it may be done.
    Window,
    /// What was sent.
    Sent,
    /// What is ordered to fail.
    Ordered,
    /// What failed.
    Failed,
}

impl Look {
    /// The class of its marks in the page's style.
    pub fn class(self) -> &'static str {
        match self {
            Look::Number => "number",
            Look::Day => "day",
            Look::Clock => "clock",
            Look::Time => "time",
            Look::Good => "good",
            Look::Erred => "erred",
            Look::Unknown => "unknown",
            Look::Gap => "gap",
            Look::Refused => "refused",
            Look::Seal => "seal",
            Look::Locked => "locked",
            Look::Unlocked => "unlocked",
            Look::State => "state",
            Look::Halted => "halted",
            Look::Asked => "asked",
            Look::Steered => "steered",
            Look::Offered => "offered",
            Look::Late => "late",
            Look::Ended => "ended",
            Look::Waiting => "waiting",
            Look::Window => "window",
            Look::Sent => "sent",
            Look::Ordered => "ordered",
            Look::Failed => "failed",
        }
    }
}
