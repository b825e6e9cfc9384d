// Why a line is refused.
ghost use Rattle.std.specs.Prelude.{◌≡◌};
ghost use Rattle.station_config.specs.Causes.{number_of, cause_of_words};

/// Why a line is refused: the first of these, in this order.
#[derive(Clone, Copy, Debug, PartialEq, Eq)]
pub(crate) enum Cause {
    /// No line begins with its first word.
    FirstWord,
    /// It has too few words or too many.
    Count,
    /// A word is malformed or out of its range.
    Word,
    /// It gives a setting, a peer's name or an identifier that an earlier line gives.
    Repeated,
    /// No earlier line names its owner as a peer.
    NoOwner,
    /// It is a thirty-third peer, a thirty-third instance or a second forward one.
    Surplus,
}

impl Cause {
    /// The number by which a fault tells the cause.
    pub(crate) fn number(self) -> u8
        ensures { result ≡ number_of self }
    {
        match self {
            Cause::FirstWord => 1,
            Cause::Count => 2,
            Cause::Word => 3,
            Cause::Repeated => 4,
            Cause::NoOwner => 5,
            Cause::Surplus => 6,
        }
    }

    /// The cause that a line's words are told to have.
    pub(crate) fn of_words(cause: words::Cause) -> Cause
        ensures { result ≡ cause_of_words cause }
    {
        match cause {
            words::Cause::FirstWord => Cause::FirstWord,
            words::Cause::Count => Cause::Count,
            words::Cause::Word => Cause::Word,
        }
    }
}
