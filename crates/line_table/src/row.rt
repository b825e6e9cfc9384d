// The lines of a script with what they led to.
ghost use Rattle.std.specs.Prelude.{◌≡◌};
ghost use Rattle.line_table.specs.Table.{class_of};

/// What became of a line of a script.
#[derive(Clone, Copy, Debug, PartialEq, Eq)]
pub enum Ran {
    /// It is a line of the configuration.
    Head,
    /// It was done.
    Done,
    /// It was done, and its entry was refused for want of room.
    Full,
    /// It is outside the grammar or in a wrong state, or a refused line of the configuration.
    Bad,
    /// It stands behind a bad one, and nothing of it was done.
    NotRun,
}

impl Ran {
    /// The class of the line's row in the page's style.
    pub fn class(self) -> &'static str
        ensures { result.now ≡ class_of self }
    {
        match self {
            Ran::Head => "head",
            Ran::Done => "done",
            Ran::Full => "full",
            Ran::Bad => "refused",
            Ran::NotRun => "unrun",
        }
    }
}

/// A line of a script, its end left away, the lines of the transcript that it led to, each with its
/// end, and words on it.
#[derive(Debug, Drop)]
pub struct Row {
    /// Its place in the script, from 1 on.
    pub number: u32,
    pub line: Vec<u8>,
    pub said: Vec<u8>,
    pub words: Vec<u8>,
    pub ran: Ran,
}
