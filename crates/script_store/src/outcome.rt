// What a line has come to that concerns the archive.
ghost use Rattle.std.specs.Prelude.{◌≡◌, ◌++◌};
ghost use Rattle.drill_text.specs.Transcript.{text_of};
ghost use Rattle.drill_text.specs.declared.transcript_line.TranscriptLine.TheVariants as TranscriptLine;
ghost use Rattle.script_store.specs.Output.{Wrote};
ghost use Rattle.script_store.specs.Outcomes.{said_of, done_of};
ghost use Rattle.script_store.specs.Said.{texts};

use crate::put::put_line;
use crate::refusal::Refusal;
use crate::step_done::StepDone;
use crate::stop::Stop;
use drill_text::TranscriptLine;
use octet_core::Sink;
use std::alloc::Global;

/// What became of an entry, or of the archive.
#[derive(Clone, Copy, Debug, PartialEq, Eq)]
pub enum Outcome {
    /// The entry was stored.
    Stored,
    /// It wasn't taken.
    Refused(Refusal),
    /// The power failed, and the archive was opened again: it has so many entries.
    Crashed { entries: u64 },
    /// The store failed, and the archive was opened again: it had so many entries then.
    Failed { entries: u64 },
}

impl Outcome {
    /// Writes its lines of the transcript.
    pub fn put<O: Sink>(&self, alloc: Global, output: &mut O) -> Result<(), Stop>
        ensures { Wrote (O.written output.old) (O.written output.new)
            (O.faults output.old) (O.faults output.new)
            (texts (said_of self.now)) result }
    {
        match self {
            Outcome::Stored => Ok(()),
            Outcome::Refused(refusal) => put_line(alloc, &refusal.line(), output),
            Outcome::Crashed { entries } => {
                put_opened(alloc, &TranscriptLine::Crash, *entries, output)
            }
            Outcome::Failed { entries } => {
                put_opened(alloc, &TranscriptLine::Fault, *entries, output)
            }
        }
    }

    /// How the entry's line ends.
    pub fn done(&self) -> StepDone
        ensures { result ≡ done_of self.now }
    {
        match self {
            Outcome::Refused(refusal) => refusal.done(),
            _ => StepDone::Fine,
        }
    }
}

// Writes why the archive was opened again, and how many entries it has.
fn put_opened<O: Sink>(
    alloc: Global,
    why: &TranscriptLine<'_>,
    entries: u64,
    output: &mut O,
) -> Result<(), Stop>
    ensures { Wrote (O.written output.old) (O.written output.new)
        (O.faults output.old) (O.faults output.new)
        (text_of why.now ++ text_of (TranscriptLine.Archive entries)) result }
{
    put_line(alloc, why, output)?;
    put_line(alloc, &TranscriptLine::Archive { entries }, output)
}
