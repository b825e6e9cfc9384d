// Why an entry isn't taken.
ghost use Rattle.std.specs.Prelude.{◌≡◌, IfOk, OnErr};
ghost use Rattle.drill_text.specs.Transcript.{said};
ghost use Rattle.frame_archive.specs.declared.fault.OfferFault.TheVariants as OfferFault;
ghost use Rattle.script_store.specs.Entries.{notice_of, done_of};
ghost use Rattle.script_store.specs.IsHeld.{fault_of, IsOfOffer};
ghost use Rattle.script_store.specs.Said.{says_of};

use crate::step_done::StepDone;
use drill_text::TranscriptLine;
use frame_archive::OfferFault;
use octet_core::Memory;

/// Why an entry isn't taken, in the order in which it is tried.
#[derive(Clone, Copy, Debug, PartialEq, Eq)]
pub enum Refusal {
    /// A frame's time is below the last frame's or not above the last seal's, or a seal's is below
    /// the last seal's.
    Backward,
    /// A frame has more than 65,536 octets.
    TooLong,
    /// The entry wants `need` octets of the file, and `free` are free below the capacity, or none
    /// where 4,194,304 entries are stored.
    Full { need: u64, free: u64 },
}

impl Refusal {
    /// The refusal of an archive in which nothing waits.
    pub fn of(fault: OfferFault) -> Result<Refusal, Memory>
        requires { IsOfOffer fault }
        ensures ok { IfOk result (λ why. fault_of why ≡ fault) }
        ensures err { OnErr result (fault ≡ OfferFault.Memory) }
    {
        match fault {
            OfferFault::Backward => Ok(Refusal::Backward),
            OfferFault::TooLong => Ok(Refusal::TooLong),
            OfferFault::Full { need, free } => Ok(Refusal::Full { need, free }),
            OfferFault::Waiting => unreachable!(),
            OfferFault::Memory => Err(Memory),
        }
    }

    /// Its line of the transcript.
    pub fn line(&self) -> TranscriptLine<'_>
        ensures { said result ≡ says_of (notice_of self.now) }
    {
        match self {
            Refusal::Backward => TranscriptLine::Backward,
            Refusal::TooLong => TranscriptLine::TooLong,
            Refusal::Full { need, free } => TranscriptLine::Full {
                need: *need,
                free: *free,
            },
        }
    }

    /// How the line of the entry ends.
    pub fn done(&self) -> StepDone
        ensures { result ≡ done_of self.now }
    {
        match self {
            Refusal::Full { .. } => StepDone::Full,
            Refusal::Backward | Refusal::TooLong => StepDone::Fine,
        }
    }
}
