// What became of an entry.

use crate::marked::without_end;
use explain_lines::{Transcribed, parse_transcript};
use std::alloc::{AllocError, Global};
use words::Unread;

// What the transcript tells of an entry that a line offers.
#[derive(Clone, Copy, Debug)]
pub struct Outcome {
    // Why it was refused.
    refusal: Option<&'static str>,
    crashed: bool,
    // How many entries a restart or a reopen found.
    found: Option<u64>,
}

impl Outcome {
    // What these lines of the transcript tell.
    pub(crate) fn of(alloc: Global, said: &[u8]) -> Result<Outcome, AllocError> {
        let mut outcome = Outcome {
            refusal: None,
            crashed: false,
            found: None,
        };
        for line in without_end(said).split(|octet| *octet == b'\n') {
            match parse_transcript(alloc, line) {
                Ok(says) => outcome.hear(&says),
                Err(Unread::Bad) => {}
                Err(Unread::Memory) => return Err(AllocError),
            }
        }
        Ok(outcome)
    }

    fn hear(&mut self, says: &Transcribed) {
        match says {
            Transcribed::Backward => self.refusal = Some("backward"),
            Transcribed::TooLong => self.refusal = Some("too long"),
            Transcribed::Full { .. } => self.refusal = Some("full"),
            Transcribed::Crash => self.crashed = true,
            Transcribed::Archive { entries } => self.found = Some(*entries),
            _ => {}
        }
    }

    // Whether the entry was refused, and by which word.
    pub(crate) fn refusal(&self) -> Option<&'static str> {
        self.refusal
    }

    // Whether the archive has it then, behind so many entries.
    pub(crate) fn is_kept(&self, before: u64) -> bool {
        self.refusal.is_none() && self.entries(before) > before
    }

    // How many entries there are then, behind so many: those that a restart found, or one more.
    pub(crate) fn entries(&self, before: u64) -> u64 {
        match self.found {
            Some(found) if self.crashed => found,
            _ if self.refusal.is_some() => before,
            _ => before.saturating_add(1),
        }
    }
}
