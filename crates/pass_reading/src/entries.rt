// Entries that lines offer.

use crate::outcome::Outcome;
use crate::pass::Reading;
use lane_picture::Look;
use pass_lanes::{Note, Place};
use record_form::Entry;
use sle_numbers::{FrameQuality, LockStatus, Numbered, ReturnProductionStatus};
use std::alloc::AllocError;

// What is kept of an entry, or why it isn't.
#[derive(Clone, Copy, Debug)]
enum Fate {
    Kept,
    // It was refused, by this word.
    Refused(&'static str),
    // The power failed in its store.
    Gone,
}

impl Reading<'_> {
    // Puts an entry that was offered, and what became of it.
    pub(crate) fn put_offered(
        &mut self,
        entry: &Entry,
        said: &[u8],
        tip: &[u8],
    ) -> Result<(), AllocError> {
        let outcome = Outcome::of(self.alloc, said)?;
        let fate = fate_of(&outcome, self.entries);
        self.entries = outcome.entries(self.entries);
        match entry {
            Entry::Frame { .. } => self.put_frame(entry, fate, tip),
            Entry::LossOfSync { .. } => self.put_loss(entry, fate, tip),
            Entry::Production { status } => self.put_production(*status, fate, tip),
            Entry::Seal { at } => {
                self.lanes.put_time(Look::Time, at, tip)?;
                let note = note_of(fate, Look::Seal, "sealed", tip);
                self.lanes.put(Place::Seals, 0, note)
            }
        }
    }

    fn put_frame(&mut self, entry: &Entry, fate: Fate, tip: &[u8]) -> Result<(), AllocError> {
        if let Entry::Frame {
            ert,
            quality,
            lost,
            octets,
            ..
        } = entry
        {
            self.lanes.put_time(Look::Time, ert, tip)?;
            let note = note_of(fate, quality_look(*quality), quality.word(), tip);
            let lost = if is_kept(fate) { *lost } else { 0 };
            self.lanes.put_frame(octets.as_slice(), lost, note)?;
            if is_kept(fate) && self.is_lost {
                self.is_lost = false;
                return self.turn_locks([LockStatus::InLock; 3], tip);
            }
        }
        Ok(())
    }

    fn put_loss(&mut self, entry: &Entry, fate: Fate, tip: &[u8]) -> Result<(), AllocError> {
        if let Entry::LossOfSync {
            at,
            carrier,
            subcarrier,
            symbol,
        } = entry
        {
            self.lanes.put_time(Look::Time, at, tip)?;
            if is_kept(fate) {
                self.is_lost = true;
                return self.turn_locks([*carrier, *subcarrier, *symbol], tip);
            }
            let note = note_of(fate, Look::Unlocked, "loss", tip);
            return self.lanes.put(Place::Carrier, 1, note);
        }
        Ok(())
    }

    // The locks of carrier, subcarrier and symbols are these from now on.
    fn turn_locks(&mut self, locks: [LockStatus; 3], tip: &[u8]) -> Result<(), AllocError> {
        let [carrier, subcarrier, symbol] = locks;
        self.turn_lock(Place::Carrier, carrier, tip)?;
        self.turn_lock(Place::Subcarrier, subcarrier, tip)?;
        self.turn_lock(Place::Symbol, symbol, tip)
    }

    fn turn_lock(&mut self, place: Place, lock: LockStatus, tip: &[u8]) -> Result<(), AllocError> {
        let look = match lock {
            LockStatus::InLock => Look::Locked,
            LockStatus::NotInUse => Look::Halted,
            LockStatus::OutOfLock | LockStatus::Unknown => Look::Unlocked,
        };
        let word = lock.word().as_bytes();
        self.lanes.turn(place, Some(Note::new(look, word, tip)))
    }

    fn put_production(
        &mut self,
        status: ReturnProductionStatus,
        fate: Fate,
        tip: &[u8],
    ) -> Result<(), AllocError> {
        let look = match status {
            ReturnProductionStatus::Running => Look::State,
            _ => Look::Halted,
        };
        let note = note_of(fate, look, status.word(), tip);
        if is_kept(fate) {
            self.lanes.turn(Place::Production, Some(note))
        } else {
            self.lanes.put(Place::Production, 1, note)
        }
    }
}

fn fate_of(outcome: &Outcome, before: u64) -> Fate {
    match outcome.refusal() {
        Some(word) => Fate::Refused(word),
        None if outcome.is_kept(before) => Fate::Kept,
        None => Fate::Gone,
    }
}

fn is_kept(fate: Fate) -> bool {
    matches!(fate, Fate::Kept)
}

// The mark of an entry, which looks so where it is kept.
fn note_of<'a>(fate: Fate, look: Look, word: &'a str, tip: &'a [u8]) -> Note<'a> {
    match fate {
        Fate::Kept => Note::new(look, word.as_bytes(), tip),
        Fate::Refused(why) => Note::new(Look::Refused, why.as_bytes(), tip),
        Fate::Gone => Note::new(Look::Failed, b"not kept", tip),
    }
}

fn quality_look(quality: FrameQuality) -> Look {
    match quality {
        FrameQuality::Good => Look::Good,
        FrameQuality::Erred => Look::Erred,
        FrameQuality::Undetermined => Look::Unknown,
    }
}
