// Orders for the disk, and what the antenna does.

use crate::pass::Reading;
use drill_text::ScriptLine;
use explain_words::Text;
use fcltu_numbers::{CltuProductionStatus, UplinkStatus};
use lane_picture::Look;
use pass_lanes::{Note, Place};
use sle_numbers::Numbered;
use std::alloc::AllocError;

impl Reading<'_> {
    // Puts an order for a call of the disk to come. (One that is carried out at once is told by the
    // transcript.)
    pub(crate) fn put_order(&mut self, says: &ScriptLine, tip: &[u8]) -> Result<(), AllocError> {
        match says {
            ScriptLine::Crash { k, .. } if *k > 0 => self.put_at_call("crash at ", *k, tip),
            ScriptLine::Fault { k } => self.put_at_call("fault at ", *k, tip),
            _ => Ok(()),
        }
    }

    fn put_at_call(&mut self, word: &str, k: u32, tip: &[u8]) -> Result<(), AllocError> {
        let mut text = Text::new(self.alloc);
        text.put(word);
        text.put_number(i128::from(k));
        let note = Note::new(Look::Ordered, text.octets()?, tip);
        self.lanes.put(Place::Failures, 0, note)
    }

    // Puts a turn of the antenna, or what is told of it.
    pub(crate) fn put_antenna(&mut self, says: &ScriptLine, tip: &[u8]) -> Result<(), AllocError> {
        match says {
            ScriptLine::Take { fail: true } => self.put_turn("take fails", tip),
            ScriptLine::Take { fail: false } => self.put_turn("take", tip),
            ScriptLine::Done => {
                self.lanes.cltu_done();
                self.put_turn("done", tip)
            }
            ScriptLine::Uplink { production, status } => {
                self.turn_uplink(*production, *status, tip)
            }
            _ => Ok(()),
        }
    }

    fn put_turn(&mut self, word: &str, tip: &[u8]) -> Result<(), AllocError> {
        let note = Note::new(Look::Steered, word.as_bytes(), tip);
        self.lanes.put(Place::Antenna, 0, note)
    }

    fn turn_uplink(
        &mut self,
        production: CltuProductionStatus,
        uplink: UplinkStatus,
        tip: &[u8],
    ) -> Result<(), AllocError> {
        let look = match production {
            CltuProductionStatus::Operational => Look::State,
            _ => Look::Halted,
        };
        let note = Note::new(look, production.word().as_bytes(), tip);
        self.lanes.turn(Place::CltuProduction, Some(note))?;
        let look = match uplink {
            UplinkStatus::Nominal => Look::State,
            _ => Look::Halted,
        };
        let note = Note::new(look, uplink.word().as_bytes(), tip);
        self.lanes.turn(Place::Uplink, Some(note))
    }
}
