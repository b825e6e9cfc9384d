// The states of connections.

use crate::pass::Reading;
use crate::service::short_name;
use explain_words::Text;
use lane_picture::Look;
use pass_lanes::{Note, Place};
use sle_numbers::ServiceType;
use std::alloc::AllocError;
use user_lines::{Tag, Told};

impl Reading<'_> {
    // A connection is in this state from now on.
    pub(crate) fn turn_state(&mut self, c: u32, word: &str, tip: &[u8]) -> Result<(), AllocError> {
        let note = Note::new(Look::State, word.as_bytes(), tip);
        self.lanes.turn(Place::Connection(c), Some(note))
    }

    // The same, with its service.
    fn turn_served(&mut self, c: u32, word: &str, tip: &[u8]) -> Result<(), AllocError> {
        let mut text = Text::new(self.alloc);
        text.put(short_name(self.services.of(c)));
        text.put(word);
        let note = Note::new(Look::State, text.octets()?, tip);
        self.lanes.turn(Place::Connection(c), Some(note))
    }

    // What a message that a user is sent makes of the connection's state, and of its CLTUs. (The
    // desk's doesn't change.)
    pub(crate) fn hear_told(
        &mut self,
        c: u32,
        told: &Told<'_>,
        tip: &[u8],
    ) -> Result<(), AllocError> {
        match told {
            Told::Returned {
                tag,
                refusal: None,
                ..
            } => self.hear_done(c, *tag, tip),
            Told::Transferred { refusal, .. } => {
                self.lanes.cltu_returned(refusal.is_some());
                Ok(())
            }
            _ => Ok(()),
        }
    }

    // What a positive return makes of it.
    fn hear_done(&mut self, c: u32, tag: Tag, tip: &[u8]) -> Result<(), AllocError> {
        match tag {
            Tag::BindReturn => self.turn_served(c, " bound", tip),
            Tag::StartReturn => self.turn_served(c, " active", tip),
            Tag::StopReturn => {
                self.drop_cltus(c);
                self.turn_served(c, " bound", tip)
            }
            _ => Ok(()),
        }
    }

    // A connection has ended.
    pub(crate) fn end_state(&mut self, c: u32) -> Result<(), AllocError> {
        self.drop_cltus(c);
        self.lanes.turn(Place::Connection(c), None)
    }

    // What waits of CLTUs is discarded where the connection is that of their service.
    fn drop_cltus(&mut self, c: u32) {
        if self.services.of(c) == ServiceType::FwdCltu {
            self.lanes.discard_cltus();
        }
    }
}
