// What lines led to, by the lines of the transcript.

use crate::marked::without_end;
use crate::message::{notice_word, plain_word, put_frames, put_told};
use crate::pass::Reading;
use drill_text::EndWord;
use explain_lines::{Transcribed, parse_transcript};
use explain_words::Text;
use isp1_tml::{Message, Messages};
use lane_picture::Look;
use line_meaning::put_transcript_line;
use pass_lanes::{Fate, Note, Place};
use return_pdu::{TransferBuffer, TransferItem};
use std::alloc::AllocError;
use user_lines::Told;
use words::Unread;

// The row of a connection's lane in which the first line stands that its user is told.
const SAID: u32 = 2;

// How many marks these have in a column; one more says that there are more.
const MOST: u32 = 8;

impl Reading<'_> {
    // Puts the lines of the transcript to which a line led, and appends what they say.
    pub(crate) fn put_said(&mut self, said: &[u8], words: &mut Text) -> Result<(), AllocError> {
        for line in without_end(said).split(|octet| *octet == b'\n') {
            match parse_transcript(self.alloc, line) {
                Ok(says) => self.put_transcribed(&says, words)?,
                Err(Unread::Bad) => {}
                Err(Unread::Memory) => return Err(AllocError),
            }
        }
        Ok(())
    }

    fn put_transcribed(&mut self, says: &Transcribed, words: &mut Text) -> Result<(), AllocError> {
        let service = self.services.of(connection_of(says));
        let mut tip = Text::new(self.alloc);
        put_transcript_line(service, says, &mut tip);
        let told = tip.octets()?;
        words.put_octets(told);
        match says {
            Transcribed::Sent { c, octets } => self.put_messages(*c, octets.as_slice(), told),
            Transcribed::Stalled { c } => self.put_told(*c, Look::Late, b"stalled", told),
            Transcribed::Discarded { c, n } => self.put_discarded(*c, *n, told),
            Transcribed::Ended { c, word } => {
                self.put_told(*c, Look::Ended, end_text(*word).as_bytes(), told)?;
                self.end_state(*c)
            }
            Transcribed::Refused => self.put_told(0, Look::Refused, b"START no 3", told),
            Transcribed::Fault | Transcribed::Crash | Transcribed::Archive { .. } => {
                self.put_failure(says, told)
            }
            _ => self.put_taken(says, told),
        }
    }

    // Puts what a connection's user is told, below what was told before in this column.
    fn put_told(&mut self, c: u32, look: Look, text: &[u8], tip: &[u8]) -> Result<(), AllocError> {
        let place = self.said;
        self.said = place.saturating_add(1);
        let row = SAID.saturating_add(place.min(MOST));
        if place < MOST {
            self.lanes
                .put(Place::Connection(c), row, Note::new(look, text, tip))
        } else if place == MOST {
            let note = Note::new(look, b"and more", b"more than this picture shows");
            self.lanes.put(Place::Connection(c), row, note)
        } else {
            Ok(())
        }
    }

    fn put_discarded(&mut self, c: u32, n: u32, tip: &[u8]) -> Result<(), AllocError> {
        let mut text = Text::new(self.alloc);
        text.put("discards ");
        text.put_number(i128::from(n));
        self.put_told(c, Look::Late, text.octets()?, tip)
    }

    // Puts the messages of octets that a user was sent.
    fn put_messages(&mut self, c: u32, octets: &[u8], tip: &[u8]) -> Result<(), AllocError> {
        let mut messages = Messages::new(octets, 0);
        while let Ok(Some(message)) = messages.next_message() {
            self.put_message(c, message, tip)?;
        }
        Ok(())
    }

    fn put_message(&mut self, c: u32, message: Message<'_>, tip: &[u8]) -> Result<(), AllocError> {
        let word = plain_word(&message);
        match Told::of(self.services.of(c), message) {
            Some(Told::Items(items)) => self.put_items(c, items, tip),
            Some(Told::Nothing) | None => self.put_told(c, Look::Offered, word.as_bytes(), tip),
            Some(told) => {
                self.hear_told(c, &told, tip)?;
                let mut text = Text::new(self.alloc);
                put_told(&told, &mut text);
                self.put_told(c, Look::Offered, text.octets()?, tip)
            }
        }
    }

    // Puts what a transfer buffer has: frames that stand together in one mark.
    fn put_items(
        &mut self,
        c: u32,
        buffer: TransferBuffer<'_>,
        tip: &[u8],
    ) -> Result<(), AllocError> {
        let mut buffer = buffer;
        let mut frames = 0u32;
        while let Some(item) = buffer.next() {
            frames = self.put_item(c, frames, &item, tip)?;
        }
        self.put_frames(c, frames, tip)
    }

    // Puts an item behind so many frames that have no mark yet, and answers how many these are then.
    fn put_item(
        &mut self,
        c: u32,
        frames: u32,
        item: &TransferItem<'_>,
        tip: &[u8],
    ) -> Result<u32, AllocError> {
        match item {
            TransferItem::Frame { .. } => Ok(frames.saturating_add(1)),
            TransferItem::Told { notice, .. } => {
                self.put_frames(c, frames, tip)?;
                self.put_told(c, Look::Offered, notice_word(notice).as_bytes(), tip)?;
                Ok(0)
            }
        }
    }

    fn put_frames(&mut self, c: u32, frames: u32, tip: &[u8]) -> Result<(), AllocError> {
        if frames == 0 {
            return Ok(());
        }
        let mut text = Text::new(self.alloc);
        put_frames(frames, &mut text);
        self.put_told(c, Look::Offered, text.octets()?, tip)
    }

    // Puts a failure, and what a restart or a reopen found.
    fn put_failure(&mut self, says: &Transcribed, tip: &[u8]) -> Result<(), AllocError> {
        match says {
            Transcribed::Fault => self.put_failed(b"disk fault", tip),
            Transcribed::Crash => {
                self.put_failed(b"power off", tip)?;
                self.lanes.discard_cltus();
                self.lanes.cut_connections()
            }
            Transcribed::Archive { entries } => self.put_found(*entries, tip),
            _ => Ok(()),
        }
    }

    fn put_failed(&mut self, text: &[u8], tip: &[u8]) -> Result<(), AllocError> {
        let note = Note::new(Look::Failed, text, tip);
        self.lanes.put(Place::Failures, 0, note)
    }

    fn put_found(&mut self, entries: u64, tip: &[u8]) -> Result<(), AllocError> {
        let mut text = Text::new(self.alloc);
        text.put("archive ");
        text.put_number(i128::from(entries));
        let note = Note::new(Look::Ended, text.octets()?, tip);
        self.lanes.put(Place::Failures, 1, note)
    }

    // Puts the answer of a take turn.
    fn put_taken(&mut self, says: &Transcribed, tip: &[u8]) -> Result<(), AllocError> {
        match says {
            Transcribed::Radiated { id, .. } => {
                self.lanes.cltu_taken(*id, Fate::InAir);
                self.put_cltu_mark(Look::Sent, "sends ", *id, tip)
            }
            Transcribed::Expired { id } => {
                self.lanes.cltu_taken(*id, Fate::Expired);
                self.put_cltu_mark(Look::Late, "expired ", *id, tip)
            }
            Transcribed::Failed { id } => {
                self.lanes.cltu_taken(*id, Fate::Failed);
                self.put_cltu_mark(Look::Failed, "failed ", *id, tip)
            }
            Transcribed::Waits => self.put_answer("waits", tip),
            Transcribed::Idle => self.put_answer("idle", tip),
            _ => Ok(()),
        }
    }

    fn put_answer(&mut self, word: &str, tip: &[u8]) -> Result<(), AllocError> {
        let note = Note::new(Look::Waiting, word.as_bytes(), tip);
        self.lanes.put(Place::Antenna, 1, note)
    }

    fn put_cltu_mark(
        &mut self,
        look: Look,
        word: &str,
        id: u32,
        tip: &[u8],
    ) -> Result<(), AllocError> {
        let mut text = Text::new(self.alloc);
        text.put(word);
        text.put_number(i128::from(id));
        let note = Note::new(look, text.octets()?, tip);
        self.lanes.put(Place::Antenna, 1, note)
    }
}

// The connection that a line is of; 0 where it is of none.
fn connection_of(says: &Transcribed) -> u32 {
    match says {
        Transcribed::Sent { c, .. }
        | Transcribed::Stalled { c }
        | Transcribed::Discarded { c, .. }
        | Transcribed::Ended { c, .. } => *c,
        _ => 0,
    }
}

// How a connection ended, as it stands on its mark.
fn end_text(word: EndWord) -> &'static str {
    match word {
        EndWord::Unbound => "unbound",
        EndWord::Closed => "closed",
        EndWord::Denied => "denied",
        EndWord::Range => "range",
        EndWord::Broken(_) => "broken",
        EndWord::Aborted(_) => "aborted",
        EndWord::PeerAborted(_) => "peer aborts",
        EndWord::Fault => "link fault",
    }
}
