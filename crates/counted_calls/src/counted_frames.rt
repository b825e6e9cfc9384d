// A source of entries whose answers are counted.

use record_form::Entry;
use recorder::{Feed, FrameSource};
use station_board::{Board, EntryKind};

// The octets that an entry of the archive has at least beside those of its frame.
const HEAD: u64 = 16;

/// A source of entries whose board, if it has one, counts what it gave, by kind. The recorder calls it
/// in each turn, so it counts the recorder's turns too, and its end after an answer that ends it.
#[derive(Drop)]
pub struct CountedFrames<F: FrameSource> {
    /// The source.
    pub frames: F,
    /// Where its answers are counted.
    pub board: Option<Board>,
}

// Counts that the recorder began a turn.
fn count_turn(board: &Option<Board>) {
    if let Some(board) = board {
        board.recorder_turned();
    }
}

// Counts an answer.
fn count(board: &Option<Board>, answer: &Feed) {
    let Some(board) = board else {
        return;
    };
    board.recorder_turned();
    match answer {
        Feed::Entry(entry) => count_entry(board, entry),
        Feed::NotYet => {}
        Feed::End | Feed::Memory => board.recorder_ended(),
        Feed::Failed => {
            board.source_failed();
            board.recorder_ended();
        }
    }
}

// Counts an entry.
fn count_entry(board: &Board, entry: &Entry) {
    match entry {
        Entry::Frame { octets, .. } => {
            let needed = (octets.len() as u64).saturating_add(HEAD);
            board.entry_came(EntryKind::Frame, needed);
        }
        Entry::LossOfSync { .. } => board.entry_came(EntryKind::Loss, HEAD),
        Entry::Production { .. } => board.entry_came(EntryKind::Production, HEAD),
        Entry::Seal { .. } => board.entry_came(EntryKind::Seal, HEAD),
    }
}

impl<F: FrameSource> FrameSource for CountedFrames<F> {
    ghost answers = { λ counted. F.answers counted.frames };

    ghost faults = { λ counted. F.faults counted.frames };

    fn next(&mut self) -> Feed {
        count_turn(&self.board);
        let answer = self.frames.next();
        count(&self.board, &answer);
        answer
    }
}
