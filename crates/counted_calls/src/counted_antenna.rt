// An antenna whose calls are counted.

use antenna_core::Antenna;
use octet_core::Failed;
use station_board::Board;

/// An antenna whose board, if it has one, counts when each sending begins and how it ends.
#[derive(Drop)]
pub struct CountedAntenna<A: Antenna> {
    /// The antenna.
    pub antenna: A,
    /// Where its calls are counted.
    pub board: Option<Board>,
}

// Counts that a sending began.
fn count_begun(board: &Option<Board>) {
    if let Some(board) = board {
        board.sending();
    }
}

// Counts how it ended.
fn count_ended(board: &Option<Board>, answer: &Result<(), Failed>) {
    if let Some(board) = board {
        board.sending_ended(answer.is_ok());
    }
}

impl<A: Antenna> Antenna for CountedAntenna<A> {
    ghost sent = { λ counted. A.sent counted.antenna };

    ghost faults = { λ counted. A.faults counted.antenna };

    fn send(&mut self, octets: &[u8]) -> Result<(), Failed> {
        count_begun(&self.board);
        let answer = self.antenna.send(octets);
        count_ended(&self.board, &answer);
        answer
    }
}
