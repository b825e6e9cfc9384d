// What a worker's clock writes on a board.

use crate::board::Board;

/// The place of a worker on a board.
#[derive(Drop)]
pub struct TurnPen {
    board: Board,
    worker: Worker,
}

// A worker whose turns a clock counts.
#[derive(Clone, Copy)]
enum Worker {
    Antenna,
    Door(usize),
}

impl TurnPen {
    /// The place of the antenna's worker.
    pub fn antenna(board: Board) -> TurnPen {
        TurnPen {
            board,
            worker: Worker::Antenna,
        }
    }

    /// The place of the worker of the door of this number, from 0.
    pub fn door(board: Board, door: usize) -> TurnPen {
        TurnPen {
            board,
            worker: Worker::Door(door),
        }
    }

    /// The worker began a turn.
    pub fn turned(&self) {
        match self.worker {
            Worker::Antenna => self.board.antenna_turned(),
            Worker::Door(door) => {
                if let Some(door) = self.board.door(door) {
                    door.turned(self.board.at());
                }
            }
        }
    }
}
