// A call that is held.

use crate::Stage;

/// Which call of a double is held until a link was handed an answer meanwhile.
#[derive(Drop)]
pub struct Hold {
    stage: Stage,
    call: u64,
    calls: u64,
    missed: bool,
}

impl Hold {
    /// The call of this number is held, counted from 1, and none at 0.
    pub fn new(stage: Stage, call: u64) -> Hold {
        Hold {
            stage,
            call,
            calls: 0,
            missed: false,
        }
    }

    /// A call begins, and is held if it is the one.
    pub fn begin(&mut self) {
        self.calls = self.calls.saturating_add(1);
        if self.calls == self.call {
            self.stage.reach(Stage::HELD);
            self.missed = !self.stage.wait(Stage::ANSWERED);
        }
    }

    /// Whether the call went on without such an answer.
    pub fn is_missed(&self) -> bool {
        self.missed
    }
}
