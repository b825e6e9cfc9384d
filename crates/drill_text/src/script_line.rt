// What the lines of a script say.

use crate::ask_line::AskLine;
use crate::pick::Pick;
use cds_time::Cds;
use fcltu_numbers::{CltuProductionStatus, UplinkStatus};
use octet_core::Octets;
use record_form::Entry;
use sle_numbers::RequestedFrameQuality;

/// What a line of a script says. A connection is a number from 1 to 16.
#[derive(Debug, Drop)]
pub enum ScriptLine {
    /// An empty line, or a comment: a line that begins with `#`.
    Skip,
    /// `frame TIME Q ANT LOST HEX`, `loss TIME A B S`, `production P`, `mark TIME`: an entry is
    /// offered, stored and published. It is valid; a frame may be longer than an archive takes.
    Offer(Entry),
    /// `start TIME TIME Q`: a START of the desk.
    Desk {
        /// The first time that is wanted.
        start: Cds,
        /// The last time that is wanted.
        stop: Cds,
        /// Which frames.
        quality: RequestedFrameQuality,
    },
    /// `clock TIME`: the clock reads this time from now on.
    Clock(Cds),
    /// `open C`: a new connection.
    Open {
        c: u32,
    },
    /// `in C HEX`: a piece of 1 to 65,536 octets arrives.
    Piece {
        c: u32,
        octets: Octets,
    },
    /// `ask C ..`: a whole message arrives.
    Ask {
        c: u32,
        ask: AskLine,
    },
    /// `shut C`: the peer closes behind the pieces that came.
    Shut {
        c: u32,
    },
    /// `break C`: the next poll fails.
    Break {
        c: u32,
    },
    /// `round C N`: 1 to 1000 rounds, as long as the connection is there.
    Round {
        c: u32,
        n: u32,
    },
    /// `stall C N`: the next 1 to 1000 offers stall.
    Stall {
        c: u32,
        n: u32,
    },
    /// `take`, `take fail`: one take turn, whose send fails or doesn't.
    Take {
        fail: bool,
    },
    /// `done`: one done turn for what is in the air.
    Done,
    /// `uplink P U`: the numbers of the production status and of the uplink status.
    Uplink {
        production: CltuProductionStatus,
        status: UplinkStatus,
    },
    /// `crash K PICK`: the K-th counted device call from now on stops, 0 to 1000; 0 is now.
    Crash {
        k: u32,
        pick: Pick,
    },
    /// `fault K`: the K-th counted device call from now on fails, 1 to 1000.
    Fault {
        k: u32,
    },
}
