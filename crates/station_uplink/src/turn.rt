// The turns of a script's uplink.
ghost use Rattle.std.specs.Prelude.{◌≡◌};
ghost use Rattle.station_uplink.specs.Turns.{turn_of};

use drill_text::ScriptLine;
use fcltu_numbers::{CltuProductionStatus, UplinkStatus};

/// A turn of a station's uplink.
#[derive(Clone, Copy, Debug, PartialEq, Eq)]
pub enum Turn {
    /// What may radiate is taken and sent, or its send fails.
    Take {
        fail: bool,
    },
    /// What is in the air was radiated.
    Done,
    /// Production and uplink have these statuses from now on.
    Uplink {
        production: CltuProductionStatus,
        status: UplinkStatus,
    },
}

impl Turn {
    /// The turn that a line of a script is, if it is one.
    pub fn of(line: &ScriptLine) -> Option<Turn>
        ensures { result ≡ turn_of line.now }
    {
        match line {
            ScriptLine::Take { fail } => Some(Turn::Take { fail: *fail }),
            ScriptLine::Done => Some(Turn::Done),
            ScriptLine::Uplink { production, status } => Some(Turn::Uplink {
                production: *production,
                status: *status,
            }),
            _ => None,
        }
    }
}
