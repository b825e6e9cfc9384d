// How the serving of a link ended, as a door is told.
ghost use Rattle.std.specs.Prelude.{◌≡◌};
ghost use Rattle.door_turns.specs.Visits.{served_of};

use door_model::Served;
use session_core::Ended;
use session_turns::ServeFault;

// How a session ended.
fn ended_as(end: Ended) -> Served
    ensures { result ≡ served_of (Ok end) }
{
    match end {
        Ended::Unbound => Served::Unbound,
        Ended::PeerClosed => Served::PeerClosed,
        Ended::Denied => Served::Denied,
        Ended::Range { interval, factor } => Served::Range { interval, factor },
        Ended::Broken(fault) => Served::Broken(fault),
        Ended::Aborted { diagnostic } => Served::Aborted { diagnostic },
        Ended::PeerAborted { diagnostic } => Served::PeerAborted { diagnostic },
    }
}

// How a serving ended, by its answer.
pub(crate) fn served_as(answer: &Result<Ended, ServeFault>) -> Served
    ensures { result ≡ served_of answer.now }
{
    match answer {
        Ok(end) => ended_as(*end),
        Err(ServeFault::LinkFault) => Served::LinkFault,
        Err(ServeFault::TurnsSpent) => Served::TurnsSpent,
        Err(ServeFault::Memory) => Served::Memory,
    }
}
