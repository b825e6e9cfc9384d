// A job under the lock.
ghost use Rattle.std.specs.Prelude.{◌≡◌, ◌+◌, ◌<◌, IfOk, OnErr, Some};
ghost use Rattle.cds_time.specs.declared.cds.TheConstants.{MOMENT_END};
ghost use Rattle.turn_lock.specs.declared.pass.Standing.TheVariants.{Ready};
ghost use Rattle.station_book.specs.State.{opened};
ghost use Rattle.station_book.specs.History.{IsLegal};
ghost use Rattle.sample_book.specs.Jobs.{call_of};
ghost use Rattle.sample_book.specs.Worked.{MadeOne};

use crate::job::{Job, Outcome};
use octet_core::Memory;
use station_book::laws::{one_event_more, the_origin_stays};
use station_book::{Event, Station};
use std::sync::Wait;
use turn_lock::Pass;

/// Does a job in a turn of its own. After want of memory the turn was left, and nothing was done.
pub fn do_job<R: Wait>(
    rt: &R,
    station: &Station,
    pass: &mut Pass<Event>,
    door: u32,
    reading: u128,
    job: Job,
) -> Result<Outcome, Memory>
    requires lock { pass.old.lock ≡ Some station.now }
    requires ready { (pass.old.standing ≡ Ready) × (0 < pass.old.left) }
    requires moment { reading < MOMENT_END }
    ensures ready { (pass.new.lock ≡ pass.old.lock) × (pass.new.standing ≡ Ready)
        × (pass.new.joined ≡ pass.old.joined) }
    ensures turns { (pass.new.left + 1 ≡ pass.old.left)
        × (pass.new.entered ≡ pass.old.entered + 1) }
    ensures made { IfOk result (λ outcome. MadeOne station.now.origin (call_of door reading job)
        outcome pass.old pass.new) }
    ensures left { OnErr result (pass.new.own ≡ pass.old.own) }
    ensures legal { IsLegal (opened station.now.origin) pass.new.seen }
{
    let mut turn = station.enter(rt, pass);
    one_event_more();
    the_origin_stays();
    let (made, event) = job.run(turn.value_mut(), door, reading);
    match made {
        Ok(outcome) => {
            station.commit_by(pass, turn, &event);
            Ok(outcome)
        }
        Err(Memory) => {
            station.leave(pass, turn);
            Err(Memory)
        }
    }
}
