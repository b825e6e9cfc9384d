// A session's step, made in a turn.
ghost use Rattle.std.specs.Prelude.{◌≡◌, ◌<◌, false, IfOk, OnOk, OnErr};
ghost use Rattle.cds_time.specs.declared.cds.TheConstants.{MOMENT_END};
ghost use Rattle.station_config.specs.Validity.{IsSite};
ghost use Rattle.station_book.specs.Named.{IsMadeBy};
ghost use Rattle.session_core.specs.Outcome.{has_ended};
ghost use Rattle.station_turns.specs.Turned.{IsReady, Leaves};
ghost use Rattle.session_turns.specs.Stepping.{call_now, StepsBy, StepsOnce};

use crate::asked::Asked;
use octet_core::Memory;
use session_core::Session;
use station_book::laws::{legal_by, more_by, origin_by};
use station_book::{Book, Event, Station};
use station_config::Site;
use std::sync::Wait;
use turn_lock::Pass;

// Makes the step of a session that hasn't ended, and names its event.
#[tactic(auto, using(crate::proofs::Steps::book_by, crate::proofs::Steps::steps_by))]
fn step_named(
    session: &mut Session,
    site: &Site,
    book: &mut Book,
    reading: u128,
) -> Result<Asked, Memory>
    requires site { IsSite site.now }
    requires reading { reading < MOMENT_END }
    requires going { has_ended session.old ≡ false }
    ensures made { IfOk result (λ asked. IsMadeBy
        (call_now site.now session.old book.old reading) book.old book.new asked) }
    ensures stands { IfOk result (λ asked. StepsBy site.now asked session.old session.new) }
    ensures err { OnErr result (book.new ≡ book.old) }
{
    let asked = Asked::of(session, site, book, reading);
    session.step(site, book, reading)?;
    Ok(asked)
}

// Has a session's step made in a turn of its own. After want of memory the turn was left.
pub(crate) fn step<R: Wait>(
    rt: &R,
    station: &Station,
    pass: &mut Pass<Event>,
    site: &Site,
    session: &mut Session,
    reading: u128,
) -> Result<(), Memory>
    requires ready { IsReady station.now pass.old }
    requires left { 0 < pass.old.left }
    requires site { IsSite site.now }
    requires reading { reading < MOMENT_END }
    requires going { has_ended session.old ≡ false }
    ensures made { OnOk result (StepsOnce station.now site.now reading session.old session.new
        pass.old pass.new) }
    ensures left { OnErr result (Leaves station.now pass.old pass.new) }
{
    let mut turn = station.enter(rt, pass);
    more_by();
    origin_by();
    legal_by();
    match step_named(session, site, turn.value_mut(), reading) {
        Ok(asked) => {
            station.commit_by(pass, turn, &asked);
            Ok(())
        }
        Err(Memory) => {
            station.leave(pass, turn);
            Err(Memory)
        }
    }
}
