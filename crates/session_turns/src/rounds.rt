// The rounds of a session, one turn each.
ghost use Rattle.std.specs.Prelude.{◌≡◌, ◌+◌, ◌<◌, ◌≤◌, IfOk, OnOk, OnErr};
ghost use Rattle.station_config.specs.Validity.{IsSite};
ghost use Rattle.session_core.specs.Outcome.{come_to};
ghost use Rattle.session_core.specs.declared.spoken.Spoken.TheVariants.{Going};
ghost use Rattle.station_turns.specs.Turned.{IsReady};
ghost use Rattle.session_turns.specs.Rounds.{Ran, Broke, RanOut, worker};

use crate::serve_fault::ServeFault;
use crate::step::step;
use cds_time::Clock;
use link_model::Link;
use octet_core::Memory;
use session_core::{Ended, Session, Spoken};
use station_book::{Event, Station};
use station_config::Site;
use station_turns::laws::{gains_compose, readings_compose};
use station_turns::read;
use std::sync::Wait;
use turn_lock::Pass;

// One round, whose step is made in a turn.
fn round<R: Wait, L: Link, C: Clock>(
    rt: &R,
    station: &Station,
    pass: &mut Pass<Event>,
    site: &Site,
    session: &mut Session,
    link: &mut L,
    clock: &mut C,
) -> Result<Spoken, Memory>
    requires ready { IsReady station.now pass.old }
    requires left { 0 < pass.old.left }
    requires site { IsSite site.now }
    requires going { come_to session.old ≡ Going }
    ensures ready { IsReady station.now pass.new }
    ensures turns { pass.new.left + 1 ≡ pass.old.left }
    ensures ran { OnOk result (Ran L.calls L.faults C.readings station.now site.now session.old
        session.new (worker link.old clock.old pass.old) (worker link.new clock.new pass.new)) }
    ensures outcome { IfOk result (λ spoken. spoken ≡ come_to session.new) }
    ensures broke { OnErr result (Broke L.calls L.faults C.readings station.now site.now session.old
        (worker link.old clock.old pass.old) (worker link.new clock.new pass.new)) }
{
    gains_compose();
    session.listen(link);
    let reading = read(clock);
    let Ok(()) = step(rt, station, pass, site, session, reading) else {
        return Err(Memory);
    };
    Ok(session.speak(link))
}

// Rounds until the session ends or two turns are left.
pub(crate) fn rounds<R: Wait, L: Link, C: Clock>(
    rt: &R,
    station: &Station,
    pass: &mut Pass<Event>,
    site: &Site,
    session: &mut Session,
    link: &mut L,
    clock: &mut C,
) -> Result<Ended, ServeFault>
    requires ready { IsReady station.now pass.old }
    requires left { 2 ≤ pass.old.left }
    requires site { IsSite site.now }
    requires going { come_to session.old ≡ Going }
    ensures ready { IsReady station.now pass.new }
    ensures left { 2 ≤ pass.new.left }
    ensures ran { RanOut L.calls L.faults C.readings station.now site.now result session.old
        session.new (worker link.old clock.old pass.old) (worker link.new clock.new pass.new) }
{
    gains_compose();
    readings_compose();
    'rounds: while pass.left() > 2 {
        match round(rt, station, pass, site, session, link, clock) {
            Ok(Spoken::Going) => {}
            Ok(Spoken::Ended(end)) => return Ok(end),
            Ok(Spoken::LinkFault) => return Err(ServeFault::LinkFault),
            Err(Memory) => return Err(ServeFault::Memory),
        }
    }
    Err(ServeFault::TurnsSpent)
}
