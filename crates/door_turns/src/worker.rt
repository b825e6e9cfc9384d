// A door's worker.
ghost use Rattle.std.specs.Prelude.{◌≡◌, ◌≤◌, ◌<◌, true};
ghost use Rattle.octet_core.specs.Fault.{Rose};
ghost use Rattle.station_config.specs.Validity.{IsSite};
ghost use Rattle.station_turns.specs.Turned.{IsReady};
ghost use Rattle.door_turns.specs.Visits.{at_door};
ghost use Rattle.door_turns.specs.Working.{Served, Works};

use crate::visit::{Visit, make_visit};
use cds_time::Clock;
use door_model::Door;
use station_book::{Event, Station};
use station_config::Site;
use station_seats::DoorReport;
use station_turns::gone;
use station_turns::laws::gains_compose;
use std::alloc::Global;
use std::sync::Wait;
use turn_lock::Pass;

// Serves links until an end.
fn serve_links<R: Wait, G: Door, C: Clock>(
    rt: &R,
    alloc: Global,
    station: &Station,
    pass: &mut Pass<Event>,
    site: &Site,
    door: &mut G,
    clock: &mut C,
    number: u32,
    links: u32,
    draw: u32,
) -> DoorReport
    requires ready { IsReady station.now pass.old }
    requires left { 1 ≤ pass.old.left }
    requires site { IsSite site.now }
    ensures ready { IsReady station.now pass.new }
    ensures left { 1 ≤ pass.new.left }
    ensures served { Served G.shown G.faults G.Link.calls G.Link.faults C.readings station.now
        site.now number draw links result (at_door door.old clock.old pass.old)
        (at_door door.new clock.new pass.new) }
{
    gains_compose();
    let mut report = DoorReport {
        links: 0,
        spent: false,
        failed: false,
        memory: false,
    };
    'links: while report.links < u64::from(links) {
        if pass.left() < 3 {
            report.spent = true;
            return report;
        }
        match make_visit(rt, alloc, station, pass, site, door, clock, number, draw) {
            Visit::Served => report.links += 1,
            Visit::Spent => {
                report.links += 1;
                report.spent = true;
                return report;
            }
            Visit::Memory => {
                report.links += 1;
                report.memory = true;
                return report;
            }
            Visit::NoMore => return report,
            Visit::Failed => {
                report.failed = true;
                return report;
            }
        }
    }
    report
}

/// Takes up to so many links of a door one after the other, has each served and gives it back, and
/// tells in a turn at its end that the worker of this number is gone. It waits where the door does.
/// The report says how many links the door gave, and whether turns were spent, the door failed or
/// memory was wanted.
pub fn serve_door<R: Wait, G: Door, C: Clock>(
    rt: &R,
    alloc: Global,
    station: &Station,
    pass: &mut Pass<Event>,
    site: &Site,
    door: &mut G,
    clock: &mut C,
    number: u32,
    links: u32,
    draw: u32,
) -> DoorReport
    requires ready { IsReady station.now pass.old }
    requires left { 1 ≤ pass.old.left }
    requires site { IsSite site.now }
    requires number { number < station.now.origin.workers }
    ensures ready { IsReady station.now pass.new }
    ensures works { Works G.shown G.faults G.Link.calls G.Link.faults C.readings station.now
        site.now number draw links result (at_door door.old clock.old pass.old)
        (at_door door.new clock.new pass.new) }
{
    gains_compose();
    let report = serve_links(
        rt, alloc, station, pass, site, door, clock, number, links, draw,
    );
    gone(rt, station, pass, number);
    report
}
