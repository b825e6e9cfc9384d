// Rounds from a session's beginning.
ghost use Rattle.std.specs.Prelude.{ℕ, ◌<◌, IfOk, OnErr, length, slice_index};
ghost use Rattle.cds_time.specs.declared.cds.TheConstants.{MOMENT_END};
ghost use Rattle.link_model.specs.Counts.{CountsWhere};
ghost use Rattle.station_config.specs.Validity.{IsSite};
ghost use Rattle.session_core.specs.Outcome.{StallsAtMost};
ghost use Rattle.session_core.specs.Session.{is_fault};
ghost use Rattle.session_core.specs.Serving.{Serves, Breaks, began_of};

use crate::session::Session;
use crate::spoken::Spoken;
use link_model::Link;
use octet_core::Memory;
use station_book::Book;
use station_config::Site;
use std::alloc::Global;

/// Where and when a session begins: its site, its door, the program's draw, and the moment in
/// picoseconds since 1958-01-01.
#[derive(Clone, Copy)]
pub struct Start<'a> {
    pub site: &'a Site,
    pub door: u32,
    pub draw: u32,
    pub entered: u128,
}

/// A session's rounds from its beginning, one at each of these readings of the clock, until it ends
/// or its link fails; and what they came to.
pub fn run_rounds<L: Link>(
    alloc: Global,
    start: Start<'_>,
    book: &mut Book,
    readings: &[u128],
    link: &mut L,
) -> Result<Spoken, Memory>
    requires site { IsSite start.site.now }
    requires readings { (i : ℕ) → slice_index readings.now i < MOMENT_END }
    ensures session { IfOk result (Serves (began_of start.entry) (L.calls link.old)
        (L.calls link.new) book.old book.new readings.now) }

    // The link's count of faults rises exactly where this ends by a fault of the link.
    ensures faults { IfOk result (λ end. CountsWhere (is_fault end) (L.faults link.old)
        (L.faults link.new)) }

    // Its count of stalls rises by one a round at most, also where memory runs out in the last one.
    ensures stalls { StallsAtMost (length readings.now) (L.stalls link.old) (L.stalls link.new) }

    // After want of memory the rounds made until then stand.
    ensures memory { OnErr result (Breaks (began_of start.entry) (L.calls link.old)
        (L.calls link.new) (L.faults link.old) (L.faults link.new) book.old book.new
        readings.now) }
{
    let mut session = Session::new(alloc, start.door, start.draw, start.entered)?;
    for reading in readings {
        match session.round(start.site, book, *reading, link)? {
            Spoken::Going => {}
            end => return Ok(end),
        }
    }
    Ok(Spoken::Going)
}
