// The buffers of a START.
ghost use Rattle.std.specs.Prelude.{◌≡◌, ℕ, ◌≤◌, ◌<◌, ◌^◌, false, IsTrue, List, [], length, map};
ghost use Rattle.std.specs.Prelude.{IfOk, OnOk, OnErr};
ghost use Rattle.archive_terms.specs.Archive.{Entry, IsArchive};
ghost use Rattle.archive_terms.specs.Selection as terms;
ghost use Rattle.archive_terms.specs.Delivery.{Terms};
ghost use Rattle.archive_terms.specs.Rounds.{Round, last_front};
ghost use Rattle.sle_numbers.specs.RequestedFrameQuality.{number_of};
ghost use Rattle.frame_select.specs.Item.{items_of, said_of};
ghost use Rattle.frame_select.specs.Selection.{selection_of};
ghost use Rattle.return_core.specs.Course.{is_offering};
ghost use Rattle.return_core.specs.Standing.{StandsFor, Steps};
ghost use Rattle.station_desk.specs.ToldBuffer.{message_octets};
ghost use Rattle.station_desk.specs.Start.{told_desk};
ghost use Rattle.station_desk.specs.Start as desk;
ghost use Rattle.station_desk.specs.Cursor.{before_first, at_next, with_taken, current, terms_of};
ghost use Rattle.station_desk.specs.Cursor.{IsBetween, IsOnItsWay};

use crate::laws::a_start_is_read;
use crate::limits::BUFFER_ITEMS;
use crate::looks::Looks;
use crate::message::message;
use archive_terms::laws::offline_rounds;
use ber_core::Writer;
use cds_time::Cds;
use frame_select::{Filter, Item, Selection};
use octet_core::{Memory, Offer};
use return_core::Delivery;
use return_core::laws::{looks_are_of_archive, rounds_without_an_offer};
use sle_numbers::{RequestedFrameQuality, ReturnDeliveryMode};
use std::alloc::Global;
use std::marker::Model;

// The moment of each round: an offline delivery has no latency.
const NOW: u128 = 0;

/// The buffers of a START of the desk, one after the other.
#[derive(Drop)]
pub struct Buffers<'a, L: Looks> {
    alloc: Global,
    entries: &'a L,
    selection: Selection,
    delivery: Delivery,
    // How many were handed over, with the current one. There are at most as many as entries, and
    // one more with the end of data.
    count: u128,
}

impl<'a, L: Looks> Model for Buffers<'a, L> {
    ghost use Rattle.frame_select.specs.Selection.{selection_of};
    ghost use Rattle.return_core.specs.Course.{is_offering};
    ghost use Rattle.station_desk.specs.Cursor.{Cursor, told_of, IsRight};

    ghost Value = { Cursor };

    ghost view = { λ b. record {
      buffers = told_of (selection_of b.selection) (L.entries b.entries.now);
      count = b.count;
      has_current = is_offering b.delivery;
    } };

    ghost invariant = { λ b. IsRight (selection_of b.selection) (L.entries b.entries.now) b.count
        b.delivery };
}

impl<'a, L: Looks> Buffers<'a, L> {
    /// Begins a START for frames from one time to another, of a quality or of all.
    pub fn of_start(
        alloc: Global,
        entries: &'a L,
        start: &Cds,
        stop: &Cds,
        quality: RequestedFrameQuality,
    ) -> Result<Buffers<'a, L>, Memory>
        requires { IsArchive (L.entries entries.now) }
        ensures { IfOk result (λ buffers. buffers
            ≡ before_first (told_desk (L.entries entries.now) start.now stop.now
            (number_of quality))) }
    {
        a_start_is_read();
        let selection = selection(start, stop, quality);
        Ok(Buffers {
            alloc,
            entries,
            selection,
            delivery: begin(alloc, selection)?,
            count: 0,
        })
    }

    /// Hands the current buffer over, if there is one, and goes on to the next. Says whether there
    /// is a next one.
    pub fn advance(&mut self) -> Result<bool, Memory>
        ensures ok { IfOk result (λ found. (self.new ≡ at_next self.old)
            × (found ≡ self.new.has_current)) }
        ensures err { OnErr result (self.new ≡ with_taken self.old) }
    {
        offline_rounds();
        rounds_without_an_offer();
        take(&mut self.delivery);
        let found = look(self.entries, &mut self.delivery)?;
        self.count += u128::from(found);
        Ok(found)
    }

    /// The items of the current buffer.
    pub fn items(&self) -> &[Item]
        requires { IsTrue self.now.has_current }
        ensures said { items_of result.now ≡ map said_of (current self.now) }
        ensures few { length result.now ≤ BUFFER_ITEMS }
    {
        self.delivery.current()
    }

    /// The message that hands the current buffer over (CCSDS 913.1-B).
    pub fn message(&self) -> Result<Writer, Memory>
        requires { IsTrue self.now.has_current }
        ensures { IfOk result (λ writer. writer.octets ≡ message_octets (current self.now)) }
    {
        message(self.alloc, self.items())
    }
}

// What a START selects.
fn selection(start: &Cds, stop: &Cds, quality: RequestedFrameQuality) -> Selection
    ensures { selection_of result ≡ desk.selection start.now stop.now (number_of quality) }
{
    Selection {
        filter: Filter::Quality(quality),
        start: Some(start.moment().unwrap_or(0)),
        stop: Some(stop.moment().unwrap_or(0)),
        first: 0,
        notices: false,
    }
}

// A delivery whose START begins.
fn begin(alloc: Global, selection: Selection) -> Result<Delivery, Memory>
    ensures none { IfOk result (λ delivery. is_offering delivery ≡ false) }
    ensures stands { IfOk result (λ delivery. (entries : List Entry) → IsArchive entries
        → selection.first ≤ length entries
        → StandsFor delivery (terms_of (selection_of selection)) entries []) }
{
    let Ok(mut delivery) = Delivery::new(alloc, ReturnDeliveryMode::Offline, BUFFER_ITEMS, None)
    else {
        return Err(Memory);
    };
    delivery.start(selection);
    Ok(delivery)
}

// The buffer that is offered, if one is, is taken.
fn take(delivery: &mut Delivery)
    ensures none { is_offering delivery.new ≡ false }
    ensures taken { (s : terms.Selection) (entries : List Entry) (count : ℕ)
        → IsOnItsWay s entries count delivery.old (is_offering delivery.old)
        → IsBetween s entries count delivery.new }
{
    delivery.settle(Offer::Whole);
}

// Looks for the next buffer, and says whether there is one.
fn look<L: Looks>(entries: &L, delivery: &mut Delivery) -> Result<bool, Memory>
    requires { IsArchive (L.entries entries.now) }
    ensures few { OnOk result (length (L.entries entries.now) < 2 ^ 64) }
    ensures offers { IfOk result (λ offers. offers ≡ is_offering delivery.new) }
    ensures steps { OnOk result ((t : Terms) (rounds : List Round)
        → StandsFor delivery.old t (L.entries entries.now) rounds
        → last_front t.selection.first rounds ≤ length (L.entries entries.now)
        → Steps delivery.new t (L.entries entries.now) rounds (length (L.entries entries.now)) 0) }
    ensures err { OnErr result (delivery.new ≡ delivery.old) }
{
    looks_are_of_archive();
    let glimpse = entries.look(&delivery.want())?;
    Ok(delivery.step(glimpse, NOW))
}
