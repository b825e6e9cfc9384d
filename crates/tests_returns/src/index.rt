// The index of an archive. What is expected was worked out by hand.
ghost use Rattle.std.specs.Prelude.{◌≡◌, ◌<◌, ◌++◌, ◌∷◌, [], IfOk, OnOk};
ghost use Rattle.archive_terms.specs.Archive.{IsArchive};
ghost use Rattle.record_form.specs.Entry.{entry_of, entries_of};
ghost use Rattle.archive_index.specs.IndexState.{Indexes};

use archive_index::{Index, Shelf, Steps};
use archive_terms::laws::archive_grows;
use cds_time::{Cds, Rest};
use frame_select::{Filter, Selection, Want};
use octet_core::{Memory, Octets};
use record_form::Entry;
use sle_common::{Channel, Gvcid};
use sle_numbers::{
    FrameQuality, LockStatus, Numbered, RequestedFrameQuality, ReturnProductionStatus,
};
use std::alloc::Global;
use std::marker::Brand;
use std::sync::ledger::{Blank, Ledger};
use std::test::Fail;

// Puts an entry behind those of a shelf.
fn put(shelf: &mut Shelf<Entry>, entry: Entry) -> Result<(), Memory>
    ensures { OnOk result (shelf.new ≡ shelf.old ++ entry ∷ []) }
{
    match shelf.push(entry) {
        Ok(()) => Ok(()),
        Err(_) => Err(Memory),
    }
}

// Puts an entry behind those of a shelf and its index.
fn push(index: &mut Index, shelf: &mut Shelf<Entry>, entry: &Entry) -> Result<(), Memory>
    requires { Indexes index.old (entries_of shelf.old) }
    ensures held { OnOk result (shelf.new ≡ shelf.old ++ entry.now ∷ []) }
    ensures indexed { OnOk result (Indexes index.new
        (entries_of shelf.old ++ entry_of entry.now ∷ [])) }
{
    let copy = entry.clone()?;
    index.add(entry)?;
    put(shelf, copy)
}

// The index of these entries, which is none where one doesn't follow those before it, and the
// entries on a shelf.
fn archive_of(alloc: Global, entries: &[Entry]) -> Result<(Index, Shelf<Entry>), Memory>
    ensures indexed { IfOk result (λ a. Indexes a.0 (entries_of a.1)) }
    ensures archive { IfOk result (λ a. IsArchive (entries_of a.1)) }
{
    archive_grows();
    let mut index = Index::new(alloc)?;
    let mut shelf = Shelf::new(alloc)?;
    for entry in entries {
        if !index.may_follow(entry) {
            return Err(Memory);
        }
        push(&mut index, &mut shelf, entry)?;
    }
    Ok((index, shelf))
}

fn index_of(alloc: Global, entries: &[Entry]) -> Result<Index, Memory> {
    let (index, _) = archive_of(alloc, entries)?;
    Ok(index)
}

// The calls of an index that count, each on a counter of its own.
fn next(index: &Index, selection: &Selection, place: u64) -> Option<u64> {
    next_by::<Brand>(index, selection, place, Blank::new(1))
}

fn next_by<L: Ledger>(index: &Index, selection: &Selection, place: u64, blank: Blank) -> Option<u64>
    requires name { blank.name ≡ L.name }
    requires parts { blank.parts ≡ L.parts }
    requires one { 0 < blank.parts }
{
    let mut steps = Steps::<L>::new(blank);
    index.after(selection, place, &mut steps)
}

fn lost(index: &Index, after: u64, upto: u64) -> u32 {
    lost_by::<Brand>(index, after, upto, Blank::new(1))
}

fn lost_by<L: Ledger>(index: &Index, after: u64, upto: u64, blank: Blank) -> u32
    requires name { blank.name ≡ L.name }
    requires parts { blank.parts ≡ L.parts }
    requires one { 0 < blank.parts }
{
    let mut steps = Steps::<L>::new(blank);
    index.lost_between(after, upto, &mut steps)
}

fn frame(alloc: Global, millis: u32, gap: u32, octets: &[u8]) -> Result<Entry, Memory> {
    Ok(Entry::Frame {
        ert: Cds {
            days: 20_000,
            millis,
            rest: Rest::Micros(0),
        },
        quality: FrameQuality::Good,
        antenna: Octets::copy_of(alloc, b"A")?,
        lost: gap,
        octets: Octets::copy_of(alloc, octets)?,
    })
}

const ALL: Selection = Selection {
    filter: Filter::Quality(RequestedFrameQuality::AllFrames),
    start: None,
    stop: None,
    first: 0,
    notices: false,
};

#[test]
fn the_next_frame_of_a_channel_is_found(rt: HostRuntime) -> Result<(), Fail> {
    let first = [frame(rt.alloc(), 500, 0, &[0x00, 0x7e, 0xa0])?];
    let second = [frame(rt.alloc(), 1000, 0, &[0x40, 0x7f, 0xa1])?];
    let mut index = index_of(rt.alloc(), &first)?;
    let mark = index.mark();
    let one = Selection {
        filter: Filter::Channel(Gvcid {
            spacecraft: 1,
            version: 1,
            channel: Channel::Virtual(63),
        }),
        ..ALL
    };
    assert_eq!(rt; next(&index, &one, 0), None);
    for entry in &second {
        index.add(entry)?;
    }
    assert_eq!(rt; next(&index, &one, 0), Some(1));
    assert_eq!(rt; next(&index, &one, 2), None);
    index.go_back(&mark, &second);
    assert_eq!(rt; next(&index, &one, 0), None);
    Ok(())
}

fn frames_behind(alloc: Global, losses: &[u32]) -> Result<Vec<Entry>, Memory> {
    let mut entries = Vec::new(alloc);
    for lost in losses {
        entries.push(frame(alloc, 1000, *lost, &[0x00])?)?;
    }
    Ok(entries)
}

#[test]
fn lost_frames_add_up_to_their_greatest_number(rt: HostRuntime) -> Result<(), Fail> {
    let entries = frames_behind(rt.alloc(), &[7, 16_777_214, 1, 1, 16_777_215])?;
    let index = index_of(rt.alloc(), &entries)?;
    let rows = [
        (0, 0, 0),
        (0, 1, 16_777_214),
        (0, 2, 16_777_215),
        (0, 3, 16_777_215),
        (2, 3, 1),
        (3, 4, 16_777_215),
        (3, 9, 16_777_215),
        (4, 9, 0),
        (3, 1, 0),
        (u64::MAX, u64::MAX, 0),
    ];
    for (after, upto, sum) in rows {
        assert_eq!(rt; lost(&index, after, upto), sum);
    }
    Ok(())
}

// The lock and production statuses that a look tells, and how many entries there are.
fn statuses(alloc: Global, entries: &[Entry], want: &Want) -> Result<([u8; 4], u8, u64), Memory> {
    statuses_by::<Brand>(alloc, entries, want, Blank::new(1))
}

fn statuses_by<L: Ledger>(
    alloc: Global,
    entries: &[Entry],
    want: &Want,
    blank: Blank,
) -> Result<([u8; 4], u8, u64), Memory>
    requires name { blank.name ≡ L.name }
    requires parts { blank.parts ≡ L.parts }
    requires one { 0 < blank.parts }
{
    let mut steps = Steps::<L>::new(blank);
    let (index, shelf) = archive_of(alloc, entries)?;
    let glimpse = index.glimpse(alloc, &shelf, want, &mut steps)?;
    let locks = glimpse.locks;
    let numbers = [
        locks.frame_sync.number(),
        locks.symbol.number(),
        locks.subcarrier.number(),
        locks.carrier.number(),
    ];
    Ok((numbers, glimpse.production.number(), glimpse.front))
}

// A frame, a loss of synchronisation and a change of the production status.
fn three_entries(alloc: Global) -> Result<Vec<Entry>, Memory> {
    let mut entries = Vec::new(alloc);
    entries.push(frame(alloc, 1000, 0, &[0x00])?)?;
    entries.push(Entry::LossOfSync {
        at: Cds::EPOCH,
        carrier: LockStatus::Unknown,
        subcarrier: LockStatus::NotInUse,
        symbol: LockStatus::InLock,
    })?;
    entries.push(Entry::Production {
        status: ReturnProductionStatus::Halted,
    })?;
    Ok(entries)
}

#[test]
fn a_look_tells_the_statuses_of_a_report(rt: HostRuntime) -> Result<(), Fail> {
    let entries = three_entries(rt.alloc())?;
    for (count, want, expected) in [
        (0, Want::Front, ([3, 3, 3, 3], 0, 0)),
        (1, Want::Nothing, ([0, 0, 0, 0], 0, 1)),
        (3, Want::Front, ([1, 0, 2, 3], 2, 3)),
    ] {
        let first = entries.get(..count).unwrap_or(entries.as_slice());
        assert_eq!(rt; statuses(rt.alloc(), first, &want)?, expected);
    }
    Ok(())
}

// The places and losses of all that is picked of entries, notices among it, from the first on.
fn walked(index: &Index, alloc: Global) -> Result<Vec<(u64, u32)>, Memory> {
    walked_by::<Brand>(index, alloc, Blank::new(1))
}

fn walked_by<L: Ledger>(
    index: &Index,
    alloc: Global,
    blank: Blank,
) -> Result<Vec<(u64, u32)>, Memory>
    requires name { blank.name ≡ L.name }
    requires parts { blank.parts ≡ L.parts }
    requires one { 0 < blank.parts }
{
    let mut steps = Steps::<L>::new(blank);
    let told = Selection {
        notices: true,
        ..ALL
    };
    let mut walk = index.walk(&told, 0, None, &mut steps);
    let mut places = Vec::new(alloc);
    for _ in 0..9 {
        let Some(found) = index.onward(&mut walk, &mut steps) else {
            return Ok(places);
        };
        places.push((found.place, found.lost))?;
    }
    Ok(places)
}

#[test]
fn a_walk_goes_over_frames_and_notices(rt: HostRuntime) -> Result<(), Fail> {
    let mut entries = three_entries(rt.alloc())?;
    entries.push(frame(rt.alloc(), 2000, 5, &[0x00])?)?;
    let index = index_of(rt.alloc(), &entries)?;
    let places = walked(&index, rt.alloc())?;
    assert_eq!(rt;
        places.as_slice(),
        [(0u64, 0u32), (1, 0), (2, 0), (3, 5)].as_slice()
    );
    Ok(())
}
