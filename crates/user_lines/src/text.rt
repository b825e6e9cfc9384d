// The lines of what is told.
ghost use Rattle.std.specs.Prelude.{◌≡◌, ◌++◌, ◌∷◌, [], map, IfOk, OnOk, codes};
ghost use Rattle.std.specs.Fmt.{decimal, signed_decimal};
ghost use Rattle.std.specs.List.{flat_map, list_any};
ghost use Rattle.return_pdu.specs.Seen.{item_of};
ghost use Rattle.sle_common.specs.Antenna.{antenna_of};
ghost use Rattle.user_lines.specs.Lines.{behind, line, notice_line, item_line, return_line, lines_of};
ghost use Rattle.user_lines.specs.Lines.{time_word, quality_words, content_words, outcome};
ghost use Rattle.user_lines.specs.Lines.{item_ends, tells_end, report_line, bad_line};

use crate::put::{
    put_antenna, put_count, put_integer, put_maybe, put_numbers, put_octets, put_quality, put_time,
};
use crate::told::Told;
use cds_time::Cds;
use return_pdu::{Notification, TransferBuffer, TransferItem};
use sle_common::AntennaId;
use sle_numbers::{FrameQuality, Numbered};
use std::alloc::AllocError;

/// Appends the lines of what is told, and answers whether it tells the end of the data that a START
/// asked for. Where memory is refused, a part of the lines may stand there.
pub fn put_told(told: Told<'_>, into: &mut Vec<u8>) -> Result<bool, AllocError>
    ensures lines { OnOk result (into.new.items ≡ into.old.items ++ lines_of told.entry) }
    ensures ends { IfOk result (λ ends. ends ≡ tells_end told.entry) }
{
    match told {
        Told::Items(items) => return put_items(items, into),
        Told::Nothing => {}
        Told::Invoked(tag) => put_one(b"invoke", tag.number(), into)?,
        Told::Returned { tag, refusal, .. } => put_return(tag.number(), refusal, into)?,
        Told::Transferred {
            refusal,
            next,
            free,
            ..
        } => put_transferred(refusal, next, free, into)?,
        Told::Parameter { name, .. } => put_one(b"parameter", name, into)?,
        Told::Notice { kind, .. } => put_one(b"notice", kind.number(), into)?,
        Told::Report {
            error_free,
            numbers,
        } => put_report(error_free, &numbers, into)?,
        Told::Aborted(diagnostic) => put_one(b"abort", diagnostic, into)?,
    }
    Ok(false)
}

/// Appends the line of a bad message, whose first octet is at this place of the stream. Where
/// memory is refused, a part of it may stand there.
pub fn put_bad(place: u64, into: &mut Vec<u8>) -> Result<(), AllocError>
    ensures { OnOk result (into.new.items ≡ into.old.items ++ bad_line place) }
{
    into.extend_from_slice(b"bad message")?;
    put_count(place, into)?;
    into.push(b'\n')?;
    Ok(())
}

// Appends a line of a first word and one number.
fn put_one(first: &[u8], number: u8, into: &mut Vec<u8>) -> Result<(), AllocError>
    ensures { OnOk result (into.new.items
        ≡ into.old.items ++ line first.now (decimal number ∷ [])) }
{
    into.extend_from_slice(first)?;
    put_count(u64::from(number), into)?;
    into.push(b'\n')?;
    Ok(())
}

// Appends what each return begins with.
fn put_outcome(number: u8, refusal: Option<i128>, into: &mut Vec<u8>) -> Result<(), AllocError>
    ensures { OnOk result (into.new.items ≡ into.old.items ++ outcome number refusal) }
{
    match refusal {
        None => {
            into.extend_from_slice(b"ok")?;
            put_count(u64::from(number), into)
        }
        Some(diagnostic) => {
            into.extend_from_slice(b"no")?;
            put_count(u64::from(number), into)?;
            put_integer(diagnostic, into)
        }
    }
}

fn put_return(number: u8, refusal: Option<i128>, into: &mut Vec<u8>) -> Result<(), AllocError>
    ensures { OnOk result (into.new.items ≡ into.old.items ++ return_line number refusal []) }
{
    put_outcome(number, refusal, into)?;
    into.push(b'\n')?;
    Ok(())
}

fn put_transferred(
    refusal: Option<i128>,
    next: u32,
    free: i128,
    into: &mut Vec<u8>,
) -> Result<(), AllocError>
    ensures { OnOk result (into.new.items ≡ into.old.items
        ++ return_line 11 refusal (decimal next ∷ signed_decimal free ∷ [])) }
{
    put_outcome(11, refusal, into)?;
    put_count(u64::from(next), into)?;
    put_integer(free, into)?;
    into.push(b'\n')?;
    Ok(())
}

fn put_report(
    error_free: Option<i128>,
    numbers: &(i128, i128, i128, i128, i128, i128),
    into: &mut Vec<u8>,
) -> Result<(), AllocError>
    ensures { OnOk result (into.new.items ≡ into.old.items
        ++ report_line error_free numbers.now) }
{
    into.extend_from_slice(b"report")?;
    put_maybe(error_free, into)?;
    put_numbers(numbers, into)?;
    into.push(b'\n')?;
    Ok(())
}

// Appends the lines of items, and answers whether one is the end of the data.
fn put_items(items: TransferBuffer<'_>, into: &mut Vec<u8>) -> Result<bool, AllocError>
    ensures lines { OnOk result (into.new.items
        ≡ into.old.items ++ flat_map item_line items.entry) }
    ensures ends { IfOk result (λ ends. ends ≡ list_any item_ends items.entry) }
{
    let mut left = items;
    let mut ends = false;
    while let Some(item) = left.next() {
        put_item(&item, into)?;
        ends = ends || item_ends(&item);
    }
    Ok(ends)
}

fn item_ends(item: &TransferItem<'_>) -> bool
    ensures { result ≡ item_ends (item_of item.now) }
{
    match item {
        TransferItem::Told {
            notice: Notification::EndOfData,
            ..
        } => true,
        _ => false,
    }
}

// Appends when a frame was received, and its quality, where it has one.
fn put_stamp(ert: &Cds, quality: Option<FrameQuality>, into: &mut Vec<u8>) -> Result<(), AllocError>
    ensures { OnOk result (into.new.items
        ≡ into.old.items ++ behind (time_word ert.now ∷ quality_words quality)) }
{
    put_time(ert, into)?;
    put_quality(quality, into)
}

// Appends what is told of a frame behind that, and the line's end.
fn put_content(
    continuity: &i32,
    antenna: &AntennaId<'_>,
    octets: &[u8],
    into: &mut Vec<u8>,
) -> Result<(), AllocError>
    ensures { OnOk result (into.new.items ≡ into.old.items
        ++ (behind (content_words continuity.now (antenna_of antenna.now) octets.now)
        ++ 10 ∷ [])) }
{
    put_integer(i128::from(*continuity), into)?;
    put_antenna(antenna, into)?;
    put_octets(octets, into)?;
    into.push(b'\n')?;
    Ok(())
}

fn put_item(item: &TransferItem<'_>, into: &mut Vec<u8>) -> Result<(), AllocError>
    ensures { OnOk result (into.new.items ≡ into.old.items ++ item_line (item_of item.now)) }
{
    match item {
        TransferItem::Frame {
            ert,
            antenna,
            continuity,
            quality,
            octets,
            ..
        } => {
            into.extend_from_slice(b"frame")?;
            put_stamp(ert, *quality, into)?;
            put_content(continuity, antenna, octets, into)
        }
        TransferItem::Told { notice, .. } => put_notice(notice, into),
    }
}

fn put_loss(at: &Cds, statuses: [u8; 3], into: &mut Vec<u8>) -> Result<(), AllocError>
    ensures { OnOk result (into.new.items ≡ into.old.items
        ++ behind (time_word at.now ∷ map decimal statuses)) }
{
    let [carrier, subcarrier, symbol] = statuses;
    put_time(at, into)?;
    put_count(u64::from(carrier), into)?;
    put_count(u64::from(subcarrier), into)?;
    put_count(u64::from(symbol), into)
}

fn put_notice(notice: &Notification, into: &mut Vec<u8>) -> Result<(), AllocError>
    ensures { OnOk result (into.new.items ≡ into.old.items ++ notice_line notice.now) }
{
    match notice {
        Notification::Loss {
            at,
            carrier,
            subcarrier,
            symbol,
        } => {
            let statuses = [carrier.number(), subcarrier.number(), symbol.number()];
            into.extend_from_slice(b"loss")?;
            put_loss(at, statuses, into)?;
        }
        Notification::Production(status) => {
            into.extend_from_slice(b"production")?;
            put_integer(*status, into)?;
        }
        Notification::Backlog => into.extend_from_slice(b"backlog")?,
        Notification::EndOfData => into.extend_from_slice(b"end")?,
    }
    into.push(b'\n')?;
    Ok(())
}
