// Reads and writes a transfer buffer of ten frames of 1,115 octets as often as its first word says,
// and prints how many frames and octets there were. The second word says how: `read` decodes the
// buffer of a message, checked whole, and reads its items out; `write` makes a message of the items
// and puts it; `items` encodes as many items one by one, with no message around them, which is how
// `write` was done before there were messages; `calls` reads by the calls of a reader alone, with
// no value and no CHOICE. `bench/ber` times all four.
#![tactic(auto)]

ghost use Rattle.std.specs.Prelude.{IsTrue};
ghost use Rattle.frame_select.specs.Item.{items_of};
ghost use Rattle.buffer_message.specs.Fitting.{fits_message};
ghost use Rattle.return_pdu.specs.TransferItem.{ItemFits};
ghost use Rattle.return_pdu.specs.Seen.{item_of};

use ber_core::{BerFault, Reader, Writer};
use buffer_message::BufferMessage;
use cds_time::{Cds, Rest};
use frame_select::Item;
use isp1_tml::HEADER;
use octet_core::{Memory, Octets};
use return_pdu::{ReturnKind, TransferBuffer, TransferItem, buffer_head, buffer_length};
use sle_numbers::FrameQuality;
use std::alloc::Global;
use std::{env, io};

const FRAMES: usize = 10;

const FRAME: [u8; 1115] = [0x55; 1115];

// The octets of a buffer of ten such frames.
const BUFFER: usize = 11_464;

#[derive(Clone, Copy)]
enum Way {
    Read,
    Write,
    Items,
    Calls,
}

fn way_of(word: &str) -> Way {
    match word {
        "write" => Way::Write,
        "items" => Way::Items,
        "calls" => Way::Calls,
        _ => Way::Read,
    }
}

/// A frame as it was received.
fn frame(alloc: Global) -> Result<Item, Memory> {
    Ok(Item::Frame {
        place: 0,
        ert: Cds {
            days: 20_000,
            millis: 1_000,
            rest: Rest::Micros(0),
        },
        quality: FrameQuality::Good,
        antenna: Octets::copy_of(alloc, b"A")?,
        continuity: 0,
        octets: Octets::copy_of(alloc, &FRAME)?,
    })
}

/// The frames of a buffer.
fn frames(alloc: Global) -> Result<Vec<Item>, Memory> {
    let mut items = Vec::new(alloc);
    for _ in 0..FRAMES {
        items.push(frame(alloc)?)?;
    }
    Ok(items)
}

/// Decodes a buffer and reads its items out, and answers how many octets its frames have.
fn read_buffer(buffer: &[u8]) -> Result<usize, BerFault> {
    let mut items = TransferBuffer::decode_raf(buffer)?;
    let mut octets: usize = 0;
    for _ in 0..FRAMES {
        if let Some(TransferItem::Frame { octets: frame, .. }) = items.next() {
            octets = octets.wrapping_add(frame.len());
        }
    }
    Ok(octets)
}

/// Reads a frame by calls, and answers how many octets it has.
fn pass_frame(reader: &mut Reader) -> Result<usize, BerFault> {
    reader.element(&[0xa0])?;
    reader.null(&[0x80])?;
    reader.octet_string(&[0x80], 8, 8)?;
    reader.octet_string(&[0x81], 1, 16)?;
    reader.integer(&[0x02], -1, 16_777_215)?;
    reader.integer(&[0x02], 0, 2)?;
    reader.null(&[0x80])?;
    let octets = reader.octet_string(&[0x04], 1, 65_536)?;
    reader.leave()?;
    Ok(octets.len())
}

/// Reads a buffer of ten frames by calls, and answers how many octets they have.
fn pass_buffer(buffer: &[u8]) -> Result<usize, BerFault> {
    let mut reader = Reader::new(buffer);
    let mut octets: usize = 0;
    reader.element(&[0xa8])?;
    for _ in 0..FRAMES {
        octets = octets.wrapping_add(pass_frame(&mut reader)?);
    }
    reader.leave()?;
    reader.leave()?;
    Ok(octets)
}

/// Writes a buffer of ten times this item, where it fits.
fn write_items(item: &TransferItem, writer: &mut Writer)
    requires { ItemFits (item_of item.now) }
{
    let length = item.length();
    if length > 2_000 || writer.room() < buffer_length(FRAMES * length) {
        return;
    }
    buffer_head(FRAMES * length, writer);
    for _ in 0..FRAMES {
        if writer.room() < length {
            return;
        }
        item.encode(writer);
    }
}

/// Puts the message of these items, where it fits, and answers how many octets it put.
fn write_message(items: &[Item], writer: &mut Writer) -> usize
    requires { IsTrue (fits_message (items_of items.now)) }
{
    let message = BufferMessage::unsigned(ReturnKind::Raf, items);
    writer.clear();
    if writer.room() < message.length() {
        return 0;
    }
    message.put(writer);
    writer.octets().len()
}

/// Reads the buffer as often as asked, and answers how many octets its frames had together.
fn read_often(rounds: u64, by_calls: bool, buffer: &[u8]) -> Result<usize, BerFault> {
    let mut octets: usize = 0;
    for _ in 0..rounds {
        let read = if by_calls {
            pass_buffer(buffer)?
        } else {
            read_buffer(buffer)?
        };
        octets = octets.wrapping_add(read);
    }
    Ok(octets)
}

/// Puts the message of the items as often as asked, and answers how many octets the frames had
/// together.
fn write_often(rounds: u64, items: &[Item], writer: &mut Writer) -> usize {
    let mut octets: usize = 0;
    if !BufferMessage::fits(items) {
        return 0;
    }
    for _ in 0..rounds {
        let put = write_message(items, writer);
        octets = octets.wrapping_add(put / (HEADER + BUFFER) * FRAMES * FRAME.len());
    }
    octets
}

/// Writes the first item of the buffer ten times, as often as asked, and answers how many octets
/// the frames had together.
fn items_often(rounds: u64, buffer: &[u8], writer: &mut Writer) -> Result<usize, BerFault> {
    let mut octets: usize = 0;
    let Some(item) = TransferBuffer::decode_raf(buffer)?.next() else {
        return Ok(0);
    };
    for _ in 0..rounds {
        writer.clear();
        write_items(&item, writer);
        octets = octets.wrapping_add(writer.octets().len() / BUFFER * FRAMES * FRAME.len());
    }
    Ok(octets)
}

/// Works as often as asked on the buffer of these items, and answers how many octets the frames
/// had together.
fn run(
    rounds: u64,
    way: Way,
    items: &[Item],
    buffer: &[u8],
    spare: &mut Writer,
) -> Result<usize, BerFault> {
    match way {
        Way::Read => read_often(rounds, false, buffer),
        Way::Calls => read_often(rounds, true, buffer),
        Way::Write => Ok(write_often(rounds, items, spare)),
        Way::Items => items_often(rounds, buffer, spare),
    }
}

/// The message of these items, where they go into one, and a writer that has room for it.
fn start(alloc: Global, items: &[Item]) -> Option<(Writer, Writer)> {
    if !BufferMessage::fits(items) {
        return None;
    }
    let message = BufferMessage::unsigned(ReturnKind::Raf, items);
    let written = message.written(alloc).ok()?;
    let spare = Writer::new(alloc, message.length()).ok()?;
    Some((written, spare))
}

fn main(rt: HostRuntime) -> io::Result<()> {
    let mut rounds: u64 = 1;
    let mut way = Way::Read;
    for word in env::args(&rt)?.skip(1) {
        way = way_of(word.as_str());
        rounds = word.as_str().parse::<u64>().unwrap_or(rounds);
    }
    let Ok(items) = frames(rt.alloc()) else {
        return rt.println("no memory");
    };
    let Some((message, mut spare)) = start(rt.alloc(), &items) else {
        return rt.println("no memory");
    };
    let buffer = message.octets().get(HEADER..).unwrap_or(&[]);
    let Ok(octets) = run(rounds, way, &items, buffer, &mut spare) else {
        return rt.println("fault");
    };
    let frames = rounds.wrapping_mul(FRAMES as u64);
    println!(rt; "frames {frames} octets {octets}")
}
