// A sink over a writer of std.
ghost use Rattle.std.specs.Prelude.{◌≡◌, OnOk, OnErr};
ghost use Rattle.std.specs.Io.KnownBytes.{Appends};
ghost use Rattle.octet_core.specs.Adapters.{AppendsFront};

use crate::{Failed, Faults, Sink};
use std::io;
use std::io::{ErrorKind, Write};
use std::marker::Model;
use std::snapshot::Snapshot;

/// A sink over a writer of std. It tells its octets where the writer tells them.
///
/// It is an adapter: what a writer that tells none does with the octets is claimed nowhere.
#[derive(Drop)]
pub struct WriterSink<W: Write> {
    writer: W,
    at_first: Snapshot<W>,
    faults: Faults,
}

impl<W: Write> Model for WriterSink<W> {
    ghost use Rattle.octet_core.specs.Adapters.{WriterState, told_since, StillTells};

    ghost Value = { WriterState };

    ghost view = { λ sink. record {
      written = told_since (W.contents sink.at_first.value) (W.contents sink.writer);
      faults = sink.faults;
    } };

    ghost invariant = { λ sink.
        StillTells (W.contents sink.at_first.value) (W.contents sink.writer) };
}

impl<W: Write> WriterSink<W> {
    /// A sink over this writer, which hasn't failed yet.
    pub fn new(writer: W) -> WriterSink<W>
        ensures { result ≡ record { written = W.contents writer; faults = 0 } }
    {
        WriterSink {
            at_first: Snapshot::of(&writer),
            writer,
            faults: Faults::new(),
        }
    }

    /// How often it has failed.
    pub fn faults(&self) -> u64
        ensures { result ≡ self.now.faults }
    {
        self.faults.count()
    }
}

impl<W: Write> Sink for WriterSink<W> {
    ghost written = { λ sink. sink.written };

    ghost faults = { λ sink. sink.faults };

    /// Writes piece by piece until all octets are taken. A writer that takes none of a piece is at
    /// fault, and so is one that is interrupted for the hundredth time.
    fn put_all(&mut self, octets: &[u8]) -> Result<(), Failed> {
        match write_whole(&mut self.writer, octets) {
            Ok(()) => Ok(()),
            Err(_) => self.faults.fail(),
        }
    }
}

// At which interruption a write is given up.
const MOST_INTERRUPTIONS: u32 = 100;

// Writes all of the octets, or those that begin them.
#[tactic(auto, using(crate::proofs::Sent::appends_none, crate::proofs::Sent::appends_more, crate::proofs::Sent::appends_kept, crate::proofs::Sent::appends_front))]
fn write_whole<W: Write>(writer: &mut W, octets: &[u8]) -> io::Result<()>
    ensures ok { OnOk result (Appends (W.contents writer.old) (W.contents writer.new) octets.now) }
    ensures err { OnErr result (AppendsFront (W.contents writer.old) (W.contents writer.new)
        octets.now) }
{
    let mut count = 0;
    let mut interruptions = 0;
    while count < octets.len() {
        match writer.write(&octets[count..]) {
            Ok(0) => return Err(ErrorKind::WriteZero.into()),
            Ok(further) => count += further,
            Err(error) => {
                interruptions += 1;
                if error.kind() != ErrorKind::Interrupted || interruptions == MOST_INTERRUPTIONS {
                    return Err(error);
                }
            }
        }
    }
    Ok(())
}
