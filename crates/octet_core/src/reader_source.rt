// A source over a reader of std.
ghost use Rattle.std.specs.Prelude.{◌≡◌};
ghost use Rattle.std.specs.Io.{ReadsAtMost};
ghost use Rattle.std.specs.Io.KnownBytes.{ReadConsumes};

use crate::{Failed, Faults, Source};
use std::io;
use std::io::{ErrorKind, Read};
use std::marker::Model;
use std::snapshot::Snapshot;

/// A source over a reader of std. It tells its octets where the reader tells them.
///
/// It is an adapter: what a reader that tells none gives is claimed nowhere.
#[derive(Drop)]
pub struct ReaderSource<R: Read> {
    reader: R,
    at_first: Snapshot<R>,
    faults: Faults,
}

impl<R: Read> Model for ReaderSource<R> {
    ghost use Rattle.octet_core.specs.Adapters.{ReaderState, told_since, StillTells};

    ghost Value = { ReaderState };

    ghost view = { λ source. record {
      left = told_since (R.remaining source.at_first.value) (R.remaining source.reader);
      faults = source.faults;
    } };

    ghost invariant = { λ source.
        StillTells (R.remaining source.at_first.value) (R.remaining source.reader) };
}

impl<R: Read> ReaderSource<R> {
    /// A source over this reader, which hasn't failed yet.
    pub fn new(reader: R) -> ReaderSource<R>
        ensures { result ≡ record { left = R.remaining reader; faults = 0 } }
    {
        ReaderSource {
            at_first: Snapshot::of(&reader),
            reader,
            faults: Faults::new(),
        }
    }

    /// How often it has failed.
    pub fn faults(&self) -> u64
        ensures { result ≡ self.now.faults }
    {
        self.faults.count()
    }
}

impl<R: Read> Source for ReaderSource<R> {
    ghost left = { λ source. source.left };

    ghost faults = { λ source. source.faults };

    /// Reads once, and again where the read was interrupted, up to a hundred times more.
    fn take(&mut self, into: &mut [u8]) -> Result<usize, Failed> {
        match read_on(&mut self.reader, into) {
            Ok(count) => Ok(count),
            Err(_) => self.faults.fail(),
        }
    }
}

// How often an interrupted read is taken again.
const FURTHER_READS: u32 = 100;

// Reads, and again where the read was interrupted.
fn read_on<R: Read>(reader: &mut R, into: &mut [u8]) -> io::Result<usize>
    ensures bound { ReadsAtMost result into.new }
    ensures octets { ReadConsumes (R.remaining reader.old) (R.remaining reader.new)
        result into.new }
{
    for _ in 0..FURTHER_READS {
        match reader.read(into) {
            Err(error) if error.kind() == ErrorKind::Interrupted => {}
            answer => return answer,
        }
    }
    reader.read(into)
}
