// A sink in memory, and sinks over writers that take little, fail and are interrupted.
use octet_core::{Failed, MemorySink, Octets, Sink, WriterSink};
use std::io;
use std::io::{ErrorKind, Write};
use std::test::Fail;

// Through the bound alone, as callers write octets.
fn put<S: Sink>(sink: &mut S, octets: &[u8]) -> Result<(), Failed> {
    sink.put_all(octets)
}

#[test]
fn a_sink_in_memory_keeps_what_it_wrote_and_fails_as_listed(rt: HostRuntime) -> Result<(), Fail> {
    let mut sink = MemorySink::new(rt.alloc(), vec![in rt.alloc(); 2]?);
    assert_eq!(rt; put(&mut sink, b"abc"), Ok(()));
    assert_eq!(rt; put(&mut sink, b"defgh"), Err(Failed));
    assert_eq!(rt; put(&mut sink, b"i"), Ok(()));
    assert_eq!(rt; sink.written(), b"abcdei".as_slice());
    assert_eq!(rt; sink.faults(), 1);
    assert!(rt; !sink.memory_refused());
    Ok(())
}

// Is interrupted a number of times, and takes then two octets a call, up to a number of calls, and
// then none.
#[derive(Drop)]
struct Fake {
    interruptions: u32,
    calls: u32,
    taken: Octets,
}

impl Write for Fake {
    fn write(&mut self, buf: &[u8]) -> io::Result<usize> {
        if self.interruptions > 0 {
            self.interruptions -= 1;
            return Err(ErrorKind::Interrupted.into());
        }
        if self.calls == 0 {
            return Ok(0);
        }
        self.calls -= 1;
        let count = buf.len().min(2);
        match self.taken.append(&buf[..count]) {
            Ok(()) => Ok(count),
            Err(_) => Err(ErrorKind::OutOfMemory.into()),
        }
    }

    fn flush(&mut self) -> io::Result<()> {
        Ok(())
    }
}

// Interruptions before the first octet, and what writes of "abcde", "" and "fgh" answer where the
// writer takes octets at four calls, with what it took and the count of faults.
const WRITES: [(u32, [Result<(), Failed>; 3], &[u8], u64); 2] = [
    (99, [Ok(()), Ok(()), Err(Failed)], b"abcdefg", 1),
    (100, [Err(Failed), Ok(()), Ok(())], b"fgh", 1),
];

#[test]
fn a_sink_over_a_writer_writes_all_or_is_at_fault(rt: HostRuntime) {
    for (interruptions, answers, octets, faults) in WRITES {
        let mut fake = Fake {
            interruptions,
            calls: 4,
            taken: Octets::new(rt.alloc()),
        };
        let mut sink = WriterSink::new(&mut fake);
        let [first, second, third] = answers;
        assert_eq!(rt; put(&mut sink, b"abcde"), first);
        assert_eq!(rt; put(&mut sink, b""), second);
        assert_eq!(rt; put(&mut sink, b"fgh"), third);
        assert_eq!(rt; sink.faults(), faults);
        drop(sink);
        assert_eq!(rt; fake.taken.as_slice(), octets);
    }
}
