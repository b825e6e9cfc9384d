// A source in memory, and sources over readers that fail and are interrupted.
use octet_core::{Failed, MemorySource, Octets, ReaderSource, Source};
use std::io;
use std::io::{ErrorKind, Read};
use std::test::Fail;

// Through the bound alone, as callers take octets.
fn take_three<S: Source>(source: &mut S) -> (Result<usize, Failed>, [u8; 3]) {
    let mut into = *b"...";
    let answer = source.take(&mut into);
    (answer, into)
}

#[test]
fn a_source_in_memory_gives_its_octets_and_fails_as_listed(rt: HostRuntime) -> Result<(), Fail> {
    let octets = Octets::copy_of(rt.alloc(), b"abcde")?;
    let mut source = MemorySource::new(octets, vec![in rt.alloc(); 2, 5]?);
    assert_eq!(rt; take_three(&mut source), (Ok(3), *b"abc"));
    assert_eq!(rt; take_three(&mut source).0, Err(Failed));
    assert_eq!(rt; source.left(), b"de".as_slice());
    assert_eq!(rt; take_three(&mut source), (Ok(2), *b"de."));
    assert_eq!(rt; take_three(&mut source), (Ok(0), *b"..."));
    assert_eq!(rt; take_three(&mut source).0, Err(Failed));
    assert_eq!(rt; source.faults(), 2);
    Ok(())
}

// Gives an octet where it isn't interrupted. It fails at the call past its last one.
#[derive(Drop)]
struct Fake {
    // How often it is interrupted before an octet, and how often it still is before the next.
    interruptions: u32,
    left: u32,
    octets: u32,
}

impl Read for Fake {
    fn read(&mut self, buf: &mut [u8]) -> io::Result<usize> {
        if self.left > 0 {
            self.left -= 1;
            return Err(ErrorKind::Interrupted.into());
        }
        self.left = self.interruptions;
        if self.octets == 0 {
            return Err(ErrorKind::Other.into());
        }
        self.octets -= 1;
        buf.fill(b'x');
        Ok(buf.len().min(1))
    }
}

// Interruptions before each octet, and what three reads give of two octets.
const READS: [(u32, [Result<usize, Failed>; 3], u64); 3] = [
    (0, [Ok(1), Ok(1), Err(Failed)], 1),
    (100, [Ok(1), Ok(1), Err(Failed)], 1),
    (101, [Err(Failed), Ok(1), Err(Failed)], 2),
];

#[test]
fn an_interrupted_read_is_taken_again_up_to_a_hundred_times(rt: HostRuntime) {
    for (interruptions, answers, faults) in READS {
        let mut source = ReaderSource::new(Fake {
            interruptions,
            left: interruptions,
            octets: 2,
        });
        for answer in answers {
            assert_eq!(rt; take_three(&mut source).0, answer, "at {interruptions}");
        }
        assert_eq!(rt; source.faults(), faults, "at {interruptions}");
    }
}
