// Lines of transcripts. Their texts were written by hand from the forms of the lines.
use drill_text::{EndWord, TranscriptLine, write_line};
use octet_core::{Memory, Octets};
use std::alloc::Global;

const OCTETS: &[u8] = b"\x00\xab\xff";

const LINES: [(TranscriptLine<'static>, &[u8]); 24] = [
    (
        TranscriptLine::Sent {
            c: 16,
            octets: OCTETS,
        },
        b"sent 16 00abff\n",
    ),
    (
        TranscriptLine::Sent {
            c: 0,
            octets: OCTETS,
        },
        b"sent 0 00abff\n",
    ),
    (TranscriptLine::Stalled { c: 1 }, b"stalled 1\n"),
    (
        TranscriptLine::Discarded { c: 1, n: 1_000 },
        b"discarded 1 1000\n",
    ),
    (TranscriptLine::Backward, b"backward\n"),
    (TranscriptLine::TooLong, b"too long\n"),
    (
        TranscriptLine::Full {
            need: 37,
            free: u64::MAX,
        },
        b"full 37 18446744073709551615\n",
    ),
    (TranscriptLine::Fault, b"fault\n"),
    (TranscriptLine::Crash, b"crash\n"),
    (TranscriptLine::Archive { entries: 0 }, b"archive 0\n"),
    (
        TranscriptLine::Radiated {
            id: u32::MAX,
            octets: OCTETS,
        },
        b"radiated 4294967295 00abff\n",
    ),
    (TranscriptLine::Expired { id: 8 }, b"expired 8\n"),
    (TranscriptLine::Waits, b"waits\n"),
    (TranscriptLine::Idle, b"idle\n"),
    (TranscriptLine::Failed { id: 9 }, b"failed 9\n"),
    (TranscriptLine::Refused, b"refused 3\n"),
    (
        TranscriptLine::Ended {
            c: 1,
            word: EndWord::Unbound,
        },
        b"ended 1 unbound\n",
    ),
    (
        TranscriptLine::Ended {
            c: 1,
            word: EndWord::Closed,
        },
        b"ended 1 closed\n",
    ),
    (
        TranscriptLine::Ended {
            c: 1,
            word: EndWord::Denied,
        },
        b"ended 1 denied\n",
    ),
    (
        TranscriptLine::Ended {
            c: 1,
            word: EndWord::Range,
        },
        b"ended 1 range\n",
    ),
    (
        TranscriptLine::Ended {
            c: 1,
            word: EndWord::Broken(3),
        },
        b"ended 1 broken 3\n",
    ),
    (
        TranscriptLine::Ended {
            c: 1,
            word: EndWord::Aborted(0),
        },
        b"ended 1 aborted 0\n",
    ),
    (
        TranscriptLine::Ended {
            c: 1,
            word: EndWord::PeerAborted(127),
        },
        b"ended 1 peer-aborted 127\n",
    ),
    (
        TranscriptLine::Ended {
            c: 1,
            word: EndWord::Fault,
        },
        b"ended 1 fault\n",
    ),
];

// A line has this text, behind another one.
fn has_text(alloc: Global, line: &TranscriptLine<'_>, text: &[u8]) -> Result<bool, Memory> {
    let mut written = Octets::copy_of(alloc, b"idle\n")?;
    write_line(alloc, line, &mut written)?;
    Ok(written.as_slice().strip_prefix(b"idle\n") == Some(text))
}

#[test]
fn each_line_has_its_text(rt: HostRuntime) {
    for (line, text) in LINES {
        assert_eq!(rt; has_text(rt.alloc(), &line, text), Ok(true));
    }
}
