// Lines that come to a source over the loopback, what each call answers, and what is reported.
use crate::loopback::{answers, open};
use std::alloc::{AllocError, Global};
use std::test::Fail;

// What is answered until the end or a fault, and once more; how often it failed; and how the
// report ends.
type Told = (&'static str, u64, &'static str);

const ROWS: [(&[u8], Told); 7] = [
    (b"", ("end end ", 0, " ended after line 0\n")),
    (b"# a pass\n\n", ("end end ", 0, " ended after line 2\n")),
    (
        b"frame 1/2/3 0 41 0 0a0b\nloss 1/3/0 0 1 2\n\nproduction 1\nmark 1/4/0\nmark 1/5",
        (
            "frame loss production mark end end ",
            0,
            " ended after line 5; line 6 was cut short and isn't stored\n",
        ),
    ),
    (
        b"mark 1/2/3\nclock 1/2/4\nmark 1/2/5\n",
        (
            "mark failed failed ",
            2,
            " ended at line 2: it says no entry\n",
        ),
    ),
    (
        b"\nmark 1/2/3",
        (
            "end end ",
            0,
            " ended after line 1; line 2 was cut short and isn't stored\n",
        ),
    ),
    (
        b"fram 1/2/3 0 41 0 0a0b\n",
        ("failed failed ", 2, " ended at line 1: it says no entry\n"),
    ),
    (
        b"\xff\n",
        ("failed failed ", 2, " ended at line 1: it says no entry\n"),
    ),
];

// The longest line is a frame of 65,536 octets: what stands before its digits.
const FRONT: &[u8] =
    b"frame 65535/86399999/999999999p 2 4142434445464748494a4b4c4d4e4f50 16777215 ";

// A line's front, and how many octets of another follow.
const LONG: [(&[u8], u8, usize, Told); 3] = [
    (
        FRONT,
        b'a',
        131_072,
        ("frame end end ", 0, " ended after line 1\n"),
    ),
    (
        b"#",
        b'#',
        131_147,
        ("end end ", 0, " ended after line 1\n"),
    ),
    (
        b"#",
        b'#',
        131_148,
        ("failed failed ", 2, " ended at line 1: it is too long\n"),
    ),
];

// Whether a source that is sent these octets in two pieces answers and reports this.
fn holds(rt: &HostRuntime, sent: &[u8], cut: usize, told: Told) -> Result<bool, Fail> {
    let (mut feed, address) = open(rt)?;
    let pieces = sent.split_at(cut.min(sent.len()));
    let words = answers(rt, &mut feed, address, pieces)?;
    let reports = feed.reports();
    Ok(words.as_str() == told.0 && feed.faults() == told.1 && reports.ends_with(told.2.as_bytes()))
}

#[test]
fn each_line_is_an_entry_at_every_cut(rt: HostRuntime) -> Result<(), Fail> {
    for (sent, told) in ROWS {
        for cut in 0..=sent.len() {
            assert!(rt; holds(&rt, sent, cut, told)?, "cut at {cut}");
        }
    }
    Ok(())
}

fn line(alloc: Global, front: &[u8], octet: u8, count: usize) -> Result<Vec<u8>, AllocError> {
    let mut line = Vec::from_slice(alloc, front)?;
    for _ in 0..count {
        line.push(octet)?;
    }
    line.push(b'\n')?;
    Ok(line)
}

#[test]
fn a_line_is_as_long_as_the_longest_frame_needs(rt: HostRuntime) -> Result<(), Fail> {
    for (front, octet, count, told) in LONG {
        let line = line(rt.alloc(), front, octet, count)?;
        assert!(rt; holds(&rt, &line, 65_536, told)?, "{count} octets");
    }
    Ok(())
}
