// Streams that come in pieces, and outputs that fail.
use crate::rows::{lines_of, stream_of};
use isp1_tml::Messages;
use octet_core::MemorySink;
use sle_numbers::ServiceType;
use std::alloc::Global;
use std::test::Fail;
use user_lines::{LinesFault, put_lines};

// A BIND's return, a frame, the end of data, a heartbeat and a message that is bad.
const STREAM: &str = "
bf650e 8000 1a0753544154494f4e 800105,
a81e a01c 8000 80084e20000003e80000 810141 0201ff 020100 8000 04030010a1,
a806 a104 8000 8300, !0300000000000000, 80, 9f68017f";

const LINES: &str = "ok 101| frame 20000/1000/0 0 -1 41 0010a1| end| bad message 89|";

// Prints the whole messages of octets, and answers whether one was bad, the place behind them, and
// what is left.
fn print<'a>(
    alloc: Global,
    octets: &'a [u8],
    place: u64,
    sink: &mut MemorySink,
) -> Result<(bool, u64, &'a [u8]), Fail> {
    let mut messages = Messages::new(octets, place);
    let bad = put_lines(alloc, ServiceType::RtnAllFrames, &mut messages, sink)?;
    Ok((bad, messages.place(), messages.left()))
}

// The lines of a stream in two pieces.
fn in_two(alloc: Global, stream: &[u8], cut: usize) -> Result<MemorySink, Fail> {
    let (first, second) = stream.split_at(cut.min(stream.len()));
    let mut sink = MemorySink::new(alloc, Vec::new(alloc));
    let (bad, place, left) = print(alloc, first, 0, &mut sink)?;
    if !bad {
        let mut rest = Vec::from_slice(alloc, left)?;
        rest.extend_from_slice(second)?;
        print(alloc, rest.as_slice(), place, &mut sink)?;
    }
    Ok(sink)
}

#[test]
fn every_cut_prints_the_same(rt: HostRuntime) -> Result<(), Fail> {
    let stream = stream_of(rt.alloc(), STREAM)?;
    let lines = lines_of(rt.alloc(), LINES)?;
    for cut in 0..=stream.len() {
        let sink = in_two(rt.alloc(), stream.as_slice(), cut)?;
        assert_eq!(rt; sink.written(), lines.as_bytes(), "cut at {cut}");
    }
    Ok(())
}

// The second message's line fails, or the memory for it: what was written begins the lines.
#[test]
fn an_output_that_fails_has_a_front(rt: HostRuntime) -> Result<(), Fail> {
    let stream = stream_of(rt.alloc(), STREAM)?;
    let lines = lines_of(rt.alloc(), LINES)?;
    let mut sink = MemorySink::new(rt.alloc(), vec![in rt.alloc(); 2]?);
    let mut messages = Messages::new(stream.as_slice(), 0);
    let printed = put_lines(
        rt.alloc(),
        ServiceType::RtnAllFrames,
        &mut messages,
        &mut sink,
    );
    assert_eq!(rt; printed, Err(LinesFault::WriteFault));
    assert_eq!(rt; sink.written().len(), 7 + 34 / 2);
    assert!(rt; lines.as_bytes().starts_with(sink.written()));
    Ok(())
}
