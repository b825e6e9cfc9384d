// Lines as they stand. The expected lines were written by hand.
use crate::{Pick, ScriptLine, laws, parse_line, write_line};
use std::alloc::Global;
use std::process::Abort;
use std::test::Fail;
use words::{Cause, LineFault};

// The canonical line of what a line says.
fn again(alloc: Global, line: &[u8]) -> Result<Vec<u8>, Fail> {
    let mut text = Vec::new(alloc);
    let says = parse_line(alloc, line)?;
    write_line(&says, &mut text)?;
    Ok(text)
}

#[test]
fn lines_are_written_as_they_were_read(rt: HostRuntime) -> Result<(), Fail> {
    for line in [
        b"frame 20000/1000/5p 1 00ff".as_slice(),
        b"frame 0/0/0 0 0a",
        b"mark 65535/86399999/999",
        b"mark 65535/86399999/999999999p",
        b"crash 0 old",
        b"crash 1000 new",
        b"crash 7 torn",
    ] {
        assert_eq!(rt; again(rt.alloc(), line)?.as_slice(), line);
    }
    let lower = again(rt.alloc(), b"frame 0/0/0 2 4F")?;
    assert_eq!(rt; lower.as_slice(), b"frame 0/0/0 2 4f".as_slice());
    Ok(())
}

fn cause_of(alloc: Global, line: &[u8]) -> Option<Cause> {
    match parse_line(alloc, line) {
        Err(LineFault::Line(cause)) => Some(cause),
        _ => None,
    }
}

#[test]
fn causes_come_in_their_order(rt: HostRuntime) -> Result<(), Fail> {
    let table = [
        (b"".as_slice(), Cause::FirstWord),
        (b"Mark", Cause::FirstWord),
        (b" mark 0/0/0", Cause::FirstWord),
        (b"mark", Cause::Count),
        (b"mark x y", Cause::Count),
        (b"mark x", Cause::Word),
        (b"frame x 0", Cause::Count),
        (b"frame 0/0/0 3 4f", Cause::Word),
        (b"crash 1001 old", Cause::Word),
        (b"crash 1 olds", Cause::Word),
        (b"crash 1 ", Cause::Word),
    ];
    for (line, cause) in table {
        assert_eq!(rt; cause_of(rt.alloc(), line), Some(cause));
    }
    assert_eq!(rt; cause_of(rt.alloc(), b"crash 1 old"), None);
    Ok(())
}

#[test]
fn a_line_says_what_its_words_say(rt: HostRuntime) -> Result<(), Fail> {
    let Ok(ScriptLine::Crash { after, pick }) = parse_line(rt.alloc(), b"crash 3 torn") else {
        return Err(Fail::from("no crash"));
    };
    assert_eq!(rt; (after, pick), (3, Pick::Torn));
    Ok(())
}

#[test]
fn what_is_written_is_read_back() {
    laws::script_is_exact();
}
