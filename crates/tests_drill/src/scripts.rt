// Lines of scripts. What is expected was written by hand from the forms of the lines.
//
// A row is a line up to `|`; what it says, as its derived `Debug` writes it, stands behind ` = `,
// where a row has it. Octets stand in it as a list, and an identifier as its text.
use drill_text::{AskLine, LineFault, ScriptLine, laws, parse_line, write_entry_line};
use octet_core::{Memory, Octets};
use record_form::Entry;
use std::alloc::{AllocError, Global};
use std::process::Abort;
use std::test::Fail;

fn is_bad(alloc: Global, line: &[u8]) -> bool {
    matches!(parse_line(alloc, line), Err(LineFault::Bad))
}

// The first row that isn't in the grammar though it should be, or is though it shouldn't.
fn wrong_line<'a>(alloc: Global, rows: &'a str, should_be_bad: bool) -> Option<&'a str> {
    for row in rows.split_terminator('|') {
        let line = row.strip_prefix('\n').unwrap_or(row);
        if is_bad(alloc, line.as_bytes()) != should_be_bad {
            return Some(line);
        }
    }
    None
}

// Rows, and whether they are outside the grammar.
const GRAMMAR: [(&str, bool); 9] = [
    (ENTRIES, false),
    (BAD_ENTRIES, true),
    (CONNECTIONS, false),
    (BAD_CONNECTIONS, true),
    (DEVICES, false),
    (BAD_DEVICES, true),
    (MESSAGES, false),
    (BAD_MESSAGES, true),
    (BAD_WORDS, true),
];

#[test]
fn lines_end_at_their_ranges(rt: HostRuntime) {
    for (rows, should_be_bad) in GRAMMAR {
        assert_eq!(rt; wrong_line(rt.alloc(), rows, should_be_bad), None);
    }
}

const ENTRIES: &str = "
frame 0/0/0 0 00 0 00|
frame 65535/86399999/999 2 000102030405060708090a0b0c0d0e0f 16777215 Ff|
frame 65535/86399999/999999999p 1 41 0 0010a1|
loss 0/0/0 0 0 0|
loss 65535/86399999/999999999p 3 3 3|
production 0|
production 2|
mark 0/0/0|
mark 65535/86399999/999|";

const BAD_ENTRIES: &str = "
frame 65536/0/0 0 41 0 00|
frame 0/86400000/0 0 41 0 00|
frame 0/0/1000 0 41 0 00|
frame 0/0/1000000000p 0 41 0 00|
frame 0/0/0 3 41 0 00|
frame 0/0/0 0 000102030405060708090a0b0c0d0e0f10 0 00|
frame 0/0/0 0  0 00|
frame 0/0/0 0 41 16777216 00|
frame 0/0/0 0 41 0 |
frame 0/0/0 0 41 0 0|
frame 0/0/0 0 41 0 0g|
frame 0/0/0 0 41 0|
frame 0/0/0 0 41 0 00 00|
loss 0/0/0 4 0 0|
loss 0/0/0 0 4 0|
loss 0/0/0 0 0 4|
loss 0/0/0 0 0|
production 3|
production|
mark none|
mark 0/0/0 0|";

const CONNECTIONS: &str = "
start 0/0/0 65535/86399999/999 0|
start 1/0/0 0/0/0p 2|
clock 65535/86399999/999999999p|
open 1|
open 16|
in 16 00|
shut 16|
break 1|
round 1 1|
round 16 1000|
stall 16 1|
stall 1 1000|";

const BAD_CONNECTIONS: &str = "
start 0/0/0 0/0/0 3|
start none none 0|
start 0/0/0 0/0/0|
clock none|
clock|
open 0|
open 17|
open 01|
in 17 00|
in 1 0|
in 1|
in 1 00 00|
shut 0|
shut 17|
break 17|
round 17 1|
round 1 0|
round 1 1001|
round 1|
stall 17 1|
stall 1 0|
stall 1 1001|";

const DEVICES: &str = "
take|
take fail|
done|
uplink 0 3|
uplink 3 0|
crash 0 old|
crash 1000 new|
crash 7 torn|
fault 1|
fault 1000|";

const BAD_DEVICES: &str = "
take fails|
take |
take fail fail|
done |
done 0|
uplink 4 0|
uplink 0 4|
uplink 0|
crash 1001 old|
crash 0 Old|
crash 0|
fault 0|
fault 1001|";

const MESSAGES: &str = "
ask 1 context 0 65535|
ask 16 bind MOC 0 1 sagr=1.spack=P.rsl-fg=1.raf=onlc1|
ask 1 bind !234567890123~56 65535 65535 cltu=1|
ask 1 unbind|
ask 1 start none none 0|
ask 1 start 0/0/0 65535/86399999/999999999p 2|
ask 1 start none 0/0/0 1023/3/63|
ask 1 start none none 0/0/*|
ask 1 start 0|
ask 1 start 4294967295|
ask 1 stop|
ask 1 report now|
ask 1 report stop|
ask 1 report 0|
ask 1 report 65535|
ask 1 get 0|
ask 1 get 65535|
ask 1 cltu 0 none none 0 0 00|
ask 1 cltu 4294967295 0/0/0 1/0/0 4294967295 1 aA|";

const BAD_MESSAGES: &str = "
ask 17 stop|
ask 0 stop|
ask 1|
ask 1 |
ask 1 context 65536 0|
ask 1 context 0 65536|
ask 1 bind MO 0 5 raf=1|
ask 1 bind 12345678901234567 0 5 raf=1|
ask 1 bind MOC 65536 5 raf=1|
ask 1 bind MOC 0 0 raf=1|
ask 1 bind MOC 0 65536 raf=1|
ask 1 bind MOC 0 5 raf|
ask 1 unbind 0|
ask 1 start none none 3|
ask 1 start none none 0/0/64|
ask 1 start none none 1024/0/0|
ask 1 start 4294967296|
ask 1 start none|
ask 1 start none none|
ask 1 start none none none|
ask 1 start none none 0/0/* clcw continuous|
ask 1 report|
ask 1 report 65536|
ask 1 report Now|
ask 1 get 65536|
ask 1 cltu 4294967296 none none 0 0 00|
ask 1 cltu 0 none none 4294967296 0 00|
ask 1 cltu 0 none none 0 2 00|
ask 1 cltu 0 none none 0 0 |
ask 1 throw 0 7|
ask 1 Stop|";

// Words are one blank apart, and first words are known.
const BAD_WORDS: &str = "
 |
 open 1|
open  1|
open 1 |
open\t1|
open 1\r|
\r|
\t|
 #|
Open 1|
opens 1|
site|
end|
gear 1|
throw 1 2|
sent 1 00|
open 1\n|";

// Lines that say nothing: the empty one, and comments.
const SKIPPED: [&[u8]; 4] = [b"", b"#", b"# a comment\t\r\xff", b"#open 17"];

fn is_skipped(alloc: Global, line: &[u8]) -> bool {
    matches!(parse_line(alloc, line), Ok(ScriptLine::Skip))
}

#[test]
fn empty_lines_and_comments_are_skipped(rt: HostRuntime) {
    for line in SKIPPED {
        assert!(rt; is_skipped(rt.alloc(), line));
    }
}

// What a message says; octets as a list, and an identifier as its text.
fn ask_told(alloc: Global, ask: &AskLine) -> Result<String, AllocError> {
    match ask {
        AskLine::Bind {
            name,
            service,
            version,
            id,
        } => format!(in alloc;
            "Bind {{ name: {:?}, service: {service:?}, version: {version}, id: {id} }}",
            name.as_slice()
        ),
        AskLine::Cltu {
            id,
            earliest,
            latest,
            radiation_delay,
            wanted,
            octets,
        } => format!(in alloc;
            "Cltu {{ id: {id}, earliest: {earliest:?}, latest: {latest:?}, \
            radiation_delay: {radiation_delay}, wanted: {wanted}, octets: {:?} }}",
            octets.as_slice()
        ),
        _ => format!(in alloc; "{ask:?}"),
    }
}

fn said(alloc: Global, line: &ScriptLine) -> Result<String, AllocError> {
    match line {
        ScriptLine::Piece { c, octets } => {
            format!(in alloc; "Piece {{ c: {c}, octets: {:?} }}", octets.as_slice())
        }
        ScriptLine::Ask { c, ask } => {
            let ask = ask_told(alloc, ask)?;
            format!(in alloc; "Ask {{ c: {c}, ask: {ask} }}")
        }
        _ => format!(in alloc; "{line:?}"),
    }
}

fn told(alloc: Global, line: &[u8]) -> Result<String, AllocError> {
    match parse_line(alloc, line) {
        Ok(line) => said(alloc, &line),
        Err(fault) => format!(in alloc; "{fault}"),
    }
}

// The first row whose line doesn't say so.
fn wrong_row<'a>(alloc: Global, rows: &'a str) -> Result<Option<&'a str>, AllocError> {
    for row in rows.split_terminator('|') {
        let (line, value) = row.split_once(" = ").unwrap_or((row, ""));
        let told = told(alloc, line.trim_start().as_bytes())?;
        if !told.split_whitespace().eq(value.split_whitespace()) {
            return Ok(Some(row));
        }
    }
    Ok(None)
}

#[test]
fn each_word_comes_to_its_place(rt: HostRuntime) {
    assert_eq!(rt; wrong_row(rt.alloc(), SAID), Ok(None));
}

const SAID: &str = "
production 1 = Offer(Production { status: Interrupted })|
mark 4/5/6 = Offer(Seal { at: Cds { days: 4, millis: 5, rest: Micros(6) } })|
loss 7/8/9p 1 2 3 = Offer(LossOfSync { at: Cds { days: 7, millis: 8, rest: Picos(9) }, carrier:
OutOfLock,
    subcarrier: NotInUse, symbol: Unknown })|
start 1/2/3 4/5/6p 1 = Desk { start: Cds { days: 1, millis: 2, rest: Micros(3) }, stop: Cds {
    days: 4, millis: 5, rest: Picos(6) }, quality: ErredFrameOnly }|
clock 1/2/3 = Clock(Cds { days: 1, millis: 2, rest: Micros(3) })|
open 3 = Open { c: 3 }|
shut 4 = Shut { c: 4 }|
break 5 = Break { c: 5 }|
round 6 7 = Round { c: 6, n: 7 }|
stall 8 9 = Stall { c: 8, n: 9 }|
take = Take { fail: false }|
take fail = Take { fail: true }|
done = Done|
uplink 1 2 = Uplink { production: Configured, status: NoBitLock }|
crash 3 torn = Crash { k: 3, pick: Torn }|
crash 4 old = Crash { k: 4, pick: Old }|
crash 5 new = Crash { k: 5, pick: New }|
fault 6 = Fault { k: 6 }|
ask 1 context 30 5 = Ask { c: 1, ask: Context { interval: 30, factor: 5 } }|
ask 2 unbind = Ask { c: 2, ask: Unbind }|
ask 1 start none 1/2/3 2 = Ask { c: 1, ask: StartRaf { start: None, stop: Some(Cds { days: 1,
    millis: 2, rest: Micros(3) }), quality: AllFrames } }|
ask 1 start 1/2/3p none 4/1/6 = Ask { c: 1, ask: StartRcf { start: Some(Cds { days: 1, millis: 2,
    rest: Picos(3) }), stop: None, channel: Gvcid { spacecraft: 4, version: 1, channel: Virtual(6)
    } } }|
ask 1 start 7 = Ask { c: 1, ask: StartCltu { first: 7 } }|
ask 1 stop = Ask { c: 1, ask: Stop }|
ask 1 report now = Ask { c: 1, ask: Report(Now) }|
ask 1 report 60 = Ask { c: 1, ask: Report(Cycle(60)) }|
ask 1 report stop = Ask { c: 1, ask: Report(Stop) }|
ask 1 get 27 = Ask { c: 1, ask: Get { name: 27 } }|
in 9 0aFf = Piece { c: 9, octets: [10, 255] }|
ask 3 bind MOC 2 5 sagr=1.cltu=x = Ask { c: 3, ask: Bind { name: [77, 79, 67], service: 2,
    version: 5, id: sagr=1.cltu=x } }|
ask 1 cltu 7 none 20000/0/10 8 1 aa0007 = Ask { c: 1, ask: Cltu { id: 7, earliest: None,
    latest: Some(Cds { days: 20000, millis: 0, rest: Micros(10) }), radiation_delay: 8,
    wanted: false, octets: [170, 0, 7] } }|";

// A line of `head`, so many octets 00 and `tail`.
fn long_line(
    alloc: Global,
    head: &[u8],
    octets: usize,
    tail: &[u8],
) -> Result<Vec<u8>, AllocError> {
    let mut line = Vec::from_slice(alloc, head)?;
    for _ in 0..octets {
        line.extend_from_slice(b"00")?;
    }
    line.extend_from_slice(tail)?;
    Ok(line)
}

// Pieces and CLTUs have at most 65,536 octets.
const LONG: [(&[u8], usize, bool); 4] = [
    (b"in 1 ", 65_536, false),
    (b"in 1 ", 65_537, true),
    (b"ask 1 cltu 0 none none 0 0 ", 65_536, false),
    (b"ask 1 cltu 0 none none 0 0 ", 65_537, true),
];

#[test]
fn pieces_and_cltus_have_at_most_65536_octets(rt: HostRuntime) -> Result<(), Fail> {
    for (head, octets, should_be_bad) in LONG {
        let line = long_line(rt.alloc(), head, octets, b"")?;
        assert_eq!(rt; is_bad(rt.alloc(), &line), should_be_bad);
    }
    Ok(())
}

// The line that offers a storable entry, behind another one.
fn append(alloc: Global, entry: &Entry, into: &mut Octets) -> Result<(), Memory> {
    if entry.is_storable() {
        write_entry_line(alloc, entry, into)
    } else {
        Ok(())
    }
}

// The line that offers an entry again.
fn append_again(alloc: Global, line: &[u8], into: &mut Octets) -> Result<(), Memory> {
    match parse_line(alloc, line) {
        Ok(ScriptLine::Offer(entry)) => append(alloc, &entry, into),
        _ => Ok(()),
    }
}

// The line behind another one.
fn line_behind(text: &[u8]) -> Option<&[u8]> {
    text.strip_prefix(b"made\n")?.strip_suffix(b"\n")
}

// An entry is written as the line that offers it.
fn is_written_so(alloc: Global, line: &[u8]) -> Result<bool, Memory> {
    let mut text = Octets::copy_of(alloc, b"made\n")?;
    append_again(alloc, line, &mut text)?;
    Ok(line_behind(text.as_slice()) == Some(line))
}

const OFFERS: [&[u8]; 5] = [
    b"frame 20000/1000/0 0 41 0 0010a1",
    b"frame 65535/86399999/999999999p 2 00ff 16777215 ff",
    b"loss 1/2/3 1 2 3",
    b"production 2",
    b"mark 0/0/0p",
];

#[test]
fn an_entry_is_written_as_the_line_that_offers_it(rt: HostRuntime) {
    for line in OFFERS {
        assert_eq!(rt; is_written_so(rt.alloc(), line), Ok(true));
    }
}

// The number of a frame's octets, and the last one.
fn frame_end(alloc: Global, line: &[u8]) -> Option<(usize, u8)> {
    match parse_line(alloc, line) {
        Ok(ScriptLine::Offer(Entry::Frame { octets, .. })) => {
            let last = octets.as_slice().last()?;
            Some((octets.len(), *last))
        }
        _ => None,
    }
}

#[test]
fn frames_have_any_number_of_octets(rt: HostRuntime) -> Result<(), Fail> {
    let line = long_line(rt.alloc(), b"frame 0/0/0 0 41 0 ", 65_536, b"ff")?;
    assert_eq!(rt; frame_end(rt.alloc(), &line), Some((65_537, 0xff)));
    Ok(())
}

#[test]
fn faults_have_words_of_their_own(rt: HostRuntime) -> Result<(), Fail> {
    let words = format!(in rt.alloc(); "{}, {}", LineFault::Bad, LineFault::Memory)?;
    assert_eq!(rt; words.as_str(), "bad line, out of memory");
    Ok(())
}

#[test]
fn the_laws_of_lines_are_there() {
    laws::script_is_exact();
    laws::transcript_is_exact();
}
