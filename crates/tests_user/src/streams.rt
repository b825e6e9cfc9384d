// Whole streams. A row is a stream's messages, `=`, and what is told of a user that hears it, and
// then its end; `;` ends it.
use crate::centre::Centre;
use crate::messages::octets_of;
use crate::texts::text_of;
use crate::{cltu_rows, common_rows, raf_rows, rcf_rows};
use std::alloc::Global;
use std::test::Fail;

// What is told of a user to whom these pieces came, and then the end.
fn told(alloc: Global, task: &str, first: &[u8], second: &[u8]) -> Result<String, Fail> {
    let Some(mut centre) = Centre::new(alloc, task)? else {
        return Ok(String::new(alloc));
    };
    centre.arrive(alloc, first)?;
    centre.arrive(alloc, second)?;
    centre.shut();
    for _ in 0..3 {
        centre.turn(0, false, false)?;
    }
    centre.tell(alloc)
}

// The first of some places at which a stream is cut so that something else is told.
fn wrong_cut(
    alloc: Global,
    task: &str,
    stream: &[u8],
    text: &str,
    cuts: usize,
) -> Result<Option<usize>, Fail> {
    for cut in 0..=cuts {
        let (first, second) = stream.split_at(cut.min(stream.len()));
        if told(alloc, task, first, second)?.as_str() != text {
            return Ok(Some(cut));
        }
    }
    Ok(None)
}

// A row's first wrong cut. A stream that isn't cut comes in its second piece.
fn wrong_in(alloc: Global, task: &str, row: &str, is_cut: bool) -> Result<Option<usize>, Fail> {
    let (messages, words) = row.split_once('=').unwrap_or((row, ""));
    let stream = octets_of(alloc, messages)?;
    let text = text_of(alloc, words)?;
    let cuts = if is_cut { stream.len() } else { 0 };
    wrong_cut(alloc, task, stream.as_slice(), text.as_str(), cuts)
}

// The first row that isn't so, and where it is cut.
fn wrong_row<'a>(
    alloc: Global,
    task: &str,
    rows: &'a str,
    is_cut: bool,
) -> Result<Option<(&'a str, usize)>, Fail> {
    for row in rows.split_terminator(';') {
        if let Some(cut) = wrong_in(alloc, task, row, is_cut)? {
            return Ok(Some((row, cut)));
        }
    }
    Ok(None)
}

// A task, its rows, and whether they are cut at every octet.
const ROWS: [(&str, &str, bool); 10] = [
    ("show-raf", common_rows::SHOWN, false),
    ("show-rcf", common_rows::SHOWN, false),
    ("show-cltu", common_rows::SHOWN, false),
    ("show-raf", raf_rows::SHOWN, true),
    ("show-rcf", rcf_rows::SHOWN, true),
    ("show-cltu", cltu_rows::SHOWN, true),
    ("raf", raf_rows::HEARD, true),
    ("rcf", rcf_rows::HEARD, true),
    ("cltu-1", cltu_rows::ONE, true),
    ("cltu-2", cltu_rows::TWO, true),
];

#[test]
fn streams_are_told_as_their_rows_say(rt: HostRuntime) -> Result<(), Fail> {
    for (task, rows, is_cut) in ROWS {
        assert_eq!(rt; wrong_row(rt.alloc(), task, rows, is_cut)?, None, "{task}");
    }
    Ok(())
}
