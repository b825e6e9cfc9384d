// Feeds as texts, over disks that fail and stop at each of their calls. A word is a kind of entry
// and its time in seconds: `frame` has three octets, `long` one more than an archive takes, and
// `seal` is a seal. At `end` the source's end comes, and at a bar the recorder makes a step.
//
// A store makes four counted calls, and a reopen one. A frame of these has 24 octets in the file, a
// seal 10, and a batch 7 more.
ghost use Rattle.std.specs.Prelude.{◌≡◌, [], false};

use antenna_core::{Antenna, AntennaSim};
use cds_time::Cds;
use disk_model::{MemoryDisk, Orders, Pick, Stop};
use frame_archive::{FrameArchive, open_archive};
use octet_core::{Failed, FailingCalls, Octets};
use record_form::Entry;
use recorder::{Feed, FrameSource, MemoryFrames, Recorded, record_step};
use sle_numbers::FrameQuality;
use std::alloc::{AllocError, Global};
use std::test::Fail;
use std::time::Duration;

// An archive's capacity, two calls of its disk and one of the source that fail (none at 0), a feed,
// and what its steps tell and the file then holds.
const ROWS: [&str; 17] = [
    // Three frames and a seal fit. The second frame 1 and frame 4 come too late, and nothing is free
    // for frame 5.
    "98 0 0 0 = frame-1 frame-2 frame-1 long-3 frame-3 seal-4 frame-4 frame-5 end | = \
    stored 1 2 3 4 (3, 1, Some(Full { need: 24, free: 0 })) None true; held 1 2 3 4 in 98",
    "40 0 0 0 = frame-2 frame-3 frame-1 | = stored 2 (1, 1, Some(Backward)) None false; held 2 in 40",
    "99 0 0 0 = | long-1 | end | | = stored (0, 0, None) None false; \
    stored (1, 0, Some(TooLong)) None false; stored (0, 0, None) None true; \
    stored (0, 0, None) None true; held in 9",
    // Two steps make eight calls of the disk. Whichever fails, each entry is there once.
    "999 1 0 0 = frame-1 frame-2 | seal-3 frame-4 end | = stored 1 2 (0, 0, None) Some(0) false; \
    stored 3 4 (0, 0, None) None true; held 1 2 3 4 in 105",
    "999 2 0 0 = frame-1 frame-2 | seal-3 frame-4 end | = stored 1 2 (0, 0, None) Some(0) false; \
    stored 3 4 (0, 0, None) None true; held 1 2 3 4 in 105",
    "999 3 0 0 = frame-1 frame-2 | seal-3 frame-4 end | = stored 1 2 (0, 0, None) Some(0) false; \
    stored 3 4 (0, 0, None) None true; held 1 2 3 4 in 105",
    "999 4 0 0 = frame-1 frame-2 | seal-3 frame-4 end | = stored 1 2 (0, 0, None) Some(2) false; \
    stored 3 4 (0, 0, None) None true; held 1 2 3 4 in 105",
    "999 5 0 0 = frame-1 frame-2 | seal-3 frame-4 end | = stored 1 2 (0, 0, None) None false; \
    stored 3 4 (0, 0, None) Some(2) true; held 1 2 3 4 in 105",
    "999 6 0 0 = frame-1 frame-2 | seal-3 frame-4 end | = stored 1 2 (0, 0, None) None false; \
    stored 3 4 (0, 0, None) Some(2) true; held 1 2 3 4 in 105",
    "999 7 0 0 = frame-1 frame-2 | seal-3 frame-4 end | = stored 1 2 (0, 0, None) None false; \
    stored 3 4 (0, 0, None) Some(2) true; held 1 2 3 4 in 105",
    "999 8 0 0 = frame-1 frame-2 | seal-3 frame-4 end | = stored 1 2 (0, 0, None) None false; \
    stored 3 4 (0, 0, None) Some(4) true; held 1 2 3 4 in 105",
    // Each of the two has a store that fails.
    "999 4 6 0 = frame-1 frame-2 | seal-3 frame-4 end | = stored 1 2 (0, 0, None) Some(2) false; \
    stored 3 4 (0, 0, None) Some(2) true; held 1 2 3 4 in 105",
    // The gate isn't opened, or isn't known to be, and the reopen's sync fails.
    "999 3 4 0 = frame-1 frame-2 | seal-3 | = disk fault; held in 9",
    "999 4 5 0 = frame-1 frame-2 | seal-3 | = disk fault; held 1 2 in 64",
    // The second store fails.
    "999 1 3 0 = frame-1 frame-2 | seal-3 | = disk fault; held in 9",
    "999 2 7 0 = frame-1 frame-2 | seal-3 | = disk fault; held 1 2 in 64",
    // Behind a fault of the source nothing of its step is stored.
    "999 0 0 4 = frame-1 | frame-2 end | = stored 1 (0, 0, None) None false; the source failed; \
    held 1 in 40",
];

// The entry that a word stands for.
fn entry(alloc: Global, word: &str) -> Result<Entry, AllocError> {
    let (kind, number) = word.split_once('-').unwrap_or((word, ""));
    let seconds: u8 = number.parse().unwrap_or(0);
    let at = Cds::of_unix_time(Duration::from_secs(seconds.into())).ok_or(AllocError)?;
    if kind == "seal" {
        return Ok(Entry::Seal { at });
    }
    let length = if kind == "long" { 65_537 } else { 3 };
    Ok(Entry::Frame {
        ert: at,
        quality: FrameQuality::Good,
        antenna: Octets::copy_of(alloc, b"A")?,
        lost: 0,
        octets: Octets::from_vec(alloc, vec![in alloc; seconds; length]?)?,
    })
}

// An entry comes, or the end.
fn come(alloc: Global, frames: &mut MemoryFrames, word: &str) -> Result<(), AllocError> {
    if word == "end" {
        frames.end();
        return Ok(());
    }
    let entry = entry(alloc, word)?;
    if !entry.is_valid() {
        return Err(AllocError);
    }
    frames.arrive(entry)?;
    Ok(())
}

// The times of entries in seconds, each with a blank before it.
fn times(alloc: Global, entries: &[Entry]) -> Result<String, AllocError> {
    let mut text = String::new(alloc);
    for entry in entries {
        if let Entry::Frame { ert: at, .. } | Entry::Seal { at } = entry {
            text.push_str(format!(in alloc; " {}", at.millis / 1_000)?.as_str())?;
        }
    }
    Ok(text)
}

// What a step stored and dropped, its reopen, and whether the source's end came.
fn told(alloc: Global, made: &Recorded) -> Result<String, AllocError> {
    let times = times(alloc, made.entries.as_slice())?;
    let dropped = (made.refused, made.full, made.refusal);
    format!(in alloc;
        "stored{times} {dropped:?} {:?} {}; ",
        made.reopened, made.last
    )
}

// Makes a step at each bar, until one doesn't end well.
fn record(
    alloc: Global,
    archive: &mut FrameArchive<MemoryDisk>,
    frames: &mut MemoryFrames,
    feed: &str,
) -> Result<String, AllocError>
    requires rests { archive.old.waiting ≡ [] }
    requires ready { archive.old.is_stale ≡ false }
{
    let mut text = String::new(alloc);
    'words: for word in feed.split_whitespace() {
        if word != "|" {
            come(alloc, frames, word)?;
            continue;
        }
        match record_step(alloc, archive, frames) {
            Ok(made) => text.push_str(told(alloc, &made)?.as_str())?,
            Err(fault) => {
                text.push_str(format!(in alloc; "{fault}; ")?.as_str())?;
                return Ok(text);
            }
        }
    }
    Ok(text)
}

// What the steps of a feed tell, and what the file holds that is opened again, as by a process that
// starts again.
fn play(
    alloc: Global,
    capacity: u64,
    failing: &[u64],
    stop: Option<Stop>,
    source: u64,
    feed: &str,
) -> Result<String, AllocError> {
    let disk = MemoryDisk::holding(alloc, b"SLEA\x00\x00\x00\x01\x00")?;
    let Ok((mut archive, _)) = open_archive(alloc, disk, capacity.min(268_435_456)) else {
        return Err(AllocError);
    };
    let failing = FailingCalls::new(Vec::from_slice(alloc, failing)?);
    archive.steer(Orders { failing, stop });
    let mut frames = MemoryFrames::new(alloc, vec![in alloc; source]?);
    let text = record(alloc, &mut archive, &mut frames, feed)?;
    archive.restart()?;
    let entries = archive.open_anew().map_err(|_| AllocError)?;
    let times = times(alloc, entries.as_slice())?;
    format!(in alloc; "{text}held{times} in {}", archive.used())
}

#[test]
fn steps_tell_what_came_of_each_entry(rt: HostRuntime) -> Result<(), Fail> {
    for row in ROWS {
        let (setting, rest) = row.split_once(" = ").ok_or("no setting")?;
        let (feed, told) = rest.split_once(" = ").ok_or("no feed")?;
        let mut numbers = setting.split(' ').map(|word| word.parse().unwrap_or(0));
        let [capacity, first, second, source] = [(); 4].map(|_| numbers.next().unwrap_or(0));
        let text = play(rt.alloc(), capacity, &[first, second], None, source, feed)?;
        assert_eq!(rt; text.as_str(), told);
    }
    Ok(())
}

#[test]
fn a_stop_leaves_a_batch_whole_or_not_at_all(rt: HostRuntime) -> Result<(), Fail> {
    for pick in [Pick::Old, Pick::New, Pick::Torn] {
        for calls in 1..=4 {
            let stop = Some(Stop { calls, pick });
            let text = play(rt.alloc(), 99, &[], stop, 0, "frame-1 frame-1 seal-2 |")?;
            let told = match pick {
                Pick::New if calls > 2 => "disk fault; held 1 1 2 in 74",
                _ => "disk fault; held in 9",
            };
            assert_eq!(rt; text.as_str(), told);
        }
    }
    Ok(())
}

#[test]
fn six_hundred_seals_are_three_batches(rt: HostRuntime) -> Result<(), Fail> {
    let mut feed = String::new(rt.alloc());
    for _ in 0..600 {
        feed.push_str("seal-1 ")?;
    }
    feed.push_str("end | | |")?;
    let text = play(rt.alloc(), 9_999, &[], None, 0, feed.as_str())?;
    assert!(rt; text.ends_with(" in 6030"));
    Ok(())
}

#[test]
fn an_antenna_tells_what_was_sent(rt: HostRuntime) -> Result<(), Fail> {
    let mut antenna = AntennaSim::new(rt.alloc(), vec![in rt.alloc(); 2]?);
    let sent = [b"a", b"b", b"c"].map(|octets| antenna.send(octets).is_ok());
    assert_eq!(rt; sent, [true, false, true]);
    antenna.break_send();
    assert_eq!(rt; antenna.send(b"d"), Err(Failed));
    assert_eq!(rt; antenna.send(b""), Ok(()));
    assert_eq!(rt; antenna.faults(), 2);
    let Some([first, second, third]) = antenna.sent() else {
        return Err("it doesn't tell three".into());
    };
    let told = [first.as_slice(), second.as_slice(), third.as_slice()];
    assert_eq!(rt; told, [b"a".as_slice(), b"c", b""]);
    Ok(())
}

#[test]
fn a_source_gives_what_came_and_tells_its_answers(rt: HostRuntime) -> Result<(), Fail> {
    let mut frames = MemoryFrames::new(rt.alloc(), vec![in rt.alloc(); 2]?);
    come(rt.alloc(), &mut frames, "seal-1")?;
    let answers = [frames.next(), frames.next(), frames.next()];
    assert!(rt; matches!(answers, [Feed::Entry(_), Feed::Failed, Feed::NotYet]));
    frames.end();
    assert!(rt; matches!(frames.next(), Feed::End));
    assert_eq!(rt; frames.faults(), 1);
    let told = frames.told().ok_or("it tells nothing")?;
    assert!(rt;
        matches!(
            told,
            [Feed::Entry(_), Feed::Failed, Feed::NotYet, Feed::End]
        )
    );
    Ok(())
}
