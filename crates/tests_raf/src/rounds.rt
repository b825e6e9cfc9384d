// Rounds of an instance of RAF at random, beside a plain program.
use crate::ground::Scene;
use crate::instance::{Kind, Terms};
use crate::plain::Plain;
use sle_numbers::ReturnDeliveryMode;
use std::alloc::{AllocError, Global};
use std::test::Fail;

const ENTRIES: &str = "ggeguLgegggguuLLggegegLegggeuggggLgegeggegggLuggegegggegeggg";

// What may happen, the likelier the oftener it stands here.
const STEPS: [&str; 24] = [
    "start none none 0",
    "start none none 1",
    "start none none 2",
    "stop",
    "report now",
    "report stop",
    "report 1",
    "report 2",
    "report 3",
    "due",
    "due",
    "due",
    "later 400",
    "later 1100",
    "later 2000",
    "more",
    "more",
    "more",
    "more",
    "round whole",
    "round whole",
    "round whole",
    "round stall",
    "round fail",
];

// The next number of a sequence, and a choice below `end` by it.
fn next(number: u32) -> u32 {
    ((u64::from(number) * 1_103_515_245 + 12_345) % 0x8000_0000) as u32
}

fn step_at(number: u32) -> &'static str {
    STEPS[(number / 65_536) as usize % 24]
}

// How many milliseconds a step takes.
fn pause(step: &str) -> u64 {
    match step.split_once(' ') {
        Some(("later", millis)) => millis.parse().unwrap_or(0),
        _ => 0,
    }
}

fn yes(alloc: Global, is_done: bool, why: u32) -> Result<String, AllocError> {
    if is_done {
        format!(in alloc; "ok")
    } else {
        format!(in alloc; "Specific({why})")
    }
}

fn due(alloc: Global, plain: &mut Plain, locks: &str) -> Result<String, AllocError> {
    if !plain.reports() {
        return format!(in alloc; "-");
    }
    let (good, all) = (plain.good, plain.all);
    format!(in alloc; "{good} of {all}, {locks} 0")
}

fn round(alloc: Global, plain: &mut Plain, seen: &str, how: &str) -> Result<String, AllocError> {
    match plain.round(seen.as_bytes(), how) {
        None => format!(in alloc; "-"),
        Some((items, true)) => format!(in alloc; "kept {items}"),
        Some((items, false)) => format!(in alloc; "settled {items}"),
    }
}

fn report(alloc: Global, plain: &mut Plain, word: &str) -> Result<String, AllocError> {
    match word {
        "now" => yes(alloc, plain.request(None, false), 2),
        "stop" => yes(alloc, plain.request(None, true), 1),
        _ => yes(
            alloc,
            plain.request(Some(word.parse().unwrap_or(0)), false),
            2,
        ),
    }
}

fn locks(seen: &str) -> &'static str {
    match seen.as_bytes().last() {
        None => "3333",
        Some(b'L') => "1230",
        Some(_) => "0000",
    }
}

// What the plain program says of a step.
fn said(alloc: Global, plain: &mut Plain, seen: &str, step: &str) -> Result<String, AllocError> {
    let (first, rest) = step.split_once(' ').unwrap_or((step, ""));
    match first {
        "start" => {
            let quality = rest.as_bytes().last().copied().unwrap_or(b'2');
            plain.start(quality, seen.as_bytes());
            format!(in alloc; "ok")
        }
        "stop" => {
            plain.stop();
            format!(in alloc; "stopped")
        }
        "report" => report(alloc, plain, rest),
        "due" => due(alloc, plain, locks(seen)),
        "round" => round(alloc, plain, seen, rest),
        _ => format!(in alloc; "nothing"),
    }
}

// What both say of a step, where they differ.
fn apart(
    alloc: Global,
    scene: &mut Scene<'static>,
    plain: &mut Plain,
    seen: &'static str,
    step: &'static str,
) -> Result<Option<String>, AllocError> {
    plain.now = plain.now.saturating_add(pause(step));
    scene.at(plain.now);
    scene.show(seen);
    let expected = said(alloc, plain, seen, step)?;
    let found = scene.answer(alloc, step)?;
    if found.as_str() == expected.as_str() {
        return Ok(None);
    }
    Ok(Some(format!(in alloc; "{step} = {found}, not {expected}")?))
}

// The first step of so many at which the two differ, with what both said.
fn difference(
    alloc: Global,
    mode: ReturnDeliveryMode,
    size: u32,
    seed: u32,
) -> Result<Option<String>, AllocError> {
    let terms = Terms {
        kind: Kind::Raf,
        mode,
        size,
        latency: 1,
    };
    let mut scene = Scene::of(alloc, &terms)?;
    let mut plain = Plain::new(mode, size as usize, 1000);
    let mut number = seed;
    let mut count = 0usize;
    for _ in 0..150 {
        number = next(number);
        let step = step_at(number);
        count = count.saturating_add(usize::from(step == "more"));
        let seen = ENTRIES.get(..count).unwrap_or(ENTRIES);
        if let Some(apart) = apart(alloc, &mut scene, &mut plain, seen, step)? {
            return Ok(Some(apart));
        }
    }
    Ok(None)
}

#[test]
fn a_plain_program_does_the_same(rt: HostRuntime) -> Result<(), Fail> {
    for mode in [
        ReturnDeliveryMode::TimelyOnline,
        ReturnDeliveryMode::CompleteOnline,
    ] {
        for size in 1..5 {
            for seed in 0..8 {
                assert_eq!(rt; difference(rt.alloc(), mode, size, seed)?, None);
            }
        }
    }
    Ok(())
}
