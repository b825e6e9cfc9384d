// Scripts of turns. A line is the seconds of a turn's moment, with `waits` where a block waits or
// `asked` where the user is asked to end, `:`, the messages that come, `=` and what is told of the
// turn. With `shut` the provider closes.
use crate::centre::Centre;
use crate::messages::octets_of;
use crate::scripts;
use crate::texts::text_of;
use std::alloc::Global;
use std::test::Fail;

// The seconds of a turn, and what else is so in it.
fn when_of(words: &str) -> (u32, &str) {
    let (seconds, so) = words.split_once(' ').unwrap_or((words, ""));
    (seconds.parse().unwrap_or(0), so)
}

// What is told of a turn to which messages came.
fn told(alloc: Global, centre: &mut Centre, when: &str, messages: &str) -> Result<String, Fail> {
    let (seconds, so) = when_of(when);
    match messages.trim() {
        "shut" => centre.shut(),
        _ => centre.arrive(alloc, octets_of(alloc, messages)?.as_slice())?,
    }
    centre.turn(seconds, so == "waits", so == "asked")?;
    centre.tell(alloc)
}

// Whether a turn is as its line says.
fn is_so(alloc: Global, centre: &mut Centre, line: &str) -> Result<bool, Fail> {
    let (turn, words) = line.split_once('=').unwrap_or((line, ""));
    let (when, messages) = turn.split_once(':').unwrap_or((turn, ""));
    let text = text_of(alloc, words)?;
    Ok(told(alloc, centre, when, messages)?.as_str() == text.as_str())
}

// The first line of a script that isn't so.
fn wrong_line<'a>(alloc: Global, task: &str, script: &'a str) -> Result<Option<&'a str>, Fail> {
    let Some(mut centre) = Centre::new(alloc, task)? else {
        return Ok(Some(script));
    };
    for line in script.lines() {
        if !is_so(alloc, &mut centre, line)? {
            return Ok(Some(line));
        }
    }
    Ok(None)
}

// The same of scripts with a line `new` between them.
fn wrong_line_of<'a>(alloc: Global, task: &str, scripts: &'a str) -> Result<Option<&'a str>, Fail> {
    for script in scripts.split("new\n") {
        let wrong = wrong_line(alloc, task, script)?;
        if wrong.is_some() {
            return Ok(wrong);
        }
    }
    Ok(None)
}

// A task and its scripts.
const SCRIPTS: [(&str, &str); 16] = [
    ("show-raf", scripts::SHOWN),
    ("raf", scripts::RAF),
    ("raf", scripts::BEATING),
    ("raf", scripts::ASKED),
    ("show-raf", scripts::ASKED_TO_SHOW),
    ("cltu-1", scripts::ASKED_TO_SEND),
    ("raf-report", scripts::REPORTED),
    ("rcf-report", scripts::REPORTED_RCF),
    ("cltu-0-report", scripts::REPORTED_NO_CLTU),
    ("cltu-2-report", scripts::REPORTED_CLTUS),
    ("raf-some", scripts::SOME),
    ("cltu-0", scripts::NO_CLTU),
    ("cltu-1", scripts::ONE_CLTU),
    ("cltu-2", scripts::TWO_CLTUS),
    ("raf sha1", scripts::SIGNED_RAF),
    ("cltu-1 sha256", scripts::SIGNED_CLTU),
];

#[test]
fn turns_lead_to_what_their_scripts_say(rt: HostRuntime) -> Result<(), Fail> {
    for (task, scripts) in SCRIPTS {
        assert_eq!(rt; wrong_line_of(rt.alloc(), task, scripts)?, None, "{task}");
    }
    Ok(())
}
