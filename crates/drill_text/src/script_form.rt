// The forms of a script's lines.

use words::Listed;

/// A form of a script's lines, by its first word.
#[derive(Clone, Copy, Debug, PartialEq, Eq)]
pub enum ScriptForm {
    Frame,
    Loss,
    Production,
    Mark,
    Start,
    Clock,
    Open,
    In,
    Ask,
    Shut,
    Break,
    Round,
    Stall,
    Take,
    Done,
    Uplink,
    Crash,
    Fault,
}

impl Listed for ScriptForm {
    ghost use Rattle.drill_text.specs.Script.{script_word, script_forms, script_is_listed};

    ghost spelt = { script_word };

    ghost all = { script_forms };

    ghost each = { script_is_listed };

    fn from_word(word: &[u8]) -> Option<ScriptForm> {
        if word == FRAME {
            Some(ScriptForm::Frame)
        } else if word == LOSS {
            Some(ScriptForm::Loss)
        } else if word == PRODUCTION {
            Some(ScriptForm::Production)
        } else if word == MARK {
            Some(ScriptForm::Mark)
        } else if word == START {
            Some(ScriptForm::Start)
        } else if word == CLOCK {
            Some(ScriptForm::Clock)
        } else if word == OPEN {
            Some(ScriptForm::Open)
        } else if word == IN {
            Some(ScriptForm::In)
        } else if word == ASK {
            Some(ScriptForm::Ask)
        } else if word == SHUT {
            Some(ScriptForm::Shut)
        } else if word == BREAK {
            Some(ScriptForm::Break)
        } else if word == ROUND {
            Some(ScriptForm::Round)
        } else if word == STALL {
            Some(ScriptForm::Stall)
        } else if word == TAKE {
            Some(ScriptForm::Take)
        } else if word == DONE {
            Some(ScriptForm::Done)
        } else if word == UPLINK {
            Some(ScriptForm::Uplink)
        } else if word == CRASH {
            Some(ScriptForm::Crash)
        } else if word == FAULT {
            Some(ScriptForm::Fault)
        } else {
            None
        }
    }

    fn word(self) -> &'static [u8] {
        match self {
            ScriptForm::Frame => FRAME,
            ScriptForm::Loss => LOSS,
            ScriptForm::Production => PRODUCTION,
            ScriptForm::Mark => MARK,
            ScriptForm::Start => START,
            ScriptForm::Clock => CLOCK,
            ScriptForm::Open => OPEN,
            ScriptForm::In => IN,
            ScriptForm::Ask => ASK,
            ScriptForm::Shut => SHUT,
            ScriptForm::Break => BREAK,
            ScriptForm::Round => ROUND,
            ScriptForm::Stall => STALL,
            ScriptForm::Take => TAKE,
            ScriptForm::Done => DONE,
            ScriptForm::Uplink => UPLINK,
            ScriptForm::Crash => CRASH,
            ScriptForm::Fault => FAULT,
        }
    }
}

const FRAME: &[u8] = b"frame";

const LOSS: &[u8] = b"loss";

const PRODUCTION: &[u8] = b"production";

const MARK: &[u8] = b"mark";

const START: &[u8] = b"start";

const CLOCK: &[u8] = b"clock";

const OPEN: &[u8] = b"open";

const IN: &[u8] = b"in";

const ASK: &[u8] = b"ask";

const SHUT: &[u8] = b"shut";

const BREAK: &[u8] = b"break";

const ROUND: &[u8] = b"round";

const STALL: &[u8] = b"stall";

const TAKE: &[u8] = b"take";

const DONE: &[u8] = b"done";

const UPLINK: &[u8] = b"uplink";

const CRASH: &[u8] = b"crash";

const FAULT: &[u8] = b"fault";
