// The forms of messages that a peer sends.

use words::Listed;

/// A form of a message behind `ask C`, by its first word.
#[derive(Clone, Copy, Debug, PartialEq, Eq)]
pub enum AskForm {
    Context,
    Bind,
    Unbind,
    Start,
    Stop,
    Report,
    Get,
    Cltu,
}

impl Listed for AskForm {
    ghost use Rattle.drill_text.specs.Asks.{ask_word, ask_forms, asks_are_listed};

    ghost spelt = { ask_word };

    ghost all = { ask_forms };

    ghost each = { asks_are_listed };

    fn from_word(word: &[u8]) -> Option<AskForm> {
        if word == CONTEXT {
            Some(AskForm::Context)
        } else if word == BIND {
            Some(AskForm::Bind)
        } else if word == UNBIND {
            Some(AskForm::Unbind)
        } else if word == START {
            Some(AskForm::Start)
        } else if word == STOP {
            Some(AskForm::Stop)
        } else if word == REPORT {
            Some(AskForm::Report)
        } else if word == GET {
            Some(AskForm::Get)
        } else if word == CLTU {
            Some(AskForm::Cltu)
        } else {
            None
        }
    }

    fn word(self) -> &'static [u8] {
        match self {
            AskForm::Context => CONTEXT,
            AskForm::Bind => BIND,
            AskForm::Unbind => UNBIND,
            AskForm::Start => START,
            AskForm::Stop => STOP,
            AskForm::Report => REPORT,
            AskForm::Get => GET,
            AskForm::Cltu => CLTU,
        }
    }
}

const CONTEXT: &[u8] = b"context";

const BIND: &[u8] = b"bind";

const UNBIND: &[u8] = b"unbind";

const START: &[u8] = b"start";

const STOP: &[u8] = b"stop";

const REPORT: &[u8] = b"report";

const GET: &[u8] = b"get";

const CLTU: &[u8] = b"cltu";
