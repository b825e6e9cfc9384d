// The forms of the lines of a stream, by their first words.

use words::Listed;

/// A form of the lines of a stream, by its first word.
#[derive(Clone, Copy, Debug, PartialEq, Eq)]
pub enum StreamForm {
    Frame,
    Loss,
    Production,
    Backlog,
    End,
    Ok,
    No,
    Notice,
    Report,
    Abort,
    Parameter,
    Invoke,
    Bad,
}

impl Listed for StreamForm {
    ghost use Rattle.explain_lines.specs.Stream.{word_of, all_forms, forms_are_listed};

    ghost spelt = { word_of };

    ghost all = { all_forms };

    ghost each = { forms_are_listed };

    fn from_word(word: &[u8]) -> Option<StreamForm> {
        if word == FRAME {
            Some(StreamForm::Frame)
        } else if word == LOSS {
            Some(StreamForm::Loss)
        } else if word == PRODUCTION {
            Some(StreamForm::Production)
        } else if word == BACKLOG {
            Some(StreamForm::Backlog)
        } else if word == END {
            Some(StreamForm::End)
        } else if word == OK {
            Some(StreamForm::Ok)
        } else if word == NO {
            Some(StreamForm::No)
        } else if word == NOTICE {
            Some(StreamForm::Notice)
        } else if word == REPORT {
            Some(StreamForm::Report)
        } else if word == ABORT {
            Some(StreamForm::Abort)
        } else if word == PARAMETER {
            Some(StreamForm::Parameter)
        } else if word == INVOKE {
            Some(StreamForm::Invoke)
        } else if word == BAD {
            Some(StreamForm::Bad)
        } else {
            None
        }
    }

    fn word(self) -> &'static [u8] {
        match self {
            StreamForm::Frame => FRAME,
            StreamForm::Loss => LOSS,
            StreamForm::Production => PRODUCTION,
            StreamForm::Backlog => BACKLOG,
            StreamForm::End => END,
            StreamForm::Ok => OK,
            StreamForm::No => NO,
            StreamForm::Notice => NOTICE,
            StreamForm::Report => REPORT,
            StreamForm::Abort => ABORT,
            StreamForm::Parameter => PARAMETER,
            StreamForm::Invoke => INVOKE,
            StreamForm::Bad => BAD,
        }
    }
}

const FRAME: &[u8] = b"frame";

const LOSS: &[u8] = b"loss";

const PRODUCTION: &[u8] = b"production";

const BACKLOG: &[u8] = b"backlog";

const END: &[u8] = b"end";

const OK: &[u8] = b"ok";

const NO: &[u8] = b"no";

const NOTICE: &[u8] = b"notice";

const REPORT: &[u8] = b"report";

const ABORT: &[u8] = b"abort";

const PARAMETER: &[u8] = b"parameter";

const INVOKE: &[u8] = b"invoke";

const BAD: &[u8] = b"bad";
