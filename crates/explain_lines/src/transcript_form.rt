// The forms of a transcript's lines, by their first words.
ghost use Rattle.std.specs.Prelude.{◌≡◌};
ghost use Rattle.std.specs.Option.{option_map};
ghost use Rattle.drill_text.specs.Transcript.{word_of, all_forms};
ghost use Rattle.words.specs.Listed.{value_of};
ghost use Rattle.explain_lines.specs.Transcribed.{form_of};

/// A form of a transcript's lines, by its first word.
#[derive(Clone, Copy, Debug, PartialEq, Eq)]
pub enum TranscriptForm {
    Sent,
    Stalled,
    Discarded,
    Ended,
    Backward,
    Too,
    Full,
    Fault,
    Crash,
    Archive,
    Radiated,
    Expired,
    Waits,
    Idle,
    Failed,
    Refused,
}

impl TranscriptForm {
    /// The form that has this word.
    pub fn from_word(word: &[u8]) -> Option<TranscriptForm>
        ensures { option_map form_of result ≡ value_of word_of all_forms word.now }
    {
        if word == SENT {
            Some(TranscriptForm::Sent)
        } else if word == STALLED {
            Some(TranscriptForm::Stalled)
        } else if word == DISCARDED {
            Some(TranscriptForm::Discarded)
        } else if word == ENDED {
            Some(TranscriptForm::Ended)
        } else if word == BACKWARD {
            Some(TranscriptForm::Backward)
        } else if word == TOO {
            Some(TranscriptForm::Too)
        } else if word == FULL {
            Some(TranscriptForm::Full)
        } else if word == FAULT {
            Some(TranscriptForm::Fault)
        } else if word == CRASH {
            Some(TranscriptForm::Crash)
        } else if word == ARCHIVE {
            Some(TranscriptForm::Archive)
        } else if word == RADIATED {
            Some(TranscriptForm::Radiated)
        } else if word == EXPIRED {
            Some(TranscriptForm::Expired)
        } else if word == WAITS {
            Some(TranscriptForm::Waits)
        } else if word == IDLE {
            Some(TranscriptForm::Idle)
        } else if word == FAILED {
            Some(TranscriptForm::Failed)
        } else if word == REFUSED {
            Some(TranscriptForm::Refused)
        } else {
            None
        }
    }
}

const SENT: &[u8] = b"sent";

const STALLED: &[u8] = b"stalled";

const DISCARDED: &[u8] = b"discarded";

const ENDED: &[u8] = b"ended";

const BACKWARD: &[u8] = b"backward";

const TOO: &[u8] = b"too";

const FULL: &[u8] = b"full";

const FAULT: &[u8] = b"fault";

const CRASH: &[u8] = b"crash";

const ARCHIVE: &[u8] = b"archive";

const RADIATED: &[u8] = b"radiated";

const EXPIRED: &[u8] = b"expired";

const WAITS: &[u8] = b"waits";

const IDLE: &[u8] = b"idle";

const FAILED: &[u8] = b"failed";

const REFUSED: &[u8] = b"refused";
