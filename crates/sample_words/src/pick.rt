// What a read gives of octets that a stop left unsynced.

use words::Listed;

/// What a read gives of octets that a stop left unsynced.
#[derive(Clone, Copy, Debug, PartialEq, Eq)]
pub enum Pick {
    /// What stood there before.
    Old,
    /// What was written.
    New,
    /// Some of both.
    Torn,
}

impl Listed for Pick {
    ghost use Rattle.sample_words.specs.Picks.{pick_word, picks, picks_are_listed};

    ghost spelt = { pick_word };

    ghost all = { picks };

    ghost each = { picks_are_listed };

    fn from_word(word: &[u8]) -> Option<Pick> {
        if word == OLD {
            Some(Pick::Old)
        } else if word == NEW {
            Some(Pick::New)
        } else if word == TORN {
            Some(Pick::Torn)
        } else {
            None
        }
    }

    fn word(self) -> &'static [u8] {
        match self {
            Pick::Old => OLD,
            Pick::New => NEW,
            Pick::Torn => TORN,
        }
    }
}

const OLD: &[u8] = b"old";

const NEW: &[u8] = b"new";

const TORN: &[u8] = b"torn";
