// The words of levels.

use crate::level::Level;
use words::Listed;

impl Listed for Level {
    ghost use Rattle.station_config.specs.Kinds.{level_word, levels, levels_are_listed};

    ghost spelt = { level_word };

    ghost all = { levels };

    ghost each = { levels_are_listed };

    fn from_word(word: &[u8]) -> Option<Level> {
        if word == NONE {
            Some(Level::Nothing)
        } else if word == BIND {
            Some(Level::Bind)
        } else if word == ALL {
            Some(Level::All)
        } else {
            None
        }
    }

    fn word(self) -> &'static [u8] {
        match self {
            Level::Nothing => NONE,
            Level::Bind => BIND,
            Level::All => ALL,
        }
    }
}

const NONE: &[u8] = b"none";

const BIND: &[u8] = b"bind";

const ALL: &[u8] = b"all";
