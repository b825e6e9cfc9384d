// Lines by their first word.
ghost use Rattle.std.specs.Prelude.{◌≡◌, ◌++◌, IfOk, OnOk};
ghost use Rattle.words.specs.Lines.{reading, spelling};
ghost use Rattle.words.specs.Reading.{Judges};
ghost use Rattle.sample_words.specs.Script.{script};

use crate::pick::Pick;
use cds_time::Cds;
use octet_core::Octets;
use sle_numbers::FrameQuality;
use std::alloc::{AllocError, Global};
use words::{
    Cause, Hex, Last, LineFault, Number, NumberOf, OneOf, Then, Time, WriteWords, read_row,
    split_part,
};

/// What a line says.
#[derive(Debug, Drop)]
pub enum ScriptLine {
    /// `frame TIME Q HEX`: a frame of 1 to 65,536 octets is received, with a quality.
    Frame {
        ert: Cds,
        quality: FrameQuality,
        octets: Octets,
    },
    /// `mark TIME`: the archive is sealed up to a time.
    Mark(Cds),
    /// `crash K PICK`: the K-th counted call from now on stops, 0 to 1000.
    Crash {
        after: u32,
        pick: Pick,
    },
}

const FRAME: &[u8] = b"frame";

type Frame = Then<Time, Then<NumberOf<FrameQuality>, Last<Hex<1, 65_536>>>>;

const MARK: &[u8] = b"mark";

type Mark = Last<Time>;

const CRASH: &[u8] = b"crash";

type Crash = Then<Number<0, 1_000>, Last<OneOf<Pick>>>;

/// What a line says, its end left away, or the first cause why it says nothing.
pub fn parse_line(alloc: Global, line: &[u8]) -> Result<ScriptLine, LineFault>
    ensures exact { Judges (λ says. says) result (reading script line.now) }
    ensures fits { IfOk result script.Fits }
{
    let (word, words) = split_part(b' ', line);
    if word == FRAME {
        let (ert, (quality, octets)) = read_row::<Frame>(alloc, words)?;
        Ok(ScriptLine::Frame {
            ert,
            quality,
            octets,
        })
    } else if word == MARK {
        let at = read_row::<Mark>(alloc, words)?;
        Ok(ScriptLine::Mark(at))
    } else if word == CRASH {
        let (after, pick) = read_row::<Crash>(alloc, words)?;
        Ok(ScriptLine::Crash { after, pick })
    } else {
        Err(LineFault::Line(Cause::FirstWord))
    }
}

/// Appends the canonical line, without its end. Where memory is refused, a front of it may stand
/// there.
pub fn write_line(line: &ScriptLine, into: &mut Vec<u8>) -> Result<(), AllocError>
    requires { script.Fits line.now }
    ensures { OnOk result (into.new.items ≡ into.old.items ++ spelling script line.now) }
{
    match line {
        ScriptLine::Frame {
            ert,
            quality,
            octets,
        } => {
            into.extend_from_slice(FRAME)?;
            Frame::put(b' ', (ert, (quality, octets)), into)
        }
        ScriptLine::Mark(at) => {
            into.extend_from_slice(MARK)?;
            Mark::put(b' ', at, into)
        }
        ScriptLine::Crash { after, pick } => {
            into.extend_from_slice(CRASH)?;
            Crash::put(b' ', (after, pick), into)
        }
    }
}
