// A line that names a CLTU.
ghost use Rattle.std.specs.Prelude.{IsTrue, IfOk};
ghost use Rattle.user_task.specs.Fitting.{fits_line};
ghost use Rattle.words.specs.Reading.{Gives};
ghost use Rattle.cltu_lines.specs.CltuText.{line_read, cltu_word};

use crate::notify_word::NotifyWord;
use std::alloc::Global;
use user_task::CltuLine;
use words::{Fixed, FixedText, Hex, Last, Number, Then, Unread, When, read_line};

// The first word.
struct Cltu;

impl FixedText for Cltu {
    ghost use Rattle.cltu_lines.specs.CltuText.{cltu_word};

    ghost TEXT = { cltu_word };

    fn text() -> &'static [u8] {
        b"cltu"
    }
}

type Any32 = Number<0, 4_294_967_295>;

type Radiation = Then<When, Then<When, Then<Any32, Then<NotifyWord, Last<Hex<1, 65_536>>>>>>;

type Row = Then<Fixed<Cltu>, Then<Any32, Radiation>>;

// The CLTU that a line names, its end left away.
#[tactic(auto, unfolding(crate::specs::CltuText::line_read), using(crate::proofs::Fitting::line_fits))]
pub(crate) fn cltu_of(alloc: Global, line: &[u8]) -> Result<CltuLine, Unread>
    ensures exact { Gives (λ cltu. cltu) result (line_read line.now) }
    ensures fits { IfOk result (λ cltu. IsTrue (fits_line cltu)) }
{
    match read_line::<Row>(alloc, line) {
        Ok(((), (id, (earliest, (latest, (radiation_delay, (wanted, octets))))))) => Ok(CltuLine {
            id,
            earliest,
            latest,
            radiation_delay,
            wanted,
            octets,
        }),
        Err(why) => Err(why),
    }
}
