// The lines of a text, one after the other.
ghost use Rattle.std.specs.Prelude.{◌≡◌, ℕ, List, Result, IfOk, IfErr, OnOk, true};
ghost use Rattle.std.specs.List.{list_all};
ghost use Rattle.user_task.specs.Fitting.{fits_line};
ghost use Rattle.user_task.specs.declared.cltus.CltuLine.{CltuLine};
ghost use Rattle.cltu_lines.specs.CltuText.{Names, TellsLine, before, is_skipped, text_told, told_by};

use crate::line::cltu_of;
use crate::text_fault::TextFault;
use std::alloc::Global;
use user_task::{CltuLine, Cltus};
use words::{Unread, split_part};

/// The CLTUs that a text names, in order, or its first bad line.
pub fn read_cltus(alloc: Global, text: &[u8]) -> Result<Cltus, TextFault>
    ensures exact { Names result (text_told text.now) }
    ensures fits { IfOk result (λ cltus. list_all fits_line cltus ≡ true) }
{
    let mut cltus = Vec::new(alloc);
    let mut number = 1u32;
    let mut rest = Some(text);
    while let Some(text) = rest {
        let (line, more) = split_part(b'\n', text);
        match take_line(alloc, number, line, &mut cltus) {
            Ok(()) => {}
            Err(fault) => return Err(fault),
        }
        number = number.saturating_add(1);
        rest = more;
    }
    Ok(Cltus::from_lines(cltus))
}

// Takes the CLTU that a line names, where it names one.
#[tactic(auto, using(crate::proofs::Lines::took_one, crate::proofs::Lines::all_fit))]
fn take_line(
    alloc: Global,
    number: u32,
    line: &[u8],
    cltus: &mut Vec<CltuLine>,
) -> Result<(), TextFault>
    ensures took { OnOk result ((more : Result (List CltuLine) ℕ)
        → before cltus.old.items (told_by number line.now more) ≡ before cltus.new.items more) }
    ensures fits { OnOk result (list_all fits_line cltus.old.items ≡ true
        → list_all fits_line cltus.new.items ≡ true) }
    ensures bad { IfErr result (λ fault. TellsLine number line.now fault) }
{
    if is_skipped(line) {
        return Ok(());
    }
    match cltu_of(alloc, line) {
        Ok(cltu) => match cltus.push(cltu) {
            Ok(()) => Ok(()),
            Err(_) => Err(TextFault::Memory),
        },
        Err(Unread::Bad) => Err(TextFault::BadLine(number)),
        Err(Unread::Memory) => Err(TextFault::Memory),
    }
}

// Whether a line is empty or a comment.
fn is_skipped(line: &[u8]) -> bool
    ensures { result ≡ is_skipped line.now }
{
    match line {
        [] => true,
        [first, ..] => *first == b'#',
    }
}
