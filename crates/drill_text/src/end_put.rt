// How a connection ends, as words.
ghost use Rattle.std.specs.Prelude.{◌≡◌, ◌++◌, ◌∷◌, [], OnOk};
ghost use Rattle.std.specs.Fmt.{decimal};
ghost use Rattle.words.specs.Parts.{behind};
ghost use Rattle.drill_text.specs.Texts.{end_words};

use crate::end_word::EndWord;
use std::alloc::AllocError;
use words::{Last, Octet, WriteWords};

// Appends how a connection ended, each word behind a separator.
pub(crate) fn put_end(separator: u8, word: &EndWord, into: &mut Vec<u8>) -> Result<(), AllocError>
    ensures { OnOk result (into.new.items ≡ into.old.items
        ++ behind separator (end_words word.now)) }
{
    into.push(separator)?;
    match word {
        EndWord::Unbound => into.extend_from_slice(UNBOUND),
        EndWord::Closed => into.extend_from_slice(CLOSED),
        EndWord::Denied => into.extend_from_slice(DENIED),
        EndWord::Range => into.extend_from_slice(RANGE),
        EndWord::Broken(fault) => {
            into.extend_from_slice(BROKEN)?;
            put_number(separator, *fault, into)
        }
        EndWord::Aborted(diagnostic) => {
            into.extend_from_slice(ABORTED)?;
            put_number(separator, *diagnostic, into)
        }
        EndWord::PeerAborted(diagnostic) => {
            into.extend_from_slice(PEER_ABORTED)?;
            put_number(separator, *diagnostic, into)
        }
        EndWord::Fault => into.extend_from_slice(FAULT),
    }
}

fn put_number(separator: u8, number: u8, into: &mut Vec<u8>) -> Result<(), AllocError>
    ensures { OnOk result (into.new.items ≡ into.old.items
        ++ behind separator (decimal number ∷ [])) }
{
    Last::<Octet<0, 255>>::put(separator, &number, into)
}

const UNBOUND: &[u8] = b"unbound";

const CLOSED: &[u8] = b"closed";

const DENIED: &[u8] = b"denied";

const RANGE: &[u8] = b"range";

const BROKEN: &[u8] = b"broken";

const ABORTED: &[u8] = b"aborted";

const PEER_ABORTED: &[u8] = b"peer-aborted";

const FAULT: &[u8] = b"fault";
