// What a connection says in the transcript.
ghost use Rattle.std.specs.Prelude.{◌≡◌, ◌++◌, ◌∷◌, [], IfOk, OnOk};
ghost use Rattle.drill_text.specs.Transcript.{said};
ghost use Rattle.station_links.specs.LinkLines.{lines_in, end_of, end_word, drop_lines, end_lines};
ghost use Rattle.station_links.specs.LinkLines.{fault_number, says_of};

use drill_text::{EndWord, TranscriptLine};
use isp1_tml::TmlFault;
use link_model::Call;
use octet_core::{Memory, Octets, Offer};
use session_core::{Ended, Spoken};
use sle_numbers::Numbered;
use std::alloc::Global;

/// What a connection says in the transcript. The connection's number isn't told here.
#[derive(Debug, Drop)]
pub enum LinkLine {
    /// An offer of these octets was taken whole.
    Sent(Octets),
    /// An offer stalled.
    Stalled,
    /// So many items were discarded, of the message that stalled.
    Discarded(u32),
    /// The connection ended so, and isn't there any more.
    Ended(EndWord),
}

impl LinkLine {
    /// The line of the transcript that says it of a connection.
    pub fn of_connection(&self, c: u32) -> TranscriptLine<'_>
        ensures { said result ≡ says_of c self.now }
    {
        match self {
            LinkLine::Sent(octets) => TranscriptLine::Sent {
                c,
                octets: octets.as_slice(),
            },
            LinkLine::Stalled => TranscriptLine::Stalled { c },
            LinkLine::Discarded(n) => TranscriptLine::Discarded { c, n: *n },
            LinkLine::Ended(word) => TranscriptLine::Ended { c, word: *word },
        }
    }
}

// What a call says, behind what others said.
fn put_call(lines: &mut Vec<LinkLine>, call: &Call) -> Result<(), Memory>
    ensures { OnOk result (lines.new.items ≡ lines.old.items ++ lines_in (call.now ∷ [])) }
{
    match call {
        Call::Offered {
            octets,
            answer: Offer::Whole,
        } => lines.push(LinkLine::Sent(octets.clone()?))?,
        Call::Offered {
            answer: Offer::Stalled,
            ..
        } => lines.push(LinkLine::Stalled)?,
        Call::Offered {
            answer: Offer::Failed,
            ..
        }
        | Call::Polled { .. } => {}
    }
    Ok(())
}

// What calls say, in order.
pub(crate) fn lines_of(alloc: Global, calls: &[Call]) -> Result<Vec<LinkLine>, Memory>
    ensures { IfOk result (λ lines. lines.items ≡ lines_in calls.now) }
{
    let mut lines = Vec::new(alloc);
    for call in calls {
        put_call(&mut lines, call)?;
    }
    Ok(lines)
}

// How many items were dropped in a round behind which the connection is there still, if any were,
// behind what others said.
pub(crate) fn put_drop(
    lines: &mut Vec<LinkLine>,
    end: Option<EndWord>,
    dropped: Option<u32>,
) -> Result<(), Memory>
    ensures { OnOk result (lines.new.items ≡ lines.old.items ++ drop_lines end dropped) }
{
    if let (None, Some(items)) = (end, dropped) {
        lines.push(LinkLine::Discarded(items))?;
    }
    Ok(())
}

// How a connection ended, if it did, behind what others said.
pub(crate) fn put_end(lines: &mut Vec<LinkLine>, end: Option<EndWord>) -> Result<(), Memory>
    ensures { OnOk result (lines.new.items ≡ lines.old.items ++ end_lines end) }
{
    if let Some(word) = end {
        lines.push(LinkLine::Ended(word))?;
    }
    Ok(())
}

// The number of a fault of the stream.
fn fault_number(fault: TmlFault) -> u8
    ensures { result ≡ fault_number fault }
{
    match fault {
        TmlFault::BadType { .. } => 1,
        TmlFault::NotZero { .. } => 2,
        TmlFault::BadLength { .. } => 3,
        TmlFault::TooLong { .. } => 4,
        TmlFault::BadContext { .. } => 5,
    }
}

fn end_word(end: Ended) -> EndWord
    ensures { result ≡ end_word end }
{
    match end {
        Ended::Unbound => EndWord::Unbound,
        Ended::PeerClosed => EndWord::Closed,
        Ended::Denied => EndWord::Denied,
        Ended::Range { .. } => EndWord::Range,
        Ended::Broken(fault) => EndWord::Broken(fault_number(fault)),
        Ended::Aborted { diagnostic } => EndWord::Aborted(diagnostic.number()),
        Ended::PeerAborted { diagnostic } => EndWord::PeerAborted(diagnostic),
    }
}

// How a connection ended, if it did.
pub(crate) fn end_of(spoken: Spoken) -> Option<EndWord>
    ensures { result ≡ end_of spoken }
{
    match spoken {
        Spoken::Going => None,
        Spoken::Ended(end) => Some(end_word(end)),
        Spoken::LinkFault => Some(EndWord::Fault),
    }
}
