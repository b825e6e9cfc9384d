// The rounds of a talk: one poll each.
ghost use Rattle.std.specs.Prelude.{◌≡◌, ◌<◌, [], ◌∷◌, Some, None, false, IfSome, OnSome, IfNone, length};
ghost use Rattle.cds_time.specs.declared.cds.TheConstants.{MOMENT_END};
ghost use Rattle.link_model.specs.Calls.{heard_of, arrived_at, IsWithin};
ghost use Rattle.link_model.specs.Counts.{poll_failed};
ghost use Rattle.link_model.specs.declared.poll.Poll.TheVariants as Poll;
ghost use Rattle.user_core.specs.Hearing.{hearing_of};
ghost use Rattle.user_core.specs.Laws.{AreOctets};
ghost use Rattle.user_talk.specs.Ending.{end_by, end_at, hears_close};
ghost use Rattle.user_talk.specs.Readings.{Reads};
ghost use Rattle.user_talk.specs.Rounds.{hearing_in};
ghost use Rattle.user_talk.specs.Running.{world, TurnsOn, Polls, Ends};
ghost use Rattle.user_talk.specs.declared.rounds.TheConstants.{PIECE_OCTETS};

use crate::end::End;
use crate::end_request::EndRequest;
use crate::reading::Reading;
use crate::turn::{Stop, Talk, Turn};
use cds_time::Clock;
use link_model::{Link, Poll};
use octet_core::Sink;
use user_core::Heard;

// How many octets a poll takes at most.
const PIECE_OCTETS: usize = 65_536;

// The moment that a clock shows now, and whether the user is asked to end. A time that names no
// moment counts as moment 0.
pub(crate) fn read<C: Clock, E: EndRequest>(clock: &mut C, end: &mut E) -> Reading
    ensures below { result.now < MOMENT_END }
    ensures told { Reads (C.readings clock.old) (C.readings clock.new) (E.answers end.old)
        (E.answers end.new) (result ∷ []) }
{
    let asked = end.is_asked();
    let now = clock.now().moment().unwrap_or(0);
    Reading { now, asked }
}

// What a poll heard; none where it failed.
#[tactic(auto, using(crate::proofs::Octets::arrived_are))]
fn heard_in<'a>(poll: Poll, piece: &'a [u8]) -> Option<Heard<'a>>
    requires { IsWithin poll (length piece.now) }
    ensures heard { IfSome result (λ heard. hearing_in (Some (heard_of poll piece.now))
        ≡ hearing_of heard) }
    ensures octets { AreOctets (arrived_at (heard_of poll piece.now)) }
    ensures well { OnSome result (poll_failed poll ≡ false) }
    ensures failed { IfNone result (poll ≡ Poll.Failed) }
{
    match poll {
        Poll::Arrived(count) => Some(Heard::Octets(&piece[..count])),
        Poll::Nothing => Some(Heard::Nothing),
        Poll::Closed => Some(Heard::Closed),
        Poll::Failed => None,
    }
}

// How a talk ended by a turn, where it did.
fn end_of(turn: Turn, closed: bool) -> Option<End>
    ensures { result ≡ end_by turn.status turn.answers closed }
{
    if let Some(status) = turn.status {
        return Some(End::Over { status, closed });
    }
    if turn.answers.any_failed() {
        return Some(End::LinkFault);
    }
    None
}

// Whether the peer's close was heard.
fn hears_close(heard: Heard<'_>) -> bool
    ensures { result ≡ hears_close (hearing_of heard.entry) }
{
    matches!(heard, Heard::Closed)
}

fn end_at(stop: Stop) -> End
    ensures { result ≡ end_at stop }
{
    match stop {
        Stop::WriteFault => End::WriteFault,
        Stop::Memory => End::Memory,
    }
}

// Makes the turn of what was heard, and answers how the talk ended, where it did.
pub(crate) fn make_turn<L: Link, C: Clock, E: EndRequest, O: Sink>(
    talk: &mut Talk,
    heard: Heard<'_>,
    link: &mut L,
    clock: &mut C,
    end: &mut E,
    output: &mut O,
) -> Option<End>
    ensures { TurnsOn L.calls L.faults C.readings E.answers O.written O.faults
        (hearing_of heard.entry) result talk.old talk.new (world link.old clock.old end.old output.old)
        (world link.new clock.new end.new output.new) }
{
    let reading = read(clock, end);
    match talk.turn(reading, heard, link, output) {
        Ok(turn) => end_of(turn, hears_close(heard)),
        Err(stop) => Some(end_at(stop)),
    }
}

// Polls once, and makes the turn of what was heard.
fn round<L: Link, C: Clock, E: EndRequest, O: Sink>(
    talk: &mut Talk,
    piece: &mut [u8],
    link: &mut L,
    clock: &mut C,
    end: &mut E,
    output: &mut O,
) -> Option<End>
    requires piece { length piece.old ≡ PIECE_OCTETS }
    requires going { talk.old.user.course.status ≡ None }
    ensures piece { length piece.new ≡ length piece.old }
    ensures polls { Polls L.calls L.faults C.readings E.answers O.written O.faults result talk.old
        talk.new (world link.old clock.old end.old output.old)
        (world link.new clock.new end.new output.new) }
{
    let poll = link.poll(piece);
    match heard_in(poll, piece) {
        Some(heard) => make_turn(talk, heard, link, clock, end, output),
        None => Some(End::LinkFault),
    }
}

// So many rounds, or until the talk ends.
#[tactic(auto, using(crate::proofs::Polled::goes_none, crate::proofs::Polled::goes_more))]
pub(crate) fn rounds<L: Link, C: Clock, E: EndRequest, O: Sink>(
    talk: &mut Talk,
    turns: u64,
    link: &mut L,
    clock: &mut C,
    end: &mut E,
    output: &mut O,
) -> End
    requires { talk.old.user.course.status ≡ None }
    ensures { Ends L.calls L.faults C.readings E.answers O.written O.faults turns result talk.old
        (world link.old clock.old end.old output.old)
        (world link.new clock.new end.new output.new) }
{
    let mut piece = [0u8; PIECE_OCTETS];
    for _ in 0..turns {
        if let Some(over) = round(talk, &mut piece, link, clock, end, output) {
            return over;
        }
    }
    End::Spent
}
