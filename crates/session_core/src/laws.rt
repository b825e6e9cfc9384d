// What holds of every session. A law's function does nothing: its contract is the law.
ghost use Rattle.session_core.specs.Laws.{HandledInOrder, EachBlockOnce, EndsRepeat, FaultsAreLast};
ghost use Rattle.session_core.specs.Laws.{MessagesAreOnce};
ghost use Rattle.session_core.specs.Laws.{FaultsAreOfCalls, EndsAsItStands, OneSession};
ghost use Rattle.session_core.specs.Laws.{NoRoundYet, OneRoundMore, WholeIsStream};
ghost use Rattle.session_core.specs.Laws.{ServiceLeaves};

use isp1_tml::laws as stream;
use link_model::laws as link;

/// However the octets were cut, the messages that a session handles are those of the stream that
/// arrived, in order and each once, from the first one on.
pub fn messages_are_handled_in_order()
    ensures { HandledInOrder }
{
    stream::each_is_read();
    stream::longer_stream();
    link::parts_of_two_runs_join();
}

/// Each block that a session makes is handed to its link once and in order, but for the last one,
/// which waits, or was dropped by the end.
pub fn each_block_is_handed_over_once()
    ensures { EachBlockOnce }
{
    link::parts_of_two_runs_join();
}

/// Whole messages, as each call of a session hands them over, are a stream of just these: none is
/// cut, and nothing stands between them or behind them.
pub fn whole_messages_are_a_stream()
    ensures { WholeIsStream }
{
    stream::spelled_is_read();
}

/// What a round tells unasked and its service's own step leave whether the session goes on, what its
/// listen came to, its moment, and its association.
pub fn a_service_leaves_its_session()
    ensures { ServiceLeaves }
{}

/// A service's message that was taken whole is offered no more, and one that stalled is offered no
/// more unless its service keeps it, and then unchanged.
pub fn messages_are_offered_once()
    ensures { MessagesAreOnce }
{}

/// After an end, one by a fault of its link too, a session calls neither link nor book, and repeats
/// the end.
pub fn ends_repeat()
    ensures { EndsRepeat }
{}

/// After a poll or an offer failed, a session doesn't call the link again, by this round or a later
/// one.
pub fn faults_are_last()
    ensures { FaultsAreLast }
{}

/// A session tells a fault of its link exactly where a poll or an offer of it was answered Failed.
pub fn faults_are_of_calls()
    ensures { FaultsAreOfCalls }
{}

/// What a session has come to between two rounds is the end of the rounds for which it stands.
pub fn ends_as_it_stands()
    ensures { EndsAsItStands }
{}

/// The answers of the link and the events of the book fix each call of the link with its octets,
/// and the end.
pub fn one_session()
    ensures { OneSession }
{}

/// A session that asked nothing of the book has made no round.
pub fn no_round_yet()
    ensures { NoRoundYet }
{}

/// A round of a session that hasn't ended makes the calls of the link and the event of the book of
/// one round more, behind those for which the session stood.
pub fn one_round_more()
    ensures { OneRoundMore }
{}
