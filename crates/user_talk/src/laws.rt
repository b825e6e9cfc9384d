// What turns of a talk come to. A law's function does nothing: its contract is the law.
ghost use Rattle.user_talk.specs.Laws.{HandsOverInOrder, TurnsAreTheUsers, PollsOnceATurn};

/// What the link was handed, with what it didn't take yet, is in order what the user offered in its
/// turns: of this `user_core` says that it is the task's invocations and heartbeats.
#[tactic(auto, using(crate::proofs::Handed::in_order))]
pub fn hands_over_in_order()
    ensures { HandsOverInOrder }
{}

/// What is printed is what the user prints in its turns: of this `user_core` says that it is the
/// lines of the stream.
pub fn turns_are_the_users()
    ensures { TurnsAreTheUsers }
{}

/// A turn hears what its poll heard, and each poll is a turn's.
#[tactic(auto, using(crate::proofs::Handed::polls_once))]
pub fn polls_once_a_turn()
    ensures { PollsOnceATurn }
{}
