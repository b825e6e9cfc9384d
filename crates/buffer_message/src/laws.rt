// What holds of all buffers, each the contract of an empty function: a caller has it by the call.
ghost use Rattle.buffer_message.specs.Laws.{BuffersFit, StoredInRange, SaidTheSame};

/// A buffer of at most 1,000 items, none behind the one that made it full, goes into one message
/// where its items are in their ranges.
#[tactic(auto, using(crate::proofs::Fit::buffers_fit))]
pub fn buffers_fit()
    ensures { BuffersFit }
{}

/// What is archived is in its ranges, each frame with its continuity.
#[tactic(auto, using(crate::proofs::Fit::stored_in_range))]
pub fn what_is_stored_is_in_range()
    ensures { StoredInRange }
{}

/// What a look says of picked entries is told as the entries are.
#[tactic(auto, using(crate::proofs::Fit::said_the_same))]
pub fn what_is_said_is_told()
    ensures { SaidTheSame }
{}
