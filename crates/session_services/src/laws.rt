// What holds of what users say, as contracts of functions that do nothing: a caller has a law by a
// call.
ghost use Rattle.session_services.specs.Laws.{StartsAreOfTheirService};

/// An instance of RAF is given STARTs by quality alone, one of RCF by channel alone (CCSDS 911.1-B
/// and 911.2-B).
#[tactic(auto, using(crate::proofs::Starts::starts_are_of_their_service))]
pub fn starts_are_of_their_service()
    ensures { StartsAreOfTheirService }
{}
