// What holds of all credentials. A law's function does nothing: its contract is the law.
ghost use Rattle.isp1_auth.specs.Laws.{OneAnswer, AcceptedWhileNear, SignedIsAccepted};
ghost use Rattle.isp1_auth.specs.Laws.{AcceptedForAMinute, RefusedBeyondAMinute};

/// Octets that are used as credentials have one answer by what they spell, the one that `check`
/// gives.
pub fn one_answer()
    ensures { OneAnswer }
{}

/// Credentials with the right digest are accepted exactly while the time that they say is at most
/// the credential age from now, before it or behind it.
pub fn accepted_while_near()
    ensures { AcceptedWhileNear }
{}

/// What `make` writes is accepted by `check` at the same moment with the same secret, where its
/// delay is at least a second.
pub fn signed_is_accepted()
    ensures { SignedIsAccepted }
{}

/// The rule's numbers, written out: with a delay of 60, credentials with the right digest are
/// accepted at 60 x 10^12 picoseconds from the time that they say, before it or behind it, and
/// refused a picosecond further.
pub fn examples()
    ensures accepted { AcceptedForAMinute }
    ensures refused { RefusedBeyondAMinute }
{}
