// What holds of every list of messages, and of every BIND. A law's function does nothing: its
// contract is the law.
ghost use Rattle.assoc_core.specs.Laws.{ContextFirst, ServiceAfterBind, NothingWhileClosing};
ghost use Rattle.assoc_core.specs.Laws.{NothingAfterTheEnd, CredentialsHold, MovesByTheTable};
ghost use Rattle.assoc_core.specs.Laws.{BoundUntilClosing, BindsItsOwn, SameIdentifier};

/// In opening nothing but a context passes, and no other context passes later.
pub fn context_first()
    ensures { ContextFirst }
{}

/// A message of a service passes only where a BIND passed before it and was answered positively,
/// and the binding that it told is the one that stands.
pub fn service_after_bind()
    ensures { ServiceAfterBind }
{}

/// In closing nothing passes, whatever comes.
pub fn nothing_while_closing()
    ensures { NothingWhileClosing }
{}

/// After a message that was denied or aborted, and after a PEER-ABORT, nothing passes, whatever
/// comes.
pub fn nothing_after_the_end()
    ensures { NothingAfterTheEnd }
{}

/// A message that has credentials passes only where its sender is a peer of the site, and with
/// credentials that are the sender's where its level asks for them.
pub fn credentials_hold()
    ensures { CredentialsHold }
{}

/// The state after an outcome is at the table's place.
pub fn moves_by_the_table()
    ensures { MovesByTheTable }
{}

/// Who is bound stays bound until the association closes.
pub fn bound_until_closing()
    ensures { BoundUntilClosing }
{}

/// A BIND that isn't refused is for an instance that the site has by that identifier, of that
/// service, owned by the peer that sends it, in a version that the site has.
pub fn binds_its_own()
    ensures { BindsItsOwn }
{}

/// Two identifiers are taken for the same exactly where they are equal.
pub fn same_identifier()
    ensures { SameIdentifier }
{}
