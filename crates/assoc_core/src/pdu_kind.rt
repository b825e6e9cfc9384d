// What kind of message came.
ghost use Rattle.std.specs.Prelude.{◌≡◌};

/// What kind of message a user sent, as its outer octets and its decoding tell.
#[derive(Clone, Copy, Debug, PartialEq, Eq)]
pub enum PduKind<'a> {
    /// A context message of the transport (CCSDS 913.1-B).
    Context,
    /// A heartbeat message of the transport (CCSDS 913.1-B).
    Heartbeat,
    /// A BIND, with its initiator identifier.
    Bind { initiator: &'a [u8] },
    /// An UNBIND.
    Unbind,
    /// A PEER-ABORT.
    PeerAbort,
    /// A START.
    Start,
    /// A STOP.
    Stop,
    /// A SCHEDULE-STATUS-REPORT.
    Report,
    /// A GET-PARAMETER.
    Parameter,
    /// A THROW-EVENT, of a forward service.
    Throw,
    /// A TRANSFER-DATA, of a forward service.
    Transfer,
    /// A PDU whose outer tag is out of place in unbound.
    Other,
    /// Octets that spell no PDU which the provider decodes.
    Undecoded,
}

impl PduKind<'_> {
    ghost use Rattle.assoc_core.specs.Kind.{kind_of};
    ghost use Rattle.assoc_core.specs.Access.{has_credentials};
    ghost use Rattle.assoc_core.specs.Association.{is_of_service};

    // Whether the provider decodes it for a service.
    pub(crate) fn is_decoded_for(self, forward: bool) -> bool
        ensures { result ≡ is_of_service forward (kind_of self.entry) }
    {
        match self {
            PduKind::Throw | PduKind::Transfer => forward,
            PduKind::Other | PduKind::Undecoded => false,
            _ => true,
        }
    }

    // Whether it has credentials.
    pub(crate) fn has_credentials(self) -> bool
        ensures { result ≡ has_credentials (kind_of self.entry) }
    {
        !matches!(
            self,
            PduKind::Context | PduKind::Heartbeat | PduKind::PeerAbort
        )
    }
}
