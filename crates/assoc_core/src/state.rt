// The states of an association, and which messages each accepts.
ghost use Rattle.std.specs.Prelude.{◌≡◌};
ghost use Rattle.assoc_core.specs.Kind.{kind_of};

use crate::outcome::Outcome;
use crate::pdu_kind::PduKind;

/// Who is bound.
#[derive(Clone, Copy, Debug, PartialEq, Eq)]
pub struct Binding {
    /// The peer's place in the site.
    pub peer: u32,
    /// Whether it is bound to an instance of a forward service.
    pub forward: bool,
}

/// The states of an association: unbound, ready and active as in CCSDS 911.1-B; opening and closing
/// are this product's own.
#[derive(Clone, Copy, Debug, PartialEq, Eq)]
pub enum State {
    /// Before the context message.
    Opening,
    /// Before a BIND that is answered positively.
    Unbound,
    /// Bound, and not started.
    Ready(Binding),
    /// Bound and started.
    Active(Binding),
    /// Nothing is handled any more.
    Closing,
}

impl State {
    ghost use Rattle.assoc_core.specs.State.{binding_of, moved};
    ghost use Rattle.assoc_core.specs.Association.{is_decoded, is_in_place};

    /// Who is bound, if one is.
    pub fn binding(self) -> Option<Binding>
        ensures { result ≡ binding_of self }
    {
        match self {
            State::Ready(binding) | State::Active(binding) => Some(binding),
            State::Opening | State::Unbound | State::Closing => None,
        }
    }

    // Whether a message decodes, where this state decodes it.
    pub(crate) fn decodes(self, kind: PduKind<'_>) -> bool
        ensures { result ≡ is_decoded self (kind_of kind.entry) }
    {
        match (self, kind) {
            (State::Unbound, PduKind::Undecoded) => false,
            (State::Opening | State::Unbound | State::Closing, _) => true,
            (State::Ready(binding) | State::Active(binding), _) => {
                kind.is_decoded_for(binding.forward)
            }
        }
    }

    // Whether the table has a row for a message.
    pub(crate) fn accepts(self, kind: PduKind<'_>) -> bool
        ensures { result ≡ is_in_place self (kind_of kind.entry) }
    {
        match self {
            State::Opening => matches!(kind, PduKind::Context),
            State::Unbound => matches!(
                kind,
                PduKind::Bind { .. } | PduKind::Heartbeat | PduKind::PeerAbort
            ),
            State::Ready(_) => matches!(
                kind,
                PduKind::Start
                    | PduKind::Unbind
                    | PduKind::Report
                    | PduKind::Parameter
                    | PduKind::Throw
                    | PduKind::Heartbeat
                    | PduKind::PeerAbort
            ),
            State::Active(_) => matches!(
                kind,
                PduKind::Stop
                    | PduKind::Report
                    | PduKind::Parameter
                    | PduKind::Throw
                    | PduKind::Transfer
                    | PduKind::Heartbeat
                    | PduKind::PeerAbort
            ),
            State::Closing => false,
        }
    }

    // The state after an outcome.
    pub(crate) fn moved(self, outcome: Outcome) -> State
        ensures { result ≡ moved self outcome }
    {
        match (self, outcome) {
            (_, Outcome::Denied) => State::Closing,
            (State::Opening, Outcome::Context) => State::Unbound,
            (State::Unbound, Outcome::Bound { peer, forward }) => {
                State::Ready(Binding { peer, forward })
            }
            (State::Ready(binding), Outcome::Started) => State::Active(binding),
            (State::Ready(_), Outcome::Unbound) => State::Closing,
            (State::Active(binding), Outcome::Stopped) => State::Ready(binding),
            (state, _) => state,
        }
    }
}
