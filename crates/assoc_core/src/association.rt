// The association, by the table of state and message.
ghost use Rattle.std.specs.Prelude.{◌≡◌};
ghost use Rattle.assoc_core.specs.Kind.{kind_of, message_of};
ghost use Rattle.assoc_core.specs.Association.{step, refusal, after_step};

use crate::access::is_admitted;
use crate::outcome::Outcome;
use crate::pdu_kind::PduKind;
use crate::state::State;
use crate::step::Step;
use sle_common::Credentials;
use sle_numbers::PeerAbortDiagnostic;
use station_config::Site;
use std::marker::Model;

/// The association of one user with this provider, seen by contracts as its state.
#[derive(Debug, Drop)]
pub struct Association {
    state: State,
}

impl Model for Association {
    ghost use Rattle.assoc_core.specs.declared.state.State.{State};

    ghost Value = { State };

    ghost view = { λ association. association.state };
}

impl Association {
    ghost use Rattle.assoc_core.specs.declared.state.State.TheVariants.{Opening};
    ghost use Rattle.assoc_core.specs.State.{moved};

    /// An association before its context message.
    pub fn new() -> Association
        ensures { result ≡ Opening }
    {
        Association {
            state: State::Opening,
        }
    }

    /// The state.
    pub fn state(&self) -> State
        ensures { result ≡ self.now }
    {
        self.state
    }

    /// What becomes of a message at `now`, in picoseconds since 1958-01-01. An association that is
    /// denied or aborted handles nothing any more, also where its user aborted it.
    pub fn invoke(
        &mut self,
        site: &Site,
        kind: PduKind<'_>,
        credentials: &Credentials<'_>,
        now: u128,
    ) -> Step
        ensures reply { result ≡ step site.now self.old
            (message_of kind.entry credentials.now now) }
        ensures after { self.new ≡ after_step self.old (kind_of kind.entry) result }
    {
        let step = judge(self.state, site, kind, credentials, now);
        if step != Step::Pass || kind == PduKind::PeerAbort {
            self.state = State::Closing;
        }
        step
    }

    /// What a message that passed led to. An outcome that the state has no row for leaves it, but
    /// for a denial, which ends the association in every state.
    pub fn moved(&mut self, outcome: Outcome)
        ensures { self.new ≡ moved self.old outcome }
    {
        self.state = self.state.moved(outcome);
    }
}

// What becomes of a message in a state.
fn judge(
    state: State,
    site: &Site,
    kind: PduKind<'_>,
    credentials: &Credentials<'_>,
    now: u128,
) -> Step
    ensures { result ≡ step site.now state (message_of kind.entry credentials.now now) }
{
    if !state.decodes(kind) {
        return Step::Abort {
            diagnostic: PeerAbortDiagnostic::EncodingError,
        };
    }
    if !state.accepts(kind) {
        return Step::Abort {
            diagnostic: PeerAbortDiagnostic::ProtocolError,
        };
    }
    if !is_admitted(site, state, kind, credentials, now) {
        return refusal(kind);
    }
    Step::Pass
}

// What becomes of a message with credentials that fail.
fn refusal(kind: PduKind<'_>) -> Step
    ensures { result ≡ refusal (kind_of kind.entry) }
{
    match kind {
        PduKind::Bind { .. } => Step::Denied,
        _ => Step::Abort {
            diagnostic: PeerAbortDiagnostic::AccessDenied,
        },
    }
}
