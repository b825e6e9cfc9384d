// What a user's message says.
ghost use Rattle.std.specs.Prelude.{◌≡◌, option_copied};
ghost use Rattle.ber_shape.specs.Exact.{whole};
ghost use Rattle.bind_pdu.specs.Aborting.{peer_abort};
ghost use Rattle.bind_pdu.specs.Binding.{bind};
ghost use Rattle.bind_pdu.specs.Unbinding.{unbind};
ghost use Rattle.sle_common.specs.Credentials.{credentials_of as octets_of};
ghost use Rattle.isp1_tml.specs.Given.{content_of};
ghost use Rattle.assoc_core.specs.Kind.{kind_of as kind_told, initiator_of as initiator_told};
ghost use Rattle.session_core.specs.Message.{said_in, pdu_said, said_unbound, said_bound};
ghost use Rattle.session_core.specs.Message.{bind_read, service_read, unbind_read, peer_abort_read};
ghost use Rattle.session_core.specs.Message.{kind_of, initiator_of, credentials_of};
ghost use Rattle.assoc_core.specs.OuterTag.{outer_tag};
ghost use Rattle.session_core.specs.Seen.{said_of};

use assoc_core::{OuterTag, PduKind, State};
use ber_shape::Pdu;
use bind_pdu::{Bind, PeerAbort, Unbind};
use isp1_tml::Message;
use session_services::Invocation;
use sle_common::Credentials;
use station_config::Service;

// What a user's message says, in a state of the association.
#[derive(Drop)]
pub(crate) enum UserMessage<'a> {
    Context { interval: u16, factor: u16 },
    Heartbeat,
    Bind(Bind<'a>),
    Unbind(Unbind<'a>),
    PeerAbort(PeerAbort),
    // What is said to the bound service.
    Service(Invocation<'a>),
    // Octets that don't decode.
    Undecoded,
    // A PDU that isn't decoded where it stands.
    OutOfPlace,
}

impl<'a> UserMessage<'a> {
    // What a message says in a state, to a session whose user is bound to a service or to none.
    pub(crate) fn of(
        service: Option<&Service>,
        state: State,
        message: Message<'a>,
    ) -> UserMessage<'a>
        ensures { said_of result
            ≡ said_in (option_copied service.entry) state (content_of message.entry) }
    {
        match message {
            Message::Context { interval, factor } => UserMessage::Context { interval, factor },
            Message::Heartbeat => UserMessage::Heartbeat,
            Message::Pdu(octets) => pdu_said(service, state, octets),
        }
    }

    // Its kind, with a BIND's initiator.
    pub(crate) fn kind(&self) -> PduKind<'a>
        ensures kind { kind_told result ≡ kind_of (said_of self.now) }
        ensures initiator { initiator_told result ≡ initiator_of (said_of self.now) }
    {
        match self {
            UserMessage::Context { .. } => PduKind::Context,
            UserMessage::Heartbeat => PduKind::Heartbeat,
            UserMessage::Bind(bind) => PduKind::Bind {
                initiator: bind.initiator,
            },
            UserMessage::Unbind(_) => PduKind::Unbind,
            UserMessage::PeerAbort(_) => PduKind::PeerAbort,
            UserMessage::Service(invocation) => invocation.kind(),
            UserMessage::Undecoded => PduKind::Undecoded,
            UserMessage::OutOfPlace => PduKind::Other,
        }
    }

    // Its credentials; unused ones where it has none.
    pub(crate) fn credentials(&self) -> Credentials<'a>
        ensures { octets_of result ≡ credentials_of (said_of self.now) }
    {
        match self {
            UserMessage::Bind(bind) => bind.credentials,
            UserMessage::Unbind(unbind) => unbind.credentials,
            UserMessage::Service(invocation) => invocation.credentials(),
            _ => Credentials::Unused,
        }
    }
}

// What a PDU says in a state.
fn pdu_said<'a>(service: Option<&Service>, state: State, octets: &'a [u8]) -> UserMessage<'a>
    ensures { said_of result ≡ pdu_said (option_copied service.entry) state octets.now }
{
    match state {
        State::Unbound => said_unbound(octets),
        State::Ready(_) | State::Active(_) => said_bound(service, octets),
        State::Opening | State::Closing => UserMessage::OutOfPlace,
    }
}

// What a PDU says before a BIND was answered positively.
fn said_unbound(octets: &[u8]) -> UserMessage<'_>
    ensures { said_of result ≡ said_unbound (outer_tag octets.now) octets.now }
{
    match OuterTag::of(octets) {
        OuterTag::Bind => bind_read(octets),
        OuterTag::PeerAbort => peer_abort_read(octets),
        OuterTag::Other => UserMessage::OutOfPlace,
        OuterTag::Missing => UserMessage::Undecoded,
    }
}

// What a bound user's PDU says.
fn said_bound<'a>(service: Option<&Service>, octets: &'a [u8]) -> UserMessage<'a>
    ensures { said_of result
        ≡ said_bound (option_copied service.entry) (outer_tag octets.now) octets.now }
{
    match OuterTag::of(octets) {
        OuterTag::Bind => bind_read(octets),
        OuterTag::PeerAbort => peer_abort_read(octets),
        OuterTag::Other => unbind_read(service, octets),
        OuterTag::Missing => UserMessage::Undecoded,
    }
}

fn bind_read(octets: &[u8]) -> UserMessage<'_>
    ensures { said_of result ≡ bind_read (whole bind.read octets.now) }
{
    match Bind::decode(octets) {
        Ok(bind) => UserMessage::Bind(bind),
        Err(_) => UserMessage::Undecoded,
    }
}

// What is said to the bound service.
fn service_read<'a>(service: Option<&Service>, octets: &'a [u8]) -> UserMessage<'a>
    ensures { said_of result ≡ service_read (option_copied service.entry) octets.now }
{
    match service {
        Some(service) => UserMessage::Service(Invocation::read(service, octets)),
        None => UserMessage::Undecoded,
    }
}

fn unbind_read<'a>(service: Option<&Service>, octets: &'a [u8]) -> UserMessage<'a>
    ensures { said_of result ≡ unbind_read (whole unbind.read octets.now)
        (option_copied service.entry) octets.now }
{
    match Unbind::decode(octets) {
        Ok(unbind) => UserMessage::Unbind(unbind),
        Err(_) => service_read(service, octets),
    }
}

fn peer_abort_read(octets: &[u8]) -> UserMessage<'_>
    ensures { said_of result ≡ peer_abort_read (whole peer_abort.read octets.now) }
{
    match PeerAbort::decode(octets) {
        Ok(abort) => UserMessage::PeerAbort(abort),
        Err(_) => UserMessage::Undecoded,
    }
}
