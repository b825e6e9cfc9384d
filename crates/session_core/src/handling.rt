// What a message leads to, once the book has replied.
ghost use Rattle.std.specs.Prelude.{◌≡◌, ◌<◌, IfOk, option_copied};
ghost use Rattle.cds_time.specs.declared.cds.TheConstants.{MOMENT_END};
ghost use Rattle.bind_pdu.specs.Seen.{bind_of};
ghost use Rattle.station_config.specs.Validity.{IsSite};
ghost use Rattle.assoc_core.specs.declared.step.Step.TheVariants.{Pass};
ghost use Rattle.assoc_core.specs.Kind.{kind_of};
ghost use Rattle.session_services.specs.Returns.{own_credentials, number_after};
ghost use Rattle.session_core.specs.Returns.{peer_at, bound_place, bound_peer};
ghost use Rattle.session_core.specs.Handling.{is_from, is_agreed, with_context, with_bind};
ghost use Rattle.session_core.specs.Handling.{with_denial, with_unbind, after_passing};
ghost use Rattle.session_core.specs.Handling.{invoked, after_judged};
ghost use Rattle.session_services.specs.Inquiry.{inquiry_of, replied_of};
ghost use Rattle.session_core.specs.Message.{judged};
ghost use Rattle.session_core.specs.ServiceSteps.{service_of, service_made};
ghost use Rattle.session_core.specs.Steps.{stays_running};
ghost use Rattle.session_core.specs.Seen.{said_of, places_of_bind, places_of, ask_by};

use crate::bind_places::BindPlaces;
use crate::course::Course;
use crate::ended::Ended;
use crate::returns::{bind_outcome, bind_result, bind_return, place_bound, unbind_return};
use crate::standing::Standing;
use crate::user_message::UserMessage;
use assoc_core::{Outcome, PduKind, Step, is_asked};
use bind_pdu::Bind;
use octet_core::Memory;
use session_services::{Inquiry, Replied, ServiceState, Signature};
use sle_numbers::{BindDiagnostic, PeerAbortDiagnostic};
use station_book::{Ask, BookReply};
use station_config::{Peer, Service, Site};
use std::alloc::Global;

// What a message that was judged so asks the book, and wants of a look, of what the service keeps.
pub(crate) fn said_ask(
    alloc: Global,
    service: &ServiceState,
    message: &UserMessage<'_>,
    step: Step,
    places: BindPlaces,
) -> Result<Inquiry, Memory>
    ensures { IfOk result (λ inquiry. inquiry_of inquiry
        ≡ ask_by service.now (said_of message.now) step places.instance) }
{
    if step != Step::Pass {
        return Ok(Inquiry::of(Ask::Nothing));
    }
    match (message, places.instance) {
        (UserMessage::Bind(_), Ok(instance)) => Ok(Inquiry::of(Ask::Bind { instance })),
        (UserMessage::Unbind(_), _) => Ok(Inquiry::of(Ask::Unbind)),
        (UserMessage::Service(invocation), _) => service.prepare(alloc, invocation),
        _ => Ok(Inquiry::of(Ask::Nothing)),
    }
}

// Whether a started service goes on behind a message that was judged so.
pub(crate) fn stays_running(message: &UserMessage<'_>, step: Step) -> bool
    ensures { result ≡ stays_running (said_of message.now) step }
{
    if step != Step::Pass {
        return false;
    }
    match message {
        UserMessage::Heartbeat => true,
        UserMessage::Service(invocation) => invocation.leaves_running(),
        _ => false,
    }
}

// What is made for a BIND that was judged so, before the book is asked.
pub(crate) fn service_made(
    alloc: Global,
    site: &Site,
    instance: Result<u32, BindDiagnostic>,
) -> Result<ServiceState, Memory>
    requires { IsSite site.now }
    ensures { IfOk result (λ made. made ≡ service_made site.now instance) }
{
    let Ok(place) = instance else {
        return Ok(ServiceState::Nothing);
    };
    match site.instances.as_slice().get(place as usize) {
        Some(instance) => ServiceState::new(alloc, &instance.service, instance.timeout),
        None => Ok(ServiceState::Nothing),
    }
}

// Whether a number is from the least to the greatest.
fn is_from(least: u16, greatest: u16, number: u16) -> bool
    ensures { result ≡ is_from least greatest number }
{
    least <= number && number <= greatest
}

// Whether a site takes a context with these numbers.
fn is_agreed(site: &Site, interval: u16, factor: u16) -> bool
    ensures { result ≡ is_agreed site.now interval factor }
{
    (interval == 0 || is_from(site.interval_from, site.interval_to, interval))
        && is_from(site.factor_from, site.factor_to, factor)
}

// The peer at a place, if there is one.
pub(crate) fn peer_at(site: &Site, place: Option<u32>) -> Option<&Peer>
    ensures { option_copied result ≡ peer_at site.now.peers place }
{
    site.peers.as_slice().get(place? as usize)
}

impl Standing {
    // The service of the instance that is bound.
    pub(crate) fn service<'a>(&self, site: &'a Site) -> Option<&'a Service>
        ensures { option_copied result ≡ service_of site.now self.now }
    {
        let instance = site.instances.as_slice().get(self.bound? as usize)?;
        Some(&instance.service)
    }

    // Judges a message at the round's moment, by the association.
    pub(crate) fn judge(&mut self, site: &Site, message: &UserMessage<'_>) -> Step
        ensures step { result ≡ judged site.now self.old.association (said_of message.now)
            self.old.moment }
        ensures after { self.new ≡ invoked self.old (said_of message.now) result }
    {
        self.association
            .invoke(site, message.kind(), &message.credentials(), self.moment)
    }

    // This provider's credentials for a return, where the peer's level asks for them.
    fn sign(&mut self, site: &Site, peer: Option<&Peer>, kind: PduKind<'_>) -> Option<Signature>
        requires { self.old.moment < MOMENT_END }
        ensures made { result ≡ own_credentials site.now (option_copied peer.entry)
            (kind_of kind.entry) self.old.numbers self.old.moment }
        ensures numbers { self.new ≡ record self.old {
          numbers =
              number_after (option_copied peer.entry) (kind_of kind.entry) self.old.numbers;
        } }
    {
        let peer = peer?;
        if !is_asked(peer.level, kind) {
            return None;
        }
        let number = self.numbers.next_number();
        Some(Signature::of(site, peer, self.moment, number))
    }

    // The place of the peer that is bound.
    pub(crate) fn bound_place(&self) -> Option<u32>
        ensures { result ≡ bound_place self.now.association }
    {
        Some(self.association.state().binding()?.peer)
    }

    // This provider's credentials for the return of what the bound peer invoked.
    pub(crate) fn sign_bound(&mut self, site: &Site, kind: PduKind<'_>) -> Option<Signature>
        requires { self.old.moment < MOMENT_END }
        ensures made { result ≡ own_credentials site.now (bound_peer site.now self.old)
            (kind_of kind.entry) self.old.numbers self.old.moment }
        ensures numbers { self.new ≡ record self.old {
          numbers =
              number_after (bound_peer site.now self.old) (kind_of kind.entry)
              self.old.numbers;
        } }
    {
        let peer = peer_at(site, self.bound_place());
        self.sign(site, peer, kind)
    }

    // A context was taken, or its numbers are out of the site's range.
    fn take_context(&mut self, site: &Site, interval: u16, factor: u16)
        ensures { self.new ≡ with_context site.now self.old interval factor }
    {
        if is_agreed(site, interval, factor) {
            self.association.moved(Outcome::Context);
            self.interval = interval;
            self.factor = factor;
        } else {
            self.end(Ended::Range { interval, factor });
        }
    }

    // A BIND that passed is answered, where the book replied so.
    fn answer_bind(
        &mut self,
        site: &Site,
        bind: &Bind<'_>,
        places: BindPlaces,
        made: ServiceState,
        reply: BookReply,
    )
        requires site { IsSite site.now }
        requires moment { self.old.moment < MOMENT_END }
        requires places { places ≡ places_of_bind site.now (bind_of bind.now) }
        requires made { made ≡ service_made site.now places.instance }
        ensures { self.new ≡ with_bind site.now self.old (bind_of bind.now) reply }
    {
        let kind = PduKind::Bind {
            initiator: bind.initiator,
        };
        let signature = self.sign(site, peer_at(site, places.peer), kind);
        let bound = bind_result(bind, places, reply);
        self.association.moved(bind_outcome(site, places, reply));
        self.bound = place_bound(places, reply);
        self.service = match reply {
            BookReply::Bound => made,
            _ => ServiceState::Nothing,
        };
        self.block.put(&bind_return(site, &signature, bound));
    }

    // A BIND with failing credentials is answered without any.
    fn deny(&mut self, site: &Site)
        requires { IsSite site.now }
        ensures { self.new ≡ with_denial site.now self.old }
    {
        self.course = Course::Closing(Ended::Denied);
        let denied = Err(BindDiagnostic::AccessDenied);
        self.block.put(&bind_return(site, &None, denied));
    }

    // An UNBIND that passed is answered.
    fn answer_unbind(&mut self, site: &Site)
        requires { self.old.moment < MOMENT_END }
        ensures { self.new ≡ with_unbind site.now self.old }
    {
        let signature = self.sign_bound(site, PduKind::Unbind);
        self.association.moved(Outcome::Unbound);
        self.course = Course::Closing(Ended::Unbound);
        self.drop_service();
        self.block.put(&unbind_return(&signature));
    }

    // A message that passed leads to this, where the book replied so.
    fn pass(
        &mut self,
        site: &Site,
        message: &UserMessage<'_>,
        places: BindPlaces,
        made: ServiceState,
        answer: &Replied,
    )
        requires site { IsSite site.now }
        requires moment { self.old.moment < MOMENT_END }
        requires places { places ≡ places_of site.now (said_of message.now) Pass }
        requires made { made ≡ service_made site.now places.instance }
        ensures { self.new ≡ after_passing site.now self.old (said_of message.now)
            (replied_of answer.now) }
    {
        match message {
            UserMessage::Context { interval, factor } => {
                self.take_context(site, *interval, *factor);
            }
            UserMessage::Bind(bind) => self.answer_bind(site, bind, places, made, answer.reply),
            UserMessage::Unbind(_) => self.answer_unbind(site),
            UserMessage::PeerAbort(abort) => {
                let diagnostic = abort.diagnostic;
                self.end(Ended::PeerAborted { diagnostic });
            }
            UserMessage::Service(invocation) => self.answer_invocation(site, invocation, answer),
            UserMessage::Heartbeat | UserMessage::Undecoded | UserMessage::OutOfPlace => {}
        }
    }

    // A message that was judged so leads to this, where the book replied so.
    pub(crate) fn conclude(
        &mut self,
        site: &Site,
        message: &UserMessage<'_>,
        step: Step,
        places: BindPlaces,
        made: ServiceState,
        answer: &Replied,
    )
        requires site { IsSite site.now }
        requires moment { self.old.moment < MOMENT_END }
        requires places { places ≡ places_of site.now (said_of message.now) step }
        requires made { made ≡ service_made site.now places.instance }
        ensures { self.new ≡ after_judged site.now self.old (said_of message.now) step
            (replied_of answer.now) }
    {
        if answer.reply == BookReply::Lost {
            self.abort(PeerAbortDiagnostic::OtherReason);
            return;
        }
        match step {
            Step::Pass => self.pass(site, message, places, made, answer),
            Step::Denied => self.deny(site),
            Step::Abort { diagnostic } => self.abort(diagnostic),
        }
    }
}
