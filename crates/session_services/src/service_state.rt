// What a bound service keeps.
//
// This is where the services meet a session. Each call that a session makes of one is a function
// here, exact by a function of `specs/Served.antt`, with an arm for each service; those that need the
// session's site and numbers stand in `service_steps.rt`. They are the return services
// (`return_served.rt`, `return_returns.rt`), and FCLTU (`fcltu_served.rt`).
ghost use Rattle.std.specs.Prelude.{◌≡◌, IfOk, IsTrue, IsFalse};
ghost use Rattle.archive_terms.specs.Glimpse.{wants_nothing};
ghost use Rattle.frame_select.specs.Want.{want_of};
ghost use Rattle.frame_select.specs.Glimpse.{glimpse_of};
ghost use Rattle.return_core.specs.Item.{are_of_archive};
ghost use Rattle.station_config.specs.Validity.{IsService};
ghost use Rattle.session_services.specs.Inquiry.{inquiry_of};
ghost use Rattle.session_services.specs.Service.{invocation_of};
ghost use Rattle.session_services.specs.Served.{served_at, prepared, want_served, served_step};
ghost use Rattle.session_services.specs.Served.{dropped_by, served_settled};

use crate::fcltu_served::fcltu_asked;
use crate::inquiry::Inquiry;
use crate::return_served::{return_asked, return_made};
use crate::service::Invocation;
use fcltu_service::Fcltu;
use frame_select::{Glimpse, Want};
use octet_core::{Memory, Offer};
use return_pdu::ReturnKind;
use return_service::{ReturnInvocation, ReturnService};
use station_book::Ask;
use station_config::Service;
use std::alloc::Global;

/// What a bound service keeps.
#[derive(Drop)]
pub enum ServiceState {
    /// Nothing: none is bound.
    Nothing,
    /// An instance of a return service.
    Return(ReturnService),
    /// An instance of the forward service.
    Fcltu(Fcltu),
}

impl ServiceState {
    /// That of a service, made for a BIND before the book is asked, with all the memory that it will
    /// ever have; and with the instance's return timeout in seconds.
    #[tactic(auto, unfolding(crate::specs::Served::served_at))]
    pub fn new(alloc: Global, service: &Service, timeout: u16) -> Result<ServiceState, Memory>
        requires { IsService service.now }
        ensures { IfOk result (λ served. served ≡ served_at service.now timeout) }
    {
        match service {
            Service::Raf {
                mode,
                size,
                latency,
            } => {
                let made = return_made(alloc, ReturnKind::Raf, *mode, *size, *latency, timeout)?;
                Ok(ServiceState::Return(made))
            }
            Service::Rcf {
                mode,
                size,
                latency,
                ..
            } => {
                let made = return_made(alloc, ReturnKind::Rcf, *mode, *size, *latency, timeout)?;
                Ok(ServiceState::Return(made))
            }
            Service::Cltu { .. } => Ok(ServiceState::Fcltu(Fcltu::new(timeout))),
        }
    }

    /// What a round with an invocation that passes asks of the book and wants of a look. The octets
    /// of a CLTU are copied, so it may want memory.
    #[tactic(auto, unfolding(crate::specs::Served::prepared))]
    pub fn prepare(&self, alloc: Global, invocation: &Invocation<'_>) -> Result<Inquiry, Memory>
        ensures { IfOk result (λ inquiry.
            inquiry_of inquiry ≡ prepared self.now (invocation_of invocation.now)) }
    {
        match self {
            ServiceState::Nothing => Ok(Inquiry::of(Ask::Nothing)),
            ServiceState::Return(service) => Ok(Inquiry {
                ask: Ask::Nothing,
                want: service.prepare(&return_asked(invocation)),
            }),
            ServiceState::Fcltu(fcltu) => {
                let ask = fcltu.prepare(alloc, &fcltu_asked(invocation))?;
                Ok(Inquiry::of(ask))
            }
        }
    }

    /// Whether a round without one may want something of a look.
    #[tactic(auto, unfolding(crate::specs::Served::want_served))]
    pub fn may_want(&self) -> bool
        ensures { IsFalse result → want_served self.now ≡ wants_nothing }
    {
        matches!(self, ServiceState::Return(_))
    }

    /// What a round without one wants of a look.
    #[tactic(auto, unfolding(crate::specs::Served::want_served))]
    pub fn want(&self) -> Want
        ensures { want_of result ≡ want_served self.now }
    {
        match self {
            ServiceState::Nothing | ServiceState::Fcltu(_) => Want::Nothing,
            ServiceState::Return(service) => service.prepare(&ReturnInvocation::Nothing),
        }
    }

    /// The step of a round, with the look that it wanted, at a moment.
    #[tactic(auto, unfolding(crate::specs::Served::served_step))]
    pub fn step(&mut self, glimpse: Glimpse, now: u128)
        requires { IsTrue (are_of_archive glimpse.items) }
        ensures { self.new ≡ served_step (glimpse_of glimpse) now self.old }
    {
        match self {
            ServiceState::Nothing | ServiceState::Fcltu(_) => {}
            ServiceState::Return(service) => {
                let _is_offering = service.step(glimpse, now);
            }
        }
    }

    /// How many items are dropped where the message that it has to offer stalls; none where it is
    /// kept, to be offered again.
    #[tactic(auto, unfolding(crate::specs::Served::dropped_by))]
    pub fn dropped(&self) -> Option<u32>
        ensures { result ≡ dropped_by self.now }
    {
        match self {
            ServiceState::Nothing | ServiceState::Fcltu(_) => None,
            ServiceState::Return(service) => service.discards(Offer::Stalled),
        }
    }

    /// The link's answer to that message.
    #[tactic(auto, unfolding(crate::specs::Served::served_settled))]
    pub fn settle(&mut self, answer: Offer)
        ensures { self.new ≡ served_settled answer self.old }
    {
        match self {
            ServiceState::Nothing | ServiceState::Fcltu(_) => {}
            ServiceState::Return(service) => service.settle(answer),
        }
    }
}
