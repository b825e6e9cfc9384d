// A bound instance of RCF.
ghost use Rattle.std.specs.Prelude.{◌≡◌, ◌*◌, ◌^◌, ◌<◌, [], IsTrue, IsSome, unwrap_or};
ghost use Rattle.cds_time.specs.declared.cds.TheConstants.{MOMENT_END};
ghost use Rattle.archive_terms.specs.Delivery.{is_online};
ghost use Rattle.frame_select.specs.Want.{want_of};
ghost use Rattle.frame_select.specs.Glimpse.{glimpse_of};
ghost use Rattle.frame_select.specs.Item.{items_of};
ghost use Rattle.return_core.specs.Mode.{mode_of, answer_of};
ghost use Rattle.return_core.specs.Item.{are_of_archive};
ghost use Rattle.return_core.specs.Course.{is_offering, held_of};
ghost use Rattle.return_core.specs.Course as course;
ghost use Rattle.return_core.specs.Visits.{fate_by, discard_told};
ghost use Rattle.report_cycle.specs.declared.schedule.TheConstants.{PICOS_A_SECOND};
ghost use Rattle.return_pdu.specs.declared.return_kind.ReturnKind.TheVariants as kind;
ghost use Rattle.return_service.specs.Requested.{AskedFits};
ghost use Rattle.return_service.specs.Instance.{prepared, return_answer, concluded};
ghost use Rattle.return_service.specs.Serving.{bound, stepped, answered, reported, report_of};
ghost use Rattle.rcf_service.specs.Rcf.{asked_of};

use crate::invocation::RcfInvocation;
use frame_select::{Filter, Glimpse, Item, Want};
use octet_core::Offer;
use return_core::Delivery;
use return_pdu::{ReturnAnswer, ReturnKind, ReturnNumbers};
use return_service::{ReturnInvocation, ReturnService, ReturnStart};
use sle_common::Gvcid;
use sle_numbers::ReturnDeliveryMode;
use std::marker::Model;

/// A bound instance of RCF: a return service whose START asks for a channel.
#[derive(Drop)]
pub struct Rcf {
    service: ReturnService,
}

impl Model for Rcf {
    ghost use Rattle.return_service.specs.Serving.{Serving};

    ghost Value = { Serving };

    ghost view = { λ r. r.service };
}

// What is asked of a return service.
fn asked(invocation: &RcfInvocation<'_>) -> ReturnInvocation
    ensures { result ≡ asked_of invocation.now }
{
    match invocation {
        RcfInvocation::Nothing => ReturnInvocation::Nothing,
        RcfInvocation::Start(start) => ReturnInvocation::Start(ReturnStart {
            start: start.start,
            stop: start.stop,
            filter: Filter::Channel(start.channel),
        }),
        RcfInvocation::Stop => ReturnInvocation::Stop,
        RcfInvocation::Report(kind) => ReturnInvocation::Report(*kind),
        RcfInvocation::Get(name) => ReturnInvocation::Get(*name),
    }
}

impl Rcf {
    /// An instance at its BIND, with a stopped delivery that was made of this mode, the most items
    /// of a buffer and the latency limit in picoseconds; and with a return timeout in seconds.
    pub fn new(
        delivery: Delivery,
        mode: ReturnDeliveryMode,
        size: u32,
        latency: Option<u128>,
        timeout: u16,
    ) -> Rcf
        requires made { delivery ≡ course.stopped (mode_of mode) size (unwrap_or latency 0) }
        requires limited { IsTrue (is_online (mode_of mode)) → IsSome latency }
        requires short { unwrap_or latency 0 < 2 ^ 64 * PICOS_A_SECOND }
        ensures { result ≡ bound kind.Rcf delivery timeout }
    {
        Rcf {
            service: ReturnService::new(ReturnKind::Rcf, delivery, mode, size, latency, timeout),
        }
    }

    /// What it wants of the look of a round in which this is asked.
    pub fn prepare(&self, invocation: &RcfInvocation<'_>) -> Want
        ensures { want_of result ≡ prepared (asked_of invocation.now) self.now }
    {
        self.service.prepare(&asked(invocation))
    }

    /// Answers what is asked in a round of this moment, by the round's look, where a START may ask
    /// for these channels. The channel of a START that was decoded is in its ranges.
    pub fn conclude(
        &mut self,
        invocation: &RcfInvocation<'_>,
        channels: &[Gvcid],
        glimpse: &Glimpse,
        now: u128,
    ) -> ReturnAnswer
        requires { AskedFits (asked_of invocation.now) }
        ensures answer { result
            ≡ return_answer channels.now (asked_of invocation.now) (glimpse_of glimpse.now) self.old }
        ensures after { self.new
            ≡ concluded channels.now (asked_of invocation.now) (glimpse_of glimpse.now) now self.old }
    {
        self.service
            .conclude(&asked(invocation), channels, glimpse, now)
    }

    /// The report of a round, where one is due: what was delivered since the BIND, with the look's
    /// statuses.
    pub fn report(&mut self, glimpse: &Glimpse, now: u128) -> Option<ReturnNumbers>
        requires { now < MOMENT_END }
        ensures report { result ≡ report_of (glimpse_of glimpse.now) now self.old }
        ensures after { self.new ≡ reported now self.old }
    {
        self.service.report(glimpse, now)
    }

    /// Takes what the look gave at `now`, and says whether a buffer is to be offered.
    pub fn step(&mut self, glimpse: Glimpse, now: u128) -> bool
        requires { IsTrue (are_of_archive glimpse.items) }
        ensures after { self.new ≡ stepped (glimpse_of glimpse) now self.old }
        ensures offers { result ≡ is_offering self.new.course }
    {
        self.service.step(glimpse, now)
    }

    /// Whether a buffer is to be offered.
    pub fn is_offering(&self) -> bool
        ensures { result ≡ is_offering self.now.course }
    {
        self.service.is_offering()
    }

    /// The held items, which are offered where a buffer is to be.
    pub fn current(&self) -> &[Item]
        ensures { items_of result.now ≡ held_of self.now.course }
    {
        self.service.current()
    }

    /// Takes the link's answer to the buffer that was offered. The frames that were handed over are
    /// counted. Where no buffer is to be offered it does nothing.
    pub fn settle(&mut self, answer: Offer)
        ensures { self.new ≡ answered (answer_of answer) self.old }
    {
        self.service.settle(answer);
    }
}
