// A bound instance of a return service.
ghost use Rattle.std.specs.Prelude.{◌≡◌, ℕ, ◌*◌, ◌^◌, ◌<◌, ◌≤◌, List, [], ◌∷◌, ◌++◌, length, IsTrue};
ghost use Rattle.std.specs.Prelude.{IsSome, unwrap_or, if◌then◌else◌, Some, None, Ok, option_map, pos};
ghost use Rattle.cds_time.specs.declared.cds.TheConstants.{MOMENT_END};
ghost use Rattle.sle_common.specs.Parameter.{parameter};
ghost use Rattle.sle_numbers.specs.ReturnStartDiagnostic.{number_of as start_number};
ghost use Rattle.archive_terms.specs.Archive.{Entry, IsArchive};
ghost use Rattle.archive_terms.specs.Delivery.{is_online, Terms};
ghost use Rattle.archive_terms.specs.Delivery as terms;
ghost use Rattle.archive_terms.specs.Rounds.{Round};
ghost use Rattle.frame_select.specs.Selection.{filter_of};
ghost use Rattle.frame_select.specs.Want.{want_of};
ghost use Rattle.frame_select.specs.Glimpse.{glimpse_of};
ghost use Rattle.frame_select.specs.Item.{items_of};
ghost use Rattle.return_core.specs.Mode.{mode_of, answer_of};
ghost use Rattle.return_core.specs.Item.{are_of_archive};
ghost use Rattle.return_core.specs.Course as course;
ghost use Rattle.return_core.specs.Course.{want_of_course, is_offering, held_of};
ghost use Rattle.return_core.specs.Standing.{waiting_round, StandsFor, IsNextLook, Steps, Settles};
ghost use Rattle.return_core.specs.Visits.{fate_by, discard_told};
ghost use Rattle.report_cycle.specs.declared.schedule.TheConstants.{PICOS_A_SECOND};
ghost use Rattle.report_cycle.specs.Schedule.{refusal as report_refusal, unless};
ghost use Rattle.return_service.specs.Counts.{with_frames_of as counted_after};
ghost use Rattle.return_service.specs.Span.{moments};
ghost use Rattle.return_service.specs.Requested.{AskedFits, FilterFits};
ghost use Rattle.return_service.specs.Instance.{prepared, moments_at, return_answer, with_start};
ghost use Rattle.return_service.specs.Instance.{concluded, terms_of_start};
ghost use Rattle.return_service.specs.declared.invocation.ReturnInvocation.TheVariants as asked;
ghost use Rattle.return_service.specs.declared.invocation.ReturnStart.{ReturnStart as Start};
ghost use Rattle.return_service.specs.declared.span.Span.{Span as Moments};
ghost use Rattle.return_service.specs.Serving.{bound, terms_at, started, stopped, stepped};
ghost use Rattle.return_service.specs.Serving.{answered, handed_over, is_offline, requested};
ghost use Rattle.return_service.specs.Serving.{report_of, reported, numbers_of};
ghost use Rattle.return_service.specs.Serving.{parameter_of, seconds_of};
ghost use Rattle.return_service.specs.Answer.{confirmed, AnswerFits, ParameterFits};

use crate::answers::{confirmed as confirm, known};
use crate::counts::{Counts, NO_FRAMES, with_frames_of};
use crate::invocation::{ReturnInvocation, ReturnStart};
use crate::kept::{kept_name, kept_parameter};
use crate::parameter_names::{
    BUFFER_SIZE, DELIVERY_MODE, LATENCY_LIMIT, REPORTING_CYCLE, RETURN_TIMEOUT,
};
use crate::permission::may_ask;
use crate::span::{Span, is_online};
use cds_time::Cds;
use frame_select::{Filter, Glimpse, Item, Selection, Want};
use octet_core::Offer;
use report_cycle::{PICOS_A_SECOND, Schedule};
use return_core::Delivery;
use return_pdu::{ReturnAnswer, ReturnKind, ReturnNumbers};
use sle_common::{Gvcid, Parameter, ReportKind};
use sle_numbers::{Numbered, ReturnDeliveryMode, ReturnStartDiagnostic, ScheduleDiagnostic};
use std::marker::Model;

/// A bound instance of a return service: its delivery, its reports, its parameters and its answers.
#[derive(Drop)]
pub struct ReturnService {
    kind: ReturnKind,
    delivery: Delivery,
    mode: ReturnDeliveryMode,
    // The most items of a buffer.
    size: u32,
    // The latency limit in seconds, in the online modes.
    latency: Option<u64>,
    // The return timeout in seconds.
    timeout: u16,
    schedule: Schedule,
    counts: Counts,
    // What the last START asked for.
    kept: Option<Filter>,
}

impl Model for ReturnService {
    ghost use Rattle.return_core.specs.Mode.{mode_of};
    ghost use Rattle.return_service.specs.Serving.{Serving, IsOf};

    ghost Value = { Serving };

    ghost view = { λ s. record {
      kind = s.kind;
      course = s.delivery;
      timeout = s.timeout;
      schedule = s.schedule;
      counts = s.counts;
      kept = s.kept;
    } };

    ghost invariant = { λ s. IsOf s.delivery (mode_of s.mode) s.size s.latency s.kept };
}

impl ReturnService {
    /// An instance of a service at its BIND, with this stopped delivery, which was made of the mode,
    /// the most items of a buffer and the latency limit in picoseconds; and with a return timeout in
    /// seconds.
    pub fn new(
        kind: ReturnKind,
        delivery: Delivery,
        mode: ReturnDeliveryMode,
        size: u32,
        latency: Option<u128>,
        timeout: u16,
    ) -> ReturnService
        requires made { delivery ≡ course.stopped (mode_of mode) size (unwrap_or latency 0) }
        requires limited { IsTrue (is_online (mode_of mode)) → IsSome latency }
        requires short { unwrap_or latency 0 < 2 ^ 64 * PICOS_A_SECOND }
        ensures { result ≡ bound kind delivery timeout }
    {
        ReturnService {
            kind,
            delivery,
            mode,
            size,
            latency: seconds(mode, latency),
            timeout,
            schedule: Schedule::NO_REPORTS,
            counts: NO_FRAMES,
            kept: None,
        }
    }

    /// Which service it is one of.
    pub fn kind(&self) -> ReturnKind
        ensures { result ≡ self.now.kind }
    {
        self.kind
    }

    /// What it wants of the look of a round in which this is asked.
    pub fn prepare(&self, invocation: &ReturnInvocation) -> Want
        ensures { want_of result ≡ prepared invocation.now self.now }
    {
        match invocation {
            ReturnInvocation::Start(_) => Want::Front,
            ReturnInvocation::Stop => Want::Nothing,
            ReturnInvocation::Nothing | ReturnInvocation::Report(_) | ReturnInvocation::Get(_) => {
                self.want()
            }
        }
    }

    /// Answers what is asked in a round of this moment, by the round's look, where a START may ask
    /// for these channels. The channel of a START that was decoded is in its ranges.
    pub fn conclude(
        &mut self,
        invocation: &ReturnInvocation,
        channels: &[Gvcid],
        glimpse: &Glimpse,
        now: u128,
    ) -> ReturnAnswer
        requires { AskedFits invocation.now }
        ensures answer { result
            ≡ return_answer channels.now invocation.now (glimpse_of glimpse.now) self.old }
        ensures after { self.new
            ≡ concluded channels.now invocation.now (glimpse_of glimpse.now) now self.old }
        ensures fits { AnswerFits result }
        ensures stands { (s : Start) (span : Moments) (entries : List Entry)
            → invocation.now ≡ asked.Start s
            → moments_at channels.now s (glimpse_of glimpse.now) self.old ≡ Ok span
            → IsArchive entries → glimpse.now.front ≤ length entries
            → StandsFor self.new.course (terms_of_start s span glimpse.now.front self.old) entries [] }
    {
        match invocation {
            ReturnInvocation::Nothing => ReturnAnswer::Nothing,
            ReturnInvocation::Start(start) => {
                ReturnAnswer::Start(confirm(self.start(start, channels, glimpse)))
            }
            ReturnInvocation::Stop => {
                self.stop();
                ReturnAnswer::Stop
            }
            ReturnInvocation::Report(kind) => {
                ReturnAnswer::Report(confirm(self.request_reports(*kind, now)))
            }
            ReturnInvocation::Get(name) => ReturnAnswer::Get(known(self.parameter(*name))),
        }
    }

    // A START: done, or why not.
    fn start(
        &mut self,
        start: &ReturnStart,
        channels: &[Gvcid],
        glimpse: &Glimpse,
    ) -> Result<(), ReturnStartDiagnostic>
        requires { FilterFits start.now.filter }
        ensures answer { confirmed start_number result ≡ confirmed start_number
            (moments_at channels.now start.now (glimpse_of glimpse.now) self.old) }
        ensures after { self.new ≡ with_start start.now glimpse.now.front
            (moments_at channels.now start.now (glimpse_of glimpse.now) self.old) self.old }
        ensures stands { (span : Moments) (entries : List Entry)
            → moments_at channels.now start.now (glimpse_of glimpse.now) self.old ≡ Ok span
            → IsArchive entries → glimpse.now.front ≤ length entries
            → StandsFor self.new.course
            (terms_of_start start.now span glimpse.now.front self.old) entries [] }
    {
        let span = self.span(start.start, start.stop, glimpse)?;
        if !may_ask(channels, &start.filter) {
            return Err(ReturnStartDiagnostic::InvalidGvcId);
        }
        self.begin(start.filter, span, glimpse.front);
        Ok(())
    }

    // What it wants of the next look at the archive, where it takes steps.
    fn want(&self) -> Want
        ensures { want_of result ≡ want_of_course self.now.course }
    {
        self.delivery.want()
    }

    // The moments of a START's times, while production has the look's status; or why they are
    // refused.
    fn span(
        &self,
        start: Option<Cds>,
        stop: Option<Cds>,
        glimpse: &Glimpse,
    ) -> Result<Span, ReturnStartDiagnostic>
        ensures { result ≡ moments self.now.course.mode (glimpse_of glimpse.now).production
            start stop }
    {
        Span::of(self.mode, glimpse.production, start, stop)
    }

    // A START that isn't refused: the delivery begins anew, with these frames of this span, by the
    // front of the round's look.
    fn begin(&mut self, filter: Filter, span: Span, front: u64)
        requires { FilterFits filter }
        ensures after { self.new ≡ started filter span front self.old }
        ensures stands { (entries : List Entry) → IsArchive entries → front ≤ length entries
            → StandsFor self.new.course (terms_at self.old.course (filter_of filter) span front)
            entries [] }
    {
        let selection = Selection {
            filter,
            start: span.start,
            stop: span.stop,
            first: first_position(self.mode, span.start, front),
            notices: is_online(self.mode),
        };
        self.delivery.stop();
        self.delivery.start(selection);
        self.kept = Some(filter);
    }

    // A STOP. What is held is dropped; the schedule of the reports goes on.
    fn stop(&mut self)
        ensures { self.new ≡ stopped self.old }
    {
        self.delivery.stop();
    }

    // A SCHEDULE-STATUS-REPORT: done, or why not, which leaves the schedule.
    fn request_reports(&mut self, kind: ReportKind, now: u128) -> Result<(), ScheduleDiagnostic>
        ensures answer { result ≡ unless (report_refusal (is_offline self.old.course)
            self.old.schedule kind) }
        ensures after { self.new ≡ requested kind now self.old }
    {
        let is_offline = !is_online(self.mode);
        self.schedule.request(is_offline, kind, now)
    }

    /// The report of a round, where one is due: what was delivered since the BIND, with the look's
    /// statuses.
    pub fn report(&mut self, glimpse: &Glimpse, now: u128) -> Option<ReturnNumbers>
        requires { now < MOMENT_END }
        ensures report { result ≡ report_of (glimpse_of glimpse.now) now self.old }
        ensures after { self.new ≡ reported now self.old }
    {
        if !self.schedule.is_due(now) {
            return None;
        }
        self.schedule.give(now);
        Some(numbers(self.counts, glimpse))
    }

    // The parameter of a name.
    #[tactic(auto, using(crate::specs::Fits::number_fits))]
    fn parameter(&self, name: u16) -> Option<Parameter>
        ensures exact { result ≡ parameter_of self.now name }
        ensures fits { ParameterFits result }
    {
        if name == kept_name(self.kind) {
            return Some(kept_parameter(self.kind, self.kept));
        }
        match name {
            BUFFER_SIZE => Some(Parameter::BufferSize(i128::from(self.size))),
            DELIVERY_MODE => Some(Parameter::Mode(i128::from(self.mode.number()))),
            LATENCY_LIMIT => Some(latency_limit(self.latency)),
            REPORTING_CYCLE => Some(reporting_cycle(self.schedule.cycle)),
            RETURN_TIMEOUT => Some(Parameter::Timeout(i128::from(self.timeout))),
            _ => None,
        }
    }
}

// The rounds of the delivery.
impl ReturnService {
    /// Takes what the look gave at `now`, and says whether a buffer is to be offered.
    pub fn step(&mut self, glimpse: Glimpse, now: u128) -> bool
        requires { IsTrue (are_of_archive glimpse.items) }
        ensures after { self.new ≡ stepped (glimpse_of glimpse) now self.old }
        ensures offers { result ≡ is_offering self.new.course }
        ensures stands { (t : Terms) (entries : List Entry) (rounds : List Round)
            → StandsFor self.old.course t entries rounds
            → IsNextLook (glimpse_of glimpse) self.old.course t entries rounds
            → Steps self.new.course t entries rounds glimpse.front now }
    {
        self.delivery.step(glimpse, now)
    }

    /// Whether a buffer is to be offered.
    pub fn is_offering(&self) -> bool
        ensures { result ≡ is_offering self.now.course }
    {
        self.delivery.is_offering()
    }

    /// The held items, which are offered where a buffer is to be.
    pub fn current(&self) -> &[Item]
        ensures { items_of result.now ≡ held_of self.now.course }
    {
        self.delivery.current()
    }

    /// How many items the link's answer discards, a backlog not counted, where it discards the
    /// buffer that is offered. It costs the held items, and is asked before `settle`.
    pub fn discards(&self, answer: Offer) -> Option<u32>
        ensures { result ≡ discard_told (fate_by self.now.course (answer_of answer)) }
    {
        self.delivery.discards(answer)
    }

    /// Takes the link's answer to the buffer that was offered. The frames that were handed over are
    /// counted. Where no buffer is to be offered it does nothing.
    pub fn settle(&mut self, answer: Offer)
        ensures after { self.new ≡ answered (answer_of answer) self.old }
        ensures stands { (t : Terms) (entries : List Entry) (rounds : List Round) (front now : ℕ)
            → StandsFor self.old.course t entries (rounds ++ waiting_round front now ∷ [])
            → Settles self.old.course self.new.course t entries rounds front now
            (answer_of answer) }
    {
        self.counts = counts_after(self.counts, &self.delivery, answer);
        self.delivery.settle(answer);
    }
}

// The latency limit in seconds, in the online modes.
fn seconds(mode: ReturnDeliveryMode, latency: Option<u128>) -> Option<u64>
    requires limited { IsTrue (is_online (mode_of mode)) → IsSome latency }
    requires short { unwrap_or latency 0 < 2 ^ 64 * PICOS_A_SECOND }
    ensures { result ≡ seconds_of
        (if is_online (mode_of mode) then Some (unwrap_or latency 0) else None) }
{
    if !is_online(mode) {
        return None;
    }
    match latency {
        Some(picos) => Some((picos / PICOS_A_SECOND) as u64),
        None => None,
    }
}

// A latency limit as a parameter.
#[tactic(auto, using(crate::specs::Fits::number_fits))]
fn latency_limit(seconds: Option<u64>) -> Parameter
    ensures exact { result ≡ Parameter.Latency (option_map (λ n. pos n) seconds) }
    ensures fits { parameter.Fits result }
{
    match seconds {
        Some(seconds) => Parameter::Latency(Some(i128::from(seconds))),
        None => Parameter::Latency(None),
    }
}

// A cycle of reports as a parameter.
#[tactic(auto, using(crate::specs::Fits::number_fits))]
fn reporting_cycle(seconds: Option<u16>) -> Parameter
    ensures exact { result ≡ Parameter.Cycle (option_map (λ n. pos n) seconds) }
    ensures fits { parameter.Fits result }
{
    match seconds {
        Some(seconds) => Parameter::Cycle(Some(i128::from(seconds))),
        None => Parameter::Cycle(None),
    }
}

// The first position of a START.
fn first_position(mode: ReturnDeliveryMode, start: Option<u128>, front: u64) -> u64
    ensures exact { result ≡ terms.first_position (mode_of mode) start front }
    ensures within { result ≤ front }
{
    match (mode, start) {
        (ReturnDeliveryMode::CompleteOnline | ReturnDeliveryMode::Offline, Some(_)) => 0,
        _ => front,
    }
}

// What was counted behind an answer to what a delivery offers.
fn counts_after(counts: Counts, delivery: &Delivery, answer: Offer) -> Counts
    ensures { result ≡ counted_after (handed_over delivery.now (answer_of answer)) counts }
{
    match answer {
        Offer::Whole if delivery.is_offering() => with_frames_of(counts, delivery.current()),
        _ => counts,
    }
}

// What a report tells.
fn numbers(counts: Counts, glimpse: &Glimpse) -> ReturnNumbers
    ensures { result ≡ numbers_of counts (glimpse_of glimpse.now) }
{
    let locks = glimpse.locks;
    ReturnNumbers {
        error_free: counts.error_free,
        delivered: counts.delivered,
        frame_sync: locks.frame_sync.number(),
        symbol: locks.symbol.number(),
        subcarrier: locks.subcarrier.number(),
        carrier: locks.carrier.number(),
        production: glimpse.production.number(),
    }
}
