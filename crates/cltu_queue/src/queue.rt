// The queue of CLTUs: the forward machine.
ghost use Rattle.std.specs.Prelude.{◌≡◌, ◌<◌, ◌≤◌, length, IsTrue, IsFalse, IfOk, OnOk, OnErr};
ghost use Rattle.cds_time.specs.declared.cds.TheConstants.{MOMENT_END};
ghost use Rattle.cltu_queue.specs.Machine.{is_of_production};

use crate::cltu::Cltu;
use crate::cltu_fault::CltuFault;
use crate::in_air::InAir;
use crate::last_ok::LastOk;
use crate::notice::Notice;
use crate::processed::Processed;
use crate::room::Room;
use crate::taken::Taken;
use crate::times::{has_moment, is_above};
use crate::uplink_view::UplinkView;
use cds_time::{Cds, PICOS_A_MICRO};
use circular_buffer::HeapCircularBuffer;
use fcltu_numbers::{
    CltuNotificationType, CltuProductionStatus, CltuStartDiagnostic, CltuStatus,
    CltuTransferDataDiagnostic, UplinkStatus,
};
use octet_core::Memory;
use std::alloc::Global;
use std::collections::VecDeque;
use std::marker::Model;

// How many notices may wait while a CLTU radiates, and how many places there are for them.
const NOTICES_LIMIT: usize = 1_000;

const NOTICES_ROOM: usize = 1_024;

// In microseconds.
const LONGEST_DELAY: u32 = 600_000_000;

/// The CLTUs of a forward service instance, and what its user is to be told.
#[derive(Drop)]
pub struct Queue {
    room: u32,
    longest: u32,
    run: u64,
    started: bool,
    blocked: bool,
    next: Option<u32>,
    waiting: VecDeque<Cltu>,
    // The room less the octets of those that wait.
    free: u32,
    in_air: Option<InAir>,
    rests_until: u128,
    processed: Processed,
    ok: LastOk,
    received: u32,
    taken: u32,
    radiated: u32,
    notices: HeapCircularBuffer<Notice>,
    production: CltuProductionStatus,
    status: UplinkStatus,
}

impl Model for Queue {
    ghost use Rattle.cltu_queue.specs.Machine.{Machine};

    ghost Value = { Machine };

    ghost use Rattle.cltu_queue.specs.Parts.{PartsFit, machine_of};

    ghost view = { λ a. machine_of a };

    ghost invariant = { λ a. PartsFit (machine_of a) a.free a.notices.capacity };
}

impl Queue {
    ghost use Rattle.cltu_queue.specs.Machine.{new_machine, free_octets, room_of, refusal, queued};
    ghost use Rattle.cltu_queue.specs.Machine.{discarded, notice_of, with_notice};
    ghost use Rattle.cltu_queue.specs.Machine.{with_production_notice, ends_with_production};
    ghost use Rattle.cltu_queue.specs.Machine.{is_idle, is_of_run, on_radiation, expired};
    ghost use Rattle.cltu_queue.specs.Machine.{with_radiation_notice, with_empty_notice};
    ghost use Rattle.cltu_queue.specs.Machine.{changed_to, on_start, on_stop, on_transfer};
    ghost use Rattle.cltu_queue.specs.Machine.{on_take, on_done, on_interrupted, on_uplink};
    ghost use Rattle.cltu_queue.specs.Machine.{on_notice, view_of};
    ghost use Rattle.cltu_queue.specs.CltuFault.{UnlessMemory, OnMemory};

    /// An empty queue for so many octets, of which one CLTU may have `longest`. No run is started.
    pub fn new(alloc: Global, room: u32, longest: u32) -> Result<Queue, Memory>
        ensures { IfOk result (λ queue. queue ≡ new_machine room longest) }
    {
        let notices = HeapCircularBuffer::with_capacity(alloc, NOTICES_ROOM)?;
        Ok(Queue {
            room,
            longest,
            run: 0,
            started: false,
            blocked: false,
            next: None,
            waiting: VecDeque::new(alloc),
            free: room,
            in_air: None,
            rests_until: 0,
            processed: Processed::None,
            ok: LastOk::None,
            received: 0,
            taken: 0,
            radiated: 0,
            notices,
            production: CltuProductionStatus::Operational,
            status: UplinkStatus::Nominal,
        })
    }

    /// Whether a run is started.
    pub fn is_started(&self) -> bool
        ensures { result ≡ self.now.started }
    {
        self.started
    }

    /// Begins a run, which awaits the CLTU `first`, or answers the diagnostic of START.
    pub fn start(&mut self, first: u32) -> Result<(), CltuStartDiagnostic>
        requires { IsFalse self.old.started }
        ensures after { self.new ≡ (on_start self.old first).0 }
        ensures reply { result ≡ (on_start self.old first).1 }
    {
        if self.production == CltuProductionStatus::Halted {
            return Err(CltuStartDiagnostic::OutOfService);
        }
        if self.production == CltuProductionStatus::Interrupted || self.run == u64::MAX {
            return Err(CltuStartDiagnostic::UnableToComply);
        }
        self.run += 1;
        self.started = true;
        self.blocked = false;
        self.next = Some(first);
        self.waiting.clear();
        self.free = self.room;
        self.processed = Processed::None;
        self.ok = LastOk::None;
        self.received = 0;
        self.taken = 0;
        self.radiated = 0;
        Ok(())
    }

    /// Ends the run. What waits and the notices are discarded; what is in the air stays.
    pub fn stop(&mut self)
        ensures { self.new ≡ on_stop self.old }
    {
        self.started = false;
        self.waiting.clear();
        self.free = self.room;
        self.notices.clear();
    }

    /// Queues a CLTU, or answers the diagnostic of TRANSFER-DATA.
    pub fn transfer(&mut self, cltu: &Cltu, now: u128) -> Result<Room, CltuFault>
        requires run { IsTrue self.old.started }
        requires moment { now < MOMENT_END }
        ensures after { UnlessMemory result (self.new ≡ (on_transfer self.old cltu.now now).0) }
        ensures reply { UnlessMemory result (result ≡ (on_transfer self.old cltu.now now).1) }
        ensures memory { OnMemory result (self.new ≡ self.old) }
    {
        if let Some(diagnostic) = self.refusal(cltu, now) {
            let room = self.room();
            return Err(CltuFault::Refused { diagnostic, room });
        }
        self.queue(cltu)?;
        Ok(self.room())
    }

    // The first diagnostic whose condition holds.
    fn refusal(&self, cltu: &Cltu, now: u128) -> Option<CltuTransferDataDiagnostic>
        ensures { result ≡ refusal self.now cltu.now now }
    {
        if self.blocked {
            Some(CltuTransferDataDiagnostic::UnableToProcess)
        } else if self.next != Some(cltu.id) {
            Some(CltuTransferDataDiagnostic::OutOfSequence)
        } else if !(has_moment(cltu.earliest) && has_moment(cltu.latest)) {
            Some(CltuTransferDataDiagnostic::InvalidTime)
        } else if is_above(cltu.earliest_moment(), cltu.latest_moment()) {
            Some(CltuTransferDataDiagnostic::InconsistentTimeRange)
        } else if is_above(Some(now), cltu.latest_moment()) {
            Some(CltuTransferDataDiagnostic::LateSldu)
        } else if cltu.radiation_delay > LONGEST_DELAY {
            Some(CltuTransferDataDiagnostic::InvalidDelayTime)
        } else if cltu.octets.len() > self.longest as usize {
            Some(CltuTransferDataDiagnostic::CltuError)
        } else if cltu.octets.len() > self.free as usize {
            Some(CltuTransferDataDiagnostic::UnableToStore)
        } else {
            None
        }
    }

    fn room(&self) -> Room
        ensures { result ≡ room_of self.now }
    {
        Room {
            next: self.next.unwrap_or(u32::MAX),
            free: self.free,
        }
    }

    // Puts a CLTU behind those that wait.
    fn queue(&mut self, cltu: &Cltu) -> Result<(), Memory>
        requires { length cltu.now.octets ≤ free_octets self.old }
        ensures ok { OnOk result (self.new ≡ queued self.old cltu.now) }
        ensures err { OnErr result (self.new ≡ self.old) }
    {
        self.waiting.push_back(cltu.clone()?)?;
        self.free -= cltu.octets.len() as u32;
        self.next = cltu.id.checked_add(1);
        self.received = self.received.saturating_add(1);
        Ok(())
    }

    /// What may radiate now: the first CLTU that waits, within its window, and once the uplink has
    /// rested.
    pub fn take(&mut self, now: u128) -> Taken
        requires { now < MOMENT_END }
        ensures after { self.new ≡ (on_take self.old now).0 }
        ensures reply { result ≡ (on_take self.old now).1 }
    {
        if self.is_idle() {
            return Taken::Idle;
        }
        let Some(head) = self.waiting.front() else {
            return Taken::Idle;
        };
        if is_above(Some(now), head.latest_moment()) {
            let id = head.id;
            self.expire(id);
            return Taken::Expired { id };
        }
        let until = head.earliest_moment().unwrap_or(0).max(self.rests_until);
        if now < until {
            return Taken::Waits { until };
        }
        self.radiate(now)
    }

    // Whether nothing may radiate, whatever waits.
    fn is_idle(&self) -> bool
        ensures { result ≡ is_idle self.now }
    {
        self.in_air.is_some()
            || self.blocked
            || self.production != CltuProductionStatus::Operational
            || self.notices.len() >= NOTICES_LIMIT
    }

    // All that waits is discarded, and the user is told that this CLTU expired.
    fn expire(&mut self, id: u32)
        requires { IsFalse (is_idle self.old) }
        ensures { self.new ≡ expired id self.old }
    {
        self.discard();
        self.processed = Processed::Some {
            id,
            start: None,
            status: CltuStatus::Expired,
        };
        self.taken = self.taken.saturating_add(1);
        self.notify(CltuNotificationType::SlduExpired);
    }

    // The first CLTU that waits goes into the air.
    fn radiate(&mut self, now: u128) -> Taken
        requires ready { IsFalse (is_idle self.old) }
        requires moment { now < MOMENT_END }
        ensures after { self.new ≡ (on_radiation self.old now).0 }
        ensures reply { result ≡ (on_radiation self.old now).1 }
    {
        let Some(head) = self.waiting.pop_front() else {
            return Taken::Idle;
        };
        let began = Cds::of_moment(now);
        self.free += head.octets.len() as u32;
        self.in_air = Some(InAir {
            run: self.run,
            id: head.id,
            began,
            radiation_delay: head.radiation_delay,
            wanted: head.wanted,
        });
        self.processed = Processed::Some {
            id: head.id,
            start: Some(began),
            status: CltuStatus::RadiationStarted,
        };
        self.taken = self.taken.saturating_add(1);
        Taken::Radiate {
            run: self.run,
            id: head.id,
            octets: head.octets,
        }
    }

    // What waits is discarded, and the run is blocked.
    fn discard(&mut self)
        ensures { self.new ≡ discarded self.old }
    {
        self.waiting.clear();
        self.free = self.room;
        self.blocked = true;
    }

    // A notice is made. There is room for it, since at most 1,000 wait when a CLTU goes into the
    // air.
    fn notify(&mut self, kind: CltuNotificationType)
        requires landed { self.old.in_air ≡ None }
        requires few { length self.old.notices ≤ 1001 }
        ensures { self.new ≡ with_notice kind self.old }
    {
        let notice = self.notice_of(kind);
        self.notices.push_back(notice);
    }

    // A notice of a change of production is made, in place of a last one of production.
    fn notify_production(&mut self, kind: CltuNotificationType)
        requires kind { IsTrue (is_of_production kind) }
        ensures { self.new ≡ with_production_notice kind self.old }
    {
        let change = self.notice_of(kind);
        if self.ends_with_production() {
            self.notices.pop_back();
        }
        self.notices.push_back(change);
    }

    fn notice_of(&self, kind: CltuNotificationType) -> Notice
        ensures { result ≡ notice_of kind self.now }
    {
        Notice {
            kind,
            processed: self.processed,
            ok: self.ok,
            production: self.production,
            status: self.status,
        }
    }

    // Whether the last notice is one of production.
    fn ends_with_production(&self) -> bool
        ensures { result ≡ ends_with_production self.now.notices }
    {
        self.notices
            .back()
            .is_some_and(|last| is_of_production(last.kind))
    }

    /// The radiation of a CLTU ended at `now`.
    pub fn done(&mut self, run: u64, id: u32, now: u128)
        requires { now < MOMENT_END }
        ensures { self.new ≡ on_done self.old run id now }
    {
        let Some(landed) = self.in_air else { return };
        if !(landed.run == run && landed.id == id) {
            return;
        }
        self.in_air = None;
        if !self.is_of_run(&landed) {
            return;
        }
        self.processed = Processed::Some {
            id,
            start: Some(landed.began),
            status: CltuStatus::Radiated,
        };
        self.ok = LastOk::Some {
            id,
            stop: Cds::of_moment(now),
        };
        self.rests_until = now + u128::from(landed.radiation_delay) * PICOS_A_MICRO;
        self.radiated = self.radiated.saturating_add(1);
        self.notify_radiated(landed.wanted);
        self.notify_empty();
    }

    // The user is told of a radiation's end, where that is wanted.
    fn notify_radiated(&mut self, is_wanted: bool)
        requires landed { self.old.in_air ≡ None }
        requires few { length self.old.notices ≤ 1001 }
        ensures { self.new ≡ with_radiation_notice is_wanted self.old }
    {
        if is_wanted {
            self.notify(CltuNotificationType::CltuRadiated);
        }
    }

    // The user is told where nothing waits.
    fn notify_empty(&mut self)
        requires landed { self.old.in_air ≡ None }
        requires few { length self.old.notices ≤ 1001 }
        ensures { self.new ≡ with_empty_notice self.old }
    {
        if self.waiting.is_empty() {
            self.notify(CltuNotificationType::BufferEmpty);
        }
    }

    // Whether what is in the air is of the run that is started.
    fn is_of_run(&self, in_air: &InAir) -> bool
        ensures { result ≡ is_of_run self.now in_air.now }
    {
        self.started && in_air.run == self.run
    }

    /// The radiation of a CLTU failed.
    pub fn interrupted(&mut self, run: u64, id: u32)
        ensures { self.new ≡ on_interrupted self.old run id }
    {
        let Some(broken) = self.in_air else { return };
        if !(broken.run == run && broken.id == id) {
            return;
        }
        self.in_air = None;
        if !self.is_of_run(&broken) {
            return;
        }
        self.discard();
        self.processed = Processed::Some {
            id,
            start: Some(broken.began),
            status: CltuStatus::Interrupted,
        };
        self.production = CltuProductionStatus::Interrupted;
        self.notify(CltuNotificationType::ProductionInterrupted);
    }

    /// Production and uplink have these statuses from now on.
    pub fn uplink(&mut self, production: CltuProductionStatus, status: UplinkStatus)
        ensures { self.new ≡ on_uplink self.old production status }
    {
        let changed = self.production != production;
        self.production = production;
        self.status = status;
        if self.started && changed {
            self.change_production(production);
        }
    }

    // What a change of production does in a started run.
    #[tactic(auto, unfolding(crate::specs::Machine::is_of_production))]
    fn change_production(&mut self, production: CltuProductionStatus)
        ensures { self.new ≡ changed_to production self.old }
    {
        match production {
            CltuProductionStatus::Operational => self.notify_production(
                CltuNotificationType::ProductionOperational,
            ),
            CltuProductionStatus::Interrupted => self.stop_production(
                CltuNotificationType::ProductionInterrupted,
            ),
            CltuProductionStatus::Halted => self.stop_production(
                CltuNotificationType::ProductionHalted,
            ),
            CltuProductionStatus::Configured => {}
        }
    }

    // What waits is discarded, and a notice of production is made.
    fn stop_production(&mut self, kind: CltuNotificationType)
        requires kind { IsTrue (is_of_production kind) }
        ensures { self.new ≡ with_production_notice kind (discarded self.old) }
    {
        self.discard();
        self.notify_production(kind);
    }

    /// The notice that is to be told next, which is then told.
    pub fn notice(&mut self) -> Option<Notice>
        ensures after { self.new ≡ (on_notice self.old).0 }
        ensures reply { result ≡ (on_notice self.old).1 }
    {
        self.notices.pop_front()
    }

    /// The numbers of a status report.
    pub fn view(&self) -> UplinkView
        ensures { result ≡ view_of self.now }
    {
        UplinkView {
            processed: self.processed,
            ok: self.ok,
            production: self.production,
            status: self.status,
            received: self.received,
            taken: self.taken,
            radiated: self.radiated,
            free: self.free,
        }
    }
}

// Whether a notice tells a change of production.
#[tactic(auto, unfolding(crate::specs::Machine::is_of_production))]
fn is_of_production(kind: CltuNotificationType) -> bool
    ensures { result ≡ is_of_production kind }
{
    matches!(
        kind,
        CltuNotificationType::ProductionInterrupted
            | CltuNotificationType::ProductionHalted
            | CltuNotificationType::ProductionOperational
    )
}
