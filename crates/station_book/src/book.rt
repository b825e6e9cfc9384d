// The book.
ghost use Rattle.std.specs.Prelude.{◌≡◌, ℕ, ◌+◌, ◌*◌, ◌^◌, ◌<◌, ◌≤◌, IfOk, OnOk, OnErr, IfErr};
ghost use Rattle.std.specs.Prelude.{IsFalse, IsTrue, take as prefix};
ghost use Rattle.std.specs.Prelude.{length, slice_get, slice_set, if◌then◌else◌, Some};
ghost use Rattle.station_book.specs.History.{is_of, is_forward, is_quiet};
ghost use Rattle.cds_time.specs.declared.cds.TheConstants.{MOMENT_END};
ghost use Rattle.archive_terms.specs.Archive.{IsArchive};
ghost use Rattle.archive_terms.specs.Glimpse.{glimpse};
ghost use Rattle.archive_index.specs.IndexState.{Indexes};
ghost use Rattle.record_form.specs.Entry.{entries_of};
ghost use Rattle.frame_select.specs.Glimpse.{glimpse_of, as_said};
ghost use Rattle.frame_select.specs.Want.{want_of};
ghost use Rattle.cltu_queue.specs.Machine.{on_start, on_transfer, refusal, on_notice, on_stop};
ghost use Rattle.cltu_queue.specs.Machine.{view_of};

use crate::book_parts::BookParts;
use crate::extend::{extend, index_of};
use crate::limits::Limits;
use crate::publish_fault::PublishFault;
use crate::service_kind::ServiceKind;
use crate::site::{forward_limits, kinds_of};
use archive_index::{Index, Shelf, Steps};
use cltu_queue::{Ask, BookReply, Cltu, CltuFault, Notice, Queue, Taken, UplinkView};
use fcltu_numbers::{CltuProductionStatus, UplinkStatus};
use frame_select::{Glimpse, Want};
use octet_core::Memory;
use record_form::{Entries, Entry};
use station_config::Site;
use std::alloc::{AllocError, Global};
use std::marker::{Brand, Model};
use std::sync::ledger::{Blank, Ledger};

/// All that a station's workers share: the published entries with their index, the forward
/// service's queue, which door has which instance, which workers are gone, and the latest moment.
#[derive(Drop)]
pub struct Book {
    alloc: Global,
    services: Vec<ServiceKind>,
    room: u32,
    longest: u32,
    // How many workers there are beside the antenna's.
    workers: u32,
    // How many of the entries are opening ones.
    opening: usize,
    entries: Shelf<Entry>,
    index: Index,
    queue: Queue,
    // For each instance, the door that has it.
    doors: Vec<Option<u32>>,
    gone: [bool; 32],
    moment: u128,
}

impl Model for Book {
    ghost use Rattle.station_book.specs.State.{State};

    ghost Value = { State };

    ghost use Rattle.station_book.specs.Parts.{PartsFit, state_of};

    ghost view = { λ a. state_of a };

    ghost invariant = { λ a. PartsFit (state_of a) a.index a.opening };
}

// Whether it is this door that has an instance.
fn is_of(door: u32, holder: Option<u32>) -> bool
    ensures { result ≡ is_of door holder }
{
    match holder {
        Some(other) => other == door,
        None => false,
    }
}

// Whether the instance at a place is the forward service's.
fn is_forward(services: &[ServiceKind], place: usize) -> bool
    ensures { result ≡ is_forward (slice_get services.now place) }
{
    matches!(services.get(place), Some(ServiceKind::Cltu))
}

// Whether an ask takes no notice.
fn is_quiet(ask: &Ask) -> bool
    ensures { result ≡ is_quiet ask.now }
{
    matches!(ask, Ask::Quiet)
}

impl Book {
    ghost use Rattle.station_book.specs.Origin.{opening_of};
    ghost use Rattle.station_book.specs.State.{opened, publish, answer, quit, take, done};
    ghost use Rattle.station_book.specs.State.{interrupted, uplink, gone, took};
    ghost use Rattle.station_book.specs.History.{moment_at, instance_of, has_forward, is_running};
    ghost use Rattle.station_book.specs.History.{is_taken, freed, without_run, is_lost};
    ghost use Rattle.station_book.specs.History.{start_reply, transfer_reply, with_ask, asked};
    ghost use Rattle.station_book.specs.History.{reply_asked, reply_of, queue_answered, notice_of};
    ghost use Rattle.station_book.specs.History.{all_gone, after, reply_to};
    ghost use Rattle.station_book.specs.Publishing.{UnlessMemory, published_as};

    /// The book of a site's instances over an archive, with so many workers beside the antenna's.
    /// It takes the entries without a copy, goes over them once for their index, and takes constant
    /// time for each instance.
    pub fn new(alloc: Global, site: &Site, entries: Entries, workers: u32) -> Result<Book, Memory>
        requires archive { IsArchive entries }
        requires workers { workers ≤ 31 }
        ensures origin { IfOk result (λ book.
            book.opening ≡ opening_of site.now entries workers) }
        ensures new { IfOk result (λ book. book ≡ opened book.opening) }
    {
        let instances = site.instances.as_slice();
        let services = kinds_of(alloc, instances)?;
        let limits = forward_limits(instances);
        Book::open(alloc, services, limits, entries, workers)
    }

    // The book of instances with these services over an archive.
    fn open(
        alloc: Global,
        services: Vec<ServiceKind>,
        limits: Limits,
        entries: Entries,
        workers: u32,
    ) -> Result<Book, Memory>
        requires archive { IsArchive entries }
        requires workers { workers ≤ 31 }
        ensures origin { IfOk result (λ book. book.opening ≡ record {
          services = services.items;
          room = limits.room;
          longest = limits.longest;
          entries = entries;
          workers = workers;
        }) }
        ensures new { IfOk result (λ book. book ≡ opened book.opening) }
    {
        let index = index_of(alloc, entries.as_slice())?;
        let held = Shelf::of(entries.into_vec());
        let doors = Vec::from_elem(alloc, None, services.len())?;
        let Limits { room, longest } = limits;
        let queue = Queue::new(alloc, room, longest).map_err(AllocError::from)?;
        Ok(Book {
            alloc,
            services,
            room,
            longest,
            workers,
            opening: held.length() as usize,
            entries: held,
            index,
            queue,
            doors,
            gone: [false; 32],
            moment: 0,
        })
    }

    /// The moment that a reading has: no earlier than the latest one.
    pub fn peek(&self, reading: u128) -> u128
        requires { reading < MOMENT_END }
        ensures exact { result ≡ moment_at self.now reading }
        ensures below { result < MOMENT_END }
    {
        reading.max(self.moment)
    }

    /// How many entries are published.
    pub fn front(&self) -> u64
        ensures { result ≡ length self.now.published }
    {
        self.entries.length()
    }

    /// What a look at the published entries gives. They are an archive of fewer than 2^64 entries, so
    /// that a delivery may step on it. It shares the octets of what it gives.
    ///
    /// It is `look_counted` on a counter of its own.
    pub fn look(&self, want: &Want) -> Result<Glimpse, Memory>
        ensures glimpse { IfOk result (λ g. glimpse_of g
            ≡ as_said (glimpse self.now.published (want_of want.now))) }
        ensures archive { IsArchive self.now.published }
        ensures count { length self.now.published < 2 ^ 64 }
    {
        self.look_from::<Brand>(want, Blank::new(1))
    }

    // The look, on a counter that is made of a blank ledger.
    fn look_from<L: Ledger>(&self, want: &Want, blank: Blank) -> Result<Glimpse, Memory>
        requires name { blank.name ≡ L.name }
        requires parts { blank.parts ≡ L.parts }
        requires one { 0 < blank.parts }
        ensures glimpse { IfOk result (λ g. glimpse_of g
            ≡ as_said (glimpse self.now.published (want_of want.now))) }
        ensures archive { IsArchive self.now.published }
        ensures count { length self.now.published < 2 ^ 64 }
    {
        let mut steps = Steps::<L>::new(blank);
        self.look_counted(want, &mut steps)
    }

    /// `look`, which counts the entries and rows that it reads: six for each item that it gives, and
    /// eight for each binary digit of the number of entries.
    pub fn look_counted<L: Ledger>(
        &self,
        want: &Want,
        steps: &mut Steps<L>,
    ) -> Result<Glimpse, Memory>
        ensures glimpse { IfOk result (λ g. glimpse_of g
            ≡ as_said (glimpse self.now.published (want_of want.now))) }
        ensures archive { IsArchive self.now.published }
        ensures count { length self.now.published < 2 ^ 64 }
        ensures steps { IfOk result (λ g. (b : ℕ) → length self.now.published < 2 ^ b
            → steps.new ≤ steps.old + (6 * length g.items + 8 * b + 8)) }
    {
        let _count = self.entries.length();
        self.index.glimpse(self.alloc, &self.entries, want, steps)
    }

    /// Puts entries behind the published ones. A refusal hands them back and changes nothing.
    pub fn publish(&mut self, entries: Entries) -> Result<(), (PublishFault, Entries)>
        ensures after { UnlessMemory result (self.new ≡ after self.old (publish entries)) }
        ensures reply { UnlessMemory result (published_as result
            ≡ reply_to self.old (publish entries)) }
        ensures err { IfErr result (λ r. (r.1 ≡ entries) × (self.new ≡ self.old)) }
    {
        match extend(&mut self.index, &mut self.entries, entries.as_slice()) {
            Ok(()) => Ok(()),
            Err(fault) => Err((fault, entries)),
        }
    }

    /// Answers what a door's session asks, with a look and the notice that is to be told.
    ///
    /// It is `answer_counted` on a counter of its own.
    pub fn answer(
        &mut self,
        door: u32,
        reading: u128,
        ask: &Ask,
        want: &Want,
    ) -> Result<(BookReply, Glimpse, Option<Notice>), Memory>
        requires { reading < MOMENT_END }
        ensures after { OnOk result (self.new
            ≡ after self.old (answer door reading ask.now (want_of want.now))) }
        ensures reply { IfOk result (λ r. r.0
            ≡ reply_of self.old door (moment_at self.old reading) ask.now) }
        ensures glimpse { IfOk result (λ r. glimpse_of r.1
            ≡ as_said (glimpse self.old.published (want_of want.now))) }
        ensures notice { IfOk result (λ r. r.2
            ≡ notice_of self.old door (moment_at self.old reading) ask.now) }
        ensures archive { IsArchive self.old.published }
        ensures count { length self.old.published < 2 ^ 64 }
        ensures err { OnErr result (self.new ≡ self.old) }
    {
        self.answer_from::<Brand>(door, reading, ask, want, Blank::new(1))
    }

    // The answer, on a counter that is made of a blank ledger.
    fn answer_from<L: Ledger>(
        &mut self,
        door: u32,
        reading: u128,
        ask: &Ask,
        want: &Want,
        blank: Blank,
    ) -> Result<(BookReply, Glimpse, Option<Notice>), Memory>
        requires reading { reading < MOMENT_END }
        requires name { blank.name ≡ L.name }
        requires parts { blank.parts ≡ L.parts }
        requires one { 0 < blank.parts }
        ensures after { OnOk result (self.new
            ≡ after self.old (answer door reading ask.now (want_of want.now))) }
        ensures reply { IfOk result (λ r. r.0
            ≡ reply_of self.old door (moment_at self.old reading) ask.now) }
        ensures glimpse { IfOk result (λ r. glimpse_of r.1
            ≡ as_said (glimpse self.old.published (want_of want.now))) }
        ensures notice { IfOk result (λ r. r.2
            ≡ notice_of self.old door (moment_at self.old reading) ask.now) }
        ensures archive { IsArchive self.old.published }
        ensures count { length self.old.published < 2 ^ 64 }
        ensures err { OnErr result (self.new ≡ self.old) }
    {
        let mut steps = Steps::<L>::new(blank);
        self.answer_counted(door, reading, ask, want, &mut steps)
    }

    /// `answer`, which counts the entries and rows that its look reads, as `look_counted` does.
    pub fn answer_counted<L: Ledger>(
        &mut self,
        door: u32,
        reading: u128,
        ask: &Ask,
        want: &Want,
        steps: &mut Steps<L>,
    ) -> Result<(BookReply, Glimpse, Option<Notice>), Memory>
        requires { reading < MOMENT_END }
        ensures after { OnOk result (self.new
            ≡ after self.old (answer door reading ask.now (want_of want.now))) }
        ensures reply { IfOk result (λ r. r.0
            ≡ reply_of self.old door (moment_at self.old reading) ask.now) }
        ensures glimpse { IfOk result (λ r. glimpse_of r.1
            ≡ as_said (glimpse self.old.published (want_of want.now))) }
        ensures notice { IfOk result (λ r. r.2
            ≡ notice_of self.old door (moment_at self.old reading) ask.now) }
        ensures archive { IsArchive self.old.published }
        ensures count { length self.old.published < 2 ^ 64 }
        ensures err { OnErr result (self.new ≡ self.old) }
        ensures steps { IfOk result (λ r. (b : ℕ) → length self.old.published < 2 ^ b
            → steps.new ≤ steps.old + (6 * length r.1.items + 8 * b + 8)) }
    {
        let now = self.peek(reading);
        let glimpse = self.look_counted(want, steps)?;
        let (reply, notice) = self.converse(door, now, ask)?;
        self.moment = now;
        Ok((reply, glimpse, notice))
    }

    // Does what a door asks, and takes the notice that is to be told.
    fn converse(
        &mut self,
        door: u32,
        now: u128,
        ask: &Ask,
    ) -> Result<(BookReply, Option<Notice>), Memory>
        requires { now < MOMENT_END }
        ensures after { OnOk result (self.new ≡ record (asked self.old door now ask.now) {
          queue = queue_answered self.old door now ask.now;
        }) }
        ensures reply { IfOk result (λ r. r.0 ≡ reply_of self.old door now ask.now) }
        ensures notice { IfOk result (λ r. r.1 ≡ notice_of self.old door now ask.now) }
        ensures err { OnErr result (self.new ≡ self.old) }
    {
        if self.is_lost(door, ask) {
            return Ok((BookReply::Lost, None));
        }
        let reply = self.ask(door, now, ask)?;
        if is_quiet(ask) {
            return Ok((reply, None));
        }
        let notice = self.tell(door);
        Ok((reply, notice))
    }

    // Does what a door asks, where that fits what it has bound.
    fn ask(&mut self, door: u32, now: u128, ask: &Ask) -> Result<BookReply, Memory>
        requires fits { IsFalse (is_lost self.old door ask.now) }
        requires moment { now < MOMENT_END }
        ensures after { OnOk result (self.new ≡ with_ask self.old door now ask.now) }
        ensures reply { IfOk result (λ reply. reply ≡ reply_asked self.old door now ask.now) }
        ensures err { OnErr result (self.new ≡ self.old) }
    {
        match ask {
            Ask::Nothing => Ok(BookReply::Nothing),
            Ask::Quiet => Ok(BookReply::Nothing),
            Ask::Bind { instance } => Ok(self.bind(door, *instance)),
            Ask::Unbind => {
                self.quit(door);
                Ok(BookReply::Unbound)
            }
            Ask::CltuStart { first } => Ok(self.start(*first, now)),
            Ask::CltuTransfer { cltu } => self.transfer(cltu, now),
            Ask::CltuStop => {
                self.stop();
                Ok(BookReply::Stopped)
            }
        }
    }

    // Binds an instance to a door, unless another one has it.
    fn bind(&mut self, door: u32, instance: u32) -> BookReply
        requires { instance < length self.old.opening.services }
        ensures after { self.new ≡ record self.old {
          doors = if is_taken (slice_get self.old.doors instance)
              then self.old.doors else slice_set self.old.doors instance (Some door);
        } }
        ensures reply { result ≡ (if is_taken (slice_get self.old.doors instance)
            then BookReply.AlreadyBound else BookReply.Bound) }
    {
        if self.is_taken(instance) {
            return BookReply::AlreadyBound;
        }
        self.doors[instance as usize] = Some(door);
        BookReply::Bound
    }

    // Begins a run of the queue, or answers the diagnostic of START.
    fn start(&mut self, first: u32, now: u128) -> BookReply
        requires { IsFalse self.old.queue.started }
        ensures after { self.new ≡ record self.old { queue = (on_start self.old.queue first).0 } }
        ensures reply { result ≡ start_reply now (on_start self.old.queue first).1 }
    {
        match self.queue.start(first) {
            Ok(()) => BookReply::Started { now },
            Err(diagnostic) => BookReply::StartRefused { diagnostic },
        }
    }

    // Queues a CLTU, or answers the diagnostic of TRANSFER-DATA.
    fn transfer(&mut self, cltu: &Cltu, now: u128) -> Result<BookReply, Memory>
        requires run { IsTrue self.old.queue.started }
        requires moment { now < MOMENT_END }
        ensures after { OnOk result (self.new
            ≡ record self.old { queue = (on_transfer self.old.queue cltu.now now).0 }) }
        ensures reply { IfOk result (λ reply.
            reply ≡ transfer_reply (on_transfer self.old.queue cltu.now now).1) }
        ensures err { OnErr result (self.new ≡ self.old) }
    {
        match self.queue.transfer(cltu, now) {
            Ok(room) => Ok(BookReply::Taken { room }),
            Err(CltuFault::Refused { diagnostic, room }) => {
                Ok(BookReply::Rejected { diagnostic, room })
            }
            Err(CltuFault::Memory) => Err(Memory),
        }
    }

    // Ends the queue's run.
    fn stop(&mut self)
        ensures { self.new ≡ record self.old { queue = on_stop self.old.queue } }
    {
        self.queue.stop();
    }

    // The next notice, where the door has the forward service's instance and a run started.
    fn tell(&mut self, door: u32) -> Option<Notice>
        ensures after { self.new ≡ record self.old {
          queue =
              if is_running self.old door then (on_notice self.old.queue).0 else self.old.queue;
        } }
        ensures reply { result
            ≡ (if is_running self.old door then (on_notice self.old.queue).1 else None) }
    {
        if self.is_running(door) {
            self.queue.notice()
        } else {
            None
        }
    }

    /// Frees a door's instance and stops its run.
    pub fn quit(&mut self, door: u32)
        ensures { self.new ≡ after self.old (quit door) }
    {
        self.stop_run(door);
        self.free(door);
    }

    // Stops a door's run, if it has one.
    fn stop_run(&mut self, door: u32)
        ensures { self.new ≡ record self.old { queue = without_run self.old door } }
    {
        if self.is_running(door) {
            self.queue.stop();
        }
    }

    // Frees a door's instance, if it has one.
    fn free(&mut self, door: u32)
        ensures { self.new ≡ record self.old { doors = freed self.old door } }
    {
        if let Some(place) = self.instance_of(door) {
            self.doors[place] = None;
        }
    }

    // The number of the instance that a door has.
    fn instance_of(&self, door: u32) -> Option<usize>
        ensures { result ≡ instance_of self.now door }
    {
        self.doors.iter().position(|holder| is_of(door, *holder))
    }

    // Whether some door has an instance.
    fn is_taken(&self, instance: u32) -> bool
        ensures { result ≡ is_taken (slice_get self.now.doors instance) }
    {
        matches!(self.doors.get(instance as usize), Some(Some(_)))
    }

    // Whether a door has the forward service's instance.
    fn has_forward(&self, door: u32) -> bool
        ensures { result ≡ has_forward self.now door }
    {
        match self.instance_of(door) {
            Some(place) => is_forward(&self.services, place),
            None => false,
        }
    }

    // Whether a door has the forward service's instance, and its run is started.
    fn is_running(&self, door: u32) -> bool
        ensures { result ≡ is_running self.now door }
    {
        self.has_forward(door) && self.queue.is_started()
    }

    // Whether an ask doesn't fit what the door has bound.
    fn is_lost(&self, door: u32, ask: &Ask) -> bool
        ensures { result ≡ is_lost self.now door ask.now }
    {
        match ask {
            Ask::Nothing => false,
            Ask::Quiet => false,
            Ask::Bind { instance } => {
                self.instance_of(door).is_some() || *instance as usize >= self.services.len()
            }
            Ask::Unbind => self.instance_of(door).is_none(),
            Ask::CltuStart { .. } => !self.has_forward(door) || self.queue.is_started(),
            Ask::CltuTransfer { .. } => !self.is_running(door),
            Ask::CltuStop => !self.is_running(door),
        }
    }

    /// What may radiate now.
    pub fn take(&mut self, reading: u128) -> Taken
        requires { reading < MOMENT_END }
        ensures after { self.new ≡ after self.old (take reading) }
        ensures reply { took result ≡ reply_to self.old (take reading) }
    {
        let now = self.peek(reading);
        self.moment = now;
        self.queue.take(now)
    }

    /// The radiation of a CLTU ended.
    pub fn done(&mut self, run: u64, id: u32, reading: u128)
        requires { reading < MOMENT_END }
        ensures { self.new ≡ after self.old (done run id reading) }
    {
        let now = self.peek(reading);
        self.moment = now;
        self.queue.done(run, id, now);
    }

    /// The radiation of a CLTU failed.
    pub fn interrupted(&mut self, run: u64, id: u32, reading: u128)
        requires { reading < MOMENT_END }
        ensures { self.new ≡ after self.old (interrupted run id reading) }
    {
        self.moment = self.peek(reading);
        self.queue.interrupted(run, id);
    }

    /// Production and uplink have these statuses from now on.
    pub fn uplink(&mut self, production: CltuProductionStatus, status: UplinkStatus, reading: u128)
        requires { reading < MOMENT_END }
        ensures { self.new ≡ after self.old (uplink production status reading) }
    {
        self.moment = self.peek(reading);
        self.queue.uplink(production, status);
    }

    /// A worker has ended. The antenna's worker has the last number.
    pub fn gone(&mut self, worker: u32)
        requires { worker ≤ self.old.opening.workers }
        ensures { self.new ≡ after self.old (gone worker) }
    {
        self.gone[worker as usize] = true;
    }

    /// Whether every worker but the antenna's is gone.
    pub fn all_gone(&self) -> bool
        ensures { result ≡ all_gone self.now }
    {
        self.gone[..self.workers as usize]
            .iter()
            .all(|is_gone| *is_gone)
    }

    /// The numbers of a status report.
    pub fn view(&self) -> UplinkView
        ensures { result ≡ view_of self.now.queue }
    {
        self.queue.view()
    }

    /// All that a book holds, a field each: there is no list of entries beside the shelf and the
    /// index.
    pub fn parts(&self) -> BookParts<'_>
        ensures opening { result.services.now.items ≡ self.now.opening.services }
        ensures limits { (result.room ≡ self.now.opening.room)
            × (result.longest ≡ self.now.opening.longest)
            × (result.workers ≡ self.now.opening.workers) }
        ensures first { prefix result.opening self.now.published ≡ self.now.opening.entries }
        ensures entries { entries_of result.entries.now ≡ self.now.published }
        ensures index { Indexes result.index.now self.now.published }
        ensures queue { result.queue.now ≡ self.now.queue }
        ensures doors { result.doors.now.items ≡ self.now.doors }
        ensures gone { result.gone.now ≡ self.now.gone }
        ensures moment { result.moment ≡ self.now.moment }
    {
        let Book {
            alloc,
            services,
            room,
            longest,
            workers,
            opening,
            entries,
            index,
            queue,
            doors,
            gone,
            moment,
        } = self;
        BookParts {
            alloc: *alloc,
            services,
            room: *room,
            longest: *longest,
            workers: *workers,
            opening: *opening,
            entries,
            index,
            queue,
            doors,
            gone,
            moment: *moment,
        }
    }
}
