// A disk in memory, which stops and fails as it is told.
ghost use Rattle.std.specs.Prelude.{◌≡◌, ◌||◌, ℕ, Some, length, fold, OnOk, OnErr, IfOk, IsErr};
ghost use Rattle.std.specs.Prelude.{MatchOption, is_some, []};
ghost use Rattle.octet_core.specs.Fault.{FailsOnlyByFault};
ghost use Rattle.octet_core.specs.FailingCalls.{fails_next};
ghost use Rattle.disk_model.specs.Images.{IsImage, overwritten};
ghost use Rattle.disk_model.specs.Moments.{Elapses};
ghost use Rattle.disk_model.specs.MemoryDisk.{fresh, medium_of, content_of, pending_of, left_by};
ghost use Rattle.disk_model.specs.MemoryDisk.{steered, counted, with_call, with_refusal, stops_now};
ghost use Rattle.disk_model.specs.MemoryDisk.{IsImageSince, IsMadeCall, IsFailedCall, restarted};
ghost use Rattle.disk_model.specs.MemoryDisk.{replayed, replayed_call, replayed_write};

use crate::{Call, Disk, Event, Orders, Pick, Stop};
use octet_core::{Failed, FailingCalls, Faults, Memory, Octets};
use std::alloc::Global;
use std::marker::Model;

/// A disk in memory, which counts its calls of `write_at`, `cut` and `sync`, logs those that took
/// effect, and fails and stops as its owner steers it. A call that fails takes no effect, but for
/// the write or cut at which the disk stops, which is left to the pick. A disk that stopped fails
/// at each call, until it is restarted.
///
/// It is a double for tests and scripts: it keeps all octets that were ever written to it, in a log
/// that goes on over restarts, so that a moment is the number of events logged until then.
#[derive(Debug, Drop)]
pub struct MemoryDisk {
    alloc: Global,
    start: Vec<u8>,
    content: Vec<u8>,
    log: Vec<Event>,
    // What it held after so many events: when it was made, or after the last restart.
    base: Vec<u8>,
    based: usize,
    // How many events there were up to the last sync or restart.
    settled: usize,
    calls: FailingCalls,
    stop: Option<Stop>,
    stopped: Option<Pick>,
    faults: Faults,
    memory_refused: bool,
}

impl Model for MemoryDisk {
    ghost use Rattle.disk_model.specs.MemoryDisk.{DiskState, Agrees};

    ghost Value = { DiskState };

    ghost view = { λ disk. record {
      start = disk.start.items;
      log = disk.log.items;
      calls = disk.calls;
      stop = disk.stop;
      stopped = disk.stopped;
      faults = disk.faults;
      memory_refused = disk.memory_refused;
    } };

    ghost invariant = { λ disk. Agrees disk.start.items disk.log.items disk.content.items
        disk.base.items disk.based disk.settled };
}

impl MemoryDisk {
    /// A disk that holds nothing, and neither fails nor stops. It takes no memory.
    pub fn new(alloc: Global) -> MemoryDisk
        ensures { result ≡ fresh [] }
    {
        MemoryDisk {
            alloc,
            start: Vec::new(alloc),
            content: Vec::new(alloc),
            log: Vec::new(alloc),
            base: Vec::new(alloc),
            based: 0,
            settled: 0,
            calls: FailingCalls::new(Vec::new(alloc)),
            stop: None,
            stopped: None,
            faults: Faults::new(),
            memory_refused: false,
        }
    }

    /// A disk that holds these octets, all synced, and neither fails nor stops.
    pub fn holding(alloc: Global, octets: &[u8]) -> Result<MemoryDisk, Memory>
        ensures { IfOk result (λ disk. disk ≡ fresh octets.now) }
    {
        Ok(MemoryDisk {
            start: Vec::from_slice(alloc, octets)?,
            content: Vec::from_slice(alloc, octets)?,
            base: Vec::from_slice(alloc, octets)?,
            ..MemoryDisk::new(alloc)
        })
    }

    /// What a read gives.
    pub fn content(&self) -> &[u8]
        ensures { result.now ≡ content_of self.now }
    {
        self.content.as_slice()
    }

    /// What a stop would leave now by this pick.
    pub fn left_by(&self, pick: Pick) -> Result<Vec<u8>, Memory>
        ensures { IfOk result (λ image. image.items ≡ left_by pick (medium_of self.now)) }
    {
        let mut image = Vec::from_slice(self.alloc, &self.base)?;
        let (synced, pending) = self.log.split_at(self.settled);
        replay(self.alloc, &mut image, &synced[self.based..], Pick::New)?;
        replay(self.alloc, &mut image, pending, pick)?;
        Ok(image)
    }

    /// The counted calls that took effect since the disk was made, and its restarts, the oldest
    /// first.
    pub fn log(&self) -> &[Event]
        ensures { result.now ≡ self.now.log }
    {
        self.log.as_slice()
    }

    /// How often it has failed.
    pub fn faults(&self) -> u64
        ensures { result ≡ self.now.faults }
    {
        self.faults.count()
    }

    /// Whether memory was refused to a call.
    pub fn memory_refused(&self) -> bool
        ensures { result ≡ self.now.memory_refused }
    {
        self.memory_refused
    }

    /// Whether it has stopped, and wasn't restarted since.
    pub fn is_stopped(&self) -> bool
        ensures { result ≡ is_some self.now.stopped }
    {
        self.stopped.is_some()
    }

    /// Steers it: says which counted calls fail and where it stops, in the place of all orders
    /// before. A disk that stopped stays so. It is no call of the disk: it isn't counted, what the
    /// disk holds and may leave stays, and no moment passes.
    pub fn steer(&mut self, orders: Orders)
        ensures steered { self.new ≡ steered self.old orders }
        ensures medium { medium_of self.new ≡ medium_of self.old }
        ensures time { Elapses (length self.old.log) (length self.new.log) (IsImageSince self.old)
            (IsImageSince self.new) (Some (pending_of self.new)) }
        ensures moment { length self.new.log ≡ length self.old.log }
        ensures faults { self.new.faults ≡ self.old.faults }
    {
        self.calls = orders.failing;
        match orders.stop {
            Some(stop) if stop.calls == 0 => {
                self.stopped = self.stopped.or(Some(stop.pick));
                self.stop = None;
            }
            _ => self.stop = orders.stop,
        }
    }

    /// Starts a disk that stopped again: what the stop left is all that it holds, and the only
    /// image. A disk that didn't stop is left as it is.
    pub fn restart(&mut self) -> Result<(), Memory>
        ensures ok { OnOk result (MatchOption self.old.stopped (self.new ≡ self.old)
            (λ pick. self.new ≡ restarted self.old pick)) }
        ensures err { OnErr result (self.new ≡ self.old) }
        ensures image { OnOk result (IsImage (pending_of self.old) (content_of self.new)) }
        ensures time { Elapses (length self.old.log) (length self.new.log) (IsImageSince self.old)
            (IsImageSince self.new) (Some (pending_of self.new)) }
    {
        let Some(pick) = self.stopped else {
            return Ok(());
        };
        let base = self.left_by(pick)?;
        let content = Vec::from_slice(self.alloc, &base)?;
        self.log.push(Event::Restarted(pick))?;
        self.base = base;
        self.content = content;
        self.based = self.log.len();
        self.settled = self.log.len();
        self.stopped = None;
        Ok(())
    }

    // Makes a counted call.
    fn run(&mut self, call: Call) -> Result<(), Failed>
        ensures made { OnOk result (IsMadeCall self.old call self.new) }
        ensures failed { OnErr result (IsFailedCall self.old call self.new) }
        ensures cause { FailsOnlyByFault self.old.faults self.new.faults result }
    {
        let is_listed = self.calls.fails_next();
        let stops = self.count();
        let left_to_pick = stops && !matches!(call, Call::Sync);
        if (is_listed || self.stopped.is_some()) && !left_to_pick {
            return self.faults.fail();
        }
        if self.perform(call).is_err() {
            return self.refuse();
        }
        if left_to_pick {
            return self.faults.fail();
        }
        Ok(())
    }

    // Counts a call, and answers whether the disk stops at it.
    fn count(&mut self) -> bool
        ensures counted { self.new ≡ counted self.old }
        ensures stops { result ≡ stops_now self.old }
    {
        self.calls.count_call();
        let Some(stop) = self.stop else {
            return false;
        };
        if stop.calls > 1 {
            let calls = stop.calls - 1;
            self.stop = Some(Stop { calls, ..stop });
            return false;
        }
        self.stop = None;
        if self.stopped.is_some() {
            return false;
        }
        self.stopped = Some(stop.pick);
        true
    }

    // Makes the call take effect, or changes nothing where memory is refused.
    fn perform(&mut self, call: Call) -> Result<(), Memory>
        ensures ok { OnOk result (self.new ≡ with_call self.old call) }
        ensures err { OnErr result (self.new ≡ self.old) }
    {
        self.log.reserve(1)?;
        match &call {
            Call::Write { place, octets } => {
                overwrite(&mut self.content, *place as usize, octets.as_slice())?;
            }
            Call::Cut { size } => self.content.truncate(*size as usize),
            Call::Sync => self.settled = self.log.len() + 1,
        }
        match self.log.push(Event::Made(call)) {
            Ok(()) => Ok(()),
            Err(_) => unreachable!(),
        }
    }

    // Counts a fault for want of memory.
    fn refuse(&mut self) -> Result<(), Failed>
        ensures answer { IsErr result }
        ensures counted { self.new ≡ with_refusal self.old }
        ensures cause { FailsOnlyByFault self.old.faults self.new.faults result }
    {
        self.memory_refused = true;
        self.faults.fail()
    }
}

// Writes octets over those at a place, and past the end, or changes nothing where memory is
// refused.
fn overwrite(content: &mut Vec<u8>, place: usize, octets: &[u8]) -> Result<(), Memory>
    ensures ok { OnOk result (content.new.items ≡ overwritten content.old.items place octets.now) }
    ensures err { OnErr result (content.new.items ≡ content.old.items) }
{
    let place = place.min(content.len());
    let inside = octets.len().min(content.len() - place);
    content.extend_from_slice(&octets[inside..])?;
    content[place..place + inside].copy_from_slice(&octets[..inside]);
    Ok(())
}

// Replays the calls of events onto octets, with what the pick leaves of each write.
fn replay(alloc: Global, image: &mut Vec<u8>, events: &[Event], pick: Pick) -> Result<(), Memory>
    ensures { OnOk result (image.new.items ≡ fold (replayed pick) image.old.items events.now) }
{
    for event in events {
        if let Event::Made(call) = event {
            replay_call(alloc, image, call, pick)?;
        }
    }
    Ok(())
}

fn replay_call(alloc: Global, image: &mut Vec<u8>, call: &Call, pick: Pick) -> Result<(), Memory>
    ensures { OnOk result (image.new.items ≡ replayed_call pick image.old.items call.now) }
{
    match call {
        Call::Write { place, octets } => {
            replay_write(alloc, image, *place as usize, octets.as_slice(), pick)
        }
        Call::Cut { size } => {
            image.truncate(*size as usize);
            Ok(())
        }
        Call::Sync => Ok(()),
    }
}

fn replay_write(
    alloc: Global,
    image: &mut Vec<u8>,
    place: usize,
    octets: &[u8],
    pick: Pick,
) -> Result<(), Memory>
    ensures { OnOk result (image.new.items ≡ replayed_write pick image.old.items place octets.now) }
{
    match pick {
        Pick::Old => Ok(()),
        Pick::New => overwrite(image, place, octets),
        Pick::Torn => {
            let mut torn = Vec::from_slice(alloc, &octets[..octets.len() / 2])?;
            torn.resize(octets.len(), TORN)?;
            overwrite(image, place, &torn)
        }
    }
}

// What stands in the place of an octet that a torn write didn't reach.
const TORN: u8 = 0x5a;

impl Disk for MemoryDisk {
    ghost use Rattle.std.specs.Prelude.{refl};
    ghost use Rattle.disk_model.specs.MemoryDisk.{IsFailedRead};
    ghost use Rattle.disk_model.specs.MemoryDiskLaws.{is_coherent, counted_now, only_one_now};

    ghost pending = { λ disk. Some (pending_of disk) };

    ghost extent = { λ disk. length (content_of disk) };

    ghost moment = { λ disk. length disk.log };

    ghost images_since = { IsImageSince };

    ghost faults = { λ disk. disk.faults };

    ghost makes = { IsMadeCall };

    ghost fails = { IsFailedCall };

    ghost fails_to_read = { IsFailedRead };

    fn size(&self) -> u64 {
        self.content.len() as u64
    }

    /// A disk that stopped fails, and no other does.
    fn read_at(&mut self, place: u64, into: &mut [u8]) -> Result<(), Failed> {
        if self.stopped.is_some() {
            return self.faults.fail();
        }
        let place = place as usize;
        into.copy_from_slice(&self.content[place..place + into.len()]);
        Ok(())
    }

    fn write_at(&mut self, place: u64, octets: &[u8]) -> Result<(), Failed> {
        match Octets::copy_of(self.alloc, octets) {
            Ok(octets) => self.run(Call::Write { place, octets }),
            Err(_) => {
                self.count();
                self.refuse()
            }
        }
    }

    fn cut(&mut self, size: u64) -> Result<(), Failed> {
        self.run(Call::Cut { size })
    }

    fn sync(&mut self) -> Result<(), Failed> {
        self.run(Call::Sync)
    }

    ghost read_is_image = { is_coherent };

    ghost size_is_read = { λ disk. refl };

    ghost counts_now = { counted_now };

    ghost only_now = { only_one_now };
}
