// The world behind a script.
ghost use Rattle.std.specs.Prelude.{◌≡◌, ◌∷◌, [], false, true, IfOk, OnOk, OnErr, IsErrOf, IsTrue};
ghost use Rattle.archive_terms.specs.Archive.{IsArchive, is_valid};
ghost use Rattle.record_form.specs.Entry.{entry_of};
ghost use Rattle.station_book.specs.History.{after};
ghost use Rattle.station_book.specs.State.{publish};
ghost use Rattle.cds_time.specs.declared.cds.TheConstants.{MOMENT_END};
ghost use Rattle.station_config.specs.Validity.{IsSite};
ghost use Rattle.drill_text.specs.Reading.{Fits, HasValidEntry};
ghost use Rattle.station_law.specs.State.{State, start};
ghost use Rattle.script_store.specs.Said.{texts};
ghost use Rattle.station_law.specs.Standing.{AreDoors, Stands, HasDone, uplink_seen};
ghost use Rattle.station_law.specs.Does.{Steps, Does};
ghost use Rattle.station_law.specs.Doors.{Doors as Exchange, act, anew};
ghost use Rattle.sle_numbers.specs.RequestedFrameQuality.{number_of};
ghost use Rattle.station_law.specs.Desk.{desk};
ghost use Rattle.script_store.specs.Entries.{offer};
ghost use Rattle.script_store.specs.IsHeld.{KeepsAllOrNone};
ghost use Rattle.station_law.specs.Lines.{step, offered, recorded, connected, doors_by};
ghost use Rattle.station_law.specs.Lines.{turn_at, uplinked, turned_or_acted};
ghost use Rattle.station_uplink.specs.Turns.{turn_of};
ghost use Rattle.script_store.specs.Power.{crash_line, fault_line, fails_now};
ghost use Rattle.station_law.specs.Runs.{in_store};
ghost use Rattle.script_store.specs.Output.{Wrote};
ghost use Rattle.script_store.specs.Stopped.{IsStopped, HoldsAlone, Recovers};

use crate::desk::answer_start;
use crate::doors::Doors;
use crate::laws::one_archive_stays;
use crate::moment::moment;
use crate::said::put_turn;
use cds_time::Cds;
use disk_model::{MemoryDisk, Pick};
use drill_text::{ScriptLine, TranscriptLine};
use octet_core::{Memory, Sink};
use record_form::Entry;
use script_store::{Order, Outcome, Recorder, StepDone, Stop, Strike, pick_of, put_line};
use sle_numbers::RequestedFrameQuality;
use station_config::Site;
use station_uplink::{Turn, Uplink};
use std::alloc::Global;
use std::marker::Model;

/// A station in a script: what it stores on a disk in memory, its clock, and its doors.
///
/// Where memory is refused in the middle of a line, it runs no further line, and answers each with
/// want of memory.
#[derive(Drop)]
pub struct World {
    alloc: Global,
    recorder: Recorder,
    clock: u128,
    doors: Doors,
    uplink: Uplink,
}

impl Model for World {
    ghost use Rattle.std.specs.Prelude.{◌<◌};
    ghost use Rattle.cds_time.specs.declared.cds.TheConstants.{MOMENT_END};
    ghost use Rattle.station_law.specs.Standing.{Seen, AgreeUnless};

    ghost Value = { Seen };

    ghost view = { λ w. record {
      recorder = w.recorder;
      clock = w.clock;
      doors = w.doors;
      uplink = w.uplink;
    } };

    ghost invariant = { λ w. (w.clock < MOMENT_END)
        × AgreeUnless w.recorder.is_spent w.recorder.state w.doors };
}

impl World {
    /// The world of a site: its archive is made on an empty disk, its book is empty, nobody is
    /// connected, and its clock stands at 0/0/0.
    pub fn new(alloc: Global, site: Site) -> Result<World, Memory>
        requires { IsSite site }
        ensures state { IfOk result (λ world. Stands world (start site)) }
        ensures ready { IfOk result (λ world. world.recorder.is_spent ≡ false) }
    {
        let recorder = Recorder::new(alloc, site.capacity)?;
        let doors = Doors::new(alloc, site)?;
        Ok(World {
            alloc,
            recorder,
            clock: 0,
            doors,
            uplink: Uplink::new(alloc),
        })
    }

    /// The disk in memory, to be looked at. At each return of a call, also of one that was
    /// stopped, a recovery would find there all that is published, and of a store that isn't over
    /// all or nothing.
    pub fn disk(&self) -> &MemoryDisk
        ensures disk { result.now ≡ self.now.recorder.disk }
        ensures images { Recovers result.now self.now.recorder.state }
        ensures archive { self.now.recorder.is_spent ≡ false
            → IsArchive self.now.recorder.state.published }
        ensures alone { self.now.recorder.is_spent ≡ false
            → HoldsAlone result.now self.now.recorder.state.published }
    {
        self.recorder.disk()
    }

    /// Does what a line says, and writes its text: of a START's text no more is held than the
    /// message that is being written. What a line does is done before its text is written, so that
    /// it stays done where the text can't be written. At every moment of a line, also of one that
    /// is stopped, a recovery would find on the disk what was published before it, or that with
    /// all that the line gives to stores.
    pub fn step<O: Sink>(&mut self, line: &ScriptLine, output: &mut O) -> Result<StepDone, Stop>
        requires valid { HasValidEntry line.now }
        requires fits { Fits line.now }
        ensures written { (state : State) → Stands self.old state
            → Wrote (O.written output.old) (O.written output.new)
            (O.faults output.old) (O.faults output.new)
            (texts (step state line.now).said) result }
        ensures done { IfOk result (λ done. (state : State) → Stands self.old state
            → done ≡ (step state line.now).done) }
        ensures next { OnOk result ((state : State) → Stands self.old state
            → HasDone (step state line.now) self.new) }
        ensures write_fault { IsErrOf result Stop.WriteFault → (state : State)
            → Stands self.old state → HasDone (step state line.now) self.new }
        ensures stopped { OnErr result ((state : State) → Stands self.old state
            → IsStopped self.old.recorder (in_store (step state line.now)) self.new.recorder) }
        ensures images { self.old.recorder.is_spent ≡ false → (state : State)
            → Stands self.old state
            → KeepsAllOrNone self.old.recorder.disk self.new.recorder.disk state.store.published
            (step state line.now).given }
        ensures spent { self.old.recorder.is_spent ≡ true
            → IsErrOf result Stop.Memory × (self.new ≡ self.old) }
    {
        if self.recorder.is_spent() {
            return Err(Stop::Memory);
        }
        match line {
            ScriptLine::Skip => Ok(StepDone::Fine),
            ScriptLine::Offer(entry) => self.offer_line(entry, output),
            ScriptLine::Desk {
                start,
                stop,
                quality,
            } => self.desk_line(start, stop, *quality, output),
            ScriptLine::Clock(at) => {
                self.clock = moment(at);
                Ok(StepDone::Fine)
            }
            ScriptLine::Crash { k, pick } => self.crash_line(*k, pick_of(*pick), output),
            ScriptLine::Fault { k } => Ok(self.fault_line(*k)),
            _ => self.other_line(line, output),
        }
    }

    // Offers an entry, and writes what became of it, unless it was just stored.
    fn offer_line<O: Sink>(&mut self, entry: &Entry, output: &mut O) -> Result<StepDone, Stop>
        requires valid { IsTrue (is_valid (entry_of entry.now)) }
        requires ready { self.old.recorder.is_spent ≡ false }
        ensures does { Does (λ state. offered state (entry_of entry.now)) self.old self.new
            (O.written output.old) (O.written output.new)
            (O.faults output.old) (O.faults output.new) result }
        ensures images { KeepsAllOrNone self.old.recorder.disk self.new.recorder.disk
            self.old.recorder.state.published
            (offer self.old.recorder.state (entry_of entry.now)).given }
    {
        let outcome = self.offer(entry)?;
        outcome.put(self.alloc, output)?;
        Ok(outcome.done())
    }

    // Offers an entry, stores it as a batch of its own, and publishes it; or says what else became
    // of it.
    fn offer(&mut self, entry: &Entry) -> Result<Outcome, Memory>
        requires valid { IsTrue (is_valid (entry_of entry.now)) }
        requires ready { self.old.recorder.is_spent ≡ false }
        ensures steps { Steps (λ state. offered state (entry_of entry.now)) self.old self.new
            result }
        ensures images { KeepsAllOrNone self.old.recorder.disk self.new.recorder.disk
            self.old.recorder.state.published
            (offer self.old.recorder.state (entry_of entry.now)).given }
    {
        one_archive_stays();
        let Ok(outcome) = self.recorder.offer(entry) else {
            self.recorder.give_up();
            return Err(Memory);
        };
        follow(&mut self.recorder, &mut self.doors, outcome, entry)?;
        follow_air(&mut self.uplink, outcome);
        Ok(outcome)
    }

    // The power fails now, or at a later call of the disk.
    fn crash_line<O: Sink>(&mut self, k: u32, pick: Pick, output: &mut O) -> Result<StepDone, Stop>
        requires ready { self.old.recorder.is_spent ≡ false }
        ensures does { Does (λ state. recorded state (crash_line state.store k pick)) self.old
            self.new (O.written output.old) (O.written output.new)
            (O.faults output.old) (O.faults output.new) result }
        ensures images { HoldsAlone self.old.recorder.disk self.old.recorder.state.published
            → KeepsAllOrNone self.old.recorder.disk self.new.recorder.disk
            self.old.recorder.state.published [] }
    {
        if k == 0 {
            return self.crash_now(pick, output);
        }
        self.recorder.order(Order {
            calls: k as u64,
            strike: Strike::Stop(pick),
        });
        Ok(StepDone::Fine)
    }

    // The power fails now, and the archive is opened again.
    fn crash_now<O: Sink>(&mut self, pick: Pick, output: &mut O) -> Result<StepDone, Stop>
        requires ready { self.old.recorder.is_spent ≡ false }
        ensures does { Does (λ state. recorded state (fails_now state.store)) self.old self.new
            (O.written output.old) (O.written output.new)
            (O.faults output.old) (O.faults output.new) result }
        ensures images { KeepsAllOrNone self.old.recorder.disk self.new.recorder.disk
            self.old.recorder.state.published [] }
    {
        let outcome = self.fail_power(pick)?;
        outcome.put(self.alloc, output)?;
        Ok(outcome.done())
    }

    // The power fails; the archive is opened again, the book is new, and nobody is connected.
    fn fail_power(&mut self, pick: Pick) -> Result<Outcome, Memory>
        requires ready { self.old.recorder.is_spent ≡ false }
        ensures steps { Steps (λ state. recorded state (fails_now state.store)) self.old self.new
            result }
        ensures images { KeepsAllOrNone self.old.recorder.disk self.new.recorder.disk
            self.old.recorder.state.published [] }
    {
        let Ok(outcome) = self.recorder.fail_power(pick) else {
            self.recorder.give_up();
            return Err(Memory);
        };
        renew(&mut self.recorder, &mut self.doors)?;
        self.uplink.lose_air();
        Ok(outcome)
    }

    // A later call of the disk fails.
    fn fault_line(&mut self, k: u32) -> StepDone
        requires ready { self.old.recorder.is_spent ≡ false }
        ensures done { (state : State) → Stands self.old state
            → result ≡ (recorded state (fault_line state.store k)).done }
        ensures next { (state : State) → Stands self.old state
            → HasDone (recorded state (fault_line state.store k)) self.new }
        ensures disk { self.new.recorder.disk ≡ self.old.recorder.disk }
    {
        if k == 0 {
            return StepDone::WrongState;
        }
        self.recorder.order(Order {
            calls: k as u64,
            strike: Strike::Fail,
        });
        StepDone::Fine
    }

    // Answers a START of the desk.
    fn desk_line<O: Sink>(
        &self,
        start: &Cds,
        stop: &Cds,
        quality: RequestedFrameQuality,
        output: &mut O,
    ) -> Result<StepDone, Stop>
        requires ready { self.now.recorder.is_spent ≡ false }
        ensures written { Wrote (O.written output.old) (O.written output.new)
            (O.faults output.old) (O.faults output.new)
            (texts (desk self.now.recorder.state start.now stop.now (number_of quality)).said)
            result }
        ensures done { IfOk result (λ done. done ≡ StepDone.Fine) }
    {
        if moment(stop) < moment(start) {
            put_line(self.alloc, &TranscriptLine::Refused, output)?;
        } else {
            answer_start(self.alloc, self.doors.book(), start, stop, quality, output)?;
        }
        Ok(StepDone::Fine)
    }

    // Does a line that is a turn of the uplink, or else a connection's.
    fn other_line<O: Sink>(&mut self, line: &ScriptLine, output: &mut O) -> Result<StepDone, Stop>
        requires ready { self.old.recorder.is_spent ≡ false }
        requires fits { Fits line.now }
        ensures does { Does (λ state. turned_or_acted state line.now (turn_of line.now))
            self.old self.new (O.written output.old) (O.written output.new)
            (O.faults output.old) (O.faults output.new) result }
        ensures disk { self.new.recorder.disk ≡ self.old.recorder.disk }
    {
        match Turn::of(line) {
            Some(turn) => self.uplink_line(turn, output),
            None => self.doors_line(line, output),
        }
    }

    // Does a turn of the uplink, and writes what is said of it.
    fn uplink_line<O: Sink>(&mut self, turn: Turn, output: &mut O) -> Result<StepDone, Stop>
        requires ready { self.old.recorder.is_spent ≡ false }
        ensures does { Does (λ state. uplinked state (turn_at state turn)) self.old self.new
            (O.written output.old) (O.written output.new)
            (O.faults output.old) (O.faults output.new) result }
        ensures disk { self.new.recorder.disk ≡ self.old.recorder.disk }
    {
        let how = self.doors.turn(&mut self.uplink, turn, self.clock);
        put_turn(self.alloc, &how, output)
    }

    // Does a connection's line, and writes what is said of it.
    fn doors_line<O: Sink>(&mut self, line: &ScriptLine, output: &mut O) -> Result<StepDone, Stop>
        requires ready { self.old.recorder.is_spent ≡ false }
        requires fits { Fits line.now }
        ensures does { Does (λ state. connected state (act state.doors state.clock line.now))
            self.old self.new (O.written output.old) (O.written output.new)
            (O.faults output.old) (O.faults output.new) result }
        ensures disk { self.new.recorder.disk ≡ self.old.recorder.disk }
    {
        one_archive_stays();
        let Ok(said) = self.doors.act(line, self.clock) else {
            self.recorder.give_up();
            return Err(Stop::Memory);
        };
        let Some(said) = said else {
            return Ok(StepDone::WrongState);
        };
        said.put(self.alloc, output)?;
        Ok(StepDone::Fine)
    }
}

// The doors follow what became of an entry: one that was stored is published to the book.
fn follow(
    recorder: &mut Recorder,
    doors: &mut Doors,
    outcome: Outcome,
    entry: &Entry,
) -> Result<(), Memory>
    requires ready { recorder.old.is_spent ≡ false }
    ensures followed { OnOk result ((d : Exchange) → AreDoors doors.old d
        → AreDoors doors.new (doors_by outcome (entry_of entry.now)
        recorder.old.state.published d)) }
    ensures same { OnOk result (recorder.new ≡ recorder.old) }
    ensures spent { OnErr result (recorder.new ≡ record recorder.old { is_spent = true }) }
{
    match outcome {
        Outcome::Refused(_) => Ok(()),
        Outcome::Stored | Outcome::Failed { .. } => publish(recorder, doors, entry),
        Outcome::Crashed { .. } => renew(recorder, doors),
    }
}

// Nothing is in the air behind a power failure.
fn follow_air(uplink: &mut Uplink, outcome: Outcome)
    ensures { uplink.new ≡ uplink_seen outcome uplink.old }
{
    if let Outcome::Crashed { .. } = outcome {
        uplink.lose_air();
    }
}

// An entry that was stored is published to the book.
fn publish(recorder: &mut Recorder, doors: &mut Doors, entry: &Entry) -> Result<(), Memory>
    requires ready { recorder.old.is_spent ≡ false }
    ensures published { OnOk result (doors.new ≡ record doors.old {
      book = after doors.old.book (publish (entry_of entry.now ∷ []));
    }) }
    ensures same { OnOk result (recorder.new ≡ recorder.old) }
    ensures spent { OnErr result (recorder.new ≡ record recorder.old { is_spent = true }) }
{
    if doors.publish(entry).is_err() {
        recorder.give_up();
        return Err(Memory);
    }
    Ok(())
}

// The book is made new behind a recovery, and no connection is left.
fn renew(recorder: &mut Recorder, doors: &mut Doors) -> Result<(), Memory>
    requires ready { recorder.old.is_spent ≡ false }
    ensures renewed { OnOk result (AreDoors doors.new
        (anew doors.old.site recorder.old.state.published)) }
    ensures same { OnOk result (recorder.new ≡ recorder.old) }
    ensures spent { OnErr result (recorder.new ≡ record recorder.old { is_spent = true }) }
{
    let Ok(found) = recorder.entries() else {
        recorder.give_up();
        return Err(Memory);
    };
    if doors.renew(found).is_err() {
        recorder.give_up();
        return Err(Memory);
    }
    Ok(())
}
