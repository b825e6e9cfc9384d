// The provider's program over any input and output.
ghost use Rattle.std.specs.Prelude.{◌≡◌, None, Some, IfOk, IfErr, OnErr, IsSome};
ghost use Rattle.std.specs.IoError.{error_kind};
ghost use Rattle.run_plan.specs.RunPlan.{IsInRange};
ghost use Rattle.command_ends.specs.Outside.{showing};
ghost use Rattle.command_words.specs.Command.{asked, NeedsDisk};
ghost use Rattle.provider_commands.specs.Provided.{IsProvided, IsNoDisk};
ghost use Rattle.provider_commands.specs.Running.{AreReady, HasStarted, HasNotStarted, IsRan};
ghost use Rattle.provider_commands.specs.Running.{IsReady, NotStartedOn, StartedOn, IsUntouched};
ghost use Rattle.provider_commands.specs.Running.{IsHandedBack};
ghost use Rattle.provider_commands.specs.Running.{around, senses};

use crate::equipment::Equipment;
use antenna_core::Antenna;
use archive_commands::{init_archive, list_archive};
use cds_time::Clock;
use command_ends::{Status, tell};
use command_words::{Plan, plan};
use disk_model::Disk;
use door_model::Door;
use octet_core::{Sink, Source};
use recorder::FrameSource;
use rehearsal::laws::a_rehearsal_is_a_script;
use run_command::run;
use run_events::laws::a_run_is_events;
use run_laws::laws::a_run_only_calls_its_disk;
use run_plan::RunPlan;
use run_rounds::laws::sessions_make_starts;
use script_commands::laws::every_script_is_lawful;
use script_commands::{drill, rehearse};
use std::alloc::Global;
use std::io::ErrorKind;
use std::sync::Wait;
use std::thread::Threads;
use std::{io, rt};

/// Runs the command that the words are on the disk that was found for it, or says that none could
/// be had, and answers the exit code. For `run` it may wait, and so promises no return.
pub fn provide_on<
    R: Threads + Wait + rt::Clock + Sync,
    I: Source,
    O: Sink,
    D: Disk,
    G: Door,
    C: Clock,
    F: FrameSource,
    A: Antenna,
>(
    rt: &R,
    alloc: Global,
    words: &[&str],
    opening: io::Result<Option<D>>,
    kit: &mut Equipment<I, O, D, G, C, F, A>,
) -> u8
    requires disk { IfOk opening (λ disk. NeedsDisk (asked words.now) → IsSome disk) }
    requires ready { IfOk opening (λ _. AreReady (asked words.now) kit.old.doors.items
        kit.old.clocks.items kit.old.passes) }
    ensures provided { IfOk opening (λ disk. IsProvided
        D.pending D.extent D.moment D.images_since D.faults
        (asked words.now) disk kit.new.disk
        (showing (I.left kit.old.input) (I.faults kit.old.input)
        (O.written kit.old.output) (O.faults kit.old.output))
        (showing (I.left kit.new.input) (I.faults kit.new.input)
        (O.written kit.new.output) (O.faults kit.new.output))
        result) }
    ensures started { IfOk opening (λ disk. HasStarted D.pending D.faults D.moment D.images_since
        D.makes D.fails D.fails_to_read
        (senses F.answers F.faults A.sent A.faults G.shown G.faults G.Link.calls G.Link.faults
        C.readings)
        (asked words.now) kit.old.draw disk kit.new.disk
        (around kit.old) (around kit.new) kit.new.passes
        (showing (I.left kit.old.input) (I.faults kit.old.input)
        (O.written kit.old.output) (O.faults kit.old.output))
        (showing (I.left kit.new.input) (I.faults kit.new.input)
        (O.written kit.new.output) (O.faults kit.new.output))
        result) }
    ensures not_started { IfOk opening (λ disk. HasNotStarted D.pending D.faults D.moment
        D.images_since D.makes D.fails D.fails_to_read
        (asked words.now) disk kit.new.disk
        (around kit.old) (around kit.new) kit.new.passes
        (showing (I.left kit.old.input) (I.faults kit.old.input)
        (O.written kit.old.output) (O.faults kit.old.output))
        (showing (I.left kit.new.input) (I.faults kit.new.input)
        (O.written kit.new.output) (O.faults kit.new.output))
        result) }
    ensures calls { IfOk opening (λ disk. IsHandedBack D.makes D.fails D.fails_to_read disk
        kit.new.disk) }
    ensures untouched { IfOk opening (λ _. IsUntouched (asked words.now)
        (around kit.old) (around kit.new) kit.old.draw kit.new.draw kit.old.passes kit.new.passes) }
    ensures told { IfErr opening (λ error. IsNoDisk (error_kind error)
        (O.written kit.old.output) (O.written kit.new.output)
        (O.faults kit.old.output) (O.faults kit.new.output) result) }
    ensures unread { OnErr opening ((kit.new.input ≡ kit.old.input)
        × (kit.new.disk ≡ kit.old.disk) × (kit.new.passes ≡ kit.old.passes)
        × (around kit.new
        ≡ around kit.old)) }
{
    match opening {
        Ok(disk) => {
            kit.disk = disk;
            provide(rt, alloc, words, kit)
        }
        Err(error) => tell_no_disk(&error, &mut kit.output),
    }
}

// Says that a command's disk couldn't be had, and answers the exit code. Want of memory has no
// line.
fn tell_no_disk<O: Sink>(error: &io::Error, output: &mut O) -> u8
    ensures { IsNoDisk (error_kind error.now) (O.written output.old) (O.written output.new)
        (O.faults output.old) (O.faults output.new) result }
{
    if error.kind() == ErrorKind::OutOfMemory {
        Status::Memory.code()
    } else {
        tell(b"disk fault\n", Status::DiskFault, output)
    }
}

/// Runs the command that the words are, and answers its exit code. For `run` it may wait, and so
/// promises no return.
pub fn provide<
    R: Threads + Wait + rt::Clock + Sync,
    I: Source,
    O: Sink,
    D: Disk,
    G: Door,
    C: Clock,
    F: FrameSource,
    A: Antenna,
>(rt: &R, alloc: Global, words: &[&str], kit: &mut Equipment<I, O, D, G, C, F, A>) -> u8
    requires disk { NeedsDisk (asked words.now) → IsSome kit.old.disk }
    requires ready { AreReady (asked words.now) kit.old.doors.items kit.old.clocks.items
        kit.old.passes }
    ensures provided { IsProvided D.pending D.extent D.moment D.images_since D.faults
        (asked words.now) kit.old.disk kit.new.disk
        (showing (I.left kit.old.input) (I.faults kit.old.input)
        (O.written kit.old.output) (O.faults kit.old.output))
        (showing (I.left kit.new.input) (I.faults kit.new.input)
        (O.written kit.new.output) (O.faults kit.new.output))
        result }
    ensures started { HasStarted D.pending D.faults D.moment D.images_since D.makes D.fails
        D.fails_to_read
        (senses F.answers F.faults A.sent A.faults G.shown G.faults G.Link.calls G.Link.faults
        C.readings)
        (asked words.now) kit.old.draw kit.old.disk kit.new.disk
        (around kit.old) (around kit.new) kit.new.passes
        (showing (I.left kit.old.input) (I.faults kit.old.input)
        (O.written kit.old.output) (O.faults kit.old.output))
        (showing (I.left kit.new.input) (I.faults kit.new.input)
        (O.written kit.new.output) (O.faults kit.new.output))
        result }
    ensures not_started { HasNotStarted D.pending D.faults D.moment D.images_since D.makes D.fails
        D.fails_to_read
        (asked words.now) kit.old.disk kit.new.disk
        (around kit.old) (around kit.new) kit.new.passes
        (showing (I.left kit.old.input) (I.faults kit.old.input)
        (O.written kit.old.output) (O.faults kit.old.output))
        (showing (I.left kit.new.input) (I.faults kit.new.input)
        (O.written kit.new.output) (O.faults kit.new.output))
        result }
    ensures calls { IsHandedBack D.makes D.fails D.fails_to_read kit.old.disk kit.new.disk }
    ensures untouched { IsUntouched (asked words.now)
        (around kit.old) (around kit.new) kit.old.draw kit.new.draw kit.old.passes kit.new.passes }
{
    a_rehearsal_is_a_script();
    every_script_is_lawful();
    disk_model::laws::images_at_a_moment::<D>();
    match plan(alloc, words) {
        Ok(Some(Plan::Drill)) => drill(alloc, &mut kit.input, &mut kit.output),
        Ok(Some(Plan::Init { .. })) => {
            let (exit, disk) = init_archive(alloc, taken(&mut kit.disk), &mut kit.output);
            kit.disk = Some(disk);
            exit
        }
        Ok(Some(Plan::List { .. })) => {
            let (exit, disk) = list_archive(alloc, taken(&mut kit.disk), &mut kit.output);
            kit.disk = Some(disk);
            exit
        }
        Ok(Some(Plan::Rehearse { n })) => rehearse(alloc, n, &mut kit.output),
        Ok(Some(Plan::Run(plan))) => run_on(rt, alloc, &plan, kit),
        Ok(None) => tell(b"usage\n", Status::Usage, &mut kit.output),
        Err(_) => Status::Memory.code(),
    }
}

// Runs the station of a plan, and answers its exit code.
fn run_on<
    R: Threads + Wait + rt::Clock + Sync,
    I: Source,
    O: Sink,
    D: Disk,
    G: Door,
    C: Clock,
    F: FrameSource,
    A: Antenna,
>(rt: &R, alloc: Global, plan: &RunPlan, kit: &mut Equipment<I, O, D, G, C, F, A>) -> u8
    requires range { IsInRange plan.now }
    requires disk { IsSome kit.old.disk }
    requires ready { IsReady kit.old.doors.items kit.old.clocks.items kit.old.passes }
    ensures started { StartedOn D.pending D.faults D.moment D.images_since D.makes D.fails
        D.fails_to_read
        (senses F.answers F.faults A.sent A.faults G.shown G.faults G.Link.calls G.Link.faults
        C.readings)
        plan.now kit.old.draw kit.old.disk kit.new.disk
        (around kit.old) (around kit.new) kit.new.passes
        (showing (I.left kit.old.input) (I.faults kit.old.input)
        (O.written kit.old.output) (O.faults kit.old.output))
        (showing (I.left kit.new.input) (I.faults kit.new.input)
        (O.written kit.new.output) (O.faults kit.new.output))
        result }
    ensures not_started { NotStartedOn D.pending D.faults D.moment D.images_since D.makes D.fails
        D.fails_to_read
        kit.old.disk kit.new.disk
        (around kit.old) (around kit.new) kit.new.passes
        (showing (I.left kit.old.input) (I.faults kit.old.input)
        (O.written kit.old.output) (O.faults kit.old.output))
        (showing (I.left kit.new.input) (I.faults kit.new.input)
        (O.written kit.new.output) (O.faults kit.new.output))
        result }
    ensures ran { IsRan
        (showing (I.left kit.old.input) (I.faults kit.old.input)
        (O.written kit.old.output) (O.faults kit.old.output))
        (showing (I.left kit.new.input) (I.faults kit.new.input)
        (O.written kit.new.output) (O.faults kit.new.output))
        result }
    ensures calls { IsHandedBack D.makes D.fails D.fails_to_read kit.old.disk kit.new.disk }
{
    a_run_only_calls_its_disk::<D, F, A, G, C>();
    a_run_is_events::<D, F, A, G, C>();
    sessions_make_starts::<D, F, A, G, C>();
    let (exit, disk, passes) = run(
        rt,
        alloc,
        &mut kit.input,
        &mut kit.output,
        taken(&mut kit.disk),
        &mut kit.frames,
        &mut kit.antenna,
        &mut kit.antenna_clock,
        kit.doors.as_mut_slice(),
        kit.clocks.as_mut_slice(),
        plan.turns,
        plan.links,
        kit.draw,
    );
    kit.disk = Some(disk);
    kit.passes = passes;
    exit
}

// The disk that a kit has, taken out of it.
fn taken<D: Disk>(disk: &mut Option<D>) -> D
    requires { IsSome disk.old }
    ensures { disk.old ≡ Some result }
{
    let Some(disk) = disk.take() else {
        unreachable!();
    };
    disk
}
