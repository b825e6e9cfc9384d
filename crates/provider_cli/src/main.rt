// The ground station's provider, over its standard input and output, the file of a path, and for a
// station its sockets and its antenna's files.
//
// `provider_commands` has the commands, and `command_words` the words that ask for them. Here stand
// the disk over the file that a command names, what `run_host` has for a run, and what the program
// promises of the words that the system gave. No other command than `run` opens a socket.
#![tactic(auto)]

ghost use Rattle.std.specs.Prelude.{◌≡◌, true, false, None, Some, IfOk, IfErr, IfSome, OnErr};
ghost use Rattle.std.specs.Prelude.{IsSome, map, string_bytes};
ghost use Rattle.std.specs.IoError.{error_kind};
ghost use Rattle.std.specs.Str.{IsUtf8};
ghost use Rattle.std.specs.declared.io.ErrorKind.TheVariants.{InvalidInput};
ghost use Rattle.std.specs.Process.{exit_status};
ghost use Rattle.disk_model.specs.RawFile.{HasFile};
ghost use Rattle.run_plan.specs.RunPlan.{IsInRange};
ghost use Rattle.command_ends.specs.Ends.{IsUntold};
ghost use Rattle.command_ends.specs.Outside.{showing};
ghost use Rattle.command_words.specs.Command.{plan_of, asked, NeedsDisk};
ghost use Rattle.command_words.specs.declared.commands.Plan.TheVariants.{Run};
ghost use Rattle.provider_commands.specs.Provided.{IsAnswered, IsFileOf, IsOnFile, NamesNoText};
ghost use Rattle.provider_commands.specs.Running.{AreReady, IsRun, around, senses};

use antenna_core::Antenna;
use cds_time::Clock;
use command_ends::{Status, tell};
use command_words::{Plan, plan, texts_of, words_of};
use counted_calls::CountedDisk;
use disk_model::Disk;
use door_model::Door;
use link_model::Link;
use octet_core::{Octets, ReaderSource, Sink, Source, WriterSink};
use operator_side::{Stamped, Uptime};
use provider_commands::{Equipment, provide_on};
use recorder::FrameSource;
use run_host::{
    Capacity, Fullness, KeptInput, LateAntenna, LateFrames, LoggedDisk, MachineClock, MachineDoor,
    PlaceFault, RunFiles, RunPlace, RunSockets, SocketFault, StatusSide, StatusThread, draw_of,
    machine_clock, open_files, open_sockets, tell_end, text_of,
};
use run_plan::RunPlan;
use station_board::Board;
use std::alloc::{AllocError, Global};
use std::fs::Files;
use std::io::Eprint;
use std::net::{Net, TcpListener, TcpStream};
use std::process::ExitCode;
use std::random::RandomSource;
use std::sync::Wait;
use std::thread::Threads;
use std::{env, io, rt};

// A source of entries of the machine.
type MachineFrames<'a, R> = LateFrames<Stamped<'a, R>>;

// The disk over the archive's file, whose calls a status page counts.
type MachineDisk = CountedDisk<LoggedDisk>;

// What the program runs on.
type Kit<'a, R, I, O> = Equipment<
    I,
    O,
    MachineDisk,
    MachineDoor<'a, R>,
    MachineClock<'a, R>,
    MachineFrames<'a, R>,
    LateAntenna<'a>,
>;

fn main(rt: HostRuntime) -> ExitCode {
    let alloc = rt.alloc();
    let capacity = Capacity::new(alloc).ok();
    let mut kit = Equipment {
        input: KeptInput::new(alloc, ReaderSource::new(rt.reader()), shared(&capacity)),
        output: WriterSink::new(io::writer(&rt)),
        disk: None,
        doors: Vec::new(alloc),
        clocks: Vec::new(alloc),
        frames: LateFrames {
            feed: None,
            fullness: None,
        },
        antenna: LateAntenna::none(),
        antenna_clock: machine_clock(&rt),
        draw: 0,
        passes: None,
    };
    let words = words_of(alloc, env::args(&rt));
    let host = Host {
        files: &rt,
        rt: &rt,
        alloc,
        capacity,
    };
    host.exit_of(words, &mut kit)
}

// The same capacity, for another that sees it.
fn shared(capacity: &Option<Capacity>) -> Option<Capacity> {
    match capacity {
        Some(capacity) => capacity.share().ok(),
        None => None,
    }
}

// The same board, for another that writes on it.
fn shared_board(board: &Option<Board>) -> Option<Board> {
    board.as_ref()?.share().ok()
}

// The disk over a new file at this path.
fn made(files: &HostRuntime, path: &Octets) -> io::Result<MachineDisk>
    ensures file { IfOk result (λ disk. HasFile path.now true disk.file None) }
    ensures no_text { IfErr result (λ error. ¬ IsUtf8 path.now
        → error_kind error ≡ InvalidInput) }
{
    Ok(CountedDisk::new(LoggedDisk::create(files, text_of(path)?)?, None))
}

// The disk over the file at this path.
fn opened(files: &HostRuntime, path: &Octets) -> io::Result<MachineDisk>
    ensures file { IfOk result (λ disk. HasFile path.now false disk.file None) }
    ensures no_text { IfErr result (λ error. ¬ IsUtf8 path.now
        → error_kind error ≡ InvalidInput) }
{
    Ok(CountedDisk::new(LoggedDisk::open(files, text_of(path)?)?, None))
}

// The machine that the program runs on: its files, and its threads, sockets and clock.
#[derive(Drop)]
struct Host<'a, R> {
    files: &'a HostRuntime,
    rt: &'a R,
    alloc: Global,
    // What a run's configuration says of its archive's capacity.
    capacity: Option<Capacity>,
}

impl<'a, R> Host<'a, R>
where
    R: Threads
        + Wait
        + rt::Clock
        + Files
        + Net<Stream = TcpStream, Listener = TcpListener>
        + RandomSource
        + Eprint
        + Sync
        + Clone
        + Send
        + Drop
        + 'static,
{
    // Runs the command of the words that the system gave, and answers the exit code to end with.
    fn exit_of<I: Source, O: Sink>(
        &self,
        words: Result<Vec<String>, AllocError>,
        kit: &mut Kit<'a, R, I, O>,
    ) -> ExitCode
        requires { kit.old.passes ≡ None }
        ensures answered { IfOk words (λ words. IsAnswered
            (senses ⟦<MachineFrames<'a, R> as FrameSource>⟧.answers
            ⟦<MachineFrames<'a, R> as FrameSource>⟧.faults ⟦<LateAntenna<'a> as Antenna>⟧.sent
            ⟦<LateAntenna<'a> as Antenna>⟧.faults ⟦<MachineDoor<'a, R> as Door>⟧.shown
            ⟦<MachineDoor<'a, R> as Door>⟧.faults
            ⟦<<MachineDoor<'a, R> as Door>::Link as Link>⟧.calls
            ⟦<<MachineDoor<'a, R> as Door>::Link as Link>⟧.faults
            ⟦<MachineClock<'a, R> as Clock>⟧.readings)
            (plan_of (map string_bytes words.items))
            (around kit.old) (around kit.new) kit.new.disk kit.new.passes
            (showing (I.left kit.old.input) (I.faults kit.old.input)
            (O.written kit.old.output) (O.faults kit.old.output))
            (showing (I.left kit.new.input) (I.faults kit.new.input)
            (O.written kit.new.output) (O.faults kit.new.output))
            (exit_status result)) }
        ensures memory { OnErr words (IsUntold (O.written kit.old.output) (O.written kit.new.output)
            (O.faults kit.old.output) (O.faults kit.new.output) (exit_status result)) }
        ensures unread { OnErr words (kit.new.input ≡ kit.old.input) }
    {
        match words {
            Ok(words) => ExitCode::from(self.answer(words.as_slice(), kit)),
            Err(_) => ExitCode::from(Status::Memory.code()),
        }
    }

    // Runs the command of these words on the kit, and on the file that they name, and answers its exit
    // code.
    fn answer<I: Source, O: Sink>(&self, words: &[String], kit: &mut Kit<'a, R, I, O>) -> u8
        requires { kit.old.passes ≡ None }
        ensures { IsAnswered
            (senses ⟦<MachineFrames<'a, R> as FrameSource>⟧.answers
            ⟦<MachineFrames<'a, R> as FrameSource>⟧.faults ⟦<LateAntenna<'a> as Antenna>⟧.sent
            ⟦<LateAntenna<'a> as Antenna>⟧.faults ⟦<MachineDoor<'a, R> as Door>⟧.shown
            ⟦<MachineDoor<'a, R> as Door>⟧.faults
            ⟦<<MachineDoor<'a, R> as Door>::Link as Link>⟧.calls
            ⟦<<MachineDoor<'a, R> as Door>::Link as Link>⟧.faults
            ⟦<MachineClock<'a, R> as Clock>⟧.readings)
            (plan_of (map string_bytes words.now))
            (around kit.old) (around kit.new) kit.new.disk kit.new.passes
            (showing (I.left kit.old.input) (I.faults kit.old.input)
            (O.written kit.old.output) (O.faults kit.old.output))
            (showing (I.left kit.new.input) (I.faults kit.new.input)
            (O.written kit.new.output) (O.faults kit.new.output))
            result }
    {
        match texts_of(self.alloc, words) {
            Ok(texts) => self.provide_asked(texts.as_slice(), kit),
            Err(_) => Status::Memory.code(),
        }
    }

    // Runs the command of these words on the kit, and on the file that they name: `init` makes it where
    // there is none, no other command does.
    fn provide_asked<I: Source, O: Sink>(&self, words: &[&str], kit: &mut Kit<'a, R, I, O>) -> u8
        requires { kit.old.passes ≡ None }
        ensures { IsAnswered
            (senses ⟦<MachineFrames<'a, R> as FrameSource>⟧.answers
            ⟦<MachineFrames<'a, R> as FrameSource>⟧.faults ⟦<LateAntenna<'a> as Antenna>⟧.sent
            ⟦<LateAntenna<'a> as Antenna>⟧.faults ⟦<MachineDoor<'a, R> as Door>⟧.shown
            ⟦<MachineDoor<'a, R> as Door>⟧.faults
            ⟦<<MachineDoor<'a, R> as Door>::Link as Link>⟧.calls
            ⟦<<MachineDoor<'a, R> as Door>::Link as Link>⟧.faults
            ⟦<MachineClock<'a, R> as Clock>⟧.readings)
            (asked words.now)
            (around kit.old) (around kit.new) kit.new.disk kit.new.passes
            (showing (I.left kit.old.input) (I.faults kit.old.input)
            (O.written kit.old.output) (O.faults kit.old.output))
            (showing (I.left kit.new.input) (I.faults kit.new.input)
            (O.written kit.new.output) (O.faults kit.new.output))
            result }
    {
        match plan(self.alloc, words) {
            Ok(Some(Plan::Run(run))) => self.provide_run(words, &run, kit),
            Ok(Some(Plan::Init { path })) => {
                self.provide_found(words, made(self.files, &path), kit)
            },
            Ok(Some(Plan::List { path })) => {
                self.provide_found(words, opened(self.files, &path), kit)
            },
            Ok(Some(Plan::Drill)) => self.provide_over(self.rt, words, None, kit),
            Ok(Some(Plan::Rehearse { .. })) => self.provide_over(self.rt, words, None, kit),
            Ok(None) => self.provide_over(self.rt, words, None, kit),
            Err(_) => Status::Memory.code(),
        }
    }

    // Runs the command of these words on the kit, over the file that was found for them.
    fn provide_found<I: Source, O: Sink>(
        &self,
        words: &[&str],
        found: io::Result<MachineDisk>,
        kit: &mut Kit<'a, R, I, O>,
    ) -> u8
        requires needs { NeedsDisk (asked words.now) }
        requires other { ¬ IsRun (asked words.now) }
        requires file { IfOk found (λ disk. IsFileOf (asked words.now) disk.file) }
        requires no_text { IfErr found (λ error. NamesNoText (asked words.now)
            → error_kind error ≡ InvalidInput) }
        requires first { kit.old.passes ≡ None }
        ensures { IsAnswered
            (senses ⟦<MachineFrames<'a, R> as FrameSource>⟧.answers
            ⟦<MachineFrames<'a, R> as FrameSource>⟧.faults ⟦<LateAntenna<'a> as Antenna>⟧.sent
            ⟦<LateAntenna<'a> as Antenna>⟧.faults ⟦<MachineDoor<'a, R> as Door>⟧.shown
            ⟦<MachineDoor<'a, R> as Door>⟧.faults
            ⟦<<MachineDoor<'a, R> as Door>::Link as Link>⟧.calls
            ⟦<<MachineDoor<'a, R> as Door>::Link as Link>⟧.faults
            ⟦<MachineClock<'a, R> as Clock>⟧.readings)
            (asked words.now)
            (around kit.old) (around kit.new) kit.new.disk kit.new.passes
            (showing (I.left kit.old.input) (I.faults kit.old.input)
            (O.written kit.old.output) (O.faults kit.old.output))
            (showing (I.left kit.new.input) (I.faults kit.new.input)
            (O.written kit.new.output) (O.faults kit.new.output))
            result }
    {
        match found {
            Ok(disk) => self.provide_over(self.rt, words, Some(disk), kit),
            Err(error) => provide_on(self.rt, self.alloc, words, Err(error), kit),
        }
    }

    // Runs the command of these words on the kit with a runtime, over the file that was found for
    // them, if they need one.
    fn provide_over<Q: Threads + Wait + rt::Clock + Sync, I: Source, O: Sink>(
        &self,
        rt: &Q,
        words: &[&str],
        disk: Option<MachineDisk>,
        kit: &mut Kit<'a, R, I, O>,
    ) -> u8
        requires given { NeedsDisk (asked words.now) → IsSome disk }
        requires file { IfSome disk (λ disk. IsFileOf (asked words.now) disk.file) }
        requires ready { AreReady (asked words.now) kit.old.doors.items kit.old.clocks.items
            kit.old.passes }
        requires first { kit.old.passes ≡ None }
        ensures { IsOnFile
            (senses ⟦<MachineFrames<'a, R> as FrameSource>⟧.answers
            ⟦<MachineFrames<'a, R> as FrameSource>⟧.faults ⟦<LateAntenna<'a> as Antenna>⟧.sent
            ⟦<LateAntenna<'a> as Antenna>⟧.faults ⟦<MachineDoor<'a, R> as Door>⟧.shown
            ⟦<MachineDoor<'a, R> as Door>⟧.faults
            ⟦<<MachineDoor<'a, R> as Door>::Link as Link>⟧.calls
            ⟦<<MachineDoor<'a, R> as Door>::Link as Link>⟧.faults
            ⟦<MachineClock<'a, R> as Clock>⟧.readings)
            (asked words.now)
            (around kit.old) (around kit.new) kit.new.disk kit.new.passes
            (showing (I.left kit.old.input) (I.faults kit.old.input)
            (O.written kit.old.output) (O.faults kit.old.output))
            (showing (I.left kit.new.input) (I.faults kit.new.input)
            (O.written kit.new.output) (O.faults kit.new.output))
            result }
    {
        provide_on(rt, self.alloc, words, Ok(disk), kit)
    }

    // Runs the station of a plan, where the environment says of it. It tells on standard error how the
    // run ended.
    fn provide_run<I: Source, O: Sink>(
        &self,
        words: &[&str],
        run: &RunPlan,
        kit: &mut Kit<'a, R, I, O>,
    ) -> u8
        requires asks { asked words.now ≡ Some (Run run.now) }
        requires range { IsInRange run.now }
        requires first { kit.old.passes ≡ None }
        ensures { IsAnswered
            (senses ⟦<MachineFrames<'a, R> as FrameSource>⟧.answers
            ⟦<MachineFrames<'a, R> as FrameSource>⟧.faults ⟦<LateAntenna<'a> as Antenna>⟧.sent
            ⟦<LateAntenna<'a> as Antenna>⟧.faults ⟦<MachineDoor<'a, R> as Door>⟧.shown
            ⟦<MachineDoor<'a, R> as Door>⟧.faults
            ⟦<<MachineDoor<'a, R> as Door>::Link as Link>⟧.calls
            ⟦<<MachineDoor<'a, R> as Door>::Link as Link>⟧.faults
            ⟦<MachineClock<'a, R> as Clock>⟧.readings)
            (asked words.now)
            (around kit.old) (around kit.new) kit.new.disk kit.new.passes
            (showing (I.left kit.old.input) (I.faults kit.old.input)
            (O.written kit.old.output) (O.faults kit.old.output))
            (showing (I.left kit.new.input) (I.faults kit.new.input)
            (O.written kit.new.output) (O.faults kit.new.output))
            result }
    {
        let place = match RunPlace::read(self.files) {
            Ok(place) => place,
            Err(PlaceFault::Form) => return tell(b"usage\n", Status::Usage, &mut kit.output),
            Err(PlaceFault::Memory) => return Status::Memory.code(),
        };
        let exit = self.provide_at(words, run, place, kit);
        tell_end(self.rt, self.alloc, exit);
        exit
    }

    // Runs the station of a plan at a place, over its files.
    fn provide_at<I: Source, O: Sink>(
        &self,
        words: &[&str],
        run: &RunPlan,
        place: RunPlace,
        kit: &mut Kit<'a, R, I, O>,
    ) -> u8
        requires asks { asked words.now ≡ Some (Run run.now) }
        requires range { IsInRange run.now }
        requires first { kit.old.passes ≡ None }
        ensures { IsAnswered
            (senses ⟦<MachineFrames<'a, R> as FrameSource>⟧.answers
            ⟦<MachineFrames<'a, R> as FrameSource>⟧.faults ⟦<LateAntenna<'a> as Antenna>⟧.sent
            ⟦<LateAntenna<'a> as Antenna>⟧.faults ⟦<MachineDoor<'a, R> as Door>⟧.shown
            ⟦<MachineDoor<'a, R> as Door>⟧.faults
            ⟦<<MachineDoor<'a, R> as Door>::Link as Link>⟧.calls
            ⟦<<MachineDoor<'a, R> as Door>::Link as Link>⟧.faults
            ⟦<MachineClock<'a, R> as Clock>⟧.readings)
            (asked words.now)
            (around kit.old) (around kit.new) kit.new.disk kit.new.passes
            (showing (I.left kit.old.input) (I.faults kit.old.input)
            (O.written kit.old.output) (O.faults kit.old.output))
            (showing (I.left kit.new.input) (I.faults kit.new.input)
            (O.written kit.new.output) (O.faults kit.new.output))
            result }
    {
        let RunFiles { disk, antenna } = match open_files(self.files, run) {
            Ok(files) => files,
            Err(error) => return provide_on(self.rt, self.alloc, words, Err(error), kit),
        };
        kit.antenna = LateAntenna::over(antenna);
        match open_sockets(self.rt, self.alloc, Uptime::new(self.files), run, place) {
            Ok(sockets) => {
                kit.frames.fullness = self.fullness_of(run);
                self.provide_wired(words, disk, sockets, kit)
            }
            Err(SocketFault::Port) => tell(b"read fault\n", Status::ReadFault, &mut kit.output),
            Err(SocketFault::Wait) => tell(b"read fault\n", Status::ReadFault, &mut kit.output),
            Err(SocketFault::Memory) => Status::Memory.code(),
        }
    }

    // What watches a run's archive, by the capacity that its configuration will say.
    fn fullness_of(&self, run: &RunPlan) -> Option<Fullness> {
        let capacity = self.capacity.as_ref()?;
        capacity.ask();
        Fullness::new(self.files, &run.path, capacity)
    }

    // Runs the station of the words over its file and its sockets.
    fn provide_wired<I: Source, O: Sink>(
        &self,
        words: &[&str],
        disk: LoggedDisk,
        sockets: RunSockets<'a, R>,
        kit: &mut Kit<'a, R, I, O>,
    ) -> u8
        requires runs { IsRun (asked words.now) }
        requires file { IsFileOf (asked words.now) disk.file }
        requires ready { AreReady (asked words.now) sockets.doors.items sockets.clocks.items
            kit.old.passes }
        requires first { kit.old.passes ≡ None }
        ensures { IsOnFile
            (senses ⟦<MachineFrames<'a, R> as FrameSource>⟧.answers
            ⟦<MachineFrames<'a, R> as FrameSource>⟧.faults ⟦<LateAntenna<'a> as Antenna>⟧.sent
            ⟦<LateAntenna<'a> as Antenna>⟧.faults ⟦<MachineDoor<'a, R> as Door>⟧.shown
            ⟦<MachineDoor<'a, R> as Door>⟧.faults
            ⟦<<MachineDoor<'a, R> as Door>::Link as Link>⟧.calls
            ⟦<<MachineDoor<'a, R> as Door>::Link as Link>⟧.faults
            ⟦<MachineClock<'a, R> as Clock>⟧.readings)
            (asked words.now)
            (around kit.old) (around kit.new) kit.new.disk kit.new.passes
            (showing (I.left kit.old.input) (I.faults kit.old.input)
            (O.written kit.old.output) (O.faults kit.old.output))
            (showing (I.left kit.new.input) (I.faults kit.new.input)
            (O.written kit.new.output) (O.faults kit.new.output))
            result }
    {
        kit.doors = sockets.doors;
        kit.clocks = sockets.clocks;
        kit.frames.feed = Some(sockets.frames);
        kit.antenna_clock = sockets.antenna_clock;
        kit.antenna.bells = Some(sockets.bells);
        kit.draw = draw_of(self.rt);
        let (board, thread) = self.watched(sockets.status, &disk);
        kit.antenna.count_on(shared_board(&board));
        let disk = CountedDisk::new(disk, board);
        let exit = self.provide_over(&sockets.resting, words, Some(disk), kit);
        self.end_watch(thread);
        exit
    }

    // Starts what a run over this disk is watched by, if anything is, and answers its board.
    fn watched(
        &self,
        status: Option<StatusSide>,
        disk: &LoggedDisk,
    ) -> (Option<Board>, Option<StatusThread>) {
        let Some(mut status) = status else {
            return (None, None);
        };
        status.board.archive_opened(disk.size());
        status.capacity = shared(&self.capacity);
        let board = status.board.share().ok();
        let thread = StatusThread::start(self.rt, self.alloc, status);
        (board, thread.ok().flatten())
    }

    // Ends what a run was watched by.
    fn end_watch(&self, thread: Option<StatusThread>) {
        if let Some(thread) = thread {
            thread.end(self.rt);
        }
    }
}
