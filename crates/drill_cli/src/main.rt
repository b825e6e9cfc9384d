// The provider's commands that work on no file, `drill` and `rehearse`, over the standard input and
// output.
//
// It stands on no crate of the other commands, so it is soon compiled: `bin/provider` tries it where
// the whole program wasn't proved yet. To it other words are no command.
#![tactic(auto)]

ghost use Rattle.std.specs.Prelude.{IfOk, OnErr, ℕ, List, map, string_bytes};
ghost use Rattle.command_ends.specs.Ends.{IsUntold};
ghost use Rattle.command_ends.specs.Outside.{showing};
ghost use Rattle.command_words.specs.Command.{asked, plan_of};
ghost use Rattle.script_commands.specs.Lawful.{IsLawful};
ghost use Rattle.drill_cli.specs.Served.{IsAnswered, IsServed};

use command_ends::{Status, tell};
use command_words::{Plan, plan, texts_of, words_of};
use octet_core::{ReaderSource, Sink, Source, WriterSink};
use script_commands::laws::every_script_is_lawful;
use script_commands::{drill, rehearse};
use std::alloc::{AllocError, Global};
use std::process::ExitCode;
use std::{env, io};

fn main(rt: HostRuntime) -> ExitCode {
    let mut input = ReaderSource::new(rt.reader());
    let mut output = WriterSink::new(io::writer(&rt));
    let words = words_of(rt.alloc(), env::args(&rt));
    ExitCode::from(exit_of(rt.alloc(), words, &mut input, &mut output))
}

// Runs the command of the words that the system gave, and answers the exit code to end with.
fn exit_of<I: Source, O: Sink>(
    alloc: Global,
    words: Result<Vec<String>, AllocError>,
    input: &mut I,
    output: &mut O,
) -> u8
    ensures answered { IfOk words (λ words. IsAnswered (plan_of (map string_bytes words.items))
        (showing (I.left input.old) (I.faults input.old)
        (O.written output.old) (O.faults output.old))
        (showing (I.left input.new) (I.faults input.new)
        (O.written output.new) (O.faults output.new))
        result) }
    ensures memory { OnErr words (IsUntold (O.written output.old) (O.written output.new)
        (O.faults output.old) (O.faults output.new) result) }
    ensures lawful { (script : List ℕ) → IsLawful script }
{
    every_script_is_lawful();
    let Ok(words) = words else {
        return Status::Memory.code();
    };
    match texts_of(alloc, words.as_slice()) {
        Ok(texts) => answer(alloc, texts.as_slice(), input, output),
        Err(_) => Status::Memory.code(),
    }
}

// Runs the command that the words are, and answers its exit code.
fn answer<I: Source, O: Sink>(alloc: Global, words: &[&str], input: &mut I, output: &mut O) -> u8
    ensures { IsAnswered (asked words.now)
        (showing (I.left input.old) (I.faults input.old)
        (O.written output.old) (O.faults output.old))
        (showing (I.left input.new) (I.faults input.new)
        (O.written output.new) (O.faults output.new))
        result }
{
    match plan(alloc, words) {
        Ok(Some(Plan::Drill)) => drill(alloc, input, output),
        Ok(Some(Plan::Rehearse { n })) => rehearse(alloc, n, output),
        Ok(_) => tell(b"usage\n", Status::Usage, output),
        Err(_) => Status::Memory.code(),
    }
}
