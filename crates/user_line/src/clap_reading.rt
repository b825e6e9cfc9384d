// What clap is told of the commands, and what it reads.
ghost use Rattle.std.specs.Prelude.{◌≡◌, ◌∷◌, false, true, drop, length, take, IfOk, IfErr, map};
ghost use Rattle.clap.specs.Words.{app_of, kind_of, found_of, rows_of, takes};
ghost use Rattle.clap.specs.declared.builder.command.Command.TheViews.{out-Command as fields_of};
ghost use Rattle.clap.specs.declared.error.kind.ErrorKind.TheVariants.{OutOfMemory};
ghost use Rattle.clap.specs.Words.{subcommand_of, subcommand_rows_of};
ghost use Rattle.clap.specs.Words.{with_rule};
ghost use Rattle.user_line.specs.Clap.{positional, with_words, command_of, with_form, program};
ghost use Rattle.user_line.specs.Clap.{bare, values_in, value_in};
ghost use Rattle.user_line.specs.Line.{is_line, ids_of, name_of, texts_of};

use crate::form::Form;
use clap::{Arg, ArgMatches, Command, Error};
use std::alloc::{AllocError, Global};

// The words of a line that has a form, as clap gives them.
#[tactic(auto, using(crate::proofs::Forms::reads))]
pub(crate) fn values_of<'a>(
    alloc: Global,
    form: Form,
    line: &'a [&'a str],
) -> Result<Vec<&'a str>, Error>
    requires name { texts_of line.now ≡ name_of form ∷ drop 1 (texts_of line.now) }
    requires words { is_line form (drop 1 (texts_of line.now)) ≡ true }
    ensures ok { IfOk result (λ words. texts_of words.items ≡ drop 1 (texts_of line.now)) }
    ensures err { IfErr result (λ error. kind_of error ≡ OutOfMemory) }
{
    let matches = matches_of(alloc, line)?;
    let words = entered_values(alloc, &matches, ids_for(form, line))?;
    Ok(words)
}

// The names of a line's words, in order.
#[tactic(auto, using(crate::proofs::Values::texts_take, crate::proofs::Values::rest_counted, crate::proofs::Values::few_words))]
fn ids_for<'a>(form: Form, line: &[&str]) -> &'a [&'a str]
    requires { is_line form (drop 1 (texts_of line.now)) ≡ true }
    ensures { texts_of result.now ≡ take (length (drop 1 (texts_of line.now))) (ids_of form) }
{
    &form.ids()[..line.len().saturating_sub(1)]
}

// The words of the command that was entered.
fn entered_values<'a>(
    alloc: Global,
    matches: &ArgMatches<'a>,
    ids: &[&str],
) -> Result<Vec<&'a str>, AllocError>
    ensures { IfOk result (λ words. texts_of words.items
        ≡ values_in (texts_of ids.now) (subcommand_rows_of matches.now)) }
{
    match matches.subcommand() {
        Some((_, entered)) => values_at(alloc, entered, ids),
        None => Ok(Vec::new(alloc)),
    }
}

fn values_at<'a>(
    alloc: Global,
    matches: &ArgMatches<'a>,
    ids: &[&str],
) -> Result<Vec<&'a str>, AllocError>
    ensures { IfOk result (λ words. texts_of words.items
        ≡ map (value_in (rows_of (found_of matches.now))) (texts_of ids.now)) }
{
    let mut words = Vec::new(alloc);
    for id in ids {
        words.push(value_at(matches, id))?;
    }
    Ok(words)
}

#[tactic(auto, using(crate::proofs::Values::first_in_rows))]
fn value_at<'a>(matches: &ArgMatches<'a>, id: &str) -> &'a str
    ensures { result.now ≡ value_in (rows_of (found_of matches.now)) id.now }
{
    matches.get_str(id).unwrap_or("")
}

// What clap makes of a line. It fails for want of memory alone where it takes the line.
fn matches_of<'a>(alloc: Global, line: &'a [&'a str]) -> Result<ArgMatches<'a>, Error>
    ensures ok { IfOk result (λ matches. subcommand_rows_of matches
        ≡ subcommand_of program (texts_of line.now)) }
    ensures err { IfErr result (λ error. takes program (texts_of line.now) ≡ true
        → kind_of error ≡ OutOfMemory) }
{
    let command = program_of(alloc)?;
    command.try_get_matches_from(line)
}

// The program and its commands.
fn program_of<'a>(alloc: Global) -> Result<Command<'a>, AllocError>
    ensures { IfOk result (λ command. app_of command ≡ program) }
{
    let command = with_form(alloc, bare(alloc), Form::Show)?;
    let command = with_form(alloc, command, Form::Raf)?;
    let command = with_form(alloc, command, Form::Rcf)?;
    with_form(alloc, command, Form::Cltu)
}

// A program without commands, without help, and without its name in front of its words.
fn bare<'a>(alloc: Global) -> Command<'a>
    ensures { app_of result ≡ bare }
{
    Command::new(alloc, "user_cli")
        .no_binary_name(true)
        .disable_help_flag(true)
        .disable_help_subcommand(true)
        .subcommand_required(true)
}

// The program with a command more.
fn with_form<'a>(alloc: Global, command: Command<'a>, form: Form) -> Result<Command<'a>, AllocError>
    ensures { IfOk result (λ more. app_of more ≡ with_form (app_of command.entry) form) }
{
    command.subcommand(command_of(alloc, form)?)
}

// A command and its words.
fn command_of<'a>(alloc: Global, form: Form) -> Result<Command<'a>, AllocError>
    ensures app { IfOk result (λ command. app_of command ≡ command_of form) }
    ensures plain { IfOk result (λ command. (fields_of command).has_globals ≡ false) }
{
    let command = Command::new(alloc, form.name());
    let command = with_words(alloc, command, form.required(), true)?;
    with_words(alloc, command, form.further(), false)
}

// The command with words more.
fn with_words<'a>(
    alloc: Global,
    command: Command<'a>,
    ids: &'a [&'a str],
    required: bool,
) -> Result<Command<'a>, AllocError>
    ensures app { IfOk result (λ more. app_of more
        ≡ with_words required (app_of command.entry) (texts_of ids.entry.now)) }
    ensures plain { IfOk result (λ more. (fields_of more).has_globals
        ≡ (fields_of command.entry).has_globals) }
{
    let mut command = command;
    for id in ids {
        command = with_word(alloc, command, id, required)?;
    }
    Ok(command)
}

// The command with a word more, which must be there, or may be.
fn with_word<'a>(
    alloc: Global,
    command: Command<'a>,
    id: &'a str,
    required: bool,
) -> Result<Command<'a>, AllocError>
    ensures app { IfOk result (λ more. app_of more
        ≡ with_rule (app_of command.entry) (positional required id.entry.now)) }
    ensures plain { IfOk result (λ more. (fields_of more).has_globals
        ≡ (fields_of command.entry).has_globals) }
{
    command.arg(Arg::new(alloc, id).required(required))
}
