// The words of the command line.
ghost use Rattle.std.specs.Prelude.{◌≡◌, IfOk, OnErr, map};
ghost use Rattle.command_words.specs.Command.{asked, of_more, of_two, rehearsal_of, NeedsDisk};
ghost use Rattle.command_words.specs.Command.{IsInRange};

use crate::commands::Plan;
use crate::number::frames_of;
use octet_core::{Memory, Octets};
use run_plan::RunPlan;
use std::alloc::Global;

/// Reads the words of the command line, and answers none where they are no command. It takes memory
/// for a path and for the words of a run alone.
pub fn plan(alloc: Global, words: &[&str]) -> Result<Option<Plan>, Memory>
    ensures plan { IfOk result (λ plan. plan ≡ asked words.now) }
    ensures range { IfOk result IsInRange }
    ensures memory { OnErr result (NeedsDisk (asked words.now)) }
{
    match words {
        [word] => Ok(if *word == "drill" {
            Some(Plan::Drill)
        } else {
            None
        }),
        [word, value] => plan_of_two(alloc, word, value),
        [word, others @ ..] => plan_of_more(alloc, word, others),
        [] => Ok(None),
    }
}

// Reads a command's word and the word behind it.
fn plan_of_two(alloc: Global, word: &str, value: &str) -> Result<Option<Plan>, Memory>
    ensures plan { IfOk result (λ plan. plan ≡ of_two word.now value.now) }
    ensures range { IfOk result IsInRange }
    ensures memory { OnErr result (NeedsDisk (of_two word.now value.now)) }
{
    if word == "init" {
        let path = Octets::copy_of(alloc, value.as_bytes())?;
        Ok(Some(Plan::Init { path }))
    } else if word == "list" {
        let path = Octets::copy_of(alloc, value.as_bytes())?;
        Ok(Some(Plan::List { path }))
    } else if word == "rehearse" {
        Ok(plan_of_rehearsal(value))
    } else {
        Ok(None)
    }
}

// Reads the number of frames of a rehearsal.
fn plan_of_rehearsal(value: &str) -> Option<Plan>
    ensures plan { result ≡ rehearsal_of value.now }
    ensures range { IsInRange result }
{
    match frames_of(value.as_bytes()) {
        Some(n) => Some(Plan::Rehearse { n }),
        None => None,
    }
}

// Reads a command's word and the words behind it, where they are two or more.
fn plan_of_more(alloc: Global, word: &str, others: &[&str]) -> Result<Option<Plan>, Memory>
    ensures plan { IfOk result (λ plan. plan
        ≡ of_more word.now (map (λ word. word.now) others.now)) }
    ensures range { IfOk result IsInRange }
    ensures memory { OnErr result (NeedsDisk (of_more word.now
        (map (λ word. word.now) others.now))) }
{
    if word != "run" {
        return Ok(None);
    }
    match RunPlan::read(alloc, others) {
        Ok(Some(plan)) => Ok(Some(Plan::Run(plan))),
        Ok(None) => Ok(None),
        Err(memory) => Err(memory),
    }
}
