// What a user's program is to do.
ghost use Rattle.std.specs.Prelude.{◌≡◌, ◌≤◌, IfOk, IfSome, Some};
ghost use Rattle.user_line.specs.Line.{texts_of};
ghost use Rattle.user_words.specs.Plan.{port_read, turns_read, service_read, show_by};
ghost use Rattle.user_words.specs.Plan.{asked_by, talk_by, plan_by, asked_of_line, and_turns};
ghost use Rattle.user_words.specs.Plan.{FitsAsked, FitsPlan};

use crate::asked::Asked;
use crate::identity::Identity;
use crate::service_word::ServiceWord;
use crate::word::read_one;
use octet_core::Memory;
use sle_numbers::ServiceType;
use std::alloc::Global;
use user_line::{Form, Line};
use words::{Long, Short};

/// What a user's program is to do.
#[derive(Drop)]
pub enum Plan {
    /// It prints the messages of the input, which are of this service.
    Show {
        service: ServiceType,
    },
    /// It talks to a provider.
    Talk {
        /// The TCP port at which the provider listens, from 1.
        port: u16,
        identity: Identity,
        asked: Asked,
        /// How many polls it makes at most, 1 to 2^40.
        turns: u64,
    },
}

impl Plan {
    /// What the words of a command line ask for, the program's name left away; none where they are
    /// outside the grammar.
    pub fn read(alloc: Global, words: &[&str]) -> Result<Option<Plan>, Memory>
        ensures plan { IfOk result (λ plan. plan ≡ asked_of_line (texts_of words.now)) }
        ensures fits { IfOk result (λ plan. IfSome plan FitsPlan) }
    {
        match Line::read(alloc, words) {
            Ok(Some(line)) => read_values(alloc, line.form, line.words.as_slice()),
            Ok(None) => Ok(None),
            Err(why) => Err(why),
        }
    }
}

// What the words behind a command ask for.
fn read_values(alloc: Global, form: Form, words: &[&str]) -> Result<Option<Plan>, Memory>
    ensures plan { IfOk result (λ plan. plan ≡ plan_by form (texts_of words.now)) }
    ensures fits { IfOk result (λ plan. IfSome plan FitsPlan) }
{
    match form {
        Form::Show => read_show(alloc, words),
        _ => read_talk(alloc, form, words),
    }
}

fn read_show(alloc: Global, words: &[&str]) -> Result<Option<Plan>, Memory>
    ensures plan { IfOk result (λ plan. plan ≡ show_by (texts_of words.now)) }
    ensures fits { IfOk result (λ plan. IfSome plan FitsPlan) }
{
    let [service] = words else {
        return Ok(None);
    };
    match service_of(alloc, service)? {
        Some(service) => Ok(Some(Plan::Show { service })),
        None => Ok(None),
    }
}

// Where a provider listens, who the user is, and what it asks for.
fn read_talk(alloc: Global, form: Form, words: &[&str]) -> Result<Option<Plan>, Memory>
    ensures plan { IfOk result (λ plan. plan ≡ talk_by form (texts_of words.now)) }
    ensures fits { IfOk result (λ plan. IfSome plan FitsPlan) }
{
    let [port, name, pass, instance, others @ ..] = words else {
        return Ok(None);
    };
    let Some(port) = port_of(alloc, port)? else {
        return Ok(None);
    };
    let Some(identity) = Identity::read(alloc, name, pass, instance)? else {
        return Ok(None);
    };
    let Some((asked, turns)) = read_asked(alloc, form, others)? else {
        return Ok(None);
    };
    Ok(Some(Plan::Talk {
        port,
        identity,
        asked,
        turns,
    }))
}

// What is asked for, and how many polls are made at most.
fn read_asked(alloc: Global, form: Form, words: &[&str]) -> Result<Option<(Asked, u64)>, Memory>
    ensures exact { IfOk result (λ asked. asked ≡ asked_by form (texts_of words.now)) }
    ensures fits { IfOk result (λ asked. IfSome asked (λ a. FitsAsked a.0)) }
    ensures turns { IfOk result (λ asked. IfSome asked (λ a. (1 ≤ a.1) × (a.1 ≤ 1099511627776))) }
{
    match (form, words) {
        (Form::Raf, [start, stop, quality, turns, more @ ..]) => {
            with_turns(alloc, Asked::raf(alloc, start, stop, quality, more)?, turns)
        }
        (Form::Rcf, [start, stop, channel, turns, more @ ..]) => {
            with_turns(alloc, Asked::rcf(alloc, start, stop, channel, more)?, turns)
        }
        (Form::Cltu, [first, turns, more @ ..]) => {
            with_turns(alloc, Asked::cltu(alloc, first, more)?, turns)
        }
        _ => Ok(None),
    }
}

fn with_turns(
    alloc: Global,
    asked: Option<Asked>,
    turns: &str,
) -> Result<Option<(Asked, u64)>, Memory>
    ensures exact { IfOk result (λ both. both ≡ and_turns asked (turns_read turns.now)) }
    ensures same { IfOk result (λ both. IfSome both (λ b. asked ≡ Some b.0)) }
    ensures turns { IfOk result (λ both. IfSome both (λ b. (1 ≤ b.1) × (b.1 ≤ 1099511627776))) }
{
    let Some(asked) = asked else {
        return Ok(None);
    };
    match turns_of(alloc, turns)? {
        Some(turns) => Ok(Some((asked, turns))),
        None => Ok(None),
    }
}

#[tactic(auto, unfolding(crate::specs::Plan::service_read))]
fn service_of(alloc: Global, word: &str) -> Result<Option<ServiceType>, Memory>
    ensures { IfOk result (λ service. service ≡ service_read word.now) }
{
    read_one::<ServiceWord>(alloc, word)
}

#[tactic(auto, unfolding(crate::specs::Plan::port_read))]
fn port_of(alloc: Global, word: &str) -> Result<Option<u16>, Memory>
    ensures exact { IfOk result (λ port. port ≡ port_read word.now) }
    ensures range { IfOk result (λ port. IfSome port (λ n. 1 ≤ n)) }
{
    read_one::<Short<1, 65_535>>(alloc, word)
}

#[tactic(auto, unfolding(crate::specs::Plan::turns_read))]
fn turns_of(alloc: Global, word: &str) -> Result<Option<u64>, Memory>
    ensures exact { IfOk result (λ turns. turns ≡ turns_read word.now) }
    ensures range { IfOk result (λ turns. IfSome turns (λ n. (1 ≤ n) × (n ≤ 1099511627776))) }
{
    read_one::<Long<1, 1_099_511_627_776>>(alloc, word)
}
