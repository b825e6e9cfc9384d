// The words behind `run`.
ghost use Rattle.std.specs.Prelude.{◌≡◌, ◌≤◌, IfOk, OnErr, IfSome, IsSome, is_some, length, map};
ghost use Rattle.run_plan.specs.RunPlan.{asked, plan_of, turns_read, links_read, port_read};
ghost use Rattle.run_plan.specs.RunPlan.{ports_read, IsInRange};

use crate::number::number;
use crate::ports::Ports;
use octet_core::{Memory, Octets};
use std::alloc::Global;

// The most doors of a station.
const MOST_DOORS: usize = 16;

/// What `run` is to do.
#[derive(Debug, Drop)]
pub struct RunPlan {
    /// How many turns each worker has, 10 to 2^40.
    pub turns: u64,
    /// How many links each door serves at most, 1 to 65,536.
    pub links: u32,
    /// The path of the archive's file, the octets of a text.
    pub path: Octets,
    /// The TCP port of the source of entries, from 1.
    pub feed: u16,
    /// The path of the file that takes CLTUs, the octets of a text.
    pub antenna: Octets,
    /// The TCP port of each door, from 1: 1 to 16 of them.
    pub ports: Ports,
}

impl RunPlan {
    /// What the words behind `run` ask for, and none where they ask for nothing. Words that ask for
    /// nothing take no memory.
    pub fn read(alloc: Global, words: &[&str]) -> Result<Option<RunPlan>, Memory>
        ensures plan { IfOk result (λ plan. plan ≡ asked words.now) }
        ensures range { IfOk result (λ plan. IfSome plan IsInRange) }
        ensures memory { OnErr result (IsSome (asked words.now)) }
    {
        match words {
            [turns, links, path, feed, antenna, doors @ ..] => {
                read_words(alloc, turns, links, path, feed, antenna, doors)
            }
            _ => Ok(None),
        }
    }
}

// What these words ask for.
#[tactic(auto, using(crate::proofs::PortsRead::planned))]
fn read_words(
    alloc: Global,
    turns: &str,
    links: &str,
    path: &str,
    feed: &str,
    antenna: &str,
    doors: &[&str],
) -> Result<Option<RunPlan>, Memory>
    ensures plan { IfOk result (λ plan. plan ≡ plan_of turns.now links.now path.now feed.now
        antenna.now (map (λ word. word.now) doors.now)) }
    ensures range { IfOk result (λ plan. IfSome plan IsInRange) }
    ensures memory { OnErr result (IsSome (plan_of turns.now links.now path.now feed.now
        antenna.now (map (λ word. word.now) doors.now))) }
{
    if doors.is_empty() || doors.len() > MOST_DOORS {
        return Ok(None);
    }
    let (Some(turns), Some(links), Some(feed)) = (turns_of(turns), links_of(links), port_of(feed))
    else {
        return Ok(None);
    };
    let Some(ports) = ports_of(alloc, doors)? else {
        return Ok(None);
    };
    let path = Octets::copy_of(alloc, path.as_bytes())?;
    let antenna = Octets::copy_of(alloc, antenna.as_bytes())?;
    Ok(Some(RunPlan {
        turns,
        links,
        path,
        feed,
        antenna,
        ports,
    }))
}

#[tactic(auto, unfolding(crate::specs::RunPlan::turns_read))]
fn turns_of(word: &str) -> Option<u64>
    ensures exact { result ≡ turns_read word.now }
    ensures range { IfSome result (λ n. (10 ≤ n) × (n ≤ 1099511627776)) }
{
    number(word.as_bytes(), 10, 1_099_511_627_776)
}

#[tactic(auto, unfolding(crate::specs::RunPlan::links_read))]
fn links_of(word: &str) -> Option<u32>
    ensures exact { result ≡ links_read word.now }
    ensures range { IfSome result (λ n. (1 ≤ n) × (n ≤ 65536)) }
{
    let links = number(word.as_bytes(), 1, 65_536)?;
    Some(links as u32)
}

#[tactic(auto, unfolding(crate::specs::RunPlan::port_read))]
fn port_of(word: &str) -> Option<u16>
    ensures exact { result ≡ port_read word.now }
{
    let port = number(word.as_bytes(), 1, 65_535)?;
    Some(port as u16)
}

// Whether each word is a port.
#[tactic(auto, using(crate::proofs::PortsRead::one_some))]
fn are_ports(words: &[&str]) -> bool
    ensures { result ≡ is_some (ports_read (map (λ word. word.now) words.now)) }
{
    for word in words {
        if port_of(word).is_none() {
            return false;
        }
    }
    true
}

// The ports of words, if each is one.
#[tactic(auto, using(crate::proofs::PortsRead::one_more, crate::proofs::PortsRead::none_read))]
fn ports_of(alloc: Global, words: &[&str]) -> Result<Option<Ports>, Memory>
    ensures exact { IfOk result (λ ports. ports
        ≡ ports_read (map (λ word. word.now) words.now)) }
    ensures count { IfOk result (λ ports. IfSome ports (λ ports. length ports
        ≡ length words.now)) }
    ensures memory { OnErr result (IsSome (ports_read (map (λ word. word.now) words.now))) }
{
    if !are_ports(words) {
        return Ok(None);
    }
    let mut ports = Ports::new(alloc);
    for word in words {
        match port_of(word) {
            Some(port) => ports.push(port)?,
            None => return Ok(None),
        }
    }
    Ok(Some(ports))
}
