// What a BIND is answered, as a text.
ghost use Rattle.station_config.specs.Validity.{IsSite};

use crate::rows::{first_of, octets_of};
use crate::stations::station_of;
use assoc_core::{check_bind, peer_of};
use sle_common::{InstanceId, InstanceRef};
use sle_numbers::{BindDiagnostic, Numbered};
use station_config::Site;
use std::alloc::{AllocError, Global};
use std::fmt::Write;

// The instance's place, or the fault with its diagnostic.
fn tell_answer(answer: Result<u32, BindDiagnostic>, told: &mut String) -> Result<(), AllocError> {
    match answer {
        Ok(place) => write!(told, "instance {place}"),
        Err(fault) => write!(told, "{} {fault}", fault.number()),
    }
}

// Of a service and a version, and of an identifier.
fn answer(
    site: &Site,
    peer: Option<u32>,
    words: &str,
    id: &InstanceRef<'_>,
) -> Result<u32, BindDiagnostic>
    requires { IsSite site.now }
{
    let (service, words) = first_of(words);
    let (version, _) = first_of(words);
    let service = service.parse().unwrap_or(9);
    check_bind(site, peer, service, version.parse().unwrap_or(0), id)
}

/// Of a peer, a service, a version and an identifier.
pub fn tell_bind(alloc: Global, words: &str, told: &mut String) -> Result<(), AllocError> {
    match station_of(alloc, "") {
        Ok(site) => tell_bind_at(alloc, &site, words, told),
        Err(_) => Err(AllocError),
    }
}

fn tell_bind_at(
    alloc: Global,
    site: &Site,
    words: &str,
    told: &mut String,
) -> Result<(), AllocError>
    requires { IsSite site.now }
{
    let (initiator, words) = first_of(words);
    let peer = peer_of(site, initiator.as_bytes());
    let (words, id) = words.trim_end().rsplit_once(' ').unwrap_or((words, ""));
    match InstanceId::parse_text(alloc, id) {
        Ok(id) => tell_answer(answer(site, peer, words, &InstanceRef::Own(&id)), told),
        Err(_) => Err(AllocError),
    }
}

/// Of the octets of an identifier, by the first peer, the service 0 and the version 5.
pub fn tell_spelled(alloc: Global, words: &str, told: &mut String) -> Result<(), AllocError> {
    match station_of(alloc, "") {
        Ok(site) => tell_spelled_at(alloc, &site, words, told),
        Err(_) => Err(AllocError),
    }
}

fn tell_spelled_at(
    alloc: Global,
    site: &Site,
    words: &str,
    told: &mut String,
) -> Result<(), AllocError>
    requires { IsSite site.now }
{
    let octets = octets_of(alloc, words)?;
    tell_answer(
        check_bind(site, Some(0), 0, 5, &InstanceRef::Spelled(&octets)),
        told,
    )
}

/// The place of the peer of a name.
pub fn tell_peer(alloc: Global, name: &str, told: &mut String) -> Result<(), AllocError> {
    match station_of(alloc, "") {
        Ok(site) => tell_place(peer_of(&site, name.as_bytes()), told),
        Err(_) => Err(AllocError),
    }
}

fn tell_place(place: Option<u32>, told: &mut String) -> Result<(), AllocError> {
    match place {
        Some(place) => write!(told, "peer {place}"),
        None => told.push_str("no peer"),
    }
}
