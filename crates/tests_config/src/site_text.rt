// What a configuration says, as a text.
use station_config::{Instance, Peer, Site};
use std::alloc::{AllocError, Global};
use std::str;

// The first bad line of a configuration and why; nothing where it says a site.
fn bad_line_of(alloc: Global, text: &[u8]) -> Result<String, AllocError> {
    match Site::parse(alloc, text) {
        Ok(_) => Ok(String::new(alloc)),
        Err(fault) => format!(in alloc; "{fault}"),
    }
}

/// The first bad line of a configuration in two parts, and why; nothing where it says a site.
pub fn bad_line(alloc: Global, front: &[u8], text: &[u8]) -> Result<String, AllocError> {
    let mut whole = Vec::from_slice(alloc, front)?;
    whole.extend_from_slice(text)?;
    bad_line_of(alloc, &whole)
}

// These octets as characters.
fn name(octets: &[u8]) -> &str {
    str::from_utf8(octets).unwrap_or("no text")
}

// The settings of a site.
fn settings(alloc: Global, site: &Site) -> Result<String, AllocError> {
    let provider = name(site.provider.as_slice());
    let password = site.password.as_slice();
    let versions = site.versions.as_slice();
    format!(in alloc;
        "provider {provider} {password:?}, capacity {}, intervals {} to {}, factors {} to {}, \
        versions {versions:?}",
        site.capacity, site.interval_from, site.interval_to, site.factor_from, site.factor_to
    )
}

fn peer_text(alloc: Global, peer: &Peer) -> Result<String, AllocError> {
    let hash = if peer.sha256 { "SHA-256" } else { "SHA-1" };
    format!(in alloc;
        "; peer {} {:?} {hash} {} {:?}",
        name(peer.name.as_slice()),
        peer.level,
        peer.credential_age,
        peer.pass.as_slice()
    )
}

fn instance_text(alloc: Global, instance: &Instance) -> Result<String, AllocError> {
    let forward = if instance.service.is_forward() {
        "forward"
    } else {
        "return"
    };
    format!(in alloc;
        "; {forward} instance {} of {}, {} seconds: {:?}",
        instance.id, instance.owner, instance.timeout, instance.service
    )
}

fn append_peers(alloc: Global, site: &Site, told: &mut String) -> Result<(), AllocError> {
    for peer in site.peers.as_slice() {
        told.push_str(peer_text(alloc, peer)?.as_str())?;
    }
    Ok(())
}

fn append_instances(alloc: Global, site: &Site, told: &mut String) -> Result<(), AllocError> {
    for instance in site.instances.as_slice() {
        told.push_str(instance_text(alloc, instance)?.as_str())?;
    }
    Ok(())
}

fn all_of(alloc: Global, site: &Site) -> Result<String, AllocError> {
    let mut told = settings(alloc, site)?;
    append_peers(alloc, site, &mut told)?;
    append_instances(alloc, site, &mut told)?;
    Ok(told)
}

/// All that a configuration says: settings, peers and instances, with numbers and `Debug` of its
/// parts; or its first bad line and why.
pub fn site_text(alloc: Global, text: &[u8]) -> Result<String, AllocError> {
    match Site::parse(alloc, text) {
        Ok(site) => all_of(alloc, &site),
        Err(fault) => format!(in alloc; "{fault}"),
    }
}

// Appends 32 lines, each with a number from P00 to P31 behind this and before that.
fn append_lines(
    alloc: Global,
    front: &str,
    behind: &str,
    text: &mut String,
) -> Result<(), AllocError> {
    for number in 0..32 {
        text.push_str(format!(in alloc; "{front}P{number:02}{behind}\n")?.as_str())?;
    }
    Ok(())
}

// 32 peers P00 to P31, and 32 instances of the last one, with values from P00 to P31.
fn full(alloc: Global) -> Result<String, AllocError> {
    let mut text = String::new(alloc);
    append_lines(alloc, "peer ", " none sha1 60 000000000000", &mut text)?;
    append_lines(alloc, "raf raf=", " P31 timely 1 1 1", &mut text)?;
    Ok(text)
}

/// The first bad line of a configuration behind as many peers and instances as a site may have.
pub fn behind_full(alloc: Global, text: &[u8]) -> Result<String, AllocError> {
    bad_line(alloc, full(alloc)?.as_bytes(), text)
}

/// Of that site how many peers and instances it has, and whose the last instance is.
pub fn full_counts(alloc: Global) -> Option<(usize, usize, u32)> {
    let text = full(alloc).ok()?;
    let site = Site::parse(alloc, text.as_bytes()).ok()?;
    let owner = site.instances.as_slice().last()?.owner;
    Some((site.peers.len(), site.instances.len(), owner))
}
