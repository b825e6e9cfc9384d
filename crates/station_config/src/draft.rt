// A site as far as the lines so far say it.
ghost use Rattle.std.specs.Prelude.{◌≡◌, ◌<◌, ◌≤◌, None, length, IfOk, OnOk, IfSome};
ghost use Rattle.std.specs.List.{list_any};
ghost use Rattle.std.specs.Option.{unwrap_or};
ghost use Rattle.station_config.specs.Answers.{Takes};
ghost use Rattle.station_config.specs.Drafts.{empty, told, is_skipped, added, site_of};
ghost use Rattle.station_config.specs.Drafts.{place_of, same_id, has_id};
ghost use Rattle.station_config.specs.Drafts.{cause_in, is_repeated, has_no_owner, is_surplus};
ghost use Rattle.station_config.specs.Validity.{is_forward};

use crate::cause::Cause;
use crate::heartbeat::Heartbeat;
use crate::instance::Instance;
use crate::instance_line::InstanceLine;
use crate::instances::Instances;
use crate::line::Line;
use crate::peer::Peer;
use crate::peers::Peers;
use crate::reading::parse_line;
use crate::service::Service;
use crate::site::Site;
use crate::unfit::Unfit;
use octet_core::{Memory, Octets};
use sle_common::{InstanceId, InstanceRef};
use std::alloc::Global;

const MOST_PEERS: usize = 32;

const MOST_INSTANCES: usize = 32;

/// A site as far as the lines so far say it.
#[derive(Drop)]
pub(crate) struct Draft {
    pub(crate) provider: Option<Octets>,
    pub(crate) password: Option<Octets>,
    pub(crate) capacity: Option<u32>,
    pub(crate) heartbeat: Option<Heartbeat>,
    pub(crate) versions: Option<Octets>,
    pub(crate) peers: Peers,
    pub(crate) instances: Instances,
}

impl Draft {
    /// What no line says.
    pub(crate) fn new(alloc: Global) -> Draft
        ensures { result ≡ empty }
    {
        Draft {
            provider: None,
            password: None,
            capacity: None,
            heartbeat: None,
            versions: None,
            peers: Peers::new(alloc),
            instances: Instances::new(alloc),
        }
    }

    /// Takes what a line says, or tells the first cause why it is refused.
    pub(crate) fn take(&mut self, alloc: Global, text: &[u8]) -> Result<(), Unfit>
        requires { length self.old.peers ≤ 32 }
        ensures exact { Takes self.new result (told self.old text.now) }
        ensures few { length self.new.peers ≤ 32 }
    {
        if is_skipped(text) {
            return Ok(());
        }
        let line = parse_line(alloc, text)?;
        if let Some(cause) = self.cause_of(&line) {
            return Err(Unfit::Line(cause));
        }
        self.add(line)?;
        Ok(())
    }

    // The first cause why what a line says can't stand behind the lines so far.
    fn cause_of(&self, line: &Line) -> Option<Cause>
        ensures { result ≡ cause_in self.now line.now }
    {
        if self.is_repeated(line) {
            Some(Cause::Repeated)
        } else if self.has_no_owner(line) {
            Some(Cause::NoOwner)
        } else if self.is_surplus(line) {
            Some(Cause::Surplus)
        } else {
            None
        }
    }

    fn is_repeated(&self, line: &Line) -> bool
        ensures { result ≡ is_repeated self.now line.now }
    {
        match line {
            Line::Provider(_) => self.provider.is_some(),
            Line::Password(_) => self.password.is_some(),
            Line::Capacity(_) => self.capacity.is_some(),
            Line::Beat(_) => self.heartbeat.is_some(),
            Line::Versions(_) => self.versions.is_some(),
            Line::Peer(peer) => place_of(peer.name.as_slice(), self.peers.as_slice()).is_some(),
            Line::Instance(line) => has_id(line.id(), self.instances.as_slice()),
        }
    }

    fn has_no_owner(&self, line: &Line) -> bool
        ensures { result ≡ has_no_owner self.now line.now }
    {
        match line {
            Line::Instance(line) => place_of(line.owner(), self.peers.as_slice()).is_none(),
            _ => false,
        }
    }

    fn is_surplus(&self, line: &Line) -> bool
        ensures { result ≡ is_surplus self.now line.now }
    {
        match line {
            Line::Peer(_) => self.peers.len() >= MOST_PEERS,
            Line::Instance(line) => {
                self.instances.len() >= MOST_INSTANCES
                    || line.is_forward() && has_forward(self.instances.as_slice())
            }
            _ => false,
        }
    }

    // What the lines say with one more, which has a place behind them.
    fn add(&mut self, line: Line) -> Result<(), Memory>
        requires place { cause_in self.old line ≡ None }
        requires few { length self.old.peers ≤ 32 }
        ensures added { OnOk result (self.new ≡ added self.old line) }
        ensures few { length self.new.peers ≤ 32 }
    {
        match line {
            Line::Provider(name) => self.provider = Some(name),
            Line::Password(pass) => self.password = Some(pass),
            Line::Capacity(octets) => self.capacity = Some(octets),
            Line::Beat(heartbeat) => self.heartbeat = Some(heartbeat),
            Line::Versions(versions) => self.versions = Some(versions),
            Line::Peer(peer) => return self.peers.push(peer),
            Line::Instance(line) => return self.add_instance(line),
        }
        Ok(())
    }

    fn add_instance(&mut self, line: InstanceLine) -> Result<(), Memory>
        requires { length self.old.peers ≤ 32 }
        ensures added { OnOk result (self.new ≡ added self.old (Line.Instance line)) }
        ensures same { self.new.peers ≡ self.old.peers }
    {
        let owner = place_of(line.owner(), self.peers.as_slice()).unwrap_or(0) as u32;
        self.instances.push(line.into_instance(owner))
    }

    /// The site: each setting as it is given, or its default.
    pub(crate) fn finish(self, alloc: Global) -> Result<Site, Memory>
        ensures { IfOk result (λ site. site ≡ site_of self) }
    {
        let beat = self.heartbeat.unwrap_or(USUAL_HEARTBEAT);
        Ok(Site {
            provider: or_usual(alloc, self.provider, b"STATION")?,
            password: or_usual(alloc, self.password, &[0; 6])?,
            capacity: u64::from(self.capacity.unwrap_or(268_435_456)),
            interval_from: beat.interval_from,
            interval_to: beat.interval_to,
            factor_from: beat.factor_from,
            factor_to: beat.factor_to,
            versions: or_usual(alloc, self.versions, &[4, 5])?,
            peers: self.peers,
            instances: self.instances,
        })
    }
}

const USUAL_HEARTBEAT: Heartbeat = Heartbeat {
    interval_from: 5,
    interval_to: 3_600,
    factor_from: 2,
    factor_to: 100,
};

// The octets that are given, else these.
fn or_usual(alloc: Global, setting: Option<Octets>, usual: &[u8]) -> Result<Octets, Memory>
    ensures { IfOk result (λ octets. octets ≡ unwrap_or setting usual.now) }
{
    match setting {
        Some(octets) => Ok(octets),
        None => Octets::copy_of(alloc, usual),
    }
}

// An empty line and a comment say nothing.
fn is_skipped(text: &[u8]) -> bool
    ensures { result ≡ is_skipped text.now }
{
    match text.first() {
        Some(octet) => *octet == b'#',
        None => true,
    }
}

// The place of the peer of this name.
#[tactic(auto, using(crate::proofs::Places::place_within))]
fn place_of(name: &[u8], peers: &[Peer]) -> Option<usize>
    ensures exact { result ≡ place_of name.now peers.now }
    ensures within { IfSome result (λ place. place < length peers.now) }
{
    peers.iter().position(|peer| peer.name.as_slice() == name)
}

fn has_id(id: &InstanceId, instances: &[Instance]) -> bool
    ensures { result ≡ has_id id.now instances.now }
{
    instances.iter().any(|instance| is_same(&instance.id, id))
}

fn is_same(one: &InstanceId, other: &InstanceId) -> bool
    ensures { result ≡ same_id one.now other.now }
{
    InstanceRef::Own(one).names(other)
}

fn has_forward(instances: &[Instance]) -> bool
    ensures { result ≡ list_any (λ instance. is_forward instance.service) instances.now }
{
    instances
        .iter()
        .any(|instance| instance.service.is_forward())
}
