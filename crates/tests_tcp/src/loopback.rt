// Both ends of a connection over the loopback.
ghost use Rattle.std.specs.Prelude.{◌≡◌, true, IfOk};

use bell::Waiter;
use door_model::Door;
use operator_side::Uptime;
use std::alloc::Global;
use std::io;
use std::io::{Read, Write};
use std::net::{Net, SocketAddr, TcpListener, TcpStream};
use std::test::Fail;
use std::time::Duration;
use tcp_door::{DoorLink, DoorPort, Limits, TcpDoor};
use tcp_link::TcpLink;

/// A link, and the stream of its peer.
pub fn connect<R: Net<Stream = TcpStream, Listener = TcpListener>>(
    rt: &R,
    alloc: Global,
    millis: u64,
) -> io::Result<(TcpLink, TcpStream)> {
    let listener = TcpListener::bind(rt, "127.0.0.1:0")?;
    let peer = TcpStream::connect(rt, listener.local_addr()?)?;
    let (stream, _) = listener.accept()?;
    let link = TcpLink::new(
        alloc,
        stream,
        Waiter::new(rt, alloc)?,
        Duration::from_millis(millis),
    )?;
    Ok((link, peer))
}

/// The machine's time, and how many seconds a user may be silent.
pub fn limits(rt: &HostRuntime, silence: u64, idle: u64) -> (Uptime, Limits) {
    let limits = Limits {
        silence: Duration::from_secs(silence),
        idle: Duration::from_secs(idle),
    };
    (Uptime::new(rt), limits)
}

/// A port of the system's, for doors whose users may be silent so many seconds.
pub fn port(rt: &HostRuntime, silence: u64, idle: u64) -> Result<DoorPort, Fail> {
    let (time, limits) = limits(rt, silence, idle);
    Ok(DoorPort::open(rt, rt.alloc(), "127.0.0.1:0".parse()?, time, limits)?)
}

/// A door at a port, which reports to octets.
pub fn door_at(rt: &HostRuntime, port: &DoorPort) -> Result<TcpDoor<Vec<u8>>, Fail> {
    let alloc = rt.alloc();
    Ok(TcpDoor::new(
        alloc,
        port.share()?,
        Waiter::new(rt, alloc)?,
        Duration::from_millis(10),
        Vec::new(alloc),
    )?)
}

/// The next link of a door, which is out then.
pub fn next(door: &mut TcpDoor<Vec<u8>>) -> Result<DoorLink, Fail>
    ensures { IfOk result (λ _. door.new.is_out ≡ true) }
{
    match door.next_link()? {
        Some(link) => Ok(link),
        None => Err("no link".into()),
    }
}

/// The connection of a user that says this.
pub fn user(rt: &HostRuntime, address: SocketAddr, said: &[u8]) -> io::Result<TcpStream> {
    let mut peer = TcpStream::connect(rt, address)?;
    peer.write_all(said)?;
    Ok(peer)
}

/// What a peer reads until the link shuts its side, or reads nothing for a second.
pub fn read_all(alloc: Global, peer: &mut TcpStream) -> io::Result<Vec<u8>> {
    peer.set_read_timeout(Some(Duration::from_secs(1)))?;
    let mut heard = Vec::new(alloc);
    peer.read_to_end(&mut heard)?;
    Ok(heard)
}
