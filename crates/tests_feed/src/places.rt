// The places at which a stop is asked for and a source connects.
use crate::loopback::{is_early, open, user};
use operator_side::{Listening, Peer, Place, Stop, StopPort};
use recorder::{Feed, FrameSource};
use std::alloc::{AllocError, Global};
use std::io::{ErrorKind, Write};
use std::net::SocketAddr;
use std::os::unix::net::UnixStream;
use std::test::Fail;
use std::{fs, io};

// A port of the system's at which a stop is asked for, and its address.
fn stop_port(rt: &HostRuntime) -> Result<(StopPort, SocketAddr), Fail> {
    let port = StopPort::open(rt, Place::Port("127.0.0.1:0".parse()?))?;
    match port.place() {
        Place::Port(address) => {
            let address = *address;
            Ok((port, address))
        }
        Place::Path(_) => Err("no port".into()),
    }
}

// Whether a connection that says this, and then closes, asks for no stop.
fn asks_nothing(
    rt: &HostRuntime,
    port: &mut StopPort,
    address: SocketAddr,
    said: &[u8],
) -> io::Result<bool> {
    let operator = user(rt, address, said)?;
    let is_none = port.look().is_none();
    drop(operator);
    Ok(is_none && port.look().is_none())
}

// A stop is asked for by a whole line: without its line end it isn't.
#[test]
fn a_stop_without_its_line_end_is_none(rt: HostRuntime) -> Result<(), Fail> {
    let (mut port, address) = stop_port(&rt)?;
    for said in [b"stop", b"stop ", b"stopp\n"] as [&[u8]; 3] {
        assert!(rt; asks_nothing(&rt, &mut port, address, said)?);
    }
    let mut operator = user(&rt, address, b"stop")?;
    assert!(rt; port.look().is_none());
    operator.write_all(b"\n")?;
    assert!(rt; port.look().is_some() && port.look().is_none());
    Ok(())
}

// A stop whose place is at a port, and that port's address.
fn stop(rt: &HostRuntime) -> Result<(Stop, SocketAddr), Fail> {
    let (port, address) = stop_port(rt)?;
    Ok((Stop::at(rt.alloc(), port)?, address))
}

// What is reported of a stop.
fn asked_by(alloc: Global, operator: SocketAddr) -> Result<String, AllocError> {
    format!(in alloc; "stop: asked for by {operator}\n")
}

// A call of the source looks at the stop's port itself.
#[test]
fn a_source_hears_a_stop_at_its_port(rt: HostRuntime) -> Result<(), Fail> {
    let (stop, address) = stop(&rt)?;
    let (mut feed, _) = open(&rt)?;
    feed.end_at(stop.share()?);
    assert!(rt; is_early(&mut feed) && !stop.is_asked());
    let operator = user(&rt, address, b"stop\n")?;
    assert!(rt; matches!(feed.next(), Feed::End) && stop.is_asked());
    let told = asked_by(rt.alloc(), operator.local_addr()?)?;
    assert!(rt; feed.reports().as_slice() == told.as_bytes());
    Ok(())
}

// What listens at a Unix socket, or the kind of the error.
fn listen(rt: &HostRuntime) -> Result<Listening, ErrorKind> {
    match String::from_str(rt.alloc(), "source") {
        Ok(path) => Listening::open(rt, Place::Path(path)).map_err(|error| error.kind()),
        Err(_) => Err(ErrorKind::OutOfMemory),
    }
}

// Whether something listens at the socket's path from now on, alone, and is reached.
fn is_reached(rt: &HostRuntime) -> io::Result<bool> {
    let Ok(listening) = listen(rt) else {
        return Ok(false);
    };
    let is_alone = matches!(listen(rt), Err(ErrorKind::AddrInUse));
    let peer = UnixStream::connect(rt, "source")?;
    let from = listening.accept()?.1;
    drop(peer);
    Ok(is_alone && from == Peer::Local)
}

// A Unix socket's file that nobody answers is removed, one that is answered isn't, and no other file.
#[test]
fn a_stale_socket_file_is_removed(rt: HostRuntime) -> Result<(), Fail> {
    for _ in 0..2 {
        assert!(rt; is_reached(&rt)?);
    }
    fs::remove_file(&rt, "source")?;
    fs::write(&rt, "source", b"text")?;
    assert!(rt; listen(&rt).is_err());
    assert!(rt; fs::read(&rt, "source")?.as_slice() == b"text".as_slice());
    fs::remove_file(&rt, "source")?;
    Ok(())
}
