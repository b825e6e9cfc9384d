// Where a station listens for its source and a stop: at a TCP port, or at a Unix socket.

use std::fmt::{Display, Formatter};
use std::fs::Files;
use std::io::ErrorKind;
use std::net::{Net, SocketAddr, TcpListener, TcpStream};
use std::os::fd::{AsRawFd, OwnedFd, RawFd};
use std::os::unix::fs::FileTypeExt;
use std::os::unix::net::{UnixListener, UnixStream};
use std::{fmt, fs, io};

/// Where something listens.
#[derive(Debug, Drop)]
pub enum Place {
    /// At a TCP port.
    Port(SocketAddr),
    /// At the Unix socket of this path.
    Path(String),
}

impl Display for Place {
    fn fmt<W: fmt::Write>(&self, f: &mut Formatter<W>) -> fmt::Result {
        match self {
            Place::Port(address) => Display::fmt(address, f),
            Place::Path(path) => f.pad(path.as_str()),
        }
    }
}

/// From where a connection comes.
#[derive(Clone, Copy, Debug, PartialEq, Eq)]
pub enum Peer {
    /// From a TCP port.
    Port(SocketAddr),
    /// From this machine, by a Unix socket.
    Local,
}

impl Display for Peer {
    fn fmt<W: fmt::Write>(&self, f: &mut Formatter<W>) -> fmt::Result {
        match self {
            Peer::Port(address) => Display::fmt(address, f),
            Peer::Local => f.pad("local"),
        }
    }
}

/// What listens at a place. None of its calls waits.
#[derive(Drop)]
pub struct Listening {
    place: Place,
    socket: Socket,
}

// A socket that listens.
#[derive(Drop)]
enum Socket {
    Port(TcpListener),
    Path(UnixListener),
}

impl Listening {
    /// Listens at a place from now on. A Unix socket's file that nobody answers is removed first.
    pub fn open<R: Net<Stream = TcpStream, Listener = TcpListener> + Files>(
        rt: &R,
        place: Place,
    ) -> io::Result<Listening> {
        match place {
            Place::Port(address) => Listening::at_port(TcpListener::bind(rt, address)?),
            Place::Path(path) => {
                let socket = bind_path(rt, path.as_str())?;
                socket.set_nonblocking(true)?;
                Ok(Listening {
                    place: Place::Path(path),
                    socket: Socket::Path(socket),
                })
            }
        }
    }

    // Listens with this socket.
    fn at_port(socket: TcpListener) -> io::Result<Listening> {
        socket.set_nonblocking(true)?;
        Ok(Listening {
            place: Place::Port(socket.local_addr()?),
            socket: Socket::Port(socket),
        })
    }

    /// Where it listens: with the system's port where it was told port 0.
    pub fn place(&self) -> &Place {
        &self.place
    }

    /// The next connection, whose calls don't wait.
    pub fn accept(&self) -> io::Result<(TcpStream, Peer)> {
        let (stream, peer) = match &self.socket {
            Socket::Port(socket) => {
                let (stream, peer) = socket.accept()?;
                (stream, Peer::Port(peer))
            }
            Socket::Path(socket) => {
                let (stream, _) = socket.accept()?;
                (TcpStream::from(OwnedFd::from(stream)), Peer::Local)
            }
        };
        stream.set_nonblocking(true)?;
        Ok((stream, peer))
    }

    /// Its descriptor.
    pub fn descriptor(&self) -> RawFd {
        match &self.socket {
            Socket::Port(socket) => socket.as_raw_fd(),
            Socket::Path(socket) => socket.as_raw_fd(),
        }
    }
}

// A Unix socket at this path, in place of one whose file nobody answers.
fn bind_path<R: Net + Files>(rt: &R, path: &str) -> io::Result<UnixListener> {
    match UnixListener::bind(rt, path) {
        Err(error) if error.kind() == ErrorKind::AddrInUse && is_stale(rt, path) => {
            fs::remove_file(rt, path)?;
            UnixListener::bind(rt, path)
        }
        answer => answer,
    }
}

// True if a socket's file is at this path, and nobody answers there.
fn is_stale<R: Net + Files>(rt: &R, path: &str) -> bool {
    match UnixStream::connect(rt, path) {
        Ok(_) => false,
        Err(error) => error.kind() == ErrorKind::ConnectionRefused && is_socket(rt, path),
    }
}

// True if the file at this path is a socket's.
fn is_socket<R: Files>(rt: &R, path: &str) -> bool {
    match fs::metadata(rt, path) {
        Ok(data) => data.file_type().is_socket(),
        Err(_) => false,
    }
}
