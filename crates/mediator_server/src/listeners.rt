//! The two addresses at which a server is reached, and who comes in there.

use crate::notes;
use crate::plan::RunPlan;
use log::Log;
use mio::unix::SourceFd;
use mio::{Events, Interest, Poll, Token, Waker};
use std::alloc::Global;
use std::io::{self, ErrorKind};
use std::net::{IpAddr, Net, SocketAddr, TcpListener, TcpStream};
use std::os::fd::AsRawFd;
use std::sync::Wait;
use std::time::{Clock, Duration};

/// How many milliseconds it is waited at most for somebody to come.
const LOOK_EACH: u64 = 1000;

/// How many milliseconds pass before a connection is taken again, where there is no descriptor even to refuse one.
const PAUSE: u64 = 100;

/// The errors of Linux that say that no descriptor is left, of the process or of the machine, or no memory for a connection.
const TOO_FEW: [i32; 4] = [24, 23, 105, 12];

/// A connection that has come in.
#[derive(Drop)]
pub(crate) struct Caller {
    pub(crate) stream: TcpStream,
    pub(crate) peer: SocketAddr,
}

/// At which address a connection has come in.
#[derive(Drop)]
pub(crate) enum Incoming {
    Exporter(Caller),
    Administrator(Caller),
}

/// An address that is listened on. A second descriptor is kept for it, to be let go when there is none for a connection that comes:
/// so that this one can be taken, and be closed.
#[derive(Drop)]
struct Listener {
    listener: TcpListener,
    spare: Option<TcpListener>,
}

impl Listener {
    /// Listens on an address, and has `poll` say when someone comes.
    fn open<R: Net<Listener = TcpListener, Stream = TcpStream> + Log>(
        rt: &R,
        poll: &Poll,
        token: Token,
        address: &str,
    ) -> io::Result<Listener> {
        let opened = Listener::listen(rt, poll, token, address);
        if let Err(why) = &opened {
            notes::cannot_listen(rt, address, why);
        }
        opened
    }

    /// Listens on an address, and notes nothing.
    fn listen<R: Net<Listener = TcpListener, Stream = TcpStream>>(
        rt: &R,
        poll: &Poll,
        token: Token,
        address: &str,
    ) -> io::Result<Listener> {
        let listener = TcpListener::bind(rt, address)?;
        listener.set_nonblocking(true)?;
        let descriptor = listener.as_raw_fd();
        poll.registry()
            .register(&mut SourceFd(&descriptor), token, Interest::READABLE)?;
        let spare = listener.try_clone().ok();
        Ok(Listener { listener, spare })
    }

    /// Who waits to be taken. One that has gone again is passed over, and one for which there is no descriptor is closed.
    fn accept(&mut self, rt: &(impl Wait + Clock + Log)) -> io::Result<Option<Caller>> {
        for _ in rt.forever() {
            match self.listener.accept() {
                Ok((stream, peer)) => return Ok(Some(Caller { stream, peer })),
                Err(fault) if fault.kind() == ErrorKind::WouldBlock => return Ok(None),
                Err(fault) if is_of_the_peer(&fault) => {}
                Err(fault) if is_want(&fault) => match self.accept_by_spare(rt, &fault) {
                    BySpare::Taken(caller) => return Ok(Some(caller)),
                    BySpare::Closed => {}
                    BySpare::Nobody => return Ok(None),
                },
                Err(fault) => return Err(fault),
            }
        }
        unreachable!()
    }

    /// Lets the spare descriptor go, and takes a connection by it: the system says that there is no descriptor left also where
    /// nobody waits. The connection is closed, but where a spare descriptor can be had again.
    fn accept_by_spare(&mut self, rt: &(impl Clock + Log), why: &io::Error) -> BySpare {
        self.spare = None;
        let taken = match self.listener.accept() {
            Ok((stream, peer)) => {
                self.spare = self.listener.try_clone().ok();
                if self.spare.is_some() {
                    return BySpare::Taken(Caller { stream, peer });
                }
                notes::refused_for_want(rt, peer, why);
                BySpare::Closed
            }
            Err(fault) => {
                if fault.kind() != ErrorKind::WouldBlock {
                    rt.sleep(Duration::from_millis(PAUSE));
                }
                BySpare::Nobody
            }
        };
        self.spare = self.listener.try_clone().ok();
        taken
    }
}

/// What came of a connection for which there was no descriptor but the spare one.
#[derive(Drop)]
enum BySpare {
    Taken(Caller),
    Closed,
    Nobody,
}

/// Whether a connection couldn't be accepted since its peer, or the way to it, has gone.
fn is_of_the_peer(fault: &io::Error) -> bool {
    matches!(
        fault.kind(),
        ErrorKind::ConnectionAborted
            | ErrorKind::ConnectionReset
            | ErrorKind::Interrupted
            | ErrorKind::NetworkDown
            | ErrorKind::NetworkUnreachable
            | ErrorKind::HostUnreachable
            | ErrorKind::TimedOut
    )
}

/// Whether something failed for want of descriptors or memory.
fn is_want(fault: &io::Error) -> bool {
    match fault.raw_os_error() {
        Some(code) => TOO_FEW.contains(&code),
        None => false,
    }
}

/// Both addresses: the exporters', until no more are wanted, and the administrators'.
#[derive(Drop)]
pub(crate) struct Listeners {
    exporters: Option<Listener>,
    administrators: Listener,
    poll: Poll,
    events: Events,
}

impl Listeners {
    /// Listens on both of the plan's addresses.
    ///
    /// # Errors
    /// One of them can't be listened on, or memory ran out.
    pub(crate) fn open<R: Net<Listener = TcpListener, Stream = TcpStream> + Log>(
        rt: &R,
        alloc: Global,
        plan: &RunPlan,
    ) -> io::Result<Listeners> {
        let events = Events::with_capacity(alloc, 4)?;
        let poll = Poll::new(rt)?;
        let exporters = Listener::open(rt, &poll, Token(0), plan.exporters.as_str())?;
        let administrators = Listener::open(rt, &poll, Token(1), plan.admin.as_str())?;
        Ok(Listeners {
            exporters: Some(exporters),
            administrators,
            poll,
            events,
        })
    }

    /// By what a wait for somebody to come is ended.
    ///
    /// # Errors
    /// The system has no such thing left.
    pub(crate) fn waker(&self) -> io::Result<Waker> {
        Waker::new(self.poll.registry(), Token(2))
    }

    /// Whether exporters may come.
    pub(crate) fn take_exporters(&self) -> bool {
        self.exporters.is_some()
    }

    /// No more exporters may come.
    pub(crate) fn close_to_exporters(&mut self) {
        self.exporters = None;
    }

    /// Who comes next; none where nobody came for a while, or the wait was ended.
    ///
    /// # Errors
    /// A connection couldn't be accepted, and not for want of descriptors or memory.
    pub(crate) fn next(&mut self, rt: &(impl Wait + Clock + Log)) -> io::Result<Option<Incoming>> {
        if let Some(came) = self.waiting(rt)? {
            return Ok(Some(came));
        }
        let patience = Some(Duration::from_millis(LOOK_EACH));
        match self.poll.poll(&mut self.events, patience) {
            Ok(()) => self.waiting(rt),
            Err(fault) if fault.kind() == ErrorKind::Interrupted => Ok(None),
            Err(fault) => Err(fault),
        }
    }

    /// Who waits to be taken, exporters before administrators.
    fn waiting(&mut self, rt: &(impl Wait + Clock + Log)) -> io::Result<Option<Incoming>> {
        if let Some(listener) = &mut self.exporters {
            if let Some(caller) = listener.accept(rt)? {
                return Ok(Some(Incoming::Exporter(caller)));
            }
        }
        match self.administrators.accept(rt)? {
            Some(caller) => Ok(Some(Incoming::Administrator(caller))),
            None => Ok(None),
        }
    }

    /// The addresses that are listened on.
    pub(crate) fn own(&self) -> OwnAddresses {
        OwnAddresses {
            exporters: match &self.exporters {
                Some(listener) => listener.listener.local_addr().ok(),
                None => None,
            },
            admin: self.administrators.listener.local_addr().ok(),
        }
    }
}

/// The addresses at which a server is reached, so that it doesn't connect to itself.
#[derive(Clone, Copy)]
pub(crate) struct OwnAddresses {
    exporters: Option<SocketAddr>,
    admin: Option<SocketAddr>,
}

impl OwnAddresses {
    /// Whether a connection from this machine's address to that of its peer is one to the server itself.
    pub(crate) fn have(&self, local: SocketAddr, peer: SocketAddr) -> bool {
        is_at(self.exporters, local, peer) || is_at(self.admin, local, peer)
    }
}

/// Whether a connection leads to what listens on an address.
fn is_at(listening: Option<SocketAddr>, local: SocketAddr, peer: SocketAddr) -> bool {
    let Some(listening) = listening else {
        return false;
    };
    let ip = listening.ip();
    listening.port() == peer.port()
        && (same_ip(ip, peer.ip())
            || ip.is_unspecified() && (same_ip(local.ip(), peer.ip()) || peer.ip().is_loopback()))
}

/// Whether two addresses are the same one.
fn same_ip(some: IpAddr, other: IpAddr) -> bool {
    some == other
}
