//! What a server is run on: the machine, but for the time of day, which stands; and what it notes and connects to is kept.

use log::kv::Source;
use log::sink::Locked;
use log::span::Spans;
use log::{Log, Metadata, Record};
use std::alloc::Global;
use std::fmt::Display;
use std::io::{self, ErrorKind};
use std::net::{Net, SocketAddr, TcpListener, TcpStream};
use std::sync::{Mutex, Wait};
use std::thread::Threads;
use std::time::{Clock, Duration};

/// A time since 1970, in milliseconds.
pub(crate) type Time = u64;

/// The machine with another time of day, and a list of notes and one of connections that were made.
#[derive(Drop)]
pub(crate) struct World<'a, R: Wait> {
    rt: &'a R,
    /// The time of day; none where it can't be read.
    time: Option<Time>,
    notes: Locked<&'a R, Vec<u8>>,
    connected: Mutex<Vec<TcpStream>>,
}

/// What is left of a world: its notes, and the server's ends of the connections that it made.
#[derive(Drop)]
pub(crate) struct Left {
    pub(crate) notes: Vec<u8>,
    pub(crate) connected: Vec<TcpStream>,
}

impl<'a, R: Wait> World<'a, R> {
    pub(crate) fn new(rt: &'a R, alloc: Global, time: Option<Time>) -> World<'a, R> {
        World {
            rt,
            time,
            notes: Locked::new(rt, Vec::new(alloc)),
            connected: Mutex::new(Vec::new(alloc)),
        }
    }

    pub(crate) fn into_left(self) -> Left {
        let World {
            rt: _,
            time: _,
            notes,
            connected,
        } = self;
        Left {
            notes: notes.into_inner(),
            connected: connected.into_inner(),
        }
    }
}

impl<R: Wait> Wait for World<'_, R> {}

impl<R: Threads + Wait> Threads for World<'_, R> {}

impl<R: Wait + Clock> Clock for World<'_, R> {
    fn monotonic(&self) -> io::Result<Duration> {
        self.rt.monotonic()
    }

    fn since_1970(&self) -> io::Result<Duration> {
        match self.time {
            Some(time) => Ok(Duration::from_millis(time)),
            None => Err(io::Error::from(ErrorKind::Other)),
        }
    }

    fn sleep(&self, duration: Duration) {
        self.rt.sleep(duration)
    }
}

impl<R: Net<Listener = TcpListener, Stream = TcpStream> + Wait> Net for World<'_, R> {
    type Stream = TcpStream;

    type Listener = TcpListener;

    fn bind(&self, address: SocketAddr) -> io::Result<TcpListener> {
        self.rt.bind(address)
    }

    fn connect(&self, address: SocketAddr) -> io::Result<TcpStream> {
        self.rt.connect(address)
    }

    fn connect_timeout(&self, address: SocketAddr, patience: Duration) -> io::Result<TcpStream> {
        let stream = self.rt.connect_timeout(address, patience)?;
        let same = stream.try_clone()?;
        self.connected.lock(self.rt).push(same)?;
        Ok(stream)
    }

    fn lookup_host(&self, host: &str, port: u16, found: &mut [SocketAddr]) -> io::Result<usize> {
        self.rt.lookup_host(host, port, found)
    }
}

impl<R: Wait> Log for World<'_, R> {
    fn enabled(&self, metadata: &Metadata<'_>) -> bool {
        self.notes.enabled(metadata)
    }

    fn log<D: Display, K: Source, S: Spans>(&self, record: &Record<'_, D, K, S>) {
        self.notes.log(record);
    }

    fn flush(&self) {
        self.notes.flush();
    }

    fn target(&self) -> &str {
        "ipmd"
    }
}
