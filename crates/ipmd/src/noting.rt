//! The runtime that a server is handed: the program's own, with a log beside it.

use log::kv::Source;
use log::span::Spans;
use log::{LevelFilter, Log, Metadata, Record};
use std::fmt::Display;
use std::io;
use std::net::{Net, SocketAddr};
use std::sync::Wait;
use std::thread::Threads;
use std::time::{Clock, Duration};

/// The target of each note: the program, and not the module that happens to write it.
const TARGET: &str = "ipmd";

/// A runtime whose notes go to a log: those of `Info`, and those that weigh more. The log's own handle of that kind
/// looks up no host's name.
#[derive_where(Clone, Copy)]
pub(crate) struct Noting<'a, R, L> {
    rt: &'a R,
    log: &'a L,
}

impl<'a, R, L> Noting<'a, R, L> {
    /// The runtime `rt`, with `log` beside it.
    pub(crate) fn new(rt: &'a R, log: &'a L) -> Noting<'a, R, L> {
        Noting { rt, log }
    }
}

impl<R, L: Log> Log for Noting<'_, R, L> {
    fn enabled(&self, metadata: &Metadata<'_>) -> bool {
        LevelFilter::Info.allows(metadata.level()) && self.log.enabled(metadata)
    }

    fn log<D: Display, K: Source, S: Spans>(&self, record: &Record<'_, D, K, S>) {
        if LevelFilter::Info.allows(record.level()) {
            self.log.log(record);
        }
    }

    fn flush(&self) {
        self.log.flush();
    }

    fn target(&self) -> &str {
        TARGET
    }
}

impl<R: Wait, L> Wait for Noting<'_, R, L> {}

impl<R: Threads, L> Threads for Noting<'_, R, L> {}

impl<R: Clock, L> Clock for Noting<'_, R, L> {
    fn monotonic(&self) -> io::Result<Duration> {
        self.rt.monotonic()
    }

    fn since_1970(&self) -> io::Result<Duration> {
        self.rt.since_1970()
    }

    fn sleep(&self, duration: Duration) {
        self.rt.sleep(duration)
    }
}

impl<R: Net, L> Net for Noting<'_, R, L> {
    type Stream = R::Stream;

    type Listener = R::Listener;

    fn bind(&self, address: SocketAddr) -> io::Result<R::Listener> {
        self.rt.bind(address)
    }

    fn connect(&self, address: SocketAddr) -> io::Result<R::Stream> {
        self.rt.connect(address)
    }

    fn connect_timeout(&self, address: SocketAddr, patience: Duration) -> io::Result<R::Stream> {
        self.rt.connect_timeout(address, patience)
    }

    fn lookup_host(&self, host: &str, port: u16, found: &mut [SocketAddr]) -> io::Result<usize> {
        self.rt.lookup_host(host, port, found)
    }
}
