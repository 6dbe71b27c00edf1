//! Reads and writes on a connection: made again where a signal interrupted them, and given up where a peer takes nothing.
ghost use Rattle.std.specs.Prelude.{◌≡◌, ◌<◌, None, false, IfOk};
ghost use Rattle.std.specs.Io.{ReadsAtMost, WritesAtMost};

use crate::time::{has_passed, now};
use octet_io::{Failed, Sink};
use std::io::{ErrorKind, Read, Write};
use std::net::{Shutdown, TcpStream};
use std::sync::Wait;
use std::time::{Clock, Duration};

/// In this many seconds a peer takes all that is written at once, or [`LEAST_TAKEN`] octets of it. Else a write fails.
const PATIENCE: u64 = 12;

/// A peer that has taken this many octets has its time anew.
const LEAST_TAKEN: usize = 65536;

/// For this many seconds at most it is waited for a peer that is told the end to close its connection.
const FAREWELL: u64 = 5;

/// Whether a call waited for as long as it was to wait.
pub(crate) fn is_late(kind: ErrorKind) -> bool {
    matches!(kind, ErrorKind::WouldBlock | ErrorKind::TimedOut)
}

/// Reads, and again where that was interrupted.
pub(crate) fn read_on(
    rt: &impl Wait,
    stream: &TcpStream,
    buffer: &mut [u8],
) -> Result<usize, ErrorKind>
    ensures { ReadsAtMost result buffer.new }
{
    let mut reader = stream;
    for _ in rt.forever() {
        match reader.read(buffer) {
            Ok(count) => return Ok(count),
            Err(fault) if fault.kind() == ErrorKind::Interrupted => {}
            Err(fault) => return Err(fault.kind()),
        }
    }
    unreachable!()
}

/// Writes, and again where that was interrupted or took long, until a peer has had its time since `begun`.
fn write_on<R: Wait + Clock>(
    rt: &R,
    stream: &TcpStream,
    octets: &[u8],
    begun: Duration,
) -> Result<usize, Failed>
    ensures bound { WritesAtMost result octets.now }
    ensures some { IfOk result (λ n. 0 < n) }
{
    let mut writer = stream;
    for _ in rt.forever() {
        if has_passed(rt, begun, Duration::from_secs(PATIENCE)) {
            return Err(Failed);
        }
        match writer.write(octets) {
            Ok(0) => return Err(Failed),
            Ok(count) => return Ok(count),
            Err(fault) if fault.kind() == ErrorKind::Interrupted => {}
            Err(fault) if is_late(fault.kind()) => {}
            Err(_) => return Err(Failed),
        }
    }
    unreachable!()
}

/// How a peer takes what is written at once, and wasn't taken whole yet: since when, and how many octets since then.
#[derive(Clone, Copy)]
struct Pace {
    begun: Duration,
    taken: usize,
}

/// What is written to a peer that is to take it in time.
#[derive(Drop)]
pub(crate) struct PatientWriter<'r, 'c, R> {
    rt: &'r R,
    stream: &'c TcpStream,
    pub(crate) has_failed: bool,
    pace: Option<Pace>,
}

impl<'r, 'c, R: Wait + Clock> PatientWriter<'r, 'c, R> {
    /// What is written to `stream`, of which nothing is written yet.
    pub(crate) fn new(rt: &'r R, stream: &'c TcpStream) -> PatientWriter<'r, 'c, R>
        ensures { result.has_failed ≡ false }
    {
        PatientWriter {
            rt,
            stream,
            has_failed: false,
            pace: None,
        }
    }

    /// Notes that `count` octets were taken, and that others of the same write were not.
    fn go_on(&mut self, pace: Pace, count: usize)
        ensures { self.new.has_failed ≡ self.old.has_failed }
    {
        let taken = pace.taken.saturating_add(count);
        self.pace = if taken < LEAST_TAKEN {
            Some(Pace { taken, ..pace })
        } else {
            Some(Pace {
                begun: now(self.rt),
                taken: 0,
            })
        };
    }
}

impl<R: Wait + Clock> Sink for PatientWriter<'_, '_, R> {
    ghost contents = { λ _. None };

    ghost has_failed = { λ writer. writer.has_failed };

    fn write(&mut self, octets: &[u8]) -> Result<usize, Failed> {
        if octets.is_empty() {
            return Ok(0);
        }
        let pace = match self.pace {
            Some(pace) => pace,
            None => Pace {
                begun: now(self.rt),
                taken: 0,
            },
        };
        match write_on(self.rt, self.stream, octets, pace.begun) {
            Ok(count) => {
                if count == octets.len() {
                    self.pace = None;
                } else {
                    self.go_on(pace, count);
                }
                Ok(count)
            }
            Err(Failed) => {
                self.has_failed = true;
                Err(Failed)
            }
        }
    }
}

/// Tells a peer the end of what it is sent, and takes what it sends until it has closed, or for some seconds: a connection that is
/// closed with octets unread would take back what is still under way.
pub(crate) fn say_farewell<R: Wait + Clock>(rt: &R, stream: &TcpStream) {
    if stream.shutdown(Shutdown::Write).is_err() {
        return;
    }
    let begun = now(rt);
    let mut dropped = [0u8; 4096];
    for _ in rt.forever() {
        match read_on(rt, stream, &mut dropped) {
            Ok(0) => return,
            Ok(_) => {}
            Err(kind) if is_late(kind) => {}
            Err(_) => return,
        }
        if has_passed(rt, begun, Duration::from_secs(FAREWELL)) {
            return;
        }
    }
}
