//! An audit whose lines are written by a thread.
ghost use Rattle.std.specs.Io.KnownBytes.{Keeps};
ghost use Rattle.octet_io.specs.Device.{device_inner};
ghost use Rattle.audit_behind.specs.Holding.{lines_held_in, audit_failed};

use crate::state::{State, start};
use disclosure_audit::AuditEntry;
use mediator_offline::{AuditSink, Fault};
use octet_io::{Device, Failed};
use std::alloc::Global;
use std::io::{self, ErrorKind, Write};
use std::sync::Wait;
use std::thread::Threads;

/// An audit whose lines are made and written by a thread of its own. Contracts see what the device over `W` held, and behind it the
/// lines of all entries that it took.
///
/// Where the device fails with its thread, or there is no memory for lines there, a later call answers that, and then each does. A
/// flush waits until all is written, and ends the thread; what comes later is written as it comes, and the device answers for it.
#[derive(Drop)]
pub struct AuditBehind<W: Write, R> {
    rt: R,
    /// Always there between calls.
    state: Option<State<W>>,
}

impl<
    W: Write + Send + Drop + 'static,
    R: Threads + Wait + Copy + Send + Drop + 'static,
> AuditBehind<W, R> {
    /// An audit over `device`, for which `rt` starts a thread and waits. Memory is taken from `alloc`. Where no thread is to be had,
    /// or no memory for it, lines are written as entries come.
    pub fn start(rt: R, alloc: Global, device: Device<W>) -> AuditBehind<W, R>
        ensures { Keeps (W.contents (device_inner device)) (lines_held_in W.contents result) }
    {
        AuditBehind {
            rt,
            state: Some(start(rt, alloc, device)),
        }
    }
}

impl<W: Write + Drop, R: Threads + Wait + Drop> AuditSink for AuditBehind<W, R> {
    ghost contents = { lines_held_in W.contents };

    ghost has_failed = { audit_failed };

    fn write_entries(&mut self, alloc: Global, entries: Vec<AuditEntry>) -> Result<(), Fault> {
        let Some(state) = self.state.take() else {
            return Err(Fault::AuditWrite);
        };
        let (state, answer) = state.write_entries(&self.rt, alloc, entries);
        self.state = Some(state);
        answer
    }

    fn failure(&self) -> Option<io::Error> {
        match &self.state {
            Some(state) => state.failure(),
            None => Some(io::Error::from(ErrorKind::Other)),
        }
    }

    fn flush_lines(&mut self) -> Result<(), Failed> {
        let Some(state) = self.state.take() else {
            return Err(Failed);
        };
        let (state, answer) = state.flush(&self.rt);
        self.state = Some(state);
        answer
    }
}
