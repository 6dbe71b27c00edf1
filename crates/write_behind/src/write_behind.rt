//! A writer that leaves writing to a thread.
ghost use Rattle.std.specs.Prelude.{◌≡◌, IfOk};
ghost use Rattle.std.specs.Io.KnownBytes.{Keeps};
ghost use Rattle.write_behind.specs.Holding.{held_in};

use crate::state::{State, start};
use std::alloc::Global;
use std::io::{self, ErrorKind, Write};
use std::sync::Wait;
use std::thread::Threads;

/// A writer that leaves writing to a thread of its own. Contracts see what the inner writer `W` held, and behind it all that was
/// handed over.
///
/// Where the inner writer fails with its thread, a later write or flush answers the error, and then each call does. A flush waits
/// until all is written, and ends the thread; what comes later is written as it comes, and an error then is answered as the inner
/// writer does. Where it is dropped the thread writes what is left, but nobody waits for that.
#[derive(Drop)]
pub struct WriteBehind<W: Write, R> {
    rt: R,
    /// Always there between calls.
    state: Option<State<W>>,
}

impl<W: Write, R> WriteBehind<W, R> {
    /// A writer over `writer` that has no thread, and writes what comes as it comes. `rt` is to wait for a thread.
    pub fn new(rt: R, writer: W) -> WriteBehind<W, R>
        ensures { held_in W.contents result ≡ W.contents writer }
    {
        WriteBehind {
            rt,
            state: Some(State::Here(writer)),
        }
    }
}

impl<
    W: Write + Send + Drop + 'static,
    R: Threads + Wait + Copy + Send + Drop + 'static,
> WriteBehind<W, R> {
    /// A writer over `writer`, for which `rt` starts a thread and waits. Memory is taken from `alloc`. Where no thread is to be had,
    /// or no memory for it, what comes is written as it comes.
    pub fn start(rt: R, alloc: Global, writer: W) -> WriteBehind<W, R>
        ensures { Keeps (W.contents writer) (held_in W.contents result) }
    {
        WriteBehind {
            rt,
            state: Some(start(rt, alloc, writer)),
        }
    }
}

impl<W: Write + Drop, R: Threads + Drop> WriteBehind<W, R> {
    /// The inner writer, when all is written. It is not flushed.
    ///
    /// # Errors
    /// The inner writer has failed, and is dropped.
    pub fn into_inner(mut self) -> io::Result<W>
        ensures { IfOk result (λ w. Keeps (held_in W.contents self) (W.contents w)) }
    {
        self.end()?;
        let WriteBehind { rt: _, state } = self;
        match state {
            Some(State::Here(writer)) => Ok(writer),
            Some(State::Stopped(stopped)) => Err(stopped.why()),
            _ => Err(io::Error::from(ErrorKind::Other)),
        }
    }

    /// Has the thread write what is left, and waits until it has ended.
    ///
    /// # Errors
    /// The inner writer has failed.
    fn end(&mut self) -> io::Result<()>
        ensures { Keeps (held_in W.contents self.old) (held_in W.contents self.new) }
    {
        if let Some(state) = self.state.take() {
            self.state = Some(state.end(&self.rt));
        }
        match &self.state {
            Some(State::Stopped(stopped)) => Err(stopped.why()),
            _ => Ok(()),
        }
    }
}

impl<W: Write + Drop, R: Threads + Wait + Drop> Write for WriteBehind<W, R> {
    ghost contents = { held_in W.contents };

    fn write(&mut self, octets: &[u8]) -> io::Result<usize> {
        let count = match &mut self.state {
            Some(State::Here(writer)) => return writer.write(octets),
            Some(State::Behind(behind)) => behind.hand_over(&self.rt, octets),
            Some(State::Stopped(stopped)) => return Err(stopped.why()),
            None => return Err(io::Error::from(ErrorKind::Other)),
        };
        if count == 0 && !octets.is_empty() {
            // The thread has stopped.
            self.end()?;
            return Err(io::Error::from(ErrorKind::Other));
        }
        Ok(count)
    }

    fn flush(&mut self) -> io::Result<()> {
        self.end()?;
        match &mut self.state {
            Some(State::Here(writer)) => writer.flush(),
            _ => Err(io::Error::from(ErrorKind::Other)),
        }
    }
}
