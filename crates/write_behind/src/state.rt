//! Where the inner writer is.
ghost use Rattle.std.specs.Prelude.{◌≤◌, ℕ, List, Option, length, take};
ghost use Rattle.std.specs.Io.KnownBytes.{Appends, Keeps, append_known};
ghost use Rattle.rtrb.specs.Ring.{sent, received, IsPair};
ghost use Rattle.write_behind.specs.Passing.{left_of};
ghost use Rattle.write_behind.specs.Holding.{held_by};

use crate::gate::Gate;
use crate::thread::{Ended, Owed, write_pieces};
use rtrb::{Consumer, Producer, RingBuffer};
use std::alloc::{AllocError, Global};
use std::io::{self, ErrorKind, Write};
use std::marker::Model;
use std::snapshot::Snapshot as Remembered;
use std::sync::{Arc, Wait};
use std::thread::{self, PromisedHandle, Threads};

/// How many octets may be handed over that the thread has not taken yet.
const ROOM: usize = 524_288;

/// The most octets that the thread writes at once.
const PIECE: usize = 65_536;

/// Where the inner writer is.
#[derive(Drop)]
pub(crate) enum State<W: Write> {
    /// Here: it is written to by whoever calls.
    Here(W),
    /// With its thread.
    Behind(Behind<W>),
    /// Here again, after it failed with its thread.
    Stopped(Stopped<W>),
}

/// What is kept of an inner writer that its thread has. Contracts see what that writer held, and behind it what was handed over.
pub(crate) struct Behind<W: Write> {
    gate: Arc<Gate>,
    ring: Producer<u8>,
    thread: PromisedHandle<Ended<W>, Owed<W>>,
}

impl<W: Write> Model for Behind<W> {
    ghost use Rattle.std.specs.Prelude.{ℕ, List, Option};
    ghost use Rattle.std.specs.Io.KnownBytes.{append_known};
    ghost use Rattle.rtrb.specs.Ring.{sent, IsPair};

    ghost Value = { Option (List ℕ) };

    ghost view = { λ b. append_known (W.contents b.thread.promise.writer.value) (sent b.ring) };

    ghost invariant = { λ b. IsPair b.ring b.thread.promise.ring.value };
}

impl<W: Write + Drop> Drop for Behind<W> {
    /// The thread writes what is left, and ends.
    fn drop(self) {
        self.gate.close();
        let Behind {
            gate: _,
            ring: _,
            thread: _,
        } = self;
    }
}

/// An inner writer that failed, and what it did not take. Contracts see what it holds, and behind it what it did not take.
#[derive(Drop)]
pub(crate) struct Stopped<W: Write> {
    writer: W,
    ring: Consumer<u8>,
    piece: Vec<u8>,
    sent: usize,
    why: io::Error,
}

impl<W: Write> Model for Stopped<W> {
    ghost use Rattle.std.specs.Prelude.{ℕ, List, Option, drop};
    ghost use Rattle.std.specs.Io.KnownBytes.{append_known};
    ghost use Rattle.rtrb.specs.Ring.{known_items};

    ghost Value = { Option (List ℕ) };

    ghost view = { λ s. append_known
        (append_known (W.contents s.writer) (drop s.sent s.piece.items)) (known_items s.ring) };
}

impl<W: Write> Stopped<W> {
    /// Why the writer failed.
    pub(crate) fn why(&self) -> io::Error {
        self.why
    }
}

impl<W: Write> Behind<W> {
    /// Has the thread write what is left, and waits until it has ended.
    fn end<R: Threads>(self, rt: &R) -> State<W>
        ensures { Keeps self (held_by W.contents result) }
    {
        self.gate.close();
        let Behind {
            gate: _,
            ring,
            thread,
        } = self;
        settled(thread.join(rt), ring)
    }

    /// Hands over octets of the front of `octets`, and answers how many: none where there are none, or the thread has stopped.
    /// It waits on `rt` while there is no room.
    pub(crate) fn hand_over<R: Wait>(&mut self, rt: &R, octets: &[u8]) -> usize
        ensures bound { result ≤ length octets.now }
        ensures handed { Appends self.old self.new (take result octets.now) }
    {
        if octets.is_empty() {
            return 0;
        }
        for _ in rt.forever() {
            if self.gate.has_stopped() {
                return 0;
            }
            let (pushed, _) = self.ring.push_partial_slice(octets);
            if !pushed.is_empty() {
                self.gate.tell_octets();
                return pushed.len();
            }
            self.gate.wait_for_room(rt);
        }
        unreachable!()
    }
}

/// Has a thread write to `writer`, where memory and a thread are there.
pub(crate) fn start<
    W: Write + Send + Drop + 'static,
    R: Threads + Wait + Copy + Send + Drop + 'static,
>(rt: R, alloc: Global, writer: W) -> State<W>
    ensures { Keeps (W.contents writer) (held_by W.contents result) }
{
    let Ok((gate, theirs)) = gates(alloc) else {
        return State::Here(writer);
    };
    let Ok((producer, consumer)) = RingBuffer::new(alloc, ROOM) else {
        return State::Here(writer);
    };
    let Ok(piece) = Vec::from_elem(alloc, 0u8, PIECE) else {
        return State::Here(writer);
    };
    let owed = Owed {
        writer: Remembered::of(&writer),
        ring: Remembered::of(&consumer),
    };
    match thread::spawn_with(&rt, owed, move || {
        write_pieces(rt, theirs, writer, consumer, piece)
    }) {
        Ok(thread) => State::Behind(Behind {
            gate,
            ring: producer,
            thread,
        }),
        Err(refused) => {
            // What the thread would have done is done here: that nothing is left.
            gate.close();
            settled((refused.value)(), producer)
        }
    }
}

/// A gate, for two threads.
///
/// # Errors
/// Want of memory.
fn gates(alloc: Global) -> Result<(Arc<Gate>, Arc<Gate>), AllocError> {
    let gate = Arc::new(alloc, Gate::new())?;
    let theirs = gate.clone()?;
    Ok((gate, theirs))
}

impl<W: Write> State<W> {
    /// Has the thread write what is left, and waits until it has ended, where there is one.
    pub(crate) fn end<R: Threads>(self, rt: &R) -> State<W>
        ensures { Keeps (held_by W.contents self) (held_by W.contents result) }
    {
        match self {
            State::Behind(behind) => behind.end(rt),
            other => other,
        }
    }
}

/// Where the inner writer is after its thread has ended, to which octets were handed through `producer`.
fn settled<W: Write>(ended: Ended<W>, producer: Producer<u8>) -> State<W>
    requires pair { IsPair producer ended.ring }
    ensures { (first : Option (List ℕ))
        → Appends first (append_known (W.contents ended.writer) (left_of ended)) (received ended.ring)
        → Keeps (append_known first (sent producer)) (held_by W.contents result) }
{
    let mut producer = producer;
    let Ended {
        writer,
        mut ring,
        piece,
        sent,
        fault,
    } = ended;
    let waiting = ring.slots_beside(&mut producer);
    if waiting == 0 && piece.is_empty() && fault.is_none() {
        return State::Here(writer);
    }
    State::Stopped(Stopped {
        writer,
        ring,
        piece,
        sent,
        why: match fault {
            Some(why) => why,
            None => io::Error::from(ErrorKind::Other),
        },
    })
}
