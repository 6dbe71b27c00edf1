//! Where the device is.
ghost use Rattle.std.specs.Prelude.{◌≡◌, false, is_some, IfOk, IfErr, OnOk, OnErr};
ghost use Rattle.std.specs.Io.KnownBytes.{Appends, Keeps};
ghost use Rattle.octet_io.specs.Device.{device_inner, device_failed};
ghost use Rattle.octet_io.specs.Failing.{FailsOnErr};
ghost use Rattle.rtrb.specs.Ring.{IsPair};
ghost use Rattle.mediator_offline.specs.Failing.{audit_after, StopsLines};
ghost use Rattle.mediator_offline.specs.Lines.{audit_text, WritesBeginning};
ghost use Rattle.audit_behind.specs.Recording.{SettlesTo};
ghost use Rattle.audit_behind.specs.Holding.{held_by, state_failed};

use crate::thread::{Ended, Owed, write_entries};
use disclosure_audit::AuditEntry;
use mediator_offline::{AuditSink, Fault};
use mediator_state::Fault as MediatorFault;
use octet_io::{Device, Failed};
use rtrb::{Consumer, Producer, PushError, RingBuffer};
use std::alloc::{AllocError, Global};
use std::io::{self, ErrorKind, Write};
use std::marker::Model;
use std::mem;
use std::snapshot::Snapshot as Remembered;
use std::sync::{Arc, Wait};
use std::thread::{self, PromisedHandle, Threads};
use write_behind::Gate;

/// How many lists of entries may be handed over that the thread has not taken yet.
const LISTS: usize = 8;

/// How many entries are gathered before they are handed over.
const MANY: usize = 1024;

/// Where the device is.
#[derive(Drop)]
pub(crate) enum State<W: Write> {
    /// Here: lines are written by whoever calls.
    Here(Device<W>),
    /// With its thread.
    Behind(Behind<W>),
    /// Here again, after it failed with its thread, or there was no memory for lines.
    Stopped(Stopped<W>),
}

/// What is kept of a device that its thread has. Contracts see what that device held, and behind it the lines of all entries.
pub(crate) struct Behind<W: Write> {
    gate: Arc<Gate>,
    ring: Producer<Vec<AuditEntry>>,
    thread: PromisedHandle<Ended<W>, Owed<W>>,
    /// The entries that are to be handed over next.
    gathered: Vec<AuditEntry>,
}

impl<W: Write> Model for Behind<W> {
    ghost use Rattle.std.specs.Prelude.{ℕ, List, Option};
    ghost use Rattle.std.specs.Io.KnownBytes.{append_known};
    ghost use Rattle.octet_io.specs.Device.{device_inner};
    ghost use Rattle.rtrb.specs.Ring.{sent, IsPair};
    ghost use Rattle.mediator_offline.specs.Lines.{audit_text};
    ghost use Rattle.audit_behind.specs.Recording.{texts};

    ghost Value = { Option (List ℕ) };

    ghost view = { λ b. append_known
        (append_known (W.contents (device_inner b.thread.promise.device.value)) (texts (sent b.ring)))
        (audit_text b.gathered.items) };

    ghost invariant = { λ b. IsPair b.ring b.thread.promise.ring.value };
}

impl<W: Write + Drop> Drop for Behind<W> {
    /// The thread writes what was handed over, and ends.
    fn drop(self) {
        self.gate.close();
        let Behind {
            gate: _,
            ring: _,
            thread: _,
            gathered: _,
        } = self;
    }
}

/// A device that failed, or for whose lines there was no memory, and the entries whose lines it did not take. Contracts see what
/// it holds, and behind it these lines.
#[derive(Drop)]
pub(crate) struct Stopped<W: Write> {
    ended: Ended<W>,
    gathered: Vec<AuditEntry>,
}

impl<W: Write> Model for Stopped<W> {
    ghost use Rattle.std.specs.Prelude.{ℕ, List, Option};
    ghost use Rattle.std.specs.Io.KnownBytes.{append_known};
    ghost use Rattle.octet_io.specs.Device.{device_inner};
    ghost use Rattle.rtrb.specs.Ring.{known_items};
    ghost use Rattle.mediator_offline.specs.Lines.{audit_text};
    ghost use Rattle.audit_behind.specs.Recording.{texts, lines_left};

    ghost Value = { Option (List ℕ) };

    ghost view = { λ s. append_known
        (append_known (append_known (W.contents (device_inner s.ended.device)) (lines_left s.ended)) (texts (known_items s.ended.ring)))
        (audit_text s.gathered.items) };
}

impl<W: Write> Stopped<W> {
    /// Why it stopped.
    pub(crate) fn why(&self) -> io::Error {
        if self.ended.device.has_failed() {
            self.ended.device.why()
        } else {
            io::Error::from(ErrorKind::OutOfMemory)
        }
    }
}

impl<W: Write> State<W> {
    /// Takes `entries`, whose lines are due next.
    ///
    /// # Errors
    /// The device has failed, or there was no memory for lines before; or want of memory, and then nothing has changed.
    pub(crate) fn write_entries<R: Threads + Wait>(
        self,
        rt: &R,
        alloc: Global,
        entries: Vec<AuditEntry>,
    ) -> (State<W>, Result<(), Fault>)
        ensures ok { OnOk result.1 (Appends (held_by W.contents self) (held_by W.contents result.0)
            (audit_text entries.items)) }
        ensures stays { OnOk result.1 (state_failed result.0 ≡ state_failed self) }
        ensures cause { IfErr result.1 (λ e. StopsLines e (state_failed result.0)) }
        ensures fails { IfErr result.1 (λ e. state_failed result.0 ≡ audit_after e (state_failed self)) }
        ensures err { OnErr result.1 (WritesBeginning (held_by W.contents self)
            (held_by W.contents result.0) (audit_text entries.items)) }
    {
        match self {
            State::Here(device) => {
                let mut device = device;
                let answer = device.write_entries(alloc, entries);
                (State::Here(device), answer)
            }
            State::Behind(behind) => behind.write_entries(rt, entries),
            State::Stopped(stopped) => (State::Stopped(stopped), Err(Fault::AuditWrite)),
        }
    }

    /// Sees that all lines have left, and that there is no thread.
    ///
    /// # Errors
    /// The device has failed, or there was no memory for lines.
    pub(crate) fn flush<R: Threads + Wait>(self, rt: &R) -> (State<W>, Result<(), Failed>)
        ensures kept { Keeps (held_by W.contents self) (held_by W.contents result.0) }
        ensures failed { FailsOnErr (state_failed self) (state_failed result.0) result.1 }
    {
        match self {
            State::Here(device) => flushed(device),
            State::Behind(behind) => behind.flush(rt),
            State::Stopped(stopped) => (State::Stopped(stopped), Err(Failed)),
        }
    }

    /// Why it failed, where it has.
    pub(crate) fn failure(&self) -> Option<io::Error>
        ensures { is_some result ≡ state_failed self.now }
    {
        match self {
            State::Here(device) => device.failure(),
            State::Behind(_) => None,
            State::Stopped(stopped) => Some(stopped.why()),
        }
    }
}

/// A device that is here, after a flush.
fn flushed<W: Write>(device: Device<W>) -> (State<W>, Result<(), Failed>)
    ensures kept { Keeps (W.contents (device_inner device)) (held_by W.contents result.0) }
    ensures failed { FailsOnErr (device_failed device) (state_failed result.0) result.1 }
{
    let mut device = device;
    let answer = device.flush();
    (State::Here(device), answer)
}

impl<W: Write> Behind<W> {
    /// Takes `entries`, and hands over what was gathered where it is much.
    ///
    /// # Errors
    /// The thread has stopped; or want of memory, and then nothing has changed.
    #[tactic(auto, using(crate::proofs::RecordingLaws::writes_all, crate::proofs::RecordingLaws::writes_nothing))]
    fn write_entries<R: Threads + Wait>(
        self,
        rt: &R,
        entries: Vec<AuditEntry>,
    ) -> (State<W>, Result<(), Fault>)
        ensures ok { OnOk result.1
            (Appends self (held_by W.contents result.0) (audit_text entries.items)) }
        ensures stays { OnOk result.1 (state_failed result.0 ≡ false) }
        ensures cause { IfErr result.1 (λ e. StopsLines e (state_failed result.0)) }
        ensures fails { IfErr result.1 (λ e. state_failed result.0 ≡ audit_after e false) }
        ensures err { OnErr result.1 (WritesBeginning self
            (held_by W.contents result.0) (audit_text entries.items)) }
    {
        let mut behind = self;
        if behind.gather(entries).is_err() {
            let fault = Fault::Mediator(MediatorFault::OutOfMemory);
            return (State::Behind(behind), Err(fault));
        }
        if behind.gathered.len() < MANY || behind.hand_over(rt) {
            return (State::Behind(behind), Ok(()));
        }
        (State::Stopped(behind.stopped(rt)), Err(Fault::AuditWrite))
    }

    /// Sees that all lines have left, and that the thread has ended.
    ///
    /// # Errors
    /// The device has failed, or there was no memory for lines.
    fn flush<R: Threads + Wait>(self, rt: &R) -> (State<W>, Result<(), Failed>)
        ensures kept { Keeps self (held_by W.contents result.0) }
        ensures failed { FailsOnErr false (state_failed result.0) result.1 }
    {
        let mut behind = self;
        if !behind.gathered.is_empty() && !behind.hand_over(rt) {
            return (State::Stopped(behind.stopped(rt)), Err(Failed));
        }
        match behind.end(rt) {
            Ok(device) => flushed(device),
            Err(stopped) => (State::Stopped(stopped), Err(Failed)),
        }
    }

    /// Takes `entries` behind those that were gathered.
    ///
    /// # Errors
    /// Want of memory, and then nothing has changed.
    #[tactic(auto, using(crate::proofs::RecordingLaws::gathers))]
    fn gather(&mut self, entries: Vec<AuditEntry>) -> Result<(), AllocError>
        ensures ok { OnOk result (Appends self.old self.new (audit_text entries.items)) }
        ensures err { OnErr result (Keeps self.old self.new) }
    {
        let mut entries = entries;
        match self.gathered.append(&mut entries) {
            Ok(()) => Ok(()),
            Err(refused) => Err(refused),
        }
    }

    /// Hands over what was gathered, and answers whether it did: it didn't where the thread has stopped. It waits on `rt` while
    /// there is no room.
    #[tactic(auto, using(crate::proofs::RecordingLaws::moves))]
    fn hand_over<R: Wait>(&mut self, rt: &R) -> bool
        ensures { Keeps self.old self.new }
    {
        let alloc = *self.gathered.allocator();
        let mut entries = mem::replace(&mut self.gathered, Vec::new(alloc));
        for _ in rt.forever() {
            if self.gate.has_stopped() {
                self.gathered = entries;
                return false;
            }
            match self.ring.push(entries) {
                Ok(()) => {
                    self.gate.tell_octets();
                    return true;
                }
                Err(PushError::Full(back)) => entries = back,
            }
            self.gate.wait_for_room(rt);
        }
        unreachable!()
    }

    /// The device again, when its thread has written what was handed over.
    ///
    /// # Errors
    /// What is left where not all was written.
    fn end<R: Threads>(self, rt: &R) -> Result<Device<W>, Stopped<W>>
        ensures ok { IfOk result (λ device. Keeps self (W.contents (device_inner device))
            × (device_failed device ≡ false)) }
        ensures err { IfErr result (λ stopped. Keeps self stopped) }
    {
        self.gate.close();
        let Behind {
            gate: _,
            ring,
            thread,
            gathered,
        } = self;
        settled(thread.join(rt), ring, gathered)
    }

    /// What is left of a thread that has stopped.
    fn stopped<R: Threads>(self, rt: &R) -> Stopped<W>
        ensures { Keeps self result }
    {
        self.gate.close();
        let Behind {
            gate: _,
            ring,
            thread,
            gathered,
        } = self;
        left_over(thread.join(rt), ring, gathered)
    }
}

/// Has a thread write the lines of entries to `device`, where memory and a thread are there.
pub(crate) fn start<
    W: Write + Send + Drop + 'static,
    R: Threads + Wait + Copy + Send + Drop + 'static,
>(rt: R, alloc: Global, device: Device<W>) -> State<W>
    ensures kept { Keeps (W.contents (device_inner device)) (held_by W.contents result) }
{
    if device.has_failed() {
        return State::Here(device);
    }
    let Ok((gate, theirs)) = gates(alloc) else {
        return State::Here(device);
    };
    let Ok((producer, consumer)) = RingBuffer::new(alloc, LISTS) else {
        return State::Here(device);
    };
    let owed = Owed {
        device: Remembered::of(&device),
        ring: Remembered::of(&consumer),
    };
    match thread::spawn_with(&rt, owed, move || {
        write_entries(rt, alloc, theirs, device, consumer)
    }) {
        Ok(thread) => State::Behind(Behind {
            gate,
            ring: producer,
            thread,
            gathered: Vec::new(alloc),
        }),
        Err(refused) => {
            // What the thread would have done is done here: that nothing is left.
            gate.close();
            match settled((refused.value)(), producer, Vec::new(alloc)) {
                Ok(device) => State::Here(device),
                Err(stopped) => State::Stopped(stopped),
            }
        }
    }
}

/// A gate, for two threads.
///
/// # Errors
/// Want of memory.
fn gates(alloc: Global) -> Result<(Arc<Gate>, Arc<Gate>), AllocError> {
    let gate = Arc::new(alloc, Gate::new())?;
    let theirs = gate.clone()?;
    Ok((gate, theirs))
}

/// What is left after the thread has ended, to which entries were handed through `producer`, and `gathered` were not.
fn left_over<W: Write>(
    ended: Ended<W>,
    producer: Producer<Vec<AuditEntry>>,
    gathered: Vec<AuditEntry>,
) -> Stopped<W>
    requires pair { IsPair producer ended.ring }
    ensures { SettlesTo W.contents ended producer gathered result }
{
    let mut producer = producer;
    let mut ended = ended;
    ended.ring.slots_beside(&mut producer);
    Stopped { ended, gathered }
}

/// The device after its thread has ended, to which entries were handed through `producer`, and of which `gathered` are left.
///
/// # Errors
/// What is left where not all was written.
fn settled<W: Write>(
    ended: Ended<W>,
    producer: Producer<Vec<AuditEntry>>,
    gathered: Vec<AuditEntry>,
) -> Result<Device<W>, Stopped<W>>
    requires pair { IsPair producer ended.ring }
    ensures ok { IfOk result (λ device. SettlesTo W.contents ended producer gathered
        (W.contents (device_inner device)) × (device_failed device ≡ false)) }
    ensures err { IfErr result (λ stopped. SettlesTo W.contents ended producer gathered stopped) }
{
    let mut producer = producer;
    let mut ended = ended;
    let waiting = ended.ring.slots_beside(&mut producer);
    if waiting > 0
        || !ended.entries.is_empty()
        || !gathered.is_empty()
        || ended.device.has_failed()
    {
        return Err(Stopped { ended, gathered });
    }
    let Ended {
        device,
        ring: _,
        entries: _,
        sent: _,
    } = ended;
    Ok(device)
}
