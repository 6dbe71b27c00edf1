//! Serves an exporter's stream: reads its messages, prepares them without the lock, and offers them to the mediator.
ghost use Rattle.std.specs.Prelude.{◌≡◌, ◌≤◌, ◌-◌, ◌++◌, ◌∷◌, [], ℕ, List, false, length, IfOk, IfErr, IfSome, OnOk, OnErr, IsTrue};
ghost use Rattle.ipfix_message.specs.FramerState.{nothing_fed};
ghost use Rattle.event_journal.specs.declared.entry.Entry.TheVariants.{Message};
ghost use Rattle.prepared_message.specs.Holding.{CountsTooMany, IsAheadOf};
ghost use Rattle.mediator_connections.specs.Serving.{IsRefusalOf, IsTooWideAt, Offers, RefusesAmong, Reaches, StopsServing, Serves, most_read};
ghost use Rattle.mediator_connections.specs.Faults.{fails_reader};

use crate::control::{Patience, Reception};
use crate::fault::Fault;
use crate::room::wait_for_room;
use bytes::Bytes;
use decode_workers::Workers;
use ipfix_reader::Intake;
use mediator_shares::Workspace;
use mediator_state::{Fault as MediatorFault, Receipt};
use octet_io::Source;
use prepared_message::{Fault as PrepareFault, JudgedAhead, Prepared, Snapshot};
use shared_mediator::{EntryLedger, ExporterHandle, RecordLedger, SharedMediator};
use std::alloc::{AllocError, Global};
use std::sync::Wait;
use std::thread::Scope;

/// How a stream is read: by how many reads, and what each brings by how many threads.
#[derive(Clone, Copy, Debug, PartialEq, Eq)]
struct Pace {
    /// The most reads.
    turns: u64,
    /// The threads that prepare what one read brought.
    workers: u64,
}

/// What an exporter's stream brought.
#[derive(Clone, Copy, Debug, PartialEq, Eq)]
pub struct ServedExporter {
    /// The messages that were accepted.
    pub messages: u64,
    /// The Data Records in them.
    pub records: u64,
    /// The gaps in their Sequence Numbers (RFC 7011, section 3.1).
    pub gaps: u64,
}

/// The records in messages, and the gaps in their sequence numbers; and what was worked out for these messages, for those to come.
#[derive(Drop)]
struct Progress {
    records: u64,
    gaps: u64,
    workspace: Workspace,
}

impl Progress {
    /// No message yet.
    const fn none() -> Progress {
        Progress {
            records: 0,
            gaps: 0,
            workspace: Workspace::new(),
        }
    }

    /// Adds one message more, which has this receipt.
    fn add(&mut self, receipt: &Receipt) {
        self.records = self.records.saturating_add(receipt.records as u64);
        if receipt.gap.is_some() {
            self.gaps = self.gaps.saturating_add(1);
        }
    }

    /// What a stream brought in which this many messages were accepted.
    const fn of(&self, messages: u64) -> ServedExporter
        ensures { result.messages ≡ messages }
    {
        ServedExporter {
            messages,
            records: self.records,
            gaps: self.gaps,
        }
    }
}

/// Serves an exporter's connection, and answers what it brought. It reads the stream from `reader` (RFC 7011, section 10.4) to
/// its end, by at most `turns` reads, and offers each of its messages to the mediator of `shared`, through `handle`. Whatever
/// comes, the handle's session is closed then; where the mediator refuses that, it stays open.
///
/// The messages that one read made whole are prepared without the lock, by as many threads as `workers` says, 1 to 64, where other
/// numbers are as good as the nearest of these; and those that are prepared are offered meanwhile. This thread is one of them. `scope`
/// starts the others once a read brings several messages, and they stay until the stream ends. All wait on `rt`. Messages that can't
/// be prepared are judged without the lock and read under it. Memory is taken from `alloc`.
///
/// Before a message is offered, `reception` has it wait for room in the queues of those to whom it would give records, as long as
/// `reception` has patience. Behind each message that was accepted, `reception` is told of it.
///
/// How many records count is found out without the lock. So a message of which nothing was judged for want of memory, or whose
/// judgement is stale when the lock is taken, since there was an edit, an advance or another subscription meanwhile, is taken in
/// whatever counts.
///
/// # Errors
/// `Read` where the reader failed; `Framing` where the stream is faulty, or ends inside a message; `Turns` where its end isn't
/// read within `turns` reads; `TooWide` where a message is too wide to be offered
/// ([`Snapshot::is_too_wide`](prepared_message::Snapshot::is_too_wide)); `TooManyCounts` where too many of its records count in
/// aggregates ([`JudgedAhead::counts_too_many`]); or `Mediator` where the mediator refuses a message, or memory ran out. The
/// messages before that were accepted, and what they brought stands beside the fault.
pub fn serve_exporter<
    's,
    'r: 's,
    X: 's,
    E: EntryLedger,
    H: RecordLedger,
    R: Source,
    O: Reception,
    T: Wait + Sync,
>(
    rt: &'r T,
    alloc: Global,
    shared: &SharedMediator<E, H>,
    handle: &mut ExporterHandle<E>,
    reader: &mut R,
    turns: u64,
    workers: u64,
    reception: &O,
    scope: &Scope<'s, X>,
) -> Result<ServedExporter, (Fault, ServedExporter)>
    requires reader { R.has_failed reader.old ≡ false }
    // All of the stream was read, and each of its messages was accepted.
    ensures serves { IfOk result (λ served. Serves (most_read workers) turns served.messages
        (R.remaining reader.old) (R.remaining reader.new) handle.old handle.new) }
    ensures sound { OnOk result (R.has_failed reader.new ≡ false) }
    // Where it stopped, and which messages were accepted before.
    ensures stops { IfErr result (λ e. StopsServing e.0 (most_read workers) turns
        (R.remaining reader.old) (R.remaining reader.new) handle.old handle.new) }
    ensures counted { IfErr result (λ e.
        e.1.messages ≡ length handle.new.kept - length handle.old.kept) }
    ensures fails { IfErr result (λ e. R.has_failed reader.new ≡ fails_reader e.0) }
{
    let before = handle.kept().len();
    let mut progress = Progress::none();
    let pace = Pace { turns, workers };
    let brought = &mut progress;
    let offered = offer_stream(
        rt, alloc, shared, handle, reader, pace, brought, reception, scope,
    );
    // Whether the session could be closed changes nothing of what was served.
    let _closed = handle.end(rt, shared);
    match offered {
        Ok(messages) => Ok(progress.of(messages)),
        Err(fault) => {
            let messages = handle.kept().len().saturating_sub(before);
            Err((fault, progress.of(messages as u64)))
        }
    }
}

/// Reads a stream to its end, offers its messages, and answers how many they are. The threads that help are started by `scope`.
///
/// # Errors
/// Those of [`serve_exporter`].
fn offer_stream<
    's,
    'r: 's,
    X: 's,
    E: EntryLedger,
    H: RecordLedger,
    R: Source,
    O: Reception,
    T: Wait + Sync,
>(
    rt: &'r T,
    alloc: Global,
    shared: &SharedMediator<E, H>,
    handle: &mut ExporterHandle<E>,
    reader: &mut R,
    pace: Pace,
    progress: &mut Progress,
    reception: &O,
    scope: &Scope<'s, X>,
) -> Result<u64, Fault>
    requires reader { R.has_failed reader.old ≡ false }
    // All of the stream was read, and each of its messages was accepted.
    ensures serves { IfOk result (λ offered. Serves (most_read pace.workers) pace.turns offered
        (R.remaining reader.old) (R.remaining reader.new) handle.old handle.new) }
    ensures sound { OnOk result (R.has_failed reader.new ≡ false) }
    // Where it stopped, and which messages were accepted before.
    ensures stops { IfErr result (λ e. StopsServing e (most_read pace.workers) pace.turns
        (R.remaining reader.old) (R.remaining reader.new) handle.old handle.new) }
    ensures fails { IfErr result (λ e. R.has_failed reader.new ≡ fails_reader e) }
{
    let before = handle.kept().len();
    let mut intake = intake_at(alloc, pace)?;
    let mut workers = Workers::new(alloc, pace.workers);
    'reads: loop {
        let Some(messages) = intake.next(reader)? else {
            return Ok((handle.kept().len() - before) as u64);
        };
        ask_for(rt, shared, handle, &messages, &mut workers, scope);
        offer_piece(
            rt,
            shared,
            handle,
            messages,
            &mut workers,
            progress,
            reception,
        )?;
    }
}

/// The intake of a stream that is read at this pace. Its reads widen where several workers prepare what one brings.
///
/// # Errors
/// Want of memory.
fn intake_at(alloc: Global, pace: Pace) -> Result<Intake, AllocError>
    ensures { IfOk result (λ i. (i.framing ≡ nothing_fed) × (i.turns ≡ pace.turns)
        × (i.most ≤ most_read pace.workers)) }
{
    if pace.workers > 1 {
        Intake::widening(alloc, pace.turns)
    } else {
        Intake::new(alloc, pace.turns)
    }
}

/// Asks for the messages of one piece to be prepared without the lock, by `workers`, whose threads `scope` starts. Nothing is asked where
/// the session has no snapshot to give, or for want of memory.
fn ask_for<'s, 'r: 's, X: 's, E: EntryLedger, H: RecordLedger, T: Wait + Sync>(
    rt: &'r T,
    shared: &SharedMediator<E, H>,
    handle: &ExporterHandle<E>,
    messages: &Vec<Bytes>,
    workers: &mut Workers,
    scope: &Scope<'s, X>,
) {
    let Ok(snapshot) = handle.snapshot(rt, shared) else {
        return;
    };
    if let Ok(copies) = messages.clone() {
        // What isn't prepared is judged as it is offered.
        let _asked = workers.ask(rt, scope, snapshot, copies);
    }
}

/// Offers the messages of one piece, and wakes the deliveries then: so each wakes once for a piece, and not for each message.
///
/// # Errors
/// The refusal of the first that is refused.
fn offer_piece<E: EntryLedger, H: RecordLedger, O: Reception>(
    rt: &impl Wait,
    shared: &SharedMediator<E, H>,
    handle: &mut ExporterHandle<E>,
    messages: Vec<Bytes>,
    workers: &mut Workers,
    progress: &mut Progress,
    reception: &O,
) -> Result<(), Fault>
    ensures ok { OnOk result (Offers handle.old handle.new messages.items) }
    ensures err { IfErr result (λ e. RefusesAmong e handle.old handle.new messages.items) }
{
    let offered = offer_each(rt, shared, handle, messages, workers, progress, reception);
    shared.wake(rt);
    offered
}

/// Offers messages, one after another: as `workers` prepared them, or plainly those that weren't.
///
/// # Errors
/// The refusal of the first that is refused.
fn offer_each<E: EntryLedger, H: RecordLedger, O: Reception>(
    rt: &impl Wait,
    shared: &SharedMediator<E, H>,
    handle: &mut ExporterHandle<E>,
    messages: Vec<Bytes>,
    workers: &mut Workers,
    progress: &mut Progress,
    reception: &O,
) -> Result<(), Fault>
    ensures ok { OnOk result (Offers handle.old handle.new messages.items) }
    ensures err { IfErr result (λ e. RefusesAmong e handle.old handle.new messages.items) }
{
    'messages: for message in messages {
        let octets = message.len();
        let prepared = workers.next(rt, &message);
        let workspace = &mut progress.workspace;
        let receipt = offer_one(rt, shared, handle, prepared, message, workspace, reception)?;
        progress.add(&receipt);
        reception.accept(&receipt, octets);
    }
    Ok(())
}

/// Offers a message as it was prepared, once there is room for what it gives; or with what is judged of it ahead, where it wasn't
/// prepared, or too many of its records count, or the session has other templates by then.
///
/// # Errors
/// The mediator's refusal; or the message is too wide, or too many of its records count.
fn offer_one<E: EntryLedger, H: RecordLedger, P: Patience>(
    rt: &impl Wait,
    shared: &SharedMediator<E, H>,
    handle: &mut ExporterHandle<E>,
    prepared: Option<Prepared>,
    message: Bytes,
    workspace: &mut Workspace,
    patience: &P,
) -> Result<Receipt, Fault>
    requires prepared { IfSome prepared (λ p. p.message ≡ message) }
    // The message was accepted, and the handle keeps its receipt.
    ensures kept { IfOk result (λ receipt.
        handle.new.kept ≡ handle.old.kept ++ record {
          position = receipt.position;
          entry = Message handle.old.session (length handle.old.kept) message;
        } ∷ []) }
    ensures session { handle.new.session ≡ handle.old.session }
    // It was refused, and nothing has changed.
    ensures unchanged { OnErr result (handle.new ≡ handle.old) }
    ensures refuses { IfErr result (λ e. IsRefusalOf e message) }
{
    let Some(prepared) = prepared else {
        return offer_judged(rt, shared, handle, message, workspace, patience, 0);
    };
    // By the session's templates of now it may be other records.
    if prepared.counts_too_many() {
        return offer_judged(rt, shared, handle, message, workspace, patience, 0);
    }
    let waited = wait_for_room(rt, shared, prepared.shares(), patience, 0);
    match handle.offer_prepared_silently(rt, shared, prepared) {
        Ok(receipt) => Ok(receipt),
        Err((MediatorFault::Stale, _prepared)) => {
            offer_judged(rt, shared, handle, message, workspace, patience, waited)
        }
        Err((fault, _prepared)) => Err(Fault::from(fault)),
    }
}

/// Judges a message without the lock, by the session's templates as they are now, and offers it with what was judged, once there
/// is room for what it gives. `waited` is how often it has waited for that before. Where it can't be judged, the offer tells why.
///
/// # Errors
/// Those of [`offer_one`].
fn offer_judged<E: EntryLedger, H: RecordLedger, P: Patience>(
    rt: &impl Wait,
    shared: &SharedMediator<E, H>,
    handle: &mut ExporterHandle<E>,
    message: Bytes,
    workspace: &mut Workspace,
    patience: &P,
    waited: u64,
) -> Result<Receipt, Fault>
    ensures kept { IfOk result (λ receipt.
        handle.new.kept ≡ handle.old.kept ++ record {
          position = receipt.position;
          entry = Message handle.old.session (length handle.old.kept) message;
        } ∷ []) }
    ensures session { handle.new.session ≡ handle.old.session }
    ensures unchanged { OnErr result (handle.new ≡ handle.old) }
    ensures refuses { IfErr result (λ e. IsRefusalOf e message) }
{
    let snapshot = handle.snapshot(rt, shared)?;
    if is_too_wide(&snapshot, &message)? {
        return Err(Fault::TooWide);
    }
    let ahead = judged_ahead(&snapshot, &message, workspace);
    if counts_too_many(&ahead) {
        return Err(Fault::TooManyCounts);
    }
    wait_for_judged(rt, shared, &ahead, patience, waited);
    Ok(handle.offer_judged_silently(rt, shared, message, ahead)?)
}

/// Waits for room for what was judged of a message ahead, where anything was. `waited` is how often it has waited for that
/// before.
fn wait_for_judged<E: EntryLedger, H: RecordLedger, P: Patience>(
    rt: &impl Wait,
    shared: &SharedMediator<E, H>,
    ahead: &Option<JudgedAhead>,
    patience: &P,
    waited: u64,
) {
    if let Some(ahead) = ahead {
        let _turns = wait_for_room(rt, shared, ahead.shares(), patience, waited);
    }
}

/// Whether a message is too wide by these templates. Octets that are no message aren't.
///
/// # Errors
/// Want of memory.
fn is_too_wide(snapshot: &Snapshot, message: &Bytes) -> Result<bool, AllocError>
    ensures { IfOk result (λ wide. IsTrue wide → IsTooWideAt message.now) }
{
    match snapshot.is_too_wide(message) {
        Ok(wide) => Ok(wide),
        Err(PrepareFault::OutOfMemory) => Err(AllocError),
        Err(PrepareFault::HasTemplates | PrepareFault::Malformed) => Ok(false),
    }
}

/// What is judged of a message ahead, if that is possible.
fn judged_ahead(
    snapshot: &Snapshot,
    message: &Bytes,
    workspace: &mut Workspace,
) -> Option<JudgedAhead>
    ensures { IfSome result (IsAheadOf message.now) }
{
    JudgedAhead::of(snapshot, message, workspace).ok()?
}

/// Whether too many records of a message count, by what was judged of it ahead. Not where nothing was.
fn counts_too_many(ahead: &Option<JudgedAhead>) -> bool
    ensures { (message : List ℕ) → IfSome ahead.now (IsAheadOf message) → IsTrue result
        → CountsTooMany message }
{
    match ahead {
        Some(ahead) => ahead.counts_too_many(),
        None => false,
    }
}
