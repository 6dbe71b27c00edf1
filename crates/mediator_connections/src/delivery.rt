//! Delivers a subscription: pulls its messages, and writes them.
ghost use Rattle.std.specs.Prelude.{◌≡◌, ◌+◌, ◌≤◌, ◌<◌, ◌^◌, false, length, drop, IfOk, IfErr, OnOk};
ghost use Rattle.std.specs.Io.KnownBytes.{Appends};
ghost use Rattle.octet_io.specs.Moments.{writer_of};
ghost use Rattle.mediator_connections.specs.Faults.{fails_writer};
ghost use Rattle.mediator_connections.specs.Delivering.{DeliversSome, FailsToDeliver, Sends, StopsSending, EndsOnWrite, handed_octets};

use crate::fault::Fault;
use mediator_calls::SubId;
use mediator_state::Fault as MediatorFault;
use octet_io::{Sink, write_all};
use shared_mediator::{
    AdminHandle, Clock, DeliveryHandle, EntryLedger, Handed, RecordLedger, SharedMediator,
};
use std::alloc::AllocError;
use std::sync::Wait;
use subscriber_stream::MessagePieces;

/// The most octets of a message.
const LONGEST_MESSAGE: u64 = ipfix_octets::message_format::LONGEST_MESSAGE as u64;

/// How many messages are pulled at once at most: those of 1,400 octets are up to 64 KiB together, which are written at once.
const MOST_AT_ONCE: u64 = 46;

/// Delivers the subscription of `handle`, and answers how many octets were sent. It pulls the subscription's messages from the
/// mediator of `shared`, several at once, and writes them to `writer`, until nothing is queued and nothing will be. A message has
/// at most `target` octets where it can be so short, and the Export Time that `clock` shows when it is pulled (RFC 7011, section
/// 3.1). It waits by `rt`.
///
/// Where the writer fails, the subscription is ended through `admin`. Where the mediator refuses that, it stays.
///
/// # Errors
/// `Write` where the writer failed: it says how many octets were sent of all that was pulled. Only messages of the last pull were
/// not sent whole. `Mediator` where the mediator refuses a pull, or the octets sent, with those of one pull more, might not be
/// counted in 64 bits: all that was pulled before is sent. Beside the fault stands how many records waited for the subscription
/// then, before it was ended; 0 where it is no longer live.
pub fn deliver<E: EntryLedger, H: RecordLedger, W: Sink, C: Clock>(
    rt: &impl Wait,
    shared: &SharedMediator<E, H>,
    handle: &mut DeliveryHandle<H>,
    admin: &mut AdminHandle<E>,
    writer: &mut W,
    target: u16,
    clock: &C,
) -> Result<u64, (Fault, u64)>
    requires writer { W.has_failed writer.old ≡ false }
    // All that was pulled was written.
    ensures delivers { IfOk result (λ sent. DeliversSome (C.shows clock.now) target sent
        handle.old handle.new (writer_of (W.contents writer.old) (W.contents writer.new))) }
    ensures sound { OnOk result (W.has_failed writer.new ≡ false) }
    // Where it stopped, and what was written by then.
    ensures stops { IfErr result (λ e.
        FailsToDeliver e.0 (C.shows clock.now) target handle.old handle.new
        (writer_of (W.contents writer.old) (W.contents writer.new)) (W.has_failed writer.new)) }
    ensures fails { IfErr result (λ e. W.has_failed writer.new ≡ fails_writer e.0) }
    // The administrator's handle ends the subscription where the writer failed, and does nothing else.
    ensures unchanged { OnOk result (admin.new ≡ admin.old) }
    ensures gone { IfErr result (λ e. EndsOnWrite e.0 handle.old.sub admin.old admin.new) }
{
    match send_messages(rt, shared, handle, writer, target, clock) {
        Ok(sent) => Ok(sent),
        Err(fault) => {
            let waiting = records_waiting(rt, shared, handle.sub(), admin);
            end_on_write(rt, shared, handle.sub(), admin, fault);
            Err((fault, waiting))
        }
    }
}

/// How many records wait for a subscription; 0 where it isn't live.
fn records_waiting<E: EntryLedger, H: RecordLedger>(
    rt: &impl Wait,
    shared: &SharedMediator<E, H>,
    sub: SubId,
    admin: &AdminHandle<E>,
) -> u64 {
    match admin.status(rt, shared, sub) {
        Ok(status) => u64::from(status.queued),
        Err(_) => 0,
    }
}

/// Ends a subscription where its writer failed. Where the mediator refuses that, it stays.
fn end_on_write<E: EntryLedger, H: RecordLedger>(
    rt: &impl Wait,
    shared: &SharedMediator<E, H>,
    sub: SubId,
    admin: &mut AdminHandle<E>,
    fault: Fault,
)
    ensures { EndsOnWrite fault sub.0 admin.old admin.new }
{
    if let Fault::Write { .. } = fault {
        let _ended = admin.unsubscribe(rt, shared, sub);
    }
}

/// Pulls and writes messages until nothing is queued and nothing will be, and answers how many octets were sent.
///
/// # Errors
/// Those of [`deliver`].
fn send_messages<E: EntryLedger, H: RecordLedger, W: Sink, C: Clock>(
    rt: &impl Wait,
    shared: &SharedMediator<E, H>,
    handle: &mut DeliveryHandle<H>,
    writer: &mut W,
    target: u16,
    clock: &C,
) -> Result<u64, Fault>
    requires writer { W.has_failed writer.old ≡ false }
    // All that was pulled was written.
    ensures delivers { IfOk result (λ sent. DeliversSome (C.shows clock.now) target sent
        handle.old handle.new (writer_of (W.contents writer.old) (W.contents writer.new))) }
    ensures sound { OnOk result (W.has_failed writer.new ≡ false) }
    // Where it stopped, and what was written by then.
    ensures stops { IfErr result (λ e.
        FailsToDeliver e (C.shows clock.now) target handle.old handle.new
        (writer_of (W.contents writer.old) (W.contents writer.new)) (W.has_failed writer.new)) }
    ensures fails { IfErr result (λ e. W.has_failed writer.new ≡ fails_writer e) }
{
    let mut sent = 0u64;
    let mut piece = Vec::new(handle.allocator());
    'pulls: for _ in rt.forever() {
        if sent > u64::MAX - MOST_AT_ONCE * LONGEST_MESSAGE {
            return Err(Fault::Mediator(MediatorFault::HandedFull));
        }
        let before = handle.kept().len();
        let goes_on = handle.pull_queued(rt, shared, clock, target, MOST_AT_ONCE)?;
        if !goes_on {
            return Ok(sent);
        }
        sent = send_all(&mut piece, kept_since(handle, before), writer, sent)?;
    }
    unreachable!()
}

/// The messages that a handle keeps behind the first `before`.
fn kept_since<H: RecordLedger>(handle: &DeliveryHandle<H>, before: usize) -> &[Handed]
    requires { before ≤ length handle.now.kept }
    ensures { result.now ≡ drop before handle.now.kept }
{
    &handle.kept()[before..]
}

/// Writes `messages` behind the `sent` octets of those before them, in one `piece` where there is memory for it, and answers how
/// many octets were sent in all.
///
/// # Errors
/// The writer failed, and the fault says how many octets were sent in all.
fn send_all<W: Sink>(
    piece: &mut Vec<u8>,
    messages: &[Handed],
    writer: &mut W,
    sent: u64,
) -> Result<u64, Fault>
    requires fits { sent + length (handed_octets messages.now) < 2 ^ 64 }
    ensures ok { IfOk result (λ n. Sends (handed_octets messages.now) sent n
        (W.contents writer.old) (W.contents writer.new)) }
    ensures stays { OnOk result (W.has_failed writer.new ≡ W.has_failed writer.old) }
    ensures err { IfErr result (λ e. StopsSending e (handed_octets messages.now) sent
        (W.contents writer.old) (W.contents writer.new) (W.has_failed writer.new)) }
{
    match join(messages, piece) {
        Ok(()) => send(piece.as_slice(), writer, sent),
        Err(_) => send_each(messages, writer, sent),
    }
}

/// Puts the octets of messages, one directly after another, in place of those that stand in `piece`.
///
/// # Errors
/// Want of memory.
fn join(messages: &[Handed], piece: &mut Vec<u8>) -> Result<(), AllocError>
    ensures { OnOk result (piece.new.items ≡ handed_octets messages.now) }
{
    piece.clear();
    'joins: for handed in messages {
        handed.message.append_to(piece)?;
    }
    Ok(())
}

/// Writes `messages` one after another, behind the `sent` octets of those before them, and answers how many octets were sent in
/// all.
///
/// # Errors
/// The writer failed, and the fault says how many octets were sent in all.
fn send_each<W: Sink>(messages: &[Handed], writer: &mut W, mut sent: u64) -> Result<u64, Fault>
    requires fits { sent + length (handed_octets messages.now) < 2 ^ 64 }
    ensures ok { IfOk result (λ n. Sends (handed_octets messages.now) sent n
        (W.contents writer.old) (W.contents writer.new)) }
    ensures stays { OnOk result (W.has_failed writer.new ≡ W.has_failed writer.old) }
    ensures err { IfErr result (λ e. StopsSending e (handed_octets messages.now) sent
        (W.contents writer.old) (W.contents writer.new) (W.has_failed writer.new)) }
{
    'sends: for handed in messages {
        sent = send_chunks(&handed.message, writer, sent)?;
    }
    Ok(sent)
}

/// Writes `message`, a chunk at a time, behind the `sent` octets of those before it, and answers how many octets were sent in
/// all.
///
/// # Errors
/// The writer failed, and the fault says how many octets were sent in all.
fn send_chunks<W: Sink>(
    message: &MessagePieces,
    writer: &mut W,
    mut sent: u64,
) -> Result<u64, Fault>
    requires fits { sent + length message.now < 2 ^ 64 }
    ensures ok { IfOk result (λ n.
        Sends message.now sent n (W.contents writer.old) (W.contents writer.new)) }
    ensures stays { OnOk result (W.has_failed writer.new ≡ W.has_failed writer.old) }
    ensures err { IfErr result (λ e. StopsSending e message.now sent
        (W.contents writer.old) (W.contents writer.new) (W.has_failed writer.new)) }
{
    let mut start = 0;
    'chunks: while start < message.len() {
        let chunk = message.chunk(start);
        sent = send(chunk, writer, sent)?;
        start += chunk.len();
    }
    Ok(sent)
}

/// Writes `message` behind the `sent` octets of those before it, and answers how many octets were sent in all.
///
/// # Errors
/// The writer failed, and the fault says how many octets were sent in all.
fn send<W: Sink>(message: &[u8], writer: &mut W, sent: u64) -> Result<u64, Fault>
    requires fits { sent + length message.now < 2 ^ 64 }
    ensures ok { IfOk result (λ n.
        Sends message.now sent n (W.contents writer.old) (W.contents writer.new)) }
    ensures stays { OnOk result (W.has_failed writer.new ≡ W.has_failed writer.old) }
    ensures err { IfErr result (λ e. StopsSending e message.now sent
        (W.contents writer.old) (W.contents writer.new) (W.has_failed writer.new)) }
{
    match write_all(writer, message) {
        Ok(()) => Ok(sent + message.len() as u64),
        Err(stopped) => Err(Fault::Write {
            sent: sent + stopped.sent as u64,
        }),
    }
}
