//! Serves an administrator's connection: reads its commands, makes their calls, and writes the answers.
ghost use Rattle.std.specs.Prelude.{◌≡◌, ◌↔◌, IsTrue, ℕ, List, [], Some, false, IfOk, IfErr, OnOk, OnErr, MatchOption};
ghost use Rattle.octet_io.specs.Moments.{reader_of, writer_of};
ghost use Rattle.admin_text.specs.Sayings.{admin_saying};
ghost use Rattle.admin_text.specs.Sayings.AdminSaying.{to_stop};
ghost use Rattle.admin_text.specs.Reading.{command_of};
ghost use Rattle.admin_text.specs.Answers.{WritesAnswer};
ghost use Rattle.mediator_connections.specs.Faults.{fails_reader, fails_writer};
ghost use Rattle.mediator_connections.specs.CommandInput.{EndsBehind, StopsReading};
ghost use Rattle.mediator_connections.specs.Answering.{handle_of, AnswersEdit, AnswersSubscribe, AnswersUnsubscribe, AnswersAdvance, TellsStatus, DrainsAudit, TellsPage, Exchange, ServesAdmin, StopsAdmin, Performs, Hears, StopsHearing, StopsReplying};

use crate::command_input::CommandInput;
use crate::control::{Control, Patience};
use crate::fault::Fault;
use crate::room::wait_for_advance;
use admin_text::{Answer, Command, Topic, read_command, write_answer};
use answer_writing::{AnswerBuffer, Stopped, drained_length};
use disclosure_audit::AuditEntry;
use mediator_calls::SubId;
use mediator_state::Fault as MediatorFault;
use octet_io::{Sink, Source};
use shared_mediator::{AdminHandle, EntryLedger, KeptEntry, RecordLedger, SharedMediator};
use std::alloc::{AllocError, Global};
use std::str::from_utf8;
use std::sync::Wait;

/// The most octets of the answer to an `audit`.
const MOST_AUDIT_OCTETS: u64 = 1 << 20;

/// No entry's line has more octets: no record has more than 16,383 fields, of which each takes eleven octets of the line.
const LONGEST_AUDIT_LINE: u64 = 200_000;

/// What came of a line.
#[derive(Drop)]
struct Heard {
    answer: Answer,
    /// Whether it was a `stop`.
    stops: bool,
}

/// Serves an administrator's connection, and answers how many commands were answered. It reads commands from `reader`, one line
/// each, by at most `turns` reads. It makes the call of each command on the mediator of `shared`, through `handle`, and then
/// writes the answer to `writer`. It waits by `rt`, and takes memory from `alloc`.
///
/// Three things end the connection: the end of the input between two commands; a `stop`, of which the server is told by
/// `control`; and a line that is no command. Such a line is answered too, but isn't counted.
///
/// What an answer is written with is made before the first command is read. So no want of memory keeps back what a call handed
/// out or did. Before an advance is made, `control` has it wait for room in the queues of those to whom it would give records, as
/// long as `control` has patience.
///
/// # Errors
/// `Read` where the reader failed; `Framing` where the input ends inside a command; `Turns` where its end isn't read within
/// `turns` reads; or `Mediator` where memory ran out for what is read. Then no call was made for the command in hand, and those
/// before it were answered. `Write` where the writer failed, which says how many octets of all answers were sent; or `Mediator`,
/// with `HandedFull`, where the octets sent can't be counted in 64 bits. Then the call that was to be answered has been made. What
/// the mediator refuses is an answer, and no error.
pub fn serve_admin<E: EntryLedger, H: RecordLedger, R: Source, W: Sink, C: Control>(
    rt: &impl Wait,
    alloc: Global,
    shared: &SharedMediator<E, H>,
    handle: &mut AdminHandle<E>,
    reader: &mut R,
    writer: &mut W,
    turns: u64,
    control: &C,
) -> Result<u64, Fault>
    requires reader { R.has_failed reader.old ≡ false }
    requires writer { W.has_failed writer.old ≡ false }
    // All commands were read, their calls made, and their answers written.
    ensures serves { IfOk result (λ count.
        ServesAdmin count (reader_of (R.remaining reader.old) (R.remaining reader.new))
        (writer_of (W.contents writer.old) (W.contents writer.new)) (handle_of handle.old handle.new)) }
    ensures sound_reader { OnOk result (R.has_failed reader.new ≡ false) }
    ensures sound_writer { OnOk result (W.has_failed writer.new ≡ false) }
    // Where it stopped, what was read, done and written by then.
    ensures stops { IfErr result (λ e. (commands : List Exchange)
        × StopsAdmin e turns (reader_of (R.remaining reader.old) (R.remaining reader.new))
        (writer_of (W.contents writer.old) (W.contents writer.new)) (W.has_failed writer.new)
        (handle_of handle.old handle.new) commands) }
    // A device has failed only where the fault names it.
    ensures reader_fails { IfErr result (λ e. R.has_failed reader.new ≡ fails_reader e) }
    ensures writer_fails { IfErr result (λ e. W.has_failed writer.new ≡ fails_writer e) }
{
    let mut input = CommandInput::new(alloc, turns)?;
    let mut buffer = AnswerBuffer::new(alloc)?;
    let (mut count, mut sent) = (0u64, 0u64);
    'commands: for _ in rt.forever() {
        let heard = hear(rt, alloc, shared, handle, &mut input, reader, control)?;
        let Some(heard) = heard else {
            return Ok(count);
        };
        sent = reply(alloc, &mut buffer, writer, &heard.answer, sent)?;
        if matches!(heard.answer, Answer::BadLine) {
            return Ok(count);
        }
        count += 1;
        if heard.stops {
            return Ok(count);
        }
    }
    unreachable!()
}

/// Reads a line, makes the call that it asks for, and answers what came of it; `None` where the input ended before it.
///
/// # Errors
/// The reader failed; or the input ends inside the command; or no read is left; or memory ran out for what was read. Then no
/// call was made.
fn hear<E: EntryLedger, H: RecordLedger, R: Source, C: Control>(
    rt: &impl Wait,
    alloc: Global,
    shared: &SharedMediator<E, H>,
    handle: &mut AdminHandle<E>,
    input: &mut CommandInput,
    reader: &mut R,
    control: &C,
) -> Result<Option<Heard>, Fault>
    requires reader { R.has_failed reader.old ≡ false }
    // What came of the line, or that the input ended before it.
    ensures ok { IfOk result (λ found. MatchOption found
        (EndsBehind input.old (R.remaining reader.old) (R.remaining reader.new) []
        × (handle.new ≡ handle.old))
        (λ heard. Hears heard.answer heard.stops input.old
        (reader_of (R.remaining reader.old) (R.remaining reader.new)) input.new
        (handle_of handle.old handle.new))) }
    ensures sound { OnOk result (R.has_failed reader.new ≡ false) }
    ensures fails { IfErr result (λ e. R.has_failed reader.new ≡ fails_reader e) }
    // Behind which octets of the command it stopped. No call was made.
    ensures err { IfErr result (λ e.
        StopsHearing e input.old (R.remaining reader.old) (R.remaining reader.new) input.new) }
    ensures unchanged { OnErr result (handle.new ≡ handle.old) }
{
    let Some(line) = input.next_line(alloc, reader)? else {
        return Ok(None);
    };
    let line = line.as_slice();
    let heard = answer_line(rt, alloc, shared, handle, input, reader, line, control)?;
    Ok(Some(heard))
}

/// Makes the call that a line asks for, with what stands behind the line.
///
/// # Errors
/// The reader failed; or the input ends before the octets of an edit; or no read is left; or memory ran out for these octets.
/// Then no call was made.
fn answer_line<E: EntryLedger, H: RecordLedger, R: Source, C: Control>(
    rt: &impl Wait,
    alloc: Global,
    shared: &SharedMediator<E, H>,
    handle: &mut AdminHandle<E>,
    input: &mut CommandInput,
    reader: &mut R,
    line: &[u8],
    control: &C,
) -> Result<Heard, Fault>
    requires reader { R.has_failed reader.old ≡ false }
    // What came of the line.
    ensures ok { IfOk result (λ heard. Performs (command_of line.now) heard.answer input.old
        (reader_of (R.remaining reader.old) (R.remaining reader.new)) input.new
        (handle_of handle.old handle.new)) }
    ensures stops { IfOk result (λ heard. IsTrue heard.stops
        ↔ (command_of line.now ≡ Some to_stop)) }
    // The reader has failed only where the fault is `Read`.
    ensures sound { OnOk result (R.has_failed reader.new ≡ false) }
    ensures fails { IfErr result (λ e. R.has_failed reader.new ≡ fails_reader e) }
    // Behind which octets of the command's text it stopped. No call was made.
    ensures err { IfErr result (λ e. (octets : List ℕ) × StopsReading e input.old
        (R.remaining reader.old) (R.remaining reader.new) octets input.new) }
    ensures unchanged { OnErr result (handle.new ≡ handle.old) }
{
    match read_command(alloc, line) {
        Ok(Some(command)) => {
            let stops = is_stop(&command);
            let before = handle.kept().len();
            let answer = perform(rt, alloc, shared, handle, input, reader, command, control)?;
            if let Some(receipts) = handle.kept().get(before..) {
                tell_accepted(control, receipts);
            }
            Ok(Heard { answer, stops })
        }
        Ok(None) => Ok(Heard {
            answer: Answer::BadLine,
            stops: false,
        }),
        Err(AllocError) => Ok(Heard {
            answer: Answer::Refused(MediatorFault::OutOfMemory),
            stops: false,
        }),
    }
}

/// Tells the server what was accepted.
fn tell_accepted<C: Control>(control: &C, receipts: &[KeptEntry]) {
    for receipt in receipts {
        control.accept(receipt);
    }
}

/// Whether a command is a `stop`.
const fn is_stop(command: &Command) -> bool
    ensures { IsTrue result ↔ (admin_saying command.now ≡ to_stop) }
{
    match command {
        Command::Stop => true,
        Command::Edit { .. }
        | Command::Subscribe { .. }
        | Command::Unsubscribe { .. }
        | Command::Advance { .. }
        | Command::Status { .. }
        | Command::Audit { .. }
        | Command::Tell { .. } => false,
    }
}

/// Makes the call of a command.
///
/// # Errors
/// Those of [`answer_line`].
fn perform<E: EntryLedger, H: RecordLedger, R: Source, C: Control>(
    rt: &impl Wait,
    alloc: Global,
    shared: &SharedMediator<E, H>,
    handle: &mut AdminHandle<E>,
    input: &mut CommandInput,
    reader: &mut R,
    command: Command,
    control: &C,
) -> Result<Answer, Fault>
    requires reader { R.has_failed reader.old ≡ false }
    // What came of the command.
    ensures ok { IfOk result (λ answer. Performs (Some (admin_saying command)) answer input.old
        (reader_of (R.remaining reader.old) (R.remaining reader.new)) input.new
        (handle_of handle.old handle.new)) }
    // The reader has failed only where the fault is `Read`.
    ensures sound { OnOk result (R.has_failed reader.new ≡ false) }
    ensures fails { IfErr result (λ e. R.has_failed reader.new ≡ fails_reader e) }
    // Behind which octets of the command's text it stopped. No call was made.
    ensures err { IfErr result (λ e. (octets : List ℕ) × StopsReading e input.old
        (R.remaining reader.old) (R.remaining reader.new) octets input.new) }
    ensures unchanged { OnErr result (handle.new ≡ handle.old) }
{
    match command {
        Command::Edit { octets } => {
            let text = input.take(alloc, reader, octets)?;
            Ok(edit(rt, shared, handle, text.as_slice()))
        }
        Command::Subscribe { name } => Ok(subscribe(rt, shared, handle, name.as_slice())),
        Command::Unsubscribe { sub } => Ok(unsubscribe(rt, shared, handle, sub)),
        Command::Advance { t } => Ok(advance(rt, shared, handle, t, control)),
        Command::Status { sub } => Ok(status(rt, shared, handle, sub)),
        Command::Audit { most } => Ok(drain_audit(rt, alloc, shared, handle, most)),
        Command::Tell { topic } => Ok(tell(handle, topic, control)),
        Command::Stop => {
            control.stop();
            Ok(Answer::Done)
        }
    }
}

/// Puts a policy in force, given the octets of its text.
fn edit<E: EntryLedger, H: RecordLedger>(
    rt: &impl Wait,
    shared: &SharedMediator<E, H>,
    handle: &mut AdminHandle<E>,
    octets: &[u8],
) -> Answer
    ensures { AnswersEdit octets.now result handle.old handle.new }
{
    match from_utf8(octets) {
        Ok(text) => edit_by_text(rt, shared, handle, text),
        Err(_) => Answer::BadText,
    }
}

/// Puts a policy in force.
fn edit_by_text<E: EntryLedger, H: RecordLedger>(
    rt: &impl Wait,
    shared: &SharedMediator<E, H>,
    handle: &mut AdminHandle<E>,
    text: &str,
) -> Answer
    ensures { AnswersEdit text.now result handle.old handle.new }
{
    match handle.edit(rt, shared, text) {
        Ok(revision) => Answer::Edited(revision),
        Err(why) => Answer::Refused(why),
    }
}

/// Begins a subscription, given the octets of its name.
fn subscribe<E: EntryLedger, H: RecordLedger>(
    rt: &impl Wait,
    shared: &SharedMediator<E, H>,
    handle: &mut AdminHandle<E>,
    octets: &[u8],
) -> Answer
    ensures { AnswersSubscribe octets.now result handle.old handle.new }
{
    match from_utf8(octets) {
        Ok(name) => subscribe_by_name(rt, shared, handle, name),
        // A name is ASCII.
        Err(_) => Answer::Refused(MediatorFault::BadName),
    }
}

/// Begins a subscription under a name.
fn subscribe_by_name<E: EntryLedger, H: RecordLedger>(
    rt: &impl Wait,
    shared: &SharedMediator<E, H>,
    handle: &mut AdminHandle<E>,
    name: &str,
) -> Answer
    ensures { AnswersSubscribe name.now result handle.old handle.new }
{
    match handle.subscribe(rt, shared, name) {
        Ok(sub) => Answer::Subscribed(sub.0),
        Err(why) => Answer::Refused(why),
    }
}

/// Ends a subscription.
fn unsubscribe<E: EntryLedger, H: RecordLedger>(
    rt: &impl Wait,
    shared: &SharedMediator<E, H>,
    handle: &mut AdminHandle<E>,
    sub: u64,
) -> Answer
    ensures { AnswersUnsubscribe sub result handle.old handle.new }
{
    match handle.unsubscribe(rt, shared, SubId(sub)) {
        Ok(()) => Answer::Done,
        Err(why) => Answer::Refused(why),
    }
}

/// Advances the clock to `t`, in milliseconds since 1970, once there is room for what that closes.
fn advance<E: EntryLedger, H: RecordLedger, P: Patience>(
    rt: &impl Wait,
    shared: &SharedMediator<E, H>,
    handle: &mut AdminHandle<E>,
    t: u64,
    patience: &P,
) -> Answer
    ensures { AnswersAdvance t result handle.old handle.new }
{
    wait_for_advance(rt, shared, t, patience);
    match handle.advance(rt, shared, t) {
        Ok(()) => Answer::Done,
        Err(why) => Answer::Refused(why),
    }
}

/// How a subscription stands.
fn status<E: EntryLedger, H: RecordLedger>(
    rt: &impl Wait,
    shared: &SharedMediator<E, H>,
    handle: &AdminHandle<E>,
    sub: u64,
) -> Answer
    ensures { TellsStatus result handle.now handle.now }
{
    match handle.status(rt, shared, SubId(sub)) {
        Ok(status) => Answer::Stands(status),
        Err(fault) => Answer::Refused(fault),
    }
}

/// The lines of a page.
fn tell<E: EntryLedger, C: Control>(handle: &AdminHandle<E>, topic: Topic, control: &C) -> Answer
    ensures { TellsPage result handle.now handle.now }
{
    match control.tell(topic, handle.kept()) {
        Ok(page) => Answer::Told(page),
        Err(AllocError) => Answer::Refused(MediatorFault::OutOfMemory),
    }
}

/// Hands out the oldest entries of the audit: at most `most`, and no more than [`MOST_AUDIT_OCTETS`] have room for.
fn drain_audit<E: EntryLedger, H: RecordLedger>(
    rt: &impl Wait,
    alloc: Global,
    shared: &SharedMediator<E, H>,
    handle: &AdminHandle<E>,
    most: u32,
) -> Answer
    ensures { DrainsAudit result handle.now handle.now }
{
    let Ok(mut buffer) = AnswerBuffer::new(alloc) else {
        return Answer::Refused(MediatorFault::OutOfMemory);
    };
    let (mut drained, mut octets) = (Vec::new(alloc), 0u64);
    'entries: for _ in 0..most {
        if octets > MOST_AUDIT_OCTETS - LONGEST_AUDIT_LINE {
            break;
        }
        match drain_one(rt, shared, handle, &mut drained) {
            Ok(true) => octets = octets.saturating_add(last_length(
                &mut buffer,
                drained.as_slice(),
            )),
            Ok(false) => break,
            Err(AllocError) if drained.is_empty() => {
                return Answer::Refused(MediatorFault::OutOfMemory);
            }
            Err(AllocError) => break,
        }
    }
    Answer::Drained(drained)
}

/// Hands out the oldest entry of the audit, and answers whether there was one.
///
/// # Errors
/// Want of memory. Then none was handed out.
fn drain_one<E: EntryLedger, H: RecordLedger>(
    rt: &impl Wait,
    shared: &SharedMediator<E, H>,
    handle: &AdminHandle<E>,
    drained: &mut Vec<AuditEntry>,
) -> Result<bool, AllocError> {
    drained.reserve(1)?;
    let mut oldest = handle.drain_audit(rt, shared, 1)?;
    match oldest.pop() {
        Some(entry) => {
            drained.push_reserved(entry);
            Ok(true)
        }
        None => Ok(false),
    }
}

/// How many octets an answer has that hands out only the last of `drained`.
fn last_length(buffer: &mut AnswerBuffer, drained: &[AuditEntry]) -> u64 {
    let last = drained.len().saturating_sub(1);
    match drained.get(last..) {
        Some(entries) => drained_length(buffer, entries).unwrap_or(u64::MAX),
        None => 0,
    }
}

/// Writes an answer behind the `sent` octets of those before it, and answers how many octets were sent in all.
///
/// # Errors
/// The writer failed, and the fault says how many octets were sent in all; or the octets sent can't be counted, and then none of
/// the answer was written.
fn reply<W: Sink>(
    alloc: Global,
    buffer: &mut AnswerBuffer,
    writer: &mut W,
    answer: &Answer,
    sent: u64,
) -> Result<u64, Fault>
    requires writer { W.has_failed writer.old ≡ false }
    // The whole answer was written.
    ensures ok { IfOk result (λ n.
        WritesAnswer answer.now sent n (W.contents writer.old) (W.contents writer.new)) }
    ensures sound { OnOk result (W.has_failed writer.new ≡ false) }
    // How much of it was, where the writer failed or the octets can't be counted.
    ensures err { IfErr result (λ e. StopsReplying e answer.now sent
        (W.contents writer.old) (W.contents writer.new) (W.has_failed writer.new)) }
    ensures fails { IfErr result (λ e. W.has_failed writer.new ≡ fails_writer e) }
{
    match write_answer(alloc, buffer, writer, answer, sent) {
        Ok(sent) => Ok(sent),
        Err(Stopped::Failed { sent }) => Err(Fault::Write { sent }),
        Err(Stopped::Uncounted) => Err(Fault::Mediator(MediatorFault::HandedFull)),
    }
}
