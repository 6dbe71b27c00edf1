//! The texts of answers: the lines of each reply, and the parts that other formats share.
ghost use Rattle.std.specs.Prelude.{◌≡◌, ◌++◌, ◌∷◌, [], codes, IfOk, OnOk, string_bytes};
ghost use Rattle.std.specs.Fmt.{decimal};
ghost use Rattle.std.specs.List.{flat_map};
ghost use Rattle.hex.specs.Hex.{encode_lower};
ghost use Rattle.disclosure_audit.specs.Lines.{audit_line};
ghost use Rattle.replay_text.specs.Answers.{answer_text, answers_text, receipt_text, skips_text, gap_text, pulled_text, status_text, cut_word, drained_text, refusal_text, fault_details, decode_word, read_word};

use bytes::Bytes;
use disclosure_audit::{AuditEntry, line};
use ipfix_message::Fault as DecodeError;
use ipfix_session::{Fault as ReadError, Gap, Skips};
use mediator_calls::Reply;
use mediator_state::{Fault as MediatorFault, Receipt, Status};
use std::alloc::{AllocError, Global};
use std::fmt::Write;

/// The answers of `replies`, one after another. The text takes memory from `alloc`.
///
/// # Errors
/// Want of memory.
pub fn answers_text(alloc: Global, replies: &[Reply]) -> Result<String, AllocError>
    ensures { IfOk result (λ text. string_bytes text ≡ answers_text replies.now) }
{
    let mut text = String::new(alloc);
    'replies: for reply in replies {
        let answer = answer_text(alloc, reply)?;
        text.push_str(answer.as_str())?;
    }
    Ok(text)
}

/// The lines of `reply`: `ok` with what the call gave, or `err` with why it was refused, and behind the count of drained entries
/// a line for each. The text takes memory from `alloc`.
///
/// # Errors
/// Want of memory.
pub fn answer_text(alloc: Global, reply: &Reply) -> Result<String, AllocError>
    ensures { IfOk result (λ text. string_bytes text ≡ answer_text reply.now) }
{
    match reply {
        Reply::Opened(session) => number_text(alloc, session.0),
        Reply::Closed | Reply::Unsubscribed | Reply::Advanced => String::from_str(alloc, "ok\n"),
        Reply::Received(receipt) => received_text(alloc, receipt),
        Reply::Edited(revision) => number_text(alloc, *revision),
        Reply::Subscribed(sub) => number_text(alloc, sub.0),
        Reply::Pulled(None) => String::from_str(alloc, "ok none\n"),
        Reply::Pulled(Some(message)) => message_text(alloc, message),
        Reply::Stands(status) => status_text(alloc, status),
        Reply::Drained(entries) => drained_text(alloc, entries.as_slice()),
        Reply::Refused(why) => refusal_text(alloc, why),
    }
}

/// The line `ok` with a number.
fn number_text(alloc: Global, number: u64) -> Result<String, AllocError>
    ensures { IfOk result (λ text. string_bytes text ≡ codes "ok " ++ decimal number ++ 10 ∷ []) }
{
    format!(in alloc; "ok {number}\n")
}

/// A message in lower-case hexadecimal digits.
fn message_text(alloc: Global, message: &Bytes) -> Result<String, AllocError>
    ensures { IfOk result (λ text. string_bytes text ≡ codes "ok " ++ encode_lower message.now
        ++ 10 ∷ []) }
{
    let digits = hex::encode(alloc, message.as_slice())?;
    format!(in alloc; "ok {digits}\n")
}

/// The line of an accepted message: its position, its records, the subscriptions that it cut, what it brought that gives no
/// record, and the gap in the Sequence Numbers before it, where there is one.
fn received_text(alloc: Global, receipt: &Receipt) -> Result<String, AllocError>
    ensures { IfOk result (λ text. string_bytes text ≡ receipt_text receipt.now ++ 10 ∷ []) }
{
    let Receipt {
        position,
        records,
        cut,
        skips,
        gap,
    } = *receipt;
    let mut text = format!(in alloc; "ok {position} records {records} cut {cut}")?;
    put_skips(&mut text, skips)?;
    put_gap(&mut text, gap)?;
    text.push('\n')?;
    Ok(text)
}

/// Adds what a message brought that gives no record: Data Sets without a template, Sets with a reserved ID, and Template Records
/// that are refused.
fn put_skips(text: &mut String, skips: Skips) -> Result<(), AllocError>
    ensures { OnOk result (string_bytes text.new ≡ string_bytes text.old ++ skips_text skips) }
{
    let Skips {
        unknown,
        reserved,
        refused,
    } = skips;
    write!(
        text,
        " unknown {unknown} reserved {reserved} refused {refused}"
    )
}

/// Adds the Sequence Numbers that were expected and got, where these differ.
fn put_gap(text: &mut String, gap: Option<Gap>) -> Result<(), AllocError>
    ensures { OnOk result (string_bytes text.new ≡ string_bytes text.old ++ gap_text gap) }
{
    match gap {
        Some(Gap { expected, got }) => write!(text, " gap {expected} {got}"),
        None => Ok(()),
    }
}

/// The line of a subscription's status: the records that wait, those handed out, its templates, and whether it was cut.
fn status_text(alloc: Global, status: &Status) -> Result<String, AllocError>
    ensures { IfOk result (λ text. string_bytes text ≡ status_text status.now ++ 10 ∷ []) }
{
    let Status {
        queued,
        handed,
        shapes,
        cut,
    } = *status;
    let mut text = format!(in alloc; "ok {queued} {handed} {shapes} ")?;
    text.push_str(cut_word(cut))?;
    text.push('\n')?;
    Ok(text)
}

/// The last word of a status: `cut` where the subscription was cut, as `cut` says; else `live`.
pub fn cut_word(cut: bool) -> &'static str
    ensures { result.now ≡ cut_word cut }
{
    if cut { "cut" } else { "live" }
}

/// The lines of an answer with the audit entries `entries`: `ok` with their number, and a line for each. The text takes memory
/// from `alloc`.
///
/// # Errors
/// Want of memory.
pub fn drained_text(alloc: Global, entries: &[AuditEntry]) -> Result<String, AllocError>
    ensures { IfOk result (λ text. string_bytes text ≡ drained_text entries.now) }
{
    let count = entries.len();
    let mut text = format!(in alloc; "ok {count}\n")?;
    put_entries(alloc, &mut text, entries)?;
    Ok(text)
}

/// Adds the lines of audit entries.
fn put_entries(alloc: Global, text: &mut String, entries: &[AuditEntry]) -> Result<(), AllocError>
    ensures { OnOk result (string_bytes text.new ≡ string_bytes text.old
        ++ flat_map audit_line entries.now) }
{
    'entries: for entry in entries {
        let line = line(alloc, entry)?;
        text.push_str(line.as_str())?;
    }
    Ok(())
}

/// The line of a refusal: `err`, the name of `why`, and the numbers or words that belong to it. The text takes memory from
/// `alloc`.
///
/// # Errors
/// Want of memory.
pub fn refusal_text(alloc: Global, why: &MediatorFault) -> Result<String, AllocError>
    ensures { IfOk result (λ text. string_bytes text ≡ refusal_text why.now ++ 10 ∷ []) }
{
    let mut text = format!(in alloc; "err {why}")?;
    put_details(&mut text, why)?;
    text.push('\n')?;
    Ok(text)
}

/// What is said of a fault behind its name.
fn put_details(text: &mut String, why: &MediatorFault) -> Result<(), AllocError>
    ensures { OnOk result (string_bytes text.new ≡ string_bytes text.old ++ fault_details why.now) }
{
    match why {
        MediatorFault::OutOfTurn { expected } => write!(text, " {expected}"),
        MediatorFault::Malformed(why) => {
            text.push_str(" ")?;
            text.push_str(read_word(*why))
        }
        MediatorFault::Policy(why) => {
            let line = why.line;
            let kind = why.kind;
            write!(text, " {line} {kind}")
        }
        MediatorFault::AlreadySubscribed { sub } => write!(text, " {sub}"),
        MediatorFault::ClockBack { last } => write!(text, " {last}"),
        MediatorFault::AuditFull { need, room } => write!(text, " {need} {room}"),
        MediatorFault::BadLimits
        | MediatorFault::UnknownSession
        | MediatorFault::Stale
        | MediatorFault::BadName
        | MediatorFault::UnknownSub
        | MediatorFault::NoHandle
        | MediatorFault::HandedFull
        | MediatorFault::JournalFull
        | MediatorFault::OutOfMemory => Ok(()),
    }
}

/// Why a message is malformed.
fn read_word(why: ReadError) -> &'static str
    ensures { result.now ≡ read_word why }
{
    match why {
        ReadError::Malformed(why) => decode_word(why),
        ReadError::RecordOverrun => "RecordOverrun",
        ReadError::OutOfMemory => "OutOfMemory",
    }
}

/// Why octets are no message.
fn decode_word(why: DecodeError) -> &'static str
    ensures { result.now ≡ decode_word why }
{
    match why {
        DecodeError::ShortHeader => "ShortHeader",
        DecodeError::BadVersion => "BadVersion",
        DecodeError::BadLength => "BadLength",
        DecodeError::BadSetLength => "BadSetLength",
        DecodeError::TemplateOverrun => "TemplateOverrun",
        DecodeError::OutOfMemory => "OutOfMemory",
    }
}
