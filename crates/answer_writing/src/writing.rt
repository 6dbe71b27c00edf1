//! Writing the octets of an answer, and counting them.
ghost use Rattle.std.specs.Prelude.{◌≡◌, ◌+◌, ◌<◌, ◌≤◌, ◌^◌, ◌++◌, [], length, IfOk, IfErr, OnOk, MatchOption};
ghost use Rattle.answer_writing.specs.Written.{drained_octets, WritesAll, StopsWriting};

use crate::buffer::AnswerBuffer;
use crate::pieces::{Rest, put_count, put_next};
use disclosure_audit::AuditEntry;
use octet_io::{Sink, write_all};
use thiserror::Error;

/// Why an answer was not written whole.
#[derive(Clone, Copy, Debug, PartialEq, Eq, Error)]
pub enum Stopped {
    /// The sink failed, after `sent` octets in all, with those that were sent before the answer.
    #[error("Failed")]
    Failed { sent: u64 },
    /// The octets, with those that were sent before, are 2^64 or more. None of the answer was written.
    #[error("Uncounted")]
    Uncounted,
}

/// Writes `octets` to `sink`, behind `sent` octets that were sent before, and answers how many were sent then in all.
///
/// # Errors
/// [`Stopped::Failed`] where the sink failed: a front of the octets was written. [`Stopped::Uncounted`] where they are
/// 2^64 or more in all: none was written.
pub fn write_octets<S: Sink>(sink: &mut S, octets: &[u8], sent: u64) -> Result<u64, Stopped>
    ensures ok { IfOk result (λ n.
        WritesAll octets.now sent n (S.contents sink.old) (S.contents sink.new)) }
    ensures stays { OnOk result (S.has_failed sink.new ≡ S.has_failed sink.old) }
    ensures err { IfErr result (λ e.
        StopsWriting e octets.now sent (S.contents sink.old) (S.contents sink.new)
        (S.has_failed sink.old) (S.has_failed sink.new)) }
{
    let length = octets.len() as u64;
    if length > u64::MAX - sent {
        return Err(Stopped::Uncounted);
    }
    match write_all(sink, octets) {
        Ok(()) => Ok(sent + length),
        Err(stopped) => Err(Stopped::Failed {
            sent: sent + stopped.sent as u64,
        }),
    }
}

/// Writes `first` and `second` to `sink`, one directly behind the other, behind `sent` octets that were sent before,
/// and answers how many were sent then in all.
///
/// # Errors
/// Those of [`write_octets`], for both together.
pub fn write_both<S: Sink>(
    sink: &mut S,
    first: &[u8],
    second: &[u8],
    sent: u64,
) -> Result<u64, Stopped>
    ensures ok { IfOk result (λ n.
        WritesAll (first.now ++ second.now) sent n (S.contents sink.old) (S.contents sink.new)) }
    ensures stays { OnOk result (S.has_failed sink.new ≡ S.has_failed sink.old) }
    ensures err { IfErr result (λ e.
        StopsWriting e (first.now ++ second.now) sent (S.contents sink.old) (S.contents sink.new)
        (S.has_failed sink.old) (S.has_failed sink.new)) }
{
    let length = first.len() as u64 + second.len() as u64;
    if length > u64::MAX - sent {
        return Err(Stopped::Uncounted);
    }
    let between = write_octets(sink, first, sent)?;
    write_octets(sink, second, between)
}

/// How many octets the answer with the audit entries `entries` has: `ok COUNT`, and a line for each entry; or `None`
/// where they are 2^64 or more. `buffer` is used for it, and what waited there is lost.
pub fn drained_length(buffer: &mut AnswerBuffer, entries: &[AuditEntry]) -> Option<u64>
    ensures { MatchOption result (2 ^ 64 ≤ length (drained_octets entries.now))
        (λ n. n ≡ length (drained_octets entries.now)) }
{
    count_drained(buffer, entries, 0)
}

/// Writes the answer with the audit entries `entries` to `sink`: `ok COUNT`, and a line for each entry. It stands
/// behind `sent` octets that were sent before, and the result is how many were sent then in all. `buffer` is used for
/// it, and what waited there is lost.
///
/// # Errors
/// Those of [`write_octets`], for the whole answer.
pub fn write_drained<S: Sink>(
    buffer: &mut AnswerBuffer,
    sink: &mut S,
    entries: &[AuditEntry],
    sent: u64,
) -> Result<u64, Stopped>
    ensures ok { IfOk result (λ n.
        WritesAll (drained_octets entries.now) sent n (S.contents sink.old) (S.contents sink.new)) }
    ensures stays { OnOk result (S.has_failed sink.new ≡ S.has_failed sink.old) }
    ensures err { IfErr result (λ e.
        StopsWriting e (drained_octets entries.now) sent (S.contents sink.old) (S.contents sink.new)
        (S.has_failed sink.old) (S.has_failed sink.new)) }
{
    match count_drained(buffer, entries, sent) {
        Some(_) => write_counted(buffer, sink, entries, sent),
        None => Err(Stopped::Uncounted),
    }
}

/// How many octets will have been sent behind the answer with `entries`, where `sent` were sent before; or `None` where
/// that is 2^64 or more. `buffer` is used for it.
fn count_drained(buffer: &mut AnswerBuffer, entries: &[AuditEntry], sent: u64) -> Option<u64>
    ensures { MatchOption result (2 ^ 64 ≤ sent + length (drained_octets entries.now))
        (λ n. n ≡ sent + length (drained_octets entries.now)) }
{
    buffer.clear();
    put_count(buffer, entries.len());
    let mut count = count_waiting(buffer, sent)?;
    let mut rest = Rest::all_of(entries);
    'pieces: while let Some(after) = put_next(buffer, rest) {
        count = count_waiting(buffer, count)?;
        rest = after;
    }
    Some(count)
}

/// The number `count`, with that of the octets that wait in `buffer` added; or `None` where that is 2^64 or more.
/// Nothing waits there then.
fn count_waiting(buffer: &mut AnswerBuffer, count: u64) -> Option<u64>
    ensures counts { MatchOption result (2 ^ 64 ≤ count + length buffer.old)
        (λ n. n ≡ count + length buffer.old) }
    ensures cleared { buffer.new ≡ [] }
{
    let octets = buffer.as_slice().len() as u64;
    buffer.clear();
    count.checked_add(octets)
}

/// Writes the answer with `entries` to `sink`, behind `sent` octets, where all can be counted. `buffer` is used for it.
///
/// # Errors
/// The sink failed, and a front of the answer was written.
fn write_counted<S: Sink>(
    buffer: &mut AnswerBuffer,
    sink: &mut S,
    entries: &[AuditEntry],
    mut sent: u64,
) -> Result<u64, Stopped>
    requires fits { sent + length (drained_octets entries.now) < 2 ^ 64 }
    ensures ok { IfOk result (λ n.
        WritesAll (drained_octets entries.now) sent n (S.contents sink.old) (S.contents sink.new)) }
    ensures stays { OnOk result (S.has_failed sink.new ≡ S.has_failed sink.old) }
    ensures err { IfErr result (λ e.
        StopsWriting e (drained_octets entries.now) sent (S.contents sink.old) (S.contents sink.new)
        (S.has_failed sink.old) (S.has_failed sink.new)) }
{
    buffer.clear();
    put_count(buffer, entries.len());
    let mut rest = Rest::all_of(entries);
    'pieces: while let Some(after) = put_next(buffer, rest) {
        if !buffer.has_room() {
            sent = send(buffer, sink, sent)?;
        }
        rest = after;
    }
    send(buffer, sink, sent)
}

/// Writes what waits in `buffer` to `sink`, behind `sent` octets that were sent before, and answers how many were sent
/// then in all. Nothing waits then.
///
/// # Errors
/// Those of [`write_octets`].
fn send<S: Sink>(buffer: &mut AnswerBuffer, sink: &mut S, sent: u64) -> Result<u64, Stopped>
    ensures ok { IfOk result (λ n.
        WritesAll buffer.old sent n (S.contents sink.old) (S.contents sink.new)) }
    ensures cleared { OnOk result (buffer.new ≡ []) }
    ensures stays { OnOk result (S.has_failed sink.new ≡ S.has_failed sink.old) }
    ensures err { IfErr result (λ e.
        StopsWriting e buffer.old sent (S.contents sink.old) (S.contents sink.new)
        (S.has_failed sink.old) (S.has_failed sink.new)) }
{
    let sent = write_octets(sink, buffer.as_slice(), sent)?;
    buffer.clear();
    Ok(sent)
}
