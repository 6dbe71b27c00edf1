//! The lines that answer a command, and how they are written.
ghost use Rattle.std.specs.Prelude.{◌≡◌, ◌==◌, ◌++◌, ◌∷◌, [], codes, filter, length, IfOk, IfErr, OnOk};
ghost use Rattle.std.specs.Fmt.{decimal};
ghost use Rattle.answer_writing.specs.Written.{WritesAll, StopsWriting};
ghost use Rattle.admin_text.specs.Answers.{admin_status_text, page_text, WritesAnswer, StopsAnswering};

use answer_writing::{AnswerBuffer, Stopped, write_both, write_drained, write_octets};
use disclosure_audit::AuditEntry;
use mediator_state::{Fault, Status};
use octet_io::Sink;
use replay_text::{cut_word, refusal_text};
use std::alloc::{AllocError, Global};

/// What a line is answered.
#[derive(Debug, Drop)]
pub enum Answer {
    /// The policy took force, as the edit of this number: `ok REVISION`.
    Edited(u64),
    /// A subscription of this number began: `ok SUB`.
    Subscribed(u64),
    /// The call was done, and there is nothing more to say: `ok`.
    Done,
    /// How the subscription stands: `ok QUEUED HANDED live`, or with `cut` in place of `live`.
    Stands(Status),
    /// The audit entries that were handed out, oldest first: `ok COUNT`, and a line for each.
    Drained(Vec<AuditEntry>),
    /// A page, as many lines as it has line feeds: `ok COUNT`, and the lines.
    Told(Vec<u8>),
    /// The call was refused, and changed nothing: `err` with the name of why, and what belongs to it.
    Refused(Fault),
    /// The line is no command: `err Line`.
    BadLine,
    /// The octets behind an `edit` are no UTF-8: `err Text`.
    BadText,
}

/// Writes the lines of `answer` to `sink`, behind the `sent` octets of those before it, and answers how many octets were sent in
/// all. What waited in `buffer` is lost. Only the words of a refusal take memory, from `alloc`. Where there is none, the refusal
/// is said to be one for want of memory.
///
/// # Errors
/// The sink failed, and the fault says how many octets were sent in all; or they can't be counted in 64 bits, and then none of
/// the answer was written.
pub fn write_answer<S: Sink>(
    alloc: Global,
    buffer: &mut AnswerBuffer,
    sink: &mut S,
    answer: &Answer,
    sent: u64,
) -> Result<u64, Stopped>
    ensures ok { IfOk result (λ n.
        WritesAnswer answer.now sent n (S.contents sink.old) (S.contents sink.new)) }
    ensures stays { OnOk result (S.has_failed sink.new ≡ S.has_failed sink.old) }
    ensures err { IfErr result (λ e.
        StopsAnswering e answer.now sent (S.contents sink.old) (S.contents sink.new)
        (S.has_failed sink.old) (S.has_failed sink.new)) }
{
    match answer {
        Answer::Edited(revision) => write_number(buffer, sink, *revision, sent),
        Answer::Subscribed(sub) => write_number(buffer, sink, *sub, sent),
        Answer::Done => write_octets(sink, b"ok\n", sent),
        Answer::Stands(status) => write_status(buffer, sink, status, sent),
        Answer::Drained(entries) => write_drained(buffer, sink, entries.as_slice(), sent),
        Answer::Told(page) => write_page(buffer, sink, page.as_slice(), sent),
        Answer::Refused(why) => match refusal_text(alloc, why) {
            Ok(text) => write_octets(sink, text.as_bytes(), sent),
            Err(AllocError) => write_octets(sink, b"err OutOfMemory\n", sent),
        },
        Answer::BadLine => write_octets(sink, b"err Line\n", sent),
        Answer::BadText => write_octets(sink, b"err Text\n", sent),
    }
}

/// Writes `ok` and a number.
///
/// # Errors
/// Those of [`write_answer`].
fn write_number<S: Sink>(
    buffer: &mut AnswerBuffer,
    sink: &mut S,
    number: u64,
    sent: u64,
) -> Result<u64, Stopped>
    ensures ok { IfOk result (λ n. WritesAll (codes "ok " ++ decimal number ++ 10 ∷ []) sent n
        (S.contents sink.old) (S.contents sink.new)) }
    ensures stays { OnOk result (S.has_failed sink.new ≡ S.has_failed sink.old) }
    ensures err { IfErr result (λ e. StopsWriting e (codes "ok " ++ decimal number ++ 10 ∷ []) sent
        (S.contents sink.old) (S.contents sink.new)
        (S.has_failed sink.old) (S.has_failed sink.new)) }
{
    buffer.clear();
    buffer.put(b"ok ");
    buffer.put_number(number);
    buffer.put(b"\n");
    write_octets(sink, buffer.as_slice(), sent)
}

/// Writes a page: how many lines it has, and these.
///
/// # Errors
/// Those of [`write_answer`].
fn write_page<S: Sink>(
    buffer: &mut AnswerBuffer,
    sink: &mut S,
    page: &[u8],
    sent: u64,
) -> Result<u64, Stopped>
    ensures ok { IfOk result (λ n. WritesAll (page_text page.now) sent n
        (S.contents sink.old) (S.contents sink.new)) }
    ensures stays { OnOk result (S.has_failed sink.new ≡ S.has_failed sink.old) }
    ensures err { IfErr result (λ e.
        StopsWriting e (page_text page.now) sent (S.contents sink.old) (S.contents sink.new)
        (S.has_failed sink.old) (S.has_failed sink.new)) }
{
    buffer.clear();
    buffer.put(b"ok ");
    buffer.put_number(count_lines(page));
    buffer.put(b"\n");
    write_both(sink, buffer.as_slice(), page, sent)
}

/// How many line feeds there are.
fn count_lines(page: &[u8]) -> u64
    ensures { result ≡ length (filter (λ c. c == 10) page.now) }
{
    page.iter().filter(|octet| **octet == b'\n').count() as u64
}

/// Writes how a subscription stands.
///
/// # Errors
/// Those of [`write_answer`].
fn write_status<S: Sink>(
    buffer: &mut AnswerBuffer,
    sink: &mut S,
    status: &Status,
    sent: u64,
) -> Result<u64, Stopped>
    ensures ok { IfOk result (λ n. WritesAll (admin_status_text status.now) sent n
        (S.contents sink.old) (S.contents sink.new)) }
    ensures stays { OnOk result (S.has_failed sink.new ≡ S.has_failed sink.old) }
    ensures err { IfErr result (λ e.
        StopsWriting e (admin_status_text status.now) sent (S.contents sink.old) (S.contents sink.new)
        (S.has_failed sink.old) (S.has_failed sink.new)) }
{
    buffer.clear();
    buffer.put(b"ok ");
    buffer.put_number(u64::from(status.queued));
    buffer.put(b" ");
    buffer.put_number(status.handed);
    buffer.put(b" ");
    buffer.put(cut_word(status.cut).as_bytes());
    buffer.put(b"\n");
    write_octets(sink, buffer.as_slice(), sent)
}
