//! Reads a whole stream, and handles each of its messages.
ghost use Rattle.std.specs.Prelude.{◌≡◌, ◌<◌, [], false, length, IfOk, IfErr, OnOk};
ghost use Rattle.mediator_offline.specs.Ports.{holding, with_left};
ghost use Rattle.mediator_offline.specs.Failing.{FailsOnly};
ghost use Rattle.mediator_offline.specs.Gathering.{and_gathered, IsGatheredFor};
ghost use Rattle.mediator_offline.specs.Running.{RunsSomewhere};
ghost use Rattle.mediator_offline.specs.Reaching.{HandlesAll, HandlesLast, StopsAmong};

use crate::audit_sink::AuditSink;
use crate::delivery::write_gathered;
use crate::job::{Fault, OfflineJob, OfflineReport};
use crate::run::{OfflineRun, SUBSCRIPTION};
use bytes::Bytes;
use disclosure_audit::{AuditQueue, CountedQueue, KeptQueue};
use ipfix_reader::Intake;
use mediator_state::Fault as MediatorFault;
use octet_io::{Sink, Source};
use std::alloc::Global;

impl<'a, Q: AuditQueue + Drop> OfflineRun<'a, Q> {
    /// Handles messages, one after another, with `writer` for the subscriber's messages and `audit_writer` for the audit. What is
    /// gathered of them in `gathered`, where there is nothing before, is written when they are handled, whatever comes.
    ///
    /// # Errors
    /// Those of the first that is not handled; or the writer failed.
    fn handle_all<W: Sink, A: AuditSink>(
        &mut self,
        messages: Vec<Bytes>,
        gathered: &mut Vec<u8>,
        writer: &mut W,
        audit_writer: &mut A,
    ) -> Result<(), Fault>
        requires running { RunsSomewhere self.old
            (holding (W.contents writer.old) (A.contents audit_writer.old)
            (W.has_failed writer.old) (A.has_failed audit_writer.old)) }
        requires asked { self.old.job.audit ≡ Q.KEEPS }
        requires none { gathered.old.items ≡ [] }
        // Each message was handled, and nothing is left to be written.
        ensures ok { OnOk result (HandlesAll self.old self.new messages.items
            (holding (W.contents writer.old) (A.contents audit_writer.old)
            (W.has_failed writer.old) (A.has_failed audit_writer.old))
            (holding (W.contents writer.new) (A.contents audit_writer.new)
            (W.has_failed writer.new) (A.has_failed audit_writer.new))) }
        ensures none { gathered.new.items ≡ [] }
        ensures stays { OnOk result (W.has_failed writer.new ≡ W.has_failed writer.old) }
        ensures audit_stays { OnOk result (A.has_failed audit_writer.new
            ≡ A.has_failed audit_writer.old) }
        // Which device has failed; and which messages were handled before.
        ensures fails { IfErr result (λ e.
            FailsOnly e (W.has_failed writer.old) (A.has_failed audit_writer.old) false
            (W.has_failed writer.new) (A.has_failed audit_writer.new)) }
        ensures err { IfErr result (λ e.
            StopsAmong e self.old messages.items
            (holding (W.contents writer.old) (A.contents audit_writer.old)
            (W.has_failed writer.old) (A.has_failed audit_writer.old))
            (holding (W.contents writer.new) (A.contents audit_writer.new)
            (W.has_failed writer.new) (A.has_failed audit_writer.new))) }
    {
        let handled = self.handle_each(messages, gathered, writer, audit_writer);
        write_gathered(gathered, self.sent, writer)?;
        handled
    }

    /// Handles messages as [`handle_all`](OfflineRun::handle_all) does, but for what is still to be written in the end.
    ///
    /// # Errors
    /// Those of the first that is not handled.
    fn handle_each<W: Sink, A: AuditSink>(
        &mut self,
        messages: Vec<Bytes>,
        gathered: &mut Vec<u8>,
        writer: &mut W,
        audit_writer: &mut A,
    ) -> Result<(), Fault>
        requires running { RunsSomewhere self.old
            (holding (and_gathered (W.contents writer.old) gathered.old.items)
            (A.contents audit_writer.old)
            (W.has_failed writer.old) (A.has_failed audit_writer.old)) }
        requires asked { self.old.job.audit ≡ Q.KEEPS }
        requires none { gathered.old.items ≡ [] }
        // Each message was handled.
        ensures ok { OnOk result (HandlesAll self.old self.new messages.items
            (holding (and_gathered (W.contents writer.old) gathered.old.items)
            (A.contents audit_writer.old)
            (W.has_failed writer.old) (A.has_failed audit_writer.old))
            (holding (and_gathered (W.contents writer.new) gathered.new.items)
            (A.contents audit_writer.new)
            (W.has_failed writer.new) (A.has_failed audit_writer.new))) }
        ensures gathers { IsGatheredFor self.new gathered.new.items }
        ensures stays { OnOk result (W.has_failed writer.new ≡ W.has_failed writer.old) }
        ensures audit_stays { OnOk result (A.has_failed audit_writer.new
            ≡ A.has_failed audit_writer.old) }
        // Which device has failed; and which messages were handled before.
        ensures fails { IfErr result (λ e.
            FailsOnly e (W.has_failed writer.old) (A.has_failed audit_writer.old) false
            (W.has_failed writer.new) (A.has_failed audit_writer.new)) }
        ensures err { IfErr result (λ e.
            StopsAmong e self.old messages.items
            (holding (and_gathered (W.contents writer.old) gathered.old.items)
            (A.contents audit_writer.old)
            (W.has_failed writer.old) (A.has_failed audit_writer.old))
            (holding (and_gathered (W.contents writer.new) gathered.new.items)
            (A.contents audit_writer.new)
            (W.has_failed writer.new) (A.has_failed audit_writer.new))) }
        // Where something is still to be written, it ends with the last message that was handled.
        ensures last { 0 < length gathered.new.items
            → HandlesLast self.old self.new.sent messages.items
            (holding (and_gathered (W.contents writer.old) gathered.old.items)
            (A.contents audit_writer.old)
            (W.has_failed writer.old) (A.has_failed audit_writer.old))
            (holding (and_gathered (W.contents writer.new) gathered.new.items)
            (A.contents audit_writer.new)
            (W.has_failed writer.new) (A.has_failed audit_writer.new)) }
    {
        'messages: for message in messages {
            self.handle(message, gathered, writer, audit_writer)?;
        }
        Ok(())
    }
}

ghost use Rattle.ipfix_reader.specs.Intake.{nothing_read};
ghost use Rattle.mediator_offline.specs.Running.{IsRunOpened};
ghost use Rattle.mediator_offline.specs.Reaching.{ReachesEnd};
ghost use Rattle.mediator_offline.specs.Filtering.{StopsSomewhere};

impl<'a, Q: AuditQueue + Drop> OfflineRun<'a, Q> {
    /// Reads the stream to its end by `intake`, and handles its messages.
    ///
    /// # Errors
    /// The reader failed, or the stream is faulty, does not end within the reads that are allowed, or ends inside a message; or
    /// those of the first message that is not handled.
    fn read_stream<R: Source, W: Sink, A: AuditSink>(
        &mut self,
        intake: &mut Intake,
        reader: &mut R,
        writer: &mut W,
        audit_writer: &mut A,
    ) -> Result<(), Fault>
        requires opened { IsRunOpened self.old self.old.job }
        requires intake { intake.old ≡ nothing_read 65536 self.old.job.turns }
        requires reader { R.has_failed reader.old ≡ false }
        requires asked { self.old.job.audit ≡ Q.KEEPS }
        // The stream was read to its end, and each message was handled.
        ensures ok { OnOk result (ReachesEnd self.new self.old.job
            (with_left (R.remaining reader.old) (R.has_failed reader.old)
            (holding (W.contents writer.old) (A.contents audit_writer.old)
            (W.has_failed writer.old) (A.has_failed audit_writer.old)))
            (with_left (R.remaining reader.new) (R.has_failed reader.new)
            (holding (W.contents writer.new) (A.contents audit_writer.new)
            (W.has_failed writer.new) (A.has_failed audit_writer.new)))) }
        ensures reads { OnOk result (R.has_failed reader.new ≡ false) }
        ensures stays { OnOk result (W.has_failed writer.new ≡ W.has_failed writer.old) }
        ensures audit_stays { OnOk result (A.has_failed audit_writer.new
            ≡ A.has_failed audit_writer.old) }
        // Which device has failed; and what was read and written by then.
        ensures fails { IfErr result (λ e.
            FailsOnly e (W.has_failed writer.old) (A.has_failed audit_writer.old)
            (R.has_failed reader.new) (W.has_failed writer.new) (A.has_failed audit_writer.new)) }
        ensures err { IfErr result (λ e.
            StopsSomewhere e self.old.job
            (with_left (R.remaining reader.old) (R.has_failed reader.old)
            (holding (W.contents writer.old) (A.contents audit_writer.old)
            (W.has_failed writer.old) (A.has_failed audit_writer.old)))
            (with_left (R.remaining reader.new) (R.has_failed reader.new)
            (holding (W.contents writer.new) (A.contents audit_writer.new)
            (W.has_failed writer.new) (A.has_failed audit_writer.new)))) }
    {
        let mut gathered = Vec::new(self.alloc);
        'reads: loop {
            let Some(messages) = intake.next(reader)? else {
                return Ok(());
            };
            self.handle_all(messages, &mut gathered, writer, audit_writer)?;
        }
    }
}

ghost use Rattle.std.specs.Prelude.{ℕ, List, length, take};
ghost use Rattle.subscriber_stream.specs.Parts.{parts, records_of_parts};
ghost use Rattle.event_journal.specs.declared.entry.Entry.{Entry};
ghost use Rattle.mediator_history.specs.Disclosed.{disclosed};
ghost use Rattle.mediator_offline.specs.Runs.{IsServing, RunStands};

impl<'a, Q: AuditQueue + Drop> OfflineRun<'a, Q> {
    /// How much was read, accepted and written.
    fn report(&self) -> OfflineReport
        requires serving { IsServing self.now }
        ensures messages { result.messages ≡ self.now.messages }
        ensures records { result.records ≡ self.now.records }
        ensures disclosed { (h : List Entry) (p : ℕ) → RunStands self.now h p
            → result.disclosed ≡ length (records_of_parts (take p (parts (disclosed 1 h)))) }
    {
        let disclosed = match self.state.status(SUBSCRIPTION) {
            Some(status) => status.handed,
            None => 0,
        };
        OfflineReport {
            messages: self.messages,
            records: self.records,
            disclosed,
        }
    }
}

ghost use Rattle.mediator_offline.specs.Ports.{sound_ports};
ghost use Rattle.mediator_offline.specs.Filtering.{FiltersAll, FailsToFilter};

/// Filters one stream for one subscriber, and answers how much was read, accepted and written. It reads the messages of an
/// exporter from `reader`, to the end of the stream. It writes what `job` discloses to the subscriber to `writer`, and the audit
/// of what was kept back, where the job asks for it, to `audit_writer`: message by message then, and else what the messages of one
/// read disclose in one piece, or in several where that is long. Memory is taken from `alloc`.
///
/// What is written are the messages built for the records that each message discloses, and they mean these records and no others
/// to whoever reads them by RFC 7011. The limits are 65,536 records of one message, 65,280 templates for the subscriber and
/// 131,072 audit entries of one message, and a journal of 100,000,000 entries and 2^40 octets, though none is kept.
///
/// # Errors
/// `Mediator` where the policy or the name of the job is refused: then nothing was read. Else the run stops at `Read`, `Write` or
/// `AuditWrite`, where that device fails; at `Framing`, where the stream is faulty or ends inside a message; at `Turns`, where it
/// doesn't end within the job's reads; at `Mediator`, where a message is refused or memory runs out; or at `Cut`, where a message
/// cuts the subscriber. What is due for all messages before that one was written, and what more of it may have been is said with
/// each fault.
///
/// # Examples
///
/// The stream is one message, which defines a template and brings a record of it. By the policy all passes:
///
/// ```rust
/// use mediator_offline::{Device, OfflineJob, offline};
///
/// let job = OfflineJob {
///     policy: "policy 1\nrule for * in * from * to * pass\nrule for * in * from * to * element * keep\n",
///     name: "acme",
///     now: 1_700_000_060,
///     target: 1400,
///     turns: 1000,
///     audit: true,
/// };
/// let input: &[u8] = b"\x00\x0a\x00\x24\x65\x53\xf1\x00\x00\x00\x00\x00\x00\x00\x00\x07\
///     \x00\x02\x00\x0c\x01\x00\x00\x01\x00\x01\x00\x04\x01\x00\x00\x08\x00\x00\x05\xdc";
/// let mut reader = Device::new(input);
/// let mut writer = Device::new(Vec::new(alloc));
/// let mut audit = Device::new(Vec::new(alloc));
/// let report = offline(alloc, &job, &mut reader, &mut writer, &mut audit)?;
/// assert!(rt; report.disclosed == 1);
/// let due: &[u8] = b"\x00\x0a\x00\x24\x65\x53\xf1\x3c\x00\x00\x00\x00\x00\x00\x00\x00\
///     \x00\x02\x00\x0c\x01\x00\x00\x01\x00\x01\x00\x04\x01\x00\x00\x08\x00\x00\x05\xdc";
/// assert!(rt; writer.into_inner().as_slice() == due);
/// ```
pub fn offline<R: Source, W: Sink, A: AuditSink>(
    alloc: Global,
    job: &OfflineJob<'_>,
    reader: &mut R,
    writer: &mut W,
    audit_writer: &mut A,
) -> Result<OfflineReport, Fault>
    requires reader { R.has_failed reader.old ≡ false }
    requires writer { W.has_failed writer.old ≡ false }
    requires audit { A.has_failed audit_writer.old ≡ false }
    // All was read and accepted, what is due was written, and it means what is disclosed.
    ensures filters { IfOk result (λ report. FiltersAll job.entry.now report
        (sound_ports (R.remaining reader.old) (W.contents writer.old) (A.contents audit_writer.old))
        (record {
          left = R.remaining reader.new;
          reader_failed = R.has_failed reader.new;
          outputs = record {
            written = W.contents writer.new;
            audited = A.contents audit_writer.new;
            writer_failed = W.has_failed writer.new;
            audit_failed = A.has_failed audit_writer.new;
          };
        })) }
    // Where it stopped, by what cause, and what was written by then.
    ensures stops { IfErr result (λ e. FailsToFilter e job.entry.now
        (sound_ports (R.remaining reader.old) (W.contents writer.old) (A.contents audit_writer.old))
        (record {
          left = R.remaining reader.new;
          reader_failed = R.has_failed reader.new;
          outputs = record {
            written = W.contents writer.new;
            audited = A.contents audit_writer.new;
            writer_failed = W.has_failed writer.new;
            audit_failed = A.has_failed audit_writer.new;
          };
        })) }
    // No device has failed, but the one that the fault names.
    ensures sound { OnOk result ((R.has_failed reader.new ≡ false)
        × (W.has_failed writer.new ≡ false) × (A.has_failed audit_writer.new ≡ false)) }
    ensures fails { IfErr result (λ e. FailsOnly e false false
        (R.has_failed reader.new) (W.has_failed writer.new) (A.has_failed audit_writer.new)) }
{
    // Where nobody asks for the audit, its entries are counted, and none is made.
    if job.audit {
        return filter(
            alloc,
            job,
            KeptQueue::new(alloc),
            reader,
            writer,
            audit_writer,
        );
    }
    filter(
        alloc,
        job,
        CountedQueue::new(alloc),
        reader,
        writer,
        audit_writer,
    )
}

/// Filters one stream for one subscriber, as [`offline`] does. What the audit names waits in `queue`, where nothing waits
/// yet, and which keeps entries exactly where the job asks for them.
///
/// # Errors
/// Those of [`offline`].
fn filter<Q: AuditQueue + Drop, R: Source, W: Sink, A: AuditSink>(
    alloc: Global,
    job: &OfflineJob<'_>,
    queue: Q,
    reader: &mut R,
    writer: &mut W,
    audit_writer: &mut A,
) -> Result<OfflineReport, Fault>
    requires none { (Q.seen queue).count ≡ 0 }
    requires asked { job.now.audit ≡ Q.KEEPS }
    requires reader { R.has_failed reader.old ≡ false }
    requires writer { W.has_failed writer.old ≡ false }
    requires audit { A.has_failed audit_writer.old ≡ false }
    // All was read and accepted, what is due was written, and it means what is disclosed.
    ensures filters { IfOk result (λ report. FiltersAll job.entry.now report
        (sound_ports (R.remaining reader.old) (W.contents writer.old) (A.contents audit_writer.old))
        (record {
          left = R.remaining reader.new;
          reader_failed = R.has_failed reader.new;
          outputs = record {
            written = W.contents writer.new;
            audited = A.contents audit_writer.new;
            writer_failed = W.has_failed writer.new;
            audit_failed = A.has_failed audit_writer.new;
          };
        })) }
    // Where it stopped, by what cause, and what was written by then.
    ensures stops { IfErr result (λ e. FailsToFilter e job.entry.now
        (sound_ports (R.remaining reader.old) (W.contents writer.old) (A.contents audit_writer.old))
        (record {
          left = R.remaining reader.new;
          reader_failed = R.has_failed reader.new;
          outputs = record {
            written = W.contents writer.new;
            audited = A.contents audit_writer.new;
            writer_failed = W.has_failed writer.new;
            audit_failed = A.has_failed audit_writer.new;
          };
        })) }
    // No device has failed, but the one that the fault names.
    ensures sound { OnOk result ((R.has_failed reader.new ≡ false)
        × (W.has_failed writer.new ≡ false) × (A.has_failed audit_writer.new ≡ false)) }
    ensures fails { IfErr result (λ e. FailsOnly e false false
        (R.has_failed reader.new) (W.has_failed writer.new) (A.has_failed audit_writer.new)) }
{
    let mut run = OfflineRun::open(alloc, *job, queue)?;
    let Ok(mut intake) = Intake::new(alloc, job.turns) else {
        return Err(Fault::Mediator(MediatorFault::OutOfMemory));
    };
    run.read_stream(&mut intake, reader, writer, audit_writer)?;
    Ok(run.report())
}
