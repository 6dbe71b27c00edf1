//! Handles a message: accepts it, delivers what it discloses, and records what was kept back.
ghost use Rattle.std.specs.Prelude.{◌≡◌, ◌<◌, false, length, IfErr, OnOk, OnErr};
ghost use Rattle.mediator_offline.specs.Ports.{holding};
ghost use Rattle.mediator_offline.specs.Failing.{FailsOnly};
ghost use Rattle.mediator_offline.specs.Gathering.{and_gathered, IsGatheredFor, LeavesGathered};
ghost use Rattle.mediator_offline.specs.Running.{RunsSomewhere, HandlesOn, StopsOn};

use crate::audit_sink::AuditSink;
use crate::job::Fault;
use crate::run::OfflineRun;
use bytes::Bytes;
use disclosure_audit::AuditQueue;
use octet_io::Sink;

impl<'a, Q: AuditQueue + Drop> OfflineRun<'a, Q> {
    /// Accepts `message`, gathers what it gives the subscriber behind `gathered`, to be written to `writer`, and writes what the
    /// audit says of it to `audit_writer`. Where that is asked for, all that was gathered is written before.
    ///
    /// # Errors
    /// The message is refused, or cuts the subscription; or a writer failed, or memory ran out. What was gathered before is still
    /// to be written then, unless the writer failed.
    pub(crate) fn handle<W: Sink, A: AuditSink>(
        &mut self,
        message: Bytes,
        gathered: &mut Vec<u8>,
        writer: &mut W,
        audit_writer: &mut A,
    ) -> Result<(), Fault>
        requires running { RunsSomewhere self.old
            (holding (and_gathered (W.contents writer.old) gathered.old.items)
            (A.contents audit_writer.old)
            (W.has_failed writer.old) (A.has_failed audit_writer.old)) }
        requires asked { self.old.job.audit ≡ Q.KEEPS }
        requires gathered { IsGatheredFor self.old gathered.old.items }
        // The message was accepted, and what is due for it was written, or gathered.
        ensures ok { OnOk result (HandlesOn self.old self.new message
            (holding (and_gathered (W.contents writer.old) gathered.old.items)
            (A.contents audit_writer.old)
            (W.has_failed writer.old) (A.has_failed audit_writer.old))
            (holding (and_gathered (W.contents writer.new) gathered.new.items)
            (A.contents audit_writer.new)
            (W.has_failed writer.new) (A.has_failed audit_writer.new))) }
        ensures gathers { IsGatheredFor self.new gathered.new.items }
        ensures stays { OnOk result (W.has_failed writer.new ≡ W.has_failed writer.old) }
        ensures audit_stays { OnOk result (A.has_failed audit_writer.new
            ≡ A.has_failed audit_writer.old) }
        // Which device has failed; and what was written or gathered by then.
        ensures fails { IfErr result (λ e.
            FailsOnly e (W.has_failed writer.old) (A.has_failed audit_writer.old) false
            (W.has_failed writer.new) (A.has_failed audit_writer.new)) }
        ensures err { IfErr result (λ e.
            StopsOn e self.old message
            (holding (and_gathered (W.contents writer.old) gathered.old.items)
            (A.contents audit_writer.old)
            (W.has_failed writer.old) (A.has_failed audit_writer.old))
            (holding (and_gathered (W.contents writer.new) gathered.new.items)
            (A.contents audit_writer.new)
            (W.has_failed writer.new) (A.has_failed audit_writer.new))) }
        // Where something is still to be written then, the message has added nothing to it.
        ensures left { OnErr result (0 < length gathered.new.items
            → LeavesGathered self.old self.new gathered.old.items gathered.new.items
            (holding (and_gathered (W.contents writer.old) gathered.old.items)
            (A.contents audit_writer.old)
            (W.has_failed writer.old) (A.has_failed audit_writer.old))
            (holding (and_gathered (W.contents writer.new) gathered.new.items)
            (A.contents audit_writer.new)
            (W.has_failed writer.new) (A.has_failed audit_writer.new))) }
    {
        if self.receive(message)? {
            self.record(audit_writer)?;
            return Err(Fault::Cut);
        }
        self.deliver(gathered, writer)?;
        self.record(audit_writer)?;
        Ok(())
    }
}
