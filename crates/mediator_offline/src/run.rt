//! A mediator with one session and one subscription, under one policy, as `offline` uses it.
ghost use Rattle.std.specs.Prelude.{◌≡◌, ◌≤◌, ◌<◌, ◌+◌, ◌^◌, [], length, IfOk, IfErr, OnOk};
ghost use Rattle.event_journal.specs.Room.{JournalLimits};

use crate::job::OfflineJob;
use bytes::Bytes;
use disclosure_audit::{Audit, AuditQueue};
use event_journal::{JournalSizes, MOST_ENTRIES, MOST_OCTETS};
use mediator_state::{DEFAULT_AUDIT, DEFAULT_QUEUE, Fault as MediatorFault, State};
use mediator_tables::{SessionId, SubId};
use std::alloc::Global;
use subscriber_stream::{MOST_SHAPES, StreamLimits};

/// How many records may wait for the subscriber, and how many templates its records may have.
const LIMITS: StreamLimits = StreamLimits {
    queue: DEFAULT_QUEUE,
    shapes: MOST_SHAPES,
};

/// The number of the one session.
const SESSION: SessionId = SessionId(1);

/// The number of the one subscription.
pub(crate) const SUBSCRIPTION: SubId = SubId(1);

/// A run: the state of a mediator with one session and one subscription, and what is counted for the report. `Q` is what
/// keeps the entries of the audit, or counts them.
#[derive(Drop)]
pub(crate) struct OfflineRun<'a, Q: AuditQueue> {
    pub(crate) alloc: Global,
    /// What is asked for.
    pub(crate) job: OfflineJob<'a>,
    /// The mediator, of whose journal the sizes alone are kept.
    pub(crate) state: State<JournalSizes, Q>,
    /// The messages that were accepted.
    pub(crate) messages: u64,
    /// The records that they brought.
    pub(crate) records: u64,
    /// The octets that were written for the subscriber, or gathered to be.
    pub(crate) sent: u64,
    /// The message that was pulled last: its room serves the next one.
    pub(crate) message: Vec<u8>,
}

ghost use Rattle.mediator_offline.specs.Opening.{RefusesJob};
ghost use Rattle.mediator_offline.specs.Running.{IsRunOpened};
ghost use Rattle.mediator_offline.specs.Runs.{audit_count};
ghost use Rattle.mediator_offline.specs.Steps.{HasDelivered, TakesMessage, RunRefuses};

impl<'a, Q: AuditQueue + Drop> OfflineRun<'a, Q> {
    /// Accepts the policy, the subscription and the session of a run. What the audit names is to wait in `queue`, where
    /// nothing waits yet.
    ///
    /// # Errors
    /// The policy or the name is refused; or the journal has no room, or memory ran out.
    pub(crate) fn open(
        alloc: Global,
        job: OfflineJob<'a>,
        queue: Q,
    ) -> Result<OfflineRun<'a, Q>, MediatorFault>
        requires none { (Q.seen queue).count ≡ 0 }
        ensures ok { IfOk result (λ d. IsRunOpened d job.entry) }
        ensures err { IfErr result (λ e. RefusesJob e job.entry) }
    {
        let audit = Audit::new(queue, DEFAULT_AUDIT);
        let mut state = State::new(
            alloc,
            LIMITS,
            audit,
            JournalSizes::new(MOST_ENTRIES, MOST_OCTETS),
        )?;
        state.edit(job.policy)?;
        state.subscribe(job.name)?;
        state.open()?;
        Ok(OfflineRun {
            alloc,
            job,
            state,
            messages: 0,
            records: 0,
            sent: 0,
            message: Vec::new(alloc),
        })
    }

    /// Accepts the next message of the session. What it gives the subscription waits to be pulled, and what is kept back
    /// waits in the audit; or, where there is no room for what it gives, the subscription is cut, and the answer is true.
    ///
    /// # Errors
    /// The message is malformed; or the journal is full, or the audit, or memory.
    pub(crate) fn receive(&mut self, message: Bytes) -> Result<bool, MediatorFault>
        requires delivered { HasDelivered self.old }
        // The job, and what was written, stay as they are.
        ensures job { self.new.job ≡ self.old.job }
        ensures sent { self.new.sent ≡ self.old.sent }
        // The message was accepted, or cut the subscription.
        ensures few { OnOk result (audit_count self.new < 2 ^ 32) }
        ensures ok { IfOk result (λ is_cut. TakesMessage self.old message is_cut self.new) }
        // Why it was refused.
        ensures err { IfErr result (λ e. RunRefuses e self.old message) }
    {
        let receipt = self.state.receive(SESSION, self.messages, message)?;
        self.messages += 1;
        self.records += receipt.records;
        Ok(receipt.cut > 0)
    }
}
