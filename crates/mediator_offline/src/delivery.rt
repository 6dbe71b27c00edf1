//! Gathers what waits for the subscriber, and writes it.
ghost use Rattle.std.specs.Prelude.{◌≡◌, ◌≤◌, ◌<◌, ◌+◌, ◌^◌, ◌++◌, [], true, Some, length, take, IfOk, IfErr, OnOk, OnErr};
ghost use Rattle.mediator_state.specs.declared.fault.Fault.TheVariants.{OutOfMemory};
ghost use Rattle.mediator_offline.specs.declared.job.Fault.TheVariants.{Mediator};
ghost use Rattle.mediator_offline.specs.Failing.{output_after};
ghost use Rattle.subscriber_stream.specs.Calls.{message_if};
ghost use Rattle.mediator_offline.specs.Gathering.{and_gathered, IsGatheredFor};
ghost use Rattle.mediator_offline.specs.Runs.{IsServing, SameButState, KeepsAudit};
ghost use Rattle.mediator_offline.specs.Pulling.{IsDeliveringRun, PullsMessage, Delivers, FailsDelivery};

use crate::job::Fault;
use crate::run::{OfflineRun, SUBSCRIPTION};
use disclosure_audit::AuditQueue;
use mediator_state::Fault as MediatorFault;
use octet_io::{Sink, write_all};
use std::alloc::AllocError;

/// How many octets are gathered before they are written: as many as a message may have that is received. Few messages give more.
const ENOUGH: usize = 65_536;

impl<'a, Q: AuditQueue + Drop> OfflineRun<'a, Q> {
    /// Pulls the messages of what waits for the subscriber, until nothing waits, and gathers them behind those in `gathered`, of
    /// which all are counted, and none is written. All of them are written to `writer` in one piece where they are enough, or the
    /// audit is asked for, whose lines stand behind them.
    ///
    /// # Errors
    /// The writer failed, and the fault says how many octets of the whole run were written; or memory ran out, and then nothing
    /// more was gathered or written.
    pub(crate) fn deliver<W: Sink>(
        &mut self,
        gathered: &mut Vec<u8>,
        writer: &mut W,
    ) -> Result<(), Fault>
        requires delivering { IsDeliveringRun self.old }
        requires gathered { IsGatheredFor self.old gathered.old.items }
        // What waited was written, or gathered behind what was.
        ensures ok { OnOk result (Delivers self.old self.new
            (and_gathered (W.contents writer.old) gathered.old.items)
            (and_gathered (W.contents writer.new) gathered.new.items)) }
        ensures gathers { IsGatheredFor self.new gathered.new.items }
        // The job's numbers fit their types, also where it fails.
        ensures below { self.old.job.target < 2 ^ 16 }
        ensures now_below { self.old.job.now < 2 ^ 32 }
        ensures stays { OnOk result (W.has_failed writer.new ≡ W.has_failed writer.old) }
        // What was written where it fails, and by which cause.
        ensures fails { IfErr result (λ e. W.has_failed writer.new
            ≡ output_after e (W.has_failed writer.old)) }
        ensures err { IfErr result (λ e. FailsDelivery e self.old gathered.old.items
            (W.contents writer.old) (and_gathered (W.contents writer.new) gathered.new.items)
            (W.has_failed writer.new)) }
        // Where something is left to be written, all is as it was.
        ensures left { OnErr result (0 < length gathered.new.items
            → (gathered.new.items ≡ gathered.old.items) × (writer.new ≡ writer.old)
            × (self.new.sent ≡ self.old.sent)) }
    {
        self.pull_all(gathered)?;
        if !self.is_due(gathered) {
            return Ok(());
        }
        write_gathered(gathered, self.sent, writer)
    }

    /// Whether what is `gathered` is to be written now: where it is enough, or the audit is asked for.
    fn is_due(&self, gathered: &[u8]) -> bool
        ensures { self.now.job.audit ≡ true → result ≡ true }
    {
        self.job.audit || gathered.len() >= ENOUGH
    }

    /// Gathers the messages of what waits for the subscriber behind `gathered`, one after another. Their octets are counted.
    ///
    /// # Errors
    /// Want of memory, and then nothing is gathered or counted.
    fn pull_all(&mut self, gathered: &mut Vec<u8>) -> Result<(), Fault>
        requires delivering { IsDeliveringRun self.old }
        // What is gathered is what is due for what waited.
        ensures ok { OnOk result
            (Delivers self.old self.new (Some gathered.old.items) (Some gathered.new.items)) }
        ensures job { self.new.job ≡ self.old.job }
        // The job's numbers fit their types, also where it fails.
        ensures below { self.old.job.target < 2 ^ 16 }
        ensures now_below { self.old.job.now < 2 ^ 32 }
        ensures err { IfErr result (λ e. e ≡ Mediator OutOfMemory) }
        ensures unchanged { OnErr result ((gathered.new.items ≡ gathered.old.items)
            × (self.new.sent ≡ self.old.sent)) }
    {
        let (before, sent) = (gathered.len(), self.sent);
        if let Err(fault) = self.pull_each(gathered) {
            gathered.truncate(before);
            self.sent = sent;
            return Err(fault);
        }
        Ok(())
    }

    /// Gathers messages as [`pull_all`](OfflineRun::pull_all) does.
    ///
    /// # Errors
    /// Want of memory, and then some of them may be gathered and counted.
    fn pull_each(&mut self, gathered: &mut Vec<u8>) -> Result<(), Fault>
        requires delivering { IsDeliveringRun self.old }
        ensures ok { OnOk result
            (Delivers self.old self.new (Some gathered.old.items) (Some gathered.new.items)) }
        ensures job { self.new.job ≡ self.old.job }
        // The job's numbers fit their types, also where it fails.
        ensures below { self.old.job.target < 2 ^ 16 }
        ensures now_below { self.old.job.now < 2 ^ 32 }
        ensures err { IfErr result (λ e. e ≡ Mediator OutOfMemory) }
        // What was gathered before stays in front.
        ensures front { take (length gathered.old.items) gathered.new.items
            ≡ gathered.old.items }
    {
        'pulls: loop {
            let is_there = self.pull()?;
            if !is_there {
                return Ok(());
            }
            self.gather(gathered)?;
        }
    }

    /// Pulls the next message, and answers whether there is one: there is none where nothing waits.
    ///
    /// # Errors
    /// Want of memory.
    fn pull(&mut self) -> Result<bool, Fault>
        requires serving { IsServing self.old }
        // The mediator's state alone changes, and its audit doesn't.
        ensures same { SameButState self.old self.new }
        ensures sent { self.new.sent ≡ self.old.sent }
        ensures audit { OnOk result (KeepsAudit self.old self.new) }
        // It is the next message of what waits.
        ensures ok { IfOk result (λ is_there. PullsMessage self.old
            (message_if is_there self.new.message.items) self.new) }
        // The job's numbers fit their types, also where it fails.
        ensures below { self.old.job.target < 2 ^ 16 }
        ensures now_below { self.old.job.now < 2 ^ 32 }
        ensures err { IfErr result (λ e. e ≡ Mediator OutOfMemory) }
    {
        let (now, target) = (self.job.now, self.job.target);
        Ok(
            self.state
                .pull_to(SUBSCRIPTION, now, target, &mut self.message)?,
        )
    }

    /// Gathers the message that was pulled behind `gathered`, and counts its octets.
    ///
    /// # Errors
    /// Want of memory, and then nothing is gathered.
    fn gather(&mut self, gathered: &mut Vec<u8>) -> Result<(), Fault>
        requires fits { self.old.sent + length self.old.message.items < 2 ^ 64 }
        // The count of octets alone changes.
        ensures same { SameButState self.old self.new }
        ensures state { self.new.state ≡ self.old.state }
        // What is gathered and the count grow by the message.
        ensures ok { OnOk result
            (gathered.new.items ≡ gathered.old.items ++ self.old.message.items) }
        ensures sent { OnOk result
            (self.new.sent ≡ self.old.sent + length self.old.message.items) }
        ensures err { IfErr result (λ e. e ≡ Mediator OutOfMemory) }
        ensures unchanged { OnErr result (gathered.new.items ≡ gathered.old.items) }
    {
        if append(gathered, self.message.as_slice()).is_err() {
            return Err(Fault::Mediator(MediatorFault::OutOfMemory));
        }
        self.sent += self.message.len() as u64;
        Ok(())
    }
}

/// Appends `octets` to a text, for which room for [`ENOUGH`] is made once.
///
/// # Errors
/// Want of memory, and then nothing is appended.
fn append(text: &mut Vec<u8>, octets: &[u8]) -> Result<(), AllocError>
    ensures ok { OnOk result (text.new.items ≡ text.old.items ++ octets.now) }
    ensures err { OnErr result (text.new.items ≡ text.old.items) }
{
    if text.capacity() < ENOUGH {
        text.reserve(ENOUGH)?;
    }
    text.extend_from_slice(octets)
}

ghost use Rattle.std.specs.Io.KnownBytes.{Appends};
ghost use Rattle.mediator_offline.specs.Gathering.{StopsGathered};

/// Writes what was `gathered` to `writer`, the last of the `sent` octets that are counted for the whole run. Nothing is gathered
/// then. Where there is nothing, nothing is written.
///
/// # Errors
/// The writer failed, and the fault says how many octets of the whole run were written.
pub(crate) fn write_gathered<W: Sink>(
    gathered: &mut Vec<u8>,
    sent: u64,
    writer: &mut W,
) -> Result<(), Fault>
    requires counted { length gathered.old.items ≤ sent }
    ensures none { gathered.new.items ≡ [] }
    ensures ok { OnOk result
        (Appends (W.contents writer.old) (W.contents writer.new) gathered.old.items) }
    ensures stays { OnOk result (W.has_failed writer.new ≡ W.has_failed writer.old) }
    ensures err { IfErr result (λ e. StopsGathered e sent gathered.old.items
        (W.contents writer.old) (W.contents writer.new) (W.has_failed writer.new)) }
{
    let before = sent - gathered.len() as u64;
    let written = write_all(writer, gathered.as_slice());
    gathered.clear();
    match written {
        Ok(()) => Ok(()),
        Err(stopped) => Err(Fault::Write {
            sent: before + stopped.sent as u64,
        }),
    }
}
