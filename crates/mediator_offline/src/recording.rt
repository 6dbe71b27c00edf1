//! Writes what the audit names, line by line.
ghost use Rattle.std.specs.Prelude.{◌≡◌, IfOk, IfErr, OnOk, OnErr};
ghost use Rattle.std.specs.Io.KnownBytes.{Appends};
ghost use Rattle.mediator_offline.specs.Failing.{audit_after, StopsLines};
ghost use Rattle.mediator_offline.specs.Lines.{audit_text, WritesBeginning};

use crate::audit_sink::AuditSink;
use crate::job::Fault;
use crate::run::OfflineRun;
use disclosure_audit::{AuditEntry, AuditQueue, put_lines};
use mediator_state::Fault as MediatorFault;
use octet_io::{Sink, write_all};
use std::alloc::{AllocError, Global};

/// For how many octets of each line there is room from the start; most lines are shorter.
const LINE_OCTETS: usize = 32;

/// Writes the lines of `entries` to `writer`, in their order and in one piece.
///
/// # Errors
/// The writer failed, and a front of the lines was written; or memory ran out, and nothing was.
pub(crate) fn write_lines<A: Sink>(
    alloc: Global,
    entries: &[AuditEntry],
    writer: &mut A,
) -> Result<(), Fault>
    // All lines were written.
    ensures ok { OnOk result (Appends (A.contents writer.old) (A.contents writer.new)
        (audit_text entries.now)) }
    ensures stays { OnOk result (A.has_failed writer.new ≡ A.has_failed writer.old) }
    // By which cause it stopped, and that a front of the lines was written.
    ensures cause { IfErr result (λ e. StopsLines e (A.has_failed writer.new)) }
    ensures fails { IfErr result (λ e. A.has_failed writer.new
        ≡ audit_after e (A.has_failed writer.old)) }
    ensures err { OnErr result (WritesBeginning (A.contents writer.old) (A.contents writer.new)
        (audit_text entries.now)) }
{
    let Ok(text) = audit_lines(alloc, entries) else {
        return Err(Fault::Mediator(MediatorFault::OutOfMemory));
    };
    match write_all(writer, text.as_slice()) {
        Ok(()) => Ok(()),
        Err(_) => Err(Fault::AuditWrite),
    }
}

/// The lines of `entries`, one after another, in memory from `alloc`.
///
/// # Errors
/// Want of memory.
pub fn audit_lines(alloc: Global, entries: &[AuditEntry]) -> Result<Vec<u8>, AllocError>
    ensures { IfOk result (λ text. text.items ≡ audit_text entries.now) }
{
    let mut text = Vec::with_capacity(alloc, entries.len().saturating_mul(LINE_OCTETS))?;
    put_lines(alloc, &mut text, entries)?;
    Ok(text)
}

ghost use Rattle.std.specs.Prelude.{◌<◌, ◌^◌, true, false};
ghost use Rattle.mediator_offline.specs.Lines.{lines_for};
ghost use Rattle.mediator_offline.specs.Runs.{RunHasHistory, KeepsAsked, audit_count, audit_waiting};
ghost use Rattle.mediator_offline.specs.Recording.{Records};

impl<'a, Q: AuditQueue + Drop> OfflineRun<'a, Q> {
    /// Drains the audit, and writes its lines to `writer` where the job asks for them. Where it doesn't, this can't fail.
    ///
    /// # Errors
    /// The writer failed, or memory ran out: a front of the lines was written.
    pub(crate) fn record<A: AuditSink>(&mut self, writer: &mut A) -> Result<(), Fault>
        requires known { RunHasHistory self.old }
        requires few { audit_count self.old < 2 ^ 32 }
        requires asked { self.old.job.audit ≡ Q.KEEPS }
        // Entries are kept exactly where they are asked for. Then their lines were written, and the audit is empty.
        ensures kept { KeepsAsked self.old }
        ensures written { OnOk result (Appends (A.contents writer.old) (A.contents writer.new)
            (lines_for self.old.job.audit (audit_waiting self.old))) }
        ensures drained { OnOk result (Records self.old self.new) }
        ensures stays { OnOk result (A.has_failed writer.new ≡ A.has_failed writer.old) }
        // The job, and the count of what was written, stay.
        ensures job { self.new.job ≡ self.old.job }
        ensures sent { self.new.sent ≡ self.old.sent }
        // By which cause it stopped, and that a front of the lines was written.
        ensures cause { IfErr result (λ e. StopsLines e (A.has_failed writer.new)) }
        ensures fails { IfErr result (λ e. A.has_failed writer.new
            ≡ audit_after e (A.has_failed writer.old)) }
        ensures err { OnErr result (WritesBeginning (A.contents writer.old) (A.contents writer.new)
            (lines_for self.old.job.audit (audit_waiting self.old))) }
        // Where no lines are asked for, it doesn't stop, and its writer is left alone.
        ensures asked { OnErr result (self.old.job.audit ≡ true) }
        ensures unasked { self.old.job.audit ≡ false → writer.new ≡ writer.old }
    {
        let Ok(entries) = self.state.drain_audit(u32::MAX) else {
            return Err(Fault::Mediator(MediatorFault::OutOfMemory));
        };
        if !self.job.audit {
            return Ok(());
        }
        writer.write_entries(self.alloc, entries)
    }
}
