//! To where the lines of the audit go.
ghost use Rattle.std.specs.Prelude.{◌≡◌, ℕ, List, Bool, Option, is_some, IfErr, OnOk, OnErr};
ghost use Rattle.std.specs.Io.KnownBytes.{Appends, Keeps};
ghost use Rattle.octet_io.specs.Device.{device_inner, device_failed};
ghost use Rattle.octet_io.specs.Failing.{FailsOnErr};
ghost use Rattle.mediator_offline.specs.Failing.{audit_after, StopsLines};
ghost use Rattle.mediator_offline.specs.Lines.{audit_text, WritesBeginning};

use crate::job::Fault;
use crate::recording::write_lines;
use disclosure_audit::AuditEntry;
use octet_io::{Device, Failed};
use std::alloc::Global;
use std::io::{self, Write};

/// To where the lines of an audit go: a device writes them at once, and others may do so later. Contracts see the octets that it
/// holds, where they are known, and whether it has failed.
pub trait AuditSink {
    // The octets that it holds, where they are known.
    ghost contents: { Self → Option (List ℕ) };

    // Whether it has failed.
    ghost has_failed: { Self → Bool };

    /// Takes `entries`, whose lines are due behind all that were before. Memory for the lines is taken from `alloc`.
    ///
    /// # Errors
    /// [`Fault::AuditWrite`] where the sink has failed, or want of memory. A front of the lines was written.
    fn write_entries(&mut self, alloc: Global, entries: Vec<AuditEntry>) -> Result<(), Fault>
        // All lines were written.
        ensures ok { OnOk result (Appends (contents self.old) (contents self.new)
            (audit_text entries.items)) }
        ensures stays { OnOk result (has_failed self.new ≡ has_failed self.old) }
        // By which cause it stopped, and that a front of the lines was written.
        ensures cause { IfErr result (λ e. StopsLines e (has_failed self.new)) }
        ensures fails { IfErr result (λ e. has_failed self.new
            ≡ audit_after e (has_failed self.old)) }
        ensures err { OnErr result (WritesBeginning (contents self.old) (contents self.new)
            (audit_text entries.items)) };

    /// Why it failed first, where it has failed.
    fn failure(&self) -> Option<io::Error>
        ensures { is_some result ≡ has_failed self.now };

    /// Sees that all lines have left.
    ///
    /// # Errors
    /// [`Failed`] where the sink has failed.
    fn flush_lines(&mut self) -> Result<(), Failed>
        ensures octets { Keeps (contents self.old) (contents self.new) }
        ensures failed { FailsOnErr (has_failed self.old) (has_failed self.new) result };
}

/// A device writes the lines of each call in one piece.
impl<W: Write> AuditSink for Device<W> {
    ghost contents = { λ d. W.contents (device_inner d) };

    ghost has_failed = { device_failed };

    fn write_entries(&mut self, alloc: Global, entries: Vec<AuditEntry>) -> Result<(), Fault> {
        write_lines(alloc, entries.as_slice(), self)
    }

    fn failure(&self) -> Option<io::Error> {
        if self.has_failed() {
            Some(self.why())
        } else {
            None
        }
    }

    fn flush_lines(&mut self) -> Result<(), Failed> {
        self.flush()
    }
}
