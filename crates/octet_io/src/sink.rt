//! A sink, to which octets are written.
ghost use Rattle.std.specs.Prelude.{◌≡◌, ◌<◌, ℕ, List, Bool, Option, length, OnOk, IfOk, IfErr};
ghost use Rattle.std.specs.Io.{WritesAtMost};
ghost use Rattle.std.specs.Io.KnownBytes.{WriteAppends, Appends};
ghost use Rattle.octet_io.specs.Failing.{FailsOnErr};
ghost use Rattle.octet_io.specs.Written.{WritesFront};

use crate::failed::Failed;
use thiserror::Error;

/// To where octets are written. Contracts see the octets that it holds, where they are known, and whether it has
/// failed.
pub trait Sink {
    // The octets that it holds, where they are known.
    ghost contents: { Self → Option (List ℕ) };

    // Whether it has failed.
    ghost has_failed: { Self → Bool };

    /// Writes octets of the front of `octets`, at least one where it has any, and answers how many.
    ///
    /// # Errors
    /// [`Failed`] where the sink has failed, and no octet was written.
    fn write(&mut self, octets: &[u8]) -> Result<usize, Failed>
        ensures bound { WritesAtMost result octets.now }
        ensures some { 0 < length octets.now → IfOk result (λ n. 0 < n) }
        ensures octets { WriteAppends (contents self.old) (contents self.new) result octets.now }
        ensures failed { FailsOnErr (has_failed self.old) (has_failed self.new) result };
}

/// The sink failed before all of the slice was written.
#[derive(Clone, Copy, Debug, PartialEq, Eq, Error)]
#[error("WriteStopped")]
pub struct WriteStopped {
    /// How many octets of the front of the slice were written: fewer than it has.
    pub sent: usize,
}

/// Writes all of `octets` to `sink`, by as many writes as it takes.
///
/// # Errors
/// [`WriteStopped`] where a write failed: `sent` octets of the front of the slice were written before, and not all of
/// it.
pub fn write_all<S: Sink>(sink: &mut S, octets: &[u8]) -> Result<(), WriteStopped>
    ensures ok { OnOk result (Appends (S.contents sink.old) (S.contents sink.new) octets.now) }
    ensures stays { OnOk result (S.has_failed sink.new ≡ S.has_failed sink.old) }
    ensures err { IfErr result (λ stopped. WritesFront (S.contents sink.old) (S.contents sink.new)
        octets.now stopped.sent (S.has_failed sink.new)) }
{
    let mut sent = 0;
    'writes: while sent < octets.len() {
        match sink.write(&octets[sent..]) {
            Ok(count) => sent += count,
            Err(Failed) => return Err(WriteStopped { sent }),
        }
    }
    Ok(())
}
