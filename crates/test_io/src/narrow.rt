//! A writer that takes few octets at a call, and fails at one of its calls.
ghost use Rattle.std.specs.Prelude.{◌≡◌, ◌≢◌, ◌≤◌, ◌+◌, [], Some, IsOk, IfOk, IfErr, length, min, vec_len, vec_capacity};
ghost use Rattle.std.specs.Io.{WritesAtMost};
ghost use Rattle.std.specs.Io.KnownBytes.{Keeps, WriteAppends};
ghost use Rattle.std.specs.IoError.{error_kind};
ghost use Rattle.test_io.specs.Calls.{FailsWhenDue};

use crate::schedule::Schedule;
use std::alloc::{AllocError, Global};
use std::io::{self, ErrorKind, Write};

/// A writer that takes few octets at a call, and fails at one of its calls. It keeps what it took. A flush does
/// nothing, and is no call.
#[derive(Drop)]
pub struct Narrow {
    /// What was written.
    pub octets: Vec<u8>,
    /// How much a call takes, and which call fails.
    pub schedule: Schedule,
}

impl Narrow {
    /// A writer that has taken nothing. A call takes at most `most` octets; `until_failure` calls come before the one
    /// that fails, with an error of the kind `failure`. There is room for `room` octets in memory from `alloc`: a write
    /// into that room takes no memory.
    ///
    /// # Errors
    /// Want of memory for the room.
    pub fn new(
        alloc: Global,
        room: usize,
        most: usize,
        until_failure: usize,
        failure: ErrorKind,
    ) -> Result<Narrow, AllocError>
        ensures empty { IfOk result (λ writer. writer.octets.items ≡ []) }
        ensures room { IfOk result (λ writer. room ≤ vec_capacity writer.octets) }
        ensures schedule { IfOk result (λ writer. writer.schedule
            ≡ record { most = most; until_failure = until_failure; failure = failure }) }
    {
        Ok(Narrow {
            octets: Vec::with_capacity(alloc, room)?,
            schedule: Schedule {
                most,
                until_failure,
                failure,
            },
        })
    }
}

impl Write for Narrow {
    ghost contents = { λ w. Some w.octets.items };

    fn write(&mut self, octets: &[u8]) -> io::Result<usize>
        ensures bound { WritesAtMost result octets.now }
        ensures bytes { WriteAppends (Some self.old.octets.items) (Some self.new.octets.items)
            result octets.now }
        ensures takes { IfOk result (λ count.
            count ≡ min (length octets.now) self.old.schedule.most) }
        ensures due { FailsWhenDue self.old.schedule self.new.schedule result }
        // Each other call fails only for want of memory, and room that is there takes none.
        ensures memory { self.old.schedule.until_failure ≢ 0
            → IfErr result (λ e. error_kind e ≡ ErrorKind.OutOfMemory) }
        ensures no_memory { self.old.schedule.until_failure ≢ 0
            → vec_len self.old.octets + min (length octets.now) self.old.schedule.most
            ≤ vec_capacity self.old.octets → IsOk result }
    {
        let count = octets.len().min(self.schedule.next_call()?);
        self.octets.extend_from_slice(&octets[..count])?;
        Ok(count)
    }

    fn flush(&mut self) -> io::Result<()>
        ensures bytes { Keeps (Some self.old.octets.items) (Some self.new.octets.items) }
        ensures ok { IsOk result }
        ensures unchanged { self.new ≡ self.old }
    {
        Ok(())
    }
}
