//! A source, from which octets are read.
ghost use Rattle.std.specs.Prelude.{ℕ, List, Bool, Option};
ghost use Rattle.std.specs.Io.{ReadsAtMost};
ghost use Rattle.std.specs.Io.KnownBytes.{ReadConsumes};
ghost use Rattle.octet_io.specs.Failing.{FailsOnErr};

use crate::failed::Failed;

/// From where octets are read. Contracts see the octets that reads will give, where they are known, and whether it has
/// failed.
pub trait Source {
    // The octets that reads will give from here on, where they are known.
    ghost remaining: { Self → Option (List ℕ) };

    // Whether it has failed.
    ghost has_failed: { Self → Bool };

    /// Reads octets into the front of `buffer`, and answers how many. None are read only at the end, or into an empty
    /// buffer. Behind those that were read the buffer may have changed.
    ///
    /// # Errors
    /// [`Failed`] where the source has failed, and no octet was read.
    fn read(&mut self, buffer: &mut [u8]) -> Result<usize, Failed>
        ensures bound { ReadsAtMost result buffer.new }
        ensures octets { ReadConsumes (remaining self.old) (remaining self.new) result buffer.new }
        ensures failed { FailsOnErr (has_failed self.old) (has_failed self.new) result };
}
