//! How much a call of a reader or a writer does, and which call fails.
ghost use Rattle.std.specs.Prelude.{◌≡◌, ◌≢◌, Ok};
ghost use Rattle.test_io.specs.Calls.{FailsWhenDue};

use std::io::{self, ErrorKind};

/// How much a call does, and which call fails.
#[derive(Clone, Copy)]
pub struct Schedule {
    /// The most octets that one call takes or gives.
    pub most: usize,
    /// How many calls come before the one that fails.
    pub until_failure: usize,
    /// The kind of that call's error.
    pub failure: ErrorKind,
}

impl Schedule {
    /// Counts a call, and answers the most octets that it may take or give.
    ///
    /// # Errors
    /// An error of the kind that was told, at the call that is to fail.
    pub(crate) fn next_call(&mut self) -> io::Result<usize>
        ensures due { FailsWhenDue self.old self.new result }
        ensures most { self.old.until_failure ≢ 0 → result ≡ Ok self.old.most }
    {
        let fails = self.until_failure == 0;
        self.until_failure = self.until_failure.wrapping_sub(1);
        if fails {
            return Err(io::Error::from(self.failure));
        }
        Ok(self.most)
    }
}
