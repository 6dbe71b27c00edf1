//! A reader that gives few octets at a call, and fails at one of its calls.
ghost use Rattle.std.specs.Prelude.{◌≡◌, ◌≢◌, Some, Ok, length, min, max};
ghost use Rattle.std.specs.Io.{ReadsAtMost};
ghost use Rattle.std.specs.Io.KnownBytes.{ReadConsumes};
ghost use Rattle.test_io.specs.Calls.{FailsWhenDue};

use crate::schedule::Schedule;
use std::io::{self, ErrorKind, Read};

/// A reader that gives few octets at a call, and fails at one of its calls.
#[derive(Drop)]
pub struct Sparing<'a> {
    /// What is still to be read.
    pub rest: &'a [u8],
    /// How much a call gives, and which call fails. A most of 0 octets stands for 1, since a read of none is the end of
    /// a stream.
    pub schedule: Schedule,
}

impl<'a> Sparing<'a> {
    /// A reader of the octets `rest`. A call gives at most `most` of them, and 1 where that is 0; `until_failure` calls
    /// come before the one that fails, with an error of the kind `failure`.
    pub fn new(rest: &'a [u8], most: usize, until_failure: usize, failure: ErrorKind) -> Sparing<'a>
        ensures rest { result.rest.now ≡ rest.now }
        ensures schedule { result.schedule
            ≡ record { most = most; until_failure = until_failure; failure = failure } }
    {
        Sparing {
            rest,
            schedule: Schedule {
                most,
                until_failure,
                failure,
            },
        }
    }
}

impl Read for Sparing<'_> {
    ghost remaining = { λ r. Some r.rest.now };

    fn read(&mut self, buffer: &mut [u8]) -> io::Result<usize>
        ensures bound { ReadsAtMost result buffer.new }
        ensures bytes { ReadConsumes (Some self.old.rest.now) (Some self.new.rest.now) result
            buffer.new }
        ensures gives { self.old.schedule.until_failure ≢ 0
            → result ≡ Ok (min (length self.old.rest.now) (min (length buffer.old)
            (max self.old.schedule.most 1))) }
        ensures due { FailsWhenDue self.old.schedule self.new.schedule result }
    {
        let count = buffer.len().min(self.schedule.next_call()?.max(1));
        self.rest.read(&mut buffer[..count])
    }
}
