//! A device: a reader or a writer of std as a source or a sink.
ghost use Rattle.std.specs.Prelude.{◌≡◌, Bool, true, false, OnOk, IfSome};
ghost use Rattle.std.specs.Io.KnownBytes.{Appends, Keeps};
ghost use Rattle.octet_io.specs.Device.{device_inner, device_failed, device_fault};
ghost use Rattle.octet_io.specs.Failing.{FailsOnErr};

use crate::failed::Failed;
use crate::sink::Sink;
use crate::source::Source;
use std::fmt::Display;
use std::io::{self, ErrorKind, Read, Write};

/// A reader or a writer of std as a source or a sink. It tells the octets that its reader or writer tells.
///
/// It retries nothing: each error of the reader or writer is a failure, and so is a write that takes none of a slice
/// that is not empty. Within a text alone std tries an interrupted write again.
#[derive(Drop)]
pub struct Device<T> {
    inner: T,
    /// Why it failed first, where it has failed.
    fault: Option<io::Error>,
}

impl<T> Device<T> {
    /// A device over the reader or writer `inner`, which has not failed yet.
    pub fn new(inner: T) -> Device<T>
        ensures inner { device_inner result ≡ inner }
        ensures failed { device_failed result ≡ false }
    {
        Device { inner, fault: None }
    }

    /// Whether a read, a write or a flush has failed.
    pub fn has_failed(&self) -> bool
        ensures { result ≡ device_failed self.now }
    {
        self.fault.is_some()
    }

    /// Why it failed first; an error of the kind `Other` where it has not failed.
    pub fn why(&self) -> io::Error
        ensures { IfSome (device_fault self.now) (λ fault. result ≡ fault) }
    {
        match self.fault {
            Some(why) => why,
            None => io::Error::from(ErrorKind::Other),
        }
    }

    /// Notes that the device has failed, and `why`, unless it had failed before. It answers [`Failed`], for the caller
    /// to give.
    fn fail(&mut self, why: io::Error) -> Failed
        ensures failed { device_failed self.new ≡ true }
        ensures inner { device_inner self.new ≡ device_inner self.old }
    {
        if self.fault.is_none() {
            self.fault = Some(why);
        }
        Failed
    }

    /// The reader or writer again. Why it failed is dropped.
    pub fn into_inner(self) -> T
        ensures { result ≡ device_inner self }
    {
        let Device { inner, fault: _ } = self;
        inner
    }
}

impl<T: Write> Device<T> {
    /// Writes `text`, whole: what `write!` and `writeln!` call.
    ///
    /// # Errors
    /// [`Failed`] where the writer has failed. How much of the text was written before is not known.
    pub fn write_fmt<D: Display + Drop>(&mut self, text: D) -> Result<(), Failed>
        ensures octets { OnOk result (IfSome (D.output text)
            (Appends (T.contents (device_inner self.old)) (T.contents (device_inner self.new)))) }
        ensures failed { FailsOnErr (device_failed self.old) (device_failed self.new) result }
    {
        match self.inner.write_fmt(text) {
            Ok(()) => Ok(()),
            Err(why) => Err(self.fail(why)),
        }
    }

    /// Sees that what was written has left the writer's own buffers.
    ///
    /// # Errors
    /// [`Failed`] where the writer has failed.
    pub fn flush(&mut self) -> Result<(), Failed>
        ensures octets { Keeps
            (T.contents (device_inner self.old)) (T.contents (device_inner self.new)) }
        ensures failed { FailsOnErr (device_failed self.old) (device_failed self.new) result }
    {
        match self.inner.flush() {
            Ok(()) => Ok(()),
            Err(why) => Err(self.fail(why)),
        }
    }
}

impl<T: Read> Source for Device<T> {
    ghost remaining = { λ d. T.remaining (device_inner d) };

    ghost has_failed = { device_failed };

    fn read(&mut self, buffer: &mut [u8]) -> Result<usize, Failed> {
        match self.inner.read(buffer) {
            Ok(count) => Ok(count),
            Err(error) => Err(self.fail(error)),
        }
    }
}

impl<T: Write> Sink for Device<T> {
    ghost contents = { λ d. T.contents (device_inner d) };

    ghost has_failed = { device_failed };

    fn write(&mut self, octets: &[u8]) -> Result<usize, Failed> {
        match self.inner.write(octets) {
            Ok(count) if count > 0 || octets.is_empty() => Ok(count),
            Ok(_) => Err(self.fail(io::Error::from(ErrorKind::WriteZero))),
            Err(why) => Err(self.fail(why)),
        }
    }
}
