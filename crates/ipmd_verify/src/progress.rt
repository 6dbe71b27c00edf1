//! How far a file was read, told while it is.

use octet_io::Device;
use std::io::Write;

/// The line is written anew each time that this many entries more were read.
const ENTRIES: u64 = 16_384;

/// As many blanks as the longest line has characters.
const BLANKS: &str = "                                                                        ";

/// Who is told how far a file was read.
pub trait Progress {
    /// From here on nothing is to be told.
    fn silence(&mut self);

    /// Of the `all` entries of the file, `read` were read.
    fn tell(&mut self, read: u64, all: u64);

    /// No more is read.
    fn end(&mut self);
}

/// A line on a terminal that is written anew as entries are read, and blanked at the end. What can't be written is dropped.
#[derive(Drop)]
pub struct OnTerminal<E> {
    errors: Device<E>,
    /// Whether it is a terminal, and something is to be told.
    shows: bool,
    /// Whether a line stands there.
    shown: bool,
}

impl<E: Write> OnTerminal<E> {
    /// A line on `errors`; or none, where `is_terminal` says that `errors` is no terminal.
    pub fn new(errors: Device<E>, is_terminal: bool) -> OnTerminal<E> {
        OnTerminal {
            errors,
            shows: is_terminal,
            shown: false,
        }
    }
}

impl<E: Write> Progress for OnTerminal<E> {
    fn silence(&mut self) {
        self.shows = false;
    }

    fn tell(&mut self, read: u64, all: u64) {
        if self.shows && read % ENTRIES == 0 {
            let percent = read.saturating_mul(100) / all.max(1);
            let _ = write!(self.errors, "\r{read} of {all} entries read, {percent} %");
            self.shown = true;
        }
    }

    fn end(&mut self) {
        if self.shown {
            let _ = write!(self.errors, "\r{BLANKS}\r");
            self.shown = false;
        }
    }
}
