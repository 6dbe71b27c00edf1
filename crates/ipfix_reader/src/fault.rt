//! Why an intake hands out nothing more.

use std::error::Error;
use std::fmt::{self, Display, Formatter, Write};

/// Why octets that were read are no stream of messages (RFC 7011, sections 3.1 and 10.4). A fault's text is its name.
#[derive(Clone, Copy, Debug, PartialEq, Eq)]
pub enum FramingFault {
    /// A message's header has another version than 10 (RFC 7011, section 3.1).
    BadVersion,
    /// A message's header has a length under 16 octets, which are those of the header alone (RFC 7011, section 3.1).
    BadLength,
    /// The stream ends inside a message.
    CutOff,
}

impl Error for FramingFault {}

impl Display for FramingFault {
    ghost use Rattle.std.specs.Prelude.{Option, Some};
    ghost use Rattle.ipfix_reader.specs.Texts.{text_of_framing};

    ghost output = { λ fault. Some (text_of_framing fault) };

    fn fmt<W: Write>(&self, f: &mut Formatter<W>) -> fmt::Result {
        f.write_str(match self {
            FramingFault::BadVersion => "BadVersion",
            FramingFault::BadLength => "BadLength",
            FramingFault::CutOff => "CutOff",
        })
    }
}

/// Why an intake hands out nothing more. Of each fault [`Intake::next`](crate::Intake::next) says what it leaves.
#[derive(Clone, Copy, Debug, PartialEq, Eq)]
pub enum Fault {
    /// The reader failed.
    Read,
    /// What was read is no stream of messages.
    Framing(FramingFault),
    /// As many reads were made as are allowed, and the end was not read.
    Turns,
    /// Want of memory. The piece that was read last is no part of the stream.
    OutOfMemory,
}
