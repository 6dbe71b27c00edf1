//! What stands at the front of a stream, by the first 4 octets of each header (RFC 7011, section 3.1).
ghost use Rattle.std.specs.Prelude.{◌≡◌, ◌+◌, ◌≤◌, length};
ghost use Rattle.sequences.specs.Octets.{number_at};
ghost use Rattle.ipfix_message.specs.Fronts.{IsFront, IsExtent};

use crate::fault::Fault;
use ipfix_octets::message_format::{HEADER_OCTETS, IPFIX_VERSION};

/// The octets at the front of a header that hold its version and its length.
const JUDGED_OCTETS: usize = 4;

/// What stands where a message should begin.
#[derive(Clone, Copy)]
pub enum Front {
    /// Less than a message.
    Partial,
    /// A whole message, of this many octets.
    Whole(usize),
    /// Octets that begin no message.
    Faulty(Fault),
}

/// How many octets at the front are whole messages, and the fault that follows them.
#[derive(Clone, Copy)]
pub struct Extent {
    /// How many octets at the front are whole messages.
    pub whole: usize,
    /// The fault of the octets behind these messages, if they begin no message.
    pub fault: Option<Fault>,
}

/// The number in the two octets at `place`.
fn number_in_two(octets: &[u8], place: usize) -> u16
    requires { place + 2 ≤ length octets.now }
    ensures { result ≡ number_at place 2 octets.now }
{
    u16::from_be_bytes([octets[place], octets[place + 1]])
}

/// Judges the first 4 octets of `octets`, as soon as they are there: the version, and then the
/// length (RFC 7011, section 3.1).
pub fn front_of(octets: &[u8]) -> Front
    ensures { IsFront octets.now result }
{
    if octets.len() < JUDGED_OCTETS {
        return Front::Partial;
    }
    if number_in_two(octets, 0) != IPFIX_VERSION {
        return Front::Faulty(Fault::BadVersion);
    }
    let length = usize::from(number_in_two(octets, 2));
    if length < HEADER_OCTETS {
        return Front::Faulty(Fault::BadLength);
    }
    if octets.len() < length {
        return Front::Partial;
    }
    Front::Whole(length)
}

/// Goes through `octets` from header to header, as far as messages are whole.
pub fn extent_of(octets: &[u8]) -> Extent
    ensures { IsExtent octets.now result }
{
    let mut whole = 0;
    'messages: loop {
        match front_of(&octets[whole..]) {
            Front::Whole(length) => whole += length,
            Front::Partial => return Extent { whole, fault: None },
            Front::Faulty(fault) => {
                return Extent {
                    whole,
                    fault: Some(fault),
                };
            }
        }
    }
}
