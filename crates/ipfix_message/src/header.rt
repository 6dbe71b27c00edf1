//! The header of a message.
ghost use Rattle.std.specs.Prelude.{◌≡◌, ◌≤◌, length, OnOk};
ghost use Rattle.ipfix_octets.specs.MessageFormat.{longest_message, header_octets};
ghost use Rattle.ipfix_message.specs.Reading as reading;

use crate::fault::Fault;
use crate::octets::{u16_at, u32_at};
use ipfix_octets::message_format::{HEADER_OCTETS, IPFIX_VERSION};

/// What a message header says beside version and length (RFC 7011, section 3.1).
#[derive(Clone, Copy, Debug, PartialEq, Eq)]
pub struct Header {
    /// When the message left the exporter, in seconds since 1970.
    pub export_time: u32,
    /// The Data Records sent before this message in the session and domain, modulo 2^32.
    pub sequence: u32,
    /// The Observation Domain ID, which is the exporter's own number.
    pub domain: u32,
}

/// Reads the header of a message (RFC 7011, section 3.1). `octets` are all octets of the message.
///
/// # Errors
/// - `ShortHeader` where there are fewer than 16 octets.
/// - `BadVersion` where the version isn't 10.
/// - `BadLength` where the Length isn't the number of the octets.
#[tactic(auto, unfolding(crate::specs::Reading::read_header))]
pub fn read_header(octets: &[u8]) -> Result<Header, Fault>
    ensures exact { result ≡ reading.read_header octets.now }
    ensures least { OnOk result (header_octets ≤ length octets.now) }
    ensures most { OnOk result (length octets.now ≤ longest_message) }
{
    if octets.len() < HEADER_OCTETS {
        return Err(Fault::ShortHeader);
    }
    if u16_at(octets, 0) != IPFIX_VERSION {
        return Err(Fault::BadVersion);
    }
    if usize::from(u16_at(octets, 2)) != octets.len() {
        return Err(Fault::BadLength);
    }
    Ok(Header {
        export_time: u32_at(octets, 4),
        sequence: u32_at(octets, 8),
        domain: u32_at(octets, 12),
    })
}
