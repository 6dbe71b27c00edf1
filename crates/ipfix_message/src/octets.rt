//! Numbers at a place of a message.
ghost use Rattle.std.specs.Prelude.{◌≡◌, ◌+◌, ◌≤◌, length};
ghost use Rattle.ipfix_octets.specs.Octets.{number_at};

use ipfix_octets::be_number;

/// The number in the two octets at a place.
pub(crate) fn u16_at(octets: &[u8], place: usize) -> u16
    requires { place + 2 ≤ length octets.now }
    ensures { result ≡ number_at place 2 octets.now }
{
    be_number(&octets[place..place + 2]) as u16
}

/// The number in the four octets at a place.
pub(crate) fn u32_at(octets: &[u8], place: usize) -> u32
    requires { place + 4 ≤ length octets.now }
    ensures { result ≡ number_at place 4 octets.now }
{
    be_number(&octets[place..place + 4]) as u32
}
