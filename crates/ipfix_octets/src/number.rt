//! Numbers in network byte order.
ghost use Rattle.std.specs.Prelude.{◌≡◌, ◌^◌, ◌+◌, ◌<◌, ◌≤◌, ◌++◌, length, OnOk, OnErr, vec_len, vec_capacity};
ghost use Rattle.sequences.specs.Octets.{be_value, be_octets};
ghost use Rattle.ipfix_octets.specs.declared.number.TheConstants.{WIDEST};

use std::alloc::AllocError;

/// The widest number that IPFIX has, in octets (RFC 7011, section 6.1.1).
pub const WIDEST: usize = 8;

/// The unsigned number that `octets`, from 1 to 8 of them, are in network byte order: the most
/// significant octet comes first (RFC 7011, section 6.1.1).
#[tactic(auto, using(crate::proofs::Numbers::number_steps, crate::proofs::Numbers::below_more, crate::proofs::Numbers::room_for_octet))]
pub fn be_number(octets: &[u8]) -> u64
    requires some { 1 ≤ length octets.now }
    requires few { length octets.now ≤ WIDEST }
    ensures value { result ≡ be_value octets.now }
    ensures below { result < 256 ^ length octets.now }
{
    let mut number = 0;
    for octet in octets {
        number = number * 256 + u64::from(*octet);
    }
    number
}

/// Appends `value` to `out` in `width` octets, from 1 to 8, the most significant first (RFC 7011,
/// section 6.1.1). The value is one that these octets can hold.
///
/// # Errors
/// Want of memory, only where `out` had no room for the octets, and then nothing is appended.
#[tactic(auto, using(crate::proofs::Numbers::last_octets_taken))]
pub fn write_be(value: u64, width: usize, out: &mut Vec<u8>) -> Result<(), AllocError>
    requires some { 1 ≤ width }
    requires few { width ≤ WIDEST }
    requires fits { value < 256 ^ width }
    // All of it is appended, or nothing.
    ensures ok { OnOk result (out.new.items ≡ out.old.items ++ be_octets width value) }
    ensures err { OnErr result (out.new.items ≡ out.old.items) }
    // Room that is there is enough, and is kept.
    ensures memory { OnErr result (vec_capacity out.old < vec_len out.old + width) }
    ensures capacity { vec_capacity out.old ≤ vec_capacity out.new }
{
    let octets = value.to_be_bytes();
    out.extend_from_slice(&octets[WIDEST - width..])
}
