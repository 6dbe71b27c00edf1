//! The first bits of a value, and the number that its octets are.
ghost use Rattle.std.specs.Prelude.{◌≡◌, ◌≤◌, ◌<◌, ◌+◌, ◌*◌, ◌^◌, ◌++◌, length, vec_len, vec_capacity, IsOk, OnOk, OnErr};
ghost use Rattle.sequences.specs.Octets.{be_value};
ghost use Rattle.flow_prefix.specs.Bits.{truncated, kept_octets};

use std::alloc::AllocError;

/// The bits of an octet.
const OCTET_BITS: usize = 8;

/// Appends `octets` to `out` with their `n` most significant bits kept and the others set to 0 (RFC
/// 6235, section 4.1.1: truncation). There are 8 bits in each octet, and `n` is at most their
/// number.
///
/// # Errors
/// Want of memory, only where `out` had no room for the octets, and then nothing is appended.
pub fn keep_bits(octets: &[u8], n: usize, out: &mut Vec<u8>) -> Result<(), AllocError>
    requires { n ≤ 8 * length octets.now }
    ensures ok { OnOk result (out.new.items ≡ out.old.items ++ kept_octets n octets.now) }
    ensures err { OnErr result (out.new.items ≡ out.old.items) }
    // Room that is there already takes no memory.
    ensures no_memory { vec_len out.old + length octets.now ≤ vec_capacity out.old → IsOk result }
{
    out.reserve(octets.len())?;
    let mut left = n;
    for octet in octets {
        let kept = left.min(OCTET_BITS);
        out.push_reserved(kept_octet(*octet, kept));
        left -= kept;
    }
    Ok(())
}

/// An octet with its first bits kept.
fn kept_octet(octet: u8, kept: usize) -> u8
    requires { kept ≤ 8 }
    ensures { result ≡ truncated 8 kept octet }
{
    let dropped = OCTET_BITS - kept;
    ((u32::from(octet) >> dropped) << dropped) as u8
}

/// A value of `width` bits with its first `kept` bits, and the others set to 0.
pub(crate) fn first_bits(width: u32, kept: u32, value: u128) -> u128
    requires wide { width ≤ 128 }
    requires within { kept ≤ width }
    requires below { value < 2 ^ width }
    ensures { result ≡ truncated width kept value }
{
    match 1u128.checked_shl(width - kept) {
        Some(unit) => value / unit * unit,
        None => 0,
    }
}

/// The unsigned number that `octets`, at most 16 of them, are in network byte order: the most
/// significant octet comes first.
pub fn number(octets: &[u8]) -> u128
    requires { length octets.now ≤ 16 }
    ensures value { result ≡ be_value octets.now }
    ensures below { result < 256 ^ length octets.now }
{
    let mut value = 0u128;
    for octet in octets {
        value = value * 0x100 + u128::from(*octet);
    }
    value
}
