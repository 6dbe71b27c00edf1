//! Values of variable length: a length, and the value behind it (RFC 7011, section 7).
ghost use Rattle.std.specs.Prelude.{◌≡◌, ◌+◌, ◌-◌, ◌<◌, ◌≤◌, ◌++◌, List, ℕ, length, take, drop, Some, IfSome, OnOk, OnErr, vec_len, vec_capacity};
ghost use Rattle.ipfix_octets.specs.Variable.{IsVarText, longest_value, shortest_text, varlen_at};

use crate::message_format::LONG_FORM;
use crate::number::be_number;
use std::alloc::AllocError;

/// The longest value that a length of two octets can announce (RFC 7011, section 7).
pub const LONGEST_VALUE: usize = 65535;

/// Finds the value of variable length at the front of `octets`: the place where it starts, which is
/// 1 or 3, and its length in octets (RFC 7011, section 7). Both forms of a length are read, also
/// the long one where the short one would do.
///
/// `None` exactly where the octets don't begin with a length and with as many octets as it
/// announces.
pub fn read_varlen(octets: &[u8]) -> Option<(usize, usize)>
    ensures found { IfSome result
        (λ f. IsVarText (take (f.0 + f.1) octets.now) (take f.1 (drop f.0 octets.now))) }
    ensures only { (text value rest : List ℕ) → octets.now ≡ text ++ rest → IsVarText text value
        → result ≡ Some (length text - length value, length value) }
    ensures within { IfSome result (λ f. f.0 + f.1 ≤ length octets.now) }
    ensures exact { result ≡ varlen_at octets.now }
{
    find_value(octets)
}

#[tactic(auto, unfolding(crate::specs::Variable::varlen_at))]
fn find_value(octets: &[u8]) -> Option<(usize, usize)>
    ensures within { IfSome result (λ f. f.0 + f.1 ≤ length octets.now) }
    ensures exact { result ≡ varlen_at octets.now }
{
    let (first, rest) = octets.split_first()?;
    let (start, len) = if *first == LONG_FORM {
        if rest.len() < 2 {
            return None;
        }
        (3, be_number(&rest[..2]) as usize)
    } else {
        (1, usize::from(*first))
    };
    if start + len <= octets.len() {
        Some((start, len))
    } else {
        None
    }
}

/// Appends to `out` the length of `value` and then `value`, which has at most 65,535 octets. The
/// length is in its shortest form: one octet up to 254, else 255 and two octets (RFC 7011, section
/// 7).
///
/// # Errors
/// Want of memory, only where `out` had no room for the length and the value, and then nothing is
/// appended.
pub fn write_varlen(value: &[u8], out: &mut Vec<u8>) -> Result<(), AllocError>
    requires { length value.now ≤ longest_value }
    // All of it is appended, or nothing.
    ensures ok { OnOk result (out.new.items ≡ out.old.items ++ shortest_text value.now) }
    ensures err { OnErr result (out.new.items ≡ out.old.items) }
    // Room that is there is enough, and is kept.
    ensures memory { OnErr result
        (vec_capacity out.old < vec_len out.old + length (shortest_text value.now)) }
    ensures capacity { vec_capacity out.old ≤ vec_capacity out.new }
{
    let short = value.len() < usize::from(LONG_FORM);
    let head = if short { 1 } else { 3 };
    out.reserve(head + value.len())?;
    if short {
        out.push_reserved(value.len() as u8);
    } else {
        out.push_reserved(LONG_FORM);
        out.push_reserved((value.len() / 256) as u8);
        out.push_reserved((value.len() % 256) as u8);
    }
    out.extend_from_slice(value)
}

/// A text is read as one value: two values of variable length that stand at the front of the same
/// octets are equal, and so are their texts.
pub fn one_value()
    ensures { (octets a b x y v w : List ℕ) → octets ≡ a ++ x
        → octets ≡ b ++ y → IsVarText a v → IsVarText b w → (a ≡ b) × (v ≡ w) }
{}
