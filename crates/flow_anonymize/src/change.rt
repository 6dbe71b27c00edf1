//! What is shown of a value that is changed.
ghost use Rattle.std.specs.Prelude.{◌≡◌, ◌≤◌, ◌++◌, OnOk, OnErr, IfSome, IfNone};
ghost use Rattle.flow_prefix.specs.Bits.{truncated, kept_octets};
ghost use Rattle.flow_anonymize.specs.Times.{step_of_time, multiple_below, degraded_octets};
ghost use Rattle.flow_anonymize.specs.Changes.{changed_value};

use flow_prefix::keep_bits;
use ipfix_octets::message_format::MILLISECONDS;
use ipfix_octets::{be_number, write_be};
use std::alloc::AllocError;

/// The octets of a time in seconds (RFC 7011, section 6.1.7).
const SECONDS_OCTETS: usize = 4;

/// The octets of a time in milliseconds (RFC 7011, section 6.1.8).
const MILLIS_OCTETS: usize = 8;

/// A change of a value, which keeps its length.
#[derive(Clone, Copy)]
pub(crate) enum Change {
    /// The first bits stay, and the others become 0.
    Truncate(usize),
    /// A time is lowered to a multiple of this many seconds.
    Degrade(u32),
}

/// Appends a value with a change.
///
/// # Errors
/// Want of memory, and then nothing is appended.
pub(crate) fn put_changed(
    value: &[u8],
    change: Change,
    text: &mut Vec<u8>,
) -> Result<(), AllocError>
    ensures ok { OnOk result (text.new.items ≡ text.old.items ++ changed_value change value.now) }
    ensures err { OnErr result (text.new.items ≡ text.old.items) }
{
    match change {
        Change::Truncate(bits) => put_first_bits(value, bits, text),
        Change::Degrade(seconds) => put_degraded(value, seconds, text),
    }
}

/// Appends octets with their first bits and the others 0; all of them where they have no more bits.
fn put_first_bits(octets: &[u8], bits: usize, text: &mut Vec<u8>) -> Result<(), AllocError>
    ensures ok { OnOk result (text.new.items ≡ text.old.items ++ kept_octets bits octets.now) }
    ensures err { OnErr result (text.new.items ≡ text.old.items) }
{
    if let [a, b, c, d] = octets {
        return put_bits_of_four([*a, *b, *c, *d], bits, text);
    }
    let most = octets.len().saturating_mul(8);
    keep_bits(octets, bits.min(most), text)
}

/// Appends four octets, as an IPv4 address has, with their first bits and the others 0; all of them
/// where they have no more bits.
fn put_bits_of_four(octets: [u8; 4], bits: usize, text: &mut Vec<u8>) -> Result<(), AllocError>
    ensures ok { OnOk result (text.new.items ≡ text.old.items ++ kept_octets bits octets) }
    ensures err { OnErr result (text.new.items ≡ text.old.items) }
{
    let kept = first_bits(u32::from_be_bytes(octets), bits.min(32));
    text.extend_from_slice(&kept.to_be_bytes())
}

/// A number with its first bits and the others 0.
fn first_bits(number: u32, bits: usize) -> u32
    requires { bits ≤ 32 }
    ensures { result ≡ truncated 32 bits number }
{
    let dropped = 32 - bits;
    ((u64::from(number) >> dropped) << dropped) as u32
}

/// Appends a time that is lowered to a multiple of `seconds` since 1970 (RFC 6235, section 4.3.1).
/// No time has another length than 4 octets, in seconds, or 8, in milliseconds; of such a value
/// zeros are shown.
fn put_degraded(octets: &[u8], seconds: u32, text: &mut Vec<u8>) -> Result<(), AllocError>
    ensures ok { OnOk result
        (text.new.items ≡ text.old.items ++ degraded_octets seconds octets.now) }
    ensures err { OnErr result (text.new.items ≡ text.old.items) }
{
    let width = octets.len();
    let Some(step) = step_of_time(width, seconds) else {
        return put_first_bits(octets, 0, text);
    };
    let time = lowered(be_number(octets), step);
    write_be(time, width, text)
}

/// The number of `seconds`, in the units of a time of this many octets. `None` where no time has as
/// many.
fn step_of_time(octets: usize, seconds: u32) -> Option<u64>
    ensures value { IfSome result (λ step. step ≡ step_of_time octets seconds) }
    ensures width { IfSome result (λ step. (1 ≤ octets) × (octets ≤ 8)) }
    ensures none { IfNone result (step_of_time octets seconds ≡ 0) }
{
    let seconds = u64::from(seconds);
    match octets {
        SECONDS_OCTETS => Some(seconds),
        MILLIS_OCTETS => Some(seconds * MILLISECONDS),
        _ => None,
    }
}

/// The greatest multiple of a step that is no greater than the number; 0 where the step is 0.
fn lowered(number: u64, step: u64) -> u64
    ensures value { result ≡ multiple_below step number }
    ensures within { result ≤ number }
{
    match number.checked_div(step) {
        Some(count) => count * step,
        None => 0,
    }
}
