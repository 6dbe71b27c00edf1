//! How many octets a value of a kind may have.
ghost use Rattle.std.specs.Prelude.{◌≡◌};
ghost use Rattle.ipfix_element.specs.Kinds.{is_allowed_length, full_width_of};

use crate::kind::Kind;

/// Whether a field of this `kind` may have the Field Length `length`, in octets. Addresses and
/// times have the full width alone. Unsigned numbers have any length from 1 octet to the full width
/// (reduced-size encoding, RFC 7011, section 6.2). Text and octets have any length, where 65535
/// says that each value brings its own (RFC 7011, section 7).
#[tactic(auto, unfolding(crate::specs::Kinds::is_allowed_length, crate::specs::Kinds::full_width_of))]
pub fn allowed_length(kind: Kind, length: u16) -> bool
    ensures { result ≡ is_allowed_length kind length }
{
    match kind {
        Kind::U8 | Kind::U16 | Kind::U32 | Kind::U64 => {
            full_width(kind).is_some_and(|width| (1..=width).contains(&length))
        }
        Kind::Ipv4 | Kind::Ipv6 | Kind::Mac | Kind::Seconds | Kind::Millis => {
            full_width(kind) == Some(length)
        }
        Kind::Text | Kind::Octets => true,
    }
}

/// The octets of a value of this `kind` at full width (RFC 7011, section 6.1). `None` for text and
/// for octets, which have none.
#[tactic(auto, unfolding(crate::specs::Kinds::full_width_of))]
pub fn full_width(kind: Kind) -> Option<u16>
    ensures { result ≡ full_width_of kind }
{
    match kind {
        Kind::U8 => Some(1),
        Kind::U16 => Some(2),
        Kind::U32 | Kind::Ipv4 | Kind::Seconds => Some(4),
        Kind::U64 | Kind::Millis => Some(8),
        Kind::Mac => Some(6),
        Kind::Ipv6 => Some(16),
        Kind::Text | Kind::Octets => None,
    }
}
