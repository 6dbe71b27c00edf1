//! Laws over the definitions that the calls of this crate cite: no code stands behind them.
ghost use Rattle.std.specs.Prelude.{ℕ, ◌≤◌, ◌*◌, List, length};
ghost use Rattle.sequences.specs.Octets.{AreOctets};
ghost use Rattle.flow_prefix.specs.Bits.{kept_octets, KeepsBits};
ghost use Rattle.flow_prefix.specs.Prefixes.{PrefixesReadBack};

/// The canonical text of a prefix is read as that prefix.
pub fn print_then_parse()
    ensures { PrefixesReadBack }
{}

/// Where the first bits of octets are kept, there are as many octets as before, and their number is
/// that of the octets with the bits behind set to 0 (RFC 6235, section 4.1.1).
pub fn kept_bits_are_truncated()
    ensures { (n : ℕ) (octets : List ℕ) → AreOctets octets
        → KeepsBits n octets (kept_octets n octets) }
{}
