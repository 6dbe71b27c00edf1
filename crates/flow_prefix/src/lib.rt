//! Address prefixes of an IPFIX mediator's policy: which texts are prefixes, which values are inside
//! one, and what is left of a value of which only the first bits are kept (RFC 4291, RFC 6235).
//! Reading takes no memory.
//!
//! - `family`: [`Family`], IPv4 or IPv6, and how many octets and bits an address of each has.
//! - `prefix`: [`Prefix`], read by `parse`, asked by `contains`, written by `print`.
//! - `net`: [`Prefix4`] and [`Prefix6`], what the two kinds of prefix hold.
//! - `fault`: [`Fault`], why a text is no prefix.
//! - `scan`: [`cut_at`], the two sides of an octet.
//! - `bits`: [`keep_bits`], truncation of a value to its first bits; [`number`], the number of its octets.
//! - `laws`: [`print_then_parse`] and [`kept_bits_are_truncated`], proved over the definitions.
//!
//! Proved: `Prefix::parse` is `Ok` exactly on the texts of prefixes, with their value (`found`, `only`, `exact` of
//! its one relation, `IsReadAs`), and else names the first fault, each exactly where it stands (`bad_text`,
//! `bad_length`, `host_bits`). `contains` compares the first bits, and is never so for a value of the other family.
//! `keep_bits` appends the exact octets (`ok`) or nothing (`err`), and takes no memory where the room is there
//! (`no_memory`). `print` is the canonical text (`text`), which is read back (`reads_back`). The laws are those above.
#![tactic(auto)]

mod address;
mod bits;
mod family;
mod fault;
mod laws;
mod net;
mod parts;
mod prefix;
mod scan;

pub use bits::{keep_bits, number};
pub use family::{Family, GROUP_VALUES, IPV4_BITS, IPV4_OCTETS, IPV6_BITS, IPV6_OCTETS};
pub use fault::Fault;
pub use laws::{kept_bits_are_truncated, print_then_parse};
pub use net::{Prefix4, Prefix6};
pub use prefix::Prefix;
pub use scan::cut_at;
