//! Why a text is no prefix.
use thiserror::Error;

/// Why a text is no prefix. Where several reasons stand, the first of this list is named.
#[derive(Clone, Copy, Debug, PartialEq, Eq, Error)]
pub enum Fault {
    /// The text isn't an address, `/` and a number of at most three digits.
    #[error("BadText")]
    BadText,
    /// The number is above the bits of an address of the family.
    #[error("BadLength")]
    BadLength,
    /// A bit of the address is set that stands behind the prefix's length.
    #[error("HostBits")]
    HostBits,
}
