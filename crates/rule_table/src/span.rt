//! Addresses in a row, which have one class.
ghost use Rattle.std.specs.Prelude.{◌≡◌, ℕ, List, true};
ghost use Rattle.rule_table.specs.Spans.{IsSpan, IsAmong, IsWideSpan, IsWideAmong, AreSpans};

/// The addresses of IPv4 from the first to the last, and the class of each of them. There are none
/// where the first is above the last.
#[derive(Clone, Copy, Debug)]
pub(crate) struct Span {
    /// The first address, as a number.
    pub first: u32,
    /// The last address, as a number.
    pub last: u32,
    /// How many cuts are below each of them.
    pub class: u16,
}

impl Span {
    /// Whether the address is among them.
    pub(crate) fn has(&self, address: u32) -> bool
        ensures { result ≡ true → IsAmong address self.now }
    {
        self.first <= address && address <= self.last
    }
}

/// Addresses of IPv6 in a row, of one class.
#[derive(Clone, Copy, Debug)]
pub(crate) struct WideSpan {
    /// The first address, as a number.
    pub first: u128,
    /// The last address, as a number.
    pub last: u128,
    /// How many cuts are below each of them.
    pub class: u16,
}

impl WideSpan {
    /// Whether the address is among them.
    pub(crate) fn has(&self, address: u128) -> bool
        ensures { result ≡ true → IsWideAmong address self.now }
    {
        self.first <= address && address <= self.last
    }
}

/// Those in which the last addresses of a side lie that were looked up.
#[derive(Clone, Copy, Debug)]
pub(crate) struct Spans {
    /// Of IPv4.
    pub narrow: Span,
    /// Of IPv6.
    pub wide: WideSpan,
}

impl Spans {
    /// Of no address.
    pub(crate) fn empty() -> Spans
        ensures { (cuts : List ℕ) → AreSpans cuts result }
    {
        Spans {
            narrow: Span {
                first: 1,
                last: 0,
                class: 0,
            },
            wide: WideSpan {
                first: 1,
                last: 0,
                class: 0,
            },
        }
    }
}
