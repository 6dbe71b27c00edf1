//! Which information element a field is of.
ghost use Rattle.std.specs.Prelude.{◌≡◌, ◌<◌, ◌≤◌, ◌^◌, Some, None, IfSome, MatchOption};

use std::marker::Model;

/// An information element: its number, at most 32767, and the number of the enterprise that defined
/// it, where one did (RFC 7011, section 3.2).
///
/// An element of enterprise 0 is still an enterprise's, and not the registered one of its number.
#[derive(Clone, Copy, Debug, PartialEq, Eq, PartialOrd, Ord, Hash)]
pub struct ElementId {
    pen: Option<u32>,
    number: u16,
}

impl Model for ElementId {
    ghost use Rattle.std.specs.Prelude.{◌<◌};
    ghost use Rattle.ipfix_element.specs.Element.{Element};

    ghost Value = { Element };

    ghost view = { λ e. record { pen = e.pen; number = e.number } };

    ghost invariant = { λ e. e.number < 32768 };

    ghost inverse = { λ e. record { pen = e.pen; number = e.number } };
}

impl ElementId {
    /// The greatest number of an element, which has 15 bits (RFC 7011, section 3.2).
    pub const GREATEST_NUMBER: u16 = 32767;

    /// The element of this `number`, of the enterprise `pen`, or of the registry where `pen` is
    /// `None`. `None` exactly where the number is above 32767.
    pub fn new(pen: Option<u32>, number: u16) -> Option<Self>
        ensures { MatchOption result (32768 ≤ number)
            (λ e. (number < 32768) × (e ≡ record { pen = pen; number = number })) }
    {
        if number > Self::GREATEST_NUMBER {
            return None;
        }
        Some(ElementId { pen, number })
    }

    /// The element of this `number`, at most 32767, that no enterprise defined.
    pub fn registered(number: u16) -> Self
        requires { number < 32768 }
        ensures { result ≡ record { pen = None; number = number } }
    {
        ElementId { pen: None, number }
    }

    /// The element that the enterprise `pen` defined under this `number`, at most 32767.
    pub fn enterprise(pen: u32, number: u16) -> Self
        requires { number < 32768 }
        ensures { result ≡ record { pen = Some pen; number = number } }
    {
        ElementId {
            pen: Some(pen),
            number,
        }
    }

    /// The number of the enterprise that defined the element, where one did.
    pub fn pen(self) -> Option<u32>
        ensures value { result ≡ self.pen }
        ensures below { IfSome result (λ pen. pen < 2 ^ 32) }
    {
        self.pen
    }

    /// The element's number, at most 32767.
    pub fn number(self) -> u16
        ensures value { result ≡ self.number }
        ensures below { result < 32768 }
    {
        self.number
    }
}
