//! The registered elements of the profile: their numbers, kinds and names.
ghost use Rattle.std.specs.Prelude.{◌≡◌, option_map};
ghost use Rattle.ipfix_element.specs.Kinds.{kind_of};
ghost use Rattle.ipfix_element.specs.Registry.{line_of, line_for};
ghost use Rattle.ipfix_element.specs.Lines.{as_line};

use crate::element_id::ElementId;
use crate::kind::Kind;

/// What the registry says of an element.
#[derive(Clone, Copy)]
pub(crate) struct Entry {
    pub(crate) kind: Kind,
    pub(crate) name: &'static str,
}

impl Entry {
    fn new(kind: Kind, name: &'static str) -> Self
        ensures kind { result.kind ≡ kind }
        ensures name { result.name.now ≡ name.entry.now }
    {
        Entry { kind, name }
    }
}

/// How the values of `element` are to be read: as the registry says for a registered element of the
/// profile, and as bare octets for every other element and for every enterprise's.
#[tactic(auto, unfolding(crate::specs::Kinds::kind_of))]
pub fn kind_of(element: ElementId) -> Kind
    ensures { result ≡ kind_of element }
{
    entry_for(element).map_or(Kind::Octets, |entry| entry.kind)
}

/// The registry's entry for an element. An enterprise's has none, also where its number has.
pub(crate) fn entry_for(element: ElementId) -> Option<Entry>
    ensures { option_map (as_line element.number) result ≡ line_for element.pen element.number }
{
    match element.pen() {
        Some(_) => None,
        None => entry_of(element.number()),
    }
}

/// The numbers that the registry has, in their order.
pub(crate) static NUMBERS: [u16; 35] = [
    1, 2, 3, 4, 5, 6, 7, 8, 9, 10, 11, 12, 13, 14, 15, 16, 17, 27, 28, 56, 58, 60, 61, 80, 82, 85,
    86, 136, 148, 149, 150, 151, 152, 153, 210,
];

/// The registry's entry for a number.
#[tactic(auto, unfolding(crate::specs::Registry::registry))]
pub(crate) fn entry_of(number: u16) -> Option<Entry>
    ensures { option_map (as_line number) result ≡ line_of number }
{
    match number {
        1 => Some(Entry::new(Kind::U64, "octetDeltaCount")),
        2 => Some(Entry::new(Kind::U64, "packetDeltaCount")),
        3 => Some(Entry::new(Kind::U64, "deltaFlowCount")),
        4 => Some(Entry::new(Kind::U8, "protocolIdentifier")),
        5 => Some(Entry::new(Kind::U8, "ipClassOfService")),
        6 => Some(Entry::new(Kind::U16, "tcpControlBits")),
        7 => Some(Entry::new(Kind::U16, "sourceTransportPort")),
        8 => Some(Entry::new(Kind::Ipv4, "sourceIPv4Address")),
        9 => Some(Entry::new(Kind::U8, "sourceIPv4PrefixLength")),
        10 => Some(Entry::new(Kind::U32, "ingressInterface")),
        11 => Some(Entry::new(Kind::U16, "destinationTransportPort")),
        12 => Some(Entry::new(Kind::Ipv4, "destinationIPv4Address")),
        13 => Some(Entry::new(Kind::U8, "destinationIPv4PrefixLength")),
        14 => Some(Entry::new(Kind::U32, "egressInterface")),
        15 => Some(Entry::new(Kind::Ipv4, "ipNextHopIPv4Address")),
        16 => Some(Entry::new(Kind::U32, "bgpSourceAsNumber")),
        17 => Some(Entry::new(Kind::U32, "bgpDestinationAsNumber")),
        27 => Some(Entry::new(Kind::Ipv6, "sourceIPv6Address")),
        28 => Some(Entry::new(Kind::Ipv6, "destinationIPv6Address")),
        56 => Some(Entry::new(Kind::Mac, "sourceMacAddress")),
        58 => Some(Entry::new(Kind::U16, "vlanId")),
        60 => Some(Entry::new(Kind::U8, "ipVersion")),
        61 => Some(Entry::new(Kind::U8, "flowDirection")),
        80 => Some(Entry::new(Kind::Mac, "destinationMacAddress")),
        82 => Some(Entry::new(Kind::Text, "interfaceName")),
        85 => Some(Entry::new(Kind::U64, "octetTotalCount")),
        86 => Some(Entry::new(Kind::U64, "packetTotalCount")),
        136 => Some(Entry::new(Kind::U8, "flowEndReason")),
        148 => Some(Entry::new(Kind::U64, "flowId")),
        149 => Some(Entry::new(Kind::U32, "observationDomainId")),
        150 => Some(Entry::new(Kind::Seconds, "flowStartSeconds")),
        151 => Some(Entry::new(Kind::Seconds, "flowEndSeconds")),
        152 => Some(Entry::new(Kind::Millis, "flowStartMilliseconds")),
        153 => Some(Entry::new(Kind::Millis, "flowEndMilliseconds")),
        210 => Some(Entry::new(Kind::Octets, "paddingOctets")),
        _ => None,
    }
}
