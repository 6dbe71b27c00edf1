//! What no clause says: the registry's own numbers, names and kinds, texts that name nothing, lengths
//! at their edges, and that each call succeeds where memory is left.
use ipfix_element::{ElementId, Kind, allowed_length, by_name, full_width, kind_of, name_of};
use std::alloc::Global;
use std::process::Abort;
use std::test::Fail;

type Named = (Option<u32>, u16, Kind, &'static str);

/// The registered elements by their kinds (IANA's registry of information elements), and elements that it
/// doesn't name, all of bare octets.
static ELEMENTS: [Named; 43] = [
    (None, 4, Kind::U8, "protocolIdentifier"),
    (None, 5, Kind::U8, "ipClassOfService"),
    (None, 9, Kind::U8, "sourceIPv4PrefixLength"),
    (None, 13, Kind::U8, "destinationIPv4PrefixLength"),
    (None, 60, Kind::U8, "ipVersion"),
    (None, 61, Kind::U8, "flowDirection"),
    (None, 136, Kind::U8, "flowEndReason"),
    (None, 6, Kind::U16, "tcpControlBits"),
    (None, 7, Kind::U16, "sourceTransportPort"),
    (None, 11, Kind::U16, "destinationTransportPort"),
    (None, 58, Kind::U16, "vlanId"),
    (None, 10, Kind::U32, "ingressInterface"),
    (None, 14, Kind::U32, "egressInterface"),
    (None, 16, Kind::U32, "bgpSourceAsNumber"),
    (None, 17, Kind::U32, "bgpDestinationAsNumber"),
    (None, 149, Kind::U32, "observationDomainId"),
    (None, 1, Kind::U64, "octetDeltaCount"),
    (None, 2, Kind::U64, "packetDeltaCount"),
    (None, 3, Kind::U64, "deltaFlowCount"),
    (None, 85, Kind::U64, "octetTotalCount"),
    (None, 86, Kind::U64, "packetTotalCount"),
    (None, 148, Kind::U64, "flowId"),
    (None, 8, Kind::Ipv4, "sourceIPv4Address"),
    (None, 12, Kind::Ipv4, "destinationIPv4Address"),
    (None, 15, Kind::Ipv4, "ipNextHopIPv4Address"),
    (None, 27, Kind::Ipv6, "sourceIPv6Address"),
    (None, 28, Kind::Ipv6, "destinationIPv6Address"),
    (None, 56, Kind::Mac, "sourceMacAddress"),
    (None, 80, Kind::Mac, "destinationMacAddress"),
    (None, 150, Kind::Seconds, "flowStartSeconds"),
    (None, 151, Kind::Seconds, "flowEndSeconds"),
    (None, 152, Kind::Millis, "flowStartMilliseconds"),
    (None, 153, Kind::Millis, "flowEndMilliseconds"),
    (None, 82, Kind::Text, "interfaceName"),
    (None, 210, Kind::Octets, "paddingOctets"),
    (None, 0, Kind::Octets, "e0"),
    (None, 32, Kind::Octets, "e32"),
    (None, 32767, Kind::Octets, "e32767"),
    (Some(29305), 1, Kind::Octets, "e29305/1"),
    (Some(0), 8, Kind::Octets, "e0/8"),
    (Some(9), 0, Kind::Octets, "e9/0"),
    (Some(4294967295), 32767, Kind::Octets, "e4294967295/32767"),
    (Some(8), 210, Kind::Octets, "e8/210"),
];

/// The worked case prefix_and_element_names.
static WORKED: [Named; 3] = [
    (None, 32, Kind::Octets, "e32"),
    (Some(29305), 1, Kind::Octets, "e29305/1"),
    (None, 8, Kind::Ipv4, "sourceIPv4Address"),
];

/// The first is of the worked case prefix_and_element_names.
static NAMELESS: [&str; 29] = [
    "e8",
    "e210",
    "e08",
    "e007",
    "e00",
    "e032",
    "e32768",
    "e65568",
    "e4294967328",
    "e1/32768",
    "e4294967296/1",
    "e01/2",
    "e1/02",
    "e+5",
    "e-5",
    "e+1/2",
    "e1/+2",
    "e",
    "e/",
    "e/1",
    "e1/",
    "e1/2/3",
    "e 32",
    "e32 ",
    "E32",
    "/",
    "",
    "*",
    "sourceipv4address",
];

// Each kind with its full width, lengths that it allows and lengths that it doesn't.
static LENGTHS: [(Kind, Option<u16>, &[u16], &[u16]); 11] = [
    (Kind::U8, Some(1), &[1], &[0, 2, 65535]),
    (Kind::U16, Some(2), &[1, 2], &[0, 3, 65535]),
    (Kind::U32, Some(4), &[1, 3, 4], &[0, 5, 8, 65535]),
    (Kind::U64, Some(8), &[1, 7, 8], &[0, 9, 16, 65535]),
    (Kind::Ipv4, Some(4), &[4], &[0, 1, 3, 5, 65535]),
    (Kind::Ipv6, Some(16), &[16], &[0, 15, 17, 65535]),
    (Kind::Mac, Some(6), &[6], &[0, 5, 7, 65535]),
    (Kind::Seconds, Some(4), &[4], &[0, 3, 8, 65535]),
    (Kind::Millis, Some(8), &[8], &[0, 4, 9, 65535]),
    (Kind::Text, None, &[0, 1, 65534, 65535], &[]),
    (Kind::Octets, None, &[0, 1, 65534, 65535], &[]),
];

fn both_ways(rt: &impl Abort, alloc: Global, row: &Named) -> Result<(), Fail> {
    let (pen, number, kind, name) = row;
    let element = ElementId::new(*pen, *number).ok_or("a number above 32767")?;
    assert_eq!(rt; kind_of(element), *kind, "{name}");
    assert_eq!(rt; name_of(alloc, element)?.as_str(), *name);
    assert_eq!(rt; by_name(name), Some(element), "{name}");
    Ok(())
}

#[test]
fn names_both_ways(rt: HostRuntime) -> Result<(), Fail> {
    for row in &ELEMENTS {
        both_ways(&rt, rt.alloc(), row)?;
    }
    for row in &WORKED {
        both_ways(&rt, rt.alloc(), row)?;
    }
    for text in &NAMELESS {
        assert_eq!(rt; by_name(text), None, "{text}");
    }
    Ok(())
}

fn expect_lengths(rt: &impl Abort, kind: Kind, lengths: &[u16], want: bool) {
    for length in lengths {
        assert_eq!(rt; allowed_length(kind, *length), want, "{kind:?} {length}");
    }
}

#[test]
fn lengths_at_their_edges(rt: HostRuntime) {
    for (kind, width, allowed, refused) in &LENGTHS {
        assert_eq!(rt; full_width(*kind), *width, "{kind:?}");
        expect_lengths(&rt, *kind, allowed, true);
        expect_lengths(&rt, *kind, refused, false);
    }
}
