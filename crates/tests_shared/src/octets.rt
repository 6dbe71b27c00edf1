//! Policies, limits, and messages as an exporter sends them and as a subscriber gets them. What an exporter sends has the Export
//! Time 1700000000 and domain 7; what a subscriber gets has 1700000060 and domain 0.
use mediator_core::Limits;
use std::alloc::{AllocError, Global};
use subscriber_stream::MessagePieces;

/// The octets of a message that was handed out.
pub(crate) fn octets_of(alloc: Global, message: &MessagePieces) -> Result<Vec<u8>, AllocError> {
    let mut octets = Vec::new(alloc);
    message.append_to(&mut octets)?;
    Ok(octets)
}

pub(crate) const PASS: &str =
    "policy 1\nrule for * in * from * to * pass\nrule for * in * from * to * element * keep\n";

pub(crate) const WITHHOLD: &str =
    "policy 1\nrule for * in * from * to * withhold\nrule for * in * from * to * pass\nrule for * in * from * to * element * keep\n";

/// Limits: `queue` records in a queue, `shapes` templates of a subscription, and `entries` entries of the journal.
pub(crate) const fn limits(queue: u32, shapes: u32, entries: u64) -> Limits {
    Limits {
        queue,
        shapes,
        audit: 10_000_000,
        entries,
        octets: 1_000_000_000,
    }
}

/// The Export Time of what is pulled.
pub(crate) const NOW: u32 = 1_700_000_060;

/// A template of source address, source port and octet count, and one record of it.
pub(crate) const ONE_RECORD: &[u8] =
    b"\x00\x0a\x00\x32\x65\x53\xf1\x00\x00\x00\x00\x00\x00\x00\x00\x07\
\x00\x02\x00\x14\x01\x00\x00\x03\x00\x08\x00\x04\x00\x07\x00\x02\x00\x01\x00\x04\
\x01\x00\x00\x0e\xc0\x00\x02\x4d\x01\xbb\x00\x00\x05\xdc";

/// A template of source address, source port and octet count, and one record of it, with Sequence Number 1.
pub(crate) const NEXT_RECORD: &[u8] =
    b"\x00\x0a\x00\x32\x65\x53\xf1\x00\x00\x00\x00\x01\x00\x00\x00\x07\
\x00\x02\x00\x14\x01\x00\x00\x03\x00\x08\x00\x04\x00\x07\x00\x02\x00\x01\x00\x04\
\x01\x00\x00\x0e\xc0\x00\x02\x4d\x01\xbb\x00\x00\x05\xdc";

/// The template alone.
pub(crate) const TEMPLATE: &[u8] =
    b"\x00\x0a\x00\x24\x65\x53\xf1\x00\x00\x00\x00\x00\x00\x00\x00\x07\
\x00\x02\x00\x14\x01\x00\x00\x03\x00\x08\x00\x04\x00\x07\x00\x02\x00\x01\x00\x04";

/// The message of one record of the template, behind `before` records, with the source port `port`.
pub(crate) fn port_record(before: u32, port: u16) -> [u8; 30] {
    let mut message = *b"\x00\x0a\x00\x1e\x65\x53\xf1\x00\x00\x00\x00\x00\x00\x00\x00\x07\
\x01\x00\x00\x0e\xc0\x00\x02\x4d\x01\xbb\x00\x00\x05\xdc";
    message[8..12].copy_from_slice(&before.to_be_bytes());
    message[24..26].copy_from_slice(&port.to_be_bytes());
    message
}

/// A template of the protocol, and a hundred records of it.
pub(crate) fn hundred() -> [u8; 132] {
    let mut message = [6; 132];
    message[..32].copy_from_slice(
        b"\x00\x0a\x00\x84\x65\x53\xf1\x00\x00\x00\x00\x00\x00\x00\x00\x07\
\x00\x02\x00\x0c\x01\x00\x00\x01\x00\x04\x00\x01\x01\x00\x00\x68",
    );
    message
}

/// A template with one record, which is withdrawn before a second one, and then defined anew for a third: two templates.
pub(crate) const WITHDRAWN: &[u8] =
    b"\x00\x0a\x00\x3f\x65\x53\xf1\x00\x00\x00\x00\x00\x00\x00\x00\x07\
\x00\x02\x00\x0c\x01\x00\x00\x01\x00\x04\x00\x01\x01\x00\x00\x05\x06\x00\x02\x00\x08\x01\x00\x00\x00\
\x01\x00\x00\x05\x11\x00\x02\x00\x0c\x01\x00\x00\x01\x00\x3c\x00\x01\x01\x00\x00\x05\x04";

/// One octet too few for a header.
pub(crate) const SHORT_HEADER: &[u8] =
    b"\x00\x0a\x00\x10\x65\x53\xf1\x00\x00\x00\x00\x00\x00\x00\x00";

/// What a subscriber gets of one record: its template, and the record.
pub(crate) const DISCLOSED: &[u8] =
    b"\x00\x0a\x00\x32\x65\x53\xf1\x3c\x00\x00\x00\x00\x00\x00\x00\x00\
\x00\x02\x00\x14\x01\x00\x00\x03\x00\x08\x00\x04\x00\x07\x00\x02\x00\x01\x00\x04\
\x01\x00\x00\x0e\xc0\x00\x02\x4d\x01\xbb\x00\x00\x05\xdc";

/// What a subscriber gets of two records, with the ports 2 and 3.
pub(crate) const TWO_DISCLOSED: &[u8] =
    b"\x00\x0a\x00\x3c\x65\x53\xf1\x3c\x00\x00\x00\x00\x00\x00\x00\x00\
\x00\x02\x00\x14\x01\x00\x00\x03\x00\x08\x00\x04\x00\x07\x00\x02\x00\x01\x00\x04\
\x01\x00\x00\x18\xc0\x00\x02\x4d\x00\x02\x00\x00\x05\xdc\xc0\x00\x02\x4d\x00\x03\x00\x00\x05\xdc";

/// The start of a first flow, in milliseconds since 1970: that of an interval of five minutes.
pub(crate) const START: u64 = 1_700_000_100_000;

/// The message of one flow, behind `before` records. The flow starts at `start`, in milliseconds since 1970, and goes
/// to the port `port`.
pub(crate) fn flow(before: u32, start: u64, port: u16) -> [u8; 66] {
    let mut message = *b"\x00\x0a\x00\x42\x65\x53\xf1\x00\x00\x00\x00\x00\x00\x00\x00\x07\
\x00\x02\x00\x18\x01\x00\x00\x04\x00\x98\x00\x08\x00\x0b\x00\x02\x00\x01\x00\x08\x00\x02\x00\x04\
\x01\x00\x00\x1a\x00\x00\x01\x8b\xcf\xe6\xee\xa0\x01\xbb\x00\x00\x00\x00\x00\x00\x00\x64\x00\x00\x00\x01";
    message[8..12].copy_from_slice(&before.to_be_bytes());
    message[44..52].copy_from_slice(&start.to_be_bytes());
    message[52..54].copy_from_slice(&port.to_be_bytes());
    message
}
