//! What no clause says: that a record is written while there is memory, as RFC 7011 has it, and the text of each reason
//! to refuse a template.
use crate::records::{Layout, record_of, template_of, values_of};
use ipfix_template::{Refused, encode_record};
use std::test::Fail;

/// The template of appendix A.2.1: source, destination and next hop, packets and octets.
const TRAFFIC: Layout = Layout {
    fields: &[(8, 4), (12, 4), (15, 4), (2, 4), (1, 4)],
    scope: 0,
};

/// The first record of appendix A.3: from 192.0.2.12 to 192.0.2.254 by 192.0.2.1, 5009 packets of 5344385 octets.
const VALUES: &[&[u8]] = &[
    &[192, 0, 2, 12],
    &[192, 0, 2, 254],
    &[192, 0, 2, 1],
    &[0, 0, 0x13, 0x91],
    &[0, 0x51, 0x8c, 0x81],
];

/// The octets of this record, as they stand in the Data Set there.
const WRITTEN: &[u8] = &[
    192, 0, 2, 12, 192, 0, 2, 254, 192, 0, 2, 1, 0, 0, 0x13, 0x91, 0, 0x51, 0x8c, 0x81,
];

#[test]
fn record_of_the_appendix(rt: HostRuntime) -> Result<(), Fail> {
    let alloc = rt.alloc();
    let whole = record_of(
        alloc,
        template_of(alloc, &TRAFFIC)?,
        values_of(alloc, VALUES)?,
    )?;
    let mut out = Vec::new(alloc);
    encode_record(&whole, &mut out)?;
    assert_eq!(rt; out.as_slice(), WRITTEN);
    Ok(())
}

static REFUSALS: [(Refused, &str); 4] = [
    (Refused::BadId, "BadId"),
    (Refused::BadLength, "BadLength"),
    (Refused::BadScope, "BadScope"),
    (Refused::EmptyRecord, "EmptyRecord"),
];

#[test]
fn texts_of_refusals(rt: HostRuntime) -> Result<(), Fail> {
    for (why, want) in &REFUSALS {
        assert_eq!(rt; format!(in rt.alloc(); "{why}")?.as_str(), *want);
    }
    Ok(())
}
