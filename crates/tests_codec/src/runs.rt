//! What stands in a list of runs of records.
use crate::records::{Layout, record_of, template_of, values_of};
use ipfix_records::{Records, Runs};
use ipfix_session::Session;
use ipfix_template::Record;
use std::alloc::Global;
use std::process::Abort;
use std::test::Fail;

/// A template of octetDeltaCount, and two records of it.
const TWO_RECORDS: &[u8] = b"\x00\x0a\x00\x28\x65\x53\xf1\x00\x00\x00\x00\x00\x00\x00\x00\x07\
\x00\x02\x00\x0c\x01\x00\x00\x01\x00\x01\x00\x04\
\x01\x00\x00\x0c\x00\x00\x05\xdc\x00\x00\x00\x28";

/// interfaceName, of variable length.
const NAME: Layout = Layout {
    fields: &[(82, 65535)],
    scope: 0,
};

fn name_record(alloc: Global) -> Result<Record, Fail> {
    let template = template_of(alloc, &NAME)?;
    let values = values_of(alloc, &[b"eth0"])?;
    record_of(alloc, template, values)
}

fn expect_octets(rt: &impl Abort, record: Option<&Record>, wanted: &[u8]) {
    match record {
        Some(record) => assert_eq!(rt; record.as_octets().as_slice(), wanted),
        None => panic!(rt; "no record"),
    }
}

#[test]
fn one_record_more(rt: HostRuntime) -> Result<(), Fail> {
    let read = Session::new(rt.alloc()).apply(TWO_RECORDS)?;
    let mut list = Records::new(rt.alloc());
    assert!(rt; list.is_empty());
    list.push(rt.alloc(), name_record(rt.alloc())?)?;
    match read.records.into_runs() {
        Runs::Few(Some(run)) => list.push_run(run)?,
        _ => panic!(rt; "another number of runs"),
    }
    assert_eq!(rt; list.len(), 3);
    assert_eq!(rt; list.runs().len(), 2);
    let records = list.to_vec(rt.alloc())?;
    expect_octets(&rt, records.first(), b"\x04eth0");
    expect_octets(&rt, records.get(1), b"\x00\x00\x05\xdc");
    expect_octets(&rt, records.get(2), b"\x00\x00\x00\x28");
    Ok(())
}
