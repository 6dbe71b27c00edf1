//! Records counted in running groups, and the same records kept in a list and added up when all is over.
use crate::groups::add_all;
use ipfix_session::Session;
use ipfix_template::Record;
use mediator_shares::{InForce, Shares};
use mediator_tables::{RunningGroups, Served, SubId};
use policy_text::Policy;
use std::alloc::{AllocError, Global};
use std::process::Abort;
use std::test::Fail;

const POLICY: &str = "policy 1
aggregate ports key sourceTransportPort interval 60 grace 5
rule for * in * from * to * aggregate ports
";

/// A header and a template of flow start, source port and octet count, and the header of a Data Set with 200 records.
const BEFORE_RECORDS: &[u8] =
    b"\x00\x0a\x0b\x18\x65\x53\xf1\x00\x00\x00\x00\x00\x00\x00\x00\x07\x00\x02\x00\x14\x01\x00\x00\x03\x00\x98\x00\x08\x00\x07\x00\x02\x00\x01\x00\x04\x01\x00\x0a\xf4";

/// A flow that starts in a minute of 1970.
#[derive(Drop)]
struct Flow {
    minute: u8,
    port: u16,
    octets: u32,
}

/// Two hundred flows of three minutes and seven ports, in no order.
fn flows(alloc: Global) -> Result<Vec<Flow>, AllocError> {
    let mut list = Vec::new(alloc);
    for n in 0..200_u32 {
        list.push(Flow {
            minute: (n % 3) as u8,
            port: (n % 7) as u16,
            octets: n * 1_000_003,
        })?;
    }
    Ok(list)
}

fn message(alloc: Global, list: &[Flow]) -> Result<Vec<u8>, AllocError> {
    let mut octets = Vec::new(alloc);
    octets.extend_from_slice(BEFORE_RECORDS)?;
    for flow in list {
        let start = (u64::from(flow.minute) * 60_000).saturating_add(u64::from(flow.port));
        octets.extend_from_slice(&start.to_be_bytes())?;
        octets.extend_from_slice(&flow.port.to_be_bytes())?;
        octets.extend_from_slice(&flow.octets.to_be_bytes())?;
    }
    Ok(octets)
}

/// The octets of a closed group's record, if any of these flows is of the minute and the port.
fn put_group(out: &mut Vec<u8>, list: &[Flow], minute: u8, port: u16) -> Result<(), AllocError> {
    let mut octets = 0_u64;
    let mut count = 0_u64;
    for flow in list {
        if flow.minute == minute && flow.port == port {
            octets = octets.saturating_add(u64::from(flow.octets));
            count = count.saturating_add(1);
        }
    }
    if count == 0 {
        return Ok(());
    }
    let start = u64::from(minute) * 60_000;
    out.extend_from_slice(&port.to_be_bytes())?;
    out.extend_from_slice(&start.to_be_bytes())?;
    out.extend_from_slice(&(start + 60_000).to_be_bytes())?;
    out.extend_from_slice(&octets.to_be_bytes())?;
    out.extend_from_slice(&0_u64.to_be_bytes())?;
    out.extend_from_slice(&count.to_be_bytes())
}

fn put_minute(out: &mut Vec<u8>, list: &[Flow], minute: u8) -> Result<(), AllocError> {
    for port in 0..7_u16 {
        put_group(out, list, minute, port)?;
    }
    Ok(())
}

fn put_record(out: &mut Vec<u8>, closed: &Record) -> Result<(), AllocError> {
    for (_, value) in closed.entries() {
        out.extend_from_slice(value)?;
    }
    Ok(())
}

/// The groups of the flows.
fn counted(alloc: Global, list: &[Flow]) -> Result<RunningGroups, Fail> {
    let mut in_force = InForce::since(alloc, Policy::parse(alloc, POLICY)?, 0)?;
    let read = Session::new(alloc).apply(&message(alloc, list)?)?;
    if read.records.len() > 200 {
        return Err(Fail::new("too many records"));
    }
    let served = [Served {
        sub: 1,
        name: "acme",
    }];
    let found = Shares::of_records(alloc, &mut in_force, 7, &read.records, &served, 0)?;
    let mut groups = RunningGroups::new(alloc);
    add_all(&mut groups, found)?;
    Ok(groups)
}

#[test]
fn a_plain_list_added_up(rt: HostRuntime) -> Result<(), Fail> {
    let list = flows(rt.alloc())?;
    let groups = counted(rt.alloc(), &list)?;
    let mut got = Vec::new(rt.alloc());
    let records = groups.closing(SubId(1), 185_000)?.to_vec(rt.alloc())?;
    for closed in &records {
        put_record(&mut got, closed)?;
    }
    let mut want = Vec::new(rt.alloc());
    for minute in 0..3_u8 {
        put_minute(&mut want, &list, minute)?;
    }
    assert_eq!(rt; got.len(), 882);
    assert!(rt; got.as_slice() == want.as_slice());
    Ok(())
}
