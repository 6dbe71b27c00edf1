//! What no clause says: that a message is prepared and taken in while there is memory, and the texts of the faults. A call that was
//! refused memory is made again.
use bytes::Bytes;
use ipfix_session::{Read, Session};
use mediator_shares::{InForce, Terms};
use prepared_message::{Fault as PrepareFault, Prepared, Snapshot};
use std::alloc::{AllocError, Global};
use std::fmt::Display;
use std::sync::Arc;
use std::test::Fail;

/// Template 256 of sourceIPv4Address, sourceTransportPort and octetDeltaCount, in domain 7.
const TEMPLATE: &[u8] = b"\x00\x0a\x00\x24\x65\x53\xf1\x00\x00\x00\x00\x00\x00\x00\x00\x07\
\x00\x02\x00\x14\x01\x00\x00\x03\x00\x08\x00\x04\x00\x07\x00\x02\x00\x01\x00\x04";

/// Template 257 of sourceIPv4Address, sourceTransportPort and octetDeltaCount, in domain 7.
const ANOTHER_ID: &[u8] = b"\x00\x0a\x00\x24\x65\x53\xf1\x00\x00\x00\x00\x00\x00\x00\x00\x07\
\x00\x02\x00\x14\x01\x01\x00\x03\x00\x08\x00\x04\x00\x07\x00\x02\x00\x01\x00\x04";

/// Another template under the ID 256: without the port.
const ANOTHER_TEMPLATE: &[u8] = b"\x00\x0a\x00\x20\x65\x53\xf1\x00\x00\x00\x00\x00\x00\x00\x00\x07\
\x00\x02\x00\x10\x01\x00\x00\x02\x00\x08\x00\x04\x00\x01\x00\x04";

/// The template 256 is withdrawn.
const WITHDRAWAL: &[u8] = b"\x00\x0a\x00\x18\x65\x53\xf1\x00\x00\x00\x00\x00\x00\x00\x00\x07\
\x00\x02\x00\x08\x01\x00\x00\x00";

/// One record of the template 256.
const FLOW: &[u8] = b"\x00\x0a\x00\x1e\x65\x53\xf1\x00\x00\x00\x00\x00\x00\x00\x00\x07\
\x01\x00\x00\x0e\xc0\x00\x02\x4d\x01\xbb\x00\x00\x05\xdc";

/// One record of the template 256, behind a Set 2 that has no template.
const BEHIND_EMPTY_SET: &[u8] = b"\x00\x0a\x00\x22\x65\x53\xf1\x00\x00\x00\x00\x00\x00\x00\x00\x07\
\x00\x02\x00\x04\x01\x00\x00\x0e\xc0\x00\x02\x4d\x01\xbb\x00\x00\x05\xdc";

/// A Data Set that ends within its record.
const CUT_RECORD: &[u8] = b"\x00\x0a\x00\x1d\x65\x53\xf1\x00\x00\x00\x00\x00\x00\x00\x00\x07\
\x01\x00\x00\x0d\xff";

fn prepared_once(session: &mut Session, octets: &'static [u8]) -> Result<Prepared, PrepareFault> {
    session.share()?;
    let snapshot = Snapshot::of(session)?;
    Prepared::prepare(&snapshot, Bytes::from_static(octets))
}

/// A message as it is prepared against a session.
fn prepared(session: &mut Session, octets: &'static [u8]) -> Result<Prepared, PrepareFault> {
    match prepared_once(session, octets) {
        Err(PrepareFault::OutOfMemory) => prepared_once(session, octets),
        answer => answer,
    }
}

/// What a session answers to a prepared message.
fn taken(message: &Prepared, session: &mut Session) -> Result<Option<Read>, AllocError> {
    match message.apply_to(session) {
        Err(AllocError) => message.apply_to(session),
        answer => answer,
    }
}

fn is_stale(message: &Prepared, session: &mut Session) -> bool {
    matches!(taken(message, session), Ok(None))
}

/// Whether a session takes in `records` records, where `unknown` Data Sets are skipped for want of a template.
fn gives(message: &Prepared, session: &mut Session, records: usize, unknown: u64) -> bool {
    match taken(message, session) {
        Ok(Some(read)) => read.records.len() == records && read.skips.unknown == unknown,
        Ok(None) | Err(_) => false,
    }
}

/// Whether a session hears a message.
fn hears(session: &mut Session, octets: &[u8]) -> bool {
    session.apply(octets).is_ok() || session.apply(octets).is_ok()
}

/// A flow that is prepared when its session knows its template, and the session after a further message.
fn flow_before(alloc: Global, further: &[u8]) -> Option<(Prepared, Session)> {
    let mut session = Session::new(alloc);
    if !hears(&mut session, TEMPLATE) {
        return None;
    }
    let early = prepared(&mut session, FLOW).ok()?;
    if !hears(&mut session, further) {
        return None;
    }
    Some((early, session))
}

/// Whether a flow is taken in as it was prepared before a further message.
fn is_kept(alloc: Global, further: &[u8]) -> bool {
    match flow_before(alloc, further) {
        Some((early, mut session)) => gives(&early, &mut session, 1, 0),
        None => false,
    }
}

/// Whether a flow that was prepared before a further message is stale after it, and what it gives where it is prepared anew.
fn is_renewed(alloc: Global, further: &[u8], records: usize, unknown: u64) -> bool {
    match flow_before(alloc, further) {
        Some((early, mut session)) => {
            is_stale(&early, &mut session) && anew_gives(&mut session, records, unknown)
        }
        None => false,
    }
}

fn anew_gives(session: &mut Session, records: usize, unknown: u64) -> bool {
    match prepared(session, FLOW) {
        Ok(late) => gives(&late, session, records, unknown),
        Err(_) => false,
    }
}

#[test]
fn taken_in(rt: HostRuntime) {
    assert!(rt; is_kept(rt.alloc(), ANOTHER_ID), "another ID");
    assert!(rt; is_renewed(rt.alloc(), WITHDRAWAL, 0, 1), "withdrawn");
    assert!(rt;
        is_renewed(rt.alloc(), ANOTHER_TEMPLATE, 1, 0),
        "defined anew"
    );
}

/// The fault for which a message is not prepared, where the template 256 is known.
fn fault_of(alloc: Global, octets: &'static [u8]) -> Option<PrepareFault> {
    let mut session = Session::new(alloc);
    if !hears(&mut session, TEMPLATE) {
        return None;
    }
    prepared(&mut session, octets).err()
}

#[test]
fn not_prepared(rt: HostRuntime) {
    assert_eq!(rt;
        fault_of(rt.alloc(), WITHDRAWAL),
        Some(PrepareFault::HasTemplates)
    );
    assert_eq!(rt;
        fault_of(rt.alloc(), BEHIND_EMPTY_SET),
        Some(PrepareFault::HasTemplates)
    );
    assert_eq!(rt;
        fault_of(rt.alloc(), &FLOW[..29]),
        Some(PrepareFault::Malformed)
    );
    assert_eq!(rt;
        fault_of(rt.alloc(), CUT_RECORD),
        Some(PrepareFault::Malformed)
    );
}

/// Whether a fault is shown so.
fn shows<T: Display>(alloc: Global, fault: &T, text: &str) -> bool {
    match format!(in alloc; "{fault}") {
        Ok(shown) => shown.as_str() == text,
        Err(_) => false,
    }
}

fn is_shown<T: Display>(alloc: Global, fault: &T, text: &str) -> bool {
    shows(alloc, fault, text) || shows(alloc, fault, text)
}

#[test]
fn texts(rt: HostRuntime) {
    assert!(rt; is_shown(rt.alloc(), &PrepareFault::HasTemplates, "HasTemplates"));
    assert!(rt; is_shown(rt.alloc(), &PrepareFault::Malformed, "Malformed"));
    assert!(rt; is_shown(rt.alloc(), &PrepareFault::OutOfMemory, "OutOfMemory"));
}

/// Whether a flow is judged too where it is prepared, and whether that is so once what was judged is taken.
fn is_judged(alloc: Global, on_terms: bool) -> Result<(bool, bool), Fail> {
    let mut session = Session::new(alloc);
    if !hears(&mut session, TEMPLATE) {
        return Err(Fail::new("a template"));
    }
    let plain = Snapshot::of(&session)?;
    let terms = Terms::of(alloc, &InForce::nothing(alloc)?, &[], 10)?;
    let snapshot = if on_terms {
        plain.with_terms(Arc::new(alloc, terms)?)
    } else {
        plain
    };
    let Ok(mut message) = Prepared::prepare(&snapshot, Bytes::from_static(FLOW)) else {
        return Err(Fail::new("a flow"));
    };
    let first = message.take_judgement().is_some();
    Ok((first, message.take_judgement().is_some()))
}

/// A snapshot with terms has its messages judged, and each judgement is taken once.
#[test]
fn judged_on_terms(rt: HostRuntime) -> Result<(), Fail> {
    assert!(rt; is_judged(rt.alloc(), true)? == (true, false), "on terms");
    assert!(rt;
        is_judged(rt.alloc(), false)? == (false, false),
        "without terms"
    );
    Ok(())
}
