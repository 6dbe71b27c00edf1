//! Messages that are prepared before another message of their session comes. The numbers of records and skips are worked out by
//! hand.
use crate::octets::EMPTY;
use crate::retried;
use ipfix_session::Skips;
use mediator_core::{Fault, Limits, Mediator, Receipt, SessionId};
use prepared_message::Prepared;
use std::alloc::Global;
use std::process::Abort;
use std::test::Fail;

/// Template 256 of octetDeltaCount in 4 octets.
const FOUR_OCTETS: &[u8] = b"\x00\x0a\x00\x1c\x65\x53\xf1\x00\x00\x00\x00\x00\x00\x00\x00\x07\
\x00\x02\x00\x0c\x01\x00\x00\x01\x00\x01\x00\x04";

/// Template 256 of packetDeltaCount in 4 octets.
const FOUR_OTHER_OCTETS: &[u8] = b"\x00\x0a\x00\x1c\x65\x53\xf1\x00\x00\x00\x00\x00\x00\x00\x00\x07\
\x00\x02\x00\x0c\x01\x00\x00\x01\x00\x02\x00\x04";

/// Template 256 of sourceTransportPort in 2 octets.
const TWO_OCTETS: &[u8] = b"\x00\x0a\x00\x1c\x65\x53\xf1\x00\x00\x00\x00\x00\x00\x00\x00\x07\
\x00\x02\x00\x0c\x01\x00\x00\x01\x00\x07\x00\x02";

/// Template 256 of flowStartMilliseconds in 8 octets.
const EIGHT_OCTETS: &[u8] = b"\x00\x0a\x00\x1c\x65\x53\xf1\x00\x00\x00\x00\x00\x00\x00\x00\x07\
\x00\x02\x00\x0c\x01\x00\x00\x01\x00\x98\x00\x08";

/// The template 256 is withdrawn.
const WITHDRAWAL: &[u8] = b"\x00\x0a\x00\x18\x65\x53\xf1\x00\x00\x00\x00\x00\x00\x00\x00\x07\
\x00\x02\x00\x08\x01\x00\x00\x00";

/// It is withdrawn, and then defined as it was.
const THERE_AGAIN: &[u8] = b"\x00\x0a\x00\x24\x65\x53\xf1\x00\x00\x00\x00\x00\x00\x00\x00\x07\
\x00\x02\x00\x08\x01\x00\x00\x00\x00\x02\x00\x0c\x01\x00\x00\x01\x00\x01\x00\x04";

/// Template 257 of sourceTransportPort in 2 octets.
const ANOTHER_ID: &[u8] = b"\x00\x0a\x00\x1c\x65\x53\xf1\x00\x00\x00\x00\x00\x00\x00\x00\x07\
\x00\x02\x00\x0c\x01\x01\x00\x01\x00\x07\x00\x02";

/// Template 256 of sourceTransportPort in 2 octets, in domain 8.
const ANOTHER_DOMAIN: &[u8] = b"\x00\x0a\x00\x1c\x65\x53\xf1\x00\x00\x00\x00\x00\x00\x00\x00\x08\
\x00\x02\x00\x0c\x01\x00\x00\x01\x00\x07\x00\x02";

/// A Data Set of the template 256 with 4 octets.
const FLOW: &[u8] = b"\x00\x0a\x00\x18\x65\x53\xf1\x00\x00\x00\x00\x00\x00\x00\x00\x07\
\x01\x00\x00\x08\x00\x00\x05\xdc";

const LIMITS: Limits = Limits {
    queue: 100,
    shapes: 100,
    audit: 100,
    entries: 100,
    octets: 1_000_000,
};

/// The one session.
const SESSION: SessionId = SessionId(1);

/// What a session hears before and after a flow is prepared, and what the flow brings then.
struct Case {
    name: &'static str,
    before: &'static [u8],
    between: &'static [u8],
    records: u64,
    unknown: u64,
}

/// The ID 256 has another template then.
static STALE: [Case; 5] = [
    Case {
        name: "withdrawn",
        before: FOUR_OCTETS,
        between: WITHDRAWAL,
        records: 0,
        unknown: 1,
    },
    Case {
        name: "shorter",
        before: FOUR_OCTETS,
        between: TWO_OCTETS,
        records: 2,
        unknown: 0,
    },
    Case {
        name: "longer: what is left of the set is padding",
        before: FOUR_OCTETS,
        between: EIGHT_OCTETS,
        records: 0,
        unknown: 0,
    },
    Case {
        name: "of the same length",
        before: FOUR_OCTETS,
        between: FOUR_OTHER_OCTETS,
        records: 1,
        unknown: 0,
    },
    Case {
        name: "defined for the first time",
        before: EMPTY,
        between: FOUR_OCTETS,
        records: 1,
        unknown: 0,
    },
];

/// The ID 256 has the same template, or none as before.
static KEPT: [Case; 5] = [
    Case {
        name: "another ID",
        before: FOUR_OCTETS,
        between: ANOTHER_ID,
        records: 1,
        unknown: 0,
    },
    Case {
        name: "another domain",
        before: FOUR_OCTETS,
        between: ANOTHER_DOMAIN,
        records: 1,
        unknown: 0,
    },
    Case {
        name: "defined once more",
        before: FOUR_OCTETS,
        between: FOUR_OCTETS,
        records: 1,
        unknown: 0,
    },
    Case {
        name: "withdrawn and defined once more",
        before: FOUR_OCTETS,
        between: THERE_AGAIN,
        records: 1,
        unknown: 0,
    },
    Case {
        name: "another ID, and none before",
        before: EMPTY,
        between: ANOTHER_ID,
        records: 0,
        unknown: 1,
    },
];

/// A mediator with a session that heard the first message.
fn begun(alloc: Global, before: &[u8]) -> Result<Mediator, Fail> {
    let mut mediator = retried::begin(alloc, LIMITS)?;
    retried::open(&mut mediator)?;
    retried::receive(alloc, &mut mediator, SESSION, 0, before)?;
    Ok(mediator)
}

/// The flow as it is prepared now.
fn prepared(alloc: Global, mediator: &mut Mediator) -> Result<Prepared, Fail> {
    let snapshot = retried::snapshot(mediator, SESSION)?;
    Ok(retried::prepare(alloc, &snapshot, FLOW)?)
}

/// The receipt of the session's third message, behind the session's begin and two messages.
fn due(case: &Case) -> Receipt {
    Receipt {
        position: 3,
        records: case.records,
        cut: 0,
        skips: Skips {
            unknown: case.unknown,
            reserved: 0,
            refused: 0,
        },
        gap: None,
    }
}

/// Whether the session's third message is accepted, and so answered.
fn is_taken(mediator: &mut Mediator, message: Prepared, receipt: &Receipt) -> bool {
    match retried::receive_prepared(mediator, SESSION, 2, message) {
        Ok(answer) => answer == *receipt,
        Err(_refused) => false,
    }
}

fn is_flow(message: &[u8]) -> bool {
    message == FLOW
}

/// Whether the session's third message is refused as stale and handed back.
fn is_stale(mediator: &mut Mediator, message: Prepared) -> bool {
    match retried::receive_prepared(mediator, SESSION, 2, message) {
        Ok(_receipt) => false,
        Err((Fault::Stale, back)) => is_flow(&back.into_message()),
        Err(_refused) => false,
    }
}

/// That a flow that was prepared before a message is stale behind it, which changes nothing, and is taken in where it is
/// prepared anew.
fn expect_stale(rt: &impl Abort, alloc: Global, case: &Case) -> Result<(), Fail> {
    let mut mediator = begun(alloc, case.before)?;
    let early = prepared(alloc, &mut mediator)?;
    retried::receive(alloc, &mut mediator, SESSION, 1, case.between)?;
    assert!(rt; is_stale(&mut mediator, early), "{}", case.name);
    assert!(rt; mediator.journal().len() == 3, "{}", case.name);
    let late = prepared(alloc, &mut mediator)?;
    assert!(rt; is_taken(&mut mediator, late, &due(case)), "{}", case.name);
    Ok(())
}

/// That a flow that was prepared before a message is taken in behind it.
fn expect_kept(rt: &impl Abort, alloc: Global, case: &Case) -> Result<(), Fail> {
    let mut mediator = begun(alloc, case.before)?;
    let early = prepared(alloc, &mut mediator)?;
    retried::receive(alloc, &mut mediator, SESSION, 1, case.between)?;
    assert!(rt; is_taken(&mut mediator, early, &due(case)), "{}", case.name);
    Ok(())
}

#[test]
fn stale(rt: HostRuntime) -> Result<(), Fail> {
    for case in &STALE {
        expect_stale(&rt, rt.alloc(), case)?;
    }
    Ok(())
}

#[test]
fn kept(rt: HostRuntime) -> Result<(), Fail> {
    for case in &KEPT {
        expect_kept(&rt, rt.alloc(), case)?;
    }
    Ok(())
}
