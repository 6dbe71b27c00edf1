//! Several sessions and subscriptions that stand differently: each call is about the one that it is made for. And the audit is
//! handed out by pieces.
use crate::calls::{Standing, expect_message, expect_status};
use crate::octets::{PASS, TEMPLATE, TWO_DISCLOSED, WITHHOLD, hundred, limits, port_record};
use crate::sharing::{Case, ReturnedHandles, one, share};
use bytes::Bytes;
use disclosure_audit::{AuditEntry, Reason, What};
use event_journal::{Entry, Journal};
use mediator_core::{Fault, SubId};
use prepared_message::Prepared;
use shared_mediator::{
    AdminHandle, DeliveryHandle, EntryLedger, ExporterHandle, RecordLedger, SharedMediator,
};
use std::alloc::{AllocError, Global};
use std::process::Abort;
use std::sync::Wait;
use std::test::Fail;

/// Each name with how many records came before it subscribes, and the port of the next one.
static NAMES: [(&str, u32, u16); 3] = [("ada", 0, 1), ("bob", 1, 2), ("cyd", 2, 3)];

/// Two records may wait: Ada has those of the ports 1 and 2, and is cut at the third.
const ADA: Standing = (1, 2, 0, true);

/// Bob has pulled those of the ports 2 and 3.
const BOB: Standing = (2, 0, 2, false);

/// That of the port 3 waits for Cyd.
const CYD: Standing = (3, 1, 0, false);

/// How many entries are asked for at once.
const PIECE: u32 = 150;

/// The first entry of each piece, from 0, and how many there are.
static PIECES: [(u32, usize); 3] = [(0, 150), (150, 50), (200, 0)];

/// Of three sessions and three subscriptions the second ones are used, and end.
pub(crate) fn several<E: EntryLedger, H: RecordLedger, R: Wait + Abort>(
    rt: &R,
    alloc: Global,
    shared: &SharedMediator<E, H>,
) -> Result<ReturnedHandles<E, H>, AllocError> {
    let mut admin = shared.admin(rt).expect(rt, "an administrator");
    admin.edit(rt, shared, PASS).expect(rt, "an edit");
    let mut first = shared.exporter(rt).expect(rt, "an exporter");
    let mut second = shared.exporter(rt).expect(rt, "an exporter");
    let mut third = shared.exporter(rt).expect(rt, "an exporter");
    expect_records(rt, alloc, shared, &mut second, TEMPLATE, Ok(0));
    let mut deliveries = deliveries(rt, alloc, shared, &mut admin, &mut second);
    let bob = deliveries.get_mut(1).expect(rt, "three deliveries");
    expect_message(rt, shared, bob, TWO_DISCLOSED, 2);
    expect_status(rt, shared, &admin, ADA);
    expect_status(rt, shared, &admin, BOB);
    expect_status(rt, shared, &admin, CYD);
    expect_bob_ends(rt, shared, &mut admin);
    second.end(rt, shared).expect(rt, "an end");
    expect_records(rt, alloc, shared, &mut first, TEMPLATE, Ok(0));
    let unknown = Err(Fault::UnknownSession);
    expect_records(rt, alloc, shared, &mut second, TEMPLATE, unknown);
    expect_records(rt, alloc, shared, &mut third, TEMPLATE, Ok(0));
    let mut exporters = one(alloc, first)?;
    exporters.push(second)?;
    exporters.push(third)?;
    Ok(ReturnedHandles {
        exporters,
        deliveries,
        admins: one(alloc, admin)?,
    })
}

/// A delivery for each name, with a record behind each begin.
fn deliveries<E: EntryLedger, H: RecordLedger, R: Wait + Abort>(
    rt: &R,
    alloc: Global,
    shared: &SharedMediator<E, H>,
    admin: &mut AdminHandle<E>,
    exporter: &mut ExporterHandle<E>,
) -> Vec<DeliveryHandle<H>> {
    let mut made = Vec::new(alloc);
    for (name, before, port) in &NAMES {
        let sub = admin.subscribe(rt, shared, name).expect(rt, "a name");
        let delivery = shared.delivery(rt, sub).expect(rt, "a delivery");
        made.push(delivery).expect(rt, "memory");
        offer_prepared(rt, alloc, shared, exporter, &port_record(*before, *port));
    }
    made
}

/// That a message that is offered brings the number of records in `due`, or is refused with the fault in `due`.
pub(crate) fn expect_records<E: EntryLedger, H: RecordLedger, R: Wait + Abort>(
    rt: &R,
    alloc: Global,
    shared: &SharedMediator<E, H>,
    exporter: &mut ExporterHandle<E>,
    octets: &[u8],
    due: Result<u64, Fault>,
) {
    let message = Bytes::copy_from_slice(alloc, octets).expect(rt, "memory");
    let answer = match exporter.offer(rt, shared, message) {
        Ok(receipt) => Ok(receipt.records),
        Err(fault) => Err(fault),
    };
    assert!(rt; answer == due, "{answer:?}");
}

/// Offers a message of one record, which is prepared by what its own session knows.
pub(crate) fn offer_prepared<E: EntryLedger, H: RecordLedger, R: Wait + Abort>(
    rt: &R,
    alloc: Global,
    shared: &SharedMediator<E, H>,
    exporter: &mut ExporterHandle<E>,
    octets: &[u8],
) {
    let message = Bytes::copy_from_slice(alloc, octets).expect(rt, "memory");
    let snapshot = exporter.snapshot(rt, shared).expect(rt, "a snapshot");
    let prepared = Prepared::prepare(&snapshot, message).expect(rt, "a message");
    let is_due = match exporter.offer_prepared(rt, shared, prepared) {
        Ok(receipt) => receipt.records == 1,
        Err(_refused) => false,
    };
    assert!(rt; is_due);
}

/// That Bob's subscription ends, and the others stand as before.
fn expect_bob_ends<E: EntryLedger, H: RecordLedger, R: Wait + Abort>(
    rt: &R,
    shared: &SharedMediator<E, H>,
    admin: &mut AdminHandle<E>,
) {
    let ended = admin.unsubscribe(rt, shared, SubId(2));
    assert!(rt; ended == Ok(()));
    let unknown = admin.status(rt, shared, SubId(2));
    assert!(rt; unknown == Err(Fault::UnknownSub));
    expect_status(rt, shared, admin, ADA);
    expect_status(rt, shared, admin, CYD);
}

/// A message of a hundred records is withheld from two subscriptions.
pub(crate) fn audit<E: EntryLedger, H: RecordLedger, R: Wait + Abort>(
    rt: &R,
    alloc: Global,
    shared: &SharedMediator<E, H>,
) -> Result<ReturnedHandles<E, H>, AllocError> {
    let mut admin = shared.admin(rt).expect(rt, "an administrator");
    admin.edit(rt, shared, WITHHOLD).expect(rt, "an edit");
    admin.subscribe(rt, shared, "ada").expect(rt, "a name");
    admin.subscribe(rt, shared, "bob").expect(rt, "a name");
    let mut exporter = shared.exporter(rt).expect(rt, "an exporter");
    expect_records(rt, alloc, shared, &mut exporter, &hundred(), Ok(100));
    for (first, count) in &PIECES {
        let entries = admin.drain_audit(rt, shared, PIECE)?;
        let are_due = are_due(entries.as_slice(), *first);
        assert!(rt; entries.len() == *count && are_due, "{first}");
    }
    Ok(ReturnedHandles {
        exporters: one(alloc, exporter)?,
        deliveries: Vec::new(alloc),
        admins: one(alloc, admin)?,
    })
}

/// Whether these are the entries from this one on.
fn are_due(entries: &[AuditEntry], first: u32) -> bool {
    let mut number = first;
    for entry in entries {
        if !is_due(entry, number) {
            return false;
        }
        number = number.saturating_add(1);
    }
    true
}

/// The entries go by the record, and those of one record by the subscription. The message is the journal's fifth entry.
fn is_due(entry: &AuditEntry, number: u32) -> bool {
    entry.position == 4
        && entry.index == number / 2
        && entry.sub == 1 + (number % 2) as u64
        && matches!(
            &entry.what,
            What::Withheld {
                rule: 1,
                reason: Reason::Rule
            }
        )
}

/// Whether the second subscription ended behind the first twelve entries, and then the second session.
fn ends_second(journal: &Journal) -> bool {
    matches!(journal.get(12), Some(Entry::Unsubscribe { sub: 2 }))
        && matches!(journal.get(13), Some(Entry::Close { session: 2 }))
}

/// The twelve: an edit, three sessions, a template; three times a subscription and a message, and a cut before the last one.
#[test]
fn second_of_three(rt: HostRuntime) -> Result<(), Fail> {
    let ended = share(&rt, rt.alloc(), limits(2, 100, 16), 3, Case::Several)?;
    let closed = ended.closed.expect(&rt, "closed");
    assert!(rt; closed.accepted == 6);
    assert!(rt; closed.handed == 2);
    assert!(rt; ends_second(closed.mediator.journal()));
    Ok(())
}

#[test]
fn audit_by_pieces(rt: HostRuntime) -> Result<(), Fail> {
    let ended = share(&rt, rt.alloc(), limits(100, 100, 5), 1, Case::Audit)?;
    assert!(rt; matches!(&ended.closed, Ok(closed) if closed.accepted == 1));
    Ok(())
}
