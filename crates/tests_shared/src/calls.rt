//! Each call of a handle once, by one thread, and what it is refused: what it answers is what the mediator under the lock does.
use crate::octets::{
    DISCLOSED, NEXT_RECORD, NOW, ONE_RECORD, PASS, SHORT_HEADER, WITHHOLD, limits, octets_of,
};
use crate::sharing::{Case, ReturnedHandles, one, share};
use bytes::Bytes;
use disclosure_audit::line;
use ipfix_message::Fault as DecodeError;
use ipfix_session::{Fault as ReadError, Skips};
use mediator_core::{Fault, Finished, Receipt, Status, SubId};
use policy_text::{Fault as PolicyFault, FaultKind};
use shared_mediator::{
    AdminHandle, DeliveryHandle, EntryLedger, ExporterHandle, Fault as CloseFault, RecordLedger,
    SharedMediator,
};
use std::alloc::{AllocError, Global};
use std::process::Abort;
use std::sync::Wait;
use std::test::Fail;

/// The most octets of a message that is pulled.
const TARGET: u16 = 1400;

/// A message passes, and after another edit one is withheld; then come refusals, and the ends of session and subscription.
pub(crate) fn calls<E: EntryLedger, H: RecordLedger, R: Wait + Abort>(
    rt: &R,
    alloc: Global,
    shared: &SharedMediator<E, H>,
) -> Result<ReturnedHandles<E, H>, AllocError> {
    let mut admin = shared.admin(rt).expect(rt, "an administrator");
    let edited = admin.edit(rt, shared, PASS);
    assert!(rt; edited == Ok(1));
    let subscribed = admin.subscribe(rt, shared, "acme");
    assert!(rt; subscribed == Ok(SubId(1)));
    let mut exporter = shared.exporter(rt).expect(rt, "an exporter");
    let mut delivery = shared.delivery(rt, SubId(1)).expect(rt, "a delivery");
    expect_offer(rt, alloc, shared, &mut exporter, ONE_RECORD, received(3))?;
    expect_status(rt, shared, &admin, (1, 1, 0, false));
    let edited = admin.edit(rt, shared, WITHHOLD);
    assert!(rt; edited == Ok(2));
    expect_offer(rt, alloc, shared, &mut exporter, NEXT_RECORD, received(5))?;
    expect_message(rt, shared, &mut delivery, DISCLOSED, 1);
    expect_status(rt, shared, &admin, (1, 0, 1, false));
    expect_audit(rt, alloc, shared, &admin, "5 0 1 withheld 1 rule\n")?;
    refuse_handles(rt, shared);
    refuse_admin(rt, shared, &mut admin);
    expect_end(rt, alloc, shared, &mut exporter)?;
    expect_gone(rt, shared, &mut admin, &mut delivery);
    Ok(ReturnedHandles {
        exporters: one(alloc, exporter)?,
        deliveries: one(alloc, delivery)?,
        admins: one(alloc, admin)?,
    })
}

/// The receipt of a message that brings one record.
fn received(position: u64) -> Result<Receipt, Fault> {
    Ok(Receipt {
        position,
        records: 1,
        cut: 0,
        skips: Skips {
            unknown: 0,
            reserved: 0,
            refused: 0,
        },
        gap: None,
    })
}

/// That a message is answered so.
fn expect_offer<E: EntryLedger, H: RecordLedger, R: Wait + Abort>(
    rt: &R,
    alloc: Global,
    shared: &SharedMediator<E, H>,
    exporter: &mut ExporterHandle<E>,
    octets: &[u8],
    due: Result<Receipt, Fault>,
) -> Result<(), AllocError> {
    let message = Bytes::copy_from_slice(alloc, octets)?;
    let answer = exporter.offer(rt, shared, message);
    assert!(rt; answer == due, "{answer:?}");
    Ok(())
}

/// How a subscription stands: its number, how many records are queued and were handed out, and whether it was cut.
pub(crate) type Standing = (u64, u32, u64, bool);

/// That a subscription stands so, with one template.
pub(crate) fn expect_status<E: EntryLedger, H: RecordLedger, R: Wait + Abort>(
    rt: &R,
    shared: &SharedMediator<E, H>,
    admin: &AdminHandle<E>,
    standing: Standing,
) {
    let (sub, queued, handed, cut) = standing;
    let due = Status {
        queued,
        handed,
        shapes: 1,
        cut,
    };
    let answer = admin.status(rt, shared, SubId(sub));
    assert!(rt; answer == Ok(due), "{answer:?}");
}

/// That the message `message` of `records` records is pulled, and no second one.
pub(crate) fn expect_message<E: EntryLedger, H: RecordLedger, R: Wait + Abort>(
    rt: &R,
    shared: &SharedMediator<E, H>,
    delivery: &mut DeliveryHandle<H>,
    message: &[u8],
    records: u64,
) {
    let alloc = delivery.allocator();
    let is_due = match delivery.pull(rt, shared, NOW, TARGET) {
        Ok(Some(handed)) => {
            let octets = octets_of(alloc, &handed.message).expect(rt, "memory");
            octets.as_slice() == message && handed.records == records
        }
        Ok(None) | Err(_) => false,
    };
    assert!(rt; is_due);
    let second = delivery.pull(rt, shared, NOW, TARGET);
    assert!(rt; matches!(second, Ok(None)));
}

/// That the oldest ten entries of the audit have these lines.
fn expect_audit<E: EntryLedger, H: RecordLedger, R: Wait + Abort>(
    rt: &R,
    alloc: Global,
    shared: &SharedMediator<E, H>,
    admin: &AdminHandle<E>,
    due: &str,
) -> Result<(), AllocError> {
    let mut text = String::new(alloc);
    for entry in &admin.drain_audit(rt, shared, 10)? {
        text.push_str(line(alloc, entry)?.as_str())?;
    }
    assert!(rt; text.as_str() == due, "{text}");
    Ok(())
}

/// Where one handle of each kind may be made, no second one is; a subscription that isn't live is refused before.
fn refuse_handles<E: EntryLedger, H: RecordLedger, R: Wait + Abort>(
    rt: &R,
    shared: &SharedMediator<E, H>,
) {
    let unknown = shared.delivery(rt, SubId(9));
    assert!(rt; matches!(unknown, Err(Fault::UnknownSub)));
    assert!(rt; matches!(shared.exporter(rt), Err(Fault::NoHandle)));
    assert!(rt; matches!(shared.delivery(rt, SubId(1)), Err(Fault::NoHandle)));
    assert!(rt; matches!(shared.admin(rt), Err(Fault::NoHandle)));
}

/// What an administrator is refused; the clock is put on once, and the journal is full behind that.
fn refuse_admin<E: EntryLedger, H: RecordLedger, R: Wait + Abort>(
    rt: &R,
    shared: &SharedMediator<E, H>,
    admin: &mut AdminHandle<E>,
) {
    let fault = PolicyFault {
        line: 1,
        kind: FaultKind::NoHeader,
    };
    let edited = admin.edit(rt, shared, "policy 3");
    assert!(rt; edited == Err(Fault::Policy(fault)));
    let again = admin.subscribe(rt, shared, "acme");
    assert!(rt; again == Err(Fault::AlreadySubscribed { sub: 1 }));
    let unknown = admin.unsubscribe(rt, shared, SubId(9));
    assert!(rt; unknown == Err(Fault::UnknownSub));
    let advanced = admin.advance(rt, shared, 1000);
    assert!(rt; advanced == Ok(()));
    let back = admin.advance(rt, shared, 999);
    assert!(rt; back == Err(Fault::ClockBack { last: 1000 }));
}

/// A message that is malformed is refused; the session ends, and is unknown then.
fn expect_end<E: EntryLedger, H: RecordLedger, R: Wait + Abort>(
    rt: &R,
    alloc: Global,
    shared: &SharedMediator<E, H>,
    exporter: &mut ExporterHandle<E>,
) -> Result<(), AllocError> {
    let short = Fault::Malformed(ReadError::Malformed(DecodeError::ShortHeader));
    expect_offer(rt, alloc, shared, exporter, SHORT_HEADER, Err(short))?;
    let ended = exporter.end(rt, shared);
    assert!(rt; ended == Ok(()));
    let again = exporter.end(rt, shared);
    assert!(rt; again == Err(Fault::UnknownSession));
    Ok(())
}

/// The subscription ends, and is unknown then; the journal has room for that, and for no more.
fn expect_gone<E: EntryLedger, H: RecordLedger, R: Wait + Abort>(
    rt: &R,
    shared: &SharedMediator<E, H>,
    admin: &mut AdminHandle<E>,
    delivery: &mut DeliveryHandle<H>,
) {
    let ended = admin.unsubscribe(rt, shared, SubId(1));
    assert!(rt; ended == Ok(()));
    let gone = delivery.pull(rt, shared, NOW, TARGET);
    assert!(rt; matches!(gone, Err(Fault::UnknownSub)));
    let unknown = admin.status(rt, shared, SubId(1));
    assert!(rt; unknown == Err(Fault::UnknownSub));
    let full = admin.advance(rt, shared, 1000);
    assert!(rt; full == Err(Fault::JournalFull));
}

/// Whether a journal of `entries` entries is left, whose last edit has the text `text`.
fn is_left(finished: Finished, entries: u64, text: &str) -> bool {
    finished.journal.len() == entries && finished.journal.last_edit() == Some(text)
}

/// The journal has nine entries then: two edits, one begin and one end of a subscription and of a session, two messages, and an
/// advance of the clock.
#[test]
fn calls_through_handles(rt: HostRuntime) -> Result<(), Fail> {
    let ended = share(&rt, rt.alloc(), limits(100, 100, 9), 1, Case::Calls)?;
    let closed = ended.closed.expect(&rt, "closed");
    assert!(rt; closed.accepted == 2);
    assert!(rt; closed.handed == 1);
    assert!(rt; closed.mediator.journal().len() == 9);
    assert!(rt; is_left(closed.mediator.finish(), 9, WITHHOLD));
    Ok(())
}

#[test]
fn missing_handle(rt: HostRuntime) -> Result<(), Fail> {
    for case in &[Case::NoExporter, Case::NoDelivery, Case::NoAdmin] {
        let ended = share(&rt, rt.alloc(), limits(100, 100, 9), 1, *case)?;
        let is_missing = matches!(&ended.closed, Err(CloseFault::MissingHandle));
        assert!(rt; is_missing, "{case:?}");
    }
    Ok(())
}
