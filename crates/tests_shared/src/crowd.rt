//! Eight exporters with 250 messages each and nine deliveries in threads of their own, while an administrator edits, subscribes
//! and advances the clock: each subscriber has what the journal gives it.
use crate::octets::{NOW, START, flow, limits};
use crate::replay::replay;
use crate::sharing::{Case, ReturnedHandles, one, share};
use bytes::Bytes;
use event_journal::{Entry, Journal};
use shared_mediator::{
    AdminHandle, DeliveryHandle, EntryLedger, ExporterHandle, RecordLedger, SharedMediator, Waited,
};
use std::alloc::{AllocError, Global};
use std::process::Abort;
use std::sync::Wait;
use std::test::Fail;
use std::thread;
use std::thread::{JoinHandle, Threads};

const EXPORTERS: u16 = 8;

const MESSAGES: u32 = 250;

/// How often the administrator edits, subscribes and advances.
const EDITS: u64 = 25;

/// Each part is then a message of its own, so that what a subscriber gets doesn't depend on when it pulls.
pub(crate) const TARGET: u16 = 16;

/// The last one of these names is delivered to when all else is over.
const NAMES: &[&str] = &[
    "ada", "bob", "cyd", "dan", "eve", "fay", "gus", "hal", "late",
];

/// Eve's flows are added up; all others get each.
pub(crate) const ADDED: &str =
    "policy 1\naggregate web key destinationTransportPort interval 300 grace 60\nrule for eve in * from * to * aggregate web\nrule for * in * from * to * pass\nrule for * in * from * to * element * keep\n";

/// Eve's flows are added up, Bob gets nothing, and all others get each.
const NOT_BOB: &str =
    "policy 1\naggregate web key destinationTransportPort interval 300 grace 60\nrule for eve in * from * to * aggregate web\nrule for bob in * from * to * withhold\nrule for * in * from * to * pass\nrule for * in * from * to * element * keep\n";

/// Offers flows to a port, one every 2,400 milliseconds of their own time.
fn offer_flows<E: EntryLedger, H: RecordLedger, R: Wait + Abort>(
    rt: &R,
    alloc: Global,
    shared: &SharedMediator<E, H>,
    mut exporter: ExporterHandle<E>,
    port: u16,
) -> ExporterHandle<E> {
    for n in 0..MESSAGES {
        let message = flow(n, START + n as u64 * 2400, port);
        let message = Bytes::copy_from_slice(alloc, &message).expect(rt, "memory");
        exporter.offer(rt, shared, message).expect(rt, "a receipt");
    }
    exporter
}

/// Edits, begins and ends a subscription, and advances the clock, again and again.
fn administer<E: EntryLedger, H: RecordLedger, R: Wait + Abort>(
    rt: &R,
    shared: &SharedMediator<E, H>,
    mut admin: AdminHandle<E>,
) -> AdminHandle<E> {
    for n in 0..EDITS {
        let text = if n % 2 == 0 { NOT_BOB } else { ADDED };
        admin.edit(rt, shared, text).expect(rt, "an edit");
        let passing = admin
            .subscribe(rt, shared, "passing")
            .expect(rt, "a subscription");
        admin
            .advance(rt, shared, START + n * 40_000)
            .expect(rt, "an advance");
        thread::yield_now();
        admin.unsubscribe(rt, shared, passing).expect(rt, "an end");
    }
    admin
}

/// Delivers until all is to stop, or until the subscription was cut, and nothing is queued.
fn deliver_all<E: EntryLedger, H: RecordLedger, R: Wait + Abort>(
    rt: &R,
    shared: &SharedMediator<E, H>,
    mut delivery: DeliveryHandle<H>,
) -> DeliveryHandle<H> {
    for _ in rt.forever() {
        let waited = delivery.wait(rt, shared);
        if waited != Waited::Queued {
            assert!(rt; waited != Waited::Gone);
            break;
        }
        delivery.pull(rt, shared, NOW, TARGET).expect(rt, "a pull");
    }
    delivery
}

/// A delivery for each name.
fn deliveries<E: EntryLedger, H: RecordLedger, R: Wait + Abort>(
    rt: &R,
    alloc: Global,
    shared: &SharedMediator<E, H>,
    admin: &mut AdminHandle<E>,
) -> Result<Vec<DeliveryHandle<H>>, AllocError> {
    let mut made = Vec::new(alloc);
    for name in NAMES {
        let sub = admin
            .subscribe(rt, shared, *name)
            .expect(rt, "a subscription");
        made.push(shared.delivery(rt, sub).expect(rt, "a delivery"))?;
    }
    Ok(made)
}

fn join_all<R: Threads, T: Drop>(
    rt: &R,
    alloc: Global,
    running: Vec<JoinHandle<T>>,
) -> Result<Vec<T>, AllocError> {
    let mut done = Vec::new(alloc);
    for thread in running {
        done.push(thread.join(rt))?;
    }
    Ok(done)
}

pub(crate) fn crowd<
    E: EntryLedger + Send + Sync,
    H: RecordLedger + Send + Sync,
    R: Threads + Wait + Abort + Sync,
>(
    rt: &R,
    alloc: Global,
    shared: &SharedMediator<E, H>,
) -> Result<ReturnedHandles<E, H>, AllocError> {
    let mut admin = shared.admin(rt).expect(rt, "an administrator");
    admin.edit(rt, shared, ADDED).expect(rt, "an edit");
    let mut deliveries = deliveries(rt, alloc, shared, &mut admin)?;
    let late = deliveries.pop().expect(rt, "nine names");
    thread::scope(thread::scope_env(), rt, |scope| {
        let mut delivering = Vec::new(alloc);
        for delivery in deliveries {
            delivering.push(scope.spawn(move || deliver_all(rt, shared, delivery))?)?;
        }
        let mut offering = Vec::new(alloc);
        for n in 0..EXPORTERS {
            let exporter = shared.exporter(rt).expect(rt, "an exporter");
            let port = 440 + n;
            offering.push(scope.spawn(move || offer_flows(rt, alloc, shared, exporter, port))?)?;
        }
        let admin = administer(rt, shared, admin);
        let exporters = join_all(rt, alloc, offering)?;
        admin.stop(rt, shared);
        let mut deliveries = join_all(rt, alloc, delivering)?;
        deliveries.push(deliver_all(rt, shared, late))?;
        Ok(ReturnedHandles {
            exporters,
            deliveries,
            admins: one(alloc, admin)?,
        })
    })
}

/// How many subscriptions were cut for a full queue.
fn cuts(journal: &Journal) -> u64 {
    let mut found = 0u64;
    for position in 0..journal.len() {
        if matches!(journal.get(position), Some(Entry::Cut { .. })) {
            found = found.saturating_add(1);
        }
    }
    found
}

/// At first no queue is ever full. Then sixteen records may wait: deliveries that fall behind are cut, as is the last one, which
/// is delivered to when all else is over.
#[test]
fn crowd_of_threads(rt: HostRuntime) -> Result<(), Fail> {
    for (queue, is_tight) in [(1_000_000, false), (16, true)] {
        let queues = limits(queue, 100, 1_000_000);
        let ended = share(&rt, rt.alloc(), queues, 9, Case::Crowd)?;
        let closed = ended.closed.expect(&rt, "closed");
        assert!(rt; closed.accepted == EXPORTERS as u64 * MESSAGES as u64);
        let cut = cuts(closed.mediator.journal());
        assert!(rt; (0 < cut) == is_tight, "{cut}");
        replay(&rt, rt.alloc(), closed.mediator.journal(), &ended.taken)?;
    }
    Ok(())
}
