//! What ends a delivery's wait: two deliveries wait, each in a thread of its own, until another thread acts, and both are woken
//! by that alone.
use crate::crowd::ADDED;
use crate::octets::{ONE_RECORD, START, TEMPLATE, WITHDRAWN, flow, limits, port_record};
use crate::several::{expect_records, offer_prepared};
use crate::sharing::{Case, ReturnedHandles, one, share};
use bytes::Bytes;
use mediator_core::SubId;
use shared_mediator::{
    AdminHandle, DeliveryHandle, EntryLedger, ExporterHandle, RecordLedger, SharedMediator, Waited,
};
use std::alloc::{AllocError, Global};
use std::process::Abort;
use std::sync::Wait;
use std::sync::atomic::{AtomicU64, Ordering};
use std::test::Fail;
use std::thread;
use std::thread::Threads;
use std::time::{Clock, Duration};

/// The time after which two threads that have said that they begin are both taken to wait, in milliseconds.
const BEFORE: u64 = 50;

/// The time between two looks at a count, in milliseconds.
const PAUSE: u64 = 2;

/// The most looks at a count: those of ten seconds.
const LOOKS: u64 = 5000;

/// What is done while two deliveries wait.
#[derive(Clone, Copy, Debug)]
enum Act {
    /// A record is offered.
    Offer,
    /// A record is offered that was prepared.
    Prepared,
    /// A record is offered silently, and then the deliveries are woken.
    Wake,
    /// A message brings more templates than there may be.
    Cut,
    /// The clock closes a group to which a flow was added before.
    Advance,
    /// The subscription is ended.
    End,
    /// All is to stop.
    Stop,
}

/// The acts with the names of the two subscriptions that wait meanwhile, or with one name twice; and what ends both waits.
static ROWS: [(&str, &str, Act, Waited); 7] = [
    ("ada", "bob", Act::Offer, Waited::Queued),
    ("cyd", "dan", Act::Prepared, Waited::Queued),
    ("fay", "gus", Act::Wake, Waited::Queued),
    ("hal", "ida", Act::Cut, Waited::Cut),
    ("eve", "eve", Act::Advance, Waited::Queued),
    ("jon", "jon", Act::End, Waited::Gone),
    ("kim", "lea", Act::Stop, Waited::Stopped),
];

/// How many deliveries are about to wait, and how many waits have ended.
#[derive(Drop)]
struct Counts {
    begun: AtomicU64,
    ended: AtomicU64,
}

/// Plays the rows, each with handles of its own.
pub(crate) fn waits<
    E: EntryLedger + Send + Sync,
    H: RecordLedger + Send + Sync,
    R: Threads + Wait + Abort + Clock + Sync,
>(
    rt: &R,
    alloc: Global,
    shared: &SharedMediator<E, H>,
) -> Result<ReturnedHandles<E, H>, AllocError> {
    let mut admin = shared.admin(rt).expect(rt, "an administrator");
    let edited = admin.edit(rt, shared, ADDED);
    assert!(rt; edited == Ok(1));
    let (mut exporters, mut deliveries) = (Vec::new(alloc), Vec::new(alloc));
    for (name, other, act, due) in &ROWS {
        let pair = two_deliveries(rt, shared, &mut admin, name, other);
        let mut exporter = shared.exporter(rt).expect(rt, "an exporter");
        begin(rt, alloc, shared, &mut exporter, *act);
        let (first, second) = wait_for(
            rt,
            alloc,
            shared,
            &mut admin,
            &mut exporter,
            pair,
            (*act, *due),
        );
        exporters.push(exporter)?;
        deliveries.push(first)?;
        deliveries.push(second)?;
    }
    Ok(ReturnedHandles {
        exporters,
        deliveries,
        admins: one(alloc, admin)?,
    })
}

/// Deliveries to the subscriptions of two names, or two deliveries to one.
fn two_deliveries<E: EntryLedger, H: RecordLedger, R: Wait + Abort>(
    rt: &R,
    shared: &SharedMediator<E, H>,
    admin: &mut AdminHandle<E>,
    name: &str,
    other: &str,
) -> (DeliveryHandle<H>, DeliveryHandle<H>) {
    let first = admin.subscribe(rt, shared, name).expect(rt, "a name");
    let second = if name == other {
        first
    } else {
        admin.subscribe(rt, shared, other).expect(rt, "a name")
    };
    (
        shared.delivery(rt, first).expect(rt, "a delivery"),
        shared.delivery(rt, second).expect(rt, "a delivery"),
    )
}

/// What comes before the waits, and queues nothing.
fn begin<E: EntryLedger, H: RecordLedger, R: Wait + Abort>(
    rt: &R,
    alloc: Global,
    shared: &SharedMediator<E, H>,
    exporter: &mut ExporterHandle<E>,
    act: Act,
) {
    match act {
        Act::Prepared => expect_records(rt, alloc, shared, exporter, TEMPLATE, Ok(0)),
        Act::Advance => expect_records(rt, alloc, shared, exporter, &flow(0, START, 443), Ok(1)),
        _ => {}
    }
}

/// Two deliveries wait, and then this is done: both waits end so before anything else is done. Else the test ends here.
fn wait_for<
    E: EntryLedger + Send + Sync,
    H: RecordLedger + Send + Sync,
    R: Threads + Wait + Abort + Clock + Sync,
>(
    rt: &R,
    alloc: Global,
    shared: &SharedMediator<E, H>,
    admin: &mut AdminHandle<E>,
    exporter: &mut ExporterHandle<E>,
    pair: (DeliveryHandle<H>, DeliveryHandle<H>),
    row: (Act, Waited),
) -> (DeliveryHandle<H>, DeliveryHandle<H>) {
    let (first, second) = pair;
    let (act, due) = row;
    let sub = first.sub();
    let both = Counts {
        begun: AtomicU64::new(0),
        ended: AtomicU64::new(0),
    };
    let counts = &both;
    thread::scope(thread::scope_env(), rt, |scope| {
        let first = scope
            .spawn(move || wait(rt, shared, counts, first, due))
            .expect(rt, "a thread");
        let second = scope
            .spawn(move || wait(rt, shared, counts, second, due))
            .expect(rt, "a thread");
        assert!(rt; comes_to_two(rt, &counts.begun), "{act:?}");
        thread::sleep(rt, Duration::from_millis(BEFORE));
        do_act(rt, alloc, shared, admin, exporter, sub, act);
        assert!(rt; comes_to_two(rt, &counts.ended), "{act:?}");
        (first.join(rt), second.join(rt))
    })
}

/// Waits once, and that the wait ends with what is due.
fn wait<E: EntryLedger, H: RecordLedger, R: Wait + Abort>(
    rt: &R,
    shared: &SharedMediator<E, H>,
    counts: &Counts,
    delivery: DeliveryHandle<H>,
    due: Waited,
) -> DeliveryHandle<H> {
    counts.begun.fetch_add(1, Ordering::SeqCst);
    let waited = delivery.wait(rt, shared);
    assert!(rt; waited == due, "{waited:?} for {due:?}");
    counts.ended.fetch_add(1, Ordering::SeqCst);
    delivery
}

/// Whether a count comes to two.
fn comes_to_two<R: Clock>(rt: &R, count: &AtomicU64) -> bool {
    for _ in 0..LOOKS {
        if count.load(Ordering::SeqCst) == 2 {
            return true;
        }
        thread::sleep(rt, Duration::from_millis(PAUSE));
    }
    false
}

fn do_act<E: EntryLedger, H: RecordLedger, R: Wait + Abort>(
    rt: &R,
    alloc: Global,
    shared: &SharedMediator<E, H>,
    admin: &mut AdminHandle<E>,
    exporter: &mut ExporterHandle<E>,
    sub: SubId,
    act: Act,
) {
    match act {
        Act::Offer => expect_records(rt, alloc, shared, exporter, ONE_RECORD, Ok(1)),
        Act::Prepared => offer_prepared(rt, alloc, shared, exporter, &port_record(0, 443)),
        Act::Wake => offer_and_wake(rt, alloc, shared, exporter),
        Act::Cut => expect_records(rt, alloc, shared, exporter, WITHDRAWN, Ok(2)),
        Act::Advance => admin
            .advance(rt, shared, START + 360_000)
            .expect(rt, "an advance"),
        Act::End => admin.unsubscribe(rt, shared, sub).expect(rt, "an end"),
        Act::Stop => admin.stop(rt, shared),
    }
}

/// Offers a record silently, and then wakes the deliveries.
fn offer_and_wake<E: EntryLedger, H: RecordLedger, R: Wait + Abort>(
    rt: &R,
    alloc: Global,
    shared: &SharedMediator<E, H>,
    exporter: &mut ExporterHandle<E>,
) {
    let message = Bytes::copy_from_slice(alloc, ONE_RECORD).expect(rt, "memory");
    let answer = exporter.offer_silently(rt, shared, message);
    assert!(rt; answer.is_ok());
    shared.wake(rt);
}

#[test]
fn waiting(rt: HostRuntime) -> Result<(), Fail> {
    // One template of each subscription may be known.
    let ended = share(&rt, rt.alloc(), limits(100, 1, 1000), 14, Case::Waits)?;
    assert!(rt; matches!(&ended.closed, Ok(closed) if closed.accepted == 6));
    Ok(())
}
