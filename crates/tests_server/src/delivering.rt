//! Deliveries: to writers that take all, few octets at a time or none, or fail. After a failure the subscription is gone, and
//! else all that was queued is sent, also what comes while the delivery waits.
use crate::octets::{NOW, ONE_DELIVERED, ONE_RECORD, PART_BY_PART, TWO_RECORDS};
use crate::returned_handles::{
    Bounds, ENOUGH, PASS, ROOMY, SMALL, begin, limits_of, offer_all, returned_handles,
};
use crate::stage::{Case, ReturnedHandles, play};
use mediator_connections::{Clock, Fault as ServeFault, deliver};
use mediator_core::{Fault, SubId};
use octet_io::Device;
use shared_mediator::{
    AdminHandle, DeliveryHandle, EntryLedger, ExporterHandle, RecordLedger, SharedMediator,
};
use std::alloc::{AllocError, Global};
use std::io::ErrorKind::BrokenPipe;
use std::process::Abort;
use std::sync::Wait;
use std::test::Fail;
use std::thread;
use std::thread::Threads;
use test_io::Narrow;

/// Room for what a delivery here writes.
const ROOM: usize = 2048;

/// How often a thread gives way before it acts, so that the other one waits by then.
const TURNS: u64 = 10_000;

/// A clock that stands.
#[derive(Drop)]
pub(crate) struct Stands(pub(crate) u32);

impl Clock for Stands {
    ghost use Rattle.std.specs.Prelude.{◌≡◌};

    ghost shows = { λ clock time. time ≡ clock.0 };

    fn now(&self) -> u32 {
        self.0
    }
}

/// How many octets were sent; or the fault, and how many records waited then.
type Answer = Result<u64, (ServeFault, u64)>;

/// What is done before a delivery.
#[derive(Clone, Copy)]
enum Act {
    /// All is to stop.
    Stop,
    /// The subscription is ended.
    End,
    /// Nothing.
    Leave,
}

/// Messages that are offered, how they are delivered, and what comes of it.
#[derive(Clone, Copy)]
pub(crate) struct Row {
    offered: &'static [&'static [u8]],
    act: Act,
    target: u16,
    /// The most octets that a write takes.
    most: usize,
    /// How many writes come before one that fails.
    writes: usize,
    due: Answer,
    /// What is written, where that isn't left to its count.
    written: Option<&'static [u8]>,
    /// How many records are queued and were handed out then, where the subscription isn't gone.
    left: Option<(u32, u64)>,
}

/// What a delivery answered and wrote, and its handles.
#[derive(Drop)]
struct Delivered<E: EntryLedger, H: RecordLedger> {
    admin: AdminHandle<E>,
    delivery: DeliveryHandle<H>,
    answer: Answer,
    written: Vec<u8>,
}

/// Offers the messages, and delivers them.
pub(crate) fn deliver_row<E: EntryLedger, H: RecordLedger, R: Wait + Abort>(
    rt: &R,
    alloc: Global,
    shared: &SharedMediator<E, H>,
    row: Row,
) -> Result<ReturnedHandles<E, H>, AllocError> {
    let (mut admin, exporter) = begin(rt, alloc, shared, PASS, row.offered)?;
    let delivery = shared.delivery(rt, SubId(1)).expect(rt, "a delivery");
    match row.act {
        Act::Stop => admin.stop(rt, shared),
        Act::End => admin.unsubscribe(rt, shared, SubId(1)).expect(rt, "an end"),
        Act::Leave => {}
    }
    let mut delivered = deliver_by(rt, alloc, shared, admin, delivery, row)?;
    expect_delivered(rt, shared, &mut delivered, row);
    returned_handles(alloc, exporter, delivered.admin, Some(delivered.delivery))
}

/// Delivers as the row says.
fn deliver_by<E: EntryLedger, H: RecordLedger, R: Wait + Abort>(
    rt: &R,
    alloc: Global,
    shared: &SharedMediator<E, H>,
    mut admin: AdminHandle<E>,
    mut delivery: DeliveryHandle<H>,
    row: Row,
) -> Result<Delivered<E, H>, AllocError> {
    let writer = Narrow::new(alloc, ROOM, row.most, row.writes, BrokenPipe)?;
    let mut writer = Device::new(writer);
    let answer = deliver(
        rt,
        shared,
        &mut delivery,
        &mut admin,
        &mut writer,
        row.target,
        &Stands(NOW),
    );
    let written = writer.into_inner().octets;
    Ok(Delivered {
        admin,
        delivery,
        answer,
        written,
    })
}

/// What was answered, written and left is as the row says; and where the subscription is gone, one of its name has a new number.
fn expect_delivered<E: EntryLedger, H: RecordLedger, R: Wait + Abort>(
    rt: &R,
    shared: &SharedMediator<E, H>,
    delivered: &mut Delivered<E, H>,
    row: Row,
) {
    let answer = delivered.answer;
    assert!(rt; answer == row.due, "{answer:?}");
    if let Some(written) = row.written {
        assert!(rt; delivered.written.as_slice() == written);
    }
    let left = match delivered.admin.status(rt, shared, SubId(1)) {
        Ok(status) => Some((status.queued, status.handed)),
        Err(_) => None,
    };
    assert!(rt; left == row.left, "{left:?}");
    let again = delivered.admin.subscribe(rt, shared, "acme");
    let due = match row.left {
        Some(_) => Err(Fault::AlreadySubscribed { sub: 1 }),
        None => Ok(SubId(2)),
    };
    assert!(rt; again == due, "{again:?}");
}

const ONE: &[&[u8]] = &[ONE_RECORD];

const TWO: &[&[u8]] = &[TWO_RECORDS];

/// After a stop all that is queued is sent, and its octets are counted.
#[test]
fn all_is_sent(rt: HostRuntime) -> Result<(), Fail> {
    for (offered, target, most, written, records) in [
        (ONE, 1400, 65_536, ONE_DELIVERED, 1),
        (TWO, SMALL, 7, PART_BY_PART, 2),
    ] {
        let row = Row {
            offered,
            act: Act::Stop,
            target,
            most,
            writes: ENOUGH,
            due: Ok(written.len() as u64),
            written: Some(written),
            left: Some((0, records)),
        };
        play(&rt, rt.alloc(), limits_of(ROOMY), Case::Deliver(row))?;
    }
    Ok(())
}

/// A journal that has no room for more.
const FULL: Bounds = (4, 100, 100);

/// What is offered, the most octets of a message, and what is due; how much a write takes, how many of them come to be made, and
/// what is left where one of them fails. Whichever that is, the octets that were taken before it are told, and are a front of
/// what is due. Messages that are pulled at once are written in one piece: those of two records have 36, 30 and 30 octets. A
/// write that takes nothing is one that fails. Where the journal has no room for its end, the subscription stays, and both
/// records were handed out.
const FAILING: &[(
    &[&[u8]],
    u16,
    &[u8],
    usize,
    usize,
    Bounds,
    Option<(u32, u64)>,
)] = &[
    (ONE, 1400, ONE_DELIVERED, 1, 50, ROOMY, None),
    (ONE, 1400, ONE_DELIVERED, 7, 8, ROOMY, None),
    (ONE, 1400, ONE_DELIVERED, 65_536, 1, ROOMY, None),
    (ONE, 1400, ONE_DELIVERED, 0, 2, ROOMY, None),
    (TWO, SMALL, PART_BY_PART, 1, 96, ROOMY, None),
    (TWO, SMALL, PART_BY_PART, 7, 14, ROOMY, None),
    (TWO, SMALL, PART_BY_PART, 65_536, 1, ROOMY, None),
    (TWO, SMALL, PART_BY_PART, 0, 2, ROOMY, None),
    (TWO, SMALL, PART_BY_PART, 1, 96, FULL, Some((0, 2))),
    (TWO, SMALL, PART_BY_PART, 0, 2, FULL, Some((0, 2))),
];

#[test]
fn failing_writers(rt: HostRuntime) -> Result<(), Fail> {
    for (offered, target, whole, most, made, bounds, left) in FAILING {
        for writes in 0..*made {
            let sent = writes.saturating_mul(*most);
            let row = Row {
                offered: *offered,
                act: Act::Stop,
                target: *target,
                most: *most,
                writes,
                due: Err((ServeFault::Write { sent: sent as u64 }, 0)),
                written: Some(whole.get(..sent).unwrap_or(&[])),
                left: *left,
            };
            play(&rt, rt.alloc(), limits_of(*bounds), Case::Deliver(row))?;
        }
    }
    Ok(())
}

/// Sixty records with their template: 61 messages, of which 46 are pulled at once.
const SIXTY: &[&[u8]] = &[TWO_RECORDS; 30];

/// The second message has no room where two records may wait.
const CUT: &[&[u8]] = &[ONE_RECORD, TWO_RECORDS];

const FIRST_WRITE: Answer = Err((ServeFault::Write { sent: 1386 }, 0));

/// The first pull had the template and 45 of the records: fifteen wait.
const NOTHING_SENT: Answer = Err((ServeFault::Write { sent: 0 }, 15));

const UNKNOWN: Answer = Err((ServeFault::Mediator(Fault::UnknownSub), 0));

/// What is offered, the bounds, and what is done then; how many writes of any length come before one that fails; what is answered,
/// and what is left. The template has 36 octets, and each record 30; the first write has 46 of these messages.
const ENDS: &[(&[&[u8]], Bounds, Act, usize, Answer, Option<(u32, u64)>)] = &[
    // What isn't pulled at once is pulled then.
    (SIXTY, ROOMY, Act::Stop, 2, Ok(1836), Some((0, 60))),
    (SIXTY, ROOMY, Act::Stop, 1, FIRST_WRITE, None),
    (SIXTY, ROOMY, Act::Stop, 0, NOTHING_SENT, None),
    // A pull is refused.
    (SIXTY, ROOMY, Act::End, ENOUGH, UNKNOWN, None),
    // A subscription that was cut has what waits for it, and then it ends without a stop.
    (
        CUT,
        (1000, 100, 2),
        Act::Leave,
        ENOUGH,
        Ok(66),
        Some((0, 1)),
    ),
];

#[test]
fn ends(rt: HostRuntime) -> Result<(), Fail> {
    for (offered, bounds, act, writes, due, left) in ENDS {
        let row = Row {
            offered: *offered,
            act: *act,
            target: SMALL,
            most: 65_536,
            writes: *writes,
            due: *due,
            written: None,
            left: *left,
        };
        play(&rt, rt.alloc(), limits_of(*bounds), Case::Deliver(row))?;
    }
    Ok(())
}

/// Delivers, while the row's messages come now and then, until all is to stop.
pub(crate) fn deliver_meanwhile<
    E: EntryLedger + Send + Sync,
    H: RecordLedger + Send + Sync,
    R: Threads + Wait + Abort + Sync,
>(
    rt: &R,
    alloc: Global,
    shared: &SharedMediator<E, H>,
    row: Row,
) -> Result<ReturnedHandles<E, H>, AllocError> {
    let (admin, exporter) = begin(rt, alloc, shared, PASS, &[])?;
    let delivery = shared.delivery(rt, SubId(1)).expect(rt, "a delivery");
    thread::scope(thread::scope_env(), rt, |scope| {
        let offering = scope.spawn(move || offer_slowly(rt, alloc, shared, exporter, row))?;
        let mut delivered = deliver_by(rt, alloc, shared, admin, delivery, row)?;
        let (second, exporter) = offering.join(rt);
        expect_delivered(rt, shared, &mut delivered, row);
        let mut all = returned_handles(alloc, exporter, delivered.admin, Some(delivered.delivery))?;
        all.admins.push(second)?;
        Ok(all)
    })
}

/// Offers the messages one after another, each after a while; and after a while more an administrator has all stop.
fn offer_slowly<E: EntryLedger, H: RecordLedger, R: Wait + Abort>(
    rt: &R,
    alloc: Global,
    shared: &SharedMediator<E, H>,
    mut exporter: ExporterHandle<E>,
    row: Row,
) -> (AdminHandle<E>, ExporterHandle<E>) {
    for octets in row.offered {
        give_way();
        let offered = offer_all(rt, alloc, shared, &mut exporter, &[*octets]);
        offered.expect(rt, "memory");
    }
    give_way();
    let admin = shared.admin(rt).expect(rt, "an administrator");
    admin.stop(rt, shared);
    (admin, exporter)
}

pub(crate) fn give_way() {
    for _ in 0..TURNS {
        thread::yield_now();
    }
}

/// A delivery goes on where nothing is queued, and after each wait. The template has 36 octets, and each record 30.
#[test]
fn more_comes(rt: HostRuntime) -> Result<(), Fail> {
    let row = Row {
        offered: &[ONE_RECORD; 3],
        act: Act::Leave,
        target: SMALL,
        most: 65_536,
        writes: ENOUGH,
        due: Ok(126),
        written: None,
        left: Some((0, 3)),
    };
    play(
        &rt,
        rt.alloc(),
        limits_of(ROOMY),
        Case::DeliverMeanwhile(row),
    )?;
    Ok(())
}
