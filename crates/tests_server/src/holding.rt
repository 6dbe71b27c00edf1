//! Messages and advances that a queue holds up: they wait as long as the server has patience, and only then the subscription is
//! cut.
use crate::delivering::{Stands, give_way};
use crate::octets::{FLOW_TO_80, FLOW_TO_443, NOW, ONE_AND_TWO, ONE_RECORD, TWO_MORE, TWO_RECORDS};
use crate::returned_handles::{ENOUGH, PASS, SMALL, begin, limits_of, offer_all, returned_handles};
use crate::stage::{Case, ReturnedHandles, play};
use admin_text::Topic;
use mediator_connections::{Control, Patience, Reception, deliver, serve_admin, serve_exporter};
use mediator_core::SubId;
use mediator_state::Receipt;
use octet_io::Device;
use shared_mediator::{
    AdminHandle, DeliveryHandle, EntryLedger, KeptEntry, RecordLedger, SharedMediator,
};
use std::alloc::{AllocError, Global};
use std::cell::{Cell, RefCell};
use std::io::ErrorKind::{BrokenPipe, ConnectionReset};
use std::process::Abort;
use std::sync::Wait;
use std::test::Fail;
use std::thread;
use std::thread::Threads;
use test_io::{Narrow, Sparing};

/// What comes, how long it may wait, and what comes of it.
#[derive(Clone, Copy)]
pub(crate) struct Row {
    /// The exporter's stream, or the administrator's lines.
    input: &'static [u8],
    /// How often it may wait. It's asked once more then, and refused.
    patience: u64,
    /// Before which wait all that is queued is pulled.
    pulls_at: Option<u64>,
    /// How often it waits.
    waits: u64,
    /// How many records are queued and were handed out then, and whether the subscription is cut.
    left: (u32, u64, bool),
}

/// A server that has patience for some waits, before one of which it pulls what is queued.
#[derive(Drop)]
struct Patient<'a, E: EntryLedger, H: RecordLedger, R> {
    rt: &'a R,
    shared: &'a SharedMediator<E, H>,
    delivery: RefCell<DeliveryHandle<H>>,
    row: Row,
    waits: Cell<u64>,
    /// Whether the waits were counted from 0.
    are_counted: Cell<bool>,
}

impl<'a, E: EntryLedger, H: RecordLedger, R> Patient<'a, E, H, R> {
    fn new(
        rt: &'a R,
        shared: &'a SharedMediator<E, H>,
        delivery: DeliveryHandle<H>,
        row: Row,
    ) -> Patient<'a, E, H, R> {
        Patient {
            rt,
            shared,
            delivery: RefCell::new(delivery),
            row,
            waits: Cell::new(0),
            are_counted: Cell::new(true),
        }
    }

    /// How often it waited, if that was counted from 0.
    fn waits(&self) -> Option<u64> {
        if self.are_counted.get() {
            Some(self.waits.get())
        } else {
            None
        }
    }
}

impl<E: EntryLedger, H: RecordLedger, R: Wait> Patience for Patient<'_, E, H, R> {
    fn has_any(&self) -> bool {
        self.row.patience > 0
    }

    fn wait(&self, waits: u64) -> bool {
        if waits != self.waits.get() {
            self.are_counted.set(false);
        }
        self.waits.set(self.waits.get().saturating_add(1));
        if self.row.pulls_at == Some(waits) {
            if let Ok(mut delivery) = self.delivery.try_borrow_mut() {
                let _pulled = delivery.pull_some(self.rt, self.shared, NOW, SMALL, 32);
            }
        }
        waits < self.row.patience
    }
}

impl<E: EntryLedger, H: RecordLedger, R: Wait> Control for Patient<'_, E, H, R> {
    fn stop(&self) {}

    fn accept(&self, _receipt: &KeptEntry) {}

    fn tell(&self, _topic: Topic, _receipts: &[KeptEntry]) -> Result<Vec<u8>, AllocError> {
        Err(AllocError)
    }
}

impl<E: EntryLedger, H: RecordLedger, R: Wait> Reception for Patient<'_, E, H, R> {
    fn accept(&self, _receipt: &Receipt, _octets: usize) {}
}

/// Behind a record that waits for `acme`, a stream is served.
pub(crate) fn hold_message<E: EntryLedger, H: RecordLedger, R: Threads + Wait + Abort + Sync>(
    rt: &R,
    alloc: Global,
    shared: &SharedMediator<E, H>,
    row: Row,
) -> Result<ReturnedHandles<E, H>, AllocError> {
    let (admin, mut exporter) = begin(rt, alloc, shared, PASS, &[ONE_RECORD])?;
    let delivery = shared.delivery(rt, SubId(1)).expect(rt, "a delivery");
    let patient = Patient::new(rt, shared, delivery, row);
    let served = thread::scope(thread::scope_env(), rt, |scope| {
        let mut reader = Device::new(Sparing::new(row.input, 65_536, ENOUGH, ConnectionReset));
        serve_exporter(
            rt,
            alloc,
            shared,
            &mut exporter,
            &mut reader,
            1000,
            2,
            &patient,
            scope,
        )
    });
    assert!(rt; served.is_ok(), "{served:?}");
    expect_held(rt, shared, &admin, &patient);
    returned_handles(alloc, exporter, admin, Some(patient.delivery.into_inner()))
}

/// It waited as often as the row says, and the subscription stands so.
fn expect_held<E: EntryLedger, H: RecordLedger, R: Wait + Abort>(
    rt: &R,
    shared: &SharedMediator<E, H>,
    admin: &AdminHandle<E>,
    patient: &Patient<'_, E, H, R>,
) {
    let waits = patient.waits();
    assert!(rt; waits == Some(patient.row.waits), "{waits:?}");
    let stands = admin.status(rt, shared, SubId(1)).expect(rt, "a status");
    let left = (stands.queued, stands.handed, stands.cut);
    assert!(rt; left == patient.row.left, "{left:?}");
}

/// What comes, how often it may wait, and when what waits is pulled; how often it waits, and what is left.
type Held = (&'static [u8], u64, Option<u64>, u64, (u32, u64, bool));

/// Two records come where one waits, and two may.
const MESSAGES: &[Held] = &[
    (TWO_RECORDS, 0, None, 0, (1, 0, true)),
    (TWO_RECORDS, 3, None, 4, (1, 0, true)),
    (TWO_RECORDS, 3, Some(0), 1, (2, 1, false)),
    (TWO_RECORDS, 3, Some(2), 3, (2, 1, false)),
    (TWO_RECORDS, 3, Some(3), 4, (2, 1, false)),
    // These are prepared by workers.
    (TWO_MORE, 0, None, 0, (1, 0, true)),
    (TWO_MORE, 3, None, 4, (1, 0, true)),
    (TWO_MORE, 3, Some(2), 3, (2, 1, false)),
    // There is room.
    (ONE_RECORD, 3, None, 0, (2, 0, false)),
];

#[test]
fn held_messages(rt: HostRuntime) -> Result<(), Fail> {
    for (input, patience, pulls_at, waits, left) in MESSAGES {
        let row = Row {
            input: *input,
            patience: *patience,
            pulls_at: *pulls_at,
            waits: *waits,
            left: *left,
        };
        let limits = limits_of((1000, 100, 2));
        play(&rt, rt.alloc(), limits, Case::HoldMessage(row))?;
    }
    Ok(())
}

/// One address passes, and all other flows are added up by the port that they go to.
const MIXED: &str = "policy 1\naggregate web key destinationTransportPort interval 300 grace 60\n\
rule for acme in * from 192.0.2.0/24 to * pass\nrule for acme in * from * to * element * keep\n\
rule for acme in * from * to * aggregate web\n";

/// Behind two flows that aren't closed yet and a record that waits, an administrator is served.
pub(crate) fn hold_advance<E: EntryLedger, H: RecordLedger, R: Wait + Abort>(
    rt: &R,
    alloc: Global,
    shared: &SharedMediator<E, H>,
    row: Row,
) -> Result<ReturnedHandles<E, H>, AllocError> {
    let (mut admin, exporter) = begin(rt, alloc, shared, MIXED, &[FLOW_TO_80, FLOW_TO_443])?;
    let mut other = shared.exporter(rt).expect(rt, "an exporter");
    offer_all(rt, alloc, shared, &mut other, &[ONE_RECORD])?;
    let delivery = shared.delivery(rt, SubId(1)).expect(rt, "a delivery");
    let patient = Patient::new(rt, shared, delivery, row);
    let mut reader = Device::new(Sparing::new(row.input, 65_536, ENOUGH, ConnectionReset));
    let mut writer = Device::new(Narrow::new(alloc, 1000, 65_536, ENOUGH, BrokenPipe)?);
    let served = serve_admin(
        rt,
        alloc,
        shared,
        &mut admin,
        &mut reader,
        &mut writer,
        1000,
        &patient,
    );
    assert!(rt; served == Ok(1), "{served:?}");
    expect_held(rt, shared, &admin, &patient);
    let mut all = returned_handles(alloc, exporter, admin, Some(patient.delivery.into_inner()))?;
    all.exporters.push(other)?;
    Ok(all)
}

/// Two groups close where one record waits, and two may.
const ADVANCES: &[Held] = &[
    (b"advance 1700000460000\n", 0, None, 0, (1, 0, true)),
    (b"advance 1700000460000\n", 3, None, 4, (1, 0, true)),
    (b"advance 1700000460000\n", 3, Some(0), 1, (2, 1, false)),
    (b"advance 1700000460000\n", 3, Some(3), 4, (2, 1, false)),
    // Nothing closes yet.
    (b"advance 1700000400000\n", 3, None, 0, (1, 0, false)),
];

#[test]
fn held_advances(rt: HostRuntime) -> Result<(), Fail> {
    for (input, patience, pulls_at, waits, left) in ADVANCES {
        let row = Row {
            input: *input,
            patience: *patience,
            pulls_at: *pulls_at,
            waits: *waits,
            left: *left,
        };
        let limits = limits_of((1000, 100, 2));
        play(&rt, rt.alloc(), limits, Case::HoldAdvance(row))?;
    }
    Ok(())
}

/// How often a message may wait that a delivery makes room for.
const LONG: u64 = 1_000_000;

/// A server that gives way while a message waits.
#[derive(Drop)]
struct Yielding;

impl Patience for Yielding {
    fn has_any(&self) -> bool {
        true
    }

    fn wait(&self, waits: u64) -> bool {
        thread::yield_now();
        waits < LONG
    }
}

impl Reception for Yielding {
    fn accept(&self, _receipt: &Receipt, _octets: usize) {}
}

/// Where two records may wait, three come in two messages that one read brings, while a delivery waits in a thread of its own.
pub(crate) fn hold_piece<
    E: EntryLedger + Send + Sync,
    H: RecordLedger + Send + Sync,
    R: Threads + Wait + Abort + Sync,
>(
    rt: &R,
    alloc: Global,
    shared: &SharedMediator<E, H>,
) -> Result<ReturnedHandles<E, H>, AllocError> {
    let (admin, mut exporter) = begin(rt, alloc, shared, PASS, &[])?;
    let delivery = shared.delivery(rt, SubId(1)).expect(rt, "a delivery");
    let second = shared.admin(rt).expect(rt, "an administrator");
    thread::scope(thread::scope_env(), rt, |scope| {
        let delivering = scope.spawn(move || deliver_all(rt, alloc, shared, delivery, second))?;
        give_way();
        let mut reader = Device::new(Sparing::new(ONE_AND_TWO, 65_536, ENOUGH, ConnectionReset));
        let served = serve_exporter(
            rt,
            alloc,
            shared,
            &mut exporter,
            &mut reader,
            1000,
            2,
            &Yielding,
            scope,
        );
        assert!(rt; served.is_ok(), "{served:?}");
        admin.stop(rt, shared);
        let (delivery, second) = delivering.join(rt);
        let stands = admin.status(rt, shared, SubId(1)).expect(rt, "a status");
        let left = (stands.queued, stands.handed, stands.cut);
        assert!(rt; left == (0, 3, false), "{left:?}");
        let mut all = returned_handles(alloc, exporter, admin, Some(delivery))?;
        all.admins.push(second)?;
        Ok(all)
    })
}

/// Delivers until all is to stop, and gives the handles back.
fn deliver_all<E: EntryLedger, H: RecordLedger, R: Wait + Abort>(
    rt: &R,
    alloc: Global,
    shared: &SharedMediator<E, H>,
    mut delivery: DeliveryHandle<H>,
    mut admin: AdminHandle<E>,
) -> (DeliveryHandle<H>, AdminHandle<E>) {
    let writer = Narrow::new(alloc, 1000, 65_536, ENOUGH, BrokenPipe).expect(rt, "memory");
    let mut writer = Device::new(writer);
    let sent = deliver(
        rt,
        shared,
        &mut delivery,
        &mut admin,
        &mut writer,
        SMALL,
        &Stands(NOW),
    );
    assert!(rt; sent.is_ok(), "{sent:?}");
    (delivery, admin)
}

/// The first message was offered without a word to the delivery, which is woken before the second one waits.
#[test]
fn held_piece(rt: HostRuntime) -> Result<(), Fail> {
    let limits = limits_of((1000, 100, 2));
    play(&rt, rt.alloc(), limits, Case::HoldPiece)?;
    Ok(())
}
