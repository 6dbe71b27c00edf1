//! A case is played on a new shared mediator, which is closed then.
ghost use Rattle.std.specs.Prelude.{◌≡◌, ◌+◌, ◌*◌};
ghost use Rattle.shared_mediator.specs.Counted.{handed_live};

use crate::{administering, delivering, holding, serving};
use mediator_core::{Limits, Mediator};
use shared_mediator::{
    AdminHandle, Closed, DeliveryHandle, EntryLedger, ExporterHandle, Fault as CloseFault,
    RecordLedger, SharedMediator,
};
use std::alloc::{AllocError, Global};
use std::marker::Brand;
use std::process::Abort;
use std::sync::Wait;
use std::sync::ledger::Blank;
use std::thread::Threads;

/// How many handles of each kind there may be.
const HANDLES: u64 = 4;

/// What is done on a shared mediator.
#[derive(Clone, Copy)]
pub(crate) enum Case {
    /// An exporter's stream is served.
    Serve(serving::Row),
    /// A subscription is delivered.
    Deliver(delivering::Row),
    /// A subscription is delivered while messages are offered.
    DeliverMeanwhile(delivering::Row),
    /// An administrator's connection is served.
    Administer(administering::Row),
    /// A message is held up by a queue.
    HoldMessage(holding::Row),
    /// An advance is.
    HoldAdvance(holding::Row),
    /// A message is held up by one of the same piece, until a delivery that waits is woken.
    HoldPiece,
}

/// The handles that come back.
#[derive(Drop)]
pub(crate) struct ReturnedHandles<E: EntryLedger, H: RecordLedger> {
    pub(crate) exporters: Vec<ExporterHandle<E>>,
    pub(crate) deliveries: Vec<DeliveryHandle<H>>,
    pub(crate) admins: Vec<AdminHandle<E>>,
}

/// Plays a case, and closes the mediator with all handles.
pub(crate) fn play<R: Threads + Wait + Abort + Sync>(
    rt: &R,
    alloc: Global,
    limits: Limits,
    case: Case,
) -> Result<Closed, AllocError> {
    let Ok(mediator) = Mediator::new(alloc, limits) else {
        return Err(AllocError);
    };
    let handles = HANDLES;
    let (entries, handed) = (Blank::new(2 * handles + 1), Blank::new(handles + 1));
    let closed = run::<Brand, Brand, R>(rt, alloc, case, mediator, handles, entries, handed)?;
    Ok(closed.expect(rt, "closed"))
}

fn run<
    E: EntryLedger + Send + Sync,
    H: RecordLedger + Send + Sync,
    R: Threads + Wait + Abort + Sync,
>(
    rt: &R,
    alloc: Global,
    case: Case,
    mediator: Mediator,
    handles: u64,
    entries: Blank,
    handed: Blank,
) -> Result<Result<Closed, CloseFault>, AllocError>
    requires fresh { handed_live mediator ≡ 0 }
    requires before { E.before ≡ mediator.history }
    requires entries_name { entries.name ≡ E.name }
    requires entries_parts { (entries.parts ≡ E.parts) × (E.parts ≡ E.all) × (E.all ≡ 2 * handles + 1) }
    requires handed_name { handed.name ≡ H.name }
    requires handed_parts { (handed.parts ≡ H.parts) × (H.parts ≡ H.all) × (H.all ≡ handles + 1) }
{
    let shared = SharedMediator::<E, H>::new(alloc, mediator, handles, entries, handed);
    let ReturnedHandles {
        exporters,
        deliveries,
        admins,
    } = play_case(rt, alloc, &shared, case)?;
    Ok(shared.close(exporters, deliveries, admins))
}

fn play_case<
    E: EntryLedger + Send + Sync,
    H: RecordLedger + Send + Sync,
    R: Threads + Wait + Abort + Sync,
>(
    rt: &R,
    alloc: Global,
    shared: &SharedMediator<E, H>,
    case: Case,
) -> Result<ReturnedHandles<E, H>, AllocError> {
    match case {
        Case::Serve(row) => serving::serve(rt, alloc, shared, row),
        Case::Deliver(row) => delivering::deliver_row(rt, alloc, shared, row),
        Case::DeliverMeanwhile(row) => delivering::deliver_meanwhile(rt, alloc, shared, row),
        Case::Administer(row) => administering::administer(rt, alloc, shared, row),
        Case::HoldMessage(row) => holding::hold_message(rt, alloc, shared, row),
        Case::HoldAdvance(row) => holding::hold_advance(rt, alloc, shared, row),
        Case::HoldPiece => holding::hold_piece(rt, alloc, shared),
    }
}
