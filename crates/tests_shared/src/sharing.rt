//! A case is played through the handles of a new shared mediator, which is closed then.
ghost use Rattle.std.specs.Prelude.{◌≡◌, ◌+◌, ◌*◌};
ghost use Rattle.shared_mediator.specs.Counted.{handed_live};

use crate::calls::calls;
use crate::crowd::crowd;
use crate::octets::octets_of;
use crate::several::{audit, several};
use crate::waits::waits;
use bytes::Bytes;
use mediator_core::{Limits, Mediator, SubId};
use shared_mediator::{
    AdminHandle, Closed, DeliveryHandle, EntryLedger, ExporterHandle, Fault as CloseFault,
    RecordLedger, SharedMediator,
};
use std::alloc::{AllocError, Global};
use std::marker::Brand;
use std::process::Abort;
use std::sync::Wait;
use std::sync::ledger::Blank;
use std::thread::Threads;
use std::time::Clock;

/// What is done on a shared mediator.
#[derive(Clone, Copy, Debug, PartialEq, Eq)]
pub(crate) enum Case {
    /// Each call once by one thread, and its refusal.
    Calls,
    /// Each call once by one thread, and its refusal, and the exporter's handle isn't given back.
    NoExporter,
    /// The delivery's handle isn't.
    NoDelivery,
    /// The administrator's handle isn't.
    NoAdmin,
    /// Each end of a wait.
    Waits,
    /// Three sessions and three subscriptions.
    Several,
    /// An audit that is handed out by pieces.
    Audit,
    /// Eight exporters and nine deliveries.
    Crowd,
}

/// The handles that come back.
#[derive(Drop)]
pub(crate) struct ReturnedHandles<E: EntryLedger, H: RecordLedger> {
    pub(crate) exporters: Vec<ExporterHandle<E>>,
    pub(crate) deliveries: Vec<DeliveryHandle<H>>,
    pub(crate) admins: Vec<AdminHandle<E>>,
}

/// The messages of a subscription.
#[derive(Drop)]
pub(crate) struct Taken {
    pub(crate) sub: SubId,
    pub(crate) messages: Vec<Bytes>,
}

/// How the mediator was closed, and what its deliveries had taken.
#[derive(Drop)]
pub(crate) struct Ended {
    pub(crate) closed: Result<Closed, CloseFault>,
    pub(crate) taken: Vec<Taken>,
}

/// Plays a case with at most `handles` handles of each kind.
pub(crate) fn share<R: Threads + Wait + Abort + Clock + Sync>(
    rt: &R,
    alloc: Global,
    limits: Limits,
    handles: u32,
    case: Case,
) -> Result<Ended, AllocError> {
    let Ok(mediator) = Mediator::new(alloc, limits) else {
        return Err(AllocError);
    };
    let handles = handles as u64;
    let (entries, handed) = (Blank::new(2 * handles + 1), Blank::new(handles + 1));
    run::<Brand, Brand, R>(rt, alloc, case, mediator, handles, entries, handed)
}

fn run<
    E: EntryLedger + Send + Sync,
    H: RecordLedger + Send + Sync,
    R: Threads + Wait + Abort + Clock + Sync,
>(
    rt: &R,
    alloc: Global,
    case: Case,
    mediator: Mediator,
    handles: u64,
    entries: Blank,
    handed: Blank,
) -> Result<Ended, AllocError>
    requires fresh { handed_live mediator ≡ 0 }
    requires before { E.before ≡ mediator.history }
    requires entries_name { entries.name ≡ E.name }
    requires entries_parts { (entries.parts ≡ E.parts) × (E.parts ≡ E.all) × (E.all ≡ 2 * handles + 1) }
    requires handed_name { handed.name ≡ H.name }
    requires handed_parts { (handed.parts ≡ H.parts) × (H.parts ≡ H.all) × (H.all ≡ handles + 1) }
{
    let shared = SharedMediator::<E, H>::new(alloc, mediator, handles, entries, handed);
    let ReturnedHandles {
        exporters,
        deliveries,
        admins,
    } = play(rt, alloc, &shared, case)?;
    let mut taken = Vec::new(alloc);
    for delivery in &deliveries {
        taken.push(taken_of(alloc, delivery)?)?;
    }
    let closed = shared.close(exporters, deliveries, admins);
    Ok(Ended { closed, taken })
}

fn play<
    E: EntryLedger + Send + Sync,
    H: RecordLedger + Send + Sync,
    R: Threads + Wait + Abort + Clock + Sync,
>(
    rt: &R,
    alloc: Global,
    shared: &SharedMediator<E, H>,
    case: Case,
) -> Result<ReturnedHandles<E, H>, AllocError> {
    match case {
        Case::Waits => waits(rt, alloc, shared),
        Case::Several => several(rt, alloc, shared),
        Case::Audit => audit(rt, alloc, shared),
        Case::Crowd => crowd(rt, alloc, shared),
        _ => Ok(without(calls(rt, alloc, shared)?, case)),
    }
}

/// The handles but for the one that isn't given back.
fn without<E: EntryLedger, H: RecordLedger>(
    mut returned: ReturnedHandles<E, H>,
    case: Case,
) -> ReturnedHandles<E, H> {
    match case {
        Case::NoExporter => returned.exporters.clear(),
        Case::NoDelivery => returned.deliveries.clear(),
        Case::NoAdmin => returned.admins.clear(),
        _ => {}
    }
    returned
}

/// One handle in a list.
pub(crate) fn one<T: Drop>(alloc: Global, handle: T) -> Result<Vec<T>, AllocError> {
    let mut handles = Vec::new(alloc);
    handles.push(handle)?;
    Ok(handles)
}

fn taken_of<H: RecordLedger>(
    alloc: Global,
    delivery: &DeliveryHandle<H>,
) -> Result<Taken, AllocError> {
    let mut messages = Vec::new(alloc);
    for handed in delivery.kept() {
        messages.push(Bytes::from_vec(octets_of(alloc, &handed.message)?)?)?;
    }
    Ok(Taken {
        sub: delivery.sub(),
        messages,
    })
}
