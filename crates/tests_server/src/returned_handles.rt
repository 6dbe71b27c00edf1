//! Handles, and messages that are offered before a case.
use crate::stage::ReturnedHandles;
use bytes::Bytes;
use mediator_core::{Limits, SubId};
use shared_mediator::{
    AdminHandle, DeliveryHandle, EntryLedger, ExporterHandle, RecordLedger, SharedMediator,
};
use std::alloc::{AllocError, Global};
use std::process::Abort;
use std::sync::Wait;

pub(crate) const PASS: &str =
    "policy 1\nrule for * in * from * to * pass\nrule for * in * from * to * element * keep\n";

/// Every record is withheld.
pub(crate) const NOTHING: &str = "policy 1\n";

/// For a target so small each part is a message of its own.
pub(crate) const SMALL: u16 = 16;

/// More calls of a device than any case here makes.
pub(crate) const ENOUGH: usize = 10_000;

/// How many entries the journal may have, the audit, and a queue how many records.
pub(crate) type Bounds = (u64, u32, u32);

/// None of them is reached.
pub(crate) const ROOMY: Bounds = (1000, 100, 100);

pub(crate) fn limits_of((entries, audit, queue): Bounds) -> Limits {
    Limits {
        queue,
        shapes: 100,
        audit,
        entries,
        octets: 1_000_000,
    }
}

/// An administrator who has put this policy in force and begun the subscription of `acme`, and an exporter who has offered these
/// messages.
pub(crate) fn begin<E: EntryLedger, H: RecordLedger, R: Wait + Abort>(
    rt: &R,
    alloc: Global,
    shared: &SharedMediator<E, H>,
    policy: &str,
    offered: &[&[u8]],
) -> Result<(AdminHandle<E>, ExporterHandle<E>), AllocError> {
    let mut admin = shared.admin(rt).expect(rt, "an administrator");
    admin.edit(rt, shared, policy).expect(rt, "an edit");
    let sub = admin.subscribe(rt, shared, "acme");
    assert!(rt; sub == Ok(SubId(1)));
    let mut exporter = shared.exporter(rt).expect(rt, "an exporter");
    offer_all(rt, alloc, shared, &mut exporter, offered)?;
    Ok((admin, exporter))
}

/// Offers messages, each of which is accepted.
pub(crate) fn offer_all<E: EntryLedger, H: RecordLedger, R: Wait + Abort>(
    rt: &R,
    alloc: Global,
    shared: &SharedMediator<E, H>,
    exporter: &mut ExporterHandle<E>,
    offered: &[&[u8]],
) -> Result<(), AllocError> {
    for octets in offered {
        let message = Bytes::copy_from_slice(alloc, octets)?;
        exporter.offer(rt, shared, message).expect(rt, "a receipt");
    }
    Ok(())
}

/// All handles: an exporter's, an administrator's, and a delivery's, where there is one.
pub(crate) fn returned_handles<E: EntryLedger, H: RecordLedger>(
    alloc: Global,
    exporter: ExporterHandle<E>,
    admin: AdminHandle<E>,
    delivery: Option<DeliveryHandle<H>>,
) -> Result<ReturnedHandles<E, H>, AllocError> {
    Ok(ReturnedHandles {
        exporters: listed(alloc, Some(exporter))?,
        deliveries: listed(alloc, delivery)?,
        admins: listed(alloc, Some(admin))?,
    })
}

/// A list of one, or of none.
fn listed<T: Drop>(alloc: Global, handle: Option<T>) -> Result<Vec<T>, AllocError> {
    let mut handles = Vec::new(alloc);
    if let Some(handle) = handle {
        handles.push(handle)?;
    }
    Ok(handles)
}
