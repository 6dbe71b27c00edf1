//! Each call of a mediator, and preparing, made again where memory is refused: a refused call changes nothing, so the second one
//! answers as the first would have.
use crate::calls::{NOW, copy};
use bytes::Bytes;
use disclosure_audit::AuditEntry;
use mediator_core::{Fault, Limits, Mediator, Receipt, SessionId, SubId};
use prepared_message::{Fault as PrepareFault, Prepared, Snapshot};
use std::alloc::{AllocError, Global};

pub(crate) fn begin(alloc: Global, limits: Limits) -> Result<Mediator, Fault> {
    match Mediator::new(alloc, limits) {
        Err(Fault::OutOfMemory) => Mediator::new(alloc, limits),
        answer => answer,
    }
}

pub(crate) fn open(mediator: &mut Mediator) -> Result<SessionId, Fault> {
    match mediator.open() {
        Err(Fault::OutOfMemory) => mediator.open(),
        answer => answer,
    }
}

pub(crate) fn receive(
    alloc: Global,
    mediator: &mut Mediator,
    session: SessionId,
    number: u64,
    octets: &[u8],
) -> Result<Receipt, Fault> {
    match mediator.receive(session, number, copy(alloc, octets)?) {
        Err(Fault::OutOfMemory) => mediator.receive(session, number, copy(alloc, octets)?),
        answer => answer,
    }
}

pub(crate) fn snapshot(mediator: &mut Mediator, session: SessionId) -> Result<Snapshot, Fault> {
    match mediator.snapshot(session) {
        Err(Fault::OutOfMemory) => mediator.snapshot(session),
        answer => answer,
    }
}

fn prepare_once(
    alloc: Global,
    snapshot: &Snapshot,
    octets: &[u8],
) -> Result<Prepared, PrepareFault> {
    Prepared::prepare(snapshot, copy(alloc, octets)?)
}

pub(crate) fn prepare(
    alloc: Global,
    snapshot: &Snapshot,
    octets: &[u8],
) -> Result<Prepared, PrepareFault> {
    match prepare_once(alloc, snapshot, octets) {
        Err(PrepareFault::OutOfMemory) => prepare_once(alloc, snapshot, octets),
        answer => answer,
    }
}

pub(crate) fn receive_prepared(
    mediator: &mut Mediator,
    session: SessionId,
    number: u64,
    prepared: Prepared,
) -> Result<Receipt, (Fault, Prepared)> {
    match mediator.receive_prepared(session, number, prepared) {
        Ok(receipt) => Ok(receipt),
        Err((Fault::OutOfMemory, back)) => mediator.receive_prepared(session, number, back),
        Err((fault, back)) => Err((fault, back)),
    }
}

pub(crate) fn edit(mediator: &mut Mediator, text: &str) -> Result<u64, Fault> {
    match mediator.edit(text) {
        Err(Fault::OutOfMemory) => mediator.edit(text),
        answer => answer,
    }
}

pub(crate) fn subscribe(mediator: &mut Mediator, name: &str) -> Result<SubId, Fault> {
    match mediator.subscribe(name) {
        Err(Fault::OutOfMemory) => mediator.subscribe(name),
        answer => answer,
    }
}

pub(crate) fn unsubscribe(mediator: &mut Mediator, sub: SubId) -> Result<(), Fault> {
    match mediator.unsubscribe(sub) {
        Err(Fault::OutOfMemory) => mediator.unsubscribe(sub),
        answer => answer,
    }
}

pub(crate) fn advance(mediator: &mut Mediator, t: u64) -> Result<(), Fault> {
    match mediator.advance(t) {
        Err(Fault::OutOfMemory) => mediator.advance(t),
        answer => answer,
    }
}

pub(crate) fn pull(mediator: &mut Mediator, sub: SubId) -> Result<Option<Bytes>, Fault> {
    match mediator.pull(sub, NOW, 1400) {
        Err(Fault::OutOfMemory) => mediator.pull(sub, NOW, 1400),
        answer => answer,
    }
}

pub(crate) fn drain_audit(mediator: &mut Mediator) -> Result<Vec<AuditEntry>, AllocError> {
    match mediator.drain_audit(10_000) {
        Ok(entries) => Ok(entries),
        Err(_) => mediator.drain_audit(10_000),
    }
}
