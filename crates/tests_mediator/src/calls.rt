//! Each call of a state, made again where memory is refused: a refused call changes nothing, so the second one answers as the
//! first would have.
ghost use Rattle.mediator_state.specs.Calls.{StandsForSome};

use bytes::Bytes;
use disclosure_audit::{AuditEntry, AuditQueue};
use event_journal::Chronicle;
use mediator_calls::{SessionId, SubId};
use mediator_state::{Fault, Receipt, State};
use std::alloc::{AllocError, Global};

/// The Export Time of what is pulled.
pub(crate) const NOW: u32 = 0x6553_f13c;

pub(crate) fn open<C: Chronicle + Drop, Q: AuditQueue + Drop>(
    state: &mut State<C, Q>,
) -> Result<SessionId, Fault>
    requires stands { StandsForSome C.tells state.old }
    ensures stands { StandsForSome C.tells state.new }
{
    match state.open() {
        Err(Fault::OutOfMemory) => state.open(),
        answer => answer,
    }
}

pub(crate) fn close<C: Chronicle + Drop, Q: AuditQueue + Drop>(
    state: &mut State<C, Q>,
    session: SessionId,
) -> Result<(), Fault>
    requires stands { StandsForSome C.tells state.old }
    ensures stands { StandsForSome C.tells state.new }
{
    match state.close(session) {
        Err(Fault::OutOfMemory) => state.close(session),
        answer => answer,
    }
}

/// Each time the octets are copied, as they would be handed in from a socket.
pub(crate) fn receive<C: Chronicle + Drop, Q: AuditQueue + Drop>(
    alloc: Global,
    state: &mut State<C, Q>,
    session: SessionId,
    number: u64,
    octets: &[u8],
) -> Result<Receipt, Fault>
    requires stands { StandsForSome C.tells state.old }
    ensures stands { StandsForSome C.tells state.new }
{
    match receive_once(state, session, number, copy(alloc, octets)?) {
        Err(Fault::OutOfMemory) => receive_once(state, session, number, copy(alloc, octets)?),
        answer => answer,
    }
}

fn receive_once<C: Chronicle + Drop, Q: AuditQueue + Drop>(
    state: &mut State<C, Q>,
    session: SessionId,
    number: u64,
    message: Bytes,
) -> Result<Receipt, Fault>
    requires stands { StandsForSome C.tells state.old }
    ensures stands { StandsForSome C.tells state.new }
{
    state.receive(session, number, message)
}

pub(crate) fn copy(alloc: Global, octets: &[u8]) -> Result<Bytes, AllocError> {
    match Bytes::copy_from_slice(alloc, octets) {
        Ok(message) => Ok(message),
        Err(_) => Bytes::copy_from_slice(alloc, octets),
    }
}

pub(crate) fn edit<C: Chronicle + Drop, Q: AuditQueue + Drop>(
    state: &mut State<C, Q>,
    text: &str,
) -> Result<u64, Fault>
    requires stands { StandsForSome C.tells state.old }
    ensures stands { StandsForSome C.tells state.new }
{
    match state.edit(text) {
        Err(Fault::OutOfMemory) => state.edit(text),
        answer => answer,
    }
}

pub(crate) fn subscribe<C: Chronicle + Drop, Q: AuditQueue + Drop>(
    state: &mut State<C, Q>,
    name: &str,
) -> Result<SubId, Fault>
    requires stands { StandsForSome C.tells state.old }
    ensures stands { StandsForSome C.tells state.new }
{
    match subscribe_once(state, name) {
        Err(Fault::OutOfMemory) => subscribe_once(state, name),
        answer => answer,
    }
}

fn subscribe_once<C: Chronicle + Drop, Q: AuditQueue + Drop>(
    state: &mut State<C, Q>,
    name: &str,
) -> Result<SubId, Fault>
    requires stands { StandsForSome C.tells state.old }
    ensures stands { StandsForSome C.tells state.new }
{
    state.subscribe(name)
}

pub(crate) fn unsubscribe<C: Chronicle + Drop, Q: AuditQueue + Drop>(
    state: &mut State<C, Q>,
    sub: SubId,
) -> Result<(), Fault>
    requires stands { StandsForSome C.tells state.old }
    ensures stands { StandsForSome C.tells state.new }
{
    match state.unsubscribe(sub) {
        Err(Fault::OutOfMemory) => state.unsubscribe(sub),
        answer => answer,
    }
}

pub(crate) fn advance<C: Chronicle + Drop, Q: AuditQueue + Drop>(
    state: &mut State<C, Q>,
    t: u64,
) -> Result<(), Fault>
    requires stands { StandsForSome C.tells state.old }
    ensures stands { StandsForSome C.tells state.new }
{
    match advance_once(state, t) {
        Err(Fault::OutOfMemory) => advance_once(state, t),
        answer => answer,
    }
}

fn advance_once<C: Chronicle + Drop, Q: AuditQueue + Drop>(
    state: &mut State<C, Q>,
    t: u64,
) -> Result<(), Fault>
    requires stands { StandsForSome C.tells state.old }
    ensures stands { StandsForSome C.tells state.new }
{
    state.advance(t)
}

pub(crate) fn pull<C: Chronicle + Drop, Q: AuditQueue + Drop>(
    state: &mut State<C, Q>,
    sub: SubId,
    target: u16,
) -> Result<Option<Bytes>, Fault>
    requires stands { StandsForSome C.tells state.old }
    ensures stands { StandsForSome C.tells state.new }
{
    match state.pull(sub, NOW, target) {
        Err(Fault::OutOfMemory) => state.pull(sub, NOW, target),
        answer => answer,
    }
}

pub(crate) fn drain_audit<C: Chronicle + Drop, Q: AuditQueue + Drop>(
    state: &mut State<C, Q>,
    most: u32,
) -> Result<Vec<AuditEntry>, AllocError>
    requires stands { StandsForSome C.tells state.old }
    ensures stands { StandsForSome C.tells state.new }
{
    match state.drain_audit(most) {
        Ok(entries) => Ok(entries),
        Err(_) => state.drain_audit(most),
    }
}
