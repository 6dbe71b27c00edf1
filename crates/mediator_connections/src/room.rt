//! Has a call wait for room in the queues, before it takes the lock.

use crate::control::Patience;
use mediator_tables::Share;
use shared_mediator::{EntryLedger, RecordLedger, SharedMediator};
use std::sync::Wait;

/// Waits while a queue has no room for one of these shares, as long as the server has patience with their call, which has waited
/// `first` times before; and answers how often it has waited then. Deliveries that wait themselves are woken before the first time,
/// since what is queued may have been offered silently. No lock is held meanwhile.
pub(crate) fn wait_for_room<E: EntryLedger, H: RecordLedger, P: Patience>(
    rt: &impl Wait,
    shared: &SharedMediator<E, H>,
    shares: &[Share],
    patience: &P,
    first: u64,
) -> u64 {
    if !patience.has_any() {
        return first;
    }
    for waits in first..u64::MAX {
        if !shared.is_held_up(rt, shares) {
            return waits;
        }
        if waits == 0 {
            shared.wake(rt);
        }
        if !patience.wait(waits) {
            return waits;
        }
    }
    u64::MAX
}

/// Waits while a queue has no room for what an advance of the clock to `t`, in milliseconds since 1970, would close, as long as
/// the server has patience with that call. Deliveries that wait themselves are woken before the first time. No lock is held
/// meanwhile.
pub(crate) fn wait_for_advance<E: EntryLedger, H: RecordLedger, P: Patience>(
    rt: &impl Wait,
    shared: &SharedMediator<E, H>,
    t: u64,
    patience: &P,
) {
    if !patience.has_any() {
        return;
    }
    for waits in 0..u64::MAX {
        if !shared.is_advance_held_up(rt, t) {
            return;
        }
        if waits == 0 {
            shared.wake(rt);
        }
        if !patience.wait(waits) {
            return;
        }
    }
}
