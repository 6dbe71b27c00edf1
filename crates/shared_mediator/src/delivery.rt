//! A delivery's handle on a shared mediator.
ghost use Rattle.std.specs.Prelude.{◌≡◌, ◌≤◌, [], length, drop, IfOk, IfErr, OnOk, OnErr};
ghost use Rattle.std.specs.Borrow.{sem};
ghost use Rattle.shared_mediator.specs.contracts.delivery.DeliveryHandle.{the_row};
ghost use Rattle.shared_mediator.specs.Locked.{delivering_as};
ghost use Rattle.shared_mediator.specs.Handles.{MayRefusePull, KeepsSome, PullsQueued, records_kept};
ghost use Rattle.shared_mediator.specs.Lending.{Leaves, LendsHanded, LendsSome};

use crate::clock::Clock;
use crate::handed::Handed;
use crate::ledgers::{EntryLedger, RecordLedger};
use crate::locked::LockedMediator;
use crate::shared::SharedMediator;
use mediator_calls::SubId;
use mediator_state::Fault as MediatorFault;
use std::alloc::Global;
use std::marker::Model;
use std::sync::ledger::Share;
use std::sync::{MutexGuard, Wait};

/// What ended the wait of a delivery.
#[derive(Clone, Copy, Debug, PartialEq, Eq)]
pub enum Waited {
    /// Something is queued for the subscription.
    Queued,
    /// The subscription has ended.
    Gone,
    /// The subscription was cut, and nothing is queued any more.
    Cut,
    /// All is to stop, and nothing is queued for the subscription.
    Stopped,
}

/// One subscription's delivery from a shared mediator, with the messages that were pulled through it. It is used with the
/// mediator that made it.
///
/// Contracts see the subscription's number, and the messages; its share of the ledger is the number of their records.
#[derive(Drop)]
pub struct DeliveryHandle<H: RecordLedger> {
    pub(crate) sub: SubId,
    pub(crate) kept: Vec<Handed>,
    pub(crate) share: Share<H>,
}

impl<H: RecordLedger> Model for DeliveryHandle<H> {
    ghost use Rattle.shared_mediator.specs.Locked.{Delivering, delivering_as};
    ghost use Rattle.shared_mediator.specs.Handles.{IsDelivering};

    ghost Value = { Delivering };

    ghost view = { λ h. delivering_as h.sub.0 h.kept.items };

    ghost invariant = { λ h. IsDelivering h.kept.items h.share.parts h.share.amount };
}

impl<H: RecordLedger> DeliveryHandle<H> {
    /// A handle for the subscription with the number `sub` that has pulled nothing, with its `share` of the ledger,
    /// which is one part and counts nothing. Its messages are kept in a list in memory from `alloc`.
    pub(crate) fn new(alloc: Global, sub: SubId, share: Share<H>) -> DeliveryHandle<H>
        requires part { share.parts ≡ 1 }
        requires none { share.amount ≡ 0 }
        ensures { result ≡ delivering_as sub.0 [] }
    {
        DeliveryHandle {
            sub,
            kept: Vec::new(alloc),
            share,
        }
    }

    /// The number of its subscription.
    pub fn sub(&self) -> SubId
        ensures { result.0 ≡ self.now.sub }
    {
        self.sub
    }

    /// From where the memory of its list of messages is taken.
    pub fn allocator(&self) -> Global {
        *self.kept.allocator()
    }

    /// The messages that were pulled, in their order.
    pub fn kept(&self) -> &[Handed]
        ensures { result.now ≡ self.now.kept }
    {
        self.kept.as_slice()
    }

    /// Pulls the subscription's next message from the mediator `shared`, as `Mediator::pull` builds it with `now`, in
    /// seconds since 1970, and `target`, in octets; keeps it, and lends it; or answers `None` where nothing waits. It
    /// waits for the lock by `rt`.
    ///
    /// # Errors
    /// [`MediatorFault::UnknownSub`] where the subscription isn't live; [`MediatorFault::HandedFull`] where the count of records handed
    /// out has no room for all that waits; or [`MediatorFault::OutOfMemory`]. Nothing has changed then.
    pub fn pull<E: EntryLedger>(
        &mut self,
        rt: &impl Wait,
        shared: &SharedMediator<E, H>,
        now: u32,
        target: u16,
    ) -> Result<Option<&Handed>, MediatorFault>
        // What the handle keeps, beside what it lends.
        ensures* leaves { sem 𝓛 (Leaves (the_row H.row (record { all = H.all }) H.Ledger)
            self.entry (LendsHanded now target self.old result)) }
        ensures refuses { IfErr result MayRefusePull }
    {
        self.pull_next(&mut shared.locked(rt), now, target)
    }

    /// Pulls the subscription's next messages from the mediator `shared`, at most `most` of them, each as
    /// [`pull`](DeliveryHandle::pull) does with `now` and `target`, while the lock is held once; keeps them, and lends
    /// them in their order. Where nothing waits, there are none. It waits for the lock by `rt`.
    ///
    /// # Errors
    /// Those of [`pull`](DeliveryHandle::pull) for the first message, and nothing has changed then. A later error only
    /// ends the list.
    pub fn pull_some<E: EntryLedger>(
        &mut self,
        rt: &impl Wait,
        shared: &SharedMediator<E, H>,
        now: u32,
        target: u16,
        most: u64,
    ) -> Result<&[Handed], MediatorFault>
        ensures most { IfOk result (λ messages. length messages.now ≤ most) }
        // What the handle keeps, beside what it lends.
        ensures* leaves { sem 𝓛 (Leaves (the_row H.row (record { all = H.all }) H.Ledger)
            self.entry (LendsSome now target self.old result)) }
        ensures refuses { IfErr result MayRefusePull }
    {
        let before = self.kept.len();
        self.pull_most(&mut shared.locked(rt), now, target, most)?;
        Ok(&self.kept[before..])
    }

    /// Waits until something is queued for the subscription in the mediator `shared`, or nothing will be, as
    /// [`wait`](DeliveryHandle::wait) does by `rt`; and where something is, pulls the next messages, at most `most` of
    /// them, while it still holds the lock. Each is built for the Export Time that `clock` shows then, and for
    /// `target`. It keeps them. The answer is whether to go on: not where nothing will be queued, and then nothing was
    /// pulled.
    ///
    /// # Errors
    /// Those of [`pull`](DeliveryHandle::pull) for the first message, and nothing has changed then; so it is refused
    /// where the subscription isn't live, but where it ends meanwhile, nothing will be queued. A later error only ends
    /// the row.
    pub fn pull_queued<E: EntryLedger, C: Clock>(
        &mut self,
        rt: &impl Wait,
        shared: &SharedMediator<E, H>,
        clock: &C,
        target: u16,
        most: u64,
    ) -> Result<bool, MediatorFault>
        ensures pulls { IfOk result (λ goes_on.
            PullsQueued (C.shows clock.now) target most goes_on self.old self.new) }
        ensures unchanged { OnErr result (self.new ≡ self.old) }
        ensures refuses { IfErr result MayRefusePull }
    {
        let locked = shared.locked(rt);
        locked.status(self.sub)?;
        let Ok(mut locked) = self.queued(rt, shared, locked) else {
            return Ok(false);
        };
        self.pull_most(&mut locked, clock.now(), target, most)?;
        Ok(true)
    }

    /// Pulls the subscription's next messages from what lies under the lock, `locked`, at most `most` of them, each as
    /// [`pull`](DeliveryHandle::pull) does with `now` and `target`; and keeps them.
    ///
    /// # Errors
    /// Those of [`pull`](DeliveryHandle::pull) for the first message, and nothing has changed then. A later error only
    /// ends the row.
    fn pull_most<E: EntryLedger>(
        &mut self,
        locked: &mut LockedMediator<E, H>,
        now: u32,
        target: u16,
        most: u64,
    ) -> Result<(), MediatorFault>
        ensures kept { OnOk result (KeepsSome self.old.kept now target
            (drop (length self.old.kept) self.new.kept) self.new.kept) }
        ensures few { OnOk result
            (length (drop (length self.old.kept) self.new.kept) ≤ most) }
        ensures sub { self.new.sub ≡ self.old.sub }
        ensures unchanged { OnErr result (self.new ≡ self.old) }
        ensures refuses { IfErr result MayRefusePull }
    {
        let mut count = 0;
        'pulls: while count < most {
            match self.pull_next(locked, now, target) {
                Ok(Some(_)) => count += 1,
                Err(fault) if count == 0 => return Err(fault),
                Ok(None) | Err(_) => break,
            }
        }
        Ok(())
    }

    /// Pulls the subscription's next message from what lies under the lock, `locked`, as [`pull`](DeliveryHandle::pull)
    /// does with `now` and `target`.
    ///
    /// # Errors
    /// Those of [`pull`](DeliveryHandle::pull).
    fn pull_next<E: EntryLedger>(
        &mut self,
        locked: &mut LockedMediator<E, H>,
        now: u32,
        target: u16,
    ) -> Result<Option<&Handed>, MediatorFault>
        ensures* leaves { sem 𝓛 (Leaves (the_row H.row (record { all = H.all }) H.Ledger)
            self.entry (LendsHanded now target self.old result)) }
        ensures refuses { IfErr result MayRefusePull }
    {
        if self.kept.reserve(1).is_err() {
            return Err(MediatorFault::OutOfMemory);
        }
        match locked.pull(&mut self.share, self.sub, now, target)? {
            Some(handed) => {
                self.kept.push_reserved(handed);
                Ok(self.kept.last())
            }
            None => Ok(None),
        }
    }

    /// Waits until something is queued for the subscription in the mediator `shared`, or nothing will be: it has ended,
    /// it was cut, or all is to stop. `rt` is what it waits by. The answer says which: where several are so, that it
    /// has ended, else that something is queued, else that it was cut.
    pub fn wait<E: EntryLedger>(&self, rt: &impl Wait, shared: &SharedMediator<E, H>) -> Waited {
        match self.queued(rt, shared, shared.locked(rt)) {
            Ok(_) => Waited::Queued,
            Err(waited) => waited,
        }
    }

    /// Waits as [`wait`](DeliveryHandle::wait) does, while it holds the lock where it does not wait. `locked` is what
    /// lies under that, and what it answers where something is queued.
    ///
    /// # Errors
    /// What else the wait ended with.
    fn queued<'m, E: EntryLedger>(
        &self,
        rt: &impl Wait,
        shared: &'m SharedMediator<E, H>,
        mut locked: MutexGuard<'m, LockedMediator<E, H>>,
    ) -> Result<MutexGuard<'m, LockedMediator<E, H>>, Waited> {
        for _ in rt.forever() {
            match locked.waited(self.sub) {
                Some(Waited::Queued) => return Ok(locked),
                Some(waited) => return Err(waited),
                None => locked = shared.rest(rt, locked, self.sub),
            }
        }
        unreachable!()
    }

    /// Its share of the ledger, which counts as many records as stand in the messages that it keeps.
    pub(crate) fn into_share(self) -> Share<H>
        ensures part { result.parts ≡ 1 }
        ensures amount { result.amount ≡ records_kept self.kept }
    {
        self.share
    }
}
