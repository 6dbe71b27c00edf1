//! A mediator that threads share by one lock.
ghost use Rattle.std.specs.Prelude.{◌≡◌, ◌+◌, ◌*◌, [], IfOk, IfErr};
ghost use Rattle.mediator_state.specs.declared.fault.Fault.TheVariants.{UnknownSub};
ghost use Rattle.shared_mediator.specs.Counted.{handed_live};

use crate::admin::AdminHandle;
use crate::delivery::DeliveryHandle;
use crate::exporter::ExporterHandle;
use crate::fill::Fill;
use crate::ledgers::{EntryLedger, RecordLedger};
use crate::locked::LockedMediator;
use crate::waits::{PLACES, Waits};
use mediator_calls::{Mediator, SubId};
use mediator_state::{Fault as MediatorFault, Status};
use mediator_tables::Share;
use std::alloc::Global;
use std::sync::ledger::Blank;
use std::sync::{Mutex, MutexGuard, Wait};
use std::thread::yield_now;

/// How often a thread looks for the lock before it sleeps.
const LOOKS: u32 = 200;

/// A mediator under a lock. Threads call it through handles, each of which is one thread's own: exporters offer messages,
/// deliveries pull them, administrators do the rest.
///
/// # Examples
///
/// The octets of `message` bring one record. All handles are made, used and given back by one thread here; each may go
/// to a thread of its own. `E` and `H` name the two ledgers. A function that is generic over them is called with
/// `std::marker::Brand` for both. It is handed `entries`, which is `Blank::new(2 * handles + 1)`, and `handed`, which is
/// `Blank::new(handles + 1)`.
///
/// ```rust
/// use shared_mediator::SharedMediator;
///
/// let shared = SharedMediator::<E, H>::new(alloc, mediator, handles, entries, handed);
/// let policy =
///     "policy 1\nrule for * in * from * to * pass\nrule for * in * from * to * element * keep\n";
/// let mut admin = shared.admin(rt).expect(rt, "an administrator");
/// admin.edit(rt, &shared, policy).expect(rt, "an edit");
/// let acme = admin.subscribe(rt, &shared, "acme").expect(rt, "acme");
/// let mut exporter = shared.exporter(rt).expect(rt, "an exporter");
/// exporter.offer(rt, &shared, message).expect(rt, "a receipt");
/// let mut delivery = shared.delivery(rt, acme).expect(rt, "a delivery");
/// let pulled = delivery.pull(rt, &shared, 1_700_000_060, 1400);
/// assert!(rt; matches!(pulled, Ok(Some(handed)) if handed.records == 1));
/// // All handles come back.
/// let exporters = vec![in alloc; exporter].expect(rt, "memory");
/// let deliveries = vec![in alloc; delivery].expect(rt, "memory");
/// let admins = vec![in alloc; admin].expect(rt, "memory");
/// let ended = shared.close(exporters, deliveries, admins);
/// assert!(rt; matches!(&ended, Ok(closed) if closed.accepted == 1));
/// assert!(rt; matches!(&ended, Ok(closed) if closed.handed == 1));
/// ```
#[derive(Drop)]
pub struct SharedMediator<E: EntryLedger, H: RecordLedger> {
    pub(crate) alloc: Global,
    pub(crate) mediator: Mutex<LockedMediator<E, H>>,
    /// Where deliveries wait until something was queued, a subscription ended or was cut, or all is to stop.
    waits: Waits,
}

impl<E: EntryLedger, H: RecordLedger> SharedMediator<E, H> {
    /// Puts `mediator` under a lock, for at most `handles` handles of each kind. No live subscription of it was handed
    /// a record yet. `entries` and `handed` are the blank ledgers of what its handles' calls add: the first has 2 *
    /// `handles` + 1 parts, and the second `handles` + 1. What the handles keep is in memory from `alloc`.
    pub fn new(
        alloc: Global,
        mediator: Mediator,
        handles: u64,
        entries: Blank,
        handed: Blank,
    ) -> SharedMediator<E, H>
        requires fresh { handed_live mediator ≡ 0 }
        requires before { E.before ≡ mediator.history }
        // The ledgers are blank, with a part for each handle that may come and one for the locked mediator.
        requires entries_name { entries.name ≡ E.name }
        requires entries_parts { (entries.parts ≡ E.parts) × (E.parts ≡ E.all)
            × (E.all ≡ 2 * handles + 1) }
        requires handed_name { handed.name ≡ H.name }
        requires handed_parts { (handed.parts ≡ H.parts) × (H.parts ≡ H.all)
            × (H.all ≡ handles + 1) }
    {
        SharedMediator {
            alloc,
            mediator: Mutex::new(LockedMediator::new(mediator, handles, entries, handed)),
            waits: Waits::new(),
        }
    }

    /// Opens a session of an exporter, and answers its handle. It waits for the lock by `rt`.
    ///
    /// # Errors
    /// [`MediatorFault::NoHandle`] where as many exporters' handles were made as there may be; or those of `Mediator::open`.
    pub fn exporter(&self, rt: &impl Wait) -> Result<ExporterHandle<E>, MediatorFault>
        ensures { IfOk result (λ handle. handle.kept ≡ []) }
    {
        let opened = self.mediator.lock(rt).exporter()?;
        Ok(ExporterHandle::new(self.alloc, opened))
    }

    /// A handle for the delivery to the live subscription with the number `sub`. It waits for the lock by `rt`.
    ///
    /// # Errors
    /// [`MediatorFault::UnknownSub`] where no subscription with this number is live; or [`MediatorFault::NoHandle`] where as many
    /// deliveries' handles were made as there may be.
    pub fn delivery(&self, rt: &impl Wait, sub: SubId) -> Result<DeliveryHandle<H>, MediatorFault>
        ensures sub { IfOk result (λ handle. handle.sub ≡ sub.0) }
        ensures none { IfOk result (λ handle. handle.kept ≡ []) }
    {
        let share = self.mediator.lock(rt).delivery(sub)?;
        Ok(DeliveryHandle::new(self.alloc, sub, share))
    }

    /// Takes the lock. Where it is held, it is looked for again for a while, as others run, before this thread sleeps
    /// by `rt`: it is held for microseconds, and to wake a thread takes longer.
    pub(crate) fn locked(&self, rt: &impl Wait) -> MutexGuard<'_, LockedMediator<E, H>> {
        for _ in 0..LOOKS {
            if let Some(locked) = self.mediator.try_lock() {
                return locked;
            }
            yield_now();
        }
        self.mediator.lock(rt)
    }

    /// Wakes the deliveries that wait and need wait no more: something is queued for them, or nothing will be. Where none
    /// waits, it does nothing. Else it waits for the lock by `rt`, and holds it no longer when it wakes them.
    pub fn wake(&self, rt: &impl Wait) {
        if self.waits.are_empty() {
            return;
        }
        let due = self.due(rt);
        for place in 0..PLACES {
            if due[place] {
                self.waits.signal(place).notify_all();
            }
        }
        self.waits.crowd().notify_all();
    }

    /// At which places the deliveries need wait no more.
    fn due(&self, rt: &impl Wait) -> [bool; PLACES] {
        let locked = self.locked(rt);
        let mut due = [false; PLACES];
        for place in 0..PLACES {
            if let Some(sub) = self.waits.sub_at(place) {
                due[place] = locked.waited(sub).is_some();
            }
        }
        due
    }

    /// Lets go of the lock, which is `locked`, until the delivery of the subscription with the number `sub` is woken, or
    /// for a moment; and takes it again. It waits by `rt`.
    pub(crate) fn rest<'m>(
        &'m self,
        rt: &impl Wait,
        locked: MutexGuard<'m, LockedMediator<E, H>>,
        sub: SubId,
    ) -> MutexGuard<'m, LockedMediator<E, H>> {
        match self.waits.take(sub) {
            Some(place) => {
                let locked = self.waits.signal(place).wait(rt, locked);
                self.waits.leave(place);
                locked
            }
            None => {
                self.waits.join_crowd();
                let locked = self.waits.crowd().wait(rt, locked);
                self.waits.leave_crowd();
                locked
            }
        }
    }

    /// Whether one of `shares`, which a message would give, has no room in its subscription's queue until some of what
    /// waits is pulled, and has room then: so the message cuts a subscription now, and may not cut it later. It waits
    /// for the lock by `rt`.
    pub fn is_held_up(&self, rt: &impl Wait, shares: &[Share]) -> bool {
        self.locked(rt).is_held_up(shares)
    }

    /// Whether what an advance of the clock to `t`, in milliseconds since 1970, would close for a subscription has no
    /// room in its queue until some of what waits is pulled, and has room then. It is false where there is no memory to
    /// find that out. It waits for the lock by `rt`.
    pub fn is_advance_held_up(&self, rt: &impl Wait, t: u64) -> bool {
        self.locked(rt).is_advance_held_up(t)
    }

    /// How the live subscription with the number `sub` stands. It waits for the lock by `rt`.
    ///
    /// # Errors
    /// [`MediatorFault::UnknownSub`] where no subscription with this number is live.
    pub fn status(&self, rt: &impl Wait, sub: SubId) -> Result<Status, MediatorFault>
        ensures { IfErr result (λ e. e ≡ UnknownSub) }
    {
        self.locked(rt).status(sub)
    }

    /// How full the journal and the audit are now. It waits for the lock by `rt`.
    pub fn fill(&self, rt: &impl Wait) -> Fill {
        self.locked(rt).fill()
    }

    /// Whether a call of [`exporter`](SharedMediator::exporter), or one through a handle, was refused since the journal
    /// is full. It waits for the lock by `rt`.
    pub fn full(&self, rt: &impl Wait) -> bool {
        self.locked(rt).is_full()
    }

    /// A handle for an administrator. It waits for the lock by `rt`.
    ///
    /// # Errors
    /// [`MediatorFault::NoHandle`] where as many administrators' handles were made as there may be.
    pub fn admin(&self, rt: &impl Wait) -> Result<AdminHandle<E>, MediatorFault>
        ensures { IfOk result (λ handle. handle ≡ []) }
    {
        let share = self.mediator.lock(rt).admin()?;
        Ok(AdminHandle::new(self.alloc, share))
    }
}
