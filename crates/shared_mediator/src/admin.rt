//! An administrator's handle on a shared mediator.
ghost use Rattle.std.specs.Prelude.{◌≡◌, ◌≤◌, [], length, vec_len, IfOk, IfErr, OnOk, OnErr};
ghost use Rattle.mediator_state.specs.declared.fault.Fault.TheVariants.{UnknownSub};
ghost use Rattle.event_journal.specs.declared.entry.Entry.TheVariants.{Edit, Subscribe, Unsubscribe, Advance};
ghost use Rattle.std.specs.List.{AllByRecursion};
ghost use Rattle.shared_mediator.specs.Handles.{HasReceipt, KeepsEntry};

use crate::kept::KeptEntry;
use crate::ledgers::{EntryLedger, RecordLedger};
use crate::shared::SharedMediator;
use disclosure_audit::AuditEntry;
use event_journal::{Entry, PolicyText};
use mediator_calls::SubId;
use mediator_state::{Fault as MediatorFault, Status};
use policy_text::{Name, is_name};
use std::alloc::{AllocError, Global};
use std::marker::Model;
use std::sync::Wait;
use std::sync::ledger::Share;

/// An administrator of a shared mediator, with the receipts of its calls. It is used with the mediator that made it.
///
/// Contracts see the receipts: its share of the ledger is their number.
#[derive(Drop)]
pub struct AdminHandle<E: EntryLedger> {
    pub(crate) alloc: Global,
    pub(crate) kept: Vec<KeptEntry>,
    pub(crate) share: Share<E>,
}

impl<E: EntryLedger> Model for AdminHandle<E> {
    ghost use Rattle.std.specs.Prelude.{List};
    ghost use Rattle.shared_mediator.specs.declared.kept.KeptEntry.{KeptEntry};
    ghost use Rattle.shared_mediator.specs.Handles.{IsAdministering};

    ghost Value = { List KeptEntry };

    ghost view = { λ h. h.kept.items };

    ghost invariant = { λ h. IsAdministering h.kept.items h.share.parts h.share.amount };
}

impl<E: EntryLedger> AdminHandle<E> {
    /// A handle that has made no call, with its `share` of the ledger, which is one part and counts nothing. Its
    /// receipts are kept in memory from `alloc`.
    pub(crate) fn new(alloc: Global, share: Share<E>) -> AdminHandle<E>
        requires part { share.parts ≡ 1 }
        requires none { share.amount ≡ 0 }
        ensures { result ≡ [] }
    {
        AdminHandle {
            alloc,
            kept: Vec::new(alloc),
            share,
        }
    }

    /// The receipts of its calls, in their order.
    pub fn kept(&self) -> &[KeptEntry]
        ensures value { result.now ≡ self.now }
        ensures entries { AllByRecursion HasReceipt self.now }
    {
        self.kept.as_slice()
    }

    /// Puts the policy that `text` spells in force in the mediator `shared`, for whose lock it waits by `rt`, and keeps
    /// the receipt. It answers its revision.
    ///
    /// # Errors
    /// Those of `Mediator::edit`, and [`MediatorFault::OutOfMemory`] for the receipt. Nothing has changed then.
    pub fn edit<H: RecordLedger>(
        &mut self,
        rt: &impl Wait,
        shared: &SharedMediator<E, H>,
        text: &str,
    ) -> Result<u64, MediatorFault>
        ensures kept { OnOk result (KeepsEntry self.old (Edit text.now) self.new) }
        ensures unchanged { OnErr result (self.new ≡ self.old) }
    {
        let copy = PolicyText::new(self.alloc, text)?;
        self.kept.reserve(1)?;
        let accepted = shared.mediator.lock(rt).edit(&mut self.share, text)?;
        self.kept.push_reserved(KeptEntry {
            position: accepted.position,
            entry: Entry::Edit { text: copy },
        });
        Ok(accepted.number)
    }

    /// Begins a subscription for a subscriber of this `name` in the mediator `shared`, for whose lock it waits by `rt`,
    /// and keeps the receipt. It answers the number of the subscription.
    ///
    /// # Errors
    /// Those of `Mediator::subscribe`, and [`MediatorFault::OutOfMemory`] for the receipt. Nothing has changed then.
    pub fn subscribe<H: RecordLedger>(
        &mut self,
        rt: &impl Wait,
        shared: &SharedMediator<E, H>,
        name: &str,
    ) -> Result<SubId, MediatorFault>
        ensures kept { IfOk result (λ sub.
            KeepsEntry self.old (Subscribe sub.0 name.now) self.new) }
        ensures unchanged { OnErr result (self.new ≡ self.old) }
    {
        if !is_name(name) {
            return Err(MediatorFault::BadName);
        }
        let copy = Name::new(self.alloc, name.as_bytes())?;
        self.kept.reserve(1)?;
        let accepted = shared.mediator.lock(rt).subscribe(&mut self.share, name)?;
        self.kept.push_reserved(KeptEntry {
            position: accepted.position,
            entry: Entry::Subscribe {
                sub: accepted.number,
                name: copy,
            },
        });
        Ok(SubId(accepted.number))
    }

    /// Ends the subscription with the number `sub` in the mediator `shared`, for whose lock it waits by `rt`, and keeps
    /// the receipt. A wait of the subscription's delivery ends.
    ///
    /// # Errors
    /// Those of `Mediator::unsubscribe`, and [`MediatorFault::OutOfMemory`] for the receipt. Nothing has changed then.
    pub fn unsubscribe<H: RecordLedger>(
        &mut self,
        rt: &impl Wait,
        shared: &SharedMediator<E, H>,
        sub: SubId,
    ) -> Result<(), MediatorFault>
        ensures kept { OnOk result (KeepsEntry self.old (Unsubscribe sub.0) self.new) }
        ensures unchanged { OnErr result (self.new ≡ self.old) }
    {
        self.kept.reserve(1)?;
        let position = shared.mediator.lock(rt).unsubscribe(&mut self.share, sub)?;
        shared.wake(rt);
        self.kept.push_reserved(KeptEntry {
            position,
            entry: Entry::Unsubscribe { sub: sub.0 },
        });
        Ok(())
    }

    /// Advances the clock of the mediator `shared` to `t`, in milliseconds since 1970, and keeps the receipt. It waits
    /// for the lock by `rt`, and wakes the deliveries that wait.
    ///
    /// # Errors
    /// Those of `Mediator::advance`, and [`MediatorFault::OutOfMemory`] for the receipt. Nothing has changed then.
    pub fn advance<H: RecordLedger>(
        &mut self,
        rt: &impl Wait,
        shared: &SharedMediator<E, H>,
        t: u64,
    ) -> Result<(), MediatorFault>
        ensures kept { OnOk result (KeepsEntry self.old (Advance t) self.new) }
        ensures unchanged { OnErr result (self.new ≡ self.old) }
    {
        self.kept.reserve(1)?;
        let position = shared.mediator.lock(rt).advance(&mut self.share, t)?;
        shared.wake(rt);
        self.kept.push_reserved(KeptEntry {
            position,
            entry: Entry::Advance { t },
        });
        Ok(())
    }

    /// Hands out the oldest `most` of the audit's entries that wait in the mediator `shared`, or all where there are
    /// fewer, in their order. It waits for the lock by `rt`.
    ///
    /// # Errors
    /// Want of memory. The entries wait on then.
    pub fn drain_audit<H: RecordLedger>(
        &self,
        rt: &impl Wait,
        shared: &SharedMediator<E, H>,
        most: u32,
    ) -> Result<Vec<AuditEntry>, AllocError>
        ensures few { IfOk result (λ out. vec_len out ≤ most) }
    {
        shared.locked(rt).drain_audit(most)
    }

    /// How the live subscription with the number `sub` stands in the mediator `shared`, for whose lock it waits by
    /// `rt`.
    ///
    /// # Errors
    /// [`MediatorFault::UnknownSub`] where no subscription with this number is live.
    pub fn status<H: RecordLedger>(
        &self,
        rt: &impl Wait,
        shared: &SharedMediator<E, H>,
        sub: SubId,
    ) -> Result<Status, MediatorFault>
        ensures { IfErr result (λ e. e ≡ UnknownSub) }
    {
        shared.mediator.lock(rt).status(sub)
    }

    /// Ends all waits of deliveries of the mediator `shared` for which nothing is queued, now and from now on. It waits
    /// for the lock by `rt`.
    pub fn stop<H: RecordLedger>(&self, rt: &impl Wait, shared: &SharedMediator<E, H>) {
        shared.mediator.lock(rt).stop();
        shared.wake(rt);
    }

    /// Its share of the ledger, which counts as many entries as it keeps receipts.
    pub(crate) fn into_share(self) -> Share<E>
        ensures part { result.parts ≡ 1 }
        ensures amount { result.amount ≡ length self }
    {
        self.share
    }
}
