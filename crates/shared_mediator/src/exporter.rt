//! An exporter's handle on a shared mediator.
ghost use Rattle.std.specs.Prelude.{◌≡◌, ◌++◌, ◌∷◌, [], length, IfOk, IfErr, OnErr};
ghost use Rattle.event_journal.specs.declared.entry.Entry.TheVariants.{Message};
ghost use Rattle.shared_mediator.specs.Locked.{exporting_as};
ghost use Rattle.shared_mediator.specs.Handles.{AreSessionMessages, MayRefuseOffer};

use crate::kept::KeptEntry;
use crate::ledgers::{EntryLedger, RecordLedger};
use crate::locked::OpenedSession;
use crate::shared::SharedMediator;
use bytes::Bytes;
use event_journal::Entry;
use mediator_calls::SessionId;
use mediator_state::{Fault as MediatorFault, Receipt};
use prepared_message::{JudgedAhead, Prepared, Snapshot};
use std::alloc::Global;
use std::marker::Model;
use std::sync::Wait;
use std::sync::ledger::Share;

/// One exporter's session on a shared mediator, with the receipts of its messages. It is used with the mediator that made
/// it.
///
/// Contracts see the session's number, and the receipts: those of its messages from the first on, and its share of the
/// ledger is their number.
#[derive(Drop)]
pub struct ExporterHandle<E: EntryLedger> {
    pub(crate) session: SessionId,
    opened_at: u64,
    pub(crate) kept: Vec<KeptEntry>,
    pub(crate) share: Share<E>,
}

impl<E: EntryLedger> Model for ExporterHandle<E> {
    ghost use Rattle.shared_mediator.specs.Locked.{Exporting, exporting_as};
    ghost use Rattle.shared_mediator.specs.Handles.{IsExporting};

    ghost Value = { Exporting };

    ghost view = { λ h. exporting_as h.session.0 h.kept.items };

    ghost invariant = { λ h. IsExporting h.session.0 h.kept.items h.share.parts h.share.amount };
}

impl<E: EntryLedger> ExporterHandle<E> {
    /// A handle for the session that was `opened`, which has offered nothing. Its receipts are kept in memory from
    /// `alloc`.
    pub(crate) fn new(alloc: Global, opened: OpenedSession<E>) -> ExporterHandle<E>
        requires part { opened.share.parts ≡ 1 }
        requires none { opened.share.amount ≡ 0 }
        ensures { result ≡ exporting_as opened.session.0 [] }
    {
        let OpenedSession {
            session,
            position,
            share,
        } = opened;
        ExporterHandle {
            session,
            opened_at: position,
            kept: Vec::new(alloc),
            share,
        }
    }

    /// The number of its session.
    pub fn session(&self) -> SessionId
        ensures { result.0 ≡ self.now.session }
    {
        self.session
    }

    /// The position in the journal of the entry by which its session begins.
    pub fn opened_at(&self) -> u64 {
        self.opened_at
    }

    /// The receipts of its messages, in their order: those of the session from the first on.
    pub fn kept(&self) -> &[KeptEntry]
        ensures value { result.now ≡ self.now.kept }
        ensures messages { AreSessionMessages self.now.session 0 self.now.kept }
    {
        self.kept.as_slice()
    }

    /// Offers `message` to the mediator `shared` as the session's next one, and keeps its receipt: the message, with
    /// the position in the journal that the mediator answered. It waits for the lock by `rt`, and wakes the deliveries
    /// for which something is queued.
    ///
    /// # Errors
    /// Those of `Mediator::receive`, and [`MediatorFault::OutOfMemory`] for the receipt. Nothing has changed then.
    pub fn offer<H: RecordLedger>(
        &mut self,
        rt: &impl Wait,
        shared: &SharedMediator<E, H>,
        message: Bytes,
    ) -> Result<Receipt, MediatorFault>
        ensures kept { IfOk result (λ receipt.
            self.new.kept ≡ self.old.kept ++ record {
              position = receipt.position;
              entry = Message self.old.session (length self.old.kept) message;
            } ∷ []) }
        ensures session { self.new.session ≡ self.old.session }
        ensures unchanged { OnErr result (self.new ≡ self.old) }
        ensures refuses { IfErr result MayRefuseOffer }
    {
        let receipt = self.offer_silently(rt, shared, message)?;
        shared.wake(rt);
        Ok(receipt)
    }

    /// Offers `message` to the mediator `shared` as [`offer`](ExporterHandle::offer) does, by `rt`, and wakes no
    /// delivery: for several messages in a row, before [`SharedMediator::wake`].
    ///
    /// # Errors
    /// Those of [`offer`](ExporterHandle::offer).
    pub fn offer_silently<H: RecordLedger>(
        &mut self,
        rt: &impl Wait,
        shared: &SharedMediator<E, H>,
        message: Bytes,
    ) -> Result<Receipt, MediatorFault>
        ensures kept { IfOk result (λ receipt.
            self.new.kept ≡ self.old.kept ++ record {
              position = receipt.position;
              entry = Message self.old.session (length self.old.kept) message;
            } ∷ []) }
        ensures session { self.new.session ≡ self.old.session }
        ensures unchanged { OnErr result (self.new ≡ self.old) }
        ensures refuses { IfErr result MayRefuseOffer }
    {
        self.offer_judged_silently(rt, shared, message, None)
    }

    /// Offers `message` to the mediator `shared` as [`offer_silently`](ExporterHandle::offer_silently) does, by `rt`,
    /// with `ahead`, what was judged of it without the lock, by a snapshot ([`JudgedAhead::of`]). So a message that the
    /// session reads itself, since it brings templates, isn't judged under the lock. It changes no answer.
    ///
    /// # Errors
    /// Those of [`offer`](ExporterHandle::offer).
    pub fn offer_judged_silently<H: RecordLedger>(
        &mut self,
        rt: &impl Wait,
        shared: &SharedMediator<E, H>,
        message: Bytes,
        ahead: Option<JudgedAhead>,
    ) -> Result<Receipt, MediatorFault>
        ensures kept { IfOk result (λ receipt.
            self.new.kept ≡ self.old.kept ++ record {
              position = receipt.position;
              entry = Message self.old.session (length self.old.kept) message;
            } ∷ []) }
        ensures session { self.new.session ≡ self.old.session }
        ensures unchanged { OnErr result (self.new ≡ self.old) }
        ensures refuses { IfErr result MayRefuseOffer }
    {
        let octets = message.clone()?;
        self.kept.reserve(1)?;
        let number = self.kept.len() as u64;
        let receipt = shared
            .locked(rt)
            .receive(&mut self.share, self.session, number, message, ahead)?;
        self.kept.push_reserved(KeptEntry {
            position: receipt.position,
            entry: Entry::Message {
                session: self.session.0,
                number,
                octets,
            },
        });
        Ok(receipt)
    }

    /// The templates of its session as they stand in the mediator `shared`, by which its next messages can be prepared
    /// without the lock ([`Prepared::prepare`]). However many there are, it costs one owner more. It waits for the lock
    /// by `rt`.
    ///
    /// # Errors
    /// [`MediatorFault::UnknownSession`] where the session was closed; or [`MediatorFault::OutOfMemory`].
    pub fn snapshot<H: RecordLedger>(
        &self,
        rt: &impl Wait,
        shared: &SharedMediator<E, H>,
    ) -> Result<Snapshot, MediatorFault>
        ensures refuses { IfErr result MayRefuseOffer }
    {
        shared.locked(rt).snapshot(self.session)
    }

    /// Offers `prepared`, a message that was prepared without the lock, to the mediator `shared` as the session's next
    /// one, and keeps its receipt as [`offer`](ExporterHandle::offer) does. It waits for the lock by `rt`, and wakes
    /// the deliveries that wait.
    ///
    /// # Errors
    /// Those of `Mediator::receive_prepared`, and [`MediatorFault::OutOfMemory`] for the receipt. Nothing has changed then, and
    /// the message is handed back.
    pub fn offer_prepared<H: RecordLedger>(
        &mut self,
        rt: &impl Wait,
        shared: &SharedMediator<E, H>,
        prepared: Prepared,
    ) -> Result<Receipt, (MediatorFault, Prepared)>
        ensures kept { IfOk result (λ receipt.
            self.new.kept ≡ self.old.kept ++ record {
              position = receipt.position;
              entry = Message self.old.session (length self.old.kept) prepared.message;
            } ∷ []) }
        ensures session { self.new.session ≡ self.old.session }
        ensures unchanged { OnErr result (self.new ≡ self.old) }
        ensures handed_back { IfErr result (λ e. e.1 ≡ prepared) }
        ensures refuses { IfErr result (λ e. MayRefuseOffer e.0) }
    {
        let receipt = self.offer_prepared_silently(rt, shared, prepared)?;
        shared.wake(rt);
        Ok(receipt)
    }

    /// Offers `prepared` to the mediator `shared` as [`offer_prepared`](ExporterHandle::offer_prepared) does, by `rt`,
    /// and wakes no delivery: for several messages in a row, before [`SharedMediator::wake`].
    ///
    /// # Errors
    /// Those of [`offer_prepared`](ExporterHandle::offer_prepared).
    pub fn offer_prepared_silently<H: RecordLedger>(
        &mut self,
        rt: &impl Wait,
        shared: &SharedMediator<E, H>,
        prepared: Prepared,
    ) -> Result<Receipt, (MediatorFault, Prepared)>
        ensures kept { IfOk result (λ receipt.
            self.new.kept ≡ self.old.kept ++ record {
              position = receipt.position;
              entry = Message self.old.session (length self.old.kept) prepared.message;
            } ∷ []) }
        ensures session { self.new.session ≡ self.old.session }
        ensures unchanged { OnErr result (self.new ≡ self.old) }
        ensures handed_back { IfErr result (λ e. e.1 ≡ prepared) }
        ensures refuses { IfErr result (λ e. MayRefuseOffer e.0) }
    {
        let octets = match prepared.message().clone() {
            Ok(octets) => octets,
            Err(_) => return Err((MediatorFault::OutOfMemory, prepared)),
        };
        if self.kept.reserve(1).is_err() {
            return Err((MediatorFault::OutOfMemory, prepared));
        }
        let number = self.kept.len() as u64;
        let receipt = shared
            .locked(rt)
            .receive_prepared(&mut self.share, self.session, number, prepared)?;
        self.kept.push_reserved(KeptEntry {
            position: receipt.position,
            entry: Entry::Message {
                session: self.session.0,
                number,
                octets,
            },
        });
        Ok(receipt)
    }

    /// Closes the session in the mediator `shared`. Its receipts stay. It waits for the lock by `rt`.
    ///
    /// # Errors
    /// Those of `Mediator::close`, and the session stays open then.
    pub fn end<H: RecordLedger>(
        &self,
        rt: &impl Wait,
        shared: &SharedMediator<E, H>,
    ) -> Result<(), MediatorFault> {
        shared.locked(rt).close(self.session)
    }

    /// Its share of the ledger, which counts as many entries as it keeps receipts.
    pub(crate) fn into_share(self) -> Share<E>
        ensures part { result.parts ≡ 1 }
        ensures amount { result.amount ≡ length self.kept }
    {
        self.share
    }
}
