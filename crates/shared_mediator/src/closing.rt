//! The end of sharing: all handles come back, and their receipts are held against the journal.
ghost use Rattle.std.specs.Prelude.{◌≡◌, ◌≢◌, ◌+◌, ◌<◌, ◌^◌, [], ◌++◌, List, map, length, IfOk, IfErr, OnOk};
ghost use Rattle.std.specs.List.{AllByRecursion};
ghost use Rattle.shared_mediator.specs.declared.kept.KeptEntry.{KeptEntry};
ghost use Rattle.shared_mediator.specs.Marking.{Marked, AreMarked};
ghost use Rattle.shared_mediator.specs.Counted.{receipts_since};
ghost use Rattle.shared_mediator.specs.declared.fault.Fault.TheVariants.{MissingHandle};
ghost use Rattle.shared_mediator.specs.Handles.{HasReceipt};
ghost use Rattle.shared_mediator.specs.Closing.{KeepsMessages, receipts_of, messages_accepted, entries_kept, records_handed, HasReceipts, AreAll, NamesReceipt, NamesReceiptBehind, RefusesClosing};

use crate::admin::AdminHandle;
use crate::counted::CountedMediator;
use crate::delivery::DeliveryHandle;
use crate::exporter::ExporterHandle;
use crate::fault::Fault;
use crate::ledgers::{EntryLedger, RecordLedger};
use crate::locked::LockedMediator;
use crate::marks::Marks;
use crate::shared::SharedMediator;
use event_journal::Journal;
use mediator_calls::Mediator;
use std::alloc::Global;
use std::sync::ledger::Share;

/// What is given back when sharing ends.
#[derive(Drop)]
pub struct Closed {
    /// The mediator, which lies under no lock any more.
    pub mediator: Mediator,
    /// How many messages the exporters' handles have receipts of.
    pub accepted: u64,
    /// How many records the deliveries' handles were handed.
    pub handed: u64,
    /// Whether a call was refused since the journal is full.
    pub full: bool,
}

impl<E: EntryLedger, H: RecordLedger> SharedMediator<E, H> {
    /// Gives the mediator back. All handles that were made come back: `exporters`, `deliveries` and `admins`. All of
    /// their receipts stand in its journal: each message under its session, and each other call, at its position, none
    /// from before the lock, no two at one position, each handle's own in their order. So each entry since then that is
    /// to have a receipt has one.
    ///
    /// # Errors
    /// - [`Fault::MissingHandle`]: a handle that was made is not among these.
    /// - [`Fault::Mismatch`]: a receipt doesn't stand in the journal so. The first such is named by its handle and
    ///   its position.
    /// - [`Fault::OutOfMemory`].
    ///
    /// Nothing is given back then.
    pub fn close(
        self,
        exporters: Vec<ExporterHandle<E>>,
        deliveries: Vec<DeliveryHandle<H>>,
        admins: Vec<AdminHandle<E>>,
    ) -> Result<Closed, Fault>
        requires all { (E.parts ≡ E.all) × (H.parts ≡ H.all) }
        // Each receipt stands in the journal, and each entry that is to have one has it.
        ensures receipts { IfOk result (λ closed. HasReceipts E.before closed.mediator.history
            (receipts_of exporters.items admins.items)) }
        ensures messages { OnOk result (AllByRecursion KeepsMessages exporters.items) }
        // The counts are the sums of what the handles keep.
        ensures accepted { IfOk result (λ closed.
            closed.accepted ≡ messages_accepted exporters.items) }
        ensures handed { IfOk result (λ closed. closed.handed ≡ records_handed deliveries.items) }
        // The first receipt that doesn't stand there is named.
        ensures names { length exporters.items + length admins.items < 2 ^ 64 → IfErr result (λ e.
            NamesReceiptBehind E.before e (receipts_of exporters.items admins.items)) }
    {
        self.mediator
            .into_inner()
            .close_all(self.alloc, exporters, deliveries, admins)
    }
}

impl<E: EntryLedger, H: RecordLedger> LockedMediator<E, H> {
    /// Gives the mediator back, as [`SharedMediator::close`] does, once nothing lies under the lock any more. Marks of
    /// receipts are in memory from `alloc`.
    ///
    /// # Errors
    /// Those of [`SharedMediator::close`].
    pub(crate) fn close_all(
        self,
        alloc: Global,
        exporters: Vec<ExporterHandle<E>>,
        deliveries: Vec<DeliveryHandle<H>>,
        admins: Vec<AdminHandle<E>>,
    ) -> Result<Closed, Fault>
        requires all { (E.parts ≡ E.all) × (H.parts ≡ H.all) }
        // Each receipt stands in the journal, and each entry that is to have one has it.
        ensures mediator { IfOk result (λ closed. closed.mediator ≡ self.counted.core) }
        ensures receipts { IfOk result (λ closed. HasReceipts E.before closed.mediator.history
            (receipts_of exporters.items admins.items)) }
        ensures messages { OnOk result (AllByRecursion KeepsMessages exporters.items) }
        // The counts are the sums of what the handles keep.
        ensures accepted { IfOk result (λ closed.
            closed.accepted ≡ messages_accepted exporters.items) }
        ensures handed { IfOk result (λ closed. closed.handed ≡ records_handed deliveries.items) }
        ensures full { IfOk result (λ closed. closed.full ≡ self.full) }
        // The totals of the books are what the handles keep, and no handle is missing.
        ensures book { OnOk result (entries_kept exporters.items admins.items
            ≡ receipts_since self.counted) }
        ensures all { OnOk result (AreAll self (length exporters.items) (length deliveries.items)
            (length admins.items)) }
        // The first receipt that doesn't stand there is named.
        ensures names { length exporters.items + length admins.items < 2 ^ 64 → IfErr result (λ e.
            NamesReceiptBehind E.before e (receipts_of exporters.items admins.items)) }
        ensures err { IfErr result (λ e. RefusesClosing e self (length exporters.items)
            (length deliveries.items) (length admins.items)) }
    {
        if exporters.len() as u64 != self.exporters
            || deliveries.len() as u64 != self.deliveries
            || admins.len() as u64 != self.admins
        {
            return Err(Fault::MissingHandle);
        }
        let accepted = check(
            alloc,
            &self.counted,
            exporters.as_slice(),
            admins.as_slice(),
        )?;
        let LockedMediator {
            counted,
            mut entries,
            mut handed,
            entries_left,
            handed_left,
            full,
            ..
        } = self;
        let mut all_entries = joined_entries(entries_left, exporters, admins);
        entries.audit(&mut all_entries);
        let mut all_handed = joined_records(handed_left, deliveries);
        handed.audit(&mut all_handed);
        let handed = counted.handed();
        Ok(Closed {
            mediator: counted.into_mediator(),
            accepted,
            handed,
            full,
        })
    }
}

/// Holds all receipts of `exporters` and `admins` against the journal of `counted`, and answers how many messages were
/// accepted. Marks are in memory from `alloc`.
///
/// # Errors
/// `Mismatch` with the first receipt that doesn't stand in the journal; or want of memory.
fn check<E: EntryLedger>(
    alloc: Global,
    counted: &CountedMediator,
    exporters: &[ExporterHandle<E>],
    admins: &[AdminHandle<E>],
) -> Result<u64, Fault>
    // Each receipt stands in the journal.
    ensures marked { OnOk result ((marks : Marked) × (marks.from ≡ counted.now.from)
        × AreMarked marks counted.now.core.history (receipts_of exporters.now admins.now)) }
    ensures messages { OnOk result (AllByRecursion KeepsMessages exporters.now) }
    ensures entries { OnOk result (AllByRecursion (AllByRecursion HasReceipt) admins.now) }
    // The count is the sum of what exporters keep.
    ensures accepted { IfOk result (λ accepted. accepted ≡ messages_accepted exporters.now) }
    // The first receipt that doesn't stand there is named.
    ensures names { length exporters.now + length admins.now < 2 ^ 64
        → IfErr result (λ e. NamesReceipt e counted.now.from counted.now.core.history
        (receipts_of exporters.now admins.now)) }
    ensures err { IfErr result (λ e. e ≢ MissingHandle) }
{
    let journal = counted.mediator().journal();
    let mut marks = Marks::new(alloc, journal, counted.from())?;
    mark_exporters(&mut marks, journal, exporters)?;
    let accepted = marks.count();
    mark_admins(&mut marks, journal, exporters.len() as u64, admins)?;
    Ok(accepted)
}

/// Sets those of `marks` that are of the receipts of `exporters`, which are held against `journal`. Their handles count
/// from 0.
///
/// # Errors
/// `Mismatch` with the first receipt that doesn't stand in the journal.
#[tactic(auto, using(crate::proofs::HandleLaws::messages_more))]
fn mark_exporters<E: EntryLedger>(
    marks: &mut Marks,
    journal: &Journal,
    exporters: &[ExporterHandle<E>],
) -> Result<(), Fault>
    // Each receipt stands in the journal, beside those that were marked before.
    ensures from { marks.new.from ≡ marks.old.from }
    ensures ok { OnOk result ((handles : List (List KeptEntry))
        → AreMarked marks.old journal.now.entries handles
        → AreMarked marks.new journal.now.entries (handles ++ map (λ h. h.kept) exporters.now)) }
    ensures messages { OnOk result (AllByRecursion KeepsMessages exporters.now) }
    // The first receipt that doesn't stand there is named.
    ensures names { IfErr result (λ e. AreMarked marks.old journal.now.entries []
        → NamesReceipt e marks.old.from journal.now.entries (map (λ h. h.kept) exporters.now)) }
    ensures err { IfErr result (λ e. e ≢ MissingHandle) }
{
    let mut handle = 0u64;
    for exporter in exporters {
        match marks.mark(journal, exporter.kept()) {
            Ok(()) => handle = handle.saturating_add(1),
            Err(position) => return Err(Fault::Mismatch { handle, position }),
        }
    }
    Ok(())
}

/// Sets those of `marks` that are of the receipts of `admins`, which are held against `journal`. Their handles count
/// from `first`.
///
/// # Errors
/// `Mismatch` with the first receipt that doesn't stand in the journal.
#[tactic(auto, using(crate::proofs::HandleLaws::entries_more))]
fn mark_admins<E: EntryLedger>(
    marks: &mut Marks,
    journal: &Journal,
    first: u64,
    admins: &[AdminHandle<E>],
) -> Result<(), Fault>
    // Each receipt stands in the journal, beside those that were marked before.
    ensures from { marks.new.from ≡ marks.old.from }
    ensures ok { OnOk result ((handles : List (List KeptEntry))
        → AreMarked marks.old journal.now.entries handles
        → AreMarked marks.new journal.now.entries (handles ++ admins.now)) }
    ensures entries { OnOk result (AllByRecursion (AllByRecursion HasReceipt) admins.now) }
    // The first receipt that doesn't stand there is named.
    ensures names { first + length admins.now < 2 ^ 64 → IfErr result (λ e.
        (handles : List (List KeptEntry)) → AreMarked marks.old journal.now.entries handles
        → length handles ≡ first
        → NamesReceipt e marks.old.from journal.now.entries (handles ++ admins.now)) }
    ensures err { IfErr result (λ e. e ≢ MissingHandle) }
{
    let mut handle = first;
    for admin in admins {
        match marks.mark(journal, admin.kept()) {
            Ok(()) => handle = handle.saturating_add(1),
            Err(position) => return Err(Fault::Mismatch { handle, position }),
        }
    }
    Ok(())
}

/// All shares of the ledger of entries in one: what is `left` of it, and those of `exporters` and `admins`.
fn joined_entries<E: EntryLedger>(
    left: Share<E>,
    exporters: Vec<ExporterHandle<E>>,
    admins: Vec<AdminHandle<E>>,
) -> Share<E>
    ensures parts { result.parts ≡ left.parts + length exporters.items + length admins.items }
    ensures amount { result.amount ≡ left.amount + entries_kept exporters.items admins.items }
{
    let mut all = left;
    for exporter in exporters {
        all.merge(exporter.into_share());
    }
    for admin in admins {
        all.merge(admin.into_share());
    }
    all
}

/// All shares of the ledger of records in one: what is `left` of it, and those of `deliveries`.
fn joined_records<H: RecordLedger>(left: Share<H>, deliveries: Vec<DeliveryHandle<H>>) -> Share<H>
    ensures parts { result.parts ≡ left.parts + length deliveries.items }
    ensures amount { result.amount ≡ left.amount + records_handed deliveries.items }
{
    let mut all = left;
    for delivery in deliveries {
        all.merge(delivery.into_share());
    }
    all
}
