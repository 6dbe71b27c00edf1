//! What lies under the lock: the mediator, with the books of what each handle adds to it.
ghost use Rattle.std.specs.Prelude.{◌≡◌, ◌+◌, ◌*◌, ◌<◌, [], take, true, false, length, IsOk, IfOk, IfErr, OnOk, OnErr};
ghost use Rattle.mediator_history.specs.Subscriptions.{is_live};
ghost use Rattle.mediator_state.specs.declared.fault.Fault.TheVariants.{UnknownSub};
ghost use Rattle.mediator_state.specs.Calls.{IsSnapshot, RefusesSnapshot, RefusesClose, RefusesEdit, RefusesSubscribe, RefusesUnsubscribe};
ghost use Rattle.mediator_calls.specs.Mediation.{noted_at, journal_limits};
ghost use Rattle.mediator_calls.specs.Sound.{IsSoundMediation};
ghost use Rattle.mediator_calls.specs.Calls.{Opens, Closes, Receives, RefusesReceive, RefusesReceivePrepared, Edits, Subscribes, Unsubscribes, Advances, RefusesAdvance, IsStatusOf, Drains};
ghost use Rattle.shared_mediator.specs.Counted.{with_counts, handed_at, handed_live};
ghost use Rattle.shared_mediator.specs.Handing.{HandsOut, RefusesHanding, handed_records};
ghost use Rattle.shared_mediator.specs.Locked.{locked_as};
ghost use Rattle.shared_mediator.specs.Calls.{Makes, Adds, RefusesExporter, RefusesDelivery, RefusesAdmin, IsWaited, is_full, with_refusal};

use crate::counted::CountedMediator;
use crate::delivery::Waited;
use crate::fill::Fill;
use crate::handed::Handed;
use crate::ledgers::{EntryLedger, RecordLedger};
use bytes::Bytes;
use disclosure_audit::AuditEntry;
use mediator_calls::{Mediator, SessionId, SubId};
use mediator_state::{Fault as MediatorFault, Receipt, Status};
use mediator_tables::Share as Given;
use prepared_message::{JudgedAhead, Prepared, Snapshot};
use std::alloc::AllocError;
use std::marker::Model;
use std::sync::ledger::{Blank, Book, Share};

/// A mediator, the books of what the handles' calls added to it, and the shares that no handle has.
///
/// Contracts see the counted mediator, how many handles there are and may be, whether all is to stop, and whether a
/// call was refused since the journal is full. The books' totals are the mediator's counts: that is kept. A call that
/// is refused changes nothing of it, but for the note that the journal is full.
#[derive(Drop)]
pub(crate) struct LockedMediator<E: EntryLedger, H: RecordLedger> {
    pub(crate) counted: CountedMediator,
    pub(crate) handles: u64,
    pub(crate) exporters: u64,
    pub(crate) deliveries: u64,
    pub(crate) admins: u64,
    pub(crate) stopped: bool,
    pub(crate) full: bool,
    pub(crate) entries: Book<E>,
    pub(crate) handed: Book<H>,
    pub(crate) entries_left: Share<E>,
    pub(crate) handed_left: Share<H>,
}

impl<E: EntryLedger, H: RecordLedger> Model for LockedMediator<E, H> {
    ghost use Rattle.shared_mediator.specs.Locked.{Locked, locked_as, ledgered_as};
    ghost use Rattle.shared_mediator.specs.Keeping.{AreBooksKept};

    ghost Value = { Locked };

    ghost view = { λ d. locked_as d.counted d.handles d.exporters d.deliveries d.admins d.stopped d.full };

    ghost invariant = { λ d. AreBooksKept E.all E.before H.all
        (locked_as d.counted d.handles d.exporters d.deliveries d.admins d.stopped d.full)
        (ledgered_as d.entries.total d.entries_left.parts d.entries_left.amount)
        (ledgered_as d.handed.total d.handed_left.parts d.handed_left.amount) };
}

/// A session that was opened: its number `session`, the `position` in the journal at which it begins, and its
/// exporter's `share`.
#[derive(Drop)]
pub(crate) struct OpenedSession<E: EntryLedger> {
    pub(crate) session: SessionId,
    pub(crate) position: u64,
    pub(crate) share: Share<E>,
}

/// What was accepted: the `position` of its entry in the journal, and the `number` that the call answers.
#[derive(Clone, Copy, Debug, PartialEq, Eq)]
pub(crate) struct Accepted {
    pub(crate) position: u64,
    pub(crate) number: u64,
}

impl<E: EntryLedger, H: RecordLedger> LockedMediator<E, H> {
    /// A locked mediator over `mediator`, with no handle yet, and at most `handles` of each kind to come. `entries` and `handed`
    /// are the blank ledgers of what the handles add: of entries with a part for each exporter, each administrator and
    /// the locked mediator itself, and of records with a part for each delivery and itself.
    pub(crate) fn new(
        mediator: Mediator,
        handles: u64,
        entries: Blank,
        handed: Blank,
    ) -> LockedMediator<E, H>
        requires fresh { handed_live mediator ≡ 0 }
        requires before { E.before ≡ mediator.history }
        // The ledgers are blank, with a part for each handle that may come and one for itself.
        requires entries_name { entries.name ≡ E.name }
        requires entries_parts { (entries.parts ≡ E.parts) × (E.parts ≡ E.all)
            × (E.all ≡ 2 * handles + 1) }
        requires handed_name { handed.name ≡ H.name }
        requires handed_parts { (handed.parts ≡ H.parts) × (H.parts ≡ H.all)
            × (H.all ≡ handles + 1) }
        // No handle was made yet.
        ensures { result ≡ locked_as (with_counts mediator (length mediator.history) 0)
            handles 0 0 0 false false }
    {
        let (entries, entries_left) = entries.open::<E>();
        let (handed, handed_left) = handed.open::<H>();
        LockedMediator {
            counted: CountedMediator::new(mediator),
            handles,
            exporters: 0,
            deliveries: 0,
            admins: 0,
            stopped: false,
            full: false,
            entries,
            handed,
            entries_left,
            handed_left,
        }
    }

    /// Opens a session, with a share of the ledger of entries for its exporter.
    ///
    /// # Errors
    /// [`MediatorFault::NoHandle`] where as many exporters were made as there may be; or those of [`CountedMediator::open`].
    pub(crate) fn exporter(&mut self) -> Result<OpenedSession<E>, MediatorFault>
        // A session is opened, and one handle more is made, with a share that counts nothing.
        ensures ok { IfOk result (λ opened.
            Opens self.old.counted.core opened.session.0 self.new.counted.core) }
        ensures counts { OnOk result (Makes 1 0 0 self.old self.new) }
        ensures share { IfOk result (λ opened. (opened.share.parts ≡ 1)
            × (opened.share.amount ≡ 0)) }
        ensures position { IfOk result (λ opened.
            opened.position ≡ length self.old.counted.core.history) }
        // A refusal changes nothing, but may note that the journal is full.
        ensures noted { IfErr result (λ e. self.new ≡ with_refusal (is_full e) self.old) }
        ensures err { IfErr result (λ e. RefusesExporter e self.old) }
    {
        if self.exporters == self.handles {
            return Err(MediatorFault::NoHandle);
        }
        let position = self.counted.mediator().journal().len();
        let session = match self.counted.open() {
            Ok(session) => session,
            Err(fault) => return Err(self.note(fault)),
        };
        self.exporters += 1;
        Ok(OpenedSession {
            session,
            position,
            share: self.entries_left.split_off(1, 0),
        })
    }

    /// A share of the ledger of records for the delivery to the live subscription with the number `sub`.
    ///
    /// # Errors
    /// [`MediatorFault::UnknownSub`] where it isn't live; or [`MediatorFault::NoHandle`] where as many deliveries were made as there may
    /// be.
    pub(crate) fn delivery(&mut self, sub: SubId) -> Result<Share<H>, MediatorFault>
        // One handle more is made, with a share that counts nothing.
        ensures live { OnOk result (is_live sub.0 self.old.counted.core.history ≡ true) }
        ensures counts { OnOk result (Makes 0 1 0 self.old self.new) }
        ensures share { IfOk result (λ share. (share.parts ≡ 1) × (share.amount ≡ 0)) }
        // A refusal changes nothing.
        ensures unchanged { OnErr result (self.new ≡ self.old) }
        ensures err { IfErr result (λ e. RefusesDelivery e self.old sub.0) }
    {
        if self.counted.status(sub).is_err() {
            return Err(MediatorFault::UnknownSub);
        }
        if self.deliveries == self.handles {
            return Err(MediatorFault::NoHandle);
        }
        self.deliveries += 1;
        Ok(self.handed_left.split_off(1, 0))
    }

    /// A share of the ledger of entries for an administrator.
    ///
    /// # Errors
    /// [`MediatorFault::NoHandle`] where as many administrators were made as there may be.
    pub(crate) fn admin(&mut self) -> Result<Share<E>, MediatorFault>
        ensures counts { OnOk result (Makes 0 0 1 self.old self.new) }
        ensures share { IfOk result (λ share. (share.parts ≡ 1) × (share.amount ≡ 0)) }
        ensures unchanged { OnErr result (self.new ≡ self.old) }
        ensures err { IfErr result (λ e. RefusesAdmin e self.old) }
    {
        if self.admins == self.handles {
            return Err(MediatorFault::NoHandle);
        }
        self.admins += 1;
        Ok(self.entries_left.split_off(1, 0))
    }

    /// Accepts `message` as the next one of the session with the number `session`, which had `number` messages, with
    /// `ahead`, what was judged of it without the lock; and adds the entry to `share`.
    ///
    /// # Errors
    /// Those of [`CountedMediator::receive_judged`].
    pub(crate) fn receive(
        &mut self,
        share: &mut Share<E>,
        session: SessionId,
        number: u64,
        message: Bytes,
        ahead: Option<JudgedAhead>,
    ) -> Result<Receipt, MediatorFault>
        requires part { 0 < share.old.parts }
        // What the counted mediator's call does, with one entry more on the books and in the share.
        ensures ok { IfOk result (λ receipt.
            Receives self.old.counted.core session.0 number message receipt self.new.counted.core) }
        ensures counts { OnOk result (Adds 1 0 0 self.old self.new) }
        ensures share { OnOk result (share.new.amount ≡ share.old.amount + 1) }
        ensures part { share.new.parts ≡ share.old.parts }
        // A refusal changes nothing, but may note that the journal is full.
        ensures noted { IfErr result (λ e. (self.new ≡ with_refusal (is_full e) self.old)
            × (share.new ≡ share.old)) }
        ensures err { IfErr result (λ e.
            RefusesReceive e self.old.counted.core session.0 number message) }
    {
        match self.counted.receive_judged(session, number, message, ahead) {
            Ok(receipt) => {
                self.entries.add(share, 1);
                Ok(receipt)
            }
            Err(fault) => Err(self.note(fault)),
        }
    }

    /// The templates of the session with the number `session` as they stand.
    ///
    /// # Errors
    /// Those of [`CountedMediator::snapshot`].
    pub(crate) fn snapshot(&mut self, session: SessionId) -> Result<Snapshot, MediatorFault>
        ensures ok { IfOk result (IsSnapshot self.old.counted.core.history session.0) }
        ensures unchanged { self.new ≡ self.old }
        ensures err { IfErr result (λ e.
            RefusesSnapshot e self.old.counted.core.history session.0) }
    {
        self.counted.snapshot(session)
    }

    /// Accepts `prepared` as the next message of the session with the number `session`, which had `number` messages;
    /// and adds the entry to `share`.
    ///
    /// # Errors
    /// Those of [`CountedMediator::receive_prepared`], with the message beside.
    pub(crate) fn receive_prepared(
        &mut self,
        share: &mut Share<E>,
        session: SessionId,
        number: u64,
        prepared: Prepared,
    ) -> Result<Receipt, (MediatorFault, Prepared)>
        requires part { 0 < share.old.parts }
        // What the counted mediator's call does, with one entry more on the books and in the share.
        ensures ok { IfOk result (λ receipt. Receives self.old.counted.core session.0 number
            prepared.message receipt self.new.counted.core) }
        ensures counts { OnOk result (Adds 1 0 0 self.old self.new) }
        ensures share { OnOk result (share.new.amount ≡ share.old.amount + 1) }
        ensures part { share.new.parts ≡ share.old.parts }
        // A refusal changes nothing, but may note that the journal is full. The message is handed back.
        ensures noted { IfErr result (λ e. (self.new ≡ with_refusal (is_full e.0) self.old)
            × (share.new ≡ share.old)) }
        ensures err { IfErr result (λ e.
            RefusesReceivePrepared e.0 self.old.counted.core session.0 number prepared) }
        ensures handed_back { IfErr result (λ e. e.1 ≡ prepared) }
    {
        match self.counted.receive_prepared(session, number, prepared) {
            Ok(receipt) => {
                self.entries.add(share, 1);
                Ok(receipt)
            }
            Err((fault, prepared)) => Err((self.note(fault), prepared)),
        }
    }

    /// Closes the session with the number `session`.
    ///
    /// # Errors
    /// Those of [`CountedMediator::close`].
    pub(crate) fn close(&mut self, session: SessionId) -> Result<(), MediatorFault>
        ensures ok { OnOk result (Closes self.old.counted.core session.0 self.new.counted.core) }
        ensures counts { OnOk result (Adds 0 0 0 self.old self.new) }
        ensures noted { IfErr result (λ e. self.new ≡ with_refusal (is_full e) self.old) }
        ensures err { IfErr result (λ e. RefusesClose e
            (journal_limits self.old.counted.core.limits) self.old.counted.core.history session.0) }
    {
        match self.counted.close(session) {
            Ok(()) => Ok(()),
            Err(fault) => Err(self.note(fault)),
        }
    }

    /// Builds the next message of the subscription with the number `sub`, with `now` and `target`, and adds its records
    /// to `share`.
    ///
    /// # Errors
    /// Those of [`CountedMediator::pull`].
    pub(crate) fn pull(
        &mut self,
        share: &mut Share<H>,
        sub: SubId,
        now: u32,
        target: u16,
    ) -> Result<Option<Handed>, MediatorFault>
        requires part { 0 < share.old.parts }
        // What the counted mediator's call does, with the records of the message on the books and in the share.
        ensures sound { IsSoundMediation self.old.counted.core }
        ensures ok { IfOk result (λ answer.
            HandsOut self.old.counted sub.0 now target answer self.new.counted) }
        ensures counts { IfOk result (λ answer. Adds 0 (handed_records answer) 0 self.old self.new) }
        ensures share { IfOk result (λ answer.
            share.new.amount ≡ share.old.amount + handed_records answer) }
        ensures part { share.new.parts ≡ share.old.parts }
        // A refusal changes nothing.
        ensures unchanged { OnErr result ((self.new ≡ self.old) × (share.new ≡ share.old)) }
        ensures err { IfErr result (λ e. RefusesHanding e self.old.counted sub.0) }
    {
        let _for_proof = self.counted.mediator().journal();
        match self.counted.pull(sub, now, target) {
            Ok(Some(handed)) => {
                self.handed.add(share, handed.records);
                Ok(Some(handed))
            }
            Ok(None) => Ok(None),
            Err(fault) => Err(fault),
        }
    }

    /// What a wait of the delivery to the subscription with the number `sub` ends with, if it ends now.
    pub(crate) fn waited(&self, sub: SubId) -> Option<Waited>
        ensures { IsWaited self.now sub.0 result }
    {
        match self.counted.status(sub) {
            Err(_) => Some(Waited::Gone),
            Ok(status) if status.queued > 0 => Some(Waited::Queued),
            Ok(status) if status.cut => Some(Waited::Cut),
            Ok(_) if self.stopped => Some(Waited::Stopped),
            Ok(_) => None,
        }
    }

    /// Puts the policy that `text` spells in force, and adds the entry to `share`. It answers the entry's position and
    /// the policy's revision.
    ///
    /// # Errors
    /// Those of [`CountedMediator::edit`].
    pub(crate) fn edit(
        &mut self,
        share: &mut Share<E>,
        text: &str,
    ) -> Result<Accepted, MediatorFault>
        requires part { 0 < share.old.parts }
        // What the counted mediator's call does, with one entry more on the books and in the share.
        ensures ok { IfOk result (λ accepted.
            Edits self.old.counted.core text.now accepted.number self.new.counted.core) }
        ensures last { IfOk result (λ accepted.
            accepted.position + 1 ≡ length self.new.counted.core.history) }
        ensures counts { OnOk result (Adds 1 0 0 self.old self.new) }
        ensures share { OnOk result (share.new.amount ≡ share.old.amount + 1) }
        ensures part { share.new.parts ≡ share.old.parts }
        // A refusal changes nothing, but may note that the journal is full.
        ensures noted { IfErr result (λ e. (self.new ≡ with_refusal (is_full e) self.old)
            × (share.new ≡ share.old)) }
        ensures err { IfErr result (λ e. RefusesEdit e (journal_limits self.old.counted.core.limits)
            self.old.counted.core.history text.now) }
    {
        let position = self.counted.len();
        match self.counted.edit(text) {
            Ok(number) => {
                self.entries.add(share, 1);
                Ok(Accepted { position, number })
            }
            Err(fault) => Err(self.note(fault)),
        }
    }

    /// Begins a subscription for a subscriber of this `name`, and adds the entry to `share`. It answers the entry's
    /// position and the number of the subscription.
    ///
    /// # Errors
    /// Those of [`CountedMediator::subscribe`].
    pub(crate) fn subscribe(
        &mut self,
        share: &mut Share<E>,
        name: &str,
    ) -> Result<Accepted, MediatorFault>
        requires part { 0 < share.old.parts }
        // What the counted mediator's call does, with one entry more on the books and in the share.
        ensures ok { IfOk result (λ accepted.
            Subscribes self.old.counted.core name.now accepted.number self.new.counted.core) }
        ensures last { IfOk result (λ accepted.
            accepted.position + 1 ≡ length self.new.counted.core.history) }
        ensures counts { OnOk result (Adds 1 0 0 self.old self.new) }
        ensures share { OnOk result (share.new.amount ≡ share.old.amount + 1) }
        ensures part { share.new.parts ≡ share.old.parts }
        // A refusal changes nothing, but may note that the journal is full.
        ensures noted { IfErr result (λ e. (self.new ≡ with_refusal (is_full e) self.old)
            × (share.new ≡ share.old)) }
        ensures err { IfErr result (λ e. RefusesSubscribe e
            (journal_limits self.old.counted.core.limits) self.old.counted.core.history name.now) }
    {
        let position = self.counted.len();
        match self.counted.subscribe(name) {
            Ok(sub) => {
                self.entries.add(share, 1);
                let number = sub.0;
                Ok(Accepted { position, number })
            }
            Err(fault) => Err(self.note(fault)),
        }
    }

    /// Ends the subscription with the number `sub`, and adds the entry to `share`. It answers the entry's position.
    ///
    /// # Errors
    /// Those of [`CountedMediator::unsubscribe`].
    pub(crate) fn unsubscribe(
        &mut self,
        share: &mut Share<E>,
        sub: SubId,
    ) -> Result<u64, MediatorFault>
        requires part { 0 < share.old.parts }
        // What the counted mediator's call does, with one entry more on the books and in the share.
        ensures ok { OnOk result (Unsubscribes self.old.counted.core sub.0 self.new.counted.core) }
        ensures last { IfOk result (λ position.
            position + 1 ≡ length self.new.counted.core.history) }
        ensures counts { OnOk result
            (Adds 1 0 (handed_at self.old.counted.core sub.0) self.old self.new) }
        ensures share { OnOk result (share.new.amount ≡ share.old.amount + 1) }
        ensures part { share.new.parts ≡ share.old.parts }
        // A refusal changes nothing, but may note that the journal is full.
        ensures noted { IfErr result (λ e. (self.new ≡ with_refusal (is_full e) self.old)
            × (share.new ≡ share.old)) }
        ensures err { IfErr result (λ e. RefusesUnsubscribe e
            (journal_limits self.old.counted.core.limits) self.old.counted.core.history sub.0) }
    {
        let position = self.counted.len();
        match self.counted.unsubscribe(sub) {
            Ok(()) => {
                self.entries.add(share, 1);
                Ok(position)
            }
            Err(fault) => Err(self.note(fault)),
        }
    }

    /// Advances the clock to `t`, in milliseconds since 1970, and adds the entry to `share`. It answers the entry's
    /// position, which is the last one, behind the cuts that the advance makes.
    ///
    /// # Errors
    /// Those of [`CountedMediator::advance`].
    pub(crate) fn advance(&mut self, share: &mut Share<E>, t: u64) -> Result<u64, MediatorFault>
        requires part { 0 < share.old.parts }
        // What the counted mediator's call does, with one entry more on the books and in the share.
        ensures ok { OnOk result (Advances self.old.counted.core t self.new.counted.core) }
        ensures last { IfOk result (λ position.
            position + 1 ≡ length self.new.counted.core.history) }
        ensures counts { OnOk result (Adds 1 0 0 self.old self.new) }
        ensures share { OnOk result (share.new.amount ≡ share.old.amount + 1) }
        ensures part { share.new.parts ≡ share.old.parts }
        // A refusal changes nothing, but may note that the journal is full.
        ensures noted { IfErr result (λ e. (self.new ≡ with_refusal (is_full e) self.old)
            × (share.new ≡ share.old)) }
        ensures err { IfErr result (λ e. RefusesAdvance e self.old.counted.core t) }
    {
        match self.counted.advance(t) {
            Ok(()) => {
                self.entries.add(share, 1);
                Ok(self.counted.len() - 1)
            }
            Err(fault) => Err(self.note(fault)),
        }
    }

    /// Hands out the oldest `most` of the audit's entries that wait, in their order.
    ///
    /// # Errors
    /// Want of memory.
    pub(crate) fn drain_audit(&mut self, most: u32) -> Result<Vec<AuditEntry>, AllocError>
        ensures ok { IfOk result (λ out.
            Drains self.old.counted.core most out.items self.new.counted.core) }
        ensures counts { OnOk result (Adds 0 0 0 self.old self.new) }
        ensures unchanged { OnErr result (self.new ≡ self.old) }
        ensures none { take most (noted_at self.old.counted.core) ≡ [] → IsOk result }
    {
        self.counted.drain_audit(most)
    }

    /// How the live subscription with the number `sub` stands.
    ///
    /// # Errors
    /// [`MediatorFault::UnknownSub`] where none with this number is live.
    pub(crate) fn status(&self, sub: SubId) -> Result<Status, MediatorFault>
        ensures ok { IfOk result (λ status. IsStatusOf self.now.counted.core sub.0 status) }
        ensures err { OnErr result (is_live sub.0 self.now.counted.core.history ≡ false) }
        ensures fault { IfErr result (λ e. e ≡ UnknownSub) }
    {
        self.counted.status(sub)
    }

    /// Whether one of `shares`, which a message would give, has no room in its subscription's queue until some of what
    /// waits is pulled, and has room then.
    pub(crate) fn is_held_up(&self, shares: &[Given]) -> bool {
        self.counted.is_held_up(shares)
    }

    /// Whether what an advance of the clock to `t`, in milliseconds since 1970, would close for a subscription has no
    /// room in its queue until some of what waits is pulled, and has room then. It is false where there is no memory to
    /// find that out.
    pub(crate) fn is_advance_held_up(&self, t: u64) -> bool {
        self.counted.is_advance_held_up(t)
    }

    /// How full the journal and the audit are.
    pub(crate) fn fill(&self) -> Fill {
        let journal = self.counted.mediator().journal();
        Fill {
            entries: journal.len(),
            octets: journal.octets(),
            audit: self.counted.audit_waiting(),
        }
    }

    /// Notes that all is to stop: a wait for which nothing is queued ends.
    pub(crate) fn stop(&mut self)
        ensures { self.new ≡ locked_as self.old.counted self.old.handles self.old.exporters
            self.old.deliveries self.old.admins true self.old.full }
    {
        self.stopped = true;
    }

    /// Whether a call was refused since the journal is full.
    pub(crate) fn is_full(&self) -> bool
        ensures { result ≡ self.now.full }
    {
        self.full
    }

    /// Notes `fault`, a refusal of the mediator, where it is that the journal is full; and hands it on.
    fn note(&mut self, fault: MediatorFault) -> MediatorFault
        ensures same { result ≡ fault }
        ensures noted { self.new ≡ with_refusal (is_full fault) self.old }
    {
        self.full = self.full || is_full(fault);
        fault
    }
}

/// Whether `fault` is that the journal is full.
fn is_full(fault: MediatorFault) -> bool
    ensures { result ≡ is_full fault }
{
    matches!(fault, MediatorFault::JournalFull)
}
