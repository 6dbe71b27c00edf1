//! A mediator with the counts of what it took in and handed out, for those who call it from several threads.
ghost use Rattle.std.specs.Prelude.{◌≡◌, ◌≤◌, [], take, false, length, IsOk, IfOk, IfErr, OnOk, OnErr};
ghost use Rattle.mediator_history.specs.Subscriptions.{is_live};
ghost use Rattle.mediator_state.specs.declared.fault.Fault.TheVariants.{UnknownSub};
ghost use Rattle.mediator_state.specs.Calls.{IsSnapshot, RefusesSnapshot, RefusesClose, RefusesEdit, RefusesSubscribe, RefusesUnsubscribe};
ghost use Rattle.mediator_calls.specs.Mediation.{noted_at, journal_limits};
ghost use Rattle.mediator_calls.specs.Calls.{Opens, RefusesOpen, Closes, Receives, RefusesReceive, RefusesReceivePrepared, Edits, Subscribes, Unsubscribes, Advances, RefusesAdvance, IsStatusOf, Drains};
ghost use Rattle.shared_mediator.specs.Counted.{with_counts, handed_at, handed_live, handed_of, Counts};
ghost use Rattle.shared_mediator.specs.Handing.{HandsOut, RefusesHanding};

use crate::handed::Handed;
use bytes::Bytes;
use disclosure_audit::AuditEntry;
use mediator_calls::{Mediator, SessionId, SubId};
use mediator_state::{Fault as MediatorFault, Receipt, Status};
use mediator_tables::Share;
use prepared_message::{JudgedAhead, Prepared, Snapshot};
use std::alloc::AllocError;
use std::marker::Model;

/// A mediator that counts the records that it hands out, and knows from which entry of its journal on its callers keep
/// receipts.
///
/// Contracts see the mediator, that place in its journal, and how many records were handed to the subscriptions that
/// have ended. A call that is refused changes nothing of that.
pub struct CountedMediator {
    mediator: Mediator,
    /// The journal's length when this value was made.
    from: u64,
    /// The records that were handed to subscriptions that have ended since.
    gone: u64,
    /// The records that were handed to these and to the live ones.
    handed: u64,
}

impl Drop for CountedMediator {
    // Written out: a derived one is proved anew in each crate that drops such a value.
    fn drop(self) {
        let CountedMediator {
            mediator: _,
            from: _,
            gone: _,
            handed: _,
        } = self;
    }
}

impl Model for CountedMediator {
    ghost use Rattle.shared_mediator.specs.Counted.{CountedMediation, with_counts, IsCounted};

    ghost Value = { CountedMediation };

    ghost view = { λ m. with_counts m.mediator m.from m.gone };

    ghost invariant = { λ m. IsCounted m.mediator m.from m.gone m.handed };
}

impl CountedMediator {
    /// The mediator `mediator`, counted from here on: its callers keep receipts of the entries that come, and no live
    /// subscription was handed anything yet.
    pub fn new(mediator: Mediator) -> CountedMediator
        requires fresh { handed_live mediator ≡ 0 }
        ensures { result ≡ with_counts mediator (length mediator.history) 0 }
    {
        let from = mediator.journal().len();
        CountedMediator {
            mediator,
            from,
            gone: 0,
            handed: 0,
        }
    }

    /// The mediator, lent.
    pub fn mediator(&self) -> &Mediator
        ensures { result.now ≡ self.now.core }
    {
        &self.mediator
    }

    /// The mediator, which is counted no more.
    pub fn into_mediator(self) -> Mediator
        ensures { result ≡ self.core }
    {
        let CountedMediator {
            mediator,
            from: _,
            gone: _,
            handed: _,
        } = self;
        mediator
    }

    /// How many entries the journal has.
    pub fn len(&self) -> u64
        ensures { result ≡ length self.now.core.history }
    {
        self.mediator.journal().len()
    }

    /// How many entries the journal had when counting began.
    pub fn from(&self) -> u64
        ensures value { result ≡ self.now.from }
        ensures within { self.now.from ≤ length self.now.core.history }
    {
        self.from
    }

    /// How many records were handed out to all subscriptions, those that have ended and those that are live.
    pub fn handed(&self) -> u64
        ensures { result ≡ handed_of self.now }
    {
        self.handed
    }

    /// Opens a session, as [`Mediator::open`] does, and answers its number.
    ///
    /// # Errors
    /// Those of [`Mediator::open`].
    pub fn open(&mut self) -> Result<SessionId, MediatorFault>
        ensures ok { IfOk result (λ session. Opens self.old.core session.0 self.new.core) }
        ensures counts { OnOk result (Counts self.old 0 0 0 self.new) }
        ensures unchanged { OnErr result (self.new ≡ self.old) }
        ensures err { IfErr result (λ e. RefusesOpen e self.old.core) }
    {
        let _for_proof = self.mediator.journal();
        self.mediator.open()
    }

    /// Closes the session with the number `session`, as [`Mediator::close`] does.
    ///
    /// # Errors
    /// Those of [`Mediator::close`].
    pub fn close(&mut self, session: SessionId) -> Result<(), MediatorFault>
        ensures ok { OnOk result (Closes self.old.core session.0 self.new.core) }
        ensures counts { OnOk result (Counts self.old 0 0 0 self.new) }
        ensures unchanged { OnErr result (self.new ≡ self.old) }
        ensures err { IfErr result (λ e.
            RefusesClose e (journal_limits self.old.core.limits) self.old.core.history session.0) }
    {
        let _for_proof = self.mediator.journal();
        self.mediator.close(session)
    }

    /// Accepts `message` as the next one of the session with the number `session`, which had `number` messages, as
    /// [`Mediator::receive`] does. One entry more is counted.
    ///
    /// # Errors
    /// Those of [`Mediator::receive`].
    pub fn receive(
        &mut self,
        session: SessionId,
        number: u64,
        message: Bytes,
    ) -> Result<Receipt, MediatorFault>
        ensures ok { IfOk result (λ receipt.
            Receives self.old.core session.0 number message receipt self.new.core) }
        ensures counts { OnOk result (Counts self.old 1 0 0 self.new) }
        ensures unchanged { OnErr result (self.new ≡ self.old) }
        ensures err { IfErr result (λ e. RefusesReceive e self.old.core session.0 number message) }
    {
        self.receive_judged(session, number, message, None)
    }

    /// Accepts `message` as the next one of the session with the number `session`, which had `number` messages, as
    /// [`receive`](CountedMediator::receive) does, with `ahead`, what was judged of it without the mediator, as
    /// [`Mediator::receive_judged`] takes that.
    ///
    /// # Errors
    /// Those of [`Mediator::receive`].
    pub fn receive_judged(
        &mut self,
        session: SessionId,
        number: u64,
        message: Bytes,
        ahead: Option<JudgedAhead>,
    ) -> Result<Receipt, MediatorFault>
        ensures ok { IfOk result (λ receipt.
            Receives self.old.core session.0 number message receipt self.new.core) }
        ensures counts { OnOk result (Counts self.old 1 0 0 self.new) }
        ensures unchanged { OnErr result (self.new ≡ self.old) }
        ensures err { IfErr result (λ e. RefusesReceive e self.old.core session.0 number message) }
    {
        let _for_proof = self.mediator.journal();
        self.mediator
            .receive_judged(session, number, message, ahead)
    }

    /// The templates of the session with the number `session`, as [`Mediator::snapshot`] gives them. No entry more is
    /// counted.
    ///
    /// # Errors
    /// Those of [`Mediator::snapshot`].
    pub fn snapshot(&mut self, session: SessionId) -> Result<Snapshot, MediatorFault>
        ensures ok { IfOk result (IsSnapshot self.old.core.history session.0) }
        ensures unchanged { self.new ≡ self.old }
        ensures err { IfErr result (λ e. RefusesSnapshot e self.old.core.history session.0) }
    {
        self.mediator.snapshot(session)
    }

    /// Accepts `prepared` as the next message of the session with the number `session`, which had `number` messages, as
    /// [`Mediator::receive_prepared`] does. One entry more is counted.
    ///
    /// # Errors
    /// Those of [`Mediator::receive_prepared`], with the message beside.
    pub fn receive_prepared(
        &mut self,
        session: SessionId,
        number: u64,
        prepared: Prepared,
    ) -> Result<Receipt, (MediatorFault, Prepared)>
        ensures ok { IfOk result (λ receipt.
            Receives self.old.core session.0 number prepared.message receipt self.new.core) }
        ensures counts { OnOk result (Counts self.old 1 0 0 self.new) }
        // A refused call changes nothing, names the first cause and hands the message back.
        ensures unchanged { OnErr result (self.new ≡ self.old) }
        ensures err { IfErr result (λ e.
            RefusesReceivePrepared e.0 self.old.core session.0 number prepared) }
        ensures handed_back { IfErr result (λ e. e.1 ≡ prepared) }
    {
        let _for_proof = self.mediator.journal();
        self.mediator.receive_prepared(session, number, prepared)
    }

    /// Puts the policy that `text` spells in force, as [`Mediator::edit`] does, and answers its revision. One entry
    /// more is counted.
    ///
    /// # Errors
    /// Those of [`Mediator::edit`].
    pub fn edit(&mut self, text: &str) -> Result<u64, MediatorFault>
        ensures ok { IfOk result (λ revision. Edits self.old.core text.now revision self.new.core) }
        ensures counts { OnOk result (Counts self.old 1 0 0 self.new) }
        ensures unchanged { OnErr result (self.new ≡ self.old) }
        ensures err { IfErr result (λ e.
            RefusesEdit e (journal_limits self.old.core.limits) self.old.core.history text.now) }
    {
        let _for_proof = self.mediator.journal();
        self.mediator.edit(text)
    }

    /// Begins a subscription for a subscriber of this `name`, as [`Mediator::subscribe`] does, and answers its number.
    /// One entry more is counted.
    ///
    /// # Errors
    /// Those of [`Mediator::subscribe`].
    pub fn subscribe(&mut self, name: &str) -> Result<SubId, MediatorFault>
        ensures ok { IfOk result (λ sub. Subscribes self.old.core name.now sub.0 self.new.core) }
        ensures counts { OnOk result (Counts self.old 1 0 0 self.new) }
        ensures unchanged { OnErr result (self.new ≡ self.old) }
        ensures err { IfErr result (λ e. RefusesSubscribe e (journal_limits self.old.core.limits)
            self.old.core.history name.now) }
    {
        let _for_proof = self.mediator.journal();
        self.mediator.subscribe(name)
    }

    /// Ends the subscription with the number `sub`, as [`Mediator::unsubscribe`] does. One entry more is counted, and
    /// the records that it was handed stay counted, as those of one that has ended.
    ///
    /// # Errors
    /// Those of [`Mediator::unsubscribe`].
    pub fn unsubscribe(&mut self, sub: SubId) -> Result<(), MediatorFault>
        ensures ok { OnOk result (Unsubscribes self.old.core sub.0 self.new.core) }
        ensures counts { OnOk result
            (Counts self.old 1 0 (handed_at self.old.core sub.0) self.new) }
        ensures unchanged { OnErr result (self.new ≡ self.old) }
        ensures err { IfErr result (λ e. RefusesUnsubscribe e (journal_limits self.old.core.limits)
            self.old.core.history sub.0) }
    {
        let _for_proof = self.mediator.journal();
        let handed = match self.mediator.status(sub) {
            Ok(status) => status.handed,
            Err(_) => return Err(MediatorFault::UnknownSub),
        };
        self.mediator.unsubscribe(sub)?;
        self.gone += handed;
        Ok(())
    }

    /// Advances the clock to `t`, in milliseconds since 1970, as [`Mediator::advance`] does. One entry more is counted.
    ///
    /// # Errors
    /// Those of [`Mediator::advance`].
    pub fn advance(&mut self, t: u64) -> Result<(), MediatorFault>
        ensures ok { OnOk result (Advances self.old.core t self.new.core) }
        ensures counts { OnOk result (Counts self.old 1 0 0 self.new) }
        ensures unchanged { OnErr result (self.new ≡ self.old) }
        ensures err { IfErr result (λ e. RefusesAdvance e self.old.core t) }
    {
        let _for_proof = self.mediator.journal();
        self.mediator.advance(t)
    }

    /// Builds the next message of the subscription with the number `sub`, as [`Mediator::pull`] does with `now` and
    /// `target`, and counts its records as handed out; or answers `None` where nothing waits.
    ///
    /// # Errors
    /// [`MediatorFault::UnknownSub`] where the subscription isn't live; [`MediatorFault::HandedFull`] where the count has no room for
    /// all that waits for it; or [`MediatorFault::OutOfMemory`]. Nothing has changed then.
    pub fn pull(
        &mut self,
        sub: SubId,
        now: u32,
        target: u16,
    ) -> Result<Option<Handed>, MediatorFault>
        ensures ok { IfOk result (λ answer. HandsOut self.old sub.0 now target answer self.new) }
        ensures unchanged { OnErr result (self.new ≡ self.old) }
        ensures err { IfErr result (λ e. RefusesHanding e self.old sub.0) }
    {
        let _for_proof = self.mediator.journal();
        let before = match self.mediator.status(sub) {
            Ok(before) => before,
            Err(_) => return Err(MediatorFault::UnknownSub),
        };
        if before.queued as u64 > u64::MAX - self.handed {
            return Err(MediatorFault::HandedFull);
        }
        let message = match self.mediator.pull_pieces(sub, now, target) {
            Ok(message) => message,
            Err(fault) => return Err(fault),
        };
        let after = match self.mediator.status(sub) {
            Ok(after) => after,
            Err(_) => return Err(MediatorFault::UnknownSub),
        };
        let records = after.handed - before.handed;
        self.handed += records;
        match message {
            Some(message) => Ok(Some(Handed { message, records })),
            None => Ok(None),
        }
    }

    /// How the live subscription with the number `sub` stands.
    ///
    /// # Errors
    /// [`MediatorFault::UnknownSub`] where no subscription with this number is live.
    pub fn status(&self, sub: SubId) -> Result<Status, MediatorFault>
        ensures ok { IfOk result (λ status. IsStatusOf self.now.core sub.0 status) }
        ensures err { OnErr result (is_live sub.0 self.now.core.history ≡ false) }
        ensures fault { IfErr result (λ e. e ≡ UnknownSub) }
    {
        self.mediator.status(sub)
    }

    /// Whether one of `shares`, which a message would give, has no room in its subscription's queue until some of what
    /// waits is pulled, and has room then: so the message cuts a subscription now, and may not cut it later.
    pub fn is_held_up(&self, shares: &[Share]) -> bool {
        self.mediator.is_held_up(shares)
    }

    /// Whether what an advance of the clock to `t`, in milliseconds since 1970, would close for a subscription has no
    /// room in its queue until some of what waits is pulled, and has room then. It is false where there is no memory to
    /// find that out.
    pub fn is_advance_held_up(&self, t: u64) -> bool {
        self.mediator.is_advance_held_up(t)
    }

    /// How many entries of the audit wait to be handed out.
    pub fn audit_waiting(&self) -> u32 {
        self.mediator.audit_waiting()
    }

    /// Hands out the oldest `most` of the audit's entries that wait, in their order, as [`Mediator::drain_audit`] does.
    ///
    /// # Errors
    /// Want of memory, and then nothing has changed. Where no entry is handed out, there is no error.
    pub fn drain_audit(&mut self, most: u32) -> Result<Vec<AuditEntry>, AllocError>
        ensures ok { IfOk result (λ out. Drains self.old.core most out.items self.new.core) }
        ensures counts { OnOk result (Counts self.old 0 0 0 self.new) }
        ensures unchanged { OnErr result (self.new ≡ self.old) }
        // Nothing to hand out takes no memory.
        ensures none { take most (noted_at self.old.core) ≡ [] → IsOk result }
    {
        self.mediator.drain_audit(most)
    }
}
