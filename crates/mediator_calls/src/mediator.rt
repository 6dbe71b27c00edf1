//! The mediator, with its calls.
ghost use Rattle.std.specs.Prelude.{◌≡◌, [], take, true, false, IsOk, IfOk, IfErr, OnOk, OnErr};
ghost use Rattle.mediator_history.specs.Subscriptions.{is_live};
ghost use Rattle.mediator_state.specs.declared.fault.Fault.TheVariants.{UnknownSub};
ghost use Rattle.mediator_state.specs.Calls.{IsSnapshot, RefusesSnapshot, RefusesClose, RefusesEdit, RefusesSubscribe, RefusesUnsubscribe, RefusesPull};
ghost use Rattle.mediator_calls.specs.Mediation.{started, noted_at, journal_limits};
ghost use Rattle.mediator_calls.specs.Limited.{AreAllowed, RefusesLimits};
ghost use Rattle.mediator_calls.specs.Sound.{IsSoundMediation};
ghost use Rattle.mediator_calls.specs.Calls.{Opens, RefusesOpen, Closes, Receives, RefusesReceive, RefusesReceivePrepared, Edits, Subscribes, Unsubscribes, Advances, RefusesAdvance, Pulls, IsStatusOf, Drains};

use crate::Limits;
use crate::finished::Finished;
use bytes::Bytes;
use disclosure_audit::{Audit, AuditEntry, KeptQueue};
use event_journal::Journal;
use hash_keys::HashKeys;
use mediator_state::{Fault, Receipt, State, Status};
use mediator_tables::{SessionId, Share, SubId};
use prepared_message::{JudgedAhead, Prepared, Snapshot};
use std::alloc::{AllocError, Global};
use std::marker::Model;
use subscriber_stream::{MessagePieces, StreamLimits};

/// A mediator: sessions of exporters, a policy, subscriptions that are given what the policy discloses to them, and an
/// audit of what it keeps back. All that it accepted stands in its journal.
///
/// Contracts see its history, which is its journal; the place up to which each live subscription's records were handed
/// out; how many audit entries were drained; and its limits. A call that is refused changes nothing of that.
///
/// # Examples
///
/// An exporter's message defines a template, and brings a record of it. By the policy all passes, so acme gets a message:
///
/// ```rust
/// use bytes::Bytes;
/// use mediator_calls::{Limits, Mediator};
///
/// let limits = Limits {
///     queue: 10,
///     shapes: 10,
///     audit: 10,
///     entries: 10,
///     octets: 1000,
/// };
/// let mut mediator = Mediator::new(alloc, limits)?;
/// mediator.edit(
///     "policy 1\nrule for * in * from * to * pass\nrule for * in * from * to * element * keep\n",
/// )?;
/// let acme = mediator.subscribe("acme")?;
/// let session = mediator.open()?;
/// let message: &[u8] = b"\x00\x0a\x00\x24\x65\x53\xf1\x00\x00\x00\x00\x00\x00\x00\x00\x07\
///     \x00\x02\x00\x0c\x01\x00\x00\x01\x00\x01\x00\x04\x01\x00\x00\x08\x00\x00\x05\xdc";
/// mediator.receive(session, 0, Bytes::copy_from_slice(alloc, message)?)?;
/// assert!(rt; mediator.pull(acme, 1_700_000_060, 1400)?.is_some());
/// ```
pub struct Mediator {
    state: State<Journal, KeptQueue>,
}

impl Drop for Mediator {
    // Written out: a derived one is proved anew in each crate that drops such a value.
    fn drop(self) {
        let Mediator { state: _ } = self;
    }
}

impl Model for Mediator {
    ghost use Rattle.mediator_calls.specs.Mediation.{Mediation};
    ghost use Rattle.mediator_calls.specs.View.{view_of, IsStateKept};

    ghost Value = { Mediation };

    ghost view = { λ m. view_of m.state };

    ghost invariant = { λ m. IsStateKept m.state };
}

impl Mediator {
    /// A mediator before any call, which may hold what `limits` allow: no session is open, nobody is subscribed, and
    /// the policy has no rules, so it withholds all. All of it is in memory from `alloc`.
    ///
    /// # Errors
    /// [`Fault::BadLimits`] where a limit is out of its range; or [`Fault::OutOfMemory`].
    pub fn new(alloc: Global, limits: Limits) -> Result<Mediator, Fault>
        ensures ok { IfOk result (λ m. m ≡ started limits) }
        ensures allowed { OnOk result (AreAllowed limits) }
        ensures err { IfErr result (λ e. RefusesLimits e limits) }
    {
        if !limits.are_allowed() {
            return Err(Fault::BadLimits);
        }
        let streams = StreamLimits {
            queue: limits.queue,
            shapes: limits.shapes,
        };
        let journal = Journal::new(alloc, limits.entries, limits.octets);
        let audit = Audit::new(KeptQueue::new(alloc), limits.audit);
        let state = State::new(alloc, streams, audit, journal)?;
        Ok(Mediator { state })
    }

    /// Hashes by `keys` what exporters choose: the keys of groups, and templates, of subscriptions that begin from now
    /// on. With secret keys no stranger can choose these so that look-ups take longer and longer. It shows in no
    /// answer.
    pub fn hash_by(&mut self, keys: HashKeys)
        ensures unchanged { self.new ≡ self.old }
    {
        self.state.hash_by(keys);
    }

    /// The journal: all that was accepted, oldest first.
    pub fn journal(&self) -> &Journal
        ensures entries { result.now.entries ≡ self.now.history }
        ensures limits { result.now.limits ≡ journal_limits self.now.limits }
        // What is kept of every mediator: callers learn it here.
        ensures sound { IsSoundMediation self.now }
    {
        self.state.chronicle()
    }

    /// Opens a session of an exporter, and answers its number: 1 for the first one, and so on.
    ///
    /// # Errors
    /// [`Fault::JournalFull`] or [`Fault::OutOfMemory`].
    pub fn open(&mut self) -> Result<SessionId, Fault>
        ensures ok { IfOk result (λ session. Opens self.old session.0 self.new) }
        ensures unchanged { OnErr result (self.new ≡ self.old) }
        ensures err { IfErr result (λ e. RefusesOpen e self.old) }
    {
        self.state.open()
    }

    /// Closes the session with the number `session`, which never comes again.
    ///
    /// # Errors
    /// [`Fault::UnknownSession`] where it isn't open, [`Fault::JournalFull`] or [`Fault::OutOfMemory`]: the first that
    /// stands.
    pub fn close(&mut self, session: SessionId) -> Result<(), Fault>
        ensures ok { OnOk result (Closes self.old session.0 self.new) }
        ensures unchanged { OnErr result (self.new ≡ self.old) }
        ensures err { IfErr result (λ e.
            RefusesClose e (journal_limits self.old.limits) self.old.history session.0) }
    {
        self.state.close(session)
    }

    /// Accepts `message` as the next one of the session with the number `session`. `number` is to be how many messages
    /// the session had. Each subscription that is served is given what the policy in force discloses to it, and the
    /// audit names what is kept back. A subscription whose limits leave no room for what it would be given is cut
    /// before the message, and is given nothing of it or of later ones. The answer is what became of the message.
    ///
    /// # Errors
    /// [`Fault::UnknownSession`], [`Fault::OutOfTurn`], [`Fault::Malformed`] (RFC 7011), [`Fault::JournalFull`] or
    /// [`Fault::AuditFull`]: the first that stands; or [`Fault::OutOfMemory`].
    pub fn receive(
        &mut self,
        session: SessionId,
        number: u64,
        message: Bytes,
    ) -> Result<Receipt, Fault>
        ensures ok { IfOk result (λ receipt.
            Receives self.old session.0 number message receipt self.new) }
        ensures unchanged { OnErr result (self.new ≡ self.old) }
        ensures err { IfErr result (λ e. RefusesReceive e self.old session.0 number message) }
    {
        self.receive_judged(session, number, message, None)
    }

    /// Accepts `message` as the next one of the session with the number `session`, which is to have had `number`
    /// messages, as [`receive`](Mediator::receive) does. `ahead`, what was judged of it without the mediator
    /// ([`JudgedAhead::of`]), is taken where it is of the records that the session finds in the message, and where the
    /// policy, the clock and those who are served are still the same. It changes no answer.
    ///
    /// # Errors
    /// Those of [`receive`](Mediator::receive).
    pub fn receive_judged(
        &mut self,
        session: SessionId,
        number: u64,
        message: Bytes,
        ahead: Option<JudgedAhead>,
    ) -> Result<Receipt, Fault>
        ensures ok { IfOk result (λ receipt.
            Receives self.old session.0 number message receipt self.new) }
        ensures unchanged { OnErr result (self.new ≡ self.old) }
        ensures err { IfErr result (λ e. RefusesReceive e self.old session.0 number message) }
    {
        self.state.receive_judged(session, number, message, ahead)
    }

    /// The templates of the open session with the number `session` as they stand, by which its messages can be prepared
    /// without the mediator ([`Prepared::prepare`]). However many templates there are, it costs one owner more.
    ///
    /// # Errors
    /// [`Fault::UnknownSession`] where the session isn't open; or [`Fault::OutOfMemory`].
    pub fn snapshot(&mut self, session: SessionId) -> Result<Snapshot, Fault>
        ensures ok { IfOk result (IsSnapshot self.old.history session.0) }
        ensures unchanged { self.new ≡ self.old }
        ensures err { IfErr result (λ e. RefusesSnapshot e self.old.history session.0) }
    {
        self.state.snapshot(session)
    }

    /// Accepts `prepared`, a message that was prepared without the mediator, as the next one of the session with the
    /// number `session`, as [`receive`](Mediator::receive) accepts its octets. `number` is to be how many messages the
    /// session had.
    ///
    /// # Errors
    /// Those of [`receive`](Mediator::receive), but with [`Fault::Stale`] in place of [`Fault::Malformed`]: only where
    /// an ID of the message has another template in the session than by which it was prepared, or only one of them has
    /// one. The message is handed back beside the fault.
    pub fn receive_prepared(
        &mut self,
        session: SessionId,
        number: u64,
        prepared: Prepared,
    ) -> Result<Receipt, (Fault, Prepared)>
        ensures ok { IfOk result (λ receipt.
            Receives self.old session.0 number prepared.message receipt self.new) }
        ensures unchanged { OnErr result (self.new ≡ self.old) }
        ensures err { IfErr result (λ e.
            RefusesReceivePrepared e.0 self.old session.0 number prepared) }
        ensures handed_back { IfErr result (λ e. e.1 ≡ prepared) }
    {
        self.state.receive_prepared(session, number, prepared)
    }

    /// Puts the policy that `text` spells in force, and answers its revision: the number of edits, with it. What was
    /// accepted before is judged by the policy of its time, and running groups close as they stand.
    ///
    /// # Errors
    /// [`Fault::Policy`] where the text is no policy, [`Fault::JournalFull`] or [`Fault::OutOfMemory`].
    pub fn edit(&mut self, text: &str) -> Result<u64, Fault>
        ensures ok { IfOk result (λ revision. Edits self.old text.now revision self.new) }
        ensures unchanged { OnErr result (self.new ≡ self.old) }
        ensures err { IfErr result (λ e.
            RefusesEdit e (journal_limits self.old.limits) self.old.history text.now) }
    {
        self.state.edit(text)
    }

    /// Begins a subscription for a subscriber of this `name`, and answers its number: 1 for the first one, and so on.
    ///
    /// # Errors
    /// [`Fault::BadName`] where the text is no name, [`Fault::AlreadySubscribed`] where a live subscription has it,
    /// [`Fault::JournalFull`] or [`Fault::OutOfMemory`].
    pub fn subscribe(&mut self, name: &str) -> Result<SubId, Fault>
        ensures ok { IfOk result (λ sub. Subscribes self.old name.now sub.0 self.new) }
        ensures unchanged { OnErr result (self.new ≡ self.old) }
        ensures err { IfErr result (λ e.
            RefusesSubscribe e (journal_limits self.old.limits) self.old.history name.now) }
    {
        self.state.subscribe(name)
    }

    /// Ends the subscription with the number `sub`, which never comes again: what waits for it is gone, and its name is
    /// free again.
    ///
    /// # Errors
    /// [`Fault::UnknownSub`] where it isn't live, [`Fault::JournalFull`] or [`Fault::OutOfMemory`].
    pub fn unsubscribe(&mut self, sub: SubId) -> Result<(), Fault>
        ensures ok { OnOk result (Unsubscribes self.old sub.0 self.new) }
        ensures unchanged { OnErr result (self.new ≡ self.old) }
        ensures err { IfErr result (λ e.
            RefusesUnsubscribe e (journal_limits self.old.limits) self.old.history sub.0) }
    {
        self.state.unsubscribe(sub)
    }

    /// Advances the clock to `t`, in milliseconds since 1970. Each running group is closed whose interval's end, and
    /// the grace after it, the clock comes to, and its subscription is given the group's record. A subscription whose
    /// limits leave no room for what it would be given is cut before the advance.
    ///
    /// # Errors
    /// [`Fault::ClockBack`] where the clock stands later, [`Fault::JournalFull`] or [`Fault::AuditFull`]: the first
    /// that stands; or [`Fault::OutOfMemory`].
    pub fn advance(&mut self, t: u64) -> Result<(), Fault>
        ensures ok { OnOk result (Advances self.old t self.new) }
        ensures unchanged { OnErr result (self.new ≡ self.old) }
        ensures err { IfErr result (λ e. RefusesAdvance e self.old t) }
    {
        self.state.advance(t)
    }

    /// Builds the next message of the live subscription with the number `sub`, out of what waits for it; or answers
    /// `None` where nothing waits. `now` is its Export Time, in seconds since 1970 (RFC 7011, section 3.1), and
    /// `target` the most octets that it is to have: it is longer only where one announcement or record alone is.
    ///
    /// # Errors
    /// [`Fault::UnknownSub`] where the subscription isn't live; or [`Fault::OutOfMemory`].
    pub fn pull(&mut self, sub: SubId, now: u32, target: u16) -> Result<Option<Bytes>, Fault>
        ensures ok { IfOk result (λ answer. Pulls self.old sub.0 now target answer self.new) }
        ensures unchanged { OnErr result (self.new ≡ self.old) }
        ensures err { IfErr result (λ e. RefusesPull e self.old.history sub.0) }
    {
        self.state.pull(sub, now, target)
    }

    /// Builds the next message of the live subscription with the number `sub` as [`pull`](Mediator::pull) does with
    /// `now` and `target`, in pieces: the octets of its records are shared with what else has them, unless its runs are
    /// many and short.
    ///
    /// # Errors
    /// [`Fault::UnknownSub`] where the subscription isn't live; or [`Fault::OutOfMemory`].
    pub fn pull_pieces(
        &mut self,
        sub: SubId,
        now: u32,
        target: u16,
    ) -> Result<Option<MessagePieces>, Fault>
        ensures ok { IfOk result (λ answer. Pulls self.old sub.0 now target answer self.new) }
        ensures unchanged { OnErr result (self.new ≡ self.old) }
        ensures err { IfErr result (λ e. RefusesPull e self.old.history sub.0) }
    {
        self.state.pull_pieces(sub, now, target)
    }

    /// How the live subscription with the number `sub` stands. It takes no memory.
    ///
    /// # Errors
    /// [`Fault::UnknownSub`] where no subscription with this number is live.
    pub fn status(&self, sub: SubId) -> Result<Status, Fault>
        ensures ok { IfOk result (λ status. IsStatusOf self.now sub.0 status) }
        ensures err { OnErr result (is_live sub.0 self.now.history ≡ false) }
        ensures fault { IfErr result (λ e. e ≡ UnknownSub) }
    {
        match self.state.status(sub) {
            Some(status) => Ok(status),
            None => Err(Fault::UnknownSub),
        }
    }

    /// Whether one of `shares`, which a message would give, has no room in its subscription's queue until some of what
    /// waits is pulled, and has room then: so the message cuts a subscription now, and may not cut it later.
    pub fn is_held_up(&self, shares: &[Share]) -> bool {
        self.state.is_held_up(shares)
    }

    /// Whether what an advance of the clock to `t`, in milliseconds since 1970, would close for a subscription has no
    /// room in its queue until some of what waits is pulled, and has room then. It is false where there is no memory to
    /// find that out.
    pub fn is_advance_held_up(&self, t: u64) -> bool {
        self.state.is_advance_held_up(t)
    }

    /// How many groups of aggregates the clock hasn't closed, of all subscriptions together.
    ///
    /// # Errors
    /// Want of memory.
    pub fn open_groups(&self) -> Result<u64, AllocError> {
        self.state.open_groups()
    }

    /// How many entries of the audit wait to be handed out.
    pub fn audit_waiting(&self) -> u32 {
        self.state.audit_waiting()
    }

    /// Hands out the oldest `most` of the audit's entries that wait, or all where there are fewer, in their order.
    ///
    /// # Errors
    /// Want of memory. Where no entry is handed out, there is no error.
    pub fn drain_audit(&mut self, most: u32) -> Result<Vec<AuditEntry>, AllocError>
        ensures ok { IfOk result (λ out. Drains self.old most out.items self.new) }
        ensures unchanged { OnErr result (self.new ≡ self.old) }
        // Nothing to hand out takes no memory.
        ensures none { take most (noted_at self.old) ≡ [] → IsOk result }
    {
        self.state.drain_audit(most)
    }

    /// Ends the run. What stays of it is its journal. It takes no memory.
    pub fn finish(self) -> Finished
        ensures entries { result.journal.entries ≡ self.history }
        ensures limits { result.journal.limits ≡ journal_limits self.limits }
        // What is kept of every mediator holds of the history that is left.
        ensures sound { IsSoundMediation self }
    {
        let Mediator { state } = self;
        Finished {
            journal: state.into_chronicle(),
        }
    }
}
