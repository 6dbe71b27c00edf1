//! The state of a mediator and its calls, over what keeps its history.
ghost use Rattle.std.specs.Prelude.{◌≡◌, ◌≤◌, ◌<◌, ◌+◌, ◌-◌, ◌^◌, ◌++◌, ◌∷◌, ◌↔◌, [], ◌≢◌, ℕ, List, length, map, take, drop, true, false, IsOk, IfOk, IfErr, IfSome, IfNone, OnOk, OnErr};
ghost use Rattle.event_journal.specs.declared.limits.TheConstants.{MOST_ENTRIES};
ghost use Rattle.event_journal.specs.declared.entry.Entry.{Entry};
ghost use Rattle.event_journal.specs.declared.entry.Entry.TheVariants.{Open, Close, Message, Edit, Subscribe, Unsubscribe, Advance, Cut};
ghost use Rattle.event_journal.specs.Room.{HasRoom};
ghost use Rattle.mediator_history.specs.Subscriptions.{is_live};
ghost use Rattle.mediator_history.specs.Auditing.{audit_list};
ghost use Rattle.mediator_shares.specs.Judgements.{IsJudgementOf};

use crate::engine::Engine;
use crate::fault::Fault;
use crate::plan::octets_for_proof;
use crate::receipt::{Receipt, Status};
use bytes::Bytes;
use disclosure_audit::{Audit, AuditEntry, AuditQueue};
use event_journal::{Chronicle, Entry, PolicyText};
use hash_keys::HashKeys;
use ipfix_session::Reading;
use mediator_shares::Judgement;
use mediator_tables::{SessionId, Share, SubId};
use policy_text::{Fault as PolicyFault, FaultKind, Name, Policy, is_name};
use prepared_message::{JudgedAhead, Prepared, Snapshot};
use std::alloc::{AllocError, Global};
use std::slice::from_ref;
use subscriber_stream::{MessagePieces, StreamLimits};

/// How many records may wait for a subscription where nobody sets a limit: 65,536.
pub const DEFAULT_QUEUE: u32 = 65_536;

/// How many entries may wait in the audit where nobody sets a limit: 131,072.
pub const DEFAULT_AUDIT: u32 = 131_072;

/// A mediator's state: what keeps its history, and what it keeps beside that, where `Q` is what keeps the entries of the
/// audit, or counts them. Contracts say by `StateStandsFor` for which histories it stands. A call that is refused changes
/// none of it.
#[derive(Drop)]
pub struct State<C, Q: AuditQueue> {
    pub(crate) chronicle: C,
    pub(crate) engine: Engine<Q>,
}

impl<C: Chronicle + Drop, Q: AuditQueue + Drop> State<C, Q> {
    ghost use Rattle.mediator_state.specs.Standing.{AreEngineLimits};
    ghost use Rattle.disclosure_audit.specs.Queue.{StandsIn};
    ghost use Rattle.mediator_state.specs.Calls.{StateStandsFor, StandsForSome, ForEachHistory, Proceeds, StaysSame, LacksRoom, OpensAfter, RefusesOpenAfter, ClosesAfter, RefusesClose};

    /// A state before any entry: no session is open, nobody is subscribed, and the policy has no rules. The stream of
    /// each subscription may hold what `streams` say, at most 1,000,000 records and 65,280 templates. The history is
    /// kept by `chronicle`, which has no entry, and what is kept back waits in `audit`, which was given nothing yet. All
    /// else is in memory from `alloc`.
    ///
    /// # Errors
    /// Want of memory.
    pub fn new(
        alloc: Global,
        streams: StreamLimits,
        audit: Audit<Q>,
        chronicle: C,
    ) -> Result<State<C, Q>, AllocError>
        requires range { AreEngineLimits streams }
        requires fresh { StandsIn audit.standing [] }
        // It stands for the history without an entry, which the chronicle keeps.
        ensures stands { IfOk result (λ s. C.tells chronicle [] → StateStandsFor C.tells s []) }
        ensures kept { IfOk result (λ s. s.chronicle ≡ chronicle) }
        // It holds what the limits say, and what the audit says, and nothing more was drained.
        ensures limits { IfOk result (λ s. s.engine.limits ≡ streams) }
        ensures audit_limit { IfOk result (λ s. s.engine.audit.limit ≡ audit.limit) }
        ensures drained { IfOk result (λ s.
            s.engine.audit.standing.drained ≡ audit.standing.drained) }
    {
        let engine = Engine::new(alloc, streams, audit)?;
        Ok(State { chronicle, engine })
    }

    /// Hashes by `keys` what exporters choose: the keys of groups, and templates, of subscriptions that begin from now
    /// on. It shows in no answer.
    pub fn hash_by(&mut self, keys: HashKeys)
        ensures unchanged { StaysSame C.tells C.limits self.old self.new }
    {
        self.engine.hash_by(keys);
    }

    /// What keeps the history.
    pub fn chronicle(&self) -> &C
        ensures { result.now ≡ self.now.chronicle }
    {
        &self.chronicle
    }

    /// What keeps the history, without the rest.
    pub fn into_chronicle(self) -> C
        ensures { result ≡ self.chronicle }
    {
        self.chronicle
    }

    /// Makes room for `entry` as the next one of the history.
    ///
    /// # Errors
    /// [`Fault::JournalFull`] or [`Fault::OutOfMemory`], and then only reserved room has changed.
    fn make_room(&mut self, entry: &Entry) -> Result<(), Fault>
        // Only reserved room changes.
        ensures tells { (h : List Entry) → C.tells self.old.chronicle h
            → C.tells self.new.chronicle h }
        ensures engine { self.new.engine ≡ self.old.engine }
        // Answered Ok, the entry has room, in memory too.
        ensures room { OnOk result (HasRoom (C.limits self.new.chronicle)
            (C.count self.new.chronicle) (C.octets self.new.chronicle) (entry.now ∷ [])) }
        ensures count { C.count self.new.chronicle ≡ C.count self.old.chronicle }
        ensures octets { C.octets self.new.chronicle ≡ C.octets self.old.chronicle }
        ensures limits { C.limits self.new.chronicle ≡ C.limits self.old.chronicle }
        ensures short { OnOk result (C.count self.old.chronicle < MOST_ENTRIES) }
        ensures reserved { OnOk result (0 < C.spare self.new.chronicle) }
        // Else it is told why not.
        ensures err { IfErr result (λ e. LacksRoom e (C.limits self.old.chronicle)
            (C.count self.old.chronicle) (C.octets self.old.chronicle) (entry.now ∷ [])) }
    {
        if !self.chronicle.room(from_ref(entry)) {
            return Err(Fault::JournalFull);
        }
        let _for_proof = self.chronicle.len();
        self.chronicle.reserve(1)?;
        Ok(())
    }

    /// Opens a session of an exporter, and answers its number: 1 for the first one, and so on.
    ///
    /// # Errors
    /// [`Fault::JournalFull`] or [`Fault::OutOfMemory`]. Nothing has changed then.
    pub fn open(&mut self) -> Result<SessionId, Fault>
        requires stands { StandsForSome C.tells self.old }
        // The entry of the call stands as the next one, and nothing is handed out.
        ensures ok { IfOk result (λ session. Proceeds C.tells C.limits self.old self.new
            (OpensAfter session.0)) }
        // A refused call changes nothing, and names the first cause.
        ensures unchanged { OnErr result (StaysSame C.tells C.limits self.old self.new) }
        ensures err { IfErr result (λ e. ForEachHistory C.tells self.old
            (RefusesOpenAfter e (C.limits self.old.chronicle))) }
    {
        let session = self.engine.next_session(self.chronicle.len());
        let entry = Entry::Open { session: session.0 };
        self.make_room(&entry)?;
        self.engine.open(session)?;
        self.chronicle.push_reserved(entry);
        Ok(session)
    }

    /// Closes the session with the number `session`, which never comes again.
    ///
    /// # Errors
    /// [`Fault::UnknownSession`] where it isn't open, [`Fault::JournalFull`] or [`Fault::OutOfMemory`]: the first that
    /// stands. Nothing has changed then.
    pub fn close(&mut self, session: SessionId) -> Result<(), Fault>
        requires stands { StandsForSome C.tells self.old }
        // The entry of the call stands as the next one, and nothing is handed out.
        ensures ok { OnOk result (Proceeds C.tells C.limits self.old self.new
            (ClosesAfter session.0)) }
        // A refused call changes nothing, and names the first cause.
        ensures unchanged { OnErr result (StaysSame C.tells C.limits self.old self.new) }
        ensures err { IfErr result (λ e. ForEachHistory C.tells self.old
            (λ h. RefusesClose e (C.limits self.old.chronicle) h session.0)) }
    {
        if !self.engine.is_open(session) {
            return Err(Fault::UnknownSession);
        }
        let entry = Entry::Close { session: session.0 };
        self.make_room(&entry)?;
        self.engine.close(session);
        self.chronicle.push_reserved(entry);
        Ok(())
    }
}

impl<C: Chronicle + Drop, Q: AuditQueue + Drop> State<C, Q> {
    ghost use Rattle.mediator_state.specs.Calls.{StandsForSome, ForEachHistory, GoesOnBy, Proceeds, StaysSame, ReceivesAfter, RefusesReceiveAfter, RefusesReceivePreparedAfter, IsSnapshot, RefusesSnapshot, EditsAfter, RefusesEdit, SubscribesAfter, RefusesSubscribe, UnsubscribesAfter, RefusesUnsubscribe, AdvancesAfter, RefusesAdvanceAfter};
    ghost use Rattle.mediator_state.specs.Seen.{handed_place};
    ghost use Rattle.mediator_state.specs.Planning.{IsNextReading};

    /// Accepts `message` as the next one of the session with the number `session`. `number` is to be how many messages
    /// the session had. Each subscription that is served is given what the policy in force discloses to it, and the
    /// audit names what is kept back. A subscription whose limits leave no room for what it would be given is cut
    /// before the message, and is given nothing of it or of later ones.
    ///
    /// # Errors
    /// [`Fault::UnknownSession`], [`Fault::OutOfTurn`], [`Fault::Malformed`], [`Fault::JournalFull`] or
    /// [`Fault::AuditFull`]: the first that stands; or [`Fault::OutOfMemory`]. Nothing has changed then.
    pub fn receive(
        &mut self,
        session: SessionId,
        number: u64,
        message: Bytes,
    ) -> Result<Receipt, Fault>
        requires stands { StandsForSome C.tells self.old }
        // The message stands as the next entry, behind the cuts that it makes, and nothing is handed out.
        ensures ok { IfOk result (λ r. Proceeds C.tells C.limits self.old self.new
            (ReceivesAfter self.old.engine session.0 number message r)) }
        // A refused call changes nothing, and names the first cause.
        ensures unchanged { OnErr result (StaysSame C.tells C.limits self.old self.new) }
        ensures err { IfErr result (λ e. ForEachHistory C.tells self.old
            (λ h. RefusesReceiveAfter e (C.limits self.old.chronicle) self.old.engine h
            session.0 number message)) }
    {
        self.receive_judged(session, number, message, None)
    }

    /// Accepts `message` as the next one of the session with the number `session`, which is to have had `number`
    /// messages, as [`receive`](State::receive) does. `ahead`, what was judged of it elsewhere, is taken where it is of
    /// the records that the session finds in the message, and where its terms still hold. It changes no answer.
    ///
    /// # Errors
    /// Those of [`receive`](State::receive).
    pub fn receive_judged(
        &mut self,
        session: SessionId,
        number: u64,
        message: Bytes,
        ahead: Option<JudgedAhead>,
    ) -> Result<Receipt, Fault>
        requires stands { StandsForSome C.tells self.old }
        // The message stands as the next entry, behind the cuts that it makes, and nothing is handed out.
        ensures ok { IfOk result (λ r. Proceeds C.tells C.limits self.old self.new
            (ReceivesAfter self.old.engine session.0 number message r)) }
        // A refused call changes nothing, and names the first cause.
        ensures unchanged { OnErr result (StaysSame C.tells C.limits self.old self.new) }
        ensures err { IfErr result (λ e. ForEachHistory C.tells self.old
            (λ h. RefusesReceiveAfter e (C.limits self.old.chronicle) self.old.engine h
            session.0 number message)) }
    {
        let reading = self.engine.read(session, number, &message)?;
        let judgement = judgement_of(ahead, &reading);
        self.take_in(session, number, message, reading, judgement)
    }

    /// The templates of the open session with the number `session` as they stand, with the terms on which records are
    /// shared now, so that its messages can be prepared and judged without this state. However many templates there
    /// are, it costs one owner more, since the session shares them from then on.
    ///
    /// # Errors
    /// [`Fault::UnknownSession`] where the session isn't open; or [`Fault::OutOfMemory`].
    pub fn snapshot(&mut self, session: SessionId) -> Result<Snapshot, Fault>
        ensures ok { IfOk result (λ snapshot. ForEachHistory C.tells self.old
            (λ h. IsSnapshot h session.0 snapshot)) }
        // Nothing changes.
        ensures unchanged { StaysSame C.tells C.limits self.old self.new }
        // A refusal names the first cause.
        ensures err { IfErr result (λ e. ForEachHistory C.tells self.old
            (λ h. RefusesSnapshot e h session.0)) }
    {
        self.engine.snapshot(session)
    }

    /// Accepts `prepared`, a message that was prepared elsewhere, as the next one of the session with the number
    /// `session`, as [`receive`](State::receive) accepts its octets. `number` is to be how many messages the session
    /// had.
    ///
    /// # Errors
    /// Those of [`receive`](State::receive), but with [`Fault::Stale`] in place of [`Fault::Malformed`]: only where an
    /// ID of the message has another template in the session than by which it was prepared, or only one of them has
    /// one. The message is handed back beside the fault, and nothing has changed.
    pub fn receive_prepared(
        &mut self,
        session: SessionId,
        number: u64,
        mut prepared: Prepared,
    ) -> Result<Receipt, (Fault, Prepared)>
        requires stands { StandsForSome C.tells self.old }
        // The message stands as the next entry, behind the cuts that it makes, and nothing is handed out.
        ensures ok { IfOk result (λ r. Proceeds C.tells C.limits self.old self.new
            (ReceivesAfter self.old.engine session.0 number prepared.message r)) }
        // A refused call changes nothing, and names the first cause.
        ensures unchanged { OnErr result (StaysSame C.tells C.limits self.old self.new) }
        ensures err { IfErr result (λ e. ForEachHistory C.tells self.old
            (λ h. RefusesReceivePreparedAfter e.0 (C.limits self.old.chronicle) self.old.engine h
            session.0 number prepared)) }
        // The message is handed back, to be prepared anew or offered again.
        ensures handed_back { IfErr result (λ e. e.1 ≡ prepared) }
    {
        match self.take_prepared(session, number, &mut prepared) {
            Ok(receipt) => Ok(receipt),
            Err(fault) => Err((fault, prepared)),
        }
    }

    /// Accepts the message `prepared`, which is lent, as the next one of the session with the number `session`, which
    /// is to have had `number` messages, as [`receive_prepared`](State::receive_prepared) does. What was judged of it
    /// is used up once it is found to be the session's next one.
    ///
    /// # Errors
    /// Those of [`receive_prepared`](State::receive_prepared), without the message.
    fn take_prepared(
        &mut self,
        session: SessionId,
        number: u64,
        prepared: &mut Prepared,
    ) -> Result<Receipt, Fault>
        requires stands { StandsForSome C.tells self.old }
        // The message stands as the next entry, behind the cuts that it makes, and nothing is handed out.
        ensures ok { IfOk result (λ r. Proceeds C.tells C.limits self.old self.new
            (ReceivesAfter self.old.engine session.0 number prepared.old.message r)) }
        // A refused call changes nothing, and names the first cause.
        ensures unchanged { OnErr result (StaysSame C.tells C.limits self.old self.new) }
        ensures err { IfErr result (λ e. ForEachHistory C.tells self.old
            (λ h. RefusesReceivePreparedAfter e (C.limits self.old.chronicle) self.old.engine h
            session.0 number prepared.old)) }
        // What was read of the message stays.
        ensures lent { prepared.new ≡ prepared.old }
    {
        let reading = self.engine.read_prepared(session, number, prepared)?;
        let message = prepared.message().clone()?;
        let judgement = prepared.take_judgement();
        self.take_in(session, number, message, reading, judgement)
    }

    /// Accepts `message`, of which `reading` is what was read, as the next one of the session with the number
    /// `session`, which had `number` messages. `judgement`, what was judged of its records elsewhere, is taken where
    /// its terms still hold.
    ///
    /// # Errors
    /// [`Fault::JournalFull`], [`Fault::AuditFull`] or [`Fault::OutOfMemory`]. Nothing has changed then.
    fn take_in(
        &mut self,
        session: SessionId,
        number: u64,
        message: Bytes,
        reading: Reading,
        judgement: Option<Judgement>,
    ) -> Result<Receipt, Fault>
        requires stands { StandsForSome C.tells self.old }
        requires judgement { IfSome judgement
            (IsJudgementOf reading.meaning.header.domain reading.meaning.records) }
        requires read { ForEachHistory C.tells self.old
            (λ h. IsNextReading h session.0 number message reading) }
        // The message stands as the next entry, behind the cuts that it makes, and nothing is handed out.
        ensures ok { IfOk result (λ r. Proceeds C.tells C.limits self.old self.new
            (ReceivesAfter self.old.engine session.0 number message r)) }
        // A refused call changes nothing, and names the first cause.
        ensures unchanged { OnErr result (StaysSame C.tells C.limits self.old self.new) }
        ensures err { IfErr result (λ e. ForEachHistory C.tells self.old
            (λ h. RefusesReceiveAfter e (C.limits self.old.chronicle) self.old.engine h
            session.0 number message)) }
    {
        octets_for_proof(&message);
        let position = self.chronicle.len();
        let plan = self.engine.plan(position, session, reading, judgement)?;
        let message = Entry::Message {
            session: session.0,
            number,
            octets: message,
        };
        let entries = behind_cuts(self.engine.alloc, &plan.cuts, message)?;
        if !self.chronicle.room(&entries) {
            return Err(Fault::JournalFull);
        }
        let reserved = self.engine.make_room(&plan)?;
        self.chronicle.reserve(entries.len() as u64)?;
        self.append(entries);
        Ok(self.engine.accept(position, plan, reserved))
    }

    /// Puts the policy that `text` spells in force, and answers its revision: the number of edits, with it. What was
    /// accepted before is judged by the policy of its time, and running groups close as they stand.
    ///
    /// # Errors
    /// [`Fault::Policy`] where the text is no policy, [`Fault::JournalFull`] or [`Fault::OutOfMemory`]. Nothing has
    /// changed then.
    pub fn edit(&mut self, text: &str) -> Result<u64, Fault>
        requires stands { StandsForSome C.tells self.old }
        // The entry of the call stands as the next one, and nothing is handed out.
        ensures ok { IfOk result (λ revision. Proceeds C.tells C.limits self.old self.new
            (EditsAfter text.now revision)) }
        // A refused call changes nothing, and names the first cause.
        ensures unchanged { OnErr result (StaysSame C.tells C.limits self.old self.new) }
        ensures err { IfErr result (λ e. ForEachHistory C.tells self.old
            (λ h. RefusesEdit e (C.limits self.old.chronicle) h text.now)) }
    {
        let policy = read_policy(self.engine.alloc, text)?;
        let in_force = self.engine.with_policy(policy)?;
        let text = PolicyText::new(self.engine.alloc, text)?;
        let entry = Entry::Edit { text };
        let position = self.chronicle.len();
        self.make_room(&entry)?;
        let revision = self.engine.put_in_force(in_force, position);
        self.chronicle.push_reserved(entry);
        Ok(revision)
    }

    /// Begins a subscription for a subscriber of this `name`, and answers its number: 1 for the first one, and so on.
    ///
    /// # Errors
    /// [`Fault::BadName`] where the text is no name, [`Fault::AlreadySubscribed`] where a live subscription has it,
    /// [`Fault::JournalFull`] or [`Fault::OutOfMemory`]. Nothing has changed then.
    pub fn subscribe(&mut self, name: &str) -> Result<SubId, Fault>
        requires stands { StandsForSome C.tells self.old }
        // The entry of the call stands as the next one, and nothing is handed out.
        ensures ok { IfOk result (λ sub. Proceeds C.tells C.limits self.old self.new
            (SubscribesAfter name.now sub.0)) }
        // A refused call changes nothing, and names the first cause.
        ensures unchanged { OnErr result (StaysSame C.tells C.limits self.old self.new) }
        ensures err { IfErr result (λ e. ForEachHistory C.tells self.old
            (λ h. RefusesSubscribe e (C.limits self.old.chronicle) h name.now)) }
    {
        if !is_name(name) {
            return Err(Fault::BadName);
        }
        if let Some(sub) = self.engine.named(name) {
            return Err(Fault::AlreadySubscribed { sub: sub.0 });
        }
        let sub = self.engine.next_subscription(self.chronicle.len());
        let copy = Name::new(self.engine.alloc, name.as_bytes())?;
        let entry = Entry::Subscribe {
            sub: sub.0,
            name: copy,
        };
        self.make_room(&entry)?;
        self.engine.subscribe(sub, name)?;
        self.chronicle.push_reserved(entry);
        Ok(sub)
    }

    /// Ends the subscription with the number `sub`, which never comes again: what waits for it is gone, and its name is
    /// free again.
    ///
    /// # Errors
    /// [`Fault::UnknownSub`] where it isn't live, [`Fault::JournalFull`] or [`Fault::OutOfMemory`]. Nothing has changed
    /// then.
    pub fn unsubscribe(&mut self, sub: SubId) -> Result<(), Fault>
        requires stands { StandsForSome C.tells self.old }
        // The limits stay.
        ensures limits { self.new.engine.limits ≡ self.old.engine.limits }
        ensures audit_limit { self.new.engine.audit.limit ≡ self.old.engine.audit.limit }
        // The end stands as the next entry. Other subscriptions keep their places, and nothing is drained.
        ensures ok { OnOk result (GoesOnBy C.tells C.limits self.old self.new
            (UnsubscribesAfter sub.0)) }
        ensures others { (q : ℕ) → q ≢ sub.0
            → handed_place self.new.engine q ≡ handed_place self.old.engine q }
        ensures drained { self.new.engine.audit.standing.drained
            ≡ self.old.engine.audit.standing.drained }
        ensures journaled { C.limits self.new.chronicle ≡ C.limits self.old.chronicle }
        // A refused call changes nothing, and names the first cause.
        ensures unchanged { OnErr result (StaysSame C.tells C.limits self.old self.new) }
        ensures err { IfErr result (λ e. ForEachHistory C.tells self.old
            (λ h. RefusesUnsubscribe e (C.limits self.old.chronicle) h sub.0)) }
    {
        if !self.engine.is_live(sub) {
            return Err(Fault::UnknownSub);
        }
        let entry = Entry::Unsubscribe { sub: sub.0 };
        self.make_room(&entry)?;
        self.engine.unsubscribe(sub);
        self.chronicle.push_reserved(entry);
        Ok(())
    }

    /// Advances the clock to `t`, in milliseconds since 1970. Each running group is closed whose interval's end, and
    /// the grace after it, the clock comes to, and its subscription is given the group's record. A subscription whose
    /// limits leave no room for what it would be given is cut before the advance.
    ///
    /// # Errors
    /// [`Fault::ClockBack`] where the clock stands later, [`Fault::JournalFull`] or [`Fault::AuditFull`]: the first
    /// that stands; or [`Fault::OutOfMemory`]. Nothing has changed then.
    pub fn advance(&mut self, t: u64) -> Result<(), Fault>
        requires stands { StandsForSome C.tells self.old }
        // The advance stands as the next entry, behind the cuts that it makes, and nothing is handed out.
        ensures ok { OnOk result (Proceeds C.tells C.limits self.old self.new
            (AdvancesAfter self.old.engine t)) }
        // A refused call changes nothing, and names the first cause.
        ensures unchanged { OnErr result (StaysSame C.tells C.limits self.old self.new) }
        ensures err { IfErr result (λ e. ForEachHistory C.tells self.old
            (λ h. RefusesAdvanceAfter e (C.limits self.old.chronicle) self.old.engine h t)) }
    {
        let last = self.engine.in_force.clock();
        if t < last {
            return Err(Fault::ClockBack { last });
        }
        let position = self.chronicle.len();
        let closing = self.engine.plan_advance(t)?;
        let entries = behind_cuts(self.engine.alloc, &closing.cuts, Entry::Advance { t })?;
        if !self.chronicle.room(&entries) {
            return Err(Fault::JournalFull);
        }
        self.engine.make_room_to_close(&closing)?;
        self.chronicle.reserve(entries.len() as u64)?;
        self.append(entries);
        self.engine.advance(position, t, closing);
        Ok(())
    }

    /// Puts `entries` behind the history, in room that is there, in memory too. It can't fail.
    fn append(&mut self, entries: Vec<Entry>)
        requires room { HasRoom (C.limits self.old.chronicle) (C.count self.old.chronicle)
            (C.octets self.old.chronicle) entries.items }
        requires reserved { length entries.items ≤ C.spare self.old.chronicle }
        // The history goes on with these entries, and nothing else changes.
        ensures tells { (h : List Entry) → C.tells self.old.chronicle h
            → C.tells self.new.chronicle (h ++ entries.items) }
        ensures engine { self.new.engine ≡ self.old.engine }
        ensures limits { C.limits self.new.chronicle ≡ C.limits self.old.chronicle }
    {
        'entries: for entry in entries {
            self.chronicle.push_reserved(entry);
        }
    }
}

impl<C: Chronicle + Drop, Q: AuditQueue + Drop> State<C, Q> {
    ghost use Rattle.mediator_state.specs.Calls.{StateStandsFor, ForEachHistory, KeepsHistories, StaysSame, PullsAfter, RefusesPull, IsStatus};
    ghost use Rattle.mediator_state.specs.Seen.{handed_place};
    ghost use Rattle.std.specs.Prelude.{min, is_some};
    ghost use Rattle.disclosure_audit.specs.Queue.{oldest};
    ghost use Rattle.subscriber_stream.specs.Calls.{message_if};

    /// Builds the next message of the live subscription with the number `sub`, out of what waits for it; or answers
    /// `None` where nothing waits. `now` is its Export Time, in seconds since 1970 (RFC 7011, section 3.1), and
    /// `target` the most octets that it is to have: it is longer only where one announcement or record alone is.
    ///
    /// # Errors
    /// [`Fault::UnknownSub`] where the subscription isn't live; or [`Fault::OutOfMemory`]. Nothing has changed then.
    pub fn pull(&mut self, sub: SubId, now: u32, target: u16) -> Result<Option<Bytes>, Fault>
        // The limits stay.
        ensures limits { self.new.engine.limits ≡ self.old.engine.limits }
        ensures audit_limit { self.new.engine.audit.limit ≡ self.old.engine.audit.limit }
        // The message is that at the place of the subscription, which moves past it. No other place moves.
        ensures ok { IfOk result (λ m. ForEachHistory C.tells self.old
            (PullsAfter self.old.engine self.new.engine sub.0 now target m)) }
        ensures others { (q : ℕ) → q ≢ sub.0
            → handed_place self.new.engine q ≡ handed_place self.old.engine q }
        ensures drained { self.new.engine.audit.standing.drained
            ≡ self.old.engine.audit.standing.drained }
        // The history stays in any case, and so do the limits of the journal.
        ensures keeps { KeepsHistories C.tells self.old self.new }
        ensures journaled { C.limits self.new.chronicle ≡ C.limits self.old.chronicle }
        // A refused call changes nothing, and names the first cause.
        ensures unchanged { OnErr result (StaysSame C.tells C.limits self.old self.new) }
        ensures err { IfErr result (λ e. ForEachHistory C.tells self.old
            (λ h. RefusesPull e h sub.0)) }
    {
        if !self.engine.is_live(sub) {
            return Err(Fault::UnknownSub);
        }
        match self.engine.subscriptions.pull(sub, now, target) {
            Ok(message) => Ok(message),
            Err(AllocError) => Err(Fault::OutOfMemory),
        }
    }

    /// Builds the next message of the live subscription with the number `sub` as [`pull`](State::pull) does with `now`
    /// and `target`, in pieces: the octets of its records are shared with what else has them, unless its runs are many
    /// and short.
    ///
    /// # Errors
    /// [`Fault::UnknownSub`] where the subscription isn't live; or [`Fault::OutOfMemory`]. Nothing has changed then.
    pub fn pull_pieces(
        &mut self,
        sub: SubId,
        now: u32,
        target: u16,
    ) -> Result<Option<MessagePieces>, Fault>
        // The limits stay.
        ensures limits { self.new.engine.limits ≡ self.old.engine.limits }
        ensures audit_limit { self.new.engine.audit.limit ≡ self.old.engine.audit.limit }
        // The message is that at the place of the subscription, which moves past it. No other place moves.
        ensures ok { IfOk result (λ m. ForEachHistory C.tells self.old
            (PullsAfter self.old.engine self.new.engine sub.0 now target m)) }
        ensures others { (q : ℕ) → q ≢ sub.0
            → handed_place self.new.engine q ≡ handed_place self.old.engine q }
        ensures drained { self.new.engine.audit.standing.drained
            ≡ self.old.engine.audit.standing.drained }
        // The history stays in any case, and so do the limits of the journal.
        ensures keeps { KeepsHistories C.tells self.old self.new }
        ensures journaled { C.limits self.new.chronicle ≡ C.limits self.old.chronicle }
        // A refused call changes nothing, and names the first cause.
        ensures unchanged { OnErr result (StaysSame C.tells C.limits self.old self.new) }
        ensures err { IfErr result (λ e. ForEachHistory C.tells self.old
            (λ h. RefusesPull e h sub.0)) }
    {
        if !self.engine.is_live(sub) {
            return Err(Fault::UnknownSub);
        }
        match self.engine.subscriptions.pull_pieces(sub, now, target) {
            Ok(pieces) => Ok(pieces),
            Err(AllocError) => Err(Fault::OutOfMemory),
        }
    }

    /// Builds the next message of the live subscription with the number `sub` as [`pull`](State::pull) does with `now`
    /// and `target`, and puts its octets in place of those that stand in `message`: so one list serves many messages.
    /// The answer is whether there is one; where nothing waits, `message` stays.
    ///
    /// # Errors
    /// [`Fault::UnknownSub`] where the subscription isn't live; or [`Fault::OutOfMemory`], and then `message` may have
    /// changed. Nothing of the state has.
    pub fn pull_to(
        &mut self,
        sub: SubId,
        now: u32,
        target: u16,
        message: &mut Vec<u8>,
    ) -> Result<bool, Fault>
        // The limits stay.
        ensures limits { self.new.engine.limits ≡ self.old.engine.limits }
        ensures audit_limit { self.new.engine.audit.limit ≡ self.old.engine.audit.limit }
        // The message is that at the place of the subscription, which moves past it. No other place moves.
        ensures ok { IfOk result (λ is_there. ForEachHistory C.tells self.old
            (PullsAfter self.old.engine self.new.engine sub.0 now target
            (message_if is_there message.new.items))) }
        ensures others { (q : ℕ) → q ≢ sub.0
            → handed_place self.new.engine q ≡ handed_place self.old.engine q }
        ensures drained { self.new.engine.audit.standing.drained
            ≡ self.old.engine.audit.standing.drained }
        // The history stays in any case, and so do the limits of the journal.
        ensures keeps { KeepsHistories C.tells self.old self.new }
        ensures journaled { C.limits self.new.chronicle ≡ C.limits self.old.chronicle }
        // A refused call changes nothing, and names the first cause.
        ensures unchanged { OnErr result (StaysSame C.tells C.limits self.old self.new) }
        ensures err { IfErr result (λ e. ForEachHistory C.tells self.old
            (λ h. RefusesPull e h sub.0)) }
    {
        if !self.engine.is_live(sub) {
            return Err(Fault::UnknownSub);
        }
        match self.engine.subscriptions.pull_to(sub, now, target, message) {
            Ok(is_there) => Ok(is_there),
            Err(AllocError) => Err(Fault::OutOfMemory),
        }
    }

    /// How the live subscription with the number `sub` stands, or `None` where none with this number is live. It takes
    /// no memory.
    pub fn status(&self, sub: SubId) -> Option<Status>
        ensures some { IfSome result (λ s. ForEachHistory C.tells self.now
            (λ h. IsStatus h sub.0 (handed_place self.now.engine sub.0) s)) }
        ensures none { IfNone result (ForEachHistory C.tells self.now
            (λ h. is_live sub.0 h ≡ false)) }
    {
        let kept = self.engine.subscriptions.get(sub)?;
        Some(Status {
            queued: kept.stream.queued(),
            handed: kept.stream.handed(),
            shapes: kept.stream.shapes(),
            cut: kept.is_cut,
        })
    }

    /// Whether one of `shares`, which a message would give, has no room in its subscription's queue until some of what
    /// waits is pulled, and has room then: so the message cuts a subscription now, and may not cut it later. It takes
    /// no memory.
    pub fn is_held_up(&self, shares: &[Share]) -> bool {
        let subscriptions = &self.engine.subscriptions;
        shares.iter().any(|share| subscriptions.is_held_up(share))
    }

    /// Whether what an advance of the clock to `t`, in milliseconds since 1970, would close for a subscription has no
    /// room in its queue until some of what waits is pulled, and has room then. It is false where there is no memory to
    /// find that out.
    pub fn is_advance_held_up(&self, t: u64) -> bool {
        self.engine.is_advance_held_up(t)
    }

    /// How many groups of aggregates the clock hasn't closed, of all subscriptions together.
    ///
    /// # Errors
    /// Want of memory.
    pub fn open_groups(&self) -> Result<u64, AllocError> {
        let groups = &self.engine.groups;
        let mut count = 0u64;
        for sub in groups.subs()? {
            count = count.saturating_add(groups.len(sub) as u64);
        }
        Ok(count)
    }

    /// How many entries of the audit wait to be handed out.
    pub fn audit_waiting(&self) -> u32 {
        let audit = &self.engine.audit;
        audit.limit().saturating_sub(audit.room())
    }

    /// Hands out the oldest `most` of the audit's entries that wait, or all where there are fewer, in their order. Where
    /// they are counted alone they wait no more either, and none is handed out.
    ///
    /// # Errors
    /// Want of memory, and then nothing has changed. Where no entry is handed out, there is no error.
    pub fn drain_audit(&mut self, most: u32) -> Result<Vec<AuditEntry>, AllocError>
        // The limits stay.
        ensures limits { self.new.engine.limits ≡ self.old.engine.limits }
        ensures audit_limit { self.new.engine.audit.limit ≡ self.old.engine.audit.limit }
        // The oldest entries are handed out where entries are kept, and count as drained. No place moves.
        ensures ok { IfOk result (λ out. ForEachHistory C.tells self.old (λ h. (Q.KEEPS ≡ true
            → out.items ≡ take most (drop self.old.engine.audit.standing.drained (audit_list h)))
            × StateStandsFor C.tells self.new h)) }
        // Where they are counted alone, none is handed out.
        ensures counted { IfOk result (λ out. Q.KEEPS ≡ false → out.items ≡ []) }
        ensures places { (q : ℕ) → handed_place self.new.engine q ≡ handed_place self.old.engine q }
        ensures drained { IfOk result (λ _. self.new.engine.audit.standing.drained
            ≡ self.old.engine.audit.standing.drained
            + min most self.old.engine.audit.standing.waiting) }
        ensures waiting { OnOk result (self.new.engine.audit.standing.waiting
            ≡ self.old.engine.audit.standing.waiting - most) }
        ensures journaled { C.limits self.new.chronicle ≡ C.limits self.old.chronicle }
        // Want of memory changes nothing.
        ensures err { OnErr result (self.new ≡ self.old) }
        // Nothing to hand out takes no memory.
        ensures none { oldest most self.old.engine.audit.standing ≡ [] → IsOk result }
        // Whether entries are kept is said by the type of what keeps or counts them.
        ensures keeps { is_some self.old.engine.audit.standing.entries ≡ Q.KEEPS }
    {
        self.engine.audit.drain(most)
    }
}

/// The entries of `cuts`, which are numbers of subscriptions, and behind them the entry `last`; in memory from `alloc`.
///
/// # Errors
/// Want of memory.
fn behind_cuts(alloc: Global, cuts: &[u64], last: Entry) -> Result<Vec<Entry>, AllocError>
    ensures { IfOk result (λ v. v.items ≡ map Cut cuts.now ++ last ∷ []) }
{
    let mut entries = Vec::with_capacity(alloc, cuts.len() + 1)?;
    'cuts: for sub in cuts {
        entries.push_reserved(Entry::Cut { sub: *sub });
    }
    entries.push_reserved(last);
    Ok(entries)
}

ghost use Rattle.std.specs.Prelude.{Ok};
ghost use Rattle.policy_text.specs.Parsing.{policy_of};
ghost use Rattle.mediator_state.specs.Calls.{RefusesPolicy};

/// The policy that `text` spells, in memory from `alloc`.
///
/// # Errors
/// [`Fault::Policy`] with the first fault of the text; or [`Fault::OutOfMemory`].
fn read_policy(alloc: Global, text: &str) -> Result<Policy, Fault>
    ensures ok { IfOk result (λ policy. policy_of text.now ≡ Ok policy) }
    ensures err { IfErr result (λ e. RefusesPolicy e text.now) }
{
    match Policy::parse(alloc, text) {
        Ok(policy) => Ok(policy),
        Err(fault) => Err(refusal(fault)),
    }
}

ghost use Rattle.mediator_state.specs.Refusals.{policy_refusal};

/// The refusal that `fault` of a policy's text is. Want of memory is no fault of a policy.
fn refusal(fault: PolicyFault) -> Fault
    ensures { result ≡ policy_refusal fault }
{
    match fault.kind {
        FaultKind::OutOfMemory => Fault::OutOfMemory,
        FaultKind::NoHeader
        | FaultKind::UnknownWord
        | FaultKind::BadName
        | FaultKind::BadNumber
        | FaultKind::BadPrefix
        | FaultKind::BadTruncate
        | FaultKind::BadDegrade
        | FaultKind::UnknownAggregate
        | FaultKind::DoubleAggregate
        | FaultKind::BadKey
        | FaultKind::TooMany => Fault::Policy(fault),
    }
}

/// What was judged `ahead` of a message, where it is of the records that `reading` has of it.
fn judgement_of(ahead: Option<JudgedAhead>, reading: &Reading) -> Option<Judgement>
    ensures { IfSome result
        (IsJudgementOf reading.now.meaning.header.domain reading.now.meaning.records) }
{
    ahead?.judgement_of(reading.header().domain, reading.records())
}
