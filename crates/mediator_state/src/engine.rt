//! What a mediator keeps beside its history, with the steps by which its calls change that.
ghost use Rattle.std.specs.Prelude.{◌≡◌, ◌≤◌, ◌<◌, ◌+◌, ◌^◌, ◌++◌, ◌∷◌, [], ◌≢◌, ℕ, List, length, not, true, is_some, IfOk, IfSome, IfNone, OnOk, OnErr, IsSomeAnd, Ok};
ghost use Rattle.std.specs.List.{AllByRecursion};
ghost use Rattle.policy_text.specs.Parsing.{policy_of};
ghost use Rattle.mediator_shares.specs.InForce.{in_force_with};
ghost use Rattle.policy_text.specs.Naming.{is_name};
ghost use Rattle.disclosure_audit.specs.Noting.{kept_notes};
ghost use Rattle.disclosure_audit.specs.Queue.{stamp, most_notes, StandsIn};
ghost use Rattle.disclosure_audit.specs.declared.entry.Note.{Note};
ghost use Rattle.event_journal.specs.declared.limits.TheConstants.{MOST_ENTRIES};
ghost use Rattle.event_journal.specs.declared.entry.Entry.{Entry};
ghost use Rattle.event_journal.specs.declared.entry.Entry.TheVariants.{Open, Close, Message, Edit, Subscribe, Unsubscribe, Cut};
ghost use Rattle.mediator_history.specs.Sessions.{is_open, sessions_opened};
ghost use Rattle.mediator_history.specs.Subscriptions.{edits_made, is_live, name_of, subscriptions_begun};
ghost use Rattle.mediator_history.specs.Cuts.{after_cuts};

use crate::closing::Closing;
use crate::fault::Fault;
use crate::plan::MessagePlan;
use crate::receipt::Receipt;
use disclosure_audit::{Audit, AuditEntry, AuditQueue, Notes, What};
use hash_keys::HashKeys;
use ipfix_session::Reading;
use mediator_shares::{InForce, Terms};
use mediator_tables::{Reserved, RunningGroups, SessionId, Sessions, Share, SubId, Subscriptions};
use policy_text::Policy;
use prepared_message::Snapshot;
use std::alloc::{AllocError, Global};
use std::sync::Arc;
use subscriber_stream::{Stream, StreamLimits};

/// What a mediator keeps beside its history. Contracts say by `Stands` for which histories it stands. Its calls change
/// it by one entry, or by none. It is generic over what keeps the entries of the audit, or counts them.
pub(crate) struct Engine<Q: AuditQueue> {
    pub(crate) alloc: Global,
    /// By what tables are hashed whose entries exporters choose.
    keys: HashKeys,
    /// How much each subscription's stream may hold.
    pub(crate) limits: StreamLimits,
    /// The policy in force, and the time of the clock.
    pub(crate) in_force: InForce,
    /// How many edits there were.
    edits: u64,
    /// The open sessions.
    pub(crate) sessions: Sessions,
    /// How many sessions were opened.
    opened: u64,
    /// The live subscriptions.
    pub(crate) subscriptions: Subscriptions,
    /// The running groups of those that are served.
    pub(crate) groups: RunningGroups,
    /// How many subscriptions began.
    begun: u64,
    /// The entries of the audit that wait to be handed out.
    pub(crate) audit: Audit<Q>,
    /// What decided when a snapshot was taken last, for the next one. It decides nothing here.
    terms: Option<Arc<Terms>>,
}

impl<Q: AuditQueue + Drop> Drop for Engine<Q> {
    // Written out: a derived one is proved anew in each crate that drops such a value.
    fn drop(self) {
        let Engine {
            alloc: _,
            keys: _,
            limits: _,
            in_force: _,
            edits: _,
            sessions: _,
            opened: _,
            subscriptions: _,
            groups: _,
            begun: _,
            audit: _,
            terms: _,
        } = self;
    }
}

impl<Q: AuditQueue + Drop> Engine<Q> {
    ghost use Rattle.mediator_tables.specs.SubscriptionTable.{at};
    ghost use Rattle.mediator_state.specs.Standing.{Stands, GoesOnWith, StandsSomewhere, HasHistory, AreEngineLimits};
    ghost use Rattle.mediator_state.specs.Seen.{IsSameEngine, IsUntouched, handed_place};
    ghost use Rattle.mediator_state.specs.Calls.{IsSnapshot, RefusesSnapshot};
    ghost use Rattle.std.specs.Prelude.{IfErr};

    /// What is kept before any entry: no session and no subscription, a policy without rules, and the clock at 0. The
    /// stream of each subscription may hold what `limits` say, and `audit` was given nothing yet. All else is in memory
    /// from `alloc`.
    ///
    /// # Errors
    /// Want of memory.
    pub(crate) fn new(
        alloc: Global,
        limits: StreamLimits,
        audit: Audit<Q>,
    ) -> Result<Engine<Q>, AllocError>
        requires range { AreEngineLimits limits }
        requires fresh { StandsIn audit.standing [] }
        // It stands for the history without an entry, within these limits.
        ensures stands { IfOk result (λ e. Stands e []) }
        ensures limits { IfOk result (λ e. e.limits ≡ limits) }
        ensures audit { IfOk result (λ e. e.audit ≡ audit) }
    {
        Ok(Engine {
            alloc,
            keys: HashKeys::known(),
            limits,
            in_force: InForce::nothing(alloc)?,
            edits: 0,
            sessions: Sessions::new(alloc),
            opened: 0,
            subscriptions: Subscriptions::new(alloc),
            groups: RunningGroups::new(alloc),
            begun: 0,
            audit,
            terms: None,
        })
    }

    /// Hashes by `keys` the groups and templates of subscriptions that begin from now on.
    pub(crate) fn hash_by(&mut self, keys: HashKeys)
        ensures unchanged { IsSameEngine self.old self.new }
    {
        self.keys = keys;
        self.groups.hash_by(keys);
    }

    /// The number of the next session, behind a history of `position` entries: how many were opened, and one more.
    pub(crate) fn next_session(&self, position: u64) -> SessionId
        requires somewhere { StandsSomewhere self.now position }
        requires short { position ≤ MOST_ENTRIES }
        ensures value { result.0 ≡ self.now.opened + 1 }
        ensures next { (h : List Entry) → Stands self.now h → result.0 ≡ sessions_opened h + 1 }
    {
        let number = self.opened + 1;
        SessionId(number)
    }

    /// Opens the next session, whose number is `session`.
    ///
    /// # Errors
    /// Want of memory, and then nothing has changed.
    pub(crate) fn open(&mut self, session: SessionId) -> Result<(), AllocError>
        requires next { session.0 ≡ self.old.opened + 1 }
        ensures ok { OnOk result (GoesOnWith (Open session.0 ∷ []) self.old self.new) }
        ensures untouched { IsUntouched self.old self.new }
        ensures err { OnErr result (IsSameEngine self.old self.new) }
    {
        self.sessions.open(session)?;
        self.opened = session.0;
        Ok(())
    }

    /// The templates of the open session with the number `session` as they stand, which the session shares then, with
    /// the terms on which records are shared now.
    ///
    /// # Errors
    /// [`Fault::UnknownSession`] where the session isn't open; or [`Fault::OutOfMemory`].
    pub(crate) fn snapshot(&mut self, session: SessionId) -> Result<Snapshot, Fault>
        ensures ok { IfOk result (λ snapshot. (h : List Entry) → Stands self.old h
            → IsSnapshot h session.0 snapshot) }
        ensures unchanged { IsSameEngine self.old self.new }
        ensures err { IfErr result (λ e. (h : List Entry) → Stands self.old h
            → RefusesSnapshot e h session.0) }
    {
        if !self.is_open(session) {
            return Err(Fault::UnknownSession);
        }
        let terms = self.terms()?;
        self.sessions.share(session)?;
        match self.sessions.get(session) {
            Some(open) => Ok(Snapshot::of(&open.session)?.with_terms(terms)),
            None => Err(Fault::UnknownSession),
        }
    }

    /// The terms on which records are shared now. Those that were made for the last snapshot are taken where they still
    /// hold.
    ///
    /// # Errors
    /// Want of memory.
    fn terms(&mut self) -> Result<Arc<Terms>, AllocError>
        ensures unchanged { IsSameEngine self.old self.new }
    {
        let served = self.subscriptions.served()?;
        let most = u64::from(self.audit.most_notes());
        if let Some(terms) = &self.terms {
            if terms.are(&self.in_force, &served, most) {
                return terms.clone();
            }
        }
        let terms = Terms::of(self.alloc, &self.in_force, &served, most)?;
        let terms = Arc::new(self.alloc, terms)?;
        self.terms = Some(terms.clone()?);
        Ok(terms)
    }

    /// Whether the session with the number `session` is open.
    pub(crate) fn is_open(&self, session: SessionId) -> bool
        ensures { (h : List Entry) → Stands self.now h → result ≡ is_open session.0 h }
    {
        self.sessions.get(session).is_some()
    }

    /// Whether the subscription with the number `sub` is live.
    pub(crate) fn is_live(&self, sub: SubId) -> bool
        ensures live { (h : List Entry) → Stands self.now h → result ≡ is_live sub.0 h }
        ensures there { result ≡ is_some (at self.now.subscriptions sub.0) }
    {
        self.subscriptions.get(sub).is_some()
    }

    /// Closes the session with the number `session`. It takes no memory.
    pub(crate) fn close(&mut self, session: SessionId)
        ensures stands { GoesOnWith (Close session.0 ∷ []) self.old self.new }
        ensures untouched { IsUntouched self.old self.new }
    {
        self.sessions.close(session);
    }

    /// The policy `policy` as it would be in force now, with the clock as it stands.
    ///
    /// # Errors
    /// Want of memory.
    pub(crate) fn with_policy(&self, policy: Policy) -> Result<InForce, AllocError>
        ensures { IfOk result (λ f. f ≡ in_force_with policy self.now.in_force.clock) }
    {
        InForce::since(self.alloc, policy, self.in_force.clock())
    }

    /// Puts `in_force` in force, which [`with_policy`](Engine::with_policy) made, behind a history of `position`
    /// entries; and answers its revision: the number of edits, with it. It takes no memory.
    pub(crate) fn put_in_force(&mut self, in_force: InForce, position: u64) -> u64
        requires somewhere { StandsSomewhere self.old position }
        requires short { position ≤ MOST_ENTRIES }
        requires same_clock { in_force.clock ≡ self.old.in_force.clock }
        // The edit is one more, and stands as the next entry.
        ensures value { (h : List Entry) → Stands self.old h → result ≡ edits_made h + 1 }
        ensures stands { (h : List Entry) (text : List ℕ) → Stands self.old h
            → policy_of text ≡ Ok in_force.policy → Stands self.new (h ++ Edit text ∷ []) }
        ensures untouched { IsUntouched self.old self.new }
    {
        self.in_force = in_force;
        self.edits += 1;
        self.edits
    }

    /// The number of the next subscription, behind a history of `position` entries: how many began, and one more.
    pub(crate) fn next_subscription(&self, position: u64) -> SubId
        requires somewhere { StandsSomewhere self.now position }
        requires short { position ≤ MOST_ENTRIES }
        ensures value { result.0 ≡ self.now.begun + 1 }
        ensures next { (h : List Entry) → Stands self.now h → result.0 ≡ subscriptions_begun h + 1 }
    {
        let number = self.begun + 1;
        SubId(number)
    }

    /// The number of the live subscription whose subscriber has this `name`, or `None`.
    pub(crate) fn named(&self, name: &str) -> Option<SubId>
        ensures found { IfSome result (λ sub. (h : List Entry) → Stands self.now h
            → (is_live sub.0 h ≡ true) × (name_of sub.0 h ≡ name.now)) }
        ensures none { IfNone result ((h : List Entry) → Stands self.now h
            → (sub : ℕ) → is_live sub h ≡ true → name_of sub h ≢ name.now) }
        ensures free { IfNone result ((q : ℕ)
            → IfSome (at self.now.subscriptions q) (λ s. s.name ≢ name.now)) }
    {
        self.subscriptions.named(name)
    }

    /// Begins the next subscription, whose number is `sub`, for a subscriber of this `name`, which no live
    /// subscription has.
    ///
    /// # Errors
    /// Want of memory, and then nothing has changed.
    pub(crate) fn subscribe(&mut self, sub: SubId, name: &str) -> Result<(), AllocError>
        requires somewhere { HasHistory self.old }
        requires next { sub.0 ≡ self.old.begun + 1 }
        requires name { is_name name.now ≡ true }
        requires free { (q : ℕ) → IfSome (at self.old.subscriptions q) (λ s. s.name ≢ name.now) }
        // The beginning stands as the next entry.
        ensures ok { OnOk result (GoesOnWith (Subscribe sub.0 name.now ∷ []) self.old self.new) }
        ensures untouched { IsUntouched self.old self.new }
        // Want of memory changes nothing.
        ensures err { OnErr result (IsSameEngine self.old self.new) }
    {
        let stream = Stream::hashed(self.alloc, self.limits, self.keys);
        self.subscriptions.insert(sub, name, stream)?;
        self.begun = sub.0;
        Ok(())
    }
}

impl<Q: AuditQueue + Drop> Engine<Q> {
    ghost use Rattle.mediator_state.specs.Standing.{Stands, GoesOnWith};
    ghost use Rattle.mediator_state.specs.Seen.{handed_place};
    ghost use Rattle.mediator_tables.specs.SubscriptionTable.{cut_off};
    ghost use Rattle.std.specs.Prelude.{filter, if◌then◌else◌, ◌==◌};
    ghost use Rattle.std.specs.Option.{option_map};
    ghost use Rattle.mediator_state.specs.Steps.{IsCutOnce, HasAuditRoom, CutsInARow};

    /// Ends the subscription with the number `sub`, with what waits for it and its running groups. It takes no
    /// memory.
    pub(crate) fn unsubscribe(&mut self, sub: SubId)
        ensures stands { GoesOnWith (Unsubscribe sub.0 ∷ []) self.old self.new }
        // Other subscriptions keep their places, and the audit and the limits stay.
        ensures others { (q : ℕ) → q ≢ sub.0 → handed_place self.new q ≡ handed_place self.old q }
        ensures drained { self.new.audit.standing.drained ≡ self.old.audit.standing.drained }
        ensures limits { self.new.limits ≡ self.old.limits }
        ensures audit_limit { self.new.audit.limit ≡ self.old.audit.limit }
    {
        self.subscriptions.remove(sub);
        self.groups.remove(sub);
    }

    /// Cuts the subscription with the number `sub`, by an entry at `position`: it is served no more, and its running
    /// groups are gone. The audit has room for the entry that names this. It takes no memory.
    fn cut(&mut self, position: u64, sub: SubId)
        requires room { HasAuditRoom self.old.audit 1 }
        ensures stands { (h : List Entry) → Stands self.old h → length h ≡ position
            → Stands self.new (h ++ Cut sub.0 ∷ []) }
        ensures once { IsCutOnce sub.0 self.old self.new }
        // As many notes of a message are to be kept as before.
        ensures notes { most_notes self.new.audit ≡ most_notes self.old.audit }
    {
        self.subscriptions.cut(sub);
        self.groups.remove(sub);
        self.audit.push_reserved(AuditEntry {
            position,
            index: 0,
            sub: sub.0,
            what: What::Cut,
        });
    }

    /// Cuts the subscriptions with these `numbers`, one after another, the first by an entry at `position`. The audit
    /// has room for the entries that name this. It takes no memory.
    pub(crate) fn cut_all(&mut self, position: u64, numbers: &[u64])
        requires room { HasAuditRoom self.old.audit (length numbers.now) }
        requires short { position + length numbers.now < 2 ^ 63 }
        ensures stands { (h : List Entry) → Stands self.old h → length h ≡ position
            → Stands self.new (after_cuts h numbers.now) }
        ensures row { CutsInARow numbers.now self.old self.new }
        ensures notes { most_notes self.new.audit ≡ most_notes self.old.audit }
    {
        'cuts: for (place, number) in numbers.iter().enumerate() {
            self.cut(position + place as u64, SubId(*number));
        }
    }
}

impl<Q: AuditQueue + Drop> Engine<Q> {
    ghost use Rattle.mediator_state.specs.Standing.{Stands};
    ghost use Rattle.mediator_state.specs.Seen.{IsSameEngine, IsUntouched};
    ghost use Rattle.ipfix_session.specs.Keeping.{at_key};
    ghost use Rattle.ipfix_session.specs.ReadAhead.{HasRoomFor};
    ghost use Rattle.mediator_tables.specs.SubscriptionTable.{HasSpare};
    ghost use Rattle.mediator_tables.specs.SubscriptionTable.{shown};
    ghost use Rattle.flow_aggregate.specs.Counts.{Count};
    ghost use Rattle.mediator_tables.specs.Adding.{reserved_for, AllReady, NoneTwice};
    ghost use Rattle.mediator_state.specs.Planning.{IsPlan};
    ghost use Rattle.mediator_state.specs.Accepting.{HasRoomForPlan, HasAuditFor, IsPlannedFor, LacksAudit, IsReadyToTake, IsBroughtBy, receipt_of};
    ghost use Rattle.std.specs.Prelude.{map, IfErr};

    /// Finds out whether `need` more entries have room in the audit, and makes room in memory for `places` of them.
    ///
    /// # Errors
    /// [`Fault::AuditFull`] where they have none; or [`Fault::OutOfMemory`]. Only reserved room has changed then.
    pub(crate) fn make_audit_room(&mut self, need: u64, places: usize) -> Result<(), Fault>
        requires few { places ≤ need + 1 }
        // Only reserved room changes; there is enough of it then, or it is told why not.
        ensures unchanged { IsSameEngine self.old self.new }
        ensures ok { OnOk result (HasAuditFor self.new.audit need places) }
        ensures err { IfErr result (λ e. LacksAudit e self.old.audit need) }
        // Sessions, subscriptions and groups keep their reserved room.
        ensures rest { (self.new.sessions ≡ self.old.sessions)
            × (self.new.subscriptions ≡ self.old.subscriptions)
            × (self.new.groups ≡ self.old.groups) }
    {
        let room = self.audit.room();
        if need > u64::from(room) {
            return Err(Fault::AuditFull { need, room });
        }
        self.audit.reserve(places as u32)?;
        Ok(())
    }

    /// Makes room for what `plan` does, and makes ready what it counts, which is the answer.
    ///
    /// # Errors
    /// [`Fault::AuditFull`] where the audit has no room for its cuts and notes; or [`Fault::OutOfMemory`]. Only
    /// reserved room has changed then.
    pub(crate) fn make_room(&mut self, plan: &MessagePlan) -> Result<Vec<Reserved>, Fault>
        ensures unchanged { IsSameEngine self.old self.new }
        ensures ok { IfOk result (λ reserved.
            HasRoomForPlan self.new plan.now (map reserved_for reserved.items)) }
        ensures err { IfErr result (λ e.
            LacksAudit e self.old.audit (length plan.now.cuts.items + plan.now.notes.count)) }
    {
        let cuts = plan.cuts.len();
        self.make_audit_room(cuts as u64 + plan.notes.count(), cuts + 1)?;
        self.sessions.make_room(plan.session, &plan.reading)?;
        self.subscriptions.reserve(&plan.shares)?;
        Ok(self.groups.reserve(&plan.tallies)?)
    }

    /// Does what `plan` says, in the room that [`make_room`](Engine::make_room) made for it, behind a history of
    /// `position` entries. `reserved` is what that call made ready. The answer is the receipt of the message. It takes
    /// no memory and can't fail.
    pub(crate) fn accept(
        &mut self,
        position: u64,
        plan: MessagePlan,
        reserved: Vec<Reserved>,
    ) -> Receipt
        requires room { HasRoomForPlan self.old plan (map reserved_for reserved.items) }
        requires planned { IsPlannedFor self.old position plan }
        // The message stands as the next entry, behind its cuts, and the receipt tells of it.
        ensures stands { (h : List Entry) (number : ℕ) (octets : List ℕ) → Stands self.old h
            → length h ≡ position → IsPlan self.old h number octets plan
            → Stands self.new (after_cuts h plan.cuts.items
            ++ Message plan.session.0 number octets ∷ []) }
        ensures receipt { result
            ≡ receipt_of position (length plan.cuts.items) plan.reading.meaning }
        // Nothing is handed out.
        ensures untouched { IsUntouched self.old self.new }
    {
        let receipt = Receipt {
            position: position + plan.cuts.len() as u64,
            records: plan.reading.records().len() as u64,
            cut: plan.cuts.len() as u64,
            skips: plan.reading.skips(),
            gap: plan.reading.gap(),
        };
        self.cut_all(position, &plan.cuts);
        self.take(
            plan.session,
            plan.reading,
            plan.shares,
            reserved,
            plan.position,
            plan.notes,
        );
        receipt
    }

    /// Takes in the message at `position`, in room that was made for it: `reading` is what it means to the session with
    /// the number `session`, `shares` what it gives, `reserved` what it counts, and `notes` what the audit is to keep
    /// and to count of it.
    fn take(
        &mut self,
        session: SessionId,
        reading: Reading,
        shares: Vec<Share>,
        reserved: Vec<Reserved>,
        position: u64,
        notes: Notes,
    )
        requires room { IsReadyToTake self.old session.0 reading (map shown shares.items)
            (map reserved_for reserved.items) notes }
        ensures stands { (h : List Entry) (number : ℕ) (octets : List ℕ)
            (tallies : List (ℕ × List Count)) (named : List Note) → Stands self.old h
            → AllReady self.old.groups (map reserved_for reserved.items) tallies
            → NoneTwice tallies → notes ≡ kept_notes (most_notes self.old.audit) named
            → IsBroughtBy self.old h session.0 number octets (record {
              reading = reading;
              shares = map shown shares.items;
              tallies = tallies;
              entries = map (stamp position) named;
            })
            → Stands self.new (h ++ Message session.0 number octets ∷ []) }
        ensures untouched { IsUntouched self.old self.new }
    {
        self.sessions.keep(session, reading);
        self.subscriptions.give(shares);
        self.groups.add_reserved(reserved);
        self.audit.push_notes(position, notes);
    }
}

impl<Q: AuditQueue + Drop> Engine<Q> {
    ghost use Rattle.std.specs.Prelude.{map, IfErr};
    ghost use Rattle.mediator_state.specs.Standing.{Stands};
    ghost use Rattle.mediator_state.specs.Seen.{IsSameEngine, IsUntouched};
    ghost use Rattle.mediator_tables.specs.SubscriptionTable.{shown};
    ghost use Rattle.event_journal.specs.declared.entry.Entry.TheVariants.{Advance};
    ghost use Rattle.mediator_history.specs.Counting.{clock_of};
    ghost use Rattle.mediator_state.specs.Planning.{IsJudged};
    ghost use Rattle.mediator_state.specs.Accepting.{LacksAudit};
    ghost use Rattle.mediator_state.specs.Advancing.{HasRoomToClose, IsClosingFor, IsReadyToClose, AreClosings};

    /// Makes room for what `closing`, an advance of the clock, does.
    ///
    /// # Errors
    /// [`Fault::AuditFull`] where the audit has no room for its cuts; or [`Fault::OutOfMemory`]. Only reserved room has
    /// changed then.
    pub(crate) fn make_room_to_close(&mut self, closing: &Closing) -> Result<(), Fault>
        ensures unchanged { IsSameEngine self.old self.new }
        ensures ok { OnOk result (HasRoomToClose self.new closing.now) }
        ensures err { IfErr result (λ e.
            LacksAudit e self.old.audit (length closing.now.cuts.items)) }
    {
        self.make_audit_room(closing.cuts.len() as u64, closing.cuts.len())?;
        self.subscriptions.reserve(&closing.shares)?;
        Ok(())
    }

    /// Advances the clock to `t`, in milliseconds since 1970, behind a history of `position` entries, and does what
    /// `closing` says, in the room that [`make_room_to_close`](Engine::make_room_to_close) made for it. It takes no
    /// memory and can't fail.
    pub(crate) fn advance(&mut self, position: u64, t: u64, closing: Closing)
        requires room { HasRoomToClose self.old closing }
        requires planned { IsClosingFor self.old position t closing }
        ensures stands { (h : List Entry) → Stands self.old h → length h ≡ position → clock_of h ≤ t
            → IsJudged self.old h (Advance t) closing.cuts.items (map shown closing.shares.items) []
            → Stands self.new (after_cuts h closing.cuts.items ++ Advance t ∷ []) }
        ensures untouched { IsUntouched self.old self.new }
    {
        self.cut_all(position, &closing.cuts);
        self.close_due(t, closing.shares);
    }

    /// Gives `shares`, which the advance of the clock to `t` closes, in room that was made for them, and drops the
    /// groups that it closes.
    fn close_due(&mut self, t: u64, shares: Vec<Share>)
        requires room { IsReadyToClose self.old (map shown shares.items) }
        ensures stands { (h : List Entry) → Stands self.old h → clock_of h ≤ t
            → AreClosings self.old h t (map shown shares.items)
            → Stands self.new (h ++ Advance t ∷ []) }
        ensures untouched { IsUntouched self.old self.new }
    {
        self.subscriptions.give(shares);
        self.groups.close(t);
        self.in_force.advance(t);
    }
}
