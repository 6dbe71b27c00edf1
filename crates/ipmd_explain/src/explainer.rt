//! What is kept of the entries before, and what is said of the next one.
ghost use Rattle.std.specs.Prelude.{◌≡◌, ◌++◌, ◌∷◌, ◌+◌, ◌<◌, ◌≤◌, ◌^◌, [], ℕ, List, length, IfOk, IfSome, IfNone, IsSomeAnd, string_bytes};
ghost use Rattle.ipfix_template.specs.DataRecord.{DataRecord};
ghost use Rattle.event_journal.specs.declared.entry.Entry.{Entry as OneEntry};
ghost use Rattle.event_journal.specs.declared.entry.Entry.TheVariants.{Open, Close, Message, Edit, Subscribe, Unsubscribe, Advance, Cut};
ghost use Rattle.history_verify.specs.Parts.{AreExporters};
ghost use Rattle.history_verify.specs.Legal.{IsAccepted};
ghost use Rattle.history_verify.specs.Standing.{IsReadOf};
ghost use Rattle.policy_text.specs.Policies.{nothing};
ghost use Rattle.policy_text.specs.Parsing.{policy_of};
ghost use Rattle.mediator_history.specs.Subscriptions.{policy_or_none};
ghost use Rattle.event_journal.specs.declared.limits.TheConstants.{MOST_ENTRIES};
ghost use Rattle.ipfix_session.specs.Keeping.{at_key};
ghost use Rattle.ipmd_explain.specs.Explaining.{absent_of, line_by};
ghost use Rattle.ipmd_explain.specs.Standing.{Tracks, Takes, past_entry, explained_line_for, explained_lines, past_message, said_of};

use crate::flow_words::flow_words;
use crate::question::Question;
use crate::wording::explanation;
use bytes::Bytes;
use event_journal::Entry;
use history_verify::Exporters;
use ipfix_session::Reading;
use ipfix_template::Record;
use ipmd_commands::Absent;
use policy_text::{Name, Policy};
use std::alloc::{AllocError, Global};

/// What is kept of a legal history: what decides of its next message for one subscription, and what was found of that which is
/// asked. Contracts say by `Tracks` of which histories it is.
#[derive(Drop)]
pub(crate) struct Explainer {
    alloc: Global,
    question: Question,
    /// How many entries there were.
    position: u64,
    policy: Policy,
    /// The time of the clock.
    clock: u64,
    exporters: Exporters,
    /// The name of the subscription.
    name: String,
    /// Whether the subscription began.
    has_begun: bool,
    /// Whether it is served.
    is_served: bool,
    /// Whether a message was met that is asked for.
    met_message: bool,
    /// Whether it had a record that is asked for.
    met_record: bool,
}

impl Explainer {
    /// An explainer before any entry, for this question. Memory is taken from `alloc`.
    ///
    /// # Errors
    /// Want of memory.
    pub(crate) fn new(alloc: Global, question: Question) -> Result<Explainer, AllocError>
        ensures stands { IfOk result (λ x. Tracks x []) }
        ensures question { IfOk result (λ x. x.question ≡ question) }
    {
        Ok(Explainer {
            alloc,
            question,
            position: 0,
            policy: no_policy(alloc)?,
            clock: 0,
            exporters: Exporters::new(alloc),
            name: String::new(alloc),
            has_begun: false,
            is_served: false,
            met_message: false,
            met_record: false,
        })
    }

    /// What was asked for, and isn't there.
    pub(crate) fn absent(&self) -> Option<Absent>
        ensures { (h : List OneEntry) → Tracks self.now h → result ≡ absent_of self.now.question h }
    {
        if !self.has_begun {
            return Some(Absent::Subscription(self.question.sub));
        }
        let position = self.question.position?;
        if !self.met_message {
            return Some(Absent::Message(position));
        }
        let index = self.question.index?;
        if self.met_record {
            return None;
        }
        Some(Absent::Record { position, index })
    }

    /// Takes the history's next entry, `entry`, and answers what is said of it.
    ///
    /// # Errors
    /// Want of memory.
    pub(crate) fn take(&mut self, entry: &Entry) -> Result<String, AllocError>
        ensures { IfOk result (λ text. Takes self.old entry.now self.new (string_bytes text)) }
    {
        match entry {
            Entry::Message {
                session,
                number,
                octets,
            } => self.message(*session, *number, octets),
            Entry::Open { session } => self.open(*session),
            Entry::Close { session } => self.close(*session),
            Entry::Edit { text } => self.edit(text.as_str()),
            Entry::Subscribe { sub, name } => self.subscribe(*sub, name),
            Entry::Unsubscribe { sub } => self.end(*sub),
            Entry::Advance { t } => self.advance(*t),
            Entry::Cut { sub } => self.end(*sub),
        }
    }

    /// A session opens.
    fn open(&mut self, session: u64) -> Result<String, AllocError>
        ensures { IfOk result (λ text. Takes self.old (Open session) self.new (string_bytes text)) }
    {
        if !self.exporters.is_next(session) {
            return Ok(self.silent());
        }
        self.exporters.open(session)?;
        Ok(self.silent())
    }

    /// A session closes.
    fn close(&mut self, session: u64) -> Result<String, AllocError>
        ensures { IfOk result
            (λ text. Takes self.old (Close session) self.new (string_bytes text)) }
    {
        self.exporters.close(session);
        Ok(self.silent())
    }

    /// A policy takes force.
    fn edit(&mut self, text: &str) -> Result<String, AllocError>
        ensures { IfOk result
            (λ said. Takes self.old (Edit text.now) self.new (string_bytes said)) }
    {
        let Some(policy) = policy_in(self.alloc, text)? else {
            return Ok(self.silent());
        };
        self.policy = policy;
        Ok(self.silent())
    }

    /// A subscription begins.
    fn subscribe(&mut self, sub: u64, name: &Name) -> Result<String, AllocError>
        ensures { IfOk result (λ text. Takes self.old (Subscribe sub name.now) self.new
            (string_bytes text)) }
    {
        if sub != self.question.sub {
            return Ok(self.silent());
        }
        self.name = String::from_str(self.alloc, name.as_str())?;
        self.has_begun = true;
        self.is_served = true;
        Ok(self.silent())
    }

    /// A subscription ends, or is cut.
    fn end(&mut self, sub: u64) -> Result<String, AllocError>
        ensures ended { IfOk result (λ text.
            Takes self.old (Unsubscribe sub) self.new (string_bytes text)) }
        ensures cut { IfOk result (λ text. Takes self.old (Cut sub) self.new (string_bytes text)) }
    {
        if sub != self.question.sub {
            return Ok(self.silent());
        }
        self.is_served = false;
        Ok(self.silent())
    }

    /// The clock goes on.
    fn advance(&mut self, t: u64) -> Result<String, AllocError>
        ensures { IfOk result (λ text. Takes self.old (Advance t) self.new (string_bytes text)) }
    {
        self.clock = t;
        Ok(self.silent())
    }

    /// An entry more, of which nothing is said.
    fn silent(&mut self) -> String
        ensures counted { self.old.position + 1 < 2 ^ 64 → self.new ≡ past_entry self.old }
        ensures text { string_bytes result ≡ [] }
    {
        self.count();
        String::new(self.alloc)
    }

    /// An entry more.
    fn count(&mut self)
        ensures { self.old.position + 1 < 2 ^ 64 → self.new ≡ past_entry self.old }
    {
        self.position = self.position.saturating_add(1);
    }

    /// A message is received, and its records are explained.
    fn message(&mut self, session: u64, number: u64, octets: &Bytes) -> Result<String, AllocError>
        ensures { IfOk result (λ text. Takes self.old (Message session number octets.now) self.new
            (string_bytes text)) }
    {
        let Some(reading) = self.read(session, number, octets)? else {
            return Ok(self.silent());
        };
        let text = self.explained(&reading)?;
        let records = reading.records().len();
        self.exporters.make_room(session, &reading)?;
        self.exporters.keep(session, reading);
        self.meet(records);
        self.count();
        Ok(text)
    }

    /// What is read of the next message of a session; `None` where it is none.
    ///
    /// # Errors
    /// Want of memory.
    fn read(&self, session: u64, number: u64, octets: &Bytes) -> Result<Option<Reading>, AllocError>
        ensures some { IfOk result (λ found. IfSome found (λ reading. (h : List OneEntry)
            → AreExporters self.now.exporters h → IsReadOf h session number octets.now reading)) }
        ensures room { IfOk result (λ found. IfSome found (λ reading. IsSomeAnd
            (at_key session self.now.exporters.sessions) (λ o. o.accepted + 1 < 2 ^ 64))) }
        ensures none { IfOk result (λ found. IfNone found ((h : List OneEntry)
            → AreExporters self.now.exporters h → length h ≤ MOST_ENTRIES
            → IsAccepted h (Message session number octets.now) → ⊥)) }
    {
        if number == u64::MAX {
            return Ok(None);
        }
        let Some(open) = self.exporters.in_turn(session, number) else {
            return Ok(None);
        };
        match open.session.read(octets) {
            Ok(reading) => Ok(Some(reading)),
            Err(ipfix_session::Fault::OutOfMemory) => Err(AllocError),
            Err(_) => Ok(None),
        }
    }

    /// Notes that a message of `records` records stands at this position.
    fn meet(&mut self, records: usize)
        ensures { self.new ≡ past_message self.old records }
    {
        if !self.question.asks_message(self.position) {
            return;
        }
        self.met_message = true;
        if self.question.is_within(records) {
            self.met_record = true;
        }
    }

    /// What is said of the records of a message at this position.
    fn explained(&self, reading: &Reading) -> Result<String, AllocError>
        ensures { IfOk result (λ text. string_bytes text
            ≡ said_of self.now reading.now.meaning.header.domain reading.now.meaning.records) }
    {
        if !(self.question.asks_message(self.position) && self.is_served) {
            return Ok(String::new(self.alloc));
        }
        let records = reading.records().to_vec(self.alloc)?;
        self.lines(reading.header().domain, records.as_slice())
    }

    /// The lines of these records of a message of an observation domain.
    fn lines(&self, domain: u32, records: &[Record]) -> Result<String, AllocError>
        ensures { IfOk result (λ text. string_bytes text ≡ explained_lines self.now domain records.now) }
    {
        let mut text = String::new(self.alloc);
        'records: for (place, flow_record) in records.iter().enumerate() {
            let line = self.line_for(domain, place, flow_record)?;
            text.push_str(line.as_str())?;
        }
        Ok(text)
    }

    /// The line of a record at a place, if it is asked for.
    fn line_for(
        &self,
        domain: u32,
        place: usize,
        flow_record: &Record,
    ) -> Result<String, AllocError>
        ensures { IfOk result (λ text. string_bytes text
            ≡ explained_line_for self.now domain (place, flow_record.now)) }
    {
        if !self.question.asks_record(place) {
            return Ok(String::new(self.alloc));
        }
        self.line(domain, place, flow_record)
    }

    /// The line of a record at a place.
    fn line(&self, domain: u32, place: usize, flow_record: &Record) -> Result<String, AllocError>
        ensures { IfOk result (λ text. string_bytes text
            ≡ line_by self.now.policy (string_bytes self.now.name) domain self.now.clock
            self.now.position place flow_record.now) }
    {
        let position = self.position;
        let name = self.name.as_str();
        let flow = flow_words(self.alloc, flow_record)?;
        let words = explanation(
            self.alloc,
            &self.policy,
            name,
            domain,
            self.clock,
            flow_record,
        )?;
        let (flow, words) = (flow.as_str(), words.as_str());
        format!(in self.alloc; "position {position} index {place}: {flow}{words}\n")
    }
}

/// The policy of no rules.
///
/// # Errors
/// Want of memory.
fn no_policy(alloc: Global) -> Result<Policy, AllocError>
    ensures { IfOk result (λ policy. policy ≡ nothing) }
{
    match Policy::parse(alloc, "policy 1") {
        Ok(policy) => Ok(policy),
        Err(_) => Err(AllocError),
    }
}

/// The policy that a text spells, if it spells one.
///
/// # Errors
/// Want of memory.
fn policy_in(alloc: Global, text: &str) -> Result<Option<Policy>, AllocError>
    ensures { IfOk result (λ policy. policy ≡ policy_or_none (policy_of text.now)) }
{
    match Policy::parse(alloc, text) {
        Ok(policy) => Ok(Some(policy)),
        Err(fault) => {
            if fault.kind == policy_text::FaultKind::OutOfMemory {
                return Err(AllocError);
            }
            Ok(None)
        }
    }
}
