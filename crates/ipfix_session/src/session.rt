//! A session: the messages of one exporter, one after another.
ghost use Rattle.std.specs.Prelude.{◌≡◌, ◌≢◌, ◌+◌, ◌≤◌, ◌<◌, ◌^◌, ◌++◌, ℕ, List, [], ◌∷◌, length, reverse, not, ◌==◌, if◌then◌else◌, Ok, None, IfOk, OnOk, OnErr};
ghost use Rattle.std.specs.Option.{option_copied};
ghost use Rattle.ipfix_octets.specs.MessageFormat.{longest_message};
ghost use Rattle.ipfix_message.specs.declared.item.Item.{Item};
ghost use Rattle.ipfix_message.specs.Reading.{header_of};
ghost use Rattle.ipfix_session.specs.InForce.{template_in_force};
ghost use Rattle.ipfix_session.specs.Contents.{Contents, contents_after};
ghost use Rattle.ipfix_session.specs.Meaning.{items_of_domain, contents_of, number_after, number_past, expected_number, gap_between, meaning_of};
ghost use Rattle.ipfix_session.specs.Keeping.{at_key, Keeps, AreInForce, StandIn};
ghost use Rattle.ipfix_session.specs.Standing.{kept_of, templates_of, StandsFor, Knows};
ghost use Rattle.ipfix_session.specs.Unchanging.{HasNoTemplates};
ghost use Rattle.ipfix_session.specs.ReadAhead.{IsReadingOf, HasRoomFor};
ghost use Rattle.ipfix_message.specs.Reading as decoding;
ghost use Rattle.ipfix_session.specs.Answers.{GivesMeant, NamesFault, as_meaning};
ghost use Rattle.ipfix_session.specs.Settling.{contents_read, afterwards};

use crate::changes::Changes;
use crate::fault::Fault;
use crate::numbers::Numbers;
use crate::read::{Gap, Read, Skips};
use crate::reading::Reading;
use crate::table::Table;
use crate::tables::Tables;
use crate::templates::Templates;
use crate::walk::walk_items;
use bytes::Bytes;
use ipfix_message::{Header, Item, items, read_header};
use ipfix_records::Records;
use ipfix_template::Template;
use std::alloc::{AllocError, Global};
use std::marker::Model;

/// Sequence numbers are counted modulo 2^32 (RFC 7011, section 3.1).
const SEQUENCE_NUMBERS: u64 = 1 << 32;

/// The messages of one exporter over one connection: of each Observation Domain the templates in force
/// and the sequence number that its next message is to have (RFC 7011, sections 3.1 and 8). Contracts see
/// as `standing` the templates of each domain and the number expected of each, beside it the room that is made, and say
/// by `StandsFor` for which messages it stands.
pub struct Session {
    alloc: Global,
    numbers: Numbers,
    tables: Tables,
}

impl Drop for Session {
    // Written out: a derived one is proved anew in each crate that drops such a value.
    fn drop(self) {
        let Session {
            alloc: _,
            numbers: _,
            tables: _,
        } = self;
    }
}

impl Model for Session {
    ghost use Rattle.ipfix_session.specs.Standing.{KeptSession};

    ghost Value = { KeptSession };

    ghost use Rattle.ipfix_session.specs.Session.{session_of};

    ghost view = { λ s. session_of s.numbers s.tables };
}

impl Session {
    /// A session without a message. What it comes to keep is taken from `alloc`.
    pub fn new(alloc: Global) -> Session
        ensures { StandsFor result [] }
    {
        Session {
            alloc,
            numbers: Numbers::new(alloc),
            tables: Tables::new(alloc),
        }
    }

    /// For a program that reads one message after another, and for tests: reads `message`, all
    /// octets of the next one, and keeps what it changes. That is [`read`](Session::read),
    /// [`make_room`](Session::make_room) and [`keep`](Session::keep) of a copy of it. It answers
    /// the message's records, what of it gave none, and whether numbers were passed over.
    ///
    /// # Errors
    /// The first fault in reading order, and then nothing has changed:
    /// - `Malformed` with its cause, where the octets are no message.
    /// - `RecordOverrun` where a Data Record goes past its set.
    /// - `OutOfMemory` for want of memory.
    ///
    /// # Examples
    ///
    /// An exporter defines a template, and sends a record of it. Its next message says by its Sequence
    /// Number that five records were sent before it, but there was one:
    ///
    /// ```rust
    /// use ipfix_session::{Gap, Session};
    ///
    /// // Domain 7 defines template 256, of octetDeltaCount in 4 octets, and sends a record of it.
    /// let message: &[u8] = b"\x00\x0a\x00\x24\x65\x53\xf1\x00\x00\x00\x00\x00\x00\x00\x00\x07\
    ///     \x00\x02\x00\x0c\x01\x00\x00\x01\x00\x01\x00\x04\x01\x00\x00\x08\x00\x00\x05\xdc";
    /// let mut session = Session::new(alloc);
    /// let read = session.apply(message)?;
    /// assert!(rt; read.records.len() == 1);
    /// assert!(rt; session.template(7, 256).is_some());
    /// // The next message has the Sequence Number 5.
    /// let next = session.apply(b"\x00\x0a\x00\x10\x65\x53\xf1\x00\x00\x00\x00\x05\x00\x00\x00\x07")?;
    /// let gap = Gap {
    ///     expected: 1,
    ///     got: 5,
    /// };
    /// assert!(rt; next.gap == Some(gap));
    /// ```
    pub fn apply(&mut self, message: &[u8]) -> Result<Read, Fault>
        // The answer is what the message means after those before it, or its first fault.
        ensures meaning { (older : List (List ℕ)) → StandsFor self.old older
            → GivesMeant as_meaning result (meaning_of older message.now) }
        // After it the session stands for those messages and this one.
        ensures stands { (older : List (List ℕ)) → StandsFor self.old older
            → OnOk result (StandsFor self.new (message.now ∷ older)) }
        ensures err { OnErr result (self.new.standing ≡ self.old.standing) }
        // No memory is taken for a header, so that one that is refused is named by its fault alone.
        ensures header { NamesFault (decoding.read_header message.now) result }
    {
        read_header(message)?;
        let whole = Bytes::copy_from_slice(self.alloc, message)?;
        let reading = self.read(&whole)?;
        self.make_room(&reading)?;
        Ok(self.keep(reading))
    }

    /// Reads `message`, all octets of the next one, and keeps nothing of it. The values of its
    /// records are cut from the message where they stand in their shortest texts, and not copied.
    ///
    /// # Errors
    /// The first fault in reading order:
    /// - `Malformed` with its cause, where the octets are no message.
    /// - `RecordOverrun` where a Data Record goes past its set.
    /// - `OutOfMemory` for want of memory.
    pub fn read(&self, message: &Bytes) -> Result<Reading, Fault>
        // The answer is what the message means after those before it, or its first fault.
        ensures meaning { (older : List (List ℕ)) → StandsFor self.now older
            → GivesMeant (λ r. r.meaning) result (meaning_of older message.now) }
        ensures reading { (older : List (List ℕ)) → StandsFor self.now older
            → IfOk result (IsReadingOf older message.now) }
        // No memory is taken for a header, so that one that is refused is named by its fault alone.
        ensures header { NamesFault (decoding.read_header message.now) result }
    {
        let octets: &[u8] = message;
        let header = read_header(octets)?;
        let said = items(self.alloc, octets)?;
        self.read_message(header, message, said)
    }

    /// Makes room for what `reading` changes, so that to keep it takes no memory. Where it changes
    /// templates that are shared, the session gets its own: a copy is made only where somebody
    /// still owns the shared ones too.
    ///
    /// # Errors
    /// Want of memory. The session stands for the same messages, whatever the answer.
    pub fn make_room(&mut self, reading: &Reading) -> Result<(), AllocError>
        ensures standing { self.new.standing ≡ self.old.standing }
        ensures room { OnOk result (HasRoomFor self.new reading.now) }
    {
        self.numbers.make_place(reading.read.header.domain)?;
        self.tables
            .make_room(self.alloc, reading.read.header.domain, &reading.changes)
    }

    /// Keeps `reading`, which was read of the next message, in room that was made for it. It
    /// answers what the message brings, and takes no memory.
    pub fn keep(&mut self, reading: Reading) -> Read
        requires room { HasRoomFor self.old reading }
        ensures read { as_meaning result ≡ reading.meaning }
        // Where it was read after those messages that the session stands for, the session then stands for them and
        // this one.
        ensures stands { (older : List (List ℕ)) (message : List ℕ) → StandsFor self.old older
            → IsReadingOf older message reading → StandsFor self.new (message ∷ older) }
    {
        let Reading {
            read,
            changes,
            next,
        } = reading;
        self.numbers.fill(read.header.domain, next);
        self.tables.settle(read.header.domain, changes);
        read
    }

    /// The template that is in force under `id` in the Observation Domain `domain`, if there is one
    /// (RFC 7011, section 8).
    pub fn template(&self, domain: u32, id: u16) -> Option<&Template>
        ensures { (messages : List (List ℕ)) → StandsFor self.now messages
            → option_copied result ≡ template_in_force id (items_of_domain domain messages) }
    {
        self.tables.all().template(domain, id)
    }

    /// Shares the templates, so that [`templates`](Session::templates) makes no copy of them until a message changes one.
    ///
    /// # Errors
    /// Want of memory. The session stands for the same messages, whatever the answer.
    pub fn share(&mut self) -> Result<(), AllocError>
        ensures standing { self.new.standing ≡ self.old.standing }
        ensures shared { OnOk result (self.new.room.own ≡ None) }
    {
        self.tables.share(self.alloc)
    }

    /// The templates as they stand now, by which messages can be read without the session. They are the session's very
    /// ones where it shares them, and else a copy: so call [`share`](Session::share) before.
    ///
    /// # Errors
    /// Want of memory.
    pub fn templates(&self) -> Result<Templates, AllocError>
        ensures same { IfOk result (λ t. t ≡ self.now.standing.templates) }
        ensures knows { (older : List (List ℕ)) → StandsFor self.now older
            → IfOk result (λ t. Knows t older) }
    {
        let tables = self.tables.for_one_more(self.alloc)?;
        Ok(Templates::new(self.alloc, tables))
    }

    /// Takes in the next message where it was read elsewhere and brings no template. `header` is
    /// its header, `records` is how many records it holds, and `unknown` says whether a Data Set
    /// was skipped for want of a template. The answer is set where its sequence number is not the
    /// one that is expected (RFC 7011, section 3.1).
    ///
    /// # Errors
    /// Want of memory, and then nothing is changed.
    pub fn note(
        &mut self,
        header: &Header,
        records: u32,
        unknown: bool,
    ) -> Result<Option<Gap>, AllocError>
        ensures gap { (older : List (List ℕ)) → StandsFor self.old older
            → IfOk result (λ gap. gap
            ≡ gap_between (expected_number header.now.domain older) header.now.sequence) }
        // Where it is the next message after those that the session stands for, the session then stands for them and it.
        ensures stands { (older : List (List ℕ)) (message : List ℕ) (c : Contents)
            → StandsFor self.old older → header_of message ≡ header.now
            → HasNoTemplates message → contents_of older message ≡ Ok c
            → length c.records ≡ records → unknown ≡ not (c.skips.unknown == 0)
            → OnOk result (StandsFor self.new (message ∷ older)) }
        // Whatever was read, the templates stay, and so do the numbers of the other domains.
        ensures templates { self.new.standing.templates ≡ self.old.standing.templates }
        ensures number { OnOk result ((q : ℕ) → at_key q self.new.standing.expected
            ≡ (if q == header.now.domain
            then number_past header.now records unknown
            else at_key q self.old.standing.expected)) }
        ensures err { OnErr result (self.new.standing ≡ self.old.standing) }
    {
        let expected = self.numbers.get(header.domain);
        let next = number_past(*header, u64::from(records), unknown);
        self.numbers.set(header.domain, next)?;
        Ok(gap_between(expected, header.sequence))
    }

    /// What was read elsewhere of the next message, which brings no template, as
    /// [`make_room`](Session::make_room) and [`keep`](Session::keep) take it. `header` is the
    /// message's header, `records` are its Data Records in their order, and `skips` is what gave no
    /// record. It takes no memory.
    pub fn reading_of(&self, header: Header, records: Records, skips: Skips) -> Reading
        ensures meaning { result.meaning ≡ record {
          header = header;
          records = records;
          skips = skips;
          gap = gap_between (kept_of header.domain self.now.standing).expected header.sequence;
        } }
        ensures reading { (older : List (List ℕ)) (message : List ℕ) → StandsFor self.now older
            → header_of message ≡ header → HasNoTemplates message
            → contents_of older message ≡ Ok (record { records = records; skips = skips })
            → IsReadingOf older message result }
    {
        let next = number_after(header, &records, skips);
        let gap = gap_between(self.numbers.get(header.domain), header.sequence);
        Reading {
            read: Read {
                header,
                records,
                skips,
                gap,
            },
            changes: Changes::new(self.alloc),
            next,
        }
    }

    /// For a program that reads ahead, and for tests: a session that stands for the same messages, and from then on
    /// goes its own way.
    ///
    /// # Errors
    /// Want of memory.
    pub fn copy(&self) -> Result<Session, AllocError>
        ensures { IfOk result (λ s. s ≡ self.now) }
    {
        Ok(Session {
            alloc: self.alloc,
            numbers: self.numbers.clone()?,
            tables: self.tables.clone()?,
        })
    }

    /// Reads a message over what is kept of its domain.
    fn read_message(
        &self,
        header: Header,
        message: &Bytes,
        said: Vec<Item>,
    ) -> Result<Reading, Fault>
        requires few { length message.now ≤ longest_message }
        requires stand { StandIn (length message.now) said.items }
        // What is answered is what these items hold after any others that leave the domain's
        // templates in force.
        ensures reads { (older : List Item)
            → Keeps (kept_of header.domain self.now.standing).templates older
            → GivesMeant contents_read result (contents_after older message.now said.items) }
        ensures keeps { (older : List Item)
            → Keeps (kept_of header.domain self.now.standing).templates older
            → IfOk result (λ r. AreInForce
            (afterwards r (kept_of header.domain self.now.standing).templates)
            (reverse said.items ++ older)) }
        // The header is the one that was given, and the numbers are those that follow from it.
        ensures header { IfOk result (λ r. r.meaning.header ≡ header) }
        ensures gap { IfOk result (λ r. r.meaning.gap
            ≡ gap_between (kept_of header.domain self.now.standing).expected header.sequence) }
        ensures next { IfOk result (λ r. r.next ≡ number_after header (contents_read r)) }
    {
        let empty = Table::new(self.alloc);
        let base = self.tables.all().table(header.domain, &empty);
        let expected = self.numbers.get(header.domain);
        let walk = walk_items(self.alloc, base, message, said)?;
        Ok(Reading {
            next: number_after(header, &walk.records, walk.skips),
            changes: walk.changes,
            read: Read {
                header,
                records: walk.records,
                skips: walk.skips,
                gap: gap_between(expected, header.sequence),
            },
        })
    }
}

/// The sequence number of the message after one with this header: its own and its records, unless a Data
/// Set was skipped for want of a template.
fn number_after(header: Header, records: &Records, skips: Skips) -> Option<u32>
    ensures { result ≡ number_after header (record { records = records.now; skips = skips }) }
{
    number_past(header, records.len() as u64, skips.unknown != 0)
}

/// The sequence number of the message after one with this header and this many records. There is
/// none where a Data Set was skipped for want of a template: nobody knows how many records it had.
fn number_past(header: Header, records: u64, unknown: bool) -> Option<u32>
    requires { records < 2 ^ 63 }
    ensures { result ≡ number_past header records unknown }
{
    if unknown {
        return None;
    }
    let next = u64::from(header.sequence) + records;
    Some((next % SEQUENCE_NUMBERS) as u32)
}

/// The gap between the number that is expected, where one is, and the number that came.
fn gap_between(expected: Option<u32>, got: u32) -> Option<Gap>
    ensures { result ≡ gap_between expected got }
{
    match expected {
        Some(expected) if expected != got => Some(Gap { expected, got }),
        _ => None,
    }
}
