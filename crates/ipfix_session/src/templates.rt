//! The templates of a session as they stood, for messages that are read elsewhere.
ghost use Rattle.std.specs.Prelude.{◌≡◌, ◌≤◌, ℕ, List, length, Ok};
ghost use Rattle.std.specs.Arc.{arc_value};
ghost use Rattle.std.specs.Option.{option_copied, option_map};
ghost use Rattle.ipfix_octets.specs.MessageFormat.{longest_message};
ghost use Rattle.ipfix_message.specs.declared.item.Item.{Item};
ghost use Rattle.ipfix_message.specs.Reading.{items_of};
ghost use Rattle.ipfix_session.specs.Contents.{contents_after};
ghost use Rattle.ipfix_session.specs.Meaning.{domain_of, contents_of};
ghost use Rattle.ipfix_session.specs.Keeping.{at_key, Keeps, StandIn};
ghost use Rattle.ipfix_session.specs.Standing.{templates_of, Knows};
ghost use Rattle.ipfix_session.specs.Domains.{shown_tables};
ghost use Rattle.ipfix_session.specs.Answers.{GivesMeant, as_contents};

use crate::by_domain::ByDomain;
use crate::contents::Contents;
use crate::fault::Fault;
use crate::table::Table;
use crate::walk::walk_items;
use bytes::Bytes;
use ipfix_message::{Item, read_header};
use ipfix_template::Template;
use std::alloc::Global;
use std::marker::Model;
use std::sync::Arc;

/// The templates of a session as they stood when [`templates`](crate::Session::templates) was called: one more owner of
/// them, whatever the session reads then. Messages are read by them without the session. Contracts see the list of
/// domains with the templates of each, and say by `Knows` after which messages they are in force.
pub struct Templates {
    alloc: Global,
    tables: Arc<ByDomain>,
}

impl Drop for Templates {
    // Written out: a derived one is proved anew in each crate that drops such a value.
    fn drop(self) {
        let Templates {
            alloc: _,
            tables: _,
        } = self;
    }
}

impl Model for Templates {
    ghost use Rattle.std.specs.Prelude.{ℕ, List};
    ghost use Rattle.ipfix_template.specs.declared.template.Template.{Template};

    ghost Value = { List (ℕ × List (ℕ × Template)) };

    ghost use Rattle.ipfix_session.specs.Sharing.{known_to};

    ghost view = { λ t. known_to t.tables };
}

impl Templates {
    /// Templates, of which this is one more owner.
    pub(crate) fn new(alloc: Global, tables: Arc<ByDomain>) -> Templates
        ensures { result ≡ shown_tables (arc_value tables).tables.entries }
    {
        Templates { alloc, tables }
    }

    /// The template under `id` in the Observation Domain `domain`, if there is one.
    pub fn template(&self, domain: u32, id: u16) -> Option<&Template>
        ensures { option_copied result ≡ at_key id (templates_of domain self.now) }
    {
        self.tables.template(domain, id)
    }

    /// The template under `id` in the Observation Domain `domain`, if there is one, of which one
    /// may become an owner.
    pub fn shared(&self, domain: u32, id: u16) -> Option<&Arc<Template>>
        ensures { option_map (λ t. arc_value t.now) result
            ≡ at_key id (templates_of domain self.now) }
    {
        self.tables.shared(domain, id)
    }

    /// Where the memory of what is read is taken from.
    pub fn allocator(&self) -> Global {
        self.alloc
    }

    /// Reads `message`, all octets of one, by these templates, and keeps nothing of it. `said` are
    /// the message's items, as [`items`](ipfix_message::items) answers them. The values of its
    /// records are cut from the message where they stand in their shortest texts, and not copied.
    ///
    /// # Errors
    /// - `RecordOverrun` where a Data Record goes past its set.
    /// - `OutOfMemory` for want of memory.
    pub fn read(&self, message: &Bytes, said: Vec<Item>) -> Result<Contents, Fault>
        requires said { items_of message.now ≡ Ok said.items }
        // The answer is what the message holds after those messages, or its first fault.
        ensures messages { (older : List (List ℕ)) → Knows self.now older
            → GivesMeant as_contents result (contents_of older message.now) }
        // So it is after any items that leave these templates in force.
        ensures items { (older : List Item)
            → Keeps (templates_of (domain_of message.now) self.now) older
            → GivesMeant as_contents result (contents_after older message.now said.items) }
    {
        let octets: &[u8] = message;
        let header = read_header(octets)?;
        self.read_items(header.domain, message, said)
    }

    /// Reads the items of a message by the templates of a domain.
    fn read_items(&self, domain: u32, message: &Bytes, said: Vec<Item>) -> Result<Contents, Fault>
        requires few { length message.now ≤ longest_message }
        requires stand { StandIn (length message.now) said.items }
        ensures { (older : List Item) → Keeps (templates_of domain self.now) older
            → GivesMeant as_contents result (contents_after older message.now said.items) }
    {
        let empty = Table::new(self.alloc);
        let base = self.tables.table(domain, &empty);
        let walk = walk_items(self.alloc, base, message, said)?;
        Ok(Contents {
            records: walk.records,
            skips: walk.skips,
        })
    }
}
