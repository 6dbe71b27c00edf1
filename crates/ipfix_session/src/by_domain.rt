//! The templates of all domains of a session.
ghost use Rattle.std.specs.Prelude.{◌≡◌, [], OnOk, IsSomeAnd};
ghost use Rattle.std.specs.Option.{option_copied, option_map};
ghost use Rattle.std.specs.Arc.{arc_value};
ghost use Rattle.std.specs.Ordering.{nat_cmp};
ghost use Rattle.std.specs.BTreeMap.{IsOrdered, keys};
ghost use Rattle.std.proofs.lemmas.Map.Keys.{IsStrictlySortedBy-prop};
ghost use Rattle.ipfix_session.specs.Keeping.{at_key};
ghost use Rattle.ipfix_session.specs.Places.{HasPlaces};
ghost use Rattle.ipfix_session.specs.Domains.{shown_tables, places_of, held_templates, Settles};

use crate::changes::Changes;
use crate::table::Table;
use ipfix_template::Template;
use std::alloc::{AllocError, Global};
use std::collections::BTreeMap;
use std::sync::Arc;

/// The tables of templates by their domains' numbers. A domain without a template may have a table too, in which room is
/// made for its first ones.
#[derive(Drop)]
pub(crate) struct ByDomain {
    tables: BTreeMap<u32, Table>,
    ghost ordered: { IsOrdered nat_cmp tables } by { IsStrictlySortedBy-prop nat_cmp (keys tables) },
}

impl ByDomain {
    ghost use Rattle.ipfix_session.specs.Changing.{after};

    /// No domain.
    pub(crate) fn new(alloc: Global) -> ByDomain
        ensures { result.tables.entries ≡ [] }
    {
        ByDomain {
            tables: BTreeMap::new(alloc),
        }
    }

    /// The table of a domain.
    fn get(&self, domain: u32) -> Option<&Table>
        ensures { option_copied result ≡ at_key domain self.now.tables.entries }
    {
        self.tables.get(&domain)
    }

    /// The templates of a domain; of one without a table, `empty`.
    pub(crate) fn table<'a>(&'a self, domain: u32, empty: &'a Table) -> &'a Table
        requires { empty.now.templates ≡ [] }
        ensures { result.now.templates ≡ held_templates self.now.tables.entries domain }
    {
        match self.get(domain) {
            Some(table) => table,
            None => empty,
        }
    }

    /// The template of a domain and an ID.
    pub(crate) fn template(&self, domain: u32, id: u16) -> Option<&Template>
        ensures { option_copied result ≡ at_key id (held_templates self.now.tables.entries domain) }
    {
        match self.get(domain) {
            Some(table) => table.template(id),
            None => None,
        }
    }

    /// The template of a domain and an ID, with its share, of which one may become an owner.
    pub(crate) fn shared(&self, domain: u32, id: u16) -> Option<&Arc<Template>>
        ensures { option_map (λ t. arc_value t.now) result
            ≡ at_key id (held_templates self.now.tables.entries domain) }
    {
        match self.get(domain) {
            Some(table) => table.get(id),
            None => None,
        }
    }

    /// Makes a place for each template that a message of a domain defines.
    ///
    /// # Errors
    /// Want of memory. The templates stay, whatever the answer.
    pub(crate) fn make_room(
        &mut self,
        alloc: Global,
        domain: u32,
        changes: &Changes,
    ) -> Result<(), AllocError>
        ensures unchanged { shown_tables self.new.tables.entries
            ≡ shown_tables self.old.tables.entries }
        ensures room { OnOk result (IsSomeAnd (at_key domain (places_of self.new.tables.entries))
            (λ there. HasPlaces there changes.now.defined.places)) }
    {
        if let Some(table) = self.tables.get_mut(&domain) {
            return changes.make_room(table);
        }
        let mut table = Table::new(alloc);
        changes.make_room(&mut table)?;
        self.tables.insert(domain, table)?;
        Ok(())
    }

    /// Makes what a message of a domain changes, in room that was made for it.
    pub(crate) fn settle(&mut self, domain: u32, changes: Changes)
        requires { IsSomeAnd (at_key domain (places_of self.old.tables.entries))
            (λ there. HasPlaces there changes.defined.places) }
        ensures { Settles self.old.tables.entries self.new.tables.entries domain
            (after changes (held_templates self.old.tables.entries domain)) }
    {
        if let Some(table) = self.tables.get_mut(&domain) {
            changes.make(table);
        }
    }
}

impl Clone for ByDomain {
    ghost use Rattle.std.specs.Prelude.{◌≡◌};

    ghost is_clone = { λ d copy. copy.tables.entries ≡ d.tables.entries };

    fn clone(&self) -> Result<ByDomain, AllocError> {
        Ok(ByDomain {
            tables: self.tables.clone()?,
        })
    }
}
