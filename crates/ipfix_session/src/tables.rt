//! The templates of a session: its own, or shared with those that read by them.
ghost use Rattle.std.specs.Prelude.{◌≡◌, [], None, false, IfOk, IfErr, OnOk, IsSome};
ghost use Rattle.std.specs.Arc.{arc_value};
ghost use Rattle.ipfix_session.specs.Change.{changes_none, HasTables};
ghost use Rattle.ipfix_session.specs.Domains.{shown_tables, held_templates, Settles};
ghost use Rattle.ipfix_session.specs.Sharing.{tables_in, own_places};

use crate::by_domain::ByDomain;
use crate::changes::Changes;
use std::alloc::{AllocError, Global};
use std::mem;
use std::sync::Arc;

/// The templates of all domains of a session. They are changed where they are its own. Once they are shared, whoever reads
/// by them is one more owner, and a message that changes no template leaves them shared.
#[derive(Drop)]
pub(crate) enum Tables {
    /// Templates that the session alone owns, and may change.
    Own(ByDomain),
    /// Templates that others may own too.
    Shared(Arc<ByDomain>),
}

impl Tables {
    ghost use Rattle.ipfix_session.specs.Changing.{change_of, after};

    /// No template.
    pub(crate) fn new(alloc: Global) -> Tables
        ensures { tables_in result ≡ [] }
    {
        Tables::Own(ByDomain::new(alloc))
    }

    /// The templates, whoever owns them.
    pub(crate) fn all(&self) -> &ByDomain
        ensures { result.now.tables.entries ≡ tables_in self.now }
    {
        match self {
            Tables::Own(tables) => tables,
            Tables::Shared(shared) => {
                let tables: &ByDomain = shared;
                tables
            }
        }
    }

    /// The templates for one more owner: the same ones where they are shared, and else a copy.
    ///
    /// # Errors
    /// Want of memory.
    pub(crate) fn for_one_more(&self, alloc: Global) -> Result<Arc<ByDomain>, AllocError>
        ensures { IfOk result (λ shared. (arc_value shared).tables.entries ≡ tables_in self.now) }
    {
        match self {
            Tables::Own(tables) => {
                let copy = tables.clone()?;
                Ok(Arc::new(alloc, copy)?)
            }
            Tables::Shared(shared) => shared.clone(),
        }
    }

    /// Shares the templates, where they are its own.
    ///
    /// # Errors
    /// Want of memory. The templates stay, whatever the answer.
    pub(crate) fn share(&mut self, alloc: Global) -> Result<(), AllocError>
        ensures unchanged { tables_in self.new ≡ tables_in self.old }
        ensures shared { OnOk result (own_places self.new ≡ None) }
    {
        match mem::replace(self, Tables::new(alloc)).into_shared(alloc) {
            Ok(shared) => {
                *self = Tables::Shared(shared);
                Ok(())
            }
            Err(kept) => {
                *self = kept;
                Err(AllocError)
            }
        }
    }

    /// The templates as they are shared; where memory is wanted for that, as they were.
    fn into_shared(self, alloc: Global) -> Result<Arc<ByDomain>, Tables>
        ensures ok { IfOk result (λ shared. (arc_value shared).tables.entries ≡ tables_in self) }
        ensures err { IfErr result (λ kept. tables_in kept ≡ tables_in self) }
    {
        match self {
            Tables::Shared(shared) => Ok(shared),
            Tables::Own(tables) => match Arc::new(alloc, tables) {
                Ok(shared) => Ok(shared),
                Err(refused) => Err(Tables::Own(refused.value)),
            },
        }
    }

    /// Makes the templates its own, where they are shared: without a copy where nobody else owns them any more.
    ///
    /// # Errors
    /// Want of memory. The templates stay, whatever the answer.
    fn make_own(&mut self, alloc: Global) -> Result<(), AllocError>
        ensures unchanged { tables_in self.new ≡ tables_in self.old }
        ensures own { OnOk result (IsSome (own_places self.new)) }
    {
        match mem::replace(self, Tables::new(alloc)).into_own() {
            Ok(tables) => {
                *self = Tables::Own(tables);
                Ok(())
            }
            Err(kept) => {
                *self = kept;
                Err(AllocError)
            }
        }
    }

    /// The templates as one's own; where memory is wanted for that, as they were.
    fn into_own(self) -> Result<ByDomain, Tables>
        ensures ok { IfOk result (λ tables. tables.tables.entries ≡ tables_in self) }
        ensures err { IfErr result (λ kept. tables_in kept ≡ tables_in self) }
    {
        match self {
            Tables::Own(tables) => Ok(tables),
            Tables::Shared(shared) => own_of(shared),
        }
    }

    /// Makes room for what a message of a domain changes: where it changes no template, none is needed.
    ///
    /// # Errors
    /// Want of memory. The templates stay, whatever the answer.
    pub(crate) fn make_room(
        &mut self,
        alloc: Global,
        domain: u32,
        changes: &Changes,
    ) -> Result<(), AllocError>
        ensures unchanged { shown_tables (tables_in self.new) ≡ shown_tables (tables_in self.old) }
        ensures room { OnOk result
            (HasTables (own_places self.new) domain (change_of changes.now)) }
    {
        if changes.is_none() {
            return Ok(());
        }
        self.make_own(alloc)?;
        match self {
            Tables::Own(tables) => tables.make_room(alloc, domain, changes),
            Tables::Shared(_) => Ok(()),
        }
    }

    /// Makes what a message of a domain changes, in room that was made for it.
    pub(crate) fn settle(&mut self, domain: u32, changes: Changes)
        requires { HasTables (own_places self.old) domain (change_of changes) }
        ensures { Settles (tables_in self.old) (tables_in self.new) domain
            (after changes (held_templates (tables_in self.old) domain)) }
    {
        if changes.is_none() {
            return;
        }
        if let Tables::Own(tables) = self {
            tables.settle(domain, changes);
        }
    }
}

/// Tables that were shared as one's own: the very ones where nobody else owns them any more, and else a copy.
fn own_of(shared: Arc<ByDomain>) -> Result<ByDomain, Tables>
    ensures ok { IfOk result (λ tables. tables.tables.entries ≡ (arc_value shared).tables.entries) }
    ensures err { IfErr result (λ kept. tables_in kept ≡ (arc_value shared).tables.entries) }
{
    match Arc::try_unwrap(shared) {
        Ok(tables) => Ok(tables),
        Err(still_shared) => copy_of(still_shared),
    }
}

/// A copy of tables that are shared; where memory is wanted, they stay shared.
fn copy_of(shared: Arc<ByDomain>) -> Result<ByDomain, Tables>
    ensures ok { IfOk result (λ tables. tables.tables.entries ≡ (arc_value shared).tables.entries) }
    ensures err { IfErr result (λ kept. tables_in kept ≡ (arc_value shared).tables.entries) }
{
    let tables: &ByDomain = &shared;
    match tables.clone() {
        Ok(copy) => Ok(copy),
        Err(_) => Err(Tables::Shared(shared)),
    }
}

impl Clone for Tables {
    ghost use Rattle.std.specs.Prelude.{◌≡◌};
    ghost use Rattle.ipfix_session.specs.Sharing.{IsSameTables};

    ghost is_clone = { λ t copy. IsSameTables copy t };

    fn clone(&self) -> Result<Tables, AllocError> {
        match self {
            Tables::Own(tables) => Ok(Tables::Own(tables.clone()?)),
            Tables::Shared(shared) => Ok(Tables::Shared(shared.clone()?)),
        }
    }
}
