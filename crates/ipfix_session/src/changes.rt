//! What a message changes of its domain's templates.
ghost use Rattle.std.specs.Prelude.{◌≡◌, ℕ, List, Option, Some, None, false, true, ◌==◌, if◌then◌else◌, IfSome, OnOk, IsTrue};
ghost use Rattle.std.specs.Option.{option_map};
ghost use Rattle.std.specs.Arc.{arc_value};
ghost use Rattle.std.specs.Ordering.{nat_cmp};
ghost use Rattle.std.specs.BTreeSet.{contains};
ghost use Rattle.ipfix_template.specs.declared.template.Template.{Template};
ghost use Rattle.ipfix_template.specs.Template.{is_options};
ghost use Rattle.ipfix_session.specs.InForce.{unless_of_kind};
ghost use Rattle.ipfix_session.specs.Keeping.{at_key, IsKeepable};
ghost use Rattle.ipfix_session.specs.Places.{HasPlaces};
ghost use Rattle.ipfix_session.specs.Change.{changed_template, changes_none};

use crate::table::Table;
use ipfix_template::Template;
use std::alloc::{AllocError, Global};
use std::collections::BTreeSet;
use std::sync::Arc;

/// What the message read so far changes of the templates before it, which stay as they are until the whole message is
/// accepted: a refused message leaves nothing to undo. Contracts see by `after` the template that an ID then has.
#[derive(Drop)]
pub(crate) struct Changes {
    alloc: Global,
    /// The templates that the message defines and doesn't withdraw again.
    defined: Table,
    /// The IDs that the message defines, refuses or singly withdraws.
    decided: BTreeSet<u16>,
    /// Whether the message withdraws all plain templates before it.
    plain_withdrawn: bool,
    /// Whether the message withdraws all options templates before it.
    options_withdrawn: bool,
    ghost only_decided: { (q : ℕ) → contains nat_cmp decided q ≡ false → at_key q defined.templates ≡ None },
}

impl Changes {
    ghost use Rattle.ipfix_session.specs.Changing.{change_of, after};

    /// No change.
    pub(crate) fn new(alloc: Global) -> Changes
        ensures same { (before : List (ℕ × Template)) (q : ℕ)
            → after result before q ≡ at_key q before }
        ensures nothing { (found : Option Template) (q : ℕ)
            → changed_template (change_of result) q found ≡ found }
    {
        Changes {
            alloc,
            defined: Table::new(alloc),
            decided: BTreeSet::new(alloc),
            plain_withdrawn: false,
            options_withdrawn: false,
        }
    }

    /// Whether nothing is changed: no ID is decided, and no kind is withdrawn. Repeated definitions change nothing.
    pub(crate) fn is_none(&self) -> bool
        ensures value { result ≡ changes_none (change_of self.now) }
        ensures same { IsTrue result
            → (before : List (ℕ × Template)) (q : ℕ) → after self.now before q ≡ at_key q before }
    {
        !self.plain_withdrawn && !self.options_withdrawn && self.decided.is_empty()
    }

    /// The template that an ID has after the changes.
    pub(crate) fn get<'a>(&'a self, before: &'a Table, id: u16) -> Option<&'a Arc<Template>>
        ensures value { option_map (λ t. arc_value t.now) result
            ≡ after self.now before.now.templates id }
        ensures keepable { IfSome result (λ t. IsKeepable (arc_value t.now)) }
    {
        if let Some(template) = self.defined.get(id) {
            return Some(template);
        }
        if self.decided.contains(&id) {
            return None;
        }
        match before.get(id) {
            Some(template) if !self.withdraws(template) => Some(template),
            _ => None,
        }
    }

    /// Whether the message withdraws all templates of this one's kind that stood before it.
    fn withdraws(&self, template: &Template) -> bool
        ensures { result ≡ (if is_options template.now
            then self.now.options_withdrawn else self.now.plain_withdrawn) }
    {
        if template.is_options() {
            self.options_withdrawn
        } else {
            self.plain_withdrawn
        }
    }

    /// Sets the template of an ID. One that is in force already changes nothing, so exporters may repeat their
    /// templates at no cost.
    ///
    /// # Errors
    /// Want of memory.
    pub(crate) fn define(
        &mut self,
        before: &Table,
        id: u16,
        template: Template,
    ) -> Result<(), AllocError>
        requires { IsKeepable template }
        ensures { OnOk result ((q : ℕ) → after self.new before.now.templates q
            ≡ (if q == id then Some template else after self.old before.now.templates q)) }
    {
        if self.repeats(before, id, &template) {
            return Ok(());
        }
        self.decided.insert(id)?;
        self.defined.define(self.alloc, id, template)
    }

    /// Whether the ID has this template already.
    fn repeats(&self, before: &Table, id: u16, template: &Template) -> bool
        ensures { IsTrue result → after self.now before.now.templates id ≡ Some template.now }
    {
        match self.get(before, id) {
            Some(kept) => {
                let kept: &Template = kept;
                kept == template
            }
            None => false,
        }
    }

    /// Takes out the template of an ID, if there is one.
    ///
    /// # Errors
    /// Want of memory.
    pub(crate) fn withdraw(&mut self, before: &Table, id: u16) -> Result<(), AllocError>
        ensures { OnOk result ((q : ℕ) → after self.new before.now.templates q
            ≡ (if q == id then None else after self.old before.now.templates q)) }
    {
        if self.get(before, id).is_none() {
            return Ok(());
        }
        self.decided.insert(id)?;
        self.defined.withdraw(id);
        Ok(())
    }

    /// Takes out all options templates, or all plain ones: those before the message, and those that it defined.
    pub(crate) fn withdraw_all(&mut self, options: bool)
        ensures { (before : List (ℕ × Template)) (q : ℕ)
            → after self.new before q ≡ unless_of_kind options (after self.old before q) }
    {
        self.defined.withdraw_all(self.alloc, options);
        if options {
            self.options_withdrawn = true;
        } else {
            self.plain_withdrawn = true;
        }
    }

    /// Makes a place for each template that the message defines.
    ///
    /// # Errors
    /// Want of memory. No template is changed, whatever the answer.
    pub(crate) fn make_room(&self, templates: &mut Table) -> Result<(), AllocError>
        ensures unchanged { templates.new.templates ≡ templates.old.templates }
        ensures room { OnOk result (HasPlaces templates.new.places self.now.defined.places) }
    {
        templates.make_room(&self.defined)
    }

    /// Makes the changes, in room that was made for them.
    pub(crate) fn make(self, templates: &mut Table)
        requires { HasPlaces templates.old.places self.defined.places }
        ensures { (q : ℕ)
            → at_key q templates.new.templates ≡ after self templates.old.templates q }
    {
        templates.take_over(
            self.defined,
            &self.decided,
            self.plain_withdrawn,
            self.options_withdrawn,
        );
    }
}
