//! The templates of one domain.
ghost use Rattle.std.specs.Prelude.{◌≡◌, ℕ, [], Some, None, false, ◌==◌, if◌then◌else◌, IfSome, OnOk, OnErr};
ghost use Rattle.std.specs.Option.{option_map, option_copied};
ghost use Rattle.std.specs.Arc.{arc_value};
ghost use Rattle.std.specs.Ordering.{nat_cmp};
ghost use Rattle.std.specs.BTreeSet.{contains};
ghost use Rattle.ipfix_session.specs.InForce.{unless_of_kind};
ghost use Rattle.ipfix_session.specs.Keeping.{at_key, IsKeepable};
ghost use Rattle.ipfix_session.specs.Tables.{template_after};
ghost use Rattle.ipfix_session.specs.Places.{HasPlaces};

use crate::template_map::TemplateMap;
use ipfix_template::Template;
use std::alloc::{AllocError, Global};
use std::collections::BTreeSet;
use std::marker::Model;
use std::sync::Arc;

/// The templates of one domain by their IDs, each of which is accepted and fits one message. The two kinds stand apart,
/// so that a withdrawal of all of a kind lets go of that kind alone, and each template is let go once. Contracts see the
/// list of IDs and templates, and the IDs that have a place.
#[derive(Drop)]
pub(crate) struct Table {
    plain: TemplateMap,
    options: TemplateMap,
}

impl Model for Table {
    ghost use Rattle.ipfix_session.specs.Places.{Tabled};

    ghost Value = { Tabled };

    ghost use Rattle.std.specs.Prelude.{◌++◌};
    ghost use Rattle.std.specs.Prelude.{ℕ};
    ghost use Rattle.ipfix_session.specs.TemplateMaps.{shown_on, in_map, places_on};
    ghost use Rattle.ipfix_session.specs.Tables.{IsOneOfKind};

    ghost view = { λ t. record { templates = shown_on t.plain ++ shown_on t.options; places = record { plain = places_on t.plain; options = places_on t.options } } };

    ghost invariant = { λ t. (id : ℕ) → IsOneOfKind (in_map t.plain id) (in_map t.options id) };
}

impl Clone for Table {
    ghost use Rattle.std.specs.Prelude.{◌≡◌};

    ghost is_clone = { λ t copy. copy ≡ t };

    fn clone(&self) -> Result<Table, AllocError> {
        Ok(Table {
            plain: self.plain.clone()?,
            options: self.options.clone()?,
        })
    }
}

impl Table {
    /// A table without a template.
    pub(crate) fn new(alloc: Global) -> Table
        ensures { result.templates ≡ [] }
    {
        Table {
            plain: TemplateMap::new(alloc),
            options: TemplateMap::new(alloc),
        }
    }

    /// The template of an ID.
    pub(crate) fn get(&self, id: u16) -> Option<&Arc<Template>>
        ensures value { option_map (λ t. arc_value t.now) result ≡ at_key id self.now.templates }
        ensures keepable { IfSome result (λ t. IsKeepable (arc_value t.now)) }
    {
        match self.plain.get(id) {
            Some(template) => Some(template),
            None => self.options.get(id),
        }
    }

    /// The template of an ID, without the share in it.
    pub(crate) fn template(&self, id: u16) -> Option<&Template>
        ensures { option_copied result ≡ at_key id self.now.templates }
    {
        match self.get(id) {
            Some(shared) => Some(shared),
            None => None,
        }
    }

    /// Sets the template of an ID.
    ///
    /// # Errors
    /// Want of memory, and then no template is changed.
    pub(crate) fn define(
        &mut self,
        alloc: Global,
        id: u16,
        template: Template,
    ) -> Result<(), AllocError>
        requires { IsKeepable template }
        ensures ok { OnOk result ((q : ℕ) → at_key q self.new.templates
            ≡ (if q == id then Some template else at_key q self.old.templates)) }
        ensures err { OnErr result (self.new.templates ≡ self.old.templates) }
    {
        let is_options = template.is_options();
        let shared = Arc::new(alloc, template)?;
        if is_options {
            self.options.put(id, shared)?;
            self.plain.remove(id);
        } else {
            self.plain.put(id, shared)?;
            self.options.remove(id);
        }
        Ok(())
    }

    /// Takes out the template of an ID.
    pub(crate) fn withdraw(&mut self, id: u16)
        ensures { (q : ℕ) → at_key q self.new.templates
            ≡ (if q == id then None else at_key q self.old.templates) }
    {
        self.plain.remove(id);
        self.options.remove(id);
    }

    /// Takes out all options templates, or all plain ones.
    pub(crate) fn withdraw_all(&mut self, alloc: Global, options: bool)
        ensures { (q : ℕ)
            → at_key q self.new.templates ≡ unless_of_kind options (at_key q self.old.templates) }
    {
        if options {
            self.options = TemplateMap::new(alloc);
        } else {
            self.plain = TemplateMap::new(alloc);
        }
    }

    /// Makes a place for each template of another table.
    ///
    /// # Errors
    /// Want of memory. No template is changed, whatever the answer.
    pub(crate) fn make_room(&mut self, others: &Table) -> Result<(), AllocError>
        ensures unchanged { self.new.templates ≡ self.old.templates }
        ensures room { OnOk result (HasPlaces self.new.places others.now.places) }
    {
        self.plain.make_room(&others.plain)?;
        self.options.make_room(&others.options)?;
        Ok(())
    }

    /// Takes over what a message decides: the templates that it defines, the IDs that it decided, and whether it
    /// withdraws all plain templates, or all options templates, that stood before it. It takes no memory.
    pub(crate) fn take_over(
        &mut self,
        defined: Table,
        decided: &BTreeSet<u16>,
        plain_withdrawn: bool,
        options_withdrawn: bool,
    )
        requires decided { (q : ℕ) → contains nat_cmp decided.now q ≡ false
            → at_key q defined.templates ≡ None }
        requires room { HasPlaces self.old.places defined.places }
        ensures { (q : ℕ) → at_key q self.new.templates
            ≡ template_after (at_key q defined.templates) (contains nat_cmp decided.now q)
            plain_withdrawn options_withdrawn (at_key q self.old.templates) }
    {
        let Table { plain, options } = defined;
        self.plain.take_over(plain_withdrawn, decided, plain);
        self.options.take_over(options_withdrawn, decided, options);
    }
}
