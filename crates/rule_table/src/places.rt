//! Where a template's addresses stand in its records, worked out once.
ghost use Rattle.std.specs.Prelude.{◌≡◌, IfOk};
ghost use Rattle.std.specs.Arc.{arc_value};
ghost use Rattle.policy_judge.specs.declared.occurrences.Side.TheVariants.{Source, Destination};
ghost use Rattle.rule_table.specs.Places.{ArePlaces};

use crate::place::{Place, places_of};
use ipfix_template::Template;
use policy_judge::Side;
use std::alloc::{AllocError, Global};
use std::marker::Model;
use std::sync::Arc;

/// Where the addresses of a template's records stand. Contracts see the template.
#[derive(Drop)]
pub struct AddressPlaces {
    template: Arc<Template>,
    /// Of the sources, in the order of their fields.
    sources: Vec<Place>,
    /// Of the destinations, in the order of their fields.
    destinations: Vec<Place>,
}

impl Model for AddressPlaces {
    ghost use Rattle.std.specs.Arc.{arc_value};
    ghost use Rattle.ipfix_template.specs.declared.template.Template.{Template};
    ghost use Rattle.rule_table.specs.Places.{AreAddressPlaces};

    ghost Value = { Template };

    ghost view = { λ p. arc_value p.template };

    ghost invariant = { λ p. AreAddressPlaces
        (arc_value p.template) p.sources.items p.destinations.items };
}

impl AddressPlaces {
    /// Where the addresses of the records of `template` stand, in memory from `alloc`.
    ///
    /// # Errors
    /// Want of memory.
    pub fn of(alloc: Global, template: Arc<Template>) -> Result<AddressPlaces, AllocError>
        ensures { IfOk result (λ places. places ≡ arc_value template) }
    {
        let fields = template.fields.as_slice();
        let sources = places_of(alloc, Side::Source, fields)?;
        let destinations = places_of(alloc, Side::Destination, fields)?;
        Ok(AddressPlaces {
            template,
            sources,
            destinations,
        })
    }

    /// The template whose records these are places of.
    pub fn template(&self) -> &Template
        ensures { result.now ≡ self.now }
    {
        &self.template
    }

    /// Where the sources stand.
    pub(crate) fn sources(&self) -> &[Place]
        ensures { ArePlaces Source self.now.fields result.now }
    {
        self.sources.as_slice()
    }

    /// Where the destinations stand.
    pub(crate) fn destinations(&self) -> &[Place]
        ensures { ArePlaces Destination self.now.fields result.now }
    {
        self.destinations.as_slice()
    }
}
