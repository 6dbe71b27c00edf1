//! The templates of one kind: plain ones, or options templates.
ghost use Rattle.std.specs.Prelude.{◌≡◌, ℕ, [], Some, None, true, false, is_some, ◌==◌, if◌then◌else◌, OnOk, OnErr};
ghost use Rattle.std.specs.Option.{option_map};
ghost use Rattle.std.specs.Arc.{arc_value};
ghost use Rattle.std.specs.Ordering.{nat_cmp};
ghost use Rattle.std.specs.BTreeMap.{IsOrdered, keys};
ghost use Rattle.std.proofs.lemmas.Map.Keys.{IsStrictlySortedBy-prop};
ghost use Rattle.std.specs.BTreeSet.{contains};

use ipfix_template::Template;
use std::alloc::{AllocError, Global};
use std::collections::{BTreeMap, BTreeSet};
use std::sync::Arc;

/// Templates by their IDs. Records share them. Under an ID there may be room for a template, and none in it: room is
/// made first, so that a change of many templates takes no memory half way.
#[derive(Drop)]
pub(crate) struct TemplateMap {
    places: BTreeMap<u16, Option<Arc<Template>>>,
    ghost ordered: { IsOrdered nat_cmp places } by { IsStrictlySortedBy-prop nat_cmp (keys places) },
}

impl TemplateMap {
    ghost use Rattle.ipfix_session.specs.TemplateMaps.{in_map, shown_on, has_place};
    ghost use Rattle.ipfix_session.specs.Places.{shown_of};

    /// A map without a template.
    pub(crate) fn new(alloc: Global) -> TemplateMap
        ensures { result.places.entries ≡ [] }
    {
        TemplateMap {
            places: BTreeMap::new(alloc),
        }
    }

    /// The template of an ID.
    pub(crate) fn get(&self, id: u16) -> Option<&Arc<Template>>
        ensures { option_map (λ t. arc_value t.now) result ≡ in_map self.now id }
    {
        match self.places.get(&id) {
            Some(place) => place.as_ref(),
            None => None,
        }
    }

    /// Sets the template of an ID.
    ///
    /// # Errors
    /// Want of memory, and then no template is changed.
    pub(crate) fn put(&mut self, id: u16, template: Arc<Template>) -> Result<(), AllocError>
        ensures ok { OnOk result ((q : ℕ) → in_map self.new q
            ≡ (if q == id then Some (arc_value template) else in_map self.old q)) }
        ensures err { OnErr result (shown_on self.new ≡ shown_on self.old) }
    {
        self.places.insert(id, Some(template))?;
        Ok(())
    }

    /// Takes away the place of an ID, with what stands in it.
    fn take(&mut self, id: u16) -> Option<Option<Arc<Template>>>
        ensures taken { shown_of (option_map arc_value) result ≡ in_map self.old id }
        ensures place { is_some result ≡ has_place self.old id }
        ensures others { (q : ℕ)
            → in_map self.new q ≡ (if q == id then None else in_map self.old q) }
        ensures places { (q : ℕ)
            → has_place self.new q ≡ (if q == id then false else has_place self.old q) }
    {
        self.places.remove(&id)
    }

    /// Takes away the place of an ID.
    pub(crate) fn remove(&mut self, id: u16)
        ensures others { (q : ℕ)
            → in_map self.new q ≡ (if q == id then None else in_map self.old q) }
        ensures places { (q : ℕ)
            → has_place self.new q ≡ (if q == id then false else has_place self.old q) }
    {
        let _ = self.take(id);
    }

    /// Sets what stands in the place of an ID, which takes no memory.
    fn fill(&mut self, id: u16, template: Option<Arc<Template>>)
        requires { has_place self.old id ≡ true }
        ensures filled { (q : ℕ) → in_map self.new q
            ≡ (if q == id then option_map arc_value template else in_map self.old q) }
        ensures places { (q : ℕ) → has_place self.new q ≡ has_place self.old q }
    {
        if let Some(place) = self.places.get_mut(&id) {
            *place = template;
        }
    }

    /// Makes room for each template of another map.
    ///
    /// # Errors
    /// Want of memory. No template is changed, whatever the answer.
    pub(crate) fn make_room(&mut self, others: &TemplateMap) -> Result<(), AllocError>
        ensures unchanged { shown_on self.new ≡ shown_on self.old }
        ensures room { OnOk result ((q : ℕ) → has_place others.now q ≡ true
            → has_place self.new q ≡ true) }
    {
        for id in others.places.keys() {
            self.make_place(*id)?;
        }
        Ok(())
    }

    /// Makes a place for an ID, where it has none.
    fn make_place(&mut self, id: u16) -> Result<(), AllocError>
        ensures unchanged { shown_on self.new ≡ shown_on self.old }
        ensures made { OnOk result (has_place self.new id ≡ true) }
        ensures stay { OnOk result ((q : ℕ) → has_place self.old q ≡ true
            → has_place self.new q ≡ true) }
    {
        if !self.places.contains_key(&id) {
            self.places.insert(id, None)?;
        }
        Ok(())
    }

    /// Takes over what a message decides: of the IDs that it decided the templates that it defines, and none of the
    /// others; of each further ID none, where it withdraws all, and else the one before.
    pub(crate) fn take_over(
        &mut self,
        withdrawn: bool,
        decided: &BTreeSet<u16>,
        defined: TemplateMap,
    )
        requires room { (q : ℕ) → has_place defined q ≡ true → has_place self.old q ≡ true }
        ensures { (q : ℕ) → in_map self.new q
            ≡ (if withdrawn then in_map defined q else if contains nat_cmp decided.now q
            then in_map defined q else in_map self.old q) }
    {
        if withdrawn {
            *self = defined;
        } else {
            self.settle(decided, defined);
        }
    }

    /// Sets, of the IDs that a message decided, the templates that it defines, and takes out the others.
    fn settle(&mut self, decided: &BTreeSet<u16>, defined: TemplateMap)
        requires room { (q : ℕ) → has_place defined q ≡ true → has_place self.old q ≡ true }
        ensures { (q : ℕ) → in_map self.new q
            ≡ (if contains nat_cmp decided.now q then in_map defined q else in_map self.old q) }
    {
        let mut left = defined;
        for id in decided {
            match left.take(*id) {
                Some(template) => self.fill(*id, template),
                None => self.remove(*id),
            }
        }
    }
}

impl Clone for TemplateMap {
    ghost use Rattle.std.specs.Prelude.{◌≡◌};
    ghost use Rattle.ipfix_session.specs.TemplateMaps.{IsSameMap};

    ghost is_clone = { λ s copy. IsSameMap copy s };

    fn clone(&self) -> Result<TemplateMap, AllocError> {
        Ok(TemplateMap {
            places: self.places.clone()?,
        })
    }
}
