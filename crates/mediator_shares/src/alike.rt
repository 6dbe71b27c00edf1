//! Subscriptions that no rule tells apart: what becomes of a record is the same for each of them.
ghost use Rattle.std.specs.Prelude.{◌≡◌, ◌++◌, ◌∷◌, [], List, false, IfOk, OnOk};
ghost use Rattle.policy_text.specs.declared.rule.Rule.{Rule};
ghost use Rattle.mediator_tables.specs.declared.served.Served.{Served as ServedOf};
ghost use Rattle.mediator_shares.specs.Alike.{is_told_apart, AreLed, IsGrouping};

use crate::in_force::InForce;
use mediator_tables::Served;
use std::alloc::{AllocError, Global};

/// Subscriptions in groups. No rule tells those of a group apart, so records are judged for one of them.
#[derive(Drop)]
pub(crate) struct Groups<'a> {
    /// One of each group, for which records are judged.
    pub(crate) leaders: Vec<Served<'a>>,
    /// For each subscription the place of its group's one among the leaders.
    pub(crate) places: Vec<usize>,
    /// Whether a group has more than one.
    pub(crate) has_led: bool,
    /// The place of the one of those that no rule names, once there is one.
    unnamed: Option<usize>,
}

/// The subscriptions `served` in groups, in memory from `alloc`: those that no rule of the policy in force names are
/// one group, and each other one is alone. It takes as many look-ups of a name, in time that grows with the logarithm
/// of the number of rules, as there are subscriptions.
///
/// # Errors
/// Want of memory.
pub(crate) fn groups_of<'a>(
    alloc: Global,
    in_force: &InForce,
    served: &[Served<'a>],
) -> Result<Groups<'a>, AllocError>
    ensures led { IfOk result (λ g.
        AreLed in_force.now.policy.rules g.leaders.items served.now g.places.items) }
    // Where each leads itself, the leaders are all of them.
    ensures alone { IfOk result (λ g. g.has_led ≡ false → g.leaders.items ≡ served.now) }
{
    let mut groups = Groups {
        leaders: Vec::with_capacity(alloc, served.len())?,
        places: Vec::with_capacity(alloc, served.len())?,
        has_led: false,
        unnamed: None,
    };
    'served: for who in served {
        groups.add(*who, in_force.names(who.name))?;
    }
    Ok(groups)
}

impl<'a> Groups<'a> {
    /// Adds `who` behind the others: to those that no rule names, or as one that leads. `is_named` says whether a rule
    /// names it.
    ///
    /// # Errors
    /// Want of memory.
    fn add(&mut self, who: Served<'a>, is_named: bool) -> Result<(), AllocError>
        ensures grouping { (rules : List Rule) (served : List ServedOf)
            → is_named ≡ is_told_apart who.entry.name.now rules
            → IsGrouping rules self.old.leaders.items self.old.unnamed served self.old.places.items
            → OnOk result (IsGrouping rules self.new.leaders.items self.new.unnamed
            (served ++ who.entry ∷ []) self.new.places.items) }
        ensures alone { (served : List ServedOf)
            → (self.old.has_led ≡ false → self.old.leaders.items ≡ served)
            → OnOk result (self.new.has_led ≡ false
            → self.new.leaders.items ≡ served ++ who.entry ∷ []) }
    {
        if !is_named {
            if let Some(place) = self.unnamed {
                self.has_led = true;
                self.places.push(place)?;
                return Ok(());
            }
            self.unnamed = Some(self.leaders.len());
        }
        self.places.push(self.leaders.len())?;
        self.leaders.push(who)?;
        Ok(())
    }
}
