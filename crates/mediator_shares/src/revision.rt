//! A policy, with what is worked out of it once, for all messages that it judges.
ghost use Rattle.std.specs.Prelude.{◌≡◌, ◌↔◌, ◌||◌, ℕ, true, IsTrue, IfOk, OnOk};
ghost use Rattle.std.specs.Prelude.{List, map};
ghost use Rattle.std.specs.List.{AllByRecursion};
ghost use Rattle.std.specs.Arc.{arc_value};
ghost use Rattle.ipfix_element.specs.Kinds.{kind_of};
ghost use Rattle.policy_text.specs.Classes.{is_key_kind};
ghost use Rattle.std.specs.BTreeSet.{contains_text};
ghost use Rattle.rule_table.specs.Cuts.{HaveCuts};
ghost use Rattle.mediator_shares.specs.Alike.{is_who, is_told_apart};

use flow_aggregate::Definition;
use policy_text::{AggregateDef, Policy, Rule};
use rule_table::{AddressClasses, RuleTable};
use std::alloc::{AllocError, Global};
use std::collections::BTreeSet;
use std::marker::Model;
use std::sync::Arc;

/// A policy, with its printed text, its rules in a table, the classes that their prefixes make, its aggregates as groups
/// share them, and the names of the subscribers that its rules name. Threads share it. Contracts see the policy.
pub(crate) struct Revision {
    policy: Policy,
    /// The policy's printed text: two policies are the same where their texts are.
    text: String,
    table: Arc<RuleTable>,
    classes: Arc<AddressClasses>,
    definitions: Vec<Definition>,
    /// The subscribers that the rules name.
    named: BTreeSet<String>,
}

impl Drop for Revision {
    // Written out: a derived one is proved anew in each crate that drops such a value.
    fn drop(self) {
        let Revision {
            policy: _,
            text: _,
            table: _,
            classes: _,
            definitions: _,
            named: _,
        } = self;
    }
}

impl Model for Revision {
    ghost use Rattle.std.specs.Prelude.{◌≡◌, string_bytes};
    ghost use Rattle.std.specs.Arc.{arc_value};
    ghost use Rattle.policy_text.specs.Policies.{PolicyMeaning};
    ghost use Rattle.policy_text.specs.Printing.{policy_text};
    ghost use Rattle.std.specs.BTreeSet.{contains_text};
    ghost use Rattle.mediator_shares.specs.InForce.{IsPolicyKept};

    ghost Value = { PolicyMeaning };

    ghost view = { λ r. r.policy };

    ghost invariant = { λ r. IsPolicyKept r.policy (string_bytes r.text) (arc_value r.table)
        (arc_value r.classes) r.definitions.items (contains_text r.named) };
}

impl Revision {
    ghost use Rattle.std.specs.Prelude.{slice_get};
    ghost use Rattle.std.specs.Option.{option_copied};

    /// The policy `policy`, with what is worked out of it, in memory from `alloc`.
    ///
    /// # Errors
    /// Want of memory.
    pub(crate) fn of(alloc: Global, policy: Policy) -> Result<Revision, AllocError>
        ensures { IfOk result (λ r. r ≡ policy) }
    {
        // The kinds of a key's elements are kept by the type of policies.
        let _for_proof = policy.rules();
        let definitions = definitions_of(alloc, policy.aggregates())?;
        let text = policy.print(alloc)?;
        let table = RuleTable::build(alloc, &policy)?;
        let classes = AddressClasses::of_rules(alloc, policy.rules())?;
        let named = named_by(alloc, policy.rules())?;
        Ok(Revision {
            policy,
            text,
            table: Arc::new(alloc, table)?,
            classes: Arc::new(alloc, classes)?,
            definitions,
            named,
        })
    }

    /// Whether a rule names the subscriber `name`.
    pub(crate) fn names(&self, name: &str) -> bool
        ensures { result ≡ is_told_apart name.now self.now.rules }
    {
        self.named.contains(name)
    }

    /// Whether the policy is that of `other`. Their printed texts are compared.
    pub(crate) fn is_same(&self, other: &Revision) -> bool
        ensures { IsTrue result ↔ self.now ≡ other.now }
    {
        self.text.as_bytes() == other.text.as_bytes()
    }

    /// The rules as a table, and the classes that their prefixes make, shared.
    ///
    /// # Errors
    /// Want of memory.
    pub(crate) fn table(&self) -> Result<(Arc<RuleTable>, Arc<AddressClasses>), AllocError>
        ensures table { IfOk result (λ t. arc_value t.0 ≡ self.now.rules) }
        ensures classes { IfOk result (λ t. HaveCuts (arc_value t.1) self.now.rules) }
    {
        Ok((self.table.clone()?, self.classes.clone()?))
    }

    /// The aggregate at `place` of the policy's list, counted from 0, or `None` past the last one.
    pub(crate) fn aggregate(&self, place: usize) -> Option<&AggregateDef>
        ensures { option_copied result ≡ slice_get self.now.aggregates place }
    {
        self.policy.aggregates().get(place)
    }

    /// The aggregate at `place` of the policy's list, as groups share it, or `None` past the last one.
    pub(crate) fn definition(&self, place: usize) -> Option<&Definition>
        ensures { option_copied result ≡ slice_get self.now.aggregates place }
    {
        self.definitions.get(place)
    }
}

/// The definitions `aggregates`, as groups share them, in memory from `alloc`.
///
/// # Errors
/// Want of memory.
fn definitions_of(alloc: Global, aggregates: &[AggregateDef]) -> Result<Vec<Definition>, AllocError>
    requires { AllByRecursion (λ a. AllByRecursion (λ e. is_key_kind (kind_of e) ≡ true) a.key)
        aggregates.now }
    ensures { IfOk result (λ v. v.items ≡ aggregates.now) }
{
    let mut definitions = Vec::new(alloc);
    for definition in aggregates {
        definitions.push(Definition::of(alloc, definition)?)?;
    }
    Ok(definitions)
}

/// The subscribers that `rules` name, in memory from `alloc`.
///
/// # Errors
/// Want of memory.
fn named_by(alloc: Global, rules: &[Rule]) -> Result<BTreeSet<String>, AllocError>
    ensures { IfOk result
        (λ named. (name : List ℕ) → contains_text named name ≡ is_told_apart name rules.now) }
{
    let mut named = BTreeSet::new(alloc);
    'rules: for rule in rules {
        put_named(alloc, rule, &mut named)?;
    }
    Ok(named)
}

/// Adds to `named` the subscriber that `rule` names, if it names one, in memory from `alloc`.
///
/// # Errors
/// Want of memory.
fn put_named(alloc: Global, rule: &Rule, named: &mut BTreeSet<String>) -> Result<(), AllocError>
    ensures { OnOk result ((name : List ℕ)
        → contains_text named.new name ≡ (contains_text named.old name || is_who name rule.now.who)) }
{
    match &rule.who {
        Some(name) => {
            let key = String::from_str(alloc, name.as_str())?;
            named.insert(key)?;
            Ok(())
        }
        None => Ok(()),
    }
}
