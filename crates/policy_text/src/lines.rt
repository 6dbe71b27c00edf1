//! The lines of a policy, read word by word: what a rule says, and what an aggregate is.
ghost use Rattle.std.specs.Prelude.{◌≡◌, ◌≤◌, length, IfOk, IfErr, true, false};
ghost use Rattle.policy_text.specs.Policies.{IsKeyLength};
ghost use Rattle.policy_text.specs.Results.{Gives, is_memory};
ghost use Rattle.policy_text.specs.Naming.{is_name};
ghost use Rattle.policy_text.specs.Memory.{is_next, is_new_name, names_subscriber};
ghost use Rattle.policy_text.specs.Classes.{name, number, element, prefix, or_star, aggregate_place, bits_within, width_at, is_time_at, new_name, key_of, interval};
ghost use Rattle.policy_text.specs.Lines.{next, truncate_of, degrade_of, read_element_action, aggregate_action, on_element, action_of, rule_of, aggregate_of};

use crate::aggregate::AggregateDef;
use crate::classes::{
    is_time_at, read_bits, read_domain, read_element_or_star, read_grace, read_interval, read_key,
    read_new_name, read_place, read_prefix_or_star, read_who, width_at,
};
use crate::fault::FaultKind;
use crate::name::Name;
use crate::rule::{Action, Rule};
use crate::version::Version;
use crate::words::Words;
use flow_prefix::Prefix;
use ipfix_element::ElementId;
use numerals::is_word;
use std::alloc::Global;

impl Words<'_> {
    #[tactic(auto, unfolding(crate::specs::Lines::next, crate::specs::Memory::is_next))]
    fn who(&mut self, alloc: Global) -> Result<Option<Name>, FaultKind>
        ensures value { Gives (λ who. (who, self.new)) result (next (or_star name) self.old) }
        ensures memory { IfErr result (λ kind. is_memory kind ≡ true
            → is_next is_name self.old ≡ true) }
    {
        let word = self.word()?;
        read_who(alloc, word)
    }

    #[tactic(auto, unfolding(crate::specs::Lines::next))]
    fn domain(&mut self) -> Result<Option<u32>, FaultKind>
        ensures value { Gives (λ domain. (domain, self.new)) result
            (next (or_star (number 4294967295)) self.old) }
        ensures no_memory { IfErr result (λ kind. is_memory kind ≡ false) }
    {
        let word = self.word()?;
        read_domain(word)
    }

    #[tactic(auto, unfolding(crate::specs::Lines::next))]
    fn prefix(&mut self) -> Result<Option<Prefix>, FaultKind>
        ensures value { Gives
            (λ prefix. (prefix, self.new)) result (next (or_star prefix) self.old) }
        ensures no_memory { IfErr result (λ kind. is_memory kind ≡ false) }
    {
        let word = self.word()?;
        read_prefix_or_star(word)
    }

    #[tactic(auto, unfolding(crate::specs::Lines::next))]
    fn element(&mut self) -> Result<Option<ElementId>, FaultKind>
        ensures value { Gives (λ e. (e, self.new)) result (next (or_star element) self.old) }
        ensures no_memory { IfErr result (λ kind. is_memory kind ≡ false) }
    {
        let word = self.word()?;
        read_element_or_star(word)
    }

    #[tactic(auto, unfolding(crate::specs::Lines::next))]
    fn place(&mut self, aggregates: &[AggregateDef]) -> Result<usize, FaultKind>
        ensures value { Gives (λ place. (place, self.new)) result
            (next (aggregate_place aggregates.now) self.old) }
        ensures no_memory { IfErr result (λ kind. is_memory kind ≡ false) }
    {
        let word = self.word()?;
        read_place(aggregates, word)
    }

    #[tactic(auto, unfolding(crate::specs::Lines::next))]
    fn bits(&mut self, width: u32) -> Result<usize, FaultKind>
        ensures value { Gives
            (λ bits. (bits, self.new)) result (next (bits_within width) self.old) }
        ensures no_memory { IfErr result (λ kind. is_memory kind ≡ false) }
    {
        let word = self.word()?;
        read_bits(width, word)
    }

    /// What stands behind `truncate`, of an element of this width.
    #[tactic(auto, unfolding(crate::specs::Lines::truncate_of))]
    fn truncate(&mut self, width: Option<u32>) -> Result<Action, FaultKind>
        ensures value { Gives (λ action. (action, self.new)) result (truncate_of width self.old) }
        ensures no_memory { IfErr result (λ kind. is_memory kind ≡ false) }
    {
        let Some(width) = width else {
            return Err(FaultKind::BadTruncate);
        };
        let bits = self.bits(width)?;
        Ok(Action::Truncate(bits))
    }

    /// What stands behind `degrade`, of an element whose values are times or not.
    #[tactic(auto, unfolding(crate::specs::Lines::degrade_of))]
    fn degrade(&mut self, is_time: bool) -> Result<Action, FaultKind>
        ensures value { Gives (λ action. (action, self.new)) result (degrade_of is_time self.old) }
        ensures no_memory { IfErr result (λ kind. is_memory kind ≡ false) }
    {
        if !is_time {
            return Err(FaultKind::BadDegrade);
        }
        let seconds = self.interval()?;
        Ok(Action::Degrade(seconds))
    }

    /// What stands behind `element ELEM`, in a text of this version.
    #[tactic(auto, unfolding(crate::specs::Lines::read_element_action))]
    fn element_action(
        &mut self,
        version: Version,
        element: &Option<ElementId>,
    ) -> Result<Action, FaultKind>
        ensures value { Gives (λ action. (action, self.new)) result
            (read_element_action version element.now self.old) }
        ensures no_memory { IfErr result (λ kind. is_memory kind ≡ false) }
    {
        let word = self.word()?;
        if is_word(word, b"keep") {
            return Ok(Action::Keep);
        }
        if is_word(word, b"remove") {
            return Ok(Action::Remove);
        }
        if is_word(word, b"truncate") {
            return self.truncate(width_at(element));
        }
        if version.has_degrade() && is_word(word, b"degrade") {
            return self.degrade(is_time_at(element));
        }
        Err(FaultKind::UnknownWord)
    }

    #[tactic(auto, unfolding(crate::specs::Lines::aggregate_action))]
    fn aggregate_action(
        &mut self,
        aggregates: &[AggregateDef],
    ) -> Result<(Option<ElementId>, Action), FaultKind>
        ensures value { Gives (λ done. (done, self.new)) result
            (aggregate_action aggregates.now self.old) }
        ensures no_memory { IfErr result (λ kind. is_memory kind ≡ false) }
    {
        let place = self.place(aggregates)?;
        Ok((None, Action::Aggregate(place)))
    }

    #[tactic(auto, unfolding(crate::specs::Lines::on_element))]
    fn on_element(&mut self, version: Version) -> Result<(Option<ElementId>, Action), FaultKind>
        ensures value { Gives (λ done. (done, self.new)) result (on_element version self.old) }
        ensures no_memory { IfErr result (λ kind. is_memory kind ≡ false) }
    {
        let element = self.element()?;
        let action = self.element_action(version, &element)?;
        Ok((element, action))
    }

    /// An action, with its element.
    #[tactic(auto, unfolding(crate::specs::Lines::action_of))]
    fn action(
        &mut self,
        version: Version,
        aggregates: &[AggregateDef],
    ) -> Result<(Option<ElementId>, Action), FaultKind>
        ensures value { Gives (λ done. (done, self.new)) result
            (action_of version aggregates.now self.old) }
        ensures no_memory { IfErr result (λ kind. is_memory kind ≡ false) }
    {
        let word = self.word()?;
        if is_word(word, b"pass") {
            return Ok((None, Action::Pass));
        }
        if is_word(word, b"withhold") {
            return Ok((None, Action::Withhold));
        }
        if is_word(word, b"aggregate") {
            return self.aggregate_action(aggregates);
        }
        if is_word(word, b"element") {
            return self.on_element(version);
        }
        Err(FaultKind::UnknownWord)
    }

    #[tactic(auto, unfolding(crate::specs::Lines::next, crate::specs::Memory::is_next))]
    fn new_name(&mut self, alloc: Global, aggregates: &[AggregateDef]) -> Result<Name, FaultKind>
        ensures value { Gives (λ name. (name, self.new)) result
            (next (new_name aggregates.now) self.old) }
        ensures unused { IfOk result (λ _. is_next (is_new_name aggregates.now) self.old ≡ true) }
        ensures memory { IfErr result (λ kind. is_memory kind ≡ true
            → is_next (is_new_name aggregates.now) self.old ≡ true) }
    {
        let word = self.word()?;
        read_new_name(alloc, aggregates, word)
    }

    #[tactic(auto, unfolding(crate::specs::Lines::next))]
    fn key(&mut self, alloc: Global) -> Result<Vec<ElementId>, FaultKind>
        ensures value { Gives (λ key. (key.items, self.new)) result (next key_of self.old) }
        ensures bound { IfOk result (λ key. IsKeyLength (length key.items)) }
    {
        let word = self.word()?;
        read_key(alloc, word)
    }

    #[tactic(auto, unfolding(crate::specs::Lines::next))]
    fn interval(&mut self) -> Result<u32, FaultKind>
        ensures value { Gives (λ n. (n, self.new)) result (next interval self.old) }
        ensures bound { IfOk result (λ n. (1 ≤ n) × (n ≤ 86400)) }
        ensures no_memory { IfErr result (λ kind. is_memory kind ≡ false) }
    {
        let word = self.word()?;
        read_interval(word)
    }

    #[tactic(auto, unfolding(crate::specs::Lines::next))]
    fn grace(&mut self) -> Result<u32, FaultKind>
        ensures value { Gives (λ n. (n, self.new)) result (next (number 86400) self.old) }
        ensures bound { IfOk result (λ n. n ≤ 86400) }
        ensures no_memory { IfErr result (λ kind. is_memory kind ≡ false) }
    {
        let word = self.word()?;
        read_grace(word)
    }
}

/// The rule that the words behind `rule` spell, in a text of this version.
#[tactic(auto, unfolding(crate::specs::Lines::rule_of, crate::specs::Memory::names_subscriber))]
pub(crate) fn read_rule(
    alloc: Global,
    version: Version,
    aggregates: &[AggregateDef],
    words: &mut Words<'_>,
) -> Result<Rule, FaultKind>
    ensures value { Gives (λ rule. rule) result (rule_of version aggregates.now words.old) }
    ensures memory { IfErr result (λ kind. is_memory kind ≡ true
        → names_subscriber words.old ≡ true) }
{
    words.keyword(b"for")?;
    let who = words.who(alloc)?;
    words.keyword(b"in")?;
    let domain = words.domain()?;
    words.keyword(b"from")?;
    let from = words.prefix()?;
    words.keyword(b"to")?;
    let to = words.prefix()?;
    let (element, action) = words.action(version, aggregates)?;
    words.end()?;
    Ok(Rule {
        who,
        domain,
        from,
        to,
        element,
        action,
    })
}

/// The aggregate that the words behind `aggregate` define.
#[tactic(auto, unfolding(crate::specs::Lines::aggregate_of))]
pub(crate) fn read_aggregate(
    alloc: Global,
    aggregates: &[AggregateDef],
    words: &mut Words<'_>,
) -> Result<AggregateDef, FaultKind>
    ensures value { Gives (λ a. a) result (aggregate_of aggregates.now words.old) }
    ensures unused { IfOk result (λ _. is_next (is_new_name aggregates.now) words.old ≡ true) }
    ensures memory { IfErr result (λ kind. is_memory kind ≡ true
        → is_next (is_new_name aggregates.now) words.old ≡ true) }
{
    let name = words.new_name(alloc, aggregates)?;
    words.keyword(b"key")?;
    let key = words.key(alloc)?;
    words.keyword(b"interval")?;
    let interval = words.interval()?;
    words.keyword(b"grace")?;
    let grace = words.grace()?;
    words.end()?;
    Ok(AggregateDef::new(name, key, interval, grace))
}
