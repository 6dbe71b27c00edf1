//! What a rule of a policy says. It is plain data.
use crate::name::Name;
use flow_prefix::Prefix;
use ipfix_element::ElementId;

/// What a rule does with the records or fields that it matches.
#[derive(Clone, Copy, Debug, PartialEq, Eq)]
pub enum Action {
    /// Hand the record on.
    Pass,
    /// Hand nothing of the record on.
    Withhold,
    /// Count the record in the aggregate at this place of the policy's list.
    Aggregate(usize),
    /// Keep the field.
    Keep,
    /// Leave the field out.
    Remove,
    /// Keep this many of the value's most significant bits.
    Truncate(usize),
    /// Lower the time to a multiple of this many seconds, 1 to 86400.
    Degrade(u32),
}

/// One rule. `None` is `*`, no condition.
#[derive(Debug, Drop)]
pub struct Rule {
    /// The subscriber's name, or any subscriber.
    pub who: Option<Name>,
    /// The Observation Domain ID, or any domain.
    pub domain: Option<u32>,
    /// The prefix in which the source addresses are, or anywhere.
    pub from: Option<Prefix>,
    /// The prefix in which the destination addresses are, or anywhere.
    pub to: Option<Prefix>,
    /// The element of the fields; `None` for any element, and in rules on records.
    pub element: Option<ElementId>,
    /// What is done with the records or fields that match.
    pub action: Action,
}
