//! Aggregates as a policy defines them, with the ranges of their numbers.
ghost use Rattle.std.specs.Prelude.{◌≡◌, length, vec_len};
ghost use Rattle.policy_text.specs.Policies.{Aggregate, IsRanged};

use crate::name::Name;
use ipfix_element::ElementId;
use std::marker::Model;

/// An aggregate that rules may name: records that agree in the key's elements and start in one interval
/// are counted together. The key has 1 to 16 elements, the interval is 1 to 86400 seconds, and the grace
/// 0 to 86400.
#[derive(Debug, Drop)]
pub struct AggregateDef {
    name: Name,
    key: Vec<ElementId>,
    interval: u32,
    grace: u32,
}

impl Model for AggregateDef {
    ghost use Rattle.std.specs.Prelude.{length};
    ghost use Rattle.policy_text.specs.Policies.{Aggregate, IsRanged};

    ghost Value = { Aggregate };

    ghost view = { λ a. record { name = a.name; key = a.key.items; interval = a.interval; grace = a.grace } };

    ghost invariant = { λ a. IsRanged (length a.key.items) a.interval a.grace };
}

impl AggregateDef {
    /// The aggregate of this name, key, interval and grace, which are in their ranges.
    pub(crate) fn new(name: Name, key: Vec<ElementId>, interval: u32, grace: u32) -> AggregateDef
        requires { IsRanged (length key.items) interval grace }
        ensures { result
            ≡ record { name = name; key = key.items; interval = interval; grace = grace } }
    {
        AggregateDef {
            name,
            key,
            interval,
            grace,
        }
    }

    /// The name by which rules call it.
    pub fn name(&self) -> &Name
        ensures { result.now ≡ self.now.name }
    {
        &self.name
    }

    /// The elements in whose values counted records agree, 1 to 16 of them, in the order of the
    /// text.
    pub fn key(&self) -> &[ElementId]
        ensures value { result.now ≡ self.now.key }
        ensures sound { IsRanged (length self.now.key) self.now.interval self.now.grace }
    {
        self.key.as_slice()
    }

    /// The length of an interval, in seconds: 1 to 86400.
    pub fn interval(&self) -> u32
        ensures { result ≡ self.now.interval }
    {
        self.interval
    }

    /// How long an interval stays open behind its end, in seconds: 0 to 86400.
    pub fn grace(&self) -> u32
        ensures { result ≡ self.now.grace }
    {
        self.grace
    }
}
