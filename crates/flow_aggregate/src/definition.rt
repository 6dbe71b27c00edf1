//! An aggregate's definition, as groups keep it.
ghost use Rattle.std.specs.Prelude.{◌≡◌, ◌≤◌, true, length, IfOk};
ghost use Rattle.std.specs.List.{AllByRecursion};
ghost use Rattle.ipfix_element.specs.Kinds.{kind_of};
ghost use Rattle.policy_text.specs.Classes.{is_key_kind};
ghost use Rattle.std.specs.Arc.{arc_value};
ghost use Rattle.flow_aggregate.specs.Groups.{IsSummed};
ghost use Rattle.flow_aggregate.specs.Closed.{closed_template};

use crate::closed_template::template_for;
use ipfix_element::ElementId;
use ipfix_template::Template;
use policy_text::AggregateDef;
use std::alloc::{AllocError, Global};
use std::marker::Model;
use std::sync::Arc;

/// An aggregate's definition, made ready for records to be counted in it: its groups share it. Two are one where name,
/// key, interval and grace are equal, whatever edit brought them.
pub struct Definition {
    parts: Arc<Parts>,
}

/// What all holds of a definition share.
#[derive(Drop)]
struct Parts {
    interval: u32,
    grace: u32,
    name: Vec<u8>,
    key: Vec<ElementId>,
    // That of the records of its closed groups.
    closed: Arc<Template>,
}

impl Drop for Definition {
    // Written out: a derived one is proved anew in each crate that drops such a value.
    fn drop(self) {
        let Definition { parts: _ } = self;
    }
}

impl Model for Definition {
    ghost use Rattle.std.specs.Arc.{arc_value};
    ghost use Rattle.policy_text.specs.Policies.{Aggregate};
    ghost use Rattle.flow_aggregate.specs.Groups.{IsSummed};
    ghost use Rattle.flow_aggregate.specs.Closed.{HasTemplate};

    ghost Value = { Aggregate };

    ghost view = { λ d. record { name = (arc_value d.parts).name.items; key = (arc_value d.parts).key.items; interval = (arc_value d.parts).interval; grace = (arc_value d.parts).grace } };

    ghost invariant = { λ d. IsSummed (record {
      name = (arc_value d.parts).name.items;
      key = (arc_value d.parts).key.items;
      interval = (arc_value d.parts).interval;
      grace = (arc_value d.parts).grace;
    }) × HasTemplate (arc_value d.parts).key.items (arc_value (arc_value d.parts).closed) };
}

impl Definition {
    /// A copy of `definition` for records to be counted in, in memory from `alloc`. The elements of
    /// its key are of kinds that a key may have, as those of a policy's aggregates are.
    ///
    /// # Errors
    /// Want of memory.
    pub fn of(alloc: Global, definition: &AggregateDef) -> Result<Definition, AllocError>
        requires { AllByRecursion (λ e. is_key_kind (kind_of e) ≡ true) definition.now.key }
        ensures { IfOk result (λ d. d ≡ definition.now) }
    {
        let key = copy_of(alloc, definition.key())?;
        let closed = template_for(alloc, definition.key())?;
        let parts = Parts {
            interval: definition.interval(),
            grace: definition.grace(),
            name: Vec::from_slice(alloc, definition.name().as_bytes())?,
            key,
            closed,
        };
        Ok(Definition {
            parts: Arc::new(alloc, parts)?,
        })
    }

    /// Another hold of it.
    ///
    /// # Errors
    /// Want of memory for the count of its holds.
    pub fn share(&self) -> Result<Definition, AllocError>
        ensures { IfOk result (λ d. d ≡ self.now) }
    {
        Ok(Definition {
            parts: self.parts.clone()?,
        })
    }

    /// Another hold of the template of its closed groups' records.
    ///
    /// # Errors
    /// Want of memory for the count of its holds.
    #[tactic(auto, unfolding(crate::specs::Closed::closed_template))]
    pub(crate) fn closed_template(&self) -> Result<Arc<Template>, AllocError>
        ensures { IfOk result (λ t. arc_value t ≡ closed_template self.now) }
    {
        Ok(self.parts.closed.clone()?)
    }

    /// The octets of its name.
    pub(crate) fn name(&self) -> &[u8]
        ensures { result.now ≡ self.now.name }
    {
        self.parts.name.as_slice()
    }

    /// The elements of its key.
    pub(crate) fn key(&self) -> &[ElementId]
        ensures value { result.now ≡ self.now.key }
        ensures sound { IsSummed self.now }
    {
        self.parts.key.as_slice()
    }

    /// The length of an interval, in seconds.
    pub(crate) fn interval(&self) -> u32
        ensures value { result ≡ self.now.interval }
        ensures some { 1 ≤ result }
        ensures few { result ≤ 86400 }
    {
        self.parts.interval
    }

    /// How long an interval stays open behind its end, in seconds.
    pub(crate) fn grace(&self) -> u32
        ensures value { result ≡ self.now.grace }
        ensures few { result ≤ 86400 }
    {
        self.parts.grace
    }
}

fn copy_of(alloc: Global, key: &[ElementId]) -> Result<Vec<ElementId>, AllocError>
    ensures { IfOk result (λ copy. copy.items ≡ key.now) }
{
    key.iter().copied().collect(alloc)
}
