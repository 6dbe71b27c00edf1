//! When two groups are one, their order, and what hashers are given of one.
ghost use Rattle.std.specs.Prelude.{◌≡◌};
ghost use Rattle.flow_aggregate.specs.GroupOrder.{same_elements, same_definition, definition_cmp};

use crate::definition::Definition;
use crate::group::Group;
use std::cmp::Ordering;
use std::hash::{Hash, Hasher};

impl PartialEq for Group {
    ghost use Rattle.flow_aggregate.specs.GroupOrder.{same_group, same_group-partial};

    ghost eq = { same_group };

    ghost laws = { same_group-partial };

    fn eq(&self, other: &Group) -> bool {
        self.start() == other.start()
            && is_same(self.definition(), other.definition())
            && self.key() == other.key()
    }
}

impl Eq for Group {
    ghost use Rattle.flow_aggregate.specs.GroupOrder.{same_group-whole};

    ghost laws = { same_group-whole };
}

impl PartialOrd for Group {
    ghost use Rattle.std.specs.Prelude.{Some};
    ghost use Rattle.flow_aggregate.specs.GroupOrder.{group_cmp, group_po};

    ghost partial_cmp = { λ g h. Some (group_cmp g h) };

    ghost laws = { group_po };

    fn partial_cmp(&self, other: &Group) -> Option<Ordering> {
        Some(self.cmp(other))
    }
}

impl Ord for Group {
    ghost use Rattle.std.specs.Prelude.{refl};
    ghost use Rattle.flow_aggregate.specs.GroupOrder.{group_cmp, group_total, group_ties};

    ghost cmp = { group_cmp };

    ghost total = { group_total };

    ghost matches_partial_cmp = { λ g h. refl };

    ghost matches_eq = { group_ties };

    fn cmp(&self, other: &Group) -> Ordering {
        match self.start().cmp(&other.start()) {
            Ordering::Less => Ordering::Less,
            Ordering::Greater => Ordering::Greater,
            Ordering::Equal => match compare(self.definition(), other.definition()) {
                Ordering::Less => Ordering::Less,
                Ordering::Greater => Ordering::Greater,
                Ordering::Equal => self.key().cmp(other.key()),
            },
        }
    }
}

impl Hash for Group {
    ghost use Rattle.flow_aggregate.specs.GroupOrder.{hashed_group, same_group-hashed};

    ghost hash_input = { hashed_group };

    ghost respects_eq = { same_group-hashed };

    // Groups of one start and key are few, so that their definitions need not be hashed.
    fn hash<H: Hasher>(&self, state: &mut H) {
        state.write_u64(self.start());
        self.key().hash(state);
    }
}

fn is_same(definition: &Definition, other: &Definition) -> bool
    ensures { result ≡ same_definition definition.now other.now }
{
    definition.interval() == other.interval()
        && definition.grace() == other.grace()
        && definition.name() == other.name()
        && have_same_key(definition, other)
}

fn have_same_key(definition: &Definition, other: &Definition) -> bool
    ensures { result ≡ same_elements definition.now.key other.now.key }
{
    definition.key() == other.key()
}

fn compare(definition: &Definition, other: &Definition) -> Ordering
    ensures { result ≡ definition_cmp definition.now other.now }
{
    definition
        .interval()
        .cmp(&other.interval())
        .then(definition.grace().cmp(&other.grace()))
        .then(definition.name().cmp(other.name()))
        .then(definition.key().cmp(other.key()))
}
