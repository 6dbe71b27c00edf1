//! That of a rule's marks that fewest rules have.
ghost use Rattle.std.specs.Prelude.{◌≡◌, ◌⊎◌, [], MatchOption};
ghost use Rattle.std.specs.List.{Contains};
ghost use Rattle.rule_table.specs.Marks.{present, marks_of, either};

use crate::marks::{condition_marks, who_mark};
use policy_text::Rule;
use std::alloc::{AllocError, Global};

/// The marks of the conditions of all rules, ascending: each as often as there are rules with it.
pub(crate) fn all_marks(alloc: Global, rules: &[Rule]) -> Result<Vec<u64>, AllocError> {
    let mut all = Vec::new(alloc);
    for rule in rules {
        put_present(&condition_marks(rule), &mut all)?;
    }
    all.sort_unstable();
    Ok(all)
}

/// Adds those of these marks that are present.
fn put_present(marks: &[Option<u64>], all: &mut Vec<u64>) -> Result<(), AllocError> {
    for mark in marks {
        if let Some(mark) = mark {
            all.push(*mark)?;
        }
    }
    Ok(())
}

/// The mark under which a rule stands: of the marks of its conditions that which fewest rules have, and where it has no
/// condition, that of its subscriber alone. All marks are to ascend: else it is another of the rule's marks.
pub(crate) fn rarest_mark(rule: &Rule, all: &[u64]) -> u64
    ensures { Contains (marks_of rule.now) result }
{
    match rarest(&condition_marks(rule), all) {
        Some(mark) => mark,
        None => who_mark(&rule.who),
    }
}

/// Of these marks the one that fewest rules have; of several such marks the first.
fn rarest(marks: &[Option<u64>], all: &[u64]) -> Option<u64>
    ensures { MatchOption result
        (present marks.now ≡ []) (λ mark. Contains (present marks.now) mark) }
{
    let mut best = None;
    for mark in marks {
        best = rarer(best, *mark, all);
    }
    best
}

/// Of two marks that which fewer rules have, and the first where as many have either.
fn rarer(one: Option<u64>, other: Option<u64>, all: &[u64]) -> Option<u64>
    ensures { (result ≡ either one other) ⊎ (result ≡ either other one) }
{
    match (one, other) {
        (Some(first), Some(second)) => {
            if count_of(second, all) < count_of(first, all) {
                other
            } else {
                one
            }
        }
        (Some(_), None) => one,
        (None, _) => other,
    }
}

/// How many of these ascending marks are this one.
fn count_of(mark: u64, all: &[u64]) -> usize {
    let below = all.partition_point(|other| *other < mark);
    all.partition_point(|other| *other <= mark)
        .saturating_sub(below)
}
