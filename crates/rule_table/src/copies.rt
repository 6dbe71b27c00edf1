//! A table's own copies of a policy's rules.
ghost use Rattle.std.specs.Prelude.{◌≡◌, IfOk};

use policy_text::{Name, Rule};
use std::alloc::{AllocError, Global};

/// Copies of the rules, in their order, in new memory.
pub(crate) fn copied(alloc: Global, rules: &[Rule]) -> Result<Vec<Rule>, AllocError>
    ensures { IfOk result (λ copies. copies.items ≡ rules.now) }
{
    let mut copies = Vec::new(alloc);
    for rule in rules {
        copies.push(copied_rule(alloc, rule)?)?;
    }
    Ok(copies)
}

fn copied_rule(alloc: Global, rule: &Rule) -> Result<Rule, AllocError>
    ensures { IfOk result (λ copy. copy ≡ rule.now) }
{
    let who = copied_name(alloc, &rule.who)?;
    Ok(Rule {
        who,
        domain: rule.domain,
        from: rule.from,
        to: rule.to,
        element: rule.element,
        action: rule.action,
    })
}

fn copied_name(alloc: Global, who: &Option<Name>) -> Result<Option<Name>, AllocError>
    ensures { IfOk result (λ copy. copy ≡ who.now) }
{
    match who {
        Some(name) => Ok(Some(Name::new(alloc, name.as_bytes())?)),
        None => Ok(None),
    }
}
