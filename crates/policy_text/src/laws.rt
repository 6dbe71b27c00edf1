//! Laws over the definitions that the calls of this crate cite: no code stands behind them.
ghost use Rattle.policy_text.specs.Printing.{PoliciesReadBack};
ghost use Rattle.policy_text.specs.Spelling.{OnePolicy};
ghost use Rattle.policy_text.specs.FirstFault.{FirstFault, PolicyOrFault};

/// The printed text of a policy is read as that policy.
pub fn print_then_parse()
    ensures { PoliciesReadBack }
{}

/// No text spells two policies.
pub fn one_policy()
    ensures { OnePolicy }
{}

/// The fault of a text is its first: the lines before it spell a policy so far; in its line the words
/// before it begin a line that may stand there, and with the faulty word no continuation does. (Where no
/// aggregate is defined, a rule as far as its `aggregate` counts as begun, so that the fault is the
/// name's.) The kind is said by what the grammar has at that place.
pub fn first_fault()
    // What reading answers is the first fault, and no other is.
    ensures answered { FirstFault }
    // A text spells a policy, or it has exactly one first fault.
    ensures one { PolicyOrFault }
{}
