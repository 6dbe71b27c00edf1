//! What becomes of a record under a policy.

use disclosure_audit::{Reason, RemovedFields};

/// What becomes of a record under a policy, for a subscriber. A `Disclosure<Record>` has what is handed on of it, and
/// a `Disclosure<()>` says only what was decided.
#[derive(Debug, Drop)]
pub enum Disclosure<Kept> {
    /// It passes: this is kept of it, without the fields that were removed, in the order of their places.
    Passed { kept: Kept, removed: RemovedFields },
    /// It counts in the aggregate at this place of the policy's list, by the rule of this number.
    Aggregated { rule: u32, definition: usize },
    /// Nothing of it is handed on, by the rule of this number; it is 0 where no rule matches. The reason is one of
    /// rules alone: `Rule`, `ScopeLost` or `Empty`.
    Withheld { rule: u32, reason: Reason },
}
