//! What was kept back from a subscription: of one record, or from one place on.
ghost use Rattle.std.specs.Prelude.{◌≡◌, ◌==◌, length, IfOk};
ghost use Rattle.disclosure_audit.specs.Listed.{list_of};

use crate::reason::Reason;
use std::alloc::{AllocError, Global};
use std::marker::Model;
use std::sync::Arc;

/// A field that was left out of a record that was handed on.
#[derive(Clone, Copy, Debug, PartialEq, Eq)]
pub struct RemovedField {
    /// Its place in the record that was received, from 0.
    pub place: u16,
    /// The number of the rule that removes it, from 1; 0 where no rule matches it.
    pub rule: u32,
}

/// The fields that were left out of one record, by ascending place. Contracts see the list, which records that lose the same
/// fields share.
#[derive(Debug, Drop)]
pub struct RemovedFields {
    listed: Listed,
}

/// How a list is kept.
#[derive(Debug, Drop)]
enum Listed {
    /// No field, as many records lose none.
    None,
    /// One field, as most records lose it that lose any, is copied.
    One([RemovedField; 1]),
    /// Other lists are shared.
    Shared(Arc<Vec<RemovedField>>),
}

impl Model for RemovedFields {
    ghost use Rattle.std.specs.Prelude.{List};
    ghost use Rattle.disclosure_audit.specs.declared.entry.RemovedField.{RemovedField};
    ghost use Rattle.disclosure_audit.specs.Listed.{list_of};

    ghost Value = { List RemovedField };

    ghost view = { λ f. list_of f.listed };
}

/// A clone shares the list.
impl Clone for RemovedFields {
    ghost use Rattle.std.specs.Prelude.{◌≡◌};

    ghost is_clone = { λ f copy. copy ≡ f };

    fn clone(&self) -> Result<RemovedFields, AllocError> {
        let listed = match &self.listed {
            Listed::None => Listed::None,
            Listed::One(one) => Listed::One(*one),
            Listed::Shared(fields) => Listed::Shared(fields.clone()?),
        };
        Ok(RemovedFields { listed })
    }
}

impl RemovedFields {
    /// Takes `fields`, by ascending place, as the fields that were removed. What is shared of them
    /// is in memory from `alloc`.
    ///
    /// # Errors
    /// Want of memory.
    pub fn from_vec(alloc: Global, fields: Vec<RemovedField>) -> Result<RemovedFields, AllocError>
        ensures { IfOk result (λ removed. removed ≡ fields.items) }
    {
        let listed = match fields.as_slice() {
            [] => Listed::None,
            [one] => Listed::One([*one]),
            _ => Listed::Shared(Arc::new(alloc, fields)?),
        };
        Ok(RemovedFields { listed })
    }

    /// The removed fields, by ascending place.
    pub fn as_slice(&self) -> &[RemovedField]
        ensures { result.now ≡ self.now }
    {
        match &self.listed {
            Listed::None => &[],
            Listed::One(one) => one.as_slice(),
            Listed::Shared(fields) => fields.as_slice(),
        }
    }

    /// Whether no field was removed.
    pub fn is_empty(&self) -> bool
        ensures { result ≡ (length self.now == 0) }
    {
        self.as_slice().is_empty()
    }
}

/// What was kept back.
#[derive(Debug, Drop)]
pub enum What {
    /// A whole record, by the rule of this number, or by 0 where no rule matches.
    Withheld { rule: u32, reason: Reason },
    /// A record that is shown only as a part of sums, by the rule of this number.
    Aggregated { rule: u32 },
    /// Fields of a record that was handed on without them.
    Removed { fields: RemovedFields },
    /// All records from here on: the subscription was cut.
    Cut,
}

/// What was kept from one subscription, of one record or from one place on.
#[derive(Debug, Drop)]
pub struct AuditEntry {
    /// The position in the history of the message, or of the cut, from 0.
    pub position: u64,
    /// The record's place in its message, from 0; 0 for a cut.
    pub index: u32,
    /// The number of the subscription.
    pub sub: u64,
    /// What was kept back of it, and by which rule.
    pub what: What,
}

/// A clone shares the list of removed fields.
impl Clone for What {
    ghost use Rattle.std.specs.Prelude.{◌≡◌};

    ghost is_clone = { λ w copy. copy ≡ w };

    fn clone(&self) -> Result<What, AllocError> {
        let what = match self {
            What::Withheld { rule, reason } => What::Withheld {
                rule: *rule,
                reason: *reason,
            },
            What::Aggregated { rule } => What::Aggregated { rule: *rule },
            What::Removed { fields } => What::Removed {
                fields: fields.clone()?,
            },
            What::Cut => What::Cut,
        };
        Ok(what)
    }
}

/// What was kept from one subscription, of one record of a message whose position isn't told yet.
#[derive(Debug, Drop)]
pub struct Note {
    /// The record's place in its message, from 0.
    pub index: u32,
    /// The number of the subscription.
    pub sub: u64,
    /// What was kept back of it, and by which rule.
    pub what: What,
}

/// What was kept from one subscription, of a record that isn't told yet.
#[derive(Debug, Drop)]
pub struct KeptBack {
    /// The number of the subscription.
    pub sub: u64,
    /// What was kept back of it, and by which rule.
    pub what: What,
}

/// A clone shares the list of removed fields.
impl Clone for KeptBack {
    ghost use Rattle.std.specs.Prelude.{◌≡◌};

    ghost is_clone = { λ k copy. copy ≡ k };

    fn clone(&self) -> Result<KeptBack, AllocError> {
        Ok(KeptBack {
            sub: self.sub,
            what: self.what.clone()?,
        })
    }
}
