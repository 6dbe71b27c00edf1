//! Verdicts on records and on fields.
/// What is done with a record.
#[derive(Clone, Copy, Debug, PartialEq, Eq)]
pub enum RecordAction {
    /// Hand the record on.
    Pass,
    /// Hand nothing of the record on.
    Withhold,
    /// Count the record in the aggregate at this place of the policy's list.
    Aggregate(usize),
}

/// What is done with a field.
#[derive(Clone, Copy, Debug, PartialEq, Eq)]
pub enum ElementAction {
    /// Keep the field.
    Keep,
    /// Keep this many of the value's most significant bits.
    Truncate(usize),
    /// Lower the time to a multiple of this many seconds.
    Degrade(u32),
    /// Leave the field out.
    Remove,
}

/// The verdict on a record: the number of the rule that decides, from 1, and what it does. Where no rule
/// matches it is rule 0, which withholds.
#[derive(Clone, Copy, Debug, PartialEq, Eq)]
pub struct RecordVerdict {
    /// The number of the rule that decides, or 0.
    pub rule: u32,
    /// What is done with the record.
    pub action: RecordAction,
}

/// The verdict on a field: the number of the rule that decides, from 1, and what it does. Where no rule
/// matches it is rule 0, which removes.
#[derive(Clone, Copy, Debug, PartialEq, Eq)]
pub struct ElementVerdict {
    /// The number of the rule that decides, or 0.
    pub rule: u32,
    /// What is done with the field.
    pub action: ElementAction,
}
