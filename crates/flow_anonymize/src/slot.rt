//! A plan that is kept.
ghost use Rattle.std.specs.Prelude.{◌≡◌};
ghost use Rattle.flow_anonymize.specs.Plans.{has_classes};

use crate::plan::Plan;
use crate::record_classes::RecordClasses;

/// The plan for the records whose addresses have these classes.
#[derive(Drop)]
pub(crate) struct Slot {
    /// The classes of the addresses of these records.
    pub classes: RecordClasses,
    /// What becomes of them.
    pub plan: Plan,
}

/// Whether a plan is for records whose addresses have these classes.
pub(crate) fn is_for(slot: &Slot, classes: RecordClasses) -> bool
    ensures { result ≡ has_classes classes slot.now }
{
    slot.classes.sources == classes.sources && slot.classes.destinations == classes.destinations
}
