//! The law that limits are read as a mediator takes them.
ghost use Rattle.ipmd_settings.specs.Laws.{AllowedLimitsAreRead};

/// A table in which the five limits stand has no fault at their keys, where a mediator takes them, and they are what is read:
/// the ranges here are no narrower than a mediator's.
pub fn allowed_limits_are_read()
    ensures { AllowedLimitsAreRead }
{}
