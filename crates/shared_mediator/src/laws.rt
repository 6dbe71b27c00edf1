//! That a full count is told: a law over the definitions that calls cite. No code stands behind it.
ghost use Rattle.shared_mediator.specs.Answered.{FullCountRefusesPull};

/// What is full is told: a pull for which the count has no room isn't accepted.
pub fn full_count_is_told()
    ensures { FullCountRefusesPull }
{}
