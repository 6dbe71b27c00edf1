//! Laws over the definitions that the verdicts cite: no code stands behind them.
ghost use Rattle.policy_judge.specs.Laws.{NeverMatches, DecidesAlone, ActsAlone, LaterNeverMatters};

/// A rule that names another subscriber never matters: it matches nothing, and without such rules the
/// same rule decides, and does the same. (Its number may be another.)
pub fn others_never_matter()
    ensures matches { NeverMatches }
    ensures decides { DecidesAlone }
    ensures acts { ActsAlone }
{}

/// Rules after the first one that matches never matter.
pub fn later_rules_never_matter()
    ensures { LaterNeverMatters }
{}
