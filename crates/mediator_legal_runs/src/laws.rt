//! That the histories of runs are legal, and what a verifier answers of them: laws over the definitions that
//! [`run`](mediator_core::run) and [`verify`](history_verify::verify) cite. Their functions do nothing; their clauses
//! are what is proved.
ghost use Rattle.mediator_legal_runs.specs.Legality.{RunsAreLegal, JournalsAreLegal, LegalIsNeverBad, RunsAreNeverBad};

/// The history of a mediator is legal after any calls, and so are the entries of the journal that stays of it: each
/// stands where a mediator may have accepted it, each cut is borne out by what follows it, and the last entry is no
/// cut.
pub fn runs_are_legal()
    ensures runs { RunsAreLegal }
    ensures journals { JournalsAreLegal }
{}

/// No entry of a legal history is the first bad one. So who verifies the history of a run may run out of memory, and is
/// told of nothing else.
pub fn legal_is_never_bad()
    ensures any { LegalIsNeverBad }
    ensures runs { RunsAreNeverBad }
{}
