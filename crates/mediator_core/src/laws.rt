//! What never matters to what is disclosed to a subscription, and that what is full is told: laws over the definitions
//! that [`run`](crate::run) and the calls cite. Their functions do nothing; their clauses are what is proved.
ghost use Rattle.mediator_core.specs.Answered.{FullAuditRefusesMessage, FullAuditRefusesAdvance};
ghost use Rattle.mediator_core.specs.Secrecy.{RulesOfOthersNeverMatter, EntriesOfOthersNeverMatter, DeniedValuesNeverMatter};

/// Rules that name another subscriber never matter: where they are left out of any edits, the same is disclosed to a
/// subscription. The definitions of aggregates stay, since rules name them by their places.
pub fn rules_of_others_never_matter()
    ensures { RulesOfOthersNeverMatter }
{}

/// Entries of other subscriptions never matter: where they are left out of a history, the same is disclosed to a
/// subscription.
pub fn entries_of_others_never_matter()
    ensures { EntriesOfOthersNeverMatter }
{}

/// What is denied never matters. Let a value that the first matching rule removes be exchanged for another of its
/// length; one that the rule truncates, for one with other bits where it is cut off; or a time that it degrades, for
/// another within the same step, inside the same prefixes of the rules: the same is disclosed. This is said of records
/// whose first matching rule names no aggregate: what an aggregate shows, its definition says.
pub fn denied_values_never_matter()
    ensures { DeniedValuesNeverMatter }
{}

/// What is full is told: a message, or an advance of the clock, for which the audit has no room is not accepted.
pub fn full_is_told()
    ensures message { FullAuditRefusesMessage }
    ensures advance { FullAuditRefusesAdvance }
{}
