//! Laws over the definitions that `disclose` cites: no code stands behind them.
ghost use Rattle.flow_anonymize.specs.Permitted.{OnlyPermittedPasses, PassedIsSound};
ghost use Rattle.flow_anonymize.specs.Secrecy.{DeniedIsSecret};
ghost use Rattle.flow_anonymize.specs.OtherRules.{OthersNeverMatter, LaterNeverMatter};
ghost use Rattle.flow_anonymize.specs.Reasons.{ReasonsAreOfRules};
ghost use Rattle.flow_anonymize.specs.Times.{TimesAreDegraded};

/// What passes is what the rules permit: at no place stands a field that its first matching rule removes, or
/// that no rule matches, no bit is set that its rule cuts off, and each time that its rule degrades is a multiple
/// of the rule's seconds. All other fields of the record are there, in their order, and each that is not is named
/// with the first rule that removes it.
pub fn only_permitted_passes()
    ensures { OnlyPermittedPasses }
{}

/// What passes of a sound record is a sound record: its template may be announced, and its values fit it.
pub fn passed_is_sound()
    ensures { PassedIsSound }
{}

/// What is denied is secret: two records that differ only in values that are removed, in bits that are cut off and
/// within one step of times that are degraded, and whose addresses are inside the same prefixes of the rules, look
/// alike in all that is disclosed.
pub fn denied_is_secret()
    ensures { DeniedIsSecret }
{}

/// A rule that names another subscriber never matters: without such rules the same is disclosed. (The numbers
/// of the rules may be others.)
pub fn others_never_matter()
    ensures { OthersNeverMatter }
{}

/// Rules behind those that decide on a record and on its fields never matter.
pub fn later_rules_never_matter()
    ensures { LaterNeverMatter }
{}

/// A record is withheld for a reason of rules: because a rule withholds it or none matches, a scope field is lost, or
/// nothing is left. For the reasons of aggregates, as that it is late, the rules alone withhold none.
pub fn reasons_are_of_rules()
    ensures { ReasonsAreOfRules }
{}

/// What is shown of a time that is degraded, by the kind of its element (RFC 6235, section 4.3.1).
/// Of a time v in seconds, to w seconds, it is floor(v / w) * w. Of a time v in milliseconds it is
/// floor(v / (1000 * w)) * 1000 * w. It has as many octets as came in.
pub fn times_are_degraded()
    ensures { TimesAreDegraded }
{}
