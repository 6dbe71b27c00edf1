//! Laws over the definitions that the calls of this crate cite: no code stands behind them.
ghost use Rattle.std.specs.Prelude.{◌≡◌, ◌++◌, ◌≤◌, ◌+◌, ◌<◌, ◌^◌, ℕ, List, [], length, Option, Some, take};
ghost use Rattle.ipfix_template.specs.declared.template.Template.{Template};
ghost use Rattle.ipfix_template.specs.Equality.{same_template};
ghost use Rattle.ipfix_template.specs.DataRecord.{DataRecord};
ghost use Rattle.subscriber_stream.specs.Shapes.{shapes_of, shapes_after};
ghost use Rattle.subscriber_stream.specs.Parts.{Part, parts, records_of_parts};
ghost use Rattle.subscriber_stream.specs.Message.{Set, sets_of, message, run_length};
ghost use Rattle.subscriber_stream.specs.LongestSets.{AreLongestSets};
ghost use Rattle.subscriber_stream.specs.Standing.{StreamStanding, StandsAt};
ghost use Rattle.subscriber_stream.specs.Calls.{Call, ServesCalls, pulls_of, octets_from};
ghost use Rattle.std.specs.Prelude.{true, ◌↔◌};

/// The octets that a stream gives are a function of the records that it was given and of the pulls: the
/// messages built one after another, whatever else differs between two streams.
pub fn octets_of_pulls()
    ensures { (s : StreamStanding) (records : List DataRecord) (p : ℕ)
        (calls : List Call) (answers : List (Option (List ℕ)))
        → StandsAt s records p → ServesCalls s calls answers
        → answers ≡ octets_from p (pulls_of records calls) }
{}

/// The records among the parts of a list are the list.
pub fn parts_bring_the_list()
    ensures { (records : List DataRecord) → records_of_parts (parts records) ≡ records }
{}

/// The parts of a list begin the parts of each longer one.
pub fn parts_go_on()
    ensures { (records more : List DataRecord)
        → (others : List Part) × (parts (records ++ more) ≡ parts records ++ others) }
{}

/// Two templates are one shape exactly where they are equal.
pub fn one_shape()
    ensures { (s t : Template) → (same_template s t ≡ true) ↔ (s ≡ t) }
{}

/// The shapes of a longer list are those of its front, and then those of the rest that are not among them.
pub fn shapes_go_on()
    ensures { (records more : List DataRecord)
        → shapes_of (records ++ more) ≡ shapes_after (shapes_of records) more }
{}

/// The sets of parts hold these parts in their order, each Data Set brings a record, and none
/// stands right before another of its ID, so that none could be longer. No other sets are so.
pub fn sets_are_longest()
    ensures { (ps : List Part) (sets : List Set) → (sets ≡ sets_of ps) ↔ AreLongestSets ps sets }
{}

/// A run that has more than one part is at most the target long, and the next longer run is not.
pub fn longest_run()
    ensures within { (target now sequence : ℕ) (ps : List Part) → 1 < run_length target ps
        → length (message now sequence (take (run_length target ps) ps)) ≤ target }
    ensures longest { (target now sequence n : ℕ) (ps : List Part) → run_length target ps < n
        → n ≤ length ps → target < length (message now sequence (take n ps)) }
{}
