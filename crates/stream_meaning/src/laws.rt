//! Laws over the definitions alone: no code stands behind them.
//!
//! Their premises are what the callers of a stream hold. Each record is one that a `Record` can be: it is
//! sound, and the numbers of its template fit the octets that they are written in (`records_for_proof` tells it
//! of any records that there are). The distinct templates are at most the 65,280 that `StreamLimits` allow.
//! An Export Time is a `u32`, and a target a `u16`.
ghost use Rattle.std.specs.Prelude.{◌≡◌, ◌≤◌, ◌<◌, ◌^◌, ◌++◌, ◌∷◌, [], ℕ, List, length, take, Option, None};
ghost use Rattle.std.specs.List.{AllByRecursion};
ghost use Rattle.sequences.specs.Before.{each_with_before};
ghost use Rattle.ipfix_template.specs.DataRecord.{DataRecord};
ghost use Rattle.subscriber_stream.specs.Parts.{parts, records_of_parts};
ghost use Rattle.subscriber_stream.specs.Message.{built, place_after};
ghost use Rattle.subscriber_stream.specs.declared.limits.StreamLimits.{StreamLimits};
ghost use Rattle.subscriber_stream.specs.declared.limits.TheConstants.{MOST_SHAPES};
ghost use Rattle.subscriber_stream.specs.Standing.{StreamStanding, StandsAt, FitsLimits};
ghost use Rattle.subscriber_stream.specs.Calls.{Call, ServesCalls, pulls_of};
ghost use Rattle.stream_meaning.specs.Served.{IsStreamable, AreStreamable, AreInRange, records_given, messages_in, messages_got, pull_at, place_reached, pulls};
ghost use Rattle.stream_meaning.specs.Means.{Means};
ghost use Rattle.stream_meaning.specs.HandedOut.{AreHandedOut};

/// The messages that calls get from a new stream, taken as all of a session, bring exactly the records
/// that were handed out, each with its template and values, in order and in domain 0: those before the
/// place that the pulls reached. Each message is read, its Sequence Number counts the records before it
/// modulo 2^32, nothing is skipped, and there is no gap (RFC 7011, sections 3.1 and 8). For one list the
/// calls are `Given` of the list, and then pulls.
///
/// Where the next pull has nothing to give, they bring all records that were given (`whole`); and so they
/// do after as many further pulls as the records have parts, whatever the targets (`drained`).
pub fn messages_mean_the_list()
    ensures so_far { (calls : List Call) → AreStreamable (records_given calls) → AreInRange calls
        → Means (messages_got calls)
        (records_of_parts (take (place_reached calls) (parts (records_given calls)))) }
    ensures whole { (calls : List Call) (now target : ℕ) → AreStreamable (records_given calls)
        → AreInRange calls → built (records_given calls) (place_reached calls) now target ≡ None
        → Means (messages_got calls) (records_given calls) }
    ensures drained { (calls : List Call) (turns : List (ℕ × ℕ))
        → AreStreamable (records_given calls) → AreInRange (calls ++ pulls turns)
        → length (parts (records_given calls)) ≤ length turns
        → Means (messages_got (calls ++ pulls turns)) (records_given calls) }
{}

/// The pulls among calls are those that `messages_got` and `place_reached` go by: each with all
/// records that were given before it.
pub fn pulls_see_what_was_given()
    ensures { (calls : List Call) → pulls_of [] calls ≡ each_with_before pull_at calls }
{}

/// Where a stream stands at a place of the parts of a list, the records before that place are the first of
/// the list, as many as `Stream::handed` counts.
pub fn the_first_are_handed_out()
    ensures { (s : StreamStanding) (records : List DataRecord) (p : ℕ) → StandsAt s records p
        → records_of_parts (take p (parts records)) ≡ take s.handed records }
{}

/// What a stream answers means the list too, where it takes these calls one after another by the
/// contracts of `Stream::push_reserved` and `Stream::pull`: its messages bring exactly the records
/// that were handed out.
pub fn answers_mean_the_list()
    ensures { (s : StreamStanding) (calls : List Call) (answers : List (Option (List ℕ)))
        → StandsAt s [] 0 → ServesCalls s calls answers
        → AreStreamable (records_given calls) → AreInRange calls
        → Means (messages_in answers)
        (records_of_parts (take (place_reached calls) (parts (records_given calls)))) }
{}

/// What a holder of a stream keeps beside it, call by call: that the messages are all that were handed out
/// of a list of records up to a place, which is where the stream stands, and that the list may be streamed.
///
/// Where records are given, the first follows at once, and the second from the room that `Stream::room`
/// found for them and from `records_for_proof`. Where a message is pulled, the answer and the place are those of
/// the contract of `Stream::pull`. It follows what the messages mean so far, and at the end.
pub fn holders_keep()
    ensures start { AreHandedOut [] [] 0 }
    ensures streamable { AreStreamable [] }
    // What is given, or pulled, leaves both true.
    ensures given { (messages : List (List ℕ)) (records more : List DataRecord) (p : ℕ)
        → AreHandedOut messages records p → AreHandedOut messages (records ++ more) p }
    ensures streamable_more { (limits : StreamLimits) (records more : List DataRecord) (p : ℕ)
        → AreStreamable records → AllByRecursion IsStreamable more
        → FitsLimits limits records p more → limits.shapes ≤ MOST_SHAPES
        → AreStreamable (records ++ more) }
    ensures pulled { (messages : List (List ℕ)) (answer : Option (List ℕ))
        (records : List DataRecord) (p now target : ℕ) → now < 2 ^ 32 → target < 2 ^ 16
        → AreHandedOut messages records p → answer ≡ built records p now target
        → AreHandedOut (messages ++ messages_in (answer ∷ []))
        records (place_after records p target) }
    // So it is known what the messages mean.
    ensures so_far { (messages : List (List ℕ)) (records : List DataRecord) (p : ℕ)
        → AreHandedOut messages records p → AreStreamable records
        → Means messages (records_of_parts (take p (parts records))) }
    ensures whole { (messages : List (List ℕ)) (records : List DataRecord) (p now target : ℕ)
        → AreHandedOut messages records p → AreStreamable records
        → built records p now target ≡ None → Means messages records }
{}
