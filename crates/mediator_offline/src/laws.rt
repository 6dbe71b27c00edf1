//! Laws over the definitions that the contract of `offline` cites: no code stands behind them.
ghost use Rattle.std.specs.Prelude.{◌≡◌, ℕ, List, []};
ghost use Rattle.mediator_offline.specs.declared.job.OfflineJob.{OfflineJob};
ghost use Rattle.mediator_offline.specs.Offline.{history_of, due};
ghost use Rattle.mediator_offline.specs.Due.{IsWrittenFor};
ghost use Rattle.mediator_offline.specs.Accepting.{AreAccepted};
ghost use Rattle.mediator_offline.specs.PlainHistory.{plain_history};

/// What is due for messages that are read one after another can be built: after each of them, messages one after another, each
/// the one that is built for the place where the one before ended, from the first place on, to the end of all records that are
/// disclosed by then. No other messages are built in this way.
pub fn due_is_built()
    ensures found { (job : OfflineJob) (messages : List (List ℕ))
        → IsWrittenFor job [] 0 messages (due job messages) }
    ensures only { (job : OfflineJob) (messages written : List (List ℕ))
        → IsWrittenFor job [] 0 messages written → written ≡ due job messages }
{}

/// Where each of the messages is accepted after those before it and cuts nobody, the history of a run is the policy, the
/// subscription and the session, and then these messages in their order, each with the number of those before it.
pub fn accepted_messages_are_the_history()
    ensures { (job : OfflineJob) (messages : List (List ℕ)) → AreAccepted job [] messages
        → history_of job messages ≡ plain_history job messages }
{}

ghost use Rattle.std.specs.List.{AllByRecursion};
ghost use Rattle.sequences.specs.Before.{HasNone};
ghost use Rattle.mediator_history.specs.Counting.{clock_in};
ghost use Rattle.mediator_history.specs.Auditing.{audit_list};
ghost use Rattle.mediator_offline.specs.Offline.{disclosed_by};
ghost use Rattle.mediator_offline.specs.Unclosed.{passing_by, IsNotLate};

/// A run makes no advance of the clock, so no group of an aggregate closes: what is disclosed are the records that pass and no
/// others, and the audit says of none that it is late.
pub fn nothing_closes()
    ensures clock { (job : OfflineJob) (messages : List (List ℕ))
        → HasNone clock_in (history_of job messages) }
    ensures passing { (job : OfflineJob) (messages : List (List ℕ))
        → disclosed_by job messages ≡ passing_by job messages }
    ensures early { (job : OfflineJob) (messages : List (List ℕ))
        → AllByRecursion IsNotLate (audit_list (history_of job messages)) }
{}
