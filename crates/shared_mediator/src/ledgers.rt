//! The two ledgers: a thread's share of each says what its own calls added.
ghost use Rattle.std.specs.Prelude.{ℕ, List, []};
ghost use Rattle.event_journal.specs.declared.entry.Entry.{Entry};

use std::marker::Brand;
use std::sync::ledger::Ledger;

/// A ledger of the entries that calls added to the journal, each of which has a receipt: messages, edits, the begin and the
/// end of subscriptions, and advances of the clock.
pub trait EntryLedger: Ledger {
    // How many parts it has.
    ghost all: { ℕ };

    // The journal's entries before the first of them.
    ghost before: { List Entry };
}

/// A ledger of the records that were handed out to subscriptions.
pub trait RecordLedger: Ledger {
    // How many parts it has.
    ghost all: { ℕ };
}

impl EntryLedger for Brand {
    ghost all = { 0 };

    ghost before = { [] };
}

impl RecordLedger for Brand {
    ghost all = { 0 };
}
