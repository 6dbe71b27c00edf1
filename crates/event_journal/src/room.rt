//! Whether entries fit: into the octets that are left, and into the numbers of a journal file.
ghost use Rattle.std.specs.Prelude.{◌↔◌, ◌≤◌, IsTrue, All};
ghost use Rattle.event_journal.specs.Sizes.{history_octets};
ghost use Rattle.event_journal.specs.Spelled.{IsSpelled};

use crate::entry::Entry;

/// Whether `entries` take no more than `most` octets in a journal's file. It stops at the first entry that doesn't fit,
/// so no sum overflows.
pub(crate) fn octets_fit(entries: &[Entry], most: u64) -> bool
    ensures { IsTrue result ↔ (history_octets entries.now ≤ most) }
{
    let mut left = most;
    for entry in entries {
        let octets = entry.octets();
        if octets > left {
            return false;
        }
        left -= octets;
    }
    true
}

/// Whether a journal file can spell each of `entries`.
pub(crate) fn are_spelled(entries: &[Entry]) -> bool
    ensures { IsTrue result ↔ All IsSpelled entries.now }
{
    entries.iter().all(|entry| entry.is_spelled())
}
