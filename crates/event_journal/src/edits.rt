//! The text of the last edit among entries, with whose policy a next run may begin.
ghost use Rattle.std.specs.Prelude.{◌≡◌};
ghost use Rattle.std.specs.Option.{option_copied};
ghost use Rattle.event_journal.specs.LastEdit.{edit_text, last_edit};

use crate::entry::Entry;

/// The text of the last edit among `entries`, or `None` where none of them is an edit. It goes from the last entry to
/// the first, and ends at an edit.
pub(crate) fn text_of_last(entries: &[Entry]) -> Option<&str>
    ensures { option_copied result ≡ last_edit entries.now }
{
    let mut left = entries.len();
    'entries: while left > 0 {
        if let Some(text) = text_of(&entries[left - 1]) {
            return Some(text);
        }
        left -= 1;
    }
    None
}

/// The text of `entry` where that is an edit, or `None`.
fn text_of(entry: &Entry) -> Option<&str>
    ensures { option_copied result ≡ edit_text entry.now }
{
    match entry {
        Entry::Edit { text } => Some(text.as_str()),
        Entry::Open { .. }
        | Entry::Close { .. }
        | Entry::Message { .. }
        | Entry::Subscribe { .. }
        | Entry::Unsubscribe { .. }
        | Entry::Advance { .. }
        | Entry::Cut { .. } => None,
    }
}
