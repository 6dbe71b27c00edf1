//! Writing a journal file in memory.
ghost use Rattle.std.specs.Prelude.{◌≡◌, ◌++◌, length, OnOk, IfOk};
ghost use Rattle.event_journal.specs.Spelled.{IsSpelled};
ghost use Rattle.journal_files.specs.Format.{head_octets, octets_of, file_octets};

use crate::format::{
    ADVANCE, CLOSE, CUT, EDIT, MAGIC, MESSAGE, OPEN, SUBSCRIBE, UNSUBSCRIBE, VERSION,
};
use event_journal::{Entry, Journal};
use std::alloc::{AllocError, Global};

/// The file of `journal`, whole, in memory from `alloc`: its head, and then its entries in their order.
///
/// # Errors
/// Want of memory for the file.
pub fn encode(alloc: Global, journal: &Journal) -> Result<Vec<u8>, AllocError>
    ensures { IfOk result (λ file. file.items ≡ file_octets journal.now.entries) }
{
    let mut file = Vec::new(alloc);
    put_head(journal.len(), &mut file)?;
    let mut position = 0;
    'entries: while let Some(entry) = journal.get(position) {
        put_entry(entry, &mut file)?;
        position += 1;
    }
    Ok(file)
}

/// Puts the head of a file of `entries` entries behind what `out` has: the letters `IPMJ`, the version, and the number
/// of the entries.
///
/// # Errors
/// Want of memory. Then `out` may have a part of the head.
pub(crate) fn put_head(entries: u64, out: &mut Vec<u8>) -> Result<(), AllocError>
    ensures { OnOk result (out.new.items ≡ out.old.items ++ head_octets entries) }
{
    out.extend_from_slice(&MAGIC.to_be_bytes())?;
    out.extend_from_slice(&VERSION.to_be_bytes())?;
    put_number(entries, out)
}

/// Puts the octets of `entry` behind what `out` has. The caller has seen to it that a journal file can spell the entry.
///
/// # Errors
/// Want of memory. Then `out` may have a part of the entry.
pub(crate) fn put_entry(entry: &Entry, out: &mut Vec<u8>) -> Result<(), AllocError>
    requires { IsSpelled entry.now }
    ensures { OnOk result (out.new.items ≡ out.old.items ++ octets_of entry.now) }
{
    match entry {
        Entry::Open { session } => put_numbered(OPEN, *session, out),
        Entry::Close { session } => put_numbered(CLOSE, *session, out),
        Entry::Message {
            session,
            number,
            octets,
        } => put_message(*session, *number, octets.as_slice(), out),
        Entry::Edit { text } => put_edit(text.as_str(), out),
        Entry::Subscribe { sub, name } => put_subscribe(*sub, name.as_bytes(), out),
        Entry::Unsubscribe { sub } => put_numbered(UNSUBSCRIBE, *sub, out),
        Entry::Advance { t } => put_numbered(ADVANCE, *t, out),
        Entry::Cut { sub } => put_numbered(CUT, *sub, out),
    }
}

ghost use Rattle.std.specs.Prelude.{◌∷◌, ◌<◌, ◌^◌, true};
ghost use Rattle.sequences.specs.Octets.{be_octets};
ghost use Rattle.policy_text.specs.Naming.{is_name};
ghost use Rattle.event_journal.specs.declared.entry.Entry.TheVariants.{Message, Edit, Subscribe};

/// Puts `number` behind what `out` has, in 8 octets in network byte order.
fn put_number(number: u64, out: &mut Vec<u8>) -> Result<(), AllocError>
    ensures { OnOk result (out.new.items ≡ out.old.items ++ be_octets 8 number) }
{
    out.extend_from_slice(&number.to_be_bytes())
}

/// Puts the length `len` behind what `out` has, in 4 octets in network byte order.
fn put_length(len: u32, out: &mut Vec<u8>) -> Result<(), AllocError>
    ensures { OnOk result (out.new.items ≡ out.old.items ++ be_octets 4 len) }
{
    out.extend_from_slice(&len.to_be_bytes())
}

/// Puts an entry of this `kind` that has a `number` alone behind what `out` has.
fn put_numbered(kind: u8, number: u64, out: &mut Vec<u8>) -> Result<(), AllocError>
    ensures { OnOk result (out.new.items ≡ out.old.items ++ kind ∷ be_octets 8 number) }
{
    out.push(kind)?;
    put_number(number, out)
}

/// Puts a message's entry behind what `out` has: that of the session with the number `session`, which had `number`
/// messages before.
fn put_message(
    session: u64,
    number: u64,
    message: &[u8],
    out: &mut Vec<u8>,
) -> Result<(), AllocError>
    requires { length message.now < 2 ^ 32 }
    ensures { OnOk result (out.new.items
        ≡ out.old.items ++ octets_of (Message session number message.now)) }
{
    put_numbered(MESSAGE, session, out)?;
    put_number(number, out)?;
    put_length(message.len() as u32, out)?;
    out.extend_from_slice(message)
}

/// Puts an edit's entry behind what `out` has, with the policy's `text`.
fn put_edit(text: &str, out: &mut Vec<u8>) -> Result<(), AllocError>
    ensures { OnOk result (out.new.items ≡ out.old.items ++ octets_of (Edit text.now)) }
{
    put_numbered(EDIT, text.len() as u64, out)?;
    out.extend_from_slice(text.as_bytes())
}

/// Puts the entry of a subscription's beginning behind what `out` has: its number `sub` and the octets of its `name`.
fn put_subscribe(sub: u64, name: &[u8], out: &mut Vec<u8>) -> Result<(), AllocError>
    requires { is_name name.now ≡ true }
    ensures { OnOk result (out.new.items ≡ out.old.items ++ octets_of (Subscribe sub name.now)) }
{
    put_numbered(SUBSCRIBE, sub, out)?;
    out.push(name.len() as u8)?;
    out.extend_from_slice(name)
}
