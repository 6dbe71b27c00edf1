//! What a message holds by the templates of a snapshot.
ghost use Rattle.std.specs.Prelude.{◌≤◌, ℕ, List, length, IfOk};
ghost use Rattle.ipfix_octets.specs.MessageFormat.{header_octets};
ghost use Rattle.ipfix_session.specs.Answers.{as_contents};
ghost use Rattle.ipfix_session.specs.Standing.{Knows};
ghost use Rattle.prepared_message.specs.Faults.{GivesPrepared, items_wanted, prepared_from};
ghost use Rattle.prepared_message.specs.Finding.{IsFound};

use crate::fault::Fault;
use crate::sets::has_template_set;
use crate::used::{Used, used_by};
use bytes::Bytes;
use ipfix_message::{Header, Item, items, read_header};
use ipfix_session::{Contents, Templates};
use std::alloc::Global;

/// What a message without a set of templates holds, and the templates that it used.
#[derive(Drop)]
pub(crate) struct Found {
    pub(crate) header: Header,
    pub(crate) contents: Contents,
    pub(crate) uses: Vec<Used>,
}

/// Reads `message` by `templates`. The values of its records are cut from the message, and not copied.
///
/// # Errors
/// Those of [`prepare`](crate::Prepared::prepare).
pub(crate) fn read_by(templates: &Templates, message: &Bytes) -> Result<Found, Fault>
    ensures gives { (older : List (List ℕ)) → Knows templates.now older
        → GivesPrepared (λ f. as_contents f.contents) result (prepared_from older message.now) }
    ensures found { IfOk result (IsFound templates.now message.now) }
{
    let octets: &[u8] = message;
    let header = read_header(octets)?;
    let alloc = templates.allocator();
    let said = items_without_templates(alloc, octets)?;
    let uses = used_by(alloc, templates, header.domain, said.as_slice())?;
    let contents = templates.read(message, said)?;
    Ok(Found {
        header,
        contents,
        uses,
    })
}

/// The items of the message `octets`, which has at least a header, in memory from `alloc`.
///
/// # Errors
/// `Malformed` where the octets are no message, else `HasTemplates` where it has a set of templates; or want of memory.
fn items_without_templates(alloc: Global, octets: &[u8]) -> Result<Vec<Item>, Fault>
    requires { header_octets ≤ length octets.now }
    ensures { GivesPrepared (λ v. v.items) result (items_wanted octets.now) }
{
    let said = items(alloc, octets)?;
    if has_template_set(octets) {
        return Err(Fault::HasTemplates);
    }
    Ok(said)
}
