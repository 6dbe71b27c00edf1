//! Whether the Data Sets of a message may have more than `VALUES_AN_OCTET` values an octet, so that it is refused.
ghost use Rattle.std.specs.Prelude.{◌≡◌, ℕ, ◌↔◌, ◌+◌, ◌-◌, ◌*◌, ◌/◌, ◌<◌, ◌==◌, ◌^◌, if◌then◌else◌, max, min, length, Some, None, IsTrue, IfOk, OnOk};
ghost use Rattle.std.specs.Ordering.{nat_cmp};
ghost use Rattle.std.specs.BTreeMap.{get};
ghost use Rattle.prepared_message.specs.Widths.{width_of, set_values, values_by_widths, given_or, widths_in, IsTooWide};
ghost use Rattle.prepared_message.specs.declared.width.TheConstants.{VALUES_AN_OCTET};

use crate::fault::Fault;
use crate::snapshot::Snapshot;
use bytes::Bytes;
use ipfix_message::{Item, items, read_header};
use ipfix_session::Templates;
use ipfix_template::Template;
use std::alloc::{AllocError, Global};
use std::collections::BTreeMap;

/// How many values the Data Sets of a message from a stranger may have at most for each octet of the message: 2. Where
/// each value takes an octet or more, and each Data Set has a record, they don't have more.
pub const VALUES_AN_OCTET: u64 = 2;

/// How many values a record of a template has, and the octets of its shortest record.
#[derive(Clone, Copy)]
struct Width {
    fields: usize,
    shortest: u32,
}

impl Width {
    /// The width of records of `template`.
    fn of(template: &Template) -> Width
        ensures { result ≡ width_of template.now }
    {
        Width {
            fields: template.fields.len(),
            shortest: template.shortest(),
        }
    }

    /// How many values a Data Set with `octets` octets after its header may have: those of as many records as fit in,
    /// and of one more, since the fields are gone through for a set without records too. It is 2^64-1 where there are
    /// more.
    fn values(self, octets: usize) -> u64
        ensures { result ≡ min (2 ^ 64 - 1) (set_values (Some self) octets) }
    {
        let fields = self.fields as u64;
        let records = octets as u64 / u64::from(self.shortest.max(1));
        fields.saturating_mul(records).saturating_add(fields)
    }
}

impl Snapshot {
    /// Whether the Data Sets of `message` may have more than [`VALUES_AN_OCTET`] values for each octet of the message.
    /// The template of each is the one that its ID was given last, in the message or else in the session.
    ///
    /// # Errors
    /// [`Fault::Malformed`] where the octets are no message; or [`Fault::OutOfMemory`].
    pub fn is_too_wide(&self, message: &Bytes) -> Result<bool, Fault>
        ensures { IfOk result (λ wide. IsTrue wide ↔ IsTooWide self.now message.now) }
    {
        let octets: &[u8] = message;
        let domain = read_header(octets)?.domain;
        let alloc = self.templates.allocator();
        let said = items(alloc, octets)?;
        let most = octets.len() as u64 * VALUES_AN_OCTET;
        Ok(are_too_wide(alloc, &self.templates, domain, &said, most)?)
    }
}

/// Whether the Data Sets among the items `said` of a message may have more than `most` values, by those of `templates`
/// that their IDs have in the Observation Domain `domain`, or that the message gives them before. What the message
/// gives is kept in memory from `alloc`.
///
/// # Errors
/// Want of memory.
fn are_too_wide(
    alloc: Global,
    templates: &Templates,
    domain: u32,
    said: &[Item],
    most: u64,
) -> Result<bool, AllocError>
    requires few { most < 2 ^ 64 - 1 }
    ensures { IfOk result (λ wide. IsTrue wide
        ↔ (most < values_by_widths (widths_in domain templates.now) said.now)) }
{
    let mut given = BTreeMap::new(alloc);
    let mut left = most;
    'items: for item in said {
        match item {
            Item::Define { id, template } => give(&mut given, *id, Width::of(template))?,
            Item::DataSet { id, len, .. } => {
                let values = values_of_set(templates, domain, &given, *id, *len);
                if values > left {
                    return Ok(true);
                }
                left -= values;
            }
            _ => {}
        }
    }
    Ok(false)
}

/// Notes in `given` that the ID `id` is given a template of this `width`.
///
/// # Errors
/// Want of memory.
fn give(given: &mut BTreeMap<u16, Width>, id: u16, width: Width) -> Result<(), AllocError>
    ensures { OnOk result ((other : ℕ) → get nat_cmp given.new other ≡ (if other == id
        then Some width else get nat_cmp given.old other)) }
{
    given.insert(id, width)?;
    Ok(())
}

/// How many values a Data Set of the ID `id`, with `octets` octets after its header, may have, by the template that its
/// ID was given last: in the message, as `given` says, or else by `templates` in the Observation Domain `domain`.
/// Without a template it has none.
fn values_of_set(
    templates: &Templates,
    domain: u32,
    given: &BTreeMap<u16, Width>,
    id: u16,
    octets: usize,
) -> u64
    ensures { result ≡ min (2 ^ 64 - 1)
        (set_values (given_or (get nat_cmp given.now) (widths_in domain templates.now) id) octets) }
{
    let width = match given.get(&id) {
        Some(width) => Some(*width),
        None => known(templates, domain, id),
    };
    match width {
        Some(width) => width.values(octets),
        None => 0,
    }
}

/// The width of that of `templates` which the ID `id` has in the Observation Domain `domain`, or `None`.
fn known(templates: &Templates, domain: u32, id: u16) -> Option<Width>
    ensures { result ≡ widths_in domain templates.now id }
{
    match templates.template(domain, id) {
        Some(template) => Some(Width::of(template)),
        None => None,
    }
}
