//! Templates, and why one is refused.
ghost use Rattle.std.specs.Prelude.{◌≡◌, ◌≤◌, length, Some, None, MatchResult};
ghost use Rattle.std.specs.List.{list_all, sum_by};
ghost use Rattle.ipfix_template.specs.declared.field.TheConstants.{MOST_FIELDS};

use crate::field::{FieldSpec, Fields};
use ipfix_octets::message_format::LEAST_TEMPLATE_ID;
use thiserror::Error;

/// Why a template is refused. Where several reasons stand, the first of this list is named.
#[derive(Clone, Copy, Debug, PartialEq, Eq, Error)]
pub enum Refused {
    /// The ID is below 256.
    #[error("BadId")]
    BadId,
    /// An element of the profile has a length that its type does not allow.
    #[error("BadLength")]
    BadLength,
    /// An options template without scope fields, or with more of them than fields; or a plain template
    /// with scope fields.
    #[error("BadScope")]
    BadScope,
    /// The shortest record has no octets.
    #[error("EmptyRecord")]
    EmptyRecord,
}

/// A template: its fields, of which the first `scope` are scope fields. A plain template has none, and an
/// options template at least one (RFC 7011, sections 3.4.1 and 3.4.2).
#[derive(Debug, Drop)]
pub struct Template {
    /// The fields in their order, the scope fields first.
    pub fields: Fields,
    /// How many of the fields are scope fields (RFC 7011, section 3.4.2.2).
    pub scope: u16,
}

impl Template {
    ghost use Rattle.ipfix_template.specs.Template.{refusal_of, shortest_record, is_options};

    /// Whether the template is an options template, which has scope fields.
    pub fn is_options(&self) -> bool
        ensures { result ≡ is_options self.now }
    {
        self.scope > 0
    }

    /// The octets of the template's shortest record: the length of each field that fixes it, and 1
    /// for each field of variable length.
    pub fn shortest(&self) -> u32
        ensures { result ≡ shortest_record self.now }
    {
        least_octets_of(self.fields.as_slice())
    }

    /// Whether the template may be announced under `id`, in an Options Template Set where `options`
    /// is true, and else in a Template Set.
    ///
    /// # Errors
    /// The first reason to refuse it, in the order of [`Refused`].
    #[tactic(auto, unfolding(crate::specs::Template::refusal_of))]
    pub fn check(&self, id: u16, options: bool) -> Result<(), Refused>
        ensures { MatchResult result
            (λ _. refusal_of id options self.now ≡ None)
            (λ why. refusal_of id options self.now ≡ Some why) }
    {
        if id < LEAST_TEMPLATE_ID {
            return Err(Refused::BadId);
        }
        if !have_allowed_lengths(self.fields.as_slice()) {
            return Err(Refused::BadLength);
        }
        if self.has_bad_scope(options) {
            return Err(Refused::BadScope);
        }
        if self.shortest() == 0 {
            return Err(Refused::EmptyRecord);
        }
        Ok(())
    }
}

impl Template {
    ghost use Rattle.ipfix_template.specs.Template.{has_bad_scope};

    fn has_bad_scope(&self, options: bool) -> bool
        ensures { result ≡ has_bad_scope options self.now }
    {
        if options {
            self.scope == 0 || self.fields.len() < usize::from(self.scope)
        } else {
            self.scope > 0
        }
    }
}

ghost use Rattle.ipfix_template.specs.Template.{least_octets, has_allowed_length};

fn have_allowed_lengths(fields: &[FieldSpec]) -> bool
    ensures { result ≡ list_all has_allowed_length fields.now }
{
    fields.iter().all(|field| field.has_allowed_length())
}

fn least_octets_of(fields: &[FieldSpec]) -> u32
    requires { length fields.now ≤ MOST_FIELDS }
    ensures { result ≡ sum_by least_octets fields.now }
{
    let mut octets = 0;
    for field in fields {
        octets += u32::from(field.least_octets());
    }
    octets
}
