//! A template's fields.
ghost use Rattle.std.specs.Prelude.{◌≡◌, ◌<◌, ◌≤◌, ◌==◌, length, MatchResult};
ghost use Rattle.ipfix_template.specs.declared.field.TheConstants.{MOST_FIELDS};

use ipfix_element::{ElementId, allowed_length, kind_of};
use std::marker::Model;

/// The Field Length that marks values of variable length (RFC 7011, section 7).
pub const VARIABLE: u16 = 65535;

/// The most fields that a template can have: their number stands in two octets (RFC 7011, section 3.4.1).
pub const MOST_FIELDS: usize = 65535;

/// A Field Specifier: an element, and the length of its values in octets, or [`VARIABLE`] (RFC 7011,
/// section 3.2).
#[derive(Clone, Copy, Debug, PartialEq, Eq, Hash)]
pub struct FieldSpec {
    /// The element whose values the field has.
    pub element: ElementId,
    /// The Field Length: the octets of each value, or [`VARIABLE`].
    pub length: u16,
}

impl FieldSpec {
    ghost use Rattle.ipfix_template.specs.Template.{is_variable, least_octets, has_allowed_length};
    ghost use Rattle.ipfix_template.specs.Values.{value_start};

    /// Whether each value brings its own length (RFC 7011, section 7).
    pub fn is_variable(self) -> bool
        ensures { result ≡ is_variable self }
    {
        self.length == VARIABLE
    }

    /// Where a value of `length` octets starts in its shortest text: behind its length, which has 1
    /// octet or 3, or at once where the field fixes the length.
    pub(crate) fn value_start(self, length: usize) -> usize
        ensures { result ≡ value_start self length }
    {
        if !self.is_variable() {
            return 0;
        }
        if length < 255 { 1 } else { 3 }
    }

    /// The octets that the field takes at least in a record: its length, or the length octet of an
    /// empty value.
    pub fn least_octets(self) -> u16
        ensures { result ≡ least_octets self }
    {
        let length = self.length;
        if self.is_variable() { 1 } else { length }
    }

    /// Whether the element's type allows the Field Length.
    pub fn has_allowed_length(self) -> bool
        ensures { result ≡ has_allowed_length self }
    {
        allowed_length(kind_of(self.element), self.length)
    }
}

/// The fields of a template, in their order: at most 65,535. Contracts see the list.
#[derive(Debug, Drop)]
pub struct Fields {
    specs: Vec<FieldSpec>,
}

impl Model for Fields {
    ghost use Rattle.std.specs.Prelude.{List, length, ◌≤◌};
    ghost use Rattle.ipfix_template.specs.declared.field.FieldSpec.{FieldSpec};
    ghost use Rattle.ipfix_template.specs.declared.field.TheConstants.{MOST_FIELDS};

    ghost Value = { List FieldSpec };

    ghost view = { λ f. f.specs.items };

    ghost invariant = { λ f. length f.specs.items ≤ MOST_FIELDS };
}

impl Fields {
    /// Takes `specs`, in their order, as the fields of a template. Nothing is copied.
    ///
    /// # Errors
    /// The list itself, exactly where it has more than 65,535 fields.
    pub fn from_vec(specs: Vec<FieldSpec>) -> Result<Fields, Vec<FieldSpec>>
        ensures { MatchResult result
            (λ fields. (fields ≡ specs.items) × (length specs.items ≤ MOST_FIELDS))
            (λ refused. (refused.items ≡ specs.items) × (MOST_FIELDS < length specs.items)) }
    {
        if specs.len() > MOST_FIELDS {
            return Err(specs);
        }
        Ok(Fields { specs })
    }

    /// The fields in their order. Nothing is copied.
    pub fn into_vec(self) -> Vec<FieldSpec>
        ensures { result.items ≡ self }
    {
        self.specs
    }

    /// The fields in their order.
    pub fn as_slice(&self) -> &[FieldSpec]
        ensures value { result.now ≡ self.now }
        ensures few { length self.now ≤ MOST_FIELDS }
    {
        self.specs.as_slice()
    }

    /// How many fields there are.
    pub fn len(&self) -> usize
        ensures value { result ≡ length self.now }
        ensures few { result ≤ MOST_FIELDS }
    {
        self.specs.len()
    }

    /// Whether there is no field.
    pub fn is_empty(&self) -> bool
        ensures { result ≡ (length self.now == 0) }
    {
        self.specs.is_empty()
    }
}
