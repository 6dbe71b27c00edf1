//! The fields of a record with their values, one after another.
ghost use Rattle.std.specs.Prelude.{◌≡◌, ◌<◌, ◌∷◌, length, drop};

use crate::data_record::Record;
use crate::data_record::places::next_place;
use crate::field::FieldSpec;
use std::marker::Model;

/// The fields of a record, each with its value, in their order. Nothing is copied, and it takes no memory.
/// Contracts see the list of those that are left.
#[derive(Drop)]
pub struct Entries<'r> {
    fields: &'r [FieldSpec],
    octets: &'r [u8],
}

impl<'r> Model for Entries<'r> {
    ghost use Rattle.std.specs.Prelude.{ℕ, List};
    ghost use Rattle.std.specs.List.{zip};
    ghost use Rattle.ipfix_template.specs.declared.field.FieldSpec.{FieldSpec};
    ghost use Rattle.ipfix_template.specs.Values.{values_in};
    ghost use Rattle.ipfix_template.specs.Places.{AreKept};

    ghost Value = { List (FieldSpec × List ℕ) };

    ghost view = { λ e. zip e.fields.now (values_in e.fields.now e.octets.now) };

    ghost invariant = { λ e. AreKept e.fields.now e.octets.now };
}

impl Record {
    ghost use Rattle.std.specs.List.{zip};
    ghost use Rattle.ipfix_template.specs.DataRecord.{IsSound};

    /// The fields with their values, one after another.
    pub fn entries(&self) -> Entries<'_>
        ensures value { result ≡ zip self.now.template.fields self.now.values }
        ensures sound { IsSound self.now }
    {
        Entries {
            fields: self.template.fields.as_slice(),
            octets: self.octets.as_slice(),
        }
    }
}

impl<'r> Iterator for Entries<'r> {
    ghost use Rattle.std.specs.Iterator.{at_most};
    ghost use Rattle.std.specs.Map.Iter.{TakesFirst, deref_pair};

    type Item = (&'r FieldSpec, &'r [u8]);

    ghost next_gives = { TakesFirst deref_pair };

    ghost remaining = { λ left. at_most (length left) };

    fn next(&mut self) -> Option<(&'r FieldSpec, &'r [u8])> {
        let (field, fields) = self.fields.split_first()?;
        let (value, octets) = cut_first(self.fields, self.octets);
        self.fields = fields;
        self.octets = octets;
        Some((field, value))
    }
}

ghost use Rattle.ipfix_template.specs.Values.{values_in};
ghost use Rattle.ipfix_template.specs.Places.{AreKept};

/// The first value of a record's octets, and the octets behind it.
fn cut_first<'r>(fields: &[FieldSpec], octets: &'r [u8]) -> (&'r [u8], &'r [u8])
    requires kept { AreKept fields.now octets.now }
    requires some { 0 < length fields.now }
    ensures first { values_in fields.now octets.now
        ≡ result.0.now ∷ values_in (drop 1 fields.now) result.1.now }
    ensures kept { AreKept (drop 1 fields.now) result.1.now }
{
    let (start, end) = next_place(fields, octets, 0, 0);
    (&octets[start..end], &octets[end..])
}
