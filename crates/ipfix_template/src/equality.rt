//! When two templates are equal, and what hashers are given of one.
ghost use Rattle.std.specs.Prelude.{◌≡◌, fold};
ghost use Rattle.ipfix_template.specs.Equality.{same_field, same_fields, hashed_field};

use crate::field::FieldSpec;
use crate::template::Template;
use std::hash::{Hash, Hasher};

fn same_fields(fields: &[FieldSpec], others: &[FieldSpec]) -> bool
    ensures { result ≡ same_fields fields.now others.now }
{
    fields == others
}

impl PartialEq for Template {
    ghost use Rattle.ipfix_template.specs.Equality.{same_template};
    ghost use Rattle.ipfix_template.specs.SameTemplate.{same_template-partial};

    ghost eq = { same_template };

    ghost laws = { same_template-partial };

    fn eq(&self, other: &Template) -> bool {
        same_fields(self.fields.as_slice(), other.fields.as_slice()) && self.scope == other.scope
    }
}

impl Eq for Template {
    ghost use Rattle.ipfix_template.specs.SameTemplate.{same_template-whole};

    ghost laws = { same_template-whole };
}

impl Hash for Template {
    ghost use Rattle.ipfix_template.specs.Equality.{hashed_template};
    ghost use Rattle.ipfix_template.specs.SameTemplate.{same_template-hashed};

    ghost hash_input = { hashed_template };

    ghost respects_eq = { same_template-hashed };

    fn hash<H: Hasher>(&self, state: &mut H) {
        self.fields.as_slice().hash(state);
        state.write_u16(self.scope);
    }
}
