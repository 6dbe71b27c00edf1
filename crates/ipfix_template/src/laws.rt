//! Laws over the definitions that the calls of this crate cite: no code stands behind them.
ghost use Rattle.std.specs.Prelude.{◌≡◌, ◌++◌, ℕ, Bool, List};
ghost use Rattle.ipfix_template.specs.declared.template.Template.{Template};
ghost use Rattle.ipfix_template.specs.declared.field.FieldSpec.{FieldSpec};
ghost use Rattle.ipfix_template.specs.Template.{template_record, IsWritable};
ghost use Rattle.ipfix_template.specs.Values.{Splits, record_text};
ghost use Rattle.ipfix_template.specs.DataRecord.{DataRecord, IsSound};

/// What `encode_record` writes splits by the record's template into the record's values, and nothing
/// else at the front of those octets does, whatever follows them.
pub fn record_splits_back()
    ensures splits { (r : DataRecord) → IsSound r
        → Splits r.template.fields (record_text r.template.fields r.values) r.values }
    ensures only { (r : DataRecord) (text before after : List ℕ) (values : List (List ℕ))
        → IsSound r → record_text r.template.fields r.values ++ before ≡ text ++ after
        → Splits r.template.fields text values
        → (text ≡ record_text r.template.fields r.values) × (values ≡ r.values) }
{}

/// Two splits of the same octets, from the front, by one template are equal: their octets and their values.
pub fn one_split()
    ensures { (fields : List FieldSpec) (octets a b x y : List ℕ) (v w : List (List ℕ))
        → octets ≡ a ++ x → octets ≡ b ++ y
        → Splits fields a v → Splits fields b w → (a ≡ b) × (v ≡ w) }
{}

/// What `encode_template` writes determines ID and template, whatever follows it: no template's record
/// begins another's.
pub fn one_template()
    ensures { (options : Bool) (a b : ℕ) (s t : Template) (x y : List ℕ) → IsWritable a options s
        → IsWritable b options t
        → template_record a options s ++ x ≡ template_record b options t ++ y
        → (a ≡ b) × (s ≡ t) × (x ≡ y) }
{}
