//! How far a record at the front of octets reaches.
ghost use Rattle.std.specs.Prelude.{◌≡◌, ◌≤◌, ◌++◌, ℕ, List, length, IfSome};
ghost use Rattle.ipfix_template.specs.Values.{Splits, extent_at};
ghost use Rattle.ipfix_template.specs.Shown.{Measures, IsMeasuredBy, IsReach};

use crate::field::FieldSpec;
use crate::spans::Extent;
use crate::template::Template;
use crate::values::find_span;

/// Finds how many octets the record of `template` takes at the front of `octets`, and whether these
/// are what [`encode_record`](crate::encode_record) writes for its values. It finds a record,
/// padding or an overrun exactly where [`split`](crate::split) does (RFC 7011, section 3.3.1). It
/// makes no list of the values, and takes no memory.
pub fn measure(template: &Template, octets: &[u8]) -> Extent
    // What is found is split by the fields.
    ensures found { IsMeasuredBy template.now.fields octets.now result }
    // What is split so by the fields is found, whatever follows it.
    ensures only { (text rest : List ℕ) (values : List (List ℕ)) → octets.now ≡ text ++ rest
        → Splits template.now.fields text values → IsReach (length text) result }
    ensures exact { Measures template.now octets.now result }
{
    find_extent(template, octets)
}

fn find_extent(template: &Template, octets: &[u8]) -> Extent
    ensures { Measures template.now octets.now result }
{
    if octets.len() < template.shortest() as usize {
        return Extent::Padding;
    }
    match extent_of(template.fields.as_slice(), octets) {
        Some((used, is_shortest)) => Extent::Record { used, is_shortest },
        None => Extent::Overrun,
    }
}

/// How many octets the values of the fields take, and whether each stands in its shortest text.
fn extent_of(fields: &[FieldSpec], octets: &[u8]) -> Option<(usize, bool)>
    ensures exact { result ≡ extent_at fields.now octets.now }
    ensures within { IfSome result (λ extent. extent.0 ≤ length octets.now) }
{
    let mut used = 0;
    let mut is_shortest = true;
    for field in fields {
        let Some((start, length)) = find_span(field, &octets[used..]) else {
            return None;
        };
        is_shortest = is_shortest && start == field.value_start(length);
        used += start + length;
    }
    Some((used, is_shortest))
}
