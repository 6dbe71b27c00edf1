//! That records may be streamed, as their types keep it.
ghost use Rattle.std.specs.Prelude.{◌≡◌, ◌≤◌, length};
ghost use Rattle.std.specs.List.{AllByRecursion};
ghost use Rattle.ipfix_octets.specs.MessageFormat.{least_template_id};
ghost use Rattle.ipfix_template.specs.Template.{is_options, IsAcceptable, IsSpecifier, IsWritable};
ghost use Rattle.ipfix_records.specs.Runs.{run_records};
ghost use Rattle.stream_meaning.specs.Served.{IsStreamable};

use ipfix_records::{Records, Run};
use ipfix_template::{FieldSpec, Template};

/// Each record of `records` may be streamed: always so, by its type. A caller who has records
/// learns it here, and the call does nothing else.
pub fn records_for_proof(records: &Records)
    ensures { AllByRecursion IsStreamable records.now }
{
    for run in records.runs() {
        run_for_proof(run);
    }
}

/// The records of `run` are sound, and the numbers of its template fit their octets. A caller who
/// has a run learns it here, and the call does nothing else.
pub fn run_for_proof(run: &Run)
    ensures { AllByRecursion IsStreamable (run_records run.now) }
{
    if !run.is_empty() {
        template_for_proof(run.template());
    }
}

fn template_for_proof(template: &Template)
    requires { IsAcceptable template.now }
    ensures { IsWritable least_template_id (is_options template.now) template.now }
{
    let _for_proof = template.scope;
    fields_for_proof(template.fields.as_slice());
}

fn fields_for_proof(fields: &[FieldSpec])
    ensures { AllByRecursion IsSpecifier fields.now }
{
    for field in fields {
        field_for_proof(field);
    }
}

fn field_for_proof(field: &FieldSpec)
    ensures { IsSpecifier field.now }
{
    let _for_proof = field.length;
    let _for_proof = field.element.pen();
    let _for_proof = field.element.number();
}
