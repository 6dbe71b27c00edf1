//! How many templates records bring that a stream does not know.
ghost use Rattle.std.specs.Prelude.{◌≡◌, ◌+◌, ◌≤◌, ◌<◌, ◌↔◌, ℕ, IsTrue, length, take, if◌then◌else◌};
ghost use Rattle.ipfix_records.specs.Runs.{run_records, records_of_runs};
ghost use Rattle.subscriber_stream.specs.Shapes.{is_used, shapes_after};

use crate::shape_table::ShapeTable;
use ipfix_records::Run;
use ipfix_template::Template;

/// Whether there are at most `most` templates in the table with those of the records.
pub(crate) fn has_shape_room(shapes: &ShapeTable, runs: &[Run], most: u32) -> bool
    ensures { IsTrue result
        ↔ (length (shapes_after shapes.now.shapes (records_of_runs runs.now)) ≤ most) }
{
    let known = shapes.len();
    // Each run brings one template at most, so that most lists need no further look.
    if known.saturating_add(runs.len()) <= most as usize {
        return true;
    }
    known.saturating_add(new_shapes(shapes, runs)) <= most as usize
}

/// How many distinct templates of the records the table has not.
fn new_shapes(shapes: &ShapeTable, runs: &[Run]) -> usize
    ensures { length shapes.now.shapes + result
        ≡ length (shapes_after shapes.now.shapes (records_of_runs runs.now)) }
{
    let mut count = 0;
    for place in 0..runs.len() {
        if is_new_at(shapes, runs, place) {
            count += 1;
        }
    }
    count
}

/// Whether the run at a place has records, and a template that neither the table nor a record before it has.
fn is_new_at(shapes: &ShapeTable, runs: &[Run], place: usize) -> bool
    requires { place < length runs.now }
    ensures { length (shapes_after shapes.now.shapes (records_of_runs (take (place + 1) runs.now)))
        ≡ length (shapes_after shapes.now.shapes (records_of_runs (take place runs.now)))
        + (if result then 1 else 0) }
{
    let next = &runs[place];
    if next.len() == 0 {
        return false;
    }
    let template = next.shared_template();
    !shapes.has(template) && !is_used(&runs[..place], template)
}

/// Whether a record has the template.
fn is_used(runs: &[Run], template: &Template) -> bool
    ensures { result ≡ is_used template.now (records_of_runs runs.now) }
{
    for earlier in runs {
        if brings(earlier, template) {
            return true;
        }
    }
    false
}

/// Whether a record of the run has the template.
fn brings(run: &Run, template: &Template) -> bool
    ensures { result ≡ is_used template.now (run_records run.now) }
{
    run.len() > 0 && template == run.template()
}
