//! The records of a Data Set.
ghost use Rattle.std.specs.Prelude.{◌≡◌, true, map, IfOk};
ghost use Rattle.std.specs.Arc.{arc_value};
ghost use Rattle.ipfix_template.specs.DataRecord.{FitsOneMessage, kept_record};
ghost use Rattle.ipfix_records.specs.Pieces.{pieces};
ghost use Rattle.ipfix_records.specs.Runs.{run_records};
ghost use Rattle.ipfix_session.specs.Keeping.{IsKeepable};
ghost use Rattle.ipfix_session.specs.DataSets.{AddsRecords, AreFound, FindsEnds};

use crate::fault::Fault;
use bytes::Bytes;
use ipfix_records::{Layout, Records, Run};
use ipfix_template::{Extent, Record, Template};
use std::alloc::{AllocError, Global};
use std::sync::Arc;

/// Where the records of a Data Set's content end, one after another.
#[derive(Drop)]
struct RecordEnds {
    ends: Vec<u32>,
    /// The last of the ends; behind it stands padding.
    used: usize,
    /// Whether each value stands in its shortest text (RFC 7011, section 7).
    is_shortest: bool,
}

/// Adds the records of a Data Set's content, read by its template, as one run. Its octets are cut from the content, and
/// not copied, where each value stands in its shortest text.
///
/// # Errors
/// RecordOverrun where the last record goes past the content, or want of memory.
pub(crate) fn read_set(
    alloc: Global,
    template: &Arc<Template>,
    content: &Bytes,
    records: &mut Records,
) -> Result<(), Fault>
    requires keepable { IsKeepable (arc_value template.now) }
    requires fits { FitsOneMessage content.now }
    ensures { AddsRecords (arc_value template.now) content.now records.old records.new result }
{
    let layout = Layout::of(alloc, template.clone()?)?;
    let found = find_ends(alloc, &layout, content)?;
    if found.ends.is_empty() {
        return Ok(());
    }
    let run = run_of(alloc, template, content, found)?;
    records.push_run(run)?;
    Ok(())
}

/// Finds where the records of a content end: the longest record that stands at each place, until only padding is left.
fn find_ends(alloc: Global, layout: &Layout, content: &[u8]) -> Result<RecordEnds, Fault>
    requires keepable { IsKeepable layout.now }
    requires fits { FitsOneMessage content.now }
    ensures { FindsEnds layout.now content.now result }
{
    let most = content.len() / (layout.template().shortest() as usize).max(1);
    let mut ends = Vec::with_capacity(alloc, most)?;
    let mut used = 0;
    let mut is_shortest = true;
    'records: loop {
        match layout.measure(&content[used..]) {
            Extent::Padding => {
                return Ok(RecordEnds {
                    ends,
                    used,
                    is_shortest,
                });
            }
            Extent::Overrun => return Err(Fault::RecordOverrun),
            Extent::Record {
                used: size,
                is_shortest: as_written,
            } => {
                used += size;
                is_shortest = is_shortest && as_written;
                ends.push(used as u32)?;
            }
        }
    }
}

/// The records that were found: cut from the content, or written anew.
fn run_of(
    alloc: Global,
    template: &Arc<Template>,
    content: &Bytes,
    found: RecordEnds,
) -> Result<Run, AllocError>
    requires fits { FitsOneMessage content.now }
    requires found { AreFound (arc_value template.now) content.now found }
    ensures { IfOk result (λ run. run_records run
        ≡ map (kept_record (arc_value template.now)) (pieces content.now 0 found.ends.items)) }
{
    if found.is_shortest {
        let octets = content.slice(0..found.used)?;
        return Run::new(alloc, template.clone()?, octets, found.ends);
    }
    written_anew(alloc, template, content, &found)
}

/// The records that were found, each value in its shortest text.
fn written_anew(
    alloc: Global,
    template: &Arc<Template>,
    content: &Bytes,
    found: &RecordEnds,
) -> Result<Run, AllocError>
    requires fits { FitsOneMessage content.now }
    requires found { AreFound (arc_value template.now) content.now found.now }
    ensures { IfOk result (λ run. run_records run
        ≡ map (kept_record (arc_value template.now)) (pieces content.now 0 found.now.ends.items)) }
{
    let mut octets = Vec::with_capacity(alloc, content.len())?;
    let mut written = Vec::with_capacity(alloc, found.ends.len())?;
    let mut start = 0;
    for end in &found.ends {
        let end = *end as usize;
        let text = content.slice(start..end)?;
        let single = Record::read(alloc, template.clone()?, text, false)?;
        octets.extend_from_slice(single.as_octets())?;
        written.push(octets.len() as u32)?;
        start = end;
    }
    Run::new(alloc, template.clone()?, Bytes::from_vec(octets)?, written)
}
