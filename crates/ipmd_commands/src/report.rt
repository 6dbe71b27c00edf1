//! Says what was done with a stream that was filtered.

ghost use Rattle.std.specs.Prelude.{Some};
ghost use Rattle.octet_io.specs.Device.{device_failed, device_inner};
ghost use Rattle.ipmd_commands.specs.Runs.{line_of_report};
ghost use Rattle.ipmd_commands.specs.Status.{TellsLine};

use mediator_offline::OfflineReport;
use octet_io::Device;
use std::io::Write;

/// Says on `errors`, as a line, how many messages were read, and how many records were accepted and disclosed, as `report` counts
/// them. What can't be written is dropped.
pub fn tell<E: Write>(report: OfflineReport, errors: &mut Device<E>)
    ensures { TellsLine (Some (line_of_report report)) (device_failed errors.new)
        (E.contents (device_inner errors.old)) (E.contents (device_inner errors.new)) }
{
    let OfflineReport {
        messages,
        records,
        disclosed,
    } = report;
    let _ = writeln!(
        errors,
        "messages {messages} records {records} disclosed {disclosed}"
    );
}
