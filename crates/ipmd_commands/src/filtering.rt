//! `ipmd offline`.

ghost use Rattle.std.specs.Prelude.{◌≡◌, IfErr, IfOk};
ghost use Rattle.octet_io.specs.Device.{device_inner};
ghost use Rattle.octet_io.specs.Moments.{writer_of};
ghost use Rattle.ipmd_commands.specs.Runs.{FailsLines, FailsOn, FiltersInput, FinishesInput, FinishesLines, FinishesOn, FinishesWithAudit, IsWriteFault, RefusesInput, RefusesToFilter, RefusesWithAudit};
ghost use Rattle.ipmd_commands.specs.Status.{offline_fault_of};

use crate::failure::Place;
use crate::fault::Fault;
use crate::files::of_file;
use crate::hex_input::read_hex;
use crate::output::write_lines;
use crate::policy_source::policy_text_of;
use audit_behind::AuditBehind;
use ipmd_command_line::OfflineOptions;
use mediator_offline::{AuditSink, Fault as OfflineFault, OfflineJob, OfflineReport, offline};
use octet_io::Device;
use std::alloc::Global;
use std::io::{BufWriter, ErrorKind, Read, Write};
use std::rt::Files;
use std::sync::Wait;
use std::thread::Threads;
use std::{fs, io};

/// How many octets of audit lines are written at once.
const AUDIT_BUFFER: usize = 65_536;

/// An input ends, so no number of reads is too many.
const ANY_NUMBER_OF_READS: u64 = u64::MAX;

/// Does what `ipmd offline` is asked for by `options`, and answers how much was read, accepted and written. It filters `input`
/// for one subscriber to `output`, and names what was kept back in the audit's file, where there is one. `rt` reads and writes
/// files and gives memory.
///
/// # Errors
/// In this order: that of the policy's source; `Device`, of the audit's file, which is made empty; `Hex`, where the input is to
/// be hexadecimal and isn't; and what stops `offline` ([`mediator_offline::offline`]), where `Framing`, `Policy`, `Mediator`,
/// `Cut` and `OutOfMemory` keep their names, and `Device` is that of what failed. What was accepted before a fault is written.
#[tactic(auto, using(crate::proofs::Lines::kept))]
pub fn filter<
    R: Files + AllocGlobal + Threads + Wait + Copy + Send + Drop + 'static,
    I: Read + Drop,
    O: Write,
>(
    rt: &R,
    options: &OfflineOptions<'_>,
    input: I,
    output: &mut Device<O>,
) -> Result<OfflineReport, Fault>
where
    R::File: Send + 'static,
    ensures ok { IfOk result (λ report. FiltersInput options.entry.now report (I.remaining input)
        (O.contents (device_inner output.old)) (O.contents (device_inner output.new))) }
    ensures err { IfErr result (λ e. RefusesToFilter options.entry.now e (I.remaining input)
        (O.contents (device_inner output.old)) (O.contents (device_inner output.new))) }
{
    let policy = policy_text_of(rt, options.policy)?;
    let job = OfflineJob {
        policy: policy.as_str(),
        name: options.subscriber,
        now: options.now,
        target: options.target,
        turns: ANY_NUMBER_OF_READS,
        audit: options.audit.is_some(),
    };
    match options.audit {
        Some(path) => filter_to_file(rt, &job, options.hex, input, output, path),
        None => {
            let mut audit = Device::new(io::sink());
            filter_input(rt.alloc(), &job, options.hex, input, output, &mut audit)
        }
    }
}

/// Filters `input` with an audit in the file whose path is `path`.
///
/// # Errors
/// Those of [`filter`] but for the policy's source.
#[tactic(auto, using(crate::proofs::Lines::kept))]
fn filter_to_file<
    R: Files + AllocGlobal + Threads + Wait + Copy + Send + Drop + 'static,
    I: Read + Drop,
    O: Write,
>(
    rt: &R,
    job: &OfflineJob<'_>,
    hex: bool,
    input: I,
    output: &mut Device<O>,
    path: &str,
) -> Result<OfflineReport, Fault>
where
    R::File: Send + 'static,
    ensures ok { IfOk result (λ report.
        FinishesWithAudit hex job.entry.now report (I.remaining input)
        (writer_of (O.contents (device_inner output.old)) (O.contents (device_inner output.new)))) }
    ensures err { IfErr result (λ e.
        RefusesWithAudit path.now e hex job.entry.now (I.remaining input)
        (writer_of (O.contents (device_inner output.old)) (O.contents (device_inner output.new)))) }
{
    let alloc = rt.alloc();
    let file = of_file(alloc, path, fs::create(rt, path))?;
    let buffer = of_file(
        alloc,
        path,
        BufWriter::with_capacity(alloc, AUDIT_BUFFER, file),
    )?;
    let mut audit = AuditBehind::start(*rt, alloc, Device::new(buffer));
    match filter_input(alloc, job, hex, input, output, &mut audit) {
        Ok(report) => Ok(report),
        Err(fault) => Err(fault.named(alloc, path, why_of(&audit))),
    }
}

/// Filters `input`, as octets, or as hexadecimal text to lines of it.
#[tactic(auto, using(crate::proofs::Inputs::finishes_spelled, crate::proofs::Inputs::fails_spelled, crate::proofs::Lines::kept))]
fn filter_input<I: Read + Drop, O: Write, A: AuditSink>(
    alloc: Global,
    job: &OfflineJob<'_>,
    hex: bool,
    input: I,
    output: &mut Device<O>,
    audit: &mut A,
) -> Result<OfflineReport, Fault>
    ensures ok { IfOk result (λ report. FinishesInput hex job.entry.now report (I.remaining input)
        (writer_of (O.contents (device_inner output.old)) (O.contents (device_inner output.new)))
        (writer_of (A.contents audit.old) (A.contents audit.new))) }
    ensures err { IfErr result (λ e. RefusesInput e hex job.entry.now (I.remaining input)
        (writer_of (O.contents (device_inner output.old)) (O.contents (device_inner output.new)))
        (writer_of (A.contents audit.old) (A.contents audit.new))) }
{
    if !hex {
        return filter_octets(alloc, job, input, output, audit);
    }
    let octets = read_hex(alloc, input)?;
    filter_to_lines(alloc, job, octets.as_slice(), output, audit)
}

/// Filters octets, and writes each message as a line when all was read.
fn filter_to_lines<O: Write, A: AuditSink>(
    alloc: Global,
    job: &OfflineJob<'_>,
    octets: &[u8],
    output: &mut Device<O>,
    audit: &mut A,
) -> Result<OfflineReport, Fault>
    ensures ok { IfOk result (λ report. FinishesLines job.entry.now report octets.now
        (writer_of (O.contents (device_inner output.old)) (O.contents (device_inner output.new)))
        (writer_of (A.contents audit.old) (A.contents audit.new))) }
    ensures err { IfErr result (λ e. FailsLines e job.entry.now octets.now
        (writer_of (O.contents (device_inner output.old)) (O.contents (device_inner output.new)))
        (writer_of (A.contents audit.old) (A.contents audit.new))) }
{
    let mut stream = Device::new(Vec::new(alloc));
    let report = filter_octets(alloc, job, octets, &mut stream, audit);
    let out_of_memory = stream.has_failed();
    write_lines(alloc, stream.into_inner().as_slice(), output)?;
    if out_of_memory {
        return Err(Fault::OutOfMemory);
    }
    report
}

/// Filters octets, and sees that all that was written has left.
#[tactic(auto, using(crate::proofs::Lines::kept))]
fn filter_octets<I: Read + Drop, O: Write, A: AuditSink>(
    alloc: Global,
    job: &OfflineJob<'_>,
    input: I,
    output: &mut Device<O>,
    audit: &mut A,
) -> Result<OfflineReport, Fault>
    ensures ok { IfOk result (λ report. FinishesOn job.entry.now report (I.remaining input)
        (writer_of (O.contents (device_inner output.old)) (O.contents (device_inner output.new)))
        (writer_of (A.contents audit.old) (A.contents audit.new))) }
    ensures err { IfErr result (λ e. FailsOn e job.entry.now (I.remaining input)
        (writer_of (O.contents (device_inner output.old)) (O.contents (device_inner output.new)))
        (writer_of (A.contents audit.old) (A.contents audit.new))) }
{
    if output.has_failed() || audit.failure().is_some() {
        return Err(failed_one(output));
    }
    let mut reader = Device::new(input);
    let report = offline(alloc, job, &mut reader, output, audit);
    if output.flush().and(audit.flush_lines()).is_err() {
        return Err(failed_one(output));
    }
    match report {
        Ok(report) => Ok(report),
        Err(fault) => Err(fault_of(fault, reader.why(), output.why())),
    }
}

/// Why an audit failed, where it has; an error of the kind `Other` where it has not.
fn why_of<A: AuditSink>(audit: &A) -> io::Error {
    match audit.failure() {
        Some(why) => why,
        None => io::Error::from(ErrorKind::Other),
    }
}

/// What the program makes of an output or an audit of which one has failed.
fn failed_one<O>(output: &Device<O>) -> Fault
    ensures { IsWriteFault result }
{
    if output.has_failed() {
        Fault::at_output(output)
    } else {
        Fault::Device(None)
    }
}

/// What it makes of a stream that wasn't filtered to its end, where `input` and `output` are the errors of its devices.
fn fault_of(fault: OfflineFault, input: io::Error, output: io::Error) -> Fault
    ensures { result ≡ offline_fault_of input output fault }
{
    match fault {
        OfflineFault::Read | OfflineFault::Turns => Fault::failed(Place::Input, input),
        OfflineFault::Write { .. } => Fault::failed(Place::Output, output),
        OfflineFault::AuditWrite => Fault::Device(None),
        OfflineFault::Framing(why) => Fault::Framing(why),
        OfflineFault::Mediator(why) => Fault::from(why),
        OfflineFault::Cut => Fault::Cut,
    }
}
