//! Devices over readers and writers that do less than they are asked, or fail: most by an interruption, which std's own calls
//! try again, and a `Device` does not.
use octet_io::{Device, Failed, Sink, Source, WriteStopped, write_all};
use std::alloc::{AllocError, Global};
use std::io::ErrorKind::{BrokenPipe, Interrupted};
use std::io::{BufWriter, ErrorKind, Write};
use std::process::Abort;
use std::test::Fail;
use test_io::{Narrow, Sparing};

const OCTETS: &[u8] = b"0123456789";

/// Room for what a test writes.
const ROOM: usize = 16;

/// A device whose writer takes at most `most` octets a call, and fails after `calls` calls.
fn narrow(
    alloc: Global,
    most: usize,
    calls: usize,
    failure: ErrorKind,
) -> Result<Device<Narrow>, AllocError> {
    Ok(Device::new(Narrow::new(alloc, ROOM, most, calls, failure)?))
}

/// That a device has failed or not, and holds these octets.
fn holds(rt: &impl Abort, device: Device<Narrow>, wanted: &[u8], failed: bool) {
    assert!(rt; device.has_failed() == failed);
    let writer = device.into_inner();
    assert!(rt; writer.octets.as_slice() == wanted);
}

/// That the write of all `octets` answers `wanted`: all were written, or how many were sent before it stopped.
fn expect_written<S: Sink>(
    rt: &impl Abort,
    sink: &mut S,
    octets: &[u8],
    wanted: Result<(), WriteStopped>,
) {
    let answer = write_all(sink, octets);
    assert!(rt; answer == wanted);
}

#[test]
fn one_octet_at_a_time(rt: HostRuntime) -> Result<(), Fail> {
    let mut device = narrow(rt.alloc(), 1, 10, Interrupted)?;
    expect_written(&rt, &mut device, OCTETS, Ok(()));
    holds(&rt, device, OCTETS, false);
    Ok(())
}

#[test]
fn none_taken(rt: HostRuntime) -> Result<(), Fail> {
    let mut device = narrow(rt.alloc(), 0, 5, Interrupted)?;
    assert!(rt; device.write(&[]) == Ok(0));
    expect_written(&rt, &mut device, &[], Ok(()));
    assert!(rt; !device.has_failed());
    expect_written(&rt, &mut device, OCTETS, Err(WriteStopped { sent: 0 }));
    holds(&rt, device, &[], true);
    Ok(())
}

/// That a write of one octet at a time stops after `sent` octets.
fn expect_stopped(rt: &impl Abort, alloc: Global, sent: usize) -> Result<(), Fail> {
    let mut device = narrow(alloc, 1, sent, Interrupted)?;
    expect_written(rt, &mut device, OCTETS, Err(WriteStopped { sent }));
    holds(rt, device, OCTETS.get(..sent).ok_or("sent")?, true);
    Ok(())
}

#[test]
fn each_write_fails(rt: HostRuntime) -> Result<(), Fail> {
    for sent in 0..10 {
        expect_stopped(&rt, rt.alloc(), sent)?;
    }
    Ok(())
}

#[test]
fn write_after_a_failure(rt: HostRuntime) -> Result<(), Fail> {
    let mut device = narrow(rt.alloc(), 4, 1, Interrupted)?;
    expect_written(&rt, &mut device, OCTETS, Err(WriteStopped { sent: 4 }));
    assert!(rt; device.write(b"more") == Ok(4));
    holds(&rt, device, b"0123more", true);
    Ok(())
}

/// That a read of at most `room` octets, sixteen at most, gives the octets `wanted`.
fn expect_read<S: Source>(rt: &impl Abort, source: &mut S, room: usize, wanted: &[u8]) {
    let mut buffer = [0u8; ROOM];
    let answer = source.read(&mut buffer[..room.min(ROOM)]);
    assert!(rt; answer == Ok(wanted.len()));
    assert!(rt; buffer.get(..wanted.len()) == Some(wanted));
}

/// That a device which is read three octets at a time fails after `calls` calls.
fn expect_failed_read(rt: &impl Abort, calls: usize) {
    let mut device = Device::new(Sparing::new(OCTETS, 3, calls, Interrupted));
    let mut buffer = [0u8; 7];
    for _ in 0..calls {
        assert!(rt; device.read(&mut buffer) == Ok(3));
    }
    assert!(rt; !device.has_failed());
    assert!(rt; device.read(&mut buffer) == Err(Failed));
    assert!(rt; device.has_failed());
    let left = device.into_inner().rest;
    assert!(rt; Some(left) == OCTETS.get(calls.saturating_mul(3)..));
}

#[test]
fn each_read_fails(rt: HostRuntime) {
    for calls in 0..4 {
        expect_failed_read(&rt, calls);
    }
}

#[test]
fn seven_octets_at_a_time(rt: HostRuntime) {
    let mut device = Device::new(Sparing::new(OCTETS, 7, 4, Interrupted));
    expect_read(&rt, &mut device, 16, b"0123456");
    expect_read(&rt, &mut device, 16, b"789");
    expect_read(&rt, &mut device, 16, b"");
    expect_read(&rt, &mut device, 0, b"");
    assert!(rt; !device.has_failed());
}

/// What a buffer holds back is written when it is flushed.
#[test]
fn flush_fails(rt: HostRuntime) -> Result<(), Fail> {
    let writer = Narrow::new(rt.alloc(), ROOM, 10, 0, BrokenPipe)?;
    let mut device = Device::new(BufWriter::with_capacity(rt.alloc(), ROOM, writer)?);
    expect_written(&rt, &mut device, OCTETS, Ok(()));
    assert!(rt; !device.has_failed());
    assert!(rt; device.flush() == Err(Failed));
    assert!(rt; device.has_failed());
    Ok(())
}

fn write_text(device: &mut Device<Narrow>) -> Result<(), Failed> {
    writeln!(device, "{} octets", 10)
}

/// That a text isn't written where the write after `calls` calls fails.
fn expect_failed_text(rt: &impl Abort, alloc: Global, calls: usize) -> Result<(), Fail> {
    let mut device = narrow(alloc, 4, calls, BrokenPipe)?;
    assert!(rt; write_text(&mut device) == Err(Failed));
    assert!(rt; device.has_failed());
    Ok(())
}

/// A text is written piece by piece, here by three writes; one that fails is the end of it.
#[test]
fn each_write_of_a_text_fails(rt: HostRuntime) -> Result<(), Fail> {
    for calls in 0..3 {
        expect_failed_text(&rt, rt.alloc(), calls)?;
    }
    let mut device = narrow(rt.alloc(), 4, 3, BrokenPipe)?;
    assert!(rt; write_text(&mut device) == Ok(()));
    holds(&rt, device, b"10 octets\n", false);
    Ok(())
}

#[test]
fn over_memory(rt: HostRuntime) -> Result<(), Fail> {
    expect_read(&rt, &mut Device::new(OCTETS), ROOM, OCTETS);
    let mut sink = Device::new(Vec::with_capacity(rt.alloc(), ROOM)?);
    expect_written(&rt, &mut sink, OCTETS, Ok(()));
    assert!(rt; sink.flush() == Ok(()));
    assert!(rt; sink.into_inner().as_slice() == OCTETS);
    Ok(())
}

#[test]
fn error_texts(rt: HostRuntime) -> Result<(), Fail> {
    let mut text = String::with_capacity(rt.alloc(), 32)?;
    write!(text, "{} {}", Failed, WriteStopped { sent: 3 })?;
    assert!(rt; text.as_str() == "Failed WriteStopped");
    Ok(())
}
