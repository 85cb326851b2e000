//! Tests of a sink that holds bytes for another sink.
use crate::expecting::{expect_bytes, expect_number};
use crate::faulty::{FaultySink, NEVER, SinkFault};
use rv_bench::{DeviceFault, Sink};
use rv_streams::BufferedSink;
use std::process::Abort;

/// Writes two parts. Expects that both are held.
fn expect_held<W: Sink>(rt: &impl Abort, sink: &mut BufferedSink<W>) {
    assert!(rt; sink.write_some(b"one ") == Ok(4));
    assert!(rt; sink.write_some(b"two") == Ok(3));
}

/// Expects these bytes in a sink, and this number of calls.
fn expect_taken(rt: &impl Abort, sink: &FaultySink, bytes: &[u8], calls: u64) {
    expect_bytes(rt, sink.bytes(), bytes, 0);
    expect_number(rt, sink.calls(), calls, 0);
}

#[test]
fn bytes_are_held(rt: HostRuntime) {
    let mut buffer = [0u8; 16];
    let other = FaultySink::new(&mut buffer, 16, NEVER, SinkFault::Fail);
    let mut sink = BufferedSink::new(other);
    expect_held(&rt, &mut sink);
    expect_taken(&rt, &sink.into_sink(), b"", 0);
}

#[test]
fn bytes_are_passed_on_in_one_call(rt: HostRuntime) {
    let mut buffer = [0u8; 16];
    let other = FaultySink::new(&mut buffer, 16, NEVER, SinkFault::Fail);
    let mut sink = BufferedSink::new(other);
    expect_held(&rt, &mut sink);
    assert!(rt; sink.pass_on() == Ok(()));
    assert!(rt; sink.pass_on() == Ok(()));
    expect_taken(&rt, &sink.into_sink(), b"one two", 1);
}

#[test]
fn flush_passes_bytes_on_and_flushes(rt: HostRuntime) {
    let mut buffer = [0u8; 16];
    let other = FaultySink::new(&mut buffer, 16, NEVER, SinkFault::Fail);
    let mut sink = BufferedSink::new(other);
    expect_held(&rt, &mut sink);
    assert!(rt; sink.flush() == Ok(()));
    expect_taken(&rt, &sink.into_sink(), b"one two", 2);
}

/// Passes bytes on to a sink that takes three bytes in a call, and fails or takes none in the second call. Expects that the rest is still held.
fn expect_rest_held(rt: &impl Abort, sink_fault: SinkFault) {
    let mut buffer = [0u8; 16];
    let mut sink = BufferedSink::new(FaultySink::new(&mut buffer, 3, 2, sink_fault));
    expect_held(rt, &mut sink);
    assert!(rt; sink.pass_on() == Err(DeviceFault));
    assert!(rt; sink.write_some(b"!") == Ok(1));
    assert!(rt; sink.pass_on() == Ok(()));
    expect_taken(rt, &sink.into_sink(), b"one two!", 4);
}

#[test]
fn bytes_that_were_not_taken_are_held(rt: HostRuntime) {
    expect_rest_held(&rt, SinkFault::Fail);
    expect_rest_held(&rt, SinkFault::TakeNothing);
}

#[test]
fn bytes_without_room_are_passed_on(rt: HostRuntime) {
    let mut buffer = [0u8; 9000];
    let other = FaultySink::new(&mut buffer, 9000, NEVER, SinkFault::Fail);
    let mut sink = BufferedSink::new(other);
    for part in [[b'a'; 3000], [b'b'; 3000], [b'c'; 3000]] {
        assert!(rt; sink.write_some(part.as_slice()) == Ok(3000));
    }
    let other = sink.into_sink();
    expect_number(&rt, other.calls(), 1, 0);
    expect_number(&rt, other.bytes().len() as u64, 6000, 0);
}
