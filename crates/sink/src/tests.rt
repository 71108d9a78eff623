// Edges of the two sinks, and what a lender finds in its buffer once the sink is gone.
ghost use Rattle.std.specs.Prelude.{[], ⊤};
ghost use Rattle.sink.specs.Puts.{Keeps};

use crate::{BufferSink, PageSink, Sink};
use refusal::Refusal;
use std::process::Abort;

// Fills a sink to its last byte, and one more is refused.
fn fill<S: Sink>(rt: &impl Abort, sink: &mut S, size: usize, bytes: &[u8]) {
    assert_eq!(rt; sink.counts(), (0, size));
    assert_eq!(rt; sink.put(b""), Ok(()));
    assert_eq!(rt; sink.counts(), (0, size));
    assert!(rt; bytes.len() == size);
    assert!(rt; size >= 2);
    assert_eq!(rt; sink.put(&bytes[0..size - 1]), Ok(()));
    assert_eq!(rt; sink.counts(), (size - 1, 1));
    assert_eq!(rt; sink.put(b"ab"), Err(Refusal::Sink));
    assert_eq!(rt; sink.counts(), (size - 1, 1));
    assert_eq!(rt; sink.put(&bytes[size - 1..size]), Ok(()));
    assert_eq!(rt; sink.counts(), (size, 0));
    assert_eq!(rt; sink.put(b"x"), Err(Refusal::Sink));
    assert_eq!(rt; sink.put(b""), Ok(()));
}

// A sink that takes nothing, and has no memory of its own.
#[derive(Drop)]
struct Closed {}

impl Sink for Closed {
    ghost held = { λ s. [] };

    ghost room = { λ s. 0 };

    ghost leaves = { λ s bytes r s'. ⊤ };

    fn counts(&self) -> (usize, usize) {
        (0, 0)
    }

    fn put(&mut self, bytes: &[u8]) -> Result<(), Refusal> {
        if bytes.is_empty() {
            Ok(())
        } else {
            Err(Refusal::Sink)
        }
    }
}

#[test]
fn a_sink_without_memory(rt: HostRuntime) {
    let mut sink = Closed {};
    assert_eq!(rt; sink.put(b""), Ok(()));
    assert_eq!(rt; sink.put(b"x"), Err(Refusal::Sink));
    assert_eq!(rt; sink.counts(), (0, 0));
}

#[test]
fn a_buffer_filled(rt: HostRuntime) {
    let mut memory = [7u8; 5];
    let mut sink = BufferSink::new(&mut memory);
    fill(&rt, &mut sink, 5, b"<a/>\n");
    assert_eq!(rt; sink.held(), b"<a/>\n".as_slice());
}

#[test]
fn a_buffer_keeps_what_it_does_not_hold(rt: HostRuntime) {
    let mut memory = [7u8; 6];
    {
        let mut sink = BufferSink::new(&mut memory);
        assert_eq!(rt; sink.put(b"<a/>"), Ok(()));
        assert_eq!(rt; sink.put(b"<b/>"), Err(Refusal::Sink));
        assert_eq!(rt; sink.held(), b"<a/>".as_slice());
    }
    assert_eq!(rt; memory, *b"<a/>\x07\x07");
}

// The lender's view: once the sink is gone, its memory holds what the put left.
fn put_once(memory: &mut [u8], bytes: &[u8]) -> Result<(), Refusal>
    ensures memory { Keeps result bytes.now memory.old 0 memory.new }
{
    let mut sink = BufferSink::new(memory);
    sink.put(bytes)
}

#[test]
fn a_lender_gets_it_back(rt: HostRuntime) {
    let mut memory = [7u8; 5];
    assert_eq!(rt; put_once(&mut memory, b"<a/>"), Ok(()));
    assert_eq!(rt; memory, *b"<a/>\x07");
    assert_eq!(rt; put_once(&mut memory, b"<title/>"), Err(Refusal::Sink));
    assert_eq!(rt; memory, *b"<a/>\x07");
}

#[test]
fn no_buffer_at_all(rt: HostRuntime) {
    let mut memory: [u8; 0] = [];
    let mut sink = BufferSink::new(&mut memory);
    assert_eq!(rt; sink.counts(), (0, 0));
    assert_eq!(rt; sink.put(b""), Ok(()));
    assert_eq!(rt; sink.put(b"x"), Err(Refusal::Sink));
}

#[test]
fn pages_filled(rt: HostRuntime) {
    let mut bytes = [0u8; 4096];
    for (i, byte) in bytes.iter_mut().enumerate() {
        *byte = (i % 251) as u8;
    }
    let mut sink = PageSink::new();
    assert_eq!(rt; sink.get(0), None);
    fill(&rt, &mut sink, 4096, &bytes);
    // either side of the first page's end and of the last byte
    assert_eq!(rt; sink.get(255), Some(4));
    assert_eq!(rt; sink.get(256), Some(5));
    assert_eq!(rt; sink.get(4095), Some(79));
    assert_eq!(rt; sink.get(4096), None);
}
