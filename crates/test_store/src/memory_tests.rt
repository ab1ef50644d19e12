//! Sources and sinks in memory, which fail at listed calls, or at none.

use base_io::{
    Failed, MemSink, MemSource, Sink, SinkFault, Source, SureSink, SureSource, read_at_most,
    write_all,
};

#[test]
fn a_source_in_memory_fails_at_the_listed_calls(rt: HostRuntime) {
    let bytes = Vec::from_slice(rt.alloc(), b"abcde").expect(&rt, "memory");
    let failing = Vec::from_slice(rt.alloc(), &[1, 3]).expect(&rt, "memory");
    let mut source = MemSource::new(bytes, 2, failing);
    let mut buffer = [0; 4];
    assert_eq!(rt; source.read(&mut buffer), Ok(2));
    assert!(rt; buffer == *b"ab\0\0");
    assert_eq!(rt; source.read(&mut buffer), Err(Failed));
    assert_eq!(rt; source.read(&mut buffer), Ok(2));
    assert!(rt; buffer == *b"cd\0\0");
    assert_eq!(rt; source.read(&mut buffer), Err(Failed));
    assert_eq!(rt; source.read(&mut buffer), Ok(1));
    assert!(rt; buffer == *b"ed\0\0");
    assert_eq!(rt; source.read(&mut buffer), Ok(0));
}

#[test]
fn a_sink_in_memory_fails_at_the_listed_calls(rt: HostRuntime) {
    let failing = Vec::from_slice(rt.alloc(), &[1, 3]).expect(&rt, "memory");
    let mut sink = MemSink::new(rt.alloc(), failing);
    assert_eq!(rt; write_all(&mut sink, b"ab"), Ok(()));
    assert_eq!(rt; write_all(&mut sink, b"cd"), Err(SinkFault::Failed));
    assert_eq!(rt; write_all(&mut sink, b"ef"), Ok(()));
    assert_eq!(rt; sink.flush(), Err(Failed));
    assert_eq!(rt; sink.flush(), Ok(()));
    assert!(rt; sink.bytes() == b"abef".as_slice());
}

#[test]
fn sure_forms_give_and_take_all(rt: HostRuntime) {
    let bytes = Vec::from_slice(rt.alloc(), b"abcd").expect(&rt, "memory");
    let mut source = SureSource::new(bytes, 3);
    let mut sink = SureSink::new(rt.alloc());
    let mut buffer = [0; 4];
    assert_eq!(rt; read_at_most(&mut source, &mut buffer, 2), Ok(2));
    assert!(rt; buffer == *b"ab\0\0");
    assert_eq!(rt; read_at_most(&mut source, &mut buffer, 4), Ok(2));
    assert!(rt; buffer == *b"cd\0\0");
    assert_eq!(rt; read_at_most(&mut source, &mut buffer, 4), Ok(0));
    assert_eq!(rt; write_all(&mut sink, b"ab"), Ok(()));
    assert_eq!(rt; write_all(&mut sink, b"c"), Ok(()));
    assert_eq!(rt; sink.flush(), Ok(()));
    assert!(rt; sink.bytes() == b"abc".as_slice());
}
