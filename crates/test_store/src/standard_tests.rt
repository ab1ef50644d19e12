//! Sources and sinks over readers and writers of `std`, of which calls are interrupted or fail.

use base_io::{Failed, Sink, SinkFault, Source, StdSink, StdSource, read_at_most, write_all};
use std::io;
use std::io::{ErrorKind, Read, Write};

/// Each call is interrupted once before it is made, and the second that is made fails.
#[derive(Drop)]
struct Rough {
    calls: u8,
}

impl Rough {
    fn call(&mut self) -> io::Result<()> {
        self.calls = self.calls.saturating_add(1);
        match self.calls {
            2 => Ok(()),
            4 => Err(ErrorKind::BrokenPipe.into()),
            _ => Err(ErrorKind::Interrupted.into()),
        }
    }
}

/// Has no memory for what is written.
#[derive(Drop)]
struct Full;

impl Write for Full {
    fn write(&mut self, _piece: &[u8]) -> io::Result<usize> {
        Err(ErrorKind::OutOfMemory.into())
    }

    fn flush(&mut self) -> io::Result<()> {
        Ok(())
    }
}

impl Read for Rough {
    fn read(&mut self, into: &mut [u8]) -> io::Result<usize> {
        self.call()?;
        if into.is_empty() {
            return Ok(0);
        }
        into[0] = b'a';
        Ok(1)
    }
}

impl Write for Rough {
    fn write(&mut self, piece: &[u8]) -> io::Result<usize> {
        self.call()?;
        Ok(piece.len().min(1))
    }

    fn flush(&mut self) -> io::Result<()> {
        self.call()
    }
}

#[test]
fn a_slice_is_read_to_its_end(rt: HostRuntime) {
    let bytes: &[u8] = b"abc";
    let mut source = StdSource::new(bytes);
    let mut buffer = [0; 4];
    assert_eq!(rt; read_at_most(&mut source, &mut buffer, 2), Ok(2));
    assert!(rt; buffer == *b"ab\0\0");
    assert_eq!(rt; source.read(&mut buffer), Ok(1));
    assert!(rt; buffer == *b"cb\0\0");
    assert_eq!(rt; source.read(&mut buffer), Ok(0));
}

#[test]
fn a_vector_is_written(rt: HostRuntime) {
    let mut bytes = Vec::new(rt.alloc());
    let mut sink = StdSink::new(&mut bytes);
    assert_eq!(rt; write_all(&mut sink, b"ab"), Ok(()));
    assert_eq!(rt; write_all(&mut sink, b"c"), Ok(()));
    assert_eq!(rt; sink.flush(), Ok(()));
    assert!(rt; bytes.as_slice() == b"abc".as_slice());
}

#[test]
fn a_read_that_is_interrupted_is_made_again_and_one_that_fails_is_told(rt: HostRuntime) {
    let mut reader = Rough { calls: 0 };
    let mut source = StdSource::new(&mut reader);
    let mut buffer = [0; 2];
    assert_eq!(rt; source.read(&mut buffer), Ok(1));
    assert!(rt; buffer == *b"a\0");
    assert_eq!(rt; source.read(&mut buffer), Err(Failed));
    assert_eq!(rt; reader.calls, 4);
}

#[test]
fn a_write_that_is_interrupted_is_made_again_and_one_that_fails_is_told(rt: HostRuntime) {
    let mut writer = Rough { calls: 0 };
    let mut sink = StdSink::new(&mut writer);
    assert_eq!(rt; sink.write(b"ab"), Ok(1));
    assert_eq!(rt; write_all(&mut sink, b"b"), Err(SinkFault::Failed));
    assert_eq!(rt; writer.calls, 4);
}

#[test]
fn a_flush_that_is_interrupted_is_made_again_and_one_that_fails_is_told(rt: HostRuntime) {
    let mut writer = Rough { calls: 0 };
    let mut sink = StdSink::new(&mut writer);
    assert_eq!(rt; sink.flush(), Ok(()));
    assert_eq!(rt; sink.flush(), Err(Failed));
    assert_eq!(rt; writer.calls, 4);
}

#[test]
fn a_write_that_wants_memory_is_no_fault(rt: HostRuntime) {
    let mut sink = StdSink::new(Full);
    assert_eq!(rt; sink.write(b"ab"), Err(SinkFault::NoMemory));
}
