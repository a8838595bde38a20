//! Tests of the devices, with bytes and counts written by hand.
use crate::{
    Gate, MemSink, MemSource, NoGate, ReadFailed, ReaderSource, Sink, Source, SureSink, SureSource,
    WriteFault, WriterSink, put_all,
};
use std::alloc::AllocError;
use std::io::{Error, ErrorKind, Read, Write};

/// A writer whose flush is interrupted a given number of times.
#[derive(Drop)]
struct FlushedLate {
    times: u32,
}

impl Write for FlushedLate {
    fn write(&mut self, piece: &[u8]) -> Result<usize, Error> {
        Ok(piece.len())
    }

    fn flush(&mut self) -> Result<(), Error> {
        if self.times == 0 {
            return Ok(());
        }
        self.times -= 1;
        Err(Error::from(ErrorKind::Interrupted))
    }
}

/// A reader and a writer that are interrupted a given number of times before each call, and then fail or not.
#[derive(Drop)]
struct Interrupted {
    times: u32,
    fails: bool,
    calls: u32,
}

impl Read for Interrupted {
    fn read(&mut self, into: &mut [u8]) -> Result<usize, Error> {
        self.calls = self.calls.saturating_add(1);
        if self.calls <= self.times {
            return Err(Error::from(ErrorKind::Interrupted));
        }
        if self.fails {
            return Err(Error::from(ErrorKind::BrokenPipe));
        }
        match into.first_mut() {
            Some(first) => {
                *first = 7;
                Ok(1)
            }
            None => Ok(0),
        }
    }
}

impl Write for Interrupted {
    fn write(&mut self, piece: &[u8]) -> Result<usize, Error> {
        self.calls = self.calls.saturating_add(1);
        if self.calls <= self.times {
            return Err(Error::from(ErrorKind::Interrupted));
        }
        if self.fails {
            return Err(Error::from(ErrorKind::BrokenPipe));
        }
        Ok(piece.len())
    }

    fn flush(&mut self) -> Result<(), Error> {
        Ok(())
    }
}

/// A writer that takes two bytes at each call, only once those before were flushed; its flush may fail.
#[derive(Drop)]
struct Held {
    waits: bool,
    is_full: bool,
}

impl Write for Held {
    fn write(&mut self, piece: &[u8]) -> Result<usize, Error> {
        if self.waits {
            return Err(Error::from(ErrorKind::BrokenPipe));
        }
        self.waits = true;
        Ok(piece.len().min(2))
    }

    fn flush(&mut self) -> Result<(), Error> {
        if self.is_full {
            return Err(Error::from(ErrorKind::BrokenPipe));
        }
        self.waits = false;
        Ok(())
    }
}

#[test]
fn a_source_in_memory_gives_pieces_and_fails_at_its_calls(
    rt: HostRuntime,
) -> Result<(), AllocError> {
    let alloc = rt.alloc();
    let mut source = MemSource::new(
        Vec::from_slice(alloc, &[1u8, 2, 3])?,
        2,
        Vec::from_slice(alloc, &[2u64])?,
    );
    let mut into = [0u8; 8];
    assert_eq!(rt; source.take(&mut into), Ok(2));
    assert_eq!(rt; &into[..2], [1u8, 2].as_slice());
    assert_eq!(rt; source.take(&mut into), Err(ReadFailed));
    assert_eq!(rt; source.take(&mut into), Ok(1));
    assert_eq!(rt; &into[..1], [3u8].as_slice());
    assert_eq!(rt; source.take(&mut into), Ok(0));
    Ok(())
}

#[test]
fn a_failing_sink_keeps_a_prefix(rt: HostRuntime) -> Result<(), AllocError> {
    let alloc = rt.alloc();
    let mut sink = MemSink::new(alloc, 2, Vec::from_slice(alloc, &[3u64])?);
    assert_eq!(rt; put_all(&mut sink, b"abcdef"), Err(WriteFault::Failed));
    assert_eq!(rt; sink.held(), b"abcd".as_slice());
    assert_eq!(rt; put_all(&mut sink, b"xyz"), Ok(()));
    assert_eq!(rt; sink.held(), b"abcdxyz".as_slice());
    Ok(())
}

#[test]
fn sure_devices_move_whole_pieces(rt: HostRuntime) -> Result<(), AllocError> {
    let alloc = rt.alloc();
    let mut source = SureSource::new(Vec::from_slice(alloc, &[1u8, 2, 3])?);
    let mut into = [0u8; 2];
    assert_eq!(rt; source.take(&mut into), Ok(2));
    assert_eq!(rt; source.take(&mut into), Ok(1));
    assert_eq!(rt; source.take(&mut into), Ok(0));
    let mut sink = SureSink::new(alloc);
    assert_eq!(rt; put_all(&mut sink, b"ab"), Ok(()));
    assert_eq!(rt; sink.put(b""), Ok(0));
    assert_eq!(rt; sink.held(), b"ab".as_slice());
    NoGate.pass(3);
    Ok(())
}

#[test]
fn an_interrupted_call_is_tried_64_times(rt: HostRuntime) -> Result<(), AllocError> {
    let mut into = [0u8; 4];
    let mut source = ReaderSource::new(Interrupted {
        times: 63,
        fails: false,
        calls: 0,
    });
    assert_eq!(rt; source.take(&mut into), Ok(1));
    assert_eq!(rt; into[0], 7);
    let mut source = ReaderSource::new(Interrupted {
        times: 64,
        fails: false,
        calls: 0,
    });
    assert_eq!(rt; source.take(&mut into), Err(ReadFailed));
    let mut sink = WriterSink::new(Interrupted {
        times: 63,
        fails: false,
        calls: 0,
    });
    assert_eq!(rt; put_all(&mut sink, b"ab"), Ok(()));
    let mut sink = WriterSink::new(Interrupted {
        times: 64,
        fails: false,
        calls: 0,
    });
    assert_eq!(rt; put_all(&mut sink, b"ab"), Err(WriteFault::Failed));
    Ok(())
}

#[test]
fn an_interrupted_flush_is_tried_64_times(rt: HostRuntime) -> Result<(), AllocError> {
    let mut sink = WriterSink::new(FlushedLate { times: 63 });
    assert_eq!(rt; sink.put(b"ab"), Ok(2));
    let mut sink = WriterSink::new(FlushedLate { times: 64 });
    assert_eq!(rt; sink.put(b"ab"), Err(WriteFault::Failed));
    Ok(())
}

#[test]
fn other_failures_are_not_tried_again(rt: HostRuntime) -> Result<(), AllocError> {
    let mut into = [0u8; 4];
    let mut source = ReaderSource::new(Interrupted {
        times: 0,
        fails: true,
        calls: 0,
    });
    assert_eq!(rt; source.take(&mut into), Err(ReadFailed));
    let mut sink = WriterSink::new(Interrupted {
        times: 0,
        fails: true,
        calls: 0,
    });
    assert_eq!(rt; sink.put(b"ab"), Err(WriteFault::Failed));
    Ok(())
}

#[test]
fn each_put_is_flushed(rt: HostRuntime) -> Result<(), AllocError> {
    let mut sink = WriterSink::new(Held {
        waits: false,
        is_full: false,
    });
    assert_eq!(rt; sink.put(b"abc"), Ok(2));
    assert_eq!(rt; sink.put(b"c"), Ok(1));
    let mut sink = WriterSink::new(Held {
        waits: false,
        is_full: true,
    });
    assert_eq!(rt; sink.put(b"ab"), Err(WriteFault::Failed));
    Ok(())
}
