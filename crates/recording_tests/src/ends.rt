// Streams over memory, and over readers and writers that fail.
use cli_io::memory_ends::{MemorySink, MemorySource};
use cli_io::{Failed, ReadFault, ReaderSource, Sink, Source, WriterSink, read_up_to, write_whole};
use std::io;
use std::io::{Error, ErrorKind, Read, Write};
use std::test::Fail;

const TEXT: &[u8] = b"linearizable";

// Five bytes at a time the text takes three reads, and the fourth finds the end.
#[test]
fn each_read_fails_in_turn(rt: HostRuntime) -> Result<(), Fail> {
    let alloc = rt.alloc();
    for fails_in in 0..6 {
        let mut source = MemorySource::new(TEXT.to_vec(alloc)?, 5, Some(fails_in));
        match read_up_to(alloc, &mut source, 100) {
            Ok(bytes) => assert!(rt; fails_in > 3 && bytes.as_slice() == TEXT),
            Err(fault) => assert!(rt; fails_in < 4 && fault == ReadFault::Failed),
        }
        assert!(rt; source.failures() == u64::from(fails_in < 4));
    }
    Ok(())
}

// Five bytes at a time the text takes three writes.
#[test]
fn each_write_fails_in_turn(rt: HostRuntime) -> Result<(), Fail> {
    for fails_in in 0..5 {
        let mut sink = MemorySink::new(Vec::new(rt.alloc()), 5, Some(fails_in));
        let is_whole = write_whole(&mut sink, TEXT).is_ok();
        let written = TEXT.len().min(5 * fails_in as usize);
        assert!(rt; is_whole == (fails_in > 2) && sink.bytes() == &TEXT[..written]);
        assert!(rt; sink.failures() == u64::from(fails_in < 3));
    }
    Ok(())
}

// What is written to no sink is dropped; what is written to a sink arrives there.
#[test]
fn a_sink_may_be_left_out(rt: HostRuntime) -> Result<(), Fail> {
    let mut none: Option<MemorySink> = None;
    assert!(rt; write_whole(&mut none, TEXT).is_ok() && none.is_none());
    let mut some = Some(MemorySink::new(Vec::new(rt.alloc()), 5, Some(1)));
    assert!(rt; write_whole(&mut some, TEXT).is_err());
    match &some {
        Some(sink) => assert!(rt; sink.bytes() == &TEXT[..5] && sink.failures() == 1),
        None => assert!(rt; false),
    }
    Ok(())
}

// A stream that a signal interrupts, then works once, and then is broken.
#[derive(Drop)]
struct Flaky {
    calls: u64,
}

impl Flaky {
    fn next(&mut self) -> io::Result<()> {
        self.calls = self.calls.saturating_add(1);
        match self.calls {
            1 => Err(Error::from(ErrorKind::Interrupted)),
            2 => Ok(()),
            _ => Err(Error::from(ErrorKind::BrokenPipe)),
        }
    }
}

impl Read for Flaky {
    fn read(&mut self, buffer: &mut [u8]) -> io::Result<usize> {
        self.next()?;
        let mut text = TEXT;
        text.read(buffer)
    }
}

impl Write for Flaky {
    fn write(&mut self, bytes: &[u8]) -> io::Result<usize> {
        self.next()?;
        Ok(bytes.len())
    }

    fn flush(&mut self) -> io::Result<()> {
        Ok(())
    }
}

#[test]
fn readers_are_sources(rt: HostRuntime) -> Result<(), Fail> {
    let mut flaky = ReaderSource::new(Flaky { calls: 0 });
    let mut buffer = [0; 12];
    assert!(rt; flaky.read(&mut buffer) == Ok(12) && buffer.as_slice() == TEXT);
    assert!(rt; flaky.read(&mut buffer) == Err(Failed) && flaky.failures() == 1);
    Ok(())
}

#[test]
fn writers_are_sinks(rt: HostRuntime) -> Result<(), Fail> {
    let mut flaky = WriterSink::new(Flaky { calls: 0 });
    assert!(rt; flaky.write(TEXT) == Ok(TEXT.len()));
    assert!(rt; flaky.write(TEXT) == Err(Failed) && flaky.failures() == 1);
    Ok(())
}
