use crate::table::assert_same;
use sg_edge::{PutError, Sink, Source, StdSink, StdSource};
use std::alloc::{AllocError, Global};
use std::io;
use std::io::{ErrorKind, Read, Write};
use std::test::Fail;

fn push_bytes(told: &mut String, bytes: &[u8]) -> Result<(), Fail> {
    let taken = str::from_utf8(bytes)?;
    write!(told, "[{taken}]")?;
    Ok(())
}

// Takes once into four bytes, and tells those taken between brackets, or `-` where the call failed.
fn push_taken<S: Source>(told: &mut String, source: &mut S) -> Result<(), Fail> {
    let mut into = [0u8; 4];
    match source.take(&mut into) {
        Ok(count) => push_bytes(told, &into[..count]),
        Err(_) => Ok(told.push_str("-")?),
    }
}

fn taken<S: Source>(alloc: Global, source: &mut S, times: u8) -> Result<String, Fail> {
    let mut told = String::new(alloc);
    for _ in 0..times {
        push_taken(&mut told, source)?;
    }
    Ok(told)
}

// Fails at its first read, then gives its bytes, one a read.
#[derive(Drop)]
struct FailsFirst {
    failed: bool,
    bytes: &'static [u8],
}

impl Read for FailsFirst {
    fn read(&mut self, buf: &mut [u8]) -> io::Result<usize> {
        if !self.failed {
            self.failed = true;
            return Err(ErrorKind::Other.into());
        }
        if self.bytes.is_empty() || buf.is_empty() {
            return Ok(0);
        }
        buf[0] = self.bytes[0];
        self.bytes = &self.bytes[1..];
        Ok(1)
    }
}

#[test]
fn a_source_over_a_reader_hands_on_its_answers(rt: HostRuntime) -> Result<(), Fail> {
    let mut source = StdSource::new(FailsFirst {
        failed: false,
        bytes: b"ab",
    });
    let told = taken(rt.alloc(), &mut source, 5)?;
    assert_same(&rt, told.as_str(), "-[a][b][][]");
    Ok(())
}

fn push_put(told: &mut String, put: Result<usize, PutError>) -> Result<(), AllocError> {
    match put {
        Ok(count) => write!(told, "{count} "),
        Err(PutError::Failed) => told.push_str("- "),
        Err(PutError::Memory) => told.push_str("no memory "),
    }
}

// Puts pieces with blanks between them, and tells how many bytes of each were put, or `-`.
fn put<S: Sink>(alloc: Global, sink: &mut S, pieces: &str) -> Result<String, AllocError> {
    let mut told = String::new(alloc);
    for piece in pieces.split(' ') {
        push_put(&mut told, sink.put(piece.as_bytes()))?;
    }
    Ok(told)
}

// Fails at its first write, takes 0 bytes at its second, and then one at each.
#[derive(Drop)]
struct TakesLate {
    writes: u8,
}

impl Write for TakesLate {
    fn write(&mut self, buf: &[u8]) -> io::Result<usize> {
        self.writes = self.writes.saturating_add(1);
        match self.writes {
            1 => Err(ErrorKind::Other.into()),
            2 => Ok(0),
            _ => Ok(buf.len().min(1)),
        }
    }

    fn flush(&mut self) -> io::Result<()> {
        Ok(())
    }
}

#[test]
fn a_sink_over_a_writer_hands_on_its_answers(rt: HostRuntime) -> Result<(), Fail> {
    let mut sink = StdSink::new(TakesLate { writes: 0 });
    let told = put(rt.alloc(), &mut sink, "abc abc abc ")?;
    // It fails, takes none, takes one, and takes an empty piece.
    assert_same(&rt, told.as_str(), "- - 1 0 ");
    Ok(())
}
