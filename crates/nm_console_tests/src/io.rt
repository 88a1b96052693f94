//! Sources and sinks over what Rattle's std reads and writes, those that never fail, and those that move bytes by pieces.

use nm_base::Failed;
use nm_io::{
    MemorySink, MemorySource, ReadAllFault, Sink, Source, StdSink, StdSource, SureSink, SureSource,
    read_all, write_all,
};
use std::alloc::Global;
use std::io;
use std::io::{Read, Write};
use std::test::Fail;

// Moves at most 3 bytes a call. The second call fails.
#[derive(Drop)]
struct Halting<T> {
    inner: T,
    calls: u8,
}

impl<T> Halting<T> {
    fn turn(&mut self, len: usize) -> io::Result<usize> {
        self.calls = self.calls.saturating_add(1);
        if self.calls == 2 {
            return Err(io::Error::from(io::ErrorKind::BrokenPipe));
        }
        Ok(len.min(3))
    }
}

impl<T: Read> Read for Halting<T> {
    fn read(&mut self, buf: &mut [u8]) -> io::Result<usize> {
        let len = self.turn(buf.len())?.min(buf.len());
        self.inner.read(&mut buf[..len])
    }
}

impl<T: Write> Write for Halting<T> {
    fn write(&mut self, buf: &[u8]) -> io::Result<usize> {
        let len = self.turn(buf.len())?.min(buf.len());
        self.inner.write(&buf[..len])
    }

    fn flush(&mut self) -> io::Result<()> {
        Ok(())
    }
}

// Whether a text is read whole where the limit is that long, and else is too long.
fn is_read(alloc: Global, text: &[u8], limit: usize) -> bool {
    match read_all(alloc, &mut StdSource::new(text), limit) {
        Ok(read) => read.as_slice() == text && text.len() <= limit,
        Err(fault) => fault == ReadAllFault::TooLong && limit < text.len(),
    }
}

// Whether a read is answered so, and the piece has these bytes then.
fn is_piece<S: Source>(
    source: &mut S,
    piece: &mut [u8; 8],
    want: Result<usize, Failed>,
    bytes: &[u8; 8],
) -> bool {
    source.read(piece.as_mut_slice()) == want && *piece == *bytes
}

fn is_halting() -> bool {
    let text: &[u8] = b"hello";
    let mut halting = StdSource::new(Halting {
        inner: text,
        calls: 0,
    });
    let mut piece = [0; 8];
    is_piece(&mut halting, &mut piece, Ok(3), b"hel\0\0\0\0\0")
        && is_piece(&mut halting, &mut piece, Err(Failed), b"hel\0\0\0\0\0")
        && is_piece(&mut halting, &mut piece, Ok(2), b"lol\0\0\0\0\0")
        && is_piece(&mut halting, &mut piece, Ok(0), b"lol\0\0\0\0\0")
}

// As many bytes as the limit, one more, one where none may be, and none.
#[test]
fn std_readers_give_their_bytes(rt: HostRuntime) {
    assert!(rt; is_read(rt.alloc(), b"hello", 5) && is_read(rt.alloc(), b"abcd", 3));
    assert!(rt; is_read(rt.alloc(), b"a", 0) && is_read(rt.alloc(), b"", 0));
    assert!(rt; is_halting());
}

fn is_whole_written(alloc: Global) -> bool {
    let mut whole = Vec::new(alloc);
    write_all(&mut StdSink::new(&mut whole), b"hello") == Ok(())
        && whole.as_slice() == b"hello".as_slice()
}

// Writes to a sink that halts once.
fn is_begun(begun: &mut Vec<u8>) -> bool {
    let mut halting = StdSink::new(Halting {
        inner: begun,
        calls: 0,
    });
    write_all(&mut halting, b"hello") == Err(Failed) && write_all(&mut halting, b"lo all") == Ok(())
}

fn is_all_written(alloc: Global) -> bool {
    let mut begun = Vec::new(alloc);
    is_begun(&mut begun) && begun.as_slice() == b"hello all".as_slice()
}

fn is_full() -> bool {
    let mut none: [u8; 0] = [];
    let mut full = StdSink::new(none.as_mut_slice());
    full.write(b"") == Ok(0) && full.write(b"a") == Err(Failed)
}

#[test]
fn std_writers_get_the_bytes(rt: HostRuntime) {
    assert!(rt; is_whole_written(rt.alloc()) && is_all_written(rt.alloc()));
    assert!(rt; is_full());
}

#[test]
fn sure_ones_never_fail(rt: HostRuntime) -> Result<(), Fail> {
    let mut source = SureSource::new(b"hello".to_vec(rt.alloc())?);
    let read = read_all(rt.alloc(), &mut source, 16)?;
    assert!(rt; read.as_slice() == b"hello".as_slice());
    assert!(rt; SureSink::new().write(b"hello") == Ok(5));
    Ok(())
}

// A read gives no more than it is told, and the reads that follow give the rest.
#[test]
fn pieces_are_read(rt: HostRuntime) -> Result<(), Fail> {
    let text = b"hello".to_vec(rt.alloc())?;
    let mut source = MemorySource::in_pieces(text, Vec::new(rt.alloc()), 2);
    let mut piece = [0; 8];
    assert!(rt; is_piece(&mut source, &mut piece, Ok(2), b"he\0\0\0\0\0\0"));
    let rest = read_all(rt.alloc(), &mut source, 16)?;
    assert!(rt; rest.as_slice() == b"llo".as_slice());
    Ok(())
}

// A write takes no more than it is told, and the writes that follow take the rest.
#[test]
fn pieces_are_written(rt: HostRuntime) -> Result<(), Fail> {
    let mut sink = MemorySink::in_pieces(rt.alloc(), 8, Vec::new(rt.alloc()), 2)?;
    assert!(rt; sink.write(b"hello") == Ok(2));
    assert!(rt; write_all(&mut sink, b"llo") == Ok(()));
    assert!(rt; sink.taken() == b"hello".as_slice());
    Ok(())
}
