//! The adapters, over bytes in memory and over a writer that holds what it took until it is
//! flushed.

use byte_streams::{Input, Output, Sink, Source};
use std::io::{self, Write};
use std::process::Abort;

/// Sees that a source gives its first five bytes.
fn gives_five(rt: &impl Abort) {
    let mut source = Input::new(b"bytes in".as_slice());
    let mut room = [0; 5];
    assert_eq!(rt; source.read(&mut room).ok(), Some(5));
    assert_eq!(rt; room.as_slice(), b"bytes".as_slice());
}

#[test]
fn the_adapters_pass_bytes_on(rt: HostRuntime) {
    gives_five(&rt);
    let mut held = Vec::new(rt.alloc());
    let mut sink = Output::new(&mut held);
    assert_eq!(rt; sink.write(b"bytes out").ok(), Some(9));
    drop(sink);
    assert_eq!(rt; held.as_slice(), b"bytes out".as_slice());
}

/// A writer that takes all, and holds it until it is flushed, which may fail.
#[derive(Drop)]
struct Holding {
    held: usize,
    fails: bool,
}

impl Write for Holding {
    fn write(&mut self, piece: &[u8]) -> io::Result<usize> {
        self.held = piece.len();
        Ok(piece.len())
    }

    fn flush(&mut self) -> io::Result<()> {
        if self.fails {
            return Err(io::Error::from(io::ErrorKind::StorageFull));
        }
        self.held = 0;
        Ok(())
    }
}

#[test]
fn each_write_is_flushed_and_a_failing_flush_is_told(rt: HostRuntime) {
    let mut holding = Holding {
        held: 0,
        fails: false,
    };
    let mut sink = Output::new(&mut holding);
    assert_eq!(rt; sink.write(b"bytes out").ok(), Some(9));
    drop(sink);
    assert_eq!(rt; holding.held, 0);
    holding.fails = true;
    let mut sink = Output::new(&mut holding);
    assert!(rt; sink.write(b"bytes out").is_err());
}
