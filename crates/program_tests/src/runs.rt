//! Runs of the top call over a source and a sink in memory.
ghost use Rattle.std.specs.Prelude.{◌<◌};

use byte_streams::{MemSink, MemSource};
use continuity_run::continuity;
use program_ends::Status;
use std::alloc::Global;
use std::process::Abort;

/// How a source and a sink work.
#[derive(Clone, Copy)]
pub struct Streams {
    /// The most bytes that the source gives a call.
    pub gives: usize,
    /// The most bytes that the sink takes a call.
    pub takes: usize,
    /// The numbers of the read, of the write and of the write of nothing that fail; 0 is the number
    /// of none.
    pub fail: [u64; 3],
}

/// The words of a command line.
fn words_of(rt: &impl Abort, alloc: Global, words: &[&str]) -> Vec<String> {
    let mut owned = Vec::new(alloc);
    for word in words {
        let word = String::from_str(alloc, word).expect(rt, "memory");
        owned.push(word).expect(rt, "memory");
    }
    owned
}

fn alone(rt: &impl Abort, alloc: Global, number: u64) -> Vec<u64> {
    Vec::from_array(alloc, [number]).expect(rt, "memory")
}

fn source(rt: &impl Abort, alloc: Global, text: &str, read: u64, most: usize) -> MemSource
    requires { 0 < most }
{
    let bytes = text.as_bytes().to_vec(alloc).expect(rt, "memory");
    MemSource::new(bytes, alone(rt, alloc, read), most)
}

fn sink(rt: &impl Abort, alloc: Global, write: u64, nothing: u64, most: usize) -> MemSink
    requires { 0 < most }
{
    let fail = alone(rt, alloc, write);
    MemSink::new(alloc, fail, alone(rt, alloc, nothing), most)
}

/// How a run of these words over this text ends, and its sink.
pub fn ended(
    rt: &impl Abort,
    alloc: Global,
    words: &[&str],
    text: &str,
    streams: Streams,
) -> (Status, MemSink) {
    let Streams { gives, takes, fail } = streams;
    let [read, write, nothing] = fail;
    assert!(rt; gives > 0 && takes > 0);
    let words = words_of(rt, alloc, words);
    let mut source = source(rt, alloc, text, read, gives);
    let mut sink = sink(rt, alloc, write, nothing, takes);
    let status = continuity(alloc, words.as_slice(), &mut source, &mut sink);
    (status, sink)
}

/// The status of such a run, and how many bytes its sink then holds.
pub fn ends(
    rt: &impl Abort,
    alloc: Global,
    words: &[&str],
    text: &str,
    streams: Streams,
) -> (u8, usize) {
    let (status, sink) = ended(rt, alloc, words, text, streams);
    (status.number(), sink.bytes().len())
}
