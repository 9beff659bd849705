//! A source and a sink in memory, whose calls can be made to fail.
ghost use Rattle.std.specs.Prelude.{◌≡◌, ◌<◌, ◌≤◌, ◌↔◌, Some, [], length, vec_len, IfOk, OnOk, IsTrue, is_err};
ghost use Rattle.std.specs.Io.{ReadsAtMost, WritesAtMost};
ghost use Rattle.std.specs.Io.KnownBytes.{ReadConsumes, WriteAppends};
ghost use Rattle.byte_streams.specs.Causes.{AddsFront, HasCause, NothingHasCause};

use crate::outside::{Failed, Sink, Source};
use std::alloc::Global;

/// Bytes in memory, given in order. Its count of faults begins at 0.
#[derive(Drop)]
pub struct MemSource {
    bytes: Vec<u8>,
    at: usize,
    fail: Vec<u64>,
    most: usize,
    calls: u64,
    faults: u64,
    ghost within: { at ≤ vec_len bytes },
    ghost some: { 0 < most },
}

impl MemSource {
    ghost use Rattle.byte_streams.specs.Memory.{left_in, read_faults, reading_of};

    /// `fail` lists the calls, numbered from 1, that are to fail; `most` is the greatest number of
    /// bytes for a call.
    pub fn new(bytes: Vec<u8>, fail: Vec<u64>, most: usize) -> MemSource
        requires { 0 < most }
        ensures left { left_in result ≡ bytes.items }
        ensures faults { read_faults result ≡ 0 }
        ensures reading { reading_of result ≡ record { calls = 0; fail = fail.items; most = most } }
    {
        MemSource {
            bytes,
            at: 0,
            fail,
            most,
            calls: 0,
            faults: 0,
        }
    }
}

impl Source for MemSource {
    ghost use Rattle.byte_streams.specs.Memory.{left_in, read_faults, reading_of, read_once, FailsNextRead, next_read};

    ghost left = { λ s. Some (left_in s) };

    ghost faults = { read_faults };

    /// As `Source` says. It fails exactly where its number is to fail, and else gives as many bytes
    /// as there is room for, as are left, and as a call may give.
    fn read(&mut self, into: &mut [u8]) -> Result<usize, Failed>
        requires { 0 < length into.old }
        ensures bound { ReadsAtMost result into.new }
        ensures bytes { ReadConsumes (Some (left_in self.old)) (Some (left_in self.new)) result
            into.new }
        ensures cause { HasCause (read_faults self.old) (read_faults self.new) result }
        ensures kept { OnOk result (read_faults self.new ≡ read_faults self.old) }
        ensures counted { reading_of self.new ≡ read_once (reading_of self.old) }
        ensures fails { IsTrue (is_err result) ↔ FailsNextRead (reading_of self.old) }
        ensures count { IfOk result (λ n.
            n ≡ next_read (reading_of self.old) (left_in self.old) (length into.old)) }
    {
        self.calls = self.calls.saturating_add(1);
        if self.fail.contains(&self.calls) {
            self.faults = self.faults.saturating_add(1);
            return Err(Failed);
        }
        let count = into.len().min(self.most).min(self.bytes.len() - self.at);
        into[..count].copy_from_slice(&self.bytes[self.at..self.at + count]);
        self.at += count;
        Ok(count)
    }
}

/// Bytes kept in memory. Its count of faults begins at 0.
#[derive(Drop)]
pub struct MemSink {
    bytes: Vec<u8>,
    fail: Vec<u64>,
    nothing: Vec<u64>,
    most: usize,
    calls: u64,
    faults: u64,
    ghost some: { 0 < most },
}

impl MemSink {
    ghost use Rattle.byte_streams.specs.Memory.{held_in, write_faults, writing_of};

    /// `fail` lists the calls, numbered from 1, that are to fail, and `nothing` those that are to
    /// take nothing; `most` is the greatest number of bytes for a call.
    pub fn new(alloc: Global, fail: Vec<u64>, nothing: Vec<u64>, most: usize) -> MemSink
        requires { 0 < most }
        ensures held { held_in result ≡ [] }
        ensures faults { write_faults result ≡ 0 }
        ensures writing { writing_of result
            ≡ record { calls = 0; fail = fail.items; nothing = nothing.items; most = most } }
    {
        MemSink {
            bytes: Vec::new(alloc),
            fail,
            nothing,
            most,
            calls: 0,
            faults: 0,
        }
    }

    /// The bytes held.
    pub fn bytes(&self) -> &[u8]
        ensures { result.now ≡ held_in self.now }
    {
        self.bytes.as_slice()
    }
}

impl Sink for MemSink {
    ghost use Rattle.byte_streams.specs.Memory.{held_in, write_faults, writing_of, written_once, FailsNextWrite, IsNextWrite};

    ghost held = { λ s. Some (held_in s) };

    ghost faults = { write_faults };

    /// As `Sink` says. It fails where its number is to fail, or memory is refused; and else takes
    /// nothing where its number is to take nothing, or as many bytes as a call may take.
    fn write(&mut self, piece: &[u8]) -> Result<usize, Failed>
        ensures bound { WritesAtMost result piece.now }
        ensures bytes { AddsFront (Some (held_in self.old)) (Some (held_in self.new)) result
            piece.now }
        ensures cause { HasCause (write_faults self.old) (write_faults self.new) result }
        ensures nothing { NothingHasCause (write_faults self.old) (write_faults self.new) result
            piece.now }
        ensures exactly { WriteAppends (Some (held_in self.old)) (Some (held_in self.new)) result
            piece.now }
        ensures counted { writing_of self.new ≡ written_once (writing_of self.old) }
        ensures fails { FailsNextWrite (writing_of self.old) → IsTrue (is_err result) }
        ensures count { IfOk result (IsNextWrite (writing_of self.old) piece.now) }
    {
        self.calls = self.calls.saturating_add(1);
        if self.fail.contains(&self.calls) {
            self.faults = self.faults.saturating_add(1);
            return Err(Failed);
        }
        if self.nothing.contains(&self.calls) {
            self.faults = self.faults.saturating_add(1);
            return Ok(0);
        }
        let count = piece.len().min(self.most);
        if self.bytes.extend_from_slice(&piece[..count]).is_err() {
            self.faults = self.faults.saturating_add(1);
            return Err(Failed);
        }
        Ok(count)
    }
}
