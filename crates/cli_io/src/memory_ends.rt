//! Sources and sinks in memory, for tests. Their calls move a few bytes at a time, and one call
//! fails.
ghost use Rattle.std.specs.Prelude.{◌≡◌, ◌↔◌, ◌<◌, ◌≤◌, ◌+◌, ◌++◌, [], None, Some, Ok, IsTrue, IsErr, min, length, take, drop, vec_len};
ghost use Rattle.std.specs.Prelude.{IfOk, OnErr};
ghost use Rattle.cli_io.specs.MemoryEnd.{MemoryEnd, after_call};

use crate::{Failed, Sink, Source};
use std::marker::Model;

/// A source of the bytes that it was made with.
#[derive(Drop)]
pub struct MemorySource {
    bytes: Vec<u8>,
    at: usize,
    most: usize,
    fails_in: Option<u64>,
    failures: u64,
}

impl Model for MemorySource {
    ghost Value = { MemoryEnd };

    ghost view = { λ source. record {
      bytes = drop source.at source.bytes.items;
      most = source.most;
      fails_in = source.fails_in;
      failures = source.failures;
    } };

    ghost invariant = { λ source. (source.at ≤ vec_len source.bytes) × (0 < source.most) };
}

impl MemorySource {
    /// Returns a source that returns at most `most` bytes in a call. If `fails_in` is a number, one
    /// call fails: the one after so many calls.
    pub fn new(bytes: Vec<u8>, most: usize, fails_in: Option<u64>) -> Self
        requires { 0 < most }
        ensures { result ≡ record { bytes = bytes.items; most = most; fails_in = fails_in; failures = 0 } }
    {
        MemorySource {
            bytes,
            at: 0,
            most,
            fails_in,
            failures: 0,
        }
    }

    /// Returns the bytes that are still to come.
    pub fn bytes(&self) -> &[u8]
        ensures { result.now ≡ self.now.bytes }
    {
        &self.bytes[self.at..]
    }

    /// Returns how many calls have failed.
    pub fn failures(&self) -> u64
        ensures { result ≡ self.now.failures }
    {
        self.failures
    }
}

impl Source for MemorySource {
    ghost remaining = { λ source. Some source.bytes };

    ghost failures = { λ source. source.failures };

    fn read(&mut self, buffer: &mut [u8]) -> Result<usize, Failed>
        requires { self.old.failures < u64.MAX }
        ensures fails { IsErr result ↔ (self.old.fails_in ≡ Some 0) }
        ensures count { IfOk result (λ count.
            count ≡ min self.old.most (min (length self.old.bytes) (length buffer.old))) }
        ensures copied { IfOk result (λ count. take count buffer.new ≡ take count self.old.bytes) }
        ensures end { result ≡ Ok 0 → 0 < length buffer.new → self.new.bytes ≡ [] }
        ensures rest { IfOk result (λ count. self.new ≡ record self.old {
          bytes = drop count self.old.bytes;
          fails_in = after_call self.old.fails_in;
        }) }
        ensures err { OnErr result (self.new ≡ record self.old {
          fails_in = None;
          failures = self.old.failures + 1;
        }) }
    {
        if is_due(&mut self.fails_in) {
            self.failures += 1;
            return Err(Failed);
        }
        let count = copy_front(&self.bytes[self.at..], buffer, self.most);
        self.at += count;
        Ok(count)
    }
}

/// A sink that stores the bytes that are written to it, after those that it was made with.
#[derive(Drop)]
pub struct MemorySink {
    bytes: Vec<u8>,
    most: usize,
    fails_in: Option<u64>,
    failures: u64,
}

impl Model for MemorySink {
    ghost Value = { MemoryEnd };

    ghost view = { λ sink. record {
      bytes = sink.bytes.items;
      most = sink.most;
      fails_in = sink.fails_in;
      failures = sink.failures;
    } };

    ghost invariant = { λ sink. 0 < sink.most };
}

impl MemorySink {
    /// Returns a sink that stores what is written after these bytes. It takes at most `most` bytes
    /// in a call. If `fails_in` is a number, one call fails: the one after so many calls. A call
    /// also fails if it needs more memory and gets none.
    pub fn new(bytes: Vec<u8>, most: usize, fails_in: Option<u64>) -> Self
        requires { 0 < most }
        ensures { result ≡ record { bytes = bytes.items; most = most; fails_in = fails_in; failures = 0 } }
    {
        MemorySink {
            bytes,
            most,
            fails_in,
            failures: 0,
        }
    }

    /// Returns the bytes that the sink was made with, and then those that were written.
    pub fn bytes(&self) -> &[u8]
        ensures { result.now ≡ self.now.bytes }
    {
        &self.bytes
    }

    /// Returns how many calls have failed.
    pub fn failures(&self) -> u64
        ensures { result ≡ self.now.failures }
    {
        self.failures
    }
}

impl Sink for MemorySink {
    ghost written = { λ sink. Some sink.bytes };

    ghost failures = { λ sink. sink.failures };

    fn write(&mut self, bytes: &[u8]) -> Result<usize, Failed>
        requires { self.old.failures < u64.MAX }
        ensures fails { self.old.fails_in ≡ Some 0 → IsErr result }
        ensures count { IfOk result (λ count. count ≡ min self.old.most (length bytes.now)) }
        ensures progress { 0 < length bytes.now → IfOk result (λ count. 1 ≤ count) }
        ensures grown { IfOk result (λ count. self.new ≡ record self.old {
          bytes = self.old.bytes ++ take count bytes.now;
          fails_in = after_call self.old.fails_in;
        }) }
        ensures err { OnErr result (self.new ≡ record self.old {
          fails_in = after_call self.old.fails_in;
          failures = self.old.failures + 1;
        }) }
    {
        let count = self.most.min(bytes.len());
        if is_due(&mut self.fails_in) || self.bytes.extend_from_slice(&bytes[..count]).is_err() {
            self.failures += 1;
            return Err(Failed);
        }
        Ok(count)
    }
}

// Copies the first bytes, as many as both sides have and at most `most`. Returns how many.
fn copy_front(from: &[u8], to: &mut [u8], most: usize) -> usize
    ensures count { result ≡ min most (min (length from.now) (length to.old)) }
    ensures copied { take result to.new ≡ take result from.now }
{
    let count = most.min(from.len()).min(to.len());
    to[..count].copy_from_slice(&from[..count]);
    count
}

// Counts a call, and returns whether it is the one that fails.
fn is_due(fails_in: &mut Option<u64>) -> bool
    ensures due { IsTrue result ↔ (fails_in.old ≡ Some 0) }
    ensures counted { fails_in.new ≡ after_call fails_in.old }
{
    match *fails_in {
        Some(0) => {
            *fails_in = None;
            true
        }
        Some(calls) => {
            *fails_in = Some(calls - 1);
            false
        }
        None => false,
    }
}
