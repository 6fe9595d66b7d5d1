// Bytes that were read and are not yet returned as lines, in memory that is allocated once.
ghost use Rattle.std.specs.Prelude.{◌≡◌, ◌+◌, ◌<◌, ◌≤◌, [], Ok, length, take, drop, IfOk, OnOk, OnErr};
ghost use Rattle.std.specs.Io.KnownBytes.{IsAtEnd, Keeps};
ghost use Rattle.stream_text.specs.LineLimits.{line_limit};
ghost use Rattle.stream_text.specs.LineBuffers.{GrowsBy};

use crate::MAX_LINE;
use crate::room::{buffer_of, make_room, read_after};
use cli_io::{Failed, Source};
use std::alloc::{AllocError, Global};
use std::marker::Model;

/// Twice the longest line. So a move to the front never takes more bytes than were read since the
/// last move.
const ROOM: usize = 2 * MAX_LINE;

/// A line that was read, and the bytes after it. Contracts see the two lists.
#[derive(Drop)]
pub struct LineBuffer {
    buffer: Vec<u8>,
    line: usize,
    line_end: usize,
    from: usize,
    to: usize,
}

impl Model for LineBuffer {
    ghost use Rattle.std.specs.Prelude.{◌≡◌, ◌≤◌, vec_len};
    ghost use Rattle.std.specs.List.{between};
    ghost use Rattle.stream_text.specs.LineBuffers.{LineBufferView};

    ghost Value = { LineBufferView };

    ghost view = { λ w. record { line = between w.line w.line_end w.buffer.items; bytes = between w.from w.to w.buffer.items } };

    ghost invariant = { λ w.
        (w.line ≤ w.line_end) × (w.line_end ≤ 2097152) × (w.from ≤ w.to) × (w.to ≤ 2097152) × (vec_len w.buffer ≡ 2097152) };
}

impl LineBuffer {
    /// Returns a buffer without bytes.
    pub fn new(alloc: Global) -> Result<LineBuffer, AllocError>
        ensures { IfOk result (λ w. w ≡ record { line = []; bytes = [] }) }
    {
        let buffer = buffer_of(alloc, ROOM)?;
        Ok(LineBuffer {
            buffer,
            line: 0,
            line_end: 0,
            from: 0,
            to: 0,
        })
    }

    /// Returns the line.
    pub fn line(&self) -> &[u8]
        ensures { result.now ≡ self.now.line }
    {
        &self.buffer[self.line..self.line_end]
    }

    /// Returns the bytes after the line.
    pub fn bytes(&self) -> &[u8]
        ensures { result.now ≡ self.now.bytes }
    {
        &self.buffer[self.from..self.to]
    }

    /// Drops the line. The bytes after it stay.
    pub fn forget_line(&mut self)
        ensures { self.new ≡ record { line = []; bytes = self.old.bytes } }
    {
        self.line_end = self.line;
    }

    /// Makes the first `count` bytes the line. Drops them from the bytes, with the next byte if
    /// there is one.
    pub fn split_line(&mut self, count: usize)
        requires { count ≤ length self.old.bytes }
        ensures { self.new ≡ record { line = take count self.old.bytes; bytes = drop (count + 1) self.old.bytes } }
    {
        self.line = self.from;
        self.line_end = self.from + count;
        self.from = self.to.min(self.line_end + 1);
    }

    /// Reads once, and appends to the bytes. Afterwards there is no line.
    pub fn fill<S: Source>(&mut self, source: &mut S) -> Result<usize, Failed>
        requires room { length self.old.bytes ≤ line_limit }
        requires few { S.failures source.old < u64.MAX }
        ensures no_line { self.new.line ≡ [] }
        ensures grown { IfOk result (λ count.
            GrowsBy (S.remaining source.old) (S.remaining source.new) self.old.bytes self.new.bytes
            count) }
        ensures end { result ≡ Ok 0 → IsAtEnd (S.remaining source.new) }
        ensures same { OnErr result (self.new.bytes ≡ self.old.bytes) }
        ensures unread { OnErr result (Keeps (S.remaining source.old) (S.remaining source.new)) }
        ensures counted { OnOk result (S.failures source.new ≡ S.failures source.old) }
        ensures raised { OnErr result (S.failures source.new ≡ S.failures source.old + 1) }
    {
        let (from, to) = make_room(&mut self.buffer, self.from, self.to);
        self.line = 0;
        self.line_end = 0;
        self.from = from;
        self.to = to;
        let count = read_after(source, &mut self.buffer, to)?;
        self.to = to + count;
        Ok(count)
    }
}
