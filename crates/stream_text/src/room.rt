// Bytes in a buffer, and the room after them.
ghost use Rattle.std.specs.Prelude.{◌≡◌, ◌+◌, ◌-◌, ◌<◌, ◌≤◌, Ok, length, take, vec_len, IfOk, OnOk, OnErr};
ghost use Rattle.std.specs.List.{between};
ghost use Rattle.std.specs.Io.KnownBytes.{Consumes, IsAtEnd, Keeps};

use cli_io::{Failed, Source};
use std::alloc::{AllocError, Global};

/// Returns a buffer of this many bytes.
pub fn buffer_of(alloc: Global, size: usize) -> Result<Vec<u8>, AllocError>
    ensures { IfOk result (λ buffer. vec_len buffer ≡ size) }
{
    vec![in alloc; 0u8; size]
}

/// Makes room after the bytes between two places. If there is none, it moves the bytes to the
/// front. Returns their places after that.
pub fn make_room(buffer: &mut [u8], from: usize, to: usize) -> (usize, usize)
    requires order { from ≤ to }
    requires within { to ≤ length buffer.old }
    requires fewer { to - from < length buffer.old }
    ensures order { result.0 ≤ result.1 }
    ensures room { result.1 < length buffer.new }
    ensures same { between result.0 result.1 buffer.new ≡ between from to buffer.old }
{
    if from < to && to < buffer.len() {
        return (from, to);
    }
    buffer.copy_within(from..to, 0);
    (0, to - from)
}

/// Reads once, into the room from a place on. The bytes before that place stay as they are.
pub fn read_after<S: Source>(source: &mut S, buffer: &mut [u8], to: usize) -> Result<usize, Failed>
    requires room { to < length buffer.old }
    requires few { S.failures source.old < u64.MAX }
    ensures before { take to buffer.new ≡ take to buffer.old }
    ensures within { IfOk result (λ count. to + count ≤ length buffer.new) }
    ensures consumed { IfOk result (λ count.
        Consumes (S.remaining source.old) (S.remaining source.new)
        (between to (to + count) buffer.new)) }
    ensures end { result ≡ Ok 0 → IsAtEnd (S.remaining source.new) }
    ensures unread { OnErr result (Keeps (S.remaining source.old) (S.remaining source.new)) }
    ensures counted { OnOk result (S.failures source.new ≡ S.failures source.old) }
    ensures raised { OnErr result (S.failures source.new ≡ S.failures source.old + 1) }
{
    source.read(&mut buffer[to..])
}
