// Reading a source to its end.
ghost use Rattle.std.specs.Prelude.{◌≡◌, ◌+◌, ◌<◌, ◌≤◌, ◌++◌, Ok, take, length, vec_len, IfOk, OnOk, OnErr, IfSome, IsErrOf};
ghost use Rattle.std.specs.Io.KnownBytes.{Consumes, IsAtEnd};
ghost use Rattle.cli_io.specs.Progress.{ConsumesAtMost};

use crate::{ReadFault, Source};
use std::alloc::Global;

// The most bytes that one read may return.
const CHUNK: usize = 65_536;

/// Reads to the end, or until there are `limit` bytes. The time is linear in the bytes read.
pub fn read_up_to<S: Source>(
    alloc: Global,
    source: &mut S,
    limit: usize,
) -> Result<Vec<u8>, ReadFault>
    requires { S.failures source.old < u64.MAX }
    ensures bytes { IfOk result (λ bytes. IfSome (S.remaining source.old) (λ input.
        bytes.items ≡ take limit input)) }
    ensures within { IfOk result (λ bytes. vec_len bytes ≤ limit) }
    ensures consumed { IfOk result (λ bytes.
        Consumes (S.remaining source.old) (S.remaining source.new) bytes.items) }
    ensures stopped { OnErr result (ConsumesAtMost limit (S.remaining source.old) (S.remaining source.new)) }

    // The count of failures rises exactly if the result is that a read failed.
    ensures counted { OnOk result (S.failures source.new ≡ S.failures source.old) }
    ensures memory { IsErrOf result ReadFault.Memory → S.failures source.new ≡ S.failures source.old }
    ensures raised { IsErrOf result ReadFault.Failed → S.failures source.new ≡ S.failures source.old + 1 }
{
    let mut chunk = vec![in alloc; 0u8; CHUNK.min(limit)]?;
    let mut bytes = Vec::new(alloc);
    while bytes.len() < limit {
        let room = chunk.len().min(limit - bytes.len());
        let count = read_once(source, &mut chunk[..room], &mut bytes)?;
        if count == 0 {
            break;
        }
    }
    Ok(bytes)
}

// Reads once into `chunk`, and appends the bytes that were read to `bytes`.
fn read_once<S: Source>(
    source: &mut S,
    chunk: &mut [u8],
    bytes: &mut Vec<u8>,
) -> Result<usize, ReadFault>
    requires { S.failures source.old < u64.MAX }
    ensures within { IfOk result (λ count. count ≤ length chunk.new) }
    ensures bytes { IfOk result (λ count. bytes.new.items ≡ bytes.old.items ++ take count chunk.new) }
    ensures consumed { IfOk result (λ count.
        Consumes (S.remaining source.old) (S.remaining source.new) (take count chunk.new)) }
    ensures end { result ≡ Ok 0 → 0 < length chunk.new → IsAtEnd (S.remaining source.new) }
    ensures stopped { OnErr result (ConsumesAtMost (length chunk.old) (S.remaining source.old) (S.remaining source.new)) }

    ensures counted { OnOk result (S.failures source.new ≡ S.failures source.old) }
    ensures memory { IsErrOf result ReadFault.Memory → S.failures source.new ≡ S.failures source.old }
    ensures raised { IsErrOf result ReadFault.Failed → S.failures source.new ≡ S.failures source.old + 1 }
{
    let count = source.read(chunk)?;
    bytes.extend_from_slice(&chunk[..count])?;
    Ok(count)
}
