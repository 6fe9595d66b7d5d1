// Writing bytes whole.
ghost use Rattle.std.specs.Prelude.{◌≡◌, ◌+◌, ◌<◌, OnOk, OnErr};
ghost use Rattle.std.specs.Io.KnownBytes.{Appends};
ghost use Rattle.cli_io.specs.Progress.{AppendsBeginning};

use crate::{Failed, Sink};

/// Writes all of `bytes`, in as many calls as the sink needs. If a call fails, only a beginning of
/// the bytes was written.
pub fn write_whole<K: Sink>(sink: &mut K, bytes: &[u8]) -> Result<(), Failed>
    requires { K.failures sink.old < u64.MAX }
    ensures written { OnOk result (Appends (K.written sink.old) (K.written sink.new) bytes.now) }
    ensures part { OnErr result (AppendsBeginning (K.written sink.old) (K.written sink.new) bytes.now) }
    ensures counted { OnOk result (K.failures sink.new ≡ K.failures sink.old) }
    ensures raised { OnErr result (K.failures sink.new ≡ K.failures sink.old + 1) }
{
    let mut done = 0;
    while done < bytes.len() {
        done += sink.write(&bytes[done..])?;
    }
    Ok(())
}
