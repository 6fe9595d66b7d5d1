// Sinks of bytes.
ghost use Rattle.std.specs.Prelude.{◌≡◌, ℕ, List, Option, ◌+◌, ◌<◌, ◌≤◌, length, take, IfOk, OnOk, OnErr};
ghost use Rattle.std.specs.Io.KnownBytes.{Appends, Keeps};

use crate::Failed;

/// What bytes are written to.
pub trait Sink {
    // The bytes that were written, if the type knows them.
    ghost written: { Self → Option (List ℕ) };

    // How many calls have failed.
    ghost failures: { Self → ℕ };

    /// Writes some of the first of `bytes`, and returns how many: at least one if there are any.
    fn write(&mut self, bytes: &[u8]) -> Result<usize, Failed>
        requires { failures self.old < u64.MAX }
        ensures within { IfOk result (λ count. count ≤ length bytes.now) }
        ensures progress { 0 < length bytes.now → IfOk result (λ count. 1 ≤ count) }
        ensures appended { IfOk result (λ count.
            Appends (written self.old) (written self.new) (take count bytes.now)) }
        ensures unwritten { OnErr result (Keeps (written self.old) (written self.new)) }

        // Only a call that fails raises the count of failures.
        ensures counted { OnOk result (failures self.new ≡ failures self.old) }
        ensures raised { OnErr result (failures self.new ≡ failures self.old + 1) };
}
