// Sources of bytes.
ghost use Rattle.std.specs.Prelude.{◌≡◌, ℕ, List, Option, Ok, ◌+◌, ◌<◌, ◌≤◌, length, take, IfOk, OnOk, OnErr};
ghost use Rattle.std.specs.Io.KnownBytes.{Consumes, IsAtEnd, Keeps};

use crate::Failed;

/// What bytes are read from.
pub trait Source {
    // The bytes that are still to come, if the type knows them.
    ghost remaining: { Self → Option (List ℕ) };

    // How many calls have failed.
    ghost failures: { Self → ℕ };

    /// Stores some of the bytes to come at the beginning of `buffer`, and returns how many: at
    /// least one if there is room and the end is not reached.
    fn read(&mut self, buffer: &mut [u8]) -> Result<usize, Failed>
        requires { failures self.old < u64.MAX }
        ensures within { IfOk result (λ count. count ≤ length buffer.new) }
        ensures consumed { IfOk result (λ count.
            Consumes (remaining self.old) (remaining self.new) (take count buffer.new)) }
        ensures end { result ≡ Ok 0 → 0 < length buffer.new → IsAtEnd (remaining self.new) }
        ensures unread { OnErr result (Keeps (remaining self.old) (remaining self.new)) }

        // Only a call that fails raises the count of failures.
        ensures counted { OnOk result (failures self.new ≡ failures self.old) }
        ensures raised { OnErr result (failures self.new ≡ failures self.old + 1) };
}
