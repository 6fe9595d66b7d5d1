// What workers call before a segment, and processes before a script.
ghost use Rattle.std.specs.Prelude.{⊤};

/// What a worker calls before it searches a segment, or a process before it does its script. All
/// workers, or all processes, share it. Calls on a shared value have no order, so no clause counts
/// them. Only the gate itself can say what was passed. So code that takes any gate can show that a
/// segment was passed only by entering there.
pub trait Gate {
    ghost use Rattle.std.specs.Prelude.{ℕ};

    // The gate was passed for the segment or the script of this number.
    ghost was_passed: { Self → ℕ → Type 0 };

    /// The worker will now search the segment at this place of the list, or the process of this
    /// number will do its script.
    fn enter(&self, segment: usize)
        ensures { was_passed self.now segment };
}

/// A gate that does nothing.
#[derive(Clone, Copy)]
pub struct OpenGate;

impl Gate for OpenGate {
    ghost was_passed = { λ _ _. ⊤ };

    fn enter(&self, _segment: usize) {}
}
