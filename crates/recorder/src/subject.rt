// What is recorded: an index of a caller's own.
ghost use Rattle.std.specs.Prelude.{◌≡◌, ◌≤◌};
ghost use Rattle.events.specs.Histories.{pair_count};
ghost use Rattle.events.specs.Limits.{pair_limit};

use events::{Call, Reply};

/// An index on which threads call side by side. Of its answers nothing is known, except what its
/// own contract says, and that no reply is too long.
pub trait Subject {
    ghost use Rattle.events.specs.declared.event.Call.{Call};
    ghost use Rattle.events.specs.declared.event.Reply.{Reply};

    // Which replies it may give to a call.
    ghost may_answer: { Self → Call → Reply → Type 0 };

    /// Does the call and answers it.
    fn call(&self, call: &Call) -> Reply
        ensures short { pair_count result ≤ pair_limit }
        ensures answer { may_answer self.now call.now result };
}
