// What a process does with a call.
ghost use Rattle.std.specs.Prelude.{◌≡◌};
ghost use Rattle.art.specs.declared.doing.Doing.TheVariants.{Answered};

use crate::task::Task;
use events::Reply;

/// What a process does with a call.
#[derive(Drop)]
pub enum Doing {
    /// It has no open call.
    Idle,
    /// Its call makes accesses.
    Going(Task),
    /// Its call has this reply, and its response is not yet stamped.
    Answered(Reply),
}

impl Doing {
    /// Its call has this reply.
    pub fn answer(&mut self, reply: Reply)
        ensures { self.new ≡ Answered reply }
    {
        *self = Doing::Answered(reply);
    }
}
