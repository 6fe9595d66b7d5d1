// What one process records with.
ghost use Rattle.std.specs.Prelude.{◌≡◌, ◌+◌, ◌*◌, map, length};
ghost use Rattle.tickets.specs.Hands.{drawn_by, left_of};
ghost use Rattle.recorder.specs.Records.{IsRecord};

use events::Event;
use tickets::Hand;

/// The part of one process in a [`Recorder`](crate::Recorder): its number, the draws of its calls,
/// and its events with their stamps. If a pass is dropped, its recorder cannot be closed.
#[derive(Drop)]
pub struct Pass {
    pub(crate) process: u8,
    pub(crate) calls: u32,
    pub(crate) begun: u32,
    pub(crate) has_open: bool,
    pub(crate) log: Vec<(u64, Event)>,
    pub(crate) hand: Hand,
    ghost recorded: { IsRecord process calls begun has_open log.items },
    ghost stamps: { drawn_by hand ≡ map (λ e. e.0) log.items },
    ghost draws: { length log.items + left_of hand ≡ 2 * calls },
}

impl Pass {
    ghost use Rattle.recorder.specs.Passes.{process_number};

    /// Returns the number of the process that records with the pass.
    pub fn process(&self) -> u8
        ensures { result ≡ process_number self.now }
    {
        self.process
    }
}
