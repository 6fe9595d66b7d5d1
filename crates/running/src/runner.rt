// A process as a thread runs it.
ghost use Rattle.std.specs.Prelude.{◌≡◌, false};
ghost use Rattle.art.specs.Doings.{is_late};

use art::Doing;
use events::Event;

/// A process: how many calls it may still begin, what it is doing, and its events with their
/// stamps.
#[derive(Drop)]
pub struct Runner {
    pub left: u32,
    pub doing: Doing,
    pub log: Vec<(u64, Event)>,
    ghost unanswered: { is_late doing ≡ false },
}
