// A process as a machine runs it.
ghost use Rattle.std.specs.Prelude.{◌≡◌, ◌≤◌, false, vec_len};
ghost use Rattle.art.specs.Doings.{is_late};

use art::{Doing, TreeCall};
use events::Event;

/// A process: its script, how many calls of it were begun and how many are finished, what it is doing, and its events with
/// their stamps.
#[derive(Drop)]
pub struct Runner {
    pub script: Vec<TreeCall>,
    pub begun: usize,
    pub finished: usize,
    pub doing: Doing,
    pub log: Vec<(u64, Event)>,
    ghost few: { finished ≤ vec_len log },
    ghost unanswered: { is_late doing ≡ false },
}
