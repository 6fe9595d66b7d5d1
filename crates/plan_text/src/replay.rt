// A replay, as its text spells it.
ghost use Rattle.std.specs.Prelude.{map};
ghost use Rattle.plan_text.specs.Replays.{IsReplay};

use art_core::Item;
use art_rows::{Shape, TreeCall, Variant};

/// What is run, and by which schedule. All of it is within the limits, as opening a machine asks.
#[derive(Drop)]
pub struct Replay {
    /// The turns of the machine's life.
    pub limit: u32,
    /// How many rows the table has of each kind.
    pub shape: Shape,
    /// How the tree keeps its calls apart.
    pub variant: Variant,
    /// The pairs of a key and a value that are in the tree before the first turn, by rising key.
    pub start: Vec<(u64, u64)>,
    /// A script of calls for each process.
    pub scripts: Vec<Vec<TreeCall>>,
    /// Whose turns are made, item after item.
    pub schedule: Vec<Item>,
    pub ghost within: { IsReplay (record {
      limit = limit;
      shape = shape;
      variant = variant;
      start = start.items;
      scripts = map
          (λ script. script.items) scripts.items;
      schedule = schedule.items;
    }) },
}
