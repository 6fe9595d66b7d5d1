// Processes on one vector of words. The caller says which of them makes the next step.
ghost use Rattle.std.specs.Prelude.{◌≡◌, ◌≤◌, length};
ghost use Rattle.art_rows.specs.Table.{table_words};
ghost use Rattle.machine.specs.Fitting.{AreFor};
ghost use Rattle.machine.specs.UnderWay.{IsUnderWay};

use crate::runner::Runner;
use art::{Shape, Variant};

/// The core under way: the words of the table, the pairs that were in it at the start, the processes, and the turns that are
/// left.
#[derive(Drop)]
pub struct Machine {
    pub(crate) shape: Shape,
    pub(crate) variant: Variant,
    pub(crate) start: Vec<(u64, u64)>,
    pub(crate) left: u32,
    pub(crate) words: Vec<u64>,
    pub(crate) runners: Vec<Runner>,
    ghost root: { 1 ≤ shape.rows256 },
    ghost long: { length words.items ≡ table_words shape },
    ghost few: { length runners.items ≤ 64 },
    ghost tasks: { ∥ AreFor shape runners.items ∥₁ },
    ghost under_way: { ∥ IsUnderWay shape variant start.items left words.items runners.items ∥₁ },
}
