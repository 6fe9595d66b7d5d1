// The verdict on a history, found by one thread.
ghost use Rattle.std.specs.Prelude.{◌≤◌, IfOk};
ghost use Rattle.events.specs.Operations.{operations};
ghost use Rattle.judge.specs.Shown.{IsShown};
ghost use Rattle.judge.specs.Exact.{IsExactVerdict};
ghost use Rattle.search.specs.Limits.{budget_limit};

use crate::conclusion::conclude;
use crate::verdict::Verdict;
use cutter::cut;
use events::{History, Memory};
use pool::{OpenGate, search_alone};
use std::alloc::Global;

/// Judges a history: searches its segments one by one by rising key, each for at most `budget`
/// configurations. The verdict is no if a segment has no order, and names the lowest one. Otherwise
/// it is undecided if a search needs more than the budget, and names the lowest such segment.
/// Otherwise it is yes, with the merged orders of all segments. If memory runs out, that is an
/// error and no verdict. It costs what the cut, the searches and the merge cost.
pub fn judge_alone(alloc: Global, history: &History, budget: u32) -> Result<Verdict, Memory>
    requires { (1 ≤ budget) × (budget ≤ budget_limit) }
    ensures shown { IfOk result (IsShown history.now.start budget (operations history.now.events)) }
    ensures exact { IfOk result (IsExactVerdict history.now.start budget (operations history.now.events)) }
{
    let segments = cut(alloc, history)?;
    let answers = search_alone(alloc, &segments, budget, &OpenGate)?;
    conclude(alloc, history, budget, segments, answers)
}
