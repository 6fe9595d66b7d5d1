// The verdict on a history, found by workers.
ghost use Rattle.std.specs.Prelude.{◌≤◌, IfOk, OnOk};
ghost use Rattle.events.specs.Operations.{operations};
ghost use Rattle.judge.specs.Shown.{IsShown};
ghost use Rattle.judge.specs.Exact.{IsExactVerdict};
ghost use Rattle.judge.specs.Gates.{WasPassedForEach};
ghost use Rattle.pool.specs.Limits.{worker_limit};
ghost use Rattle.search.specs.Limits.{budget_limit};

use crate::conclusion::conclude;
use crate::verdict::Verdict;
use cutter::cut;
use events::{History, Memory};
use pool::{Gate, search_all};
use std::alloc::Global;
use std::thread::Threads;

/// Judges a history as `judge_alone` does, with this many workers that search its segments side by
/// side. Neither the number of workers nor their turns change the verdict. A worker passes the gate
/// before each segment that it searches.
pub fn judge<R: Threads + Sync, G: Gate + Sync>(
    rt: &R,
    alloc: Global,
    history: &History,
    budget: u32,
    workers: u32,
    gate: &G,
) -> Result<Verdict, Memory>
    requires budget { (1 ≤ budget) × (budget ≤ budget_limit) }
    requires workers { (1 ≤ workers) × (workers ≤ worker_limit) }
    ensures shown { IfOk result (IsShown history.now.start budget (operations history.now.events)) }
    ensures exact { IfOk result (IsExactVerdict history.now.start budget (operations history.now.events)) }
    ensures passed { OnOk result (WasPassedForEach (G.was_passed gate.now) history.now) }
{
    let segments = cut(alloc, history)?;
    let answers = search_all(rt, alloc, &segments, budget, workers, gate)?;
    conclude(alloc, history, budget, segments, answers)
}
