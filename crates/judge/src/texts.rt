// From a history's text to its verdict and the report.
ghost use Rattle.std.specs.Prelude.{◌≡◌, ◌≤◌, IfOk, IfErr, OnOk, string_bytes};
ghost use Rattle.events.specs.HistoryView.{HistoryView};
ghost use Rattle.events.specs.Histories.{IsHistory};
ghost use Rattle.history_text.specs.Texts.{Spells};
ghost use Rattle.judge.specs.declared.fault.JudgeFault.TheVariants as faults;
ghost use Rattle.judge.specs.Gates.{HoldsForText, WasPassedForText};
ghost use Rattle.judge.specs.Judged.{IsJudged, IsUnjudged};
ghost use Rattle.pool.specs.Limits.{worker_limit};
ghost use Rattle.search.specs.Limits.{budget_limit};

use crate::fault::JudgeFault;
use crate::judges::{ByCalls, Judge};
use crate::reports::report;
use crate::verdict::Verdict;
use crate::workers::judge;
use events::History;
use history_text::read_history;
use pool::Gate;
use std::alloc::Global;
use std::thread::Threads;

/// Reads a history's text and judges it as `judge` does. Returns the verdict with its report, or
/// `History` with the text's first fault if it spells no history.
pub fn judge_text<R: Threads + Sync, G: Gate + Sync>(
    rt: &R,
    alloc: Global,
    text: &[u8],
    budget: u32,
    workers: u32,
    gate: &G,
) -> Result<(Verdict, String), JudgeFault>
    requires budget { (1 ≤ budget) × (budget ≤ budget_limit) }
    requires workers { (1 ≤ workers) × (workers ≤ worker_limit) }
    ensures judged { IfOk result (λ answer. IsJudged budget text.now answer.0 (string_bytes answer.1)) }
    ensures refused { IfErr result (IsUnjudged text.now) }
    ensures accepted { (history : HistoryView) → Spells text.now history → IsHistory history
        → IfErr result (λ fault. fault ≡ faults.Memory) }
    ensures passed { OnOk result (WasPassedForText (G.was_passed gate.now) text.now) }
{
    let by_workers = ByCalls {
        budget,
        answer: |history: &History|
            requires budget { (1 ≤ budget) × (budget ≤ budget_limit) }
            requires workers { (1 ≤ workers) × (workers ≤ worker_limit) }
        { judge(rt, alloc, history, budget, workers, gate) },
    };
    judge_text_by(alloc, text, &by_workers)
}

/// Reads a history's text and lets a judge judge it. Every judge gives the answer of `judge_text`.
pub fn judge_text_by<J: Judge>(
    alloc: Global,
    text: &[u8],
    judge: &J,
) -> Result<(Verdict, String), JudgeFault>
    requires { J.ready judge.now }
    ensures judged { IfOk result (λ answer. IsJudged (J.budget judge.now) text.now answer.0 (string_bytes answer.1)) }
    ensures refused { IfErr result (IsUnjudged text.now) }
    ensures accepted { (history : HistoryView) → Spells text.now history → IsHistory history
        → IfErr result (λ fault. fault ≡ faults.Memory) }
    ensures asked { OnOk result (HoldsForText (J.was_asked judge.now) text.now) }
{
    let history = read_history(alloc, text)?;
    let verdict = judge.verdict_on(&history)?;
    let line = report(alloc, &verdict)?;
    Ok((verdict, line))
}
