// Who makes a verdict on a history: this thread, or calls of a function that may use others.
ghost use Rattle.std.specs.Prelude.{◌≤◌, ⊤};
ghost use Rattle.std.specs.Fn.{FnReturnsAt};
ghost use Rattle.judge.specs.Judging.{AnswersVerdict, JudgesExactly};
ghost use Rattle.search.specs.Limits.{budget_limit};

use crate::alone::judge_alone;
use crate::verdict::Verdict;
use events::{History, Memory};
use std::alloc::Global;

/// Makes verdicts on histories, each by searches of at most as many configurations as its budget.
/// Code that needs a verdict takes a `Judge`, and so does not know of threads.
pub trait Judge {
    ghost use Rattle.std.specs.Prelude.{◌≡◌, ◌≤◌, ℕ, IfOk, OnOk};
    ghost use Rattle.events.specs.HistoryView.{HistoryView};
    ghost use Rattle.events.specs.Operations.{operations};
    ghost use Rattle.judge.specs.Exact.{IsExactVerdict};
    ghost use Rattle.judge.specs.Shown.{IsShown};
    ghost use Rattle.search.specs.Limits.{budget_limit};

    // The judge may be asked.
    ghost ready: { Self → Type 0 };

    // Its budget.
    ghost budget: { Self → ℕ };

    // The judge was asked for the verdict on this history.
    ghost was_asked: { Self → HistoryView → Type 0 };

    /// Returns the budget of its searches.
    fn budget(&self) -> u32
        ensures budget { result ≡ budget self.now }
        ensures within { (1 ≤ result) × (result ≤ budget_limit) };

    /// Judges a history, as `judge_alone` does at this budget.
    fn verdict_on(&self, history: &History) -> Result<Verdict, Memory>
        requires { ready self.now }
        ensures shown { IfOk result (IsShown history.now.start (budget self.now) (operations history.now.events)) }
        ensures exact { IfOk result (IsExactVerdict history.now.start (budget self.now) (operations history.now.events)) }
        ensures asked { OnOk result (was_asked self.now history.now) };
}

/// This thread judges: no other is started, and nobody is waited for.
#[derive(Drop)]
pub struct OneThread {
    pub alloc: Global,
    pub budget: u32,
    pub ghost within: { (1 ≤ budget) × (budget ≤ budget_limit) },
}

impl Judge for OneThread {
    ghost ready = { λ _. ⊤ };

    ghost budget = { λ it. it.budget };

    ghost was_asked = { λ _ _. ⊤ };

    fn budget(&self) -> u32 {
        self.budget
    }

    fn verdict_on(&self, history: &History) -> Result<Verdict, Memory> {
        judge_alone(self.alloc, history, self.budget)
    }
}

/// A judge that calls a function, which has to answer as `judge` and `judge_alone` do at this
/// budget.
#[derive(Drop)]
pub struct ByCalls<F> {
    pub budget: u32,
    pub answer: F,
    pub ghost within: { (1 ≤ budget) × (budget ≤ budget_limit) },
}

impl<F: Fn(&History) -> Result<Verdict, Memory>> Judge for ByCalls<F> {
    ghost ready = { λ it. F.IsAlwaysCallable it.answer × JudgesExactly it.budget (FnReturnsAt F.Fn it.answer) };

    ghost budget = { λ it. it.budget };

    ghost was_asked = { λ it history. AnswersVerdict (FnReturnsAt F.Fn it.answer) history };

    fn budget(&self) -> u32 {
        self.budget
    }

    fn verdict_on(&self, history: &History) -> Result<Verdict, Memory> {
        (self.answer)(history)
    }
}
