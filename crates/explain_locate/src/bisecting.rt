// The search for an event by the judge's verdicts on the first events of a history.
ghost use Rattle.std.specs.Prelude.{◌≡◌, ◌≤◌, IfOk, IfSome};
ghost use Rattle.events.specs.Operations.{operations};
ghost use Rattle.judge.specs.Exact.{IsExactVerdict};
ghost use Rattle.judge.specs.Shown.{IsShown};
ghost use Rattle.explain_locate.specs.Bisections.{answers_at, IsBisected, IsLostBetween, LosesOrderAt};
ghost use Rattle.follow_monitor.specs.Prefixes.{prefix_of, GoesWrongAt};
ghost use Rattle.search.specs.Limits.{budget_limit};

use crate::beginning::history_up_to;
use events::{History, Memory, Operation};
use follow_monitor::orders_are_lost_at_answers;
use judge::{Verdict, judge_alone};
use std::alloc::Global;

/// Finds the event between `low` and `high` at which a history loses its orders. Its first `low`
/// events have an order, and its first `high` have none. The search is by bisection: a yes on the
/// first events up to the middle leaves the later half, and a no the earlier one. If that verdict
/// is undecided, it returns `None`. It costs at most 13 verdicts.
pub(crate) fn bisect(
    alloc: Global,
    history: &History,
    low: usize,
    high: usize,
    budget: u32,
) -> Result<Option<usize>, Memory>
    requires budget { (1 ≤ budget) × (budget ≤ budget_limit) }
    requires lost { IsLostBetween history.now low high }
    ensures bisected { IfOk result (IsBisected budget history.now low high) }
    ensures loses { IfOk result (λ found. IfSome found (LosesOrderAt history.now)) }
{
    if high - low == 1 {
        return Ok(Some(low));
    }
    let middle = low + (high - low) / 2;
    let verdict = verdict_on_first(alloc, history, middle, budget)?;
    match &verdict {
        Verdict::Yes(_) => bisect(alloc, history, middle, high, budget),
        Verdict::No(_) => bisect(alloc, history, low, middle, budget),
        Verdict::Undecided(_) => Ok(None),
    }
}

/// Returns the judge's verdict on the first `count` events of a history.
fn verdict_on_first(
    alloc: Global,
    history: &History,
    count: usize,
    budget: u32,
) -> Result<Verdict, Memory>
    requires budget { (1 ≤ budget) × (budget ≤ budget_limit) }
    requires count { 1 ≤ count }
    ensures shown { IfOk result (IsShown history.now.start budget
        (operations (prefix_of history.now count).events)) }
    ensures exact { IfOk result (IsExactVerdict history.now.start budget
        (operations (prefix_of history.now count).events)) }
{
    let first = history_up_to(alloc, history, count - 1)?;
    judge_alone(alloc, &first, budget)
}

/// Returns the number of the call that is answered at the event at which a history loses its
/// orders.
pub(crate) fn number_of(history: &History, event: usize) -> usize
    requires { LosesOrderAt history.now event }
    ensures { GoesWrongAt history.now result event }
{
    orders_are_lost_at_answers();
    let calls = history.calls();
    for number in 0..calls.len() {
        if is_answered_at(&calls[number], event) {
            return number;
        }
    }
    unreachable!()
}

/// Returns whether an event is the answer of a call.
fn is_answered_at(call: &Operation, event: usize) -> bool
    ensures { result ≡ answers_at call.now.response event }
{
    match &call.response {
        Some(response) => response.res == event,
        None => false,
    }
}
