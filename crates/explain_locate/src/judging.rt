// Where a history goes wrong: by the judge, and after an undecided verdict by the monitor.
ghost use Rattle.std.specs.Prelude.{◌≤◌, length, IfOk};
ghost use Rattle.events.specs.Operations.{operations};
ghost use Rattle.judge.specs.Exact.{IsExactVerdict};
ghost use Rattle.judge.specs.Shown.{IsShown};
ghost use Rattle.explain_locate.specs.Bisections.{IsJudgedWhole, IsNo};
ghost use Rattle.explain_locate.specs.Locations.{IsLocated};
ghost use Rattle.orders.specs.Orders.{IsLinearizableHistory};
ghost use Rattle.search.specs.Limits.{budget_limit};

use crate::bisecting::{bisect, number_of};
use crate::location::Location;
use crate::passing::follow;
use events::{History, Memory};
use judge::{Verdict, judge_alone};
use std::alloc::Global;

/// Finds the event at which a history goes wrong. If a history has an order, so do its first
/// events. So a history without order loses it at one event, which is an answer. The judge's
/// verdicts on first events find it. If one of these is undecided at the budget, the monitor of
/// streams looks for it. Out of memory is an error and decides nothing. It costs at most 14
/// verdicts, and a pass of the events through the monitor.
pub fn locate(alloc: Global, history: &History, budget: u32) -> Result<Location, Memory>
    requires { (1 ≤ budget) × (budget ≤ budget_limit) }
    ensures { IfOk result (IsLocated budget history.now) }
{
    let verdict = judge_alone(alloc, history, budget)?;
    locate_from(alloc, history, &verdict, budget)
}

/// Finds the event at which a history goes wrong, from the judge's verdict on the history.
pub fn locate_from(
    alloc: Global,
    history: &History,
    verdict: &Verdict,
    budget: u32,
) -> Result<Location, Memory>
    requires budget { (1 ≤ budget) × (budget ≤ budget_limit) }
    requires shown { IsShown history.now.start budget (operations history.now.events) verdict.now }
    requires exact { IsExactVerdict history.now.start budget (operations history.now.events)
        verdict.now }
    ensures { IfOk result (IsLocated budget history.now) }
{
    match verdict {
        Verdict::Yes(_) => Ok(Location::Yes),
        Verdict::No(_) => locate_refuted(alloc, history, budget),
        Verdict::Undecided(_) => follow(alloc, history, budget),
    }
}

/// Finds the event at which a history goes wrong, if the judge refutes it.
fn locate_refuted(alloc: Global, history: &History, budget: u32) -> Result<Location, Memory>
    requires budget { (1 ≤ budget) × (budget ≤ budget_limit) }
    requires refuted { IsJudgedWhole IsNo budget history.now }
    requires none { IsLinearizableHistory history.now → ⊥ }
    ensures { IfOk result (IsLocated budget history.now) }
{
    match bisect(alloc, history, 0, history.events().len(), budget)? {
        Some(event) => Ok(Location::No {
            event,
            number: number_of(history, event),
        }),
        None => follow(alloc, history, budget),
    }
}
