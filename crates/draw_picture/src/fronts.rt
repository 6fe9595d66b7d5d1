// How far an order gets if there is none, or if none was found.
ghost use Rattle.std.specs.Prelude.{◌≤◌, IfOk};
ghost use Rattle.events.specs.Operations.{operations};
ghost use Rattle.judge.specs.Shown.{IsShown};
ghost use Rattle.draw_picture.specs.Fronts.{IsFrontShown};
ghost use Rattle.draw_picture.specs.Marks.{IsMarkable};
ghost use Rattle.draw_picture.specs.Pictures.{marked};
ghost use Rattle.search.specs.Limits.{budget_limit};

use events::{History, Memory};
use judge::Verdict;
use search::longest_front;
use std::alloc::Global;

/// Returns the front that the picture of a verdict marks like an order: the longest one of the
/// named segment that a search meets; none for a yes. It costs what the search of that segment
/// costs. It returns `Err` if memory runs out.
pub fn front_of(
    alloc: Global,
    history: &History,
    verdict: &Verdict,
    budget: u32,
) -> Result<Vec<u32>, Memory>
    requires budget { (1 ≤ budget) × (budget ≤ budget_limit) }
    requires shown { IsShown history.now.start budget (operations history.now.events) verdict.now }
    ensures front { IfOk result (λ v. IsFrontShown budget verdict.now v.items) }
    ensures markable { IfOk result (λ v. IsMarkable (operations history.now.events)
        (marked verdict.now v.items)) }
{
    let front = front_shown(alloc, verdict, budget)?;
    Ok(front)
}

/// Returns the longest front of the segment that a verdict names.
fn front_shown(alloc: Global, verdict: &Verdict, budget: u32) -> Result<Vec<u32>, Memory>
    requires { (1 ≤ budget) × (budget ≤ budget_limit) }
    ensures { IfOk result (λ v. IsFrontShown budget verdict.now v.items) }
{
    match verdict {
        Verdict::Yes(_) => Ok(Vec::new(alloc)),
        Verdict::No(segment) => longest_front(alloc, segment, budget),
        Verdict::Undecided(segment) => longest_front(alloc, segment, budget),
    }
}
