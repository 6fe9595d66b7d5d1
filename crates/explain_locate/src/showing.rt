// The calls that show a location.
ghost use Rattle.std.specs.Prelude.{◌≡◌, ◌+◌, ◌<◌, AllPairs, IfOk};
ghost use Rattle.events.specs.Operations.{operations};
ghost use Rattle.events.specs.Precedence.{NonePrecedesItself};
ghost use Rattle.explain_shrink.specs.Explained.{IsExplanation};
ghost use Rattle.explain_locate.specs.Locations.{IsLocated, IsLostAt};
ghost use Rattle.map_object.specs.MapObject.{IsRising};
ghost use Rattle.orders.specs.Orders.{IsLinearizable, IsLinearizableHistory};
ghost use Rattle.follow_monitor.specs.Prefixes.{prefix_of};
ghost use Rattle.explain_locate.specs.Evidences.{AreCallsOf, AreCallsUpTo, IsEvidenceOf, IsFoundEvidence, IsLossEvidence, IsOwnEvidence, IsDoubtEvidence, Refutes};

use crate::beginning::history_up_to;
use crate::evidence::Evidence;
use crate::location::Location;
use events::{History, Memory};
use explain_shrink::{Explanation, explain_calls, explain_history};
use follow_violations::{KeyCore, Violation, key_core, own_parts_have_no_order};
use map_object::SortedMap;
use std::alloc::Global;

/// Finds a few calls that show a location. First it makes short searches of the last calls up to
/// where the history goes wrong, or may (`explain_history`). If these show no missing order, it
/// looks further. If the judge found the event, it looks among all calls up to there
/// (`explain_calls`). If the monitor lost a part of the keys that has one past, it looks among the
/// calls left there (`key_core`).
pub fn evidence_of(
    alloc: Global,
    history: &History,
    location: &Location,
    budget: u32,
) -> Result<Evidence, Memory>
    requires located { IsLocated budget history.now location.now }
    ensures shows { IfOk result (IsEvidenceOf budget history.now location.now) }
    ensures calls { IfOk result (AreCallsOf history.now location.now) }
    ensures refutes { IfOk result (Refutes history.now) }
{
    match location {
        Location::Yes => Ok(Evidence::Missing),
        Location::No { event, .. } => found_evidence(alloc, history, *event, budget),
        Location::Lost(loss) => loss_evidence(alloc, history, loss, budget),
        Location::Undecided { event, .. } => doubt_evidence(alloc, history, *event, budget),
    }
}

/// Finds a few calls that show that the events up to one have no order. It is known that they have
/// none.
fn found_evidence(
    alloc: Global,
    history: &History,
    event: usize,
    budget: u32,
) -> Result<Evidence, Memory>
    requires none { IsLinearizableHistory (prefix_of history.now (event + 1)) → ⊥ }
    ensures shows { IfOk result (IsFoundEvidence budget history.now event) }
    ensures refutes { IfOk result (Refutes history.now) }
{
    let first = history_up_to(alloc, history, event)?;
    match explain_history(alloc, &first, budget)? {
        Some(few) => Ok(Evidence::OfEvents(few)),
        None => {
            let few = explain_whole(alloc, &first, budget)?;
            Ok(Evidence::OfEvents(few))
        }
    }
}

/// Finds a few calls without order in a history that has none.
fn explain_whole(alloc: Global, history: &History, budget: u32) -> Result<Explanation, Memory>
    requires none { IsLinearizableHistory history.now → ⊥ }
    ensures { IfOk result (IsExplanation history.now.start (operations history.now.events) budget) }
{
    let start = SortedMap::of(alloc, history.start())?;
    explain_calls(alloc, &start, history.calls(), budget)
}

/// Finds a few calls that show a loss.
fn loss_evidence(
    alloc: Global,
    history: &History,
    loss: &Violation,
    budget: u32,
) -> Result<Evidence, Memory>
    requires lost { IsLostAt budget history.now loss.now }
    ensures shows { IfOk result (IsLossEvidence budget history.now loss.now) }
    ensures calls { IfOk result (AreCallsUpTo history.now loss.now.event) }
    ensures refutes { IfOk result (Refutes history.now) }
{
    let first = history_up_to(alloc, history, loss.event)?;
    match explain_history(alloc, &first, budget)? {
        Some(few) => Ok(Evidence::OfEvents(few)),
        None => own_evidence(alloc, history, loss, budget),
    }
}

/// Finds a few calls of the part of the keys that goes wrong on its own, if it has one past.
fn own_evidence(
    alloc: Global,
    history: &History,
    loss: &Violation,
    budget: u32,
) -> Result<Evidence, Memory>
    requires lost { IsLostAt budget history.now loss.now }
    ensures shows { IfOk result (IsOwnEvidence budget loss.now) }
    ensures calls { IfOk result (AreCallsUpTo history.now loss.now.event) }
    ensures refutes { IfOk result (Refutes history.now) }
{
    own_parts_have_no_order();
    match key_core(alloc, loss)? {
        Some(part) => {
            let few = explain_part(alloc, &part, budget)?;
            Ok(Evidence::OfPart(part, few))
        }
        None => Ok(Evidence::Missing),
    }
}

/// Finds a few calls without order in a part that has none.
fn explain_part(alloc: Global, part: &KeyCore, budget: u32) -> Result<Explanation, Memory>
    requires sorted { IsRising part.now.start }
    requires rising { AllPairs (λ a b. a.inv < b.inv) part.now.calls }
    requires apart { NonePrecedesItself part.now.calls }
    requires none { IsLinearizable part.now.start part.now.calls → ⊥ }
    ensures { IfOk result (IsExplanation part.now.start part.now.calls budget) }
{
    let start = SortedMap::of(alloc, &part.start)?;
    explain_calls(alloc, &start, &part.calls, budget)
}

/// Finds a few calls that show that the events up to one have no order. It is not known whether
/// they have one.
fn doubt_evidence(
    alloc: Global,
    history: &History,
    event: usize,
    budget: u32,
) -> Result<Evidence, Memory>
    ensures shows { IfOk result (IsDoubtEvidence budget history.now event) }
    ensures refutes { IfOk result (Refutes history.now) }
{
    let first = history_up_to(alloc, history, event)?;
    match explain_history(alloc, &first, budget)? {
        Some(few) => Ok(Evidence::OfEvents(few)),
        None => Ok(Evidence::Missing),
    }
}
