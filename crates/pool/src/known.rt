// The answers that are known, at the places of their segments.
ghost use Rattle.std.specs.Prelude.{◌≡◌, ◌<◌, ◌≤◌, [], replicate, fold, All, EachIndex, IfOk, OnOk};
ghost use Rattle.std.specs.List.{AllZip};
ghost use Rattle.std.specs.declared.option.Option.TheVariants.{None};
ghost use Rattle.search.specs.Exact.{IsExactAnswer};
ghost use Rattle.pool.specs.Known.{with_answer, IsExactIfKnown, WerePassedIfKnown};
ghost use Rattle.search.specs.Limits.{budget_limit};

use crate::gate::Gate;
use crate::worker::{SegmentAnswer, enter_and_search};
use events::Memory;
use orders::Segment;
use search::Found;
use std::alloc::Global;

/// Returns the answers at their segments' places, and none at the other places.
#[tactic(auto, using(crate::proofs::KnownLemmas::next_has_place))]
pub(crate) fn in_place(
    alloc: Global,
    segments: usize,
    answers: Vec<SegmentAnswer>,
) -> Result<Vec<Option<Found>>, Memory>
    requires { All (λ a. a.segment < segments) answers.items }
    ensures { IfOk result (λ v. v.items ≡ fold with_answer (replicate segments None) answers.items) }
{
    let mut known = none_known(alloc, segments)?;
    for SegmentAnswer { segment, found } in answers {
        known[segment] = Some(found);
    }
    Ok(known)
}

/// Returns a place for each segment, where no answer is known yet.
pub(crate) fn none_known(alloc: Global, segments: usize) -> Result<Vec<Option<Found>>, Memory>
    ensures { IfOk result (λ v. v.items ≡ replicate segments None) }
{
    let mut known = Vec::with_capacity(alloc, segments)?;
    for _ in 0..segments {
        known.push(None)?;
    }
    Ok(known)
}

/// Returns the answers of all segments. A segment without a known answer, because no worker drew
/// it, is searched here.
pub(crate) fn complete<G: Gate>(
    alloc: Global,
    segments: &[Segment],
    budget: u32,
    gate: &G,
    known: Vec<Option<Found>>,
) -> Result<Vec<Found>, Memory>
    requires budget { (1 ≤ budget) × (budget ≤ budget_limit) }
    requires exact { AllZip (IsExactIfKnown budget) segments.now known.items }
    requires passed { WerePassedIfKnown (G.was_passed gate.now) 0 known.items }
    ensures passed { OnOk result (EachIndex segments.now (G.was_passed gate.now)) }
    ensures exact { IfOk result (λ v. AllZip (IsExactAnswer budget) segments.now v.items) }
{
    let mut answers = Vec::with_capacity(alloc, known.len())?;
    for answer in known {
        let found = match answer {
            Some(found) => found,
            None => enter_and_search(alloc, segments, budget, gate, answers.len())?,
        };
        answers.push(found)?;
    }
    Ok(answers)
}
