// What a worker does: it draws numbers, and searches the segments that have them.
ghost use Rattle.std.specs.Prelude.{◌≡◌, ◌<◌, ◌≤◌, [], length, All, IfOk};
ghost use Rattle.std.specs.List.{HoldsAt};
ghost use Rattle.search.specs.Exact.{IsExactAnswer};
ghost use Rattle.tickets.specs.Hands.{counter, counter_of};
ghost use Rattle.pool.specs.Answers.{AnswersOneOf};
ghost use Rattle.search.specs.Limits.{budget_limit};

use crate::gate::Gate;
use crate::one_call::find_order;
use events::Memory;
use orders::Segment;
use search::Found;
use std::alloc::Global;
use tickets::{Hand, Tickets};

/// What a worker found of a segment, which is named by its place in the list.
#[derive(Drop)]
pub(crate) struct SegmentAnswer {
    pub segment: usize,
    pub found: Found,
}

/// Searches the segments whose numbers the hand draws, until it draws one that no segment has.
pub(crate) fn work<G: Gate>(
    alloc: Global,
    segments: &[Segment],
    budget: u32,
    gate: &G,
    tickets: &Tickets,
    mut hand: Hand,
) -> Result<Vec<SegmentAnswer>, Memory>
    requires budget { (1 ≤ budget) × (budget ≤ budget_limit) }
    requires own { counter_of hand ≡ counter tickets.now }
    ensures { IfOk result (λ v. All (AnswersOneOf (G.was_passed gate.now) budget segments.now) v.items) }
{
    let mut answers = Vec::new(alloc);
    while hand.left() > 0 {
        let segment = tickets.draw(&mut hand) as usize;
        if segment >= segments.len() {
            break;
        }
        let found = enter_and_search(alloc, segments, budget, gate, segment)?;
        answers.push(SegmentAnswer { segment, found })?;
    }
    Ok(answers)
}

/// Passes the gate to a segment, and searches it.
pub(crate) fn enter_and_search<G: Gate>(
    alloc: Global,
    segments: &[Segment],
    budget: u32,
    gate: &G,
    segment: usize,
) -> Result<Found, Memory>
    requires budget { (1 ≤ budget) × (budget ≤ budget_limit) }
    requires known { segment < length segments.now }
    ensures passed { G.was_passed gate.now segment }
    ensures exact { IfOk result (λ f. HoldsAt (λ s. IsExactAnswer budget s f) segments.now segment) }
{
    gate.enter(segment);
    search_one(alloc, segments, budget, gate, segment)
}

/// Searches a segment, after the gate was passed for it.
fn search_one<G: Gate>(
    alloc: Global,
    segments: &[Segment],
    budget: u32,
    _gate: &G,
    segment: usize,
) -> Result<Found, Memory>
    requires budget { (1 ≤ budget) × (budget ≤ budget_limit) }
    requires known { segment < length segments.now }
    requires passed { G.was_passed _gate.now segment }
    ensures { IfOk result (λ f. HoldsAt (λ s. IsExactAnswer budget s f) segments.now segment) }
{
    find_order(alloc, &segments[segment], budget)
}
