// The search of all segments, by workers.
ghost use Rattle.std.specs.Prelude.{◌≡◌, ◌≤◌, ◌++◌, [], All, EachIndex, IfOk, OnOk};
ghost use Rattle.std.specs.Result.{MatchResult};
ghost use Rattle.std.specs.List.{AllZip};
ghost use Rattle.search.specs.Exact.{IsExactAnswer};
ghost use Rattle.search.specs.Found.{IsSoundAnswer};
ghost use Rattle.pool.specs.Answers.{AnswersOneOf};
ghost use Rattle.pool.specs.Limits.{worker_limit};
ghost use Rattle.search.specs.Limits.{budget_limit};

use crate::gate::Gate;
use crate::hands::deal;
use crate::known::{complete, in_place, none_known};
use crate::worker::{SegmentAnswer, work};
use events::Memory;
use orders::Segment;
use search::Found;
use std::alloc::Global;
use std::thread;
use std::thread::Threads;
use tickets::MAX_QUOTA;

/// Searches each segment, and returns the answers in the order of the segments. Which thread found
/// an answer makes no difference. It returns `Memory` if an allocation was refused to this call or
/// to one of its searches. The workers draw the numbers of the segments, each number once, and pass
/// the gate before they search a segment. The caller's thread runs one worker, and each other
/// worker has a thread of its own, if one can be made. A worker without a thread runs later, in the
/// thread that was to start it, and the answers are the same. A gate that holds a worker until
/// another one comes may then hold it forever. The call returns when all workers have ended.
/// Without the searches it costs a thread for each worker but one, and a draw for each segment and
/// each worker.
pub fn search_all<R: Threads + Sync, G: Gate + Sync>(
    rt: &R,
    alloc: Global,
    segments: &[Segment],
    budget: u32,
    workers: u32,
    gate: &G,
) -> Result<Vec<Found>, Memory>
    requires budget { (1 ≤ budget) × (budget ≤ budget_limit) }
    requires workers { (1 ≤ workers) × (workers ≤ worker_limit) }
    ensures exact { IfOk result (λ v. AllZip (IsExactAnswer budget) segments.now v.items) }
    ensures sound { IfOk result (λ v. AllZip (IsSoundAnswer budget) segments.now v.items) }
    ensures passed { OnOk result (EachIndex segments.now (G.was_passed gate.now)) }
{
    let answers = search_apart(rt, alloc, segments, budget, workers, gate)?;
    let known = in_place(alloc, segments.len(), answers)?;
    complete(alloc, segments, budget, gate, known)
}

/// Searches each segment as `search_all` does, but only in the caller's thread: one after another,
/// each after it passed the gate.
pub fn search_alone<G: Gate>(
    alloc: Global,
    segments: &[Segment],
    budget: u32,
    gate: &G,
) -> Result<Vec<Found>, Memory>
    requires { (1 ≤ budget) × (budget ≤ budget_limit) }
    ensures exact { IfOk result (λ v. AllZip (IsExactAnswer budget) segments.now v.items) }
    ensures passed { OnOk result (EachIndex segments.now (G.was_passed gate.now)) }
{
    let known = none_known(alloc, segments.len())?;
    complete(alloc, segments, budget, gate, known)
}

/// Returns what the workers answer, one worker after another.
fn search_apart<R: Threads + Sync, G: Gate + Sync>(
    rt: &R,
    alloc: Global,
    segments: &[Segment],
    budget: u32,
    workers: u32,
    gate: &G,
) -> Result<Vec<SegmentAnswer>, Memory>
    requires budget { (1 ≤ budget) × (budget ≤ budget_limit) }
    requires workers { (1 ≤ workers) × (workers ≤ worker_limit) }
    ensures { IfOk result (λ v. All (AnswersOneOf (G.was_passed gate.now) budget segments.now) v.items) }
{
    // Each worker has a draw for each segment and one more, so it can draw until no segment is
    // left. The most draws that tickets can have would not suffice for more than 2^55 segments,
    // which no memory holds; `complete` would search the others.
    let draws = (segments.len() as u64 + 1).min(MAX_QUOTA / u64::from(workers));
    let (tickets, hands) = deal(alloc, workers, draws)?;
    let by_worker = thread::map_vec(
        rt,
        hands,
        &|hand| { work(alloc, segments, budget, gate, &tickets, hand) },
    )?;
    let mut all = Vec::new(alloc);
    for answers in by_worker {
        gather(&mut all, answers)?;
    }
    Ok(all)
}

/// Appends the answers of a worker.
fn gather(
    all: &mut Vec<SegmentAnswer>,
    answers: Result<Vec<SegmentAnswer>, Memory>,
) -> Result<(), Memory>
    ensures { OnOk result (MatchResult answers (λ v. all.new.items ≡ all.old.items ++ v.items) (λ _. ⊥)) }
{
    all.append(&mut answers?)?;
    Ok(())
}
