// Workers that meet at a gate: this many search side by side, and pass the caller's gate first.
ghost use Rattle.std.specs.Prelude.{◌≤◌};

use crate::gates::Rounds;
use crate::worked::inserts;
use cutter::cut;
use events::History;
use history_text::read_history;
use judge::{Verdict, judge, judge_text};
use pool::{MAX_WORKERS, search_all};
use std::alloc::Global;
use std::process::Abort;
use std::test::Fail;
use std::thread::Threads;

/// Searches this many segments by this many workers with one gate, and judges their history and its
/// text. Returns how many times a worker was at the gate together with all the others.
fn met_after<R: Threads + Sync + Abort>(
    rt: &R,
    alloc: Global,
    segments: u64,
    workers: u32,
) -> Result<u64, Fail>
    requires { (1 ≤ workers) × (workers ≤ MAX_WORKERS) }
{
    let gate = Rounds::of(u64::from(workers));
    let text = inserts(alloc, segments)?;
    pass(rt, alloc, text.as_bytes(), workers, &gate)?;
    Ok(gate.count_met())
}

fn pass<R: Threads + Sync + Abort>(
    rt: &R,
    alloc: Global,
    text: &[u8],
    workers: u32,
    gate: &Rounds,
) -> Result<(), Fail>
    requires { (1 ≤ workers) × (workers ≤ MAX_WORKERS) }
{
    let history = read_history(alloc, text)?;
    search_segments(rt, alloc, &history, workers, gate)?;
    judge_history(rt, alloc, &history, workers, gate)?;
    assert!(rt; judge_text(rt, alloc, text, 1000, workers, gate).is_ok());
    Ok(())
}

fn search_segments<R: Threads + Sync>(
    rt: &R,
    alloc: Global,
    history: &History,
    workers: u32,
    gate: &Rounds,
) -> Result<(), Fail>
    requires { (1 ≤ workers) × (workers ≤ MAX_WORKERS) }
{
    let segments = cut(alloc, history)?;
    search_all(rt, alloc, &segments, 1000, workers, gate)?;
    Ok(())
}

fn judge_history<R: Threads + Sync + Abort>(
    rt: &R,
    alloc: Global,
    history: &History,
    workers: u32,
    gate: &Rounds,
) -> Result<(), Fail>
    requires { (1 ≤ workers) × (workers ≤ MAX_WORKERS) }
{
    let judged = judge(rt, alloc, history, 1000, workers, gate)?;
    assert!(rt; matches!(&judged, Verdict::Yes(_)));
    Ok(())
}

#[test]
fn gate_two_workers(rt: HostRuntime) -> Result<(), Fail> {
    let met = met_after(&rt, rt.alloc(), 2, 2)?;
    assert_eq!(rt; met, 6, "both have seen the other, three times");
    Ok(())
}

#[test]
fn as_many_workers_as_are_asked_for_meet_and_no_more(rt: HostRuntime) -> Result<(), Fail> {
    for workers in [1, 3, MAX_WORKERS] {
        let met = met_after(&rt, rt.alloc(), 192, workers)?;
        assert_eq!(rt; met, 576, "{workers} workers");
    }
    Ok(())
}
