// Verdicts and searches by one thread and by many.
ghost use Rattle.std.specs.Prelude.{◌≤◌};

use crate::gates::Visits;
use crate::worked::{THREE_KEYS, TWO_KEYS, inserts};
use cutter::cut;
use events::{History, MAX_CALLS, Memory};
use history_text::read_history;
use judge::{
    Judge, JudgeFault, MAX_BUDGET, OneThread, Verdict, judge_alone, judge_text, judge_text_by,
    report,
};
use orders::Segment;
use pool::{MAX_WORKERS, OpenGate, search_all, search_alone};
use search::Found;
use std::alloc::Global;
use std::process::Abort;
use std::test::Fail;
use std::thread::Threads;

/// Whether the report of one thread's verdict on a text is this.
fn is_judged(alloc: Global, text: &[u8], budget: u32, want: &str) -> Result<bool, Fail>
    requires { (1 ≤ budget) × (budget ≤ MAX_BUDGET) }
{
    let history = read_history(alloc, text)?;
    let line = judge_and_report(alloc, &history, budget)?;
    Ok(line.as_str() == want)
}

fn judge_and_report(alloc: Global, history: &History, budget: u32) -> Result<String, Memory>
    requires { (1 ≤ budget) × (budget ≤ MAX_BUDGET) }
{
    let verdict = judge_alone(alloc, history, budget)?;
    report(alloc, &verdict)
}

#[test]
fn histories_are_judged_by_one_thread(rt: HostRuntime) -> Result<(), Fail> {
    let yes = r#"{"order":[1,0,2],"verdict":"yes"}"#;
    assert!(rt; is_judged(rt.alloc(), TWO_KEYS, 1000, yes)?);
    // The segment before it is spent, so the later no decides.
    let no = r#"{"calls":[2],"hi":9,"lo":9,"verdict":"no"}"#;
    assert!(rt; is_judged(rt.alloc(), THREE_KEYS, 3, no)?);
    let undecided = r#"{"calls":[0,1],"hi":1,"lo":1,"verdict":"undecided"}"#;
    assert!(rt; is_judged(rt.alloc(), TWO_KEYS, 3, undecided)?);
    Ok(())
}

#[test]
fn whoever_judges_has_a_budget(rt: HostRuntime) -> Result<(), Fail> {
    let undecided = r#"{"calls":[0,1],"hi":1,"lo":1,"verdict":"undecided"}"#;
    let alone = OneThread {
        alloc: rt.alloc(),
        budget: 3,
    };
    assert!(rt; alone.budget() == 3);
    assert!(rt; is_reported(&judge_text_by(rt.alloc(), TWO_KEYS, &alone), undecided));
    let by_two = judge_text(&rt, rt.alloc(), TWO_KEYS, 3, 2, &OpenGate);
    assert!(rt; is_reported(&by_two, undecided));
    Ok(())
}

/// Whether the report on a text is this.
fn is_reported(judged: &Result<(Verdict, String), JudgeFault>, want: &str) -> bool {
    match judged {
        Ok((_, line)) => line.as_str() == want,
        Err(_) => false,
    }
}

#[test]
fn equal_answers_for_every_number_of_workers(rt: HostRuntime) -> Result<(), Fail> {
    let segments = segments_of(rt.alloc(), THREE_KEYS)?;
    for workers in [1, 2, 4, 64] {
        let found = search_all(&rt, rt.alloc(), &segments, 3, workers, &OpenGate)?;
        assert!(rt; are_spent_none_and_third(&found), "{workers} workers");
    }
    Ok(())
}

fn segments_of(alloc: Global, text: &[u8]) -> Result<Vec<Segment>, Fail> {
    let history = read_history(alloc, text)?;
    Ok(cut(alloc, &history)?)
}

/// Whether the first of three segments was spent, the second has no order, and the third has the
/// order of call 3.
fn are_spent_none_and_third(found: &[Found]) -> bool {
    match found {
        [Found::Spent, Found::NoOrder, Found::Order(order)] => order.as_slice() == [3].as_slice(),
        _ => false,
    }
}

#[test]
fn each_segment_is_entered_once(rt: HostRuntime) -> Result<(), Fail> {
    let text = inserts(rt.alloc(), 4096)?;
    let segments = segments_of(rt.alloc(), text.as_bytes())?;
    assert_eq!(rt; entered_alone(&rt, rt.alloc(), &segments)?, (1, 1));
    for workers in [1, 2, 64] {
        assert_eq!(rt;
            entered_by_workers(&rt, rt.alloc(), &segments, workers)?,
            (1, 1),
            "{workers} workers"
        );
    }
    Ok(())
}

/// The fewest and the most times that one thread enters a segment, of as many segments as there may
/// be.
fn entered_alone<R: Abort>(
    rt: &R,
    alloc: Global,
    segments: &[Segment],
) -> Result<(u64, u64), Fail> {
    let visits = Visits::at(alloc, 4096)?;
    assert!(rt; search_alone(alloc, segments, 1000, &visits)?.len() == MAX_CALLS);
    Ok(visits.fewest_and_most())
}

/// The fewest and the most times that this many workers enter a segment.
fn entered_by_workers<R: Threads + Sync + Abort>(
    rt: &R,
    alloc: Global,
    segments: &[Segment],
    workers: u32,
) -> Result<(u64, u64), Fail>
    requires { (1 ≤ workers) × (workers ≤ MAX_WORKERS) }
{
    let visits = Visits::at(alloc, 4096)?;
    assert!(rt; search_all(rt, alloc, segments, 1000, workers, &visits)?.len() == MAX_CALLS);
    Ok(visits.fewest_and_most())
}
