// A plan that is driven at a subject, each script in a thread of its own. There calls wait for each
// other and get wrong answers, or get the answer that they are done.
ghost use Rattle.std.specs.Prelude.{◌≡◌, ℕ};
ghost use Rattle.events.specs.declared.event.Reply.TheVariants as replies;

use crate::meetings::wait_for;
use events::{Call, History, Reply, Response};
use judge::{MAX_BUDGET, Verdict, judge_alone};
use plan_text::read_plan;
use recorder::Subject;
use running::{drive_subject, is_drivable};
use std::alloc::Global;
use std::process::Abort;
use std::sync::atomic::{AtomicBool, AtomicU64, Ordering};
use std::test::Fail;
use std::thread::Threads;

/// It counts the calls that waited for another one to begin and then saw that it had begun.
#[derive(Drop)]
struct Meeting {
    first: AtomicBool,
    second: AtomicBool,
    met: AtomicU64,
}

impl Meeting {
    /// A subject before its first call.
    fn new() -> Meeting {
        Meeting {
            first: AtomicBool::new(false),
            second: AtomicBool::new(false),
            met: AtomicU64::new(0),
        }
    }
}

impl Subject for Meeting {
    ghost may_answer = { λ _ _ reply. (value : ℕ) × (reply ≡ replies.Some value) };

    fn call(&self, call: &Call) -> Reply {
        let key = call.low_key();
        match key {
            0 => wait_for(&self.first, &self.met),
            1 => {
                self.first.store(true, Ordering::SeqCst);
                wait_for(&self.second, &self.met);
            }
            _ => self.second.store(true, Ordering::SeqCst),
        }
        Reply::Some(key.wrapping_add(7))
    }
}

/// A get of a key: the places of its invocation and its response, and the value that it was
/// answered.
fn answered_get(history: &History, key: u64) -> Option<(usize, usize, u64)> {
    for operation in history.calls() {
        if operation.call == Call::Get(key) {
            if let Some(
                Response {
                    res,
                    reply: Reply::Some(value),
                },
            ) = &operation.response
            {
                return Some((operation.inv, *res, *value));
            }
        }
    }
    None
}

/// Two processes that meet: the first two, or the last two of as many as there may be.
static FIRST_TWO: &str = r#"{"scripts":[[["get",0],["get",2]],[["get",1]]],"version":1}"#;

static LAST_TWO: &str =
    r#"{"scripts":[[],[],[],[],[],[],[],[],[],[],[],[],[],[],[],[],[],[],[],[],[],[],[],[],[],[],[],[],[],[],[],[],[],[],[],[],[],[],[],[],[],[],[],[],[],[],[],[],[],[],[],[],[],[],[],[],[],[],[],[],[],[],[["get",0],["get",2]],[["get",1]]],"version":1}"#;

/// What is recorded when the plan that a text spells is driven at a subject.
fn driven_at<R: Threads + Sync, S: Subject + Sync>(
    rt: &R,
    alloc: Global,
    text: &str,
    subject: &S,
) -> Result<History, Fail> {
    let plan = read_plan(alloc, text.as_bytes())?;
    if !is_drivable(&plan) {
        return Err(Fail::new("the plan has too many calls"));
    }
    Ok(drive_subject(rt, alloc, &plan, subject)?)
}

/// What is recorded in this round, in which two calls of a plan see that the calls for which they
/// wait have begun.
fn met_in<R: Threads + Sync + Abort>(
    rt: &R,
    alloc: Global,
    text: &str,
    round: i32,
) -> Result<History, Fail> {
    let subject = Meeting::new();
    let history = driven_at(rt, alloc, text, &subject)?;
    assert!(rt; subject.met.load(Ordering::SeqCst) == 2, "round {round}");
    Ok(history)
}

/// Each get is answered by its key plus 7, and the answers come in the order in which the calls
/// wait for each other.
fn check_answers<R: Abort>(rt: &R, history: &History, round: i32) {
    let (Some(first), Some(second), Some(third)) = (
        answered_get(history, 0),
        answered_get(history, 1),
        answered_get(history, 2),
    ) else {
        panic!(rt; "each get is answered by a value, round {round}");
    };
    assert!(rt; (first.2, second.2, third.2) == (7, 8, 9));
    assert!(rt;
        second.0 < first.1,
        "the get of 1 comes before the answer of 0"
    );
    assert!(rt; first.1 < third.0, "the get of 2 comes after that of 0");
}

/// The answers are refuted.
fn check_refuted<R: Abort>(rt: &R, alloc: Global, history: &History) -> Result<(), Fail> {
    let verdict = judge_alone(alloc, history, MAX_BUDGET)?;
    assert!(rt; matches!(&verdict, Verdict::No(_)), "nothing was inserted");
    Ok(())
}

#[test]
fn two_subject_calls(rt: HostRuntime) -> Result<(), Fail> {
    for round in 0..100 {
        let text = if round < 50 { FIRST_TWO } else { LAST_TWO };
        let history = met_in(&rt, rt.alloc(), text, round)?;
        check_answers(&rt, &history, round);
        check_refuted(&rt, rt.alloc(), &history)?;
    }
    Ok(())
}

/// Says nothing of what it finds.
#[derive(Drop)]
struct Silent;

impl Subject for Silent {
    ghost may_answer = { λ _ _ reply. reply ≡ replies.Done };

    fn call(&self, _call: &Call) -> Reply {
        Reply::Done
    }
}

/// Whether each call of a history is answered that it was done.
fn are_done(history: &History) -> bool {
    history.calls().iter().all(|operation| {
        matches!(
            &operation.response,
            Some(Response {
                reply: Reply::Done,
                ..
            })
        )
    })
}

#[test]
fn answers_that_tell_less_are_recorded(rt: HostRuntime) -> Result<(), Fail> {
    let history = driven_at(&rt, rt.alloc(), FIRST_TWO, &Silent)?;
    assert!(rt; history.calls().len() == 3);
    assert!(rt; are_done(&history));
    let verdict = judge_alone(rt.alloc(), &history, MAX_BUDGET)?;
    assert!(rt; matches!(&verdict, Verdict::Yes(_)), "nothing is told");
    Ok(())
}
