// The calls on a stream whose lines are given one after another.
ghost use Rattle.std.specs.Prelude.{◌≡◌, ◌≢◌, ℕ, List, ◌++◌, None};
ghost use Rattle.potzendai.specs.Follows.{Follows, standing_of, IsOpening, IsReportedSoFar, IsReportedClosed};
ghost use Rattle.potzendai.specs.Streams.{SpellLinearizable, BeginUnlinearizable};
ghost use Rattle.cli_follow.specs.Taken.{HasTaken};
ghost use Rattle.stream_text.specs.Cuts.{lines_of};

use crate::handle::{PotzendaiFollower, put, take};
use crate::reports::{is_budget, report, report_closed, stream_status};
use cli_follow::LineFollower;
use cli_outcome::{CommandOutcome, MEMORY, WORDS};
use std::alloc::Global;
use std::mem::replace;

/// Opens the handle for a stream, before its first line, and returns 0. Each answer will be judged
/// by searches of at most `budget` configurations. If the handle is open, it is closed first. If
/// memory runs out, or no search may have the budget, the handle is closed afterwards. The status
/// says which it was.
#[unsafe(no_mangle)]
pub extern "C" fn potzendai_follow_open(
    alloc: Global,
    handle: &mut PotzendaiFollower,
    budget: u32,
) -> u32
    ensures { IsOpening budget handle.new.follows result }
{
    drop(take(alloc, handle));
    if !is_budget(budget) {
        return u32::from(WORDS);
    }
    let Ok(follower) = LineFollower::new(alloc, budget) else {
        return u32::from(MEMORY);
    };
    let Ok(boxed) = Box::new(alloc, follower) else {
        return u32::from(MEMORY);
    };
    put(alloc, handle, boxed);
    0
}

/// Takes the lines of the text as the next lines of the stream. A line feed ends each line, and the
/// last line may lack it. Returns the status of the stream so far: 0 while it is followed. If
/// `bench follow` ends at one of these lines, returns its exit status, now and later. A closed
/// handle stays closed.
#[unsafe(no_mangle)]
pub extern "C" fn potzendai_follow_event(
    alloc: Global,
    handle: &mut PotzendaiFollower,
    text: &[u8],
) -> u32
    ensures added { (budget : ℕ) (lines : List (List ℕ)) → Follows budget lines handle.old.follows
        → Follows budget (lines ++ lines_of text.now) handle.new.follows }
    ensures closed { handle.old.follows ≡ None → handle.new.follows ≡ None }
    ensures stays { standing_of handle.old.follows ≢ 0 → handle.new.follows ≡ handle.old.follows }
    ensures status { result ≡ standing_of handle.new.follows }

    // What a no means for a stream if all its lines so far were given.
    ensures no { (budget : ℕ) (all : List ℕ) → Follows budget (lines_of all) handle.new.follows
        → result ≡ 1 → BeginUnlinearizable (lines_of all) }
{
    let Some(boxed) = take(alloc, handle) else {
        return u32::from(WORDS);
    };
    let mut boxed = boxed;
    let follower = replace(&mut *boxed, LineFollower::Ended(CommandOutcome::Memory));
    *boxed = follower.take_lines(alloc, text);
    let status = stream_status(&boxed);
    put(alloc, handle, boxed);
    status
}

/// Writes what `bench follow` writes for a stream of the lines so far. The handle stays open, and
/// more lines may come.
#[unsafe(no_mangle)]
pub extern "C" fn potzendai_follow_verdict(
    alloc: Global,
    handle: &mut PotzendaiFollower,
    room: &mut [u8],
    size: &mut usize,
) -> u32
    ensures unchanged { handle.new.follows ≡ handle.old.follows }
    ensures reported { (budget : ℕ) (lines : List (List ℕ)) → Follows budget lines handle.old.follows
        → IsReportedSoFar budget lines room.old room.new size.new result }
    ensures closed { handle.old.follows ≡ None → IsReportedClosed room.old room.new size.new result }

    // What a yes or a no means for a stream if all its lines so far were given.
    ensures yes { (budget : ℕ) (all : List ℕ) → Follows budget (lines_of all) handle.old.follows
        → result ≡ 0 → SpellLinearizable (lines_of all) }
    ensures no { (budget : ℕ) (all : List ℕ) → Follows budget (lines_of all) handle.old.follows
        → result ≡ 1 → BeginUnlinearizable (lines_of all) }
{
    let Some(boxed) = take(alloc, handle) else {
        return report_closed(room, size);
    };
    let status = report_follower(alloc, &boxed, room, size);
    put(alloc, handle, boxed);
    status
}

/// Closes the handle, and frees all its memory.
#[unsafe(no_mangle)]
pub extern "C" fn potzendai_follow_close(alloc: Global, handle: &mut PotzendaiFollower)
    ensures { handle.new.follows ≡ None }
{
    drop(take(alloc, handle));
}

/// Writes the outcome for a stream of the lines so far.
fn report_follower(alloc: Global, follower: &LineFollower, room: &mut [u8], size: &mut usize) -> u32
    ensures { (budget : ℕ) (lines : List (List ℕ)) → HasTaken budget lines follower.now
        → IsReportedSoFar budget lines room.old room.new size.new result }
{
    match follower {
        LineFollower::Going { followed, .. } => {
            let outcome = followed.finish(alloc);
            report(&outcome, room, size)
        }
        LineFollower::Ended(outcome) => report(outcome, room, size),
    }
}
