// When a part moves on, and the moment that it moves to.
ghost use Rattle.std.specs.Prelude.{◌≡◌, IfOk, IfSome, MatchOption};
ghost use Rattle.follow_pasts.specs.Moments.{AreBegunAfter, HaveNoRead};

use crate::open_reads::OpenReads;
use crate::part::Part;
use crate::ranges::{Range, meet};
use events::{Memory, Operation};
use std::alloc::Global;

/// How many calls a part has at least when it moves on with some of them open.
const LEAST_CALLS: usize = 40;

/// A read that is pending: the place of its invocation, and its keys.
#[derive(Clone, Copy)]
pub struct OpenRead {
    pub inv: usize,
    pub low: u64,
    pub high: u64,
}

/// Whether a part is to move on: there are enough calls, more than when it was last tried.
pub fn is_time(part: &Part) -> bool {
    let calls = part.first.calls();
    let size = calls.len();
    if size - size / 3 < part.tried {
        return false;
    }
    let open = part.found.len().saturating_add(count_pending(calls));
    open == 0 || size >= LEAST_CALLS && size / 3 >= open
}

/// The moment that a part may move on to, if there is one. No pending read of its keys began
/// before.
pub fn moment_for(
    alloc: Global,
    part: &Part,
    reads: &OpenReads,
    now: usize,
) -> Result<Option<usize>, Memory>
    ensures { IfOk result
        (λ moment. IfSome moment (AreBegunAfter part.now.ranges.items reads.now)) }
{
    let calls = part.first.calls();
    let Some(hold) = reads.first(&part.ranges) else {
        if part.found.is_empty() && count_pending(calls) == 0 {
            return Ok(Some(now));
        }
        let moment = best_moment(alloc, calls, now)?;
        return Ok(moment);
    };
    let Some(moment) = best_moment(alloc, calls, hold)? else {
        return Ok(None);
    };
    if hold < moment {
        return Ok(None);
    }
    Ok(Some(moment))
}

fn count_pending(calls: &[Operation]) -> usize {
    let mut count = 0;
    for call in calls {
        if call.response.is_none() {
            count += 1;
        }
    }
    count
}

/// A moment before which no pending read of these keys began, or none if there is no such read.
pub(crate) fn first_read(ranges: &[Range], reads: &[OpenRead]) -> Option<usize>
    ensures { MatchOption result (HaveNoRead ranges.now reads.now)
        (AreBegunAfter ranges.now reads.now) }
{
    let mut first = None;
    for read in reads {
        if meet(ranges, read.low, read.high) {
            first = match first {
                Some(inv) if inv < read.inv => Some(inv),
                _ => Some(read.inv),
            };
        }
    }
    first
}

/// The moment for a cut: one after an answer before `hold`, with half of the answers before it. Of
/// these moments it has the fewest open calls that may change the map, and it is the latest such
/// one.
fn best_moment(alloc: Global, calls: &[Operation], hold: usize) -> Result<Option<usize>, Memory> {
    let ends = ends_of(alloc, calls)?;
    let half = ends.len() / 2;
    let mut best = None;
    let mut fewest = usize::MAX;
    let mut begun = 0;
    let mut open = 0usize;
    for (place, end) in ends.iter().enumerate() {
        while begun < calls.len() && calls[begun].inv <= end.0 {
            if calls[begun].call.may_change() {
                open = open.saturating_add(1);
            }
            begun += 1;
        }
        if end.1 {
            open = open.saturating_sub(1);
        }
        if hold <= end.0 {
            break;
        }
        if half <= place + 1 && open <= fewest {
            best = Some(end.0.saturating_add(1));
            fewest = open;
        }
    }
    Ok(best)
}

/// When calls ended, one after another, and whether they may change the map.
fn ends_of(alloc: Global, calls: &[Operation]) -> Result<Vec<(usize, bool)>, Memory> {
    let mut ends = Vec::with_capacity(alloc, calls.len())?;
    for call in calls {
        if let Some(response) = &call.response {
            ends.push((response.res, call.call.may_change()))?;
        }
    }
    ends.sort_by_key(|end| end.0)?;
    Ok(ends)
}
