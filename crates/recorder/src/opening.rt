// A recorder and its passes.
ghost use Rattle.std.specs.Prelude.{◌≡◌, ◌*◌, ◌<◌, ◌≤◌, [], map, All, IfOk};
ghost use Rattle.std.specs.List.{range_with_len};
ghost use Rattle.tickets.specs.Hands.{counter, counter_of, drawn_by, left_of};
ghost use Rattle.recorder.specs.Passes.{process_number, calls_of, log_of, source_of};
ghost use Rattle.recorder.specs.Recorders.{processes_of, calls_for_each, IsPassOf};
ghost use Rattle.events.specs.Limits.{call_limit, process_limit};

use crate::pass::Pass;
use crate::recorders::Recorder;
use events::Memory;
use std::alloc::Global;
use tickets::{Hand, Tickets};

impl Recorder {
    /// Opens a recorder for this many processes, each with this many calls, and a pass for each
    /// process, by rising number. It returns `Err` if memory runs out.
    pub fn open(
        alloc: Global,
        processes: u8,
        calls_each: u32,
    ) -> Result<(Recorder, Vec<Pass>), Memory>
        requires processes { (1 ≤ processes) × (processes ≤ process_limit) }
        requires calls { processes * calls_each ≤ call_limit }
        ensures recorder { IfOk result (λ r. (processes_of r.0 ≡ processes) × (calls_for_each r.0 ≡ calls_each)) }
        ensures passes { IfOk result (λ r. map process_number r.1.items ≡ range_with_len 0 processes) }
        ensures own { IfOk result (λ r. All (IsPassOf r.0) r.1.items) }
        ensures nothing { IfOk result (λ r. All (λ p. log_of p ≡ []) r.1.items) }
    {
        let share = 2 * u64::from(calls_each);
        let (tickets, hand) = Tickets::open(alloc, u64::from(processes) * share)?;
        let passes = first_passes(alloc, &tickets, hand, processes, calls_each)?;
        let recorder = Recorder {
            tickets,
            processes,
            calls_each,
        };
        Ok((recorder, passes))
    }
}

/// Returns a pass for each process, by rising number. The draws of the hand are shared among them.
fn first_passes(
    alloc: Global,
    tickets: &Tickets,
    mut rest: Hand,
    processes: u8,
    calls_each: u32,
) -> Result<Vec<Pass>, Memory>
    requires processes { processes ≤ process_limit }
    requires calls { calls_each ≤ call_limit }
    requires own { counter_of rest ≡ counter tickets.now }
    requires left { left_of rest ≡ processes * (2 * calls_each) }
    ensures numbers { IfOk result (λ v. map process_number v.items ≡ range_with_len 0 processes) }
    ensures own { IfOk result (λ v. All (λ p. source_of p ≡ counter tickets.now) v.items) }
    ensures below { IfOk result (λ v. All (λ p. process_number p < processes) v.items) }
    ensures calls { IfOk result (λ v. All (λ p. calls_of p ≡ calls_each) v.items) }
    ensures nothing { IfOk result (λ v. All (λ p. log_of p ≡ []) v.items) }
{
    // Nothing is left in the hand when each pass has its part, so it may be dropped.
    let mut passes = Vec::with_capacity(alloc, usize::from(processes))?;
    for process in 0..processes {
        let hand = tickets.split(&mut rest, 2 * u64::from(calls_each));
        passes.push(first_pass(alloc, process, calls_each, hand))?;
    }
    Ok(passes)
}

/// Returns a pass with no event yet.
fn first_pass(alloc: Global, process: u8, calls: u32, hand: Hand) -> Pass
    requires process { process < process_limit }
    requires calls { calls ≤ call_limit }
    requires drawn { drawn_by hand ≡ [] }
    requires left { left_of hand ≡ 2 * calls }
    ensures process { process_number result ≡ process }
    ensures calls { calls_of result ≡ calls }
    ensures log { log_of result ≡ [] }
    ensures hand { result.hand ≡ hand }
{
    Pass {
        process,
        calls,
        begun: 0,
        has_open: false,
        log: Vec::new(alloc),
        hand,
    }
}
