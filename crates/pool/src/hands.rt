// The workers' hands, with which they draw the numbers of segments.
ghost use Rattle.std.specs.Prelude.{◌≡◌, ◌*◌, ◌^◌, ◌≤◌, All, IfOk, vec_len};
ghost use Rattle.tickets.specs.Hands.{counter, counter_of, left_of};

use events::Memory;
use std::alloc::Global;
use tickets::{Hand, Tickets};

/// Returns tickets, and a hand for each worker with this many draws.
pub(crate) fn deal(alloc: Global, workers: u32, draws: u64) -> Result<(Tickets, Vec<Hand>), Memory>
    requires some { 1 ≤ workers }
    requires few { workers * draws ≤ 2 ^ 61 }
    ensures many { IfOk result (λ t. vec_len t.1 ≡ workers) }
    ensures own { IfOk result (λ t. All (λ h. counter_of h ≡ counter t.0) t.1.items) }
    ensures equal { IfOk result (λ t. All (λ h. left_of h ≡ draws) t.1.items) }
{
    let (tickets, mut rest) = Tickets::open(alloc, u64::from(workers) * draws)?;
    let mut hands = Vec::with_capacity(alloc, workers as usize)?;
    for _ in 1..workers {
        hands.push(tickets.split(&mut rest, draws))?;
    }
    hands.push(rest)?;
    Ok((tickets, hands))
}
