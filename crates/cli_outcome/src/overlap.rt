// How much calls overlap.
ghost use Rattle.std.specs.Prelude.{◌≡◌};
ghost use Rattle.cli_outcome.specs.Overlaps.{overlap_of};

use events::Event;

/// Returns how many other calls were open at the invocations among some events, added up.
pub fn overlap_of(events: &[Event]) -> u64
    ensures { result ≡ overlap_of events.now }
{
    let mut pending = 0u64;
    let mut overlap = 0u64;
    for event in events {
        match event {
            Event::Invoke { .. } => {
                overlap = overlap.saturating_add(pending);
                pending = pending.saturating_add(1);
            }
            Event::Answer { .. } => pending = pending.saturating_sub(1),
        }
    }
    overlap
}
