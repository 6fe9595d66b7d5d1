// The lanes of a picture.
ghost use Rattle.std.specs.Prelude.{◌≡◌, ◌<◌, IfOk, Some, Contains, slice_get};
ghost use Rattle.draw_picture.specs.Lanes.{has_events, lanes};

use events::{Event, Memory, PROCESSES};
use std::alloc::Global;

/// Returns a lane for each process that has a call, by rising number. It takes time in proportion
/// to the events, for a fixed number of processes.
pub fn lanes_of(alloc: Global, events: &[Event]) -> Result<Vec<u8>, Memory>
    ensures { IfOk result (λ v. v.items ≡ lanes events.now) }
{
    let mut lanes = Vec::new(alloc);
    for process in 0..PROCESSES {
        if has_events(events, process) {
            lanes.push(process)?;
        }
    }
    Ok(lanes)
}

/// Returns whether a process has an event.
fn has_events(events: &[Event], process: u8) -> bool
    ensures { result ≡ has_events events.now process }
{
    events.iter().any(|event| event.process() == process)
}

/// Returns the place of a process among the lanes.
pub fn lane_of(lanes: &[u8], process: u8) -> usize
    requires { Contains lanes.now process }
    ensures { slice_get lanes.now result ≡ Some process }
{
    for (place, lane) in lanes.iter().enumerate() {
        if *lane == process {
            return place;
        }
    }
    unreachable!()
}
