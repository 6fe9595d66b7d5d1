// The process of an event.
ghost use Rattle.std.specs.Prelude.{◌≡◌};
ghost use Rattle.cli_explain.specs.Reports.{process_at};

use events::Event;

/// Returns the process of the event at a place, or 0 if there is none.
pub(crate) fn process_at(events: &[Event], place: usize) -> u8
    ensures { result ≡ process_at events.now place }
{
    match events.get(place) {
        Some(event) => event.process(),
        None => 0,
    }
}
