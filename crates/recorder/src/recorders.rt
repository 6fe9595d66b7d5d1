// The shared part of a recorder.
ghost use Rattle.std.specs.Prelude.{◌≡◌, ◌*◌, ◌≤◌};
ghost use Rattle.tickets.specs.Hands.{quota_of};
ghost use Rattle.events.specs.Limits.{process_limit, call_limit};

use tickets::Tickets;

/// The part that the threads of all processes share. A pass is used only with its own recorder.
#[derive(Drop)]
pub struct Recorder {
    pub(crate) tickets: Tickets,
    pub(crate) processes: u8,
    pub(crate) calls_each: u32,
    ghost quota: { quota_of tickets ≡ 2 * (processes * calls_each) },
    ghost some: { 1 ≤ processes },
    ghost known: { processes ≤ process_limit },
    ghost few: { processes * calls_each ≤ call_limit },
}
