// The open calls of processes.
ghost use Rattle.std.specs.Prelude.{◌≡◌};
ghost use Rattle.follow_monitor.specs.MonitorView.{known_call};

use events::Call;
use std::collections::BTreeMap;

/// An open call: the event of its invocation, its number among the calls of the stream, and the
/// call.
#[derive(Clone, Copy)]
pub struct OpenCall {
    pub event: usize,
    pub number: usize,
    pub call: Call,
}

/// The open call of a process.
pub(crate) fn open_call(calls: &BTreeMap<u16, OpenCall>, process: u16) -> Option<OpenCall>
    ensures { result ≡ known_call calls.now.entries process }
{
    calls.get(&process).copied()
}
