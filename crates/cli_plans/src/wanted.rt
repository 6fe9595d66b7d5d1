// Hints next to the line of a fault of a plan or of a replay: what was expected.
ghost use Rattle.std.specs.Prelude.{◌≡◌};
ghost use Rattle.cli_plans.specs.Wanted.{plan_expected, machine_expected, replay_expected, too_long_expected};

use cli_outcome::{json_expected, length_expected};
use plans::{MachineFault, PlanFault};
use replays::ReplayFault;

/// What was expected where a plan has this fault.
pub(crate) fn plan_expected(fault: PlanFault) -> &'static str
    ensures { result.now ≡ plan_expected fault }
{
    match fault {
        PlanFault::BadMix => "shares of gets, inserts, removes and scans that are 100 together",
        PlanFault::BadRange => "a least key that is not above the greatest",
        PlanFault::TooMany => {
            "1 to 64 scripts, at most 4096 calls in all, and to be done at most 4096 as scripts times the longest of them"
        }
        PlanFault::Memory => "",
        PlanFault::TooLong => length_expected(),
        PlanFault::NotJson => json_expected(),
        PlanFault::Shape => {
            "{\"version\":1,\"scripts\":[[C,..],..]}; C is [\"get\",K], [\"insert\",K,V], [\"remove\",K], [\"scan\",LO,HI] \
            with LO <= HI, or in version 2 [\"replace\",K,OLD,NEW]; keys are from 0 to 4294967295, values from 0 to 1073741823"
        }
    }
}

/// What was expected if the text of a replay gives no history.
pub(crate) fn replay_expected(fault: &ReplayFault) -> &'static str
    ensures { result.now ≡ replay_expected fault.now }
{
    match fault {
        ReplayFault::Replay(fault) => machine_expected(*fault),
        ReplayFault::Schedule(stop) => machine_expected(stop.fault),
        ReplayFault::Memory => "",
    }
}

/// What was expected where a replay or its schedule has this fault.
fn machine_expected(fault: MachineFault) -> &'static str
    ensures { result.now ≡ machine_expected fault }
{
    match fault {
        MachineFault::NoProcess => "an item whose process has a script, from 0",
        MachineFault::NothingToDo =>
            "a process with an open call, or with a call left in its script",
        MachineFault::TurnLimit => "no more turns than the limit",
        MachineFault::Memory => "",
        MachineFault::TooLong => length_expected(),
        MachineFault::NotJson => json_expected(),
        MachineFault::Shape => {
            "{\"version\":1,\"variant\":NAME,\"rows\":[N,N,N,N],\"limit\":N,\"scripts\":[[C,..],..],\"schedule\":[ITEM,..]}, and in \
            version 2 \"start\":[[K,V],..]; ITEM is [P,\"turns\",N], [P,\"end\"] or [P,\"until\",POINT]; C is as in a plan"
        }
        MachineFault::StartRefused => "rows that have room for the starting pairs",
    }
}

/// Returns the hint on a schedule with more items than a replay may have.
pub(crate) fn too_long_expected() -> &'static str
    ensures { result.now ≡ too_long_expected }
{
    "a schedule of at most 100000 items: fewer operations, or a lower --limit"
}
