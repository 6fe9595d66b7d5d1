// Plans that are drawn.
ghost use Rattle.std.specs.Prelude.{◌≡◌, ◌↔◌, ◌<◌, ◌^◌, map, IfOk, IfErr, OnOk, IsTrue};
ghost use Rattle.workload.specs.Mixes.{IsWholeMix, HasKeys, AreWithin};
ghost use Rattle.workload.specs.Workloads.{scripts_of, IsDrawFault};

use crate::drawn::script;
use crate::mix::Mix;
use art_rows::TreeCall;
use events::{MAX_CALLS, Memory, PROCESSES};
use plans::{Plan, PlanFault};
use std::alloc::Global;

/// The plan of this many processes, with this many calls each, as they are drawn from a seed.
/// Otherwise the first fault: `BadMix`, `BadRange`, `TooMany`, or `Memory`. It takes time in
/// proportion to the calls.
pub fn plan(
    alloc: Global,
    seed: u64,
    mix: &Mix,
    processes: u32,
    calls: u32,
) -> Result<Plan, PlanFault>
    ensures drawn { IfOk result (λ plan. plan ≡ scripts_of seed mix.now processes calls) }
    ensures sound { OnOk result
        (IsWholeMix mix.now × HasKeys mix.now × AreWithin processes calls) }
    ensures refused { IfErr result (IsDrawFault mix.now processes calls) }
{
    test_arguments(mix, processes, calls)?;
    let scripts = scripts(alloc, seed, mix, processes, calls)?;
    Plan::from_scripts(scripts)
}

/// Whether a plan may be drawn so; else why not.
fn test_arguments(mix: &Mix, processes: u32, calls: u32) -> Result<(), PlanFault>
    ensures sound { OnOk result
        (IsWholeMix mix.now × HasKeys mix.now × AreWithin processes calls) }
    ensures small { OnOk result (mix.now.hi < 2 ^ 32) }
    ensures refused { IfErr result (IsDrawFault mix.now processes calls) }
{
    if !is_whole(mix) {
        return Err(PlanFault::BadMix);
    }
    if mix.hi < mix.lo {
        return Err(PlanFault::BadRange);
    }
    if !are_within(processes, calls) {
        return Err(PlanFault::TooMany);
    }
    Ok(())
}

/// Whether the shares of the kinds are a hundred together.
fn is_whole(mix: &Mix) -> bool
    ensures { IsTrue result ↔ IsWholeMix mix.now }
{
    let get = u64::from(mix.get);
    let insert = u64::from(mix.insert);
    let remove = u64::from(mix.remove);
    get + insert + remove + u64::from(mix.scan) == 100
}

/// Whether a plan may have this many processes, with this many calls each.
fn are_within(processes: u32, calls: u32) -> bool
    ensures { IsTrue result ↔ AreWithin processes calls }
{
    1 <= processes
        && processes <= u32::from(PROCESSES)
        && u64::from(processes) * u64::from(calls) <= MAX_CALLS as u64
}

/// The scripts of this many processes.
fn scripts(
    alloc: Global,
    seed: u64,
    mix: &Mix,
    processes: u32,
    calls: u32,
) -> Result<Vec<Vec<TreeCall>>, Memory>
    requires mix { IsWholeMix mix.now }
    requires keys { HasKeys mix.now }
    ensures drawn { IfOk result (λ scripts. map (λ script. script.items) scripts.items ≡ scripts_of seed mix.now processes calls) }
{
    let mut scripts = Vec::new(alloc);
    for process in 0..processes {
        scripts.push(script(alloc, seed, mix, calls, process)?)?;
    }
    Ok(scripts)
}
