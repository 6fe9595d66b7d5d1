// A plan is driven on one tree.
ghost use Rattle.std.specs.Prelude.{◌≡◌, ◌≤◌, map, length, vec_len, All, EachIndex, IfOk, OnOk};
ghost use Rattle.art_rows.specs.Table.{IsWithinLimits};
ghost use Rattle.running.specs.Drives.{IsDrivable};
ghost use Rattle.running.specs.Groups.{opened_for};
ghost use Rattle.running.specs.ArenaDrives.{IsArenaDriveOf};
ghost use Rattle.running.specs.ScriptGroups.{IsReady, IsGroupAfter, WantsMemory};

use crate::arena::Arena;
use crate::arena_script::{do_script, enter};
use crate::fault::ArenaClose;
use crate::group::Pass;
use crate::parts::{join_all, part_all};
use crate::room::most_calls;
use art::{Shape, TreeCall, Variant};
use events::{History, Memory};
use plans::Plan;
use pool::Gate;
use std::alloc::{AllocError, Global};
use std::thread;
use std::thread::Threads;

/// Lets each process of the plan do its script on one tree, one call after another, in a thread of
/// its own. The tree is empty at first. A process passes the gate once, with its number. Then it
/// begins each call, and makes at most `limit` steps of it after its invocation. If the call is
/// still open then, the process stops.
///
/// A process that gets no thread does its script later, in the thread that was to start it. The
/// call returns when all processes are done or have stopped. It costs a thread for each process, an
/// atomic step for each step of a call, and two for its invocation. It returns `Err` if memory runs
/// out.
pub fn drive_arena<R: Threads + Sync, G: Gate + Sync>(
    rt: &R,
    alloc: Global,
    plan: &Plan,
    shape: Shape,
    variant: Variant,
    limit: u32,
    gate: &G,
) -> Result<History, Memory>
    requires plan { IsDrivable plan.now }
    requires shape { IsWithinLimits shape }
    ensures drive { IfOk result (λ h. IsArenaDriveOf shape variant limit plan.now h) }
    ensures passed { OnOk result (EachIndex plan.now (G.was_passed gate.now)) }
{
    let scripts = plan.scripts();
    let processes = scripts.len() as u8;
    let (arena, group) = Arena::open(alloc, shape, variant, processes, most_calls(scripts) as u32)?;
    let groups = part_all(alloc, &arena, group, processes)?;
    let done = do_scripts(rt, alloc, &arena, groups, scripts, limit, gate)?;
    let group = join_all(&arena, done)?;
    match arena.close(alloc, group) {
        Ok(history) => Ok(history),
        Err(fault) => Err(want_of_memory(fault)),
    }
}

/// Lets all processes do their scripts, each in a thread of its own if one can be made. Returns
/// their results, in the order of the groups.
fn do_scripts<R: Threads + Sync, G: Gate + Sync>(
    rt: &R,
    alloc: Global,
    arena: &Arena,
    groups: Vec<Pass>,
    scripts: &[Vec<TreeCall>],
    limit: u32,
    gate: &G,
) -> Result<Vec<Result<Pass, Memory>>, AllocError>
    requires ready { All (IsReady arena.now) groups.items }
    requires processes { (opened_for arena.now).processes ≡ length scripts.now }
    requires room { All (λ script. vec_len script ≤ (opened_for arena.now).calls_each) scripts.now }
    ensures many { IfOk result (λ done. vec_len done ≡ vec_len groups) }
    ensures done { IfOk result (λ done. All (λ d. IfOk d (IsGroupAfter (G.was_passed gate.now) arena.now limit
        (map (λ script. script.items) scripts.now))) done.items) }
{
    thread::map_vec(
        rt,
        groups,
        &|group| { do_own_script(alloc, arena, group, scripts, limit, gate) },
    )
}

/// Lets a process enter the gate and do its own script.
fn do_own_script<G: Gate>(
    alloc: Global,
    arena: &Arena,
    group: Pass,
    scripts: &[Vec<TreeCall>],
    limit: u32,
    gate: &G,
) -> Result<Pass, Memory>
    requires ready { IsReady arena.now group }
    requires processes { (opened_for arena.now).processes ≡ length scripts.now }
    requires room { All (λ script. vec_len script ≤ (opened_for arena.now).calls_each) scripts.now }
    ensures { IfOk result (IsGroupAfter (G.was_passed gate.now) arena.now limit (map (λ script. script.items) scripts.now)) }
{
    let process = usize::from(group.process());
    do_script(alloc, arena, enter(gate, group), &scripts[process], limit)
}

/// Returns out of memory, which is the only reason why an arena was not closed.
fn want_of_memory(fault: ArenaClose) -> Memory
    requires { WantsMemory fault }
{
    match fault {
        ArenaClose::Memory(_, _) => Memory,
        ArenaClose::StillOut(_, _) => unreachable!(),
    }
}
