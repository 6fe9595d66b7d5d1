// One process enters the gate, and then does its script.
ghost use Rattle.std.specs.Prelude.{◌≡◌, ◌≤◌, IfOk, length};
ghost use Rattle.running.specs.Groups.{shows, opened_for, IsGroup, IsGroupOf};
ghost use Rattle.running.specs.Steps.{least_process};
ghost use Rattle.running.specs.ScriptGroups.{IsReady, ShowsDone};

use crate::arena::Arena;
use crate::group::Pass;
use crate::progress::Progress;
use art::TreeCall;
use events::Memory;
use pool::Gate;
use std::alloc::Global;

/// A group whose process has passed the gate. Only such a group makes steps, and only `enter`
/// returns one.
#[derive(Drop)]
pub(crate) struct Entered {
    group: Pass,
}

/// Lets the group's process enter the gate, with its number.
pub(crate) fn enter<G: Gate>(gate: &G, group: Pass) -> Entered
    requires { IsGroup group }
    ensures same { result.group ≡ group }
    ensures passed { G.was_passed gate.now (least_process (shows group)) }
{
    gate.enter(usize::from(group.process()));
    Entered { group }
}

/// Begins the calls of a script, one after another, and makes at most this many steps of each. It
/// stops at a call that is still open after them. It returns `Err` if memory runs out.
pub(crate) fn do_script(
    alloc: Global,
    arena: &Arena,
    entered: Entered,
    script: &[TreeCall],
    limit: u32,
) -> Result<Pass, Memory>
    requires ready { IsReady arena.now entered.group }
    requires room { length script.now ≤ (opened_for arena.now).calls_each }
    ensures own { IfOk result (IsGroupOf arena.now) }
    ensures done { IfOk result (λ p. ShowsDone (opened_for arena.now) (least_process (shows entered.group)) limit script.now (shows p)) }
{
    let mut group = entered.group;
    for call in script {
        arena.begin(&mut group, *call)?;
        match arena.advance(alloc, &mut group, limit)? {
            Progress::Done(_) => {}
            Progress::Going => return Ok(group),
        }
    }
    Ok(group)
}
