// A group for each process, and one for all again.
ghost use Rattle.std.specs.Prelude.{◌≡◌, ◌<◌, ◌≤◌, All, IfOk, Some, vec_len};
ghost use Rattle.running.specs.Views.{all_idle};
ghost use Rattle.running.specs.Groups.{shows, opened_for, IsGroupOf};
ghost use Rattle.running.specs.ScriptGroups.{IsReady, joined};

use crate::arena::Arena;
use crate::group::Pass;
use events::Memory;
use std::alloc::Global;

/// Returns a group for each of the processes, by falling number. It returns `Err` if memory runs
/// out.
pub(crate) fn part_all(
    alloc: Global,
    arena: &Arena,
    group: Pass,
    processes: u8,
) -> Result<Vec<Pass>, Memory>
    requires own { IsGroupOf arena.now group }
    requires all { shows group ≡ all_idle (opened_for arena.now) }
    requires processes { processes ≡ (opened_for arena.now).processes }
    requires some { 1 ≤ processes }
    ensures ready { IfOk result (λ groups. All (IsReady arena.now) groups.items) }
    ensures many { IfOk result (λ groups. vec_len groups ≡ processes) }
{
    let mut groups = Vec::with_capacity(alloc, usize::from(processes))?;
    let mut rest = group;
    for _given in 1..processes {
        let last = arena.split(alloc, &mut rest)?;
        groups.push(last)?;
    }
    groups.push(rest)?;
    Ok(groups)
}

/// Returns one group with the processes of all groups, unless one of them ran out of memory.
pub(crate) fn join_all(arena: &Arena, done: Vec<Result<Pass, Memory>>) -> Result<Pass, Memory>
    requires some { 0 < vec_len done }
    requires own { All (λ d. IfOk d (IsGroupOf arena.now)) done.items }
    ensures own { IfOk result (IsGroupOf arena.now) }
    ensures joined { IfOk result (λ all. joined done.items ≡ Some (shows all).processes) }
{
    let mut done = done.into_iter();
    let mut all = match done.next() {
        Some(first) => first?,
        None => unreachable!(),
    };
    for group in done {
        arena.join(&mut all, group?);
    }
    Ok(all)
}
