// What a machine begins with.
ghost use Rattle.std.specs.Prelude.{map, IfOk};
ghost use Rattle.std.specs.List.{AllZip};
ghost use Rattle.machine.specs.Opening.{IsFresh};

use crate::runner::Runner;
use art::{Doing, TreeCall};
use events::Memory;
use std::alloc::Global;

/// A process for each script, before its first step.
pub fn runners(alloc: Global, scripts: Vec<Vec<TreeCall>>) -> Result<Vec<Runner>, Memory>
    ensures { IfOk result (λ runners. AllZip IsFresh (map (λ script. script.items) scripts.items) runners.items) }
{
    let mut runners = Vec::new(alloc);
    for script in scripts {
        runners.push(fresh_runner(alloc, script))?;
    }
    Ok(runners)
}

/// A process before its first step.
fn fresh_runner(alloc: Global, script: Vec<TreeCall>) -> Runner
    ensures { IsFresh script.items result }
{
    Runner {
        script,
        begun: 0,
        finished: 0,
        doing: Doing::Idle,
        log: Vec::new(alloc),
    }
}
