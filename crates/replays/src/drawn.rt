// The replay of a schedule that is drawn.
ghost use Rattle.std.specs.Prelude.{◌≡◌, ◌≤◌, ◌<◌, map, length, IfOk, OnErr, IfErr};
ghost use Rattle.art_core.specs.Core.{opened};
ghost use Rattle.art_core.specs.Plans.{IsPlan};
ghost use Rattle.art_rows.specs.Table.{IsWithinLimits};
ghost use Rattle.machine.specs.Running.{plan_of};
ghost use Rattle.plans.specs.Plans.{AreScripts};
ghost use Rattle.plan_text.specs.Replays.{turn_limit, item_limit};
ghost use Rattle.plan_text.specs.ReplayViews.{shown};
ghost use Rattle.replays.specs.Drawn.{IsDrawnReplay, IsDrawnRun, IsScheduleOf, IsUndrawn};

use crate::choice::Choice;
use crate::draw::{Draw, Strategy};
use crate::draw_fault::{DrawFault, out_of_memory};
use crate::items::items_of;
use crate::turns::drawn_turns;
use art_core::Item;
use art_rows::{Shape, TreeCall, Variant};
use events::Memory;
use machine::Machine;
use plan_text::{MAX_ITEMS, Replay};
use std::alloc::Global;

/// A replay of the scripts, without starting pairs, by a schedule that is drawn: each turn of it
/// can be made. It has at most this many turns. It ends earlier if no process has anything left to
/// do, or if each that has waits for a lock.
pub fn drawn_replay(
    alloc: Global,
    shape: Shape,
    variant: Variant,
    limit: u32,
    scripts: Vec<Vec<TreeCall>>,
    draw: &Draw,
) -> Result<Replay, DrawFault>
    requires shape { IsWithinLimits shape }
    requires scripts { AreScripts (map (λ script. script.items) scripts.items) }
    requires some_turn { 1 ≤ limit }
    requires few_turns { limit ≤ turn_limit }
    ensures drawn { IfOk result (λ r. IsDrawnReplay shape variant limit (map (λ script. script.items) scripts.items) (shown r)) }
    ensures refused { IfErr result (IsUndrawn shape variant limit (map (λ script. script.items) scripts.items)) }
{
    let schedule = drawn_schedule(alloc, shape, variant, limit, &scripts, draw)?;
    if schedule.len() > MAX_ITEMS {
        return Err(DrawFault::TooManyItems);
    }
    Ok(Replay {
        limit,
        shape,
        variant,
        start: Vec::new(alloc),
        scripts,
        schedule,
    })
}

/// The items of a schedule of the scripts that is drawn.
fn drawn_schedule(
    alloc: Global,
    shape: Shape,
    variant: Variant,
    limit: u32,
    scripts: &[Vec<TreeCall>],
    draw: &Draw,
) -> Result<Vec<Item>, Memory>
    requires shape { IsWithinLimits shape }
    requires scripts { AreScripts (map (λ script. script.items) scripts.now) }
    ensures { IfOk result (λ items. IsScheduleOf (plan_of shape variant (map (λ script. script.items) scripts.now)) limit items.items) }
{
    let changes = changes_before(alloc, shape, variant, limit, scripts, draw)?;
    let turns = run_of(alloc, shape, variant, limit, scripts, draw, changes)?;
    items_of(alloc, &turns)
}

/// Priorities change before this turn: with `Pct` it is the length of a schedule without changes,
/// and otherwise 0.
fn changes_before(
    alloc: Global,
    shape: Shape,
    variant: Variant,
    limit: u32,
    scripts: &[Vec<TreeCall>],
    draw: &Draw,
) -> Result<u32, Memory>
    requires shape { IsWithinLimits shape }
    requires scripts { AreScripts (map (λ script. script.items) scripts.now) }
{
    match draw.strategy {
        Strategy::Pct => {
            let turns = run_of(alloc, shape, variant, limit, scripts, draw, 0)?;
            Ok(turns.len() as u32)
        }
        _ => Ok(0),
    }
}

/// The turns of the scripts that are drawn, with changes of priorities before this turn.
fn run_of(
    alloc: Global,
    shape: Shape,
    variant: Variant,
    limit: u32,
    scripts: &[Vec<TreeCall>],
    draw: &Draw,
    changes: u32,
) -> Result<Vec<usize>, Memory>
    requires shape { IsWithinLimits shape }
    requires scripts { AreScripts (map (λ script. script.items) scripts.now) }
    ensures { IfOk result (λ turns. IsDrawnRun (plan_of shape variant (map (λ script. script.items) scripts.now))
        (opened (plan_of shape variant (map (λ script. script.items) scripts.now))) limit turns.items) }
{
    let mut choice = Choice::new(alloc, draw, scripts.len(), changes)?;
    let copies = copied(alloc, scripts)?;
    match Machine::open(alloc, shape, variant, copies, limit) {
        Ok(mut machine) => drawn_turns(alloc, &mut machine, &mut choice, limit),
        Err(fault) => Err(out_of_memory(fault)),
    }
}

/// The scripts again.
fn copied(alloc: Global, scripts: &[Vec<TreeCall>]) -> Result<Vec<Vec<TreeCall>>, Memory>
    ensures { IfOk result (λ copies. map (λ script. script.items) copies.items ≡ map (λ script. script.items) scripts.now) }
{
    let mut copies = Vec::new(alloc);
    for script in scripts {
        copies.push(Vec::from_slice(alloc, script)?)?;
    }
    Ok(copies)
}
