// From the values of a text's members to a replay.
ghost use Rattle.std.specs.Prelude.{◌≡◌, ℕ, ◌+◌, ◌≤◌, List, length, map, sum, All, Option, IsTrue, is_some, IfOk, IfSome, IfNone};
ghost use Rattle.serde_json.specs.Data.{Data};
ghost use Rattle.serde_json.specs.View.{view};
ghost use Rattle.events.specs.declared.event.Call.{Call};
ghost use Rattle.map_object.specs.MapObject.{IsRising};
ghost use Rattle.art_rows.specs.TreeCalls.{is_tree_call};
ghost use Rattle.plans.specs.Plans.{AreFew, AreTreeCalls, AreScripts};
ghost use Rattle.plan_text.specs.Scripts.{SpellsScripts};
ghost use Rattle.plan_text.specs.Replays.{ReplayView};
ghost use Rattle.art_core.specs.Starts.{inserts};
ghost use Rattle.art_rows.specs.declared.table.Shape.{Shape};
ghost use Rattle.art_rows.specs.declared.variant.Variant.{Variant};
ghost use Rattle.plan_text.specs.ReplayTexts.{SpellsStart, ArePartsOf};
ghost use Rattle.plan_text.specs.Settings.{AreSettings};
ghost use Rattle.plan_text.specs.ReplayViews.{shown};
ghost use Rattle.events.specs.Limits.{call_limit};

use crate::read_scripts::scripts_of;
use crate::replay::Replay;
use crate::schedules::schedule_of;
use crate::words::{shape_of, turns_of, variant_of};
use art_rows::{Shape, TreeCall, Variant};
use events::{MAX_CALLS, Memory};
use plans::{Plan, has_room};
use serde_json::Value;
use std::alloc::Global;

/// The replay whose parts the values spell, from these pairs on.
pub fn replay_with(
    alloc: Global,
    start: Vec<(u64, u64)>,
    may_replace: bool,
    limit: &Value,
    rows: &Value,
    schedule: &Value,
    scripts: &Value,
    variant: &Value,
) -> Result<Option<Replay>, Memory>
    requires rising { IsRising start.items }
    requires calls { All (λ call. IsTrue (is_tree_call call)) (inserts start.items) }
    ensures some { IfOk result (λ found. IfSome found (λ r. (s : Option Data) → is_some s ≡ may_replace → SpellsStart s start.items
        → ArePartsOf (record {
          limit = view limit.now;
          rows = view rows.now;
          schedule = view schedule.now;
          scripts = view scripts.now;
          start = s;
          variant = view variant.now;
        }) (shown r))) }
    ensures none { IfOk result (λ found. IfNone found ((s : Option Data) (r : ReplayView) → is_some s ≡ may_replace → r.start ≡ start.items
        → ArePartsOf (record {
          limit = view limit.now;
          rows = view rows.now;
          schedule = view schedule.now;
          scripts = view scripts.now;
          start = s;
          variant = view variant.now;
        }) r → ⊥)) }
{
    let Some((limit, shape, variant)) = settings_of(limit, rows, variant) else {
        return Ok(None);
    };
    let Some(schedule) = schedule_of(alloc, schedule)? else {
        return Ok(None);
    };
    let Some(scripts) = scripts_beside(alloc, start.len(), may_replace, scripts)? else {
        return Ok(None);
    };
    Ok(Some(Replay {
        limit,
        shape,
        variant,
        start,
        scripts,
        schedule,
    }))
}

/// The turns, the shape and the variant that these values spell, within the limits.
fn settings_of(limit: &Value, rows: &Value, variant: &Value) -> Option<(u32, Shape, Variant)>
    ensures some { IfSome result (λ p. AreSettings (view limit.now) (view rows.now) (view variant.now) p.0 p.1 p.2) }
    ensures none { IfNone result ((turns : ℕ) (shape : Shape) (name : Variant)
        → AreSettings (view limit.now) (view rows.now) (view variant.now) turns shape name → ⊥) }
{
    let turns = turns_of(limit)?;
    let shape = shape_of(rows)?;
    let name = variant_of(variant)?;
    Some((turns, shape, name))
}

/// The scripts of a plan that a value spells, if the calls leave room for this many pairs.
fn scripts_beside(
    alloc: Global,
    pairs: usize,
    may_replace: bool,
    value: &Value,
) -> Result<Option<Vec<Vec<TreeCall>>>, Memory>
    ensures spelled { IfOk result (λ found. IfSome found
        (λ scripts. SpellsScripts may_replace (view value.now) (map (λ script. script.items) scripts.items))) }
    ensures plan { IfOk result (λ found. IfSome found (λ scripts. AreScripts (map (λ script. script.items) scripts.items))) }
    ensures room { IfOk result (λ found. IfSome found
        (λ scripts. pairs + sum (map (λ script. length script) (map (λ script. script.items) scripts.items)) ≤ call_limit)) }
    ensures none { IfOk result (λ found. IfNone found ((scripts : List (List Call)) → SpellsScripts may_replace (view value.now) scripts
        → AreFew scripts → pairs + sum (map (λ script. length script) scripts) ≤ call_limit → ⊥)) }
{
    let Some(scripts) = scripts_of(alloc, may_replace, value)? else {
        return Ok(None);
    };
    Ok(few_beside(pairs, scripts))
}

/// Returns the scripts unchanged, if they are a plan's and the calls leave room for this many
/// pairs.
fn few_beside(pairs: usize, scripts: Vec<Vec<TreeCall>>) -> Option<Vec<Vec<TreeCall>>>
    requires { AreTreeCalls (map (λ script. script.items) scripts.items) }
    ensures same { IfSome result (λ found. map (λ script. script.items) found.items ≡ map (λ script. script.items) scripts.items) }
    ensures plan { IfSome result (λ found. AreScripts (map (λ script. script.items) found.items)) }
    ensures room { IfSome result (λ found. pairs + sum (map (λ script. length script)
        (map (λ script. script.items) found.items)) ≤ call_limit) }
    ensures none { IfNone result (AreFew (map (λ script. script.items) scripts.items)
        → pairs + sum (map (λ script. length script) (map (λ script. script.items) scripts.items)) ≤ call_limit → ⊥) }
{
    let left = MAX_CALLS.checked_sub(pairs)?;
    let Ok(plan) = Plan::from_scripts(scripts) else {
        return None;
    };
    let scripts = plan.into_scripts();
    if has_room(&scripts, left) {
        Some(scripts)
    } else {
        None
    }
}
