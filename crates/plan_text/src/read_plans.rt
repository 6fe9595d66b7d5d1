// From a text to a plan.
ghost use Rattle.std.specs.Prelude.{◌≡◌, List, map, IfOk, IfErr, IfSome, IfNone};
ghost use Rattle.serde_json.specs.View.{view};
ghost use Rattle.events.specs.declared.event.Call.{Call};
ghost use Rattle.history_text.specs.Texts.{IsJson};
ghost use Rattle.plans.specs.declared.fault.PlanFault.TheVariants as faults;
ghost use Rattle.plans.specs.Plans.{AreFew, AreScripts, AreTreeCalls};
ghost use Rattle.plan_text.specs.PlanTexts.{SpellsPlanAs, SpellsPlan};
ghost use Rattle.plan_text.specs.PlanTextFaults.{SpellsNoPlan, IsPlanFormFault, IsPlanTextFault};

use crate::read_scripts::scripts_of;
use art_rows::TreeCall;
use events::Memory;
use history_text::{JsonFault, json_of, two_members};
use plans::{Plan, PlanFault};
use serde_json::Value;
use std::alloc::Global;

/// Reads the plan that a text spells: JSON in UTF-8, in any spacing and order of members. Otherwise
/// returns the text's first fault, or `Memory`. It tests first the length of the text, then that it
/// is JSON, then its form over the whole text (`Shape`), then how many scripts and calls it has
/// (`TooMany`). In addition to the reading of the JSON it takes time in proportion to the calls.
pub fn read_plan(alloc: Global, text: &[u8]) -> Result<Plan, PlanFault>
    ensures spelled { IfOk result (SpellsPlan text.now) }
    ensures within { IfOk result AreScripts }
    ensures refused { IfErr result (IsPlanTextFault text.now) }
    ensures accepted { (scripts : List (List Call)) → SpellsPlan text.now scripts → AreFew scripts
        → IfErr result (λ fault. fault ≡ faults.Memory) }
{
    let value = value_of(alloc, text)?;
    let scripts = plan_scripts(alloc, &value)?;
    Plan::from_scripts(scripts)
}

/// The JSON value of a text that is not too long.
fn value_of(alloc: Global, text: &[u8]) -> Result<Value, PlanFault>
    ensures ok { IfOk result (λ value. IsJson text.now (view value)) }
    ensures refused { IfErr result (IsPlanTextFault text.now) }
{
    match json_of(alloc, text) {
        Ok(value) => Ok(value),
        Err(JsonFault::TooLong) => Err(PlanFault::TooLong),
        Err(JsonFault::NotJson) => Err(PlanFault::NotJson),
        Err(JsonFault::Memory) => Err(PlanFault::Memory),
    }
}

/// The scripts that the value of a plan's text spells, however many.
fn plan_scripts(alloc: Global, value: &Value) -> Result<Vec<Vec<TreeCall>>, PlanFault>
    ensures spelled { IfOk result
        (λ scripts. SpellsPlanAs (view value.now) (map (λ script. script.items) scripts.items)) }
    ensures calls { IfOk result (λ scripts. AreTreeCalls (map (λ script. script.items) scripts.items)) }
    ensures refused { IfErr result (IsPlanFormFault (view value.now)) }
{
    match scripts_of_either(alloc, value)? {
        Some(scripts) => Ok(scripts),
        None => Err(PlanFault::Shape),
    }
}

/// The scripts that the value of a plan's text of either version spells.
fn scripts_of_either(alloc: Global, value: &Value) -> Result<Option<Vec<Vec<TreeCall>>>, Memory>
    ensures spelled { IfOk result (λ found. IfSome found
        (λ scripts. SpellsPlanAs (view value.now) (map (λ script. script.items) scripts.items))) }
    ensures none { IfOk result (λ found. IfNone found (SpellsNoPlan (view value.now))) }
{
    let Some((scripts, version)) = two_members(value, "scripts", "version") else {
        return Ok(None);
    };
    match version.as_u64() {
        Some(1) => scripts_of(alloc, false, scripts),
        Some(2) => scripts_of(alloc, true, scripts),
        _ => Ok(None),
    }
}
