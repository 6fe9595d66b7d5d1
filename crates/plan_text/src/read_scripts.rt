// From a JSON value to the scripts that it spells.
ghost use Rattle.std.specs.Prelude.{◌≡◌, List, map, IsTrue, IfOk, IfSome, IfNone};
ghost use Rattle.serde_json.specs.View.{view};
ghost use Rattle.events.specs.declared.event.Call.{Call};
ghost use Rattle.history_text.specs.Texts.{call_data};
ghost use Rattle.plan_text.specs.Scripts.{script_data, is_script_call, is_script, are_scripts, SpellsScripts};

use art_rows::TreeCall;
use events::{Call, Memory};
use history_text::call_of;
use serde_json::Value;
use std::alloc::Global;

/// The scripts that a value spells, of calls within the trees' limits. They have a replace only if
/// the text may hold one. It returns `Err` if memory runs out. It takes time in proportion to the
/// calls.
pub fn scripts_of(
    alloc: Global,
    may_replace: bool,
    value: &Value,
) -> Result<Option<Vec<Vec<TreeCall>>>, Memory>
    ensures some { IfOk result (λ found. IfSome found
        (λ scripts. SpellsScripts may_replace (view value.now) (map (λ script. script.items) scripts.items))) }
    ensures none { IfOk result (λ found. IfNone found ((scripts : List (List Call))
        → SpellsScripts may_replace (view value.now) scripts → ⊥)) }
{
    match value.as_array() {
        Some(items) => scripts_among(alloc, may_replace, items),
        None => Ok(None),
    }
}

/// The scripts that the items of an array spell.
fn scripts_among(
    alloc: Global,
    may_replace: bool,
    items: &[Value],
) -> Result<Option<Vec<Vec<TreeCall>>>, Memory>
    ensures spelled { IfOk result (λ found. IfSome found
        (λ scripts. map view items.now ≡ map script_data (map (λ script. script.items) scripts.items))) }
    ensures standing { IfOk result (λ found. IfSome found
        (λ scripts. IsTrue (are_scripts may_replace (map (λ script. script.items) scripts.items)))) }
    ensures none { IfOk result (λ found. IfNone found ((scripts : List (List Call))
        → map view items.now ≡ map script_data scripts → IsTrue (are_scripts may_replace scripts) → ⊥)) }
{
    let mut scripts = Vec::new(alloc);
    for item in items {
        let Some(script) = script_of(alloc, may_replace, item)? else {
            return Ok(None);
        };
        scripts.push(script)?;
    }
    Ok(Some(scripts))
}

/// The script that a value spells.
fn script_of(
    alloc: Global,
    may_replace: bool,
    value: &Value,
) -> Result<Option<Vec<TreeCall>>, Memory>
    ensures spelled { IfOk result (λ found. IfSome found (λ calls. view value.now ≡ script_data calls.items)) }
    ensures standing { IfOk result (λ found. IfSome found (λ calls. IsTrue (is_script may_replace calls.items))) }
    ensures none { IfOk result (λ found. IfNone found ((calls : List Call)
        → view value.now ≡ script_data calls → IsTrue (is_script may_replace calls) → ⊥)) }
{
    match value.as_array() {
        Some(items) => calls_among(alloc, may_replace, items),
        None => Ok(None),
    }
}

/// The calls that the items of an array spell.
fn calls_among(
    alloc: Global,
    may_replace: bool,
    items: &[Value],
) -> Result<Option<Vec<TreeCall>>, Memory>
    ensures spelled { IfOk result (λ found. IfSome found (λ calls. map view items.now ≡ map call_data calls.items)) }
    ensures standing { IfOk result (λ found. IfSome found (λ calls. IsTrue (is_script may_replace calls.items))) }
    ensures none { IfOk result (λ found. IfNone found ((calls : List Call)
        → map view items.now ≡ map call_data calls → IsTrue (is_script may_replace calls) → ⊥)) }
{
    let mut calls = Vec::new(alloc);
    for item in items {
        let Some(call) = tree_call_of(may_replace, item) else {
            return Ok(None);
        };
        calls.push(call)?;
    }
    Ok(Some(calls))
}

/// The call that a value spells, if a script may have it.
fn tree_call_of(may_replace: bool, value: &Value) -> Option<TreeCall>
    ensures spelled { IfSome result (λ call. view value.now ≡ call_data call) }
    ensures standing { IfSome result (λ call. IsTrue (is_script_call may_replace call)) }
    ensures none { IfNone result ((call : Call)
        → view value.now ≡ call_data call → IsTrue (is_script_call may_replace call) → ⊥) }
{
    let call = call_of(value)?;
    if may_replace || !matches!(call, Call::Replace(..)) {
        TreeCall::new(&call)
    } else {
        None
    }
}
