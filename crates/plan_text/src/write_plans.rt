// From a plan to its text.
ghost use Rattle.std.specs.Prelude.{◌≡◌, [], not, codes, map, IfOk, OnOk, string_bytes};
ghost use Rattle.serde_json.specs.View.{view};
ghost use Rattle.serde_json.specs.Written.{compact_text};
ghost use Rattle.events.specs.PlainHistories.{is_replace};
ghost use Rattle.history_text.specs.Texts.{call_data, number_data};
ghost use Rattle.history_text.specs.ValueFaults.{object_of_two};
ghost use Rattle.plans.specs.Plans.{AreScripts};
ghost use Rattle.plan_text.specs.Scripts.{script_data, scripts_data};
ghost use Rattle.plan_text.specs.PlanTexts.{version_of, is_plain_script, are_plain_scripts, written_data, SpellsPlan};

use art_rows::TreeCall;
use events::{Call, Memory};
use history_text::call_value;
use plans::Plan;
use serde_json::{Value, json};
use std::alloc::{AllocError, Global};

/// The text of a plan in the compact form: no spaces, members by rising bytes, numbers in plain
/// decimal. It is of version 1 if no call is a replace, and else of version 2. It is never too long
/// for the reader.
pub fn write_plan(alloc: Global, plan: &Plan) -> Result<String, Memory>
    ensures compact { IfOk result (λ text. string_bytes text ≡ compact_text (written_data plan.now)) }
    ensures again { IfOk result (λ text. SpellsPlan (string_bytes text) plan.now) }
{
    let value = plan_value(alloc, plan)?;
    Ok(value.to_string(alloc)?)
}

fn plan_value(alloc: Global, plan: &Plan) -> Result<Value, AllocError>
    ensures value { IfOk result (λ value. view value ≡ written_data plan.now) }
    ensures scripts { OnOk result (AreScripts plan.now) }
{
    let scripts = scripts_value(alloc, plan.scripts())?;
    let value = plan_object(alloc, scripts, version_of(plan.scripts()))?;
    Ok(value)
}

/// The version of a text with these scripts.
fn version_of(scripts: &[Vec<TreeCall>]) -> u64
    ensures { result ≡ version_of (not (are_plain_scripts (map (λ script. script.items) scripts.now))) }
{
    if are_plain_scripts(scripts) { 1 } else { 2 }
}

/// The JSON value of a text with these scripts, of a version.
fn plan_object(alloc: Global, scripts: Value, version: u64) -> Result<Value, AllocError>
    ensures { IfOk result (λ value. view value
        ≡ object_of_two (codes "scripts") (view scripts) (codes "version") (number_data version)) }
{
    json!(in alloc; {"scripts": scripts, "version": version})
}

/// Whether no call of any script is a replace.
pub fn are_plain_scripts(scripts: &[Vec<TreeCall>]) -> bool
    ensures { result ≡ are_plain_scripts (map (λ script. script.items) scripts.now) }
{
    for script in scripts {
        if !is_plain_script(script) {
            return false;
        }
    }
    true
}

fn is_plain_script(calls: &[TreeCall]) -> bool
    ensures { result ≡ is_plain_script calls.now }
{
    for call in calls {
        if !is_plain_call(call) {
            return false;
        }
    }
    true
}

fn is_plain_call(call: &TreeCall) -> bool
    ensures { result ≡ not (is_replace call.now) }
{
    !matches!(call.call(), Call::Replace(..))
}

/// The JSON value of the scripts.
pub fn scripts_value(alloc: Global, scripts: &[Vec<TreeCall>]) -> Result<Value, AllocError>
    ensures { IfOk result (λ value. view value ≡ scripts_data (map (λ script. script.items) scripts.now)) }
{
    let mut items = Vec::new(alloc);
    push_scripts(alloc, scripts, &mut items)?;
    Ok(Value::from(items))
}

/// Adds the values of the scripts, if there is none yet.
fn push_scripts(
    alloc: Global,
    scripts: &[Vec<TreeCall>],
    items: &mut Vec<Value>,
) -> Result<(), AllocError>
    requires { items.old.items ≡ [] }
    ensures { OnOk result (map view items.new.items ≡ map script_data (map (λ script. script.items) scripts.now)) }
{
    for script in scripts {
        items.push(script_value(alloc, script)?)?;
    }
    Ok(())
}

fn script_value(alloc: Global, calls: &[TreeCall]) -> Result<Value, AllocError>
    ensures { IfOk result (λ value. view value ≡ script_data calls.now) }
{
    let mut items = Vec::new(alloc);
    push_calls(alloc, calls, &mut items)?;
    Ok(Value::from(items))
}

/// Adds the values of the calls, if there is none yet.
fn push_calls(alloc: Global, calls: &[TreeCall], items: &mut Vec<Value>) -> Result<(), AllocError>
    requires { items.old.items ≡ [] }
    ensures { OnOk result (map view items.new.items ≡ map call_data calls.now) }
{
    for call in calls {
        items.push(call_value(alloc, &call.call())?)?;
    }
    Ok(())
}
