// From a text to a replay.
ghost use Rattle.std.specs.Prelude.{◌≡◌, IfOk, IfErr, IfSome, IfNone};
ghost use Rattle.serde_json.specs.View.{view};
ghost use Rattle.history_text.specs.Texts.{IsJson};
ghost use Rattle.plans.specs.declared.fault.MachineFault.TheVariants as faults;
ghost use Rattle.plan_text.specs.Replays.{ReplayView};
ghost use Rattle.plan_text.specs.ReplayTexts.{SpellsReplayAs, SpellsReplay};
ghost use Rattle.plan_text.specs.ReplayTextFaults.{SpellsNoReplay, IsReplayTextFault};
ghost use Rattle.plan_text.specs.ReplayViews.{shown};

use crate::members::{members_alone, members_with_start};
use crate::read_parts::replay_with;
use crate::replay::Replay;
use crate::starting_pairs::start_of;
use events::Memory;
use history_text::{JsonFault, json_of};
use plans::MachineFault;
use serde_json::Value;
use std::alloc::Global;

/// Reads the replay that a text spells: JSON in UTF-8, in any spacing and order of members.
/// Otherwise returns the text's first fault, or `Memory`. It tests first the length of the text,
/// then that it is JSON, then its form and every limit (`Shape`). In addition to the reading of the
/// JSON it takes time in proportion to the pairs, the calls and the items.
pub fn read_replay(alloc: Global, text: &[u8]) -> Result<Replay, MachineFault>
    ensures spelled { IfOk result (λ r. SpellsReplay text.now (shown r)) }
    ensures refused { IfErr result (IsReplayTextFault text.now) }
    ensures accepted { (r : ReplayView) → SpellsReplay text.now r → IfErr result (λ fault. fault ≡ faults.Memory) }
{
    let value = value_of(alloc, text)?;
    let Ok(found) = replay_of(alloc, &value) else {
        return Err(MachineFault::Memory);
    };
    match found {
        Some(replay) => Ok(replay),
        None => Err(MachineFault::Shape),
    }
}

/// The JSON value of a text that is not too long.
fn value_of(alloc: Global, text: &[u8]) -> Result<Value, MachineFault>
    ensures ok { IfOk result (λ value. IsJson text.now (view value)) }
    ensures refused { IfErr result (IsReplayTextFault text.now) }
{
    match json_of(alloc, text) {
        Ok(value) => Ok(value),
        Err(JsonFault::TooLong) => Err(MachineFault::TooLong),
        Err(JsonFault::NotJson) => Err(MachineFault::NotJson),
        Err(JsonFault::Memory) => Err(MachineFault::Memory),
    }
}

/// The replay that a value spells.
fn replay_of(alloc: Global, value: &Value) -> Result<Option<Replay>, Memory>
    ensures some { IfOk result (λ found. IfSome found (λ r. SpellsReplayAs (view value.now) (shown r))) }
    ensures none { IfOk result (λ found. IfNone found (SpellsNoReplay (view value.now))) }
{
    if let Some((limit, rows, schedule, scripts, variant)) = members_alone(value) {
        let start = Vec::new(alloc);
        return replay_with(alloc, start, false, limit, rows, schedule, scripts, variant);
    }
    let Some((limit, rows, schedule, scripts, start, variant)) = members_with_start(value) else {
        return Ok(None);
    };
    let Some(start) = start_of(alloc, start)? else {
        return Ok(None);
    };
    replay_with(alloc, start, true, limit, rows, schedule, scripts, variant)
}
