// From a text to a history.
ghost use Rattle.std.specs.Prelude.{◌≡◌, [], List, None, Some, map, IsTrue, IfOk, IfErr, IfSome, IfNone};
ghost use Rattle.std.specs.List.{list_all};
ghost use Rattle.serde_json.specs.Data.{Data};
ghost use Rattle.serde_json.specs.View.{view};
ghost use Rattle.events.specs.HistoryView.{HistoryView};
ghost use Rattle.events.specs.declared.fault.HistoryFault.TheVariants as faults;
ghost use Rattle.events.specs.Histories.{IsHistory};
ghost use Rattle.history_text.specs.declared.version.TextVersion.{TextVersion};
ghost use Rattle.history_text.specs.declared.version.TextVersion.TheVariants as versions;
ghost use Rattle.history_text.specs.Versions.{version_number, has_start};
ghost use Rattle.history_text.specs.Texts.{number_data, pair_data, SpellEvents, document, IsDocument, may_stand, IsJson, SpellsAs, Spells};
ghost use Rattle.history_text.specs.TextFaults.{IsDocumentFault, IsTextFault};
ghost use Rattle.history_text.specs.ValueFaults.{IsFaultAmong, IsPairFaultAmong};

use crate::compact_text::compact_turns;
use crate::json_fault::JsonFault;
use crate::json_text::json_of;
use crate::parts::{is_number, items_of, three_members, two_members};
use crate::read_event::{event_of, starting_pair};
use crate::version::TextVersion;
use events::{History, HistoryBuilder, HistoryFault};
use serde_json::Value;
use std::alloc::Global;

/// Reads the history that a text spells: JSON in UTF-8, with any spacing and any order of members.
/// Otherwise it returns the text's first fault, or `Memory`. It tests the length first, then that
/// the text is JSON, then its top level (`Version`). Then it tests the starting pairs from the
/// first on (`TooMany`, `Start`), then the events from the first on. Of each event it tests the
/// shape, then the limits, then the turn. Without the reading of the JSON it takes time in
/// proportion to the pairs and the events.
pub fn read_history(alloc: Global, text: &[u8]) -> Result<History, HistoryFault>
    ensures spelled { IfOk result (Spells text.now) }
    ensures history { IfOk result IsHistory }
    ensures refused { IfErr result (IsTextFault text.now) }
    ensures accepted { (history : HistoryView) → Spells text.now history → IsHistory history
        → IfErr result (λ fault. fault ≡ faults.Memory) }
{
    if let Some(turns) = compact_turns(alloc, text) {
        return Ok(turns.history(alloc)?);
    }
    history_by_value(alloc, text)
}

/// Reads the history that a text in any form spells, by its tree of values.
#[inline(never)]
fn history_by_value(alloc: Global, text: &[u8]) -> Result<History, HistoryFault>
    ensures spelled { IfOk result (Spells text.now) }
    ensures history { IfOk result IsHistory }
    ensures refused { IfErr result (IsTextFault text.now) }
    ensures accepted { (history : HistoryView) → Spells text.now history → IsHistory history
        → IfErr result (λ fault. fault ≡ faults.Memory) }
{
    let value = value_of(alloc, text)?;
    let history = turns_of(alloc, &value)?;
    Ok(history.history(alloc)?)
}

/// Returns the JSON value of a text that is not too long.
fn value_of(alloc: Global, text: &[u8]) -> Result<Value, HistoryFault>
    ensures ok { IfOk result (λ value. IsJson text.now (view value)) }
    ensures refused { IfErr result (IsTextFault text.now) }
{
    match json_of(alloc, text) {
        Ok(value) => Ok(value),
        Err(JsonFault::TooLong) => Err(HistoryFault::TooLong),
        Err(JsonFault::NotJson) => Err(HistoryFault::NotJson),
        Err(JsonFault::Memory) => Err(HistoryFault::Memory),
    }
}

/// Returns the starting pairs and the events that a value spells. Together they are a history.
fn turns_of(alloc: Global, value: &Value) -> Result<HistoryBuilder, HistoryFault>
    ensures spelled { IfOk result (SpellsAs (view value.now)) }
    ensures history { IfOk result IsHistory }
    ensures refused { IfErr result (IsDocumentFault (view value.now)) }
{
    if let Some(items) = events_alone(value) {
        return events_of(alloc, HistoryBuilder::new(alloc), TextVersion::One, items);
    }
    match start_and_events(value) {
        Some((version, pairs, items)) => turns_after(alloc, version, pairs, items),
        None => Err(HistoryFault::Version),
    }
}

/// Returns the starting pairs that the first values spell, and the events that the others spell
/// after them.
fn turns_after(
    alloc: Global,
    version: TextVersion,
    pairs: &[Value],
    items: &[Value],
) -> Result<HistoryBuilder, HistoryFault>
    requires { IsTrue (has_start version) }
    ensures spelled { IfOk result
        (SpellsAs (document version (Some (map view pairs.now)) (map view items.now))) }
    ensures history { IfOk result IsHistory }
    ensures refused { IfErr result
        (IsDocumentFault (document version (Some (map view pairs.now)) (map view items.now))) }
{
    let start = start_of(alloc, pairs)?;
    events_of(alloc, start, version, items)
}

/// Returns the values of the events of a document without a start, if its top level is right.
fn events_alone(value: &Value) -> Option<&[Value]>
    ensures some { IfSome result (λ items. IsDocument versions.One None (map view items.now) (view value.now)) }
    ensures none { IfNone result ((version : TextVersion) (items : List Data)
        → IsDocument version None items (view value.now) → ⊥) }
{
    let (events, version) = two_members(value, "events", "version")?;
    if is_number(version, 1) {
        items_of(events)
    } else {
        None
    }
}

/// Returns the version of a document with a start, and the values of its start and of its events,
/// if its top level is right.
fn start_and_events(value: &Value) -> Option<(TextVersion, &[Value], &[Value])>
    ensures some { IfSome result (λ found. IsDocument found.0 (Some (map view found.1.now)) (map view found.2.now) (view value.now)) }
    ensures none { IfNone result ((version : TextVersion) (start items : List Data)
        → IsDocument version (Some start) items (view value.now) → ⊥) }
{
    let (events, start, version) = three_members(value, "events", "start", "version")?;
    let version = version_with_start(version)?;
    Some((version, items_of(start)?, items_of(events)?))
}

/// Returns the version that a value names, if its texts have a start.
pub fn version_with_start(value: &Value) -> Option<TextVersion>
    ensures some { IfSome result (λ version. view value.now ≡ number_data (version_number version)) }
    ensures start { IfSome result (λ version. IsTrue (has_start version)) }
    ensures none { IfNone result ((version : TextVersion) → IsTrue (has_start version)
        → view value.now ≡ number_data (version_number version) → ⊥) }
{
    match value.as_u64()? {
        2 => Some(TextVersion::Two),
        3 => Some(TextVersion::Three),
        _ => None,
    }
}

/// The starting pairs that the values spell, before any event.
fn start_of(alloc: Global, items: &[Value]) -> Result<HistoryBuilder, HistoryFault>
    ensures spelled { IfOk result (λ h. map view items.now ≡ map pair_data h.start) }
    ensures no_event { IfOk result (λ h. h.events ≡ []) }
    ensures history { IfOk result IsHistory }
    ensures refused { IfErr result (IsPairFaultAmong (map view items.now)) }
{
    let mut turns = HistoryBuilder::new(alloc);
    for (place, item) in items.iter().enumerate() {
        let pair = starting_pair(place, item)?;
        turns.take_pair(pair)?;
    }
    Ok(turns)
}

/// Returns the events that the values spell, after the starting pairs. Together they are a history.
fn events_of(
    alloc: Global,
    start: HistoryBuilder,
    version: TextVersion,
    items: &[Value],
) -> Result<HistoryBuilder, HistoryFault>
    requires history { IsHistory start }
    requires no_event { start.events ≡ [] }
    ensures start { IfOk result (λ h. h.start ≡ start.start) }
    ensures spelled { IfOk result (λ h. SpellEvents version (map view items.now) h.events) }
    ensures standing { IfOk result (λ h. IsTrue (list_all (may_stand version) h.events)) }
    ensures history { IfOk result IsHistory }
    ensures refused { IfErr result (IsFaultAmong version (map view items.now)) }
{
    let mut turns = start;
    for (place, item) in items.iter().enumerate() {
        let event = event_of(alloc, place, version, item)?;
        turns.take(event)?;
    }
    Ok(turns)
}
