// From a JSON value to the schedule that it spells.
ghost use Rattle.std.specs.Prelude.{◌≡◌, ◌≤◌, ◌∷◌, [], List, length, map, All, IsTrue, IfOk, IfSome, IfNone};
ghost use Rattle.std.specs.List.{list_all};
ghost use Rattle.serde_json.specs.Data.{string};
ghost use Rattle.serde_json.specs.View.{view};
ghost use Rattle.history_text.specs.Texts.{number_data, list_data};
ghost use Rattle.art_core.specs.declared.item.Item.{Item};
ghost use Rattle.plan_text.specs.Replays.{is_item, item_limit};
ghost use Rattle.plan_text.specs.ReplayTexts.{item_data};

use crate::MAX_ITEMS;
use crate::words::{point_of, turns_of};
use art_core::Item;
use events::Memory;
use history_text::items_of;
use serde_json::Value;
use std::alloc::Global;

/// The schedule that a value spells, of at most `MAX_ITEMS` items. It returns `Err` if memory runs
/// out.
pub fn schedule_of(alloc: Global, value: &Value) -> Result<Option<Vec<Item>>, Memory>
    ensures spelled { IfOk result (λ found. IfSome found (λ items. view value.now ≡ list_data (map item_data items.items))) }
    ensures standing { IfOk result (λ found. IfSome found (λ items. IsTrue (list_all is_item items.items))) }
    ensures few { IfOk result (λ found. IfSome found (λ items. length items.items ≤ item_limit)) }
    ensures none { IfOk result (λ found. IfNone found ((items : List Item) → view value.now ≡ list_data (map item_data items)
        → IsTrue (list_all is_item items) → length items ≤ item_limit → ⊥)) }
{
    match value.as_array() {
        Some(items) => few_items_among(alloc, items),
        None => Ok(None),
    }
}

/// The schedule that the items of an array spell, of at most `MAX_ITEMS` items.
fn few_items_among(alloc: Global, items: &[Value]) -> Result<Option<Vec<Item>>, Memory>
    ensures spelled { IfOk result (λ found. IfSome found (λ found. map view items.now ≡ map item_data found.items)) }
    ensures standing { IfOk result (λ found. IfSome found (λ found. IsTrue (list_all is_item found.items))) }
    ensures few { IfOk result (λ found. IfSome found (λ found. length found.items ≤ item_limit)) }
    ensures none { IfOk result (λ found. IfNone found ((found : List Item) → map view items.now ≡ map item_data found
        → IsTrue (list_all is_item found) → length found ≤ item_limit → ⊥)) }
{
    if items.len() > MAX_ITEMS {
        return Ok(None);
    }
    items_among(alloc, items)
}

/// The items that the items of an array spell.
fn items_among(alloc: Global, items: &[Value]) -> Result<Option<Vec<Item>>, Memory>
    ensures spelled { IfOk result (λ found. IfSome found (λ found. map view items.now ≡ map item_data found.items)) }
    ensures standing { IfOk result (λ found. IfSome found (λ found. IsTrue (list_all is_item found.items))) }
    ensures none { IfOk result (λ found. IfNone found ((found : List Item) → map view items.now ≡ map item_data found
        → IsTrue (list_all is_item found) → ⊥)) }
{
    let mut found = Vec::new(alloc);
    for value in items {
        let Some(item) = item_of(value) else {
            return Ok(None);
        };
        found.push(item)?;
    }
    Ok(Some(found))
}

/// The item that a value spells.
fn item_of(value: &Value) -> Option<Item>
    ensures spelled { IfSome result (λ item. view value.now ≡ item_data item) }
    ensures standing { IfSome result (λ item. IsTrue (is_item item)) }
    ensures none { IfNone result ((item : Item) → view value.now ≡ item_data item → IsTrue (is_item item) → ⊥) }
{
    match items_of(value)? {
        [process, word] => short_item(process, word),
        [process, word, last] => long_item(process, word, last),
        _ => None,
    }
}

/// The item that an array of two values spells.
fn short_item(process: &Value, word: &Value) -> Option<Item>
    ensures spelled { IfSome result (λ item. item_data item ≡ list_data (view process.now ∷ view word.now ∷ [])) }
    ensures standing { IfSome result (λ item. IsTrue (is_item item)) }
    ensures none { IfNone result ((item : Item) → item_data item ≡ list_data (view process.now ∷ view word.now ∷ []) → ⊥) }
{
    end_item(process.as_u64()?, word.as_str()?)
}

/// The item of this word alone.
fn end_item(process: u64, word: &str) -> Option<Item>
    ensures spelled { IfSome result (λ item. item_data item ≡ list_data (number_data process ∷ string word.now ∷ [])) }
    ensures standing { IfSome result (λ item. IsTrue (is_item item)) }
    ensures none { IfNone result ((item : Item) → item_data item ≡ list_data (number_data process ∷ string word.now ∷ []) → ⊥) }
{
    match word {
        "end" => Some(Item::End {
            process: process as usize,
        }),
        _ => None,
    }
}

/// The item that an array of three values spells.
fn long_item(process: &Value, word: &Value, last: &Value) -> Option<Item>
    ensures spelled { IfSome result (λ item. item_data item
        ≡ list_data (view process.now ∷ view word.now ∷ view last.now ∷ [])) }
    ensures standing { IfSome result (λ item. IsTrue (is_item item)) }
    ensures none { IfNone result ((item : Item)
        → item_data item ≡ list_data (view process.now ∷ view word.now ∷ view last.now ∷ []) → IsTrue (is_item item) → ⊥) }
{
    turns_or_until(process.as_u64()?, word.as_str()?, last)
}

/// The item of this word and a last value.
fn turns_or_until(process: u64, word: &str, last: &Value) -> Option<Item>
    ensures spelled { IfSome result (λ item. item_data item
        ≡ list_data (number_data process ∷ string word.now ∷ view last.now ∷ [])) }
    ensures standing { IfSome result (λ item. IsTrue (is_item item)) }
    ensures none { IfNone result ((item : Item)
        → item_data item ≡ list_data (number_data process ∷ string word.now ∷ view last.now ∷ []) → IsTrue (is_item item) → ⊥) }
{
    match word {
        "turns" => Some(Item::Turns {
            process: process as usize,
            turns: turns_of(last)?,
        }),
        "until" => Some(Item::Until {
            process: process as usize,
            point: point_of(last)?,
        }),
        _ => None,
    }
}
