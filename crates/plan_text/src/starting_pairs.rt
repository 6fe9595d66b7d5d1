// The pairs that a replay starts with.
ghost use Rattle.std.specs.Prelude.{◌≡◌, ◌↔◌, List, ℕ, map, All, IsTrue, IfOk, IfSome, IfNone};
ghost use Rattle.std.specs.List.{list_all};
ghost use Rattle.serde_json.specs.View.{view};
ghost use Rattle.events.specs.declared.event.Call.TheVariants.{Insert};
ghost use Rattle.map_object.specs.MapObject.{IsRising};
ghost use Rattle.history_text.specs.Texts.{list_data, pair_data};
ghost use Rattle.art_rows.specs.TreeCalls.{is_tree_call};
ghost use Rattle.art_core.specs.Starts.{inserts};

use art_rows::TreeCall;
use events::{Call, Memory};
use history_text::pairs_of;
use serde_json::Value;
use std::alloc::Global;

/// The pairs that a value spells. Their keys rise, and a tree can insert each of them. It returns
/// `Err` if memory runs out.
pub fn start_of(alloc: Global, value: &Value) -> Result<Option<Vec<(u64, u64)>>, Memory>
    ensures spelled { IfOk result (λ found. IfSome found (λ pairs. view value.now ≡ list_data (map pair_data pairs.items))) }
    ensures rising { IfOk result (λ found. IfSome found (λ pairs. IsRising pairs.items)) }
    ensures calls { IfOk result (λ found. IfSome found (λ pairs. All (λ call. IsTrue (is_tree_call call)) (inserts pairs.items))) }
    ensures none { IfOk result (λ found. IfNone found ((pairs : List (ℕ × ℕ)) → view value.now ≡ list_data (map pair_data pairs)
        → IsRising pairs → All (λ call. IsTrue (is_tree_call call)) (inserts pairs) → ⊥)) }
{
    let Some(pairs) = pairs_spelled(alloc, value)? else {
        return Ok(None);
    };
    if !keys_rise(&pairs) {
        return Ok(None);
    }
    if !are_insertable(&pairs) {
        return Ok(None);
    }
    Ok(Some(pairs))
}

/// The pairs that a value spells.
fn pairs_spelled(alloc: Global, value: &Value) -> Result<Option<Vec<(u64, u64)>>, Memory>
    ensures spelled { IfOk result (λ found. IfSome found (λ pairs. view value.now ≡ list_data (map pair_data pairs.items))) }
    ensures none { IfOk result (λ found. IfNone found ((pairs : List (ℕ × ℕ)) → view value.now ≡ list_data (map pair_data pairs) → ⊥)) }
{
    match value.as_array() {
        Some(items) => pairs_of(alloc, items),
        None => Ok(None),
    }
}

/// Whether each key is below the later ones.
fn keys_rise(pairs: &[(u64, u64)]) -> bool
    ensures { IsTrue result ↔ IsRising pairs.now }
{
    for place in 1..pairs.len() {
        if pairs[place - 1].0 >= pairs[place].0 {
            return false;
        }
    }
    true
}

/// Whether a tree can insert each pair.
fn are_insertable(pairs: &[(u64, u64)]) -> bool
    ensures { result ≡ list_all (λ pair. is_tree_call (Insert pair.0 pair.1)) pairs.now }
{
    for (key, value) in pairs {
        if TreeCall::new(&Call::Insert(*key, *value)).is_none() {
            return false;
        }
    }
    true
}
