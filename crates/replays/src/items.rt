// From turns to the items that name them.
ghost use Rattle.std.specs.Prelude.{◌≡◌, ◌<◌, ◌^◌, ◌++◌, ◌∷◌, [], flat_map, All, IsTrue, IfOk, IfSome, OnOk};
ghost use Rattle.art_core.specs.NamedTurns.{process_of_item};
ghost use Rattle.plan_text.specs.Replays.{is_item};
ghost use Rattle.plan_text.specs.WrittenReplays.{AreHeld};
ghost use Rattle.replays.specs.Drawn.{Name, turns_in};

use art_core::Item;
use events::Memory;
use plan_text::MAX_TURNS;
use std::alloc::{AllocFailed, Global};

/// The items that name these turns: one for turns of one process that follow each other.
pub(crate) fn items_of(alloc: Global, turns: &[usize]) -> Result<Vec<Item>, Memory>
    ensures { IfOk result (λ items. Name items.items turns.now) }
{
    let mut items = Vec::new(alloc);
    for process in turns {
        push_turn(&mut items, *process)?;
    }
    Ok(items)
}

/// Adds a turn of a process to the last item, or as an item of its own.
fn push_turn(items: &mut Vec<Item>, process: usize) -> Result<(), AllocFailed<Item>>
    requires standing { All (λ item. IsTrue (is_item item)) items.old.items }
    requires held { AreHeld items.old.items }
    ensures named { OnOk result (flat_map turns_in items.new.items ≡ flat_map turns_in items.old.items ++ process ∷ []) }
    ensures standing { OnOk result (All (λ item. IsTrue (is_item item)) items.new.items) }
    ensures held { OnOk result (AreHeld items.new.items) }
{
    let Some(item) = items.pop() else {
        return items.push(Item::Turns { process, turns: 1 });
    };
    match longer_item(item, process) {
        Some(longer) => items.push(longer),
        None => {
            items.push(item)?;
            items.push(Item::Turns { process, turns: 1 })
        }
    }
}

/// The item with a turn more, if it has turns of this process and may have one more.
fn longer_item(item: Item, process: usize) -> Option<Item>
    ensures named { IfSome result (λ longer. turns_in longer ≡ turns_in item ++ process ∷ []) }
    ensures standing { IfSome result (λ longer. IsTrue (is_item longer)) }
    ensures held { IfSome result (λ longer. process_of_item longer < 2 ^ 64) }
{
    match item {
        Item::Turns {
            process: own,
            turns,
        } if own == process && turns < MAX_TURNS => Some(Item::Turns {
            process,
            turns: turns + 1,
        }),
        _ => None,
    }
}
