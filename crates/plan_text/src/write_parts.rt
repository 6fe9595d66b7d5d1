// The JSON values of a replay's parts.
ghost use Rattle.std.specs.Prelude.{◌≡◌, [], ◌∷◌, map, codes, IfOk, OnOk};
ghost use Rattle.serde_json.specs.Data.{string};
ghost use Rattle.serde_json.specs.View.{view};
ghost use Rattle.history_text.specs.Texts.{number_data, list_data};
ghost use Rattle.plan_text.specs.ReplayTexts.{item_data, point_name, rows_data, variant_name};

use art_core::Item;
use art_rows::{Point, Shape, Variant};
use serde_json::{Value, push};
use std::alloc::{AllocError, Global};

/// The value of how many rows there are of each kind.
pub(crate) fn rows_value(alloc: Global, shape: Shape) -> Result<Value, AllocError>
    ensures { IfOk result (λ value. view value ≡ rows_data shape) }
{
    let mut items = Vec::new(alloc);
    push_rows(&mut items, shape)?;
    Ok(Value::from(items))
}

fn push_rows(items: &mut Vec<Value>, shape: Shape) -> Result<(), AllocError>
    requires { items.old.items ≡ [] }
    ensures { OnOk result (map view items.new.items
        ≡ number_data shape.rows4 ∷ number_data shape.rows16 ∷ number_data shape.rows48 ∷ number_data shape.rows256 ∷ []) }
{
    push(items, Value::from(shape.rows4))?;
    push(items, Value::from(shape.rows16))?;
    push(items, Value::from(shape.rows48))?;
    push(items, Value::from(shape.rows256))
}

/// The value of a variant's name.
pub(crate) fn variant_value(alloc: Global, variant: Variant) -> Result<Value, AllocError>
    ensures { IfOk result (λ value. view value ≡ string (variant_name variant)) }
{
    Value::try_from_str(alloc, variant_name(variant))
}

fn variant_name(variant: Variant) -> &'static str
    ensures { result.now ≡ variant_name variant }
{
    match variant {
        Variant::Coupled => "coupled",
        Variant::Optimistic => "optimistic",
        Variant::ReadUnchecked => "read-unchecked",
        Variant::ScanUnvalidated => "scan-unvalidated",
        Variant::LockUnchecked => "lock-unchecked",
        Variant::EarlyRelease => "early-release",
    }
}

/// The value of a schedule.
pub(crate) fn schedule_value(alloc: Global, schedule: &[Item]) -> Result<Value, AllocError>
    ensures { IfOk result (λ value. view value ≡ list_data (map item_data schedule.now)) }
{
    let mut items = Vec::new(alloc);
    for item in schedule {
        items.push(item_value(alloc, *item)?)?;
    }
    Ok(Value::from(items))
}

fn item_value(alloc: Global, item: Item) -> Result<Value, AllocError>
    ensures { IfOk result (λ value. view value ≡ item_data item) }
{
    match item {
        Item::Turns { process, turns } => {
            long_value(alloc, process, "turns", Value::from(turns))
        }
        Item::End { process } => short_value(alloc, process, "end"),
        Item::Until { process, point } => {
            let point = Value::try_from_str(alloc, point_name(point))?;
            long_value(alloc, process, "until", point)
        }
    }
}

/// The value of an item of a process and a word.
fn short_value(alloc: Global, process: usize, word: &str) -> Result<Value, AllocError>
    ensures { IfOk result (λ value. view value ≡ list_data (number_data process ∷ string word.now ∷ [])) }
{
    let mut items = Vec::new(alloc);
    push_named(alloc, &mut items, process, word)?;
    Ok(Value::from(items))
}

/// The value of an item with a last value.
fn long_value(alloc: Global, process: usize, word: &str, last: Value) -> Result<Value, AllocError>
    ensures { IfOk result (λ value. view value ≡ list_data (number_data process ∷ string word.now ∷ view last ∷ [])) }
{
    let mut items = Vec::new(alloc);
    push_named(alloc, &mut items, process, word)?;
    push(&mut items, last)?;
    Ok(Value::from(items))
}

fn push_named(
    alloc: Global,
    items: &mut Vec<Value>,
    process: usize,
    word: &str,
) -> Result<(), AllocError>
    requires { items.old.items ≡ [] }
    ensures { OnOk result (map view items.new.items ≡ number_data process ∷ string word.now ∷ []) }
{
    push(items, Value::from(process))?;
    push(items, Value::try_from_str(alloc, word)?)
}

fn point_name(point: Point) -> &'static str
    ensures { result.now ≡ point_name point }
{
    match point {
        Point::Child => "child",
        Point::Check => "check",
        Point::LockRoot => "lock-root",
        Point::LockRow => "lock-row",
        Point::Unlock => "unlock",
        Point::Answer => "answer",
    }
}
