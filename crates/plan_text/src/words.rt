// From JSON values to the words and the numbers of a replay.
ghost use Rattle.std.specs.Prelude.{◌≡◌, ◌∷◌, [], ℕ, ◌≤◌, IfSome, IfNone};
ghost use Rattle.serde_json.specs.Data.{string};
ghost use Rattle.serde_json.specs.View.{view};
ghost use Rattle.history_text.specs.Texts.{number_data, list_data};
ghost use Rattle.art_rows.specs.declared.table.Shape.{Shape};
ghost use Rattle.art_rows.specs.Table.{IsWithinLimits};
ghost use Rattle.art_rows.specs.declared.access.Point.{Point};
ghost use Rattle.art_rows.specs.declared.variant.Variant.{Variant};
ghost use Rattle.plan_text.specs.Replays.{turn_limit};
ghost use Rattle.plan_text.specs.ReplayTexts.{variant_name, point_name, rows_data};

use crate::MAX_TURNS;
use art_rows::{Point, Shape, Variant};
use history_text::items_of;
use serde_json::Value;

/// The number of turns that a value spells: at least one, and at most `MAX_TURNS`.
pub fn turns_of(value: &Value) -> Option<u32>
    ensures spelled { IfSome result (λ turns. view value.now ≡ number_data turns) }
    ensures some { IfSome result (λ turns. 1 ≤ turns) }
    ensures few { IfSome result (λ turns. turns ≤ turn_limit) }
    ensures none { IfNone result ((turns : ℕ) → view value.now ≡ number_data turns → 1 ≤ turns → turns ≤ turn_limit → ⊥) }
{
    let turns = value.as_u64()?;
    if 1 <= turns && turns <= u64::from(MAX_TURNS) {
        Some(turns as u32)
    } else {
        None
    }
}

/// The variant that a value names.
pub fn variant_of(value: &Value) -> Option<Variant>
    ensures spelled { IfSome result (λ variant. view value.now ≡ string (variant_name variant)) }
    ensures none { IfNone result ((variant : Variant) → view value.now ≡ string (variant_name variant) → ⊥) }
{
    variant_named(value.as_str()?)
}

fn variant_named(name: &str) -> Option<Variant>
    ensures spelled { IfSome result (λ variant. name.now ≡ variant_name variant) }
    ensures none { IfNone result ((variant : Variant) → name.now ≡ variant_name variant → ⊥) }
{
    match name {
        "coupled" => Some(Variant::Coupled),
        "optimistic" => Some(Variant::Optimistic),
        "read-unchecked" => Some(Variant::ReadUnchecked),
        "scan-unvalidated" => Some(Variant::ScanUnvalidated),
        "lock-unchecked" => Some(Variant::LockUnchecked),
        "early-release" => Some(Variant::EarlyRelease),
        _ => None,
    }
}

/// The point that a value names.
pub fn point_of(value: &Value) -> Option<Point>
    ensures spelled { IfSome result (λ point. view value.now ≡ string (point_name point)) }
    ensures none { IfNone result ((point : Point) → view value.now ≡ string (point_name point) → ⊥) }
{
    point_named(value.as_str()?)
}

fn point_named(name: &str) -> Option<Point>
    ensures spelled { IfSome result (λ point. name.now ≡ point_name point) }
    ensures none { IfNone result ((point : Point) → name.now ≡ point_name point → ⊥) }
{
    match name {
        "child" => Some(Point::Child),
        "check" => Some(Point::Check),
        "lock-root" => Some(Point::LockRoot),
        "lock-row" => Some(Point::LockRow),
        "unlock" => Some(Point::Unlock),
        "answer" => Some(Point::Answer),
        _ => None,
    }
}

/// The shape whose numbers of rows a value lists, within the limits.
pub fn shape_of(value: &Value) -> Option<Shape>
    ensures spelled { IfSome result (λ shape. view value.now ≡ rows_data shape) }
    ensures within { IfSome result (λ shape. IsWithinLimits shape) }
    ensures none { IfNone result ((shape : Shape) → view value.now ≡ rows_data shape → IsWithinLimits shape → ⊥) }
{
    match items_of(value)? {
        [rows4, rows16, rows48, rows256] => shape_of_four(rows4, rows16, rows48, rows256),
        _ => None,
    }
}

/// The shape whose numbers of rows an array of four values lists, within the limits.
fn shape_of_four(rows4: &Value, rows16: &Value, rows48: &Value, rows256: &Value) -> Option<Shape>
    ensures spelled { IfSome result (λ shape. rows_data shape
        ≡ list_data (view rows4.now ∷ view rows16.now ∷ view rows48.now ∷ view rows256.now ∷ [])) }
    ensures within { IfSome result (λ shape. IsWithinLimits shape) }
    ensures none { IfNone result ((shape : Shape)
        → rows_data shape ≡ list_data (view rows4.now ∷ view rows16.now ∷ view rows48.now ∷ view rows256.now ∷ [])
        → IsWithinLimits shape → ⊥) }
{
    shape_with(
        rows4.as_u64()?,
        rows16.as_u64()?,
        rows48.as_u64()?,
        rows256.as_u64()?,
    )
}

/// The shape with these numbers of rows, if they are within the limits.
fn shape_with(rows4: u64, rows16: u64, rows48: u64, rows256: u64) -> Option<Shape>
    ensures spelled { IfSome result
        (λ shape. shape ≡ record { rows4 = rows4; rows16 = rows16; rows48 = rows48; rows256 = rows256 }) }
    ensures within { IfSome result (λ shape. IsWithinLimits shape) }
    ensures none { IfNone result
        (IsWithinLimits (record { rows4 = rows4; rows16 = rows16; rows48 = rows48; rows256 = rows256 }) → ⊥) }
{
    if rows4 <= 4096 && rows16 <= 1024 && rows48 <= 256 && 1 <= rows256 && rows256 <= 64 {
        Some(Shape {
            rows4: rows4 as u32,
            rows16: rows16 as u32,
            rows48: rows48 as u32,
            rows256: rows256 as u32,
        })
    } else {
        None
    }
}
