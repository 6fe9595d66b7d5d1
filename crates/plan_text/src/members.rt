// The members of a replay's text.
ghost use Rattle.std.specs.Prelude.{◌≡◌, Some, None, IfSome, IfNone};
ghost use Rattle.serde_json.specs.Data.{Data, Members, member, object};
ghost use Rattle.serde_json.specs.View.{view, members_view};
ghost use Rattle.plan_text.specs.ReplayTexts.{first_members, last_members, other_members, document};

use serde_json::Value;
use std::collections::btree_map::Iter;

/// The values of the limit, the rows, the schedule, the scripts and the variant of a text without a start.
pub fn members_alone<'a>(
    value: &'a Value,
) -> Option<(&'a Value, &'a Value, &'a Value, &'a Value, &'a Value)>
    ensures some { IfSome result (λ p. view value.now
        ≡ document (record {
          limit = view p.0.now;
          rows = view p.1.now;
          schedule = view p.2.now;
          scripts = view p.3.now;
          start = None;
          variant = view p.4.now;
        })) }
    ensures none { IfNone result ((limit rows schedule scripts variant : Data) → view value.now
        ≡ document (record { limit = limit; rows = rows; schedule = schedule; scripts = scripts; start = None; variant = variant }) → ⊥) }
{
    let (limit, rows, schedule, scripts, others) = first_four(value)?;
    let variant = last_two(others, 1)?;
    Some((limit, rows, schedule, scripts, variant))
}

/// The values of the limit, the rows, the schedule, the scripts, the start and the variant of a text with a start.
pub fn members_with_start<'a>(
    value: &'a Value,
) -> Option<
    (
        &'a Value,
        &'a Value,
        &'a Value,
        &'a Value,
        &'a Value,
        &'a Value,
    ),
>
    ensures some { IfSome result (λ p. view value.now
        ≡ document (record {
          limit = view p.0.now;
          rows = view p.1.now;
          schedule = view p.2.now;
          scripts = view p.3.now;
          start = Some
              (view p.4.now);
          variant = view p.5.now;
        })) }
    ensures none { IfNone result ((limit rows schedule scripts start variant : Data) → view value.now
        ≡ document (record {
          limit = limit;
          rows = rows;
          schedule = schedule;
          scripts = scripts;
          start = Some start;
          variant = variant;
        }) → ⊥) }
{
    let (limit, rows, schedule, scripts, others) = first_four(value)?;
    let (start, variant) = start_and_last_two(others)?;
    Some((limit, rows, schedule, scripts, start, variant))
}

/// The values of the first four members, and the other members.
fn first_four<'a>(
    value: &'a Value,
) -> Option<
    (
        &'a Value,
        &'a Value,
        &'a Value,
        &'a Value,
        Iter<'a, String, Value>,
    ),
>
    ensures some { IfSome result (λ p. view value.now
        ≡ object (first_members (view p.0.now) (view p.1.now) (view p.2.now) (view p.3.now) (members_view p.4))) }
    ensures none { IfNone result ((limit rows schedule scripts : Data) (others : Members) → view value.now
        ≡ object (first_members limit rows schedule scripts others) → ⊥) }
{
    let mut members = value.as_object()?.iter();
    let (limit, rows) = next_two(&mut members, "limit", "rows")?;
    let (schedule, scripts) = next_two(&mut members, "schedule", "scripts")?;
    Some((limit, rows, schedule, scripts, members))
}

/// The values of the start and of the variant, if these and the version are all the members.
fn start_and_last_two<'a>(mut members: Iter<'a, String, Value>) -> Option<(&'a Value, &'a Value)>
    ensures some { IfSome result (λ p. members_view members.entry ≡ other_members (Some (view p.0.now)) (view p.1.now)) }
    ensures none { IfNone result ((start variant : Data) → members_view members.entry ≡ other_members (Some start) variant → ⊥) }
{
    next_member(&mut members, "start").zip(last_two(members, 2))
}

/// The value of the variant, if it and this version are all the members.
fn last_two<'a>(mut members: Iter<'a, String, Value>, version: u64) -> Option<&'a Value>
    ensures some { IfSome result (λ variant. members_view members.entry ≡ last_members (view variant.now) version) }
    ensures none { IfNone result ((variant : Data) → members_view members.entry ≡ last_members variant version → ⊥) }
{
    let (variant, number) = next_two(&mut members, "variant", "version")?;
    if members.next().is_none() && number.as_u64() == Some(version) {
        Some(variant)
    } else {
        None
    }
}

/// The values of the next two members, which have these names.
fn next_two<'a>(
    members: &mut Iter<'a, String, Value>,
    first: &str,
    second: &str,
) -> Option<(&'a Value, &'a Value)>
    ensures some { IfSome result (λ p. members_view members.old
        ≡ member first.now (view p.0.now) (member second.now (view p.1.now) (members_view members.new))) }
    ensures none { IfNone result ((d e : Data) (others : Members)
        → members_view members.old ≡ member first.now d (member second.now e others) → ⊥) }
{
    next_member(members, first).zip(next_member(members, second))
}

/// The value of the next member, which has this name.
fn next_member<'a>(members: &mut Iter<'a, String, Value>, name: &str) -> Option<&'a Value>
    ensures some { IfSome result (λ value. members_view members.old ≡ member name.now (view value.now) (members_view members.new)) }
    ensures none { IfNone result ((d : Data) (others : Members) → members_view members.old ≡ member name.now d others → ⊥) }
{
    match members.next() {
        Some((found, value)) if found.as_str() == name => Some(value),
        _ => None,
    }
}
