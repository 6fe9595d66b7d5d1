// The parts of a JSON value: the members of an object, the items of an array, a number.
ghost use Rattle.std.specs.Prelude.{◌≡◌, List, map, IsTrue, IsFalse, IfSome, IfNone};
ghost use Rattle.serde_json.specs.Data.{Data, object, Members, no_members, member};
ghost use Rattle.serde_json.specs.View.{view, members_view};
ghost use Rattle.history_text.specs.Texts.{number_data, list_data};
ghost use Rattle.history_text.specs.ValueFaults.{object_of_two, object_of_three};

use serde_json::Value;
use std::collections::btree_map::Iter;

/// Returns the values of an object that has only two members, with these names in this order.
pub fn two_members<'a>(
    value: &'a Value,
    first: &str,
    second: &str,
) -> Option<(&'a Value, &'a Value)>
    ensures some { IfSome result (λ found. view value.now
        ≡ object_of_two first.now (view found.0.now) second.now (view found.1.now)) }
    ensures none { IfNone result ((d e : Data)
        → view value.now ≡ object_of_two first.now d second.now e → ⊥) }
{
    let mut members = members_of(value)?;
    let first_value = next_member(&mut members, first)?;
    let second_value = last_member(members, second)?;
    Some((first_value, second_value))
}

/// Returns the values of an object that has only three members, with these names in this order.
pub fn three_members<'a>(
    value: &'a Value,
    first: &str,
    second: &str,
    third: &str,
) -> Option<(&'a Value, &'a Value, &'a Value)>
    ensures some { IfSome result (λ found. view value.now
        ≡ object_of_three first.now (view found.0.now) second.now (view found.1.now) third.now (view found.2.now)) }
    ensures none { IfNone result ((d e f : Data)
        → view value.now ≡ object_of_three first.now d second.now e third.now f → ⊥) }
{
    let mut members = members_of(value)?;
    let first_value = next_member(&mut members, first)?;
    let second_value = next_member(&mut members, second)?;
    let third_value = last_member(members, third)?;
    Some((first_value, second_value, third_value))
}

/// Returns the members of a value that is an object.
fn members_of(value: &Value) -> Option<Iter<'_, String, Value>>
    ensures some { IfSome result (λ members. view value.now ≡ object (members_view members)) }
    ensures none { IfNone result ((members : Members) → view value.now ≡ object members → ⊥) }
{
    Some(value.as_object()?.iter())
}

/// Returns the value of the only member that is left, if it has this name.
fn last_member<'a>(members: Iter<'a, String, Value>, name: &str) -> Option<&'a Value>
    ensures some { IfSome result (λ value. members_view members.entry
        ≡ member name.now (view value.now) no_members) }
    ensures none { IfNone result ((d : Data)
        → members_view members.entry ≡ member name.now d no_members → ⊥) }
{
    let mut rest = members;
    let value = next_member(&mut rest, name)?;
    match rest.next() {
        Some(_) => None,
        None => Some(value),
    }
}

/// Returns the value of the next member, if it has this name.
fn next_member<'a>(members: &mut Iter<'a, String, Value>, name: &str) -> Option<&'a Value>
    ensures some { IfSome result (λ value. members_view members.old
        ≡ member name.now (view value.now) (members_view members.new)) }
    ensures none { IfNone result ((d : Data) (rest : Members)
        → members_view members.old ≡ member name.now d rest → ⊥) }
{
    let (own_name, value) = members.next()?;
    if own_name.as_str() == name {
        Some(value)
    } else {
        None
    }
}

/// Returns the items of a value that is an array.
pub fn items_of(value: &Value) -> Option<&[Value]>
    ensures some { IfSome result (λ items. view value.now ≡ list_data (map view items.now)) }
    ensures none { IfNone result ((items : List Data) → view value.now ≡ list_data items → ⊥) }
{
    Some(value.as_array()?.as_slice())
}

/// Returns whether a value is this number.
pub fn is_number(value: &Value, number: u64) -> bool
    ensures same { IsTrue result → view value.now ≡ number_data number }
    ensures other { IsFalse result → view value.now ≡ number_data number → ⊥ }
{
    value.as_u64() == Some(number)
}
