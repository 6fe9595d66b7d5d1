// From a location to its line.
ghost use Rattle.std.specs.Prelude.{◌≡◌, IfOk, OnOk, string_bytes};
ghost use Rattle.serde_json.specs.Data.{string, object, no_members, put as with_member};
ghost use Rattle.serde_json.specs.View.{view, members_view};
ghost use Rattle.serde_json.specs.Written.{compact_text};
ghost use Rattle.history_text.specs.Texts.{number_data};
ghost use Rattle.judge.specs.Reports.{numbers_data};
ghost use Rattle.explain_locate.specs.FirstOrders.{order_of};
ghost use Rattle.explain_locate.specs.Reports.{found_data, location_data, no_data, ordered_data, ordered_no_data};

use crate::location::{Location, OrderedLocation};
use events::Memory;
use serde_json::{Map, Value, put};
use std::alloc::{AllocError, Global};

/// Returns the report of a location: one JSON object without spaces, its members by rising bytes.
/// The reason of an undecided is always the budget.
pub fn location_line(alloc: Global, location: &Location) -> Result<String, Memory>
    ensures { IfOk result (λ text. string_bytes text ≡ compact_text (location_data location.now)) }
{
    let value = location_value(alloc, location)?;
    Ok(value.to_string(alloc)?)
}

/// Returns the report of a location with its order: the report, and the numbers of the order's
/// calls. Without an order the report is as it is.
pub fn ordered_line(alloc: Global, ordered: &OrderedLocation) -> Result<String, Memory>
    ensures { IfOk result (λ text. string_bytes text
        ≡ compact_text (found_data ordered.now.location (order_of ordered.now))) }
{
    match &ordered.order {
        Some(order) => line_with(alloc, &ordered.location, order),
        None => location_line(alloc, &ordered.location),
    }
}

/// Returns the report of a location with this order.
fn line_with(alloc: Global, location: &Location, order: &[u32]) -> Result<String, Memory>
    ensures { IfOk result (λ text. string_bytes text
        ≡ compact_text (ordered_data location.now order.now)) }
{
    let value = ordered_value(alloc, location, order)?;
    Ok(value.to_string(alloc)?)
}

fn ordered_value(alloc: Global, location: &Location, order: &[u32]) -> Result<Value, AllocError>
    ensures { IfOk result (λ value. view value ≡ ordered_data location.now order.now) }
{
    let mut members = Map::new(alloc);
    put_ordered(&mut members, alloc, location, order)?;
    Ok(Value::Object(members))
}

/// Puts the members of a location's object, and an order, into an empty one.
fn put_ordered(
    members: &mut Map<String, Value>,
    alloc: Global,
    location: &Location,
    order: &[u32],
) -> Result<(), AllocError>
    requires { members_view members.old.entries ≡ no_members }
    ensures { OnOk result (object (members_view members.new.entries)
        ≡ ordered_data location.now order.now) }
{
    match location {
        Location::Yes => {
            put(members, alloc, "order", numbers_value(alloc, order)?)?;
            put_word(members, alloc, "verdict", "yes")
        }
        Location::No { event, number } => put_ordered_no(members, alloc, *event, *number, order),
        Location::Lost(loss) => put_ordered_no(members, alloc, loss.event, loss.number, order),
        Location::Undecided { .. } => put_location(members, alloc, location),
    }
}

/// Puts the members of a no, and an order, into an empty object.
fn put_ordered_no(
    members: &mut Map<String, Value>,
    alloc: Global,
    event: usize,
    number: usize,
    order: &[u32],
) -> Result<(), AllocError>
    requires { members_view members.old.entries ≡ no_members }
    ensures { OnOk result (object (members_view members.new.entries)
        ≡ ordered_no_data event number order.now) }
{
    put_number(members, alloc, "call", number)?;
    put_number(members, alloc, "event", event)?;
    put(members, alloc, "order", numbers_value(alloc, order)?)?;
    put_word(members, alloc, "verdict", "no")
}

/// Returns the numbers of calls as an array.
fn numbers_value(alloc: Global, numbers: &[u32]) -> Result<Value, AllocError>
    ensures { IfOk result (λ value. view value ≡ numbers_data numbers.now) }
{
    let mut items = Vec::with_capacity(alloc, numbers.len())?;
    for number in numbers {
        items.push(Value::from(*number))?;
    }
    Ok(Value::from(items))
}

fn location_value(alloc: Global, location: &Location) -> Result<Value, AllocError>
    ensures { IfOk result (λ value. view value ≡ location_data location.now) }
{
    let mut members = Map::new(alloc);
    put_location(&mut members, alloc, location)?;
    Ok(Value::Object(members))
}

/// Puts the members of a location's object into an empty one.
fn put_location(
    members: &mut Map<String, Value>,
    alloc: Global,
    location: &Location,
) -> Result<(), AllocError>
    requires { members_view members.old.entries ≡ no_members }
    ensures { OnOk result (object (members_view members.new.entries) ≡ location_data location.now) }
{
    match location {
        Location::Yes => put_word(members, alloc, "verdict", "yes"),
        Location::No { event, number } => put_no(members, alloc, *event, *number),
        Location::Lost(loss) => put_no(members, alloc, loss.event, loss.number),
        Location::Undecided { event, number } => {
            put_number(members, alloc, "call", *number)?;
            put_number(members, alloc, "event", *event)?;
            put_word(members, alloc, "reason", "budget")?;
            put_word(members, alloc, "verdict", "undecided")
        }
    }
}

/// Puts the members of a no into an empty object: the event, and the number of the call that it
/// answers.
fn put_no(
    members: &mut Map<String, Value>,
    alloc: Global,
    event: usize,
    number: usize,
) -> Result<(), AllocError>
    requires { members_view members.old.entries ≡ no_members }
    ensures { OnOk result (object (members_view members.new.entries) ≡ no_data event number) }
{
    put_number(members, alloc, "call", number)?;
    put_number(members, alloc, "event", event)?;
    put_word(members, alloc, "verdict", "no")
}

/// Puts a member that is a number.
fn put_number(
    members: &mut Map<String, Value>,
    alloc: Global,
    name: &str,
    number: usize,
) -> Result<(), AllocError>
    ensures { OnOk result (members_view members.new.entries
        ≡ with_member name.now (number_data number) (members_view members.old.entries)) }
{
    put(members, alloc, name, Value::from(number))
}

/// Puts a member that is a word.
fn put_word(
    members: &mut Map<String, Value>,
    alloc: Global,
    name: &str,
    word: &str,
) -> Result<(), AllocError>
    ensures { OnOk result (members_view members.new.entries
        ≡ with_member name.now (string word.now) (members_view members.old.entries)) }
{
    let value = Value::try_from_str(alloc, word)?;
    put(members, alloc, name, value)
}
