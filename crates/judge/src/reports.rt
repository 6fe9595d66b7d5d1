// From a verdict to its report.
ghost use Rattle.std.specs.Prelude.{◌≡◌, [], codes, IfOk, OnOk, string_bytes};
ghost use Rattle.serde_json.specs.Data.{string, object, no_members, member};
ghost use Rattle.serde_json.specs.View.{members_view, view};
ghost use Rattle.serde_json.specs.Written.{compact_text};
ghost use Rattle.judge.specs.Reports.{numbers_data, segment_data, verdict_data};

use crate::verdict::Verdict;
use events::Memory;
use orders::Segment;
use serde_json::{Map, Value, put};
use std::alloc::{AllocError, Global};

/// Writes the report of a verdict: one JSON object without spaces, with members by rising bytes. It
/// has the numbers of the order, or those of the named segment with its least and its greatest key.
/// It takes time in proportion to the numbers.
pub fn report(alloc: Global, verdict: &Verdict) -> Result<String, Memory>
    ensures { IfOk result (λ text. string_bytes text ≡ compact_text (verdict_data verdict.now)) }
{
    let value = verdict_value(alloc, verdict)?;
    Ok(value.to_string(alloc)?)
}

fn verdict_value(alloc: Global, verdict: &Verdict) -> Result<Value, AllocError>
    ensures { IfOk result (λ value. view value ≡ verdict_data verdict.now) }
{
    let mut members = Map::new(alloc);
    put_verdict(&mut members, alloc, verdict)?;
    Ok(Value::Object(members))
}

/// Adds the members of a verdict's report to an object without members.
fn put_verdict(
    members: &mut Map<String, Value>,
    alloc: Global,
    verdict: &Verdict,
) -> Result<(), AllocError>
    requires { members.old.entries ≡ [] }
    ensures { OnOk result (object (members_view members.new.entries) ≡ verdict_data verdict.now) }
{
    match verdict {
        Verdict::Yes(order) => put_order(members, alloc, order),
        Verdict::No(segment) => put_segment(members, alloc, segment, "no"),
        Verdict::Undecided(segment) => put_segment(members, alloc, segment, "undecided"),
    }
}

fn put_order(
    members: &mut Map<String, Value>,
    alloc: Global,
    order: &[u32],
) -> Result<(), AllocError>
    requires { members.old.entries ≡ [] }
    ensures { OnOk result (members_view members.new.entries
        ≡ member (codes "order") (numbers_data order.now) (member (codes "verdict") (string (codes "yes")) no_members)) }
{
    put(members, alloc, "order", numbers_value(alloc, order)?)?;
    put(
        members,
        alloc,
        "verdict",
        Value::try_from_str(alloc, "yes")?,
    )
}

fn put_segment(
    members: &mut Map<String, Value>,
    alloc: Global,
    segment: &Segment,
    word: &str,
) -> Result<(), AllocError>
    requires { members.old.entries ≡ [] }
    ensures { OnOk result (object (members_view members.new.entries) ≡ segment_data segment.now word.now) }
{
    put(
        members,
        alloc,
        "calls",
        numbers_value(alloc, segment.numbers())?,
    )?;
    put(members, alloc, "hi", Value::from(segment.hi()))?;
    put(members, alloc, "lo", Value::from(segment.lo()))?;
    put(members, alloc, "verdict", Value::try_from_str(alloc, word)?)
}

fn numbers_value(alloc: Global, numbers: &[u32]) -> Result<Value, AllocError>
    ensures { IfOk result (λ value. view value ≡ numbers_data numbers.now) }
{
    let mut items = Vec::with_capacity(alloc, numbers.len())?;
    for number in numbers {
        items.push(Value::from(*number))?;
    }
    Ok(Value::from(items))
}
