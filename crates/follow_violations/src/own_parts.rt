// What goes wrong on its own, if a stream does.
ghost use Rattle.std.specs.Prelude.{◌≡◌, ℕ, [], ◌∷◌, None, IfOk};
ghost use Rattle.map_object.specs.MapObject.{value_at};
ghost use Rattle.follow_violations.specs.KeyLosses.{AreKeyLosses};
ghost use Rattle.follow_violations.specs.OwnParts.{AreOwnLosses, key_core, puts_but};
ghost use Rattle.follow_violations.specs.Laws.{OwnPartsHaveNoOrder};

use crate::loss::Violation;
use crate::lost_keys::{KeyViolation, losses_in};
use crate::puts::Put;
use crate::reported::map_of;
use crate::writers::is_left;
use events::{Memory, Operation};
use follow_cuts::Past;
use std::alloc::Global;
use std::marker::Model;

/// The calls that are left of a part of the keys, the pairs that its keys have before them, and who
/// put values before them.
#[derive(Drop)]
pub struct KeyCore {
    pub start: Vec<(u64, u64)>,
    pub calls: Vec<Operation>,
    pub puts: Vec<Put>,
}

impl Model for KeyCore {
    ghost use Rattle.follow_violations.specs.OwnParts.{KeyCore as Part};

    ghost Value = { Part };

    ghost view = { λ p. record { start = p.start.items; calls = p.calls.items; puts = p.puts.items } };
}

/// What goes wrong on its own if a stream does: the part that does not go on, if it has one past.
/// It has no order (`own_parts_have_no_order`).
pub fn key_core(alloc: Global, loss: &Violation) -> Result<Option<KeyCore>, Memory>
    ensures { IfOk result (λ part. part ≡ key_core loss.now) }
{
    let pasts = &loss.part.pasts;
    if pasts.len() != 1 {
        return Ok(None);
    }
    let part = part_of(alloc, &pasts[0], &loss.puts)?;
    Ok(Some(part))
}

/// The calls that are left of a past, and who put values before them.
fn part_of(alloc: Global, past: &Past, puts: &[Put]) -> Result<KeyCore, Memory>
    ensures start { IfOk result (λ part. part.start ≡ past.now.map) }
    ensures calls { IfOk result (λ part. part.calls ≡ past.now.calls.items) }
    ensures puts { IfOk result (λ part. part.puts ≡ puts_but past.now.calls.items puts.now) }
{
    Ok(KeyCore {
        start: Vec::from_slice(alloc, past.map.pairs())?,
        calls: copies_of(alloc, &past.calls)?,
        puts: puts_but(alloc, &past.calls, puts)?,
    })
}

/// The puts of calls that are none of these.
fn puts_but(alloc: Global, calls: &[Operation], puts: &[Put]) -> Result<Vec<Put>, Memory>
    ensures { IfOk result (λ others. others.items ≡ puts_but calls.now puts.now) }
{
    let mut others = Vec::new(alloc);
    for put in puts {
        if !is_left(calls, put.event) {
            others.push(*put)?;
        }
    }
    Ok(others)
}

/// A copy of these calls.
fn copies_of(alloc: Global, calls: &[Operation]) -> Result<Vec<Operation>, Memory>
    ensures { IfOk result (λ copies. copies.items ≡ calls.now) }
{
    let mut copies = Vec::with_capacity(alloc, calls.len())?;
    for call in calls {
        copies.push(call.copy(alloc)?)?;
    }
    Ok(copies)
}

/// The keys of some of the calls of a part, as if only these were left (`key_losses`).
pub fn own_losses(
    alloc: Global,
    part: &KeyCore,
    few: &[Operation],
) -> Result<Vec<KeyViolation>, Memory>
    ensures { IfOk result (λ losses. AreOwnLosses part.now few.now losses.items) }
{
    losses_of_few(alloc, &part.start, few, &part.puts)
}

/// The keys of some calls that are left of these pairs.
fn losses_of_few(
    alloc: Global,
    start: &[(u64, u64)],
    few: &[Operation],
    puts: &[Put],
) -> Result<Vec<KeyViolation>, Memory>
    ensures { IfOk result (λ losses. AreKeyLosses None (record {
      pairs = start.now;
      left = few.now;
      found = [];
    } ∷ []) puts.now losses.items) }
{
    let past = past_of(alloc, start, few)?;
    let mut pasts = Vec::new(alloc);
    pasts.push(past)?;
    losses_in(alloc, None, &pasts, puts)
}

/// A past of these pairs with some calls left.
fn past_of(alloc: Global, start: &[(u64, u64)], few: &[Operation]) -> Result<Past, Memory>
    ensures values { IfOk result (λ past. (key : ℕ) → value_at past.map key ≡ value_at start.now key) }
    ensures left { IfOk result (λ past. past.calls.items ≡ few.now) }
{
    Ok(Past {
        map: map_of(alloc, start)?,
        calls: copies_of(alloc, few)?,
        found: Vec::new(alloc),
    })
}

/// What goes wrong on its own has no order: its calls are calls of the stream, by rising
/// invocation.
pub fn own_parts_have_no_order()
    ensures { OwnPartsHaveNoOrder }
{}
