// Which calls are known that put values.
ghost use Rattle.std.specs.Prelude.{◌≡◌, ℕ, ◌≤◌, ◌++◌, ◌∷◌, [], List, AllPairs, IsPermutation, IfOk, OnOk};
ghost use Rattle.follow_monitor.specs.Puts.{BecomeWithAnswer};
ghost use Rattle.follow_monitor.specs.OpenPuts.{AreAllPuts, AreOpenPuts, ArePutsOfEntries};
ghost use Rattle.follow_monitor.specs.declared.open_calls.OpenCall.{OpenCall as Open};

use crate::open_calls::OpenCall;
use circular_buffer::HeapCircularBuffer;
use events::{Call, Memory, Reply};
use follow_violations::{Put, put_of, put_with};
use std::alloc::Global;
use std::collections::BTreeMap;

/// Notes the put of a call with its answer as the last one, if the call puts a value. If there is no
/// room, the first put is dropped.
pub(crate) fn note_answer(
    recent: &mut HeapCircularBuffer<Put>,
    call: &Call,
    event: usize,
    reply: &Reply,
)
    ensures puts { BecomeWithAnswer recent.old.capacity call.now event reply.now recent.old.items
        recent.new.items }
    ensures capacity { recent.new.capacity ≡ recent.old.capacity }
{
    if let Some(put) = put_with(call, event, reply) {
        let _oldest = recent.push_back(put);
    }
}

/// Recent puts, and after them those of open calls, by rising event.
pub(crate) fn all_puts(
    alloc: Global,
    recent: &HeapCircularBuffer<Put>,
    open_calls: &BTreeMap<u16, OpenCall>,
) -> Result<Vec<Put>, Memory>
    ensures { IfOk result (λ puts. AreAllPuts recent.now.items open_calls.now.entries puts.items) }
{
    let mut puts = recent.to_vec(alloc)?;
    for put in &open_puts(alloc, open_calls)? {
        puts.push(*put)?;
    }
    Ok(puts)
}

/// The puts of open calls, by rising event.
fn open_puts(alloc: Global, open_calls: &BTreeMap<u16, OpenCall>) -> Result<Vec<Put>, Memory>
    ensures { IfOk result (λ puts. AreOpenPuts open_calls.now.entries puts.items) }
{
    let mut puts = Vec::new(alloc);
    for (_, known) in open_calls {
        note_put(&mut puts, known)?;
    }
    by_event(puts)
}

/// Notes what an open call puts, if it puts a value.
fn note_put(puts: &mut Vec<Put>, known: &OpenCall) -> Result<(), Memory>
    ensures { (entries : List (ℕ × Open)) (process : ℕ) → ArePutsOfEntries entries puts.old.items
        → OnOk result (ArePutsOfEntries (entries ++ (process, known.now) ∷ []) puts.new.items) }
{
    if let Some(put) = put_of(&known.call, known.event) {
        puts.push(put)?;
    }
    Ok(())
}

/// Puts by rising event.
fn by_event(mut puts: Vec<Put>) -> Result<Vec<Put>, Memory>
    ensures moved { IfOk result (λ sorted. IsPermutation puts.items sorted.items) }
    ensures rising { IfOk result (λ sorted. AllPairs (λ p q. p.event ≤ q.event) sorted.items) }
{
    puts.sort_by_key(|put| put.event)?;
    Ok(puts)
}
