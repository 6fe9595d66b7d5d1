// What is said of the keys of a part that does not go on.
ghost use Rattle.std.specs.Prelude.{◌≡◌, map, Some, All, IfOk};
ghost use Rattle.follow_cuts.specs.PartCuts.{kept_of};
ghost use Rattle.follow_parts.specs.Keeping.{pasts_of};
ghost use Rattle.follow_violations.specs.Laws.{ValuesAreReached};
ghost use Rattle.follow_violations.specs.KeyLosses.{AreKeyLosses, IsKeyLoss};
ghost use Rattle.follow_violations.specs.Collecting.{AreSpansOf};

use crate::left_calls::{invoked_at, spans_of};
use crate::loss::Violation;
use crate::named_keys::named_keys;
use crate::puts::Put;
use crate::writers::origins_at;
use events::{Call, Memory};
use follow_cuts::Past;
use std::alloc::Global;

/// A value that a key may have had, or none. If it is known which call put it there, also the event
/// of that call's invocation.
#[derive(Clone, Copy, PartialEq, Eq)]
pub struct Origin {
    pub value: Option<u64>,
    pub put: Option<usize>,
}

/// A key, and the values that it may have had before the calls that are left. Also the events of
/// the invocations of those of these calls that have the key, rising.
pub struct KeyViolation {
    pub key: u64,
    pub from: Vec<Origin>,
    pub invoked: Vec<usize>,
}

impl Drop for KeyViolation {
    fn drop(self) {
        let KeyViolation {
            key: _,
            from: _from,
            invoked: _invoked,
        } = self;
    }
}

/// The keys of a part that does not go on, rising. They are of three kinds: the key of the call
/// that is answered, if it is no scan; the keys of calls of one key that are left in some past; and
/// the keys where a scan that is left reports something else than the past holds.
pub fn key_losses(alloc: Global, loss: &Violation) -> Result<Vec<KeyViolation>, Memory>
    ensures { IfOk result (λ losses. AreKeyLosses (Some loss.now.call) (pasts_of loss.now.part)
        loss.now.puts.items losses.items) }
{
    losses_in(alloc, Some(loss.call), &loss.part.pasts, &loss.puts)
}

/// What is said of the keys that are named in some pasts, rising. If a call is given that has one
/// key, its key is among them.
pub(crate) fn losses_in(
    alloc: Global,
    own: Option<Call>,
    pasts: &[Past],
    puts: &[Put],
) -> Result<Vec<KeyViolation>, Memory>
    ensures { IfOk result (λ losses. AreKeyLosses own (map kept_of pasts.now) puts.now
        losses.items) }
{
    let keys = named_keys(alloc, own, pasts)?;
    let spans = spans_of(alloc, pasts)?;
    let losses = losses_of(alloc, pasts, puts, &spans, &keys)?;
    Ok(losses)
}

/// What is said of these keys.
fn losses_of(
    alloc: Global,
    pasts: &[Past],
    puts: &[Put],
    spans: &[(usize, u64, u64)],
    keys: &[u64],
) -> Result<Vec<KeyViolation>, Memory>
    requires { AreSpansOf (map kept_of pasts.now) spans.now }
    ensures keys { IfOk result (λ losses. map (λ loss. loss.key) losses.items ≡ keys.now) }
    ensures each { IfOk result (λ losses. All (IsKeyLoss (map kept_of pasts.now) puts.now)
        losses.items) }
{
    let mut losses = Vec::new(alloc);
    for key in keys {
        let loss = loss_of(alloc, pasts, puts, spans, *key)?;
        losses.push(loss)?;
    }
    Ok(losses)
}

/// What is said of one key.
fn loss_of(
    alloc: Global,
    pasts: &[Past],
    puts: &[Put],
    spans: &[(usize, u64, u64)],
    key: u64,
) -> Result<KeyViolation, Memory>
    requires { AreSpansOf (map kept_of pasts.now) spans.now }
    ensures key { IfOk result (λ loss. loss.key ≡ key) }
    ensures is { IfOk result (IsKeyLoss (map kept_of pasts.now) puts.now) }
{
    let from = origins_at(alloc, pasts, puts, key)?;
    let invoked = invoked_at(alloc, spans, key)?;
    Ok(KeyViolation { key, from, invoked })
}

/// What is said of the keys of a part may be so, if the part and others represent the calls of the
/// stream. Each value is left at its key by a legal order of calls. Some of the invocations that are
/// said to be left belong to none of its calls. Each answered call of the key is in the order, or
/// has one of these invocations. The call that is said to have put the value is in the order, and
/// puts it. A later call of the order may put it again.
pub fn values_are_reached()
    ensures { ValuesAreReached }
{}
