// The calls that are left of some pasts.
ghost use Rattle.std.specs.Prelude.{◌≡◌, ◌↔◌, ◌<◌, ℕ, map, AllPairs, Any, Contains, IfOk, OnOk};
ghost use Rattle.follow_cuts.specs.PartCuts.{kept_of};
ghost use Rattle.follow_violations.specs.Collecting.{AreAdded, AreAddedOf, AreSpansOf, IsSpanAt, IsSpanOf};

use events::{Memory, Operation};
use follow_cuts::Past;
use std::alloc::Global;

/// The calls that are left in some past, each once: the event of its invocation, its least and its
/// greatest key.
pub(crate) fn spans_of(alloc: Global, pasts: &[Past]) -> Result<Vec<(usize, u64, u64)>, Memory>
    ensures { IfOk result (λ spans. AreSpansOf (map kept_of pasts.now) spans.items) }
{
    let mut spans = Vec::new(alloc);
    for past in pasts {
        note_spans(&mut spans, &past.calls)?;
        spans = each_once(spans);
    }
    Ok(spans)
}

/// Those calls, each once.
fn each_once(mut spans: Vec<(usize, u64, u64)>) -> Vec<(usize, u64, u64)>
    ensures { (span : ℕ × ℕ × ℕ) → Contains result.items span ↔ Contains spans.items span }
{
    spans.sort_unstable();
    spans.dedup();
    spans
}

/// Notes calls.
fn note_spans(spans: &mut Vec<(usize, u64, u64)>, calls: &[Operation]) -> Result<(), Memory>
    ensures { OnOk result (AreAdded IsSpanOf calls.now spans.old.items spans.new.items) }
{
    for call in calls {
        spans.push((call.inv, call.call.low_key(), call.call.high_key()))?;
    }
    Ok(())
}

/// The events of the invocations of those calls that have a key, rising.
pub(crate) fn invoked_at(
    alloc: Global,
    spans: &[(usize, u64, u64)],
    key: u64,
) -> Result<Vec<usize>, Memory>
    ensures rising { IfOk result (λ invoked. AllPairs (λ a b. a < b) invoked.items) }
    ensures same { IfOk result (λ invoked. (inv : ℕ) → Contains invoked.items inv
        ↔ Any (λ span. IsSpanAt key span inv) spans.now) }
{
    let mut invoked = Vec::new(alloc);
    for span in spans {
        note_event(&mut invoked, *span, key)?;
    }
    Ok(in_order(invoked))
}

/// Notes the event of a call, if it has a key.
fn note_event(invoked: &mut Vec<usize>, span: (usize, u64, u64), key: u64) -> Result<(), Memory>
    ensures { OnOk result (AreAddedOf (IsSpanAt key span) invoked.old.items invoked.new.items) }
{
    if span.1 <= key && key <= span.2 {
        invoked.push(span.0)?;
    }
    Ok(())
}

/// Those events, rising, each once.
fn in_order(mut invoked: Vec<usize>) -> Vec<usize>
    ensures rising { AllPairs (λ a b. a < b) result.items }
    ensures same { (inv : ℕ) → Contains result.items inv ↔ Contains invoked.items inv }
{
    invoked.sort_unstable();
    invoked.dedup();
    invoked
}
