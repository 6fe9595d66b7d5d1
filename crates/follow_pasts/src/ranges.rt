// Keys by range.
ghost use Rattle.std.specs.Prelude.{◌≡◌, ℕ, ◌≤◌, ◌++◌, ◌∷◌, [], true, false, IfOk, OnOk, IsTrue, IsFalse};
ghost use Rattle.follow_pasts.specs.Ranges.{covered};

use events::Memory;
use std::alloc::Global;

/// The keys from one to another, both among them.
#[derive(Clone, Copy, PartialEq, Eq)]
pub struct Range {
    pub low: u64,
    pub high: u64,
}

/// Whether some key from `low` to `high` is in one of the ranges.
pub fn meet(ranges: &[Range], low: u64, high: u64) -> bool
    ensures none { IsFalse result → (key : ℕ) → low ≤ key → key ≤ high
        → covered ranges.now key ≡ false }
    ensures one { low ≡ high → result ≡ covered ranges.now low }
{
    for range in ranges {
        if range.low <= high && low <= range.high {
            return true;
        }
    }
    false
}

/// Whether all keys from `low` to `high` are in one of the ranges.
pub fn span(ranges: &[Range], low: u64, high: u64) -> bool
    ensures { IsTrue result → (key : ℕ) → low ≤ key → key ≤ high → covered ranges.now key ≡ true }
{
    for range in ranges {
        if range.low <= low && high <= range.high {
            return true;
        }
    }
    false
}

/// The keys of some ranges in fewer ranges, if some of them meet.
pub(crate) fn tidied(alloc: Global, mut ranges: Vec<Range>) -> Result<Vec<Range>, Memory>
    ensures { IfOk result (λ tidy. (key : ℕ)
        → covered tidy.items key ≡ covered ranges.items key) }
{
    ranges.sort_by_key(|range| range.low)?;
    let mut tidy = Vec::new(alloc);
    for range in ranges {
        add_range(&mut tidy, range)?;
    }
    Ok(tidy)
}

/// Adds the keys of a range, to the last range if both meet.
fn add_range(tidy: &mut Vec<Range>, range: Range) -> Result<(), Memory>
    ensures { OnOk result ((key : ℕ) → covered tidy.new.items key
        ≡ covered (tidy.old.items ++ range ∷ []) key) }
{
    if let Some(last) = tidy.last_mut() {
        if last.low <= range.low && range.low <= last.high {
            last.high = last.high.max(range.high);
            return Ok(());
        }
    }
    tidy.push(range)?;
    Ok(())
}
