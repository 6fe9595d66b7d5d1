// A part of the keys.
ghost use Rattle.std.specs.Prelude.{◌≡◌, map, IfOk};
ghost use Rattle.follow_cuts.specs.PartCuts.{kept_of};
ghost use Rattle.follow_pasts.specs.Views.{kept_part};

use crate::ranges::Range;
use events::{Memory, Operation};
use follow_cuts::{Found, Past};
use follow_orders::StoredOrder;
use std::alloc::Global;

/// Keys that have their pasts in common. The first past has an order of its calls. `tried` is how
/// many calls were left when the part last tried to move on.
pub struct Part {
    pub ranges: Vec<Range>,
    pub first: StoredOrder,
    pub found: Vec<Found>,
    pub others: Vec<Past>,
    pub tried: usize,
}

impl Drop for Part {
    fn drop(self) {
        let Part {
            ranges: _ranges,
            first: _first,
            found: _found,
            others: _others,
            tried: _,
        } = self;
    }
}

impl Part {
    /// Its fields.
    pub fn apart(self) -> (Vec<Range>, StoredOrder, Vec<Found>, Vec<Past>, usize)
        ensures { result ≡ (self.ranges, self.first, self.found, self.others, self.tried) }
    {
        let Part {
            ranges,
            first,
            found,
            others,
            tried,
        } = self;
        (ranges, first, found, others, tried)
    }

    /// Copies of all its pasts, the first one first.
    pub fn pasts(&self, alloc: Global) -> Result<Vec<Past>, Memory>
        ensures { IfOk result (λ pasts. map kept_of pasts.items ≡ (kept_part self.now).pasts) }
    {
        let mut pasts = Vec::with_capacity(alloc, self.others.len() + 1)?;
        let first = Past {
            map: self.first.start().copy(alloc)?,
            calls: copies_of(alloc, self.first.calls())?,
            found: Vec::from_slice(alloc, &self.found)?,
        };
        pasts.push(first)?;
        for other in &self.others {
            pasts.push(copy_of(alloc, other)?)?;
        }
        Ok(pasts)
    }
}

fn copy_of(alloc: Global, past: &Past) -> Result<Past, Memory>
    ensures { IfOk result (λ copy. kept_of copy ≡ kept_of past.now) }
{
    let map = past.map.copy(alloc)?;
    let calls = copies_of(alloc, &past.calls)?;
    let found = Vec::from_slice(alloc, &past.found)?;
    Ok(Past { map, calls, found })
}

fn copies_of(alloc: Global, calls: &[Operation]) -> Result<Vec<Operation>, Memory>
    ensures { IfOk result (λ copies. copies.items ≡ calls.now) }
{
    let mut copies = Vec::with_capacity(alloc, calls.len())?;
    for call in calls {
        copies.push(call.copy(alloc)?)?;
    }
    Ok(copies)
}
