// A past with only one call left.
ghost use Rattle.std.specs.Prelude.{◌∷◌, [], IfOk, IfSome};
ghost use Rattle.follow_cuts.specs.PartCuts.{AreCut, AreShaped};

use crate::past::Past;
use crate::stepping::answer_before;
use events::{Memory, Operation};
use orders::{apply, may_come_next};
use std::alloc::Global;

/// The past at a moment, if there is one past before with only one call left, which ended before the
/// moment and may come next. Most keys have one call at a time, and need no walk.
pub(crate) fn past_alone(
    alloc: Global,
    pasts: &[Past],
    moment: usize,
) -> Result<Option<Past>, Memory>
    requires { AreShaped pasts.now }
    ensures { IfOk result (λ made. IfSome made (λ past. AreCut moment 1 pasts.now (past ∷ []))) }
{
    if pasts.len() != 1 {
        return Ok(None);
    }
    let past = &pasts[0];
    if past.calls.len() != 1 {
        return Ok(None);
    }
    let call = &past.calls[0];
    if answer_before(call, moment) >= moment || !may_come_next(&past.map, call) {
        return Ok(None);
    }
    let mut map = past.map.copy(alloc)?;
    apply(alloc, &mut map, call)?;
    Ok(Some(Past {
        map,
        calls: Vec::new(alloc),
        found: Vec::from_slice(alloc, &past.found)?,
    }))
}
