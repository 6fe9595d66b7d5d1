// Whether a part goes on after an answer.
ghost use Rattle.std.specs.Prelude.{◌≡◌, ℕ, suc, List, All, IfOk};
ghost use Rattle.events.specs.declared.operation.Operation.{Operation as Done};
ghost use Rattle.map_object.specs.MapObject.{Contents};
ghost use Rattle.follow_laws.specs.Pasts.{KeptPast};
ghost use Rattle.follow_laws.specs.KeptParts.{AreKept};
ghost use Rattle.follow_pasts.specs.Ranges.{covered};
ghost use Rattle.follow_pasts.specs.Pasts.{AreGoneOn, lefts_of};
ghost use Rattle.follow_parts.specs.Views.{PartsView};
ghost use Rattle.follow_parts.specs.Keeping.{AreReadsOf, IsAnswered};
ghost use Rattle.follow_parts.specs.Going.{AreEnded, MayBeLeft, kept_with};

use crate::settling::settle;
use crate::state::{Answered, EndedPart, Parts};
use events::Memory;
use follow_pasts::{GoneOn, Part, Range};
use std::alloc::Global;

/// Puts a part among the others after an answer, if one of its pasts has an order, and moves it on
/// if it is time. `state` has the other parts, and counts the answer.
pub(crate) fn go_on(
    alloc: Global,
    state: Parts,
    ranges: Vec<Range>,
    tried: usize,
    gone: GoneOn,
) -> Result<Answered, Memory>
    requires { All (MayBeLeft state) (lefts_of gone) }
    ensures answered { (start : Contents) (budget : ℕ) (old : PartsView) (calls : List Done)
        (pasts : List KeptPast) → state.now ≡ suc old.now → AreGoneOn budget pasts gone
        → AreReadsOf calls state.reads
        → AreKept start state.now calls (kept_with state (covered ranges.items) pasts)
        → IfOk result (IsAnswered start budget old calls) }
    ensures ended { (budget : ℕ) (pasts : List KeptPast) → AreGoneOn budget pasts gone
        → IfOk result (AreEnded ranges.items pasts) }
{
    match gone {
        GoneOn::Alive {
            first,
            found,
            others,
        } => {
            let _calls = first.calls();
            let part = Part {
                ranges,
                first,
                found,
                others,
                tried,
            };
            let next = settle(alloc, state, part)?;
            Ok(Answered::Going(next))
        }
        GoneOn::Dead(pasts) => Ok(Answered::Lost(EndedPart { ranges, pasts })),
        GoneOn::Doubtful(pasts) => Ok(Answered::Spent(EndedPart { ranges, pasts })),
    }
}
