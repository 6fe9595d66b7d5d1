// The earliest answer of some calls, call by call.
ghost use Rattle.std.specs.Prelude.{◌≡◌, ◌↔◌, ◌<◌, IsTrue, IsSomeAnd};
ghost use Rattle.call_effects.specs.Earliest.{earlier_of};

use events::Response;

/// Returns whether a place is after an answer; it is not if there is none.
pub fn ended_after(answered: Option<usize>, place: usize) -> bool
    ensures { IsTrue result ↔ IsSomeAnd answered (λ answered. answered < place) }
{
    match answered {
        Some(answered) => answered < place,
        None => false,
    }
}

/// Returns the earlier of two answers, of those that there are.
pub fn earlier_answer(earliest: Option<usize>, response: &Option<Response>) -> Option<usize>
    ensures { result ≡ earlier_of earliest response.now }
{
    let Some(response) = response else {
        return earliest;
    };
    match earliest {
        Some(answered) if answered <= response.res => Some(answered),
        _ => Some(response.res),
    }
}
