// Calls that ask the same and are answered the same.
ghost use Rattle.events.specs.declared.event.Reply.TheVariants as replies;
ghost use Rattle.std.specs.Prelude.{◌≡◌, ◌↔◌, Some, IsTrue, IfOk};
ghost use Rattle.search_choices.specs.Twins.{AnswersFirst, IsTwin, IsTwinAt, HasTwin, AreFirstTwins};

use events::{Memory, Operation, Reply, Response};
use std::alloc::Global;

/// The calls of a list but those that have a twin before them in the list. It compares the call at
/// each place with those before it that stay.
pub(crate) fn first_twins(
    alloc: Global,
    calls: &[Operation],
    next: &[u32],
) -> Result<Vec<u32>, Memory>
    ensures { IfOk result (λ firsts. AreFirstTwins calls.now next.now firsts.items) }
{
    let mut firsts = Vec::new(alloc);
    for place in next {
        if !has_twin(calls, &firsts, *place) {
            firsts.push(*place)?;
        }
    }
    Ok(firsts)
}

/// Whether a call has a twin among others.
fn has_twin(calls: &[Operation], firsts: &[u32], place: u32) -> bool
    ensures { IsTrue result → HasTwin calls.now firsts.now place }
{
    for first in firsts {
        if is_twin_at(calls, *first, place) {
            return true;
        }
    }
    false
}

/// Whether the call at a place is the twin of the one at another place.
fn is_twin_at(calls: &[Operation], first: u32, other: u32) -> bool
    ensures { IsTrue result → IsTwinAt calls.now first other }
{
    match (calls.get(first as usize), calls.get(other as usize)) {
        (Some(first), Some(other)) => is_twin(first, other),
        _ => false,
    }
}

/// Whether a call is the twin of another one: it asks the same, and answers no later and the same,
/// or only the other is pending, or both are.
fn is_twin(first: &Operation, other: &Operation) -> bool
    ensures { IsTrue result → IsTwin first.now other.now }
{
    if first.call != other.call {
        return false;
    }
    match (&first.response, &other.response) {
        (Some(own), Some(response)) => answers_first(own, response),
        (Some(own), None) => !is_refusal(&own.reply),
        (None, None) => true,
        (None, Some(_)) => false,
    }
}

/// Whether a response comes no later than another one, and replies the same.
fn answers_first(own: &Response, response: &Response) -> bool
    ensures { IsTrue result → AnswersFirst (Some own.now) (Some response.now) }
{
    own.res <= response.res && is_same(&own.reply, &response.reply)
}

/// Whether two replies are seen to be the same. Lists of pairs and refusals are not compared.
fn is_same(reply: &Reply, other: &Reply) -> bool
    ensures { IsTrue result → reply.now ≡ other.now }
{
    match (reply, other) {
        (Reply::None, Reply::None) | (Reply::Done, Reply::Done) | (Reply::Found, Reply::Found) =>
            true,
        (Reply::Some(value), Reply::Some(found)) => value == found,
        _ => false,
    }
}

/// Whether a reply is a refusal.
fn is_refusal(reply: &Reply) -> bool
    ensures { IsTrue result ↔ (reply.now ≡ replies.Refused) }
{
    matches!(reply, Reply::Refused)
}
