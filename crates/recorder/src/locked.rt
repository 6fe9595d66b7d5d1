// The sorted map, for one thread at a time.
ghost use Rattle.std.specs.Prelude.{◌≡◌, ◌<◌, ◌≤◌};
ghost use Rattle.events.specs.declared.event.Reply.TheVariants.{Refused};
ghost use Rattle.events.specs.Histories.{pair_count};
ghost use Rattle.events.specs.Limits.{pair_limit};
ghost use Rattle.map_object.specs.MapObject.{IsRising};
ghost use Rattle.recorder.specs.Answers.{IsAnswerOf, IsDoneOrRefused};

use crate::subject::Subject;
use events::{Call, MAX_PAIRS, Reply};
use map_object::SortedMap;
use std::alloc::Global;
use std::sync::{Mutex, Wait};

/// A sorted map under a lock. It starts empty. A call is refused, and changes nothing, if memory
/// runs out or if a scan would list more than `MAX_PAIRS` pairs. So a get, a remove, a replace, and
/// an insert at a key with a value are never refused.
#[derive(Drop)]
pub struct LockedMap<'a, R: Wait> {
    rt: &'a R,
    alloc: Global,
    map: Mutex<SortedMap>,
}

impl<'a, R: Wait> LockedMap<'a, R> {
    /// Returns the empty map.
    pub fn new(rt: &'a R, alloc: Global) -> LockedMap<'a, R> {
        let map = Mutex::new(SortedMap::new(alloc));
        LockedMap { rt, alloc, map }
    }
}

impl<'a, R: Wait> Subject for LockedMap<'a, R> {
    ghost may_answer = { λ _. IsAnswerOf };

    /// Waits for the lock, then does the call. It costs what the sorted map's call costs.
    fn call(&self, call: &Call) -> Reply
        ensures short { pair_count result ≤ pair_limit }
        ensures answer { IsAnswerOf call.now result }
    {
        let mut map = self.map.lock(self.rt);
        answer(self.alloc, &mut map, call)
    }
}

/// Does the call, or refuses it.
fn answer(alloc: Global, map: &mut SortedMap, call: &Call) -> Reply
    ensures short { pair_count result ≤ pair_limit }
    ensures done { IsDoneOrRefused map.old call.now result map.new }
    ensures rising { IsRising map.old }
    ensures rises { IsRising map.new }
{
    are_rising(map);
    let reply = match map.step(alloc, call) {
        Err(_) => Reply::Refused,
        Ok(reply) => within_limit(reply),
    };
    are_rising(map);
    reply
}

/// Shows that the keys of the map rise, by looking at its pairs. It costs nothing.
fn are_rising(map: &SortedMap)
    ensures { IsRising map.now }
{
    let _pairs = map.pairs();
}

/// Returns the reply, or a refusal if it lists too many pairs. Only a scan's reply can, and a scan
/// changes nothing.
fn within_limit(reply: Reply) -> Reply
    ensures short { pair_count result ≤ pair_limit }
    ensures same { pair_count reply ≤ pair_limit → result ≡ reply }
    ensures refused { pair_limit < pair_count reply → result ≡ Refused }
{
    if reply.pair_count() > MAX_PAIRS {
        return Reply::Refused;
    }
    reply
}
