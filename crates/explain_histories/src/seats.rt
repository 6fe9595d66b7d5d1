// Calls that begin and end one after another, each by the process that became free last.
ghost use Rattle.std.specs.Prelude.{◌≡◌, ◌≢◌, ℕ, ◌+◌, ◌<◌, ◌≤◌, List, length, All, AllPairs, IfOk, OnOk, MatchBool, MatchOption, IsSomeAnd, slice_get};
ghost use Rattle.events.specs.Limits.{process_limit};
ghost use Rattle.events.specs.declared.operation.Operation.{Operation};
ghost use Rattle.call_effects.specs.Groups.{reply_in};
ghost use Rattle.explain_histories.specs.Seats.{place_in, reply_at, begun_of, NoneEndsBefore, MayFollow, IsFirstAmong, earlier};
ghost use Rattle.explain_histories.specs.Seats.{AreSeated, NoEventsHave};

use events::{Event, Memory, Operation, PROCESSES, Reply, Response};
use std::alloc::Global;

/// A call that has begun and is not answered yet: its number, its process, and the place of its
/// response if it has one.
#[derive(Clone, Copy)]
pub struct Seat {
    pub number: usize,
    pub process: u8,
    pub res: Option<usize>,
}

/// The state of calls that begin and end one after another: the free processes, the one
/// that became free last at the end; the open calls, by rising number; and the events so far.
#[derive(Drop)]
pub struct Seats {
    pub free: Vec<u8>,
    pub open_seats: Vec<Seat>,
    pub events: Vec<Event>,
}

impl Seats {
    /// Returns the state in which all processes are free, and no call has begun.
    pub fn new(alloc: Global) -> Result<Seats, Memory>
        ensures { (calls : List Operation) → IfOk result (λ seats. AreSeated calls 0 0 seats) }
    {
        let free = all_processes(alloc)?;
        Ok(Seats {
            free,
            open_seats: Vec::new(alloc),
            events: Vec::new(alloc),
        })
    }

    /// Begins the call with this number, by the process that became free last. Returns whether one
    /// was free.
    pub fn begin(&mut self, calls: &[Operation], number: usize) -> Result<bool, Memory>
        requires { number < length calls.now }
        ensures { (place : ℕ) → AreSeated calls.now number place self.old
            → NoneEndsBefore place self.old.open_seats.items
            → place ≡ begun_of calls.now (number + 1)
            → IsSomeAnd (slice_get calls.now number) (λ a. MayFollow calls.now number place a)
            → IfOk result (λ begun. MatchBool begun
            (AreSeated calls.now (number + 1) place self.new) (NoEventsHave calls.now)) }
    {
        let Some(process) = self.free.pop() else {
            return Ok(false);
        };
        let call = &calls[number];
        let res = place_in(&call.response);
        self.open_seats.push(Seat {
            number,
            process,
            res,
        })?;
        self.events.push(Event::Invoke {
            process,
            call: call.call,
        })?;
        Ok(true)
    }

    /// Ends the open call at a place of their list. Then its process is free.
    pub fn end(&mut self, alloc: Global, calls: &[Operation], at: usize) -> Result<(), Memory>
        requires { at < length self.old.open_seats.items }
        ensures seated { (count limit : ℕ) → AreSeated calls.now count limit self.old
            → IsSomeAnd (slice_get self.old.open_seats.items at)
            (λ s. IsSomeAnd s.res (λ res. res < limit))
            → OnOk result (AreSeated calls.now count limit self.new) }
        ensures fewer { length self.new.open_seats.items + 1 ≡ length self.old.open_seats.items }
    {
        let seat = self.open_seats.remove(at);
        let Some(reply) = reply_at(alloc, calls, seat.number)? else {
            return Ok(());
        };
        self.events.push(Event::Answer {
            process: seat.process,
            reply,
        })?;
        self.free.push(seat.process)?;
        Ok(())
    }
}

/// Returns the numbers of all processes, by falling number, so that the least is taken first.
fn all_processes(alloc: Global) -> Result<Vec<u8>, Memory>
    ensures known { IfOk result (λ processes. All (λ p. p < process_limit) processes.items) }
    ensures apart { IfOk result (λ processes. AllPairs (λ p q. p ≢ q) processes.items) }
    ensures all { IfOk result (λ processes. length processes.items ≡ process_limit) }
{
    let mut processes = Vec::new(alloc);
    for process in 0..PROCESSES {
        processes.push(PROCESSES - 1 - process)?;
    }
    Ok(processes)
}

/// Returns the place of a response, if there is one.
fn place_in(response: &Option<Response>) -> Option<usize>
    ensures { result ≡ place_in response.now }
{
    match response {
        Some(response) => Some(response.res),
        None => None,
    }
}

/// Returns the answer of the call with a number, if it has one.
fn reply_at(alloc: Global, calls: &[Operation], number: usize) -> Result<Option<Reply>, Memory>
    ensures { IfOk result (λ reply. reply ≡ reply_at calls.now number) }
{
    match calls.get(number) {
        Some(call) => reply_in(alloc, &call.response),
        None => Ok(None),
    }
}

fn reply_in(alloc: Global, response: &Option<Response>) -> Result<Option<Reply>, Memory>
    ensures { IfOk result (λ reply. reply ≡ reply_in response.now) }
{
    match response {
        Some(response) => Ok(Some(response.reply.copy(alloc)?)),
        None => Ok(None),
    }
}

/// Finds the open call that is answered before this place, if there is one. Of several it is the
/// one answered first, and of those answered at one place the one with the least number. Returns
/// its place in the list.
pub fn first_before(open_seats: &[Seat], place: usize) -> Option<usize>
    ensures { MatchOption result (NoneEndsBefore place open_seats.now)
        (λ at. IsSomeAnd (slice_get open_seats.now at)
        (λ s. IsSomeAnd s.res (λ res. res < place))) }
{
    match first_answer(open_seats) {
        Some((at, res)) => { if res < place { Some(at) } else { None } }
        None => None,
    }
}

/// Returns the place in the list of the open call that is answered first, and the place of its
/// response.
pub fn first_answer(open_seats: &[Seat]) -> Option<(usize, usize)>
    ensures { MatchOption result (All (λ s. s.res ≡ None) open_seats.now)
        (IsFirstAmong open_seats.now open_seats.now) }
{
    let mut first = None;
    for (at, seat) in open_seats.iter().enumerate() {
        first = earlier_answer(first, at, seat.res);
    }
    first
}

/// Returns the earlier of two answers; the first of them if both are at one place.
fn earlier_answer(
    first: Option<(usize, usize)>,
    at: usize,
    res: Option<usize>,
) -> Option<(usize, usize)>
    ensures { result ≡ earlier first at res }
{
    match (first, res) {
        (first, None) => first,
        (None, Some(res)) => Some((at, res)),
        (Some(first), Some(res)) => Some(if res < first.1 { (at, res) } else { first }),
    }
}
