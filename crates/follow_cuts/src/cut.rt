// The pasts at a moment.
ghost use Rattle.std.specs.Prelude.{◌≡◌, ◌<◌, length, map, All, AllPairs, Contains, IfOk, IsTrue};
ghost use Rattle.events.specs.Precedence.{NonePrecedesItself};
ghost use Rattle.follow_laws.specs.Pasts.{AreKeptAlike};
ghost use Rattle.follow_cuts.specs.PartCuts.{AreEnough, AreShaped, IsMade, kept_of};
ghost use Rattle.follow_cuts.specs.Positions.{AreMadeOf, IsFrom, IsPastAt, kept_in};
ghost use Rattle.follow_cuts.specs.declared.past.Past.{Past as PastValue};

use crate::alone::past_alone;
use crate::levels::next_level;
use crate::past::Past;
use crate::position::{Position, at_start, have_same_found, have_same_pairs};
use events::{Memory, Operation};
use std::alloc::Global;

/// How much a cut may take. If it would take more, its answer is `Spent`.
#[derive(Clone, Copy)]
pub struct Limits {
    /// The most positions that walks may have as a level begins, and the most at which walks may
    /// have ended while others go on. So a cut may begin at no more pasts. Within a level there may
    /// be more for a while: for each position one for each call that may come next.
    pub width: usize,
    /// The most levels. A walk of n calls needs n + 2, without the reads that it takes at once.
    pub levels: usize,
    /// The most pasts at the moment, each counted once if walks come to it in several ways.
    pub pasts: usize,
}

/// What became of a cut.
#[derive(Drop)]
pub enum Cut {
    /// The pasts at the moment.
    Pasts(Vec<Past>),
    /// The limits did not suffice. Nothing is promised then.
    Spent,
}

/// The pasts at a moment. They represent the same calls as the given pasts, and no call is left in
/// them that ended before the moment. If the answer is `Spent`, nothing is promised. `Memory` means
/// that memory ran out. Each new position is compared with the others of its level, so a level
/// takes time in proportion to the square of its width.
pub fn pasts_at(alloc: Global, pasts: &[Past], moment: usize, limits: Limits) -> Result<Cut, Memory>
    requires { AreShaped pasts.now }
    ensures { IfOk result (IsMade moment limits.pasts pasts.now) }
{
    if limits.pasts == 0 {
        return Ok(Cut::Spent);
    }
    match past_alone(alloc, pasts, moment)? {
        Some(past) => Ok(Cut::Pasts(vec![in alloc; past]?)),
        None => walked(alloc, pasts, moment, limits),
    }
}

/// The pasts at a moment, by walks from all pasts.
fn walked(alloc: Global, pasts: &[Past], moment: usize, limits: Limits) -> Result<Cut, Memory>
    requires { AreShaped pasts.now }
    ensures { IfOk result (IsMade moment limits.pasts pasts.now) }
{
    let mut next = all_at_start(alloc, pasts)?;
    let mut ended = Vec::new(alloc);
    for _ in 0..limits.levels {
        if next.is_empty() {
            return made(alloc, pasts, &ended, limits.pasts);
        }
        if next.len() > limits.width || ended.len() > limits.width {
            return Ok(Cut::Spent);
        }
        next = next_level(alloc, pasts, moment, next, &mut ended)?;
    }
    Ok(Cut::Spent)
}

/// The positions at the pasts, before any call.
fn all_at_start(alloc: Global, pasts: &[Past]) -> Result<Vec<Position>, Memory>
    ensures from_past { IfOk result (λ v. All (IsFrom pasts.now) v.items) }
    ensures kept { IfOk result (λ v. map (kept_in pasts.now) v.items ≡ map kept_of pasts.now) }
{
    let mut positions = Vec::new(alloc);
    for base in 0..pasts.len() {
        positions.push(at_start(alloc, base, &pasts[base])?)?;
    }
    Ok(positions)
}

/// The pasts that walks have come to, each once, if they are no more than allowed.
fn made(alloc: Global, pasts: &[Past], positions: &[Position], most: usize) -> Result<Cut, Memory>
    requires shaped { AreShaped pasts.now }
    requires from_past { All (IsFrom pasts.now) positions.now }
    ensures { IfOk result (AreMadeOf pasts.now positions.now most) }
{
    let made = all_made(alloc, pasts, positions)?;
    if made.len() > most {
        return Ok(Cut::Spent);
    }
    Ok(Cut::Pasts(made))
}

/// The pasts that walks have come to, each once.
fn all_made(alloc: Global, pasts: &[Past], positions: &[Position]) -> Result<Vec<Past>, Memory>
    requires shaped { AreShaped pasts.now }
    requires from_past { All (IsFrom pasts.now) positions.now }
    ensures shaped { IfOk result (λ v. AreShaped v.items) }
    ensures enough { IfOk result (λ v. AreEnough (map (kept_in pasts.now) positions.now) (map kept_of v.items)) }
{
    let mut made: Vec<Past> = Vec::new(alloc);
    for position in positions {
        let past = past_of(alloc, &pasts[position.base].calls, position)?;
        if !is_among(&made, &past) {
            made.push(past)?;
        }
    }
    Ok(made)
}

/// The past that a walk has come to.
fn past_of(alloc: Global, calls: &[Operation], position: &Position) -> Result<Past, Memory>
    requires { length position.now.taken.items ≡ length calls.now }
    ensures { IfOk result (IsPastAt calls.now position.now) }
{
    let mut left = Vec::new(alloc);
    for place in 0..calls.len() {
        if !position.taken[place] {
            left.push(calls[place].copy(alloc)?)?;
        }
    }
    Ok(Past {
        map: position.map.copy(alloc)?,
        calls: left,
        found: Vec::from_slice(alloc, &position.found)?,
    })
}

/// Whether a past is kept alike among others.
fn is_among(pasts: &[Past], past: &Past) -> bool
    ensures { IsTrue result → (other : PastValue) × Contains pasts.now other × AreKeptAlike (kept_of past.now) (kept_of other) }
{
    for other in pasts {
        if are_kept_alike(past, other) {
            return true;
        }
    }
    false
}

/// Whether two pasts are kept alike: the same calls are left, and the same map, and the same was
/// found.
fn are_kept_alike(one: &Past, other: &Past) -> bool
    ensures { IsTrue result → AreKeptAlike (kept_of one.now) (kept_of other.now) }
{
    if !have_same_pairs(&one.map, &other.map) {
        return false;
    }
    if !have_same_names(&one.calls, &other.calls) {
        return false;
    }
    have_same_found(&one.found, &other.found)
}

/// Whether calls have the same invocations, in turn.
fn have_same_names(one: &[Operation], other: &[Operation]) -> bool
    ensures { IsTrue result → map (λ o. o.inv) one.now ≡ map (λ o. o.inv) other.now }
{
    if one.len() != other.len() {
        return false;
    }
    for place in 0..one.len() {
        if one[place].inv != other[place].inv {
            return false;
        }
    }
    true
}
