// Gates that count who comes, or hold workers until others come.
ghost use Rattle.std.specs.Prelude.{⊤};

use pool::Gate;
use std::alloc::{AllocError, Global};
use std::sync::atomic::{AtomicBool, AtomicU64, Ordering};
use std::thread;

/// Counts the visits at each of some segments, and the visits at any other.
#[derive(Drop)]
pub(crate) struct Visits {
    each: Vec<AtomicU64>,
    others: AtomicU64,
}

impl Visits {
    /// No visits yet, at this many segments.
    pub(crate) fn at(alloc: Global, segments: usize) -> Result<Visits, AllocError> {
        let mut each = Vec::new(alloc);
        for _ in 0..segments {
            each.push(AtomicU64::new(0))?;
        }
        let others = AtomicU64::new(0);
        Ok(Visits { each, others })
    }

    /// The fewest visits at one of the segments, and the most there or elsewhere.
    pub(crate) fn fewest_and_most(&self) -> (u64, u64) {
        let (mut fewest, mut most) = (u64::MAX, self.others.load(Ordering::SeqCst));
        for visits in &self.each {
            let visits = visits.load(Ordering::SeqCst);
            fewest = fewest.min(visits);
            most = most.max(visits);
        }
        (fewest, most)
    }
}

impl Gate for Visits {
    ghost was_passed = { λ _ _. ⊤ };

    fn enter(&self, segment: usize) {
        let visits = self.each.get(segment).unwrap_or(&self.others);
        visits.fetch_add(1, Ordering::SeqCst);
    }
}

/// How often a worker yields before it gives up waiting, and how often at least.
const TURNS: u32 = 10_000_000;

const STAY: u32 = 100;

/// Holds each worker for some turns and until this many are inside at once, round after round. Each
/// waits for a bounded number of turns. When one has waited in vain, none waits any more.
#[derive(Drop)]
pub(crate) struct Rounds {
    size: u64,
    entered: AtomicU64,
    inside: AtomicU64,
    met: AtomicU64,
    was_crowded: AtomicBool,
    in_vain: AtomicBool,
}

impl Rounds {
    pub(crate) fn of(size: u64) -> Rounds {
        Rounds {
            size,
            entered: AtomicU64::new(0),
            inside: AtomicU64::new(0),
            met: AtomicU64::new(0),
            was_crowded: AtomicBool::new(false),
            in_vain: AtomicBool::new(false),
        }
    }

    /// How many times a worker was inside with all others of its round; none if more than a round
    /// were ever inside at once.
    pub(crate) fn count_met(&self) -> u64 {
        if self.was_crowded.load(Ordering::SeqCst) {
            return 0;
        }
        self.met.load(Ordering::SeqCst)
    }

    /// Waits until the round of the worker that came with this number, counted from 0, is full.
    /// Returns whether it became full.
    fn fills(&self, number: u64) -> bool {
        for turn in 0..TURNS {
            let full_rounds = self.entered.load(Ordering::SeqCst).checked_div(self.size);
            if turn >= STAY && full_rounds > number.checked_div(self.size) {
                return true;
            }
            if self.in_vain.load(Ordering::SeqCst) {
                return false;
            }
            thread::yield_now();
        }
        false
    }
}

impl Gate for Rounds {
    ghost was_passed = { λ _ _. ⊤ };

    fn enter(&self, _segment: usize) {
        if self.inside.fetch_add(1, Ordering::SeqCst) >= self.size {
            self.was_crowded.store(true, Ordering::SeqCst);
        }
        let number = self.entered.fetch_add(1, Ordering::SeqCst);
        if self.fills(number) {
            self.met.fetch_add(1, Ordering::SeqCst);
        } else {
            self.in_vain.store(true, Ordering::SeqCst);
        }
        self.inside.fetch_sub(1, Ordering::SeqCst);
    }
}
