// What a hand holds, the rule of the shared word, and what each atomic step says. Only the proofs
// need them.
ghost use Rattle.std.specs.Prelude.{[]};
ghost use Rattle.tickets.specs.Holdings.{holding, KeepsCount, Draws, SetsAside, StaysWithin, kept_part, given_part, both_parts, no_part};

use atomic_table::{Join, Play, Split, TableRule};
use std::collections::LinkedList;

/// What a hand holds. No value of this type is made.
pub(crate) struct Holding {
    /// What the hand drew, and what the hands that were joined to it drew.
    pub drawn: LinkedList<u64>,
    /// How many numbers it may still draw.
    pub left: u64,
    /// The hand draws no number below this.
    pub floor: u64,
    /// How many draws the next split gives away.
    pub set_aside: u64,
}

/// The rule of the word: it counts the draws of all hands.
pub(crate) struct Counting;

impl TableRule<(), Holding, u64> for Counting {
    ghost holds = { KeepsCount };

    ghost first = { λ quota. holding [] quota 0 0 };
}

/// A draw.
pub(crate) struct Draw;

impl Play<(), Holding> for Draw {
    ghost then = { Draws };
}

/// A note of how many draws the next split gives away.
pub(crate) struct SetAside;

impl Play<(), Holding> for SetAside {
    ghost then = { SetsAside };
}

/// A look that shows that what a hand holds is within the bound.
pub(crate) struct LookAtBound;

impl Play<(), Holding> for LookAtBound {
    ghost then = { StaysWithin };
}

/// A split gives away the part that was set aside, and a join puts two holdings together.
pub(crate) struct Share;

impl Split<Holding> for Share {
    ghost left = { kept_part };

    ghost right = { given_part };
}

impl Join<Holding> for Share {
    ghost both = { both_parts };

    ghost spent = { no_part };
}
