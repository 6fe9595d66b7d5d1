//! Which calls a search for an order tries next, and in which order. `reduced_search` is the
//! search. A completed call that may come next, and leaves the map as it is wherever it may be
//! answered so, is taken at once, and no other is tried. What is left has an order exactly if it
//! has one that begins with this call (`reads_go_first`). Pending calls are tried only if a
//! completed one that could come next may wait for one of them; else one of the completed ones may
//! go first. Those that would change nothing are left out (`vain_calls_are_left_out`). If several
//! calls are left to try, those of a few keys may suffice: if what is left has an order, it has one
//! that begins with one of them (`few_keys_go_first`). Such keys are a stubborn set of Valmari
//! 1991. Then no call of another key is tried there. Of calls that ask the same and are answered
//! the same, only the one that was answered first is tried (`twins_go_first`). A call that is left
//! is stuck if it reported a value that its key does not have, and that no call puts there before
//! it. Then nothing is tried (`stuck_calls_are_dead_ends`), and a call that would leave another one
//! stuck is not tried either.
#![tactic(auto)]

mod branch;
mod choosing;
mod dead;
mod first_keys;
mod idle;
mod laws;
mod twins;

pub use branch::{Branch, CallSearch, SearchStep};
pub use choosing::choices;
pub use laws::{
    few_keys_go_first, reads_go_first, stuck_calls_are_dead_ends, told_calls_leave_all,
    twins_go_first, vain_calls_are_left_out,
};
