//! Explains why calls have no order: it finds a few of them that have none either, and each of
//! which is needed.
//!
//! That the few have no order shows that all calls have none. For calls are left out only if each
//! order of all calls still contains one of the rest. A call that leaves the map as it is can be
//! left out. So can a call if no other call that stays depends on what it put, or if that is
//! overwritten, in each order, before such a call. A call that may depend on it loses its answer:
//! the rest says that it was made, and not what it found. So the rest is the shortest story that
//! goes wrong on its own, and nothing that was left out could mend it
//! (`relaxed_calls_have_orders`).
//!
//! The calls after the first ones that go wrong are left out first, then those before the last of
//! these. Then it tries to leave out halves, quarters and so on, with calls of one key next to each
//! other, and at last single calls. It ends when each call that stays has a reason. Without the
//! call, the others have an order, or their search takes more than the budget, or a call without an
//! answer waits for what was left out.
//!
//! A history may go wrong at its last event, for example where the monitor of a stream found no
//! order. Then only calls near that answer are looked at, and all calls are never searched.
#![tactic(auto)]

mod ends;
mod explaining;
mod explanation;
mod laws;
mod leaving;
mod lessening;
mod losing;
mod rests;
mod telling;

pub use explaining::explain_calls;
pub use explanation::{Explanation, Reason};
pub use laws::{relaxed_calls_have_orders, rests_are_relaxed};
pub use losing::explain_history;
pub use rests::{precedes, without_answer};
pub use telling::{depends_on, is_sure, names_key, put_by, put_of, tells_put};
