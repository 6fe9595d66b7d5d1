//! One order of a list of calls, which is mended while the calls are answered.
//!
//! Calls begin without an answer, and are answered one after another. A completed call that is not
//! one of them, such as a scan, can be inserted. The order is a stack, with the map after its last
//! call, and what undoes each call. A call that is answered or inserted goes to the end of the
//! order, if the map answers it so there; an answer then costs that one call. Otherwise it goes to
//! the last place in the order that allows it and the calls after it, if that is found soon. If
//! not, the last few calls of the order are taken back, and all calls that are not in it are
//! searched for an order (`reduced_search`). If none is found, more calls are taken back, and at last
//! all of them. Each list that is made here is a front, so an answer is right whichever calls are
//! taken back and whichever order was guessed.
#![tactic(auto)]

mod answering;
mod finding;
mod inserting;
mod kept;
mod kept_order;
mod moving;
#[cfg(test)]
mod tests;

pub use kept::Mended;
pub use kept_order::StoredOrder;
