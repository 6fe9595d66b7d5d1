//! Cuts of a part of the keys. A cut goes from the pasts that the keys may have, with the calls
//! that are left of them, to the pasts at a later moment. These have taken all calls that ended
//! before it.
//!
//! A walk from a past takes one call at a time. It ends as soon as nothing is left that ended
//! before the moment: a call that it could take besides has not ended there, and is left. A read
//! that fits is taken at once. Else only the calls of a few keys are tried. The call that ended
//! first has one of them. A scan does not tie these keys to others while it does not fit the map at
//! one of them: some call of these keys has to come before the scan.
#![tactic(auto)]

mod alone;
mod branching;
mod cut;
mod levels;
mod past;
mod position;
mod stepping;

pub use cut::{Cut, Limits, pasts_at};
pub use past::{Found, Past};

#[cfg(test)]
mod tests;
