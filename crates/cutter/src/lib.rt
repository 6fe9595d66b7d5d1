//! The segments of a recorded history of an ordered map. The calls split between two keys if no
//! completed scan spans them, and each part is judged separately.
//!
//! The definitions of `orders` say what a cut and a segment are.
#![tactic(auto)]

mod cutting;
mod key_range;
mod laws;

pub use cutting::cut;
pub use laws::one_list_of_segments;
