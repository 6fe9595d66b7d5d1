//! The merge: orders of a history's segments become one order of the whole history. The point of a
//! call is the greatest place of an invocation up to it in its order. The merged order is sorted by
//! these points.
#![tactic(auto)]

mod laws;
mod merged;
mod points;

pub use laws::{one_merged_order, segments_share_no_point};
pub use merged::merge;
