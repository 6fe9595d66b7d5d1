//! The sequential object: an ordered map from `u64` to `u64`, stored as pairs sorted by key.
//! `specs/MapObject` says what the map answers, and which pairs a call leaves.
#![tactic(auto)]

mod replies;
mod sorted_map;

pub use sorted_map::SortedMap;
