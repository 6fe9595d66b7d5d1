//! A sorted map of very many small keys in little memory. Its entries are next to one another in
//! leaves, which are full if keys came in rising order. It is a B+ tree of two levels, and its root
//! is one list of the leaves.
#![tactic(auto)]

mod leaf;
mod leaves;
mod packed;
mod ranges;
mod searching;
mod splitting;

pub use packed::PackedMap;
