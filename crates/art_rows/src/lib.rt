//! The words of the trees' table: where rows are, what a word means, and which word has a meaning.
//! Nodes of four kinds, with path compression and lazy expansion, are those of Leis, Kemper and
//! Neumann, ICDE 2013; the layout is our own. `specs/` defines it for every number.
//!
//! Also the steps of a call on a tree, as text, after Leis, Scheibner, Kemper and Neumann, DaMoN
//! 2016: `act` in `specs/` says what a call does next after each list of words that it got.
#![tactic(auto)]

mod access;
mod kinds;
mod laws;
mod places;
mod readers;
mod table;
mod tree_call;
mod variant;
mod writers;

pub use access::{Access, Point};
pub use laws::{accesses_stay_in_table, replies_list_few_pairs};
pub use readers::{
    entry_at, index_entry, info_level, key_byte, key_count, key_difference, key_place, key_place16,
    keys_count, path_byte, path_difference, version_is_locked, version_is_obsolete, version_locked,
    version_released,
};
pub use table::{Child, Kind, Shape};
pub use tree_call::TreeCall;
pub use variant::Variant;
pub use writers::{
    child_word, index_with, key_bytes_with, keys_with, keys16_with, more_keys16_with, moved_info,
    new_key_place, new_key_place16, pair_info, pair_keys, row_word, version_obsolete,
};

/// The most pairs that a scan of a tree is answered.
pub const MAX_LEAVES: usize = 4096;
