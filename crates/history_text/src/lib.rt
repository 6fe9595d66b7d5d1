//! The texts of histories: read, tested to the first fault, and written. A text or an event in the
//! compact form is read in one pass, without a tree of values. White space before a text and after
//! it means nothing.
#![tactic(auto)]

mod compact_calls;
mod compact_events;
mod compact_replies;
mod compact_text;
mod json_fault;
mod json_text;
mod parts;
mod read_event;
mod read_text;
mod text_laws;
mod version;
mod white_space_laws;
mod write_text;

pub use compact_events::{invocation_at, response_at};
pub use json_fault::JsonFault;
pub use json_text::json_of;
pub use parts::{items_of, two_members};
pub use read_event::{call_of, pair_of, pairs_of, reply_of, turn_of};
pub use read_text::{read_history, version_with_start};
pub use text_laws::{one_history, one_text_fault};
pub use version::TextVersion;
pub use white_space_laws::{spells_between_white_space, white_space_tells_nothing};
pub use write_text::{call_value, pairs_value, reply_value, write_history};

/// The most bytes that a text has.
pub const MAX_TEXT: usize = 16_777_216;
