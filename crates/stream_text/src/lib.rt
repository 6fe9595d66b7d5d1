//! Streams of events, a line each: the lines are cut from a source within bounded memory, and read
//! one by one. A stream may have no end, so nothing here stores what was read. Only two limits
//! hold: each line has at most `MAX_LINE` bytes, and processes are numbered below 65,536. The names
//! of events, and the order of their faults, are those of the texts of histories.
#![tactic(auto)]

mod compact;
mod cutting;
mod event;
mod feeds;
mod laws;
mod line_buffer;
mod line_fault;
mod no_line;
mod read_line;
mod room;

pub use cutting::next_line;
pub use event::{FirstLine, StreamEvent};
pub use feeds::first_line_feed;
pub use laws::{lines_one_by_one, one_event_line, one_line_fault};
pub use line_buffer::LineBuffer;
pub use line_fault::LineFault;
pub use no_line::NoLine;
pub use read_line::{read_event_line, read_first_line};

/// The most bytes that a line has, without the line feed that ends it.
pub const MAX_LINE: usize = 1_048_576;
