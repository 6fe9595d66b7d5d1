//! From the words of the command line to the line that they ask for, or to an outcome if they ask
//! for none.
//! Each program decides what it does for a line. Only this crate defines, for any such program,
//! that an outcome is what the words ask for.
#![tactic(auto)]

mod asking;

pub use asking::{asked_line, texts_of, unsupported_outcome, words_of};
