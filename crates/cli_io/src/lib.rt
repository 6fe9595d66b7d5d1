//! Where the bytes of a program come from and where they go.
//!
//! The contract of a source is about the bytes that are still to come, if they are known. That of a
//! sink is about the bytes that were written. Both count the calls that failed. So the contract of
//! a program can say what it writes for the bytes that it reads. It can also say that a source or a
//! sink failed if the program reports that.
#![tactic(auto)]

mod fault;
pub mod memory_ends;
mod optional;
mod readers;
mod reading;
mod sink;
mod source;
mod writers;
mod writing;

pub use fault::{Failed, ReadFault};
pub use optional::terminal_of;
pub use readers::{ReaderSource, StandardInput};
pub use reading::read_up_to;
pub use sink::Sink;
pub use source::Source;
pub use writers::{StandardError, StandardOutput, WriterSink};
pub use writing::write_whole;
