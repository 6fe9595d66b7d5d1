//! The command line of the program: from its words to what they ask for.
//!
//! One table contains all subcommands and options. `specs/` says what each line of words asks for.
//! `clap` reads the words, and its texts for help and for faults are passed on unchanged. Only one
//! fault is found after `clap` has read them: a value that is not one of the words of its option.
#![tactic(auto)]

mod asked;
mod command;
mod fault;
mod line;
mod program;
mod read;
mod request;
mod table;

pub use fault::LineFault;
pub use line::{DriveLine, Line, Rows, ScheduleLine, Strategy, Tree};
pub use read::read_line;
