//! Threads at trees on shared words, or at a subject of a caller's own. At a tree, threads run the
//! calls of their processes, and what they log is a history of the core. An [`Arena`] has the words
//! of one tree. A [`Pass`] is a group of its processes, and runs the least of them. [`Arena::begin`]
//! begins a call, and [`Arena::advance`] makes steps of it. Groups move to threads of their own:
//! [`Arena::split`] moves the greatest process of a group to a new group, and [`Arena::join`] puts
//! two groups together. Each step is one atomic step on one word, except an invocation, which is
//! two. None waits for another thread. A thread that has all processes can close the arena, with or
//! without open calls, and gets the history of what they did.
//!
//! Below that is the core on shared words (`shared_core`). Threads step on one table of atomic
//! words, and some schedule of the core gives what they see. A place shows some of its processes,
//! and steps the first of them. Places go to threads of their own, and come back. Whoever has all
//! processes can close the core, and learns which schedule of the core gives what they logged.
//!
//! Also drives: each process does the calls of its script in a thread of its own, at one subject,
//! and all of it is recorded. Or the processes do them on one tree on shared words, and their logs
//! become a history.
#![tactic(auto)]

mod arena;
mod arena_script;
mod calling;
mod closing;
mod fault;
mod gathering;
mod group;
mod opening;
mod parting;
mod parts;
mod place;
mod progress;
mod room;
mod rule;
mod runner;
mod runs;
mod script;
mod shared_core;
mod steps;
mod subject;
mod tree;
mod view;

pub use arena::Arena;
pub use fault::ArenaClose;
pub use group::Pass;
pub use progress::Progress;
pub use room::is_drivable;
pub use subject::drive_subject;
pub use tree::drive_arena;
pub use view::{Setup, View};
