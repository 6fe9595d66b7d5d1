//! A recorder without a lock: what processes do at a caller's own index, with stamps drawn from one
//! word, becomes a history.
//!
//! A [`Recorder`] is opened with a [`Pass`] for each process. The thread of a process notes with
//! its pass that a call begins ([`Recorder::invoke`]) and that it was answered
//! ([`Recorder::answer`]). Each note is one fetch-and-add, and none waits for another thread.
//! [`Recorder::close`] takes the passes back, in any order, and returns the history: all events of
//! all passes, by rising stamp.
//!
//! [`LockedMap`] is a subject of its own: a sorted map under one lock.
#![tactic(auto)]

mod closing;
mod fault;
mod locked;
mod opening;
mod pass;
mod recorders;
mod recording;
mod subject;

pub use fault::{CloseFault, RecorderFault};
pub use locked::LockedMap;
pub use pass::Pass;
pub use recorders::Recorder;
pub use subject::Subject;
