// What is known of one process. No value of it is made: a view on shared words has to be a type of this language.
use events::{Call, Event};
use std::collections::LinkedList;

/// A process of the core: its open call with the words that the call got so far, its log, and how many steps it made.
pub struct Process {
    pub call: Option<Call>,
    pub got: LinkedList<u64>,
    pub log: LinkedList<(u64, Event)>,
    pub steps: u64,
}
