// What the lines of a stream spell.
use events::{Call, Pairs, Reply};
use history_text::TextVersion;

/// One event of a stream: a process begins a call, or its open call is answered.
#[derive(Drop)]
pub enum StreamEvent {
    Invoke { process: u16, call: Call },
    Answer { process: u16, reply: Reply },
}

/// What the first line of a stream spells.
#[derive(Drop)]
pub enum FirstLine {
    /// The version of the stream, 2 or 3, and the pairs that the map has at the start, by rising
    /// key.
    Start { version: TextVersion, pairs: Pairs },
    /// An event. The stream has version 1, and starts with the empty map.
    Event(StreamEvent),
}
