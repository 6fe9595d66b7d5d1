// Where a stream goes wrong, or may.
use crate::puts::Put;
use events::Call;
use follow_parts::EndedPart;

/// Where a stream goes wrong, or may: the event, and the call that it answers, with its number.
/// Also the part of the keys that does not go on, with its pasts, and calls that put values. The
/// part has no past if no map answers the call so.
pub struct Violation {
    pub event: usize,
    pub number: usize,
    pub call: Call,
    pub part: EndedPart,
    pub puts: Vec<Put>,
}

impl Drop for Violation {
    fn drop(self) {
        let Violation {
            event: _,
            number: _,
            call: _,
            part: _part,
            puts: _puts,
        } = self;
    }
}
