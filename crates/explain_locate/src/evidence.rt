// What shows a location.
use explain_shrink::Explanation;
use follow_violations::KeyCore;

/// What shows that a history goes wrong at an event, or may.
#[derive(Drop)]
pub enum Evidence {
    /// A few calls of the events up to it show that, from the pairs that the map holds at the
    /// start.
    OfEvents(Explanation),
    /// A few of the calls left of a part of the keys show that, from the pairs that these keys had
    /// before them.
    OfPart(KeyCore, Explanation),
    /// Nothing does.
    Missing,
}
