// Locations of the event at which a history goes wrong, and orders of the events before it.
use follow_violations::Violation;

/// Where a history goes wrong, as far as searches within a budget find. Events and calls are
/// numbered from 0.
#[derive(Drop)]
pub enum Location {
    /// The history is linearizable: it goes wrong nowhere.
    Yes,
    /// The events before this one are linearizable, and with it they are not. It is the answer of
    /// the call of this number. The judge's verdicts on first events say so.
    No { event: usize, number: usize },
    /// The judge's verdicts leave it open, and the monitor found that there is no order at an
    /// event. The events before that one are linearizable, and with it they are not. The loss has
    /// the part of the keys that does not go on.
    Lost(Violation),
    /// The judge's verdicts leave it open. This event is the answer of the call of this number, and
    /// the events before it are linearizable. The monitor did not find out whether they are with
    /// it: a search went beyond the budget.
    Undecided { event: usize, number: usize },
}

/// A location, with an order of the events before the one that it names.
#[derive(Drop)]
pub struct OrderedLocation {
    pub location: Location,
    /// The numbers of the calls of an order: of all events, if the history goes wrong nowhere.
    /// `None` if the location is undecided, or no search found an order within the budget.
    pub order: Option<Vec<u32>>,
}
