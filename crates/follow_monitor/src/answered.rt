// What an answer makes of a stream.
use crate::fault::FollowFault;
use crate::monitor::Monitor;
use follow_violations::Violation;

/// What an answer makes of a stream.
#[derive(Drop)]
pub enum Answered {
    /// All events so far have an order.
    Going(Monitor),
    /// They have none since this event, nor with any further events.
    Lost(Violation),
    /// It is not known whether they have one since this event: the search of a past reaches more
    /// configurations than the budget, and those before it have no order.
    Spent(Violation),
    /// The answer is out of turn, or an event too many: the monitor is as it was.
    Refused(Monitor, FollowFault),
}
