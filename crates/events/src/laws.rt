// Laws of histories: each function only carries its clauses.
ghost use Rattle.events.specs.Laws.{HasOneFirstFault, FaultyIsNoHistory};

/// A list of events has at most one first fault, and the events of a history have none. So
/// `History::from_events` can answer in only one way, unless memory runs out.
pub fn one_event_fault()
    ensures one { HasOneFirstFault }
    ensures no_history { FaultyIsNoHistory }
{}
