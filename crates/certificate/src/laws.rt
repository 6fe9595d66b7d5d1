// Laws of the faults, each the contract of a function that does nothing.
ghost use Rattle.certificate.specs.Laws.{HasOneFirstFault, FaultyIsNoOrder};

/// A list of numbers has at most one first fault, and an order has none. So the checker can answer
/// in only one way.
pub fn first_fault_is_unique()
    ensures one { HasOneFirstFault }
    ensures none { FaultyIsNoOrder }
{}
