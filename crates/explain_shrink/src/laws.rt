// Laws of calls, some of them left out. Each is the contract of a function that does nothing.
ghost use Rattle.explain_shrink.specs.Laws.{RelaxedCallsHaveOrders, RestsAreRelaxed};

/// Some calls are left out, and others have lost their answers. If none of those that stay depends
/// on what a call left out put, each order of all calls contains an order of the rest. A call may
/// depend on it if it precedes that call, or if another call overwrites that value before it in
/// each order. So if the rest has no order, all calls have none.
pub fn relaxed_calls_have_orders()
    ensures { RelaxedCallsHaveOrders }
{}

/// What is kept of the calls that stay is such a rest, if no call without an answer among them
/// waits for what a call left out may put.
pub fn rests_are_relaxed()
    ensures { RestsAreRelaxed }
{}
