// Laws of searches, each the contract of a function that does nothing.
ghost use Rattle.search_choices.specs.Dead.{StuckCallsAreDeadEnds};
ghost use Rattle.search_choices.specs.FirstKeys.{FewKeysGoFirst};
ghost use Rattle.search_choices.specs.Idle.{VainCallsAreLeftOut};
ghost use Rattle.search_choices.specs.Reads.{ReadsGoFirst, ToldCallsLeaveAll};
ghost use Rattle.search_choices.specs.Twins.{TwinsGoFirst};

/// A completed call may be taken at once, if it may come next and leaves each map as it is at which
/// it may be answered so. What is left has an order exactly if it has one that begins with this
/// call.
pub fn reads_go_first()
    ensures { ReadsGoFirst }
{}

/// Suppose that a call's response is complete. If the call leaves one map as it is at which it may
/// be answered so, it leaves each such map as it is. With a partial response it may not: an insert
/// of the value that is there changes nothing, and of another value it does.
pub fn told_calls_leave_all()
    ensures { ToldCallsLeaveAll }
{}

/// Suppose that a call that is left reported that a key had a value, or none. The key does not have
/// that now, and no call that is left and begins no later than its answer puts it there. Then what
/// is left has no order.
pub fn stuck_calls_are_dead_ends()
    ensures { StuckCallsAreDeadEnds }
{}

/// Take some keys, and suppose two things of them. Of the calls that are left, the one that is
/// answered first is a call of one of them, or a scan that reported another value at one of them
/// than it now has. Each scan that is over one of them, and begins no later than that answer,
/// reported another value at one of them, too. Then what is left has an order only if it has one
/// that begins with a call of one of these keys, pending or not.
pub fn few_keys_go_first()
    ensures { FewKeysGoFirst }
{}

/// Two calls ask the same, and one of them may come next. Either it was answered no later than the
/// other, and the same. Or only the other is pending, and this call was not refused. Or both are
/// pending. Then, if what is left has an order that begins with the other, it has one that begins
/// with this call.
pub fn twins_go_first()
    ensures { TwinsGoFirst }
{}

/// Suppose that what is left has an order that begins with a pending call, and that this call would
/// change nothing. Then what is left has an order without it.
pub fn vain_calls_are_left_out()
    ensures { VainCallsAreLeftOut }
{}
