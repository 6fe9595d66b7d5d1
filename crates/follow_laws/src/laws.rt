// Laws of parts, each the contract of a function that does nothing.
ghost use Rattle.follow_laws.specs.Laws.{CallsAreKnown, CallsComeNext, DeadPastsGo, EarlyReadsGain, OperationsComeNext, OperationsDecide, OperationsMayCome, PartsBegin, PartsDecide, PartsInAnyOrder, PartsMayBeTied, PartsStay, PartsUnite, PastsMayStay, ReadsAreTakenAtRest, ReadsComeNext, TiedCallsMayWait, UnbarredCallsComeNext};
ghost use Rattle.follow_laws.specs.Reached.{ChoicesAreReached};

/// Before any event all keys are one part, of one past.
pub fn parts_begin()
    ensures { PartsBegin }
{}

/// Further events leave true what parts say of the calls.
pub fn parts_stay()
    ensures { PartsStay }
{}

/// The order of parts does not matter.
pub fn parts_in_any_order()
    ensures { PartsInAnyOrder }
{}

/// The calls have an order exactly if each part has a past that goes on to one.
pub fn parts_decide()
    ensures { PartsDecide }
{}

/// A past that goes on to no order may be dropped. A duplicate may be dropped too.
pub fn dead_pasts_go()
    ensures { DeadPastsGo }
{}

/// If an answered call is left at some of a part's keys, a past may be replaced by the pasts after
/// each call that may come next there.
pub fn calls_come_next()
    ensures { CallsComeNext }
{}

/// If the first call that ended is left at some of a part's keys, only calls that are left there
/// come next. A call that ties these keys to others must be barred there.
pub fn unbarred_calls_come_next()
    ensures { UnbarredCallsComeNext }
{}

/// It is decidable whether something is left of a call of a history.
pub fn calls_are_known()
    ensures { CallsAreKnown }
{}

/// A read that was answered, and may come next at some of a part's keys, may be taken at once.
pub fn reads_come_next()
    ensures { ReadsComeNext }
{}

/// An answered read may be taken at keys at rest, even while it is left at others.
pub fn reads_are_taken_at_rest()
    ensures { ReadsAreTakenAtRest }
{}

/// Two parts are as good as one of the keys of both that has all pairs of their pasts.
pub fn parts_unite()
    ensures { PartsUnite }
{}

/// What is left at some keys has an order exactly if its operations have one on a map of only these
/// keys.
pub fn operations_decide()
    ensures { OperationsDecide }
{}

/// If a call is left at the keys of two parts, each part may have a past that goes on while the
/// calls have no order.
pub fn parts_may_be_tied()
    ensures { PartsMayBeTied }
{}

/// If no call that is left was answered, the step to the next calls may lose an order.
pub fn pasts_may_stay()
    ensures { PastsMayStay }
{}

/// If a call is left at these keys and at others, the step may lose an order.
pub fn tied_calls_may_wait()
    ensures { TiedCallsMayWait }
{}

/// A read that is taken too early may add an order.
pub fn early_reads_gain()
    ensures { EarlyReadsGain }
{}

/// A call may come next at some of the keys exactly if its operation may.
pub fn operations_may_come()
    ensures { OperationsMayCome }
{}

/// An operation that may come next leads to what is left after its call.
pub fn operations_come_next()
    ensures { OperationsComeNext }
{}

/// Each choice of the parts is reached: the calls that it took have an order that leads to it.
pub fn choices_are_reached()
    ensures { ChoicesAreReached }
{}
