// Laws of what is kept of a past as events come, each the contract of a function that does nothing.
ghost use Rattle.follow_laws.specs.PastEvents.{AnsweredCallsAreKept, AnsweredReadsAreKept, BegunCallsAreKept, NothingIsKept, OthersAreAnswered, OthersBegin, RefusedCallsAreNotKept, RefusedReadsAreNotKept, TakenCallsAgree, TakenCallsDisagree, UntoldReadsAreTaken};

/// Before any event nothing is left.
pub fn nothing_is_kept()
    ensures { NothingIsKept }
{}

/// A call of one key is left at its key when it begins.
pub fn begun_calls_are_kept()
    ensures { BegunCallsAreKept }
{}

/// A call of other keys changes nothing when it begins, nor does a read.
pub fn others_begin()
    ensures { OthersBegin }
{}

/// An answered call is left with its answer.
pub fn answered_calls_are_kept()
    ensures { AnsweredCallsAreKept }
{}

/// A scan that was pending is left from its answer on.
pub fn answered_reads_are_kept()
    ensures { AnsweredReadsAreKept }
{}

/// The answer of a call of other keys changes nothing.
pub fn others_are_answered()
    ensures { OthersAreAnswered }
{}

/// What a taken call found may be dropped once its answer agrees.
pub fn taken_calls_agree()
    ensures { TakenCallsAgree }
{}

/// A past may be dropped if a call that it has taken is answered otherwise, or refused.
pub fn taken_calls_disagree()
    ensures { TakenCallsDisagree }
{}

/// A refused call is no longer left.
pub fn refused_calls_are_not_kept()
    ensures { RefusedCallsAreNotKept }
{}

/// A refused read that was not among what is left changes nothing.
pub fn refused_reads_are_not_kept()
    ensures { RefusedReadsAreNotKept }
{}

/// A read that reported nothing may be taken at once.
pub fn silent_reads_are_taken()
    ensures { UntoldReadsAreTaken }
{}
