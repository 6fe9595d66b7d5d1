// Laws of what is left at some keys as events come, each the contract of a function that does
// nothing.
ghost use Rattle.follow_laws.specs.CallLaws.{AnsweredCallsAreLeft, AnsweredReadsAreLeft, BegunCallsAreLeft, CallsWithoutEffectAreTaken, LeftCallsPart, LeftCallsUnite, NothingIsLeft, OtherCallsAreAnswered, OtherCallsBegin, RefusedCallsAreNotLeft, TakenCallsAreAnswered};

/// Before any event nothing is left.
pub fn nothing_is_left()
    ensures { NothingIsLeft }
{}

/// A call that begins is left at its keys.
pub fn begun_calls_are_left()
    ensures { BegunCallsAreLeft }
{}

/// A call of other keys changes nothing when it begins. Neither does a read that begins after the
/// limit.
pub fn other_calls_begin()
    ensures { OtherCallsBegin }
{}

/// An answered call is left at the keys where it was left before.
pub fn answered_calls_are_left()
    ensures { AnsweredCallsAreLeft }
{}

/// A call that was not among those left, such as a read, may join them when it is answered.
pub fn answered_reads_are_left()
    ensures { AnsweredReadsAreLeft }
{}

/// A call that was taken, and agrees with its answer, changes nothing.
pub fn taken_calls_are_answered()
    ensures { TakenCallsAreAnswered }
{}

/// The answer of a call of other keys changes nothing, unless it refuses a call that was taken at
/// these keys.
pub fn other_calls_are_answered()
    ensures { OtherCallsAreAnswered }
{}

/// A refused call is no longer left.
pub fn refused_calls_are_not_left()
    ensures { RefusedCallsAreNotLeft }
{}

/// An answered call without effect at some keys may be taken there at any time.
pub fn calls_without_effect_are_taken()
    ensures { CallsWithoutEffectAreTaken }
{}

/// What is left at two sets of keys is left at both together.
pub fn left_calls_unite()
    ensures { LeftCallsUnite }
{}

/// It can be divided again if each call that is left has keys of only one of the two sets.
pub fn left_calls_part()
    ensures { LeftCallsPart }
{}
