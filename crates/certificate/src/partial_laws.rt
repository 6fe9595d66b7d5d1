// Laws of partial answers, and of caches. Each is the contract of a function that does nothing.
ghost use Rattle.certificate.specs.CacheLaws.{EvictedKeysAreNoLostWrites, HistoriesOfCachesHaveRecordings, LostWritesAreRefuted, RecordedCachesAreLossyMaps};
ghost use Rattle.certificate.specs.FoundAfterOther.{FoundAfterOtherIsMissed};
ghost use Rattle.certificate.specs.PartialLaws.{AnswersDoCalls, PartialAnswers, OrdersAreThoseOfToldCalls};

/// A legal answer that is not `refused` does the call, even if it is partial.
pub fn answers_do_calls()
    ensures { AnswersDoCalls }
{}

/// `done` is legal at each call. `found` is legal exactly if the call names one key and a value is
/// there. `other` is legal exactly at a replace whose key has another value than the expected one,
/// or none.
pub fn partial_answers_are_legal()
    ensures { PartialAnswers }
{}

/// Calls with partial answers have an order exactly if they have one with some complete answers in
/// place of the partial ones.
pub fn orders_are_those_of_told_calls()
    ensures { OrdersAreThoseOfToldCalls }
{}

/// A cache that loses keys, and nothing else, is never refuted: if its calls are linearizable over
/// the lossy map, the recorded calls are linearizable.
pub fn evicted_keys_are_no_lost_writes()
    ensures { EvictedKeysAreNoLostWrites }
{}

/// A cache that loses more than keys is always refuted: if the recorded calls are linearizable, its
/// calls are linearizable over the lossy map.
pub fn lost_writes_are_refuted()
    ensures { LostWritesAreRefuted }
{}

/// A history of a cache is linearizable over the lossy map exactly if its recording is
/// linearizable.
pub fn recorded_caches_are_lossy_maps()
    ensures { RecordedCachesAreLossyMaps }
{}

/// Each history of a cache has a recording: event by event, with removes next to scans by processes
/// of their own.
pub fn histories_of_caches_have_recordings()
    ensures { HistoriesOfCachesHaveRecordings }
{}

/// If a replace was answered `other` and a call of its key `found`, a recording may be linearizable
/// although the history is not linearizable over the lossy map.
pub fn found_after_other_is_missed()
    ensures { FoundAfterOtherIsMissed }
{}
