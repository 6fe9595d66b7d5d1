// Laws of parts that are kept, as events come, each the contract of a function that does nothing.
ghost use Rattle.follow_laws.specs.Events.{AllIsKept, ChangesAreAnswered, ChangesBegin, ReadsAreAnswered, ReadsAtRestAreTaken, ReadsBegin, ReadsWithoutReportAreTaken};

/// Before any event all keys are one part, at rest.
pub fn all_is_kept()
    ensures { AllIsKept }
{}

/// A call that may change the map is left in each past of its part when it begins.
pub fn changes_begin()
    ensures { ChangesBegin }
{}

/// Nothing is saved of a read when it begins.
pub fn reads_begin()
    ensures { ReadsBegin }
{}

/// An answer of a call that may change the map is taken by each past of its part, or refutes it.
pub fn changes_are_answered()
    ensures { ChangesAreAnswered }
{}

/// A read is left in each past of its part from its answer on.
pub fn reads_are_answered()
    ensures { ReadsAreAnswered }
{}

/// A read of keys at rest that reports what they hold is not left.
pub fn reads_at_rest_are_taken()
    ensures { ReadsAtRestAreTaken }
{}

/// A read that reports nothing, or is refused, is not left.
pub fn reads_without_report_are_taken()
    ensures { ReadsWithoutReportAreTaken }
{}
