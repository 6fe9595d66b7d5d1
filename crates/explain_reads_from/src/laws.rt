// Laws of what calls report and of the calls that they miss. Each function only carries its clause.
ghost use Rattle.explain_reads_from.specs.Laws.{WhatIsReportedWasPut, MissedCallsRefute, OneIsMissedAtAKey};

/// If calls have an order, each value at a key that they report was there at the start, or one of
/// the calls puts it. So a value that nobody put shows on its own that the calls have no order.
pub fn what_is_reported_was_put()
    ensures { WhatIsReportedWasPut }
{}

/// If one of some calls misses another, they have no order. So these two calls are enough to show
/// it, if no other call may mend that.
pub fn missed_calls_refute()
    ensures { MissedCallsRefute }
{}

/// At each key a call misses at most one call.
pub fn one_is_missed_at_a_key()
    ensures { OneIsMissedAtAKey }
{}
