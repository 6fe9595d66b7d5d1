// Laws of cuts, each the contract of a function that does nothing.
ghost use Rattle.follow_laws.specs.KeptCuts.{AlikePastsGo, AlikePastsStand, PastsWithoutOrderGo, PastsComeNext, PastsInAnyOrder, ReadsOfPastsComeNext, UnbarredPastsComeNext};

/// A past may be replaced by the pasts after each operation that may come next at some of the keys,
/// if an answered operation of these keys is left.
pub fn pasts_come_next()
    ensures { PastsComeNext }
{}

/// If the first operation that ended has some of the keys, only operations of these come next. An
/// operation of these keys and others must be barred there.
pub fn unbarred_pasts_come_next()
    ensures { UnbarredPastsComeNext }
{}

/// An answered read that may come next at some of the keys may be taken at once.
pub fn reads_of_pasts_come_next()
    ensures { ReadsOfPastsComeNext }
{}

/// A past may be replaced by one that is like it.
pub fn alike_pasts_stand()
    ensures { AlikePastsStand }
{}

/// If two pasts are alike, one may be dropped.
pub fn alike_pasts_go()
    ensures { AlikePastsGo }
{}

/// A past may be dropped if what is left of it has no order.
pub fn pasts_without_order_go()
    ensures { PastsWithoutOrderGo }
{}

/// The order of pasts does not matter, nor how often one is listed.
pub fn pasts_in_any_order()
    ensures { PastsInAnyOrder }
{}
