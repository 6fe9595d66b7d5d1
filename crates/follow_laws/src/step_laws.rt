// Laws of parts that are kept, between events, each the contract of a function that does nothing.
ghost use Rattle.follow_laws.specs.KeptReached.{KeptPastsAreReached};
ghost use Rattle.follow_laws.specs.KeptSteps.{DeadPastsAreLost, KeptPartsDecide, KeptPartsFallApart, KeptPartsUnite, KeptPastsAreWithin, OpenChangesAreKept, PartsMove, PastsInAnyOrderAreKept, PastsMoveOn, SameKeysAreKept};

/// The order of parts does not matter.
pub fn parts_move()
    ensures { PartsMove }
{}

/// Parts are known by the keys that they have.
pub fn same_keys_are_kept()
    ensures { SameKeysAreKept }
{}

/// A past may be dropped if what is left of it has no order.
pub fn dead_pasts_are_lost()
    ensures { DeadPastsAreLost }
{}

/// Pasts may be replaced by those at a past moment before which no pending read of the part began.
pub fn pasts_move_on()
    ensures { PastsMoveOn }
{}

/// Two parts become one of all pairs of their pasts.
pub fn kept_parts_unite()
    ensures { KeptPartsUnite }
{}

/// A part may be split in two if all its pasts have the same at some of its keys.
pub fn kept_parts_fall_apart()
    ensures { KeptPartsFallApart }
{}

/// The order of a part's pasts does not matter, nor how often each appears.
pub fn pasts_in_any_order_are_kept()
    ensures { PastsInAnyOrderAreKept }
{}

/// A part's pasts say something only of the part's keys.
pub fn kept_pasts_are_within()
    ensures { KeptPastsAreWithin }
{}

/// A pending call that may change the map is left in each past of its part, or the past has what
/// the call found.
pub fn open_changes_are_kept()
    ensures { OpenChangesAreKept }
{}

/// The events so far have an order exactly if some past of each part goes on.
pub fn kept_parts_decide()
    ensures { KeptPartsDecide }
{}

/// Each past of a part is reached, if each other part has some past: some of the calls have a legal
/// order that leads to it.
pub fn kept_pasts_are_reached()
    ensures { KeptPastsAreReached }
{}
