// Laws of groups of calls. Each is the contract of a function that does nothing.
ghost use Rattle.call_effects.specs.Groups.{PlacesDoNotMatter, RangesSuffice};

/// The orders of calls within a range are those from the pairs of the range.
pub fn ranges_suffice()
    ensures { RangesSuffice }
{}

/// Two lists of calls that differ only in the places of their events have the same orders.
pub fn places_do_not_matter()
    ensures { PlacesDoNotMatter }
{}
