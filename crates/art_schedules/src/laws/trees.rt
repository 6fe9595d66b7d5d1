// Laws of trees: each function only carries its clause.
ghost use Rattle.art_schedules.specs.trees.Trees.{TablesOpenAtRest, LeavesAreSmall, KeysPart, SameTreesAreOne, WaysLeadToValues};
ghost use Rattle.art_schedules.specs.trees.Trees.{LeavesArePut};
ghost use Rattle.art_schedules.specs.trees.Trees.{LeavesAreRemoved, PairsAreHung, GrownRowsAreHung, MapsAreOne, TreesAreWalked};
ghost use Rattle.art_schedules.specs.trees.Children.{ChildrenAreRead};

/// A table as it is opened is at rest, and holds nothing.
pub fn tables_open_at_rest()
    ensures { TablesOpenAtRest }
{}

/// Tables that say the same of each row that is reached are the same tree.
pub fn same_trees_are_one()
    ensures { SameTreesAreOne }
{}

/// Leaves have keys and values that a tree can hold.
pub fn leaves_are_small()
    ensures { LeavesAreSmall }
{}

/// Two keys part at a byte.
pub fn keys_part()
    ensures { KeysPart }
{}

/// What the map has at a key is what hangs on the key's byte of a row that the key's way leads to.
pub fn ways_lead_to_values()
    ensures { WaysLeadToValues }
{}

/// If a key's leaf is put on its byte, the map has the value at the key.
pub fn leaves_are_put()
    ensures { LeavesArePut }
{}

/// If a key's byte is made empty, the key is absent.
pub fn leaves_are_removed()
    ensures { LeavesAreRemoved }
{}

/// If a pair replaces a child whose keys part from the key, the map has the value at the key.
pub fn pairs_are_hung()
    ensures { PairsAreHung }
{}

/// If a grown row replaces the row, in the row above it, the map has the value at the key.
pub fn grown_rows_are_hung()
    ensures { GrownRowsAreHung }
{}

/// The words of a table mean one list of pairs.
pub fn maps_are_one()
    ensures { MapsAreOne }
{}

/// What a walk down from the root finds, by rising bytes, is what the words mean.
pub fn trees_are_walked()
    ensures { TreesAreWalked }
{}

/// The word of a child says the child.
pub fn children_are_read()
    ensures { ChildrenAreRead }
{}
