// Laws of changes of a calm tree: each function only carries its clause.
ghost use Rattle.art_schedules.specs.changes.Laws.{EffectsFollow, KeptTreesFollow};
ghost use Rattle.art_schedules.specs.changes.Laws.{WaysSayValues};

use crate::laws::trees::{
    grown_rows_are_hung, leaves_are_put, leaves_are_removed, pairs_are_hung, same_trees_are_one,
    ways_lead_to_values,
};

/// A change of one row that has an effect leaves a tree at rest, which means the map after the effect, and ways stay.
pub fn effects_follow()
    ensures { EffectsFollow }
{
    same_trees_are_one();
    leaves_are_put();
    leaves_are_removed();
    pairs_are_hung();
    grown_rows_are_hung();
}

/// If the rows of the tree say the same, the tree is the same, whatever the other words are.
pub fn kept_trees_follow()
    ensures { KeptTreesFollow }
{
    same_trees_are_one();
}

/// What the child says on the key's byte of a row that the key's way leads to is what the map has at the key.
pub fn ways_say_values()
    ensures { WaysSayValues }
{
    ways_lead_to_values();
}
