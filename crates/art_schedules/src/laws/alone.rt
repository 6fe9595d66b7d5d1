// Laws of calls that run alone: each function only carries its clause.
ghost use Rattle.art_schedules.specs.alone.Laws.{SeeksAreTheMaps};

use crate::laws::trees::{
    leaves_are_put, leaves_are_removed, same_trees_are_one, ways_lead_to_values,
};

/// A get, a remove or a replace, alone on a table at rest, is answered as the map answers it. It
/// leaves a table at rest that means the map after the call. It uses the laws of trees.
pub fn seeks_are_the_maps()
    ensures { SeeksAreTheMaps }
{
    same_trees_are_one();
    ways_lead_to_values();
    leaves_are_put();
    leaves_are_removed();
}
