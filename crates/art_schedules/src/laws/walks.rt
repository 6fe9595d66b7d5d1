// A law of walks: the function only carries its clause.
ghost use Rattle.art_schedules.specs.walks.Walks.{ScansAreTheMaps};

use crate::laws::trees::{maps_are_one, same_trees_are_one, trees_are_walked};

/// A scan, alone on a table at rest, is answered the map's pairs of its range. It leaves a table at
/// rest that means the same map. It uses the laws of trees.
pub fn scans_are_the_maps()
    ensures { ScansAreTheMaps }
{
    same_trees_are_one();
    maps_are_one();
    trees_are_walked();
}
