// The laws of serial schedules of a tree: each function only carries its clause.
ghost use Rattle.art_core.specs.Claims.{SerialIsMap};
ghost use Rattle.art_schedules.specs.maps.Ends.{StartsEnd};

use crate::laws::alone::seeks_are_the_maps;
use crate::laws::inserts::inserts_are_the_maps;
use crate::laws::trees::{same_trees_are_one, tables_open_at_rest};
use crate::laws::walks::scans_are_the_maps;

/// A serial schedule of a full tree has a legal history. After it no row is locked, and the words
/// mean the pairs after it, among them those that it starts with. It uses the laws of trees and of
/// calls that run alone.
pub fn serial_is_map()
    ensures { SerialIsMap }
{
    tables_open_at_rest();
    same_trees_are_one();
    seeks_are_the_maps();
    scans_are_the_maps();
    inserts_are_the_maps();
}

/// The inserts of the pairs with which a tree starts end within 1,002 steps a pair, in every
/// variant. It uses the laws of trees and of calls that run alone.
pub fn starts_end()
    ensures { StartsEnd }
{
    tables_open_at_rest();
    same_trees_are_one();
    seeks_are_the_maps();
    scans_are_the_maps();
    inserts_are_the_maps();
}
