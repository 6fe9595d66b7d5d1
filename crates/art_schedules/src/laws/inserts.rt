// Laws of inserts that run alone: each function only carries its clause.
ghost use Rattle.art_schedules.specs.inserts.Laws.{InsertsAreTheMaps};

use crate::laws::trees::{
    grown_rows_are_hung, keys_part, leaves_are_put, leaves_are_small, pairs_are_hung,
    same_trees_are_one, ways_lead_to_values,
};
use crate::laws::words::{versions_say, words_are_read_back, words_are_small};

/// An insert, alone on a table at rest, is answered as the map answers it, or refused. It leaves a
/// table at rest that means the map after it. It uses the laws of trees and of words.
pub fn inserts_are_the_maps()
    ensures { InsertsAreTheMaps }
{
    same_trees_are_one();
    ways_lead_to_values();
    leaves_are_put();
    pairs_are_hung();
    grown_rows_are_hung();
    leaves_are_small();
    keys_part();
    words_are_read_back();
    versions_say();
    words_are_small();
}
