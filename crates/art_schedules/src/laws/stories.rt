// Laws of stories: each function only carries its clause.
ghost use Rattle.art_schedules.specs.stories.Laws.{StartsAreAtRest, StoriesGiveEffects, StoriesGiveOrders};

use crate::laws::alone::seeks_are_the_maps;
use crate::laws::calls::effects_give_orders;
use crate::laws::inserts::inserts_are_the_maps;
use crate::laws::trees::{same_trees_are_one, tables_open_at_rest};
use crate::laws::walks::scans_are_the_maps;

/// Before the first step of a run the words are a tree at rest, and mean the pairs that the run starts with.
pub fn starts_are_at_rest()
    ensures { StartsAreAtRest }
{
    tables_open_at_rest();
    same_trees_are_one();
    seeks_are_the_maps();
    scans_are_the_maps();
    inserts_are_the_maps();
}

/// In a run with a story each call takes effect within itself.
pub fn stories_give_effects()
    ensures { StoriesGiveEffects }
{}

/// A run with a story is linearizable.
pub fn stories_give_orders()
    ensures { StoriesGiveOrders }
{
    effects_give_orders();
}
