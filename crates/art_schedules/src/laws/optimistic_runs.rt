// Every schedule of the optimistic tree is linearizable: each function only carries its clause.
ghost use Rattle.art_core.specs.Claims.{OptimisticIsLinearizable};

use crate::laws::changes::kept_trees_follow;
use crate::laws::effects::{
    effects_bring_theirs, fresh_is_claimed, leavers_hold_reached, leavers_step, others_keep_ends,
    others_keep_work, work_begins, workers_hold_reached, workers_step,
};
use crate::laws::optimistic::{
    other_steps_keep_ways, own_findings_stay, own_steps_go_on, quiet_steps_keep_trees,
    scans_store_nothing, ways_begin,
};
use crate::laws::scan_points::answered_scans_have_points;
use crate::laws::stories::{starts_are_at_rest, stories_give_orders};

/// Every schedule of the optimistic tree has a history that is linearizable, scans among its calls.
pub fn optimistic_is_linearizable()
    ensures { OptimisticIsLinearizable }
{
    kept_trees_follow();
    work_begins();
    workers_hold_reached();
    leavers_hold_reached();
    others_keep_work();
    others_keep_ends();
    workers_step();
    leavers_step();
    effects_bring_theirs();
    fresh_is_claimed();
    ways_begin();
    other_steps_keep_ways();
    own_steps_go_on();
    own_findings_stay();
    quiet_steps_keep_trees();
    scans_store_nothing();
    answered_scans_have_points();
    starts_are_at_rest();
    stories_give_orders();
}
