// Every schedule of the coupled tree is linearizable: the function only carries its clause.
ghost use Rattle.art_core.specs.Claims.{CoupledIsLinearizable};

use crate::laws::changes::kept_trees_follow;
use crate::laws::coupled::{
    calls_begin, calls_go_on, calls_stay, calls_take_live, found_is_answered, good_rows_stay,
    obsolete_rows_leave, others_leave_good, others_leave_ways, seekers_are_not_answered,
    ways_take_reached,
};
use crate::laws::effects::{
    enders_go_on, obsolete_rows_hang, others_keep_ends, others_keep_marked, work_begins,
    workers_go_on, workers_may_have_no_mark, workers_only_work,
};
use crate::laws::locked_scans::{
    found_scans_answer, found_scans_stay, others_leave_scans, others_leave_trees, scans_begin,
    scans_come_on, scans_take_live, scans_take_reached, walked_scans_find, walking_scans_ask,
};
use crate::laws::stories::{starts_are_at_rest, stories_give_orders};

/// Every schedule of the tree under lock coupling has a history that is linearizable, scans among its calls.
pub fn coupled_is_linearizable()
    ensures { CoupledIsLinearizable }
{
    kept_trees_follow();
    starts_are_at_rest();
    stories_give_orders();
    calls_begin();
    calls_go_on();
    calls_stay();
    found_is_answered();
    seekers_are_not_answered();
    others_leave_ways();
    calls_take_live();
    ways_take_reached();
    good_rows_stay();
    others_leave_good();
    obsolete_rows_leave();
    work_begins();
    workers_may_have_no_mark();
    workers_go_on();
    others_keep_marked();
    obsolete_rows_hang();
    workers_only_work();
    others_keep_ends();
    enders_go_on();
    scans_begin();
    scans_come_on();
    walked_scans_find();
    found_scans_stay();
    found_scans_answer();
    walking_scans_ask();
    scans_take_live();
    scans_take_reached();
    others_leave_scans();
    others_leave_trees();
}
