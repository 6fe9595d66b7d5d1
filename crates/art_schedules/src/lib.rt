//! Calls that run alone, and every schedule of the two full trees: calm, what each call knows, and where it takes effect. Only laws, in parts:
//! - words: what the words of a row say after they were written;
//! - trees: trees in a table at rest: what the map has at a key, and what a change of one row makes of the map;
//! - alone: calls that run alone on the words of a table: what each part of a call does where nobody interferes;
//! - writes: what an insert that runs alone leaves in a row: a byte more, a pair, a row of the next kind;
//! - walks: the walk of a scan over a tree at rest: its pairs, by rising key;
//! - serial: calls that run alone, one after another, and what each of them keeps;
//! - inserts: inserts that run alone on a table at rest: what they leave is at rest again, and means the map with the key put;
//! - maps: that serial schedules of a tree do what the map does;
//! - versions: who holds a row and who writes it, and that a row does not change while its version does not;
//! - moments: the one moment of a validated scan, and of a checked get: when nothing that it read changes;
//! - points: points of any calls: calls that each take effect at one moment have an order, by these moments;
//! - calls: the calls of the history of a run: which process began each, the steps that began and answered it, and that
//!   they keep the map small;
//! - calm: the words of the two full trees, where each locked or obsolete row is as it was before;
//! - changes: what a change of one row makes of a tree in a table where no row is locked: the map after it, and the ways
//!   that stay;
//! - work: the work of a call in the rows that it holds: what it touches, and what it does if it runs alone;
//! - effects: what the work of a call does to calm's tree in a run: it changes the tree only at the one step that
//!   releases the row that changes;
//! - stories: how far each call has come at each moment of a run, and how a schedule of a full tree decides that;
//! - coupled: calls under lock coupling: what each knows on its way, up to its work or its reply;
//! - locked_scans: scans under lock coupling: what each knows on its way, up to its reply;
//! - coupled_runs: every schedule under lock coupling is linearizable: what fits each of its calls, and that each step
//!   preserves it;
//! - optimistic: calls of the optimistic tree: what each knows on its way, up to its work or its reply;
//! - scan_points: the points of scans of the optimistic tree: a moment at which the map that calm means gives an
//!   answered scan its reply;
//! - optimistic_runs: every schedule of the optimistic tree is linearizable: what fits each of its calls, and that each
//!   step preserves it.
#![tactic(auto)]

mod laws;

pub use laws::alone::seeks_are_the_maps;
pub use laws::calls::{
    effects_give_orders, fronts_have_moments, moments_end_runs, runs_have_calls,
};
pub use laws::changes::{effects_follow, kept_trees_follow, ways_say_values};
pub use laws::coupled::{
    calls_begin, calls_go_on, calls_stay, calls_take_live, found_is_answered, good_rows_stay,
    obsolete_rows_leave, others_leave_good, others_leave_ways, seekers_are_not_answered,
    walks_are_the_maps, ways_take_reached,
};
pub use laws::coupled_runs::coupled_is_linearizable;
pub use laws::effects::{
    effects_bring_theirs, enders_go_on, fresh_is_claimed, leavers_hold_reached, leavers_step,
    obsolete_rows_hang, others_keep_ends, others_keep_marked, others_keep_work, work_begins,
    workers_go_on, workers_hold_reached, workers_may_have_no_mark, workers_only_work, workers_step,
};
pub use laws::inserts::inserts_are_the_maps;
pub use laws::locked_scans::{
    found_scans_answer, found_scans_stay, others_leave_scans, others_leave_trees, scans_begin,
    scans_come_on, scans_take_live, scans_take_reached, walked_scans_find, walking_scans_ask,
};
pub use laws::maps::{serial_is_map, starts_end};
pub use laws::moments::{
    answered_gets_have_moments, answered_scans_have_moments, gets_have_one_moment,
    scans_have_one_moment,
};
pub use laws::optimistic::{
    other_steps_keep_ways, own_findings_stay, own_steps_go_on, quiet_steps_keep_trees,
    scans_store_nothing, ways_begin,
};
pub use laws::optimistic_runs::optimistic_is_linearizable;
pub use laws::points::{orders_give_points, points_give_orders};
pub use laws::scan_points::answered_scans_have_points;
pub use laws::serial::serial_schedules_run_alone;
pub use laws::stories::{starts_are_at_rest, stories_give_effects, stories_give_orders};
pub use laws::trees::{
    children_are_read, grown_rows_are_hung, keys_part, leaves_are_put, leaves_are_removed,
    leaves_are_small, maps_are_one, pairs_are_hung, same_trees_are_one, tables_open_at_rest,
    trees_are_walked, ways_lead_to_values,
};
pub use laws::versions::{only_holders_write, rows_are_sound};
pub use laws::walks::scans_are_the_maps;
pub use laws::words::{versions_say, words_are_read_back, words_are_small};
pub use laws::work::work_is_done;
