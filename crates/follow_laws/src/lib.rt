//! Laws of what a monitor stores of the calls of a stream, for each part of the keys.
//!
//! A part is some keys, with the pasts that these may have. A past says which calls took effect at the keys, what they found there, and what the
//! keys hold. The pasts of all parts together represent the calls so far (`Represent`). Whatever events follow, the calls have an order exactly if
//! some of these pasts go on to one. Each choice of pasts is reached: the calls that it took have an order that leads to it. One group of laws lets
//! a part take a step, whatever the others hold. The others unite two parts, or judge by all of them.
//!
//! Also laws of calls as the keys see them. At each key a call fits some values and leaves one.
//! Calls in turn are legal exactly if they fit at each key. A choice says which calls took effect
//! at which keys, what they found, and what the keys hold.
//!
//! Also laws of what a monitor stores of the calls so far: parts of the keys, each with the pasts
//! that its keys may have. Code that stores parts sees pairs, calls and what was found. It sees no
//! choices or orders. Of a past it stores the pairs of a map of its keys, the calls that are left,
//! and what pending calls found that took effect.
#![tactic(auto)]

mod call_laws;
mod cut_laws;
mod effect_laws;
mod event_laws;
mod laws;
mod past_event_laws;
mod step_laws;
mod union_laws;

pub use call_laws::{
    answered_calls_are_left, answered_reads_are_left, begun_calls_are_left,
    calls_without_effect_are_taken, left_calls_part, left_calls_unite, nothing_is_left,
    other_calls_are_answered, other_calls_begin, refused_calls_are_not_left,
    taken_calls_are_answered,
};
pub use cut_laws::{
    alike_pasts_go, alike_pasts_stand, pasts_come_next, pasts_in_any_order, pasts_without_order_go,
    reads_of_pasts_come_next, unbarred_pasts_come_next,
};
pub use effect_laws::{
    above_is_no_yes, alike_calls_decide, alive_may_die, below_is_no_no, calls_grow, choices_begin,
    choices_judge, choices_stay, dead_choices_go, dead_choices_stay_dead, effects_decide,
    growth_goes_on, orders_are_keyed_orders, parts_judge, pending_calls_disturb,
    sets_of_keys_judge, some_keys_refute,
};
pub use event_laws::{
    all_is_kept, changes_are_answered, changes_begin, reads_are_answered, reads_at_rest_are_taken,
    reads_begin, reads_without_report_are_taken,
};
pub use laws::{
    calls_are_known, calls_come_next, choices_are_reached, dead_pasts_go, early_reads_gain,
    operations_come_next, operations_decide, operations_may_come, parts_begin, parts_decide,
    parts_in_any_order, parts_may_be_tied, parts_stay, parts_unite, pasts_may_stay,
    reads_are_taken_at_rest, reads_come_next, tied_calls_may_wait, unbarred_calls_come_next,
};
pub use past_event_laws::{
    answered_calls_are_kept, answered_reads_are_kept, begun_calls_are_kept, nothing_is_kept,
    others_are_answered, others_begin, refused_calls_are_not_kept, refused_reads_are_not_kept,
    silent_reads_are_taken, taken_calls_agree, taken_calls_disagree,
};
pub use step_laws::{
    dead_pasts_are_lost, kept_parts_decide, kept_parts_fall_apart, kept_parts_unite,
    kept_pasts_are_reached, kept_pasts_are_within, open_changes_are_kept, parts_move,
    pasts_in_any_order_are_kept, pasts_move_on, same_keys_are_kept,
};
pub use union_laws::{pasts_fall_apart, pasts_unite};
