//! Where a history goes wrong: the one event at which it loses its orders, and a few calls that
//! show it.
//!
//! The event is found by bisection, by the judge's verdicts on first events. If one of these is
//! undecided, all events pass through the monitor of streams. The calls that show it are a few of
//! those up to the event, from the pairs at the start. If none of the last calls show it, they are
//! a few of those left of a part of the keys that goes wrong on its own. Their map is then that of
//! the pairs that these keys had before.
//!
//! The definitions of `follow_monitor` say when a history goes wrong at an event. Those in `specs/` say
//! what a location means.
#![tactic(auto)]

mod beginning;
mod bisecting;
mod evidence;
mod judging;
mod laws;
mod lines;
mod location;
mod ordering;
mod passing;
mod showing;

pub use beginning::history_up_to;
pub use evidence::Evidence;
pub use judging::{locate, locate_from};
pub use laws::{locations_agree, one_location_where_judged, orders_are_found_where_judged};
pub use lines::{location_line, ordered_line};
pub use location::{Location, OrderedLocation};
pub use ordering::locate_ordered;
pub use showing::evidence_of;
