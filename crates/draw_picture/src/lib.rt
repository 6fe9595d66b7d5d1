//! Pictures of verdicts: a picture is a value with a lane for each process, a bar for each call and
//! a mark for each call of an order, at its linearization point.
//!
//! A picture goes from left to right by columns. Each event has a column. Each mark has one after
//! the event at which its point is, so no two share a column. Of a long picture only a part is
//! shown: a viewport of the columns of the calls that the verdict concerns.
#![tactic(auto)]

mod bars;
mod columns;
mod few;
mod fronts;
mod lanes;
mod laws;
mod marks;
mod picture;
mod pictures_of;
mod viewports;
mod words;

pub use few::few_of;
pub use fronts::front_of;
pub use laws::{few_have_few_columns, marks_stay_inside, ranks_rise, viewports_hold_their_middle};
pub use picture::{Bar, Heading, Mark, Picture, PicturePart, View};
pub use pictures_of::picture_of;
pub use viewports::part_of;
pub use words::{call_words, pairs_words, reply_words};
