//! The text of a picture: one SVG that names nothing outside of itself, without a script.
//!
//! The text depends only on the picture. A column is as wide as the words need, from 28 to 72
//! units. Up to 38 columns fit on 1,200 units.
#![tactic(auto)]

mod bar_text;
mod content;
mod frame;
mod laws;
mod layout;
mod mark_text;
mod part_text;
mod style;
mod svg_of;

pub use content::push_content;
pub use laws::{contents_have_no_markup, few_columns_fit, style_is_literal};
pub use style::STYLE;
pub use svg_of::svg;
