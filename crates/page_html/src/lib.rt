//! The text of a page: the template, with the history and the lines of the program in their places.
//! `page/join` joins the template from the sources in `page/`.
#![tactic(auto)]

mod laws;
mod page;
mod template;

pub use laws::{escaped_texts_have_no_mark, unmarked_texts_stay};
pub use page::{PageTexts, page_of};
