//! The engine of pages: the verdict on the text of a history as one HTML file. The page shows the
//! history, what `judge`, `locate` and `explain` print of it, and an order.
#![tactic(auto)]

mod pages;

pub use pages::{page_outcome, run_page};
