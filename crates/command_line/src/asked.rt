// What words ask for.
use crate::table::Subcommand;

/// What words ask for: a subcommand of a table, with its numbers.
#[derive(Drop)]
pub(crate) struct Request<'a> {
    /// The subcommand.
    pub(crate) subcommand: &'a Subcommand<'a>,
    /// The number of each option, in the order of the subcommand's options.
    pub(crate) numbers: Vec<u64>,
    /// The numbers of its calls.
    pub(crate) calls: Vec<u32>,
}
