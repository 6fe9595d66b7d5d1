// The part of an arena with which a thread runs processes.
use crate::place::SharedGroup;
use crate::runner::Runner;
use crate::view::Setup;

/// Some processes of an [`Arena`](crate::Arena), for one thread at a time: each with its number,
/// its open call and its events with their stamps, by rising number. There is room for all
/// processes of the arena, so a join allocates no memory. If a group is dropped, its arena cannot
/// be closed.
#[derive(Drop)]
pub struct Pass {
    pub(crate) place: SharedGroup,
    pub(crate) setup: Setup,
    pub(crate) runners: Vec<(u8, Runner)>,
}
