// The shared part of the running trees.
use crate::shared_core::SharedCore;

/// The words of one tree, which the threads of all processes share. A group is used only with its
/// own arena.
#[derive(Drop)]
pub struct Arena {
    pub(crate) core: SharedCore,
}
