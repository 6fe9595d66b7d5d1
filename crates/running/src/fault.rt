// Why an arena was not closed.
use crate::arena::Arena;
use crate::group::Pass;

/// Why an arena was not closed. The arena and the group are returned unchanged.
#[derive(Drop)]
pub enum ArenaClose {
    /// The group does not have all processes.
    StillOut(Arena, Pass),
    /// Memory ran out for the history.
    Memory(Arena, Pass),
}
