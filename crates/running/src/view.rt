// What a place shows. No value of a view is made.
use art_core::Process;
use art_rows::{Shape, TreeCall, Variant};
use std::collections::LinkedList;

/// What a core is opened for.
#[derive(Clone, Copy)]
pub struct Setup {
    pub shape: Shape,
    pub variant: Variant,
    /// How many processes there are.
    pub processes: u8,
    /// How many calls each of them may begin.
    pub calls_each: u32,
}

/// What a place shows: its processes with their numbers, which rise. A step can't read the core's setup, so the view has it too.
pub struct View {
    pub setup: Setup,
    pub processes: LinkedList<(u64, Process)>,
}

/// A view, and the call that its first process invokes next.
pub struct Noted {
    pub view: View,
    pub asked: Option<TreeCall>,
}
