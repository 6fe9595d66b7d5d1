// What a schedule is drawn from.

/// How the process is chosen that makes the next turn. Each process has a priority, and the greatest goes first.
#[derive(Clone, Copy)]
pub enum Strategy {
    /// A random walk: all priorities are drawn again after each turn.
    Walk,
    /// Partial order sampling. After each turn new priorities are drawn for its process, and for each process whose next step
    /// races with the turn.
    Pos,
    /// Probabilistic concurrency testing. At a few drawn turns the priority of the turn's process drops below all others. No
    /// other priority changes.
    Pct,
}

/// What a schedule is drawn from: the seed of a generator, the strategy, and with `Pct` one more than the turns at which a
/// priority changes.
#[derive(Clone, Copy)]
pub struct Draw {
    pub seed: u64,
    pub strategy: Strategy,
    pub depth: u32,
}
