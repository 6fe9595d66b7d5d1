// What words ask for, subcommand by subcommand.

/// What the words ask for: a subcommand, with its values.
#[derive(Drop)]
pub enum Line {
    /// It asks whether these calls, by number, are an order of the history on standard input.
    Check {
        order: Vec<u32>,
    },
    /// It asks whether the history on standard input is linearizable. `workers` threads search the
    /// segments in parallel. A search meets at most `budget` configurations of a segment. The
    /// budget is from 1 to 1,000,000, and the number of workers from 1 to 64.
    Judge {
        budget: u32,
        workers: u32,
    },
    /// It asks at which event the history on standard input stops being linearizable. A judge
    /// searches at most `budget` configurations of each segment. A monitor reaches at most `budget`
    /// positions in a search. The limits are those of `Judge`. With `order` it also asks for an
    /// order of the calls before that event.
    Locate {
        budget: u32,
        order: bool,
    },
    /// It asks for a few calls of the history on standard input that are not linearizable. One
    /// thread judges the history. It searches at most `budget` configurations of each segment, and
    /// of some of its calls. The limits are those of `Judge`.
    Explain {
        budget: u32,
    },
    /// It asks for a picture of the verdict that `Judge` asks for, within the same limits. The
    /// picture shows the part around the event `around`, with room for `calls` calls. If the
    /// history does not have that event, no event is meant. `around` is at most 8,192, and no
    /// history has an event of that number. `calls` is at most 4,097. The number 0 asks for the
    /// whole picture, and 4,097 means that no number is given.
    Draw {
        budget: u32,
        workers: u32,
        around: u32,
        calls: u32,
    },
    /// It asks for a page that shows the verdict that `Judge` asks for, within the same limits.
    Page {
        budget: u32,
        workers: u32,
    },
    /// It asks whether the stream of events on standard input is linearizable, judged as it comes.
    /// A search meets at most `budget` configurations of a group. The limits are those of `Judge`.
    Follow {
        budget: u32,
    },
    /// It asks for the text of the plan that is drawn from this seed. The plan has `processes`
    /// processes with `calls` calls each. Of a hundred calls, `get`, `insert`, `remove` and `scan`
    /// are of these kinds. Their keys are from `lo` to `hi`.
    Generate {
        seed: u64,
        processes: u32,
        calls: u32,
        get: u32,
        insert: u32,
        remove: u32,
        scan: u32,
        lo: u32,
        hi: u32,
    },
    /// It asks for a replay of the plan on standard input, with a schedule that is drawn.
    Schedule(ScheduleLine),
    /// It asks for the history that the run of the replay on standard input records.
    Replay,
    /// It asks for the history of the plan on standard input, done by threads.
    Drive(DriveLine),
}

/// How a schedule is drawn, and for which tree. The tree is not `Tree::Locked`.
#[derive(Clone, Copy)]
pub struct ScheduleLine {
    pub seed: u64,
    pub strategy: Strategy,
    /// One more than the number of turns at which `Strategy::Pct` lowers a priority, from 1 to 64.
    pub depth: u32,
    pub tree: Tree,
    pub rows: Rows,
    /// The most turns that the schedule has, from 1 to 1,000,000.
    pub limit: u32,
}

/// The map at which a plan is done. For `Tree::Locked` the rows and the limit mean nothing.
#[derive(Clone, Copy)]
pub struct DriveLine {
    pub tree: Tree,
    pub rows: Rows,
    /// The number of steps after which a call without an answer is left pending, from 1 to
    /// 1,000,000.
    pub limit: u32,
}

/// The numbers of rows in a tree's table, by how many children the rows have room for. They are at
/// most 4,096, 1,024, 256 and 64, and the last is at least 1.
#[derive(Clone, Copy)]
pub struct Rows {
    pub rows4: u32,
    pub rows16: u32,
    pub rows48: u32,
    pub rows256: u32,
}

/// The map at which a drive does its calls.
#[derive(Clone, Copy)]
pub enum Tree {
    /// It is a sorted map under one lock.
    Locked,
    /// It is the tree with lock coupling: a row is locked before the row above it is unlocked.
    Coupled,
    /// It is the tree with versions, which are checked, and with locks for what is written.
    Optimistic,
    /// It is `Optimistic`, but a get checks nothing.
    ReadUnchecked,
    /// It is `Optimistic`, but a scan does not check its rows at the end.
    ScanUnvalidated,
    /// It is `Optimistic`, but a row is locked from whatever version it has.
    LockUnchecked,
    /// It is `Coupled`, but a get, remove or replace unlocks a row before it locks the next.
    EarlyRelease,
}

/// How the process of each turn of a schedule is chosen.
#[derive(Clone, Copy)]
pub enum Strategy {
    /// Each process is as likely as any other.
    Walk,
    /// Priorities choose. They are drawn again for steps that race.
    Pos,
    /// Priorities choose. They change at a few turns.
    Pct,
}
