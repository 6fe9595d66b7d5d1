// Verdicts on a history.
use orders::Segment;

/// What the judge found out about a history.
pub enum Verdict {
    /// The history is linearizable: an order of all its completed calls and some pending ones, by
    /// their numbers.
    Yes(Vec<u32>),
    /// The history is not linearizable, and neither are the calls of this segment on their own.
    No(Segment),
    /// The search of this segment met more configurations than the budget.
    Undecided(Segment),
}

impl Drop for Verdict {
    fn drop(self) {
        match self {
            Verdict::Yes(_yes) => {}
            Verdict::No(_no) => {}
            Verdict::Undecided(_undecided) => {}
        }
    }
}
