// Explanations of calls without order.

use events::Operation;

/// Why a call stays.
#[derive(Drop)]
pub enum Reason {
    /// The others, without the answers that depend on what the call put, have this order. It names
    /// them by their places in their own list.
    Order(Vec<u32>),
    /// The search of the others met more configurations than the budget.
    Spent,
    /// A call without an answer waits for what it may put.
    Held,
}

/// A few calls that have no order, by rising invocation. A call without an answer here may have had
/// one.
pub struct Explanation {
    pub calls: Vec<Operation>,
    /// Why each of the calls stays, in their order.
    pub reasons: Vec<Reason>,
}

impl Drop for Explanation {
    fn drop(self) {
        let Explanation {
            calls: _calls,
            reasons: _reasons,
        } = self;
    }
}

/// The result of leaving calls out.
#[derive(Drop)]
pub enum Without {
    /// The others have no order.
    Rest(Vec<Operation>),
    /// The calls stay, for this reason.
    Kept(Reason),
}

/// The result of a look at each call that stays.
#[derive(Drop)]
pub enum Reduction {
    /// One of them can be left out, and these are the others.
    Less(Vec<Operation>),
    /// None can be left out, and each has its reason to stay.
    Least(Vec<Reason>),
}
