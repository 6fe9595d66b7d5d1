// What a search of calls found.

/// What a search of calls found.
#[derive(Drop)]
pub enum SearchEnd {
    /// The calls have this order, by their places in the list.
    Order(Vec<u32>),
    /// The calls have no order.
    NoOrder,
    /// More configurations were met than the budget.
    Spent,
}
