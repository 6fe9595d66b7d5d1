// What is known of an order of calls.
use crate::kept_order::StoredOrder;
use events::Operation;
use map_object::SortedMap;

/// What is known of an order of calls.
#[derive(Drop)]
pub enum Mended {
    /// The calls have this order.
    Order(StoredOrder),
    /// The calls have no order. Here are the pairs and the calls again.
    NoOrder {
        start: SortedMap,
        calls: Vec<Operation>,
    },
    /// More configurations were met than the budget. Here are the pairs and the calls again.
    Spent {
        start: SortedMap,
        calls: Vec<Operation>,
    },
}
