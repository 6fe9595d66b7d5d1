// The state of a search.
use events::Call;
use map_object::SortedMap;
use memo::Memo;

/// A call taken, by its place. It has what undoes the call on the map, the place in the memo of the
/// configuration before it, and the calls left to try instead.
#[derive(Drop)]
pub struct Branch {
    pub place: u32,
    pub undo: Option<Call>,
    pub at: usize,
    pub rest: Vec<u32>,
}

/// The state of a search: the calls taken, those to try next, the last one first, the configuration
/// that it has reached, the map there, the configurations visited, which calls are taken, and a
/// place below which all are.
pub struct CallSearch {
    pub levels: Vec<Branch>,
    pub rest: Vec<u32>,
    pub at: usize,
    pub map: SortedMap,
    pub memo: Memo,
    pub taken: Vec<bool>,
    pub low: usize,
}

// One pattern drops all its parts.
impl Drop for CallSearch {
    fn drop(self) {
        let CallSearch {
            levels: _levels,
            rest: _rest,
            at: _at,
            map: _map,
            memo: _memo,
            taken: _taken,
            low: _low,
        } = self;
    }
}

/// What a step of a search came to.
#[derive(Drop)]
pub enum SearchStep {
    /// A call was tried, or the search went back by one.
    Made,
    /// The calls taken are an order.
    Order,
    /// All is tried.
    NoOrder,
}
