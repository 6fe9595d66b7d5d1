// A picture of a verdict on a history, and the view that says which part is shown.

/// A picture of a verdict on a history, from left to right by columns, counted from 0.
#[derive(Drop)]
pub struct Picture {
    /// The heading of the picture.
    pub heading: Heading,
    /// The pairs that the map holds at the start; in a part of a picture, only those at keys that
    /// its calls name.
    pub start: Vec<(u64, u64)>,
    /// The processes that have a call, by rising number: a lane for each.
    pub lanes: Vec<u8>,
    /// A bar for each call, by number.
    pub bars: Vec<Bar>,
    /// A mark for each call of the order, or of the front, in its order.
    pub marks: Vec<Mark>,
    /// How many columns there are.
    pub columns: usize,
    /// What a part of a picture leaves out, if this is one.
    pub part: Option<PicturePart>,
    /// Whether the picture is about a few calls, and all other bars are pale.
    pub is_few: bool,
}

/// The heading of a picture.
#[derive(Clone, Copy)]
pub enum Heading {
    /// The history is linearizable, and an order is marked.
    Order,
    /// The calls on the keys from `lo` to `hi` have no order.
    NoOrder { lo: u64, hi: u64 },
    /// The search of the calls on the keys from `lo` to `hi` met more configurations than its
    /// budget.
    Undecided { lo: u64, hi: u64 },
}

/// The bar of a call, from its invocation to its response. The bar of a pending call is open, to
/// the end of the picture.
#[derive(Drop)]
pub struct Bar {
    /// The number of the call in the history.
    pub number: usize,
    /// The process that calls.
    pub process: u8,
    /// The place of its lane among the lanes.
    pub lane: usize,
    /// The place of the invocation among the events.
    pub inv: usize,
    /// The place of the response among the events.
    pub res: Option<usize>,
    /// The column of the invocation.
    pub from: usize,
    /// The column of the response.
    pub to: Option<usize>,
    /// The least key that the call names.
    pub low: u64,
    /// The greatest key that it names.
    pub high: u64,
    /// The call in words.
    pub call: String,
    /// Its reply in words.
    pub reply: Option<String>,
    /// Whether the verdict does not concern the call.
    pub is_pale: bool,
    /// Whether its response is the event at which the history goes wrong.
    pub is_wrong: bool,
    /// Whether it begins before the part that is shown.
    pub is_cut: bool,
}

/// The mark of a call of an order, at its linearization point.
#[derive(Clone, Copy)]
pub struct Mark {
    /// The number of the call in the history.
    pub number: u32,
    /// The place of the call in the order, from 0.
    pub place: usize,
    /// The place of the event after which its point is: the greatest place of an invocation up to
    /// its place in the order.
    pub point: usize,
    /// The place of its lane among the lanes.
    pub lane: usize,
    /// Its column.
    pub column: usize,
}

/// What a part of a picture leaves out.
#[derive(Clone, Copy)]
pub struct PicturePart {
    /// How many columns are before it.
    pub before: usize,
    /// How many columns are after it.
    pub after: usize,
    /// The event in its middle.
    pub event: usize,
}

/// Which part of a picture is shown.
#[derive(Clone, Copy)]
pub struct View {
    /// The event in its middle. An event that the history does not have means that none is asked
    /// for.
    pub around: u32,
    /// The number of calls for which it has room, at three columns each. 0 asks for the whole
    /// picture. A number above the limit of calls means that none is asked for; then it is 20.
    pub calls: u32,
}
