// The stage of a call: plain data, which the automaton goes through and which proofs about the trees
// cite.
use art_rows::{Child, Kind};

/// A row that a call is at: where it is, its kind and info word, and its version, from which it was
/// locked or for which the call waited.
#[derive(Clone, Copy)]
pub struct HeldRow {
    pub base: u32,
    pub kind: Kind,
    pub info: u64,
    pub kept: u64,
}

/// What was read of a row that lacks the byte: its key words and its count word, or the byte's
/// index word and the count word. A word that the row's kind does not have is 0.
#[derive(Clone, Copy)]
pub struct Keys {
    pub first: u64,
    pub second: u64,
    pub count: u64,
}

/// What FIND saw.
#[derive(Clone, Copy)]
pub enum Finding {
    Has { slot: usize, child: Child },
    Lacks { keys: Keys },
}

/// How far a call is on its way down: the row, the row above it, and the slot above that has the
/// row.
#[derive(Clone, Copy)]
pub struct Position {
    pub row: HeldRow,
    pub above: Option<HeldRow>,
    pub slot: usize,
}

/// The step from a row to the row in its slot.
#[derive(Clone, Copy)]
pub struct Down {
    pub above: HeldRow,
    pub slot: usize,
    pub base: u32,
    pub kind: Kind,
}

/// The rows that are held, the lower one first.
#[derive(Clone, Copy)]
pub struct Hold {
    pub row: HeldRow,
    pub above: Option<HeldRow>,
}

/// What PAIR puts into a slot: a row that branches at this level, with the new leaf and a child
/// under this byte.
#[derive(Clone, Copy)]
pub struct Pair {
    pub slot: usize,
    pub level: u32,
    pub byte: u32,
    pub child: Child,
}

/// What a call does in the rows that it holds.
#[derive(Clone, Copy)]
pub enum Work {
    /// The slot is overwritten.
    Write {
        slot: usize,
        word: u64,
        reply: Option<u32>,
    },
    Pair {
        pair: Pair,
    },
    Put {
        keys: Keys,
    },
    /// The row above has this one in the slot.
    Grow {
        slot: usize,
        keys: Keys,
    },
}

/// A row to take, with the row above it if that was taken before. Then the row below is taken, if
/// there is one, and then the work is done.
#[derive(Clone, Copy)]
pub struct Taking {
    pub row: HeldRow,
    pub held: Option<HeldRow>,
    pub below: Option<HeldRow>,
    pub work: Work,
}

/// What is locked or waited for: the root, a row below another, or a row that is taken.
#[derive(Clone, Copy)]
pub enum Target {
    Root,
    Below { down: Down },
    Taken { taking: Taking },
}

/// The words of a fresh row of two children, in the order in which they are stored.
#[derive(Clone, Copy)]
pub enum PairWord {
    Info,
    Keys,
    Lesser,
    Greater,
}

/// A row that grows, its slot in the row above, what was read of it, and the fresh row.
#[derive(Clone, Copy)]
pub struct Growing {
    pub hold: Hold,
    pub slot: usize,
    pub keys: Keys,
    pub base: u32,
}

/// An index word of the row that grows, read as it was, with the places after it.
#[derive(Clone, Copy)]
pub struct Spread {
    pub growing: Growing,
    pub place: u32,
    pub left: u32,
    pub word: u64,
}

/// How a call on a key ends.
#[derive(Clone, Copy)]
pub enum Outcome {
    Value { value: Option<u32> },
    Refused,
}

/// The stage of a call: what its next access does.
#[derive(Clone, Copy)]
pub enum Stage {
    /// LOCK loads the version, for the first time or again.
    Lock {
        target: Target,
        first: bool,
    },
    /// LOCK exchanges it.
    Exchange {
        target: Target,
        version: u64,
    },
    /// WAIT loads the version.
    Wait {
        target: Target,
    },
    /// The row above is unlocked before the row below is locked.
    Leave {
        down: Down,
    },
    /// The row above is unlocked, or checked, with the row below locked, or waited for.
    Between {
        down: Down,
        kept: u64,
    },
    /// The info of the row below is loaded.
    Info {
        down: Down,
        kept: u64,
    },
    /// FIND loads its first word.
    Find {
        place: Position,
    },
    /// FIND loads the first key word of a row of kind 16.
    FindKeys {
        place: Position,
        count: u64,
    },
    /// FIND loads the second key word of a row of kind 16.
    FindMore {
        place: Position,
        count: u64,
        first: u64,
    },
    /// FIND loads the count of a row of kind 48.
    FindCount {
        place: Position,
        index: u64,
    },
    /// FIND loads the child.
    Slot {
        place: Position,
        slot: usize,
    },
    /// The row is checked after FIND.
    Check {
        place: Position,
        finding: Finding,
    },
    /// The last row is checked: its path is not the beginning of the key.
    CheckLast {
        row: HeldRow,
    },
    /// The row above is unlocked before anything is done in the row.
    LetGo {
        above: HeldRow,
        place: Position,
        finding: Finding,
    },
    /// TAKE exchanges the version.
    Take {
        taking: Taking,
    },
    /// The slot is overwritten.
    Write {
        hold: Hold,
        slot: usize,
        word: u64,
        reply: Option<u32>,
    },
    /// PAIR claims its row.
    ClaimPair {
        hold: Hold,
        pair: Pair,
    },
    /// PAIR stores the words of its row.
    StorePair {
        hold: Hold,
        pair: Pair,
        base: u32,
        word: PairWord,
    },
    /// PUT loads a child that it moves, with this many left to move after it.
    PutLoad {
        hold: Hold,
        keys: Keys,
        left: u32,
    },
    /// PUT stores that child one place further on.
    PutStore {
        hold: Hold,
        keys: Keys,
        left: u32,
        word: u64,
    },
    /// PUT stores the leaf.
    PutLeaf {
        hold: Hold,
        keys: Keys,
    },
    /// PUT stores the keys, or their first word, or the byte's index word.
    PutKeys {
        hold: Hold,
        keys: Keys,
    },
    /// PUT stores the second key word.
    PutMore {
        hold: Hold,
        keys: Keys,
    },
    /// PUT stores the count.
    PutCount {
        hold: Hold,
        keys: Keys,
    },
    /// GROW claims its row.
    ClaimGrow {
        hold: Hold,
        slot: usize,
        keys: Keys,
    },
    /// GROW stores its row's info.
    GrowInfo {
        growing: Growing,
    },
    /// GROW loads the child at this place of the old row, with this many after it.
    GrowLoad {
        growing: Growing,
        place: u32,
        left: u32,
    },
    /// GROW stores that child.
    GrowStore {
        growing: Growing,
        place: u32,
        left: u32,
        word: u64,
    },
    /// GROW loads an index word of the old row, with this many after it.
    SpreadIndex {
        growing: Growing,
        place: u32,
        left: u32,
    },
    /// GROW loads the child of an entry, with this many entries after it.
    SpreadLoad {
        spread: Spread,
        entry: u32,
        after: u32,
    },
    /// GROW stores the child of that entry.
    SpreadStore {
        spread: Spread,
        entry: u32,
        after: u32,
        word: u64,
    },
    /// GROW stores the leaf.
    GrowLeaf {
        growing: Growing,
    },
    /// GROW stores the key words or index words, with this many after this one.
    GrowKeys {
        growing: Growing,
        place: u32,
        left: u32,
    },
    /// GROW stores the count.
    GrowCount {
        growing: Growing,
    },
    /// GROW stores the new row in the slot of the row above.
    Hang {
        growing: Growing,
    },
    /// The old row is released as obsolete.
    Obsolete {
        hold: Hold,
    },
    /// The row is unlocked, and then the row above it, if that is held. Then the call ends with
    /// this outcome, or starts again.
    Unlock {
        hold: Hold,
        outcome: Option<Outcome>,
    },
    /// The call has its reply.
    Over {
        outcome: Outcome,
    },
}

/// What a scan locks or waits for: the root, or a row below another.
#[derive(Clone, Copy)]
pub enum Entry {
    Root,
    Below { base: u32, kind: Kind },
}

/// A row whose children a scan walks, with what was read of it: the bytes from this one on are
/// left, this many of them. In kind 48 the bytes are those of one index word, and this many index
/// words are left after it.
#[derive(Clone, Copy)]
pub struct Frame {
    pub row: HeldRow,
    pub keys: Keys,
    pub byte: u32,
    pub left: u32,
    pub index: u32,
    pub words: u32,
}

/// The stage of a scan: what its next access does. A scan also has the rows that it has read, the
/// pairs that it has found, and the rows on the way from the root, the lowest first.
#[derive(Clone, Copy)]
pub enum ScanStep {
    /// LOCK loads the version, for the first time or again.
    Lock {
        entry: Entry,
        first: bool,
    },
    /// LOCK exchanges it.
    Exchange {
        entry: Entry,
        version: u64,
    },
    /// WAIT loads the version.
    Wait {
        entry: Entry,
    },
    /// The info of a row is loaded.
    Info {
        base: u32,
        kind: Kind,
        kept: u64,
    },
    /// The keys of a row of kind 4 are loaded, or the count of a row of kind 16.
    Keys {
        row: HeldRow,
    },
    /// The first key word of a row of kind 16 is loaded.
    FirstKeys {
        row: HeldRow,
        count: u64,
    },
    /// The second key word of a row of kind 16 is loaded.
    SecondKeys {
        row: HeldRow,
        count: u64,
        first: u64,
    },
    /// An index word of a row of kind 48 is loaded, with this many after it.
    Index {
        row: HeldRow,
        index: u32,
        words: u32,
    },
    /// A child is loaded.
    Child {
        frame: Frame,
        slot: usize,
    },
    /// A row is unlocked or checked at the end; the rows are those after it.
    Release {
        row: HeldRow,
    },
    /// The scan has its reply.
    Over,
}
