// The loops of GROW.
ghost use Rattle.std.specs.Prelude.{◌≡◌, ◌+◌, ◌<◌, ◌≤◌, ◌^◌, true, nat_le, [], ◌∷◌, ◌++◌, map};
ghost use Rattle.art_control_states.specs.Automaton.{copies_at, spreads_at, entries_at, fill_at, leaf_after, keys_at_after};
ghost use Rattle.art_control_states.specs.Sound.{is_sound, has_keys};

use art_control_states::{Growing, Spread, Stage, count};
use art_rows::{Kind, entry_at};

/// The stage of GROW after it has stored its row's info.
pub(crate) fn fill(growing: &Growing, stage: &mut Stage)
    ensures stage { stage.new ≡ fill_at growing.now.hold.row.kind growing.now }
    ensures sound { is_sound stage.new ≡ true }
{
    match growing.hold.row.kind {
        Kind::Four | Kind::Sixteen => copies(
            growing,
            count(growing.hold.row.kind, growing.keys),
            stage,
        ),

        Kind::FortyEight => *stage = Stage::SpreadIndex {
            growing: *growing,
            place: 0,
            left: 31,
        },

        Kind::Full => *stage = Stage::Hang { growing: *growing },
    }
}

/// The stage of GROW with this many children left to copy.
#[tactic(auto, using(crate::proofs::LoopLemmas::copies_none, crate::proofs::LoopLemmas::copies_some))]
fn copies(growing: &Growing, left: u32, stage: &mut Stage)
    requires { left ≤ 48 }
    ensures stage { stage.new ≡ copies_at growing.now 0 left }
    ensures sound { is_sound stage.new ≡ true }
{
    if left == 0 {
        *stage = Stage::GrowLeaf { growing: *growing };
    } else {
        *stage = Stage::GrowLoad {
            growing: *growing,
            place: 0,
            left: left - 1,
        };
    }
}

/// The stage of GROW with this many children left to copy after this one.
#[tactic(auto, using(crate::proofs::LoopLemmas::copies_none, crate::proofs::LoopLemmas::copies_some))]
pub(crate) fn copy_on(growing: &Growing, place: u32, left: u32, stage: &mut Stage)
    requires { nat_le (place + left) 48 ≡ true }
    ensures stage { stage.new ≡ copies_at growing.now (place + 1) left }
    ensures sound { is_sound stage.new ≡ true }
{
    if left == 0 {
        *stage = Stage::GrowLeaf { growing: *growing };
    } else {
        *stage = Stage::GrowLoad {
            growing: *growing,
            place: place + 1,
            left: left - 1,
        };
    }
}

/// The stage of GROW with this many index words left to spread after this one.
#[tactic(auto, using(crate::proofs::LoopLemmas::spreads_none, crate::proofs::LoopLemmas::spreads_some))]
fn spreads(growing: &Growing, place: u32, left: u32, stage: &mut Stage)
    requires { nat_le (place + left) 31 ≡ true }
    ensures stage { stage.new ≡ spreads_at growing.now (place + 1) left }
    ensures sound { is_sound stage.new ≡ true }
{
    if left == 0 {
        *stage = Stage::GrowLeaf { growing: *growing };
    } else {
        *stage = Stage::SpreadIndex {
            growing: *growing,
            place: place + 1,
            left: left - 1,
        };
    }
}

/// The stage of GROW with this many entries of an index word left to spread, from this one on.
#[tactic(auto, using(crate::proofs::LoopLemmas::entries_none, crate::proofs::LoopLemmas::entries_skip, crate::proofs::LoopLemmas::entries_some))]
pub(crate) fn entries(spread: &Spread, entry: u32, left: u32, stage: &mut Stage)
    requires words { nat_le (spread.now.place + spread.now.left) 31 ≡ true }
    requires few { entry + left ≤ 8 }
    ensures stage { stage.new ≡ entries_at spread.now entry left }
    ensures sound { is_sound stage.new ≡ true }
{
    if left == 0 {
        spreads(&spread.growing, spread.place, spread.left, stage);
    } else if entry_at(spread.word, entry) == 0 {
        entries(spread, entry + 1, left - 1, stage);
    } else {
        *stage = Stage::SpreadLoad {
            spread: *spread,
            entry,
            after: left - 1,
        };
    }
}

/// The stage of GROW with this many entries of an index word left to spread after this one.
pub(crate) fn spread_on(spread: &Spread, entry: u32, after: u32, stage: &mut Stage)
    requires words { nat_le (spread.now.place + spread.now.left) 31 ≡ true }
    requires few { nat_le (entry + after) 7 ≡ true }
    ensures stage { stage.new ≡ entries_at spread.now (entry + 1) after }
    ensures sound { is_sound stage.new ≡ true }
{
    entries(spread, entry + 1, after, stage);
}

/// The stage of GROW after it has stored the leaf of the key.
pub(crate) fn leaf_stored(growing: &Growing, stage: &mut Stage)
    ensures stage { stage.new ≡ leaf_after growing.now.hold.row.kind growing.now }
    ensures sound { is_sound stage.new ≡ true }
{
    match growing.hold.row.kind {
        Kind::Four => *stage = Stage::GrowKeys {
            growing: *growing,
            place: 0,
            left: 1,
        },

        Kind::Sixteen => *stage = Stage::GrowKeys {
            growing: *growing,
            place: 0,
            left: 31,
        },

        Kind::FortyEight | Kind::Full => *stage = Stage::Hang { growing: *growing },
    }
}

/// The stage of GROW with this many key words or index words left to write after this one.
#[tactic(auto, using(crate::proofs::LoopLemmas::keys_none, crate::proofs::LoopLemmas::keys_some))]
pub(crate) fn keys_stored(growing: &Growing, place: u32, left: u32, stage: &mut Stage)
    requires kind { has_keys growing.now.hold.row.kind ≡ true }
    requires few { nat_le (place + left) 31 ≡ true }
    ensures stage { stage.new ≡ keys_at_after growing.now place left }
    ensures sound { is_sound stage.new ≡ true }
{
    if left == 0 {
        *stage = Stage::GrowCount { growing: *growing };
    } else {
        *stage = Stage::GrowKeys {
            growing: *growing,
            place: place + 1,
            left: left - 1,
        };
    }
}
