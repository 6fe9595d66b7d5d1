// The point that a stage is at.
ghost use Rattle.std.specs.Prelude.{◌≡◌};
ghost use Rattle.art_rows.specs.Act.{point_of};
ghost use Rattle.art_rows.specs.Rows.{lock_point};
ghost use Rattle.art_control_states.specs.Automaton.{turn_at, find_turn, put_keys_turn, grow_keys_turn, pair_turn, grow_leaf_turn, grow_count_turn};
ghost use Rattle.art_control_states.specs.Settings.{setting_of};

use art_control_states::{Growing, HeldRow, Hold, Keys, Pair, PairWord, Setting, Stage};
use art_rows::{Kind, Point};

fn lock_point(setting: &Setting, base: usize) -> Point
    ensures { result ≡ lock_point setting.now.shape base }
{
    if base == setting.shape.root() {
        Point::LockRoot
    } else {
        Point::LockRow
    }
}

/// The point at which a call is at a stage; `Answer` at the last.
pub fn point_at(setting: &Setting, stage: &Stage) -> Option<Point>
    ensures { result ≡ point_of (turn_at (setting_of setting.now) stage.now) }
{
    match stage {
        Stage::Lock {
            target,
            first: true,
        } => Some(lock_point(setting, setting.target_base(target))),
        Stage::Take { taking } => { Some(lock_point(setting, taking.row.base as usize)) }
        Stage::Between { .. } => Some(if setting.locks() {
            Point::Unlock
        } else {
            Point::Check
        }),
        Stage::Slot { .. } => Some(Point::Child),
        Stage::Check { .. } | Stage::CheckLast { .. } => Some(Point::Check),
        Stage::Leave { .. } | Stage::LetGo { .. } | Stage::Obsolete { .. } | Stage::Unlock { .. } =>
            Some(Point::Unlock),
        Stage::Over { .. } => Some(Point::Answer),
        Stage::Find { place } => find_point(setting, place.row),
        Stage::StorePair {
            pair,
            base,
            word,
            ..
        } => pair_point(setting, *pair, *base, *word),
        Stage::PutKeys { hold, keys } => put_keys_point(setting, *hold, *keys),
        Stage::GrowKeys { growing, place, .. } => grow_keys_point(setting, *growing, *place),
        Stage::GrowLeaf { growing } => grow_leaf_point(setting, *growing),
        Stage::GrowCount { growing } => grow_count_point(setting, *growing),
        _ => None,
    }
}

/// FIND's first access is at no point.
fn find_point(setting: &Setting, row: HeldRow) -> Option<Point>
    ensures { result ≡ point_of (find_turn row.kind (setting_of setting.now) row) }
{
    match row.kind {
        Kind::Four | Kind::Sixteen | Kind::FortyEight | Kind::Full => None,
    }
}

fn pair_point(setting: &Setting, pair: Pair, base: u32, word: PairWord) -> Option<Point>
    ensures { result ≡ point_of (pair_turn (setting_of setting.now) pair base word) }
{
    let _pair = pair;
    let _base = base;
    match word {
        PairWord::Info | PairWord::Keys | PairWord::Lesser | PairWord::Greater => None,
    }
}

fn put_keys_point(setting: &Setting, hold: Hold, keys: Keys) -> Option<Point>
    ensures { result ≡ point_of (put_keys_turn hold.row.kind (setting_of setting.now) hold keys) }
{
    let _keys = keys;
    match hold.row.kind {
        Kind::Four | Kind::Sixteen | Kind::FortyEight => None,
        Kind::Full => Some(Point::Unlock),
    }
}

fn grow_keys_point(setting: &Setting, growing: Growing, place: u32) -> Option<Point>
    ensures { result ≡ point_of (grow_keys_turn growing.hold.row.kind (setting_of setting.now) growing place) }
{
    match growing.hold.row.kind {
        Kind::Four => if place == 0 { None } else { None },
        Kind::Sixteen | Kind::FortyEight | Kind::Full => None,
    }
}

fn grow_leaf_point(setting: &Setting, growing: Growing) -> Option<Point>
    ensures { result ≡ point_of (grow_leaf_turn growing.hold.row.kind (setting_of setting.now) growing) }
{
    match growing.hold.row.kind {
        Kind::Four | Kind::Sixteen | Kind::FortyEight | Kind::Full => None,
    }
}

fn grow_count_point(setting: &Setting, growing: Growing) -> Option<Point>
    ensures { result ≡ point_of (grow_count_turn growing.hold.row.kind growing) }
{
    match growing.hold.row.kind {
        Kind::Four | Kind::Sixteen | Kind::FortyEight | Kind::Full => None,
    }
}
