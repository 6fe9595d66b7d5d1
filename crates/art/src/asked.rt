// The access that a stage makes.
ghost use Rattle.std.specs.Prelude.{◌≡◌, ◌+◌, true, nat_le, Some, None, []};
ghost use Rattle.art_rows.specs.Words.{is_small_child, child_word, locked_word, more_keys16_word};
ghost use Rattle.art_rows.specs.Table.{child_at, more_keys_at};
ghost use Rattle.art_rows.specs.Rows.{locks};
ghost use Rattle.art_rows.specs.Updates.{new_leaf};
ghost use Rattle.art_rows.specs.Steps.{access_of, reply_of};
ghost use Rattle.art_control_states.specs.Stages.{leaf_place, new_child_at, place_in, keys_after};
ghost use Rattle.art_control_states.specs.Automaton.{load_of, store_of, unlock_of, check_turn, turn_at, between_turn};
ghost use Rattle.art_control_states.specs.Automaton.{find_turn, pair_turn, put_keys_turn, grow_keys_turn, grow_leaf_turn, grow_count_turn};
ghost use Rattle.art_rows.specs.declared.access.Access.TheVariants.{Exchange as Swap};
ghost use Rattle.art_control_states.specs.Sound.{is_sound, has_keys, is_sixteen};
ghost use Rattle.art_control_states.specs.Settings.{setting_of};

use art_control_states::{
    Down, Growing, HeldRow, Hold, Keys, Pair, PairWord, Setting, Stage, Target, child_slot, claims,
    count, count_slot, index_slot, info_slot, keys_slot, more_keys_slot, next_kind,
};
use art_rows::{
    Access, Kind, child_word, entry_at, index_with, key_byte, key_bytes_with, keys_with,
    keys16_with, more_keys16_with, moved_info, pair_info, pair_keys, row_word, version_locked,
    version_obsolete, version_released,
};

fn find_access(setting: &Setting, row: HeldRow) -> Access
    ensures { access_of (find_turn row.kind (setting_of setting.now) row) ≡ Some result }
{
    let word = match row.kind {
        Kind::Four => keys_slot(row.base),
        Kind::Sixteen => count_slot(Kind::Sixteen, row.base),
        Kind::FortyEight => index_slot(row.base, setting.byte(row)),
        Kind::Full => child_slot(Kind::Full, row.base, setting.byte(row)),
    };
    Access::Load { word }
}

fn between(setting: &Setting, down: Down) -> Access
    ensures { access_of (between_turn (locks setting.now.variant) down) ≡ Some result }
{
    if setting.locks() {
        unlock(down.above)
    } else {
        check(down.above)
    }
}

/// The word of the new leaf.
fn leaf_word(setting: &Setting) -> u64
    ensures { result ≡ child_word (new_leaf setting.now.call) }
{
    child_word(setting.call.leaf())
}

fn pair_access(setting: &Setting, pair: Pair, base: u32, word: PairWord) -> Access
    requires { is_small_child pair.child ≡ true }
    ensures { access_of (pair_turn (setting_of setting.now) pair base word) ≡ Some result }
{
    let key = setting.call.key();
    let byte = key_byte(key, pair.level);
    let (lesser, greater) = if pair.byte < byte {
        (pair.child, setting.call.leaf())
    } else {
        (setting.call.leaf(), pair.child)
    };
    match word {
        PairWord::Info => store(info_slot(base), pair_info(key, pair.level)),
        PairWord::Keys => store(
            keys_slot(base),
            if pair.byte < byte {
                pair_keys(pair.byte, byte)
            } else {
                pair_keys(byte, pair.byte)
            },
        ),
        PairWord::Lesser => store(child_slot(Kind::Four, base, 0), child_word(lesser)),
        PairWord::Greater => store(child_slot(Kind::Four, base, 1), child_word(greater)),
    }
}

/// The slot of a child that PUT moves, with this many after it.
fn moved_slot(setting: &Setting, hold: Hold, keys: Keys, left: u32) -> usize
    requires { has_keys hold.row.kind ≡ true }
    ensures { result ≡ child_at hold.row.kind hold.row.base (place_in (setting_of setting.now) hold keys + left) }
{
    child_slot(hold.row.kind, hold.row.base, setting.place(hold, keys)) + left as usize
}

/// The slot to which it moves.
fn next_slot(setting: &Setting, hold: Hold, keys: Keys, left: u32) -> usize
    requires { has_keys hold.row.kind ≡ true }
    ensures { result ≡ child_at hold.row.kind hold.row.base (place_in (setting_of setting.now) hold keys + left + 1) }
{
    child_slot(hold.row.kind, hold.row.base, setting.place(hold, keys)) + left as usize + 1
}

/// The place of the new leaf.
fn leaf_place(setting: &Setting, hold: Hold, keys: Keys) -> u32
    ensures { result ≡ leaf_place hold.row.kind (setting_of setting.now) hold keys }
{
    match hold.row.kind {
        Kind::Four | Kind::Sixteen => setting.place(hold, keys),
        Kind::FortyEight => count(Kind::FortyEight, keys),
        Kind::Full => 0,
    }
}

fn put_keys_access(setting: &Setting, hold: Hold, keys: Keys) -> Access
    ensures { access_of (put_keys_turn hold.row.kind (setting_of setting.now) hold keys) ≡ Some result }
{
    let base = hold.row.base;
    let byte = setting.byte(hold.row);
    match hold.row.kind {
        Kind::Four => store(keys_slot(base), keys_with(keys.first, byte)),
        Kind::Sixteen => store(
            keys_slot(base),
            keys16_with(keys.count, keys.first, keys.second, byte),
        ),
        Kind::FortyEight => store(
            index_slot(base, byte),
            index_with(keys.first, byte, count(Kind::FortyEight, keys) + 1),
        ),
        Kind::Full => unlock(hold.row),
    }
}

fn put_more_access(setting: &Setting, hold: Hold, keys: Keys) -> Access
    requires { is_sixteen hold.row.kind ≡ true }
    ensures { access_of (store_of (more_keys_at hold.row.base) (more_keys16_word (keys_after (setting_of setting.now) hold keys)))
        ≡ Some result }
{
    match hold.row.kind {
        Kind::Sixteen => store(
            more_keys_slot(hold.row.base),
            more_keys16_with(keys.count, keys.first, keys.second, setting.byte(hold.row)),
        ),
        _ => unreachable!(),
    }
}

/// The slot to which a child is copied.
fn copy_slot(setting: &Setting, growing: Growing, place: u32, left: u32) -> usize
    requires { nat_le (place + left) 48 ≡ true }
    ensures { result ≡ new_child_at growing.hold.row.kind (setting_of setting.now) growing place }
{
    match growing.hold.row.kind {
        Kind::Four => {
            let _left = left;
            let further = if place < setting.place(growing.hold, growing.keys) {
                place
            } else {
                place + 1
            };
            child_slot(Kind::Sixteen, growing.base, further)
        }
        _ => child_slot(Kind::FortyEight, growing.base, place),
    }
}

fn grow_leaf_access(setting: &Setting, growing: Growing) -> Access
    ensures { access_of (grow_leaf_turn growing.hold.row.kind (setting_of setting.now) growing) ≡ Some result }
{
    let slot = match growing.hold.row.kind {
        Kind::Four => {
            let place = setting.place(growing.hold, growing.keys);
            child_slot(Kind::Sixteen, growing.base, place)
        }
        Kind::Sixteen => child_slot(Kind::FortyEight, growing.base, 16),
        _ => child_slot(Kind::Full, growing.base, setting.byte(growing.hold.row)),
    };
    store(slot, leaf_word(setting))
}

#[tactic(auto, using(crate::proofs::KeyWordLemmas::second_key_word))]
fn key_word_access(setting: &Setting, growing: Growing, place: u32, left: u32) -> Access
    requires kind { has_keys growing.hold.row.kind ≡ true }
    requires few { nat_le (place + left) 31 ≡ true }
    ensures { access_of (grow_keys_turn growing.hold.row.kind (setting_of setting.now) growing place) ≡ Some result }
{
    let _left = left;
    let base = growing.base;
    match growing.hold.row.kind {
        Kind::Four => {
            if place == 0 {
                store(
                    keys_slot(base),
                    key_bytes_with(growing.keys.first, setting.byte(growing.hold.row)),
                )
            } else {
                store(more_keys_slot(base), 0)
            }
        }
        _ => store(
            index_slot(base, 8 * place),
            setting.index_from(growing, 8 * place, 8),
        ),
    }
}

fn grow_count_access(setting: &Setting, growing: Growing) -> Access
    ensures { access_of (grow_count_turn growing.hold.row.kind growing) ≡ Some result }
{
    match growing.hold.row.kind {
        Kind::Four => store(
            count_slot(Kind::Sixteen, growing.base),
            u64::from(count(Kind::Four, growing.keys)) + 1,
        ),
        _ => store(count_slot(Kind::FortyEight, growing.base), 17),
    }
}

/// The access that a call makes at a stage; it makes one at each but the last.
pub fn access_at(setting: &Setting, stage: &Stage) -> Access
    requires sound { is_sound stage.now ≡ true }
    requires asks { reply_of (turn_at (setting_of setting.now) stage.now) ≡ None }
    ensures { access_of (turn_at (setting_of setting.now) stage.now) ≡ Some result }
{
    match stage {
        Stage::Lock { target, .. } | Stage::Wait { target } => load(setting.target_base(target)),
        Stage::Exchange { target, version } => exchange(setting.target_base(target), *version),
        Stage::Leave { down } => unlock(down.above),
        Stage::Between { down, .. } => between(setting, *down),
        Stage::Info { down, .. } => load(info_slot(down.base)),
        Stage::Find { place } => find_access(setting, place.row),
        Stage::FindKeys { place, .. } => load(keys_slot(place.row.base)),
        Stage::FindMore { place, .. } => load(more_keys_slot(place.row.base)),
        Stage::FindCount { place, .. } => load(count_slot(Kind::FortyEight, place.row.base)),
        Stage::Slot { slot, .. } => load(*slot),
        Stage::Check { place, .. } => check(place.row),
        Stage::CheckLast { row } => check(*row),
        Stage::LetGo { above, .. } => unlock(*above),
        Stage::Take { taking } => exchange(taking.row.base as usize, taking.row.kept),
        Stage::Write { slot, word, .. } => store(*slot, *word),
        Stage::ClaimPair { .. } => Access::Add {
            word: claims(Kind::Four),
        },
        Stage::StorePair {
            pair,
            base,
            word,
            ..
        } => pair_access(setting, *pair, *base, *word),
        Stage::PutLoad { hold, keys, left } => load(moved_slot(setting, *hold, *keys, *left)),
        Stage::PutStore {
            hold,
            keys,
            left,
            word,
        } => store(next_slot(setting, *hold, *keys, *left), *word),
        Stage::PutLeaf { hold, keys } => store(
            child_slot(
                hold.row.kind,
                hold.row.base,
                leaf_place(setting, *hold, *keys),
            ),
            leaf_word(setting),
        ),
        Stage::PutKeys { hold, keys } => put_keys_access(setting, *hold, *keys),
        Stage::PutMore { hold, keys } => put_more_access(setting, *hold, *keys),
        Stage::PutCount { hold, keys } => store(
            count_slot(hold.row.kind, hold.row.base),
            u64::from(count(hold.row.kind, *keys)) + 1,
        ),
        Stage::ClaimGrow { hold, .. } => Access::Add {
            word: claims(next_kind(hold.row.kind)),
        },
        Stage::GrowInfo { growing } => {
            let row = growing.hold.row;
            let info = moved_info(row.kind, row.info, next_kind(row.kind));
            store(info_slot(growing.base), info)
        }
        Stage::GrowLoad { growing, place, .. } => load(child_slot(
            growing.hold.row.kind,
            growing.hold.row.base,
            *place,
        )),
        Stage::GrowStore {
            growing,
            place,
            left,
            word,
        } => store(copy_slot(setting, *growing, *place, *left), *word),
        Stage::SpreadIndex { growing, place, .. } => {
            load(index_slot(growing.hold.row.base, 8 * *place))
        }
        Stage::SpreadLoad { spread, entry, .. } => {
            let place = entry_at(spread.word, *entry).saturating_sub(1);
            load(child_slot(Kind::FortyEight, spread.growing.hold.row.base, place))
        }
        Stage::SpreadStore {
            spread,
            entry,
            word,
            ..
        } => {
            let byte = 8 * spread.place + *entry;
            store(child_slot(Kind::Full, spread.growing.base, byte), *word)
        }
        Stage::GrowLeaf { growing } => grow_leaf_access(setting, *growing),
        Stage::GrowKeys {
            growing,
            place,
            left,
        } => key_word_access(setting, *growing, *place, *left),
        Stage::GrowCount { growing } => grow_count_access(setting, *growing),
        Stage::Hang { growing } => store(growing.slot, row_word(growing.base)),
        Stage::Obsolete { hold } => {
            store(hold.row.base as usize, version_obsolete(hold.row.kept))
        }
        Stage::Unlock { hold, .. } => unlock(hold.row),
        Stage::Over { .. } => unreachable!(),
    }
}

fn exchange(word: usize, version: u64) -> Access
    ensures { Swap word version (locked_word version) ≡ result }
{
    Access::Exchange {
        word,
        from: version,
        to: version_locked(version),
    }
}

fn load(word: usize) -> Access
    ensures { access_of (load_of word) ≡ Some result }
{
    Access::Load { word }
}

fn store(word: usize, value: u64) -> Access
    ensures { access_of (store_of word value) ≡ Some result }
{
    Access::Store { word, value }
}

fn unlock(row: HeldRow) -> Access
    ensures { access_of (unlock_of row) ≡ Some result }
{
    Access::Store {
        word: row.base as usize,
        value: version_released(row.kept),
    }
}

fn check(row: HeldRow) -> Access
    ensures { access_of (check_turn row) ≡ Some result }
{
    Access::Load {
        word: row.base as usize,
    }
}
