// The stages of a call after what it found on its way down.
ghost use Rattle.std.specs.Prelude.{◌≡◌, ◌<◌, ◌%◌, true, Some, None, if◌then◌else◌, slice_index};
ghost use Rattle.art_rows.specs.Words.{entries_of, is_small_child};
ghost use Rattle.art_rows.specs.Rows.{locks, releases_early, is_insert, leaves_out_check, path_differs_at};
ghost use Rattle.art_rows.specs.Updates.{overwriting};
ghost use Rattle.art_control_states.specs.Stages.{row_at, held, byte_in};
ghost use Rattle.art_control_states.specs.Automaton.{hold_alone, down_from, keys_one, seek_coupled, overwrite_unlocked, seek_unlocked};
ghost use Rattle.art_control_states.specs.Automaton.{insert_coupled};
ghost use Rattle.art_control_states.specs.Automaton.{let_go_at, place_coupled, grow_unlocked, insert_unlocked, leaf_work, pair_work, below_at};
ghost use Rattle.art_transitions.specs.Descents.{after_found, after_finding, after_words, after_index, after_first, after_arrival, after_entry};
ghost use Rattle.art_transitions.specs.Descents.{after_info};
ghost use Rattle.art_control_states.specs.declared.stage.Stage.TheVariants.{Unlock as UnlockAll, Over as Ended, Wait as WaitFor, Write as WriteTo};
ghost use Rattle.art_control_states.specs.declared.stage.Stage.TheVariants.{Leave, Lock};
ghost use Rattle.art_control_states.specs.declared.stage.Finding.TheVariants.{Has};
ghost use Rattle.art_rows.specs.declared.table.Child.TheVariants.{Leaf};
ghost use Rattle.art_control_states.specs.declared.stage.Target.TheVariants.{Below as BelowRow};
ghost use Rattle.art_control_states.specs.declared.stage.Outcome.TheVariants.{Value};
ghost use Rattle.art_control_states.specs.Sound.{is_sound, is_sound_finding, is_sound_work, is_sound_target};
ghost use Rattle.art_control_states.specs.Settings.{setting_of};

use crate::works::{begin_work, row_taken, take_above, take_alone};
use art_control_states::{
    Down, Finding, HeldRow, Hold, Keys, Outcome, Pair, Position, Setting, Stage, Target, Work,
    child_slot, is_full, key_among,
};
use art_rows::{
    Child, Kind, child_word, index_entry, info_level, key_byte, key_difference, path_byte,
    path_difference,
};

/// The stage of a get or remove that locks once FIND is done.
fn seek_locked(setting: &Setting, row: HeldRow, finding: Finding, stage: &mut Stage)
    ensures stage { stage.new ≡ seek_coupled (releases_early setting.now.variant) (setting_of setting.now) row finding }
    ensures sound { is_sound stage.new ≡ true }
{
    match finding {
        Finding::Lacks { .. } => unlock_and_answer(row, None, stage),

        Finding::Has { slot, child } => match child {
            Child::Empty => unlock_and_answer(row, None, stage),

            Child::Row { base, kind } => leave(setting, down_from(row, slot, base, kind), stage),

            Child::Leaf { key, value } => {
                if key == setting.call.key() {
                    match setting.call.overwriting(value) {
                        Some(word) => write(row, slot, word, Some(value), stage),

                        None => unlock_and_answer(row, Some(value), stage),
                    }
                } else {
                    unlock_and_answer(row, None, stage);
                }
            }
        },
    }
}

/// The stage of a call that goes on to a row below, which is locked before or after the row above
/// is unlocked.
fn leave(setting: &Setting, down: Down, stage: &mut Stage)
    ensures stage { stage.new ≡ (if releases_early setting.now.variant then Leave down else Lock (BelowRow down) true) }
    ensures sound { is_sound stage.new ≡ true }
{
    if setting.releases_early() {
        *stage = Stage::Leave { down };
    } else {
        *stage = Stage::Lock {
            target: Target::Below { down },
            first: true,
        };
    }
}

/// The stage of a get or remove that does not lock once FIND is done and its row is checked.
fn seek_free(setting: &Setting, row: HeldRow, finding: Finding, stage: &mut Stage)
    ensures stage { stage.new ≡ seek_unlocked (setting_of setting.now) row finding }
    ensures sound { is_sound stage.new ≡ true }
{
    match finding {
        Finding::Lacks { .. } => over(None, stage),

        Finding::Has { slot, child } => match child {
            Child::Empty => over(None, stage),

            Child::Row { base, kind } => wait_below(down_from(row, slot, base, kind), stage),

            Child::Leaf { key, value } => {
                if key == setting.call.key() {
                    overwrite(setting, row, slot, value, stage);
                } else {
                    over(None, stage);
                }
            }
        },
    }
}

fn overwrite(setting: &Setting, row: HeldRow, slot: usize, value: u32, stage: &mut Stage)
    ensures stage { stage.new ≡ overwrite_unlocked (setting_of setting.now) row slot value (overwriting setting.now.call value) }
    ensures sound { is_sound stage.new ≡ true }
{
    match setting.call.overwriting(value) {
        Some(word) => take_alone(
            setting,
            row,
            Work::Write {
                slot,
                word,
                reply: Some(value),
            },
            stage,
        ),

        None => over(Some(value), stage),
    }
}

/// The work of an insert that writes its leaf into a slot.
fn leaf_work(setting: &Setting, slot: usize, reply: Option<u32>) -> Work
    ensures work { result ≡ leaf_work (setting_of setting.now) slot reply }
    ensures sound { is_sound_work result ≡ true }
{
    Work::Write {
        slot,
        word: child_word(setting.call.leaf()),
        reply,
    }
}

/// The work of an insert that hangs a row of two leaves into a slot: the one of another key, and its own.
fn pair_work(setting: &Setting, slot: usize, key: u32, value: u32) -> Work
    requires { is_small_child (Leaf key value) ≡ true }
    ensures work { result ≡ pair_work (setting_of setting.now) slot key value }
    ensures sound { is_sound_work result ≡ true }
{
    let level = key_difference(key, setting.call.key());
    Work::Pair {
        pair: Pair {
            slot,
            level,
            byte: key_byte(key, level),
            child: Child::Leaf { key, value },
        },
    }
}

/// The stage of an insert that locks once FIND is done and the row above is unlocked.
fn insert_locked(setting: &Setting, row: HeldRow, finding: Finding, stage: &mut Stage)
    requires { is_sound_finding finding ≡ true }
    ensures stage { stage.new ≡ insert_coupled (setting_of setting.now) row finding }
    ensures sound { is_sound stage.new ≡ true }
{
    let hold = Hold { row, above: None };
    match finding {
        Finding::Lacks { keys } => begin_work(setting, hold, Work::Put { keys }, stage),

        Finding::Has { slot, child } => match child {
            Child::Empty => begin_work(setting, hold, leaf_work(setting, slot, None), stage),

            Child::Row { base, kind } => *stage = Stage::Lock {
                target: Target::Below {
                    down: down_from(row, slot, base, kind),
                },
                first: true,
            },

            Child::Leaf { key, value } => {
                if key == setting.call.key() {
                    begin_work(setting, hold, leaf_work(setting, slot, Some(value)), stage);
                } else {
                    begin_work(setting, hold, pair_work(setting, slot, key, value), stage);
                }
            }
        },
    }
}

/// The stage of an insert that locks once FIND is done, before the row above is unlocked.
fn unlocked_above(
    setting: &Setting,
    row: HeldRow,
    above: Option<HeldRow>,
    slot: usize,
    finding: Finding,
    stage: &mut Stage,
)
    requires { is_sound_finding finding ≡ true }
    ensures stage { stage.new ≡ let_go_at (setting_of setting.now) row above slot finding }
    ensures sound { is_sound stage.new ≡ true }
{
    match above {
        None => insert_locked(setting, row, finding, stage),

        Some(above) => *stage = Stage::LetGo {
            above,
            place: Position {
                row,
                above: None,
                slot,
            },
            finding,
        },
    }
}

/// The stage of an insert that locks once FIND is done.
fn place_locked(setting: &Setting, place: Position, finding: Finding, stage: &mut Stage)
    requires { is_sound_finding finding ≡ true }
    ensures stage { stage.new ≡ place_coupled (setting_of setting.now) place finding }
    ensures sound { is_sound stage.new ≡ true }
{
    match finding {
        Finding::Has { .. } => unlocked_above(
            setting,
            place.row,
            place.above,
            place.slot,
            finding,
            stage,
        ),

        Finding::Lacks { keys } => {
            if is_full(place.row.kind, keys) {
                *stage = Stage::ClaimGrow {
                    hold: Hold {
                        row: place.row,
                        above: place.above,
                    },
                    slot: place.slot,
                    keys,
                };
            } else {
                unlocked_above(setting, place.row, place.above, place.slot, finding, stage);
            }
        }
    }
}

/// The stage of an insert that does not lock once its row is full.
fn grow_free(
    setting: &Setting,
    row: HeldRow,
    above: Option<HeldRow>,
    slot: usize,
    keys: Keys,
    stage: &mut Stage,
)
    ensures stage { stage.new ≡ grow_unlocked (setting_of setting.now) row above slot keys }
    ensures sound { is_sound stage.new ≡ true }
{
    match above {
        None => take_alone(setting, row, Work::Grow { slot, keys }, stage),

        Some(above) => take_above(setting, above, row, Work::Grow { slot, keys }, stage),
    }
}

/// The stage of an insert that does not lock once FIND is done and its row is checked.
fn insert_free(setting: &Setting, place: Position, finding: Finding, stage: &mut Stage)
    requires { is_sound_finding finding ≡ true }
    ensures stage { stage.new ≡ insert_unlocked (setting_of setting.now) place finding }
    ensures sound { is_sound stage.new ≡ true }
{
    let row = place.row;
    match finding {
        Finding::Lacks { keys } => {
            if is_full(row.kind, keys) {
                grow_free(setting, row, place.above, place.slot, keys, stage);
            } else {
                take_alone(setting, row, Work::Put { keys }, stage);
            }
        }
        Finding::Has { slot, child } => match child {
            Child::Empty => take_alone(setting, row, leaf_work(setting, slot, None), stage),

            Child::Row { base, kind } => wait_below(down_from(row, slot, base, kind), stage),

            Child::Leaf { key, value } => insert_at_leaf(setting, row, slot, key, value, stage),
        },
    }
}

/// The stage of an insert that does not lock, once FIND has found a leaf and its row is checked.
fn insert_at_leaf(
    setting: &Setting,
    row: HeldRow,
    slot: usize,
    key: u32,
    value: u32,
    stage: &mut Stage,
)
    requires { is_small_child (Leaf key value) ≡ true }
    ensures stage { stage.new ≡ insert_unlocked (setting_of setting.now) (record { row = row; above = None; slot = 0 })
        (Has slot (Leaf key value)) }
    ensures sound { is_sound stage.new ≡ true }
{
    if key == setting.call.key() {
        take_alone(setting, row, leaf_work(setting, slot, Some(value)), stage);
    } else if key_difference(key, setting.call.key()) <= info_level(row.kind, row.info) {
        *stage = Stage::Wait {
            target: Target::Root,
        };
    } else {
        take_alone(setting, row, pair_work(setting, slot, key, value), stage);
    }
}

/// The stage of a call once FIND is done and its row is checked, if its variant checks it.
pub(crate) fn find_checked(
    setting: &Setting,
    place: &Position,
    finding: &Finding,
    stage: &mut Stage,
)
    requires { is_sound_finding finding.now ≡ true }
    ensures stage { stage.new ≡ after_found (setting_of setting.now) place.now finding.now }
    ensures sound { is_sound stage.new ≡ true }
{
    match (setting.locks(), setting.is_insert()) {
        (true, false) => seek_locked(setting, place.row, *finding, stage),

        (true, true) => place_locked(setting, *place, *finding, stage),

        (false, false) => seek_free(setting, place.row, *finding, stage),

        (false, true) => insert_free(setting, *place, *finding, stage),
    }
}

/// The stage of a call once FIND is done.
pub(crate) fn find_done(setting: &Setting, place: &Position, finding: Finding, stage: &mut Stage)
    requires { is_sound_finding finding ≡ true }
    ensures stage { stage.new ≡ after_finding (setting_of setting.now) place.now finding }
    ensures sound { is_sound stage.new ≡ true }
{
    if setting.locks() || setting.leaves_out_check() {
        find_checked(setting, place, &finding, stage);
    } else {
        *stage = Stage::Check {
            place: *place,
            finding,
        };
    }
}

/// The stage of a call once the key words of its row are loaded.
pub(crate) fn keys_loaded(setting: &Setting, place: &Position, keys: Keys, stage: &mut Stage)
    ensures stage { stage.new ≡ after_words (setting_of setting.now) place.now keys }
    ensures sound { is_sound stage.new ≡ true }
{
    match key_among(place.row.kind, keys, setting.byte(place.row)) {
        None => find_done(setting, place, Finding::Lacks { keys }, stage),

        Some(i) => *stage = Stage::Slot {
            place: *place,
            slot: child_slot(place.row.kind, place.row.base, i),
        },
    }
}

/// The stage of a call once the index word of its byte is loaded.
fn index_found(setting: &Setting, place: &Position, index: u64, stage: &mut Stage)
    requires { place.now.row.kind ≡ Kind.FortyEight }
    ensures stage { stage.new ≡ after_index (setting_of setting.now) place.now index }
    ensures sound { is_sound stage.new ≡ true }
{
    let entry = index_entry(index, setting.byte(place.row));
    if entry != 0 {
        *stage = Stage::Slot {
            place: *place,
            slot: child_slot(Kind::FortyEight, place.row.base, entry - 1),
        };
    } else if setting.is_insert() {
        *stage = Stage::FindCount {
            place: *place,
            index,
        };
    } else {
        find_done(
            setting,
            place,
            Finding::Lacks {
                keys: keys_one(index),
            },
            stage,
        );
    }
}

/// The stage of a call once the first word of FIND is loaded.
pub(crate) fn first_loaded(setting: &Setting, place: &Position, got: u64, stage: &mut Stage)
    ensures stage { stage.new ≡ after_first (setting_of setting.now) place.now got }
    ensures sound { is_sound stage.new ≡ true }
{
    match place.row.kind {
        Kind::Four => keys_loaded(setting, place, keys_one(got), stage),

        Kind::Sixteen => *stage = Stage::FindKeys {
            place: *place,
            count: got,
        },

        Kind::FortyEight => index_found(setting, place, got, stage),

        Kind::Full => {
            let slot = child_slot(Kind::Full, place.row.base, setting.byte(place.row));
            let child = setting.shape.child(got);
            find_done(setting, place, Finding::Has { slot, child }, stage);
        }
    }
}

/// The stage of a call once the row below its own is locked or waited for.
fn row_reached(setting: &Setting, down: &Down, kept: u64, stage: &mut Stage)
    ensures stage { stage.new ≡ after_arrival (setting_of setting.now) down.now kept }
    ensures sound { is_sound stage.new ≡ true }
{
    let straight = if setting.locks() {
        setting.releases_early() || setting.is_insert()
    } else {
        setting.leaves_out_check()
    };
    if straight {
        *stage = Stage::Info { down: *down, kept };
    } else {
        *stage = Stage::Between { down: *down, kept };
    }
}

pub(crate) fn row_entered(setting: &Setting, target: &Target, kept: u64, stage: &mut Stage)
    requires { is_sound_target target.now ≡ true }
    ensures stage { stage.new ≡ after_entry (setting_of setting.now) target.now kept }
    ensures sound { is_sound stage.new ≡ true }
{
    match target {
        Target::Root => *stage = Stage::Find {
            place: Position {
                row: HeldRow {
                    base: setting.shape.root() as u32,
                    kind: Kind::Full,
                    info: 3,
                    kept,
                },
                above: None,
                slot: setting.shape.root(),
            },
        },

        Target::Below { down } => row_reached(setting, down, kept, stage),

        Target::Taken { taking } => row_taken(setting, taking, kept, stage),
    }
}

/// The stage of a call once the info of the row below its own is loaded.
pub(crate) fn info_loaded(setting: &Setting, down: &Down, kept: u64, info: u64, stage: &mut Stage)
    ensures stage { stage.new ≡ after_info (setting_of setting.now) down.now (held down.now.base down.now.kind info kept) }
    ensures sound { is_sound stage.new ≡ true }
{
    let row = HeldRow {
        base: down.base,
        kind: down.kind,
        info,
        kept,
    };
    match path_difference(down.kind, info, setting.call.key()) {
        None => *stage = Stage::Find {
            place: Position {
                row,
                above: Some(down.above),
                slot: down.slot,
            },
        },

        Some(level) => path_differs(setting, *down, row, level, stage),
    }
}

/// The stage of a call once its key has turned out to differ at this level from the path of the row
/// below its own.
fn path_differs(setting: &Setting, down: Down, row: HeldRow, level: u32, stage: &mut Stage)
    ensures stage { stage.new ≡ below_at (locks setting.now.variant) (is_insert setting.now.call) (setting_of setting.now) down row
        (Some level) }
    ensures sound { is_sound stage.new ≡ true }
{
    let pair = Pair {
        slot: down.slot,
        level,
        byte: path_byte(row.kind, row.info, level),
        child: Child::Row {
            base: row.base,
            kind: row.kind,
        },
    };
    match (setting.locks(), setting.is_insert()) {
        (true, false) => unlock_and_answer(row, None, stage),

        (true, true) => *stage = Stage::ClaimPair {
            hold: Hold {
                row,
                above: Some(down.above),
            },
            pair,
        },

        (false, false) => {
            if setting.leaves_out_check() {
                over(None, stage);
            } else {
                *stage = Stage::CheckLast { row };
            }
        }
        (false, true) => {
            if level <= info_level(down.above.kind, down.above.info) {
                *stage = Stage::Wait {
                    target: Target::Root,
                };
            } else {
                take_alone(setting, down.above, Work::Pair { pair }, stage);
            }
        }
    }
}

/// The stage of a call that unlocks its row and then answers this value.
fn unlock_and_answer(row: HeldRow, value: Option<u32>, stage: &mut Stage)
    ensures stage { stage.new ≡ UnlockAll (hold_alone row) (Some (Value value)) }
    ensures sound { is_sound stage.new ≡ true }
{
    *stage = Stage::Unlock {
        hold: Hold { row, above: None },
        outcome: Some(Outcome::Value { value }),
    };
}

pub(crate) fn over(value: Option<u32>, stage: &mut Stage)
    ensures stage { stage.new ≡ Ended (Value value) }
    ensures sound { is_sound stage.new ≡ true }
{
    *stage = Stage::Over {
        outcome: Outcome::Value { value },
    };
}

fn wait_below(down: Down, stage: &mut Stage)
    ensures stage { stage.new ≡ WaitFor (BelowRow down) }
    ensures sound { is_sound stage.new ≡ true }
{
    *stage = Stage::Wait {
        target: Target::Below { down },
    };
}

fn write(row: HeldRow, slot: usize, word: u64, reply: Option<u32>, stage: &mut Stage)
    ensures stage { stage.new ≡ WriteTo (hold_alone row) slot word reply }
    ensures sound { is_sound stage.new ≡ true }
{
    *stage = Stage::Write {
        hold: Hold { row, above: None },
        slot,
        word,
        reply,
    };
}

fn down_from(above: HeldRow, slot: usize, base: u32, kind: Kind) -> Down
    ensures { result ≡ down_from above slot base kind }
{
    Down {
        above,
        slot,
        base,
        kind,
    }
}

fn keys_one(first: u64) -> Keys
    ensures { result ≡ keys_one first }
{
    Keys {
        first,
        second: 0,
        count: 0,
    }
}
