// The stage that comes after a word.
ghost use Rattle.std.specs.Prelude.{◌≡◌, ◌+◌, true, nat_le, Some, None};
ghost use Rattle.art_rows.specs.Words.{child_of, child_word, is_small_child};
ghost use Rattle.art_rows.specs.Rows.{locks, releases_early, is_insert};
ghost use Rattle.art_rows.specs.Steps.{reply_of};
ghost use Rattle.art_control_states.specs.Automaton.{turn_at, stage_after, pair_after, put_keys_after, entries_at};
ghost use Rattle.art_control_states.specs.declared.stage.Stage.TheVariants.{ClaimPair as Claiming, ClaimGrow as ClaimingNext, Unlock as UnlockAll};
ghost use Rattle.art_control_states.specs.declared.stage.Stage.TheVariants.{Hang as HangRow};
ghost use Rattle.art_control_states.specs.declared.stage.Stage.TheVariants.{Lock, Exchange, Wait, Between, Check, FindMore, FindCount, Slot};
ghost use Rattle.art_control_states.specs.declared.stage.Stage.TheVariants.{CheckLast};
ghost use Rattle.art_control_states.specs.declared.stage.Stage.TheVariants.{Take, PutLoad, PutKeys, PutCount, GrowLoad, SpreadLoad, Obsolete};
ghost use Rattle.art_control_states.specs.declared.stage.Target.TheVariants.{Below};
ghost use Rattle.art_control_states.specs.declared.stage.Outcome.TheVariants.{Value, Refused};
ghost use Rattle.art_control_states.specs.Sound.{is_sound, is_sound_target, is_sound_finding, is_sound_work, has_keys};
ghost use Rattle.art_control_states.specs.Settings.{setting_of};

use crate::found::{
    find_checked, find_done, first_loaded, info_loaded, keys_loaded, over, row_entered,
};
use crate::grown::{copy_on, entries, fill, keys_stored, leaf_stored, spread_on};
use crate::works::{moves, release, row_taken};
use art_control_states::{
    Down, Finding, Growing, HeldRow, Hold, Keys, Outcome, Pair, PairWord, Position, Setting,
    Spread, Stage, Taking, Target, next_kind,
};
use art_rows::{Kind, child_word, row_word, version_is_locked, version_is_obsolete};

/// The stage of LOCK after a load of the version.
fn lock_loaded(setting: &Setting, target: &Target, version: u64, stage: &mut Stage)
    requires { is_sound_target target.now ≡ true }
    ensures stage { stage.new ≡ stage_after (setting_of setting.now) (Lock target.now true) version }
    ensures sound { is_sound stage.new ≡ true }
{
    if version_is_locked(version) {
        *stage = Stage::Lock {
            target: *target,
            first: false,
        };
    } else {
        *stage = Stage::Exchange {
            target: *target,
            version,
        };
    }
}

/// The stage of LOCK after an exchange of the version.
fn lock_exchanged(setting: &Setting, target: &Target, version: u64, got: u64, stage: &mut Stage)
    requires { is_sound_target target.now ≡ true }
    ensures stage { stage.new ≡ stage_after (setting_of setting.now) (Exchange target.now version) got }
    ensures sound { is_sound stage.new ≡ true }
{
    if got == version {
        row_entered(setting, target, version, stage);
    } else {
        *stage = Stage::Lock {
            target: *target,
            first: false,
        };
    }
}

/// The stage of WAIT after a load of the version.
fn wait_loaded(setting: &Setting, target: &Target, version: u64, stage: &mut Stage)
    requires { is_sound_target target.now ≡ true }
    ensures stage { stage.new ≡ stage_after (setting_of setting.now) (Wait target.now) version }
    ensures sound { is_sound stage.new ≡ true }
{
    if version_is_locked(version) {
        *stage = Stage::Wait { target: *target };
    } else if version_is_obsolete(version) {
        *stage = setting.start();
    } else {
        row_entered(setting, target, version, stage);
    }
}

fn between_passed(setting: &Setting, down: &Down, kept: u64, got: u64, stage: &mut Stage)
    ensures stage { stage.new ≡ stage_after (setting_of setting.now) (Between down.now kept) got }
    ensures sound { is_sound stage.new ≡ true }
{
    if setting.locks() || got == down.above.kept {
        *stage = Stage::Info { down: *down, kept };
    } else {
        *stage = setting.start();
    }
}

/// The word of a child that is moved: as it was read, or 0 if it is of no form.
fn moved_word(setting: &Setting, word: u64) -> u64
    ensures { result ≡ child_word (child_of setting.now.shape word) }
{
    child_word(setting.shape.child(word))
}

/// Moves on to the stage that PAIR has after its claim got this number.
fn pair_claimed(setting: &Setting, hold: &Hold, pair: &Pair, number: u64, stage: &mut Stage)
    requires { is_small_child pair.now.child ≡ true }
    ensures stage { stage.new ≡ stage_after (setting_of setting.now) (Claiming hold.now pair.now) number }
    ensures sound { is_sound stage.new ≡ true }
{
    if number < setting.shape.rows(Kind::Four) {
        *stage = Stage::StorePair {
            hold: *hold,
            pair: *pair,
            base: setting.shape.base(Kind::Four, number),
            word: PairWord::Info,
        };
    } else {
        refuse(hold, stage);
    }
}

/// The stage of GROW after its claim.
fn grow_claimed(
    setting: &Setting,
    hold: &Hold,
    slot: usize,
    keys: &Keys,
    number: u64,
    stage: &mut Stage,
)
    ensures stage { stage.new ≡ stage_after (setting_of setting.now) (ClaimingNext hold.now slot keys.now) number }
    ensures sound { is_sound stage.new ≡ true }
{
    let kind = next_kind(hold.row.kind);
    if number < setting.shape.rows(kind) {
        *stage = Stage::GrowInfo {
            growing: Growing {
                hold: *hold,
                slot,
                keys: *keys,
                base: setting.shape.base(kind, number),
            },
        };
    } else {
        refuse(hold, stage);
    }
}

fn put_keys_stored(setting: &Setting, hold: &Hold, keys: &Keys, stage: &mut Stage)
    ensures stage { stage.new ≡ put_keys_after (locks setting.now.variant) hold.now.row.kind hold.now keys.now }
    ensures sound { is_sound stage.new ≡ true }
{
    match hold.row.kind {
        Kind::Four => put_done(hold, stage),

        Kind::Sixteen => *stage = Stage::PutMore {
            hold: *hold,
            keys: *keys,
        },

        Kind::FortyEight => *stage = Stage::PutCount {
            hold: *hold,
            keys: *keys,
        },

        Kind::Full => release(
            setting,
            &hold.above,
            Some(Outcome::Value { value: None }),
            stage,
        ),
    }
}

fn row_checked(setting: &Setting, place: &Position, finding: &Finding, got: u64, stage: &mut Stage)
    requires { is_sound_finding finding.now ≡ true }
    ensures stage { stage.new ≡ stage_after (setting_of setting.now) (Check place.now finding.now) got }
    ensures sound { is_sound stage.new ≡ true }
{
    if got == place.row.kept {
        find_checked(setting, place, finding, stage);
    } else {
        *stage = setting.start();
    }
}

/// Moves a call to the stage after an access that got this word.
pub fn make_stage(setting: &Setting, stage: &mut Stage, got: u64)
    requires sound { is_sound stage.old ≡ true }
    requires asks { reply_of (turn_at (setting_of setting.now) stage.old) ≡ None }
    ensures stage { stage.new ≡ stage_after (setting_of setting.now) stage.old got }
    ensures sound { is_sound stage.new ≡ true }
{
    // The stage is read from a copy, and the next one is written in its place.
    let old = *stage;
    match &old {
        Stage::Lock { target, .. } => lock_loaded(setting, target, got, stage),
        Stage::Exchange { target, version } => lock_exchanged(
            setting, target, *version, got, stage,
        ),
        Stage::Wait { target } => wait_loaded(setting, target, got, stage),
        Stage::Leave { down } => row_left(down, stage),
        Stage::Between { down, kept } => between_passed(setting, down, *kept, got, stage),
        Stage::Info { down, kept } => info_loaded(setting, down, *kept, got, stage),
        Stage::Find { place } => first_loaded(setting, place, got, stage),
        Stage::FindKeys { place, count } => first_found(place, *count, got, stage),
        Stage::FindMore {
            place,
            count,
            first,
        } => more_found(setting, place, *count, *first, got, stage),
        Stage::FindCount { place, index } => count_found(setting, place, *index, got, stage),
        Stage::Slot { place, slot } => child_found(setting, place, *slot, got, stage),
        Stage::Check { place, finding } => row_checked(setting, place, finding, got, stage),
        Stage::CheckLast { row } => last_checked(setting, row, got, stage),
        Stage::LetGo { place, finding, .. } => find_checked(setting, place, finding, stage),
        Stage::Take { taking } => take_exchanged(setting, taking, got, stage),
        Stage::Write { hold, reply, .. } => answer_after_write(hold, *reply, stage),
        Stage::ClaimPair { hold, pair } => pair_claimed(setting, hold, pair, got, stage),
        Stage::StorePair {
            hold,
            pair,
            base,
            word,
        } => pair_stored(hold, pair, *base, *word, stage),
        Stage::PutLoad { hold, keys, left } => put_loaded(setting, hold, keys, *left, got, stage),
        Stage::PutStore {
            hold,
            keys,
            left,
            ..
        } => moves(hold, keys, *left, stage),
        Stage::PutLeaf { hold, keys } => leaf_put(hold, keys, stage),
        Stage::PutKeys { hold, keys } => put_keys_stored(setting, hold, keys, stage),
        Stage::PutMore { hold, keys } => keys_put(hold, keys, stage),
        Stage::PutCount { hold, .. } => put_done(hold, stage),
        Stage::ClaimGrow { hold, slot, keys } => grow_claimed(
            setting, hold, *slot, keys, got, stage,
        ),
        Stage::GrowInfo { growing } => fill(growing, stage),
        Stage::GrowLoad {
            growing,
            place,
            left,
        } => grow_loaded(setting, growing, *place, *left, got, stage),
        Stage::GrowStore {
            growing,
            place,
            left,
            ..
        } => copy_on(growing, *place, *left, stage),
        Stage::SpreadIndex {
            growing,
            place,
            left,
        } => index_loaded(growing, *place, *left, got, stage),
        Stage::SpreadLoad {
            spread,
            entry,
            after,
        } => spread_loaded(setting, spread, *entry, *after, got, stage),
        Stage::SpreadStore {
            spread,
            entry,
            after,
            ..
        } => spread_on(spread, *entry, *after, stage),
        Stage::GrowLeaf { growing } => leaf_stored(growing, stage),
        Stage::GrowKeys {
            growing,
            place,
            left,
        } => keys_stored(growing, *place, *left, stage),
        Stage::GrowCount { growing } => grow_counted(growing, stage),
        Stage::Hang { growing } => grow_hung(&growing.hold, stage),
        Stage::Obsolete { hold } => obsolete_left(setting, hold, stage),
        Stage::Unlock { hold, outcome } => release(setting, &hold.above, *outcome, stage),
        Stage::Over { .. } => unreachable!(),
    }
}

/// The stage of PAIR after a store of one of the words.
fn pair_stored(hold: &Hold, pair: &Pair, base: u32, word: PairWord, stage: &mut Stage)
    requires { is_small_child pair.now.child ≡ true }
    ensures stage { stage.new ≡ pair_after hold.now pair.now base word }
    ensures sound { is_sound stage.new ≡ true }
{
    let word = match word {
        PairWord::Info => PairWord::Keys,
        PairWord::Keys => PairWord::Lesser,
        PairWord::Lesser => PairWord::Greater,
        PairWord::Greater => {
            *stage = Stage::Write {
                hold: *hold,
                slot: pair.slot,
                word: row_word(base),
                reply: None,
            };
            return;
        }
    };
    *stage = Stage::StorePair {
        hold: *hold,
        pair: *pair,
        base,
        word,
    };
}

/// The stage of a refused call, which still holds its rows.
fn refuse(hold: &Hold, stage: &mut Stage)
    ensures stage { stage.new ≡ UnlockAll hold.now (Some Refused) }
    ensures sound { is_sound stage.new ≡ true }
{
    *stage = Stage::Unlock {
        hold: *hold,
        outcome: Some(Outcome::Refused),
    };
}

/// The stage of an insert that has put its leaf, still holds its row and answers that the key had
/// no value.
fn put_done(hold: &Hold, stage: &mut Stage)
    ensures stage { stage.new ≡ UnlockAll hold.now (Some (Value None)) }
    ensures sound { is_sound stage.new ≡ true }
{
    *stage = Stage::Unlock {
        hold: *hold,
        outcome: Some(Outcome::Value { value: None }),
    };
}

// The stage after an access that makes a stage of several parts. Each case has a function of its
// own: when a function is entered, it clears the room of all that it may make.

fn row_left(down: &Down, stage: &mut Stage)
    ensures stage { stage.new ≡ Lock (Below down.now) true }
    ensures sound { is_sound stage.new ≡ true }
{
    *stage = Stage::Lock {
        target: Target::Below { down: *down },
        first: true,
    };
}

fn first_found(place: &Position, count: u64, first: u64, stage: &mut Stage)
    ensures stage { stage.new ≡ FindMore place.now count first }
    ensures sound { is_sound stage.new ≡ true }
{
    *stage = Stage::FindMore {
        place: *place,
        count,
        first,
    };
}

fn more_found(
    setting: &Setting,
    place: &Position,
    count: u64,
    first: u64,
    second: u64,
    stage: &mut Stage,
)
    ensures stage { stage.new ≡ stage_after (setting_of setting.now) (FindMore place.now count first) second }
    ensures sound { is_sound stage.new ≡ true }
{
    let keys = Keys {
        first,
        second,
        count,
    };
    keys_loaded(setting, place, keys, stage);
}

fn count_found(setting: &Setting, place: &Position, index: u64, count: u64, stage: &mut Stage)
    ensures stage { stage.new ≡ stage_after (setting_of setting.now) (FindCount place.now index) count }
    ensures sound { is_sound stage.new ≡ true }
{
    let keys = Keys {
        first: index,
        second: 0,
        count,
    };
    find_done(setting, place, Finding::Lacks { keys }, stage);
}

fn child_found(setting: &Setting, place: &Position, slot: usize, word: u64, stage: &mut Stage)
    ensures stage { stage.new ≡ stage_after (setting_of setting.now) (Slot place.now slot) word }
    ensures sound { is_sound stage.new ≡ true }
{
    let child = setting.shape.child(word);
    find_done(setting, place, Finding::Has { slot, child }, stage);
}

fn last_checked(setting: &Setting, row: &HeldRow, got: u64, stage: &mut Stage)
    ensures stage { stage.new ≡ stage_after (setting_of setting.now) (CheckLast row.now) got }
    ensures sound { is_sound stage.new ≡ true }
{
    if got == row.kept {
        over(None, stage);
    } else {
        *stage = setting.start();
    }
}

fn take_exchanged(setting: &Setting, taking: &Taking, got: u64, stage: &mut Stage)
    requires { is_sound_work taking.now.work ≡ true }
    ensures stage { stage.new ≡ stage_after (setting_of setting.now) (Take taking.now) got }
    ensures sound { is_sound stage.new ≡ true }
{
    if got == taking.row.kept {
        row_taken(setting, taking, taking.row.kept, stage);
    } else {
        release(setting, &taking.held, None, stage);
    }
}

fn answer_after_write(hold: &Hold, reply: Option<u32>, stage: &mut Stage)
    ensures stage { stage.new ≡ UnlockAll hold.now (Some (Value reply)) }
    ensures sound { is_sound stage.new ≡ true }
{
    *stage = Stage::Unlock {
        hold: *hold,
        outcome: Some(Outcome::Value { value: reply }),
    };
}

fn put_loaded(setting: &Setting, hold: &Hold, keys: &Keys, left: u32, word: u64, stage: &mut Stage)
    requires { has_keys hold.now.row.kind ≡ true }
    ensures stage { stage.new ≡ stage_after (setting_of setting.now) (PutLoad hold.now keys.now left) word }
    ensures sound { is_sound stage.new ≡ true }
{
    *stage = Stage::PutStore {
        hold: *hold,
        keys: *keys,
        left,
        word: moved_word(setting, word),
    };
}

fn leaf_put(hold: &Hold, keys: &Keys, stage: &mut Stage)
    ensures stage { stage.new ≡ PutKeys hold.now keys.now }
    ensures sound { is_sound stage.new ≡ true }
{
    *stage = Stage::PutKeys {
        hold: *hold,
        keys: *keys,
    };
}

fn keys_put(hold: &Hold, keys: &Keys, stage: &mut Stage)
    ensures stage { stage.new ≡ PutCount hold.now keys.now }
    ensures sound { is_sound stage.new ≡ true }
{
    *stage = Stage::PutCount {
        hold: *hold,
        keys: *keys,
    };
}

fn grow_loaded(
    setting: &Setting,
    growing: &Growing,
    place: u32,
    left: u32,
    word: u64,
    stage: &mut Stage,
)
    requires { nat_le (place + left) 48 ≡ true }
    ensures stage { stage.new ≡ stage_after (setting_of setting.now) (GrowLoad growing.now place left) word }
    ensures sound { is_sound stage.new ≡ true }
{
    *stage = Stage::GrowStore {
        growing: *growing,
        place,
        left,
        word: moved_word(setting, word),
    };
}

fn index_loaded(growing: &Growing, place: u32, left: u32, word: u64, stage: &mut Stage)
    requires { nat_le (place + left) 31 ≡ true }
    ensures stage { stage.new ≡ entries_at (record { growing = growing.now; place = place; left = left; word = word }) 0 8 }
    ensures sound { is_sound stage.new ≡ true }
{
    let spread = Spread {
        growing: *growing,
        place,
        left,
        word,
    };
    entries(&spread, 0, 8, stage);
}

fn spread_loaded(
    setting: &Setting,
    spread: &Spread,
    entry: u32,
    after: u32,
    word: u64,
    stage: &mut Stage,
)
    requires words { nat_le (spread.now.place + spread.now.left) 31 ≡ true }
    requires few { nat_le (entry + after) 7 ≡ true }
    ensures stage { stage.new ≡ stage_after (setting_of setting.now) (SpreadLoad spread.now entry after) word }
    ensures sound { is_sound stage.new ≡ true }
{
    *stage = Stage::SpreadStore {
        spread: *spread,
        entry,
        after,
        word: moved_word(setting, word),
    };
}

fn obsolete_left(setting: &Setting, hold: &Hold, stage: &mut Stage)
    ensures stage { stage.new ≡ stage_after (setting_of setting.now) (Obsolete hold.now) 0 }
    ensures sound { is_sound stage.new ≡ true }
{
    release(
        setting,
        &hold.above,
        Some(Outcome::Value { value: None }),
        stage,
    );
}

fn grow_counted(growing: &Growing, stage: &mut Stage)
    ensures stage { stage.new ≡ HangRow growing.now }
    ensures sound { is_sound stage.new ≡ true }
{
    *stage = Stage::Hang { growing: *growing };
}

fn grow_hung(hold: &Hold, stage: &mut Stage)
    ensures stage { stage.new ≡ Obsolete hold.now }
    ensures sound { is_sound stage.new ≡ true }
{
    *stage = Stage::Obsolete { hold: *hold };
}
