// What comes after a word that a scan got.
ghost use Rattle.std.specs.Prelude.{◌≡◌, ◌+◌, ◌<◌, true, false, nat_le, vec_len, vec_capacity, if◌then◌else◌};
ghost use Rattle.art_control_states.specs.Stages.{held};
ghost use Rattle.art_rows.specs.Words.{is_locked};
ghost use Rattle.art_control_states.specs.declared.stage.Entry.TheVariants.{Below};
ghost use Rattle.art_control_states.specs.declared.stage.ScanStep.TheVariants.{Lock, Exchange, Wait, SecondKeys};
ghost use Rattle.art_control_states.specs.Scans.{Walk, at, step_after as step_thereafter, enter_at, entry_at, keys_after_word, release_after};
ghost use Rattle.art_control_states.specs.Scans.{scan_start};
ghost use Rattle.art_control_states.specs.Scans.{with_frame, resume_at, visit_at, frame_of as frame_from};
ghost use Rattle.art_control_states.specs.Settings.{setting_of};
ghost use Rattle.art_scan.specs.Sound.{is_sound_frame, is_sound_step};
ghost use Rattle.art_scan.specs.Walks.{walk_of, HasRoomForOneMore};

use crate::children::move_on;
use crate::lists::Lists;
use crate::walks::{close, enter, frame_of, go_on, keys_one, leave, visit};
use art_control_states::{Entry, Frame, HeldRow, Keys, ScanStep, Setting};
use art_rows::{Child, Kind, version_is_locked, version_is_obsolete};

/// The scan starts again at the root.
fn restart(setting: &Setting, lists: &mut Lists, step: &mut ScanStep)
    ensures step { at step.new (walk_of lists.new) ≡ scan_start (setting_of setting.now) }
    ensures sound { is_sound_step step.new ≡ true }
{
    lists.forget();
    enter(setting, Entry::Root, step);
}

/// A row is locked, or waited for, with this version.
fn enter_row(
    setting: &Setting,
    low: u64,
    high: u64,
    entry: Entry,
    kept: u64,
    lists: &mut Lists,
    step: &mut ScanStep,
)
    requires { vec_len lists.old.rows < vec_capacity lists.old.rows }
    ensures step { at step.new (walk_of lists.new) ≡ entry_at (setting_of setting.now) low high entry (walk_of lists.old) kept }
    ensures sound { is_sound_step step.new ≡ true }
{
    match entry {
        Entry::Root => {
            let row = HeldRow {
                base: setting.shape.root() as u32,
                kind: Kind::Full,
                info: 3,
                kept,
            };
            visit(setting, low, high, row, lists, step);
        }
        Entry::Below { base, kind } => *step = ScanStep::Info { base, kind, kept },
    }
}

/// A row's first word is read.
fn keys_read(
    setting: &Setting,
    low: u64,
    high: u64,
    row: HeldRow,
    word: u64,
    lists: &mut Lists,
    step: &mut ScanStep,
)
    ensures step { at step.new (walk_of lists.new) ≡ keys_after_word row.kind (setting_of setting.now) low high row (walk_of lists.old) word }
    ensures sound { is_sound_step step.new ≡ true }
{
    match row.kind {
        Kind::Sixteen => *step = ScanStep::FirstKeys { row, count: word },
        _ => go_on(
            setting,
            low,
            high,
            &frame_of(row, keys_one(word), 0, 0),
            lists,
            step,
        ),
    }
}

/// The first key word of a row of kind 16 is read.
fn first_read(row: HeldRow, count: u64, first: u64, step: &mut ScanStep)
    ensures step { (w : Walk) → at step.new w ≡ at (SecondKeys row count first) w }
    ensures sound { is_sound_step step.new ≡ true }
{
    *step = ScanStep::SecondKeys { row, count, first };
}

/// A row is released or checked.
fn leave_row(setting: &Setting, row: HeldRow, got: u64, lists: &mut Lists, step: &mut ScanStep)
    ensures step { at step.new (walk_of lists.new) ≡ release_after (setting_of setting.now) row (walk_of lists.old) got }
    ensures sound { is_sound_step step.new ≡ true }
{
    if setting.locks() {
        lists.release(step);
    } else if got == row.kept {
        close(setting, lists, step);
    } else {
        restart(setting, lists, step);
    }
}

/// An index word or the last key word of a row is read.
fn words_read(
    setting: &Setting,
    low: u64,
    high: u64,
    row: HeldRow,
    keys: Keys,
    index: u32,
    words: u32,
    lists: &mut Lists,
    step: &mut ScanStep,
)
    requires sound { nat_le (index + words) 31 ≡ true }
    ensures step { at step.new (walk_of lists.new) ≡ resume_at (setting_of setting.now) low high
        (with_frame (walk_of lists.old) (frame_from row keys index words)) }
    ensures sound { is_sound_step step.new ≡ true }
{
    go_on(
        setting,
        low,
        high,
        &frame_of(row, keys, index, words),
        lists,
        step,
    );
}

/// A row's info is read.
fn info_read(
    setting: &Setting,
    low: u64,
    high: u64,
    base: u32,
    kind: Kind,
    info: u64,
    kept: u64,
    lists: &mut Lists,
    step: &mut ScanStep,
)
    requires { vec_len lists.old.rows < vec_capacity lists.old.rows }
    ensures step { at step.new (walk_of lists.new) ≡ visit_at (setting_of setting.now) low high (held base kind info kept) (walk_of lists.old) }
    ensures sound { is_sound_step step.new ≡ true }
{
    let row = HeldRow {
        base,
        kind,
        info,
        kept,
    };
    visit(setting, low, high, row, lists, step);
}

/// The version of a row that is to be locked is read.
fn lock_read(entry: Entry, got: u64, step: &mut ScanStep)
    ensures step { (w : Walk) → at step.new w ≡ (if is_locked got then at (Lock entry false) w else at (Exchange entry got) w) }
    ensures sound { is_sound_step step.new ≡ true }
{
    *step = if version_is_locked(got) {
        ScanStep::Lock {
            entry,
            first: false,
        }
    } else {
        ScanStep::Exchange {
            entry,
            version: got,
        }
    };
}

/// Notes that the version of a row was exchanged, if it was this one.
fn take_exchange(
    setting: &Setting,
    low: u64,
    high: u64,
    entry: Entry,
    version: u64,
    got: u64,
    lists: &mut Lists,
    step: &mut ScanStep,
)
    requires { vec_len lists.old.rows < vec_capacity lists.old.rows }
    ensures step { at step.new (walk_of lists.new)
        ≡ step_thereafter (setting_of setting.now) low high (Exchange entry version) (walk_of lists.old) got }
    ensures sound { is_sound_step step.new ≡ true }
{
    if got == version {
        enter_row(setting, low, high, entry, version, lists, step);
    } else {
        *step = ScanStep::Lock {
            entry,
            first: false,
        };
    }
}

/// The version of a row is waited for.
fn take_wait(
    setting: &Setting,
    low: u64,
    high: u64,
    entry: Entry,
    got: u64,
    lists: &mut Lists,
    step: &mut ScanStep,
)
    requires { vec_len lists.old.rows < vec_capacity lists.old.rows }
    ensures step { at step.new (walk_of lists.new) ≡ step_thereafter (setting_of setting.now) low high (Wait entry) (walk_of lists.old) got }
    ensures sound { is_sound_step step.new ≡ true }
{
    if version_is_locked(got) {
        *step = ScanStep::Wait { entry };
    } else if version_is_obsolete(got) {
        restart(setting, lists, step);
    } else {
        enter_row(setting, low, high, entry, got, lists, step);
    }
}

/// The step after an access that got this word.
pub fn make_step(
    setting: &Setting,
    low: u64,
    high: u64,
    step: &mut ScanStep,
    got: u64,
    lists: &mut Lists,
)
    requires room { HasRoomForOneMore lists.old }
    requires sound { is_sound_step step.old ≡ true }
    ensures step { at step.new (walk_of lists.new) ≡ step_thereafter (setting_of setting.now) low high step.old (walk_of lists.old) got }
    ensures sound { is_sound_step step.new ≡ true }
{
    match step {
        ScanStep::Lock { entry, .. } => {
            let entry = *entry;
            lock_read(entry, got, step);
        }
        ScanStep::Exchange { entry, version } => {
            let (entry, version) = (*entry, *version);
            take_exchange(setting, low, high, entry, version, got, lists, step);
        }
        ScanStep::Wait { entry } => {
            let entry = *entry;
            take_wait(setting, low, high, entry, got, lists, step);
        }
        ScanStep::Info { base, kind, kept } => {
            let (base, kind, kept) = (*base, *kind, *kept);
            info_read(setting, low, high, base, kind, got, kept, lists, step);
        }
        ScanStep::Keys { row } => {
            let row = *row;
            keys_read(setting, low, high, row, got, lists, step);
        }
        ScanStep::FirstKeys { row, count } => {
            let (row, count) = (*row, *count);
            first_read(row, count, got, step);
        }
        ScanStep::SecondKeys { row, count, first } => {
            let row = *row;
            let keys = Keys {
                first: *first,
                second: got,
                count: *count,
            };
            words_read(setting, low, high, row, keys, 0, 0, lists, step);
        }
        ScanStep::Index { row, index, words } => {
            let (row, index, words) = (*row, *index, *words);
            words_read(
                setting,
                low,
                high,
                row,
                keys_one(got),
                index,
                words,
                lists,
                step,
            );
        }
        ScanStep::Child { frame, slot } => match setting.shape.child(got) {
            Child::Row { base, kind } => {
                lists.descend(frame);
                enter(setting, Entry::Below { base, kind }, step);
            }
            Child::Leaf { key, value } => {
                lists.count(low, high, key, value);
                if !move_on(low, high, frame, slot) {
                    let (row, index, words) = (frame.row, frame.index, frame.words);
                    leave(setting, low, high, row, index, words, lists, step);
                }
            }
            Child::Empty => {
                if !move_on(low, high, frame, slot) {
                    let (row, index, words) = (frame.row, frame.index, frame.words);
                    leave(setting, low, high, row, index, words, lists, step);
                }
            }
        },
        ScanStep::Release { row } => {
            let row = *row;
            leave_row(setting, row, got, lists, step);
        }
        ScanStep::Over => {}
    }
}
