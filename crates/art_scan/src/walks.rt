// Where a scan goes on: the next child, index word or row, or its end.
ghost use Rattle.std.specs.Prelude.{◌≡◌, ◌+◌, ◌<◌, ◌≤◌, true, vec_len, vec_capacity};
ghost use Rattle.art_control_states.specs.Automaton.{keys_one as one_word};
ghost use Rattle.art_control_states.specs.Scans.{Walk, at, with_frame, frame_of as frame_from, close_at, resume_at, row_begins, visit_at, enter_at};
ghost use Rattle.art_control_states.specs.Settings.{setting_of};
ghost use Rattle.art_scan.specs.Sound.{is_sound_frame, is_sound_step};
ghost use Rattle.art_scan.specs.Walks.{walk_of, words_that_follow};

use crate::children::{go_after, go_to_child, go_to_word};
use crate::lists::Lists;
use crate::met_bytes::is_met;
use art_control_states::{Entry, Frame, HeldRow, Keys, ScanStep, Setting};
use art_rows::Kind;

/// A row is locked or waited for.
pub fn enter(setting: &Setting, entry: Entry, step: &mut ScanStep)
    ensures step { (w : Walk) → at step.new w ≡ enter_at (setting_of setting.now) entry w }
    ensures sound { is_sound_step step.new ≡ true }
{
    *step = if setting.locks() {
        ScanStep::Lock { entry, first: true }
    } else {
        ScanStep::Wait { entry }
    };
}

/// Nothing is left to walk: the rows are released, or checked, or left as they are.
pub fn close(setting: &Setting, lists: &mut Lists, step: &mut ScanStep)
    ensures step { at step.new (walk_of lists.new) ≡ close_at (setting_of setting.now) (walk_of lists.old) }
    ensures sound { is_sound_step step.new ≡ true }
{
    if !setting.locks() && setting.leaves_out_check() {
        lists.release_all();
    }
    lists.release(step);
}

/// The walk goes on at the lowest row of the way that has a child left.
pub fn resume(setting: &Setting, low: u64, high: u64, lists: &mut Lists, step: &mut ScanStep)
    ensures step { at step.new (walk_of lists.new) ≡ resume_at (setting_of setting.now) low high (walk_of lists.old) }
    ensures sound { is_sound_step step.new ≡ true }
{
    match lists.ascend() {
        None => close(setting, lists, step),
        Some(frame) => {
            if !go_to_child(low, high, &frame, step) {
                resume(setting, low, high, lists, step);
            }
        }
    }
}

/// It goes on at this row.
pub fn go_on(
    setting: &Setting,
    low: u64,
    high: u64,
    frame: &Frame,
    lists: &mut Lists,
    step: &mut ScanStep,
)
    requires { is_sound_frame frame.now ≡ true }
    ensures step { at step.new (walk_of lists.new) ≡ resume_at (setting_of setting.now) low high (with_frame (walk_of lists.old) frame.now) }
    ensures sound { is_sound_step step.new ≡ true }
{
    if !go_to_child(low, high, frame, step) {
        resume(setting, low, high, lists, step);
    }
}

/// The row's bytes are walked: the walk goes on after them.
#[inline(always)]
pub fn leave(
    setting: &Setting,
    low: u64,
    high: u64,
    row: HeldRow,
    index: u32,
    words: u32,
    lists: &mut Lists,
    step: &mut ScanStep,
)
    requires { index + words ≤ 31 }
    ensures step { at step.new (walk_of lists.new) ≡ words_that_follow row.kind low high row (walk_of lists.old) index words
        (resume_at (setting_of setting.now) low high (walk_of lists.old)) }
    ensures sound { is_sound_step step.new ≡ true }
{
    if !go_after(low, high, row, index, words, step) {
        resume(setting, low, high, lists, step);
    }
}

/// A row with what was read of it, from its first byte on.
pub fn frame_of(row: HeldRow, keys: Keys, index: u32, words: u32) -> Frame
    ensures { result ≡ frame_from row keys index words }
{
    Frame {
        row,
        keys,
        byte: 0,
        left: 256,
        index,
        words,
    }
}

/// What one word says.
pub fn keys_one(first: u64) -> Keys
    ensures { result ≡ one_word first }
{
    Keys {
        first,
        second: 0,
        count: 0,
    }
}

/// The walk of a row begins.
fn begin_row(
    setting: &Setting,
    low: u64,
    high: u64,
    row: HeldRow,
    lists: &mut Lists,
    step: &mut ScanStep,
)
    ensures step { at step.new (walk_of lists.new) ≡ row_begins row.kind (setting_of setting.now) low high row (walk_of lists.old) }
    ensures sound { is_sound_step step.new ≡ true }
{
    match row.kind {
        Kind::Four | Kind::Sixteen => *step = ScanStep::Keys { row },
        Kind::FortyEight => {
            if !go_to_word(low, high, row, 0, 32, step) {
                resume(setting, low, high, lists, step);
            }
        }
        Kind::Full => {
            go_on(
                setting,
                low,
                high,
                &frame_of(row, keys_one(0), 0, 0),
                lists,
                step,
            );
        }
    }
}

/// Meets a row. If no key can be below it, nothing more is loaded of it.
pub fn visit(
    setting: &Setting,
    low: u64,
    high: u64,
    row: HeldRow,
    lists: &mut Lists,
    step: &mut ScanStep,
)
    requires { vec_len lists.old.rows < vec_capacity lists.old.rows }
    ensures step { at step.new (walk_of lists.new) ≡ visit_at (setting_of setting.now) low high row (walk_of lists.old) }
    ensures sound { is_sound_step step.new ≡ true }
{
    lists.meet(row);
    if is_met(low, high, row) {
        begin_row(setting, low, high, row, lists, step);
    } else {
        resume(setting, low, high, lists, step);
    }
}
