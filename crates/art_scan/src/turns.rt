// The access of a scan's step, and its point.
ghost use Rattle.std.specs.Prelude.{◌≡◌, true, false, Some};
ghost use Rattle.art_rows.specs.Words.{locked_word};
ghost use Rattle.art_rows.specs.Steps.{access_of};
ghost use Rattle.art_rows.specs.Act.{point_of};
ghost use Rattle.art_rows.specs.Rows.{lock_point as point_of_lock, locks};
ghost use Rattle.art_control_states.specs.Scans.{Walk, at, entry_base as base_of_entry, scan_turn, keys_turn, release_turn};
ghost use Rattle.art_control_states.specs.Settings.{setting_of};
ghost use Rattle.art_rows.specs.declared.access.Access.TheVariants.{Load};
ghost use Rattle.art_scan.specs.Sound.{is_sound_step, is_over};

use art_control_states::{
    Entry, HeldRow, ScanStep, Setting, count_slot, index_slot, info_slot, keys_slot, more_keys_slot,
};
use art_rows::{Access, Kind, Point, version_locked, version_released};

fn entry_base(setting: &Setting, entry: Entry) -> usize
    ensures { result ≡ base_of_entry (setting_of setting.now) entry }
{
    match entry {
        Entry::Root => setting.shape.root(),
        Entry::Below { base, .. } => base as usize,
    }
}

fn first_word(row: HeldRow) -> usize
    ensures { access_of (keys_turn row.kind row) ≡ Some (Load result) }
{
    match row.kind {
        Kind::Sixteen => count_slot(Kind::Sixteen, row.base),
        _ => keys_slot(row.base),
    }
}

/// A row is unlocked at the end if reads are locked, and else checked.
fn release(setting: &Setting, row: HeldRow) -> Access
    ensures { access_of (release_turn (locks setting.now.variant) row) ≡ Some result }
{
    let word = row.base as usize;
    if setting.locks() {
        Access::Store {
            word,
            value: version_released(row.kept),
        }
    } else {
        Access::Load { word }
    }
}

/// The access of a step.
pub fn access_at(setting: &Setting, step: &ScanStep) -> Access
    requires asks { is_over step.now ≡ false }
    requires sound { is_sound_step step.now ≡ true }
    ensures { (w : Walk) → access_of (scan_turn (setting_of setting.now) (at step.now w)) ≡ Some result }
{
    let word = match step {
        ScanStep::Release { row } => return release(setting, *row),
        ScanStep::Exchange { entry, version } => {
            return Access::Exchange {
                word: entry_base(setting, *entry),
                from: *version,
                to: version_locked(*version),
            };
        }
        ScanStep::Lock { entry, .. } | ScanStep::Wait { entry } => entry_base(setting, *entry),
        ScanStep::Info { base, .. } => info_slot(*base),
        ScanStep::Keys { row } => first_word(*row),
        ScanStep::FirstKeys { row, .. } => keys_slot(row.base),
        ScanStep::SecondKeys { row, .. } => more_keys_slot(row.base),
        ScanStep::Index { row, index, .. } => index_slot(row.base, 8 * *index),
        ScanStep::Child { slot, .. } => *slot,
        ScanStep::Over => unreachable!(),
    };
    Access::Load { word }
}

fn lock_point(setting: &Setting, entry: Entry) -> Point
    ensures { result ≡ point_of_lock setting.now.shape (base_of_entry (setting_of setting.now) entry) }
{
    if entry_base(setting, entry) == setting.shape.root() {
        Point::LockRoot
    } else {
        Point::LockRow
    }
}

fn release_point(setting: &Setting, row: HeldRow) -> Point
    ensures { point_of (release_turn (locks setting.now.variant) row) ≡ Some result }
{
    let _row = row;
    if setting.locks() {
        Point::Unlock
    } else {
        Point::Check
    }
}

fn keys_point(row: HeldRow) -> Option<Point>
    ensures { result ≡ point_of (keys_turn row.kind row) }
{
    match row.kind {
        Kind::Four | Kind::Sixteen | Kind::FortyEight | Kind::Full => None,
    }
}

/// The point of a step.
pub fn point_at(setting: &Setting, step: ScanStep) -> Option<Point>
    ensures { (w : Walk) → result ≡ point_of (scan_turn (setting_of setting.now) (at step w)) }
{
    match step {
        ScanStep::Lock { entry, first: true } => Some(lock_point(setting, entry)),
        ScanStep::Keys { row } => keys_point(row),
        ScanStep::Release { row } => Some(release_point(setting, row)),
        ScanStep::Over => Some(Point::Answer),
        _ => None,
    }
}
