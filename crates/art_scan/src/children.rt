// The next child of a row that a scan walks.
ghost use Rattle.std.specs.Prelude.{◌≡◌, ◌+◌, ◌<◌, ◌≤◌, ℕ, true, false, nat_le, Some, None, IfSome, if◌then◌else◌, ◌⊎◌};
ghost use Rattle.art_control_states.specs.Scans.{Walk, ScanAt, at, words_at, frame_at, child_from, lies, in_word, entry_slot};
ghost use Rattle.art_control_states.specs.declared.stage.ScanStep.TheVariants.{Child};
ghost use Rattle.art_scan.specs.Sound.{is_sound_frame, is_sound_step};
ghost use Rattle.art_scan.specs.Walks.{child_or, words_that_follow, frame_test, frame_slot, IsPassed};

use crate::met_bytes::is_met_in;
use crate::next_keys::{next_key4, next_key16};
use crate::ranges::{all_are_after, bytes_ahead};
use art_control_states::{Frame, HeldRow, ScanStep, child_slot};
use art_rows::{Kind, index_entry};

/// A byte that has a slot, and the slot; the byte is 256 if there is none.
#[derive(Clone, Copy)]
pub struct ByteSlot {
    pub byte: u32,
    pub slot: usize,
}

/// The next byte with an entry, from this one on among this many of a frame's index word, in kind
/// 48.
fn next_entry(frame: &Frame, byte: u32, left: u32) -> ByteSlot
    requires { byte + left ≤ 256 }
    ensures most { result.byte ≤ 256 }
    ensures from { byte ≤ result.byte }
    ensures within { result.byte < 256 → result.byte < byte + left }
    ensures slot { result.byte < 256 → entry_slot frame.now result.byte ≡ Some result.slot }
    ensures bare { (y : ℕ) → byte ≤ y → y < result.byte → y < byte + left → entry_slot frame.now y ≡ None }
{
    if left == 0 {
        return ByteSlot { byte: 256, slot: 0 };
    }
    let entry = index_entry(frame.keys.first, byte);
    if entry == 0 {
        next_entry(frame, byte + 1, left - 1)
    } else {
        ByteSlot {
            byte,
            slot: child_slot(Kind::FortyEight, frame.row.base, entry - 1),
        }
    }
}

/// The slot of the next byte among all entries of its index word.
fn next_in_word(frame: &Frame, byte: u32) -> ByteSlot
    requires index { frame.now.index ≤ 31 }
    requires byte { byte < 256 }
    ensures most { result.byte ≤ 256 }
    ensures from { byte ≤ result.byte }
    ensures word { result.byte < 256 → in_word frame.now.index result.byte ≡ true }
    ensures slot { result.byte < 256 → entry_slot frame.now result.byte ≡ Some result.slot }
    ensures bare { (y : ℕ) → byte ≤ y → y < result.byte → (entry_slot frame.now y ≡ None) ⊎ (in_word frame.now.index y ≡ false) }
{
    let first = 8 * frame.index;
    if byte < first {
        next_entry(frame, first, 8)
    } else if byte < first + 8 {
        next_entry(frame, byte, first + 8 - byte)
    } else {
        ByteSlot { byte: 256, slot: 0 }
    }
}

/// The next byte of a frame that has a slot, from this one on; in kind 48 among those of its index word.
fn next_slot(frame: &Frame, byte: u32) -> ByteSlot
    requires index { frame.now.index ≤ 31 }
    requires byte { byte < 256 }
    ensures most { result.byte ≤ 256 }
    ensures from { byte ≤ result.byte }
    ensures walked { result.byte < 256 → (low high : ℕ)
        → frame_test frame.now.row.kind low high frame.now result.byte ≡ lies low high frame.now result.byte }
    ensures slot { result.byte < 256 → frame_slot frame.now.row.kind frame.now result.byte ≡ Some result.slot }
    ensures bare { (y : ℕ) → byte ≤ y → y < result.byte → IsPassed frame.now.row.kind frame.now y }
{
    let row = frame.row;
    let keys = frame.keys;
    match row.kind {
        Kind::Four => {
            let key = next_key4(keys.first, byte);
            ByteSlot {
                byte: key.byte,
                slot: child_slot(Kind::Four, row.base, key.place),
            }
        }
        Kind::Sixteen => {
            let key = next_key16(keys.count, keys.first, keys.second, byte);
            ByteSlot {
                byte: key.byte,
                slot: child_slot(Kind::Sixteen, row.base, key.place),
            }
        }
        Kind::FortyEight => next_in_word(frame, byte),
        Kind::Full => ByteSlot {
            byte,
            slot: child_slot(Kind::Full, row.base, byte),
        },
    }
}

/// A byte that is walked, given as the byte after it, with how many bytes are left from there on,
/// and its slot.
#[derive(Clone, Copy)]
pub struct WalkedByte {
    pub next: u32,
    pub left: u32,
    pub slot: usize,
}

/// The next byte of a frame that is walked.
#[inline(always)]
fn next_walked(low: u64, high: u64, frame: &Frame) -> Option<WalkedByte>
    requires { is_sound_frame frame.now ≡ true }
    ensures next { (w : Walk) (other : ScanAt) → frame_at frame.now.row.kind low high w frame.now other
        ≡ child_or frame.now result w (words_that_follow frame.now.row.kind low high frame.now.row w frame.now.index frame.now.words other) }
    ensures left { IfSome result (λ n. nat_le (n.next + n.left) 256 ≡ true) }
{
    let ahead = bytes_ahead(low, frame.row, frame.byte, frame.left);
    if ahead == frame.left {
        return None;
    }
    let end = frame.byte + frame.left;
    let found = next_slot(frame, frame.byte + ahead);
    if found.byte >= end {
        return None;
    }
    if all_are_after(high, frame.row, found.byte) {
        return None;
    }
    Some(WalkedByte {
        next: found.byte + 1,
        left: end - found.byte - 1,
        slot: found.slot,
    })
}

/// Moves a frame to the next byte that is walked, and its slot. Returns whether there is one.
#[inline(always)]
pub fn move_on(low: u64, high: u64, frame: &mut Frame, slot: &mut usize) -> bool
    requires { is_sound_frame frame.old ≡ true }
    ensures found { result ≡ true → (w : Walk) (other : ScanAt) → frame_at frame.old.row.kind low high w frame.old other
        ≡ at (Child frame.new slot.new) w }
    ensures none { result ≡ false → (w : Walk) (other : ScanAt) → frame_at frame.old.row.kind low high w frame.old other
        ≡ words_that_follow frame.new.row.kind low high frame.new.row w frame.new.index frame.new.words other }
    ensures sound { is_sound_frame frame.new ≡ true }
{
    match next_walked(low, high, frame) {
        Some(byte) => {
            frame.byte = byte.next;
            frame.left = byte.left;
            *slot = byte.slot;
            true
        }
        None => false,
    }
}

/// Moves the step to the next index word that holds a byte, among this many from this one on.
/// Returns whether there is one.
pub fn go_to_word(
    low: u64,
    high: u64,
    row: HeldRow,
    index: u32,
    words: u32,
    step: &mut ScanStep,
) -> bool
    requires { index + words ≤ 32 }
    ensures next { (w : Walk) (other : ScanAt) → words_at low high row w index words other ≡ (if result then at step.new w else other) }
    ensures sound { result ≡ true → is_sound_step step.new ≡ true }
{
    if words == 0 {
        false
    } else if all_are_after(high, row, 8 * index) {
        false
    } else if is_met_in(low, high, row, index) {
        *step = ScanStep::Index {
            row,
            index,
            words: words - 1,
        };
        true
    } else {
        go_to_word(low, high, row, index + 1, words - 1, step)
    }
}

/// In kind 48, moves the step to the next index word after this one, among this many. Returns
/// whether there is one.
pub fn go_after(
    low: u64,
    high: u64,
    row: HeldRow,
    index: u32,
    words: u32,
    step: &mut ScanStep,
) -> bool
    requires { index + words ≤ 31 }
    ensures next { (w : Walk) (other : ScanAt) → words_that_follow row.kind low high row w index words other
        ≡ (if result then at step.new w else other) }
    ensures sound { result ≡ true → is_sound_step step.new ≡ true }
{
    match row.kind {
        Kind::FortyEight => go_to_word(low, high, row, index + 1, words, step),
        _ => false,
    }
}

/// Moves the step to the next child of a row, or to its next index word. Returns whether there is
/// one.
pub fn go_to_child(low: u64, high: u64, frame: &Frame, step: &mut ScanStep) -> bool
    requires { is_sound_frame frame.now ≡ true }
    ensures next { (w : Walk) (other : ScanAt) → frame_at frame.now.row.kind low high w frame.now other
        ≡ (if result then at step.new w else other) }
    ensures sound { result ≡ true → is_sound_step step.new ≡ true }
{
    match next_walked(low, high, frame) {
        Some(byte) => {
            *step = child_step(frame, byte);
            true
        }
        None => go_after(low, high, frame.row, frame.index, frame.words, step),
    }
}

/// The step to a byte of a frame.
fn child_step(frame: &Frame, byte: WalkedByte) -> ScanStep
    requires frame { is_sound_frame frame.now ≡ true }
    requires left { nat_le (byte.next + byte.left) 256 ≡ true }
    ensures step { (w : Walk) → at result w ≡ child_from w frame.now byte.next byte.left byte.slot }
    ensures sound { is_sound_step result ≡ true }
{
    ScanStep::Child {
        frame: Frame {
            row: frame.row,
            keys: frame.keys,
            byte: byte.next,
            left: byte.left,
            index: frame.index,
            words: frame.words,
        },
        slot: byte.slot,
    }
}
