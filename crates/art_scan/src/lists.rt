// The rows that a scan has read, the pairs that it has found, and its way.
ghost use Rattle.std.specs.Prelude.{◌≡◌, ◌≤◌, true, length, map, All};
ghost use Rattle.art_rows.specs.Scan.{has_row};
ghost use Rattle.art_control_states.specs.Stages.{row_at};
ghost use Rattle.art_scan.specs.Sound.{is_sound_frame, is_sound_step};

use art_control_states::{Frame, HeldRow, ScanStep};
use art_rows::MAX_LEAVES;
use events::{Memory, Pairs};
use std::alloc::Global;

/// What a scan stores in addition to its step.
#[derive(Drop)]
pub struct Lists {
    pub(crate) rows: Vec<HeldRow>,
    /// How many of the rows are released.
    pub(crate) released: usize,
    pub(crate) pairs: Vec<(u64, u64)>,
    /// The rows on the way, the root first.
    pub(crate) way: Vec<Frame>,
    ghost within: { released ≤ length rows.items },
    ghost sound: { All (λ f. is_sound_frame f ≡ true) way.items },
}

/// Is a row of this base among them?
fn is_among(rows: &[HeldRow], base: u32) -> bool
    ensures { result ≡ has_row base (map row_at rows.now) }
{
    match rows {
        [] => false,
        [row, rest @ ..] => row.base == base || is_among(rest, base),
    }
}

impl Lists {
    ghost use Rattle.std.specs.Prelude.{◌<◌, ◌-◌, Some, None, OnOk, IfSome, [], vec_len, vec_capacity};
    ghost use Rattle.art_control_states.specs.Scans.{at, no_walk, with_held, with_frame, release_rows};
    ghost use Rattle.art_scan.specs.Walks.{walk_of, with_pair, HasRoomForOneMore};

    /// No row, no pair and no way.
    pub fn new(alloc: Global) -> Lists
        ensures { walk_of result ≡ no_walk }
    {
        Lists {
            rows: Vec::new(alloc),
            released: 0,
            pairs: Vec::new(alloc),
            way: Vec::new(alloc),
        }
    }

    /// The room for a row, a pair and a row on the way.
    #[inline(always)]
    pub fn reserve(&mut self) -> Result<(), Memory>
        ensures room { OnOk result (HasRoomForOneMore self.new) }
        ensures same { walk_of self.new ≡ walk_of self.old }
    {
        self.rows.reserve(1)?;
        self.pairs.reserve(1)?;
        self.way.reserve(1)?;
        Ok(())
    }

    /// Notes a row that is met. One that was met before keeps its first place.
    pub fn meet(&mut self, row: HeldRow)
        requires { vec_len self.old.rows < vec_capacity self.old.rows }
        ensures met { walk_of self.new ≡ with_held row (walk_of self.old) }
        ensures way { self.new.way ≡ self.old.way }
    {
        if !is_among(&self.rows[self.released..], row.base) {
            match self.rows.push(row) {
                Ok(()) => {}
                Err(_) => unreachable!(),
            }
        }
    }

    /// Notes a leaf that is met, if its key is in the range and there is room for its pair.
    pub fn count(&mut self, low: u64, high: u64, key: u32, value: u32)
        requires { vec_len self.old.pairs < vec_capacity self.old.pairs }
        ensures { walk_of self.new ≡ with_pair low high key value (walk_of self.old) }
    {
        let key = u64::from(key);
        if low <= key && key <= high && self.pairs.len() < MAX_LEAVES {
            match self.pairs.push((key, u64::from(value))) {
                Ok(()) => {}
                Err(_) => unreachable!(),
            }
        }
    }

    /// The way goes on with a row.
    pub fn descend(&mut self, frame: &Frame)
        requires room { vec_len self.old.way < vec_capacity self.old.way }
        requires sound { is_sound_frame frame.now ≡ true }
        ensures { walk_of self.new ≡ with_frame (walk_of self.old) frame.now }
    {
        match self.way.push(*frame) {
            Ok(()) => {}
            Err(_) => unreachable!(),
        }
    }

    /// Goes back to the lowest row of the way.
    pub fn ascend(&mut self) -> Option<Frame>
        ensures none { result ≡ None → ((walk_of self.old).way ≡ []) × (walk_of self.new ≡ walk_of self.old) }
        ensures some { (frame : Frame) → result ≡ Some frame → walk_of self.old ≡ with_frame (walk_of self.new) frame }
        ensures sound { IfSome result (λ frame. is_sound_frame frame ≡ true) }
        ensures shorter { vec_len self.new.way ≡ vec_len self.old.way - 1 }
    {
        self.way.pop()
    }

    /// Moves the step to the release of the first row that is not released yet, or to the end if
    /// there is none.
    pub fn release(&mut self, step: &mut ScanStep)
        ensures step { at step.new (walk_of self.new) ≡ release_rows (walk_of self.old).rows (walk_of self.old).pairs }
        ensures sound { is_sound_step step.new ≡ true }
    {
        self.way.clear();
        if self.released < self.rows.len() {
            let row = self.rows[self.released];
            self.released += 1;
            *step = ScanStep::Release { row };
        } else {
            *step = ScanStep::Over;
        }
    }

    /// Marks all rows as released.
    pub fn release_all(&mut self)
        ensures { walk_of self.new ≡ record { rows = []; pairs = (walk_of self.old).pairs; way = (walk_of self.old).way } }
    {
        self.released = self.rows.len();
    }

    /// The scan starts again.
    pub fn forget(&mut self)
        ensures { walk_of self.new ≡ no_walk }
    {
        self.rows.clear();
        self.released = 0;
        self.pairs.clear();
        self.way.clear();
    }

    /// The pairs that were found.
    pub fn into_pairs(self) -> Pairs
        ensures { result ≡ (walk_of self).pairs }
    {
        Pairs::new(self.pairs)
    }
}
