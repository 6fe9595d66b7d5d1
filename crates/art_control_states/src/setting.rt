// A call on a key or between two, on a table of this shape, in a tree of this variant.
ghost use Rattle.art_rows.specs.Table.{IsWithinLimits};

use crate::keys_read::{count, key_among};
use crate::stage::{Growing, HeldRow, Hold, Keys, Stage, Target};
use art_rows::{
    Kind, Shape, TreeCall, Variant, info_level, key_byte, new_key_place, new_key_place16,
};
use events::Call;

/// A call, with the shape of its table and the variant of its tree.
#[derive(Clone, Copy)]
pub struct Setting {
    pub shape: Shape,
    pub variant: Variant,
    pub call: TreeCall,
    pub ghost within: { IsWithinLimits shape },
}

impl Setting {
    ghost use Rattle.std.specs.Prelude.{◌≡◌, ◌+◌, ◌<◌, ◌≤◌, ◌^◌, true, map};
    ghost use Rattle.art_rows.specs.Words.{packed};
    ghost use Rattle.art_rows.specs.Rows.{locks, releases_early, takes_unchecked, is_insert, leaves_out_check};
    ghost use Rattle.art_rows.specs.Steps.{numbers};
    ghost use Rattle.art_rows.specs.Updates.{new_entry};
    ghost use Rattle.art_control_states.specs.Stages.{target_base, byte_in, place_in};
    ghost use Rattle.art_control_states.specs.Automaton.{start_at};
    ghost use Rattle.art_control_states.specs.Settings.{setting_of, grown_keys};
    ghost use Rattle.art_control_states.specs.Sound.{is_sound, has_keys};

    /// Does the variant lock each row that it reads?
    pub fn locks(&self) -> bool
        ensures { result ≡ locks self.now.variant }
    {
        matches!(self.variant, Variant::Coupled | Variant::EarlyRelease)
    }

    /// Does it unlock a row before it locks the next?
    pub fn releases_early(&self) -> bool
        ensures { result ≡ releases_early self.now.variant }
    {
        matches!(self.variant, Variant::EarlyRelease)
    }

    /// Does it take a row whatever its version is?
    pub fn takes_unchecked(&self) -> bool
        ensures { result ≡ takes_unchecked self.now.variant }
    {
        matches!(self.variant, Variant::LockUnchecked)
    }

    /// Does it leave out the checks of this call?
    pub fn leaves_out_check(&self) -> bool
        ensures { result ≡ leaves_out_check self.now.variant self.now.call }
    {
        match self.variant {
            Variant::ReadUnchecked => matches!(self.call.call(), Call::Get(_)),
            Variant::ScanUnvalidated => matches!(self.call.call(), Call::Scan(_, _)),
            _ => false,
        }
    }

    /// Is the call an insert?
    pub fn is_insert(&self) -> bool
        ensures { result ≡ is_insert self.now.call }
    {
        matches!(self.call.call(), Call::Insert(..))
    }

    /// The stage at which a call on a key begins.
    pub fn start(&self) -> Stage
        ensures stage { result ≡ start_at (locks self.now.variant) }
        ensures sound { is_sound result ≡ true }
    {
        if self.locks() {
            Stage::Lock {
                target: Target::Root,
                first: true,
            }
        } else {
            Stage::Wait {
                target: Target::Root,
            }
        }
    }

    /// The base of a row that is locked or waited for.
    pub fn target_base(&self, target: &Target) -> usize
        ensures { result ≡ target_base (setting_of self.now) target.now }
    {
        match target {
            Target::Root => self.shape.root(),
            Target::Below { down } => down.base as usize,
            Target::Taken { taking } => taking.row.base as usize,
        }
    }

    /// The byte of the key that selects a child of a row.
    pub fn byte(&self, row: HeldRow) -> u32
        ensures byte { result ≡ byte_in (setting_of self.now) row }
        ensures below { result < 256 }
    {
        key_byte(self.call.key(), info_level(row.kind, row.info))
    }

    /// The place of the new child, in the kinds whose children are in the order of their bytes.
    pub fn place(&self, hold: Hold, keys: Keys) -> u32
        requires { has_keys hold.row.kind ≡ true }
        ensures place { result ≡ place_in (setting_of self.now) hold keys }
        ensures most { result ≤ 16 }
    {
        let byte = self.byte(hold.row);
        match hold.row.kind {
            Kind::Four => new_key_place(keys.first, byte),
            Kind::Sixteen => new_key_place16(keys.count, keys.first, keys.second, byte),
            _ => unreachable!(),
        }
    }

    /// The entry of a byte in the row of kind 48 to which a row grows.
    fn entry(&self, growing: Growing, byte: u32) -> u32
        requires { has_keys growing.hold.row.kind ≡ true }
        ensures entry { result ≡ new_entry (grown_keys (setting_of self.now) growing) byte }
        ensures below { result < 256 }
    {
        let row = growing.hold.row;
        match key_among(row.kind, growing.keys, byte) {
            Some(place) => place + 1,
            None => {
                if self.byte(row) == byte {
                    count(row.kind, growing.keys) + 1
                } else {
                    0
                }
            }
        }
    }

    /// The entries of this many bytes from this one on, in that row, as a number.
    pub fn index_from(&self, growing: Growing, byte: u32, left: u32) -> u64
        requires kind { has_keys growing.hold.row.kind ≡ true }
        requires few { left ≤ 8 }
        requires byte { byte + left ≤ 256 }
        ensures entries { result ≡ packed (map (new_entry (grown_keys (setting_of self.now) growing)) (numbers byte left)) }
        ensures below { result < 256 ^ left }
    {
        if left == 0 {
            0
        } else {
            u64::from(self.entry(growing, byte))
                + 256 * self.index_from(growing, byte + 1, left - 1)
        }
    }
}
