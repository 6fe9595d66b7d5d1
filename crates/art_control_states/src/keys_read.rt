// What the key words of a row say.
ghost use Rattle.std.specs.Prelude.{◌≡◌, ◌==◌, ◌≤◌, IfSome, ◌<◌};
ghost use Rattle.art_rows.specs.Table.{capacity};
ghost use Rattle.art_rows.specs.Words.{place_of};
ghost use Rattle.art_control_states.specs.Stages.{keys_among, count_in};

use crate::stage::Keys;
use art_rows::{Kind, key_count, key_place, key_place16, keys_count};

/// The place of a byte among the keys that were read of a row; a row of kind 48 or 256 has none.
pub fn key_among(kind: Kind, keys: Keys, byte: u32) -> Option<u32>
    ensures place { result ≡ place_of byte (keys_among kind keys) }
    ensures below { IfSome result (λ i. i < 16) }
{
    match kind {
        Kind::Four => key_place(keys.first, byte),
        Kind::Sixteen => key_place16(keys.count, keys.first, keys.second, byte),
        _ => None,
    }
}

/// How many children a row has, by what was read of it.
pub fn count(kind: Kind, keys: Keys) -> u32
    ensures count { result ≡ count_in kind keys }
    ensures most { result ≤ 48 }
{
    match kind {
        Kind::Four => keys_count(keys.first),
        Kind::Sixteen => key_count(16, keys.count),
        Kind::FortyEight => key_count(48, keys.count),
        Kind::Full => 0,
    }
}

/// Has the row no room for a child more?
pub fn is_full(kind: Kind, keys: Keys) -> bool
    ensures { result ≡ (count_in kind keys == capacity kind) }
{
    count(kind, keys) == kind.capacity()
}
