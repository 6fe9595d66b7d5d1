// Where the words of a row are, by its kind.
ghost use Rattle.std.specs.Prelude.{◌≡◌};
ghost use Rattle.art_rows.specs.Table.{child_at, count_at, claims_of, info_at, keys_at, more_keys_at, index_at};
ghost use Rattle.art_rows.specs.Updates.{next_kind};

use art_rows::Kind;

/// The kind that a row grows to.
pub fn next_kind(kind: Kind) -> Kind
    ensures { result ≡ next_kind kind }
{
    match kind {
        Kind::Four => Kind::Sixteen,
        Kind::Sixteen => Kind::FortyEight,
        Kind::FortyEight | Kind::Full => Kind::Full,
    }
}

/// The word that counts the claims of a kind.
pub fn claims(kind: Kind) -> usize
    ensures { result ≡ claims_of kind }
{
    match kind {
        Kind::Four => 1,
        Kind::Sixteen => 2,
        Kind::FortyEight => 3,
        Kind::Full => 4,
    }
}

/// The word of a row's info.
pub fn info_slot(base: u32) -> usize
    ensures { result ≡ info_at base }
{
    base as usize + 1
}

/// The key word of a row of kind 4, and the first one of kind 16.
pub fn keys_slot(base: u32) -> usize
    ensures { result ≡ keys_at base }
{
    base as usize + 2
}

/// The second key word of a row of kind 16.
pub fn more_keys_slot(base: u32) -> usize
    ensures { result ≡ more_keys_at base }
{
    base as usize + 3
}

/// The index word of a byte in a row of kind 48.
pub fn index_slot(base: u32, byte: u32) -> usize
    ensures { result ≡ index_at base byte }
{
    keys_slot(base) + (byte / 8) as usize
}

/// The word of child i of a row.
pub fn child_slot(kind: Kind, base: u32, i: u32) -> usize
    ensures { result ≡ child_at kind base i }
{
    let first = match kind {
        Kind::Four => 3,
        Kind::Sixteen => 5,
        Kind::FortyEight => 35,
        Kind::Full => 2,
    };
    base as usize + first + i as usize
}

/// The word of a row's count.
pub fn count_slot(kind: Kind, base: u32) -> usize
    ensures { result ≡ count_at kind base }
{
    let place = match kind {
        Kind::Four => 2,
        Kind::Sixteen => 4,
        Kind::FortyEight => 34,
        Kind::Full => 0,
    };
    base as usize + place
}
