// Which keys can lie below a row.
ghost use Rattle.std.specs.Prelude.{◌≡◌, ℕ, ◌+◌, ◌-◌, ◌*◌, ◌<◌, ◌≤◌, ◌^◌, true, false};
ghost use Rattle.art_rows.specs.Words.{big_endian, info_of};
ghost use Rattle.art_rows.specs.Scan.{can_lie};
ghost use Rattle.art_control_states.specs.Stages.{row_at};
ghost use Rattle.art_scan.specs.Walks.{begins_by};

use art_control_states::HeldRow;
use art_rows::{Kind, info_level};

/// The path of a row as a number.
fn path_number(kind: Kind, info: u64) -> u64
    ensures path { result ≡ big_endian 0 (info_of kind info).path }
    ensures below { result < 256 ^ (info_of kind info).level }
    ensures most { result < 16777216 }
{
    let a = info / 256 % 256;
    let b = info / 256 / 256 % 256;
    let c = info / 256 / 256 / 256 % 256;
    match info_level(kind, info) {
        1 => a,
        2 => 256 * a + b,
        3 => 256 * (256 * a + b) + c,
        _ => 0,
    }
}

/// How many keys have one path and byte in a row of this level.
fn keys_below(level: u32) -> u64
    requires { level ≤ 3 }
    ensures { result ≡ 256 ^ (3 - level) }
{
    match level {
        0 => 256 * 256 * 256,
        1 => 256 * 256,
        2 => 256,
        _ => 1,
    }
}

/// Does some key from the first to the last begin with the row's path and this byte?
pub fn can_lie(low: u64, high: u64, row: HeldRow, byte: u32) -> bool
    requires { byte < 256 }
    ensures { result ≡ can_lie low high (row_at row) byte }
{
    let prefix = 256 * path_number(row.kind, row.info) + u64::from(byte);
    let keys = keys_below(info_level(row.kind, row.info));
    prefix * keys <= high && low < (prefix + 1) * keys
}

/// Do all keys that begin with the row's path and this byte, or with a greater one, come after the
/// range's last key?
#[inline(always)]
pub fn all_are_after(high: u64, row: HeldRow, byte: u32) -> bool
    requires { byte < 256 }
    ensures behind { result ≡ true → (low y : ℕ) → byte ≤ y → can_lie low high (row_at row) y ≡ false }
    ensures not { result ≡ false → begins_by high row byte ≡ true }
{
    let prefix = 256 * path_number(row.kind, row.info) + u64::from(byte);
    prefix * keys_below(info_level(row.kind, row.info)) > high
}

/// How many groups of keys are below this key. A group has all keys with one path and byte in a row
/// of this level.
fn paths_below(low: u64, level: u32) -> u64
    requires { level ≤ 3 }
    ensures least { result * 256 ^ (3 - level) ≤ low }
    ensures most { low < (result + 1) * 256 ^ (3 - level) }
{
    match level {
        0 => low / (256 * 256 * 256),
        1 => low / (256 * 256),
        2 => low / 256,
        _ => low,
    }
}

/// How many bytes from this one on are passed over. All keys that begin with the row's path and one
/// of them come before the range's first key. Those of the next byte do not.
pub fn bytes_ahead(low: u64, row: HeldRow, byte: u32, left: u32) -> u32
    requires { byte + left ≤ 256 }
    ensures most { result ≤ left }
    ensures passed { (high y : ℕ) → byte ≤ y → y < byte + result → can_lie low high (row_at row) y ≡ false }
    ensures next { result < left → (high : ℕ) → can_lie low high (row_at row) (byte + result) ≡ false
        → (y : ℕ) → byte + result ≤ y → can_lie low high (row_at row) y ≡ false }
    ensures reached { result < left → (high y : ℕ) → byte + result ≤ y → can_lie low high (row_at row) y ≡ begins_by high row y }
{
    let prefix = 256 * path_number(row.kind, row.info) + u64::from(byte);
    let first = paths_below(low, info_level(row.kind, row.info));
    if first <= prefix {
        0
    } else if first - prefix < u64::from(left) {
        (first - prefix) as u32
    } else {
        left
    }
}
