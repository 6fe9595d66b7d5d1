// The bytes of a row under which keys can lie.
ghost use Rattle.std.specs.Prelude.{◌≡◌, ◌+◌, ◌≤◌, ◌<◌, filter};
ghost use Rattle.art_rows.specs.Scan.{can_lie as can_hold, bytes_of};
ghost use Rattle.art_rows.specs.Steps.{numbers};
ghost use Rattle.art_control_states.specs.Stages.{row_at};
ghost use Rattle.art_control_states.specs.Scans.{in_word};
ghost use Rattle.art_scan.specs.Walks.{has_any};

use crate::ranges::{bytes_ahead, can_lie};
use art_control_states::HeldRow;

/// Is there one among this many bytes from this one on?
fn is_met_from(low: u64, high: u64, row: HeldRow, byte: u32, left: u32) -> bool
    requires { byte + left ≤ 256 }
    ensures { result ≡ has_any (filter (can_hold low high (row_at row)) (numbers byte left)) }
{
    let ahead = bytes_ahead(low, row, byte, left);
    ahead < left && can_lie(low, high, row, byte + ahead)
}

/// Is there one at all?
pub fn is_met(low: u64, high: u64, row: HeldRow) -> bool
    ensures { result ≡ has_any (bytes_of low high (row_at row)) }
{
    is_met_from(low, high, row, 0, 256)
}

/// Is there one in this index word of a row of kind 48?
pub fn is_met_in(low: u64, high: u64, row: HeldRow, word: u32) -> bool
    requires { word ≤ 31 }
    ensures { result ≡ has_any (filter (in_word word) (bytes_of low high (row_at row))) }
{
    is_met_from(low, high, row, 8 * word, 8)
}
