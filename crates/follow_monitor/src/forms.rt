// Which replies some map gives to a call.
ghost use Rattle.std.specs.Prelude.{◌↔◌, IsTrue, Some};
ghost use Rattle.follow_laws.specs.Forms.{ArePairsOf, IsScanReply};
ghost use Rattle.follow_monitor.specs.Calls.{MayReply};

use events::{Call, Reply, is_above};

/// Whether some map gives a call this reply: a scan pairs of its range, by rising key, or nothing
/// that is reported; any other call any reply.
pub(crate) fn may_reply(call: &Call, reply: &Reply) -> bool
    ensures { IsTrue result ↔ MayReply call.now reply.now }
{
    match call {
        Call::Scan(low, high) => is_scan_reply(*low, *high, reply),
        _ => true,
    }
}

fn is_scan_reply(low: u64, high: u64, reply: &Reply) -> bool
    ensures { IsTrue result ↔ IsScanReply low high reply.now }
{
    match reply {
        Reply::Pairs(pairs) => are_pairs_of(pairs.as_slice(), low, high),
        Reply::Refused | Reply::Done => true,
        Reply::None | Reply::Some(_) | Reply::Found | Reply::Other => false,
    }
}

/// Whether pairs are some that a scan from one key to another may report: by rising key, all of the
/// range.
fn are_pairs_of(pairs: &[(u64, u64)], low: u64, high: u64) -> bool
    ensures { IsTrue result ↔ ArePairsOf low high pairs.now }
{
    for (place, pair) in pairs.iter().enumerate() {
        if pair.0 < low || high < pair.0 || !is_above(&pairs[..place], pair.0) {
            return false;
        }
    }
    true
}
