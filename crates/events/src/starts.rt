// The pairs that a history starts with. Pairs are tested one by one, each against those before it.
ghost use Rattle.std.specs.Prelude.{◌≡◌, ◌++◌, ◌∷◌, [], Some, OnOk, IfErr};
ghost use Rattle.events.specs.Starts.{KeysRise, IsStart};
ghost use Rattle.events.specs.HistoryFaults.{is_above, pair_fault_after, IsFirstPairFault};

use crate::MAX_START;
use crate::fault::HistoryFault;

/// Tests whether a history may start with these pairs, and returns their first fault if it may not.
pub fn test_start(pairs: &[(u64, u64)]) -> Result<(), HistoryFault>
    ensures ok { OnOk result (IsStart pairs.now) }
    ensures first { IfErr result (IsFirstPairFault pairs.now) }
{
    for (place, pair) in pairs.iter().enumerate() {
        test_pair(&pairs[..place], *pair)?;
    }
    Ok(())
}

/// Tests whether a pair may follow others that a history starts with, and returns its fault if it
/// may not.
pub fn test_pair(before: &[(u64, u64)], pair: (u64, u64)) -> Result<(), HistoryFault>
    requires { IsStart before.now }
    ensures ok { OnOk result (IsStart (before.now ++ pair ∷ [])) }
    ensures fault { IfErr result (λ e. pair_fault_after before.now pair ≡ Some e) }
{
    let place = before.len();
    if place >= MAX_START {
        return Err(HistoryFault::TooMany);
    }
    if !is_above(before, pair.0) {
        return Err(HistoryFault::Start { pair: place });
    }
    Ok(())
}

/// Returns whether a key is above the keys of all pairs before it, which rise.
pub fn is_above(before: &[(u64, u64)], key: u64) -> bool
    requires { KeysRise before.now }
    ensures { result ≡ is_above before.now key }
{
    match before.last() {
        Some(last) => last.0 < key,
        None => true,
    }
}
