// Calls and replies, by the numbers of their kinds.
ghost use Rattle.std.specs.Prelude.{◌≡◌, ◌≢◌, List, All, IfOk, IfSome};
ghost use Rattle.cli_follow.specs.EventLines.{CallHasWords, IsWord, ReplyHasWords};
ghost use Rattle.potzendai.specs.declared.kinds.PotzendaiPair.{PotzendaiPair};
ghost use Rattle.potzendai.specs.Values.{call_of, pairs_of, reply_of};

use events::{Call, Memory, Pairs, Reply};
use std::alloc::Global;

/// A key and its value in the answer of a scan.
#[repr(C)]
#[derive(Clone, Copy)]
pub struct PotzendaiPair {
    pub key: u64,
    pub value: u64,
}

/// Returns the call of a kind, if there is such a kind.
pub(crate) fn call_of(kind: u32, key: u64, value: u64, other: u64) -> Option<Call>
    ensures call { result ≡ call_of kind key value other }
    ensures words { IfSome result CallHasWords }
{
    match kind {
        0 => Some(Call::Get(key)),
        1 => Some(Call::Insert(key, value)),
        2 => Some(Call::Remove(key)),
        3 => Some(Call::Scan(key, value)),
        4 => Some(Call::Replace(key, value, other)),
        _ => None,
    }
}

/// Returns the reply of a kind, if there is such a kind. It copies the pairs.
pub(crate) fn reply_of(
    alloc: Global,
    kind: u32,
    value: u64,
    pairs: &[PotzendaiPair],
) -> Result<Option<Reply>, Memory>
    ensures reply { IfOk result (λ found. found ≡ reply_of kind value pairs.now) }
    ensures words { IfOk result (λ found. IfSome found ReplyHasWords) }
{
    if kind == 2 {
        let items = pairs_of(alloc, pairs)?;
        return Ok(Some(Reply::Pairs(Pairs::new(items))));
    }
    Ok(plain_reply(kind, value))
}

/// Returns the reply of a kind without pairs, if there is such a kind.
fn plain_reply(kind: u32, value: u64) -> Option<Reply>
    requires { kind ≢ 2 }
    ensures reply { (pairs : List PotzendaiPair) → result ≡ reply_of kind value pairs }
    ensures words { IfSome result ReplyHasWords }
{
    match kind {
        0 => Some(Reply::None),
        1 => Some(Reply::Some(value)),
        3 => Some(Reply::Refused),
        4 => Some(Reply::Done),
        5 => Some(Reply::Found),
        6 => Some(Reply::Other),
        _ => None,
    }
}

/// Returns a pair as a tuple.
fn as_pair(key: u64, value: u64) -> (u64, u64)
    ensures same { result ≡ (key, value) }
    ensures words { IsWord result.0 × IsWord result.1 }
{
    (key, value)
}

/// Returns the pairs as tuples.
fn pairs_of(alloc: Global, pairs: &[PotzendaiPair]) -> Result<Vec<(u64, u64)>, Memory>
    ensures items { IfOk result (λ items. items.items ≡ pairs_of pairs.now) }
    ensures words { IfOk result (λ items. All (λ pair. IsWord pair.0 × IsWord pair.1) items.items) }
{
    let mut items = Vec::with_capacity(alloc, pairs.len())?;
    for pair in pairs {
        items.push(as_pair(pair.key, pair.value))?;
    }
    Ok(items)
}
