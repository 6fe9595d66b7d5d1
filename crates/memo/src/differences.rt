// Pairs by rising key, and their differences from the pairs at the start of a search.
ghost use Rattle.std.specs.Prelude.{◌≡◌, ◌≤◌, length, take, drop, filter, is_none, IfOk, IfErr, OnOk};
ghost use Rattle.map_object.specs.MapObject.{IsRising, value_at, below, above};
ghost use Rattle.map_object.specs.Places.{IsAt, IsGapFor};
ghost use Rattle.memo.specs.Differences.{with_value, value_put, value_gone, value_from, differs, pairs_from, IsDifference};

use events::Memory;
use std::alloc::Global;

/// Returns the place of the key, or the place at which it would be inserted. It makes a binary
/// search.
fn place(pairs: &[(u64, u64)], key: u64) -> Result<usize, usize>
    requires { IsRising pairs.now }
    ensures found { IfOk result (IsAt pairs.now key) }
    ensures absent { IfErr result (IsGapFor pairs.now key) }
{
    pairs.binary_search_by_key(&key, |pair| pair.0)
}

/// Returns the value at a key.
pub(crate) fn value_at(pairs: &[(u64, u64)], key: u64) -> Option<u64>
    requires { IsRising pairs.now }
    ensures { result ≡ value_at pairs.now key }
{
    match place(pairs, key) {
        Ok(at) => Some(pairs[at].1),
        Err(_) => None,
    }
}

/// Returns how many pairs are below a key, and how many are below it or at it.
fn around(pairs: &[(u64, u64)], key: u64) -> (usize, usize)
    requires { IsRising pairs.now }
    ensures within { (result.0 ≤ result.1) × (result.1 ≤ length pairs.now) }
    ensures below { take result.0 pairs.now ≡ below key pairs.now }
    ensures above { drop result.1 pairs.now ≡ above key pairs.now }
{
    match place(pairs, key) {
        Ok(at) => (at, at + 1),
        Err(at) => (at, at),
    }
}

/// Returns the pairs with this value, or none, at a key.
fn with_value(
    alloc: Global,
    pairs: &[(u64, u64)],
    key: u64,
    value: Option<u64>,
) -> Result<Vec<(u64, u64)>, Memory>
    requires { IsRising pairs.now }
    ensures { IfOk result (λ v. v.items ≡ with_value key value pairs.now) }
{
    let mut with = Vec::new(alloc);
    write_with_value(&mut with, pairs, key, value)?;
    Ok(with)
}

/// Writes the pairs with this value, or none, at a key over the items of a list.
pub(crate) fn write_with_value(
    room: &mut Vec<(u64, u64)>,
    pairs: &[(u64, u64)],
    key: u64,
    value: Option<u64>,
) -> Result<(), Memory>
    requires { IsRising pairs.now }
    ensures { OnOk result (room.new.items ≡ with_value key value pairs.now) }
{
    let (from, upto) = around(pairs, key);
    room.clear();
    room.extend_from_slice(&pairs[..from])?;
    let Some(value) = value else {
        room.extend_from_slice(&pairs[upto..])?;
        return Ok(());
    };
    room.push((key, value))?;
    room.extend_from_slice(&pairs[upto..])?;
    Ok(())
}

/// Returns the value, if it is not the one at the start.
pub(crate) fn value_put(first: Option<u64>, value: Option<u64>) -> Option<u64>
    ensures { result ≡ value_put first value }
{
    match (first, value) {
        (Some(first), Some(value)) if first == value => None,
        _ => value,
    }
}

/// Returns the value at the start, if there is none now.
pub(crate) fn value_gone(first: Option<u64>, value: Option<u64>) -> Option<u64>
    ensures { result ≡ value_gone first value }
{
    match value {
        Some(_) => None,
        None => first,
    }
}

/// Returns the value of a key, from its value at the start, the value that was put, and the value
/// that is gone.
pub(crate) fn value_from(first: Option<u64>, put: Option<u64>, gone: Option<u64>) -> Option<u64>
    ensures { result ≡ value_from first put gone }
{
    match (put, gone) {
        (Some(value), _) => Some(value),
        (None, Some(_)) => None,
        (None, None) => first,
    }
}

/// Returns the pairs that are not among others.
fn unlike(
    alloc: Global,
    pairs: &[(u64, u64)],
    others: &[(u64, u64)],
) -> Result<Vec<(u64, u64)>, Memory>
    requires { IsRising others.now }
    ensures { IfOk result (λ v. v.items ≡ filter (differs others.now) pairs.now) }
{
    let mut unlike = Vec::new(alloc);
    for pair in pairs {
        if value_put(value_at(others, pair.0), Some(pair.1)).is_some() {
            unlike.push(*pair)?;
        }
    }
    Ok(unlike)
}

/// Returns the pairs at whose keys others have no value.
fn absent(
    alloc: Global,
    pairs: &[(u64, u64)],
    others: &[(u64, u64)],
) -> Result<Vec<(u64, u64)>, Memory>
    requires { IsRising others.now }
    ensures { IfOk result (λ v. v.items ≡ filter (λ pair. is_none (value_at others.now pair.0)) pairs.now) }
{
    let mut absent = Vec::new(alloc);
    for pair in pairs {
        if value_at(others, pair.0).is_none() {
            absent.push(*pair)?;
        }
    }
    Ok(absent)
}

/// The changes since the start of a search: the pairs that were not there at the start, and the
/// pairs at the start whose keys no longer have a value.
#[derive(Drop)]
pub(crate) struct Changes {
    pub(crate) put: Vec<(u64, u64)>,
    pub(crate) gone: Vec<(u64, u64)>,
}

/// Returns how pairs differ from those at the start.
pub(crate) fn difference(
    alloc: Global,
    start: &[(u64, u64)],
    pairs: &[(u64, u64)],
) -> Result<Changes, Memory>
    requires start { IsRising start.now }
    requires pairs { IsRising pairs.now }
    ensures { IfOk result (λ d. IsDifference start.now pairs.now d.put.items d.gone.items) }
{
    Ok(Changes {
        put: unlike(alloc, pairs, start)?,
        gone: absent(alloc, start, pairs)?,
    })
}

/// Returns the pairs after these changes: the pairs at the start that are not gone, and those that
/// are put.
pub(crate) fn pairs_from(
    alloc: Global,
    start: &[(u64, u64)],
    put: &[(u64, u64)],
    gone: &[(u64, u64)],
) -> Result<Vec<(u64, u64)>, Memory>
    requires start { IsRising start.now }
    requires gone { IsRising gone.now }
    ensures { IfOk result (λ v. v.items ≡ pairs_from start.now put.now gone.now) }
{
    let mut pairs = absent(alloc, start, gone)?;
    let mut at = put.len();
    while at > 0 {
        at -= 1;
        let pair = &put[at];
        pairs = with_value(alloc, &pairs, pair.0, Some(pair.1))?;
    }
    Ok(pairs)
}
