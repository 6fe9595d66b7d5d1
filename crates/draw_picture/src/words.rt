// Calls and replies in words.
ghost use Rattle.std.specs.Prelude.{◌≡◌, IfOk, string_bytes};
ghost use Rattle.events.specs.declared.event.Call.TheVariants.{Get, Insert, Remove, Scan, Replace};
ghost use Rattle.draw_picture.specs.Words.{call_words, reply_words, pairs_words};

use events::{Call, Reply};
use history_text::pairs_value;
use std::alloc::{AllocError, Global};

/// Returns a call in words: its name and its numbers, as `insert 5 7`.
pub fn call_words(alloc: Global, call: &Call) -> Result<String, AllocError>
    ensures { IfOk result (λ text. string_bytes text ≡ call_words call.now) }
{
    match call {
        Call::Get(key) => words_of_get(alloc, *key),
        Call::Insert(key, value) => words_of_insert(alloc, *key, *value),
        Call::Remove(key) => words_of_remove(alloc, *key),
        Call::Scan(low, high) => words_of_scan(alloc, *low, *high),
        Call::Replace(key, old, new) => words_of_replace(alloc, *key, *old, *new),
    }
}

fn words_of_get(alloc: Global, key: u64) -> Result<String, AllocError>
    ensures { IfOk result (λ text. string_bytes text ≡ call_words (Get key)) }
{
    format!(in alloc; "get {key}")
}

fn words_of_insert(alloc: Global, key: u64, value: u64) -> Result<String, AllocError>
    ensures { IfOk result (λ text. string_bytes text ≡ call_words (Insert key value)) }
{
    format!(in alloc; "insert {key} {value}")
}

fn words_of_remove(alloc: Global, key: u64) -> Result<String, AllocError>
    ensures { IfOk result (λ text. string_bytes text ≡ call_words (Remove key)) }
{
    format!(in alloc; "remove {key}")
}

fn words_of_scan(alloc: Global, low: u64, high: u64) -> Result<String, AllocError>
    ensures { IfOk result (λ text. string_bytes text ≡ call_words (Scan low high)) }
{
    format!(in alloc; "scan {low} {high}")
}

fn words_of_replace(alloc: Global, key: u64, old: u64, new: u64) -> Result<String, AllocError>
    ensures { IfOk result (λ text. string_bytes text ≡ call_words (Replace key old new)) }
{
    format!(in alloc; "replace {key} {old} {new}")
}

/// Returns a reply in words: `none`, a value, the pairs of a scan as in a history's text, or
/// `refused`, `done`, `found`, `other`.
pub fn reply_words(alloc: Global, reply: &Reply) -> Result<String, AllocError>
    ensures { IfOk result (λ text. string_bytes text ≡ reply_words reply.now) }
{
    match reply {
        Reply::None => String::from_str(alloc, "none"),
        Reply::Some(value) => format!(in alloc; "{value}"),
        Reply::Pairs(pairs) => pairs_words(alloc, pairs.as_slice()),
        Reply::Refused => String::from_str(alloc, "refused"),
        Reply::Done => String::from_str(alloc, "done"),
        Reply::Found => String::from_str(alloc, "found"),
        Reply::Other => String::from_str(alloc, "other"),
    }
}

/// Returns pairs as in a history's text, such as `[[1,10],[2,20]]`.
pub fn pairs_words(alloc: Global, pairs: &[(u64, u64)]) -> Result<String, AllocError>
    ensures { IfOk result (λ text. string_bytes text ≡ pairs_words pairs.now) }
{
    let value = pairs_value(alloc, pairs)?;
    Ok(value.to_string(alloc)?)
}
