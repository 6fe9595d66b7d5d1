// The reply that a text in the compact form begins with.
ghost use Rattle.std.specs.Prelude.{◌≡◌, ◌++◌, [], ◌∷◌, map, false, IfSome, OnSome};
ghost use Rattle.serde_json.specs.View.{items_of};
ghost use Rattle.serde_json.specs.Written.{items_text};
ghost use Rattle.events.specs.declared.event.Reply.TheVariants as replies;
ghost use Rattle.history_text.specs.Texts.{pair_data, reply_data};
ghost use Rattle.history_text.specs.Compact.{ArePlain, BeginsWith};

use events::{Pairs, Reply};
use plain_numbers::{after, number_at, number_before};
use std::alloc::Global;

/// Returns the reply that a text begins with, and what is left after it.
pub fn reply_at(alloc: Global, text: &[u8]) -> Option<(Reply, &[u8])>
    ensures { IfSome result (λ found. BeginsWith (reply_data found.0) text.now found.1.now) }
{
    match text.get(1)? {
        b'u' => null_at(text),
        b'd' => done_at(text),
        b'f' => found_at(text),
        b'o' => other_at(text),
        b'r' => refused_at(text),
        b']' => no_pairs_at(alloc, text),
        b'[' => pairs_at(alloc, text),
        _ => value_at(text),
    }
}

fn null_at(text: &[u8]) -> Option<(Reply, &[u8])>
    ensures { IfSome result (λ found. BeginsWith (reply_data found.0) text.now found.1.now) }
{
    let rest = after(text, b"null")?;
    Some((Reply::None, rest))
}

fn done_at(text: &[u8]) -> Option<(Reply, &[u8])>
    ensures { IfSome result (λ found. BeginsWith (reply_data found.0) text.now found.1.now) }
{
    let rest = after(text, b"\"done\"")?;
    Some((Reply::Done, rest))
}

fn found_at(text: &[u8]) -> Option<(Reply, &[u8])>
    ensures { IfSome result (λ found. BeginsWith (reply_data found.0) text.now found.1.now) }
{
    let rest = after(text, b"\"found\"")?;
    Some((Reply::Found, rest))
}

fn other_at(text: &[u8]) -> Option<(Reply, &[u8])>
    ensures { IfSome result (λ found. BeginsWith (reply_data found.0) text.now found.1.now) }
{
    let rest = after(text, b"\"other\"")?;
    Some((Reply::Other, rest))
}

fn refused_at(text: &[u8]) -> Option<(Reply, &[u8])>
    ensures { IfSome result (λ found. BeginsWith (reply_data found.0) text.now found.1.now) }
{
    let rest = after(text, b"\"refused\"")?;
    Some((Reply::Refused, rest))
}

fn value_at(text: &[u8]) -> Option<(Reply, &[u8])>
    ensures { IfSome result (λ found. BeginsWith (reply_data found.0) text.now found.1.now) }
{
    let (value, rest) = number_at(text)?;
    Some((Reply::Some(value), rest))
}

fn no_pairs_at(alloc: Global, text: &[u8]) -> Option<(Reply, &[u8])>
    ensures { IfSome result (λ found. BeginsWith (reply_data found.0) text.now found.1.now) }
{
    let rest = after(text, b"[]")?;
    Some((pairs_reply(Vec::new(alloc)), rest))
}

fn pairs_at(alloc: Global, text: &[u8]) -> Option<(Reply, &[u8])>
    ensures { IfSome result (λ found. BeginsWith (reply_data found.0) text.now found.1.now) }
{
    let text = after(text, b"[")?;
    let mut pairs = Vec::new(alloc);
    let rest = pairs_in(&mut pairs, text)?;
    Some((pairs_reply(pairs), rest))
}

/// Returns the reply that lists the pairs.
fn pairs_reply(pairs: Vec<(u64, u64)>) -> Reply
    ensures { result ≡ replies.Pairs pairs.items }
{
    Reply::Pairs(Pairs::new(pairs))
}

/// Puts the pairs that a text begins with into a list, which has none: one or more, with a comma
/// between two of them, before a closing bracket. It returns what is left after that.
fn pairs_in<'a>(pairs: &mut Vec<(u64, u64)>, text: &'a [u8]) -> Option<&'a [u8]>
    requires { pairs.old.items ≡ [] }
    ensures text { IfSome result (λ rest. text.now
        ≡ items_text false (items_of (map pair_data pairs.new.items)) ++ rest.now) }
    ensures plain { OnSome result (ArePlain (map pair_data pairs.new.items)) }
{
    let mut left = text;
    'each: loop {
        let (pair, next) = pair_at(left)?;
        keep(pairs, pair)?;
        if let Some(rest) = after(next, b"]") {
            return Some(rest);
        }
        let more = after(next, b",")?;
        left = more;
    }
}

fn keep(pairs: &mut Vec<(u64, u64)>, pair: (u64, u64)) -> Option<()>
    ensures { OnSome result (pairs.new.items ≡ pairs.old.items ++ pair ∷ []) }
{
    pairs.push(pair).ok()
}

/// Returns the pair that a text begins with, and what is left after it.
pub fn pair_at(text: &[u8]) -> Option<((u64, u64), &[u8])>
    ensures { IfSome result (λ found. BeginsWith (pair_data found.0) text.now found.1.now) }
{
    let text = after(text, b"[")?;
    let (key, rest) = number_before(text, b",")?;
    let (value, rest) = number_before(rest, b"]")?;
    Some(((key, value), rest))
}
