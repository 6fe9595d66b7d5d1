// A whole text in the compact form, read in one pass and without a tree of values.
ghost use Rattle.std.specs.Prelude.{◌≡◌, ◌++◌, [], map, false, IfSome, OnSome, IsTrue};
ghost use Rattle.std.specs.List.{list_all};
ghost use Rattle.serde_json.specs.View.{items_of};
ghost use Rattle.serde_json.specs.Written.{items_text};
ghost use Rattle.events.specs.HistoryView.{with_no_start, with_event, with_pair};
ghost use Rattle.events.specs.Histories.{IsHistory};
ghost use Rattle.history_text.specs.WhiteSpace.{AreWhiteSpace};
ghost use Rattle.history_text.specs.Texts.{list_data, pair_data, event_data, may_stand, Spells};
ghost use Rattle.history_text.specs.Compact.{ArePlain, BeginsWith, SpellsCompactly, EndsAs};

use crate::MAX_TEXT;
use crate::compact_events::event_at;
use crate::compact_replies::pair_at;
use crate::version::TextVersion;
use events::{Event, HistoryBuilder};
use plain_numbers::{after, number_before};
use std::alloc::Global;

/// Returns the starting pairs and the events that a text in the compact form spells, without notes,
/// and perhaps with a line feed after it. Together they are a history. It returns nothing for any
/// other text, for a text with a fault, and if memory runs out.
pub fn compact_turns(alloc: Global, text: &[u8]) -> Option<HistoryBuilder>
    ensures spelled { IfSome result (Spells text.now) }
    ensures history { IfSome result IsHistory }
{
    if text.len() > MAX_TEXT {
        return None;
    }
    let version = version_guess(text)?;
    let mut turns = HistoryBuilder::new(alloc);
    document_in(alloc, &mut turns, version, text)?;
    Some(turns)
}

/// Guesses the version of a text by its last digit. A brace and perhaps a line feed follow it.
/// `end_at` tests the guess.
fn version_guess(text: &[u8]) -> Option<TextVersion> {
    let length = text.len();
    let from_end = if *text.last()? == b'\n' { 3 } else { 2 };
    match text.get(length.checked_sub(from_end)?)? {
        b'1' => Some(TextVersion::One),
        b'2' => Some(TextVersion::Two),
        b'3' => Some(TextVersion::Three),
        _ => None,
    }
}

/// Takes the starting pairs and the events of a text of a version, if the text is as
/// `compact_turns` says.
fn document_in(
    alloc: Global,
    turns: &mut HistoryBuilder,
    version: TextVersion,
    text: &[u8],
) -> Option<()>
    requires none { turns.old ≡ with_no_start [] }
    requires history { IsHistory turns.old }
    ensures spelled { OnSome result (SpellsCompactly text.now turns.new) }
    ensures history { OnSome result (IsHistory turns.new) }
{
    let items = after(text, b"{\"events\":")?;
    let rest = events_at(alloc, turns, version, items)?;
    if !version.has_start() {
        end_at(version, rest)?;
        return Some(());
    }
    let pairs = after(rest, b",\"start\":")?;
    let last = start_at(turns, pairs)?;
    end_at(version, last)?;
    Some(())
}

/// Tests that this version, a brace and perhaps a line feed are all that is left.
fn end_at(version: TextVersion, text: &[u8]) -> Option<()>
    ensures { OnSome result (EndsAs version text.now) }
{
    let text = after(text, b",\"version\":")?;
    let (named, rest) = number_before(text, b"}")?;
    if named != version.number() {
        return None;
    }
    if is_end(rest) { Some(()) } else { None }
}

fn is_end(text: &[u8]) -> bool
    ensures { IsTrue result → AreWhiteSpace text.now }
{
    match text {
        [] => true,
        [byte] => *byte == b'\n',
        _ => false,
    }
}

/// Takes the events of the array that a text begins with, and returns what is left after it.
fn events_at<'a>(
    alloc: Global,
    turns: &mut HistoryBuilder,
    version: TextVersion,
    text: &'a [u8],
) -> Option<&'a [u8]>
    requires none { turns.old ≡ with_no_start [] }
    requires history { IsHistory turns.old }
    ensures text { IfSome result
        (λ rest. BeginsWith (list_data (map event_data turns.new.events)) text.now rest.now) }
    ensures standing { OnSome result (IsTrue (list_all (may_stand version) turns.new.events)) }
    ensures start { OnSome result (turns.new.start ≡ []) }
    ensures history { OnSome result (IsHistory turns.new) }
{
    if let Some(rest) = after(text, b"[]") {
        return Some(rest);
    }
    let items = after(text, b"[")?;
    let rest = events_in(alloc, turns, version, items)?;
    Some(rest)
}

/// Takes the events that a text begins with: one or more, with a comma between two of them, before
/// a closing bracket. It returns what is left after that.
fn events_in<'a>(
    alloc: Global,
    turns: &mut HistoryBuilder,
    version: TextVersion,
    text: &'a [u8],
) -> Option<&'a [u8]>
    requires { turns.old ≡ with_no_start [] }
    ensures text { IfSome result (λ rest. text.now
        ≡ items_text false (items_of (map event_data turns.new.events)) ++ rest.now) }
    ensures plain { OnSome result (ArePlain (map event_data turns.new.events)) }
    ensures standing { OnSome result (IsTrue (list_all (may_stand version) turns.new.events)) }
    ensures start { OnSome result (turns.new.start ≡ []) }
    ensures history { OnSome result (IsHistory turns.new) }
{
    let mut left = text;
    'each: loop {
        let (event, next) = event_at(alloc, version, left)?;
        take(turns, event)?;
        if let Some(rest) = after(next, b"]") {
            return Some(rest);
        }
        let more = after(next, b",")?;
        left = more;
    }
}

fn take(turns: &mut HistoryBuilder, event: Event) -> Option<()>
    ensures taken { OnSome result (turns.new ≡ with_event turns.old event) }
    ensures history { IsHistory turns.new }
{
    turns.take(event).ok()
}

/// Takes the starting pairs of the array that a text begins with, if there are none yet, and returns
/// what is left after it.
fn start_at<'a>(turns: &mut HistoryBuilder, text: &'a [u8]) -> Option<&'a [u8]>
    requires none { turns.old.start ≡ [] }
    requires history { IsHistory turns.old }
    ensures text { IfSome result
        (λ rest. BeginsWith (list_data (map pair_data turns.new.start)) text.now rest.now) }
    ensures events { OnSome result (turns.new.events ≡ turns.old.events) }
    ensures history { OnSome result (IsHistory turns.new) }
{
    if let Some(rest) = after(text, b"[]") {
        return Some(rest);
    }
    let items = after(text, b"[")?;
    let rest = start_in(turns, items)?;
    Some(rest)
}

/// Takes the starting pairs that a text begins with, if there are none yet: one or more, with a comma
/// between two of them, before a closing bracket. It returns what is left after that.
fn start_in<'a>(turns: &mut HistoryBuilder, text: &'a [u8]) -> Option<&'a [u8]>
    requires { turns.old.start ≡ [] }
    ensures text { IfSome result (λ rest. text.now
        ≡ items_text false (items_of (map pair_data turns.new.start)) ++ rest.now) }
    ensures plain { OnSome result (ArePlain (map pair_data turns.new.start)) }
    ensures events { OnSome result (turns.new.events ≡ turns.old.events) }
    ensures history { OnSome result (IsHistory turns.new) }
{
    let mut left = text;
    'each: loop {
        let (pair, next) = pair_at(left)?;
        take_pair(turns, pair)?;
        if let Some(rest) = after(next, b"]") {
            return Some(rest);
        }
        let more = after(next, b",")?;
        left = more;
    }
}

fn take_pair(turns: &mut HistoryBuilder, pair: (u64, u64)) -> Option<()>
    ensures taken { OnSome result (turns.new ≡ with_pair turns.old pair) }
    ensures history { IsHistory turns.new }
{
    turns.take_pair(pair).ok()
}
