// The parts of a text around the bars: its head, the words at its top, and its lanes.
ghost use Rattle.std.specs.Prelude.{◌≡◌, ◌<◌, ◌^◌, ◌++◌, OnOk, string_bytes};
ghost use Rattle.draw_picture.specs.declared.picture.Heading.TheVariants.{NoOrder, Undecided};
ghost use Rattle.draw_svg.specs.Frame.{head_text, keys_text, verdict_text, with_heading, whole_text, with_start, with_start_words, ground_text, name_text, with_lane, has_wrong, marks_text};
ghost use Rattle.draw_svg.specs.Frame.{bars_text, start_text, with_legend, with_marks_text};

use crate::content::{push_content, push_shown};
use crate::layout::y_of;
use draw_picture::{Bar, Heading, PicturePart, pairs_words};
use events::Memory;
use std::alloc::Global;

/// Adds the head of a text of this size.
pub fn push_head(out: &mut String, width: u128, height: u128) -> Result<(), Memory>
    ensures { OnOk result (string_bytes out.new ≡ string_bytes out.old ++ head_text width height) }
{
    write!(
        out,
        "<svg xmlns='http://www.w3.org/2000/svg' width='{width}' height='{height}'>\n"
    )?;
    Ok(())
}

/// Adds what a picture says at its top.
pub fn push_heading(out: &mut String, heading: &Heading) -> Result<(), Memory>
    ensures { OnOk result (string_bytes out.new ≡ with_heading (string_bytes out.old) heading.now) }
{
    out.push_str("<text class='title' x='16' y='28'>")?;
    push_verdict(out, heading)?;
    out.push_str("</text>\n")?;
    Ok(())
}

/// Adds the verdict in words.
fn push_verdict(out: &mut String, heading: &Heading) -> Result<(), Memory>
    ensures { OnOk result (string_bytes out.new ≡ string_bytes out.old ++ verdict_text
        heading.now) }
{
    match heading {
        Heading::Order => Ok(out.push_str("Linearizable")?),
        Heading::NoOrder { lo, hi } => push_refuted(out, *lo, *hi),
        Heading::Undecided { lo, hi } => push_undecided(out, *lo, *hi),
    }
}

fn push_refuted(out: &mut String, lo: u64, hi: u64) -> Result<(), Memory>
    ensures { OnOk result (string_bytes out.new ≡ string_bytes out.old ++ verdict_text
        (NoOrder lo hi)) }
{
    out.push_str("Not linearizable: ")?;
    push_keys(out, lo, hi)?;
    Ok(())
}

fn push_undecided(out: &mut String, lo: u64, hi: u64) -> Result<(), Memory>
    ensures { OnOk result (string_bytes out.new ≡ string_bytes out.old ++ verdict_text
        (Undecided lo hi)) }
{
    out.push_str("Undecided: ")?;
    push_keys(out, lo, hi)?;
    Ok(())
}

/// Adds a range of keys, or its only key.
fn push_keys(out: &mut String, lo: u64, hi: u64) -> Result<(), Memory>
    ensures { OnOk result (string_bytes out.new ≡ string_bytes out.old ++ keys_text lo hi) }
{
    if lo == hi {
        write!(out, "key {lo}")?;
    } else {
        write!(out, "keys {lo} to {hi}")?;
    }
    Ok(())
}

/// Adds the pairs that the map holds at the start, cut to the room that they have. If they are cut,
/// a title has them in full.
pub fn push_start(
    out: &mut String,
    alloc: Global,
    part: &Option<PicturePart>,
    start: &[(u64, u64)],
    room: u128,
) -> Result<(), Memory>
    ensures { OnOk result (string_bytes out.new ≡ with_start (string_bytes out.old) part.now
        start.now room) }
{
    let words = pairs_words(alloc, start)?;
    push_start_words(out, part, words.as_bytes(), room)
}

/// Adds these pairs in words.
fn push_start_words(
    out: &mut String,
    part: &Option<PicturePart>,
    words: &[u8],
    room: u128,
) -> Result<(), Memory>
    ensures { OnOk result (string_bytes out.new ≡ with_start_words (string_bytes out.old) part.now
        words.now room) }
{
    out.push_str("<g class='start'>")?;
    push_whole(out, words, room)?;
    out.push_str("<text x='16' y='50'>")?;
    out.push_str(start_text(part))?;
    push_shown(out, words, room)?;
    out.push_str("</text></g>\n")?;
    Ok(())
}

/// Returns the words before the pairs at the start.
fn start_text(part: &Option<PicturePart>) -> &'static str
    ensures { result.now ≡ start_text part.now }
{
    match part {
        Some(_) => "starts at these calls' keys with ",
        None => "starts with ",
    }
}

/// Adds words in full in a title, if they have more letters than there is room for.
fn push_whole(out: &mut String, words: &[u8], room: u128) -> Result<(), Memory>
    ensures { OnOk result (string_bytes out.new ≡ string_bytes out.old ++ whole_text room
        words.now) }
{
    if words.len() as u128 <= room {
        return Ok(());
    }
    out.push_str("<title>")?;
    push_content(out, words)?;
    out.push_str("</title>")?;
    Ok(())
}

/// Adds the lane of a process.
#[tactic(auto, unfolding(crate::specs::Frame::with_lane))]
pub fn push_lane(out: &mut String, end: u128, lane: usize, process: u8) -> Result<(), Memory>
    ensures { OnOk result (string_bytes out.new ≡ with_lane (string_bytes out.old) end lane
        process) }
{
    let y = y_of(lane) + 1;
    let middle = y_of(lane) + 32;
    push_ground(out, end, y)?;
    push_name(out, middle, process)?;
    Ok(())
}

/// Adds the ground of a lane.
fn push_ground(out: &mut String, end: u128, y: u128) -> Result<(), Memory>
    ensures { OnOk result (string_bytes out.new ≡ string_bytes out.old ++ ground_text end y) }
{
    write!(
        out,
        "<g class='lane'><rect x='8' y='{y}' width='{end}' height='56'/>"
    )?;
    Ok(())
}

/// Adds the name of a lane.
fn push_name(out: &mut String, y: u128, process: u8) -> Result<(), Memory>
    ensures { OnOk result (string_bytes out.new ≡ string_bytes out.old ++ name_text y process) }
{
    write!(out, "<text x='16' y='{y}'>process {process}</text></g>\n")?;
    Ok(())
}

/// Returns whether a bar is drawn as the one at which the history goes wrong.
pub fn has_wrong(bars: &[Bar]) -> bool
    ensures { result ≡ has_wrong bars.now }
{
    bars.iter().any(|bar| bar.is_wrong)
}

/// Adds the legend; `red` says whether a bar is red.
pub fn push_legend(out: &mut String, y: u128, heading: &Heading, red: bool) -> Result<(), Memory>
    requires { y < 2 ^ 81 }
    ensures { OnOk result (string_bytes out.new ≡ with_legend (string_bytes out.old) y heading.now
        red) }
{
    push_bars_text(out, y)?;
    push_marks_text(out, y + 16, heading, red)
}

/// Adds what a bar means.
fn push_bars_text(out: &mut String, y: u128) -> Result<(), Memory>
    ensures { OnOk result (string_bytes out.new ≡ string_bytes out.old ++ bars_text y) }
{
    write!(
        out,
        "<text class='note' x='16' y='{y}'>A bar is a call, from its invocation to its answer; the number in it is the call's.</text>\n"
    )?;
    Ok(())
}

/// Adds what a circle means, and what a red and striped bar means if there is one.
fn push_marks_text(out: &mut String, y: u128, heading: &Heading, red: bool) -> Result<(), Memory>
    ensures { OnOk result (string_bytes out.new ≡ with_marks_text (string_bytes out.old) y
        heading.now red) }
{
    write!(out, "<text class='note' x='16' y='{y}'>")?;
    out.push_str(marks_text(heading, red))?;
    out.push_str("</text>\n")?;
    Ok(())
}

/// Returns what a circle means, and what a red and striped bar means if there is one.
fn marks_text(heading: &Heading, red: bool) -> &'static str
    ensures { result.now ≡ marks_text heading.now red }
{
    match (heading, red) {
        (Heading::Order, _) => "A circle has the call's place in the order.",
        (Heading::NoOrder { .. }, true) => {
            "A circle has the call's place in an order, as far as one gets; red stripes show where it goes wrong."
        }
        (Heading::NoOrder { .. }, false) => {
            "A circle has the call's place in an order, as far as one gets."
        }
        (Heading::Undecided { .. }, true) => {
            "A circle has the call's place in an order, as far as one got within the budget; red stripes show where it goes wrong."
        }
        (Heading::Undecided { .. }, false) => {
            "A circle has the call's place in an order, as far as one got within the budget."
        }
    }
}
