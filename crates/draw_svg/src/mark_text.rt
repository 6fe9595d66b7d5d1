// The marks of a text.
ghost use Rattle.std.specs.Prelude.{◌≡◌, ◌++◌, None, OnOk, option_copied, string_bytes};
ghost use Rattle.draw_svg.specs.Marks.{place_title, bar_of, with_call_of, with_mark_title, circle_text, place_class, place_text, with_mark};

use crate::bar_text::push_call;
use crate::layout::{x_of, y_of};
use draw_picture::{Bar, Mark};
use events::Memory;

/// Adds a mark of a picture with these bars: a circle in its column and its lane, with its place.
/// Its title has the call in full.
#[tactic(auto, unfolding(crate::specs::Marks::with_mark))]
pub fn push_mark(out: &mut String, width: u8, bars: &[Bar], mark: &Mark) -> Result<(), Memory>
    ensures { OnOk result (string_bytes out.new ≡ with_mark (string_bytes out.old) width bars.now
        mark.now) }
{
    let x = x_of(width, mark.column);
    let y = y_of(mark.lane) + 28;
    let below = y_of(mark.lane) + 31;
    push_title(out, bars, mark)?;
    push_circle(out, x, y)?;
    push_place(out, x, below, mark.place)?;
    Ok(())
}

/// Adds the title of a mark: its place, and its call in full.
fn push_title(out: &mut String, bars: &[Bar], mark: &Mark) -> Result<(), Memory>
    ensures { OnOk result (string_bytes out.new ≡ with_mark_title (string_bytes out.old) bars.now
        mark.now) }
{
    push_opening(out, mark.place)?;
    push_call_of(out, mark.number, bar_of(bars, mark.number))?;
    out.push_str("</title>")?;
    Ok(())
}

/// Adds the beginning of a mark: its place in the order.
fn push_opening(out: &mut String, place: usize) -> Result<(), Memory>
    ensures { OnOk result (string_bytes out.new ≡ string_bytes out.old ++ place_title place) }
{
    write!(out, "<g class='mark'><title>place {place}: ")?;
    Ok(())
}

/// Returns the bar of the call with a number.
fn bar_of(bars: &[Bar], number: u32) -> Option<&Bar>
    ensures { option_copied result ≡ bar_of bars.now number }
{
    bars.iter().find(|bar| bar.number == number as usize)
}

/// Adds a call in full if the picture has its bar, otherwise its number.
fn push_call_of(out: &mut String, number: u32, bar: Option<&Bar>) -> Result<(), Memory>
    ensures { OnOk result (string_bytes out.new ≡ with_call_of (string_bytes out.old) number
        (option_copied bar.entry)) }
{
    match bar {
        Some(bar) => push_call(out, bar),
        None => push_number(out, number),
    }
}

/// Adds the number of a call.
fn push_number(out: &mut String, number: u32) -> Result<(), Memory>
    ensures { OnOk result (string_bytes out.new ≡ with_call_of (string_bytes out.old) number None) }
{
    write!(out, "call {number}")?;
    Ok(())
}

/// Adds a circle at a place.
fn push_circle(out: &mut String, x: u128, y: u128) -> Result<(), Memory>
    ensures { OnOk result (string_bytes out.new ≡ string_bytes out.old ++ circle_text x y) }
{
    write!(out, "<circle cx='{x}' cy='{y}' r='8'/>")?;
    Ok(())
}

/// Returns how a place is drawn: smaller if it has more than three digits, so that it fits the
/// circle.
fn place_class(place: usize) -> &'static str
    ensures { result.now ≡ place_class place }
{
    if place > 999 { " class='long'" } else { "" }
}

/// Adds the place in the order.
fn push_place(out: &mut String, x: u128, y: u128, place: usize) -> Result<(), Memory>
    ensures { OnOk result (string_bytes out.new ≡ string_bytes out.old ++ place_text x y place) }
{
    let class = place_class(place);
    write!(out, "<text{class} x='{x}' y='{y}'>{place}</text></g>\n")?;
    Ok(())
}
