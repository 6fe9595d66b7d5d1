// The bars of a text.
ghost use Rattle.std.specs.Prelude.{◌≡◌, ◌++◌, OnOk, option_map, string_bytes};
ghost use Rattle.draw_svg.specs.Bars.{class_of, opening_text, called_text, answered_text, with_reply, with_call, with_title, with_shape, rectangle_text, with_open};
ghost use Rattle.draw_svg.specs.Bars.{number_class, number_text, with_label, reply_label, with_words, with_bar};
ghost use Rattle.draw_svg.specs.Bars.{turn_text, dashes_text, with_left_open, with_both_open, stripes_text, with_stripes};

use crate::content::{push_content, push_shown};
use crate::layout::{end_of, room_of, x_of, y_of};
use draw_picture::Bar;
use events::Memory;

/// Adds a bar: its shape, the number of its call, and the call and its reply in words. The words
/// are cut to the room that they have; the title has them in full.
pub fn push_bar(out: &mut String, width: u8, columns: usize, bar: &Bar) -> Result<(), Memory>
    ensures { OnOk result (string_bytes out.new ≡ with_bar (string_bytes out.old) width columns
        bar.now) }
{
    push_opening(out, bar)?;
    push_title(out, bar)?;
    push_shape(out, width, columns, bar)?;
    push_stripes(out, width, columns, bar)?;
    push_number(out, width, bar)?;
    push_words(out, width, columns, bar)?;
    out.push_str("</g>\n")?;
    Ok(())
}

/// Adds the beginning of a bar: how it is drawn.
fn push_opening(out: &mut String, bar: &Bar) -> Result<(), Memory>
    ensures { OnOk result (string_bytes out.new ≡ string_bytes out.old ++ opening_text bar.now) }
{
    let class = class_of(bar);
    write!(out, "<g class='{class}'>")?;
    Ok(())
}

/// Returns how a bar is drawn: as the one at which the history goes wrong, as one that the verdict
/// concerns, or pale.
fn class_of(bar: &Bar) -> &'static str
    ensures { result.now ≡ class_of bar.now }
{
    if bar.is_wrong {
        "wrong"
    } else if bar.is_pale {
        "pale"
    } else {
        "call"
    }
}

/// Adds the title of a bar: its call in full.
fn push_title(out: &mut String, bar: &Bar) -> Result<(), Memory>
    ensures { OnOk result (string_bytes out.new ≡ with_title (string_bytes out.old) bar.now) }
{
    out.push_str("<title>")?;
    push_call(out, bar)?;
    out.push_str("</title>")?;
    Ok(())
}

/// Adds the call of a bar in full: its number with its process and events, and all its words.
pub fn push_call(out: &mut String, bar: &Bar) -> Result<(), Memory>
    ensures { OnOk result (string_bytes out.new ≡ with_call (string_bytes out.old) bar.now) }
{
    push_called(out, bar)?;
    push_answered(out, bar)?;
    out.push_str(": ")?;
    push_content(out, bar.call.as_bytes())?;
    push_replied(out, bar)?;
    Ok(())
}

/// Adds the number of a call with its process, and the event at which it is invoked.
fn push_called(out: &mut String, bar: &Bar) -> Result<(), Memory>
    ensures { OnOk result (string_bytes out.new ≡ string_bytes out.old ++ called_text bar.now) }
{
    let (number, process, inv) = (bar.number, bar.process, bar.inv);
    write!(out, "call {number} of process {process}, event {inv}")?;
    Ok(())
}

/// Adds the event at which a call is answered.
fn push_answered(out: &mut String, bar: &Bar) -> Result<(), Memory>
    ensures { OnOk result (string_bytes out.new ≡ string_bytes out.old ++ answered_text
        bar.now.res) }
{
    match bar.res {
        Some(res) => write!(out, " to event {res}")?,
        None => out.push_str(" on, pending")?,
    }
    Ok(())
}

/// Adds the reply of a call.
fn push_replied(out: &mut String, bar: &Bar) -> Result<(), Memory>
    ensures { OnOk result (string_bytes out.new ≡ with_reply (string_bytes out.old)
        (option_map string_bytes bar.now.reply)) }
{
    if let Some(reply) = &bar.reply {
        out.push_str(": ")?;
        push_content(out, reply.as_bytes())?;
    }
    Ok(())
}

/// Adds the shape of a bar: a rectangle from the invocation to the response. It is open at the
/// right if the call is pending, and at the left if the bar begins before the part that is shown.
fn push_shape(out: &mut String, width: u8, columns: usize, bar: &Bar) -> Result<(), Memory>
    ensures { OnOk result (string_bytes out.new ≡ with_shape (string_bytes out.old) width columns
        bar.now) }
{
    let x = x_of(width, bar.from);
    let y = y_of(bar.lane) + 19;
    match (bar.is_cut, bar.to) {
        (false, Some(to)) => push_rectangle(out, x, y, x_of(width, to).saturating_sub(x)),
        (false, None) => push_open(out, x, y, x_of(width, columns)),
        (true, Some(to)) => push_left_open(out, x, y, x_of(width, to)),
        (true, None) => push_both_open(out, x, y, x_of(width, columns)),
    }
}

/// Adds a rectangle.
fn push_rectangle(out: &mut String, x: u128, y: u128, span: u128) -> Result<(), Memory>
    ensures { OnOk result (string_bytes out.new ≡ string_bytes out.old ++ rectangle_text x y span) }
{
    write!(
        out,
        "<rect class='bar' x='{x}' y='{y}' width='{span}' height='18' rx='3'/>"
    )?;
    Ok(())
}

/// Adds a rectangle that is open at the right. Its line is that of one which is open at the left,
/// drawn from the other end.
fn push_open(out: &mut String, x: u128, y: u128, end: u128) -> Result<(), Memory>
    ensures { OnOk result (string_bytes out.new ≡ with_open (string_bytes out.old) x y end) }
{
    push_left_open(out, end, y, x)
}

/// Adds a rectangle that is open at the left.
fn push_left_open(out: &mut String, x: u128, y: u128, end: u128) -> Result<(), Memory>
    ensures { OnOk result (string_bytes out.new ≡ with_left_open (string_bytes out.old) x y end) }
{
    write!(out, "<path class='bar' d='M{x} {y}")?;
    push_turn(out, x, end)
}

/// Adds a rectangle that is open at both ends. Its line leaves out the right side.
fn push_both_open(out: &mut String, x: u128, y: u128, end: u128) -> Result<(), Memory>
    ensures { OnOk result (string_bytes out.new ≡ with_both_open (string_bytes out.old) x y end) }
{
    push_dashes(out, x, y, end.saturating_sub(x))?;
    push_turn(out, x, end)
}

/// Adds the beginning of a line that leaves out a gap of 18 units after `span` units.
fn push_dashes(out: &mut String, x: u128, y: u128, span: u128) -> Result<(), Memory>
    ensures { OnOk result (string_bytes out.new ≡ string_bytes out.old ++ dashes_text x y span) }
{
    write!(
        out,
        "<path class='bar' stroke-dasharray='{span} 18' d='M{x} {y}"
    )?;
    Ok(())
}

/// Adds a line to the right, down and back.
fn push_turn(out: &mut String, x: u128, end: u128) -> Result<(), Memory>
    ensures { OnOk result (string_bytes out.new ≡ string_bytes out.old ++ turn_text x end) }
{
    write!(out, "H{end}v18H{x}'/>")?;
    Ok(())
}

/// Adds stripes to a bar if its response is where the history goes wrong.
fn push_stripes(out: &mut String, width: u8, columns: usize, bar: &Bar) -> Result<(), Memory>
    ensures { OnOk result (string_bytes out.new ≡ with_stripes (string_bytes out.old) width columns
        bar.now) }
{
    if !bar.is_wrong {
        return Ok(());
    }
    let x = x_of(width, bar.from);
    let end = x_of(width, end_of(columns, bar));
    push_dashed(out, x, y_of(bar.lane) + 28, end)
}

/// Adds stripes: a dashed line as thick as a bar.
fn push_dashed(out: &mut String, x: u128, y: u128, end: u128) -> Result<(), Memory>
    ensures { OnOk result (string_bytes out.new ≡ string_bytes out.old ++ stripes_text x y end) }
{
    write!(out, "<path class='stripes' d='M{x} {y}H{end}'/>")?;
    Ok(())
}

/// Returns how the number of a call is drawn: smaller if it has more than three digits, so that it
/// ends before the circle in the next column.
fn number_class(number: usize) -> &'static str
    ensures { result.now ≡ number_class number }
{
    if number > 999 {
        "number long"
    } else {
        "number"
    }
}

/// Adds the number of a bar's call.
fn push_number(out: &mut String, width: u8, bar: &Bar) -> Result<(), Memory>
    ensures { OnOk result (string_bytes out.new ≡ string_bytes out.old ++ number_text width
        bar.now) }
{
    let x = x_of(width, bar.from) + 3;
    let y = y_of(bar.lane) + 32;
    let number = bar.number;
    let class = number_class(number);
    write!(out, "<text class='{class}' x='{x}' y='{y}'>{number}</text>")?;
    Ok(())
}

/// Adds the words of a bar: the call above it, the reply below.
fn push_words(out: &mut String, width: u8, columns: usize, bar: &Bar) -> Result<(), Memory>
    ensures { OnOk result (string_bytes out.new ≡ with_words (string_bytes out.old) width columns
        bar.now) }
{
    let room = room_of(width, columns, bar);
    let x = x_of(width, bar.from) + 1;
    let above = y_of(bar.lane) + 14;
    let below = y_of(bar.lane) + 49;
    push_label(out, x, above, bar.call.as_bytes(), room)?;
    push_label(out, x, below, reply_label(bar), room)?;
    Ok(())
}

/// Returns the words of a bar's reply, or that it is pending.
fn reply_label(bar: &Bar) -> &[u8]
    ensures { result.now ≡ reply_label (option_map string_bytes bar.now.reply) }
{
    match &bar.reply {
        Some(reply) => reply.as_bytes(),
        None => b"pending",
    }
}

/// Adds words at a place.
fn push_label(out: &mut String, x: u128, y: u128, words: &[u8], room: u128) -> Result<(), Memory>
    ensures { OnOk result (string_bytes out.new ≡ with_label (string_bytes out.old) x y words.now
        room) }
{
    write!(out, "<text x='{x}' y='{y}'>")?;
    push_shown(out, words, room)?;
    out.push_str("</text>")?;
    Ok(())
}
