// The additions to a text that is long, or that shows a part of a picture.
ghost use Rattle.std.specs.Prelude.{◌≡◌, ◌++◌, OnOk, string_bytes};
ghost use Rattle.draw_svg.specs.Parts.{again_text, with_names, with_screens, line_text, before_text, after_text};
ghost use Rattle.draw_svg.specs.Parts.{with_before, with_after, counts_text, alone_text, note_text, with_counts, with_note, with_part};

use crate::layout::{names_at, x_of, y_of};
use draw_picture::{Heading, Picture, PicturePart};
use events::Memory;

/// Adds this many columns of names after the one at the left.
pub fn push_screens(out: &mut String, width: u8, screens: usize, lanes: &[u8]) -> Result<(), Memory>
    ensures { OnOk result (string_bytes out.new ≡ with_screens (string_bytes out.old) width
        lanes.now 0 screens) }
{
    for screen in 0..screens {
        push_names(out, names_at(width, screen + 1), lanes)?;
    }
    Ok(())
}

/// Adds a column of names.
fn push_names(out: &mut String, x: u128, lanes: &[u8]) -> Result<(), Memory>
    ensures { OnOk result (string_bytes out.new ≡ with_names (string_bytes out.old) x 0 lanes.now) }
{
    for (lane, process) in lanes.iter().enumerate() {
        push_again(out, x, y_of(lane) + 32, *process)?;
    }
    Ok(())
}

/// Adds the name of a lane at a place.
fn push_again(out: &mut String, x: u128, y: u128, process: u8) -> Result<(), Memory>
    ensures { OnOk result (string_bytes out.new ≡ string_bytes out.old ++ again_text x y process) }
{
    write!(
        out,
        "<g class='lane'><text x='{x}' y='{y}'>process {process}</text></g>\n"
    )?;
    Ok(())
}

/// Adds the words on a part, if the picture is one. Where there is more at an end, there is a
/// dashed line with the number of columns. Below the legend it says what is shown.
#[tactic(auto, unfolding(crate::specs::Parts::with_part))]
pub fn push_part(out: &mut String, width: u8, picture: &Picture) -> Result<(), Memory>
    ensures { OnOk result (string_bytes out.new ≡ with_part (string_bytes out.old) width
        picture.now) }
{
    let Some(part) = picture.part else {
        return Ok(());
    };
    let bottom = y_of(picture.lanes.len());
    let end = x_of(width, picture.columns) + 8;
    push_before(out, part.before, bottom)?;
    push_after(out, end, part.after, bottom)?;
    push_note(out, bottom + 52, part, picture)?;
    Ok(())
}

/// Adds that there are more columns before the part, if there are.
fn push_before(out: &mut String, count: usize, bottom: u128) -> Result<(), Memory>
    ensures { OnOk result (string_bytes out.new ≡ with_before (string_bytes out.old) count bottom) }
{
    if count == 0 {
        return Ok(());
    }
    push_line(out, 84, bottom)?;
    write!(
        out,
        "<text class='note' x='96' y='66'>&#8592; {count} more columns</text>\n"
    )?;
    Ok(())
}

/// Adds that there are more columns after the part, if there are.
fn push_after(out: &mut String, x: u128, count: usize, bottom: u128) -> Result<(), Memory>
    ensures { OnOk result (string_bytes out.new ≡ with_after (string_bytes out.old) x count
        bottom) }
{
    if count == 0 {
        return Ok(());
    }
    push_line(out, x, bottom)?;
    write!(
        out,
        "<text class='note' text-anchor='end' x='{x}' y='66'>{count} more columns &#8594;</text>\n"
    )?;
    Ok(())
}

/// Adds a dashed line across the lanes.
fn push_line(out: &mut String, x: u128, bottom: u128) -> Result<(), Memory>
    ensures { OnOk result (string_bytes out.new ≡ string_bytes out.old ++ line_text x bottom) }
{
    write!(
        out,
        "<path stroke='#5c6b77' stroke-dasharray='4 3' d='M{x} 70V{bottom}'/>"
    )?;
    Ok(())
}

/// Adds the words on what is shown.
fn push_note(out: &mut String, y: u128, part: PicturePart, picture: &Picture) -> Result<(), Memory>
    ensures { OnOk result (string_bytes out.new
        ≡ with_note (string_bytes out.old) y picture.now.columns part picture.now.is_few
        picture.now.heading) }
{
    push_opening(out, y)?;
    push_counts(out, picture.columns, part)?;
    out.push_str(alone_text(picture.is_few, &picture.heading))?;
    out.push_str("</text>\n")?;
    Ok(())
}

/// Adds the beginning of a line of words.
fn push_opening(out: &mut String, y: u128) -> Result<(), Memory>
    ensures { OnOk result (string_bytes out.new ≡ string_bytes out.old ++ note_text y) }
{
    write!(out, "<text class='note' x='16' y='{y}'>")?;
    Ok(())
}

/// Adds how many columns are shown, of how many, and around which event, if not all are shown.
fn push_counts(out: &mut String, columns: usize, part: PicturePart) -> Result<(), Memory>
    ensures { OnOk result (string_bytes out.new ≡ with_counts (string_bytes out.old) columns
        part) }
{
    let left_out = part.before as u128 + part.after as u128;
    if left_out == 0 {
        return Ok(());
    }
    push_counted(out, columns, part)
}

/// Adds how many columns are shown, of how many, and around which event.
fn push_counted(out: &mut String, columns: usize, part: PicturePart) -> Result<(), Memory>
    ensures { OnOk result (string_bytes out.new ≡ string_bytes out.old ++ counts_text columns
        part) }
{
    let all = part.before as u128 + columns as u128 + part.after as u128;
    let event = part.event;
    write!(out, "{columns} of {all} columns, around event {event}. ")?;
    Ok(())
}

/// Returns the words on which calls are left out: a part of a no or an undecided shows only the
/// named segment, or a few calls of it.
fn alone_text(is_few: bool, heading: &Heading) -> &'static str
    ensures { result.now ≡ alone_text is_few heading.now }
{
    match (is_few, heading) {
        (true, _) => {
            "Calls that show where it goes wrong, with those that put what they read and those that they miss."
        }
        (false, Heading::Order) => "",
        (false, Heading::NoOrder { .. } | Heading::Undecided { .. }) => {
            "Calls outside of the named segment are left out."
        }
    }
}
