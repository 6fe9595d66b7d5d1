// The text of a picture.
ghost use Rattle.std.specs.Prelude.{◌≡◌, ◌-◌, [], ◌++◌, IfOk, OnOk, codes, string_bytes};
ghost use Rattle.draw_svg.specs.Layout.{column_width, screens_before, width_of};
ghost use Rattle.draw_svg.specs.Parts.{with_part, with_screens};
ghost use Rattle.draw_svg.specs.Svg.{top_text, with_bars, with_marks, with_lanes, with_legend_of, IsSvgOf};

use crate::bar_text::push_bar;
use crate::frame::{has_wrong, push_head, push_heading, push_lane, push_legend, push_start};
use crate::layout::{column_width, height_of, screens_before, start_width, width_of, y_of};
use crate::mark_text::push_mark;
use crate::part_text::{push_part, push_screens};
use crate::style::STYLE;
use draw_picture::{Bar, Mark, Picture};
use events::Memory;
use std::alloc::Global;

/// Returns the text of a picture, one SVG. It takes time in proportion to its length.
pub fn svg(alloc: Global, picture: &Picture) -> Result<String, Memory>
    ensures { IfOk result (λ text. IsSvgOf STYLE.now picture.now (string_bytes text)) }
{
    let width = column_width(picture);
    let all = width_of(width, picture.columns);
    let mut text = top_of(alloc, all, picture)?;
    push_below(&mut text, width, all, picture)?;
    Ok(text)
}

/// Returns the text above the lanes.
fn top_of(alloc: Global, all: u128, picture: &Picture) -> Result<String, Memory>
    ensures { IfOk result (λ text. string_bytes text ≡ top_text STYLE.now all picture.now) }
{
    let mut text = String::new(alloc);
    push_top(&mut text, alloc, all, picture)?;
    Ok(text)
}

/// Adds it to an empty text.
#[tactic(auto, unfolding(crate::specs::Svg::top_text))]
fn push_top(out: &mut String, alloc: Global, all: u128, picture: &Picture) -> Result<(), Memory>
    requires { string_bytes out.old ≡ [] }
    ensures { OnOk result (string_bytes out.new ≡ top_text STYLE.now all picture.now) }
{
    push_head(out, all, height_of(picture.lanes.len(), &picture.part))?;
    out.push_str(STYLE)?;
    push_heading(out, &picture.heading)?;
    let room = all
        .saturating_sub(32)
        .saturating_sub(start_width(&picture.part))
        / 6;
    push_start(out, alloc, &picture.part, &picture.start, room)
}

/// Adds the lanes, with what is in them and below.
fn push_below(out: &mut String, width: u8, all: u128, picture: &Picture) -> Result<(), Memory>
    requires width { width ≡ column_width picture.now.columns picture.now.bars.items }
    requires all { all ≡ width_of width picture.now.columns }
    requires top { string_bytes out.old ≡ top_text STYLE.now all picture.now }
    ensures { OnOk result (IsSvgOf STYLE.now picture.now (string_bytes out.new)) }
{
    push_calls(out, width, all, picture)?;
    push_order(out, width, picture)?;
    push_foot(out, width, picture)?;
    Ok(())
}

/// Adds the lanes, and the bars in them.
fn push_calls(out: &mut String, width: u8, all: u128, picture: &Picture) -> Result<(), Memory>
    ensures { OnOk result (string_bytes out.new
        ≡ with_bars (with_lanes (string_bytes out.old) (all - 16) 0 picture.now.lanes.items)
        width picture.now.columns picture.now.bars.items) }
{
    push_lanes(out, all.saturating_sub(16), &picture.lanes)?;
    push_bars(out, width, picture.columns, &picture.bars)
}

/// Adds the columns of names, and the marks.
fn push_order(out: &mut String, width: u8, picture: &Picture) -> Result<(), Memory>
    ensures { OnOk result (string_bytes out.new
        ≡ with_marks (with_screens (string_bytes out.old) width picture.now.lanes.items 0
        (screens_before width picture.now.columns))
        width picture.now.bars.items picture.now.marks.items) }
{
    let screens = screens_before(width, picture.columns);
    push_screens(out, width, screens, &picture.lanes)?;
    push_marks(out, width, &picture.bars, &picture.marks)
}

/// Adds the text below the lanes, and the words on a part.
fn push_foot(out: &mut String, width: u8, picture: &Picture) -> Result<(), Memory>
    ensures { OnOk result (string_bytes out.new
        ≡ with_part (with_legend_of (string_bytes out.old) picture.now) width picture.now ++ codes
        "</svg>") }
{
    push_legend_of(out, picture)?;
    push_part(out, width, picture)?;
    out.push_str("</svg>")?;
    Ok(())
}

/// Adds what the shapes mean.
fn push_legend_of(out: &mut String, picture: &Picture) -> Result<(), Memory>
    ensures { OnOk result (string_bytes out.new ≡ with_legend_of (string_bytes out.old)
        picture.now) }
{
    let bottom = y_of(picture.lanes.len());
    let red = has_wrong(&picture.bars);
    push_legend(out, bottom + 20, &picture.heading, red)?;
    Ok(())
}

/// Adds the lanes.
fn push_lanes(out: &mut String, end: u128, lanes: &[u8]) -> Result<(), Memory>
    ensures { OnOk result (string_bytes out.new ≡ with_lanes (string_bytes out.old) end 0
        lanes.now) }
{
    for (lane, process) in lanes.iter().enumerate() {
        push_lane(out, end, lane, *process)?;
    }
    Ok(())
}

/// Adds the bars.
fn push_bars(out: &mut String, width: u8, columns: usize, bars: &[Bar]) -> Result<(), Memory>
    ensures { OnOk result (string_bytes out.new ≡ with_bars (string_bytes out.old) width columns
        bars.now) }
{
    for bar in bars {
        push_bar(out, width, columns, bar)?;
    }
    Ok(())
}

/// Adds the marks of a picture with these bars.
fn push_marks(out: &mut String, width: u8, bars: &[Bar], marks: &[Mark]) -> Result<(), Memory>
    ensures { OnOk result (string_bytes out.new ≡ with_marks (string_bytes out.old) width bars.now
        marks.now) }
{
    for mark in marks {
        push_mark(out, width, bars, mark)?;
    }
    Ok(())
}
