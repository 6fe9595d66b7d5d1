// Positions in the picture, in the units of the text.
ghost use Rattle.std.specs.Prelude.{◌≡◌, ◌≤◌, ◌<◌, ◌^◌};
ghost use Rattle.draw_svg.specs.Layout.{x_of, y_of, end_of, room_of, height_of, width_of, letters_of, asked_width, widest, column_width};
ghost use Rattle.draw_svg.specs.Layout.{per_screen, screens_before, screen_width, names_at, part_height, start_width};

use draw_picture::{Bar, Picture, PicturePart};

/// Returns how many columns are between two columns of names, at this width of a column.
fn per_screen(width: u8) -> u16
    ensures { result ≡ per_screen width }
{
    1104 / width.max(1) as u16
}

/// Returns how many columns of names are before a column, apart from that at the left.
pub fn screens_before(width: u8, column: usize) -> usize
    ensures { result ≡ screens_before width column }
{
    column.saturating_sub(1) / per_screen(width).max(1) as usize
}

/// Returns the width of a column of names together with the columns up to the next one.
fn screen_width(width: u8) -> u32
    ensures { result ≡ screen_width width }
{
    width as u32 * per_screen(width) as u32 + 96
}

/// Returns the left end of a column of names. The column of names at the left has number 0, and is
/// elsewhere.
pub fn names_at(width: u8, screen: usize) -> u128
    ensures { result ≡ names_at width screen }
{
    16 + width as u128 + screen_width(width) as u128 * screen as u128
}

/// Returns the position of a column from the left, at this width of a column: after the columns of
/// names before it.
pub fn x_of(width: u8, column: usize) -> u128
    ensures value { result ≡ x_of width column }
    ensures small { result < 2 ^ 80 }
{
    96 + width as u128 * column as u128 + 96 * screens_before(width, column) as u128
}

/// Returns the position of a lane from the top.
pub fn y_of(lane: usize) -> u128
    ensures value { result ≡ y_of lane }
    ensures small { result < 2 ^ 80 }
{
    70 + 58 * lane as u128
}

/// Returns the column in which a bar ends: that of its response, or the one after all columns.
pub fn end_of(columns: usize, bar: &Bar) -> usize
    ensures { result ≡ end_of columns bar.now }
{
    match bar.to {
        Some(to) => to,
        None => columns,
    }
}

/// Returns the number of letters that fit above a bar, up to where the next bar in its lane may
/// begin.
pub fn room_of(width: u8, columns: usize, bar: &Bar) -> u128
    ensures { result ≡ room_of width columns bar.now }
{
    let span = end_of(columns, bar).saturating_sub(bar.from) as u128;
    (width as u128 * (span + 1)).saturating_sub(6) / 6
}

/// Returns the width of a picture: its columns, and at least the room for the words above and below
/// its lanes.
pub fn width_of(width: u8, columns: usize) -> u128
    ensures { result ≡ width_of width columns }
{
    (x_of(width, columns) + 32).max(680)
}

/// Returns the height of a picture.
pub fn height_of(lanes: usize, part: &Option<PicturePart>) -> u128
    ensures { result ≡ height_of lanes part.now }
{
    y_of(lanes) + 50 + part_height(part)
}

/// Returns the part of the height for the words on a part.
fn part_height(part: &Option<PicturePart>) -> u128
    ensures value { result ≡ part_height part.now }
    ensures small { result ≤ 16 }
{
    match part {
        Some(_) => 16,
        None => 0,
    }
}

/// Returns the width of the words before the pairs at the start.
pub fn start_width(part: &Option<PicturePart>) -> u128
    ensures { result ≡ start_width part.now }
{
    match part {
        Some(_) => 198,
        None => 72,
    }
}

/// Returns the width of a column: the one at which the words of all bars have room, from 28 to 72.
/// It is less if up to 38 columns then fit on 1,200 units.
pub fn column_width(picture: &Picture) -> u8
    ensures { result ≡ column_width picture.now.columns picture.now.bars.items }
{
    asked_width(picture).min(greatest_width(picture.columns))
}

/// Returns the greatest width of a column, for this many columns.
fn greatest_width(columns: usize) -> u8
    ensures { result ≡ widest columns }
{
    if columns > 38 {
        return 72;
    }
    (1072 / columns.max(1)).min(72) as u8
}

/// Returns the width of a column that the words of all bars need, from 28 to 72.
fn asked_width(picture: &Picture) -> u8
    ensures { result ≡ asked_width picture.now.columns picture.now.bars.items }
{
    let mut width: u8 = 28;
    for bar in &picture.bars {
        let span = end_of(picture.columns, bar).saturating_sub(bar.from) as u128 + 1;
        let need = (longest_words(bar) as u128 * 6 + 6) / span + 1;
        width = if need >= 72 {
            72
        } else {
            width.max(need as u8)
        };
    }
    width
}

/// Returns the length of a bar's call or of its reply in words, whichever is longer.
fn longest_words(bar: &Bar) -> usize
    ensures { result ≡ letters_of bar.now }
{
    match &bar.reply {
        Some(reply) => bar.call.len().max(reply.len()),
        None => bar.call.len(),
    }
}
