// Contents: the text between the tags.
ghost use Rattle.std.specs.Prelude.{◌≡◌, ◌++◌, OnOk, string_bytes};
ghost use Rattle.draw_svg.specs.Content.{escaped_byte, escaped, shown};

use events::Memory;

/// Adds a content to a text, escaped as XML requires: `<`, `>`, `&` and both quotes become
/// references. A byte that is not printable ASCII is written as `?`.
pub fn push_content(out: &mut String, content: &[u8]) -> Result<(), Memory>
    ensures { OnOk result (string_bytes out.new ≡ string_bytes out.old ++ escaped content.now) }
{
    for byte in content {
        push_byte(out, *byte)?;
    }
    Ok(())
}

/// Adds a byte of a content to a text.
fn push_byte(out: &mut String, byte: u8) -> Result<(), Memory>
    ensures { OnOk result (string_bytes out.new ≡ string_bytes out.old ++ escaped_byte byte) }
{
    match byte {
        b'<' => out.push_str("&lt;")?,
        b'>' => out.push_str("&gt;")?,
        b'&' => out.push_str("&amp;")?,
        b'"' => out.push_str("&quot;")?,
        b'\'' => out.push_str("&#39;")?,
        32..=126 => out.push(byte as char)?,
        _ => out.push_str("?")?,
    }
    Ok(())
}

/// Adds a content to a text, cut with an ellipsis if it has more bytes than there is room for.
pub fn push_shown(out: &mut String, content: &[u8], room: u128) -> Result<(), Memory>
    ensures { OnOk result (string_bytes out.new ≡ string_bytes out.old ++ shown room content.now) }
{
    if content.len() as u128 <= room {
        return push_content(out, content);
    }
    let cut = room.saturating_sub(1) as usize;
    push_content(out, &content[..cut])?;
    out.push_str("&#8230;")?;
    Ok(())
}
