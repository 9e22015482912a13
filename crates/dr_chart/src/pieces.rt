//! What the picture is made of: attributes, rectangles and texts.

ghost use Rattle.std.specs.Prelude.{◌≡◌, ◌++◌, OnOk};
ghost use Rattle.dr_chart.specs.Picture.{shown, escaped, attribute, rect_text, turned, text_end, palette, paint};

use crate::columns::Mark;
use dr_ids::Text;
use dr_rows::push_total;
use std::alloc::AllocError;

/// Adds a byte as XML takes it.
fn push_shown(text: &mut Text, byte: u8) -> Result<(), AllocError>
    ensures { OnOk result (text.new ≡ text.old ++ shown byte) }
{
    match byte {
        b'<' => text.append(b"&lt;"),
        b'>' => text.append(b"&gt;"),
        b'&' => text.append(b"&amp;"),
        0..32 => text.append(b" "),
        127.. => text.append(b"&#xFFFD;"),
        _ => text.append(&[byte]),
    }
}

/// Adds a text that XML takes as no mark.
pub(crate) fn push_escaped(text: &mut Text, said: &[u8]) -> Result<(), AllocError>
    ensures { OnOk result (text.new ≡ text.old ++ escaped said.now) }
{
    for byte in said {
        push_shown(text, *byte)?;
    }
    Ok(())
}

/// Adds an attribute that is a number.
pub(crate) fn push_attribute(text: &mut Text, name: &[u8], n: u128) -> Result<(), AllocError>
    ensures { OnOk result (text.new ≡ text.old ++ attribute name.now n) }
{
    text.append(b" ")?;
    text.append(name)?;
    text.append(b"='")?;
    push_total(text, n)?;
    text.append(b"'")
}

/// Adds a rectangle.
#[tactic(auto, unfolding(crate::specs::Picture::rect_text))]
pub(crate) fn push_rect(
    text: &mut Text,
    x: u128,
    y: u128,
    width: u128,
    height: u128,
    paint: &[u8],
) -> Result<(), AllocError>
    ensures { OnOk result (text.new ≡ text.old ++ rect_text x y width height paint.now) }
{
    text.append(b"<rect")?;
    push_attribute(text, b"x", x)?;
    push_attribute(text, b"y", y)?;
    push_attribute(text, b"width", width)?;
    push_attribute(text, b"height", height)?;
    text.append(b" ")?;
    text.append(paint)?;
    text.append(b"/>\n")
}

/// Adds the begin of a text that is read from below.
pub(crate) fn push_turned(text: &mut Text, x: u128, y: u128) -> Result<(), AllocError>
    ensures { OnOk result (text.new ≡ text.old ++ turned x y) }
{
    text.append(b"<text transform='translate(")?;
    push_total(text, x)?;
    text.append(b" ")?;
    push_total(text, y)?;
    text.append(b") rotate(-90)' font-size='10'")
}

/// Adds the end of a text.
pub(crate) fn push_text_end(text: &mut Text) -> Result<(), AllocError>
    ensures { OnOk result (text.new ≡ text.old ++ text_end) }
{
    text.append(b"</text>\n")
}

/// One of six colours, by a number modulo 6.
fn palette(n: u32) -> &'static [u8]
    ensures { result.now ≡ palette n }
{
    match n {
        0 => b"fill='#9c755f'",
        1 => b"fill='#4e79a7'",
        2 => b"fill='#59a14f'",
        3 => b"fill='#edc948'",
        4 => b"fill='#b07aa1'",
        _ => b"fill='#76b7b2'",
    }
}

/// How a mark is painted.
pub(crate) fn paint(mark: Mark) -> &'static [u8]
    ensures { result.now ≡ paint mark }
{
    match mark {
        Mark::Group(n) => palette(n),
        Mark::NoGroup => b"fill='#bbbbbb'",
        Mark::NoSession => b"fill='#ffffff' stroke='#999999' stroke-width='50'",
        Mark::Torn => b"fill='#e31a1c'",
        Mark::Broken => b"fill='#000000'",
        Mark::Short => b"fill='#888888'",
    }
}
