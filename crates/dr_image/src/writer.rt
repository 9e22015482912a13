//! Writes images.

ghost use Rattle.std.specs.Prelude.{◌≡◌, ◌++◌, ◌∷◌, [], map, codes, List, Ok, OnOk, IfOk};
ghost use Rattle.std.specs.List.{flat_map};
ghost use Rattle.std.specs.Fmt.{decimal};
ghost use Rattle.dr_ids.specs.Spelling.{hex2, hex4};
ghost use Rattle.dr_model.specs.LineText.{bytes_text};
ghost use Rattle.dr_model.specs.Text.{trimmed};
ghost use Rattle.dr_model.specs.PlantImage.{volume_line, block_line, block_lines, ended, image_text, reading, Volume, IsImage};
ghost use Rattle.dr_image.specs.Sound.{IsSoundImage};
ghost use Rattle.dr_image.specs.Shown.{kept, shown, all_shown};

use crate::held::{Held, KeptBlock};
use crate::image::Image;
use dr_ids::{Text, upper_hex};
use std::alloc::{AllocError, Global};

/// Adds a byte in two upper-case hexadecimal digits.
fn push_byte(text: &mut Text, byte: u8) -> Result<(), AllocError>
    ensures { OnOk result (text.new ≡ text.old ++ hex2 byte) }
{
    let digits = [upper_hex(byte / 16), upper_hex(byte % 16)];
    text.append(&digits)
}

/// Adds a space and a volume's number in four hexadecimal digits.
pub fn push_id(text: &mut Text, id: u16) -> Result<(), AllocError>
    ensures { OnOk result (text.new ≡ text.old ++ codes " " ++ hex4 id) }
{
    text.append(b" ")?;
    push_byte(text, (id / 256) as u8)?;
    push_byte(text, (id % 256) as u8)
}

/// Adds a number in decimal digits.
pub fn push_decimal(alloc: Global, text: &mut Text, n: u32) -> Result<(), AllocError>
    ensures { OnOk result (text.new ≡ text.old ++ decimal n) }
{
    let digits = n.to_string(alloc)?;
    text.append(digits.as_bytes())
}

/// Adds a space and a number in decimal digits.
pub fn push_number(alloc: Global, text: &mut Text, n: u32) -> Result<(), AllocError>
    ensures { OnOk result (text.new ≡ text.old ++ codes " " ++ decimal n) }
{
    text.append(b" ")?;
    push_decimal(alloc, text, n)
}

#[tactic(auto, unfolding(dr_model::specs::PlantImage::volume_line))]
fn push_volume(alloc: Global, text: &mut Text, held: &Held) -> Result<(), AllocError>
    ensures { OnOk result (text.new ≡ text.old ++ ended (volume_line (shown held.now) ∷ [])) }
{
    text.append(b"volume")?;
    push_id(text, held.volume.volume.0)?;
    push_number(alloc, text, u32::from(held.volume.server))?;
    push_number(alloc, text, u32::from(held.volume.tracks))?;
    text.append(b"\n")
}

/// Bytes without the zeros at their end.
pub fn trimmed(bytes: &[u8]) -> &[u8]
    ensures { result.now ≡ trimmed bytes.now }
{
    let mut end = bytes.len();
    while 0 < end && bytes[end - 1] == 0 {
        end -= 1;
    }
    &bytes[..end]
}

fn push_bytes(text: &mut Text, bytes: &[u8]) -> Result<(), AllocError>
    ensures { OnOk result (text.new ≡ text.old ++ bytes_text bytes.now) }
{
    for byte in bytes {
        push_byte(text, *byte)?;
    }
    Ok(())
}

/// Adds a space and the bytes of a block in hexadecimal digits, without the zeros at their end.
pub fn push_kept(text: &mut Text, bytes: &[u8]) -> Result<(), AllocError>
    ensures { OnOk result (text.new ≡ text.old ++ codes " " ++ bytes_text (trimmed bytes.now)) }
{
    text.append(b" ")?;
    push_bytes(text, trimmed(bytes))
}

#[tactic(auto, unfolding(dr_model::specs::PlantImage::block_line))]
fn push_block(
    alloc: Global,
    text: &mut Text,
    volume: u16,
    block: &KeptBlock,
) -> Result<(), AllocError>
    ensures { OnOk result (text.new ≡ text.old ++ ended (block_line volume (kept block.now) ∷ [])) }
{
    text.append(b"block")?;
    push_id(text, volume)?;
    push_number(alloc, text, u32::from(block.index))?;
    push_kept(text, &block.bytes)?;
    text.append(b"\n")
}

fn push_blocks(alloc: Global, text: &mut Text, held: &Held) -> Result<(), AllocError>
    ensures { OnOk result (text.new ≡ text.old ++ ended (block_lines (shown held.now))) }
{
    let blocks = held.blocks.as_slice();
    for block in blocks {
        push_block(alloc, text, held.volume.volume.0, block)?;
    }
    Ok(())
}

fn push_volumes(alloc: Global, text: &mut Text, volumes: &[Held]) -> Result<(), AllocError>
    ensures { OnOk result (text.new ≡ text.old ++ ended (map volume_line (all_shown volumes.now))) }
{
    for held in volumes {
        push_volume(alloc, text, held)?;
    }
    Ok(())
}

fn push_all_blocks(alloc: Global, text: &mut Text, volumes: &[Held]) -> Result<(), AllocError>
    ensures { OnOk result (text.new ≡ text.old ++ ended (flat_map block_lines (all_shown volumes.now))) }
{
    for held in volumes {
        push_blocks(alloc, text, held)?;
    }
    Ok(())
}

fn write_whole(alloc: Global, i: &Image) -> Result<Text, AllocError>
    ensures text { IfOk result (λ text. text ≡ image_text i.now) }
    ensures sound { IsSoundImage i.now }
{
    let volumes = i.volumes.as_slice();
    let mut text = Text::new(alloc);
    text.append(b"image 1\n")?;
    push_volumes(alloc, &mut text, volumes)?;
    push_all_blocks(alloc, &mut text, volumes)?;
    text.append(b"end\n")?;
    Ok(text)
}

/// The text of an image. Where it reads as an image, it reads as this one, and that of a proper image
/// does. Fails where there is no memory.
pub fn write_image(alloc: Global, i: &Image) -> Result<Text, AllocError>
    ensures text { IfOk result (λ text. text ≡ image_text i.now) }
    ensures reads { IfOk result (λ text. (image : List Volume) → reading text ≡ Ok image → image ≡ i.now) }
    ensures proper { IfOk result (λ text. IsImage i.now → reading text ≡ Ok i.now) }
{
    write_whole(alloc, i)
}
