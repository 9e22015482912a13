//! The lines of images. They have no number.

ghost use Rattle.std.specs.Prelude.{◌≡◌, ◌≤◌, ◌∷◌, [], ◌++◌, OnOk, codes, false, length, List};
ghost use Rattle.std.specs.Fmt.{decimal};
ghost use Rattle.dr_ids.specs.Spelling.{hex4};
ghost use Rattle.dr_model.specs.LineText.{bytes_text, spaced};
ghost use Rattle.dr_model.specs.Text.{Heard as Told, line_text, trimmed};
ghost use Rattle.dr_list.specs.Numbered.{is_numbered};

use crate::pieces::trimmed_len;
use crate::tail::Tail;
use dr_model::Event;
use std::alloc::AllocError;

/// Adds in front a word, a volume and a number.
fn put_of_volume(tail: &mut Tail, word: &[u8], volume: u16, n: u32)
    requires { (length word.now ≤ 6) × (length tail.old ≤ 140) }
    ensures { tail.new ≡ word.now ++ codes " " ++ hex4 volume ++ codes " " ++ decimal n ++ tail.old }
{
    tail.number(n);
    tail.word(b" ");
    tail.hex4(volume);
    tail.word(b" ");
    tail.word(word);
}

/// Adds a volume with the number of its server, and how many tracks it has.
fn push_image_volume(
    out: &mut Vec<u8>,
    volume: u16,
    server: u8,
    tracks: u16,
) -> Result<(), AllocError>
    ensures { OnOk result (out.new.items ≡ out.old.items ++ (codes "volume" ++ spaced (hex4 volume ∷ decimal server ∷ decimal tracks ∷ []) ++ 10 ∷ [])) }
{
    let mut tail = Tail::end_of_line();
    tail.number(u32::from(tracks));
    tail.word(b" ");
    put_of_volume(&mut tail, b"volume", volume, u32::from(server));
    out.extend_from_slice(tail.bytes())
}

/// Adds a block of a volume's device with its number, without the zero bytes at its end.
fn push_image_block(
    out: &mut Vec<u8>,
    volume: u16,
    index: u16,
    bytes: &[u8],
) -> Result<(), AllocError>
    requires { length bytes.now ≤ 64 }
    ensures { OnOk result (out.new.items ≡ out.old.items ++ (codes "block" ++ spaced (hex4 volume ∷ decimal index ∷ bytes_text (trimmed bytes.now) ∷ []) ++ 10 ∷ [])) }
{
    let mut tail = Tail::end_of_line();
    tail.hex(&bytes[..trimmed_len(bytes)]);
    tail.word(b" ");
    put_of_volume(&mut tail, b"block", volume, u32::from(index));
    out.extend_from_slice(tail.bytes())
}

/// Adds the line that an event of an image prints; another event without a number prints none.
pub(crate) fn push_image_line(out: &mut Vec<u8>, event: &Event) -> Result<(), AllocError>
    requires { is_numbered event.now ≡ false }
    ensures { (told : Told) → OnOk result (out.new.items ≡ out.old.items ++ line_text told event.now) }
{
    match event {
        Event::ImageStart => out.extend_from_slice(b"image 1\n"),
        Event::ImageVolume {
            volume,
            server,
            tracks,
        } => push_image_volume(out, *volume, *server, *tracks),
        Event::ImageBlock {
            volume,
            index,
            bytes,
        } => push_image_block(out, *volume, *index, bytes),
        Event::ImageEnd => out.extend_from_slice(b"end\n"),
        _ => Ok(()),
    }
}
