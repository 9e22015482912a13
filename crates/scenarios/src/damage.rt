//! Damaged images: each byte of a good one changed to others, and each front of it.

use crate::run::recover_image;
use dr_image::{ImageFault, read_image, write_image};
use std::alloc::{AllocError, Global};
use thiserror::Error;

/// A good image: a secondary, and its target with the record of their relationship.
const IMAGE: &str = "\
image 1\n\
volume 2000 0 1\n\
volume 3000 0 1\n\
block 2000 13 41\n\
block 3000 0 01\n\
block 3000 7 00000000009F01000000000020000000000000000000000000000001\n\
end\n\
";

/// The bits that are turned in each byte, one at a time.
const BITS: [u8; 8] = [1, 2, 4, 8, 16, 32, 64, 128];

/// The bytes that a recovery may print: one that prints more ends with another status.
const ROOM: usize = 4096;

/// What is done to an image.
#[derive(Clone, Copy)]
pub enum Damage {
    /// The byte at this place is this one.
    Byte { place: usize, byte: u8 },
    /// The image ends before this place.
    Cut { place: usize },
}

/// How a damaged image was answered, rightly.
#[derive(Clone, Copy)]
pub enum Told {
    /// As no image, with its first bad line.
    Bad,
    /// As the image that it is now.
    Good,
}

/// What is wrong with the answer to a damaged image.
#[derive(Debug, Drop, Error)]
pub enum DamageFault {
    #[error("it is an image, and isn't written as it was read")]
    Written,
    #[error("it is an image, and the status is {status}")]
    Refused { status: u8 },
    #[error("line {line} is past the end")]
    PastTheEnd { line: u32 },
    #[error("its line {line} is bad, and the answer isn't that")]
    Answer { line: u32 },
    #[error(transparent)]
    Memory(#[from(alloc)] AllocError),
}

/// All that is done to the image.
pub fn damages(alloc: Global) -> Result<Vec<Damage>, AllocError> {
    let mut damages = Vec::new(alloc);
    for (place, byte) in IMAGE.as_bytes().iter().enumerate() {
        for bit in BITS {
            damages.push(Damage::Byte {
                place,
                byte: *byte ^ bit,
            })?;
        }
        damages.push(Damage::Cut { place })?;
    }
    Ok(damages)
}

/// The line that names what is done, for the fault that is printed behind it.
pub fn name_of(alloc: Global, damage: Damage) -> Result<String, AllocError> {
    match damage {
        Damage::Byte { place, byte } => format!(in alloc; "byte {place} as {byte}"),
        Damage::Cut { place } => format!(in alloc; "cut at byte {place}"),
    }
}

/// The image, damaged so.
fn damaged(alloc: Global, damage: Damage) -> Result<Vec<u8>, AllocError> {
    let mut text = Vec::from_slice(alloc, IMAGE.as_bytes())?;
    match damage {
        Damage::Byte { place, byte } => {
            if place < text.len() {
                text[place] = byte;
            }
        }
        Damage::Cut { place } => text.truncate(place),
    }
    Ok(text)
}

/// The lines of a text, with the one behind its last line feed.
fn line_count(text: &[u8]) -> usize {
    text.iter()
        .filter(|byte| **byte == b'\n')
        .count()
        .saturating_add(1)
}

/// Whether a line of this number is one of a text's, counted from 1.
fn is_line_of(text: &[u8], line: u32) -> bool {
    match usize::try_from(line) {
        Ok(line) => 1 <= line && line <= line_count(text),
        Err(_) => false,
    }
}

/// Recovers the image damaged so. Where it is bad, the answer has to be its first bad line, which it has; else it has to be
/// written as it reads, and answered by a decision, a contradiction, or that it has no members.
pub fn check_damage(alloc: Global, damage: Damage) -> Result<Told, DamageFault> {
    let text = damaged(alloc, damage)?;
    let outcome = recover_image(alloc, &text, ROOM)?;
    match read_image(alloc, &text) {
        Ok(image) => {
            if write_image(alloc, &image)?.bytes() != text.as_slice() {
                return Err(DamageFault::Written);
            }
            match outcome.status {
                0 | 8 | 9 => Ok(Told::Good),
                status => Err(DamageFault::Refused { status }),
            }
        }
        Err(ImageFault::BadImage { line }) => {
            if !is_line_of(&text, line) {
                return Err(DamageFault::PastTheEnd { line });
            }
            let answer = format!(in alloc; "bad image line {line}\n")?;
            if outcome.status == 7 && outcome.printed.as_slice() == answer.as_bytes() {
                Ok(Told::Bad)
            } else {
                Err(DamageFault::Answer { line })
            }
        }
        Err(ImageFault::NoMemory) => Err(DamageFault::Memory(AllocError)),
    }
}
