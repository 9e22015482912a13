//! The words of a line, and what single words say.

ghost use Rattle.std.specs.Prelude.{◌≡◌, ◌≤◌, ◌*◌, ◌-◌, ◌++◌, ◌∷◌, length, replicate};
ghost use Rattle.std.specs.List.{position};
ghost use Rattle.std.specs.Option.{option_copied, option_map};
ghost use Rattle.dr_model.specs.PlantImage.{is_space, words};
ghost use Rattle.dr_model.specs.PlantImage.{upper_value, upper_pair, upper_bytes, id_word, has_leading_zero, plain_word, kept_word};
ghost use Rattle.dr_image.specs.Lines.{words_after, only, IsNextOf};

use crate::held::zero_block;
use dr_ids::{VolumeId, hex_value, read_number};

/// Where the first space is.
fn space_at(line: &[u8]) -> Option<usize>
    ensures { result ≡ position is_space line.now }
{
    line.iter().position(|b| *b == b' ')
}

/// The bytes before the first space, and those behind it, where there is one.
pub fn split_word(line: &[u8]) -> (&[u8], Option<&[u8]>)
    ensures { words line.now ≡ result.0.now ∷ words_after result.1 }
{
    match space_at(line) {
        Some(place) => (&line[..place], Some(&line[place + 1..])),
        None => (line, None),
    }
}

/// The next word of what is left of a line, and what is left behind it.
pub fn next_word(rest: Option<&[u8]>) -> Option<(&[u8], Option<&[u8]>)>
    ensures { IsNextOf (words_after rest.entry) result }
{
    Some(split_word(rest?))
}

/// The one word that is left of a line.
pub fn last_word(rest: Option<&[u8]>) -> Option<&[u8]>
    ensures { option_copied result ≡ only (words_after rest.entry) }
{
    let (word, rest) = next_word(rest)?;
    match rest {
        None => Some(word),
        Some(_) => None,
    }
}

/// The value of a hexadecimal digit; letters are in upper case.
fn upper_value(digit: u8) -> Option<u8>
    ensures { result ≡ upper_value digit }
{
    if digit < b'a' { hex_value(digit) } else { None }
}

/// The byte that two digits spell.
fn upper_pair(high: u8, low: u8) -> Option<u8>
    ensures { result ≡ upper_pair high low }
{
    let high = upper_value(high)?;
    let low = upper_value(low)?;
    Some(high * 16 + low)
}

/// The volume that four digits name.
pub fn read_id(word: &[u8]) -> Option<VolumeId>
    ensures { option_map (λ v. v.0) result ≡ id_word word.now }
{
    match word {
        [a, b, c, d] => {
            let high = upper_pair(*a, *b)?;
            let low = upper_pair(*c, *d)?;
            Some(VolumeId(u16::from(high) * 256 + u16::from(low)))
        }
        _ => None,
    }
}

fn has_leading_zero(word: &[u8]) -> bool
    ensures { result ≡ has_leading_zero word.now }
{
    match word {
        [first, _, ..] => *first == b'0',
        _ => false,
    }
}

/// A number in decimal digits without leading zeros.
pub fn read_plain(word: &[u8]) -> Option<u32>
    ensures { result ≡ plain_word word.now }
{
    if has_leading_zero(word) {
        None
    } else {
        read_number(word, u32::MAX)
    }
}

/// The bytes that so many pairs of digits spell, with zeros behind them.
fn read_pairs(word: &[u8], count: usize) -> Option<[u8; 64]>
    requires few { count ≤ 64 }
    requires pairs { length word.now ≡ 2 * count }
    ensures { result ≡ option_map (λ bytes. bytes ++ replicate (64 - length bytes) 0) (upper_bytes word.now) }
{
    let mut bytes = zero_block();
    for i in 0..count {
        bytes[i] = upper_pair(word[2 * i], word[2 * i + 1])?;
    }
    Some(bytes)
}

/// A block: the bytes that begin it, the last of them not zero.
pub fn read_kept(word: &[u8]) -> Option<[u8; 64]>
    ensures { result ≡ kept_word word.now }
{
    let count = word.len() / 2;
    if count == 0 {
        return None;
    }
    if 64 < count {
        return None;
    }
    if word.len() != 2 * count {
        return None;
    }
    let bytes = read_pairs(word, count)?;
    if bytes[count - 1] == 0 {
        None
    } else {
        Some(bytes)
    }
}
