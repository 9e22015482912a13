//! What single words say: names, numbers, bytes and choices.

ghost use Rattle.std.specs.Prelude.{◌≡◌, ◌<◌, ◌≤◌, ◌+◌, ◌*◌, ◌%◌, ◌^◌, ◌&&◌, if◌then◌else◌, length, Some, None, IfSome, slice_index, codes};
ghost use Rattle.std.specs.List.{list_all, position};
ghost use Rattle.std.specs.Char.{is_digit};
ghost use Rattle.std.specs.Str.{bytes_eq};
ghost use Rattle.dr_logic.specs.Bytes.{zeros};
ghost use Rattle.dr_ids.specs.Spelling.{all_digits, hex_word, spelled};
ghost use Rattle.dr_model.specs.LineWords.{mark_at, before, behind, is_letter, is_name_byte, is_name, name_of, name_word, decimal_word, most_word, sequence_word, is_hex, digit_or_zero, byte_at, spelled_bytes, torn_bytes_word, torn_word, is_port, are_ports, is_lss, is_path_end, is_control_path, either_word, kind_word};
ghost use Rattle.dr_script.specs.Pieces.{empty_name};

use dr_ids::{hex_value, read_lss, read_number};
use dr_model::{Name, TornWord};

/// Where the first such byte of a word is.
pub(crate) fn find_mark(word: &[u8], mark: u8) -> Option<usize>
    ensures value { result ≡ mark_at mark word.now }
    ensures within { IfSome result (λ i. i < length word.now) }
{
    word.iter().position(|b| *b == mark)
}

fn is_letter(b: u8) -> bool
    ensures { result ≡ is_letter b }
{
    b.is_ascii_alphabetic()
}

fn is_name_byte(b: u8) -> bool
    ensures { result ≡ is_name_byte b }
{
    is_letter(b) || b.is_ascii_digit() || b == b'.' || b == b'-' || b == b'_'
}

fn has_name_bytes(word: &[u8]) -> bool
    ensures { result ≡ list_all is_name_byte word.now }
{
    word.iter().all(|b| is_name_byte(*b))
}

/// The word is a server's name.
fn is_name(word: &[u8]) -> bool
    ensures { result ≡ is_name word.now }
{
    match word {
        [first, ..] => word.len() <= 24 && is_letter(*first) && has_name_bytes(word),
        [] => false,
    }
}

/// A server's name, where the word is one.
pub fn read_name(word: &[u8]) -> Option<Name>
    ensures { result ≡ name_word word.now }
{
    if is_name(word) {
        Some(name_of(word))
    } else {
        None
    }
}

/// The name of at most 24 bytes, with zeros behind them.
fn name_of(word: &[u8]) -> Name
    requires { length word.now ≤ 24 }
    ensures { result ≡ name_of word.now }
{
    let mut bytes = empty_name();
    bytes[..word.len()].copy_from_slice(word);
    Name {
        len: word.len() as u8,
        bytes,
    }
}

/// The bytes of a name that has none.
#[tactic(auto, unfolding(crate::specs::Pieces::empty_name))]
pub(crate) fn empty_name() -> [u8; 24]
    ensures { result ≡ empty_name }
{
    [0; 24]
}

/// A block of zeros.
#[tactic(auto, unfolding(dr_logic::specs::Bytes::zeros))]
pub(crate) fn zero_block() -> [u8; 64]
    ensures { result ≡ zeros }
{
    [0; 64]
}

/// A decimal number below 2^32.
pub fn read_decimal(word: &[u8]) -> Option<u32>
    ensures { result ≡ decimal_word word.now }
{
    read_number(word, u32::MAX)
}

/// A decimal number below 2^32, or all, which is no number.
pub(crate) fn read_most(word: &[u8]) -> Option<Option<u32>>
    ensures { result ≡ most_word word.now }
{
    match word {
        b"all" => Some(None),
        _ => Some(Some(read_decimal(word)?)),
    }
}

fn is_hex_digit(b: u8) -> bool
    ensures { result ≡ is_digit b 16 }
{
    hex_value(b).is_some()
}

/// All bytes are hexadecimal digits.
#[tactic(auto, unfolding(dr_ids::specs::Spelling::all_digits))]
fn are_hex_digits(word: &[u8]) -> bool
    ensures { result ≡ all_digits 16 word.now }
{
    word.iter().all(|b| is_hex_digit(*b))
}

/// The number that at most ten hexadecimal digits spell.
fn spelled_hex(word: &[u8]) -> Option<u64>
    requires { length word.now ≤ 10 }
    ensures value { result ≡ spelled 16 word.now }
    ensures below { IfSome result (λ n. n < 16 ^ length word.now) }
{
    let mut number = 0;
    for digit in word {
        let value = hex_value(*digit)?;
        number = number * 16 + u64::from(value);
    }
    Some(number)
}

/// A sequence number: one to eight hexadecimal digits.
pub(crate) fn read_sequence(word: &[u8]) -> Option<u32>
    ensures { result ≡ sequence_word word.now }
{
    if word.is_empty() || 8 < word.len() {
        return None;
    }
    let number = spelled_hex(word)?;
    Some(number as u32)
}

/// The word spells 1 to 64 bytes.
pub fn is_hex(word: &[u8]) -> bool
    ensures { result ≡ is_hex word.now }
{
    2 <= word.len() && word.len() <= 128 && word.len() % 2 == 0 && are_hex_digits(word)
}

/// The byte that two hexadecimal digits spell.
fn read_pair(high: u8, low: u8) -> Option<u8>
    ensures { result ≡ (if is_digit high 16 && is_digit low 16 then Some (digit_or_zero high * 16 + digit_or_zero low) else None) }
{
    let high = hex_value(high)?;
    let low = hex_value(low)?;
    Some(high * 16 + low)
}

/// The bytes that pairs of hexadecimal digits spell, with zeros behind them.
fn read_pairs(word: &[u8]) -> Option<[u8; 64]>
    requires even { length word.now % 2 ≡ 0 }
    requires short { length word.now ≤ 128 }
    ensures { result ≡ (if all_digits 16 word.now then Some (spelled_bytes word.now) else None) }
{
    let mut bytes = zero_block();
    for k in 0..word.len() / 2 {
        bytes[k] = read_pair(word[2 * k], word[2 * k + 1])?;
    }
    Some(bytes)
}

/// The 1 to 64 bytes that a word spells, with zeros behind them; each digit is looked at once.
pub(crate) fn read_bytes(word: &[u8]) -> Option<[u8; 64]>
    ensures { result ≡ (if is_hex word.now then Some (spelled_bytes word.now) else None) }
{
    if 2 <= word.len() && word.len() <= 128 && word.len() % 2 == 0 {
        read_pairs(word)
    } else {
        None
    }
}

/// The byte that exactly two hexadecimal digits spell.
fn read_byte(word: &[u8]) -> Option<u8>
    ensures { result ≡ hex_word 2 word.now }
{
    let lss = read_lss(word)?;
    Some(lss.0)
}

/// What a stop leaves in a block, where it changes it: one byte that fills it, or 64 bytes.
fn read_torn_bytes(word: &[u8]) -> Option<TornWord>
    ensures { result ≡ torn_bytes_word word.now }
{
    if word.len() == 128 {
        Some(TornWord::Bytes(read_pairs(word)?))
    } else {
        Some(TornWord::Fill(read_byte(word)?))
    }
}

/// What a stop leaves in a block.
pub fn read_torn(word: &[u8]) -> Option<TornWord>
    ensures { result ≡ torn_word word.now }
{
    match word {
        b"none" => Some(TornWord::Same),
        _ => read_torn_bytes(word),
    }
}

/// The word is this text.
pub(crate) fn is_word(word: &[u8], text: &[u8]) -> bool
    ensures { result ≡ bytes_eq word.now text.now }
{
    word == text
}

/// The word is one of two choices: true for the first, false for the second.
pub(crate) fn either(word: &[u8], first: &[u8], second: &[u8]) -> Option<bool>
    ensures { result ≡ either_word first.now second.now word.now }
{
    if word == first {
        Some(true)
    } else if word == second {
        Some(false)
    } else {
        None
    }
}

/// A type of pairs: 1 for Metro Mirror, 2 for Global Copy.
pub(crate) fn read_kind(word: &[u8]) -> Option<u8>
    ensures { result ≡ kind_word word.now }
{
    let metro = either(word, b"mmir", b"gcp")?;
    Some(if metro { 1 } else { 2 })
}

/// The bytes of a word before a place.
pub(crate) fn before(word: &[u8], place: usize) -> &[u8]
    requires { place < length word.now }
    ensures { result.now ≡ before place word.now }
{
    &word[..place]
}

/// The bytes of a word behind the byte at a place.
pub(crate) fn behind(word: &[u8], place: usize) -> &[u8]
    requires { place < length word.now }
    ensures { result.now ≡ behind place word.now }
{
    &word[place + 1..]
}

fn is_port(word: &[u8]) -> bool
    ensures { result ≡ is_port word.now }
{
    match word {
        [first, digits @ ..] => *first == b'I' && digits.len() == 4 && are_hex_digits(digits),
        [] => false,
    }
}

/// Two ports with a colon between them.
pub(crate) fn are_ports(word: &[u8]) -> bool
    ensures { result ≡ are_ports word.now }
{
    match find_mark(word, b':') {
        Some(colon) => is_port(before(word, colon)) && is_port(behind(word, colon)),
        None => false,
    }
}

fn is_lss(word: &[u8]) -> bool
    ensures { result ≡ is_lss word.now }
{
    word.len() == 2 && are_hex_digits(word)
}

/// A logical subsystem, which a name and a slash may stand before.
fn is_path_end(word: &[u8]) -> bool
    ensures { result ≡ is_path_end word.now }
{
    match find_mark(word, b'/') {
        Some(slash) => is_name(before(word, slash)) && is_lss(behind(word, slash)),
        None => is_lss(word),
    }
}

/// Two ends of a control path with a colon between them.
pub(crate) fn is_control_path(word: &[u8]) -> bool
    ensures { result ≡ is_control_path word.now }
{
    match find_mark(word, b':') {
        Some(colon) => is_path_end(before(word, colon)) && is_path_end(behind(word, colon)),
        None => false,
    }
}
