ghost use Rattle.std.specs.Prelude.{◌≡◌, ◌<◌, ◌≤◌, length, Some, None, IfSome, ◌^◌};
ghost use Rattle.dr_ids.specs.Spelling.{digit_in, upper_digit, spelled, hex_word, volume_word, lss_word, session_word, number_word};

use crate::names::{Lss, SessionId, VolumeId};

/// What stands in `HEX_VALUES` for a byte that is no digit.
const NO_DIGIT: u8 = 255;

/// The value of each byte as a hexadecimal digit in either case.
static HEX_VALUES: [u8; 256] = [
    255, 255, 255, 255, 255, 255, 255, 255, 255, 255, 255, 255, 255, 255, 255, 255, 255, 255, 255,
    255, 255, 255, 255, 255, 255, 255, 255, 255, 255, 255, 255, 255, 255, 255, 255, 255, 255, 255,
    255, 255, 255, 255, 255, 255, 255, 255, 255, 255, 0, 1, 2, 3, 4, 5, 6, 7, 8, 9, 255, 255, 255,
    255, 255, 255, 255, 10, 11, 12, 13, 14, 15, 255, 255, 255, 255, 255, 255, 255, 255, 255, 255,
    255, 255, 255, 255, 255, 255, 255, 255, 255, 255, 255, 255, 255, 255, 255, 255, 10, 11, 12, 13,
    14, 15, 255, 255, 255, 255, 255, 255, 255, 255, 255, 255, 255, 255, 255, 255, 255, 255, 255,
    255, 255, 255, 255, 255, 255, 255, 255, 255, 255, 255, 255, 255, 255, 255, 255, 255, 255, 255,
    255, 255, 255, 255, 255, 255, 255, 255, 255, 255, 255, 255, 255, 255, 255, 255, 255, 255, 255,
    255, 255, 255, 255, 255, 255, 255, 255, 255, 255, 255, 255, 255, 255, 255, 255, 255, 255, 255,
    255, 255, 255, 255, 255, 255, 255, 255, 255, 255, 255, 255, 255, 255, 255, 255, 255, 255, 255,
    255, 255, 255, 255, 255, 255, 255, 255, 255, 255, 255, 255, 255, 255, 255, 255, 255, 255, 255,
    255, 255, 255, 255, 255, 255, 255, 255, 255, 255, 255, 255, 255, 255, 255, 255, 255, 255, 255,
    255, 255, 255, 255, 255, 255, 255, 255, 255, 255, 255, 255, 255, 255, 255, 255, 255, 255, 255,
    255, 255, 255,
];

/// The value of a hexadecimal digit in either case; `None` for any other byte.
pub fn hex_value(digit: u8) -> Option<u8>
    ensures { result ≡ digit_in 16 digit }
{
    let value = HEX_VALUES[usize::from(digit)];
    if value == NO_DIGIT { None } else { Some(value) }
}

/// The upper-case hexadecimal digit of a number below 16.
pub fn upper_hex(n: u8) -> u8
    requires { n < 16 }
    ensures { result ≡ upper_digit n }
{
    if n < 10 { b'0' + n } else { b'A' + (n - 10) }
}

/// The value of a digit in the radix; `None` for any other byte.
fn digit_value(digit: u8, radix: u8) -> Option<u8>
    requires { radix ≤ 16 }
    ensures { result ≡ digit_in radix digit }
{
    match hex_value(digit) {
        Some(value) if value < radix => Some(value),
        _ => None,
    }
}

/// The number that the digits of a word spell, 0 for an empty word; `None` where a byte is no digit.
fn spelled_number(word: &[u8], radix: u8) -> Option<u64>
    requires radix { radix ≤ 16 }
    requires short { length word.now ≤ 10 }
    ensures value { result ≡ spelled radix word.now }
    ensures below { IfSome result (λ n. n < radix ^ length word.now) }
{
    let mut number = 0;
    for digit in word {
        let value = digit_value(*digit, radix)?;
        number = number * u64::from(radix) + u64::from(value);
    }
    Some(number)
}

/// The number that exactly so many hexadecimal digits spell.
fn hex_number(word: &[u8], digits: usize) -> Option<u64>
    requires { digits ≤ 10 }
    ensures value { result ≡ hex_word digits word.now }
    ensures below { IfSome result (λ n. n < 16 ^ digits) }
{
    if word.len() == digits {
        spelled_number(word, 16)
    } else {
        None
    }
}

/// The volume that four hexadecimal digits name; `None` for any other word.
pub fn read_volume(word: &[u8]) -> Option<VolumeId>
    ensures { result ≡ volume_word word.now }
{
    let number = hex_number(word, 4)?;
    Some(VolumeId(number as u16))
}

/// The logical subsystem that two hexadecimal digits name; `None` for any other word.
pub fn read_lss(word: &[u8]) -> Option<Lss>
    ensures { result ≡ lss_word word.now }
{
    let number = hex_number(word, 2)?;
    Some(Lss(number as u8))
}

/// The session that two hexadecimal digits name; `None` for 00 and for any other word.
pub fn read_session(word: &[u8]) -> Option<SessionId>
    ensures { result ≡ session_word word.now }
{
    match hex_number(word, 2)? {
        0 => None,
        number => Some(SessionId(number as u8)),
    }
}

/// The number that one to ten decimal digits spell; `None` for any other word, and for a number
/// above `most`.
pub fn read_number(word: &[u8], most: u32) -> Option<u32>
    ensures { result ≡ number_word most word.now }
{
    if word.is_empty() || 10 < word.len() {
        return None;
    }
    let number = spelled_number(word, 10)?;
    if number <= u64::from(most) {
        Some(number as u32)
    } else {
        None
    }
}
