//! A line that is written from its end to its start.

ghost use Rattle.std.specs.Prelude.{◌≡◌, ◌+◌, ◌≤◌, ◌*◌, [], ◌∷◌, ◌++◌, length, drop};
ghost use Rattle.std.specs.List.{flat_map};
ghost use Rattle.std.specs.Fmt.{decimal};
ghost use Rattle.dr_ids.specs.Spelling.{hex2, hex4};

use dr_ids::upper_hex;
use itoa::write_digits;
use std::marker::Model;

/// How many bytes a tail has room for: a block of an image takes 146 at most, and `ok` with a track 143.
const ROOM: usize = 192;

/// The end of a line. What comes before it is added in front, so it is copied once, when the line is whole.
#[derive(Drop)]
pub(crate) struct Tail {
    bytes: [u8; ROOM],
    start: usize,
}

impl Model for Tail {
    ghost use Rattle.std.specs.Prelude.{ℕ, List, ◌≤◌, drop};

    ghost Value = { List ℕ };

    ghost view = { λ t. drop t.start t.bytes };

    ghost invariant = { λ t. t.start ≤ 192 };
}

/// Writes a word so that it ends at a place, and says where it begins.
fn write_word(word: &[u8], line: &mut [u8], end: usize) -> usize
    requires { (length word.now ≤ end) × (end ≤ length line.old) }
    ensures start { result + length word.now ≡ end }
    ensures written { drop result line.new ≡ word.now ++ drop end line.old }
{
    let start = end - word.len();
    line[start..end].copy_from_slice(word);
    start
}

impl Tail {
    /// No bytes.
    pub(crate) fn new() -> Tail
        ensures { result ≡ [] }
    {
        Tail {
            bytes: [0; ROOM],
            start: ROOM,
        }
    }

    /// The line feed that ends a line.
    pub(crate) fn end_of_line() -> Tail
        ensures { result ≡ 10 ∷ [] }
    {
        let mut tail = Tail::new();
        tail.word(b"\n");
        tail
    }

    /// Adds a word in front.
    pub(crate) fn word(&mut self, word: &[u8])
        requires { length word.now + length self.old ≤ 192 }
        ensures text { self.new ≡ word.now ++ self.old }
        ensures len { length self.new ≡ length word.now + length self.old }
    {
        self.start = write_word(word, &mut self.bytes, self.start);
    }

    /// Adds a number in front, in decimal digits.
    pub(crate) fn number(&mut self, n: u32)
        requires { length self.old + 10 ≤ 192 }
        ensures text { self.new ≡ decimal n ++ self.old }
        ensures len { length self.new ≤ length self.old + 10 }
    {
        self.start = write_digits(u64::from(n), &mut self.bytes, self.start);
    }

    /// Adds a byte in front, in two upper-case hexadecimal digits.
    pub(crate) fn hex2(&mut self, n: u8)
        requires { length self.old + 2 ≤ 192 }
        ensures text { self.new ≡ hex2 n ++ self.old }
        ensures len { length self.new ≡ length self.old + 2 }
    {
        self.word(&[upper_hex(n / 16), upper_hex(n % 16)]);
    }

    /// Adds a number in front, in four upper-case hexadecimal digits.
    pub(crate) fn hex4(&mut self, n: u16)
        requires { length self.old + 4 ≤ 192 }
        ensures text { self.new ≡ hex4 n ++ self.old }
        ensures len { length self.new ≡ length self.old + 4 }
    {
        self.hex2((n % 256) as u8);
        self.hex2((n / 256) as u8);
    }

    /// Adds bytes in front, in two upper-case hexadecimal digits each.
    pub(crate) fn hex(&mut self, bytes: &[u8])
        requires { length self.old + 2 * length bytes.now ≤ 192 }
        ensures text { self.new ≡ flat_map hex2 bytes.now ++ self.old }
        ensures len { length self.new ≡ length self.old + 2 * length bytes.now }
    {
        let mut at = bytes.len();
        while at > 0 {
            at -= 1;
            self.hex2(bytes[at]);
        }
    }

    /// All bytes.
    pub(crate) fn bytes(&self) -> &[u8]
        ensures { result.now ≡ self.now }
    {
        &self.bytes[self.start..]
    }
}
