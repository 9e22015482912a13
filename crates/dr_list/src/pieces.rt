//! Words and numbers with a space before them, and how much of a track is shown.

ghost use Rattle.std.specs.Prelude.{◌≡◌, ◌+◌, ◌≤◌, ◌++◌, length, take, codes};
ghost use Rattle.std.specs.Fmt.{decimal};
ghost use Rattle.dr_model.specs.Text.{trimmed};

use crate::tail::Tail;

/// Adds a word in front, with a space before it.
pub(crate) fn put_word(tail: &mut Tail, word: &[u8])
    requires { (length word.now ≤ 24) × (length tail.old ≤ 128) }
    ensures text { tail.new ≡ codes " " ++ word.now ++ tail.old }
    ensures short { length tail.new ≤ length tail.old + 25 }
{
    tail.word(word);
    tail.word(b" ");
}

/// Adds a number in front, with a space before it.
pub(crate) fn put_count(tail: &mut Tail, n: u32)
    requires { length tail.old ≤ 128 }
    ensures text { tail.new ≡ codes " " ++ decimal n ++ tail.old }
    ensures short { length tail.new ≤ length tail.old + 11 }
{
    tail.number(n);
    tail.word(b" ");
}

/// How many bytes there are without the zeros at the end, as far as these come eight at a time, which one test sees.
fn len_by_eights(bytes: &[u8]) -> usize
    ensures within { result ≤ length bytes.now }
    ensures front { trimmed (take result bytes.now) ≡ trimmed bytes.now }
{
    let mut len = bytes.len();
    while bytes[..len].ends_with(&[0; 8]) {
        len -= 8;
    }
    len
}

/// How many bytes there are before the zeros at the end.
pub(crate) fn trimmed_len(bytes: &[u8]) -> usize
    ensures within { result ≤ length bytes.now }
    ensures front { take result bytes.now ≡ trimmed bytes.now }
{
    let mut len = len_by_eights(bytes);
    while len > 0 && bytes[len - 1] == 0 {
        len -= 1;
    }
    len
}
