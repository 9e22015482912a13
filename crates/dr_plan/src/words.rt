//! The words of a line.

ghost use Rattle.std.specs.Prelude.{◌≡◌, map, IfOk};
ghost use Rattle.std.specs.Str.{bytes_eq};
ghost use Rattle.dr_model.specs.LineWords.{is_gap};
ghost use Rattle.dr_plan.specs.Marks.{is_filled, words};

use std::alloc::{AllocError, Global};

/// Spaces and tabs stand between words.
fn is_gap(b: u8) -> bool
    ensures { result ≡ is_gap b }
{
    b == b' ' || b == b'\t'
}

/// What stands between two gaps is a word, unless it is empty.
fn is_filled(piece: &[u8]) -> bool
    ensures { result ≡ is_filled piece.now }
{
    !piece.is_empty()
}

/// The words of a line, in order.
pub(crate) fn words(alloc: Global, line: &[u8]) -> Result<Vec<&[u8]>, AllocError>
    ensures { IfOk result (λ found. map (λ word. word.now) found.items ≡ words line.now) }
{
    line.split(|b| is_gap(*b))
        .filter(|piece| is_filled(piece))
        .collect(alloc)
}

/// The word is this text.
pub(crate) fn is_word(word: &[u8], text: &[u8]) -> bool
    ensures { result ≡ bytes_eq word.now text.now }
{
    word == text
}
