//! The words of a line, one after another.

ghost use Rattle.std.specs.Prelude.{◌≡◌, ◌≤◌, ◌<◌, ◌+◌, length, drop, IfSome};
ghost use Rattle.std.specs.List.{position_or_len};
ghost use Rattle.dr_model.specs.LineWords.{is_gap, words_behind};
ghost use Rattle.dr_script.specs.Pieces.{is_ink, IsNext};

/// Where a word stands in its line: from `start` up to `end`.
#[derive(Clone, Copy)]
pub(crate) struct Extent {
    pub(crate) start: usize,
    pub(crate) end: usize,
}

/// Spaces and tabs stand between words. Nearly all other bytes are above both.
fn is_gap(b: u8) -> bool
    ensures { result ≡ is_gap b }
{
    b <= b' ' && (b == b' ' || b == b'\t')
}

/// Where the first byte of a word stands from a place on, or where the line ends.
fn ink_from(line: &[u8], from: usize) -> usize
    requires { from ≤ length line.now }
    ensures value { result ≡ from + position_or_len is_ink (drop from line.now) }
    ensures within { result ≤ length line.now }
{
    let mut at = from;
    while at < line.len() && is_gap(line[at]) {
        at += 1;
    }
    at
}

/// Where the first gap stands from a place on, or where the line ends.
fn gap_from(line: &[u8], from: usize) -> usize
    requires { from ≤ length line.now }
    ensures value { result ≡ from + position_or_len is_gap (drop from line.now) }
    ensures within { result ≤ length line.now }
{
    let mut at = from;
    while at < line.len() && !is_gap(line[at]) {
        at += 1;
    }
    at
}

/// The next word of a line behind so many of its bytes.
pub(crate) fn next_word(line: &[u8], at: usize) -> Option<Extent>
    requires { at ≤ length line.now }
    ensures ends { IfSome result (λ w. (at ≤ w.start) × (w.start < w.end) × (w.end ≤ length line.now)) }
    ensures word { IsNext (words_behind at line.now) line.now result }
{
    let start = ink_from(line, at);
    if start == line.len() {
        return None;
    }
    let end = gap_from(line, start);
    Some(Extent { start, end })
}
