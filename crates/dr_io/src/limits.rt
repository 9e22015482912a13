//! How much may be taken from a source.

ghost use Rattle.std.specs.Prelude.{◌≡◌, ◌+◌, ◌<◌, ◌≤◌};

use crate::ahead::MOST_PIECE;

/// How much may be taken from a source.
#[derive(Clone, Copy)]
pub struct Limits {
    /// The most bytes.
    pub bytes: u32,
    /// The most lines; a last one without a line feed counts as one.
    pub lines: u32,
}

/// The limits of a script, blank lines and comments included.
pub const SCRIPT_LIMITS: Limits = Limits {
    bytes: 16_777_216,
    lines: 100_000,
};

/// The most bytes of the next piece: one past the limit is taken alone, to see that it is passed.
pub fn room_after(limit: usize, taken: usize) -> usize
    requires { taken ≤ limit }
    ensures some { 0 < result }
    ensures piece { result ≤ 4096 }
    ensures within { taken + result ≤ limit + 1 }
    ensures alone { taken + result ≡ limit + 1 → result ≡ 1 }
{
    if taken < limit {
        (limit - taken).min(MOST_PIECE)
    } else {
        1
    }
}
