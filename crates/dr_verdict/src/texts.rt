//! Where two texts differ.

ghost use Rattle.std.specs.Prelude.{◌≡◌, ◌↔◌, ◌≤◌, ◌==◌, IsNone, IfSome, length};
ghost use Rattle.std.specs.List.{common_prefix_len};
ghost use Rattle.dr_verdict.specs.Difference.{line_at, differing_line};

/// How many bytes both texts begin with alike.
fn common_len(wanted: &[u8], printed: &[u8]) -> usize
    ensures value { result ≡ common_prefix_len (λ x y. x == y) wanted.now printed.now }
    ensures within { result ≤ length wanted.now }
{
    let mut at = 0;
    while at < wanted.len() && at < printed.len() && wanted[at] == printed[at] {
        at += 1;
    }
    at
}

/// The number of the line that this byte of a text stands in, counted from 1.
fn line_at(text: &[u8], at: usize) -> usize
    requires { at ≤ length text.now }
    ensures { result ≡ line_at text.now at }
{
    1 + text[..at].iter().filter(|byte| **byte == b'\n').count()
}

/// The first line of the printed text that isn't as wanted, counted from 1.
pub fn differing_line(wanted: &[u8], printed: &[u8]) -> Option<usize>
    ensures none { IsNone result ↔ (printed.now ≡ wanted.now) }
    ensures line { IfSome result (λ line. line ≡ differing_line wanted.now printed.now) }
{
    if printed == wanted {
        return None;
    }
    Some(line_at(wanted, common_len(wanted, printed)))
}
