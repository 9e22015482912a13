//! What the head of a target says of an attempt.

ghost use Rattle.std.specs.Prelude.{◌≡◌, ◌&&◌, not, nat_eq};

use dr_ids::VolumeId;
use dr_volume::Head;

/// Whether a target with this head is revertible from attempt n.
pub fn is_flashed(n: u32, f: &Head) -> bool
    ensures { result ≡ (f.now.revertible && nat_eq f.now.sequence n) }
{
    f.revertible && f.sequence == n
}

/// Whether a target with this head is a member's with number n.
pub(crate) fn is_committed(n: u32, f: &Head) -> bool
    ensures { result ≡ (f.now.member && (nat_eq f.now.sequence n && not f.now.revertible)) }
{
    f.member && (f.sequence == n && !f.revertible)
}

/// Whether a volume with this head is a target of b whose changes are recorded, and on which the host may not write, and
/// that is neither restored nor revertible.
pub(crate) fn may_flash(b: VolumeId, f: &Head) -> bool
    ensures { result ≡ ((f.now.related && nat_eq f.now.source.0 b.0) && (f.now.recorded && (f.now.inhibited && (not f.now.reversing && not f.now.revertible)))) }
{
    f.related
        && f.source.0 == b.0
        && (f.recorded && (f.inhibited && (!f.reversing && !f.revertible)))
}
