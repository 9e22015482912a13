//! What the fields of a volume say of an attempt, and of a start.

ghost use Rattle.std.specs.Prelude.{◌≡◌, ◌&&◌, ◌||◌, not, nat_eq, nat_lt};
ghost use Rattle.dr_model.specs.Layout.{is_part};
ghost use Rattle.dr_model.specs.Pairs as pairs;
ghost use Rattle.dr_model.specs.declared.state.Part.TheVariants.{Global};
ghost use Rattle.dr_volume.specs.Plain.{plain};

use dr_ids::VolumeId;
use dr_moves::is_torn;
use dr_volume::{Fields, Head};

/// Whether a volume has a move to make as its server starts.
pub(crate) fn must_restart(f: &Fields) -> bool
    ensures { result ≡ pairs.must_restart (plain f.now) }
{
    f.recording || f.coordination || is_torn(f)
}

/// Whether a volume with this head records, or is held by coordination.
pub(crate) fn is_engaged(f: &Head) -> bool
    ensures { result ≡ (f.now.recording || f.now.coordination) }
{
    f.recording || f.coordination
}

/// Whether a volume with this head is a Global Copy primary of `b` in Copy Pending.
pub(crate) fn may_hold(f: &Head, b: VolumeId) -> bool
    ensures { result ≡ ((is_part f.now.primary && nat_eq f.now.primary_partner.0 b.0) && (pairs.is_kind Global f.now.primary && pairs.is_pending f.now.primary_state)) }
{
    f.primary.is_part()
        && f.primary_partner.0 == b.0
        && (f.primary.is_global() && f.primary_state.is_pending())
}

/// Whether a volume with this head records attempt n.
pub(crate) fn records(n: u32, f: &Head) -> bool
    ensures { result ≡ (f.now.recording && nat_eq f.now.attempt n) }
{
    f.recording && f.attempt == n
}

/// Whether attempt n is over for a volume with this head.
pub(crate) fn is_past(n: u32, f: &Head) -> bool
    ensures { result ≡ (nat_lt n f.now.attempt || (nat_eq f.now.attempt n && not f.now.recording)) }
{
    n < f.attempt || (f.attempt == n && !f.recording)
}
