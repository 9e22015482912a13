//! What the fields of a volume, or its head alone, say of a pair.

ghost use Rattle.std.specs.Prelude.{◌≡◌, if◌then◌else◌};
ghost use Rattle.dr_model.specs.Pairs as pairs;
ghost use Rattle.dr_volume.specs.Plain.{plain};
ghost use Rattle.dr_gcopy.specs.Heads.{primary_by, secondary_by, unpaired_by, may_cascade_by, free_for, active_by, paused_by};

use dr_ids::VolumeId;
use dr_model::{PairState, Part};
use dr_moves::is_unpaired;
use dr_volume::{Fields, Head};

/// The state of a pair as it is made.
pub(crate) fn first_state(kind: Part, full: bool) -> PairState
    ensures { result ≡ pairs.first_state kind full }
{
    if kind.is_metro() && !full {
        PairState::FullDuplex
    } else {
        PairState::CopyPending
    }
}

/// The state of a primary, and of its secondary, as the pair goes on.
pub fn next_state(f: &Fields) -> PairState
    ensures { result ≡ pairs.next_state (plain f.now) }
{
    if f.primary.is_metro() && f.out_of_sync.len() == 0 {
        PairState::FullDuplex
    } else {
        PairState::CopyPending
    }
}

/// Whether a volume with these fields is the secondary of `a`.
pub fn is_secondary_of(f: &Fields, a: VolumeId) -> bool
    ensures { result ≡ pairs.is_secondary_of a.0 (plain f.now) }
{
    f.secondary.is_part() && f.secondary_partner.0 == a.0
}

/// Whether a volume with this head is a primary of `b`.
pub fn is_primary_by(h: &Head, b: VolumeId) -> bool
    ensures { result ≡ primary_by b.0 h.now }
{
    h.primary.is_part() && h.primary_partner.0 == b.0
}

/// Whether a volume with this head is the secondary of `a`.
pub fn is_secondary_by(h: &Head, a: VolumeId) -> bool
    ensures { result ≡ secondary_by a.0 h.now }
{
    h.secondary.is_part() && h.secondary_partner.0 == a.0
}

/// Whether a volume with this head may become the primary of `b`: it has no part in a pair, or, where it is to be cascaded, it is no
/// primary, and the Metro Mirror secondary of another volume.
pub(crate) fn may_lead(h: &Head, b: VolumeId, cascade: bool) -> bool
    ensures { result ≡ (if cascade then may_cascade_by b.0 h.now else unpaired_by h.now) }
{
    if cascade {
        !h.primary.is_part() && (h.secondary.is_metro() && h.secondary_partner.0 != b.0)
    } else {
        is_unpaired(h)
    }
}

/// Whether a volume with this head may become the secondary of `a`: it is no primary, and the secondary of no other.
pub(crate) fn may_follow(h: &Head, a: VolumeId) -> bool
    ensures { result ≡ free_for a.0 h.now }
{
    !h.primary.is_part() && (!h.secondary.is_part() || h.secondary_partner.0 == a.0)
}

/// Whether a volume with this head is a primary of `b` that isn't Suspended.
pub(crate) fn may_pause(h: &Head, b: VolumeId) -> bool
    ensures { result ≡ active_by b.0 h.now }
{
    is_primary_by(h, b) && !h.primary_state.is_suspended()
}

/// Whether a volume with this head is a Suspended primary of `b`, of that kind.
pub(crate) fn may_resume(h: &Head, b: VolumeId, kind: Part) -> bool
    ensures { result ≡ paused_by b.0 kind h.now }
{
    is_primary_by(h, b) && (h.primary.is_kind(kind) && h.primary_state.is_suspended())
}

/// Whether t is the last track of a Metro Mirror pair that is out of sync.
pub(crate) fn is_last(f: &Fields, t: u16) -> bool
    ensures { result ≡ pairs.is_last (plain f.now) t }
{
    if !f.primary.is_metro() {
        return false;
    }
    let mut left = f.out_of_sync;
    left.remove(t);
    left.len() == 0
}
