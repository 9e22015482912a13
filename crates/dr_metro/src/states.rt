//! What the fields of a primary say of a host write.

ghost use Rattle.std.specs.Prelude.{◌≡◌};
ghost use Rattle.dr_model.specs.Pairs as pairs;
ghost use Rattle.dr_volume.specs.Plain.{plain};

use dr_volume::Fields;

/// Whether a host write on track t goes to the secondary first.
pub fn goes_over(f: &Fields, t: u16) -> bool
    ensures { result ≡ pairs.goes_over (plain f.now) t }
{
    f.primary.is_metro() && (!f.primary_state.is_suspended() && !f.out_of_sync.contains(t))
}
