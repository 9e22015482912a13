//! Whose a volume is.

ghost use Rattle.std.specs.Prelude.{◌≡◌};
ghost use Rattle.dr_host.specs.Writes.{has_owner};

use dr_config::Config;
use dr_ids::{ServerId, VolumeId};

/// Whether a volume is defined, and the server's.
pub(crate) fn belongs(config: &Config, v: VolumeId, s: ServerId) -> bool
    ensures { result ≡ has_owner config.now v.0 s.0 }
{
    match config.server_of(v) {
        Some(owner) => owner.0 == s.0,
        None => false,
    }
}
