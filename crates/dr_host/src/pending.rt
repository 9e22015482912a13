//! A pending write, and look-ups in lists of them.

ghost use Rattle.std.specs.Prelude.{◌≡◌, ◌≤◌, length, filter};
ghost use Rattle.std.specs.List.{find, position};
ghost use Rattle.std.specs.Option.{option_copied};
ghost use Rattle.dr_host.specs.Writes.{has_number, is_other, has_owner, has_landed, marked, padded, Ascends};

use dr_config::Config;
use dr_ids::{ServerId, VolumeId, WriteId};

/// A host write that isn't acknowledged: its place, and as many of its bytes as `len` says, with zeros
/// behind them. It has landed where a stop took its acknowledgement.
#[derive(Clone, Copy)]
pub struct Pending {
    pub w: WriteId,
    pub volume: VolumeId,
    pub track: u16,
    pub offset: u8,
    pub len: u8,
    pub bytes: [u8; 64],
    pub landed: bool,
}

// The write of that number.
pub(crate) fn find_write(pending: &[Pending], w: WriteId) -> Option<&Pending>
    ensures { option_copied result ≡ find (has_number w.0) pending.now }
{
    pending.iter().find(|p| p.w.0 == w.0)
}

// The place of the write of that number.
pub(crate) fn place_of(pending: &[Pending], w: WriteId) -> Option<usize>
    ensures { result ≡ position (has_number w.0) pending.now }
{
    pending.iter().position(|p| p.w.0 == w.0)
}

// Marks the write of that number as landed.
pub(crate) fn mark(pending: &mut Vec<Pending>, w: WriteId)
    requires { Ascends pending.old.items }
    ensures { pending.new.items ≡ marked w.0 pending.old.items }
{
    if let Some(i) = place_of(pending, w) {
        pending[i].landed = true;
    }
}

// Takes the write of that number out.
pub(crate) fn take_out(pending: &mut Vec<Pending>, w: WriteId)
    ensures { pending.new.items ≡ filter (is_other w.0) pending.old.items }
{
    pending.retain(|p| p.w.0 != w.0);
}

// The first write that has landed on a volume of the server.
pub(crate) fn first_landed<'a>(
    pending: &'a [Pending],
    config: &Config,
    server: ServerId,
) -> Option<&'a Pending>
    ensures { option_copied result ≡ find (has_landed config.now server.0) pending.now }
{
    pending
        .iter()
        .find(|p| p.landed && belongs(config, p.volume, server))
}

// Whether a volume is defined, and the server's.
fn belongs(config: &Config, volume: VolumeId, server: ServerId) -> bool
    ensures { result ≡ has_owner config.now volume.0 server.0 }
{
    match config.server_of(volume) {
        Some(owner) => owner.0 == server.0,
        None => false,
    }
}

// The bytes, with zeros behind them.
pub(crate) fn padded(bytes: &[u8]) -> [u8; 64]
    requires { length bytes.now ≤ 64 }
    ensures { result ≡ padded bytes.now }
{
    let mut all = [0; 64];
    all[..bytes.len()].copy_from_slice(bytes);
    all
}
