//! Where a track lies, and why what a line names isn't there.

ghost use Rattle.std.specs.Prelude.{◌≡◌, ◌<◌, ◌≤◌, ◌&&◌, take, false, IsSome, List};
ghost use Rattle.dr_ids.specs.declared.refusal.Kind.TheVariants.{Server as OfServer, Lss as OfLss, Session as OfSession};
ghost use Rattle.dr_plant.specs.State.{PlantState};
ghost use Rattle.dr_config.specs.Table.{ConfigTable, place_of};
ghost use Rattle.dr_model.specs.declared.event.Event.{Event};
ghost use Rattle.dr_model.specs.Plans as plans;
ghost use Rattle.dr_model.specs.Refusals.{unknown};
ghost use Rattle.dr_model.specs.SessionPlans as sessions;
ghost use Rattle.dr_moves.specs.Checks.{Checked, OnNone, is_stop};
ghost use Rattle.dr_steps.specs.Here.{here};
ghost use Rattle.dr_steps.specs.Located.{Located, defined_checks};
ghost use Rattle.dr_steps.specs.WellFormed.{FitsOwner, FitsDevs};
ghost use Rattle.dr_steps.specs.declared.tables.Tables.{Tables};

use dr_config::Config;
use dr_ids::{Kind, Refusal, ServerId, VolumeId};
use dr_model::{Devs, Name};
use dr_moves::server_of;
use dr_plant::Plant;

/// The bytes of a name.
pub fn bytes_of(name: &Name) -> &[u8]
    requires { name.now.len ≤ 24 }
    ensures { result.now ≡ take name.now.len name.now.bytes }
{
    &name.bytes[..name.len as usize]
}

/// No server has that name.
pub fn unknown_server() -> Refusal
    ensures { result ≡ unknown OfServer }
{
    Refusal::Unknown { kind: Kind::Server }
}

/// No volume lies in that logical subsystem.
pub fn unknown_lss() -> Refusal
    ensures { result ≡ unknown OfLss }
{
    Refusal::Unknown { kind: Kind::Lss }
}

/// No session has that number.
pub fn unknown_session() -> Refusal
    ensures { result ≡ unknown OfSession }
{
    Refusal::Unknown {
        kind: Kind::Session,
    }
}

/// Whether a server is the one of that name, where a name is given.
pub fn is_named(config: &Config, dev: &Option<Name>, server: ServerId) -> bool
    requires { FitsOwner dev.now }
    ensures { (x : PlantState) (h : Tables) (events : List Event) → result ≡ plans.is_named dev.now server.0 (here x config.now h events).control }
{
    match dev {
        Some(name) => match config.server_named(bytes_of(name)) {
            Some(owner) => owner.0 == server.0,
            None => false,
        },
        None => true,
    }
}

/// Whether two servers are those that a line names, where it names them.
pub fn are_named(config: &Config, devs: &Devs, first: ServerId, second: ServerId) -> bool
    requires { FitsDevs devs.now }
    ensures { (x : PlantState) (h : Tables) (events : List Event) → result ≡ (plans.is_named devs.now.dev first.0 (here x config.now h events).control && plans.is_named devs.now.remotedev second.0 (here x config.now h events).control) }
{
    both(
        is_named(config, &devs.dev, first),
        is_named(config, &devs.remotedev, second),
    )
}

/// Both are so.
fn both(first: bool, second: bool) -> bool
    ensures { result ≡ (first && second) }
{
    first && second
}

/// A server that isn't the one of that name, where a name is given.
pub fn name_refusal(config: &Config, dev: &Option<Name>, owner: ServerId) -> Option<Refusal>
    requires short { FitsOwner dev.now }
    ensures refusal { (x : PlantState) (h : Tables) (events : List Event) → result ≡ sessions.name_refusal (here x config.now h events).control dev.now owner.0 }
    ensures calm { is_stop result ≡ false }
{
    if is_named(config, dev, owner) {
        return None;
    }
    Some(unknown_server())
}

/// A server that is off.
pub fn off_refusal<P: Plant>(plant: &P, server: ServerId) -> Option<Refusal>
    requires known { server.0 < 8 }
    ensures refusal { (t : ConfigTable) (h : Tables) (events : List Event) → result ≡ sessions.off_refusal (here (P.state plant.now) t h events).control server.0 }
    ensures calm { is_stop result ≡ false }
{
    if !plant.is_on(server.0) {
        return Some(Refusal::ServerOff { server });
    }
    None
}

/// Why a line doesn't find its two volumes: one isn't defined.
pub fn undefined_refusal(config: &Config, v: VolumeId, u: VolumeId) -> Option<Refusal>
    ensures checked { (x : PlantState) (h : Tables) (events : List Event) → Checked (here x config.now h events) (defined_checks v.0 u.0) result }
    ensures calm { is_stop result ≡ false }
    ensures first { OnNone result (IsSome (place_of config.now v.0)) }
    ensures second { OnNone result (IsSome (place_of config.now u.0)) }
{
    let Some(_) = config.server_of(v) else {
        return Some(Refusal::Unknown { kind: Kind::Volume });
    };
    let Some(_) = config.server_of(u) else {
        return Some(Refusal::Unknown { kind: Kind::Volume });
    };
    None
}

/// Why a line on a relationship doesn't find its volumes: one isn't defined, or the first isn't on the server that is named.
pub fn found_refusal(
    config: &Config,
    dev: &Option<Name>,
    s: VolumeId,
    t: VolumeId,
) -> Option<Refusal>
    requires { FitsOwner dev.now }
    ensures checked { (x : PlantState) (h : Tables) (events : List Event) → Checked (here x config.now h events) (plans.found_pair dev.now s.0 t.0) result }
    ensures calm { is_stop result ≡ false }
    ensures source { OnNone result (IsSome (place_of config.now s.0)) }
    ensures target { OnNone result (IsSome (place_of config.now t.0)) }
{
    let Some(server) = config.server_of(s) else {
        return Some(Refusal::Unknown { kind: Kind::Volume });
    };
    let Some(_) = config.server_of(t) else {
        return Some(Refusal::Unknown { kind: Kind::Volume });
    };
    if !is_named(config, dev, server) {
        return Some(unknown_server());
    }
    None
}

/// Why a line on a pair doesn't find its volumes: one isn't defined, or one isn't on the server that is named.
pub fn found_volumes(config: &Config, devs: &Devs, a: VolumeId, b: VolumeId) -> Option<Refusal>
    requires { FitsDevs devs.now }
    ensures checked { (x : PlantState) (h : Tables) (events : List Event) → Checked (here x config.now h events) (plans.found_volumes devs.now a.0 b.0) result }
    ensures calm { is_stop result ≡ false }
    ensures first { OnNone result (IsSome (place_of config.now a.0)) }
    ensures second { OnNone result (IsSome (place_of config.now b.0)) }
{
    if let Some(why) = found_refusal(config, &devs.dev, a, b) {
        return Some(why);
    }
    let server = server_of(config, b);
    if !is_named(config, &devs.remotedev, server) {
        return Some(unknown_server());
    }
    None
}

/// A track of a volume that is defined, and the server that owns it.
#[derive(Clone, Copy)]
pub struct TrackPlace {
    pub server: ServerId,
    pub track: u16,
}

/// The place of a track, or why it isn't there: its volume isn't defined, or hasn't so many tracks.
pub fn locate(config: &Config, volume: VolumeId, track: u32) -> Result<TrackPlace, Refusal>
    ensures { Located config.now volume.0 track result }
{
    let Some(tracks) = config.tracks_of(volume) else {
        return Err(Refusal::Unknown { kind: Kind::Volume });
    };
    let Some(server) = config.server_of(volume) else {
        return Err(Refusal::Unknown { kind: Kind::Volume });
    };
    if track < u32::from(tracks) {
        Ok(TrackPlace {
            server,
            track: track as u16,
        })
    } else {
        Err(Refusal::Unknown { kind: Kind::Track })
    }
}
