//! The listing of FlashCopy relationships.

ghost use Rattle.std.specs.Prelude.{◌≡◌, ◌+◌, ◌<◌, ◌≤◌, ◌++◌, ◌&&◌, ◌||◌, [], ◌∷◌, length, nat_eq, Some, IsSome, if◌then◌else◌};
ghost use Rattle.dr_config.specs.Table.{StandsFor, place_of};
ghost use Rattle.dr_model.specs.Listings as listings;
ghost use Rattle.dr_listing.specs.Told.{lines_of};
ghost use Rattle.dr_volume.specs.Plain.{plain};
ghost use Rattle.dr_volume.specs.View.{Rest, control_seen, volume_seen};

use crate::lines::push;
use dr_config::Config;
use dr_ids::VolumeId;
use dr_model::{Event, Journal};
use dr_plant::Plant;
use dr_volume::{Fields, Relation, peek_fields, peek_relation_at};

/// The number of a relationship's state in a line.
fn state_number(f: &Fields) -> u8
    ensures { result ≡ listings.flash_state (plain f.now) }
{
    if f.revertible {
        0
    } else if f.reversing {
        1
    } else {
        2
    }
}

/// A flag of a line, if it is set.
fn flag_if(set: bool, flag: u8) -> u8
    ensures value { result ≡ listings.flag_if set flag }
    ensures low { result ≤ flag }
{
    if set { flag } else { 0 }
}

/// The flags of a relationship.
fn flags(f: &Fields) -> u8
    ensures { result ≡ listings.flash_flags (plain f.now) }
{
    flag_if(f.nocopy, 1)
        + (flag_if(f.persistent, 2) + (flag_if(f.recorded, 4) + flag_if(f.inhibited, 8)))
}

/// The line of a target.
fn flash_line(line: u32, u: VolumeId, f: &Fields) -> Event
    ensures { result ≡ listings.flash_line line u.0 (plain f.now) }
{
    Event::FlashLine {
        line,
        source: f.source.0,
        target: u.0,
        sequence: f.sequence,
        previous: f.previous_sequence,
        state: state_number(f),
        flags: flags(f),
        own: f.own.len(),
    }
}

/// Whether v is in the relationship whose target is u.
fn is_flash_of(v: VolumeId, u: VolumeId, relation: &Relation) -> bool
    ensures { result ≡ (relation.now.related && (nat_eq u.0 v.0 || nat_eq relation.now.source.0 v.0)) }
{
    relation.related && (u.0 == v.0 || relation.source.0 == v.0)
}

/// The line of the volume u, which is defined at that place, if it is a target and v is in its relationship.
fn line_at<P: Plant>(
    plant: &P,
    config: &Config,
    place: usize,
    u: VolumeId,
    v: VolumeId,
    line: u32,
) -> Option<Event>
    requires there { place < length config.now.volumes }
    requires place { place_of config.now u.0 ≡ Some place }
    requires stands { StandsFor config.now (P.state plant.now) }
    ensures { lines_of result ≡ (if listings.is_flash_of v.0 u.0 (volume_seen (P.state plant.now) config.now u.0).fields then listings.flash_line line u.0 (volume_seen (P.state plant.now) config.now u.0).fields ∷ [] else []) }
{
    if !is_flash_of(v, u, &peek_relation_at(plant, config, place)) {
        return None;
    }
    Some(flash_line(line, u, &peek_fields(plant, config, u)))
}

/// Lists the relationships that a volume is in, by their targets in order of definition: at most one line for each volume. Of each
/// volume what its head says as a target is looked at, and the sets of those alone that are listed.
pub fn flashes<P: Plant>(plant: &P, config: &Config, v: VolumeId, line: u32, journal: &mut Journal)
    requires stands { StandsFor config.now (P.state plant.now) }
    requires room { length config.now.volumes ≤ journal.old.spare }
    ensures told { (r : Rest) → journal.new.events ≡ journal.old.events ++ listings.flash_lines (control_seen (P.state plant.now) config.now r) line v.0 }
    ensures left { journal.old.spare ≤ journal.new.spare + length config.now.volumes }
{
    for place in 0..config.volumes() {
        let u = config.volume_at(place).unwrap();
        push(journal, line_at(plant, config, place, u, v, line));
    }
}
