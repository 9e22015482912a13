//! The listing of pairs.

ghost use Rattle.std.specs.Prelude.{◌≡◌, ◌+◌, ◌<◌, ◌≤◌, ◌++◌, [], ◌∷◌, IsSome, if◌then◌else◌};
ghost use Rattle.dr_config.specs.Table.{StandsFor, place_of};
ghost use Rattle.dr_model.specs.Answers.{pair_place};
ghost use Rattle.dr_model.specs.Layout.{is_part};
ghost use Rattle.dr_model.specs.Listings as listings;
ghost use Rattle.dr_model.specs.Pairs.{state_seen, target_seen};
ghost use Rattle.dr_listing.specs.Told.{lines_of};
ghost use Rattle.dr_volume.specs.Plain.{plain};
ghost use Rattle.dr_volume.specs.View.{volume_seen};

use crate::lines::push;
use dr_config::Config;
use dr_ids::VolumeId;
use dr_model::{Event, Journal, PairState, Part};
use dr_plant::Plant;
use dr_volume::{Fields, peek_fields};

/// The number of a primary's state in a line.
pub(crate) fn state_number(state: PairState) -> u8
    ensures number { result ≡ pair_place (state_seen state) }
    ensures low { result ≤ 2 }
{
    match state {
        PairState::CopyPending => 0,
        PairState::FullDuplex => 1,
        PairState::Suspended => 2,
    }
}

/// The number of a secondary's state.
pub(crate) fn target_number(state: PairState) -> u8
    ensures { result ≡ pair_place (target_seen state) }
{
    state_number(state) + 3
}

/// The number of the kind of a pair.
fn kind_number(part: Part) -> u8
    ensures { result ≡ listings.kind_number part }
{
    match part {
        Part::Absent => 0,
        Part::Metro => 1,
        Part::Global => 2,
    }
}

/// How many tracks a primary still has to send.
fn unsent(f: &Fields) -> u16
    ensures { result ≡ listings.unsent (plain f.now) }
{
    let mut tracks = f.out_of_sync;
    tracks.union(&f.change_recording);
    tracks.len()
}

/// The line of a volume as a primary, if it is one.
fn primary_line(line: u32, v: VolumeId, f: &Fields) -> Option<Event>
    ensures { lines_of result ≡ (if is_part f.now.primary then listings.primary_line line v.0 (plain f.now) ∷ [] else []) }
{
    if !f.primary.is_part() {
        return None;
    }
    Some(Event::PairLine {
        line,
        volume: v.0,
        partner: f.primary_partner.0,
        state: state_number(f.primary_state),
        kind: kind_number(f.primary),
        k: unsent(f),
    })
}

/// Its line as a secondary, if it is one.
fn secondary_line(line: u32, v: VolumeId, f: &Fields) -> Option<Event>
    ensures { lines_of result ≡ (if is_part f.now.secondary then listings.secondary_line line v.0 (plain f.now) ∷ [] else []) }
{
    if !f.secondary.is_part() {
        return None;
    }
    Some(Event::PairLine {
        line,
        volume: v.0,
        partner: f.secondary_partner.0,
        state: target_number(f.secondary_state),
        kind: kind_number(f.secondary),
        k: 0,
    })
}

/// Lists the parts that a volume has in pairs, as a primary first: at most two lines. No other volume is looked at.
pub fn pairs<P: Plant>(plant: &P, config: &Config, v: VolumeId, line: u32, journal: &mut Journal)
    requires defined { IsSome (place_of config.now v.0) }
    requires stands { StandsFor config.now (P.state plant.now) }
    requires room { 2 ≤ journal.old.spare }
    ensures told { journal.new.events ≡ journal.old.events ++ listings.pair_lines line v.0 (volume_seen (P.state plant.now) config.now v.0).fields }
    ensures left { journal.old.spare ≤ journal.new.spare + 2 }
{
    let fields = peek_fields(plant, config, v);
    push(journal, primary_line(line, v, &fields));
    push(journal, secondary_line(line, v, &fields));
}
