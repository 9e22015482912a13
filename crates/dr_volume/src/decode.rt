//! The fields that the six blocks of a slot give. Nothing is built of a part or relationship that is absent.

ghost use Rattle.std.specs.Prelude.{◌≡◌, ◌<◌, ◌≤◌, ◌+◌, length, take, drop};
ghost use Rattle.std.specs.FinSet.{empty, intersection};
ghost use Rattle.dr_ids.specs.Sizes.{most_tracks, record_blocks};
ghost use Rattle.dr_bits.specs.Tracks.{of_bytes};
ghost use Rattle.dr_model.specs.Layout as layout;
ghost use Rattle.dr_plant.specs.Writes.{IsDevice};
ghost use Rattle.dr_volume.specs.Plain as plain;
ghost use Rattle.dr_volume.specs.Record as lies;
ghost use Rattle.dr_volume.specs.Record.{listed, raw_of};

use crate::blocks::slot_begin;
use crate::codes::{first_set, only_if, second_set, zero_block};
use crate::entries::entries_on;
use crate::fields::Fields;
use crate::head::head_in;
use crate::place::Place;
use dr_bits::TrackSet;
use dr_ids::be16;
use dr_plant::{Block, Plant};

/// The fields of the volume that lies there, whether or not its server is on.
pub(crate) fn fields_on<P: Plant>(plant: &P, place: Place) -> Fields
    requires few { place.tracks ≤ most_tracks }
    requires device { IsDevice (P.state plant.now) place.device.0 record_blocks }
    ensures { result ≡ plain.normal place.tracks (raw_of (layout.chosen ((P.state plant.now).block place.device.0))) }
{
    let device = place.device;
    let begin = slot_begin(&plant.peek(device, 0));
    let slot = [
        plant.peek(device, begin),
        plant.peek(device, begin + 1),
        plant.peek(device, begin + 2),
        plant.peek(device, begin + 3),
        plant.peek(device, begin + 4),
        plant.peek(device, begin + 5),
    ];
    fields_in(place.tracks, &slot)
}

/// The fields of a volume with so many tracks, from the six blocks of its slot.
#[tactic(auto, unfolding(crate::specs::Plain::normal, crate::specs::Record::with_head, crate::specs::Record::no_record, dr_model::specs::Layout::fields_of))]
pub(crate) fn fields_in(tracks: u16, slot: &[Block]) -> Fields
    requires few { tracks ≤ most_tracks }
    requires six { length slot.now ≡ 6 }
    ensures { result ≡ plain.normal tracks (raw_of (listed slot.now)) }
{
    let head = head_in(&slot[0]);
    let first = head.primary.is_part();
    let kept = TrackSet::first(tracks);
    let staged = below(tracks, staged_in(&slot[0]));
    Fields {
        primary: head.primary,
        primary_state: head.primary_state,
        primary_partner: head.primary_partner,
        coordination: head.coordination,
        long_busy: head.long_busy,
        recording: head.recording,
        attempt: head.attempt,
        out_of_sync: first_if(first, &slot[1], &kept),
        change_recording: second_if(first, &slot[1], &kept),
        secondary: head.secondary,
        secondary_state: head.secondary_state,
        secondary_partner: head.secondary_partner,
        seal: head.seal,
        related: head.related,
        source: head.source,
        nocopy: head.nocopy,
        persistent: head.persistent,
        recorded: head.recorded,
        inhibited: head.inhibited,
        own: first_if(head.related, &slot[2], &kept),
        previous_own: second_if(head.related, &slot[2], &kept),
        source_changes: first_if(head.related, &slot[3], &kept),
        target_changes: second_if(head.related, &slot[3], &kept),
        sequence: head.sequence,
        previous_sequence: head.previous_sequence,
        revertible: head.revertible,
        reversing: head.reversing,
        member: head.member,
        session: head.session,
        floor: head.floor,
        flash_hold: head.flash_hold,
        blank: first_if(true, &slot[4], &kept),
        entries: entries_on(tracks, &slot[4]),
        staged,
        staged_bytes: only_if(staged.is_some(), slot[5], zero_block()),
    }
}

/// The track that a head says is staged.
pub(crate) fn staged_in(head: &Block) -> Option<u16>
    ensures { result ≡ lies.staged_in head.now }
{
    if head[7] == 1 {
        Some(be16(head, 14))
    } else {
        None
    }
}

/// A staged track that the volume has, else none.
pub(crate) fn below(tracks: u16, staged: Option<u16>) -> Option<u16>
    ensures { result ≡ plain.staged_below tracks staged }
{
    match staged {
        Some(t) if t < tracks => Some(t),
        _ => None,
    }
}

// The kept tracks of the set in the first half of a block, where what it belongs to is there.
fn first_if(there: bool, block: &Block, kept: &TrackSet) -> TrackSet
    ensures { result ≡ layout.only_if there (intersection (of_bytes (take 32 block.now)) kept.now) empty }
{
    if !there {
        return TrackSet::empty();
    }
    let mut set = first_set(block);
    set.keep(kept);
    set
}

// The kept tracks of the set in the second half.
fn second_if(there: bool, block: &Block, kept: &TrackSet) -> TrackSet
    ensures { result ≡ layout.only_if there (intersection (of_bytes (drop 32 block.now)) kept.now) empty }
{
    if !there {
        return TrackSet::empty();
    }
    let mut set = second_set(block);
    set.keep(kept);
    set
}
