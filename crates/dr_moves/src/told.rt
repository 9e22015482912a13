//! What the journal is told of a move.

ghost use Rattle.std.specs.Prelude.{◌≡◌, ℕ, ◌≤◌, ◌+◌, ◌++◌, length};
ghost use Rattle.dr_model.specs.Moves as machine;
ghost use Rattle.dr_model.specs.Moves.{told_blank, told_restored};
ghost use Rattle.dr_volume.specs.Plain.{plain};
ghost use Rattle.dr_moves.specs.Moves.{volume_with};
ghost use Rattle.dr_moves.specs.Told.{event_of, seen};

use dr_bits::TrackSet;
use dr_ids::VolumeId;
use dr_model::{Event, Journal, PairState};
use dr_volume::Fields;

/// What of the fields of a volume the telling of its moves looks at.
#[derive(Clone, Copy)]
pub struct Sight {
    pub state: PairState,
    pub flash_hold: bool,
    pub source: VolumeId,
    pub session: u8,
    pub own: TrackSet,
    pub source_changes: TrackSet,
    pub target_changes: TrackSet,
}

/// What of these fields it looks at.
pub(crate) fn sight_of(f: &Fields) -> Sight
    ensures done { (m : machine.Move) (n : ℕ) → machine.told m (volume_with n (seen result)) ≡ machine.told m (volume_with n (plain f.now)) }
    ensures in_stop { (m : machine.Move) (n : ℕ) → machine.told_in_stop m (volume_with n (seen result)) ≡ machine.told_in_stop m (volume_with n (plain f.now)) }
{
    Sight {
        state: f.primary_state,
        flash_hold: f.flash_hold,
        source: f.source,
        session: f.session,
        own: f.own,
        source_changes: f.source_changes,
        target_changes: f.target_changes,
    }
}

/// Tells the journal an event, where there is one.
pub(crate) fn tell_event(journal: &mut Journal, event: &Option<Event>)
    requires { length (event_of event.now) ≤ journal.old.spare }
    ensures events { journal.new.events ≡ journal.old.events ++ event_of event.now }
    ensures spare { journal.old.spare ≡ journal.new.spare + length (event_of event.now) }
{
    if let Some(event) = event {
        journal.push(*event);
    }
}

/// Tells that a restore has ended, where no track is left to give back.
pub(crate) fn tell_returned(
    journal: &mut Journal,
    volume: u16,
    source: u16,
    tracks: u16,
    own: &TrackSet,
)
    requires { length (told_restored volume source tracks own.now) ≤ journal.old.spare }
    ensures events { journal.new.events ≡ journal.old.events ++ told_restored volume source tracks own.now }
    ensures spare { journal.old.spare ≡ journal.new.spare + length (told_restored volume source tracks own.now) }
{
    if own.len() != 0 {
        return;
    }
    tell_blank(journal, volume, tracks, own);
    journal.push(Event::Restored {
        volume: source,
        from: volume,
    });
}

/// Tells that the tracks of a volume that has so many, but for those in `own`, read zeros.
pub(crate) fn tell_blank(journal: &mut Journal, volume: u16, tracks: u16, own: &TrackSet)
    requires { length (told_blank volume tracks own.now) ≤ journal.old.spare }
    ensures events { journal.new.events ≡ journal.old.events ++ told_blank volume tracks own.now }
    ensures spare { journal.old.spare ≡ journal.new.spare + length (told_blank volume tracks own.now) }
{
    for track in 0..tracks {
        if own.contains(track) {
            continue;
        }
        journal.push(Event::Blanked { volume, track });
    }
}
