//! What the fields of a volume become as pairs are made, ended and resumed, and as tracks are sent.

ghost use Rattle.std.specs.Prelude.{◌≡◌, ◌≤◌, ◌<◌, ◌||◌, ◌&&◌, if◌then◌else◌};
ghost use Rattle.std.specs.FinSet.{union, empty};
ghost use Rattle.dr_ids.specs.Sizes.{most_tracks};
ghost use Rattle.dr_model.specs.declared.state.PairState.TheVariants.{FullDuplex, CopyPending};
ghost use Rattle.dr_model.specs.Layout.{free_entries};
ghost use Rattle.dr_model.specs.Pairs as pairs;
ghost use Rattle.dr_model.specs.Relations.{all_tracks};
ghost use Rattle.dr_volume.specs.Plain.{plain};
ghost use Rattle.dr_volume.specs.Update.{stages};

use crate::flash_fields::written;
use dr_bits::TrackSet;
use dr_ids::VolumeId;
use dr_model::{PairState, Part};
use dr_volume::{Entries, Fields};

/// A volume that becomes the secondary of `a`.
pub fn made_secondary(a: VolumeId, kind: Part, state: PairState, f: &mut Fields)
    ensures fields { plain f.new ≡ pairs.made_secondary a.0 kind state (plain f.old) }
    ensures stages { stages f.new ≡ stages f.old }
{
    f.secondary = kind;
    f.secondary_state = state;
    f.secondary_partner = a;
    f.seal = 0;
}

/// The tracks that are out of sync as a pair of volumes with n tracks is made: all, or none.
fn first_tracks(n: u16, full: bool) -> TrackSet
    requires { n ≤ most_tracks }
    ensures { result ≡ (if full then all_tracks n else empty) }
{
    if full {
        TrackSet::first(n)
    } else {
        TrackSet::empty()
    }
}

/// A volume of n tracks that becomes the primary of `b`: all its tracks are out of sync, or none is.
pub fn made_primary(n: u16, b: VolumeId, kind: Part, state: PairState, full: bool, f: &mut Fields)
    requires { n ≤ most_tracks }
    ensures fields { plain f.new ≡ pairs.made_primary n b.0 kind state full (plain f.old) }
    ensures stages { stages f.new ≡ stages f.old }
{
    f.primary = kind;
    f.primary_state = state;
    f.primary_partner = b;
    f.coordination = false;
    f.long_busy = false;
    f.recording = false;
    f.out_of_sync = first_tracks(n, full);
    f.change_recording = TrackSet::empty();
    f.entries = Entries::free();
}

/// A volume that is a primary no more. Its attempt stays.
pub fn no_primary(f: &mut Fields)
    ensures fields { plain f.new ≡ pairs.no_primary (plain f.old) }
    ensures stages { stages f.new ≡ stages f.old }
{
    f.primary = Part::Absent;
    f.primary_state = PairState::CopyPending;
    f.primary_partner = VolumeId(0);
    f.coordination = false;
    f.long_busy = false;
    f.recording = false;
    f.out_of_sync = TrackSet::empty();
    f.change_recording = TrackSet::empty();
    f.entries = Entries::free();
}

/// A volume that is a secondary no more.
pub fn no_secondary(f: &mut Fields)
    ensures fields { plain f.new ≡ pairs.no_secondary (plain f.old) }
    ensures stages { stages f.new ≡ stages f.old }
{
    f.secondary = Part::Absent;
    f.secondary_state = PairState::CopyPending;
    f.secondary_partner = VolumeId(0);
    f.seal = 0;
}

/// A secondary in another state.
pub fn followed(state: PairState, f: &mut Fields)
    ensures fields { plain f.new ≡ record (plain f.old) { secondary_state = state } }
    ensures stages { stages f.new ≡ stages f.old }
{
    f.secondary_state = state;
}

/// A primary that goes on.
pub fn resumed(state: PairState, f: &mut Fields)
    ensures fields { plain f.new ≡ pairs.resumed state (plain f.old) }
    ensures stages { stages f.new ≡ stages f.old }
{
    f.primary_state = state;
    f.long_busy = false;
}

/// A secondary that becomes a Suspended primary of its primary, with no track out of sync.
pub fn taken_over(f: &mut Fields)
    ensures fields { plain f.new ≡ pairs.taken_over (plain f.old) }
    ensures stages { stages f.new ≡ stages f.old }
{
    f.primary = f.secondary;
    f.primary_state = PairState::Suspended;
    f.primary_partner = f.secondary_partner;
    f.coordination = false;
    f.long_busy = false;
    f.recording = false;
    f.out_of_sync = TrackSet::empty();
    f.change_recording = TrackSet::empty();
    f.entries = Entries::free();
    no_secondary(f);
}

/// Whether track t of a volume with these fields collides with what comes to it: a Global Copy primary records, and the track is still out of
/// sync, so that its secondary hasn't what it was as the primary began to.
pub fn collides(f: &Fields, t: u16) -> bool
    ensures { result ≡ pairs.collides (plain f.now) t }
{
    f.primary.is_global() && (f.recording && f.out_of_sync.contains(t))
}

/// Whether a primary records changes, or is held by coordination.
pub fn is_engaged(f: &Fields) -> bool
    ensures { result ≡ pairs.is_engaged (plain f.now) }
{
    f.recording || f.coordination
}

/// If what was recorded counts, it is out of sync too, nothing is recorded, and no entry is used.
pub(crate) fn count_recorded(counts: bool, f: &mut Fields)
    ensures fields { f.new ≡ record f.old { out_of_sync = if counts then union f.old.out_of_sync f.old.change_recording else f.old.out_of_sync; change_recording = if counts then empty else f.old.change_recording; entries = if counts then free_entries else f.old.entries } }
    ensures stages { stages f.new ≡ stages f.old }
{
    if counts {
        f.out_of_sync.union(&f.change_recording);
        f.change_recording = TrackSet::empty();
        f.entries = Entries::free();
    }
}

/// A primary after a void: what changed while it recorded is out of sync too, no entry is used, and it neither records nor is held by
/// coordination.
pub(crate) fn voided(f: &mut Fields)
    ensures fields { plain f.new ≡ pairs.voided (plain f.old) }
    ensures stages { stages f.new ≡ stages f.old }
{
    let engaged = is_engaged(f);
    count_recorded(engaged, f);
    f.coordination = false;
    f.recording = false;
}

/// A primary that is Suspended, after a void; it is long busy where it is to be, or was.
pub fn suspended(busy: bool, f: &mut Fields)
    ensures fields { plain f.new ≡ pairs.suspended busy (plain f.old) }
    ensures stages { stages f.new ≡ stages f.old }
{
    f.primary_state = PairState::Suspended;
    f.long_busy = f.long_busy || busy;
    voided(f);
}

/// A primary that is voided, with these tracks out of sync too.
fn widened(more: &TrackSet, f: &mut Fields)
    ensures fields { plain f.new ≡ pairs.with_more more.now (plain f.old) }
    ensures stages { stages f.new ≡ stages f.old }
{
    voided(f);
    f.out_of_sync.union(more);
}

/// The fields of a primary that is voided, with these tracks out of sync too.
pub fn with_more(more: &TrackSet, f: &Fields) -> Fields
    ensures { plain result ≡ pairs.with_more more.now (plain f.now) }
{
    let mut next = *f;
    widened(more, &mut next);
    next
}

/// The primary of a pair that goes the other way round from now on.
pub fn fallen_back(more: &TrackSet, state: PairState, f: &mut Fields)
    ensures fields { plain f.new ≡ pairs.fallen_back more.now state (plain f.old) }
    ensures stages { stages f.new ≡ stages f.old }
{
    f.primary_state = state;
    widened(more, f);
}

/// And its secondary, which was a primary: its attempt stays.
pub fn yielded(a: VolumeId, kind: Part, state: PairState, f: &mut Fields)
    ensures fields { plain f.new ≡ pairs.yielded a.0 kind state (plain f.old) }
    ensures stages { stages f.new ≡ stages f.old }
{
    no_primary(f);
    made_secondary(a, kind, state, f);
}

/// The state that a part gets with the last track, or has.
fn state_after(last: bool, state: PairState) -> PairState
    ensures { result ≡ (if last then FullDuplex else state) }
{
    if last { PairState::FullDuplex } else { state }
}

/// A secondary that has stored track t, maybe the last one: the track came to it as a host write would.
pub fn received(last: bool, f: &mut Fields, t: u16)
    requires { t < most_tracks }
    ensures fields { plain f.new ≡ pairs.received last (plain f.old) t }
    ensures stages { stages f.new ≡ stages f.old }
{
    written(f, t);
    f.seal = 0;
    f.secondary_state = state_after(last, f.secondary_state);
}

/// A primary whose track t is out of sync no more, maybe the last one; the entry that names it is free.
pub fn struck(last: bool, f: &mut Fields, t: u16)
    ensures fields { plain f.new ≡ pairs.struck last (plain f.old) t }
    ensures stages { stages f.new ≡ stages f.old }
{
    f.out_of_sync.remove(t);
    f.entries.free_track(t);
    f.primary_state = state_after(last, f.primary_state);
}

/// A secondary that has stored new bytes of track t, which came to it as a host write would.
pub fn mirrored(f: &mut Fields, t: u16)
    requires { t < most_tracks }
    ensures fields { plain f.new ≡ pairs.mirrored (plain f.old) t }
    ensures stages { stages f.new ≡ stages f.old }
{
    written(f, t);
}

/// A primary whose track t has new bytes, which its secondary has too.
pub fn synced(f: &mut Fields, t: u16)
    ensures fields { plain f.new ≡ pairs.synced (plain f.old) t }
    ensures stages { stages f.new ≡ stages f.old }
{
    f.blank.remove(t);
    f.out_of_sync.remove(t);
}

/// A volume that is long busy no more.
pub fn thawed(f: &mut Fields)
    ensures fields { plain f.new ≡ pairs.thawed (plain f.old) }
    ensures stages { stages f.new ≡ stages f.old }
{
    f.long_busy = false;
}

/// Whether a stop within a host write left a Metro Mirror pair Full Duplex with a track out of sync.
pub fn is_torn(f: &Fields) -> bool
    ensures { result ≡ pairs.is_torn (plain f.now) }
{
    f.primary.is_metro() && (f.primary_state.is_full_duplex() && f.out_of_sync.len() != 0)
}

/// The state of a primary as its server starts.
fn state_at_start(f: &Fields) -> PairState
    ensures { result ≡ (if pairs.is_torn (plain f.now) then CopyPending else f.now.primary_state) }
{
    if is_torn(f) {
        PairState::CopyPending
    } else {
        f.primary_state
    }
}

/// A volume that goes on as its server starts.
pub fn restarted(f: &mut Fields)
    ensures fields { plain f.new ≡ pairs.restarted (plain f.old) }
    ensures stages { stages f.new ≡ stages f.old }
{
    f.primary_state = state_at_start(f);
    voided(f);
}
