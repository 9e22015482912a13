//! What the fields of a volume become as relationships are made, kept and ended.

ghost use Rattle.std.specs.Prelude.{◌≡◌, ◌≤◌, ◌<◌, true, if◌then◌else◌};
ghost use Rattle.std.specs.FinSet.{difference, insert};
ghost use Rattle.dr_ids.specs.Sizes.{most_tracks};
ghost use Rattle.dr_model.specs.Layout.{with_entry};
ghost use Rattle.dr_model.specs.Pairs as pairs;
ghost use Rattle.dr_model.specs.Relations as relations;
ghost use Rattle.dr_volume.specs.Plain.{plain};
ghost use Rattle.dr_volume.specs.Update.{stages};
ghost use Rattle.dr_moves.specs.Options.{choices};

use crate::options::FlashOptions;
use crate::pair_fields::collides;
use crate::sets::{is_whole, rest};
use dr_bits::TrackSet;
use dr_ids::VolumeId;
use dr_volume::{Entries, Fields};

/// The fields of a volume that is a target no more.
fn parted(f: &mut Fields)
    ensures fields { plain f.new ≡ relations.parted_if true (plain f.old) }
    ensures stages { stages f.new ≡ stages f.old }
{
    f.related = false;
    f.source = VolumeId(0);
    f.nocopy = false;
    f.persistent = false;
    f.recorded = false;
    f.inhibited = false;
    f.own = TrackSet::empty();
    f.previous_own = TrackSet::empty();
    f.source_changes = TrackSet::empty();
    f.target_changes = TrackSet::empty();
    f.sequence = 0;
    f.previous_sequence = 0;
    f.revertible = false;
    f.reversing = false;
    f.member = false;
    f.session = 0;
}

/// A relationship that isn't persistent ends where the target holds all tracks.
fn closed(n: u16, f: &mut Fields)
    requires { n ≤ most_tracks }
    ensures fields { plain f.new ≡ relations.closed n (plain f.old) }
    ensures stages { stages f.new ≡ stages f.old }
{
    if is_whole(n, &f.own) && !f.persistent {
        parted(f);
    }
}

/// Track t is one of a set, where it is to be.
fn insert_if(there: bool, set: &mut TrackSet, t: u16)
    requires { t < most_tracks }
    ensures { set.new ≡ (if there then insert set.old t else set.old) }
{
    if there {
        set.insert(t);
    }
}

/// A volume whose track t has new bytes.
pub fn altered(f: &mut Fields, t: u16)
    requires { t < most_tracks }
    ensures fields { plain f.new ≡ pairs.altered (plain f.old) t }
    ensures stages { stages f.new ≡ stages f.old }
{
    let first = f.primary.is_part();
    insert_if(first, &mut f.out_of_sync, t);
    f.blank.remove(t);
}

// Whether what track t was is to be saved as new bytes come to it.
fn saves_track(f: &Fields, t: u16) -> bool
    ensures { result ≡ pairs.saves_track (plain f.now) t }
{
    collides(f, t) && !f.entries.names(t)
}

/// The lowest free entry names track t, if it is to.
fn take_if(there: bool, entries: &mut Entries, t: u16)
    ensures { entries.new ≡ (if there then with_entry entries.old t else entries.old) }
{
    if there {
        entries.take(t);
    }
}

/// A volume to whose track t new bytes came: of a primary that records the track has changed since it began to, and the lowest free
/// entry names it, if what it was is still to be sent; of any other primary it is out of sync.
pub fn written(f: &mut Fields, t: u16)
    requires { t < most_tracks }
    ensures fields { plain f.new ≡ pairs.written (plain f.old) t }
    ensures stages { stages f.new ≡ stages f.old }
{
    let first = f.primary.is_part();
    let recording = f.recording;
    take_if(saves_track(f, t), &mut f.entries, t);
    insert_if(first && !recording, &mut f.out_of_sync, t);
    insert_if(first && recording, &mut f.change_recording, t);
    f.blank.remove(t);
}

/// The target holds track t.
fn fetched(f: &mut Fields, t: u16)
    requires { t < most_tracks }
    ensures fields { plain f.new ≡ relations.fetched (plain f.old) t }
    ensures stages { stages f.new ≡ stages f.old }
{
    f.own.insert(t);
    f.blank.remove(t);
}

/// Track t of the source changes, which is noted where changes are recorded.
pub fn noted(f: &mut Fields, t: u16)
    requires { t < most_tracks }
    ensures fields { plain f.new ≡ relations.noted (plain f.old) t }
    ensures stages { stages f.new ≡ stages f.old }
{
    let recorded = f.recorded;
    insert_if(recorded, &mut f.source_changes, t);
}

/// Track t of the target changes, which is noted where changes are recorded.
fn rewritten(f: &mut Fields, t: u16)
    requires { t < most_tracks }
    ensures fields { plain f.new ≡ relations.rewritten (plain f.old) t }
    ensures stages { stages f.new ≡ stages f.old }
{
    let recorded = f.recorded;
    insert_if(recorded, &mut f.target_changes, t);
}

/// A target of `s`, as its relationship is made.
pub fn made(s: VolumeId, o: &FlashOptions, f: &mut Fields)
    ensures fields { plain f.new ≡ relations.made s.0 (choices o.now) (plain f.old) }
    ensures stages { stages f.new ≡ stages f.old }
{
    f.related = true;
    f.source = s;
    f.nocopy = o.nocopy;
    f.persistent = o.persistent || o.recorded;
    f.recorded = o.recorded;
    f.inhibited = o.inhibited;
    f.own = TrackSet::empty();
    f.previous_own = TrackSet::empty();
    f.source_changes = TrackSet::empty();
    f.target_changes = TrackSet::empty();
    f.sequence = o.sequence;
    f.previous_sequence = 0;
    f.revertible = false;
    f.reversing = false;
    f.member = false;
    f.session = 0;
}

/// A target of n tracks whose relationship ends: the tracks that it doesn't hold read zeros.
pub fn withdrawn(n: u16, f: &mut Fields)
    requires { n ≤ most_tracks }
    ensures fields { plain f.new ≡ relations.withdrawn_if true n (plain f.old) }
    ensures stages { stages f.new ≡ stages f.old }
{
    f.blank = rest(n, &f.own);
    parted(f);
}

/// The tracks that a target holds and that changed on neither side.
pub(crate) fn unchanged(f: &Fields) -> TrackSet
    ensures { result ≡ difference (difference f.now.own f.now.source_changes) f.now.target_changes }
{
    let mut own = f.own;
    own.minus(&f.source_changes);
    own.minus(&f.target_changes);
    own
}

/// A target that shares its changed tracks with its source again; where a sequence is given, it has that one.
pub fn resynced(sequence: Option<u32>, f: &mut Fields)
    ensures fields { plain f.new ≡ relations.resynced sequence (plain f.old) }
    ensures stages { stages f.new ≡ stages f.old }
{
    f.own = unchanged(f);
    f.source_changes = TrackSet::empty();
    f.target_changes = TrackSet::empty();
    f.sequence = sequence.unwrap_or(f.sequence);
}

/// A target that is to be restored onto its source: what it holds from then on is what comes back.
fn turned(f: &mut Fields)
    ensures fields { plain f.new ≡ relations.turned (plain f.old) }
    ensures stages { stages f.new ≡ stages f.old }
{
    f.source_changes.union(&f.target_changes);
    f.own = f.source_changes;
    f.source_changes = TrackSet::empty();
    f.target_changes = TrackSet::empty();
    f.reversing = true;
    f.member = false;
    f.session = 0;
}

/// A target that has given track t back.
fn given_up(f: &mut Fields, t: u16)
    ensures fields { plain f.new ≡ relations.given_up (plain f.old) t }
    ensures stages { stages f.new ≡ stages f.old }
{
    f.own.remove(t);
}

/// A restore onto a source of n tracks that has no track left to give back ends.
fn restored(n: u16, f: &mut Fields)
    requires { n ≤ most_tracks }
    ensures fields { plain f.new ≡ relations.restored n (plain f.old) }
    ensures stages { stages f.new ≡ stages f.old }
{
    if f.own.len() == 0 {
        withdrawn(n, f);
    }
}

/// A target of n tracks that takes track t of its source, which ends a relationship that isn't persistent where it was the last.
pub(crate) fn taken(n: u16, f: &mut Fields, t: u16)
    requires size { n ≤ most_tracks }
    requires below { t < most_tracks }
    ensures fields { plain f.new ≡ relations.closed n (relations.fetched (plain f.old) t) }
    ensures stages { stages f.new ≡ stages f.old }
{
    fetched(f, t);
    closed(n, f);
}

/// A target that keeps its source's track t, which is about to change.
pub(crate) fn kept(n: u16, f: &mut Fields, t: u16)
    requires size { n ≤ most_tracks }
    requires below { t < most_tracks }
    ensures fields { plain f.new ≡ relations.closed n (relations.noted (relations.fetched (plain f.old) t) t) }
    ensures stages { stages f.new ≡ stages f.old }
{
    fetched(f, t);
    noted(f, t);
    closed(n, f);
}

/// A target on whose track t a host write landed.
pub(crate) fn overwritten(n: u16, f: &mut Fields, t: u16)
    requires size { n ≤ most_tracks }
    requires below { t < most_tracks }
    ensures fields { plain f.new ≡ relations.closed n (relations.rewritten (relations.fetched (plain f.old) t) t) }
    ensures stages { stages f.new ≡ stages f.old }
{
    fetched(f, t);
    rewritten(f, t);
    closed(n, f);
}

/// A target of n tracks that is to be restored onto its source, which ends where there is nothing to give back.
pub(crate) fn reversed(n: u16, f: &mut Fields)
    requires { n ≤ most_tracks }
    ensures fields { plain f.new ≡ relations.restored n (relations.turned (plain f.old)) }
    ensures stages { stages f.new ≡ stages f.old }
{
    turned(f);
    restored(n, f);
}

/// A target of n tracks that has given track t back, which ends the restore where it was the last.
pub(crate) fn released(n: u16, f: &mut Fields, t: u16)
    requires { n ≤ most_tracks }
    ensures fields { plain f.new ≡ relations.restored n (relations.given_up (plain f.old) t) }
    ensures stages { stages f.new ≡ stages f.old }
{
    given_up(f, t);
    restored(n, f);
}
