//! Laws on the way home, over every script and every stop: where a pair is in place and nothing is left to send, the devices of both sites
//! contain the same, and a comparison tells what they contain. Its functions do nothing: each names a law by its contract.
#![tactic(auto)]

ghost use Rattle.std.specs.Prelude.{◌≡◌, ℕ, Bool, true, false, List, Option};
ghost use Rattle.std.specs.FinSet.{empty};
ghost use Rattle.dr_ids.specs.declared.refusal.PairSeen.TheVariants as seen;
ghost use Rattle.dr_ids.specs.declared.refusal.RelSeen.TheVariants.{Revertible};
ghost use Rattle.dr_ids.specs.declared.refusal.Refusal.TheVariants.{PairState, RelationState};
ghost use Rattle.dr_model.specs.declared.said.Addition.TheVariants.{Counted};
ghost use Rattle.dr_model.specs.declared.said.Said.TheVariants.{Done, Refused};
ghost use Rattle.dr_model.specs.declared.state.Part.TheVariants.{Metro, Global};
ghost use Rattle.dr_model.specs.Layout.{Blocks};
ghost use Rattle.dr_model.specs.Control.{World, Fuse};
ghost use Rattle.dr_model.specs.Fits.{Fits, on_device};
ghost use Rattle.dr_model.specs.Runs.{Task, run};
ghost use Rattle.dr_laws_freezes.specs.Secondaries.{SecondariesLackNone};
ghost use Rattle.dr_laws_recovery.specs.Decided.{record_on};
ghost use Rattle.dr_laws_recovery.specs.Recovered.{HoldsTracks};
ghost use Rattle.dr_laws_return.specs.Sites.{SitesAlike};
ghost use Rattle.dr_laws_return.specs.Compared.{ComparesDevices};
ghost use Rattle.dr_laws_return.specs.Returned.{Returns, Sends};
ghost use Rattle.dr_laws_return.specs.Drains.{drain_ends, DrainsOrStops, SecondDrains};
ghost use Rattle.dr_laws_return.specs.DrainsExample.{only, pair};

/// Where the record on a device says that its volume is a primary, and that on the other device that its volume is the secondary, each track
/// that the primary's record has neither out of sync nor changed since contains the same on both devices, wherever a run ends. So where it
/// has nothing out of sync, and nothing changed since, both devices contain the same.
pub fn sites_are_equal_where_nothing_is_left()
    ensures { (tasks : List Task) (on : ℕ → Bool) (fuse : ℕ → Option Fuse) (device : ℕ → Blocks) → Fits (run tasks) on fuse device → SitesAlike (run tasks) device }
{}

/// Where by the records on both devices a volume is a Metro Mirror primary that is Full Duplex, and another one its secondary, whether or not any
/// server runs, each track of the secondary's device contains what the host writes make that the primary holds by the journal, in their order. On
/// at most one track one write more comes after them, which is pending on the primary, and not acknowledged.
pub fn a_full_duplex_secondary_lacks_no_write()
    ensures { (tasks : List Task) (on : ℕ → Bool) (fuse : ℕ → Option Fuse) (device : ℕ → Blocks) → Fits (run tasks) on fuse device → HoldsTracks (run tasks) device
        → SecondariesLackNone (run tasks) (record_on (run tasks) device) (on_device (run tasks).control device) }
{}

/// Where the last step of a run compares two volumes, and is answered ok, each track of both devices contains the same. Where it is answered
/// that they aren't identical, with a track, that track is the first in which the devices differ.
pub fn comparisons_are_of_the_devices()
    ensures { (tasks : List Task) (device : ℕ → Blocks) → HoldsTracks (run tasks) device → ComparesDevices tasks device }
{}

/// Where the last two steps of a run are a failback of one volume to another and a drain of all its tracks, and both are answered ok, whatever
/// came before, then by the records on the devices the first volume is the primary of the other, and that one its secondary, of the kind that
/// the failback named; nothing is recorded or out of sync; a Metro Mirror pair is Full Duplex; and each track of both devices contains the
/// same, which is what the host writes of the journal make.
pub fn a_drain_behind_a_failback_brings_home()
    ensures { (tasks : List Task) (on : ℕ → Bool) (fuse : ℕ → Option Fuse) (device : ℕ → Blocks) → Fits (run tasks) on fuse device → HoldsTracks (run tasks) device → Returns tasks device }
{}

/// Where the last step of a run is a drain of all tracks of a volume that is answered ok, its record has nothing out of sync. So where it doesn't
/// record, and by the records on both devices another volume is its secondary, each track of both contains the same, whatever came before.
pub fn drains_leave_a_pair_in_place_equal()
    ensures { (tasks : List Task) (on : ℕ → Bool) (fuse : ℕ → Option Fuse) (device : ℕ → Blocks) → Fits (run tasks) on fuse device → Sends tasks device }
{}

/// A drain of all tracks of a volume is answered by the state in which it begins. It is refused if the volume isn't there, its server is off, or
/// it is no primary in Copy Pending. Else, with nothing out of sync, it is answered ok with 0, whatever its partner is. Else it is refused if the
/// partner can't be reached or isn't its secondary, and the volume is Suspended then. It is refused too, with nothing suspended, if the partner is
/// the source of a revertible relationship, or is cascaded and held by coordination. In none of these cases is anything sent. Else it is answered
/// ok with the number of tracks that were out of sync, and none is then. Only if devices are to be written there is one other answer: that a
/// server stopped, on which a fuse was armed as the step began. No hold of the volume itself refuses a drain. So it is after any run, if the
/// journal has room for a step.
pub fn a_drain_answers_by_the_state()
    ensures { (tasks : List Task) → DrainsOrStops tasks }
{}

/// A second drain of all tracks of a volume, right after one that no stop ended, is answered by the state in which the first one began, and no
/// stop ends it. After one that was answered ok it is answered ok with 0; but if tracks were sent and the pair is one of Metro Mirror, it is Full
/// Duplex, and the second drain is refused for that. After one that suspended the volume it is refused as the volume is Suspended. After any other
/// refusal it is refused in the same way. If the journal has no room for a step, it is refused for that.
pub fn a_second_drain_answers_by_the_first()
    ensures { (tasks : List Task) → SecondDrains tasks }
{}

/// An example: a pair of two sites with one track out of sync. A drain sends it and is answered ok with 1. A second one is answered ok with 0 or,
/// if the pair is one of Metro Mirror, refused because it is Full Duplex. If the second site's volume is the source of a revertible relationship,
/// a drain is refused for that; but with nothing out of sync it is answered ok with 0.
pub fn an_example_of_drains()
    ensures sends { (drain_ends (pair Global (only 1) false) 4096).answer ≡ Done (Counted 1) }
    ensures again { (drain_ends (pair Global (only 1) false) 4096).second ≡ Done (Counted 0) }
    ensures duplex { (drain_ends (pair Metro (only 1) false) 4096).second ≡ Refused (PairState (record { 0 = 4096 }) seen.FullDuplex) }
    ensures flashed { (drain_ends (pair Metro (only 1) true) 4096).answer ≡ Refused (RelationState (record { 0 = 8192 }) Revertible) }
    ensures none { (drain_ends (pair Metro empty true) 4096).answer ≡ Done (Counted 0) }
{}
