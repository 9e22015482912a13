//! Laws on fuses, over every script: what a fuse that isn't reached changes, what the bytes of a torn block change, and which stop comes first. Its
//! functions do nothing: each names a law by its contract.
#![tactic(auto)]

ghost use Rattle.std.specs.Prelude.{ℕ, List, Option};
ghost use Rattle.dr_model.specs.Control.{Fuse, World};
ghost use Rattle.dr_model.specs.Runs.{Task};
ghost use Rattle.dr_laws_fuses.specs.Laws.{FirstPlaceStays, LastWriteLeavesNothing, StartMakesNoOtherWrite, StartTakesFuseAway, StopMakesNoWrite, TearsAsFill, TornBytesTellOneBit, UnreachedChangesNothing};

/// Two worlds differ in the fuse of one server alone, which lets more writes pass in the second. If a step doesn't stop that server in the first, both
/// come to worlds that differ in that fuse alone, and by as many writes; if the step arms it anew, to one and the same world. A start of that server takes
/// a fuse away that is at 0, so with such a step the first fuse isn't there.
pub fn a_fuse_that_is_not_reached_changes_nothing()
    ensures { (s : ℕ) (w v : World) (t : Task) → UnreachedChangesNothing s w v t }
{}

/// In a step that stops a server, none makes a device write: whatever fuses there are, it leads to the same world, and leaves them.
pub fn a_stop_makes_no_device_write()
    ensures { (s : ℕ) (w : World) (t : Task) → StopMakesNoWrite s w t }
{}

/// In a step that starts a server, no other one makes a device write or stops.
pub fn a_start_makes_no_device_write_of_another_server()
    ensures { (s : ℕ) (w : World) (t : Task) → StartMakesNoOtherWrite s w t }
{}

/// A fuse at 0 of a server that a step starts stops nothing in that step: it is taken away.
pub fn a_start_takes_a_fuse_at_0_away()
    ensures { (s : ℕ) (w : World) (t : Task) → StartTakesFuseAway s w t }
{}

/// Two worlds differ in the torn bytes of fuses alone, and a torn gate chooses the same slot with either. Whatever steps are carried out, they differ in
/// nothing else. An image lists devices, on which a torn block keeps its other bits: so the steps are taken with what they list.
pub fn torn_bytes_tell_one_bit()
    ensures { (tasks : List Task) (w v : World) → TornBytesTellOneBit w v tasks }
{}

/// A fuse with any torn bytes tears as one that fills the block with 00, or as one that fills it with 01.
pub fn any_bytes_tear_as_a_fill()
    ensures { (writes : ℕ) (bytes : List ℕ) → TearsAsFill writes bytes }
{}

/// Two worlds differ in the fuses of some servers alone, each with its place among them: that at one place is the same, all others let at least as many
/// writes pass in the second. If of these servers that one stops first in a step, or if none of them stops, it is so in the other world. A start takes a
/// fuse at 0 away: so where the step starts a server with such a fuse, that one is the same in both.
pub fn the_first_stop_stays()
    ensures { (place : ℕ → Option ℕ) (own : Option ℕ) (w : World) (g : ℕ → Option Fuse) (t : Task) → FirstPlaceStays place own w g t }
{}

/// A server whose fuse is at 0, and leaves what stood in the block, leaves its volumes and their tracks as they were in any step that doesn't start it; so
/// does one that is off. No move counts as done in its first device write, which is never the gate's. No host write on one of its volumes is acknowledged.
pub fn a_server_at_its_last_write_leaves_nothing()
    ensures { (s : ℕ) (w : World) (t : Task) → LastWriteLeavesNothing s w t }
{}
