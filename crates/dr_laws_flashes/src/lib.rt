//! Laws on flash holds, over every script and every stop: no host write lands on a volume that has one, and at the end of a sound flash window the
//! targets of its pairs show one cut of the host's writes. Its functions do nothing: each names a law by its contract.
#![tactic(auto)]

ghost use Rattle.std.specs.Prelude.{◌≡◌, true, false, List};
ghost use Rattle.dr_model.specs.declared.event.Event.TheVariants.{Ack, Set, Stopped};
ghost use Rattle.dr_model.specs.Runs.{Task};
ghost use Rattle.dr_laws_flashes.specs.Windows.{changes, reaches, FlashCut};
ghost use Rattle.dr_laws_flashes.specs.Held.{NoneWaitsHeld, NoneLandsHeld};
ghost use Rattle.dr_laws_flashes.specs.Example.{third_write};

/// At the end of a sound flash window of a run the targets of its pairs show one moment of the host's writes. The cut of each pair, which is what its source
/// held as the target took the source's tracks, is what the source still holds. So the cuts are closed: none lacks a write of another source on which one of
/// its writes depends. Each track of a target shows the image of its cut, but where the host wrote on that track of the target since. A window is
/// a stretch of moments; it is sound where each source has a flash hold as its tracks are taken and from there on, and where nothing but
/// acknowledgements changes what source and target hold from there on.
pub fn flash_sets_leave_one_cut()
    ensures { (tasks : List Task) → FlashCut tasks }
{}

/// At each moment of a run, no write that landed in a stop waits on a volume that has a flash hold: so the start of its server acknowledges
/// none there.
pub fn held_volumes_wait_for_nothing()
    ensures { (tasks : List Task) → NoneWaitsHeld tasks }
{}

/// While a volume has a flash hold, no host write on it is acknowledged, wherever servers stop and start.
pub fn no_write_lands_under_a_flash_hold()
    ensures { (tasks : List Task) → NoneLandsHeld tasks }
{}

/// An example of what excuses a track of a target: the acknowledgement of a write on it, and a stop in which such a write landed, but neither of
/// another track, nor a stop in which none landed. And a target that is taken anew changes its own lists, but not its source's.
pub fn an_example_reaches_a_track()
    ensures acknowledged { reaches third_write 8 1 (Ack 3) ≡ true }
    ensures landed { reaches third_write 8 1 (Stopped 0 3) ≡ true }
    ensures elsewhere { reaches third_write 8 0 (Ack 3) ≡ false }
    ensures none { reaches third_write 0 0 (Stopped 0 0) ≡ false }
    ensures taken { changes 9 (Set 9 8) ≡ true }
    ensures stays { changes 8 (Set 9 8) ≡ false }
{}
