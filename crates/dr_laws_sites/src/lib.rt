//! Laws on three sites, over every script and every stop: what the second site's volume shows of the first one's at each moment, and what is left
//! at the third site where both others are lost. Its functions do nothing: each names a law by its contract.
#![tactic(auto)]

ghost use Rattle.std.specs.Prelude.{◌≡◌, ℕ, Bool, true, false, List, [], ◌∷◌, take, Option};
ghost use Rattle.std.specs.FinSet.{contains, empty};
ghost use Rattle.dr_logic.specs.Bytes.{zeros};
ghost use Rattle.dr_model.specs.Layout.{Blocks};
ghost use Rattle.dr_model.specs.Contents.{laid};
ghost use Rattle.dr_model.specs.Control.{Fuse};
ghost use Rattle.dr_model.specs.Pairs.{is_full_duplex, is_cascaded};
ghost use Rattle.dr_model.specs.Entries.{fields_at};
ghost use Rattle.dr_model.specs.Groups.{In};
ghost use Rattle.dr_model.specs.Table.{due};
ghost use Rattle.dr_model.specs.Cuts.{CutAt};
ghost use Rattle.dr_model.specs.ClosedCuts.{InGroup, LastCut};
ghost use Rattle.dr_model.specs.NewestGroup.{NewestGroup};
ghost use Rattle.dr_model.specs.Fits.{Fits};
ghost use Rattle.dr_model.specs.Runs.{Task, run};
ghost use Rattle.dr_laws_sites.specs.FirstSite.{IsFirst, ShowsFirst, FromFirstSite};
ghost use Rattle.dr_laws_freezes.specs.Moments.{moments};
ghost use Rattle.dr_laws_recovery.specs.Recovered.{recovered_on, HoldsTracks};
ghost use Rattle.dr_laws_sites.specs.CutMoments.{IsJustCut, CutsAreMoments};
ghost use Rattle.dr_laws_sites.specs.BothLost.{BothSitesLost};
ghost use Rattle.dr_laws_sites.specs.Example.{three_sites, cut_moment, committed_group, hold_moment, cut_front, its_member, its_session, only, sites, first_write, both_have, first_has, second_has};

/// At each moment of a run, whether or not any server runs, a Metro Mirror secondary, which may be cascaded, shows what its primary does: on each
/// track that the primary's record doesn't have out of sync, the host writes that the secondary holds by the journal make what the primary's
/// make, with those that landed on it in a stop and aren't acknowledged yet. So where the primary is Full Duplex and has nothing out of sync, all
/// tracks do.
pub fn the_second_site_shows_what_the_first_does()
    ensures { (tasks : List Task) → FromFirstSite tasks }
{}

/// Each cut of a run's journal has its moment among the moments of the run: the volume has just been cut there, and the journal ends with the cut,
/// or with the stop of the volume's server after it.
pub fn each_cut_has_its_moment()
    ensures { (tasks : List Task) → CutsAreMoments tasks }
{}

/// Where a run ends, the devices of a plant that fits its world give back of each session the cut of its newest group, and here is what that cut is of
/// the first site's volumes. Where the primary of a member was cascaded as it was cut, the member's target shows what the first site's volume was
/// due to show at that moment, on each track that its record didn't have out of sync there. The same holds of the last cut of the attempt, which is
/// one moment for all members. So where the first site's volumes were Full Duplex then, with nothing out of sync, the targets show what all of these
/// held at that one moment. Each write that was acknowledged on them by then they held, unless a step took it away.
pub fn with_two_sites_lost_targets_show_the_first()
    ensures { (tasks : List Task) (on : ℕ → Bool) (fuse : ℕ → Option Fuse) (device : ℕ → Blocks) → Fits (run tasks) on fuse device → HoldsTracks (run tasks) device → BothSitesLost tasks device }
{}

/// An example: a run of sixteen steps, of which the last one holds a cascaded volume for an attempt. One of its moments is that of the cut; there
/// the first site's volume is a Metro Mirror primary of the cascaded one, Full Duplex, with nothing out of sync.
pub fn an_example_of_three_sites()
    ensures among { In cut_moment (moments three_sites) }
    ensures just { IsJustCut cut_moment (take 24 cut_moment.events) 1 1 8192 }
    ensures first { IsFirst cut_moment.control 4096 8192 }
    ensures cascaded { is_cascaded (fields_at cut_moment.control 8192) ≡ true }
    ensures duplex { is_full_duplex (fields_at cut_moment.control 4096).primary_state ≡ true }
    ensures clean { (fields_at cut_moment.control 4096).out_of_sync ≡ empty }
{}

/// An example of a group over three sites: one run meets all that the law on two lost sites asks, and this is what the law gives of it. The host's
/// write of an a goes to the first site's volume and its mirror. As that is held, the third site hasn't got the track yet; it is sent after the
/// release. The member stands in the group, since nothing took its flash back, nor its target out of the session; and the group is the newest, since
/// it is the only one. At the moment of the hold the first site's volume is the Metro Mirror primary of the member's, with the track in sync. So if
/// both sites are lost, recovery shows the a on the target, from the devices only, and not the b that the host wrote after the group.
pub fn an_example_of_a_committed_group()
    ensures session { In its_session (run committed_group).control.sessions }
    ensures member { In its_member its_session.members }
    ensures group { InGroup (run committed_group).events 1 1 8192 }
    ensures newest { NewestGroup (run committed_group).events 1 1 }
    ensures cut { (c : CutAt (run committed_group).events 1 1 8192) × (c.before ≡ cut_front) }
    ensures last { (p : LastCut (run committed_group).events 1 1) × ((p.volume ≡ 8192) × (p.place.before ≡ cut_front)) }
    ensures moment { In hold_moment (moments committed_group) }
    ensures just { IsJustCut hold_moment cut_front 1 1 8192 }
    ensures first { IsFirst hold_moment.control 4096 8192 }
    ensures clean { contains (fields_at hold_moment.control 4096).out_of_sync 0 ≡ false }
    ensures unsent { contains (fields_at hold_moment.control 8192).out_of_sync 0 ≡ true }
    ensures due_then { due hold_moment 4096 0 ≡ laid 0 (97 ∷ []) zeros }
    ensures shows { (on : ℕ → Bool) (fuse : ℕ → Option Fuse) (device : ℕ → Blocks) → Fits (run committed_group) on fuse device → HoldsTracks (run committed_group) device → (recovered_on (run committed_group) device 1).image 16384 0 ≡ laid 0 (97 ∷ []) zeros }
    ensures later { due (run committed_group) 4096 0 ≡ laid 0 (98 ∷ []) (laid 0 (97 ∷ []) zeros) }
{}

/// An example of what the second site's volume may show where nothing is out of sync at the first one: the write that was acknowledged there, and
/// those that landed on it in a stop and aren't acknowledged yet, but not less, nor a write that hasn't landed. A track that is out of sync may lack a
/// write, and no other one.
pub fn an_example_of_a_second_site()
    ensures even { ShowsFirst (sites empty [] both_have) 4096 8192 }
    ensures less { ShowsFirst (sites empty [] first_has) 4096 8192 → ⊥ }
    ensures out { ShowsFirst (sites (only 0) [] first_has) 4096 8192 }
    ensures out_elsewhere { ShowsFirst (sites (only 1) [] first_has) 4096 8192 → ⊥ }
    ensures landed { ShowsFirst (sites empty (first_write true ∷ []) second_has) 4096 8192 }
    ensures ahead { ShowsFirst (sites empty (first_write false ∷ []) second_has) 4096 8192 → ⊥ }
{}
