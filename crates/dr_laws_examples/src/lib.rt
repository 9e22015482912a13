//! Examples: runs that meet all that a law asks of a script, and what the law gives of each. There is one with a sound freeze window, one with a
//! sound flash window, one with the way home, comparisons and a track that is shown, one with orders that come late, one with a loss that is
//! settled, and some that come to Idle. Its functions do nothing: each names its runs.
#![tactic(auto)]

ghost use Rattle.std.specs.Prelude.{◌≡◌, ℕ, Bool, true, [], ◌∷◌, ◌++◌, Option};
ghost use Rattle.dr_logic.specs.Bytes.{zeros};
ghost use Rattle.dr_ids.specs.declared.refusal.Refusal.TheVariants.{NotIdentical, OldMessage};
ghost use Rattle.dr_model.specs.declared.event.Event.TheVariants.{Shown};
ghost use Rattle.dr_model.specs.declared.said.Addition.TheVariants.{Alone, Counted, Showed, Posted};
ghost use Rattle.dr_model.specs.declared.said.Said.TheVariants.{Done, Refused};
ghost use Rattle.dr_model.specs.declared.state.Part.TheVariants.{Metro};
ghost use Rattle.dr_model.specs.Contents.{laid};
ghost use Rattle.dr_model.specs.Histories.{lists};
ghost use Rattle.dr_model.specs.Entries.{fields_at};
ghost use Rattle.dr_model.specs.Groups.{In};
ghost use Rattle.dr_model.specs.Views.{view};
ghost use Rattle.dr_model.specs.WriteEntries.{partner_of};
ghost use Rattle.dr_laws_freezes.specs.Windows.{IsSoundWindow, is_in, told_since};
ghost use Rattle.dr_laws_flashes.specs.Windows.{IsSoundWindow as IsSoundFlashWindow, cut_at};
ghost use Rattle.dr_model.specs.Layout.{Blocks};
ghost use Rattle.dr_model.specs.Control.{Fuse};
ghost use Rattle.dr_model.specs.Fits.{Fits, on_device};
ghost use Rattle.dr_model.specs.Runs.{after_task, after_tasks, run};
ghost use Rattle.dr_model.specs.Forming.{phase_in};
ghost use Rattle.dr_ids.specs.declared.refusal.PhaseName.TheVariants as phase;
ghost use Rattle.dr_model.specs.Answers.{answer};
ghost use Rattle.dr_model.specs.MessagePlans.{deliver_plan};
ghost use Rattle.dr_laws_sound.specs.Acknowledged.{said_in};
ghost use Rattle.dr_laws_sound.specs.Showing.{reads_as};
ghost use Rattle.dr_laws_recovery.specs.Recovered.{HoldsTracks};
ghost use Rattle.dr_laws_return.specs.Compared.{AreSame, DifferFirst};
ghost use Rattle.dr_laws_return.specs.Returned.{IsReturned};
ghost use Rattle.dr_laws_orders.specs.OldOrders.{IsFromBefore, StaysRefused};
ghost use Rattle.dr_laws_orders.specs.SettledLosses.{StaysSettled, IsFencedOff};
ghost use Rattle.dr_laws_orders.specs.OlderNumbers.{IsOlder, LeavesVolumes};
ghost use Rattle.dr_laws_examples.specs.Orders.{loses, settles, reverts, asks, old_orders, arrives, settled_session, hold_order, revert_order};
ghost use Rattle.dr_laws_examples.specs.ToIdle.{three, begins, gives_up, master_in_phase};
ghost use Rattle.dr_laws_progress.specs.ToIdle.{CanEnd, AllAskOwed, LeadsOn, GivesUp};
ghost use Rattle.dr_laws_examples.specs.WayHome.{taken_over, fails_back, drains, way_home, compares, compared_home, compared_apart, shows, shown_home};
ghost use Rattle.dr_laws_examples.specs.Example.{IsStretch, second_waits, freeze_run, frozen_set, freeze_begins, freeze_window, freeze_ends, flash_run, flash_set, flash_begins, flash_window, flash_ends};

/// An example of a freeze window: one run meets all that the law on freezes asks, and this is what the law gives of it. As the window begins two
/// Metro Mirror pairs are Full Duplex, with nothing out of sync. In it the host writes an a on the first primary, and both pairs are frozen. A b
/// that the host then writes on the second primary waits. At each moment of the window each primary stays with its secondary, and no restore
/// stores a track of either. So by the law the secondaries hold one cut: the first one contains the a, the second one lacks the b.
pub fn an_example_of_a_freeze_window()
    ensures among { IsStretch freeze_run freeze_begins freeze_window }
    ensures sound { IsSoundWindow frozen_set freeze_begins freeze_window (told_since freeze_begins freeze_ends) }
    ensures first { is_in frozen_set freeze_begins.control 4096 ≡ true }
    ensures second { is_in frozen_set freeze_begins.control 4097 ≡ true }
    ensures first_tracks { (freeze_begins.control.volume 4096).tracks ≡ 1 }
    ensures second_tracks { (freeze_begins.control.volume 4097).tracks ≡ 1 }
    ensures first_partner { partner_of freeze_begins.control 4096 ≡ 8192 }
    ensures second_partner { partner_of freeze_begins.control 4097 ≡ 8193 }
    ensures came { lists freeze_ends.events 4096 0 ≡ 1 ∷ [] }
    ensures busy { ((fields_at freeze_ends.control 4096).long_busy ≡ true) × ((fields_at freeze_ends.control 4097).long_busy ≡ true) }
    ensures waits { In second_waits freeze_ends.control.pending }
    ensures first_contains { freeze_ends.contents 8192 0 ≡ laid 0 (97 ∷ []) zeros }
    ensures second_contains { freeze_ends.contents 8193 0 ≡ zeros }
{}

/// An example of a flash window: one run meets all that the law on flash sets asks, and this is what the law gives of it. As the window begins the
/// host has written an a on the first source. In it each source gets a flash hold, and then its target. A b that the host then writes on the
/// second source waits. Each target takes its source's tracks under the hold, and no list of either changes from there on. So by the law the
/// targets show one cut, which is what the sources hold: the first one shows the a, the second one doesn't show the b.
pub fn an_example_of_a_flash_window()
    ensures among { IsStretch flash_run flash_begins flash_window }
    ensures sound { IsSoundFlashWindow flash_set flash_begins flash_window }
    ensures held { ((fields_at flash_ends.control 4096).flash_hold ≡ true) × ((fields_at flash_ends.control 4097).flash_hold ≡ true) }
    ensures waits { In second_waits flash_ends.control.pending }
    ensures first_cut { (window : IsSoundFlashWindow flash_set flash_begins flash_window) (here : In (4096, 4098) flash_set) → cut_at flash_begins flash_window 4096 4098 (window.taken 4096 4098 here) 0 ≡ 1 ∷ [] }
    ensures second_cut { (window : IsSoundFlashWindow flash_set flash_begins flash_window) (here : In (4097, 4099) flash_set) → cut_at flash_begins flash_window 4097 4099 (window.taken 4097 4099 here) 0 ≡ [] }
    ensures first_shows { view (fields_at flash_ends.control) flash_ends.contents 4098 0 ≡ laid 0 (97 ∷ []) zeros }
    ensures second_shows { view (fields_at flash_ends.control) flash_ends.contents 4099 0 ≡ zeros }
{}

/// An example of the way home: one run meets all that the law on it asks, and this is what the law gives of it. 2000 is the Metro Mirror secondary
/// of 1000, with two tracks each. It is taken over, and the host writes a b on its track 1, which 1000 doesn't get. Then the pair is turned round,
/// and one track is sent; both steps are answered ok. So by the law the pair is Full Duplex by the records on both devices, nothing is out of sync,
/// and both devices contain the same: the b stands on track 1 of either.
pub fn an_example_of_a_way_home()
    ensures turned { said_in (run taken_over) fails_back ≡ Done Alone }
    ensures sent { said_in (run (taken_over ++ fails_back ∷ [])) drains ≡ Done (Counted 1) }
    ensures returned { (on : ℕ → Bool) (fuse : ℕ → Option Fuse) (device : ℕ → Blocks) → Fits (run way_home) on fuse device → HoldsTracks (run way_home) device → IsReturned (run way_home) device 8192 4096 Metro }
    ensures contain { (on : ℕ → Bool) (fuse : ℕ → Option Fuse) (device : ℕ → Blocks) → Fits (run way_home) on fuse device → HoldsTracks (run way_home) device
        → (on_device (run way_home).control device 8192 1 ≡ laid 0 (98 ∷ []) zeros) × (on_device (run way_home).control device 4096 1 ≡ laid 0 (98 ∷ []) zeros) }
{}

/// An example of comparisons: two runs end with one, and this is what the law gives of their answers. In the first one, after the way home, it is
/// answered ok. So by the law each track of both devices contains the same. In the second one it comes right after the host's write at the second
/// site, and is answered E19 with track 1. So by the law the two devices differ there, and track 0 contains the same.
pub fn an_example_of_a_comparison()
    ensures says_same { said_in (run way_home) compares ≡ Done Alone }
    ensures same { (device : ℕ → Blocks) → HoldsTracks (run compared_home) device → AreSame (run compared_home).control (on_device (run compared_home).control device) 4096 8192 ((run compared_home).control.volume 4096).tracks }
    ensures says_apart { said_in (run taken_over) compares ≡ Refused (NotIdentical 1) }
    ensures apart { (device : ℕ → Blocks) → HoldsTracks (run compared_apart) device → DifferFirst (run compared_apart).control (on_device (run compared_apart).control device) 4096 8192 1 }
{}

/// An example of a track that is shown: as the last step after the way home track 1 of 1000 is shown, and its answer has the b. So by the law that is
/// what the track reads as on the devices.
pub fn an_example_of_a_shown_track()
    ensures says { said_in (run way_home) shows ≡ Done Showed }
    ensures tells { (run shown_home).events ≡ (run way_home).events ++ Shown 1 4096 1 (laid 0 (98 ∷ []) zeros) ∷ answer 1 (Done Showed) ∷ [] }
    ensures reads { (on : ℕ → Bool) (fuse : ℕ → Option Fuse) (device : ℕ → Blocks) → Fits (run shown_home) on fuse device → reads_as (run shown_home).control device 4096 1 ≡ laid 0 (98 ∷ []) zeros }
{}

/// An example of old orders: one run meets what two laws ask, and this is what they give of it. The host has written an a on 1000, the member of a
/// session. The session's master begins attempt 1 by an order to hold, which stays in flight. The master's server is stopped and started. Server A,
/// which has the member and never stops, then reports; since nothing was flashed the master reverts, and the session is settled. From there on the
/// order to hold is refused as an old one: by the law whatever steps come. The order to revert is sent, and stays in flight. Exchanges revert, end
/// the attempt and begin attempt 2, for which 1000 records. Then the order to revert arrives. It is one of an older attempt, and A carries it out. By
/// the law it changes no view and no recording: 1000 still records, and shows the a.
pub fn an_example_of_old_orders()
    ensures session { In settled_session (run settles).control.sessions }
    ensures before { IsFromBefore (run settles).control settled_session hold_order }
    ensures refused { said_in (run settles) (arrives 1) ≡ Refused (OldMessage 1) }
    ensures stays { StaysRefused (run settles) 1 }
    ensures still { said_in (run old_orders) (arrives 1) ≡ Refused (OldMessage 1) }
    ensures older { IsOlder (run old_orders).control 2 revert_order }
    ensures done { said_in (run old_orders) (arrives 2) ≡ Done (Posted 3) }
    ensures leaves { LeavesVolumes 1 (run old_orders) (deliver_plan (run old_orders).control 2) }
    ensures records { (fields_at (run old_orders).control 4096).recording ≡ true }
    ensures records_on { (fields_at (run (old_orders ++ arrives 2 ∷ [])).control 4096).recording ≡ true }
    ensures shows_on { view (fields_at (run (old_orders ++ arrives 2 ∷ [])).control) (run (old_orders ++ arrives 2 ∷ [])).contents 4096 0 ≡ laid 0 (97 ∷ []) zeros }
{}

/// An example of a loss that is settled, in the same run. Its master is Lost in epoch 2, and A, which has the member, has reported in none. A's
/// report is the last one, so the master reverts; then the order to revert is sent, and an exchange reverts. By the law A is fenced off, in epoch 2.
pub fn an_example_of_a_settled_loss()
    ensures lost { phase_in (run loses).control 1 ≡ phase.Lost }
    ensures before { ((run loses).control.flight.epoch 1 ≡ 2) × ((run loses).control.flight.fence 1 0 ≡ 0) }
    ensures settled { StaysSettled (after_task (run loses) asks) reverts 1 }
    ensures fenced { IsFencedOff (after_tasks (after_task (run loses) asks) reverts).control 1 }
    ensures fence { (after_tasks (after_task (run loses) asks) reverts).control.flight.fence 1 0 ≡ 2 }
{}

/// An example of ways to Idle. In the run with a lost master the session can be ended: three orders are left for its one server, a report, a revert
/// and a finish. Three exchanges ask for them, so by the law all are answered ok, and the master is Idle then. In another run attempt 1 has begun,
/// and the session can be ended, too: by the law an abort leaves one order, and after one exchange the master is Idle.
pub fn an_example_of_ways_to_idle()
    ensures ends { CanEnd (run loses).control 1 }
    ensures asked { AllAskOwed (run loses) three 1 }
    ensures leads { LeadsOn (run loses) three 1 (master_in_phase phase.Lost).master }
    ensures idle { phase_in (after_tasks (run loses) three).control 1 ≡ phase.Idle }
    ensures begun { CanEnd (run begins).control 1 }
    ensures given { (c : CanEnd (run begins).control 1) → GivesUp (run begins) gives_up 1 c phase.Finishing }
    ensures again { phase_in (after_tasks (run begins) (gives_up ∷ asks ∷ [])).control 1 ≡ phase.Idle }
{}
