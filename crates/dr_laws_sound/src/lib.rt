//! Soundness: laws over every script and every stop, about the machine of `dr_model`. Its functions do nothing: each names a law
//! by its contract.
#![tactic(auto)]

ghost use Rattle.std.specs.Prelude.{◌≡◌, ◌≢◌, ◌≤◌, ◌<◌, ◌+◌, ℕ, Bool, true, List, [], ◌∷◌, Option, take, length};
ghost use Rattle.dr_ids.specs.declared.refusal.Refusal.{Refusal};
ghost use Rattle.dr_ids.specs.declared.refusal.Refusal.TheVariants as refusal;
ghost use Rattle.dr_ids.specs.declared.refusal.Kind.TheVariants as kind;
ghost use Rattle.dr_ids.specs.declared.refusal.Decision.TheVariants as decision;
ghost use Rattle.dr_model.specs.Refusals.{server_off, stopped as stopped_in};
ghost use Rattle.dr_model.specs.Contents.{image_at};
ghost use Rattle.dr_model.specs.Layout.{no_fields};
ghost use Rattle.dr_model.specs.Entries.{fields_at, is_no_target};
ghost use Rattle.dr_model.specs.Plans.{failover_plan, failback_plan, compare_plan};
ghost use Rattle.dr_model.specs.Pairs.{is_primary_of, is_secondary_of};
ghost use Rattle.dr_model.specs.declared.step.Devs.{Devs};
ghost use Rattle.dr_model.specs.declared.state.Part.{Part as PairPart};
ghost use Rattle.dr_ids.specs.declared.refusal.PairSeen.TheVariants as seen;
ghost use Rattle.dr_model.specs.declared.state.Part.TheVariants.{Metro, Global};
ghost use Rattle.dr_model.specs.declared.state.PairState.TheVariants.{CopyPending, Suspended as SuspendedState};
ghost use Rattle.dr_model.specs.declared.said.Addition.TheVariants.{Alone, Counted};
ghost use Rattle.dr_model.specs.declared.step.Step.TheVariants as step;
ghost use Rattle.dr_model.specs.Histories.{Write};
ghost use Rattle.dr_model.specs.Layout.{Blocks};
ghost use Rattle.dr_model.specs.Control.{World, Fuse};
ghost use Rattle.dr_model.specs.Fits.{Fits};
ghost use Rattle.dr_model.specs.Moves.{Move, Keep, Note, Fetch, target};
ghost use Rattle.dr_model.specs.Carry.{carry};
ghost use Rattle.dr_model.specs.Forming.{Part};
ghost use Rattle.dr_model.specs.Runs.{Task, plans_of, begun, carried_out, after_task, after_tasks, run, said};
ghost use Rattle.dr_model.specs.ReadStops.{Ends};
ghost use Rattle.dr_model.specs.Table.{Table, table};
ghost use Rattle.dr_model.specs.Rows.{after};
ghost use Rattle.dr_model.specs.Laws.{SoundRows, Sound, IsCounted, FlightCounted, shown};
ghost use Rattle.dr_model.specs.Allowed.{Allowed};
ghost use Rattle.dr_model.specs.Groups.{In};
ghost use Rattle.dr_model.specs.Limits.{most_events};
ghost use Rattle.dr_model.specs.Listed.{Lists};
ghost use Rattle.dr_laws_sound.specs.Limits.{IsWithin};
ghost use Rattle.dr_model.specs.declared.event.Event.TheVariants as event;
ghost use Rattle.dr_model.specs.declared.said.Said.TheVariants as answer;
ghost use Rattle.dr_laws_sound.specs.RefusedSteps.{StaysRefused, RefusedStay, with_issued};
ghost use Rattle.dr_laws_sound.specs.Turning.{FailsOver, IsTurned, Leaves, AreEqual};
ghost use Rattle.dr_laws_sound.specs.TurnedExample.{leading, paired, parted, fused, midway, says, leaves, over, home, drains, compares};
ghost use Rattle.dr_laws_sound.specs.RefusedExamples.{stopped, inhibited, writes, copies, recovers};
ghost use Rattle.dr_laws_sound.specs.Acknowledged.{AcknowledgesAnswered, AcknowledgedIsAnswered};
ghost use Rattle.dr_laws_sound.specs.Showing.{ShowsDevices};
ghost use Rattle.dr_laws_sound.specs.Stops.{StopsTold, refused_stop};
ghost use Rattle.dr_laws_sound.specs.Places.{AreLone};
ghost use Rattle.dr_laws_sound.specs.Calm.{MayEnd, RestoresCalmly, CalmRestores};

/// Every run leaves a sound world: its volumes' records fit each other, each track shows what the host writes say, and
/// each pending write is the one that was with_issued. A volume has at most one part in a pair, as its primary or as its
/// secondary, and is then no FlashCopy target; its partner is a volume of the same size on another server. A primary and its
/// secondary contain the same, but on tracks that the primary records as out of sync or as changed since; so do two volumes
/// that are primaries of each other, but on tracks that either records.
pub fn every_run_is_sound()
    ensures { (tasks : List Task) → Sound (run tasks) }
{}

/// Steps leave a sound world sound, wherever servers stop in them.
pub fn every_step_keeps_soundness()
    ensures { (w : World) (tasks : List Task) → Sound w → Sound (after_tasks w tasks) }
{}

/// No more messages are made, no server is started and no epoch of a session begun more often than the journal has events, in every run, and
/// each message in flight is to or from one of the servers that are defined; and so it is after a step that begins in such a world. Before
/// the masters are lost whose servers went off in a plan, it is so with one event more than the journal had as the plan began.
pub fn the_flight_is_counted()
    ensures runs { (tasks : List Task) → FlightCounted (run tasks) }
    ensures step { (w : World) (t : Task) → FlightCounted w → FlightCounted (after_task w t) }
    ensures plan { (w : World) (t : Task) (x : Part) → FlightCounted w → In x (plans_of w t) → let u : World = (carried_out x.world x.plan).0 in IsCounted (length x.world.events + 1) (length u.control.servers) u.control.flight }
{}

/// The table of volumes is as it should be after each entry of each plan of a step, too.
pub fn rows_hold_at_every_moment()
    ensures { (w : World) (t : Task) (x : Part) (n : ℕ) → Sound w → In x (plans_of w t) → SoundRows (table (carry (begun x.world x.plan) (take n x.plan.entries)).0) }
{}

/// It is so as well where servers go off by themselves between the acts of a step.
pub fn rows_hold_where_reads_fail()
    ensures { (armed : ℕ → Bool) (w u : World) (r : Option Refusal) (t : Task) (x : Part) → Sound w → In x (plans_of w t) → Ends armed u r (begun x.world x.plan) x.plan.entries → SoundRows (table u) }
{}

/// The table of volumes keeps its laws in each kind of move, where it is allowed.
pub fn each_kind_of_move_keeps_the_rows()
    ensures { (write : ℕ → Write) (T : Table) (m : Move) → SoundRows T → Allowed write T m → SoundRows (after write T m) }
{}

/// A move changes what no other volume shows; and a target that takes a track of its source, or notes that one changes,
/// shows what it showed.
pub fn a_move_leaves_the_other_views()
    ensures others { (write : ℕ → Write) (T : Table) (m : Move) (v t : ℕ) → SoundRows T → Allowed write T m → v ≢ target m → t < (T v).volume.tracks → shown (after write T m) v t ≡ shown T v t }
    ensures keep { (write : ℕ → Write) (T : Table) (v t q : ℕ) → SoundRows T → Allowed write T (Keep v t) → q < (T v).volume.tracks → shown (after write T (Keep v t)) v q ≡ shown T v q }
    ensures note { (write : ℕ → Write) (T : Table) (v t q : ℕ) → SoundRows T → Allowed write T (Note v t) → q < (T v).volume.tracks → shown (after write T (Note v t)) v q ≡ shown T v q }
    ensures fetch { (write : ℕ → Write) (T : Table) (v t q : ℕ) → SoundRows T → Allowed write T (Fetch v t) → q < (T v).volume.tracks → shown (after write T (Fetch v t)) v q ≡ shown T v q }
{}

/// A plan of a step is refused because a server stopped exactly where its acts told the journal of that stop.
pub fn stops_are_told()
    ensures { (w : World) (t : Task) (x : Part) → In x (plans_of w t) →
        StopsTold (begun x.world x.plan) (carry (begun x.world x.plan) x.plan.entries).0 (refused_stop (carry (begun x.world x.plan) x.plan.entries).1) }
{}

/// A step that is refused, but by the stop of a server, leaves the world as it was, with its answer, but for what `Leaves` names by step and
/// refusal. So does each step of a run.
pub fn refused_steps_change_nothing()
    ensures step { (w : World) (t : Task) → StaysRefused w t }
    ensures run { (tasks : List Task) → RefusedStay tasks }
{}

/// Examples: a write whose server is off has its number, and waits; one on an inhibited target has its number, and doesn't wait; a copy of a
/// volume that isn't defined changes nothing; and a recovery that finds no group has told so.
pub fn examples_are_refused()
    ensures waits { after_task stopped writes ≡ said (with_issued stopped 5 0 0 1 (7 ∷ [])) 9 (answer.Refused (server_off 0)) }
    ensures dropped { after_task inhibited writes ≡ said (record inhibited { control = record inhibited.control { issued = 1 }; events = event.Issue 1 5 0 0 1 (7 ∷ []) ∷ [] }) 9 (answer.Refused (refusal.Inhibited (record { 0 = 5 }))) }
    ensures unknown { after_task inhibited copies ≡ said inhibited 9 (answer.Refused (refusal.Unknown kind.Volume)) }
    ensures none { after_task inhibited recovers ≡ said (record inhibited { events = event.Recovered 1 0 ∷ [] }) 9 (answer.Refused (refusal.NoGroup decision.NoMember)) }
{}

/// A failover that ends well leaves its volume a Suspended primary of the other, of the kind that it named, with nothing out of sync and no
/// seal, or, if it is cascaded, no secondary any more, and the primary that it was; and no other record and no track changed. A failback
/// that ends well leaves the first volume the primary of the other, and that one its secondary and no primary, of one kind and in one state, Full Duplex where the kind is Metro Mirror and nothing is out of sync; the primary
/// doesn't record, and each track in which the two differ is out of sync. Wherever a primary has nothing out of sync, and nothing
/// changed since it began to record, and the other is its secondary, both contain the same.
pub fn failovers_and_failbacks_turn_a_pair()
    ensures over { (w : World) (devs : Devs) (b a : ℕ) (kind : PairPart) → Sound w → Leaves (λ u. FailsOver w u b a kind) w (failover_plan w.control devs b a kind) }
    ensures home { (w : World) (devs : Devs) (x y : ℕ) (kind : PairPart) → Sound w → Leaves (λ u. IsTurned u x y kind) w (failback_plan w.control devs x y kind) }
    ensures equal { (w : World) (x y : ℕ) → Sound w → is_primary_of y (fields_at w.control x) ≡ true → is_secondary_of x (fields_at w.control y) ≡ true → AreEqual w x y }
{}

/// The example of a pair that is turned round: the second site takes over, of its own kind of pair alone, and is then a Suspended primary
/// of the first with nothing out of sync and no seal, which is told. With each a primary of the other the pair goes the other way: the
/// second site is in Copy Pending, and the first one its secondary; before that it is refused. Where the first site's server stops
/// between the two moves, its volume is still a primary. Then a drain of the second one finds nothing to send, although the first one
/// has what the second hasn't: `ok 0` of a drain doesn't say that both are equal, and a comparison does.
pub fn an_example_is_turned_round()
    ensures over { says paired (over paired Global) ≡ answer.Done Alone }
    ensures over_leaves { fields_at (leaves paired (over paired Global)).control 8192 ≡ leading 4096 SuspendedState }
    ensures over_tells { (leaves paired (over paired Global)).events ≡ event.TakenOver 8192 ∷ [] }
    ensures over_other { says paired (over paired Metro) ≡ answer.Refused (refusal.PairState (record { 0 = 8192 }) seen.TargetSuspended) }
    ensures home { says parted (home parted Global) ≡ answer.Done Alone }
    ensures home_leads { (fields_at (leaves parted (home parted Global)).control 8192).primary_state ≡ CopyPending }
    ensures home_follows { fields_at (leaves parted (home parted Global)).control 4096 ≡ record no_fields { secondary = Global; secondary_state = CopyPending; secondary_partner = 8192 } }
    ensures home_tells { (leaves parted (home parted Global)).events ≡ [] }
    ensures home_other { says parted (home parted Metro) ≡ answer.Refused (refusal.PairState (record { 0 = 8192 }) seen.Suspended) }
    ensures home_early { says paired (home paired Global) ≡ answer.Refused (refusal.PairState (record { 0 = 8192 }) seen.TargetSuspended) }
    ensures stops { says fused (home fused Global) ≡ answer.Refused (stopped_in 0) }
    ensures stops_leads { (fields_at (leaves fused (home fused Global)).control 8192).primary_state ≡ CopyPending }
    ensures stops_leaves { fields_at (leaves fused (home fused Global)).control 4096 ≡ leading 8192 SuspendedState }
    ensures drains { says midway (drains midway) ≡ answer.Done (Counted 0) }
    ensures differs { says midway (compares midway) ≡ answer.Refused (refusal.NotIdentical 1) }
{}

/// A comparison changes nothing. Where neither volume is a target, its answer is the one that the host writes of the journal give.
pub fn comparisons_go_by_host_writes()
    ensures same { (w : World) (contents : ℕ → ℕ → List ℕ) (v u : ℕ) → (carry w (compare_plan w.control contents v u).entries).0 ≡ w }
    ensures images { (w : World) (v u : ℕ) → Sound w → is_no_target v w.control ≡ true → is_no_target u w.control ≡ true →
        carry w (compare_plan w.control w.contents v u).entries ≡ carry w (compare_plan w.control (image_at w.events) v u).entries }
{}

/// The acknowledgements that a step tells are exactly those that its answer says, in both directions: that of the write which a write or an
/// apply carried out, where it answers `ok wN`; that of the write that had landed in a stop, where a start answers `ok acked wN`; and no
/// other step tells one, nor does one that is refused. They stand between the events of the steps before and the answer. A step that answers
/// `held wN` leaves that write pending.
pub fn what_is_acknowledged_is_answered()
    ensures steps { (w : World) (t : Task) → AcknowledgesAnswered w t }
    ensures runs { (tasks : List Task) → AcknowledgedIsAnswered tasks }
{}

/// What is shown is on the devices: where a plant fits the world that a run leads to, and the run's last step shows a track and isn't
/// refused, the bytes that it tells and answers with are those that the track reads as on the plant's devices.
pub fn what_is_shown_is_on_the_devices()
    ensures { (tasks : List Task) (on : ℕ → Bool) (fuse : ℕ → Option Fuse) (device : ℕ → Blocks) → Fits (run tasks) on fuse device → ShowsDevices tasks device }
{}

/// Every run stays within the limits of servers, volumes, pending writes and sessions, and of the tracks of a volume.
pub fn runs_stay_within_limits()
    ensures { (tasks : List Task) → IsWithin (run tasks).control }
{}

/// A step adds to the journal, its answer at least, and in a sound world within the limits a journal that has fewer events
/// than its limit stays within it, where an image lists as it may.
pub fn journals_fit()
    ensures grows { (w : World) (t : Task) → length w.events < length (after_task w t).events }
    ensures fits { (w : World) (t : Task) → Lists w t → Sound w → IsWithin w.control → length w.events < most_events → length (after_task w t).events ≤ most_events }
{}

/// No volume has a second place in the sessions: none is twice among the primaries, secondaries and targets of the members of all
/// sessions, as each run ends, and after each entry of each plan of a step from a sound world.
pub fn sessions_are_lone()
    ensures runs { (tasks : List Task) → AreLone (run tasks).control.sessions }
    ensures moments { (w : World) (t : Task) (x : Part) (n : ℕ) → Sound w → In x (plans_of w t) → AreLone (carry (begun x.world x.plan) (take n x.plan.entries)).0.control.sessions }
{}

/// Restores are calm: wherever a step of a run has a source take a track back from its target, at that moment the source doesn't record
/// for an attempt, is no secondary, and is the source of no revertible target. It is so in each step from a sound world, also where
/// servers go off by themselves between the acts.
pub fn restores_are_calm()
    ensures runs { (tasks : List Task) → CalmRestores tasks }
    ensures reads { (armed : ℕ → Bool) (w : World) (task : Task) → Sound w → RestoresCalmly (MayEnd armed) w task }
{}
