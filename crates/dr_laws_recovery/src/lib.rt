//! The headline, and laws on groups and their recovery, over every script and every stop. Its functions do nothing: each names a
//! law by its contract.
#![tactic(auto)]

ghost use Rattle.std.specs.Prelude.{◌≡◌, ◌<◌, ◌+◌, ◌++◌, ◌∷◌, [], ℕ, Bool, true, false, List, Option, Some, None, Ok};
ghost use Rattle.dr_ids.specs.declared.names.Member.{Member};
ghost use Rattle.dr_model.specs.declared.step.Name.{Name};
ghost use Rattle.dr_model.specs.Histories.{Write};
ghost use Rattle.dr_model.specs.Layout.{Blocks};
ghost use Rattle.dr_model.specs.Control.{World, Fuse};
ghost use Rattle.dr_model.specs.Moves.{Move, Flash, Commit, Revert, target};
ghost use Rattle.dr_model.specs.Carry.{carry};
ghost use Rattle.dr_model.specs.Plans.{drain_plan, start_plan, failover_plan, failback_plan};
ghost use Rattle.dr_model.specs.declared.step.Devs.{Devs};
ghost use Rattle.dr_model.specs.declared.state.Part.{Part};
ghost use Rattle.dr_ids.specs.declared.refusal.Decision.{Decision};
ghost use Rattle.dr_model.specs.Forming.{turns, most_turns};
ghost use Rattle.dr_model.specs.Runs.{Task, begun, run};
ghost use Rattle.dr_model.specs.Table.{Table};
ghost use Rattle.dr_model.specs.Rows.{after};
ghost use Rattle.dr_model.specs.Laws.{SoundRows, Sound, shown, sizes};
ghost use Rattle.dr_model.specs.RecoveryPlans.{recover_plan, settle_plan, secondary_refusal, says_group, group_number, lets_commit, lets_revert};
ghost use Rattle.dr_model.specs.PlanParts.{Plan};
ghost use Rattle.dr_model.specs.MessagePlans.{deliver_plan};
ghost use Rattle.dr_model.specs.SessionPlans.{exchange_plan, asking};
ghost use Rattle.dr_model.specs.Pairs.{is_secondary_of};
ghost use Rattle.dr_model.specs.Entries.{fields_at};
ghost use Rattle.dr_model.specs.declared.event.Event.{Event};
ghost use Rattle.dr_model.specs.declared.event.Event.TheVariants.{Recovered};
ghost use Rattle.dr_model.specs.Allowed.{Allowed};
ghost use Rattle.dr_model.specs.Cuts.{SealsHold};
ghost use Rattle.dr_model.specs.ClosedCuts.{ClosedCuts};
ghost use Rattle.dr_model.specs.TakenWrites.{takes_from, KeepsWrites};
ghost use Rattle.dr_model.specs.declared.step.Step.TheVariants.{Drain, Run, Recover, Copy};
ghost use Rattle.dr_model.specs.Fits.{Fits};
ghost use Rattle.dr_model.specs.Groups.{In};
ghost use Rattle.dr_model.specs.Sessions.{Session, session_in};
ghost use Rattle.dr_ids.specs.declared.refusal.Decision.TheVariants.{NoMember, Nothing, RevertAll, CommitRest};
ghost use Rattle.dr_ids.specs.declared.refusal.PairSeen.TheVariants.{TargetCopyPending};
ghost use Rattle.dr_ids.specs.declared.refusal.Refusal.TheVariants.{PairState, Forbidden, NoGroup};
ghost use Rattle.dr_model.specs.declared.said.Addition.TheVariants.{Alone, InGroup};
ghost use Rattle.dr_model.specs.declared.said.Said.TheVariants.{Done, Refused};
ghost use Rattle.dr_model.specs.declared.event.Event.TheVariants.{TakenOver, Committed, Reverted};
ghost use Rattle.dr_laws_attempts.specs.Example.{start, one_flashed, one_committed, over};
ghost use Rattle.dr_laws_cuts.specs.Sent.{SendsTo, CutsHold};
ghost use Rattle.dr_laws_sound.specs.Turning.{Leaves};
ghost use Rattle.dr_laws_recovery.specs.Emptied.{IsEmptied, EqualAfter};
ghost use Rattle.dr_laws_recovery.specs.BothViews.{IsRevertible, Settles, set_aside};
ghost use Rattle.dr_laws_recovery.specs.Decided.{DecidesAfter};
ghost use Rattle.dr_laws_recovery.specs.Example.{says, tells, taken, restoring, removed};
ghost use Rattle.dr_model.specs.Recovery.{decided_over};
ghost use Rattle.dr_laws_recovery.specs.Recovered.{recovered_in, recovered_on, SameRecovery, KeepsRecovery, HasRecovered, TellsRecovery, HoldsTracks};
ghost use Rattle.dr_laws_recovery.specs.Headline.{Headline, NoSessionNoGroup};
ghost use Rattle.dr_laws_recovery.specs.Held.{HoldsAll};
ghost use Rattle.dr_laws_recovery.specs.Stored.{StoredAtCuts};
ghost use Rattle.dr_laws_recovery.specs.Formed.{FormedIsFound, GroupsAreFound};
ghost use Rattle.dr_laws_recovery.specs.RecoveryAnswers.{AnswersForCause};
ghost use Rattle.dr_laws_recovery.specs.TakenOver.{LeavesTarget, AreTaken, TakesOverFirst};
ghost use Rattle.dr_laws_recovery.specs.Seals.{SealsHoldOn};

/// As a target is flashed it shows what its source does, and what it showed is set aside. No move changes either while it is revertible: a
/// commit keeps what it shows, and a revert makes what was set aside what it shows.
pub fn a_revertible_target_keeps_both_views()
    ensures flash { (write : ℕ → Write) (T : Table) (v u a s n t : ℕ) → SoundRows T → Allowed write T (Flash v u a s n) → t < (T v).volume.tracks → (shown (after write T (Flash v u a s n)) v t ≡ shown T u t) × (set_aside (after write T (Flash v u a s n)) v t ≡ shown T v t) }
    ensures stay { (write : ℕ → Write) (T : Table) (m : Move) (v t : ℕ) → SoundRows T → Allowed write T m → IsRevertible T v → (Settles v m → ⊥) → t < (T v).volume.tracks → (shown (after write T m) v t ≡ shown T v t) × (set_aside (after write T m) v t ≡ set_aside T v t) }
    ensures commit { (write : ℕ → Write) (T : Table) (v a s n t : ℕ) → SoundRows T → Allowed write T (Commit v a s n) → t < (T v).volume.tracks → shown (after write T (Commit v a s n)) v t ≡ shown T v t }
    ensures revert { (write : ℕ → Write) (T : Table) (v a s n t : ℕ) → SoundRows T → Allowed write T (Revert v a s n) → t < (T v).volume.tracks → shown (after write T (Revert v a s n)) v t ≡ set_aside T v t }
{}

/// At the end of each run, every secondary that is sealed for a number holds one moment of its primary: there is one place of the
/// journal at which the primary was cut for that number, and each track of the secondary contains what the host writes make that
/// the primary held there. So volumes that are sealed for one number hold what their primaries held as these were cut for it, and no
/// later write. The devices of a plant that fits the run's world contain the same.
pub fn sealed_secondaries_hold_their_cut()
    ensures hold { (tasks : List Task) → SealsHold (run tasks) }
    ensures devices { (tasks : List Task) (on : ℕ → Bool) (fuse : ℕ → Option Fuse) (device : ℕ → Blocks) → Fits (run tasks) on fuse device → SealsHoldOn tasks device }
{}

/// At the end of each run, for each session and number, the cuts of the group that the attempt has flashed are closed. Each member that
/// stands in the group, neither reverted nor left since its flash, was cut for that number. All these cuts are of one moment: each is
/// what its volume held at the last cut of the attempt, on every track. Each write that was acknowledged on such a volume before its cut is
/// in the cut, unless a step in between took it away; and so with a write the cuts hold all that it depends on and that was
/// acknowledged on volumes of the group before the last cut.
pub fn the_cuts_of_a_group_are_closed()
    ensures closed { (tasks : List Task) → (s n : ℕ) → ClosedCuts (run tasks).events s n }
    ensures hold { (tasks : List Task) → (s n : ℕ) → HoldsAll tasks (run tasks).events s n }
{}

/// Along each run, every write that a volume's list has stays in it over each step, but for the steps that may take it away: those that
/// make, end, renew or turn the volume as a FlashCopy target, copy on a restore onto it or from it, send or mirror to it as a secondary,
/// or carry out orders, groups, a recovery or a revert over a session of which it is a member's target, or with groups a member's
/// secondary.
pub fn writes_stay_but_for_these_steps()
    ensures { (tasks : List Task) → KeepsWrites tasks }
{}

/// The headline. At the end of each run, what the devices of a plant that fits the run's world give back of each session, after the rules of
/// commit and revert, is one cut of the host's acknowledged writes: that of the newest group whose commit any volume finished. Its
/// volumes are the targets of the members that stand in that group, and each of their tracks shows what the host writes make that the
/// member's primary held as it was cut. Each write of a cut was acknowledged, or stored by a secondary of Metro Mirror in a step in which a
/// server stopped, and it stands on its own track; each that was acknowledged before is in it, unless a step in between took it away, as a
/// restore; and the cuts are closed. Where no group was committed, none is given; and what is to be done is never impossible to decide.
pub fn targets_hold_one_cut()
    ensures { (tasks : List Task) (on : ℕ → Bool) (fuse : ℕ → Option Fuse) (device : ℕ → Blocks) → Fits (run tasks) on fuse device → HoldsTracks (run tasks) device → Headline tasks device }
{}

/// No session, no group. At the end of each run, a number of which no session is defined gives nothing, by what the devices of a plant say that
/// fits the run's world: no target counts in it, so there is nothing to decide, no volume remains, and there is no group. So it is once a session
/// was removed, whatever groups, stops, recoveries and messages it had before.
pub fn a_session_that_is_gone_gives_nothing()
    ensures { (tasks : List Task) (on : ℕ → Bool) (fuse : ℕ → Option Fuse) (device : ℕ → Blocks) → Fits (run tasks) on fuse device → NoSessionNoGroup tasks device }
{}

/// At the end of each run, what recovery would decide over a session is possible: by what the devices of a plant say that fits the run's
/// world, the targets that count in the session show one number where they are revertible, and one where they aren't.
pub fn no_session_is_impossible_to_decide()
    ensures { (tasks : List Task) (on : ℕ → Bool) (fuse : ℕ → Option Fuse) (device : ℕ → Blocks) → Fits (run tasks) on fuse device → DecidesAfter tasks device }
{}

/// Wherever a recovery is stopped, another one makes the same of each session: the same volumes remain, with the same group, and show the
/// same on each of their tracks. Nor is this changed where a server starts, a secondary is taken over by a failover, a pair goes the other
/// way by a failback, or a target is committed or reverted by hand; so a recovery can be repeated. One that comes to its end has done it: those volumes alone count in the session, each with the group's number and
/// showing what it was to show; it answers that group, and tells it to the journal. The devices of a plant that fits tell the same
/// decision, volumes and group; and where their tracks contain what the world says, they tell the same recovery.
pub fn a_recovery_keeps_its_group()
    ensures recovers { (w : World) (r s : ℕ) → Sound w → KeepsRecovery w (recover_plan w.control r) s }
    ensures starts { (w : World) (x s : ℕ) → Sound w → KeepsRecovery w (start_plan w.control x) s }
    ensures failovers { (w : World) (devs : Devs) (b a : ℕ) (kind : Part) (s : ℕ) → Sound w → KeepsRecovery w (failover_plan w.control devs b a kind) s }
    ensures failbacks { (w : World) (devs : Devs) (x y : ℕ) (kind : Part) (s : ℕ) → Sound w → KeepsRecovery w (failback_plan w.control devs x y kind) s }
    ensures hands { (w : World) (dev : Option Name) (lets : Decision → Bool) (b s : ℕ) → Sound w → KeepsRecovery w (settle_plan w.control dev lets b) s }
    ensures ends { (w : World) (s : ℕ) (x : Session) → Sound w → session_in w.control.sessions s ≡ Some x → secondary_refusal x.members w.control ≡ None → let p : Plan = recover_plan w.control s in
        (carry (begun w p) p.entries).1 ≡ None → HasRecovered w (carry (begun w p) p.entries).0 s }
    ensures answers { (w : World) (s : ℕ) (x : Session) → Sound w → session_in w.control.sessions s ≡ Some x → secondary_refusal x.members w.control ≡ None → let p : Plan = recover_plan w.control s in let u : World = (carry (begun w p) p.entries).0 in
        (carry (begun w p) p.entries).1 ≡ None → (p.says u.control ≡ says_group (decided_over (fields_at w.control) w.control.volumes s) (recovered_in w s).group) × ((es : List Event) × (u.events ≡ es ++ Recovered s (group_number (recovered_in w s).group) ∷ [])) }
    ensures devices { (w : World) (on : ℕ → Bool) (fuse : ℕ → Option Fuse) (device : ℕ → Blocks) (s : ℕ) → Sound w → Fits w on fuse device → TellsRecovery w device s }
    ensures tracks { (w : World) (on : ℕ → Bool) (fuse : ℕ → Option Fuse) (device : ℕ → Blocks) (s : ℕ) → Sound w → Fits w on fuse device → HoldsTracks w device → SameRecovery (sizes w.control) (recovered_in w s) (recovered_on w device s) }
{}

/// A recovery of a session that is defined is refused because the server of a member's secondary is off, the first of which it names, or
/// because one of them stops in it, on which a fuse was armed. Else it comes to its end, and answers the group that recovery makes of
/// the session, or that there is none: so where all are on and no fuse is armed on them, it always does.
pub fn a_recovery_is_refused_for_its_causes()
    ensures { (w : World) (x : Session) → Sound w → In x w.control.sessions → AnswersForCause w x }
{}

/// No exchange and no delivery flashes, commits or reverts the target of a member whose secondary isn't its primary's: as it was taken over,
/// and until the pair is made again, the target stays as it is, wherever servers stop. So while all of a session's are taken over,
/// exchanges and deliveries change nothing of what a recovery makes of the session. And a recovery commits or reverts none before it has
/// taken over the secondary of each member of the session.
pub fn what_is_taken_over_is_left()
    ensures exchanges { (w : World) (s : ℕ) (name : Name) (reply : Bool) (x : Session) (m : Member) → Sound w → In x w.control.sessions → In m x.members → is_secondary_of m.a.0 (fields_at w.control m.b.0) ≡ false →
        LeavesTarget w (exchange_plan w.control s name reply) m }
    ensures deliveries { (w : World) (n : ℕ) (x : Session) (m : Member) → Sound w → In x w.control.sessions → In m x.members → is_secondary_of m.a.0 (fields_at w.control m.b.0) ≡ false → LeavesTarget w (deliver_plan w.control n) m }
    ensures turns { (w : World) (s server : ℕ) (x : Session) (m : Member) → Sound w → In x w.control.sessions → In m x.members → is_secondary_of m.a.0 (fields_at w.control m.b.0) ≡ false →
        LeavesTarget w (asking w.control s server true) m }
    ensures keeps { (w : World) (s : ℕ) (name : Name) (reply : Bool) (x : Session) → Sound w → In x w.control.sessions → AreTaken w x → KeepsRecovery w (exchange_plan w.control s name reply) x.number }
    ensures keeps_delivered { (w : World) (n : ℕ) (x : Session) → Sound w → In x w.control.sessions → AreTaken w x → KeepsRecovery w (deliver_plan w.control n) x.number }
    ensures recovers { (w : World) (s : ℕ) (x : Session) → Sound w → session_in w.control.sessions s ≡ Some x → TakesOverFirst w (recover_plan w.control s) x }
{}

/// At the end of each run, and so as each step begins, each secondary contains of the cut of its primary what was sent of it
/// while the primary records, and all of it where it is sealed; and the primary of a member that records sends to the member's
/// secondary. These are the premises under which a seal promises that it seals the cut.
pub fn seals_find_their_cut()
    ensures cuts { (tasks : List Task) → CutsHold (run tasks) }
    ensures sends { (w : World) (x : Session) (m : Member) → Sound w → In x w.control.sessions → In m x.members → SendsTo w m.a.0 m.b.0 }
{}

/// Formed is what recovery finds. An `@run` that isn't refused answers Idle with a number, and that is the number of the session's newest
/// group in the world after it. A recovery that answers `group n` says the session's newest group, which is the same before and after it;
/// and where it answers that there is none, no group was committed, neither before nor after it.
pub fn formed_is_what_recovery_finds()
    ensures runs { (tasks : List Task) → FormedIsFound tasks }
    ensures recoveries { (tasks : List Task) → GroupsAreFound tasks }
{}

/// A stop may leave a write in a cut that the host wasn't told of, and nothing else: each write that a Metro Mirror secondary stored is
/// acknowledged behind that, or the journal tells behind it that a server stopped. So it is at the end of each run, and wherever a volume is
/// cut.
pub fn what_is_mirrored_is_acknowledged_unless_a_server_stops()
    ensures { (tasks : List Task) → StoredAtCuts (run tasks).events }
{}

/// No bound on turns is felt by an `@run`: in each turn that isn't refused a server does the order that it owes, so the attempts that are asked for end.
pub fn runs_of_groups_end()
    ensures { (w : World) (s n more : ℕ) → Sound w → turns (most_turns n + more) w s n false ≡ turns (most_turns n) w s n false }
{}

/// A drain of all tracks that ends well leaves nothing out of sync, whatever its pair is. So where the primary doesn't record then, and its
/// partner is its secondary, each track of both contains the same, whatever came before: a failback that stopped, stops of servers, or
/// host writes at either site.
pub fn drains_leave_nothing_out_of_sync()
    ensures empties { (w : World) (x : ℕ) → Sound w → Leaves (λ u. IsEmptied u x) w (drain_plan w.control x None) }
    ensures equals { (w : World) (x y : ℕ) → Sound w → Leaves (λ u. EqualAfter u x y) w (drain_plan w.control x None) }
{}

/// The example of the phases, recovered: where one of two flashed targets is committed, the other is committed too; where only one was
/// flashed, it is reverted and no group is left; where the attempt is over, or none was made, nothing is done. By hand the other is committed
/// once both secondaries are taken over, and not before, and it can't be reverted.
pub fn an_example_recovers()
    ensures rest { says one_committed (recover_plan one_committed 7) ≡ Done (InGroup 1 (CommitRest 1)) }
    ensures rest_told { tells one_committed (recover_plan one_committed 7) ≡ TakenOver 2 ∷ TakenOver 5 ∷ Committed 7 1 4 6 ∷ Recovered 7 1 ∷ [] }
    ensures none { says one_flashed (recover_plan one_flashed 7) ≡ Refused (NoGroup (RevertAll 1)) }
    ensures none_told { tells one_flashed (recover_plan one_flashed 7) ≡ TakenOver 2 ∷ TakenOver 5 ∷ Reverted 7 1 1 3 ∷ Recovered 7 0 ∷ [] }
    ensures over { says over (recover_plan over 7) ≡ Done (InGroup 1 (Nothing 1)) }
    ensures nobody { says start (recover_plan start 7) ≡ Refused (NoGroup NoMember) }
    ensures early { says one_committed (settle_plan one_committed None lets_commit 5) ≡ Refused (PairState (record { 0 = 2 }) TargetCopyPending) }
    ensures commits { says taken (settle_plan taken None lets_commit 5) ≡ Done Alone }
    ensures commits_told { tells taken (settle_plan taken None lets_commit 5) ≡ Committed 7 1 4 6 ∷ [] }
    ensures forbidden { says taken (settle_plan taken None lets_revert 5) ≡ Refused (Forbidden (CommitRest 1)) }
{}

/// The example of the phases, removed: after an attempt that was committed on both targets its session gives group 1. Its members, its master and
/// its logical subsystem are removed then. No session of that number is defined, and no target counts in it, though both keep number 1.
pub fn an_example_is_removed()
    ensures before { decided_over (fields_at over) over.volumes 7 ≡ Nothing 1 }
    ensures none { session_in (removed over).sessions 7 ≡ None }
    ensures after { decided_over (fields_at (removed over)) (removed over).volumes 7 ≡ NoMember }
    ensures first { (fields_at (removed over) 3).sequence ≡ 1 }
    ensures second { (fields_at (removed over) 6).sequence ≡ 1 }
{}

/// The example of the phases: a drain takes from the secondary that the primary names, and not from the primary; groups take from each
/// member's target and secondary, and an order or a recovery from its target alone. A restore takes from the volume that it is onto, and
/// from its target; a background copy takes from none.
pub fn an_example_takes_writes()
    ensures drains { takes_from start (Ok (Drain 1 None)) 2 ≡ true }
    ensures drains_from { takes_from start (Ok (Drain 1 None)) 1 ≡ false }
    ensures groups { takes_from start (Ok (Run 7 1)) 3 ≡ true }
    ensures groups_too { takes_from start (Ok (Run 7 1)) 5 ≡ true }
    ensures groups_from { takes_from start (Ok (Run 7 1)) 1 ≡ false }
    ensures recovers { takes_from start (Ok (Recover 7)) 6 ≡ true }
    ensures recovers_from { takes_from start (Ok (Recover 7)) 2 ≡ false }
    ensures restores { takes_from restoring (Ok (Copy 3 None)) 2 ≡ true }
    ensures restored { takes_from restoring (Ok (Copy 3 None)) 3 ≡ true }
    ensures copies { takes_from start (Ok (Copy 3 None)) 2 ≡ false }
{}
