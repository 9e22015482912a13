//! Laws on what comes to its end, over every script and every stop. Each answer of a recovery has its cause, and a second one has nothing to do. The
//! pair of each member stands in one of three ways, and the lines of the way home are answered ok. An exchange is answered by the state, in each phase.
//! An attempt that is given up comes to Idle, by as many orders as its state says. Its functions do nothing: each names a law by its contract.
#![tactic(auto)]

ghost use Rattle.std.specs.Prelude.{◌≡◌, ℕ, true, List, None};
ghost use Rattle.dr_ids.specs.declared.names.Member.{Member};
ghost use Rattle.dr_model.specs.declared.said.Addition.TheVariants.{Alone};
ghost use Rattle.dr_ids.specs.declared.refusal.PairSeen.TheVariants.{TargetFullDuplex};
ghost use Rattle.dr_ids.specs.declared.refusal.Refusal.TheVariants.{PairState};
ghost use Rattle.dr_model.specs.declared.said.Said.TheVariants.{Done, Refused};
ghost use Rattle.dr_model.specs.Sessions.{Session};
ghost use Rattle.dr_model.specs.Groups.{In};
ghost use Rattle.dr_model.specs.PairEntries.{leads_to, belongs_to};
ghost use Rattle.dr_model.specs.Plans.{yield_refusal};
ghost use Rattle.dr_model.specs.Runs.{Task, run};
ghost use Rattle.dr_laws_sound.specs.Acknowledged.{said_in};
ghost use Rattle.dr_laws_progress.specs.Aborts.{AbortsAnswer};
ghost use Rattle.dr_laws_progress.specs.Exchanges.{ExchangesAnswer, asking_refusal};
ghost use Rattle.dr_laws_progress.specs.CanForm.{CanForm, RefusedByAttempt};
ghost use Rattle.dr_laws_progress.specs.CanFormExample.{held_once, its_mirror, begun_session};
ghost use Rattle.dr_laws_progress.specs.ToIdle.{ExchangesLeadToIdle, AbortsLeadOn};
ghost use Rattle.dr_laws_progress.specs.Recoveries.{RecoveriesAnswer};
ghost use Rattle.dr_laws_progress.specs.RecoversTwice.{RecoversTwice};
ghost use Rattle.dr_laws_progress.specs.PairWays.{PairWays, HasPairWays};
ghost use Rattle.dr_laws_progress.specs.Home.{HomeLines, IsSuspended, AnswersThen, LeadsBack, LeadsHome, GoesHome, MayGoHome, MembersGoHome, RefusesCascaded};
ghost use Rattle.dr_laws_progress.specs.HomeExample.{two_sites, after_recovery, after_turn, after_pause, resume, three_sites, turn_cascaded, lines_home, its_member, its_session};

/// These are all answers of an `@recover` in a run, each with its cause. It is refused if the journal has no room for a step, if no session has
/// that number, or if the server of a member's secondary is off, the first of which it names; then it changes nothing. It is refused if such a
/// server stops in it, on which a fuse was armed. Else it comes to its end. Then it answers the session's newest group, which is the same
/// before it and after it, with what was decided over the volumes that counted as it began. If there is no group, it says so: no volume
/// counted, or all that did were to be reverted.
pub fn each_recovery_answers_by_its_cause()
    ensures { (tasks : List Task) → RecoveriesAnswer tasks }
{}

/// A recovery that came to its end needs no second one. If the next step recovers the same session, it answers the same group, and that
/// nothing was to be done; or, if there was no group, that there is none and no volume counts. It changes nothing but the journal. Neither a
/// server that is off nor an armed fuse keeps it from that: only a journal without room for a step does.
pub fn a_second_recovery_finds_nothing_to_do()
    ensures { (tasks : List Task) → RecoversTwice tasks }
{}

/// At each moment of a run, and as it ends, the primary and the secondary of each member stand in one of three ways by their records, and in
/// no two of them at once. Either the primary leads to the secondary, which is its own, and no primary, as the member was added. Or each is a primary of
/// the other, as a takeover leaves it. Or the pair is turned round: the secondary leads to the primary, which is its own, and no primary, as
/// a failback leaves it. All these parts are Global Copy. In the first two ways the primary may be the Metro Mirror secondary of a first site,
/// too; the member's secondary never has both parts. So no stop, and no step on pairs, leads out of the three, as long as the member is one.
pub fn the_pair_of_each_member_stands_in_one_of_three_ways()
    ensures moments { (tasks : List Task) → HasPairWays tasks }
    ensures runs { (tasks : List Task) → PairWays (run tasks).control }
{}

/// The way home after any run, of two volumes that lead to each other, as a takeover leaves the pair of a member. Its premise: both servers are on,
/// each volume can be reached from the other, neither is the source of a relationship that is reversing or revertible, and no session has something to
/// do with their targets. Then five lines are answered ok, one after another: the failback to the first site's volume, a drain, the failover
/// of that volume, the failback from it, and a drain. Each drain sends as many tracks as are out of sync as it begins. After the last line the
/// pair is in place, in Copy Pending. From a pair that is turned round the first line falls away; if it is Suspended, a resume stands in its place.
/// The last two lines are answered ok from the same states as all five, and give up what was written at the second site. A line is refused only
/// by the stop of a server on which a fuse was armed as the first one began. Of a line for which the journal has no room nothing is said.
///
/// For a member the premise is this. The servers of its primary and of its session's secondaries are on, and each of its primary and secondary can
/// be reached from the other. Neither is the source of such a relationship, and it is decided over its session that nothing is to be done, as after
/// a recovery. No target of its primary is a member's, so no other session counts. A cascaded primary isn't led home: the first line is
/// refused, since that volume is a secondary.
pub fn the_way_home_is_answered_ok()
    ensures pairs { (tasks : List Task) (a b : ℕ) (l : HomeLines a b) → GoesHome tasks a b l }
    ensures members { (tasks : List Task) → MembersGoHome tasks }
    ensures yields { (tasks : List Task) (x : Session) (m : Member) → In x (run tasks).control.sessions → In m x.members → yield_refusal m.a.0 (run tasks).control ≡ None }
    ensures cascaded { (tasks : List Task) → RefusesCascaded tasks }
{}

/// An example: two sites and a session with one member. When that was added, its primary leads to its secondary. After a recovery each is a primary of
/// the other, and after the first line of the way home the pair is turned round: so each of the three ways comes. After the recovery the premise of the way
/// home is met, and neither server has a fuse. The first line is answered ok, and this is what the law gives of all five. It is met also as the pair is
/// turned round, and as that is paused: from there a resume leads on. And one of three sites, whose primary is cascaded: there the first line is refused.
pub fn an_example_of_the_way_home()
    ensures added { leads_to 4096 8192 (run two_sites).control ≡ true }
    ensures added_follows { belongs_to 4096 8192 (run two_sites).control ≡ true }
    ensures taken { leads_to 4096 8192 (run after_recovery).control ≡ true }
    ensures taken_back { leads_to 8192 4096 (run after_recovery).control ≡ true }
    ensures turned { leads_to 8192 4096 (run after_turn).control ≡ true }
    ensures turned_follows { belongs_to 8192 4096 (run after_turn).control ≡ true }
    ensures may { MayGoHome (run after_recovery).control 1 its_session its_member }
    ensures unarmed { ((run after_recovery).control.fuse 0 ≡ None) × ((run after_recovery).control.fuse 1 ≡ None) }
    ensures first { said_in (run after_recovery) lines_home.turn ≡ Done Alone }
    ensures goes { LeadsHome (run after_recovery) (run after_recovery) 4096 8192 lines_home }
    ensures goes_back { LeadsBack (run after_turn) (run after_turn) 4096 8192 lines_home }
    ensures paused { IsSuspended (run after_pause).control 8192 }
    ensures goes_on { AnswersThen (run after_pause) (run after_pause) resume.task (Done Alone) (λ u. LeadsBack (run after_pause) u 4096 8192 lines_home) }
    ensures cascaded { said_in (run three_sites) turn_cascaded ≡ Refused (PairState (record { 0 = 8192 }) TargetFullDuplex) }
{}

/// An abort is answered by the state in which it begins, and all answers stand here. It is refused if the journal has no room for a step,
/// or no session has that number. It is refused if the session has no master, or one in a phase that can't be aborted, or the master's server is
/// off. Else it is answered ok, with the phase in which the attempt is given up. No fuse keeps it from that, since no device is written. Then each server of the
/// session's members is owed the order of that phase, and nothing but the tables of sessions and of messages has changed.
pub fn an_abort_answers_by_the_state()
    ensures { (tasks : List Task) → AbortsAnswer tasks }
{}

/// An exchange is answered by the state in which it begins, in each phase. It is refused if its master or server is off, they aren't linked, or the
/// server isn't owed its order; in Idle if the master is paused, the server has no member, or no number is left. Then the members on that server are
/// looked at, in order, and it is refused for the first that refuses the phase's order. A hold asks for the pair, and that its number isn't stale, which
/// it never is in Idle. A release and a seal ask that the primary records the attempt, and a seal for the secondary, if nothing is left to send. A flash
/// and a commit ask for the secondary and for the target; a report asks whether the secondary can be reached, a revert whether it is the
/// primary's, too, and a finish asks for nothing. What the order does for one member changes none of that for another. Else the exchange is answered
/// ok, with the phase then, or a server stopped in it on which a fuse was armed.
pub fn an_exchange_answers_by_the_state()
    ensures { (tasks : List Task) → ExchangesAnswer tasks }
{}

/// When groups can be formed: there is a member, the master's server is on and linked to each other primary server, and each member is reached, in
/// place, and with a fit target. Then an exchange that may be asked by phase is refused for what the attempt asks, and for nothing else. A hold is
/// refused for a primary that was held for the attempt, and lost it; a release and a seal for one that doesn't record it. A flash or a commit is refused
/// for a target that can't be flashed for it, or wasn't. In Idle, and in phases that end an attempt, nothing is refused.
pub fn only_the_attempt_refuses_an_exchange()
    ensures { (tasks : List Task) → RefusedByAttempt tasks }
{}

/// An example: two sites and a session with one member, whose master has held it and is Releasing. Groups can be formed, and the release isn't refused.
pub fn an_example_of_a_session_that_forms()
    ensures forms { CanForm (run held_once).control 1 }
    ensures free { asking_refusal (run held_once).control begun_session its_mirror 0 ≡ None }
{}

/// An attempt that is given up comes to Idle, by as many orders as are counted when it begins. Let the master's server and the session's primary
/// servers be on and linked; and unless it is Finishing, let each secondary be reached, and be the primary's. Pairs may be Suspended, and targets may
/// be gone. Then exchanges with servers that are owed a report, a revert or a finish are all answered ok, as long as no server stops in one. Each
/// leaves one order less, and once none is left the master is Idle. Nothing is said of the commits that follow if a lost master's reports decide to
/// commit the rest.
pub fn exchanges_lead_to_idle()
    ensures { (tasks : List Task) → ExchangesLeadToIdle tasks }
{}

/// An abort of such an attempt is answered ok, and leaves it so. For each of the master's servers it leaves one order if the attempt was Coordinating,
/// Releasing or Draining, two if it was Flashing, and three if it was Committing.
pub fn an_abort_leaves_its_orders()
    ensures { (tasks : List Task) → AbortsLeadOn tasks }
{}
