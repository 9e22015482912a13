//! Laws of sessions through all phases of a master's attempt: the numbers and flags of a session's members agree as its phase says,
//! each volume that counts is the target of a member, and members lie in their session's logical subsystems. Its functions do
//! nothing: each names a law by its contract.
#![tactic(auto)]

ghost use Rattle.std.specs.Prelude.{◌≡◌, ◌≢◌, ◌⊎◌, ◌≤◌, ◌+◌, ◌++◌, ◌∷◌, [], ℕ, max, Bool, true, false, nat_lt, Option, None, Some, List};
ghost use Rattle.std.specs.List.{find};
ghost use Rattle.dr_logic.specs.Tables.{at};
ghost use Rattle.dr_ids.specs.declared.names.Member.{Member};
ghost use Rattle.dr_ids.specs.declared.refusal.PhaseName.TheVariants as phase;
ghost use Rattle.dr_ids.specs.declared.refusal.Decision.TheVariants.{NoMember, Nothing, RevertAll, CommitRest, Impossible};
ghost use Rattle.dr_model.specs.Decisions.{Shown, decision};
ghost use Rattle.dr_model.specs.Phases as phases;
ghost use Rattle.dr_model.specs.Control.{Control, no_control, is_volume, new_volume};
ghost use Rattle.dr_model.specs.Relations.{flashed, committed, reverted};
ghost use Rattle.dr_model.specs.Pairs.{held_for, records, is_secondary_of, taken_over, past_attempt, with_floor};
ghost use Rattle.dr_model.specs.Moves.{Move, Hold, Free, Seal, Finish, RaiseAttempt, RaiseFloor, Leave, Flash, Commit, Revert, Carried, target, next_fields};
ghost use Rattle.dr_model.specs.Entries.{fields_at, stands_in, is_revertible};
ghost use Rattle.dr_model.specs.SessionEntries.{first_number, last_of, stale_refusal, flash_refusal, commit_refusal, is_flashed, is_committed, is_past, shown_by_members, members_on};
ghost use Rattle.dr_model.specs.PairEntries.{send_refusal};
ghost use Rattle.dr_model.specs.SessionPlans.{order_of, answered_by, join_plan, leave_plan, mirror_plan, pause_mirror_plan, unmirror_plan, abort_plan, add_done, expel_done, exchange_done};
ghost use Rattle.dr_model.specs.declared.step.Name.{Name};
ghost use Rattle.dr_model.specs.Sessions.{Session, Mirror, session_in, has_place_of, has_subsystem, subsystem_of, changed, joined, left, lost_since, begun, raised, mirrored_by, unmirrored, paused, with_mirror, with_master, mirror_lost_since, with_member, without_member, busy, leave_refusal, drop_refusal};
ghost use Rattle.dr_model.specs.Messages.{Flight, Message, sent, answered};
ghost use Rattle.dr_model.specs.Groups.{In, Groups, IsOrderFor, Due, OpensAttempt};
ghost use Rattle.dr_model.specs.Flights.{Flights};
ghost use Rattle.dr_model.specs.Attempts.{Roles, roles, phase_of, DoesNotCount, MayGo, MayFollow, Claim, Attempts, InAttempt, IsDone, WorkDone, ServerDone, Seen, seen, seen_in, all_seen, All, NoneRevertible, NoneCommitted, SomeCommitted, IsReported, InLost, FlashesMember, RevertsMember, OverIn};
ghost use Rattle.dr_laws_sessions.specs.Frames.{Moves, Quiet, Holding};
ghost use Rattle.dr_laws_attempts.specs.Example.{first, second, start, report, now, in_phase, held, freed, flashing, one_flashed, flashed as all_flashed, one_committed, all_committed, over, both, lost, aborted, reported, taken_back};
ghost use Rattle.dr_laws_attempts.specs.Orders.{DoneBut, LeavesTargetsAlone, TakenBut, RestCommits, RestReverts, IsDoneFor};

/// The laws hold before the first step, and stay where the sessions do and what volumes say of attempts, and where a volume is
/// defined.
pub fn the_laws_of_attempts_begin()
    ensures none { Attempts no_control }
    ensures still { (k j : Control) → j.sessions ≡ k.sessions → ((v : ℕ) → roles j v ≡ roles k v) → Attempts k → Attempts j }
    ensures defined { (k : Control) (v server tracks : ℕ) → is_volume k v ≡ false → Groups k → Attempts k → Attempts (record k { volumes = k.volumes ++ v ∷ []; volume = at k.volume v (new_volume server tracks) }) }
{}

/// They stay in each kind of move that comes where it may, and in the first hold of an attempt, which begins it.
pub fn each_move_keeps_the_laws_of_attempts()
    ensures moved { (k j : Control) (m : Move) (c : Carried) → j.sessions ≡ k.sessions → Moves k j (target m) (next_fields m k.volume) c → InAttempt k m → Groups k → Attempts k → Flights k → Attempts j }
    ensures opened { (k j : Control) (v s n : ℕ) (c : Carried) → j.sessions ≡ k.sessions → Moves k j v (held_for n (fields_at k v)) c → OpensAttempt k v s n → Groups k → Attempts k → Attempts (record j { sessions = changed s begun j.sessions }) }
{}

/// A volume that is no target doesn't count, nor does one that is restored onto its source.
pub fn only_targets_count()
    ensures unrelated { (k : Control) (v : ℕ) → Attempts k → (fields_at k v).related ≡ false → DoesNotCount (fields_at k v) }
    ensures reversing { (k : Control) (v : ℕ) → Attempts k → (fields_at k v).reversing ≡ true → DoesNotCount (fields_at k v) }
    ensures counted { (k : Control) (v : ℕ) → Attempts k → Claim k.sessions v (roles k v) }
{}

/// They stay where a logical subsystem joins or leaves a session.
pub fn joining_and_leaving_keep_the_laws_of_attempts()
    ensures joined { (k : Control) (s l : ℕ) → Groups k → Attempts k → Attempts (record k { sessions = joined s l k.sessions }) }
    ensures left { (k : Control) (s l : ℕ) (x : Session) → Groups k → Attempts k → session_in k.sessions s ≡ Some x → leave_refusal (Some x) s l ≡ None → Attempts (record k { sessions = left s l k.sessions }) }
{}

/// They stay where a master is appointed, dismissed, paused, aborted or lost; and where it begins an attempt before any member is held.
pub fn masters_keep_the_laws_of_attempts()
    ensures mirrored { (k : Control) (s server : ℕ) (x : Session) → Groups k → Attempts k → session_in k.sessions s ≡ Some x → x.mirror ≡ None → Attempts (record k { sessions = changed s (mirrored_by server) k.sessions }) }
    ensures unmirrored { (k : Control) (s : ℕ) (x : Session) → Groups k → Attempts k → session_in k.sessions s ≡ Some x → drop_refusal x.mirror ≡ None → Attempts (record k { sessions = changed s unmirrored k.sessions }) }
    ensures paused { (k : Control) (s : ℕ) (on : Bool) → Groups k → Attempts k → Attempts (record k { sessions = changed s (paused on) k.sessions }) }
    ensures aborted { (k : Control) (s : ℕ) → Groups k → Attempts k → Attempts (record k { sessions = changed s (with_master phases.aborted) k.sessions }) }
    ensures lost { (k : Control) (before now : ℕ → Bool) → Groups k → Attempts k → Attempts (record k { sessions = lost_since before now k.sessions }) }
    ensures begun { (k : Control) (s : ℕ) (x : Session) (r : Mirror) (m : Member) → Groups k → Attempts k → session_in k.sessions s ≡ Some x → x.mirror ≡ Some r → r.master.phase ≡ phase.Idle → In m x.members → Attempts (record k { sessions = changed s begun k.sessions }) }
{}

/// They stay where a master takes the reply of a server: one that has done its order with each of its members, now or some time ago, one
/// that has to wait, and one that reports what those show, or whatever fits a lost master; and that which a server gives by its work.
pub fn replies_keep_the_laws_of_attempts()
    ensures done { (k : Control) (s server : ℕ) (x : Session) → Groups k → Attempts k → session_in k.sessions s ≡ Some x → ServerDone k x server → Attempts (record k { sessions = changed s (with_master (λ m. phases.taken m server phases.Done)) k.sessions }) }
    ensures has_done { (k : Control) (s server : ℕ) (x : Session) → Groups k → Attempts k → session_in k.sessions s ≡ Some x → ((r : Mirror) → x.mirror ≡ Some r → IsDoneFor r.master.phase x.last server (all_seen (roles k) x.members)) → Attempts (record k { sessions = changed s (with_master (λ m. phases.taken m server phases.Done)) k.sessions }) }
    ensures waits { (k : Control) (s server : ℕ) → Groups k → Attempts k → Attempts (record k { sessions = changed s (with_master (λ m. phases.taken m server phases.NotYet)) k.sessions }) }
    ensures reported { (k : Control) (s server : ℕ) (xs : List Shown) (x : Session) → Groups k → Attempts k → session_in k.sessions s ≡ Some x → ((r : Mirror) → x.mirror ≡ Some r → r.master.phase ≡ phase.Lost) → xs ≡ shown_by_members s (members_on server x.members) k → Attempts (record k { sessions = changed s (with_master (λ m. phases.taken m server (phases.Reported xs))) k.sessions }) }
    ensures told { (k : Control) (s server : ℕ) (xs : List Shown) (x : Session) → Groups k → Attempts k → session_in k.sessions s ≡ Some x → ((r : Mirror) → x.mirror ≡ Some r → (r.master.phase ≡ phase.Lost) × InLost x.last (phases.without server r.master.owed) (r.master.reports ++ xs) (all_seen (roles k) x.members)) → Attempts (record k { sessions = changed s (with_master (λ m. phases.taken m server (phases.Reported xs))) k.sessions }) }
    ensures answered { (k : Control) (s server : ℕ) (work : phases.Work) (x : Session) → Groups k → Attempts k → session_in k.sessions s ≡ Some x → (work ≡ phases.Report → (r : Mirror) → x.mirror ≡ Some r → r.master.phase ≡ phase.Lost) → (work ≢ phases.Report → ServerDone k x server) → Attempts (answered_by s server work (members_on server x.members) k) }
{}

/// They stay where a session without an attempt has its last number raised, and a member more or less.
pub fn members_keep_the_laws_of_attempts()
    ensures raised { (k : Control) (s n : ℕ) (x : Session) → Groups k → Attempts k → session_in k.sessions s ≡ Some x → busy x.mirror ≡ None → Attempts (record k { sessions = changed s (raised n) k.sessions }) }
    ensures added { (k : Control) (s n : ℕ) (x : Session) (m : Member) → Groups k → Attempts k → session_in k.sessions s ≡ Some x → busy x.mirror ≡ None → find (has_place_of m) k.sessions ≡ None → has_subsystem (subsystem_of m.a.0) x ≡ true → (fields_at k m.a.0).attempt ≤ n → (fields_at k m.b.0).seal ≤ n → (fields_at k m.c.0).floor ≤ n → max x.last n ≤ (fields_at k m.a.0).attempt → max x.last n ≤ (fields_at k m.c.0).floor → Attempts (record k { sessions = changed s (with_member m) (changed s (raised n) k.sessions) }) }
    ensures removed { (k : Control) (s a : ℕ) (x : Session) → Groups k → Attempts k → session_in k.sessions s ≡ Some x → busy x.mirror ≡ None → ((m : Member) → In m x.members → m.a.0 ≡ a → (fields_at k m.c.0).member ≡ false) → Attempts (record k { sessions = changed s (without_member a) k.sessions }) }
{}

/// They stay in what a line on sessions makes of the tables, whatever it answers: as the step begins, or as it ends, where its acts
/// left the sessions.
pub fn lines_on_sessions_keep_the_laws_of_attempts()
    ensures joins { (k : Control) (dev : Option Name) (l s : ℕ) → Groups k → Attempts k → Attempts ((join_plan k dev l s).first k) }
    ensures leaves { (k : Control) (dev : Option Name) (l s : ℕ) → Groups k → Attempts k → Attempts ((leave_plan k dev l s).first k) }
    ensures mirrors { (k : Control) (dev : Option Name) (l s : ℕ) → Groups k → Attempts k → Attempts ((mirror_plan k dev l s).first k) }
    ensures pauses { (k : Control) (dev : Option Name) (l s : ℕ) (on : Bool) → Groups k → Attempts k → Attempts ((pause_mirror_plan k dev l s on).first k) }
    ensures unmirrors { (k : Control) (dev : Option Name) (l s : ℕ) → Groups k → Attempts k → Attempts ((unmirror_plan k dev l s).first k) }
    ensures aborts { (k : Control) (s : ℕ) → Groups k → Attempts k → Attempts ((abort_plan k s).first k) }
    ensures adds { (k j : Control) (s : ℕ) (x : Session) (m : Member) → j.sessions ≡ k.sessions → session_in k.sessions s ≡ Some x → busy x.mirror ≡ None → has_subsystem (subsystem_of m.a.0) x ≡ true → (fields_at j m.a.0).attempt ≤ first_number k x.last m → (fields_at j m.b.0).seal ≤ first_number k x.last m → (fields_at j m.c.0).floor ≤ first_number k x.last m → first_number k x.last m ≤ (fields_at j m.a.0).attempt → first_number k x.last m ≤ (fields_at j m.c.0).floor → Groups j → Attempts j → Attempts ((add_done k s x m).last j) }
    ensures expels { (k j : Control) (s : ℕ) (x : Session) (m : Member) → j.sessions ≡ k.sessions → session_in k.sessions s ≡ Some x → busy x.mirror ≡ None → ((q : Member) → In q x.members → q.a.0 ≡ m.a.0 → (fields_at j q.c.0).member ≡ false) → Groups j → Attempts j → Attempts ((expel_done k s m).last j) }
    ensures exchanges { (j : Control) (s server : ℕ) (reply : Bool) (o : Option phases.Order) (x : Session) → session_in j.sessions s ≡ Some x → ((w : phases.Order) → o ≡ Some w → w.work ≡ phases.Report → (r : Mirror) → x.mirror ≡ Some r → r.master.phase ≡ phase.Lost) → ((w : phases.Order) → o ≡ Some w → w.work ≢ phases.Report → ServerDone j x server) → Groups j → Attempts j → Attempts ((exchange_done s server reply (members_on server x.members) o).last j) }
{}

/// The decision over what the members of a session show is never impossible, nor is that over what was reported to a lost master.
/// Where one that isn't revertible was reported with the last number, some is committed or none is revertible; where one was with
/// another number, none is committed.
pub fn no_decision_is_impossible()
    ensures members { (k : Control) (s : ℕ) (x : Session) (a b : ℕ) → Groups k → Attempts k → session_in k.sessions s ≡ Some x → decision (shown_by_members s x.members k) ≢ Impossible a b }
    ensures reports { (k : Control) (x : Session) (r : Mirror) (a b : ℕ) → Groups k → Attempts k → In x k.sessions → x.mirror ≡ Some r → r.master.phase ≡ phase.Lost → decision r.master.reports ≢ Impossible a b }
    ensures last { (n : ℕ) (owed : List ℕ) (reports : List Shown) (vs : List Seen) → InLost n owed reports vs → IsReported n false reports → SomeCommitted n vs ⊎ NoneRevertible vs }
    ensures other { (n : ℕ) (owed : List ℕ) (reports : List Shown) (vs : List Seen) → InLost n owed reports vs → (q : ℕ) → IsReported q false reports → q ≢ n → NoneCommitted n vs }
{}

/// Where a target is reverted whose source was taken, as a recovery does, its session's attempt is over: no member can be flashed
/// with its number, nor held where it wasn't. That stays in each kind of move, and in each change of the tables until the session's next
/// attempt begins: also where a master sends the order that it owes, where a server answers, and wherever no hold of that number comes
/// into flight; and of members only those come that were held for it, and whose floor forbids it.
pub fn what_was_recovered_stays_barred()
    ensures begins { (k j : Control) (v a s n : ℕ) (c : Carried) (x : Session) → Moves k j v (reverted n (fields_at k v)) c → RevertsMember k v a s n → Groups k → Attempts k → In x k.sessions → x.number ≡ s → ((m : Member) → In m x.members → m.a.0 ≡ a → is_secondary_of a (fields_at k m.b.0) ≡ false) → OverIn j.flight (roles j) x }
    ensures unflashed { (k : Control) (x : Session) (v u a n : ℕ) → Groups k → In x k.sessions → OverIn k.flight (roles k) x → FlashesMember k v u a x.number n → ⊥ }
    ensures moved { (k j : Control) (m : Move) (c : Carried) (x : Session) → Moves k j (target m) (next_fields m k.volume) c → InAttempt k m → Groups k → Attempts k → Flights k → In x k.sessions → OverIn k.flight (roles k) x → OverIn k.flight (roles j) x }
    ensures opened { (k j : Control) (v s n : ℕ) (c : Carried) (x : Session) → Moves k j v (held_for n (fields_at k v)) c → OpensAttempt k v s n → Groups k → Attempts k → In x k.sessions → x.number ≢ s → OverIn k.flight (roles k) x → OverIn k.flight (roles j) x }
    ensures flown { (f g : Flight) (T : Roles) (x : Session) → ((m : Message) → IsOrderFor g x.number phases.Hold x.last m → IsOrderFor f x.number phases.Hold x.last m) → OverIn f T x → OverIn g T x }
    ensures sent { (f : Flight) (T : Roles) (x : Session) (r : Mirror) (server : ℕ) (o : phases.Order) → x.mirror ≡ Some r → phases.order_for r.master server ≡ Some o → OverIn f T x → OverIn (sent x.number server o f) T x }
    ensures apart { (f : Flight) (T : Roles) (x : Session) (s server : ℕ) (o : phases.Order) → s ≢ x.number → OverIn f T x → OverIn (sent s server o f) T x }
    ensures answered { (f : Flight) (T : Roles) (x : Session) (m : Message) (reply : phases.Reply) → OverIn f T x → OverIn (answered m reply f) T x }
    ensures taken { (f : Flight) (T : Roles) (x : Session) (server : ℕ) (reply : phases.Reply) → OverIn f T x → OverIn f T (with_master (λ m. phases.taken m server reply) x) }
    ensures aborted { (f : Flight) (T : Roles) (x : Session) → OverIn f T x → OverIn f T (with_master phases.aborted x) }
    ensures lost { (f : Flight) (T : Roles) (x : Session) (before now : ℕ → Bool) → OverIn f T x → OverIn f T (with_mirror (mirror_lost_since before now) x) }
    ensures paused { (f : Flight) (T : Roles) (x : Session) (on : Bool) → OverIn f T x → OverIn f T (paused on x) }
    ensures mirrored { (f : Flight) (T : Roles) (x : Session) (server : ℕ) → OverIn f T x → OverIn f T (mirrored_by server x) }
    ensures unmirrored { (f : Flight) (T : Roles) (x : Session) → OverIn f T x → OverIn f T (unmirrored x) }
    ensures raised { (k : Control) (x : Session) (n : ℕ) → Groups k → Attempts k → Flights k → In x k.sessions → busy x.mirror ≡ None → OverIn k.flight (roles k) x → OverIn k.flight (roles k) (raised n x) }
    ensures added { (f : Flight) (T : Roles) (x : Session) (m : Member) → busy x.mirror ≡ None → x.last ≤ (T m.a.0).attempt → x.last ≤ (T m.c.0).floor → (T m.c.0).revertible ≡ false → OverIn f T x → OverIn f T (with_member m x) }
    ensures removed { (f : Flight) (T : Roles) (x : Session) (a : ℕ) → busy x.mirror ≡ None → OverIn f T x → OverIn f T (without_member a x) }
{}

/// An order has its phase's work and the master's number, and only a lost master asks for reports. Where an order's checks have
/// passed, its move may come; so may those of a member that comes, or goes.
pub fn orders_move_members()
    ensures works { (r : Mirror) (server : ℕ) (o : phases.Order) → r.master.phase ≢ phase.Idle → order_of r server ≡ Some o → (phases.work_in r.master.phase ≡ Some o.work) × (r.master.phase ≢ phase.Lost → o.number ≡ r.master.number) }
    ensures reports { (r : Mirror) (server : ℕ) (o : phases.Order) → order_of r server ≡ Some o → o.work ≡ phases.Report → r.master.phase ≡ phase.Lost }
    ensures holds { (k : Control) (s server n : ℕ) (ms : List Member) (m : Member) → Groups k → Attempts k → Flights k → Holding k s server n ms → In m ms → m.server.0 ≡ server → (fields_at k m.a.0).primary_partner ≡ m.b.0 → nat_lt (last_of k s) n ≡ false → stale_refusal m.a.0 n k ≡ None → records n (fields_at k m.a.0) ≡ false → InAttempt k (Hold m.a.0 s n false) }
    ensures frees { (k : Control) (s : ℕ) (x : Session) (m : Member) → Groups k → Attempts k → session_in k.sessions s ≡ Some x → In m x.members → Due k.flight x m.server.0 phases.Release x.last → InAttempt k (Free m.a.0) }
    ensures seals { (k : Control) (s : ℕ) (x : Session) (m : Member) (n : ℕ) → Groups k → Attempts k → session_in k.sessions s ≡ Some x → In m x.members → x.last ≡ n → Due k.flight x m.server.0 phases.Seal n → records n (fields_at k m.a.0) ≡ true → InAttempt k (Seal m.b.0 m.a.0 s n) }
    ensures flashes { (k : Control) (s : ℕ) (x : Session) (m : Member) (n : ℕ) → Groups k → Attempts k → session_in k.sessions s ≡ Some x → In m x.members → x.last ≡ n → Due k.flight x m.server.0 phases.Flash n → send_refusal m.a.0 m.b.0 k ≡ None → flash_refusal m.b.0 m.c.0 n k ≡ None → is_flashed n (fields_at k m.c.0) ≡ false → InAttempt k (Flash m.c.0 m.b.0 m.a.0 s n) }
    ensures commits { (k : Control) (s : ℕ) (x : Session) (m : Member) (n : ℕ) → Groups k → Attempts k → Flights k → session_in k.sessions s ≡ Some x → In m x.members → x.last ≡ n → Due k.flight x m.server.0 phases.Commit n → send_refusal m.a.0 m.b.0 k ≡ None → commit_refusal m.c.0 n k ≡ None → is_committed n (fields_at k m.c.0) ≡ false → InAttempt k (Commit m.c.0 m.a.0 s n) }
    ensures reverts { (k : Control) (s : ℕ) (x : Session) (m : Member) (n : ℕ) → Groups k → Attempts k → Flights k → session_in k.sessions s ≡ Some x → In m x.members → x.last ≡ n → Due k.flight x m.server.0 phases.Revert n → send_refusal m.a.0 m.b.0 k ≡ None → is_flashed n (fields_at k m.c.0) ≡ true → InAttempt k (Revert m.c.0 m.a.0 s n) }
    ensures raises { (k : Control) (s : ℕ) (x : Session) (m : Member) (n : ℕ) → Groups k → Attempts k → session_in k.sessions s ≡ Some x → In m x.members → n ≤ x.last → Due k.flight x m.server.0 phases.Revert n → is_flashed n (fields_at k m.c.0) ≡ false → nat_lt (fields_at k m.c.0).floor n ≡ true → InAttempt k (RaiseFloor m.c.0 n) }
    ensures finishes { (k : Control) (s : ℕ) (x : Session) (m : Member) (n : ℕ) → Groups k → Attempts k → session_in k.sessions s ≡ Some x → In m x.members → n ≤ x.last → InAttempt k (Finish m.a.0 n) }
    ensures leaves { (k : Control) (s : ℕ) (x : Session) (m : Member) → Groups k → Attempts k → session_in k.sessions s ≡ Some x → In m x.members → busy x.mirror ≡ None → InAttempt k (Leave m.c.0 m.a.0 s) }
    ensures added { (k : Control) (m : Member) (n : ℕ) → find (has_place_of m) k.sessions ≡ None → InAttempt k (RaiseAttempt m.a.0 n) × InAttempt k (RaiseFloor m.c.0 n) }
{}

/// A target goes where it doesn't count, or none of the session that it names is revertible; and a volume follows a primary where it
/// is the source of no revertible relationship.
pub fn what_stands_free_may_change()
    ensures uncounted { (k : Control) (v : ℕ) → DoesNotCount (fields_at k v) → MayGo k v }
    ensures settled { (k : Control) (v : ℕ) (x : Session) → Groups k → Attempts k → session_in k.sessions (fields_at k v).session ≡ Some x → NoneRevertible (seen_in k x) → MayGo k v }
    ensures follows { (k : Control) (b : ℕ) → Groups k → Attempts k → stands_in is_revertible k b ≡ false → MayFollow k b }
{}

/// A server does its work with one member after another, in whatever phase, and at last it has done it; and so it has what a phase asks
/// that has that work.
pub fn a_server_does_its_order()
    ensures begins { (k : Control) (ms : List Member) (server : ℕ) (work : phases.Work) (n : ℕ) → DoneBut k ms server work n (members_on server ms) }
    ensures calm { (k : Control) (ms : List Member) (server : ℕ) (work : phases.Work) (n : ℕ) → LeavesTargetsAlone work → WorkDone k ms server work n }
    ensures held { (k : Control) (m : Member) (n : ℕ) → records n (fields_at k m.a.0) ≡ true → IsDone phases.Hold n (seen (roles k) m) }
    ensures past { (k : Control) (m : Member) (n : ℕ) → is_past n (fields_at k m.a.0) ≡ true → IsDone phases.Finish n (seen (roles k) m) }
    ensures flashed { (k : Control) (m : Member) (n : ℕ) → is_flashed n (fields_at k m.c.0) ≡ true → IsDone phases.Flash n (seen (roles k) m) }
    ensures committed { (k : Control) (m : Member) (n : ℕ) → is_committed n (fields_at k m.c.0) ≡ true → IsDone phases.Commit n (seen (roles k) m) }
    ensures reverted { (k : Control) (s : ℕ) (x : Session) (m : Member) (n : ℕ) → Groups k → Attempts k → session_in k.sessions s ≡ Some x → In m x.members → x.last ≡ n → is_flashed n (fields_at k m.c.0) ≡ false → nat_lt (fields_at k m.c.0).floor n ≡ false → IsDone phases.Revert n (seen (roles k) m) }
    ensures passes { (k : Control) (ms : List Member) (server : ℕ) (work : phases.Work) (n : ℕ) (q : Member) (rest : List Member) → DoneBut k ms server work n (q ∷ rest) → IsDone work n (seen (roles k) q) → DoneBut k ms server work n rest }
    ensures holds { (k j : Control) (c : Carried) (x : Session) (q : Member) (server n : ℕ) (rest : List Member) → Groups k → In x k.sessions → In q x.members → Moves k j q.a.0 (held_for n (fields_at k q.a.0)) c → DoneBut k x.members server phases.Hold n (q ∷ rest) → DoneBut j x.members server phases.Hold n rest }
    ensures finishes { (k j : Control) (c : Carried) (x : Session) (q : Member) (server n : ℕ) (rest : List Member) → Groups k → In x k.sessions → In q x.members → Moves k j q.a.0 (past_attempt n (fields_at k q.a.0)) c → DoneBut k x.members server phases.Finish n (q ∷ rest) → DoneBut j x.members server phases.Finish n rest }
    ensures flashes { (k j : Control) (c : Carried) (x : Session) (q : Member) (server n : ℕ) (rest : List Member) → Groups k → In x k.sessions → In q x.members → (s : ℕ) → Moves k j q.c.0 (flashed s n (fields_at k q.c.0)) c → DoneBut k x.members server phases.Flash n (q ∷ rest) → DoneBut j x.members server phases.Flash n rest }
    ensures commits { (k j : Control) (c : Carried) (x : Session) (q : Member) (server n : ℕ) (rest : List Member) → Groups k → In x k.sessions → In q x.members → Moves k j q.c.0 (committed n (fields_at k q.c.0)) c → DoneBut k x.members server phases.Commit n (q ∷ rest) → DoneBut j x.members server phases.Commit n rest }
    ensures reverts { (k j : Control) (c : Carried) (x : Session) (q : Member) (server n : ℕ) (rest : List Member) → Groups k → In x k.sessions → In q x.members → Moves k j q.c.0 (reverted n (fields_at k q.c.0)) c → DoneBut k x.members server phases.Revert n (q ∷ rest) → DoneBut j x.members server phases.Revert n rest }
    ensures raises { (k j : Control) (c : Carried) (x : Session) (q : Member) (server n : ℕ) (rest : List Member) → Groups k → In x k.sessions → In q x.members → (fields_at k q.c.0).revertible ≡ false → Moves k j q.c.0 (with_floor n (fields_at k q.c.0)) c → DoneBut k x.members server phases.Revert n (q ∷ rest) → DoneBut j x.members server phases.Revert n rest }
    ensures ends { (k : Control) (ms : List Member) (server : ℕ) (work : phases.Work) (n : ℕ) → DoneBut k ms server work n [] → WorkDone k ms server work n }
    ensures asked { (k : Control) (x : Session) (server : ℕ) (work : phases.Work) (n : ℕ) → phases.work_in (phase_of x.mirror) ≡ Some work → x.last ≡ n → WorkDone k x.members server work n → ServerDone k x server }
{}

/// No member of a session is revertible where there is no attempt, or the decision says that there is nothing to do. Where the rest
/// is to be committed, each that is revertible may be, one after another. Otherwise, with all secondaries taken over one after
/// another, each may be reverted.
pub fn a_recovery_commits_or_reverts()
    ensures quiet { (k : Control) (s : ℕ) (x : Session) → Groups k → Attempts k → session_in k.sessions s ≡ Some x → Quiet x → NoneRevertible (seen_in k x) }
    ensures nothing { (k : Control) (s : ℕ) (x : Session) (n : ℕ) → Groups k → Attempts k → session_in k.sessions s ≡ Some x → decision (shown_by_members s x.members k) ≡ Nothing n → NoneRevertible (seen_in k x) }
    ensures nobody { (k : Control) (s : ℕ) (x : Session) → Groups k → Attempts k → session_in k.sessions s ≡ Some x → decision (shown_by_members s x.members k) ≡ NoMember → NoneRevertible (seen_in k x) }
    ensures rest { (k : Control) (s : ℕ) (x : Session) (n : ℕ) → Groups k → Attempts k → session_in k.sessions s ≡ Some x → decision (shown_by_members s x.members k) ≡ CommitRest n → (n ≡ x.last) × RestCommits k x }
    ensures commits { (k : Control) (s : ℕ) (x : Session) (m : Member) → Groups k → Attempts k → session_in k.sessions s ≡ Some x → RestCommits k x → In m x.members → (fields_at k m.c.0).revertible ≡ true → InAttempt k (Commit m.c.0 m.a.0 s x.last) }
    ensures committed { (k j : Control) (c : Carried) (x : Session) (q : Member) → Groups k → In x k.sessions → In q x.members → Attempts k → (fields_at k q.c.0).revertible ≡ true → Moves k j q.c.0 (committed x.last (fields_at k q.c.0)) c → RestCommits k x → RestCommits j x }
    ensures begins { (k : Control) (x : Session) → TakenBut k x x.members }
    ensures passes { (k : Control) (x : Session) (q : Member) (rest : List Member) → TakenBut k x (q ∷ rest) → (seen (roles k) q).paired ≡ false → TakenBut k x rest }
    ensures takes { (k j : Control) (c : Carried) (x : Session) (q : Member) → Groups k → In x k.sessions → In q x.members → (rest : List Member) → Moves k j q.b.0 (taken_over (fields_at k q.b.0)) c → TakenBut k x (q ∷ rest) → TakenBut j x rest }
    ensures taken { (k : Control) (s : ℕ) (x : Session) → Groups k → Attempts k → session_in k.sessions s ≡ Some x → ((n : ℕ) → decision (shown_by_members s x.members k) ≢ CommitRest n) → TakenBut k x [] → RestReverts k x }
    ensures reverts { (k : Control) (s : ℕ) (x : Session) (m : Member) → Groups k → Attempts k → session_in k.sessions s ≡ Some x → RestReverts k x → In m x.members → (fields_at k m.c.0).revertible ≡ true → InAttempt k (Revert m.c.0 m.a.0 s x.last) }
    ensures reverted { (k j : Control) (c : Carried) (x : Session) (q : Member) → Groups k → In x k.sessions → In q x.members → Attempts k → (fields_at k q.c.0).revertible ≡ true → Moves k j q.c.0 (reverted x.last (fields_at k q.c.0)) c → RestReverts k x → RestReverts j x }
{}

/// An example: two members go through all phases, and the laws hold before the attempt, where one is committed, at its end, and
/// after a recovery where one is flashed. A lost master goes on as the reports say.
pub fn an_example_goes_through_all_phases()
    ensures begins { Groups start × Attempts start }
    ensures coordinates { in_phase held ≡ phase.Coordinating }
    ensures releases { in_phase (both held) ≡ phase.Releasing }
    ensures drains { in_phase (both freed) ≡ phase.Draining }
    ensures flashes { in_phase flashing ≡ phase.Flashing }
    ensures commits { in_phase all_flashed ≡ phase.Committing }
    ensures revertible { decision (shown_by_members 7 (now all_flashed).members all_flashed) ≡ RevertAll 1 }
    ensures rest { decision (shown_by_members 7 (now one_committed).members one_committed) ≡ CommitRest 1 }
    ensures committed { Groups one_committed × Attempts one_committed }
    ensures finishes { in_phase all_committed ≡ phase.Finishing }
    ensures idles { in_phase over ≡ phase.Idle }
    ensures nothing { decision (shown_by_members 7 (now over).members over) ≡ Nothing 1 }
    ensures ends { Groups over × Attempts over }
    ensures loses { in_phase (lost one_committed) ≡ phase.Lost }
    ensures settles { in_phase (reported (lost one_committed)) ≡ phase.Committing }
    ensures reverts { in_phase (reported (lost one_flashed)) ≡ phase.Reverting }
    ensures late { in_phase (report 1 second (taken_back (report 0 first (lost one_flashed)))) ≡ phase.Reverting }
    ensures recovered { Groups (taken_back one_flashed) × Attempts (taken_back one_flashed) }
    ensures nobody { decision (shown_by_members 7 (now one_flashed).members (taken_back one_flashed)) ≡ NoMember }
    ensures aborts { in_phase (aborted one_flashed) ≡ phase.Reverting }
{}
