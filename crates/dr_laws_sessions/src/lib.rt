//! Laws of what the sessions and the records of volumes say together: no number is that of two sessions, each session is sound
//! and its members' volumes stand, a volume has one place in one member, and only primaries of members record, the last
//! attempt of their session, with the member's secondary as their partner. Its functions do nothing: each names a law by its contract.
#![tactic(auto)]

ghost use Rattle.std.specs.Prelude.{◌≡◌, ◌≢◌, ◌≤◌, ◌⊎◌, ◌+◌, ◌++◌, ◌∷◌, ◌==◌, [], map, length, ℕ, Bool, true, false, nat_lt, Option, None, Some, List};
ghost use Rattle.std.specs.List.{find};
ghost use Rattle.dr_logic.specs.Tables.{at};
ghost use Rattle.dr_ids.specs.declared.names.Member.{Member};
ghost use Rattle.dr_ids.specs.declared.refusal.PhaseName.TheVariants as phase;
ghost use Rattle.dr_model.specs.declared.step.Name.{Name};
ghost use Rattle.dr_model.specs.Decisions.{Shown};
ghost use Rattle.dr_model.specs.Phases as phases;
ghost use Rattle.dr_model.specs.Tables.{Once};
ghost use Rattle.dr_model.specs.Layout.{Fields};
ghost use Rattle.dr_model.specs.Control.{Control, no_control, is_volume, new_volume};
ghost use Rattle.dr_model.specs.Pairs.{records, past_attempt};
ghost use Rattle.dr_model.specs.Moves.{Move, Carried, target, next_fields};
ghost use Rattle.dr_model.specs.Entries.{fields_at};
ghost use Rattle.dr_model.specs.SessionEntries.{is_past, last_of, members_on};
ghost use Rattle.dr_model.specs.SessionPlans.{order_of, answered_by, join_plan, leave_plan, mirror_plan, pause_mirror_plan, unmirror_plan, abort_plan, add_done, expel_done, exchange_done};
ghost use Rattle.dr_model.specs.Plans.{server_plan, volume_plan};
ghost use Rattle.dr_model.specs.Sessions.{Session, Mirror, session_in, has_place_of, changed, joined, left, lost_since, begun, raised, mirrored_by, unmirrored, paused, with_master, with_member, without_member, busy, leave_refusal, drop_refusal};
ghost use Rattle.dr_model.specs.Groups.{In, IsAt, MemberStands, PlacesDiffer, Groups, Due, HoldsMember, OpensAttempt, Housed};
ghost use Rattle.dr_laws_sessions.specs.Frames.{Grows, Quieter, Framed, RecordedBefore, RecordedOr, Moves, Suits, Quiet, ServerSilent, SilentBut, MayReport, OwesReport, Became, HoldsOn, Holding};

/// The laws hold before the first step, and stay where a volume is defined.
pub fn the_laws_of_sessions_begin()
    ensures none { Groups no_control }
    ensures defined { (k : Control) (v server tracks : ℕ) → is_volume k v ≡ false → Groups k → Groups (record k { volumes = k.volumes ++ v ∷ []; volume = at k.volume v (new_volume server tracks) }) }
{}

/// They stay where the sessions do, each volume stays on its server and of its size, and what records then has recorded before,
/// for the same attempt and with the same partner; and in each kind of move, of which a hold is one of its session.
pub fn each_move_keeps_the_laws_of_sessions()
    ensures still { (k j : Control) → j.sessions ≡ k.sessions → Grows k j → Quieter k j → Groups k → Groups j }
    ensures same { (j k : Control) → Framed j k → ((v : ℕ) → (fields_at k v).recording ≡ true → RecordedBefore j k v) → Groups j → Groups k }
    ensures held { (j k : Control) (v s n : ℕ) → Framed j k → ((u : ℕ) → (fields_at k u).recording ≡ true → RecordedOr j k v n u) → HoldsMember j v s n → Groups j → Groups k }
    ensures opened { (j k : Control) (v s n : ℕ) → Framed j k → ((u : ℕ) → (fields_at k u).recording ≡ true → RecordedOr j k v n u) → OpensAttempt j v s n → Groups j → Groups (record k { sessions = changed s begun k.sessions }) }
    ensures moved { (k j : Control) (m : Move) (c : Carried) → j.sessions ≡ k.sessions → Moves k j (target m) (next_fields m k.volume) c → Suits k m → Groups k → Groups j }
{}

/// They stay where a logical subsystem joins or leaves a session.
pub fn joining_and_leaving_keep_the_laws_of_sessions()
    ensures joined { (k : Control) (s l : ℕ) → Groups k → Groups (record k { sessions = joined s l k.sessions }) }
    ensures left { (k : Control) (s l : ℕ) (x : Session) → Groups k → session_in k.sessions s ≡ Some x → leave_refusal (Some x) s l ≡ None → Groups (record k { sessions = left s l k.sessions }) }
{}

/// They stay where a master is appointed on the server of a volume, dismissed, paused, aborted or lost; and where it begins an attempt
/// before any member is held.
pub fn masters_keep_the_laws_of_sessions()
    ensures mirrored { (k : Control) (s server : ℕ) (x : Session) → Groups k → session_in k.sessions s ≡ Some x → x.mirror ≡ None → (v : ℕ) → is_volume k v ≡ true → (k.volume v).server ≡ server → Groups (record k { sessions = changed s (mirrored_by server) k.sessions }) }
    ensures unmirrored { (k : Control) (s : ℕ) (x : Session) → Groups k → session_in k.sessions s ≡ Some x → drop_refusal x.mirror ≡ None → Groups (record k { sessions = changed s unmirrored k.sessions }) }
    ensures paused { (k : Control) (s : ℕ) (on : Bool) → Groups k → Groups (record k { sessions = changed s (paused on) k.sessions }) }
    ensures aborted { (k : Control) (s : ℕ) → Groups k → Groups (record k { sessions = changed s (with_master phases.aborted) k.sessions }) }
    ensures lost { (k : Control) (before now : ℕ → Bool) → Groups k → Groups (record k { sessions = lost_since before now k.sessions }) }
    ensures begun { (k : Control) (s : ℕ) (x : Session) (r : Mirror) → Groups k → session_in k.sessions s ≡ Some x → x.mirror ≡ Some r → r.master.phase ≡ phase.Idle → Groups (record k { sessions = changed s begun k.sessions }) }
{}

/// They stay where a master takes the reply of a server. In Finishing no member on it may record; and a lost master takes a report of each
/// server once.
pub fn replies_keep_the_laws_of_sessions()
    ensures done { (k : Control) (s server : ℕ) (x : Session) → Groups k → session_in k.sessions s ≡ Some x → ((r : Mirror) → x.mirror ≡ Some r → r.master.phase ≡ phase.Finishing → ServerSilent k x server) → Groups (record k { sessions = changed s (with_master (λ m. phases.replied m server phases.Done)) k.sessions }) }
    ensures waits { (k : Control) (s server : ℕ) → Groups k → Groups (record k { sessions = changed s (with_master (λ m. phases.replied m server phases.NotYet)) k.sessions }) }
    ensures reported { (k : Control) (s server : ℕ) (xs : List Shown) (x : Session) → Groups k → session_in k.sessions s ≡ Some x → ((r : Mirror) → x.mirror ≡ Some r → r.master.phase ≡ phase.Lost) → ((r : Mirror) → x.mirror ≡ Some r → MayReport r.master x.members server xs) → Groups (record k { sessions = changed s (with_master (λ m. phases.replied m server (phases.Reported xs))) k.sessions }) }
    ensures settled { (k : Control) (s : ℕ) → Groups k → Groups (record k { sessions = changed s (with_master phases.settled) k.sessions }) }
    ensures taken { (k : Control) (s server : ℕ) (reply : phases.Reply) (x : Session) → Groups k → session_in k.sessions s ≡ Some x → ((r : Mirror) → x.mirror ≡ Some r → r.master.phase ≡ phase.Finishing → ServerSilent k x server) → ((r : Mirror) → x.mirror ≡ Some r → OwesReport r.master x.members server reply) → Groups (record k { sessions = changed s (with_master (λ m. phases.taken m server reply)) k.sessions }) }
    ensures answered { (k : Control) (s server : ℕ) (work : phases.Work) (x : Session) → Groups k → session_in k.sessions s ≡ Some x → ((r : Mirror) → x.mirror ≡ Some r → r.master.phase ≡ phase.Finishing → ServerSilent k x server) → (work ≡ phases.Report → (r : Mirror) → x.mirror ≡ Some r → phases.is_among server r.master.owed ≡ true) → Groups (answered_by s server work (members_on server x.members) k) }
{}

/// They stay where a session without an attempt has its last number raised, and a member more or less; it has no more members
/// than there are volumes.
pub fn members_keep_the_laws_of_sessions()
    ensures raised { (k : Control) (s n : ℕ) (x : Session) → Groups k → session_in k.sessions s ≡ Some x → busy x.mirror ≡ None → Groups (record k { sessions = changed s (raised n) k.sessions }) }
    ensures added { (k : Control) (s n : ℕ) (x : Session) (m : Member) → Groups k → session_in k.sessions s ≡ Some x → busy x.mirror ≡ None → nat_lt m.server.0 8 ≡ true → MemberStands k m → PlacesDiffer m → find (has_place_of m) k.sessions ≡ None → Groups (record k { sessions = changed s (with_member m) (changed s (raised n) k.sessions) }) }
    ensures differ { (k : Control) (m : Member) → MemberStands k m → m.b.0 ≢ m.c.0 → PlacesDiffer m }
    ensures removed { (k : Control) (s a : ℕ) (x : Session) → Groups k → session_in k.sessions s ≡ Some x → busy x.mirror ≡ None → Groups (record k { sessions = changed s (without_member a) k.sessions }) }
    ensures few { (k : Control) (s : ℕ) (x : Session) → Groups k → session_in k.sessions s ≡ Some x → length x.members ≤ length k.volumes }
{}

/// They stay in what a line on sessions makes of the tables, whatever it answers: as the step begins, or as it ends, where its acts
/// left the sessions.
pub fn lines_on_sessions_keep_their_laws()
    ensures joins { (k : Control) (dev : Option Name) (l s : ℕ) → Groups k → Groups ((join_plan k dev l s).first k) }
    ensures leaves { (k : Control) (dev : Option Name) (l s : ℕ) → Groups k → Groups ((leave_plan k dev l s).first k) }
    ensures mirrors { (k : Control) (dev : Option Name) (l s : ℕ) → Groups k → Groups ((mirror_plan k dev l s).first k) }
    ensures pauses { (k : Control) (dev : Option Name) (l s : ℕ) (on : Bool) → Groups k → Groups ((pause_mirror_plan k dev l s on).first k) }
    ensures unmirrors { (k : Control) (dev : Option Name) (l s : ℕ) → Groups k → Groups ((unmirror_plan k dev l s).first k) }
    ensures aborts { (k : Control) (s : ℕ) → Groups k → Groups ((abort_plan k s).first k) }
    ensures adds { (k j : Control) (s : ℕ) (x : Session) (m : Member) → j.sessions ≡ k.sessions → session_in k.sessions s ≡ Some x → busy x.mirror ≡ None → nat_lt m.server.0 8 ≡ true → MemberStands j m → PlacesDiffer m → Groups j → Groups ((add_done k s x m).last j) }
    ensures expels { (k j : Control) (s : ℕ) (x : Session) (m : Member) → j.sessions ≡ k.sessions → session_in k.sessions s ≡ Some x → busy x.mirror ≡ None → Groups j → Groups ((expel_done k s m).last j) }
    ensures exchanges { (j : Control) (s server : ℕ) (reply : Bool) (o : Option phases.Order) (x : Session) → session_in j.sessions s ≡ Some x → ((r : Mirror) → x.mirror ≡ Some r → r.master.phase ≡ phase.Finishing → ServerSilent j x server) → ((q : phases.Order) → o ≡ Some q → q.work ≡ phases.Report → (r : Mirror) → x.mirror ≡ Some r → phases.is_among server r.master.owed ≡ true) → Groups j → Groups ((exchange_done s server reply (members_on server x.members) o).last j) }
{}

/// Each volume is on one of eight servers at most, wherever servers and volumes are defined; so a member whose volumes stand is.
pub fn volumes_stay_on_eight_servers()
    ensures none { Housed no_control }
    ensures stays { (j k : Control) → k.servers ≡ j.servers → k.volumes ≡ j.volumes → ((v : ℕ) → (k.volume v).server ≡ (j.volume v).server) → Housed j → Housed k }
    ensures servers { (k : Control) (name : Name) → Housed k → Housed ((server_plan k name).first k) }
    ensures volumes { (k : Control) (v : ℕ) (name : Name) (tracks : ℕ) → Housed k → Housed ((volume_plan k v name tracks).first k) }
    ensures member { (k : Control) (m : Member) → Housed k → MemberStands k m → nat_lt m.server.0 8 ≡ true }
{}

/// The session that a number gives is one of the table, and has that number. No other session has it.
pub fn a_session_that_is_found_is_listed()
    ensures found { (ss : List Session) (s : ℕ) (x : Session) → session_in ss s ≡ Some x → In x ss × (x.number ≡ s) }
    ensures member { (ms : List Member) (a : ℕ) (m : Member) → find (λ (m : Member). m.a.0 == a) ms ≡ Some m → In m ms × (m.a.0 ≡ a) }
    ensures same { (k : Control) (x y : Session) → Groups k → In x k.sessions → In y k.sessions → x.number ≡ y.number → x ≡ y }
{}

/// Where one session of a table changes, each session of the new table was there, or is what the one of that number became; and each
/// that was there stays, or becomes that.
pub fn a_changed_session_is_the_only_one()
    ensures comes { (s : ℕ) (f : Session → Session) (ss : List Session) (y : Session) → Once (map (λ (x : Session). x.number) ss) → In y (changed s f ss) → (In y ss × (y.number ≢ s)) ⊎ Became s f ss y }
    ensures stays { (s : ℕ) (f : Session → Session) (ss : List Session) (x : Session) → In x ss → x.number ≢ s → In x (changed s f ss) }
    ensures becomes { (s : ℕ) (f : Session → Session) (ss : List Session) (x : Session) → Once (map (λ (x : Session). x.number) ss) → In x ss → x.number ≡ s → In (f x) (changed s f ss) }
    ensures found { (s : ℕ) (f : Session → Session) (ss : List Session) (x : Session) → ((x : Session) → (f x).number ≡ x.number) → session_in ss s ≡ Some x → session_in (changed s f ss) s ≡ Some (f x) }
{}

/// Nobody records in a session without a master, or whose master is Idle; a member that doesn't record its session's last attempt
/// records none; and a volume without a place doesn't record. The partner of one that records is its member's secondary.
pub fn only_members_record()
    ensures quiet { (k : Control) (x : Session) (m : Member) → Groups k → In x k.sessions → Quiet x → In m x.members → (fields_at k m.a.0).recording ≡ false }
    ensures member { (k : Control) (x : Session) (m : Member) (n : ℕ) → Groups k → In x k.sessions → In m x.members → x.last ≡ n → records n (fields_at k m.a.0) ≡ false → (fields_at k m.a.0).recording ≡ false }
    ensures past { (k : Control) (x : Session) (m : Member) (n : ℕ) → Groups k → In x k.sessions → In m x.members → x.last ≡ n → is_past n (fields_at k m.a.0) ≡ true → (fields_at k m.a.0).recording ≡ false }
    ensures partner { (k : Control) (x : Session) (m : Member) → Groups k → In x k.sessions → In m x.members → (fields_at k m.a.0).recording ≡ true → (fields_at k m.a.0).primary_partner ≡ m.b.0 }
    ensures stranger { (k : Control) (v : ℕ) → Groups k → ((x : Session) (m : Member) → In x k.sessions → In m x.members → m.a.0 ≢ v) → (fields_at k v).recording ≡ false }
    ensures placeless { (k : Control) (m : Member) (v : ℕ) → Groups k → find (has_place_of m) k.sessions ≡ None → IsAt v m → (fields_at k v).recording ≡ false }
    ensures apart { (k : Control) (x : Session) (m : Member) (v : ℕ) → Groups k → In x k.sessions → In m x.members → (v ≡ m.b.0) ⊎ (v ≡ m.c.0) → (fields_at k v).recording ≡ false }
{}

/// What a master's order begins with or holds is one of its session, with the number that it is to have.
pub fn orders_hold_members()
    ensures holds { (k : Control) (s : ℕ) (x : Session) (r : Mirror) (m : Member) → Groups k → session_in k.sessions s ≡ Some x → x.mirror ≡ Some r → In m x.members → (fields_at k m.a.0).primary_partner ≡ m.b.0 → r.master.phase ≡ phase.Coordinating → phases.is_among m.server.0 r.master.owed ≡ true → HoldsMember k m.a.0 s r.master.number }
    ensures opens { (k : Control) (s : ℕ) (x : Session) (r : Mirror) (m : Member) → Groups k → session_in k.sessions s ≡ Some x → x.mirror ≡ Some r → In m x.members → (fields_at k m.a.0).primary_partner ≡ m.b.0 → r.master.phase ≡ phase.Idle → OpensAttempt k m.a.0 s (r.master.number + 1) }
{}

/// While a server carries out a hold, the first member that isn't held yet begins the attempt where none has begun, and each other is
/// held for the one that has: by an order that is owed, or by one that came as a message.
pub fn one_member_after_another_is_held()
    ensures begins { (k : Control) (s server : ℕ) (x : Session) (r : Mirror) (o : phases.Order) → Groups k → session_in k.sessions s ≡ Some x → x.mirror ≡ Some r → order_of r server ≡ Some o → o.work ≡ phases.Hold → Holding k s server o.number x.members }
    ensures comes { (k : Control) (s server n : ℕ) (x : Session) → session_in k.sessions s ≡ Some x → n ≡ x.last → Due k.flight x server phases.Hold n → Holding k s server n x.members }
    ensures opens { (k : Control) (s server n : ℕ) (ms : List Member) (m : Member) → Holding k s server n ms → In m ms → (fields_at k m.a.0).primary_partner ≡ m.b.0 → nat_lt (last_of k s) n ≡ true → OpensAttempt k m.a.0 s n }
    ensures holds { (k : Control) (s server n : ℕ) (ms : List Member) → (h : Holding k s server n ms) → nat_lt (last_of k s) n ≡ false → HoldsOn k.flight h.session server n }
    ensures stays { (k j : Control) (s server n : ℕ) (ms : List Member) → j.sessions ≡ k.sessions → j.flight ≡ k.flight → Holding k s server n ms → Holding j s server n ms }
    ensures begun { (k j : Control) (s server n : ℕ) (ms : List Member) (m : Member) → j.sessions ≡ changed s begun k.sessions → nat_lt (last_of k s) n ≡ true → In m ms → m.server.0 ≡ server → Holding k s server n ms → Holding j s server n ms }
{}

/// One member after another on a server stops to record, and at last none records.
pub fn a_server_falls_silent()
    ensures order { (r : Mirror) (server : ℕ) (o : phases.Order) → r.master.phase ≡ phase.Finishing → order_of r server ≡ Some o → (o.work ≡ phases.Finish) × (o.number ≡ r.master.number) }
    ensures begins { (k : Control) (x : Session) (server : ℕ) → SilentBut k x server (members_on server x.members) }
    ensures passes { (k : Control) (x : Session) (server n : ℕ) (q : Member) (rest : List Member) → Groups k → In x k.sessions → In q x.members → x.last ≡ n → is_past n (fields_at k q.a.0) ≡ true → SilentBut k x server (q ∷ rest) → SilentBut k x server rest }
    ensures finishes { (k j : Control) (x : Session) (server n : ℕ) (q : Member) (rest : List Member) (c : Carried) → j.sessions ≡ k.sessions → Moves k j q.a.0 (past_attempt n (fields_at k q.a.0)) c → SilentBut k x server (q ∷ rest) → SilentBut j x server rest }
    ensures next { (k j : Control) (x : Session) (server : ℕ) (q : Member) (rest : List Member) → SilentBut k x server (q ∷ rest) → ((v : ℕ) → (fields_at k v).recording ≡ false → (fields_at j v).recording ≡ false) → (fields_at j q.a.0).recording ≡ false → SilentBut j x server rest }
    ensures stays { (k j : Control) (x : Session) (server : ℕ) (rest : List Member) → SilentBut k x server rest → ((u : ℕ) → (fields_at j u).recording ≡ true → RecordedBefore k j u) → SilentBut j x server rest }
    ensures ends { (k : Control) (x : Session) (server : ℕ) → SilentBut k x server [] → ServerSilent k x server }
{}
