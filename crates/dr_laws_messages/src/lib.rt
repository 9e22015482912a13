//! Laws of control messages in flight: what they say together with the sessions that they belong to is kept by every move that may
//! come, and by every change of the tables of sessions and messages. Its functions do nothing: each names a law by its contract.
#![tactic(auto)]

ghost use Rattle.std.specs.Prelude.{◌≡◌, ◌≢◌, ◌≤◌, ◌++◌, ◌∷◌, [], ℕ, max, Bool, true, false, Option, None, Some, List};
ghost use Rattle.std.specs.List.{find};
ghost use Rattle.dr_logic.specs.Tables.{at};
ghost use Rattle.dr_ids.specs.declared.names.Member.{Member};
ghost use Rattle.dr_ids.specs.declared.refusal.PhaseName.TheVariants as phase;
ghost use Rattle.dr_model.specs.Phases as phases;
ghost use Rattle.dr_model.specs.Control.{Control, no_control, is_volume, new_volume};
ghost use Rattle.dr_model.specs.Pairs.{held_for};
ghost use Rattle.dr_model.specs.Moves.{Move, Carried, target, next_fields};
ghost use Rattle.dr_model.specs.Entries.{fields_at};
ghost use Rattle.dr_model.specs.SessionEntries.{members_on};
ghost use Rattle.dr_model.specs.Sessions.{Session, Mirror, session_in, has_place_of, has_subsystem, subsystem_of, changed, joined, lost_since, begun, raised, unmirrored, paused, with_member, without_member, busy, leave_refusal, drop_refusal};
ghost use Rattle.dr_model.specs.SessionPlans.{leaving, appointed, aborting, exchanged};
ghost use Rattle.dr_model.specs.Messages.{Message, Replies, sent, lost, heard, started};
ghost use Rattle.dr_model.specs.Messages as messages;
ghost use Rattle.dr_model.specs.MessagePlans.{with_flight, replying, is_awaited, taking};
ghost use Rattle.dr_model.specs.Groups.{In, Groups, OpensAttempt};
ghost use Rattle.dr_model.specs.Attempts.{roles, Attempts, InAttempt, WorkDone, ServerDone};
ghost use Rattle.dr_model.specs.Flights.{Flights};
ghost use Rattle.dr_laws_sessions.specs.Frames.{Moves, ServerSilent};

/// The laws hold before the first step, and stay where sessions, messages and what volumes say of attempts do, where a volume is
/// defined, and where a server is started.
pub fn the_laws_of_messages_begin()
    ensures none { Flights no_control }
    ensures still { (k j : Control) → j.sessions ≡ k.sessions → j.flight ≡ k.flight → ((v : ℕ) → roles j v ≡ roles k v) → Flights k → Flights j }
    ensures defined { (k : Control) (v server tracks : ℕ) → is_volume k v ≡ false → Groups k → Flights k → Flights (record k { volumes = k.volumes ++ v ∷ []; volume = at k.volume v (new_volume server tracks) }) }
    ensures started { (k : Control) (server : ℕ) → Flights k → Flights (record k { flight = started server k.flight }) }
{}

/// They stay in each kind of move that comes where it may, and in the first hold of an attempt, which begins it.
pub fn each_move_keeps_the_laws_of_messages()
    ensures moved { (k j : Control) (m : Move) (c : Carried) → j.sessions ≡ k.sessions → j.flight ≡ k.flight → Moves k j (target m) (next_fields m k.volume) c → InAttempt k m → Groups k → Attempts k → Flights k → Flights j }
    ensures opened { (k j : Control) (v s n : ℕ) (c : Carried) → j.sessions ≡ k.sessions → j.flight ≡ k.flight → Moves k j v (held_for n (fields_at k v)) c → OpensAttempt k v s n → Groups k → Attempts k → Flights k → Flights (record j { sessions = changed s begun j.sessions }) }
{}

/// They stay where the order that a master owes is sent, where a server that has carried out an order in flight replies to it, and where a
/// message is lost.
pub fn messages_come_and_go()
    ensures sent { (k : Control) (s server : ℕ) (x : Session) (r : Mirror) (o : phases.Order) → Groups k → Attempts k → Flights k → session_in k.sessions s ≡ Some x → x.mirror ≡ Some r → phases.order_for r.master server ≡ Some o → Flights (with_flight (sent s server o) k) }
    ensures replied { (k : Control) (m : Message) (x : Session) → Groups k → Attempts k → Flights k → In m k.flight.messages → session_in k.sessions m.session ≡ Some x → (m.order.work ≢ phases.Report → m.order.number ≡ x.last → WorkDone k x.members m.server m.order.work m.order.number) → (m.order.work ≡ phases.Finish → m.order.number ≡ x.last → ServerSilent k x m.server) → Flights (replying m (members_on m.server x.members) k) }
    ensures lost { (k : Control) (n : ℕ) → Flights k → Flights (with_flight (lost n) k) }
{}

/// They stay where a master is appointed, dismissed, paused, aborted or lost, and where it begins an attempt.
pub fn masters_keep_the_laws_of_messages()
    ensures appointed { (k : Control) (s server : ℕ) (x : Session) → Groups k → Attempts k → Flights k → session_in k.sessions s ≡ Some x → x.mirror ≡ None → Flights (appointed s server k) }
    ensures unmirrored { (k : Control) (s : ℕ) (x : Session) → Groups k → Attempts k → Flights k → session_in k.sessions s ≡ Some x → drop_refusal x.mirror ≡ None → Flights (record k { sessions = changed s unmirrored k.sessions }) }
    ensures paused { (k : Control) (s : ℕ) (on : Bool) → Groups k → Attempts k → Flights k → Flights (record k { sessions = changed s (paused on) k.sessions }) }
    ensures aborted { (k : Control) (s : ℕ) (x : Session) → Groups k → Attempts k → Flights k → session_in k.sessions s ≡ Some x → Flights (aborting s x.mirror k) }
    ensures lost { (k : Control) (before now : ℕ → Bool) → Groups k → Attempts k → Flights k → Flights (record k { sessions = lost_since before now k.sessions; flight = messages.lost_since before now k.sessions k.flight }) }
    ensures begun { (k : Control) (s : ℕ) (x : Session) (r : Mirror) → Groups k → Attempts k → Flights k → In x k.sessions → x.number ≡ s → x.mirror ≡ Some r → r.master.phase ≡ phase.Idle → Flights (record k { sessions = changed s begun k.sessions }) }
{}

/// They stay where a master takes what a server answers to its order in an exchange, and where it doesn't learn of it.
pub fn exchanges_keep_the_laws_of_messages()
    ensures answered { (k : Control) (s server : ℕ) (work : phases.Work) (x : Session) → Groups k → Attempts k → Flights k → session_in k.sessions s ≡ Some x → (work ≡ phases.Report → (r : Mirror) → x.mirror ≡ Some r → r.master.phase ≡ phase.Lost) → (work ≢ phases.Report → ServerDone k x server) → Flights (exchanged s server true work (members_on server x.members) k) }
    ensures heard { (k : Control) (s server : ℕ) (work : phases.Work) → Flights k → Flights (record k { flight = heard s server (k.flight.epoch s) work k.flight }) }
{}

/// They stay, as those of sessions and of attempts do, where a master takes a reply that was in flight, and that it awaits.
pub fn delivered_replies_keep_all_three_laws()
    ensures sessions { (k : Control) (m : Message) (reply : phases.Reply) (x : Session) (r : Mirror) → Groups k → Attempts k → Flights k → In m k.flight.messages → m.body ≡ Replies reply → session_in k.sessions m.session ≡ Some x → x.mirror ≡ Some r → is_awaited k.flight r m ≡ true → Groups (taking m reply k) }
    ensures attempts { (k : Control) (m : Message) (reply : phases.Reply) (x : Session) (r : Mirror) → Groups k → Attempts k → Flights k → In m k.flight.messages → m.body ≡ Replies reply → session_in k.sessions m.session ≡ Some x → x.mirror ≡ Some r → is_awaited k.flight r m ≡ true → Attempts (taking m reply k) }
    ensures messages { (k : Control) (m : Message) (reply : phases.Reply) (x : Session) (r : Mirror) → Groups k → Attempts k → Flights k → In m k.flight.messages → m.body ≡ Replies reply → session_in k.sessions m.session ≡ Some x → x.mirror ≡ Some r → is_awaited k.flight r m ≡ true → Flights (taking m reply k) }
{}

/// They stay where a logical subsystem joins or leaves a session; with the last one the session's messages go.
pub fn joining_and_leaving_keep_the_laws_of_messages()
    ensures joined { (k : Control) (s l : ℕ) → Flights k → Groups k → Flights (record k { sessions = joined s l k.sessions }) }
    ensures left { (k : Control) (s l : ℕ) (x : Session) → Flights k → Groups k → session_in k.sessions s ≡ Some x → leave_refusal (Some x) s l ≡ None → Flights (leaving s l x k) }
{}

/// They stay where a session without an attempt has its last number raised, and a member more or less.
pub fn members_keep_the_laws_of_messages()
    ensures raised { (k : Control) (s n : ℕ) (x : Session) → Groups k → Attempts k → Flights k → session_in k.sessions s ≡ Some x → busy x.mirror ≡ None → Flights (record k { sessions = changed s (raised n) k.sessions }) }
    ensures added { (k : Control) (s n : ℕ) (x : Session) (m : Member) → Groups k → Attempts k → Flights k → session_in k.sessions s ≡ Some x → busy x.mirror ≡ None → find (has_place_of m) k.sessions ≡ None → has_subsystem (subsystem_of m.a.0) x ≡ true → (fields_at k m.a.0).attempt ≤ n → (fields_at k m.b.0).seal ≤ n → (fields_at k m.c.0).floor ≤ n → max x.last n ≤ (fields_at k m.a.0).attempt → max x.last n ≤ (fields_at k m.c.0).floor → Flights (record k { sessions = changed s (with_member m) (changed s (raised n) k.sessions) }) }
    ensures removed { (k : Control) (s a : ℕ) (x : Session) → Groups k → Attempts k → Flights k → session_in k.sessions s ≡ Some x → busy x.mirror ≡ None → ((m : Member) → In m x.members → m.a.0 ≡ a → (fields_at k m.c.0).member ≡ false) → Flights (record k { sessions = changed s (without_member a) k.sessions }) }
{}
