//! Laws on the cuts of an attempt, about the machine of `dr_model`: they are of one moment, and those of a group that was flashed are
//! closed. Its functions do nothing: each names a law by its contract.
#![tactic(auto)]

ghost use Rattle.std.specs.Prelude.{◌≡◌, ◌≢◌, ◌++◌, ℕ, Bool, true, false, List, [], ◌∷◌, Option, Some, None};
ghost use Rattle.std.specs.List.{find};
ghost use Rattle.dr_logic.specs.Tables.{at};
ghost use Rattle.dr_ids.specs.declared.names.Member.{Member};
ghost use Rattle.dr_ids.specs.declared.refusal.PhaseName.TheVariants as phase;
ghost use Rattle.dr_model.specs.declared.event.Event.{Event};
ghost use Rattle.dr_model.specs.declared.event.Event.TheVariants.{Ack};
ghost use Rattle.dr_model.specs.Layout.{no_fields};
ghost use Rattle.dr_model.specs.Histories.{Lists, histories, lists};
ghost use Rattle.dr_model.specs.Phases as phases;
ghost use Rattle.dr_model.specs.Control.{Control, Pending, Volume, World, is_volume, nothing};
ghost use Rattle.dr_model.specs.Moves.{Move, Hold, settled, settled_in_stop, target, told, told_in_stop};
ghost use Rattle.dr_model.specs.Entries.{fields_at};
ghost use Rattle.dr_model.specs.Sessions.{Session, Mirror, session_in, has_place_of, changed, begun, joined, left, mirrored_by, unmirrored, paused, with_master, lost_since, raised, with_member, without_member};
ghost use Rattle.dr_model.specs.Messages.{Flight, Message, sent, answered};
ghost use Rattle.dr_model.specs.Groups.{In, Groups};
ghost use Rattle.dr_model.specs.Attempts.{Attempts};
ghost use Rattle.dr_model.specs.Flights.{Flights};
ghost use Rattle.dr_model.specs.Laws.{SoundBut};
ghost use Rattle.dr_model.specs.Allowed.{May, MayOpen};
ghost use Rattle.dr_model.specs.Cuts.{Cuts, cuts};
ghost use Rattle.dr_model.specs.ClosedCuts.{InGroup, LastCut, AllBegun, ClosedCuts};
ghost use Rattle.dr_laws_sessions.specs.Frames.{Quiet};
ghost use Rattle.dr_laws_cuts.specs.Once.{CutOnce, NoCuts};
ghost use Rattle.dr_laws_cuts.specs.Sound.{SoundCuts};
ghost use Rattle.dr_laws_closed.specs.Moments.{Moments, Standing, moments, standing};
ghost use Rattle.dr_laws_closed.specs.Closing.{AllFields, StandsWhole, LandedFree, ClosingIn, Closing};
ghost use Rattle.dr_laws_closed.specs.Silent.{AllStill, Silent};
ghost use Rattle.dr_laws_closed.specs.Next.{next_moments, next_standing, MovesTo};
ghost use Rattle.dr_laws_closed.specs.Regroups.{Regroups, EasesFlight};
ghost use Rattle.dr_laws_closed.specs.Example.{held, torn, parted};

/// Where each cut stands behind the begin of its attempt, no volume is cut twice for one number, and each primary that stands in a group
/// has a cut that is of the moment of its attempt, the cuts of each group are closed.
pub fn one_moment_closes_the_cuts()
    ensures { (events : List Event) → AllBegun events → CutOnce events → StandsWhole (cuts events) (moments events) (standing events) → (s n : ℕ) → ClosedCuts events s n }
{}

/// The moment of an attempt, event by event, is what volumes held at its last cut; and who stands in its group by a place of the journal
/// does so event by event. Both go along with the moves: a hold makes a moment, a flash lets a primary join its group, and what
/// takes the flash back, or the target out of the session, takes the primary out.
pub fn moments_and_groups_are_those_of_places()
    ensures last { (s n : ℕ) (events : List Event) (p : LastCut events s n) (v t : ℕ) → moments events s n v t ≡ lists p.place.before v t }
    ensures stands { (s n a : ℕ) (events : List Event) → InGroup events s n a → standing events s n a ≡ true }
    ensures moments { (events : List Event) (m : Move) (u : Volume) → moments (events ++ told m u) ≡ next_moments (lists events) m (moments events) }
    ensures groups { (events : List Event) (m : Move) (u : Volume) → standing (events ++ told m u) ≡ next_standing m u (standing events) }
{}

/// Before the first step the laws of closed cuts hold: what is held is as at its cut, the cuts of an attempt are of one moment, and so
/// are those of a group that was flashed. In a sound world they stay in a move that may come, and in the first hold of an attempt,
/// whether it is done or its server stops in it and it counts as done.
pub fn moves_keep_closed_cuts()
    ensures nothing { Closing nothing }
    ensures done { (starts : Option ℕ) (w x : World) (m : Move) → SoundBut starts w → SoundCuts w → Closing w → May w m → MovesTo w x m w.control.sessions (settled m w.control.pending) →
        x.events ≡ w.events ++ told m (w.control.volume (target m)) → Closing x }
    ensures stopped { (starts : Option ℕ) (w x : World) (m : Move) (more : List Event) → SoundBut starts w → SoundCuts w → Closing w → May w m → MovesTo w x m w.control.sessions (settled_in_stop m w.control.pending) →
        Silent more → x.events ≡ w.events ++ (told_in_stop m (w.control.volume (target m)) ++ more) → Closing x }
    ensures opened { (starts : Option ℕ) (w x : World) (v s n : ℕ) → SoundBut starts w → SoundCuts w → Closing w → MayOpen w v s n → MovesTo w x (Hold v s n true) (changed s begun w.control.sessions) w.control.pending →
        x.events ≡ w.events ++ told (Hold v s n true) (w.control.volume v) → Closing x }
    ensures opened_in_stop { (starts : Option ℕ) (w x : World) (v s n : ℕ) (more : List Event) → SoundBut starts w → SoundCuts w → Closing w → MayOpen w v s n → MovesTo w x (Hold v s n true) (changed s begun w.control.sessions) w.control.pending →
        Silent more → x.events ≡ w.events ++ (told_in_stop (Hold v s n true) (w.control.volume v) ++ more) → Closing x }
{}

/// They stay where events are told of which no cut, no group and no held volume hears; where a write that landed in a stop is
/// acknowledged, on a volume that isn't held; and where a volume is defined.
pub fn what_moves_nothing_keeps_closed_cuts()
    ensures told { (w x : World) (more : List Event) → Closing w → NoCuts more → AllStill more → x.events ≡ w.events ++ more → x.control.sessions ≡ w.control.sessions → x.control.flight.messages ≡ w.control.flight.messages →
        ((v : ℕ) → (fields_at w.control v).recording ≡ true → (fields_at w.control v).coordination ≡ true → (t : ℕ) → lists x.events v t ≡ lists w.events v t) →
        fields_at x.control ≡ fields_at w.control → LandedFree (fields_at w.control) x.control.pending → Closing x }
    ensures acknowledged { (w x : World) (n : ℕ) → Closing w → x.events ≡ w.events ++ Ack n ∷ [] → (fields_at w.control ((histories w.events).write n).volume).coordination ≡ false →
        x.control.sessions ≡ w.control.sessions → x.control.flight.messages ≡ w.control.flight.messages → fields_at x.control ≡ fields_at w.control → LandedFree (fields_at w.control) x.control.pending → Closing x }
    ensures defined { (w x : World) (more : List Event) (v : ℕ) → Closing w → NoCuts more → AllStill more → x.events ≡ w.events ++ more → x.control.sessions ≡ w.control.sessions → x.control.flight.messages ≡ w.control.flight.messages →
        is_volume w.control v ≡ false → Groups w.control → ((u t : ℕ) → u ≢ v → lists x.events u t ≡ lists w.events u t) →
        fields_at x.control ≡ at (fields_at w.control) v no_fields → x.control.pending ≡ w.control.pending → Closing x }
{}

/// They stay where other messages are in flight, and no flash of an attempt for which none was awaited: so it is where some are gone, where
/// a master sends the order that it owes or the first hold of an attempt, and where a server answers.
pub fn messages_keep_closed_cuts()
    ensures kept { (ss : List Session) (flight later : Flight) (f : AllFields) (ps : List Pending) (now : Lists) (c : Cuts) (M : Moments) (g : Standing) → EasesFlight ss flight later → ClosingIn ss flight f ps now c M g → ClosingIn ss later f ps now c M g }
    ensures fewer { (ss : List Session) (flight later : Flight) → ((m : Message) → In m later.messages → In m flight.messages) → EasesFlight ss flight later }
    ensures sent { (k : Control) (x : Session) (r : Mirror) (server : ℕ) (o : phases.Order) → Groups k → In x k.sessions → x.mirror ≡ Some r → phases.order_for r.master server ≡ Some o → EasesFlight k.sessions k.flight (sent x.number server o k.flight) }
    ensures held { (ss : List Session) (flight : Flight) (s server n : ℕ) → EasesFlight ss flight (sent s server (phases.numbered phases.Hold n) flight) }
    ensures answered { (ss : List Session) (flight : Flight) (m : Message) (reply : phases.Reply) → EasesFlight ss flight (answered m reply flight) }
{}

/// They stay where the table of sessions changes in such a way that members stay in their session and its attempt, in a phase that isn't
/// an earlier one, or their session is Idle. So it does in each line on sessions, where a master takes a reply, and where masters are
/// lost. They also stay where a session's master begins an attempt before any member is held.
pub fn other_tables_of_sessions_keep_closed_cuts()
    ensures kept { (k : Control) (us : List Session) (later : Flight) (ps : List Pending) (now : Lists) (c : Cuts) (M : Moments) (g : Standing) → Groups k → Attempts k → Groups (record k { sessions = us; flight = later }) → Attempts (record k { sessions = us; flight = later }) →
        Flights (record k { sessions = us; flight = later }) → Regroups k.sessions us → EasesFlight k.sessions k.flight later → ClosingIn k.sessions k.flight (fields_at k) ps now c M g → ClosingIn us later (fields_at k) ps now c M g }
    ensures begun { (k : Control) (s : ℕ) (x : Session) (r : Mirror) (ps : List Pending) (now : Lists) (c : Cuts) (M : Moments) (g : Standing) → Groups k → Attempts k → session_in k.sessions s ≡ Some x → x.mirror ≡ Some r → r.master.phase ≡ phase.Idle →
        ClosingIn k.sessions k.flight (fields_at k) ps now c M g → ClosingIn (changed s begun k.sessions) k.flight (fields_at k) ps now c M g }
    ensures joined { (k : Control) (s l : ℕ) → Groups k → Regroups k.sessions (joined s l k.sessions) }
    ensures left { (k : Control) (s l : ℕ) → Groups k → Regroups k.sessions (left s l k.sessions) }
    ensures mirrored { (k : Control) (s server : ℕ) → Groups k → Regroups k.sessions (changed s (mirrored_by server) k.sessions) }
    ensures unmirrored { (k : Control) (s : ℕ) → Groups k → Regroups k.sessions (changed s unmirrored k.sessions) }
    ensures paused { (k : Control) (s : ℕ) (on : Bool) → Groups k → Regroups k.sessions (changed s (paused on) k.sessions) }
    ensures aborted { (k : Control) (s : ℕ) → Groups k → Regroups k.sessions (changed s (with_master phases.aborted) k.sessions) }
    ensures taken { (k : Control) (s server : ℕ) (reply : phases.Reply) → Groups k → Regroups k.sessions (changed s (with_master (λ m. phases.taken m server reply)) k.sessions) }
    ensures added { (k : Control) (s n : ℕ) (x : Session) (m : Member) → Groups k → session_in k.sessions s ≡ Some x → Quiet x → find (has_place_of m) k.sessions ≡ None → Regroups k.sessions (changed s (with_member m) (changed s (raised n) k.sessions)) }
    ensures removed { (k : Control) (s a : ℕ) → Groups k → Regroups k.sessions (changed s (without_member a) k.sessions) }
    ensures lost { (k : Control) (before now : ℕ → Bool) → Regroups k.sessions (lost_since before now k.sessions) }
{}

/// An example: where no write is acknowledged between the cuts of two volumes, they are closed, and both volumes stand in the group.
/// Where one is on the volume that was cut first, they aren't. A volume whose target has left doesn't stand in
/// the group.
pub fn an_example_is_closed_and_another_is_not()
    ensures closed { ClosedCuts held 7 1 }
    ensures stands { InGroup held 7 1 1 }
    ensures torn { ClosedCuts torn 7 1 → ⊥ }
    ensures parted { InGroup parted 7 1 1 → ⊥ }
{}
