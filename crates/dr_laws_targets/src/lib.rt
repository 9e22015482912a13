//! Laws on the targets that count in a session, about the machine of `dr_model`: each shows the cut of its number, and stands in the
//! group of that number. Its functions do nothing: each names a law by its contract.
#![tactic(auto)]

ghost use Rattle.std.specs.Prelude.{◌≡◌, ◌⊎◌, ◌+◌, ◌++◌, ℕ, true, false, List, [], ◌∷◌, Option};
ghost use Rattle.dr_logic.specs.Tables.{at};
ghost use Rattle.dr_model.specs.declared.event.Event.{Event};
ghost use Rattle.dr_model.specs.declared.event.Event.TheVariants.{Issue, Ack};
ghost use Rattle.dr_model.specs.Layout.{no_fields};
ghost use Rattle.dr_model.specs.Histories.{Write, histories, lists};
ghost use Rattle.dr_model.specs.Control.{Control, Volume, World, is_volume, nothing};
ghost use Rattle.dr_model.specs.Moves.{Move, Hold, target, told, told_in_stop};
ghost use Rattle.dr_model.specs.Entries.{fields_at};
ghost use Rattle.dr_model.specs.Sessions.{Session, changed, begun};
ghost use Rattle.dr_model.specs.Messages.{Flight};
ghost use Rattle.dr_model.specs.Groups.{In, Groups};
ghost use Rattle.dr_model.specs.Attempts.{Attempts};
ghost use Rattle.dr_model.specs.Table.{Row, Table, table};
ghost use Rattle.dr_model.specs.Laws.{SoundBut, fields};
ghost use Rattle.dr_model.specs.Allowed.{May, MayOpen};
ghost use Rattle.dr_model.specs.Cuts.{Cuts};
ghost use Rattle.dr_model.specs.ClosedCuts.{InGroup};
ghost use Rattle.dr_model.specs.NewestGroup.{StandsCommitted, NewestGroup};
ghost use Rattle.dr_model.specs.HeldWrites.{IsMirrored, WasAcknowledged, WasReplaced};
ghost use Rattle.dr_laws_cuts.specs.Once.{NoCuts};
ghost use Rattle.dr_laws_cuts.specs.Sound.{SoundCuts, MovedTo};
ghost use Rattle.dr_laws_closed.specs.Moments.{Standing, standing};
ghost use Rattle.dr_laws_closed.specs.Closing.{Closing};
ghost use Rattle.dr_laws_closed.specs.Silent.{AllStill, Silent};
ghost use Rattle.dr_laws_closed.specs.Regroups.{Regroups};
ghost use Rattle.dr_laws_targets.specs.Committeds.{committeds, next_committed};
ghost use Rattle.dr_laws_targets.specs.Counted.{CountedIn, TargetsShowCuts};
ghost use Rattle.dr_laws_targets.specs.Example.{finished, parted, restored};

/// Who stands in the group of a number does so by a place of the journal, and who stands committed too; the latter goes along with the
/// moves: a commit lets a primary join, and what takes the target out of the session takes it out.
pub fn groups_and_commits_are_those_of_places()
    ensures in_group { (events : List Event) (s n a : ℕ) → standing events s n a ≡ true → InGroup events s n a }
    ensures found { (events : List Event) (s n a : ℕ) → committeds events s n a ≡ true → StandsCommitted events s n a }
    ensures stands { (events : List Event) (s n a : ℕ) → StandsCommitted events s n a → committeds events s n a ≡ true }
    ensures told { (events : List Event) (m : Move) (u : Volume) → committeds (events ++ told m u) ≡ next_committed m u (committeds events) }
{}

/// Each write that a volume's lists have was acknowledged, or a Metro Mirror secondary stored it. And a write that was acknowledged stands
/// in the list of its volume and track, unless that was given another list since.
pub fn lists_have_what_was_acknowledged()
    ensures stored { (events : List Event) (u v t : ℕ) → In u (lists events v t) → In (Ack u) events ⊎ IsMirrored events u }
    ensures kept { (events : List Event) (u v t : ℕ) → WasAcknowledged events u v t → In u (lists events v t) ⊎ WasReplaced events u v t }
{}

/// Before the first step each target that counts shows its cut. In a sound world, whose cuts are closed, they go on to do so in a move
/// that may come, and in the first hold of an attempt, whether it is done or its server stops in it and it counts as done.
pub fn moves_keep_what_targets_show()
    ensures nothing { TargetsShowCuts nothing }
    ensures done { (starts : Option ℕ) (w x : World) (m : Move) → SoundBut starts w → SoundCuts w → Closing w → TargetsShowCuts w → May w m → MovedTo w x m → x.control.sessions ≡ w.control.sessions →
        x.events ≡ w.events ++ told m (w.control.volume (target m)) → TargetsShowCuts x }
    ensures stopped { (starts : Option ℕ) (w x : World) (m : Move) (more : List Event) → SoundBut starts w → SoundCuts w → Closing w → TargetsShowCuts w → May w m → MovedTo w x m → x.control.sessions ≡ w.control.sessions →
        Silent more → x.events ≡ w.events ++ (told_in_stop m (w.control.volume (target m)) ++ more) → TargetsShowCuts x }
    ensures opened { (starts : Option ℕ) (w x : World) (v s n : ℕ) → SoundBut starts w → SoundCuts w → Closing w → TargetsShowCuts w → MayOpen w v s n → MovedTo w x (Hold v s n true) → x.control.sessions ≡ changed s begun w.control.sessions →
        x.events ≡ w.events ++ told (Hold v s n true) (w.control.volume v) → TargetsShowCuts x }
    ensures opened_in_stop { (starts : Option ℕ) (w x : World) (v s n : ℕ) (more : List Event) → SoundBut starts w → SoundCuts w → Closing w → TargetsShowCuts w → MayOpen w v s n → MovedTo w x (Hold v s n true) → x.control.sessions ≡ changed s begun w.control.sessions →
        Silent more → x.events ≡ w.events ++ (told_in_stop (Hold v s n true) (w.control.volume v) ++ more) → TargetsShowCuts x }
{}

/// So they do where events are told of which no cut and no group hears and by which the writes and the rows stay, where a write is issued,
/// where a volume is defined, where members stay in their session's attempt or their session is Idle, and where an attempt begins.
pub fn what_moves_nothing_keeps_what_targets_show()
    ensures told { (w x : World) (more : List Event) → TargetsShowCuts w → NoCuts more → AllStill more → x.events ≡ w.events ++ more → (histories x.events).write ≡ (histories w.events).write → table x ≡ table w → x.control.sessions ≡ w.control.sessions → TargetsShowCuts x }
    ensures issued { (w x : World) (v t offset len : ℕ) (bytes : List ℕ) → SoundCuts w → TargetsShowCuts w → x.events ≡ w.events ++ Issue (w.control.issued + 1) v t offset len bytes ∷ [] → table x ≡ table w → x.control.sessions ≡ w.control.sessions → TargetsShowCuts x }
    ensures defined { (w x : World) (more : List Event) (v : ℕ) (y : Row) → TargetsShowCuts w → Groups w.control → NoCuts more → AllStill more → x.events ≡ w.events ++ more → (histories x.events).write ≡ (histories w.events).write →
        is_volume w.control v ≡ false → y.volume.fields ≡ no_fields → table x ≡ at (table w) v y → x.control.sessions ≡ w.control.sessions → TargetsShowCuts x }
    ensures regrouped { (write : ℕ → Write) (k : Control) (us : List Session) (later : Flight) (T : Table) (c : Cuts) (g l : Standing) → ((v : ℕ) → fields T v ≡ fields_at k v) → Groups k → Attempts k → Groups (record k { sessions = us; flight = later }) → Attempts (record k { sessions = us; flight = later }) →
        Regroups k.sessions us → CountedIn write k.sessions T c g l → CountedIn write us T c g l }
    ensures begun { (write : ℕ → Write) (k : Control) (T : Table) (c : Cuts) (g l : Standing) (s : ℕ) → Groups k → CountedIn write k.sessions T c g l → CountedIn write (changed s begun k.sessions) T c g l }
{}

/// An example: once the target of one of two primaries is committed, its attempt is the session's newest group, though the other isn't
/// committed; and when that target leaves, the session has none. A write that was acknowledged, and whose track a restore then gave
/// another list, was replaced, and isn't held.
pub fn an_example_has_a_newest_group()
    ensures newest { NewestGroup finished 7 1 }
    ensures parted { (n : ℕ) → NewestGroup parted 7 n → ⊥ }
    ensures acknowledged { WasAcknowledged restored 1 1 0 }
    ensures replaced { WasReplaced restored 1 1 0 }
    ensures gone { In 1 (lists restored 1 0) → ⊥ }
{}
