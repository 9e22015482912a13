//! Laws on cuts and seals, about the machine of `dr_model`: what a primary held as it was held for an attempt, and what its
//! secondary holds once it is sealed. Its functions do nothing: each names a law by its contract.
#![tactic(auto)]

ghost use Rattle.std.specs.Prelude.{◌≡◌, ◌+◌, ◌++◌, ℕ, Bool, List, [], ◌∷◌, Option, Some, None, true, false};
ghost use Rattle.dr_logic.specs.Tables.{at};
ghost use Rattle.dr_ids.specs.declared.refusal.Refusal.{Refusal};
ghost use Rattle.dr_model.specs.declared.event.Event.{Event};
ghost use Rattle.dr_model.specs.declared.event.Event.TheVariants.{Issue};
ghost use Rattle.dr_model.specs.Layout.{no_fields};
ghost use Rattle.dr_model.specs.Histories.{Lists, Write, histories, lists};
ghost use Rattle.dr_model.specs.Control.{Volume, World, nothing};
ghost use Rattle.dr_model.specs.Moves.{Move, Hold, told, told_in_stop};
ghost use Rattle.dr_model.specs.Table.{Row, Table, table};
ghost use Rattle.dr_model.specs.ReadStops.{Ends};
ghost use Rattle.dr_model.specs.Rows.{after};
ghost use Rattle.dr_model.specs.SessionEntries.{is_drained, seal_entries};
ghost use Rattle.dr_model.specs.Laws.{SoundRows, SoundBut, Below};
ghost use Rattle.dr_model.specs.Allowed.{Allowed, May, MayOpen};
ghost use Rattle.dr_model.specs.Cuts.{Cuts, CutLaws, IsCalm, CutAt, SealsHold, no_cuts, past, cuts, next_cuts};
ghost use Rattle.dr_laws_cuts.specs.Once.{CutOnce, NoCuts, HoldsNew, LastCutAt};
ghost use Rattle.dr_laws_cuts.specs.Sent.{SendsTo, CutsHold, SealedFor};
ghost use Rattle.dr_laws_cuts.specs.Sound.{CutsBelow, CutsDefined, SoundCuts, HeldDefined, MovedTo, SameRow};

/// Each kind of move keeps the laws on cuts, where it is allowed: a primary that records was cut for its attempt and for none
/// that is greater; what it still has to send is as at that cut, and of every other track its secondary is; and a secondary that
/// is sealed for a number holds the cut of that number.
pub fn each_kind_of_move_keeps_the_cuts()
    ensures { (write : ℕ → Write) (T : Table) (c : Cuts) (now : Lists) (m : Move) →
        CutLaws write c T → SoundRows T → Allowed write T m → IsCalm write now T m → CutLaws write (next_cuts now m c) (after write T m) }
{}

/// The cuts of a journal go along with the moves: a hold makes one, and nothing else does, also where a server stops in it.
/// The histories beside them are the journal's.
pub fn holds_alone_cut()
    ensures history { (events : List Event) → (past events).history ≡ histories events }
    ensures done { (events : List Event) (m : Move) (u : Volume) → cuts (events ++ told m u) ≡ next_cuts (lists events) m (cuts events) }
    ensures stopped { (events more : List Event) (m : Move) (u : Volume) → NoCuts more → cuts (events ++ (told_in_stop m u ++ more)) ≡ next_cuts (lists events) m (cuts events) }
    ensures quiet { (events more : List Event) → NoCuts more → cuts (events ++ more) ≡ cuts events }
{}

/// Where a cut is told of, a place of the journal makes it, and what is held of it are the lists of that place; and where no
/// volume is cut twice for one number, there is one such place. It stays so where each hold is the first of its volume for its
/// number, as each hold is that is allowed.
pub fn cuts_have_one_place()
    ensures found { (n a : ℕ) (events : List Event) (s : ℕ) → (cuts events).by n a ≡ Some s → LastCutAt events s n a }
    ensures one { (events : List Event) → CutOnce events → (n a s z : ℕ) (place : CutAt events s n a) (other : CutAt events z n a) → other.before ≡ place.before }
    ensures done { (events : List Event) (m : Move) (u : Volume) → CutOnce events → HoldsNew (cuts events) m → CutOnce (events ++ told m u) }
    ensures new { (write : ℕ → Write) (T : Table) (c : Cuts) (m : Move) → CutLaws write c T → SoundRows T → Allowed write T m → HoldsNew c m }
{}

/// In a world whose cuts are sound, each sealed secondary contains on every track what the host writes make that its primary held
/// at the one cut of that number.
pub fn seals_hold()
    ensures { (w : World) → SoundRows (table w) → SoundCuts w → SealsHold w }
{}

/// In a world whose cuts are sound, each secondary contains of the cut of its primary what was sent of it while the primary
/// records, and all of it where it is sealed. A seal keeps that so, however its entries end, also where servers stop in it; and
/// where nothing was left to send and it isn't refused, the secondary is sealed for the attempt and holds its cut.
pub fn seals_leave_the_cut()
    ensures sound { (w : World) → SoundRows (table w) → SoundCuts w → CutsHold w }
    ensures kept { (w u : World) (s a b n : ℕ) (armed : ℕ → Bool) (r : Option Refusal) → CutsHold w → SendsTo w a b → Ends armed u r w (seal_entries s a b n) → CutsHold u }
    ensures sealed { (w u : World) (s a b n : ℕ) (armed : ℕ → Bool) → CutsHold w → SendsTo w a b → Ends armed u None w (seal_entries s a b n) → is_drained a w.control ≡ true → SealedFor u b a n }
{}

/// A write that is issued later changes no law on cuts: the lists that are held at cuts have only numbers of writes that were
/// issued, as the lists of volumes do. Nor does it matter what tracks contain, but for what is due.
pub fn later_writes_leave_cuts()
    ensures issue { (write : ℕ → Write) (n : ℕ) (x : Write) (c : Cuts) (T : Table) → CutsBelow n c → CutLaws write c T → CutLaws (at write n x) c T }
    ensures numbers { (n : ℕ) (c : Cuts) (now : Lists) (m : Move) → ((v t : ℕ) → Below n (now v t)) → CutsBelow n c → CutsBelow n (next_cuts now m c) }
    ensures rows { (write : ℕ → Write) (c : Cuts) (T U : Table) → ((v : ℕ) → SameRow (T v) (U v)) → CutLaws write c T → CutLaws write c U }
{}

/// The laws hold of new volumes before the first cut; a volume that is newly defined keeps them; and a volume that was cut is
/// defined from then on.
pub fn new_volumes_keep_the_cuts()
    ensures start { (write : ℕ → Write) (T : Table) → ((v : ℕ) → (T v).volume.fields ≡ no_fields) → CutLaws write no_cuts T }
    ensures defined { (write : ℕ → Write) (c : Cuts) (T : Table) (v : ℕ) (y : Row) → SoundRows T → CutsDefined c T → (T v).defined ≡ false → y.volume.fields ≡ no_fields → CutLaws write c T → CutLaws write c (at T v y) }
    ensures stays { (write : ℕ → Write) (c : Cuts) (T : Table) (now : Lists) (m : Move) → HeldDefined T m → CutsDefined c T → CutsDefined (next_cuts now m c) (after write T m) }
{}

/// Before the first step the cuts are sound; and in a sound world they stay so in a move that may come, and in the first hold of an
/// attempt, whether it is done or its server stops in it and it counts as done; in whatever tells of no cut and leaves the table
/// of volumes, such as a host write that is issued; and where a volume is defined.
pub fn cuts_stay_sound()
    ensures nothing { SoundCuts nothing }
    ensures done { (starts : Option ℕ) (w x : World) (u : Volume) (m : Move) → SoundBut starts w → SoundCuts w → May w m → MovedTo w x m → x.events ≡ w.events ++ told m u → SoundCuts x }
    ensures stopped { (starts : Option ℕ) (w x : World) (u : Volume) (m : Move) (more : List Event) → SoundBut starts w → SoundCuts w → May w m → MovedTo w x m →
        NoCuts more → x.events ≡ w.events ++ (told_in_stop m u ++ more) → SoundCuts x }
    ensures opened { (starts : Option ℕ) (w x : World) (u : Volume) (v s n : ℕ) → SoundBut starts w → SoundCuts w → MayOpen w v s n → MovedTo w x (Hold v s n true) →
        x.events ≡ w.events ++ told (Hold v s n true) u → SoundCuts x }
    ensures opened_in_stop { (starts : Option ℕ) (w x : World) (u : Volume) (v s n : ℕ) (more : List Event) → SoundBut starts w → SoundCuts w → MayOpen w v s n → MovedTo w x (Hold v s n true) →
        NoCuts more → x.events ≡ w.events ++ (told_in_stop (Hold v s n true) u ++ more) → SoundCuts x }
    ensures told { (w x : World) (more : List Event) → SoundCuts w → NoCuts more → x.events ≡ w.events ++ more → (histories x.events).write ≡ (histories w.events).write →
        x.control.issued ≡ w.control.issued → table x ≡ table w → SoundCuts x }
    ensures issued { (w x : World) (v t offset len : ℕ) (bytes : List ℕ) → SoundCuts w → x.events ≡ w.events ++ Issue (w.control.issued + 1) v t offset len bytes ∷ [] →
        x.control.issued ≡ w.control.issued + 1 → table x ≡ table w → SoundCuts x }
    ensures defined { (w x : World) (more : List Event) (v : ℕ) (y : Row) → SoundRows (table w) → SoundCuts w → NoCuts more → x.events ≡ w.events ++ more →
        (histories x.events).write ≡ (histories w.events).write → x.control.issued ≡ w.control.issued →
        (table w v).defined ≡ false → y.volume.fields ≡ no_fields → y.defined ≡ true → table x ≡ at (table w) v y → SoundCuts x }
{}
