//! Laws on freezes and on Metro Mirror pairs, over every script and every stop: at each moment of a sound freeze window the secondaries of its
//! pairs hold one cut of the host's writes; a frozen primary takes no write; a Full Duplex one is in sync. Its functions do nothing: each
//! names a law by its contract.
#![tactic(auto)]

ghost use Rattle.std.specs.Prelude.{◌≡◌, ℕ, List, [], ◌∷◌, true, false, Ok};
ghost use Rattle.dr_model.specs.declared.step.Devs.{Devs};
ghost use Rattle.dr_model.specs.declared.step.Step.TheVariants as step;
ghost use Rattle.dr_model.specs.Control.{World};
ghost use Rattle.dr_model.specs.Plans.{step_plan};
ghost use Rattle.dr_model.specs.Runs.{Task, after_plan, run};
ghost use Rattle.dr_model.specs.Laws.{Sound};
ghost use Rattle.dr_laws_freezes.specs.Windows.{FreezeCut};
ghost use Rattle.dr_laws_freezes.specs.InSync.{DuplexInSync};
ghost use Rattle.dr_laws_freezes.specs.Secondaries.{NoneIsLacking};
ghost use Rattle.dr_laws_freezes.specs.Frozen.{FreezesHold, lets_go};
ghost use Rattle.dr_laws_freezes.specs.Example.{frozen_pair, no_names, LacksNoneWith};

/// At the end of a sound freeze window of a run, the secondaries of the set hold one moment of the host's writes: each track of
/// each contains what the writes make that its primary holds then, and the last write that it stored where that wasn't
/// acknowledged. A primary holds what it held as the window began, and every write that was acknowledged on it since, in that
/// order. So no secondary lacks a write on which another write depends that one of them holds. A window is a stretch of
/// moments at which each primary that was Full Duplex and in sync at its begin stays so, or is Suspended and long busy.
pub fn freezes_leave_one_cut()
    ensures { (tasks : List Task) → FreezeCut tasks }
{}

/// A thaw changes no track, whatever it answers, and wherever a server stops in it.
pub fn thaws_change_no_track()
    ensures { (w : World) (line : ℕ) (devs : Devs) (l m v t : ℕ) → Sound w → (after_plan w line (step_plan w.control w.events line (step.Unfreeze devs l m))).contents v t ≡ w.contents v t }
{}

/// After a freeze that isn't refused no host write lands on a primary between its two subsystems, acknowledged or in a stop, until a step
/// lets that primary go: one that thaws the pairs between the two subsystems, that makes its pair go on or ends it, or that ends the holds
/// of its server. The primary stays long busy till then, also over a stop of its server and the start behind it.
pub fn no_write_lands_after_a_freeze()
    ensures { (tasks : List Task) → FreezesHold tasks }
{}

/// As each step of a run begins, and at its end, a Metro Mirror primary that is Full Duplex has no track out of sync where its
/// server runs; and no Metro Mirror primary records what changes.
pub fn full_duplex_primaries_are_in_sync()
    ensures { (tasks : List Task) → DuplexInSync tasks }
{}

/// An example of who lets a frozen primary go: a thaw between its two logical subsystems, but none of other ones; what makes its pair go on,
/// but not what pauses it; what ends the pair; and no host write and no recovery.
pub fn an_example_lets_a_primary_go()
    ensures thaws { lets_go frozen_pair (Ok (step.Unfreeze no_names 16 32)) 4096 ≡ true }
    ensures thaws_others { lets_go frozen_pair (Ok (step.Unfreeze no_names 16 33)) 4096 ≡ false }
    ensures resumes_other { lets_go frozen_pair (Ok (step.ResumePair no_names 4097 8192 1)) 4096 ≡ false }
    ensures resumes { lets_go frozen_pair (Ok (step.ResumePair no_names 4096 8192 1)) 4096 ≡ true }
    ensures pauses { lets_go frozen_pair (Ok (step.PausePair no_names 4096 8192)) 4096 ≡ false }
    ensures ends { lets_go frozen_pair (Ok (step.RemovePair no_names 4096 8192 true)) 4096 ≡ true }
    ensures applies { lets_go frozen_pair (Ok (step.Apply 1)) 4096 ≡ false }
    ensures recovers { lets_go frozen_pair (Ok (step.Recover 1)) 4096 ≡ false }
{}

/// At each moment of a run, whether or not any server runs, the secondary of a Metro Mirror primary that is Full Duplex lacks no host write of
/// its primary: each of its tracks contains what the writes make that the primary holds by the journal, in their order. On at most one track
/// one write more comes after them, which is pending on the primary, and not acknowledged.
pub fn secondaries_lack_no_write()
    ensures { (tasks : List Task) → NoneIsLacking tasks }
{}

/// An example of what a secondary may contain where its Full Duplex primary is lost, whose server is off: what was acknowledged; or that and one
/// write in flight, on whichever track; but neither less, nor a write more that is pending no longer, nor two writes more on two tracks.
pub fn an_example_of_a_lost_site()
    ensures even { LacksNoneWith (1 ∷ []) [] }
    ensures ahead { LacksNoneWith (1 ∷ 2 ∷ []) [] }
    ensures on_another { LacksNoneWith (1 ∷ []) (3 ∷ []) }
    ensures less { LacksNoneWith [] [] → ⊥ }
    ensures dropped { LacksNoneWith (1 ∷ 4 ∷ []) [] → ⊥ }
    ensures two { LacksNoneWith (1 ∷ 2 ∷ []) (3 ∷ []) → ⊥ }
{}
