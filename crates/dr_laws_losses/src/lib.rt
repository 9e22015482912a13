//! What a recovery under Global Mirror loses: a law over every script and every stop. Its functions do nothing: each names a law by its contract.
#![tactic(auto)]

ghost use Rattle.std.specs.Prelude.{◌≡◌, ◌++◌, ◌∷◌, [], ℕ, true, List};
ghost use Rattle.dr_ids.specs.declared.names.Member.{Member};
ghost use Rattle.dr_ids.specs.declared.refusal.Decision.TheVariants.{Nothing};
ghost use Rattle.dr_model.specs.declared.said.Addition.TheVariants.{InGroup};
ghost use Rattle.dr_model.specs.declared.said.Said.TheVariants.{Done};
ghost use Rattle.dr_model.specs.Control.{nothing};
ghost use Rattle.dr_model.specs.Cuts.{cuts};
ghost use Rattle.dr_model.specs.SessionEntries.{counts_at};
ghost use Rattle.dr_laws_sound.specs.Acknowledged.{said_in};
ghost use Rattle.dr_ids.specs.Sizes.{most_tracks};
ghost use Rattle.dr_model.specs.Histories.{lists};
ghost use Rattle.dr_model.specs.Runs.{Task, run};
ghost use Rattle.dr_lost.specs.declared.lost.Pair.{Pair};
ghost use Rattle.dr_lost.specs.Lost.{IsLost};
ghost use Rattle.dr_laws_losses.specs.Losses.{members_of, RecoversTargets, PrimariesKeep, LossIsKnown};
ghost use Rattle.dr_laws_losses.specs.Pairs.{PairsHoldSame, PairsComeFirst};
ghost use Rattle.dr_laws_losses.specs.Example.{before, uncopied, recover, member, pairs};

/// What is lost where the targets of members of a session are used in place of their primaries. Of a run and its recovery: a step of that recovers the session and is
/// answered with a group; these members count then, all that the session has or a part of them; the pairs are their targets; at the end of the run the lists of these
/// targets are as they were then; and each pair that was made without a copy was made of volumes that held the same writes. Then the lost writes are exactly those that a primary held
/// as the recovery began and that its cut for the group hasn't. No write that is kept depends on a lost one, but on one that was given back: one that was acknowledged
/// before the last cut of the group, although the track of the primary that held it as the recovery began didn't hold it there. And none is given back if no step after
/// the first host write may take writes away from one of these primaries.
pub fn the_loss_of_a_recovery_is_known()
    ensures { (before recovery : List Task) (s n : ℕ) (ms : List Member) (pairs : List Pair) (r : RecoversTargets before recovery s n ms pairs) → LossIsKnown before recovery s n ms pairs r }
{}

/// Each pair of a run that was made without a copy was made of volumes that held the same writes, if it was made before the first host write.
pub fn pairs_before_the_first_write_hold_the_same()
    ensures { (tasks : List Task) → PairsComeFirst tasks → PairsHoldSame nothing tasks }
{}

/// An example: a recovery that meets all this, of a primary that keeps its writes. What it loses is the write that came after its group.
pub fn an_example_loses_a_write()
    ensures meets { RecoversTargets before (recover ∷ []) 1 1 (member ∷ []) pairs }
    ensures keeps { PrimariesKeep (before ++ recover ∷ []) (member ∷ []) }
    ensures holds { lists (run before).events 256 0 ≡ 1 ∷ [] }
    ensures loses { IsLost most_tracks (lists (run before).events) (lists (run (before ++ recover ∷ [])).events) pairs 1 }
{}

/// Another one: before the pair is made without a copy, a byte is written that was there already. So both volumes contain the same, and don't hold the same writes. Its recovery is
/// answered with group 1, all members count, and the pair is the one target; the write is in the cut of group 1, and lost.
pub fn an_example_loses_a_write_of_its_cut()
    ensures answers { said_in (run uncopied) recover ≡ Done (InGroup 1 (Nothing 1)) }
    ensures members { members_of (run (uncopied ++ recover ∷ [])) 1 ≡ member ∷ [] }
    ensures counts { counts_at 1 (run (uncopied ++ recover ∷ [])).control member ≡ true }
    ensures loses { IsLost most_tracks (lists (run uncopied).events) (lists (run (uncopied ++ recover ∷ [])).events) pairs 1 }
    ensures cut { (cuts (run (uncopied ++ recover ∷ [])).events).held 1 256 0 ≡ 1 ∷ [] }
{}
