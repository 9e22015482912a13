//! Laws on what steps answer: that it is so, by the records on the devices, or by what the step has done. Its functions do nothing: each names a law
//! by its contract.
#![tactic(auto)]

ghost use Rattle.std.specs.Prelude.{◌≡◌, ℕ, Bool, true, false, List, [], ◌∷◌, ◌++◌, Option, map, codes};
ghost use Rattle.dr_model.specs.declared.event.Event.TheVariants.{PairLine};
ghost use Rattle.dr_model.specs.declared.said.Addition.TheVariants.{Alone, Counted};
ghost use Rattle.dr_model.specs.declared.said.Said.TheVariants.{Done};
ghost use Rattle.dr_model.specs.Answers.{answer};
ghost use Rattle.dr_model.specs.Layout.{Blocks};
ghost use Rattle.dr_model.specs.Control.{Fuse};
ghost use Rattle.dr_model.specs.Fits.{Fits};
ghost use Rattle.dr_model.specs.Runs.{Task, after_task, run};
ghost use Rattle.dr_model.specs.Text.{numbered};
ghost use Rattle.dr_laws_sound.specs.Acknowledged.{said_in};
ghost use Rattle.dr_laws_recovery.specs.Decided.{record_on};
ghost use Rattle.dr_laws_answers.specs.Listing.{pair_lines, ListsDevices};
ghost use Rattle.dr_laws_answers.specs.Holds.{holds, HoldsEnd};
ghost use Rattle.dr_laws_answers.specs.Settings.{StepsSet};
ghost use Rattle.dr_laws_answers.specs.Counts.{CountsAreOfSteps};
ghost use Rattle.dr_laws_answers.specs.Example.{paired, lists, listed_pair, frozen_pair, thaws, cuts, arms, destages};

/// What is listed is on the devices. If the last step of a run lists pairs, FlashCopy relationships, members or masters, and isn't refused, it prints
/// the lines that the records on the devices give, by the table of sessions, in their order and no other. No server need be on.
pub fn listings_are_of_the_devices()
    ensures { (tasks : List Task) (on : ℕ → Bool) (fuse : ℕ → Option Fuse) (device : ℕ → Blocks) → Fits (run tasks) on fuse device → ListsDevices tasks device }
{}

/// An example of a listing: one run ends with that of a pair, and this is what the law gives of it. 2000 is the Global Copy secondary of 1000, and the
/// host has written an a on track 1 of 1000, which isn't sent. The listing of 1000 is answered ok. So by the law its one line is what the record on the
/// device of 1000 says: the pair is in Copy Pending, and one track is unsent.
pub fn an_example_of_a_listing()
    ensures says { said_in (run paired) lists ≡ Done Alone }
    ensures tells { (run listed_pair).events ≡ ((run paired).events ++ PairLine 1 4096 8192 0 2 1 ∷ []) ++ answer 1 (Done Alone) ∷ [] }
    ensures prints { (on : ℕ → Bool) (fuse : ℕ → Option Fuse) (device : ℕ → Blocks) → Fits (run listed_pair) on fuse device
        → map (numbered 1) (pair_lines 4096 (record_on (run listed_pair) device 4096)) ≡ codes "1 1000:2000 Copy Pending Global Copy 1\n" ∷ [] }
{}

/// What lets go lets go. After an `unfreezepprc` that is answered ok, no primary between the two logical subsystems whose server runs is long busy; after
/// an `unfreezeflash`, no volume of the logical subsystem whose server runs has a flash hold; after an `@expire`, no volume of the server is held in any
/// way. Every other hold of every volume is as before: of the volumes that the step doesn't name all three, and of those that it names, except after an
/// `@expire`, the other two.
pub fn holds_end_as_named()
    ensures { (tasks : List Task) → HoldsEnd tasks }
{}

/// Links and fuses. After a `@link` that is answered ok, the link between both servers is up or down as the line says, in both directions, and every other
/// link is as before. After a `@stop` of a server, it is off, and no other server and no fuse has changed. After a `@stop .. after ..`, the fuse of the
/// server has that many writes and these bytes, every other fuse is as before, and so is which servers are on.
pub fn links_and_fuses_are_set()
    ensures { (tasks : List Task) → StepsSet tasks }
{}

/// Counts are of what was done. If a drain of a volume is answered ok, its answer is `ok K`, and in the step K events were told that the volume sent a
/// track. So it is of a copy of a target, by the events that it took a track of its source, or, if it is restored, that its source took a track back
/// from it. The answer of a destage is `ok 1` if a track was staged on the volume, and else `ok 0`, and none is staged after it.
pub fn counts_are_of_what_was_done()
    ensures { (tasks : List Task) → CountsAreOfSteps tasks }
{}

/// An example of steps that are answered ok, of which these laws speak. After a freeze 1000 is long busy; a thaw is answered ok, and so, by the law, it is
/// long busy no more. In the example of a listing, before it, `@link A B down` and `@stop A after 3 torn 01` are answered ok, and `@destage 1000` is
/// answered `ok 1`, since the track that was written is staged.
pub fn an_example_of_answers()
    ensures thaws { said_in (run frozen_pair) thaws ≡ Done Alone }
    ensures busy { (holds (run frozen_pair).control 4096).long_busy ≡ true }
    ensures thawed { (holds (after_task (run frozen_pair) thaws).control 4096).long_busy ≡ false }
    ensures cuts { said_in (run paired) cuts ≡ Done Alone }
    ensures arms { said_in (run paired) arms ≡ Done Alone }
    ensures destages { said_in (run paired) destages ≡ Done (Counted 1) }
{}
