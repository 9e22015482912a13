//! Laws on runs and on `@run`: an `@run` is its drains and exchanges, carried out as lines, and lines can say the names of servers. Its functions do nothing: each
//! names a law by its contract.
#![tactic(auto)]

ghost use Rattle.std.specs.Prelude.{ℕ, List};
ghost use Rattle.dr_model.specs.Control.{World};
ghost use Rattle.dr_model.specs.Runs.{Task};
ghost use Rattle.dr_laws_runs.specs.Parts.{PartsAreAnswered, RunIsItsParts};
ghost use Rattle.dr_laws_runs.specs.ServerNames.{NamesAreSaid};

/// Steps that ask for the drains and exchanges of an `@run`, one by one, lead to the control state and the contents to which the `@run` leads, whatever numbers their
/// lines have, if the journal has room for each. The journal tells the same, with the answers of the parts.
pub fn a_run_is_its_parts()
    ensures { (w : World) (s n : ℕ) (ts : List Task) → RunIsItsParts w s n ts }
{}

/// Of the drains and exchanges of an `@run` each but the last is ok. The last is answered as the `@run` is, but in two cases, in which it is ok: nobody is left to
/// ask, so the `@run` is out of order; or the journal is full.
pub fn parts_of_a_run_are_ok()
    ensures { (w : World) (s n : ℕ) → PartsAreAnswered w s n }
{}

/// Where lines can say all steps of a run, a line can say the name of each server that it defined. A word with the bytes of that name is read as it.
pub fn a_line_can_say_each_server()
    ensures { (tasks : List Task) → NamesAreSaid tasks }
{}
