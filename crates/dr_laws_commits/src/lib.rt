//! Laws on what commits, about the machine of `dr_model`, over every script and every stop: a number is committed only where each member of
//! its session was flashed with it, by the journal. Its functions do nothing: each names a law by its contract.
#![tactic(auto)]

ghost use Rattle.std.specs.Prelude.{List};
ghost use Rattle.dr_model.specs.Runs.{Task};
ghost use Rattle.dr_laws_commits.specs.Commits.{CommitsAreOfFlashed};

/// While the master of a session commits, by the journal each member of the session was flashed with the session's last number since its last
/// attempt began: wherever a run ends, and where each plan of a further step begins. So it was where the order that a master has for a server,
/// by an exchange or by a send, is one to commit, and that number is the order's; a send puts no other such order into flight; and where one is
/// in flight, each was, as long as a member's target can go back. And wherever a step commits a target, by such an order, in a recovery or by
/// hand, each member of its session was flashed with the number.
pub fn commits_are_of_flashed_members()
    ensures { (tasks : List Task) → CommitsAreOfFlashed tasks }
{}
