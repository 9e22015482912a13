ghost use Rattle.std.specs.Prelude.{◌≡◌, ◌≤◌, length};
ghost use Rattle.dr_model.specs.Decisions.{decision, decided, shown_by};
ghost use Rattle.dr_decide.specs.Seen.{numbers_seen};

use crate::numbers::Numbers;
use dr_ids::Decision;

/// What recovery decides over members whose sequence numbers are `seqs`, in order, and of which those
/// are revertible whose flag is true.
///
/// Members of one number are reverted where all are revertible, and the revertible ones committed
/// where some are. Revertible members of one number beside others of another number are reverted. All
/// else is impossible: two numbers that differ then say so, of the others where theirs differ.
#[tactic(auto, unfolding(dr_model::specs::Decisions::decision))]
pub fn decide(seqs: &[u32], revertible: &[bool]) -> Decision
    requires equal { length seqs.now ≡ length revertible.now }
    requires few { length seqs.now ≤ 64 }
    ensures { result ≡ decision (shown_by seqs.now revertible.now) }
{
    let mut revertibles = Numbers::NoNumber;
    let mut others = Numbers::NoNumber;
    for (n, flag) in seqs.iter().zip(revertible) {
        if *flag {
            revertibles = revertibles.with(*n);
        } else {
            others = others.with(*n);
        }
    }
    decided(revertibles, others)
}

// The decision by the numbers of the revertible members and those of the others.
#[tactic(auto, unfolding(dr_model::specs::Decisions::decided))]
fn decided(revertibles: Numbers, others: Numbers) -> Decision
    ensures { result ≡ decided (numbers_seen revertibles) (numbers_seen others) }
{
    match (revertibles, others) {
        (_, Numbers::Differ(a, b)) => Decision::Impossible(a, b),
        (Numbers::Differ(a, b), Numbers::NoNumber | Numbers::Same(_)) => Decision::Impossible(a, b),
        (Numbers::NoNumber, Numbers::NoNumber) => Decision::NoMember,
        (Numbers::NoNumber, Numbers::Same(n)) => Decision::Nothing(n),
        (Numbers::Same(n), Numbers::NoNumber) => Decision::RevertAll(n),
        (Numbers::Same(n), Numbers::Same(m)) if n == m => Decision::CommitRest(n),
        (Numbers::Same(n), Numbers::Same(m)) => Decision::RevertSome(m, n),
    }
}
