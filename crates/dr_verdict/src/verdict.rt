//! What a run comes to, and whether that is what is stored.

ghost use Rattle.std.specs.Prelude.{◌≡◌, ◌+◌, count_by, length};
ghost use Rattle.dr_verdict.specs.Verdict.{IsVerdict, is_agreement, code_of};

use crate::texts::differing_line;

/// What a script printed, and the status with which its run ended.
#[derive(Drop)]
pub struct Outcome {
    pub printed: Vec<u8>,
    pub status: u8,
}

/// What a scenario's run is worth.
#[derive(Clone, Copy)]
pub enum Verdict {
    /// Output and status are as stored.
    Agrees,
    /// This line of the output is the first that isn't as stored.
    LineDiffers { line: usize },
    /// The output is as stored, and the status is not.
    StatusDiffers { wanted: u8, found: u8 },
}

/// Compares what a run came to with what is stored.
pub fn judge(wanted: &Outcome, found: &Outcome) -> Verdict
    ensures { IsVerdict wanted.now found.now result }
{
    match differing_line(&wanted.printed, &found.printed) {
        Some(line) => Verdict::LineDiffers { line },
        None if found.status != wanted.status => Verdict::StatusDiffers {
            wanted: wanted.status,
            found: found.status,
        },
        None => Verdict::Agrees,
    }
}

fn is_agreement(verdict: &Verdict) -> bool
    ensures { result ≡ is_agreement verdict.now }
{
    matches!(verdict, Verdict::Agrees)
}

/// How many scenarios agree, and how many differ.
#[derive(Clone, Copy)]
pub struct Tally {
    pub agree: usize,
    pub differ: usize,
}

impl Tally {
    /// Counts these verdicts.
    pub fn of(verdicts: &[Verdict]) -> Tally
        ensures agree { result.agree ≡ count_by is_agreement verdicts.now }
        ensures all { result.agree + result.differ ≡ length verdicts.now }
    {
        let agree = verdicts
            .iter()
            .filter(|verdict| is_agreement(verdict))
            .count();
        Tally {
            agree,
            differ: verdicts.len() - agree,
        }
    }

    /// The status with which the runner ends: 0 where nothing differs, and else 1.
    pub fn code(self) -> u8
        ensures { result ≡ code_of self.differ }
    {
        if self.differ == 0 { 0 } else { 1 }
    }
}
