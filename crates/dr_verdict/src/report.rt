//! What the runner prints.

ghost use Rattle.std.specs.Prelude.{◌≡◌, ◌++◌, IfOk, string_bytes, codes, decimal, option_map};
ghost use Rattle.dr_verdict.specs.Report.{line_of};

use crate::verdict::{Tally, Verdict};
use std::alloc::{AllocError, Global};

/// The line that says where a scenario differs, without its end; none where it agrees.
pub fn difference(alloc: Global, name: &str, verdict: Verdict) -> Result<Option<String>, AllocError>
    ensures { IfOk result (λ line. option_map string_bytes line ≡ line_of name.now verdict) }
{
    Ok(match verdict {
        Verdict::Agrees => None,
        Verdict::LineDiffers { line } => {
            Some(format!(in alloc; "{name}: line {line} of the output differs")?)
        }
        Verdict::StatusDiffers { wanted, found } => {
            Some(format!(in alloc; "{name}: status {found} and not {wanted}")?)
        }
    })
}

/// The last line: how many scenarios agree and how many differ.
pub fn counts(alloc: Global, tally: Tally) -> Result<String, AllocError>
    ensures { IfOk result (λ line. string_bytes line ≡ decimal tally.agree ++ (codes " agree, " ++ (decimal tally.differ ++ codes " differ"))) }
{
    let Tally { agree, differ } = tally;
    format!(in alloc; "{agree} agree, {differ} differ")
}
