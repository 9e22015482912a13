//! The order in which the lines of a plan's own stand.

ghost use Rattle.std.specs.Prelude.{◌≡◌};
ghost use Rattle.dr_plan.specs.Reading.{stage_after, announces, lacking};

use crate::marks::Mark;
use crate::reason::{Lack, Reason};

/// How far a plan is.
#[derive(Clone, Copy)]
pub enum Stage {
    /// Nothing is said yet.
    Start,
    /// A disaster was named.
    Losing,
    /// Volumes were named that are used after the recovery.
    Using,
    /// The bound was named.
    Bounded,
    /// Each line is tried.
    Trying,
    /// The recovery stands here.
    Recovering,
}

/// How far it is after this line; none where the line can't stand here.
pub(crate) fn stage_after(mark: &Mark, stage: Stage) -> Option<Stage>
    ensures { result ≡ stage_after mark.now stage }
{
    match mark {
        Mark::Lose(_) => match stage {
            Stage::Start | Stage::Losing => Some(Stage::Losing),
            _ => None,
        },
        Mark::Use(_, _, _) => match stage {
            Stage::Losing | Stage::Using => Some(Stage::Using),
            _ => None,
        },
        Mark::AtMost(_) => match stage {
            Stage::Using => Some(Stage::Bounded),
            _ => None,
        },
        Mark::Here => match stage {
            Stage::Using | Stage::Bounded => Some(Stage::Trying),
            _ => None,
        },
        Mark::Then => match stage {
            Stage::Trying => Some(Stage::Recovering),
            _ => None,
        },
        Mark::Refused => Some(stage),
    }
}

/// Whether the line announces a refusal in the next one.
pub(crate) fn announces(mark: &Mark) -> bool
    ensures { result ≡ announces mark.now }
{
    match mark {
        Mark::Refused => true,
        _ => false,
    }
}

/// What is missing after the last line.
pub(crate) fn lacking(stage: Stage) -> Option<Reason>
    ensures { result ≡ lacking stage }
{
    match stage {
        Stage::Start => Some(Reason::Missing(Lack::Lose)),
        Stage::Losing => Some(Reason::Missing(Lack::Use)),
        Stage::Using | Stage::Bounded => Some(Reason::Missing(Lack::Here)),
        Stage::Trying => Some(Reason::Missing(Lack::Then)),
        Stage::Recovering => None,
    }
}
