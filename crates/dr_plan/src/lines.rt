//! The lines of a part of a plan, and the steps that are tried of a line.

ghost use Rattle.std.specs.Prelude.{◌≡◌, ◌∷◌, ◌++◌, [], All, OnOk};
ghost use Rattle.dr_model.specs.LineText.{IsWritten, step_text};
ghost use Rattle.dr_plan.specs.Reading.{parts_from, tried_steps};

use crate::plan::Tried;
use dr_ids::Text;
use dr_model::Step;
use dr_script::{Line, print_step};
use std::alloc::{AllocError, Global};

/// Adds a line.
pub(crate) fn push_line(alloc: Global, all: &mut Vec<Text>, line: &[u8]) -> Result<(), AllocError>
    ensures { OnOk result (all.new.items ≡ all.old.items ++ line.now ∷ []) }
{
    let mut text = Text::new(alloc);
    text.append(line)?;
    all.push(text)?;
    Ok(())
}

/// Adds the steps that are tried of a line with that number.
pub(crate) fn push_tried(
    alloc: Global,
    all: &mut Vec<Tried>,
    number: usize,
    line: &[u8],
    steps: &Line,
) -> Result<(), AllocError>
    requires { All IsWritten steps.now }
    ensures { OnOk result (all.new.items ≡ all.old.items ++ tried_steps number line.now steps.now) }
{
    match steps.len() {
        0 => Ok(()),
        1 => push_whole(alloc, all, number, line),
        _ => push_parts(alloc, all, number, steps),
    }
}

/// Adds a line of one step.
fn push_whole(
    alloc: Global,
    all: &mut Vec<Tried>,
    number: usize,
    line: &[u8],
) -> Result<(), AllocError>
    ensures { OnOk result (all.new.items ≡ all.old.items ++ record { line = number; part = 0; text = line.now } ∷ []) }
{
    let mut text = Text::new(alloc);
    text.append(line)?;
    all.push(Tried {
        line: number,
        part: 0,
        text,
    })?;
    Ok(())
}

/// Adds a step as the part of a line.
pub(crate) fn push_part(
    alloc: Global,
    all: &mut Vec<Tried>,
    number: usize,
    part: usize,
    step: &Step,
) -> Result<(), AllocError>
    requires { IsWritten step.now }
    ensures { OnOk result (all.new.items ≡ all.old.items ++ record { line = number; part = part; text = step_text step.now } ∷ []) }
{
    let text = print_step(alloc, step)?;
    all.push(Tried {
        line: number,
        part,
        text,
    })?;
    Ok(())
}

/// Adds each step of a line as a part of it.
fn push_parts(
    alloc: Global,
    all: &mut Vec<Tried>,
    number: usize,
    steps: &Line,
) -> Result<(), AllocError>
    requires { All IsWritten steps.now }
    ensures { OnOk result (all.new.items ≡ all.old.items ++ parts_from number 1 steps.now) }
{
    for i in 0..steps.len() {
        let step = steps.step(i).unwrap();
        push_part(alloc, all, number, i + 1, step)?;
    }
    Ok(())
}
