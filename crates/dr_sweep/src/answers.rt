//! The answers of the recovery's steps.

ghost use Rattle.std.specs.Prelude.{◌≡◌, ◌++◌, [], IfOk, OnOk};
ghost use Rattle.std.specs.List.{cons_option};
ghost use Rattle.dr_sweep.specs.Answers.{answer_in, answer_at, answers_of};

use dr_model::{Event, Journal};
use dr_rows::Answer;
use std::alloc::{AllocError, Global};

/// The answer that an event is, if its line comes after that one. Lines are counted from there on.
fn answer_in(event: &Event, before: u128) -> Option<Answer>
    ensures { result ≡ answer_in before event.now }
{
    match *event {
        Event::Answer {
            line,
            code,
            a,
            b,
            c,
        } => {
            if u128::from(line) <= before {
                return None;
            }
            let line = (u128::from(line) - before) as u32;
            Some(Answer {
                line,
                code,
                a,
                b,
                c,
            })
        }
        _ => None,
    }
}

/// The answer that the event at a place is.
fn answer_at(journal: &Journal, place: usize, before: u128) -> Option<Answer>
    ensures { result ≡ answer_at before journal.now.events place }
{
    answer_in(journal.event(place)?, before)
}

/// Adds an answer, if there is one.
fn push_answer(answers: &mut Vec<Answer>, answer: Option<Answer>) -> Result<(), AllocError>
    ensures { OnOk result (answers.new.items ≡ answers.old.items ++ cons_option answer []) }
{
    if let Some(answer) = answer {
        answers.push(answer)?;
    }
    Ok(())
}

/// The answers of the steps in the lines after that one, in order.
pub(crate) fn answers_of(
    alloc: Global,
    journal: &Journal,
    before: u128,
) -> Result<Vec<Answer>, AllocError>
    ensures { IfOk result (λ answers. answers.items ≡ answers_of before journal.now.events) }
{
    let mut answers = Vec::new(alloc);
    for place in 0..journal.len() {
        push_answer(&mut answers, answer_at(journal, place, before))?;
    }
    Ok(answers)
}
