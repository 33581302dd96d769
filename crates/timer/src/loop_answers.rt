//! Answers of the outside to the events of a loop.

use rl_base::error::OutOfMemory;
use rl_base::list::List;
use rl_machine::trace::{Answer, AnswerKind, Value};
use std::alloc::Global;

/// Number of events of a turn: a comparison, its test, the name of a function, and its call.
const EVENTS: u32 = 4;

/// An answer that gives a number.
fn given(alloc: Global, kind: AnswerKind, number: u32) -> Answer {
    Answer {
        kind,
        value: Value::Given(u64::from(number)),
        pieces: List::new(alloc),
        assignments: List::new(alloc),
    }
}

/// The answers of so many turns, and of the comparison and the test that end the loop. On `OutOfMemory` an allocation failed.
pub fn answers_of(alloc: Global, turns: u32) -> Result<List<Answer>, OutOfMemory> {
    let mut answers = List::new(alloc);
    for turn in 0..turns {
        for _event in 0..EVENTS {
            answers.push(given(alloc, AnswerKind::Yes, turn))?;
        }
    }
    answers.push(given(alloc, AnswerKind::Yes, turns))?;
    answers.push(given(alloc, AnswerKind::No, turns))?;
    Ok(answers)
}
