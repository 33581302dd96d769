//! The words of a run: which function, from which values of variables, with which arguments and answers.

ghost use Rattle.std.specs.Prelude.{IfOk, IfSome, IfNone};
ghost use Rattle.rl_trace_text.specs.Reading.{NoWordOf};
ghost use Rattle.rl_trace_text.specs.RunWords as spec;

use crate::from_tree::FromTree;
use crate::raws::is_absent;
use rl_base::error::OutOfMemory;
use rl_base::list::List;
use rl_machine::trace::{Answer, Assignment, Value};
use rl_text::raw::Raw;
use rl_text::read::{TextError, read_raw_within};
use std::alloc::Global;

/// The start values, arguments and answers with which a function is run.
#[derive(Drop)]
pub struct Arguments {
    /// The number of the function; `None` for the marked one.
    pub function: Option<u32>,
    /// The values of variables before the run, set in order.
    pub start: List<Assignment>,
    /// The values of the parameters.
    pub args: List<Value>,
    /// The answers of the outside, one for each event.
    pub answers: List<Answer>,
}

impl FromTree for Option<u32> {
    ghost shown = { spec.function_tree };

    ghost fits = { spec.IsNarrowFunction };

    #[tactic(auto, using(crate::proofs::NoValues::no_function))]
    fn from_tree(alloc: Global, raw: &Raw) -> Result<Option<Option<u32>>, OutOfMemory> {
        if is_absent(raw) {
            return Ok(Some(None));
        }
        let Some(number) = u32::from_tree(alloc, raw)? else {
            return Ok(None);
        };
        Ok(Some(Some(number)))
    }
}

/// The most nodes and lists that are open at once in a word: a list of answers, an answer, its list of assignments, an assignment
/// and its value.
const DEEPEST: usize = 5;

/// The value that a word spells. `None` if it spells none. On `OutOfMemory` an allocation failed.
#[tactic(auto, using(crate::proofs::Heights::word_forms))]
fn read_word<T: FromTree>(alloc: Global, word: &[u8]) -> Result<Option<T>, OutOfMemory>
    ensures found { IfOk result (λ r. IfSome r (spec.IsWordOf T.shown T.fits word.now)) }
    ensures none { IfOk result (λ r. IfNone r (NoWordOf T.shown T.fits 5 word.now)) }
{
    match read_raw_within(alloc, DEEPEST, word) {
        Ok(raw) => {
            let found = T::from_tree(alloc, &raw)?;
            Ok(found)
        }
        Err(TextError::OutOfMemory) => Err(OutOfMemory),
        Err(TextError::Malformed) => Ok(None),
    }
}

/// Reads the four words. `None` if one of them is not of its form. On `OutOfMemory` an allocation failed.
#[tactic(auto, using(crate::proofs::Heights::no_words))]
pub fn read_words(
    alloc: Global,
    function: &[u8],
    start: &[u8],
    args: &[u8],
    answers: &[u8],
) -> Result<Option<Arguments>, OutOfMemory>
    ensures found { IfOk result (λ r. IfSome r (spec.SpellArguments function.now start.now args.now answers.now)) }
    ensures only { IfOk result (λ r. IfSome r (spec.AreOnlyArguments function.now start.now args.now answers.now)) }
    ensures none { IfOk result (λ r. IfNone r ((a : Arguments) → spec.SpellArguments function.now start.now args.now answers.now a → ⊥)) }
{
    let Some(function) = read_word::<Option<u32>>(alloc, function)? else {
        return Ok(None);
    };
    let Some(start) = read_word::<List<Assignment>>(alloc, start)? else {
        return Ok(None);
    };
    let Some(args) = read_word::<List<Value>>(alloc, args)? else {
        return Ok(None);
    };
    let Some(answers) = read_word::<List<Answer>>(alloc, answers)? else {
        return Ok(None);
    };
    Ok(Some(Arguments {
        function,
        start,
        args,
        answers,
    }))
}
