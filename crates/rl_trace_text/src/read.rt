//! Values, assignments and answers, read from their trees.

ghost use Rattle.rl_text.specs.Notation.{Count};
ghost use Rattle.rl_trace_text.specs.Reading.{Always, IsNarrow};
ghost use Rattle.rl_trace_text.specs.Trees as spec;
ghost use Rattle.rl_trace_text.specs.RunWords as words;

use crate::from_tree::{FromTree, from_node};
use crate::raws::text_in;
use rl_base::error::OutOfMemory;
use rl_base::ids::SymbolId;
use rl_base::list::List;
use rl_base::text::Text;
use rl_machine::trace::{Answer, AnswerKind, Assignment, Value};
use rl_text::raw::Raw;
use std::alloc::Global;

impl FromTree for SymbolId {
    ghost shown = { λ id. Count id.0 };

    ghost fits = { λ id. IsNarrow id.0 };

    fn from_tree(alloc: Global, raw: &Raw) -> Result<Option<SymbolId>, OutOfMemory> {
        let Some(number) = u32::from_tree(alloc, raw)? else {
            return Ok(None);
        };
        Ok(Some(SymbolId(number)))
    }
}

impl FromTree for Value {
    ghost shown = { spec.value_tree };

    ghost fits = { Always };

    #[tactic(auto, using(crate::proofs::NoValues::no_value))]
    fn from_tree(alloc: Global, raw: &Raw) -> Result<Option<Value>, OutOfMemory> {
        if let Some(()) = from_node::<()>(alloc, raw, "undefined")? {
            return Ok(Some(Value::Undefined));
        }
        if let Some(()) = from_node::<()>(alloc, raw, "null")? {
            return Ok(Some(Value::Null));
        }
        if let Some((flag, ())) = from_node::<(bool, ())>(alloc, raw, "bool")? {
            return Ok(Some(Value::Bool(flag)));
        }
        if let Some((number, ())) = from_node::<(u64, ())>(alloc, raw, "number")? {
            return Ok(Some(Value::Number(number)));
        }
        if let Some((text, ())) = from_node::<(Text, ())>(alloc, raw, "text")? {
            return Ok(Some(Value::Text(text)));
        }
        if let Some((number, ())) = from_node::<(u64, ())>(alloc, raw, "given")? {
            return Ok(Some(Value::Given(number)));
        }
        Ok(None)
    }
}

impl FromTree for Assignment {
    ghost shown = { spec.assignment_tree };

    ghost fits = { words.SetsNarrow };

    #[tactic(auto, using(crate::proofs::NoValues::no_assignment))]
    fn from_tree(alloc: Global, raw: &Raw) -> Result<Option<Assignment>, OutOfMemory> {
        let parts = from_node::<(SymbolId, (Value, ()))>(alloc, raw, "set")?;
        let Some((symbol, (value, ()))) = parts else {
            return Ok(None);
        };
        Ok(Some(Assignment { symbol, value }))
    }
}

impl FromTree for AnswerKind {
    ghost shown = { spec.kind_tree };

    ghost fits = { Always };

    #[tactic(auto, using(crate::proofs::NoValues::no_kind))]
    fn from_tree(_alloc: Global, raw: &Raw) -> Result<Option<AnswerKind>, OutOfMemory> {
        let Some(text) = text_in(raw) else {
            return Ok(None);
        };
        let word = text.as_str();
        if word == "yes" {
            return Ok(Some(AnswerKind::Yes));
        }
        if word == "no" {
            return Ok(Some(AnswerKind::No));
        }
        if word == "throw" {
            return Ok(Some(AnswerKind::Throw));
        }
        Ok(None)
    }
}

/// The parts of an answer: its kind, its value, its pieces, what is assigned.
type AnswerParts = (AnswerKind, (Value, (List<Value>, (List<Assignment>, ()))));

impl FromTree for Answer {
    ghost shown = { spec.answer_tree };

    ghost fits = { words.AllSetNarrow };

    #[tactic(auto, using(crate::proofs::NoValues::no_answer))]
    fn from_tree(alloc: Global, raw: &Raw) -> Result<Option<Answer>, OutOfMemory> {
        let parts = from_node::<AnswerParts>(alloc, raw, "answer")?;
        let Some((kind, (value, (pieces, (assignments, ()))))) = parts else {
            return Ok(None);
        };
        Ok(Some(Answer {
            kind,
            value,
            pieces,
            assignments,
        }))
    }
}
