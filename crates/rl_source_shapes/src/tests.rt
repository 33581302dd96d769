//! Tests of words, and values of literals.

ghost use Rattle.std.specs.Prelude.{◌≡◌, if◌then◌else◌, MatchOption, false};
ghost use Rattle.rl_machine.specs.declared.trace.Value.TheVariants as value;
ghost use Rattle.rl_model.specs.Actions.{give, no_meaning};
ghost use Rattle.rl_source_shapes.specs.Tests as spec;
ghost use Rattle.rl_source_stack.specs.Controls.{from, trace_of};
ghost use Rattle.rl_source_stack.specs.States.{state_of};
ghost use Rattle.rl_syntax.specs.declared.word.Word.TheVariants as word;
ghost use Rattle.rl_syntax.specs.Syntax.{Node, Said, Then, End, syntax};
ghost use Rattle.rl_text.specs.Numeral.{is_numeral, number_of};

use rl_base::text::Text;
use rl_grammar::parts::one;
use rl_grammar::sort::ExpressionTree;
use rl_source_stack::control::Control;
use rl_source_stack::run::Run;
use rl_syntax::numbered::At;
use rl_syntax::parts::{node_of, text_of};
use rl_syntax::word::Word;
use rl_text::number::parse_number;
use rl_trace::value::Val;

/// Ids and text of a literal that is a number. None of another expression.
#[tactic(auto, using(rl_grammar::proofs::Viewing::viewing))]
pub fn number_text(tree: ExpressionTree<'_>) -> Option<(At, &Text)>
    ensures { MatchOption result (spec.is_number (syntax tree.entry.tree.now) ≡ false) (λ p. syntax tree.entry.tree.now ≡ Node p.0 word.Num (Then (Said p.1.now) End)) }
{
    let (at, word, parts) = node_of(tree.tree);
    match word {
        Word::Num => {
            let text = one(parts);
            Some((at, text_of(text)))
        }
        _ => None,
    }
}

/// Goes on with the value of a numeral. A number of another form has no meaning.
pub fn number<'b>(run: &mut Run<'b>, text: &Text) -> Control<'b>
    ensures { trace_of result (state_of run.new) ≡ from (if is_numeral text.now then give (value.Number (number_of text.now)) else no_meaning) (state_of run.old) }
{
    match parse_number(text.as_bytes()) {
        Some(number) => Control::Value(Val::Number(number)),
        None => Control::Waiting,
    }
}
