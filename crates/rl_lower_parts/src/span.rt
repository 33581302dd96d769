//! Spans of trees.

ghost use Rattle.std.specs.Prelude.{◌≡◌};
ghost use Rattle.rl_syntax.specs.Syntax.{span_of, syntax};

use rl_base::span::Span;
use rl_syntax::numbered::Numbered;

/// The span of what has none.
const NOWHERE: Span = Span { start: 0, end: 0 };

/// The span of a node; `0..0` of any other tree.
#[tactic(auto, using(rl_syntax::proofs::Layers::by_layer))]
pub fn span_of(tree: &Numbered) -> Span
    ensures { result ≡ span_of (syntax tree.now) }
{
    match tree {
        Numbered::Node(at, _, _) => at.span,
        Numbered::List(_) => NOWHERE,
        Numbered::Text(_) => NOWHERE,
        Numbered::Number(_) => NOWHERE,
        Numbered::Flag(_) => NOWHERE,
        Numbered::Absent => NOWHERE,
    }
}
