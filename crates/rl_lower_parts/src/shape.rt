//! Shapes of expressions that tell how they are lowered.

ghost use Rattle.std.specs.Prelude.{◌≡◌, ◌≤◌, ◌&&◌, codes, map};
ghost use Rattle.std.specs.Str.{bytes_eq};
ghost use Rattle.rl_syntax.specs.Syntax.{nodes, pieces_of, syntax};
ghost use Rattle.rl_base.specs.Operators.{unary_text};
ghost use Rattle.rl_lower_parts.specs.Shapes.{is_assertion, is_parenthesized};
ghost use Rattle.rl_lowered.specs.Forms.{IsInside, is_property};
ghost use Rattle.rl_model.specs.Applied.{deletes};
ghost use Rattle.rl_model.specs.Shapes.{is_computed, is_link};
ghost use Rattle.rl_rules.specs.Chains as chains;
ghost use Rattle.rl_rules.specs.Pieces.{is_yes};

use rl_ast::expression::{Expression, expression_view};
use rl_base::operator::UnaryOperator;
use rl_grammar::sort::ExpressionTree;
use rl_syntax::numbered::Numbered;
use rl_syntax::word::Word;

/// True of a property by its name or its key.
#[tactic(auto, using(rl_syntax::proofs::Layers::by_layer))]
pub fn is_property(tree: &Numbered) -> bool
    ensures { result ≡ is_property (syntax tree.now) }
{
    match tree {
        Numbered::Node(_, word, _) => match word {
            Word::Member => true,
            Word::Index => true,
            _ => false,
        },
        Numbered::List(_) => false,
        Numbered::Text(_) => false,
        Numbered::Number(_) => false,
        Numbered::Flag(_) => false,
        Numbered::Absent => false,
    }
}

/// True of a property, also of a private one.
#[tactic(auto, using(rl_syntax::proofs::Layers::by_layer))]
pub fn is_link(tree: &Numbered) -> bool
    ensures { result ≡ is_link (syntax tree.now) }
{
    match tree {
        Numbered::Node(_, word, _) => match word {
            Word::Member => true,
            Word::Index => true,
            Word::Privatemember => true,
            _ => false,
        },
        Numbered::List(_) => false,
        Numbered::Text(_) => false,
        Numbered::Number(_) => false,
        Numbered::Flag(_) => false,
        Numbered::Absent => false,
    }
}

/// True of a key that is computed when an object literal is evaluated. A text in brackets is known before.
#[tactic(auto, using(rl_syntax::proofs::Layers::by_layer))]
pub fn is_computed(computed: bool, key: &Numbered) -> bool
    ensures { result ≡ is_computed computed (syntax key.now) }
{
    match key {
        Numbered::Node(_, word, _) => match word {
            Word::Str => false,
            _ => computed,
        },
        Numbered::List(_) => computed,
        Numbered::Text(_) => computed,
        Numbered::Number(_) => computed,
        Numbered::Flag(_) => computed,
        Numbered::Absent => computed,
    }
}

/// True of `delete`.
pub fn is_delete(operator: UnaryOperator) -> bool
    ensures { result ≡ bytes_eq (unary_text operator) (codes "delete") }
{
    match operator {
        UnaryOperator::UnaryNegation => false,
        UnaryOperator::UnaryPlus => false,
        UnaryOperator::LogicalNot => false,
        UnaryOperator::BitwiseNot => false,
        UnaryOperator::Typeof => false,
        UnaryOperator::Void => false,
        UnaryOperator::Delete => true,
    }
}

/// True of an expression in parentheses.
#[tactic(auto, using(rl_syntax::proofs::Layers::by_layer))]
fn is_parenthesized(tree: &Numbered) -> bool
    ensures { result ≡ is_parenthesized (syntax tree.now) }
{
    match tree {
        Numbered::Node(_, word, _) => match word {
            Word::Paren => true,
            _ => false,
        },
        Numbered::List(_) => false,
        Numbered::Text(_) => false,
        Numbered::Number(_) => false,
        Numbered::Flag(_) => false,
        Numbered::Absent => false,
    }
}

/// An expression without the parentheses around it.
#[tactic(auto, using(crate::proofs::Inside::bare, crate::proofs::Inside::around))]
pub fn without_parentheses(expression: ExpressionTree<'_>) -> ExpressionTree<'_>
    ensures inside { IsInside (syntax expression.entry.tree.now) (syntax result.tree.now) }
    ensures few { nodes (syntax result.tree.now) ≤ nodes (syntax expression.entry.tree.now) }
    ensures deletes { deletes (syntax expression.entry.tree.now) ≡ is_link (syntax result.tree.now) }
{
    if !is_parenthesized(expression.tree) {
        return expression;
    }
    match expression_view(expression) {
        Expression::Parenthesized { at: _, expression } => without_parentheses(expression),
        _ => unreachable!(),
    }
}

/// True of `a!`.
#[tactic(auto, using(rl_syntax::proofs::Layers::by_layer))]
pub fn is_assertion(tree: &Numbered) -> bool
    ensures { result ≡ is_assertion (syntax tree.now) }
{
    match tree {
        Numbered::Node(_, word, _) => match word {
            Word::Nonnull => true,
            _ => false,
        },
        Numbered::List(_) => false,
        Numbered::Text(_) => false,
        Numbered::Number(_) => false,
        Numbered::Flag(_) => false,
        Numbered::Absent => false,
    }
}

/// True of a callee that lends its object to the call.
pub fn lends(called: bool, tree: &Numbered) -> bool
    ensures { result ≡ (called && is_property (syntax tree.now)) }
{
    called && is_property(tree)
}

/// True of the flag `y`.
#[tactic(auto, using(rl_syntax::proofs::Layers::by_layer))]
fn is_yes(tree: &Numbered) -> bool
    ensures { result ≡ is_yes (syntax tree.now) }
{
    match tree {
        Numbered::Flag(flag) => *flag,
        Numbered::Node(_, _, _) => false,
        Numbered::List(_) => false,
        Numbered::Text(_) => false,
        Numbered::Number(_) => false,
        Numbered::Absent => false,
    }
}

/// True of a link of a chain, or `!` around one, that has an optional link on its own spine, which goes on in the object or callee of a
/// link and in `!`.
#[cycle(optional)]
#[tactic(auto, using(rl_syntax::proofs::Layers::by_layer))]
pub fn has_optional(tree: &Numbered) -> bool
    ensures { result ≡ chains.has_optional (syntax tree.now) }
{
    match tree {
        Numbered::Node(_, word, parts) => match word {
            Word::Member => link_has_optional(parts.as_slice()),
            Word::Index => link_has_optional(parts.as_slice()),
            Word::Privatemember => link_has_optional(parts.as_slice()),
            Word::Call => link_has_optional(parts.as_slice()),
            Word::Nonnull => assertion_has_optional(parts.as_slice()),
            _ => false,
        },
        Numbered::List(_) => false,
        Numbered::Text(_) => false,
        Numbered::Number(_) => false,
        Numbered::Flag(_) => false,
        Numbered::Absent => false,
    }
}

/// As `has_optional`, for the parts of a link.
#[cycle(optional)]
fn link_has_optional(parts: &[Numbered]) -> bool
    ensures { result ≡ chains.spine_has_optional (chains.role_of Word.Member) (pieces_of (map syntax parts.now)) }
{
    match parts {
        [] => false,
        [optional, parts @ ..] => is_yes(optional) || first_has_optional(parts),
    }
}

/// As `has_optional`, for the parts of `!`.
#[cycle(optional)]
fn assertion_has_optional(parts: &[Numbered]) -> bool
    ensures { result ≡ chains.spine_has_optional (chains.role_of Word.Nonnull) (pieces_of (map syntax parts.now)) }
{
    match parts {
        [] => false,
        [expression, _parts @ ..] => has_optional(expression),
    }
}

/// As `has_optional`, for the first of some parts. False if there is none.
#[cycle(optional)]
fn first_has_optional(parts: &[Numbered]) -> bool
    ensures { result ≡ chains.first_has_optional (pieces_of (map syntax parts.now)) }
{
    match parts {
        [] => false,
        [part, _parts @ ..] => has_optional(part),
    }
}
