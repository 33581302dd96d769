//! Rule B7: the form of variable declarations.

ghost use Rattle.std.specs.Prelude.{◌≡◌, map};
ghost use Rattle.rl_rules.specs.Pieces.{first_is};
ghost use Rattle.rl_rules.specs.Variables as spec;
ghost use Rattle.rl_syntax.specs.Syntax.{pieces_of, syntax};

use crate::pieces::{
    Words, behind, first_is_absent, first_is_node_of, first_items, has_some, parts_of,
};
use crate::walk::{Rule, passes};
use rl_syntax::numbered::Numbered;
use rl_syntax::word::Word;

/// True of `var`, the word of variable declarations of any kind.
#[inline(always)]
fn is_var(word: Word) -> bool
    ensures { result ≡ spec.is_var word }
{
    match word {
        Word::Var => true,
        _ => false,
    }
}

/// `bind`, the word of names that are declared.
struct Names;

impl Words for Names {
    ghost test = { spec.is_bind };

    fn contain(word: Word) -> bool {
        match word {
            Word::Bind => true,
            _ => false,
        }
    }
}

/// True of the kinds `let` and `var`.
#[tactic(auto, using(rl_syntax::proofs::Layers::by_layer))]
fn is_let_or_var(tree: &Numbered) -> bool
    ensures { result ≡ spec.is_let_or_var (syntax tree.now) }
{
    match tree {
        Numbered::Text(text) => text.as_str() == "let" || text.as_str() == "var",
        Numbered::Node(_, _, _) => false,
        Numbered::List(_) => false,
        Numbered::Number(_) => false,
        Numbered::Flag(_) => false,
        Numbered::Absent => false,
    }
}

/// True of parts whose first is the kind `let` or `var`.
fn first_is_let_or_var(parts: &[Numbered]) -> bool
    ensures { result ≡ first_is spec.is_let_or_var (pieces_of (map syntax parts.now)) }
{
    match parts {
        [] => false,
        [part, _parts @ ..] => is_let_or_var(part),
    }
}

/// True of a declarator without initialiser.
fn is_bare(declarator: &Numbered) -> bool
    ensures { result ≡ spec.is_bare (syntax declarator.now) }
{
    first_is_absent(behind(parts_of(declarator)))
}

/// True of a declarator of a plain name, in place of a pattern.
fn declares_name(declarator: &Numbered) -> bool
    ensures { result ≡ spec.declares_name (syntax declarator.now) }
{
    first_is_node_of::<Names>(parts_of(declarator))
}

/// True of declarators that each have an initialiser, or declare a plain name if `bare` says that names may lack it.
fn are_initialised(bare: bool, declarators: &[Numbered]) -> bool
    ensures { result ≡ spec.are_initialised bare (pieces_of (map syntax declarators.now)) }
{
    'declarators: for declarator in declarators {
        if is_bare(declarator) && !(bare && declares_name(declarator)) {
            return false;
        }
    }
    true
}

/// True of one declarator, without initialiser.
fn is_one_bare(declarators: &[Numbered]) -> bool
    ensures { result ≡ spec.is_one_bare (pieces_of (map syntax declarators.now)) }
{
    match declarators {
        [] => false,
        [declarator, declarators @ ..] => is_bare(declarator) && !has_some(declarators),
    }
}

/// Rule B7. The context of a node is true in the head of a `forin` or `forof`.
pub(crate) struct Variables;

impl Rule for Variables {
    type Above = bool;

    ghost test = { spec.variables_fit };

    ghost below = { spec.head_below };

    #[inline(always)]
    fn test(head: bool, word: Word, parts: &[Numbered]) -> bool {
        if !is_var(word) {
            return true;
        }
        let declarators = first_items(behind(parts));
        if head {
            is_one_bare(declarators)
        } else {
            has_some(declarators) && are_initialised(first_is_let_or_var(parts), declarators)
        }
    }

    #[inline(always)]
    fn below(_head: bool, word: Word, index: usize) -> bool {
        match word {
            Word::Forin => index == 0,
            Word::Forof => index == 1,
            _ => false,
        }
    }
}

/// Rule B7: true of a tree whose variable declarations, of whatever kind, all have a declarator. In the head of a `forin` or
/// `forof` it is exactly one, without initialiser; elsewhere only a plain name of `let` or `var` may lack an initialiser.
pub fn keeps_variables(tree: &Numbered) -> bool
    ensures { result ≡ spec.keeps_variables (syntax tree.now) }
{
    passes::<Variables>(false, tree)
}
