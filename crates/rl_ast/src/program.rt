//! Units and programs: views of one level. Written by tools/syntax.py from tools/grammar.txt.
//! Types in backquotes are those of oxc_ast.

ghost use Rattle.std.specs.Prelude.{◌≡◌};
ghost use Rattle.rl_syntax.specs.Syntax.{syntax};
ghost use Rattle.rl_ast.specs.ProgramViews.{seen_entity, seen_program};

use rl_base::text::Text;
use rl_grammar::parts::{items_of, one, scalar_value_of, two};
use rl_grammar::sort::{EntityTree, ProgramTree, StatementTrees};
use rl_grammar::tree::Trees;
use rl_syntax::numbered::At;
use rl_syntax::parts::{node_of, text_of};
use rl_syntax::word::Word;

/// An entity of JSX texts: the name between `&` and `;`, and the character that it stands for. The first entity of a name counts.
/// `(entity TEXT NUMBER)`
#[derive(Clone, Copy)]
pub struct Entity<'b> {
    /// Ids and span of the node.
    pub at: At,
    /// The name.
    pub name: &'b Text,
    /// The character, as a Unicode scalar value.
    pub value: u32,
}

/// A level of a tree of the sort `Entity`.
#[tactic(auto, using(rl_grammar::proofs::Viewing::viewing))]
pub fn entity_view(tree: EntityTree<'_>) -> Entity<'_>
    ensures { seen_entity result ≡ syntax tree.entry.tree.now }
{
    let (at, word, parts) = node_of(tree.tree);
    match word {
        Word::Entity => {
            let (name, value) = two(parts);
            Entity {
                at,
                name: text_of(name),
                value: scalar_value_of(value),
            }
        }
        _ => unreachable!(),
    }
}

/// A program: `Program` (ECMA-262, 16). Its scope is scope 0. `(program [Statement])`
#[derive(Clone, Copy)]
pub struct Program<'b> {
    /// Ids and span of the node.
    pub at: At,
    /// The statements, in order.
    pub body: StatementTrees<'b>,
}

/// A level of a tree of the sort `Program`.
#[tactic(auto, using(rl_grammar::proofs::Viewing::viewing))]
pub fn program_view(tree: ProgramTree<'_>) -> Program<'_>
    ensures { seen_program result ≡ syntax tree.entry.tree.now }
{
    let (at, word, parts) = node_of(tree.tree);
    match word {
        Word::Program => {
            let body = one(parts);
            Program {
                at,
                body: Trees::new(items_of(body)),
            }
        }
        _ => unreachable!(),
    }
}
