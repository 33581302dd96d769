//! Units: the tree of a program, and the table of its nodes.

ghost use Rattle.std.specs.Prelude.{◌≡◌, true};
ghost use Rattle.rl_grammar.specs.Grammar.{fits};
ghost use Rattle.rl_syntax.specs.Nodes.{entries};
ghost use Rattle.rl_syntax.specs.Syntax.{syntax};
ghost use Rattle.rl_ast.specs.UnitViews.{seen_unit};
ghost use Rattle.rl_grammar.specs.declared.kind.Field.TheVariants as field;
ghost use Rattle.rl_grammar.specs.declared.kind.Kind.TheVariants as kind;

use rl_base::list::List;
use rl_grammar::parts::{items_of, two};
use rl_grammar::sort::{EntityTrees, ProgramTree};
use rl_grammar::tree::{Tree, Trees};
use rl_syntax::nodes::NodeEntry;
use rl_syntax::numbered::{At, Numbered};
use rl_syntax::parts::node_of;
use rl_syntax::word::Word;

/// A unit, whose tree fits the grammar: `(unit [Entity] Program)`.
#[derive(Drop)]
pub struct Unit {
    /// The tree of the unit.
    pub tree: Numbered,
    /// The nodes of the tree, by their ids.
    pub nodes: List<NodeEntry>,
    ghost fit: { fits (field.One kind.Unit) (syntax tree) ≡ true },
    ghost listed: { nodes ≡ entries (syntax tree) },
}

/// The outermost node of a unit.
#[derive(Clone, Copy)]
pub struct UnitNode<'b> {
    /// Ids and span of the node: id 0, and the whole text.
    pub at: At,
    /// The entities of JSX texts that the unit brings; the first of a name counts.
    pub entities: EntityTrees<'b>,
    /// The program.
    pub program: ProgramTree<'b>,
}

impl Unit {
    /// The view of the outermost node.
    #[tactic(auto, using(rl_grammar::proofs::Viewing::viewing))]
    pub fn view(&self) -> UnitNode<'_>
        ensures { seen_unit result ≡ syntax self.now.tree }
    {
        let (at, word, parts) = node_of(&self.tree);
        match word {
            Word::Unit => {
                let (entities, program) = two(parts);
                UnitNode {
                    at,
                    entities: Trees::new(items_of(entities)),
                    program: Tree::new(program),
                }
            }
            _ => unreachable!(),
        }
    }
}
