//! Parts of statements: views of one level. Written by tools/syntax.py from tools/grammar.txt.
//! Types in backquotes are those of oxc_ast.

ghost use Rattle.std.specs.Prelude.{◌≡◌};
ghost use Rattle.rl_syntax.specs.Syntax.{syntax};
ghost use Rattle.rl_ast.specs.StatementPartViews.{seen_block_statement, seen_catch_clause, seen_export_default, seen_for_head, seen_for_init, seen_switch_case, seen_variable_declaration, seen_variable_declarator};

use rl_base::variable_kind::VariableKind;
use rl_grammar::kind::Kind;
use rl_grammar::parts::{closed_of, items_of, one, two};
use rl_grammar::rules::rule;
use rl_grammar::sort::{
    AssignmentTargetTree, BindingPatternTree, BlockStatementTree, CatchClauseTree,
    ExportDefaultTree, ExpressionTree, ForHeadTree, ForInitTree, StatementTree, StatementTrees,
    SwitchCaseTree, VariableDeclarationTree, VariableDeclaratorTree, VariableDeclaratorTrees,
};
use rl_grammar::tree::{Tree, Trees};
use rl_syntax::numbered::At;
use rl_syntax::parts::node_of;
use rl_syntax::word::Word;

/// A block (ECMA-262, 14.2). Statements in braces, in a scope of their own. `(block [Statement])`
#[derive(Clone, Copy)]
pub struct BlockStatement<'b> {
    /// Ids and span of the node.
    pub at: At,
    /// The statements, in order.
    pub body: StatementTrees<'b>,
}

/// A level of a tree of the sort `BlockStatement`.
#[tactic(auto, using(rl_grammar::proofs::Viewing::viewing))]
pub fn block_statement_view(tree: BlockStatementTree<'_>) -> BlockStatement<'_>
    ensures { seen_block_statement result ≡ syntax tree.entry.tree.now }
{
    let (at, word, parts) = node_of(tree.tree);
    match word {
        Word::Block => {
            let body = one(parts);
            BlockStatement {
                at,
                body: Trees::new(items_of(body)),
            }
        }
        _ => unreachable!(),
    }
}

/// A clause of a `switch` statement (ECMA-262, 14.12). `case`, or without a test `default`. `(case Expression? [Statement])`
#[derive(Clone, Copy)]
pub struct SwitchCase<'b> {
    /// Ids and span of the node.
    pub at: At,
    /// The value that is compared with the discriminant, an expression, or none.
    pub test: Option<ExpressionTree<'b>>,
    /// The statements of the clause, in order.
    pub consequent: StatementTrees<'b>,
}

/// A level of a tree of the sort `SwitchCase`.
#[tactic(auto, using(rl_grammar::proofs::Viewing::viewing))]
pub fn switch_case_view(tree: SwitchCaseTree<'_>) -> SwitchCase<'_>
    ensures { seen_switch_case result ≡ syntax tree.entry.tree.now }
{
    let (at, word, parts) = node_of(tree.tree);
    match word {
        Word::Case => {
            let (test, consequent) = two(parts);
            SwitchCase {
                at,
                test: Tree::optional(test),
                consequent: Trees::new(items_of(consequent)),
            }
        }
        _ => unreachable!(),
    }
}

/// A `catch` clause (ECMA-262, 14.15). Its scope is that of the parameter; the body is a block with a scope besides.
/// `(catch BindingPattern? BlockStatement)`
#[derive(Clone, Copy)]
pub struct CatchClause<'b> {
    /// Ids and span of the node.
    pub at: At,
    /// The parameter, a binding pattern, or none.
    pub param: Option<BindingPatternTree<'b>>,
    /// The block that is executed.
    pub body: BlockStatementTree<'b>,
}

/// A level of a tree of the sort `CatchClause`.
#[tactic(auto, using(rl_grammar::proofs::Viewing::viewing))]
pub fn catch_clause_view(tree: CatchClauseTree<'_>) -> CatchClause<'_>
    ensures { seen_catch_clause result ≡ syntax tree.entry.tree.now }
{
    let (at, word, parts) = node_of(tree.tree);
    match word {
        Word::Catch => {
            let (param, body) = two(parts);
            CatchClause {
                at,
                param: Tree::optional(param),
                body: Tree::new(body),
            }
        }
        _ => unreachable!(),
    }
}

/// A declaration of variables (ECMA-262, 14.3). Declarators behind `var`, `let`, `const`, `using` or `await using`.
/// `(var KIND [VariableDeclarator])`
#[derive(Clone, Copy)]
pub struct VariableDeclaration<'b> {
    /// Ids and span of the node.
    pub at: At,
    /// The kind: `var`, `let`, `const`, `using` or `await using`.
    pub kind: VariableKind,
    /// The declarators, in order.
    pub declarators: VariableDeclaratorTrees<'b>,
}

/// A level of a tree of the sort `VariableDeclaration`.
#[tactic(auto, using(rl_grammar::proofs::Viewing::viewing))]
pub fn variable_declaration_view(tree: VariableDeclarationTree<'_>) -> VariableDeclaration<'_>
    ensures { seen_variable_declaration result ≡ syntax tree.entry.tree.now }
{
    let (at, word, parts) = node_of(tree.tree);
    match word {
        Word::Var => {
            let (kind, declarators) = two(parts);
            VariableDeclaration {
                at,
                kind: closed_of(kind),
                declarators: Trees::new(items_of(declarators)),
            }
        }
        _ => unreachable!(),
    }
}

/// A declarator of variables (ECMA-262, 14.3). The name or pattern that is declared, and its initializer.
/// `(declarator BindingPattern Expression?)`
#[derive(Clone, Copy)]
pub struct VariableDeclarator<'b> {
    /// Ids and span of the node.
    pub at: At,
    /// The names that are bound, a binding pattern.
    pub pattern: BindingPatternTree<'b>,
    /// The initializer, an expression, or none.
    pub init: Option<ExpressionTree<'b>>,
}

/// A level of a tree of the sort `VariableDeclarator`.
#[tactic(auto, using(rl_grammar::proofs::Viewing::viewing))]
pub fn variable_declarator_view(tree: VariableDeclaratorTree<'_>) -> VariableDeclarator<'_>
    ensures { seen_variable_declarator result ≡ syntax tree.entry.tree.now }
{
    let (at, word, parts) = node_of(tree.tree);
    match word {
        Word::Declarator => {
            let (pattern, init) = two(parts);
            VariableDeclarator {
                at,
                pattern: Tree::new(pattern),
                init: Tree::optional(init),
            }
        }
        _ => unreachable!(),
    }
}

/// The first part of a `for` head: `ForStatementInit` (ECMA-262, 14.7.4).
#[derive(Clone, Copy)]
pub enum ForInit<'b> {
    /// A declaration of variables.
    Variables(VariableDeclarationTree<'b>),
    /// An expression.
    Expression(ExpressionTree<'b>),
}

/// A level of a tree of the sort `ForInit`.
#[tactic(auto, using(rl_grammar::proofs::Viewing::viewing))]
pub fn for_init_view(tree: ForInitTree<'_>) -> ForInit<'_>
    ensures { seen_for_init result ≡ syntax tree.entry.tree.now }
{
    let (at, word, parts) = node_of(tree.tree);
    match word {
        Word::Var => ForInit::Variables(Tree::new(tree.tree)),
        _ => ForInit::Expression(Tree::new(tree.tree)),
    }
}

/// The left side of a `for`-`in` or `for`-`of` head: `ForStatementLeft` (ECMA-262, 14.7.5).
#[derive(Clone, Copy)]
pub enum ForHead<'b> {
    /// A declaration of variables.
    Variables(VariableDeclarationTree<'b>),
    /// An assignment target.
    Target(AssignmentTargetTree<'b>),
}

/// A level of a tree of the sort `ForHead`.
#[tactic(auto, using(rl_grammar::proofs::Viewing::viewing))]
pub fn for_head_view(tree: ForHeadTree<'_>) -> ForHead<'_>
    ensures { seen_for_head result ≡ syntax tree.entry.tree.now }
{
    let (at, word, parts) = node_of(tree.tree);
    match word {
        Word::Var => ForHead::Variables(Tree::new(tree.tree)),
        _ => ForHead::Target(Tree::new(tree.tree)),
    }
}

/// A default export's value: `ExportDefaultDeclarationKind` (ECMA-262, 16.2.3).
#[derive(Clone, Copy)]
pub enum ExportDefault<'b> {
    /// A declaration of a function or a class, as a statement.
    Statement(StatementTree<'b>),
    /// An expression.
    Expression(ExpressionTree<'b>),
}

/// A level of a tree of the sort `ExportDefault`.
#[tactic(auto, using(rl_grammar::proofs::Viewing::viewing))]
pub fn export_default_view(tree: ExportDefaultTree<'_>) -> ExportDefault<'_>
    ensures { seen_export_default result ≡ syntax tree.entry.tree.now }
{
    let (at, word, parts) = node_of(tree.tree);
    match word {
        _ => match rule(Kind::Statement, word) {
            Some(_) => ExportDefault::Statement(Tree::new(tree.tree)),
            None => ExportDefault::Expression(Tree::new(tree.tree))
        },
    }
}
