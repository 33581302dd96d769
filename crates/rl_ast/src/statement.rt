//! Statements: views of one level. Written by tools/syntax.py from tools/grammar.txt.
//! Types in backquotes are those of oxc_ast.

ghost use Rattle.std.specs.Prelude.{◌≡◌};
ghost use Rattle.rl_syntax.specs.Syntax.{syntax};
ghost use Rattle.rl_ast.specs.StatementViews.{seen_statement};

use rl_base::text::Text;
use rl_grammar::parts::{four, items_of, one, optional_text, three, two};
use rl_grammar::sort::{
    BindingIdentifierTree, BlockStatementTree, CatchClauseTree, ClassElementTrees,
    ExportDefaultTree, ExpressionTree, ForHeadTree, ForInitTree, FunctionDeclarationTree,
    IdentifierReferenceTrees, ImportSpecifierTrees, StatementTree, SwitchCaseTrees,
    TypeAnnotationTree, VariableDeclarationTree,
};
use rl_grammar::tree::{Tree, Trees};
use rl_syntax::numbered::At;
use rl_syntax::parts::{flag_of, node_of, text_of};
use rl_syntax::word::Word;

/// A statement or a declaration (ECMA-262, 14).
#[derive(Clone, Copy)]
pub enum Statement<'b> {
    /// A semicolon alone: `EmptyStatement` (ECMA-262, 14.4). `(empty)`
    Empty {
        /// Ids and span of the node.
        at: At,
    },
    /// A `debugger` statement: `DebuggerStatement` (ECMA-262, 14.16). `(debugger)`
    Debugger {
        /// Ids and span of the node.
        at: At,
    },
    /// An expression as a statement: `ExpressionStatement` (ECMA-262, 14.5). `(expr Expression)`
    Expression {
        /// Ids and span of the node.
        at: At,
        /// The expression.
        expression: ExpressionTree<'b>,
    },
    /// A `return` statement: `ReturnStatement` (ECMA-262, 14.10). `(return Expression?)`
    Return {
        /// Ids and span of the node.
        at: At,
        /// The value that is returned, an expression, or none.
        argument: Option<ExpressionTree<'b>>,
    },
    /// A `throw` statement: `ThrowStatement` (ECMA-262, 14.14). `(throw Expression)`
    Throw {
        /// Ids and span of the node.
        at: At,
        /// The value that is thrown, an expression.
        argument: ExpressionTree<'b>,
    },
    /// A block (ECMA-262, 14.2).
    Block(BlockStatementTree<'b>),
    /// An `if` statement: `IfStatement` (ECMA-262, 14.6). `(if Expression Statement Statement?)`
    If {
        /// Ids and span of the node.
        at: At,
        /// The condition, an expression.
        test: ExpressionTree<'b>,
        /// The statement that is executed if the condition is true.
        consequent: StatementTree<'b>,
        /// The statement that is executed if the condition is false, or none.
        alternate: Option<StatementTree<'b>>,
    },
    /// A `for` statement: `ForStatement` (ECMA-262, 14.7.4). `(for ForInit? Expression? Expression? Statement)`
    For {
        /// Ids and span of the node.
        at: At,
        /// The first part of the head, or none.
        init: Option<ForInitTree<'b>>,
        /// The condition, an expression, or none.
        test: Option<ExpressionTree<'b>>,
        /// The expression that is evaluated after the body, or none.
        update: Option<ExpressionTree<'b>>,
        /// The statement that is repeated.
        body: StatementTree<'b>,
    },
    /// A `while` statement: `WhileStatement` (ECMA-262, 14.7.3). `(while Expression Statement)`
    While {
        /// Ids and span of the node.
        at: At,
        /// The condition, an expression.
        test: ExpressionTree<'b>,
        /// The statement that is repeated.
        body: StatementTree<'b>,
    },
    /// A `do`-`while` statement: `DoWhileStatement` (ECMA-262, 14.7.2). `(dowhile Statement Expression)`
    DoWhile {
        /// Ids and span of the node.
        at: At,
        /// The statement that is repeated.
        body: StatementTree<'b>,
        /// The condition, an expression.
        test: ExpressionTree<'b>,
    },
    /// A `for`-`in` statement: `ForInStatement` (ECMA-262, 14.7.5). `(forin ForHead Expression Statement)`
    ForIn {
        /// Ids and span of the node.
        at: At,
        /// The declaration or target of each key.
        left: ForHeadTree<'b>,
        /// The object whose keys are taken, an expression.
        right: ExpressionTree<'b>,
        /// The statement that is repeated.
        body: StatementTree<'b>,
    },
    /// A `for`-`of` statement: `ForOfStatement` (ECMA-262, 14.7.5); `is_await` is true of `for await`.
    /// `(forof FLAG ForHead Expression Statement)`
    ForOf {
        /// Ids and span of the node.
        at: At,
        /// True of `for await`.
        is_await: bool,
        /// The declaration or target of each value.
        left: ForHeadTree<'b>,
        /// The object whose values are taken, an expression.
        right: ExpressionTree<'b>,
        /// The statement that is repeated.
        body: StatementTree<'b>,
    },
    /// A `switch` statement: `SwitchStatement` (ECMA-262, 14.12); its scope is that of the clauses.
    /// `(switch Expression [SwitchCase])`
    Switch {
        /// Ids and span of the node.
        at: At,
        /// The value that is compared with the tests of the clauses, an expression.
        discriminant: ExpressionTree<'b>,
        /// The clauses, in order.
        cases: SwitchCaseTrees<'b>,
    },
    /// A `try` statement: `TryStatement` (ECMA-262, 14.15). `(try BlockStatement CatchClause? BlockStatement?)`
    Try {
        /// Ids and span of the node.
        at: At,
        /// The block that is tried.
        block: BlockStatementTree<'b>,
        /// The `catch` clause, or none.
        handler: Option<CatchClauseTree<'b>>,
        /// The `finally` block, or none.
        finalizer: Option<BlockStatementTree<'b>>,
    },
    /// A `break` statement: `BreakStatement` (ECMA-262, 14.9). `(break TEXT?)`
    Break {
        /// Ids and span of the node.
        at: At,
        /// The label, or none.
        label: Option<&'b Text>,
    },
    /// A `continue` statement: `ContinueStatement` (ECMA-262, 14.8). `(continue TEXT?)`
    Continue {
        /// Ids and span of the node.
        at: At,
        /// The label, or none.
        label: Option<&'b Text>,
    },
    /// A labelled statement: `LabeledStatement` (ECMA-262, 14.13). `(labeled TEXT Statement)`
    Labeled {
        /// Ids and span of the node.
        at: At,
        /// The label.
        label: &'b Text,
        /// The statement that has the label.
        body: StatementTree<'b>,
    },
    /// A `with` statement: `WithStatement` (ECMA-262, 14.11). `(with Expression Statement)`
    With {
        /// Ids and span of the node.
        at: At,
        /// The object whose properties are names in the body, an expression.
        object: ExpressionTree<'b>,
        /// The statement that is executed.
        body: StatementTree<'b>,
    },
    /// A declaration of variables (ECMA-262, 14.3).
    Variables(VariableDeclarationTree<'b>),
    /// A function declaration (ECMA-262, 15.2).
    Function(FunctionDeclarationTree<'b>),
    /// A class declaration: `Class` (ECMA-262, 15.7). `(classdecl BindingIdentifier? Expression? [ClassElement])`
    Class {
        /// Ids and span of the node.
        at: At,
        /// The name, or none.
        name: Option<BindingIdentifierTree<'b>>,
        /// The class that is extended, an expression, or none.
        super_class: Option<ExpressionTree<'b>>,
        /// The members, in order.
        members: ClassElementTrees<'b>,
    },
    /// A type alias: `TSTypeAliasDeclaration`. `(typealias BindingIdentifier TypeAnnotation)`
    TypeAlias {
        /// Ids and span of the node.
        at: At,
        /// The name.
        name: BindingIdentifierTree<'b>,
        /// The type that the alias stands for.
        annotation: TypeAnnotationTree<'b>,
    },
    /// An interface, by its name: `TSInterfaceDeclaration`. `(interface BindingIdentifier)`
    Interface {
        /// Ids and span of the node.
        at: At,
        /// The name.
        name: BindingIdentifierTree<'b>,
    },
    /// An enum, by its name: `TSEnumDeclaration`. `(enum BindingIdentifier)`
    Enum {
        /// Ids and span of the node.
        at: At,
        /// The name.
        name: BindingIdentifierTree<'b>,
    },
    /// A namespace, by its name: `TSModuleDeclaration`. `(namespace BindingIdentifier)`
    Namespace {
        /// Ids and span of the node.
        at: At,
        /// The name.
        name: BindingIdentifierTree<'b>,
    },
    /// An import: `ImportDeclaration` (ECMA-262, 16.2.2). `(import TEXT [ImportSpecifier])`
    Import {
        /// Ids and span of the node.
        at: At,
        /// The name of the module.
        source: &'b Text,
        /// The bindings that are imported, in order.
        specifiers: ImportSpecifierTrees<'b>,
    },
    /// An export of a declaration: `ExportNamedDeclaration` (ECMA-262, 16.2.3). `(export Statement)`
    Export {
        /// Ids and span of the node.
        at: At,
        /// The declaration.
        declaration: StatementTree<'b>,
    },
    /// A default export: `ExportDefaultDeclaration` (ECMA-262, 16.2.3). `(exportdefault ExportDefault)`
    ExportDefault {
        /// Ids and span of the node.
        at: At,
        /// The declaration or value that is exported.
        declaration: ExportDefaultTree<'b>,
    },
    /// An export of declared names: `ExportNamedDeclaration` (ECMA-262, 16.2.3). `(exportlist [IdentifierReference])`
    ExportList {
        /// Ids and span of the node.
        at: At,
        /// The names that are exported, in order.
        names: IdentifierReferenceTrees<'b>,
    },
    /// An export from another module; its names are not kept (ECMA-262, 16.2.3). `(exportfrom TEXT)`
    ExportFrom {
        /// Ids and span of the node.
        at: At,
        /// The name of the module.
        source: &'b Text,
    },
}

/// A level of a tree of the sort `Statement`.
#[tactic(auto, using(rl_grammar::proofs::Viewing::viewing))]
pub fn statement_view(tree: StatementTree<'_>) -> Statement<'_>
    ensures { seen_statement result ≡ syntax tree.entry.tree.now }
{
    let (at, word, parts) = node_of(tree.tree);
    match word {
        Word::Empty => Statement::Empty { at },
        Word::Debugger => Statement::Debugger { at },
        Word::Expr => {
            let expression = one(parts);
            Statement::Expression {
                at,
                expression: Tree::new(expression),
            }
        }
        Word::Return => {
            let argument = one(parts);
            Statement::Return {
                at,
                argument: Tree::optional(argument),
            }
        }
        Word::Throw => {
            let argument = one(parts);
            Statement::Throw {
                at,
                argument: Tree::new(argument),
            }
        }
        Word::Block => Statement::Block(Tree::new(tree.tree)),
        Word::If => {
            let (test, consequent, alternate) = three(parts);
            Statement::If {
                at,
                test: Tree::new(test),
                consequent: Tree::new(consequent),
                alternate: Tree::optional(alternate),
            }
        }
        Word::For => {
            let (init, test, update, body) = four(parts);
            Statement::For {
                at,
                init: Tree::optional(init),
                test: Tree::optional(test),
                update: Tree::optional(update),
                body: Tree::new(body),
            }
        }
        Word::While => {
            let (test, body) = two(parts);
            Statement::While {
                at,
                test: Tree::new(test),
                body: Tree::new(body),
            }
        }
        Word::Dowhile => {
            let (body, test) = two(parts);
            Statement::DoWhile {
                at,
                body: Tree::new(body),
                test: Tree::new(test),
            }
        }
        Word::Forin => {
            let (left, right, body) = three(parts);
            Statement::ForIn {
                at,
                left: Tree::new(left),
                right: Tree::new(right),
                body: Tree::new(body),
            }
        }
        Word::Forof => {
            let (is_await, left, right, body) = four(parts);
            Statement::ForOf {
                at,
                is_await: flag_of(is_await),
                left: Tree::new(left),
                right: Tree::new(right),
                body: Tree::new(body),
            }
        }
        Word::Switch => {
            let (discriminant, cases) = two(parts);
            Statement::Switch {
                at,
                discriminant: Tree::new(discriminant),
                cases: Trees::new(items_of(cases)),
            }
        }
        Word::Try => {
            let (block, handler, finalizer) = three(parts);
            Statement::Try {
                at,
                block: Tree::new(block),
                handler: Tree::optional(handler),
                finalizer: Tree::optional(finalizer),
            }
        }
        Word::Break => {
            let label = one(parts);
            Statement::Break {
                at,
                label: optional_text(label),
            }
        }
        Word::Continue => {
            let label = one(parts);
            Statement::Continue {
                at,
                label: optional_text(label),
            }
        }
        Word::Labeled => {
            let (label, body) = two(parts);
            Statement::Labeled {
                at,
                label: text_of(label),
                body: Tree::new(body),
            }
        }
        Word::With => {
            let (object, body) = two(parts);
            Statement::With {
                at,
                object: Tree::new(object),
                body: Tree::new(body),
            }
        }
        Word::Var => Statement::Variables(Tree::new(tree.tree)),
        Word::Fundecl => Statement::Function(Tree::new(tree.tree)),
        Word::Classdecl => {
            let (name, super_class, members) = three(parts);
            Statement::Class {
                at,
                name: Tree::optional(name),
                super_class: Tree::optional(super_class),
                members: Trees::new(items_of(members)),
            }
        }
        Word::Typealias => {
            let (name, annotation) = two(parts);
            Statement::TypeAlias {
                at,
                name: Tree::new(name),
                annotation: Tree::new(annotation),
            }
        }
        Word::Interface => {
            let name = one(parts);
            Statement::Interface {
                at,
                name: Tree::new(name),
            }
        }
        Word::Enum => {
            let name = one(parts);
            Statement::Enum {
                at,
                name: Tree::new(name),
            }
        }
        Word::Namespace => {
            let name = one(parts);
            Statement::Namespace {
                at,
                name: Tree::new(name),
            }
        }
        Word::Import => {
            let (source, specifiers) = two(parts);
            Statement::Import {
                at,
                source: text_of(source),
                specifiers: Trees::new(items_of(specifiers)),
            }
        }
        Word::Export => {
            let declaration = one(parts);
            Statement::Export {
                at,
                declaration: Tree::new(declaration),
            }
        }
        Word::Exportdefault => {
            let declaration = one(parts);
            Statement::ExportDefault {
                at,
                declaration: Tree::new(declaration),
            }
        }
        Word::Exportlist => {
            let names = one(parts);
            Statement::ExportList {
                at,
                names: Trees::new(items_of(names)),
            }
        }
        Word::Exportfrom => {
            let source = one(parts);
            Statement::ExportFrom {
                at,
                source: text_of(source),
            }
        }
        _ => unreachable!(),
    }
}
