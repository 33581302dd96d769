//! Members of classes, and bindings of imports: views of one level. Written by tools/syntax.py from tools/grammar.txt.
//! Types in backquotes are those of oxc_ast.

ghost use Rattle.std.specs.Prelude.{◌≡◌};
ghost use Rattle.rl_syntax.specs.Syntax.{syntax};
ghost use Rattle.rl_ast.specs.ClassViews.{seen_class_element, seen_import_specifier};

use rl_base::text::Text;
use rl_grammar::parts::{items_of, one, two};
use rl_grammar::sort::{
    BindingIdentifierTree, ClassElementTree, ExpressionTree, FunctionExpressionTree,
    ImportSpecifierTree, StatementTrees,
};
use rl_grammar::tree::{Tree, Trees};
use rl_syntax::numbered::At;
use rl_syntax::parts::{node_of, text_of};
use rl_syntax::word::Word;

/// A member of a class (ECMA-262, 15.7); the names and keys of members are not kept.
#[derive(Clone, Copy)]
pub enum ClassElement<'b> {
    /// A method, by its function: `MethodDefinition` (ECMA-262, 15.7). `(method FunctionExpression)`
    Method {
        /// Ids and span of the node.
        at: At,
        /// The function.
        function: FunctionExpressionTree<'b>,
    },
    /// A field, by its initializer: `PropertyDefinition` (ECMA-262, 15.7). `(field Expression?)`
    Field {
        /// Ids and span of the node.
        at: At,
        /// The initializer, an expression, or none.
        value: Option<ExpressionTree<'b>>,
    },
    /// A static block: `StaticBlock` (ECMA-262, 15.7). `(static [Statement])`
    Static {
        /// Ids and span of the node.
        at: At,
        /// The statements, in order.
        body: StatementTrees<'b>,
    },
}

/// A level of a tree of the sort `ClassElement`.
#[tactic(auto, using(rl_grammar::proofs::Viewing::viewing))]
pub fn class_element_view(tree: ClassElementTree<'_>) -> ClassElement<'_>
    ensures { seen_class_element result ≡ syntax tree.entry.tree.now }
{
    let (at, word, parts) = node_of(tree.tree);
    match word {
        Word::Method => {
            let function = one(parts);
            ClassElement::Method {
                at,
                function: Tree::new(function),
            }
        }
        Word::Field => {
            let value = one(parts);
            ClassElement::Field {
                at,
                value: Tree::optional(value),
            }
        }
        Word::Static => {
            let body = one(parts);
            ClassElement::Static {
                at,
                body: Trees::new(items_of(body)),
            }
        }
        _ => unreachable!(),
    }
}

/// A binding of an import: `ImportDeclarationSpecifier` (ECMA-262, 16.2.2).
#[derive(Clone, Copy)]
pub enum ImportSpecifier<'b> {
    /// The default export: `ImportDefaultSpecifier`. `(default BindingIdentifier)`
    Default {
        /// Ids and span of the node.
        at: At,
        /// The name that is declared.
        local: BindingIdentifierTree<'b>,
    },
    /// All exports as one object, `* as a`: `ImportNamespaceSpecifier`. `(namespace BindingIdentifier)`
    Namespace {
        /// Ids and span of the node.
        at: At,
        /// The name that is declared.
        local: BindingIdentifierTree<'b>,
    },
    /// An export by its name, `a as b`: `ImportSpecifier`. `(named TEXT BindingIdentifier)`
    Named {
        /// Ids and span of the node.
        at: At,
        /// The name that the other module exports.
        imported: &'b Text,
        /// The name that is declared.
        local: BindingIdentifierTree<'b>,
    },
}

/// A level of a tree of the sort `ImportSpecifier`.
#[tactic(auto, using(rl_grammar::proofs::Viewing::viewing))]
pub fn import_specifier_view(tree: ImportSpecifierTree<'_>) -> ImportSpecifier<'_>
    ensures { seen_import_specifier result ≡ syntax tree.entry.tree.now }
{
    let (at, word, parts) = node_of(tree.tree);
    match word {
        Word::Default => {
            let local = one(parts);
            ImportSpecifier::Default {
                at,
                local: Tree::new(local),
            }
        }
        Word::Namespace => {
            let local = one(parts);
            ImportSpecifier::Namespace {
                at,
                local: Tree::new(local),
            }
        }
        Word::Named => {
            let (imported, local) = two(parts);
            ImportSpecifier::Named {
                at,
                imported: text_of(imported),
                local: Tree::new(local),
            }
        }
        _ => unreachable!(),
    }
}
