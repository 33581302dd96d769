//! Rule B8, and rule B5 of namespaces: the places where declarations stand.

ghost use Rattle.std.specs.Prelude.{◌≡◌, map};
ghost use Rattle.rl_rules.specs.Declarations as spec;
ghost use Rattle.rl_rules.specs.Pieces.{first_is};
ghost use Rattle.rl_syntax.specs.Syntax.{pieces_of, syntax};

use crate::pieces::{behind, first_is_absent};
use crate::walk::{Rule, passes};
use rl_grammar::kind::Kind;
use rl_grammar::rules::rule;
use rl_syntax::numbered::Numbered;
use rl_syntax::word::Word;

/// The place of a node, by what may be declared there.
#[derive(Clone, Copy)]
pub enum Place {
    /// The list of a program.
    Program,
    /// The list of a block, a body, a case or a static block, or the head of a `for`, `forin` or `forof`.
    Statements,
    /// An export of a declaration.
    Export,
    /// A default export.
    DefaultExport,
    /// The bindings of an import.
    Specifiers,
    /// Any other place.
    Elsewhere,
}

/// The declaration that a node makes.
#[derive(Clone, Copy)]
enum Declared {
    /// Variables, of any kind.
    Variables,
    /// A function, by its fourth part.
    Function,
    /// A class, by its first part.
    Class,
    /// A type alias, an interface or an enum.
    Type,
    /// A namespace, of the program or of an import.
    Namespace,
    /// Nothing.
    Nothing,
}

/// The declaration that the nodes of a word make.
#[inline(always)]
fn declared_by(word: Word) -> Declared
    ensures { result ≡ spec.declared_by word }
{
    match word {
        Word::Var => Declared::Variables,
        Word::Fundecl => Declared::Function,
        Word::Classdecl => Declared::Class,
        Word::Typealias => Declared::Type,
        Word::Interface => Declared::Type,
        Word::Enum => Declared::Type,
        Word::Namespace => Declared::Namespace,
        _ => Declared::Nothing,
    }
}

/// The place `at` for the part at the index `wanted` of a node, `Elsewhere` at any other index.
#[inline(always)]
fn only_at(at: Place, wanted: usize, index: usize) -> Place
    ensures { result ≡ spec.only_at at wanted index }
{
    if index == wanted {
        at
    } else {
        Place::Elsewhere
    }
}

/// True of the kind `var`.
#[tactic(auto, using(rl_syntax::proofs::Layers::by_layer))]
fn is_var_kind(tree: &Numbered) -> bool
    ensures { result ≡ spec.is_var_kind (syntax tree.now) }
{
    match tree {
        Numbered::Text(text) => text.as_str() == "var",
        Numbered::Node(_, _, _) => false,
        Numbered::List(_) => false,
        Numbered::Number(_) => false,
        Numbered::Flag(_) => false,
        Numbered::Absent => false,
    }
}

/// True of parts whose first is the kind `var`.
fn first_is_var_kind(parts: &[Numbered]) -> bool
    ensures { result ≡ first_is spec.is_var_kind (pieces_of (map syntax parts.now)) }
{
    match parts {
        [] => false,
        [part, _parts @ ..] => is_var_kind(part),
    }
}

/// True if a declaration of variables with the parts may stand at the place.
fn variables_stand(at: Place, parts: &[Numbered]) -> bool
    ensures { result ≡ spec.variables_stand at (pieces_of (map syntax parts.now)) }
{
    match at {
        Place::Program => true,
        Place::Statements => true,
        Place::Export => true,
        Place::DefaultExport => false,
        Place::Specifiers => first_is_var_kind(parts),
        Place::Elsewhere => first_is_var_kind(parts),
    }
}

/// True if a declaration of a function or class may stand at the place. The first of the parts is its name.
fn named_stands(at: Place, parts: &[Numbered]) -> bool
    ensures { result ≡ spec.named_stands at (pieces_of (map syntax parts.now)) }
{
    match at {
        Place::Program => !first_is_absent(parts),
        Place::Statements => !first_is_absent(parts),
        Place::Export => !first_is_absent(parts),
        Place::DefaultExport => true,
        Place::Specifiers => false,
        Place::Elsewhere => false,
    }
}

/// True if a type alias, interface or enum may stand at the place.
fn type_stands(at: Place) -> bool
    ensures { result ≡ spec.type_stands at }
{
    match at {
        Place::Program => true,
        Place::Statements => true,
        Place::Export => true,
        Place::DefaultExport => false,
        Place::Specifiers => false,
        Place::Elsewhere => false,
    }
}

/// True if a namespace may stand at the place.
fn namespace_stands(at: Place) -> bool
    ensures { result ≡ spec.namespace_stands at }
{
    match at {
        Place::Program => true,
        Place::Statements => false,
        Place::Export => false,
        Place::DefaultExport => false,
        Place::Specifiers => true,
        Place::Elsewhere => false,
    }
}

/// True of the words of expressions.
fn is_expression(word: Word) -> bool
    ensures { result ≡ spec.is_expression word }
{
    match rule(Kind::Expression, word) {
        Some(_) => true,
        None => false,
    }
}

/// True if a node that declares nothing may stand at the place.
#[inline(always)]
fn other_stands(at: Place, word: Word) -> bool
    ensures { result ≡ spec.other_stands at word }
{
    match at {
        Place::Program => true,
        Place::Statements => true,
        Place::Export => false,
        Place::DefaultExport => is_expression(word),
        Place::Specifiers => true,
        Place::Elsewhere => true,
    }
}

/// Rule B8. The context of a node is its place.
pub(crate) struct Declarations;

impl Rule for Declarations {
    type Above = Place;

    ghost test = { spec.node_stands };

    ghost below = { spec.place_below };

    #[inline(always)]
    fn test(at: Place, word: Word, parts: &[Numbered]) -> bool {
        match declared_by(word) {
            Declared::Variables => variables_stand(at, parts),
            Declared::Function => named_stands(at, behind(behind(behind(parts)))),
            Declared::Class => named_stands(at, parts),
            Declared::Type => type_stands(at),
            Declared::Namespace => namespace_stands(at),
            Declared::Nothing => other_stands(at, word),
        }
    }

    #[inline(always)]
    fn below(_above: Place, word: Word, index: usize) -> Place {
        match word {
            Word::Program => only_at(Place::Program, 0, index),
            Word::Block => only_at(Place::Statements, 0, index),
            Word::Body => only_at(Place::Statements, 1, index),
            Word::Case => only_at(Place::Statements, 1, index),
            Word::Static => only_at(Place::Statements, 0, index),
            Word::For => only_at(Place::Statements, 0, index),
            Word::Forin => only_at(Place::Statements, 0, index),
            Word::Forof => only_at(Place::Statements, 1, index),
            Word::Export => only_at(Place::Export, 0, index),
            Word::Exportdefault => only_at(Place::DefaultExport, 0, index),
            Word::Import => only_at(Place::Specifiers, 1, index),
            _ => Place::Elsewhere,
        }
    }
}

/// Rule B8, and rule B5 of namespaces. True of a tree whose declarations other than `var` stand in lists of statements (of a
/// program, block, body, case or static block), in the head of a `for`, `forin` or `forof`, or in an export; whose functions and
/// classes lack a name only as default exports; whose exports hold declarations, and default exports an expression, a function or
/// a class; and whose namespaces stand only in the list of a program. Imports and exports stand anywhere.
pub fn keeps_declarations(tree: &Numbered) -> bool
    ensures { result ≡ spec.keeps_declarations (syntax tree.now) }
{
    passes::<Declarations>(Place::Elsewhere, tree)
}
