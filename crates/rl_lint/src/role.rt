//! Roles of nodes in the rules on names: all that these know of the grammar.

ghost use Rattle.std.specs.Prelude.{◌≡◌, map, option_map};
ghost use Rattle.rl_lint.specs.Roles as spec;
ghost use Rattle.rl_semantic.specs.Imports.{first_text};
ghost use Rattle.rl_syntax.specs.Syntax.{pieces_of, syntax};

use rl_base::ids::{NodeId, ScopeId};
use rl_base::text::Text;
use rl_syntax::numbered::{At, Numbered};
use rl_syntax::parts::{is_absent, split_first};
use rl_syntax::word::Word;

/// Role of a node, by its word and its parts.
#[derive(Clone, Copy)]
pub enum Role {
    /// A use of a name.
    Use,
    /// A name that is declared.
    Bind,
    /// A function, but a declaration with a body.
    Function,
    /// A function declaration with a body: its fourth part is its name.
    Declared,
    /// A declaration of variables, but `var`.
    Variables,
    /// A class declaration: its first part is its name.
    Class,
    /// A pattern, all parts of which are patterns too.
    Pattern,
    /// A declarator, or a pattern with a default: the first part is a pattern.
    First,
    /// A property of a pattern: the third part is a pattern.
    Third,
    /// A type.
    Hidden,
    /// An expression with type arguments: its second part.
    Arguments,
    /// Any other node.
    Plain,
}

/// Place of a node among declarations.
#[derive(Clone, Copy)]
pub enum Place {
    /// The list whose first item is this node.
    Listed(NodeId),
    /// A pattern of the statement `.1` in the list whose first statement is `.0`.
    Late(NodeId, NodeId),
    /// The name of the function declaration that makes this scope.
    Name(ScopeId),
    /// Any other place.
    Elsewhere,
}

/// A summary of what stands above a node.
#[derive(Clone, Copy)]
pub struct Above {
    /// True in a type.
    pub in_type: bool,
    /// The innermost function around. The unit's node outside functions.
    pub function: NodeId,
    /// The place among declarations.
    pub place: Place,
}

/// The first part, if it is a text.
#[tactic(auto, using(rl_syntax::proofs::Layers::by_layer))]
pub(crate) fn first_text(parts: &[Numbered]) -> Option<&Text>
    ensures { option_map (λ t. t.now) result ≡ first_text (pieces_of (map syntax parts.now)) }
{
    match parts {
        [] => None,
        [part, _parts @ ..] => match part {
            Numbered::Text(text) => Some(text),
            Numbered::Node(_, _, _) => None,
            Numbered::List(_) => None,
            Numbered::Number(_) => None,
            Numbered::Flag(_) => None,
            Numbered::Absent => None,
        },
    }
}

/// True of the parts of a declaration of variables of the kind `var`.
fn is_var(parts: &[Numbered]) -> bool
    ensures { result ≡ spec.is_var (pieces_of (map syntax parts.now)) }
{
    match first_text(parts) {
        Some(text) => text.as_str() == "var",
        None => false,
    }
}

/// True of the parts of a function declaration with a body.
fn has_body(parts: &[Numbered]) -> bool
    ensures { result ≡ spec.has_body (pieces_of (map syntax parts.now)) }
{
    let Some((_marked, parts)) = split_first(parts) else {
        return false;
    };
    let Some((_is_async, parts)) = split_first(parts) else {
        return false;
    };
    let Some((_generator, parts)) = split_first(parts) else {
        return false;
    };
    let Some((_name, parts)) = split_first(parts) else {
        return false;
    };
    let Some((_params, parts)) = split_first(parts) else {
        return false;
    };
    match split_first(parts) {
        Some((body, _parts)) => !is_absent(body),
        None => false,
    }
}

/// Role of a function declaration, with a body or without.
fn function_role(with_body: bool) -> Role
    ensures { result ≡ spec.function_role with_body }
{
    if with_body {
        Role::Declared
    } else {
        Role::Function
    }
}

/// Role of a declaration of variables, of the kind `var` or another.
fn variables_role(of_var: bool) -> Role
    ensures { result ≡ spec.variables_role of_var }
{
    if of_var { Role::Plain } else { Role::Variables }
}

/// Role of a node.
pub(crate) fn role_of(word: Word, parts: &[Numbered]) -> Role
    ensures { result ≡ spec.role_of word (pieces_of (map syntax parts.now)) }
{
    match word {
        Word::Id => Role::Use,
        Word::Bind => Role::Bind,
        Word::Arrow => Role::Function,
        Word::Funexpr => Role::Function,
        Word::Fundecl => function_role(has_body(parts)),
        Word::Var => variables_role(is_var(parts)),
        Word::Classdecl => Role::Class,
        Word::Arraypat => Role::Pattern,
        Word::Objectpat => Role::Pattern,
        Word::Rest => Role::Pattern,
        Word::Declarator => Role::First,
        Word::Defaultpat => Role::First,
        Word::Keyedpat => Role::Third,
        Word::Type => Role::Hidden,
        Word::Instantiate => Role::Arguments,
        _ => Role::Plain,
    }
}

/// True in the part at an index of a node that is a type, or holds type arguments.
fn type_below(in_type: bool, role: Role, index: usize) -> bool
    ensures { result ≡ spec.type_below in_type role index }
{
    match role {
        Role::Hidden => true,
        Role::Arguments => in_type || index == 1,
        _ => in_type,
    }
}

/// The innermost function around the parts of a node.
fn function_below(function: NodeId, at: &At, role: Role) -> NodeId
    ensures { result ≡ spec.function_below function at.now role }
{
    match role {
        Role::Function => at.id,
        Role::Declared => at.id,
        _ => function,
    }
}

/// The place of a declaration's patterns, if it stands directly in a list.
fn declaring(place: Place, at: &At) -> Place
    ensures { result ≡ spec.declaring place at.now }
{
    match place {
        Place::Listed(first) => Place::Late(first, at.id),
        Place::Late(_, _) => Place::Elsewhere,
        Place::Name(_) => Place::Elsewhere,
        Place::Elsewhere => Place::Elsewhere,
    }
}

/// The place of a pattern's parts that are patterns too.
fn kept(place: Place) -> Place
    ensures { result ≡ spec.kept place }
{
    match place {
        Place::Late(first, statement) => Place::Late(first, statement),
        Place::Listed(_) => Place::Elsewhere,
        Place::Name(_) => Place::Elsewhere,
        Place::Elsewhere => Place::Elsewhere,
    }
}

/// The place `place` at the index `wanted`, and no place at any other.
fn only_at(place: Place, wanted: usize, index: usize) -> Place
    ensures { result ≡ spec.only_at place wanted index }
{
    if index == wanted {
        place
    } else {
        Place::Elsewhere
    }
}

/// The place of the part at an index of a node.
pub(crate) fn place_below(place: Place, at: &At, role: Role, index: usize) -> Place
    ensures { result ≡ spec.place_below place at.now role index }
{
    match role {
        Role::Variables => declaring(place, at),
        Role::Class => only_at(declaring(place, at), 0, index),
        Role::Pattern => kept(place),
        Role::First => only_at(kept(place), 0, index),
        Role::Third => only_at(kept(place), 2, index),
        Role::Declared => only_at(Place::Name(at.scope), 3, index),
        _ => Place::Elsewhere,
    }
}

/// The summary for the part at an index of a node.
pub(crate) fn below(above: &Above, at: &At, role: Role, index: usize) -> Above
    ensures { result ≡ spec.below above.now at.now role index }
{
    Above {
        in_type: type_below(above.in_type, role, index),
        function: function_below(above.function, at, role),
        place: place_below(above.place, at, role, index),
    }
}

/// Id of the first of some trees, if it is a node; 0 if it is none.
#[tactic(auto, using(rl_syntax::proofs::Layers::by_layer))]
fn first_id(items: &[Numbered]) -> NodeId
    ensures { result ≡ spec.first_id (pieces_of (map syntax items.now)) }
{
    match items {
        [] => NodeId(0),
        [item, _items @ ..] => match item {
            Numbered::Node(at, _, _) => at.id,
            Numbered::Text(_) => NodeId(0),
            Numbered::List(_) => NodeId(0),
            Numbered::Number(_) => NodeId(0),
            Numbered::Flag(_) => NodeId(0),
            Numbered::Absent => NodeId(0),
        },
    }
}

/// The place of the items of a list.
pub(crate) fn item_place(place: Place, items: &[Numbered]) -> Place
    ensures { result ≡ spec.item_place place (pieces_of (map syntax items.now)) }
{
    match place {
        Place::Late(first, statement) => Place::Late(first, statement),
        Place::Listed(_) => Place::Listed(first_id(items)),
        Place::Name(_) => Place::Listed(first_id(items)),
        Place::Elsewhere => Place::Listed(first_id(items)),
    }
}

/// The summary for the items of a list.
pub(crate) fn listed(above: &Above, items: &[Numbered]) -> Above
    ensures { result ≡ spec.listed above.now (pieces_of (map syntax items.now)) }
{
    Above {
        in_type: above.in_type,
        function: above.function,
        place: item_place(above.place, items),
    }
}

/// Nothing stands above a unit.
pub(crate) fn top() -> Above
    ensures { result ≡ spec.top }
{
    Above {
        in_type: false,
        function: NodeId(0),
        place: Place::Elsewhere,
    }
}
