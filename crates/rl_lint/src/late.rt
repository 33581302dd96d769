//! The walk that looks for late declarations at the ends of paths.

ghost use Rattle.std.specs.Prelude.{◌≡◌, map};
ghost use Rattle.rl_lint.specs.Late as spec;
ghost use Rattle.rl_syntax.specs.Syntax.{pieces_of, syntax};

use crate::role::{Place, Role, item_place, place_below, role_of};
use rl_lint_hints::checks::is_on_path;
use rl_syntax::numbered::{At, Numbered};

/// True of the place of a pattern in a late declaration.
fn is_late(place: Place) -> bool
    ensures { result ≡ spec.is_late place }
{
    match place {
        Place::Late(_, _) => true,
        Place::Listed(_) => false,
        Place::Name(_) => false,
        Place::Elsewhere => false,
    }
}

/// True of a `bind` node of a late declaration, by its place.
fn is_late_bind(role: Role, place: Place) -> bool
    ensures { result ≡ spec.is_late_bind role place }
{
    match role {
        Role::Bind => is_late(place),
        _ => false,
    }
}

/// True of a tree at a place in which a late declaration is on a path, as are all nodes around it in the tree.
#[cycle(looking)]
#[tactic(auto, using(rl_syntax::proofs::Layers::by_layer))]
pub(crate) fn has_late(paths: &[bool], place: Place, tree: &Numbered) -> bool
    ensures { result ≡ spec.has_late paths.now place (syntax tree.now) }
{
    match tree {
        Numbered::Node(at, word, parts) => {
            if !is_on_path(paths, at.id) {
                return false;
            }
            let role = role_of(*word, parts.as_slice());
            is_late_bind(role, place) || has_late_from(paths, place, at, role, parts.as_slice())
        }
        Numbered::List(items) => {
            has_late_among(paths, item_place(place, items.as_slice()), items.as_slice())
        }
        Numbered::Text(_) => false,
        Numbered::Number(_) => false,
        Numbered::Flag(_) => false,
        Numbered::Absent => false,
    }
}

/// As `has_late`, of one of the parts of a node.
#[cycle(looking)]
fn has_late_from(paths: &[bool], place: Place, at: &At, role: Role, parts: &[Numbered]) -> bool
    ensures { result ≡ spec.has_late_from paths.now place at.now role 0 (pieces_of (map syntax parts.now)) }
{
    'parts: for (index, part) in parts.iter().enumerate() {
        if has_late(paths, place_below(place, at, role, index), part) {
            return true;
        }
    }
    false
}

/// As `has_late`, of one of the trees in a row that have the same place.
#[cycle(looking)]
fn has_late_among(paths: &[bool], place: Place, trees: &[Numbered]) -> bool
    ensures { result ≡ spec.has_late_among paths.now place (pieces_of (map syntax trees.now)) }
{
    'trees: for tree in trees {
        if has_late(paths, place, tree) {
            return true;
        }
    }
    false
}
