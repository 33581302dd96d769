//! The rows of names.

ghost use Rattle.std.specs.Prelude.{◌≡◌, ◌&&◌, not, map, option_map};
ghost use Rattle.rl_model.specs.Applied as model;
ghost use Rattle.rl_model.specs.JsxText as texts;
ghost use Rattle.rl_row_names.specs.Named as spec;
ghost use Rattle.rl_syntax.specs.Syntax.{pieces_of, syntax};

use crate::facts::RowFacts;
use rl_base::ids::{NodeId, ReferenceId, SymbolId};
use rl_base::text::Text;
use rl_code::parts::{first, said_only, third_of_three};
use rl_row_forms::above::{Above, is_assigned, is_read};
use rl_row_forms::forms::first_said;
use rl_syntax::numbered::{At, Numbered};
use rl_syntax::word::Word;
use rl_used_names::reserved::is_always_reserved_word;

/// True if the name of a local variable is allowed.
pub fn local_is_clear(name: &Text) -> bool
    ensures { result ≡ spec.clear_local name.now }
{
    !is_always_reserved_word(name.as_str()) && name.as_str() != "fbt"
}

/// True if no row applies to a name that is used in a function without a body.
#[tactic(auto, using(crate::proofs::Named::used))]
pub fn used_is_clear<F: RowFacts>(facts: &F, reference: ReferenceId, name: &Text) -> bool
    ensures { result ≡ spec.clear_used name.now ((F.facts facts.now).names.meaning reference.0 name.now) }
{
    match facts.local(reference, name) {
        Some(_symbol) => local_is_clear(name),
        None => true,
    }
}

/// True if no row applies to a local variable that is used.
fn as_local_is_clear<F: RowFacts>(facts: &F, above: &Above, name: &Text, symbol: SymbolId) -> bool
    ensures { result ≡ spec.clear_as_local (F.facts facts.now) above.now name.now symbol.0 }
{
    local_is_clear(name) && !(is_assigned(above.used) && facts.is_const(symbol))
}

/// True if no row applies to a name that is used and is no local variable.
fn as_outer_is_clear<F: RowFacts>(
    facts: &F,
    above: &Above,
    reference: ReferenceId,
    name: &Text,
) -> bool
    ensures { result ≡ spec.clear_as_outer (F.facts facts.now) above.now reference.0 name.now }
{
    !(name.as_str() == "eval" && facts.is_global(reference) && is_read(above.used) && !above.tag)
}

/// True if no row applies to a name that is used.
#[tactic(auto, using(crate::proofs::Named::named))]
fn name_is_clear<F: RowFacts>(facts: &F, above: &Above, reference: ReferenceId, name: &Text) -> bool
    ensures { result ≡ spec.clear_name (F.facts facts.now) above.now reference.0 name.now ((F.facts facts.now).names.meaning reference.0 name.now) }
{
    match facts.local(reference, name) {
        Some(symbol) => as_local_is_clear(facts, above, name, symbol),
        None => as_outer_is_clear(facts, above, reference, name),
    }
}

/// True if no row applies to an `id` node.
#[tactic(auto, using(rl_row_forms::proofs::Shaped::by_item))]
pub fn id_is_clear<F: RowFacts>(
    facts: &F,
    above: &Above,
    reference: ReferenceId,
    parts: &[Numbered],
) -> bool
    ensures { result ≡ spec.clear_id (F.facts facts.now) above.now reference.0 (pieces_of (map syntax parts.now)) }
{
    match said_only(parts) {
        Some(name) => name_is_clear(facts, above, reference, name),
        None => true,
    }
}

/// True if the name of a declaration is allowed.
fn variable_is_clear<F: RowFacts>(facts: &F, bind: NodeId, name: &Text) -> bool
    ensures { result ≡ spec.clear_variable (F.facts facts.now) bind.0 name.now }
{
    if facts.is_variable(bind) {
        local_is_clear(name)
    } else {
        true
    }
}

/// True if no row applies to a declaration.
fn declaration_is_clear<F: RowFacts>(facts: &F, bind: NodeId, name: &Text) -> bool
    ensures { result ≡ (spec.clear_variable (F.facts facts.now) bind.0 name.now && not ((F.facts facts.now).is_lost bind.0)) }
{
    variable_is_clear(facts, bind, name) && !facts.is_lost(bind)
}

/// True if no row applies to a `bind` node.
#[tactic(auto, using(rl_row_forms::proofs::Shaped::by_item))]
pub fn bind_is_clear<F: RowFacts>(facts: &F, bind: NodeId, parts: &[Numbered]) -> bool
    ensures { result ≡ spec.clear_bind (F.facts facts.now) bind.0 (pieces_of (map syntax parts.now)) }
{
    match first_said(parts) {
        Some(name) => declaration_is_clear(facts, bind, name),
        None => true,
    }
}

/// True of the name of an `fbt` or `fbs` element.
pub fn is_fbt(name: &Text) -> bool
    ensures { result ≡ texts.is_fbt name.now }
{
    name.as_str() == "fbt" || name.as_str() == "fbs"
}

/// True of the only part of a tag, if it is the name of an `fbt` or `fbs` element that the marked function binds.
#[tactic(auto, using(rl_row_forms::proofs::Shaped::by_item))]
fn says_bound<F: RowFacts>(facts: &F, parts: &[Numbered]) -> bool
    ensures { result ≡ spec.says_bound (F.facts facts.now) (pieces_of (map syntax parts.now)) }
{
    match said_only(parts) {
        Some(name) => is_fbt(name) && facts.is_bound(name),
        None => false,
    }
}

/// As `says_bound`, of a node of the word `word`.
fn node_says_bound<F: RowFacts>(facts: &F, word: Word, parts: &[Numbered]) -> bool
    ensures { result ≡ spec.node_says_bound (F.facts facts.now) word (pieces_of (map syntax parts.now)) }
{
    match word {
        Word::Tag => says_bound(facts, parts),
        Word::Id => says_bound(facts, parts),
        _ => false,
    }
}

/// True of the tag of an `fbt` or `fbs` element whose name the marked function binds.
#[tactic(auto, using(crate::proofs::Named::tags, rl_syntax::proofs::Layers::by_layer))]
fn is_bound_tag<F: RowFacts>(facts: &F, tag: &Numbered) -> bool
    ensures { result ≡ model.is_bound_tag (F.facts facts.now) (syntax tag.now) }
{
    match tag {
        Numbered::Node(_, word, parts) => node_says_bound(facts, *word, parts.as_slice()),
        Numbered::List(_) => false,
        Numbered::Text(_) => false,
        Numbered::Number(_) => false,
        Numbered::Flag(_) => false,
        Numbered::Absent => false,
    }
}

/// True if no row applies to an `opening` node.
#[tactic(auto, using(rl_row_forms::proofs::Shaped::by_item))]
pub fn opening_is_clear<F: RowFacts>(facts: &F, parts: &[Numbered]) -> bool
    ensures { result ≡ spec.clear_opening (F.facts facts.now) (pieces_of (map syntax parts.now)) }
{
    match first(parts) {
        Some(tag) => !is_bound_tag(facts, tag),
        None => true,
    }
}

/// Ids and name of an `id` node, by its word. `None` of any other node.
fn id_of(at: At, word: Word, parts: &[Numbered]) -> Option<(At, &Text)>
    ensures { option_map (λ p. (p.0, p.1.now)) result ≡ spec.id_of at word (pieces_of (map syntax parts.now)) }
{
    match word {
        Word::Id => id_by(at, parts),
        _ => None,
    }
}

/// Ids and name of an `id` node, by its parts.
#[tactic(auto, using(rl_row_forms::proofs::Shaped::by_item))]
fn id_by(at: At, parts: &[Numbered]) -> Option<(At, &Text)>
    ensures { option_map (λ p. (p.0, p.1.now)) result ≡ spec.id_of at Word.Id (pieces_of (map syntax parts.now)) }
{
    match said_only(parts) {
        Some(name) => Some((at, name)),
        None => None,
    }
}

/// Ids and name of an `id` node. `None` of any other tree.
#[tactic(auto, using(crate::proofs::Named::ids, rl_syntax::proofs::Layers::by_layer))]
fn id_in(tree: &Numbered) -> Option<(At, &Text)>
    ensures { option_map (λ p. (p.0, p.1.now)) result ≡ spec.id_in (syntax tree.now) }
{
    match tree {
        Numbered::Node(at, word, parts) => id_of(*at, *word, parts.as_slice()),
        Numbered::List(_) => None,
        Numbered::Text(_) => None,
        Numbered::Number(_) => None,
        Numbered::Flag(_) => None,
        Numbered::Absent => None,
    }
}

/// Ids and name of the `id` node that an `update` node changes. `None` of any other target.
#[tactic(auto, using(crate::proofs::Named::targets))]
fn updated_in(parts: &[Numbered]) -> Option<(At, &Text)>
    ensures { option_map (λ p. (p.0, p.1.now)) result ≡ spec.updated_in (pieces_of (map syntax parts.now)) }
{
    match third_of_three(parts) {
        Some(target) => id_in(target),
        None => None,
    }
}

/// True if no row applies to the update of a name.
#[tactic(auto, using(crate::proofs::Named::updated))]
fn updated_is_clear<F: RowFacts>(facts: &F, at: At, name: &Text) -> bool
    ensures { result ≡ spec.clear_updated_name (F.facts facts.now) at name.now }
{
    match facts.local(at.reference, name) {
        Some(symbol) => !facts.is_context(at.id, symbol),
        None => false,
    }
}

/// True if no row applies to an `update` node.
#[tactic(auto, using(rl_row_forms::proofs::Shaped::by_item))]
pub fn update_is_clear<F: RowFacts>(facts: &F, parts: &[Numbered]) -> bool
    ensures { result ≡ spec.clear_update (F.facts facts.now) (pieces_of (map syntax parts.now)) }
{
    match updated_in(parts) {
        Some((at, name)) => updated_is_clear(facts, at, name),
        None => true,
    }
}
