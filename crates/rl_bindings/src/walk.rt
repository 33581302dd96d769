//! A walk over a tree: the events of its nodes in the order of the text, the names that they declare and use, and the rules that
//! do not speak of names.

ghost use Rattle.std.specs.Prelude.{◌≡◌, ◌+◌, ◌^◌, ◌<◌, ◌≤◌, ◌++◌, take, drop, length, map, IfOk, OnOk};
ghost use Rattle.rl_bindings.specs.Events.{events, trail, sign, front, back, top};
ghost use Rattle.rl_bindings.specs.Names.{names_in, texts, texts_of};
ghost use Rattle.rl_bindings.specs.Roles as roles;
ghost use Rattle.rl_bindings.specs.Walks.{Walked, said_by};
ghost use Rattle.rl_rules.specs.Following.{followed, keeps_all, node_passes};
ghost use Rattle.rl_rules.specs.Following as rules;
ghost use Rattle.rl_rules.specs.Marks.{bodies, bodies_among};
ghost use Rattle.rl_rules.specs.Walks.{passes, parts_pass, items_pass};
ghost use Rattle.rl_syntax.specs.Sizes.{size_of};
ghost use Rattle.rl_syntax.specs.Syntax.{Node, pieces_of, syntax};

use crate::event::{BindKind, Bound, Event, Place, ScopeEntry};
use crate::names::{Name, add_said};
use crate::quiet::{inside, is_quiet, is_silent};
use crate::role::{
    Above, Role, below, outside, parent_of, parts_ahead, role_of, scope_kind, scope_of,
};
use rl_base::error::OutOfMemory;
use rl_base::ids::ScopeId;
use rl_base::name_table::NameTable;
use rl_rules::following::{Context, is_kept, outermost, part_below, test_node};
use rl_syntax::numbered::{At, Numbered};
use rl_syntax::word::Word;
use std::alloc::Global;

/// The largest number of slots for names.
const MOST_SLOTS: usize = 16_777_216;

/// Appends the scope that a node makes, if it makes one. On `OutOfMemory`, an allocation failed.
fn push_sign(
    out: &mut Vec<Event>,
    role: Role,
    above: Above,
    at: At,
    word: Word,
) -> Result<(), OutOfMemory>
    ensures { OnOk result (out.new.items ≡ out.old.items ++ sign role above at word) }
{
    match role {
        Role::Maker => {
            out.push(Event::Scope(ScopeEntry {
                node: at.id,
                kind: scope_kind(word),
                parent: parent_of(above, word),
            }))?;
            Ok(())
        }
        Role::Binder => Ok(()),
        Role::User => Ok(()),
        Role::Plain => Ok(()),
    }
}

/// Appends the event of a node before the parts that stand in its scope, and adds its name. On `OutOfMemory`, an allocation
/// failed.
#[tactic(auto, using(crate::proofs::Walks::by_role))]
fn push_front(
    alloc: Global,
    out: &mut Vec<Event>,
    names: &mut NameTable<Name>,
    role: Role,
    above: Above,
    at: At,
    parts: &[Numbered],
) -> Result<(), OutOfMemory>
    ensures { OnOk result (Walked names.old names.new (said_by role (pieces_of (map syntax parts.now))) out.old.items out.new.items (λ later. front later role above at (pieces_of (map syntax parts.now)))) }
{
    match role {
        Role::Maker => {
            out.push(Event::Open(at.scope))?;
            Ok(())
        }
        Role::Binder => {
            let name = add_said(alloc, names, parts)?;
            out.push(Event::Bind(Bound {
                node: at.id,
                span: at.span,
                name,
                scope: scope_of(above),
                kind: above.kind,
                place: above.place,
            }))?;
            Ok(())
        }
        Role::User => {
            let name = add_said(alloc, names, parts)?;
            out.push(Event::Use(at.id, name))?;
            Ok(())
        }
        Role::Plain => Ok(()),
    }
}

/// Appends the event of a node behind its parts. On `OutOfMemory`, an allocation failed.
fn push_back(out: &mut Vec<Event>, role: Role) -> Result<(), OutOfMemory>
    ensures { OnOk result (out.new.items ≡ out.old.items ++ back role) }
{
    match role {
        Role::Maker => {
            out.push(Event::Close)?;
            Ok(())
        }
        Role::Binder => Ok(()),
        Role::User => Ok(()),
        Role::Plain => Ok(()),
    }
}

/// The parts of a node that stand before the scope that it makes, and the others.
#[tactic(auto, using(crate::proofs::ListParts::split_past, crate::proofs::ListParts::taken_less, crate::proofs::ListParts::dropped_less))]
fn split_parts(word: Word, parts: &[Numbered]) -> (&[Numbered], &[Numbered])
    ensures ahead { result.0.now ≡ take (roles.parts_ahead word) parts.now }
    ensures behind { result.1.now ≡ drop (roles.parts_ahead word) parts.now }
    ensures within { length result.0.now + length result.1.now ≡ length parts.now }
    ensures fewer_ahead { size_of (pieces_of (map syntax result.0.now)) ≤ size_of (pieces_of (map syntax parts.now)) }
    ensures fewer_behind { size_of (pieces_of (map syntax result.1.now)) ≤ size_of (pieces_of (map syntax parts.now)) }
{
    let count = parts_ahead(word);
    if count <= parts.len() {
        parts.split_at(count)
    } else {
        (parts, &[])
    }
}

/// Appends the events of a tree, by what stands above it, and adds its names. Tests its nodes by the rules B1 and B6 to B9:
/// `kept` is what is known of these, and `context` the tree's context. On `OutOfMemory`, an allocation failed.
#[cycle(walking)]
#[inline(always)]
#[tactic(auto, using(rl_syntax::proofs::Layers::by_layer))]
fn push_events(
    alloc: Global,
    out: &mut Vec<Event>,
    names: &mut NameTable<Name>,
    kept: &mut Option<bool>,
    above: Above,
    context: Context,
    tree: &Numbered,
) -> Result<(), OutOfMemory>
    ensures walked { OnOk result (Walked names.old names.new (texts (syntax tree.now)) out.old.items out.new.items (λ later. events later above (syntax tree.now))) }
    ensures kept { OnOk result (kept.new ≡ followed kept.old (passes node_passes rules.part_below context (syntax tree.now)) (bodies (syntax tree.now))) }
{
    match tree {
        Numbered::Node(at, word, parts) => {
            let parts = parts.as_slice();
            // Most nodes are silent: they take no more than this.
            if is_silent(context, *word) {
                push_all(alloc, out, names, kept, inside(above), outermost(), parts)?;
                return Ok(());
            }
            push_node(alloc, out, names, kept, above, context, at, *word, parts)?;
            Ok(())
        }
        Numbered::List(parts) => {
            push_all(alloc, out, names, kept, above, context, parts.as_slice())?;
            Ok(())
        }
        Numbered::Text(_) => Ok(()),
        Numbered::Number(_) => Ok(()),
        Numbered::Flag(_) => Ok(()),
        Numbered::Absent => Ok(()),
    }
}

/// As `push_events`, for a node, by its word and its parts. On `OutOfMemory`, an allocation failed.
#[cycle(walking)]
fn push_node(
    alloc: Global,
    out: &mut Vec<Event>,
    names: &mut NameTable<Name>,
    kept: &mut Option<bool>,
    above: Above,
    context: Context,
    at: &At,
    word: Word,
    parts: &[Numbered],
) -> Result<(), OutOfMemory>
    ensures walked { OnOk result (Walked names.old names.new (texts (Node at.now word (pieces_of (map syntax parts.now)))) out.old.items out.new.items (λ later. events later above (Node at.now word (pieces_of (map syntax parts.now))))) }
    ensures kept { OnOk result (kept.new ≡ followed kept.old (passes node_passes rules.part_below context (Node at.now word (pieces_of (map syntax parts.now)))) (bodies (Node at.now word (pieces_of (map syntax parts.now))))) }
{
    let role = role_of(word);
    if is_quiet(context, word) {
        push_front(alloc, out, names, role, above, *at, parts)?;
        push_all(alloc, out, names, kept, inside(above), outermost(), parts)?;
        return Ok(());
    }
    let inner = below(above, *at, word, parts);
    *kept = test_node(*kept, context, word, parts);
    match role {
        Role::Maker => {
            let outer = outside(above, word);
            let (ahead, behind) = split_parts(word, parts);
            push_sign(out, role, above, *at, word)?;
            push_parts(alloc, out, names, kept, outer, context, word, 0, ahead)?;
            push_front(alloc, out, names, role, above, *at, parts)?;
            push_parts(
                alloc,
                out,
                names,
                kept,
                inner,
                context,
                word,
                ahead.len(),
                behind,
            )?;
            push_back(out, role)?;
            Ok(())
        }
        Role::Binder => {
            push_front(alloc, out, names, role, above, *at, parts)?;
            push_parts(alloc, out, names, kept, inner, context, word, 0, parts)?;
            Ok(())
        }
        Role::User => {
            push_front(alloc, out, names, role, above, *at, parts)?;
            push_parts(alloc, out, names, kept, inner, context, word, 0, parts)?;
            Ok(())
        }
        Role::Plain => {
            push_parts(alloc, out, names, kept, inner, context, word, 0, parts)?;
            Ok(())
        }
    }
}

/// As `push_events`, for parts in a row of a node of the word `word`, whose context is `context`. The first of them is its part
/// at the index `start`. On `OutOfMemory`, an allocation failed.
#[cycle(walking)]
fn push_parts(
    alloc: Global,
    out: &mut Vec<Event>,
    names: &mut NameTable<Name>,
    kept: &mut Option<bool>,
    above: Above,
    context: Context,
    word: Word,
    start: usize,
    parts: &[Numbered],
) -> Result<(), OutOfMemory>
    requires { start + length parts.now < 2 ^ 64 }
    ensures walked { OnOk result (Walked names.old names.new (texts_of (pieces_of (map syntax parts.now))) out.old.items out.new.items (λ later. trail later 0 above (pieces_of (map syntax parts.now)))) }
    ensures kept { OnOk result (kept.new ≡ followed kept.old (parts_pass node_passes rules.part_below context word start (pieces_of (map syntax parts.now))) (bodies_among (pieces_of (map syntax parts.now)))) }
{
    'parts: for (index, part) in parts.iter().enumerate() {
        let inner = part_below(context, word, start + index);
        push_events(alloc, out, names, kept, above, inner, part)?;
    }
    Ok(())
}

/// As `push_events`, for the items of a list. On `OutOfMemory`, an allocation failed.
#[cycle(walking)]
fn push_all(
    alloc: Global,
    out: &mut Vec<Event>,
    names: &mut NameTable<Name>,
    kept: &mut Option<bool>,
    above: Above,
    context: Context,
    trees: &[Numbered],
) -> Result<(), OutOfMemory>
    ensures walked { OnOk result (Walked names.old names.new (texts_of (pieces_of (map syntax trees.now))) out.old.items out.new.items (λ later. trail later 0 above (pieces_of (map syntax trees.now)))) }
    ensures kept { OnOk result (kept.new ≡ followed kept.old (items_pass node_passes rules.part_below context (pieces_of (map syntax trees.now))) (bodies_among (pieces_of (map syntax trees.now)))) }
{
    'trees: for tree in trees {
        push_events(alloc, out, names, kept, above, context, tree)?;
    }
    Ok(())
}

/// The names of a tree, its events, and what a walk over it knows of the rules.
#[derive(Drop)]
pub struct Found {
    /// The names, each once, in the order in which they come first.
    pub names: NameTable<Name>,
    /// The events, in the order of the text.
    pub events: Vec<Event>,
    /// True if the tree keeps the rules B1 and B6 to B9.
    pub kept: bool,
}

/// Number of slots for the names of a tree with about `nodes` nodes. Names that end in numbers share fewer slots among a power
/// of two than among other numbers of slots, where the slots of neighbours are often the same.
fn slots_for(nodes: usize) -> usize {
    nodes.min(MOST_SLOTS).next_power_of_two()
}

/// The names of a unit's tree, its events, and whether it keeps the rules B1 and B6 to B9. `nodes` is about the number of nodes
/// of the tree. On `OutOfMemory`, an allocation failed.
#[tactic(auto, using(crate::proofs::Walks::all_named, crate::proofs::Walks::all_walked, rl_rules::proofs::KeptOn::kept_whole))]
pub fn walk(alloc: Global, nodes: usize, tree: &Numbered) -> Result<Found, OutOfMemory>
    ensures names { IfOk result (λ found. found.names ≡ names_in (syntax tree.now)) }
    ensures events { IfOk result (λ found. found.events.items ≡ events found.names top (syntax tree.now)) }
    ensures kept { IfOk result (λ found. found.kept ≡ keeps_all (syntax tree.now)) }
{
    let above = Above {
        scope: ScopeId(0),
        function: ScopeId(0),
        kind: BindKind::Var,
        place: Place::Inner,
    };
    let mut names = NameTable::with_slots(alloc, slots_for(nodes))?;
    let mut events = Vec::with_capacity(alloc, nodes)?;
    let mut kept = Some(false);
    push_events(
        alloc,
        &mut events,
        &mut names,
        &mut kept,
        above,
        outermost(),
        tree,
    )?;
    Ok(Found {
        names,
        events,
        kept: is_kept(kept),
    })
}
