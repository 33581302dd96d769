//! The rules B2, B4 and B5 on names, and the symbols of declarations.

ghost use Rattle.std.specs.Prelude.{◌≡◌, [], IfOk, OnOk};
ghost use Rattle.rl_bindings.specs.Checks as check;
ghost use Rattle.rl_bindings.specs.NameRules as rules;

use crate::event::{BindKind, Bound, Event, Place};
use crate::resolve::Declaration;
use crate::symbol_table::{SymbolTable, is_own};
use rl_base::error::OutOfMemory;
use rl_base::list::List;
use std::alloc::Global;

/// The rules that the declarations of a symbol are subject to.
#[derive(Clone, Copy)]
pub struct Marks {
    /// True if one of them is lexical.
    pub lexical: bool,
    /// True if one of them is a parameter.
    pub param: bool,
    /// True if one of them is a type alias, an interface, an enum or a namespace.
    pub type_name: bool,
}

/// The marks of a symbol without declarations.
const NO_MARKS: Marks = Marks {
    lexical: false,
    param: false,
    type_name: false,
};

/// Result of the declarations so far: their symbols, and the rules that they break.
#[derive(Drop)]
pub struct Found {
    /// The symbols.
    pub symbols: SymbolTable,
    /// The marks of the symbols, by their numbers.
    pub marks: List<Marks>,
    /// The declarations, each with its symbol.
    pub declarations: List<Declaration>,
    /// True if B2 is broken.
    pub clashed: bool,
    /// True if B4 is broken.
    pub repeated: bool,
    /// True if B5 is broken.
    pub shared: bool,
}

/// True of the list of statements of a program, a body or a static block.
fn is_own_list(place: Place) -> bool
    ensures { result ≡ rules.is_own_list place }
{
    match place {
        Place::Program => true,
        Place::Body => true,
        _ => false,
    }
}

/// True of a lexical declaration, by its kind and the list that it stands in.
fn is_lexical(kind: BindKind, place: Place) -> bool
    ensures { result ≡ rules.is_lexical_at kind place }
{
    match kind {
        BindKind::Let => true,
        BindKind::Const => true,
        BindKind::Catch => true,
        BindKind::ClassDeclaration => true,
        BindKind::ImportDefault => true,
        BindKind::ImportNamespace => true,
        BindKind::ImportNamed => true,
        BindKind::FunctionDeclaration => !is_own_list(place),
        _ => false,
    }
}

/// True of `var`.
pub(crate) fn is_var(kind: BindKind) -> bool
    ensures { result ≡ rules.is_var kind }
{
    match kind {
        BindKind::Var => true,
        _ => false,
    }
}

/// True of a parameter.
fn is_param(kind: BindKind) -> bool
    ensures { result ≡ rules.is_param kind }
{
    match kind {
        BindKind::Param => true,
        _ => false,
    }
}

/// True of a type alias, an interface, an enum or a namespace.
fn is_type(kind: BindKind) -> bool
    ensures { result ≡ rules.is_type kind }
{
    match kind {
        BindKind::TypeAlias => true,
        BindKind::Interface => true,
        BindKind::Enum => true,
        BindKind::Namespace => true,
        _ => false,
    }
}

/// True of the list of a program.
fn is_program(place: Place) -> bool
    ensures { result ≡ rules.is_program place }
{
    match place {
        Place::Program => true,
        _ => false,
    }
}

/// True of a namespace that does not stand in the program's list.
fn is_misplaced(kind: BindKind, place: Place) -> bool
    ensures { result ≡ rules.is_misplaced_at kind place }
{
    match kind {
        BindKind::Namespace => !is_program(place),
        _ => false,
    }
}

/// The marks of a declaration.
fn marks_of(bound: &Bound) -> Marks
    ensures { result ≡ check.marks_of bound.now }
{
    Marks {
        lexical: is_lexical(bound.kind, bound.place),
        param: is_param(bound.kind),
        type_name: is_type(bound.kind),
    }
}

/// The marks of a symbol with the marks `first`, and with one more declaration with the marks `second`.
fn both_marks(first: Marks, second: Marks) -> Marks
    ensures { result ≡ check.both_marks first second }
{
    Marks {
        lexical: first.lexical || second.lexical,
        param: first.param || second.param,
        type_name: first.type_name || second.type_name,
    }
}

/// The marks of a symbol, by those of all symbols. None for no symbol.
fn marks_at(marks: &[Marks], symbol: Option<usize>) -> Marks
    ensures { result ≡ check.marks_at marks.now symbol }
{
    match symbol {
        Some(number) => match marks.get(number) {
            Some(found) => *found,
            None => NO_MARKS,
        },
        None => NO_MARKS,
    }
}

/// Adds the marks of a declaration to those of its symbol, or appends them as those of a new symbol. On `OutOfMemory`, an
/// allocation failed.
fn add_marks(marks: &mut List<Marks>, symbol: Option<usize>, more: Marks) -> Result<(), OutOfMemory>
    ensures { OnOk result (marks.new ≡ check.add_marks marks.old symbol more) }
{
    match symbol {
        Some(number) => {
            if number < marks.len() {
                let both = both_marks(marks_at(marks.as_slice(), symbol), more);
                *marks.item_mut(number) = both;
            }
            Ok(())
        }
        None => {
            marks.push(more)?;
            Ok(())
        }
    }
}

/// The symbol of the declaration's name and scope that is an own name if the declaration is none, and the other way round. `None`
/// for a declaration that is neither an own name nor a type: no rule asks for its other symbol.
fn other_symbol(symbols: &SymbolTable, bound: &Bound) -> Option<usize>
    ensures { result ≡ check.other_symbol symbols.now bound.now }
{
    let own = is_own(bound.kind);
    if own || is_type(bound.kind) {
        symbols.find(!own, bound.scope, bound.name as usize)
    } else {
        None
    }
}

/// True if B2 is broken by a declaration whose symbol is `known`, with the marks `earlier`.
fn is_clash(bound: &Bound, known: bool, earlier: Marks) -> bool
    ensures { result ≡ check.is_clash bound.now known earlier }
{
    if is_own(bound.kind) {
        false
    } else if is_lexical(bound.kind, bound.place) {
        known
    } else {
        earlier.lexical
    }
}

/// True if B5 is broken by a declaration. `known` says that its symbol or the other one has declarations before it, and `typed`
/// that one of these is a type.
fn is_share(bound: &Bound, known: bool, typed: bool) -> bool
    ensures { result ≡ check.is_share bound.now known typed }
{
    if is_misplaced(bound.kind, bound.place) {
        true
    } else if is_type(bound.kind) {
        known
    } else {
        typed
    }
}

/// Adds a declaration to the result of those so far. On `OutOfMemory`, an allocation failed.
fn step(found: &mut Found, bound: Bound) -> Result<(), OutOfMemory>
    ensures { OnOk result (found.new ≡ check.step found.old bound) }
{
    let other = other_symbol(&found.symbols, &bound);
    let next = found.symbols.as_slice().len();
    let known = found.symbols.add(bound)?;
    let earlier = marks_at(found.marks.as_slice(), known);
    let others = marks_at(found.marks.as_slice(), other);
    add_marks(&mut found.marks, known, marks_of(&bound))?;
    found.declarations.push(Declaration {
        node: bound.node,
        symbol: Some(known.unwrap_or(next)),
    })?;
    found.clashed = found.clashed || is_clash(&bound, known.is_some(), earlier);
    found.repeated = found.repeated || (is_param(bound.kind) && earlier.param);
    found.shared = found.shared
        || is_share(
            &bound,
            known.is_some() || other.is_some(),
            earlier.type_name || others.type_name,
        );
    Ok(())
}

/// Number of the declarations among events: the room for them and for their symbols.
fn count_binds(events: &[Event]) -> usize {
    let mut count: usize = 0;
    for event in events {
        if let Event::Bind(_) = event {
            count = count.saturating_add(1);
        }
    }
    count
}

/// Result of no declarations, with room for `binds`. On `OutOfMemory`, an allocation failed.
fn nothing_found(alloc: Global, binds: usize) -> Result<Found, OutOfMemory>
    ensures { IfOk result (λ found. found ≡ check.start) }
{
    Ok(Found {
        symbols: SymbolTable::with_slots(alloc, binds)?,
        marks: List::with_capacity(alloc, binds)?,
        declarations: List::with_capacity(alloc, binds)?,
        clashed: false,
        repeated: false,
        shared: false,
    })
}

/// Result of the declarations among events. On `OutOfMemory`, an allocation failed.
pub fn check_all(alloc: Global, events: &[Event]) -> Result<Found, OutOfMemory>
    ensures { IfOk result (λ found. found ≡ check.steps check.start events.now) }
{
    let mut found = nothing_found(alloc, count_binds(events))?;
    for event in events {
        if let Event::Bind(bound) = event {
            step(&mut found, *bound)?;
        }
    }
    Ok(found)
}

/// The symbols that the lexical declarations among events make by themselves. On `OutOfMemory`, an allocation failed.
pub fn lexical_of(alloc: Global, events: &[Event]) -> Result<SymbolTable, OutOfMemory>
    ensures { IfOk result (λ symbols. symbols ≡ check.lexical_steps [] events.now) }
{
    let mut symbols = SymbolTable::with_slots(alloc, count_binds(events))?;
    for event in events {
        if let Event::Bind(bound) = event {
            if is_lexical(bound.kind, bound.place) {
                symbols.add(*bound)?;
            }
        }
    }
    Ok(symbols)
}
