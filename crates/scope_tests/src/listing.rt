//! Tables of a unit as one text each.

use rl_ast::read::read_tree;
use rl_scope::{
    ImportBindingData, NodeId, ReferenceId, ScopeId, ScopeResolver, Semantic, SymbolId, Unit,
};
use std::alloc::{AllocError, Global};
use std::process::Abort;
use std::test::Fail;

/// A statement with a marked function, `() => null`.
pub const MARKED: &str = "(expr (arrow y n (params [] -) (null)))";

/// The unit of these statements, and of the statement `last` behind them.
pub fn read(alloc: Global, statements: &str, last: &str) -> Result<Unit, Fail> {
    let separator = if statements.is_empty() || last.is_empty() {
        ""
    } else {
        " "
    };
    let text = format!(in alloc; "(unit [] (program [{statements}{separator}{last}]))")?;
    Ok(read_tree(alloc, text.as_bytes())?)
}

/// Appends a symbol's number, or `-`.
fn push_symbol(
    alloc: Global,
    text: &mut String,
    symbol: Option<SymbolId>,
) -> Result<(), AllocError> {
    match symbol {
        Some(symbol) => {
            let number = symbol.0;
            text.push_str(format!(in alloc; " {number}")?.as_str())
        }
        None => text.push_str(" -"),
    }
}

/// Appends each scope's kind and parent, or `-`.
fn push_scopes(
    alloc: Global,
    text: &mut String,
    resolver: &ScopeResolver<'_>,
) -> Result<(), AllocError> {
    let mut number = 0;
    for _ in resolver.semantic.bindings.scopes.as_slice() {
        let kind = resolver.scope_kind(ScopeId(number));
        match resolver.scope_parent(ScopeId(number)) {
            Some(parent) => {
                let parent = parent.0;
                text.push_str(format!(in alloc; " {kind:?} {parent}")?.as_str())?;
            }
            None => text.push_str(format!(in alloc; "{kind:?} -")?.as_str())?,
        }
        number = number.saturating_add(1);
    }
    Ok(())
}

/// Appends each symbol's name, scope, and kinds.
fn push_symbols(
    alloc: Global,
    text: &mut String,
    resolver: &ScopeResolver<'_>,
) -> Result<(), AllocError> {
    for symbol in resolver.symbols() {
        let name = resolver.symbol_name(symbol);
        let scope = resolver.symbol_scope(symbol).0;
        let binding = resolver.binding_kind(symbol);
        let declaration = resolver.decl_kind(symbol).as_str();
        text.push_str(format!(in alloc; " {name} {scope} {binding:?} {declaration}")?.as_str())?;
    }
    Ok(())
}

/// Appends each reference's symbol, or `-`.
fn push_references(
    alloc: Global,
    text: &mut String,
    resolver: &ScopeResolver<'_>,
) -> Result<(), AllocError> {
    let mut number = 0;
    for _ in resolver.semantic.bindings.references.as_slice() {
        push_symbol(
            alloc,
            text,
            resolver.symbol_of_reference(ReferenceId(number)),
        )?;
        number = number.saturating_add(1);
    }
    Ok(())
}

/// The scopes, each by its kind and its parent; the symbols, each by its name, its scope and its kinds; and the symbol of each
/// reference.
fn names(alloc: Global, resolver: &ScopeResolver<'_>) -> Result<String, AllocError> {
    let mut text = String::new(alloc);
    push_scopes(alloc, &mut text, resolver)?;
    text.push_str(";")?;
    push_symbols(alloc, &mut text, resolver)?;
    text.push_str(";")?;
    push_references(alloc, &mut text, resolver)?;
    Ok(text)
}

/// Appends the node that captures of each function count from, and the ranges of text of all functions.
fn push_functions(
    alloc: Global,
    text: &mut String,
    resolver: &ScopeResolver<'_>,
) -> Result<(), AllocError> {
    for scope in resolver.function_scopes() {
        let root = resolver.capture_root_node(scope).0;
        text.push_str(format!(in alloc; " {root}")?.as_str())?;
    }
    text.push_str(";")?;
    for (start, end) in resolver.function_scope_ranges() {
        text.push_str(format!(in alloc; " {start}..{end}")?.as_str())?;
    }
    Ok(())
}

/// Appends the scopes of the functions that a node stands inside of, if there are any.
fn push_containing(
    alloc: Global,
    text: &mut String,
    resolver: &ScopeResolver<'_>,
    node: u32,
) -> Result<(), AllocError> {
    let mut is_first = true;
    for scope in resolver.containing_function_scopes(NodeId(node)) {
        if is_first {
            text.push_str(format!(in alloc; "; {node}:")?.as_str())?;
            is_first = false;
        }
        let number = scope.0;
        text.push_str(format!(in alloc; " {number}")?.as_str())?;
    }
    Ok(())
}

/// The node that captures of each function count from; the ranges of text of all functions; and for each node inside a function
/// the scopes of the functions around it.
fn functions(alloc: Global, resolver: &ScopeResolver<'_>) -> Result<String, AllocError> {
    let mut text = String::new(alloc);
    push_functions(alloc, &mut text, resolver)?;
    let mut node = 0;
    for _ in resolver.semantic.nodes {
        push_containing(alloc, &mut text, resolver, node)?;
        node = node.saturating_add(1);
    }
    Ok(text)
}

/// The name of the export that an import names, or `-`.
fn imported_name(data: &ImportBindingData) -> &str {
    match &data.imported {
        Some(imported) => imported.as_str(),
        None => "-",
    }
}

/// Appends the data of a symbol's import, or `-`.
fn push_import(
    alloc: Global,
    text: &mut String,
    resolver: &ScopeResolver<'_>,
    symbol: SymbolId,
) -> Result<(), Fail> {
    match resolver.import_data(alloc, symbol)? {
        Some(data) => {
            let source = data.source.as_str();
            let kind = data.kind;
            let imported = imported_name(&data);
            text.push_str(format!(in alloc; " {source} {kind:?} {imported};")?.as_str())?;
        }
        None => text.push_str(" -;")?,
    }
    Ok(())
}

/// The data of each symbol's import.
fn imports(alloc: Global, resolver: &ScopeResolver<'_>) -> Result<String, Fail> {
    let mut text = String::new(alloc);
    for symbol in resolver.symbols() {
        push_import(alloc, &mut text, resolver, symbol)?;
    }
    Ok(text)
}

/// A table of a unit.
#[derive(Clone, Copy)]
pub enum Table {
    /// Scopes, symbols and references.
    Names,
    /// Functions, and the functions around each node.
    Functions,
    /// Imports of the symbols.
    Imports,
}

/// A table as a text.
fn table_of(alloc: Global, resolver: &ScopeResolver<'_>, table: Table) -> Result<String, Fail> {
    match table {
        Table::Names => Ok(names(alloc, resolver)?),
        Table::Functions => Ok(functions(alloc, resolver)?),
        Table::Imports => imports(alloc, resolver),
    }
}

/// Checks a table of a resolver.
fn check_resolver(
    rt: &impl Abort,
    alloc: Global,
    resolver: &ScopeResolver<'_>,
    table: Table,
    wanted: &str,
) -> Result<(), Fail> {
    let text = table_of(alloc, resolver, table)?;
    assert_eq!(rt; text.as_str(), wanted);
    Ok(())
}

/// Checks a table of the names of a unit.
fn check_semantic(
    rt: &impl Abort,
    alloc: Global,
    semantic: &Semantic<'_>,
    table: Table,
    wanted: &str,
) -> Result<(), Fail> {
    let resolver = ScopeResolver::new(alloc, semantic)?;
    check_resolver(rt, alloc, &resolver, table, wanted)
}

/// Checks a table of a unit.
fn check_unit(
    rt: &impl Abort,
    alloc: Global,
    unit: &Unit,
    table: Table,
    wanted: &str,
) -> Result<(), Fail> {
    let semantic = Semantic::of(alloc, unit)?;
    check_semantic(rt, alloc, &semantic, table, wanted)
}

/// Checks a table of the unit of these statements, and of the statement `last` behind them.
pub fn check_before(
    rt: &impl Abort,
    alloc: Global,
    statements: &str,
    last: &str,
    table: Table,
    wanted: &str,
) -> Result<(), Fail> {
    let unit = read(alloc, statements, last)?;
    check_unit(rt, alloc, &unit, table, wanted)
}

/// Checks a table of the unit of these statements, with a marked function behind them.
pub fn check(
    rt: &impl Abort,
    alloc: Global,
    statements: &str,
    table: Table,
    wanted: &str,
) -> Result<(), Fail> {
    check_before(rt, alloc, statements, MARKED, table, wanted)
}
