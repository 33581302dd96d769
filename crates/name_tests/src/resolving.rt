//! Calls of a builder that resolve names, as one text each.

use crate::texts::{Builder, push_number, push_truth, push_word, ready};
use rl_ast::binding::IdentifierReference;
use rl_base::error::OutOfMemory;
use rl_base::ids::{IdentifierId, NodeId, ReferenceId, ScopeId, SymbolId};
use rl_base::span::Span;
use rl_base::stop::Stop;
use rl_base::text::Text;
use rl_builder::builder::{Bindings, UsedNames};
use rl_builder::copies::{copy_context, copy_symbols};
use rl_builder::unit_tables::ReadsUnit;
use rl_hir::binding::VariableBinding;
use rl_hir::environment::Environment;
use rl_hir::function::IdentifierName;
use rl_syntax::numbered::At;
use std::alloc::Global;

/// The symbol of `x` in the unit of these tests, behind an import and a parameter.
const X: SymbolId = SymbolId(2);

/// A span of tests.
fn span() -> Span {
    Span { start: 3, end: 5 }
}

/// The use of a name, of the reference id `reference`.
fn used(name: &Text, reference: u32) -> IdentifierReference<'_> {
    IdentifierReference {
        at: At {
            id: NodeId(0),
            end: NodeId(1),
            scope: ScopeId(0),
            reference: ReferenceId(reference),
            span: span(),
        },
        name,
    }
}

/// Appends the name of an identifier.
pub fn push_identifier(
    alloc: Global,
    text: &mut String,
    env: &Environment,
    identifier: IdentifierId,
) -> Result<(), OutOfMemory> {
    let Some(entry) = env.identifiers().get(identifier.0 as usize) else {
        return Ok(());
    };
    match &entry.name {
        Some(IdentifierName::Named(name)) => push_word(alloc, text, name.as_str()),
        Some(IdentifierName::Promoted(_)) => Ok(()),
        None => Ok(()),
    }
}

/// Gives a symbol its identifier, and appends its name, or the row that refuses it.
pub fn push_name<U: ReadsUnit>(
    alloc: Global,
    text: &mut String,
    builder: &mut Builder<'_, U>,
    name: &str,
    symbol: SymbolId,
) -> Result<(), OutOfMemory> {
    ready(builder)?;
    match builder.resolve_binding(name, symbol) {
        Ok(identifier) => push_identifier(alloc, text, builder.environment(), identifier),
        Err(Stop::Diagnostic(diagnostic)) => push_word(alloc, text, diagnostic.row.name()),
        Err(Stop::OutOfMemory) => Err(OutOfMemory),
    }
}

/// Appends the identifier and the kind of a local variable, or the kind of another name.
fn push_variable(
    alloc: Global,
    text: &mut String,
    variable: &VariableBinding,
) -> Result<(), OutOfMemory> {
    match variable {
        VariableBinding::Identifier {
            identifier,
            binding_kind,
        } => {
            push_number(alloc, text, Some(identifier.0))?;
            text.push_str(format!(in alloc; "{binding_kind:?} ")?.as_str())?;
            Ok(())
        }
        VariableBinding::Global { .. } => push_word(alloc, text, "global"),
        VariableBinding::ImportDefault { .. } => push_word(alloc, text, "default"),
        VariableBinding::ImportSpecifier { imported, .. } => push_word(
            alloc,
            text,
            imported.as_str(),
        ),
        VariableBinding::ImportNamespace { .. } => push_word(alloc, text, "namespace"),
        VariableBinding::ModuleLocal { .. } => push_word(alloc, text, "module"),
    }
}

/// Resolves a use of a name, and appends the variable that it stands for, or the row that stops it.
fn push_use<U: ReadsUnit>(
    alloc: Global,
    text: &mut String,
    builder: &mut Builder<'_, U>,
    name: &str,
    reference: u32,
) -> Result<(), OutOfMemory> {
    ready(builder)?;
    let name = Text::from_str(alloc, name)?;
    match builder.resolve_identifier(&used(&name, reference)) {
        Ok(variable) => push_variable(alloc, text, &variable),
        Err(Stop::Diagnostic(diagnostic)) => push_word(alloc, text, diagnostic.row.name()),
        Err(Stop::OutOfMemory) => Err(OutOfMemory),
    }
}

/// The variables that `x`, `g`, `i` and `class` stand for, which are the references 0 to 3.
pub fn uses<U: ReadsUnit>(alloc: Global, builder: &mut Builder<'_, U>) -> Result<String, Stop> {
    let mut text = String::new(alloc);
    push_use(alloc, &mut text, builder, "x", 0)?;
    push_use(alloc, &mut text, builder, "g", 1)?;
    push_use(alloc, &mut text, builder, "i", 2)?;
    push_use(alloc, &mut text, builder, "class", 3)?;
    Ok(text)
}

/// True of the symbol of `x` as a context identifier before and behind its addition, by the symbol and by the reference 0 to
/// it; then true of the names `x` and `g` if the function binds them.
pub fn contexts<U: ReadsUnit>(alloc: Global, builder: &mut Builder<'_, U>) -> Result<String, Stop> {
    let mut text = String::new(alloc);
    let symbol = Some(X);
    push_truth(alloc, &mut text, builder.is_context_binding(symbol))?;
    builder.add_context_identifier(X)?;
    push_truth(alloc, &mut text, builder.is_context_binding(symbol))?;
    let name = Text::from_str(alloc, "x")?;
    push_truth(
        alloc,
        &mut text,
        builder.is_context_identifier(&used(&name, 0)),
    )?;
    push_truth(alloc, &mut text, builder.has_local_binding("x"))?;
    push_truth(alloc, &mut text, builder.has_local_binding("g"))?;
    Ok(text)
}

/// Appends where a span begins, or `-`.
fn push_span(alloc: Global, text: &mut String, span: Option<Span>) -> Result<(), OutOfMemory> {
    push_number(alloc, text, span.map(|span| span.start))
}

/// Appends where the span of an identifier begins, or `-`.
fn push_span_of<U: ReadsUnit>(
    alloc: Global,
    text: &mut String,
    builder: &Builder<'_, U>,
    identifier: IdentifierId,
) -> Result<(), OutOfMemory> {
    let entry = builder
        .environment()
        .identifiers()
        .get(identifier.0 as usize);
    push_span(alloc, text, entry.and_then(|entry| entry.span))
}

/// Offsets at which spans begin: that of the declaration of `x`, that of its identifier, and the one that the identifier is
/// given.
pub fn spans<U: ReadsUnit>(alloc: Global, builder: &mut Builder<'_, U>) -> Result<String, Stop> {
    let mut text = String::new(alloc);
    push_span(alloc, &mut text, builder.declaration_span(X))?;
    ready(builder)?;
    let identifier = builder.resolve_binding_with_span("x", X, span())?;
    push_span_of(alloc, &mut text, builder, identifier)?;
    if (identifier.0 as usize) < builder.environment().identifiers().len() {
        builder.set_identifier_declaration_span(identifier, span());
    }
    push_span_of(alloc, &mut text, builder, identifier)?;
    Ok(text)
}

/// A text, and the names and identifiers of the builder of an inner function.
#[derive(Drop)]
struct Resolved {
    text: String,
    bindings: Bindings,
    used_names: UsedNames,
}

/// Resolves `name` in a builder over the environment of `parent`, which begins with copies of its tables. On `OutOfMemory` an
/// allocation failed.
fn resolve_over<U: ReadsUnit>(
    alloc: Global,
    parent: &mut Builder<'_, U>,
    name: &str,
    symbol: SymbolId,
) -> Result<Resolved, OutOfMemory> {
    ready(parent)?;
    let unit = parent.unit();
    let scope = parent.function_scope();
    let component = parent.component_scope();
    let context_identifiers = copy_symbols(parent.context_identifiers())?;
    let bindings = parent.bindings().copy()?;
    let context = copy_context(parent.context())?;
    let used_names = parent.used_names().copy(alloc)?;
    let mut child = Builder::over(
        alloc,
        parent.environment_mut(),
        unit,
        scope,
        component,
        context_identifiers,
        Some(bindings),
        Some(context),
        None,
        Some(used_names),
    )?;
    let mut text = String::new(alloc);
    push_name(alloc, &mut text, &mut child, name, symbol)?;
    Ok(Resolved {
        text,
        bindings: child.bindings().copy()?,
        used_names: child.used_names().copy(alloc)?,
    })
}

/// The name that a symbol gets in an inner function whose builder begins with the names of this one, and the name of the next
/// symbol here behind the merge.
pub fn captures<U: ReadsUnit>(alloc: Global, builder: &mut Builder<'_, U>) -> Result<String, Stop> {
    let mut text = String::new(alloc);
    push_name(alloc, &mut text, builder, "x", X)?;
    let inner = resolve_over(alloc, builder, "x", SymbolId(1))?;
    push_word(alloc, &mut text, inner.text.as_str().trim_ascii())?;
    builder.merge_used_names(inner.used_names)?;
    builder.merge_bindings(inner.bindings)?;
    let symbol = builder.bindings().get(SymbolId(1));
    push_number(alloc, &mut text, symbol.map(|identifier| identifier.0))?;
    push_name(alloc, &mut text, builder, "x", SymbolId(0))?;
    Ok(text)
}
