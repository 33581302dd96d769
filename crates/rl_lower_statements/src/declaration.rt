//! Lowering of declarations of variables.

ghost use Rattle.std.specs.Prelude.{◌≡◌, ◌+◌, ◌<◌, length, true, map, OnOk, IfOk, IfErr};
ghost use Rattle.rl_syntax.specs.Syntax.{Node, Absent, Then, End, nodes, nodes_of, pieces_of, syntax};
ghost use Rattle.rl_ast.specs.BindingViews.{seen_binding_identifier};
ghost use Rattle.rl_syntax.specs.declared.numbered.At.{At};
ghost use Rattle.rl_builder.specs.Builder.{state_of};
ghost use Rattle.rl_lower_statements.specs.Declarators.{IsDeclared, IsMet, LowersDeclarator, respanned};
ghost use Rattle.rl_lowered.specs.Lowered.{LoweredDeclarators, declaring, kind_of};
ghost use Rattle.rl_lowered.specs.Named.{IsNamed};
ghost use Rattle.rl_lowered.specs.Promised.{HasRoom, LowersInit, LowersStatement, share};
ghost use Rattle.rl_promises.specs.Lowerable.{AreLowerable, DeclaresFree, IsLowerable};
ghost use Rattle.rl_promises.specs.Patterns.{takes_apart};
ghost use Rattle.rl_names.specs.Seen.{seen};

use crate::pattern::lower_pattern;
use rl_ast::binding::{
    BindingIdentifier, BindingPattern, binding_identifier_view, binding_pattern_view,
};
use rl_ast::statement_part::{variable_declaration_view, variable_declarator_view};
use rl_base::error::OutOfMemory;
use rl_base::ids::IdentifierId;
use rl_base::row::Row;
use rl_base::span::Span;
use rl_base::stop::Stop;
use rl_base::variable_kind::VariableKind;
use rl_builder::unit_tables::ReadsUnit;
use rl_grammar::sort::{
    BindingPatternTree, ExpressionTree, VariableDeclarationTree, VariableDeclaratorTree,
    VariableDeclaratorTrees,
};
use rl_hir::instruction::{InstructionKind, InstructionValue, Place};
use rl_lower_expressions::expression::lower_expression;
use rl_lower_parts::graph_builder::GraphBuilder;
use rl_lower_parts::name::resolve_variable;
use rl_lower_parts::temporary::{lower_undefined, lower_value_to_temporary, refuse};
use rl_names::names::FunctionNames;
use rl_syntax::word::Word;
use std::alloc::Global;

/// Records row F39 of a declaration by `var`.
fn note_keyword<U: ReadsUnit>(
    alloc: Global,
    builder: &mut GraphBuilder<'_, U>,
    kind: VariableKind,
    span: Span,
) -> Result<(), OutOfMemory>
    ensures same_reference { builder.new.env.ghost_name ≡ builder.old.env.ghost_name }
    ensures state { OnOk result (state_of U.tables builder.new ≡ declaring (state_of U.tables builder.old) kind span) }
{
    match kind {
        VariableKind::Var => refuse(alloc, builder, Row::F39, span),
        VariableKind::Let => Ok(()),
        VariableKind::Const => Ok(()),
        VariableKind::Using => Ok(()),
        VariableKind::AwaitUsing => Ok(()),
    }
}

/// The kind of the variables of a declaration.
fn kind_of(kind: VariableKind) -> InstructionKind
    ensures { result ≡ kind_of kind }
{
    match kind {
        VariableKind::Var => InstructionKind::Let,
        VariableKind::Let => InstructionKind::Let,
        VariableKind::Const => InstructionKind::Const,
        VariableKind::Using => InstructionKind::Const,
        VariableKind::AwaitUsing => InstructionKind::Const,
    }
}

/// The identifier of the variable that a `bind` node declares, which it gets here if it has none. On `Stop::OutOfMemory` an allocation
/// failed; no other stop comes.
pub fn resolve_declared<U: ReadsUnit>(
    builder: &mut GraphBuilder<'_, U>,
    names: &FunctionNames<'_>,
    bind: &BindingIdentifier<'_>,
) -> Result<IdentifierId, Stop>
    requires names { IsNamed (seen names.now) (state_of U.tables builder.old) }
    requires free { DeclaresFree (seen names.now) ((seen names.now).declared bind.now.at.id.0) }
    requires room { HasRoom (state_of U.tables builder.old) 2 }
    ensures same_reference { builder.new.env.ghost_name ≡ builder.old.env.ghost_name }
    ensures found { IfOk result (λ identifier. IsDeclared (seen names.now) bind.now.at
        (state_of U.tables builder.old) (state_of U.tables builder.new) identifier.0) }
    ensures memory { IfErr result (λ e. e ≡ Stop.OutOfMemory) }
{
    let Some(symbol) = names.declared(bind) else {
        unreachable!();
    };
    resolve_variable(builder, names, symbol, bind.at.span)
}

/// Gives an identifier the span of its name in the head of a loop, where `again` is true.
fn respan<U: ReadsUnit>(
    builder: &mut GraphBuilder<'_, U>,
    again: bool,
    identifier: IdentifierId,
    span: Span,
)
    requires within { identifier.0 < length (state_of U.tables builder.old).env.identifiers }
    ensures same_reference { builder.new.env.ghost_name ≡ builder.old.env.ghost_name }
    ensures state { state_of U.tables builder.new ≡ respanned again (state_of U.tables builder.old) identifier.0 span }
{
    if again {
        builder.set_identifier_declaration_span(identifier, span);
    }
}

/// The identifier of a variable that is declared. In the head of a loop, where `again` is true, it gets the span of its name there.
pub(crate) fn meet_declared<U: ReadsUnit>(
    builder: &mut GraphBuilder<'_, U>,
    names: &FunctionNames<'_>,
    again: bool,
    bind: &BindingIdentifier<'_>,
) -> Result<IdentifierId, Stop>
    requires names { IsNamed (seen names.now) (state_of U.tables builder.old) }
    requires free { DeclaresFree (seen names.now) ((seen names.now).declared bind.now.at.id.0) }
    requires room { HasRoom (state_of U.tables builder.old) 2 }
    ensures same_reference { builder.new.env.ghost_name ≡ builder.old.env.ghost_name }
    ensures met { IfOk result (λ identifier. IsMet (seen names.now) again bind.now.at
        (state_of U.tables builder.old) (state_of U.tables builder.new) identifier.0) }
    ensures memory { IfErr result (λ e. e ≡ Stop.OutOfMemory) }
{
    let identifier = resolve_declared(builder, names, bind)?;
    respan(builder, again, identifier, bind.at.span);
    Ok(identifier)
}

/// Lowers a declarator without an initializer: a declaration.
fn lower_declared<U: ReadsUnit>(
    builder: &mut GraphBuilder<'_, U>,
    names: &FunctionNames<'_>,
    kind: InstructionKind,
    bind: &BindingIdentifier<'_>,
) -> Result<(), Stop>
    requires names { IsNamed (seen names.now) (state_of U.tables builder.old) }
    requires free { DeclaresFree (seen names.now) ((seen names.now).declared bind.now.at.id.0) }
    requires room { HasRoom (state_of U.tables builder.old) 6 }
    ensures same_reference { builder.new.env.ghost_name ≡ builder.old.env.ghost_name }
    ensures lowered { OnOk result ((at : Span) (there : At)
        → LowersDeclarator (seen names.now) at kind (Node there Word.Declarator
        (Then (seen_binding_identifier bind.now) (Then Absent End))) (state_of U.tables builder.old) (state_of U.tables builder.new)) }
    ensures memory { IfErr result (λ e. e ≡ Stop.OutOfMemory) }
{
    let identifier = resolve_declared(builder, names, bind)?;
    let span = Some(bind.at.span);
    let value = InstructionValue::DeclareLocal {
        kind,
        place: Place { identifier, span },
    };
    lower_value_to_temporary(builder, value, span)?;
    Ok(())
}

/// Lowers a declarator with an initializer, in a declaration with the span: a store of its value.
fn lower_initialized<U: ReadsUnit>(
    alloc: Global,
    builder: &mut GraphBuilder<'_, U>,
    names: &FunctionNames<'_>,
    span: Span,
    kind: InstructionKind,
    bind: &BindingIdentifier<'_>,
    init: ExpressionTree<'_>,
) -> Result<(), Stop>
    requires names { IsNamed (seen names.now) (state_of U.tables builder.old) }
    requires free { DeclaresFree (seen names.now) ((seen names.now).declared bind.now.at.id.0) }
    requires may { IsLowerable (seen names.now) (syntax init.tree.now) }
    requires room { HasRoom (state_of U.tables builder.old) (share (nodes (syntax init.tree.now)) + 6) }
    ensures same_reference { builder.new.env.ghost_name ≡ builder.old.env.ghost_name }
    ensures lowered { OnOk result ((there : At) → LowersDeclarator (seen names.now) span kind
        (Node there Word.Declarator (Then (seen_binding_identifier bind.now) (Then (syntax init.entry.tree.now) End)))
        (state_of U.tables builder.old) (state_of U.tables builder.new)) }
    ensures memory { IfErr result (λ e. e ≡ Stop.OutOfMemory) }
{
    let value = lower_expression(alloc, builder, names, init)?;
    let identifier = resolve_declared(builder, names, bind)?;
    let place = Place {
        identifier,
        span: Some(span),
    };
    let value = InstructionValue::StoreLocal { kind, place, value };
    lower_value_to_temporary(builder, value, Some(span))?;
    Ok(())
}

/// Lowers a declarator of a pattern that takes the value of an initializer.
fn lower_taken<U: ReadsUnit>(
    alloc: Global,
    builder: &mut GraphBuilder<'_, U>,
    names: &FunctionNames<'_>,
    span: Span,
    kind: InstructionKind,
    pattern: BindingPatternTree<'_>,
    init: ExpressionTree<'_>,
) -> Result<(), Stop>
    requires names { IsNamed (seen names.now) (state_of U.tables builder.old) }
    requires apart { takes_apart (syntax pattern.tree.now) ≡ true }
    requires may { IsLowerable (seen names.now) (syntax pattern.tree.now) × IsLowerable (seen names.now) (syntax init.tree.now) }
    requires room { HasRoom (state_of U.tables builder.old) (share (nodes (syntax pattern.tree.now) + nodes (syntax init.tree.now) + 1)) }
    ensures same_reference { builder.new.env.ghost_name ≡ builder.old.env.ghost_name }
    ensures lowered { OnOk result ((there : At) → LowersDeclarator (seen names.now) span kind
        (Node there Word.Declarator (Then (syntax pattern.entry.tree.now) (Then (syntax init.entry.tree.now) End)))
        (state_of U.tables builder.old) (state_of U.tables builder.new)) }
    ensures memory { IfErr result (λ e. e ≡ Stop.OutOfMemory) }
{
    let value = lower_expression(alloc, builder, names, init)?;
    lower_pattern(alloc, builder, names, false, kind, span, pattern, value)?;
    Ok(())
}

/// Lowers a declarator of a pattern without an initializer, which takes undefined.
fn lower_untaken<U: ReadsUnit>(
    alloc: Global,
    builder: &mut GraphBuilder<'_, U>,
    names: &FunctionNames<'_>,
    span: Span,
    kind: InstructionKind,
    pattern: BindingPatternTree<'_>,
) -> Result<(), Stop>
    requires names { IsNamed (seen names.now) (state_of U.tables builder.old) }
    requires apart { takes_apart (syntax pattern.tree.now) ≡ true }
    requires may { IsLowerable (seen names.now) (syntax pattern.tree.now) }
    requires room { HasRoom (state_of U.tables builder.old) (share (nodes (syntax pattern.tree.now) + 1)) }
    ensures same_reference { builder.new.env.ghost_name ≡ builder.old.env.ghost_name }
    ensures lowered { OnOk result ((there : At) → LowersDeclarator (seen names.now) span kind
        (Node there Word.Declarator (Then (syntax pattern.entry.tree.now) (Then Absent End)))
        (state_of U.tables builder.old) (state_of U.tables builder.new)) }
    ensures memory { IfErr result (λ e. e ≡ Stop.OutOfMemory) }
{
    let value = lower_undefined(builder, Some(span))?;
    lower_pattern(alloc, builder, names, false, kind, span, pattern, value)?;
    Ok(())
}

/// Lowers a declarator of variables, in a declaration with the span.
fn lower_declarator<U: ReadsUnit>(
    alloc: Global,
    builder: &mut GraphBuilder<'_, U>,
    names: &FunctionNames<'_>,
    span: Span,
    kind: InstructionKind,
    declarator: VariableDeclaratorTree<'_>,
) -> Result<(), Stop>
    requires names { IsNamed (seen names.now) (state_of U.tables builder.old) }
    requires may { IsLowerable (seen names.now) (syntax declarator.tree.now) }
    requires room { HasRoom (state_of U.tables builder.old) (share (nodes (syntax declarator.tree.now))) }
    ensures same_reference { builder.new.env.ghost_name ≡ builder.old.env.ghost_name }
    ensures lowered { OnOk result (LowersDeclarator (seen names.now) span kind (syntax declarator.entry.tree.now)
        (state_of U.tables builder.old) (state_of U.tables builder.new)) }
    ensures memory { IfErr result (λ e. e ≡ Stop.OutOfMemory) }
{
    let declarator = variable_declarator_view(declarator);
    let pattern = declarator.pattern;
    match binding_pattern_view(pattern) {
        BindingPattern::Identifier(bind) => {
            let bind = binding_identifier_view(bind);
            match declarator.init {
                Some(init) => lower_initialized(alloc, builder, names, span, kind, &bind, init),
                None => lower_declared(builder, names, kind, &bind),
            }
        }
        BindingPattern::Array { .. } => match declarator.init {
            Some(init) => lower_taken(alloc, builder, names, span, kind, pattern, init),
            None => lower_untaken(alloc, builder, names, span, kind, pattern),
        },
        BindingPattern::Object { .. } => match declarator.init {
            Some(init) => lower_taken(alloc, builder, names, span, kind, pattern, init),
            None => lower_untaken(alloc, builder, names, span, kind, pattern),
        },
    }
}

/// Lowers the declarators of a declaration with the span, in order.
fn lower_declarators<U: ReadsUnit>(
    alloc: Global,
    builder: &mut GraphBuilder<'_, U>,
    names: &FunctionNames<'_>,
    span: Span,
    kind: InstructionKind,
    declarators: VariableDeclaratorTrees<'_>,
) -> Result<(), Stop>
    requires names { IsNamed (seen names.now) (state_of U.tables builder.old) }
    requires may { AreLowerable (seen names.now) (pieces_of (map syntax declarators.trees.now)) }
    requires room { HasRoom (state_of U.tables builder.old) (share (nodes_of (pieces_of (map syntax declarators.trees.now)))) }
    ensures same_reference { builder.new.env.ghost_name ≡ builder.old.env.ghost_name }
    ensures lowered { OnOk result (LoweredDeclarators (seen names.now) span kind (pieces_of (map syntax declarators.entry.trees.now))
        (state_of U.tables builder.old) (state_of U.tables builder.new)) }
    ensures memory { IfErr result (λ e. e ≡ Stop.OutOfMemory) }
{
    let mut left = declarators;
    'declarators: while let Some((declarator, rest)) = left.split_first() {
        lower_declarator(alloc, builder, names, span, kind, declarator)?;
        left = rest;
    }
    Ok(())
}

/// Lowers a declaration of variables (`VariableDeclaration` of `lowerStatement`), which may stand in front in a `for` loop. One by `var` is
/// refused, and lowered all the same. On `Stop::OutOfMemory` an allocation failed; no other stop comes.
pub fn lower_variables<U: ReadsUnit>(
    alloc: Global,
    builder: &mut GraphBuilder<'_, U>,
    names: &FunctionNames<'_>,
    declaration: VariableDeclarationTree<'_>,
) -> Result<(), Stop>
    requires names { IsNamed (seen names.now) (state_of U.tables builder.old) }
    requires may { IsLowerable (seen names.now) (syntax declaration.tree.now) }
    requires room { HasRoom (state_of U.tables builder.old) (share (nodes (syntax declaration.tree.now))) }
    ensures same_reference { builder.new.env.ghost_name ≡ builder.old.env.ghost_name }
    ensures lowered { OnOk result (LowersStatement (seen names.now) (syntax declaration.entry.tree.now)
        (state_of U.tables builder.old) (state_of U.tables builder.new)) }
    ensures init { OnOk result ((at : Span) → LowersInit (seen names.now) at (syntax declaration.entry.tree.now)
        (state_of U.tables builder.old) (state_of U.tables builder.new)) }
    ensures memory { IfErr result (λ e. e ≡ Stop.OutOfMemory) }
{
    let declaration = variable_declaration_view(declaration);
    note_keyword(alloc, builder, declaration.kind, declaration.at.span)?;
    lower_declarators(
        alloc,
        builder,
        names,
        declaration.at.span,
        kind_of(declaration.kind),
        declaration.declarators,
    )
}
