//! Lowering of the heads of `for`-`in` and `for`-`of` loops, which take a key or a value in each round.

ghost use Rattle.std.specs.Prelude.{◌≡◌, ℕ, List, true, false, not, OnOk, IfOk, IfErr};
ghost use Rattle.rl_syntax.specs.Syntax.{Node, Said, Listed, Absent, Then, End, nodes, syntax};
ghost use Rattle.rl_ast.specs.BindingViews.{seen_binding_identifier, seen_identifier_reference};
ghost use Rattle.rl_builder.specs.Builder.{recorded, state_of};
ghost use Rattle.rl_lowered.specs.Named.{IsNamed};
ghost use Rattle.rl_lowered.specs.Promised.{HasRoom, LowersHead, share};
ghost use Rattle.rl_promises.specs.Lowerable.{DeclaresFree, IsFree, IsLowerable, IsLowerableHead, IsLowerableTo, Where};
ghost use Rattle.rl_promises.specs.Patterns.{is_pattern};
ghost use Rattle.rl_promises.specs.Conditions.{is_plain_head};
ghost use Rattle.rl_promises.specs.Outs.{is_lost_head};
ghost use Rattle.rl_promises.specs.Locals.{IsVariable};
ghost use Rattle.rl_promises.specs.Rows.{refusal};
ghost use Rattle.rl_names.specs.Names.{local_of};
ghost use Rattle.rl_names.specs.Seen.{seen};
ghost use Rattle.rl_names.specs.declared.names.Meaning.TheVariants.{Local};
ghost use Rattle.rl_base.specs.Reserved.{is_reserved};

use crate::declaration::resolve_declared;
use crate::pattern::lower_pattern;
use rl_ast::binding::{
    BindingIdentifier, BindingPattern, IdentifierReference, binding_identifier_view,
    binding_pattern_view, identifier_reference_view,
};
use rl_ast::statement_part::{
    ForHead, for_head_view, variable_declaration_view, variable_declarator_view,
};
use rl_ast::target::{AssignmentTarget, assignment_target_view};
use rl_base::diagnostic::Diagnostic;
use rl_base::ids::SymbolId;
use rl_base::row::Row;
use rl_base::stop::Stop;
use rl_builder::unit_tables::ReadsUnit;
use rl_grammar::sort::{AssignmentTargetTree, ForHeadTree, VariableDeclarationTree};
use rl_hir::instruction::{InstructionKind, InstructionValue, Place};
use rl_lower_expressions::access::{lower_computed, lower_static};
use rl_lower_expressions::member::store_member;
use rl_lower_expressions::target::lower_target;
use rl_lower_parts::graph_builder::GraphBuilder;
use rl_lower_parts::name::resolve_variable;
use rl_lower_parts::temporary::{lower_value_to_temporary, refuse};
use rl_names::names::{FunctionNames, Meaning};
use rl_syntax::numbered::At;
use rl_syntax::word::Word;
use std::alloc::Global;

/// Gives `value` to a variable that the head at `at` declares. Its identifier gets the span of its name there.
fn lower_declared_head<U: ReadsUnit>(
    builder: &mut GraphBuilder<'_, U>,
    names: &FunctionNames<'_>,
    at: At,
    bind: &BindingIdentifier<'_>,
    value: Place,
) -> Result<Place, Stop>
    requires names { IsNamed (seen names.now) (state_of U.tables builder.old) }
    requires free { DeclaresFree (seen names.now) ((seen names.now).declared bind.now.at.id.0) }
    requires room { HasRoom (state_of U.tables builder.old) 6 }
    ensures same_reference { builder.new.env.ghost_name ≡ builder.old.env.ghost_name }
    ensures lowered { IfOk result (λ place. (kind : List ℕ) (there : At)
        → LowersHead (seen names.now) value (Node at Word.Var
        (Then (Said kind) (Then (Listed (Then (Node there Word.Declarator (Then (seen_binding_identifier bind.now) (Then Absent End)))
        End)) End))) (state_of U.tables builder.old) (state_of U.tables builder.new) place) }
    ensures memory { IfErr result (λ e. e ≡ Stop.OutOfMemory) }
{
    let identifier = resolve_declared(builder, names, bind)?;
    builder.set_identifier_declaration_span(identifier, bind.at.span);
    let value = InstructionValue::StoreLocal {
        kind: InstructionKind::Let,
        place: Place {
            identifier,
            span: Some(at.span),
        },
        value,
    };
    lower_value_to_temporary(builder, value, Some(at.span))
}

/// Lowers a head that declares variables, by any keyword.
fn lower_variables_head<U: ReadsUnit>(
    alloc: Global,
    builder: &mut GraphBuilder<'_, U>,
    names: &FunctionNames<'_>,
    declaration: VariableDeclarationTree<'_>,
    value: Place,
) -> Result<Place, Stop>
    requires names { IsNamed (seen names.now) (state_of U.tables builder.old) }
    requires plain { is_plain_head (syntax declaration.tree.now) ≡ true }
    requires may { IsLowerable (seen names.now) (syntax declaration.tree.now) }
    requires room { HasRoom (state_of U.tables builder.old) (share (nodes (syntax declaration.tree.now))) }
    ensures same_reference { builder.new.env.ghost_name ≡ builder.old.env.ghost_name }
    ensures lowered { IfOk result (λ place. LowersHead (seen names.now) value (syntax declaration.entry.tree.now)
        (state_of U.tables builder.old) (state_of U.tables builder.new) place) }
    ensures memory { IfErr result (λ e. e ≡ Stop.OutOfMemory) }
{
    let declaration = variable_declaration_view(declaration);
    match declaration.declarators.split_first() {
        Some((declarator, _)) => {
            let pattern = variable_declarator_view(declarator).pattern;
            let kind = InstructionKind::Let;
            let span = declaration.at.span;
            match binding_pattern_view(pattern) {
                BindingPattern::Identifier(bind) => {
                    let bind = binding_identifier_view(bind);
                    lower_declared_head(builder, names, declaration.at, &bind, value)
                }
                BindingPattern::Array { .. } => {
                    lower_pattern(alloc, builder, names, true, kind, span, pattern, value)
                }
                BindingPattern::Object { .. } => {
                    lower_pattern(alloc, builder, names, true, kind, span, pattern, value)
                }
            }
        }
        None => unreachable!(),
    }
}

/// Gives `value` to a local variable. A constant is refused, and keeps its value.
fn lower_local_head<U: ReadsUnit>(
    alloc: Global,
    builder: &mut GraphBuilder<'_, U>,
    names: &FunctionNames<'_>,
    at: At,
    symbol: SymbolId,
    value: Place,
) -> Result<Place, Stop>
    requires names { IsNamed (seen names.now) (state_of U.tables builder.old) }
    requires variable { IsVariable (seen names.now) symbol }
    requires free { is_reserved ((seen names.now).name symbol.0) ≡ false }
    requires room { HasRoom (state_of U.tables builder.old) 6 }
    ensures same_reference { builder.new.env.ghost_name ≡ builder.old.env.ghost_name }
    ensures lowered { IfOk result (λ place. (name : List ℕ) → (seen names.now).meaning at.reference.0 name ≡ Local symbol
        → LowersHead (seen names.now) value (Node at Word.Id (Then (Said name) End))
        (state_of U.tables builder.old) (state_of U.tables builder.new) place) }
    ensures memory { IfErr result (λ e. e ≡ Stop.OutOfMemory) }
{
    let identifier = resolve_variable(builder, names, symbol, at.span)?;
    if names.is_const(symbol) {
        let diagnostic = Diagnostic::at(alloc, Row::F6, names.name(symbol), at.span)?;
        builder.record_diagnostic(diagnostic)?;
        return Ok(value);
    }
    let value = InstructionValue::StoreLocal {
        kind: InstructionKind::Reassign,
        place: Place {
            identifier,
            span: Some(at.span),
        },
        value,
    };
    lower_value_to_temporary(builder, value, Some(at.span))
}

/// Lowers a head that is a name. One that is no local is stored as a global.
fn lower_name_head<U: ReadsUnit>(
    alloc: Global,
    builder: &mut GraphBuilder<'_, U>,
    names: &FunctionNames<'_>,
    identifier: &IdentifierReference<'_>,
    value: Place,
) -> Result<Place, Stop>
    requires names { IsNamed (seen names.now) (state_of U.tables builder.old) }
    requires free { IsFree (seen names.now) (local_of ((seen names.now).meaning identifier.now.at.reference.0 identifier.now.name.now)) }
    requires room { HasRoom (state_of U.tables builder.old) 6 }
    ensures same_reference { builder.new.env.ghost_name ≡ builder.old.env.ghost_name }
    ensures lowered { IfOk result (λ place. LowersHead (seen names.now) value (seen_identifier_reference identifier.now)
        (state_of U.tables builder.old) (state_of U.tables builder.new) place) }
    ensures memory { IfErr result (λ e. e ≡ Stop.OutOfMemory) }
{
    match names.meaning(alloc, identifier)? {
        Meaning::Local(symbol) => {
            lower_local_head(alloc, builder, names, identifier.at, symbol, value)
        }
        Meaning::Outer(_binding) => {
            let name = identifier.name.copy(alloc)?;
            let store = InstructionValue::StoreGlobal { name, value };
            lower_value_to_temporary(builder, store, Some(identifier.at.span))
        }
    }
}

/// Refuses a head by a row, and stores nothing.
fn lose_head<U: ReadsUnit>(
    alloc: Global,
    builder: &mut GraphBuilder<'_, U>,
    row: Row,
    at: At,
    value: Place,
) -> Result<Place, Stop>
    ensures same_reference { builder.new.env.ghost_name ≡ builder.old.env.ghost_name }
    ensures state { OnOk result (state_of U.tables builder.new ≡ recorded (state_of U.tables builder.old) (refusal row at.span)) }
    ensures place { IfOk result (λ place. place ≡ value) }
    ensures memory { IfErr result (λ e. e ≡ Stop.OutOfMemory) }
{
    refuse(alloc, builder, row, at.span)?;
    Ok(value)
}

/// Lowers a head that is a target. Private properties and targets under wrappers are refused without their parts.
fn lower_target_head<U: ReadsUnit>(
    alloc: Global,
    builder: &mut GraphBuilder<'_, U>,
    names: &FunctionNames<'_>,
    target: AssignmentTargetTree<'_>,
    value: Place,
) -> Result<Place, Stop>
    requires names { IsNamed (seen names.now) (state_of U.tables builder.old) }
    requires may { Where (not (is_pattern (syntax target.tree.now)))
        (Where (not (is_lost_head (syntax target.tree.now))) (IsLowerable (seen names.now) (syntax target.tree.now))) }
    requires may_take { Where (is_pattern (syntax target.tree.now)) (IsLowerableTo (seen names.now) (syntax target.tree.now)) }
    requires room { HasRoom (state_of U.tables builder.old) (share (nodes (syntax target.tree.now))) }
    ensures same_reference { builder.new.env.ghost_name ≡ builder.old.env.ghost_name }
    ensures lowered { IfOk result (λ place. LowersHead (seen names.now) value (syntax target.entry.tree.now)
        (state_of U.tables builder.old) (state_of U.tables builder.new) place) }
    ensures memory { IfErr result (λ e. e ≡ Stop.OutOfMemory) }
{
    match assignment_target_view(target) {
        AssignmentTarget::Identifier(identifier) => {
            let identifier = identifier_reference_view(identifier);
            lower_name_head(alloc, builder, names, &identifier, value)
        }
        AssignmentTarget::Member {
            at,
            optional: _,
            object,
            property,
        } => {
            let member = lower_static(alloc, builder, names, object, property)?;
            store_member(alloc, builder, at.span, member, value)
        }
        AssignmentTarget::Index {
            at,
            optional: _,
            object,
            property,
        } => {
            let member = lower_computed(alloc, builder, names, object, property)?;
            store_member(alloc, builder, at.span, member, value)
        }
        AssignmentTarget::PrivateMember { at, .. } => {
            lose_head(alloc, builder, Row::F11, at, value)
        }
        AssignmentTarget::As { at, .. } => lose_head(alloc, builder, Row::F45, at, value),
        AssignmentTarget::Satisfies { at, .. } => lose_head(alloc, builder, Row::F45, at, value),
        AssignmentTarget::Assert { at, .. } => lose_head(alloc, builder, Row::F45, at, value),
        AssignmentTarget::NonNull { at, .. } => lose_head(alloc, builder, Row::F45, at, value),
        AssignmentTarget::Array { at, .. } => {
            lower_target(alloc, builder, names, at.span, target, value)
        }
        AssignmentTarget::Object { at, .. } => {
            lower_target(alloc, builder, names, at.span, target, value)
        }
    }
}

/// Lowers the head of a loop, which takes `value`. Returns the place that the loop tests: that of the store, or `value` where
/// nothing is stored.
pub(crate) fn lower_loop_head<U: ReadsUnit>(
    alloc: Global,
    builder: &mut GraphBuilder<'_, U>,
    names: &FunctionNames<'_>,
    head: ForHeadTree<'_>,
    value: Place,
) -> Result<Place, Stop>
    requires names { IsNamed (seen names.now) (state_of U.tables builder.old) }
    requires may { IsLowerableHead (seen names.now) (syntax head.tree.now) }
    requires room { HasRoom (state_of U.tables builder.old) (share (nodes (syntax head.tree.now))) }
    ensures same_reference { builder.new.env.ghost_name ≡ builder.old.env.ghost_name }
    ensures lowered { IfOk result (λ place. LowersHead (seen names.now) value (syntax head.entry.tree.now)
        (state_of U.tables builder.old) (state_of U.tables builder.new) place) }
    ensures memory { IfErr result (λ e. e ≡ Stop.OutOfMemory) }
{
    match for_head_view(head) {
        ForHead::Variables(declaration) => {
            lower_variables_head(alloc, builder, names, declaration, value)
        }
        ForHead::Target(target) => lower_target_head(alloc, builder, names, target, value),
    }
}
