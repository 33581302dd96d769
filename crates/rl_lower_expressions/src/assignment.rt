//! Lowering of assignments, by `=` and by compound operators, to names, to properties, and by `=` to patterns.

ghost use Rattle.std.specs.Prelude.{◌≡◌, ◌+◌, ℕ, List, Some, false, not, codes, IfOk, IfErr};
ghost use Rattle.rl_lower_expressions.specs.Members.{LowersMember};
ghost use Rattle.rl_syntax.specs.Syntax.{Syntax, Node, Said, Flag, End, Then, Pieces, nodes, syntax};
ghost use Rattle.rl_ast.specs.BindingViews.{seen_identifier_reference};
ghost use Rattle.rl_ast.specs.ExpressionViews.{seen_expression};
ghost use Rattle.rl_base.specs.Operators.{assignment_text};
ghost use Rattle.rl_base.specs.Reserved.{is_reserved};
ghost use Rattle.rl_builder.specs.Builder.{State, state_of};
ghost use Rattle.rl_lowered.specs.Forms.{applied_by};
ghost use Rattle.rl_lowered.specs.Named.{IsNamed};
ghost use Rattle.rl_lowered.specs.Promised.{HasRoom, LowersExpression, share};
ghost use Rattle.rl_promises.specs.Locals.{IsVariable};
ghost use Rattle.rl_promises.specs.Lowerable.{IsFree, IsLowerable, IsLowerableTo, Where};
ghost use Rattle.rl_promises.specs.Outs.{is_wrapped};
ghost use Rattle.rl_promises.specs.Patterns.{is_pattern};
ghost use Rattle.rl_names.specs.Names.{local_of};
ghost use Rattle.rl_names.specs.Seen.{seen};
ghost use Rattle.rl_names.specs.declared.names.Meaning.TheVariants.{Local};

use crate::access::{lower_computed, lower_static};
use crate::expression::lower_expression;
use crate::member::{LoweredMember, load_again, store_member};
use crate::operator::lower_private;
use crate::target::lower_target;
use rl_ast::binding::{IdentifierReference, identifier_reference_view};
use rl_ast::expression::Expression;
use rl_ast::target::{AssignmentTarget, assignment_target_view};
use rl_base::ids::SymbolId;
use rl_base::operator::{AssignmentOperator, BinaryOperator};
use rl_base::row::Row;
use rl_base::stop::Stop;
use rl_builder::unit_tables::ReadsUnit;
use rl_grammar::sort::{AssignmentTargetTree, ExpressionTree, IdentifierReferenceTree};
use rl_hir::instruction::{InstructionKind, InstructionValue, Place};
use rl_lower_parts::graph_builder::GraphBuilder;
use rl_lower_parts::name::{lower_identifier, refuse_constant, resolve_variable};
use rl_lower_parts::span::span_of;
use rl_lower_parts::temporary::{lower_undefined, lower_value_to_temporary, refuse_as_undefined};
use rl_names::names::{FunctionNames, Meaning};
use rl_syntax::numbered::At;
use rl_syntax::word::Word;
use std::alloc::Global;

/// The operator that a compound assignment applies. `None` of `=` and of the logical assignments.
fn applied_by(operator: AssignmentOperator) -> Option<BinaryOperator>
    ensures { result ≡ applied_by operator }
{
    match operator {
        AssignmentOperator::Addition => Some(BinaryOperator::Addition),
        AssignmentOperator::Subtraction => Some(BinaryOperator::Subtraction),
        AssignmentOperator::Multiplication => Some(BinaryOperator::Multiplication),
        AssignmentOperator::Division => Some(BinaryOperator::Division),
        AssignmentOperator::Remainder => Some(BinaryOperator::Remainder),
        AssignmentOperator::Exponential => Some(BinaryOperator::Exponential),
        AssignmentOperator::ShiftLeft => Some(BinaryOperator::ShiftLeft),
        AssignmentOperator::ShiftRight => Some(BinaryOperator::ShiftRight),
        AssignmentOperator::ShiftRightZeroFill => Some(BinaryOperator::ShiftRightZeroFill),
        AssignmentOperator::BitwiseOR => Some(BinaryOperator::BitwiseOR),
        AssignmentOperator::BitwiseXOR => Some(BinaryOperator::BitwiseXOR),
        AssignmentOperator::BitwiseAnd => Some(BinaryOperator::BitwiseAnd),
        AssignmentOperator::Assign => None,
        AssignmentOperator::LogicalOr => None,
        AssignmentOperator::LogicalAnd => None,
        AssignmentOperator::LogicalNullish => None,
    }
}

/// The value of an assignment to a variable at a name.
pub(crate) fn assigned_to(variable: Place, value: Place) -> InstructionValue
    ensures { result ≡ InstructionValue.StoreLocal InstructionKind.Reassign variable value }
{
    InstructionValue::StoreLocal {
        kind: InstructionKind::Reassign,
        place: variable,
        value,
    }
}

/// Stores the value of `=` to a local variable at `there`. A constant is refused.
fn assign_local<U: ReadsUnit>(
    alloc: Global,
    builder: &mut GraphBuilder<'_, U>,
    names: &FunctionNames<'_>,
    there: At,
    symbol: SymbolId,
    value: Place,
) -> Result<Place, Stop>
    requires names { IsNamed (seen names.now) (state_of U.tables builder.old) }
    requires variable { IsVariable (seen names.now) symbol }
    requires free { is_reserved ((seen names.now).name symbol.0) ≡ false }
    requires room { HasRoom (state_of U.tables builder.old) 6 }
    ensures same_reference { builder.new.env.ghost_name ≡ builder.old.env.ghost_name }
    ensures lowered { IfOk result (λ place. (at : At) (name : List ℕ) (right : Syntax) (s : State) → (seen names.now).meaning there.reference.0 name ≡ Local symbol → LowersExpression (seen names.now) right s (state_of U.tables builder.old) value → LowersExpression (seen names.now) (Node at Word.Assign (Then (Said (codes "=")) (Then (Node there Word.Id (Then (Said name) End)) (Then right End)))) s (state_of U.tables builder.new) place) }
    ensures memory { IfErr result (λ e. e ≡ Stop.OutOfMemory) }
{
    let identifier = resolve_variable(builder, names, symbol, there.span)?;
    if names.is_const(symbol) {
        refuse_constant(alloc, builder, names, symbol, there.span)?;
        return lower_undefined(builder, Some(there.span));
    }
    let variable = Place {
        identifier,
        span: Some(there.span),
    };
    let store = assigned_to(variable, value);
    lower_value_to_temporary(builder, store, Some(there.span))
}

/// Stores the value of `=` to a name. One that is no local is stored as a global.
fn assign_name<U: ReadsUnit>(
    alloc: Global,
    builder: &mut GraphBuilder<'_, U>,
    names: &FunctionNames<'_>,
    identifier: &IdentifierReference<'_>,
    value: Place,
) -> Result<Place, Stop>
    requires names { IsNamed (seen names.now) (state_of U.tables builder.old) }
    requires free { IsFree (seen names.now) (local_of ((seen names.now).meaning identifier.now.at.reference.0 identifier.now.name.now)) }
    requires room { HasRoom (state_of U.tables builder.old) 6 }
    ensures same_reference { builder.new.env.ghost_name ≡ builder.old.env.ghost_name }
    ensures lowered { IfOk result (λ place. (at : At) (right : Syntax) (s : State) → LowersExpression (seen names.now) right s (state_of U.tables builder.old) value → LowersExpression (seen names.now) (Node at Word.Assign (Then (Said (codes "=")) (Then (seen_identifier_reference identifier.now) (Then right End)))) s (state_of U.tables builder.new) place) }
    ensures memory { IfErr result (λ e. e ≡ Stop.OutOfMemory) }
{
    match names.meaning(alloc, identifier)? {
        Meaning::Local(symbol) => {
            assign_local(alloc, builder, names, identifier.at, symbol, value)
        }
        Meaning::Outer(_binding) => {
            let name = identifier.name.copy(alloc)?;
            let store = InstructionValue::StoreGlobal { name, value };
            lower_value_to_temporary(builder, store, Some(identifier.at.span))
        }
    }
}

/// Lowers `=`: the value, and then the target. A property of a private name is refused behind its object.
#[cycle(expressions)]
fn lower_assigned<U: ReadsUnit>(
    alloc: Global,
    builder: &mut GraphBuilder<'_, U>,
    names: &FunctionNames<'_>,
    at: At,
    target: AssignmentTargetTree<'_>,
    right: ExpressionTree<'_>,
) -> Result<Place, Stop>
    requires names { IsNamed (seen names.now) (state_of U.tables builder.old) }
    requires bare { is_wrapped (syntax target.tree.now) ≡ false }
    requires may { Where (not (is_pattern (syntax target.tree.now))) (IsLowerable (seen names.now) (syntax target.tree.now)) }
    requires may_take { Where (is_pattern (syntax target.tree.now)) (IsLowerableTo (seen names.now) (syntax target.tree.now)) }
    requires may_value { IsLowerable (seen names.now) (syntax right.tree.now) }
    requires room { HasRoom (state_of U.tables builder.old) (share (nodes (syntax target.tree.now) + nodes (syntax right.tree.now) + 1)) }
    ensures same_reference { builder.new.env.ghost_name ≡ builder.old.env.ghost_name }
    ensures lowered { IfOk result (λ place. LowersExpression (seen names.now) (Node at Word.Assign (Then (Said (codes "=")) (Then (syntax target.entry.tree.now) (Then (syntax right.entry.tree.now) End)))) (state_of U.tables builder.old) (state_of U.tables builder.new) place) }
    ensures memory { IfErr result (λ e. e ≡ Stop.OutOfMemory) }
{
    let value = lower_expression(alloc, builder, names, right)?;
    match assignment_target_view(target) {
        AssignmentTarget::Identifier(identifier) => {
            let identifier = identifier_reference_view(identifier);
            assign_name(alloc, builder, names, &identifier, value)
        }
        AssignmentTarget::Member {
            at: there,
            optional: _,
            object,
            property,
        } => {
            let member = lower_static(alloc, builder, names, object, property)?;
            store_member(alloc, builder, there.span, member, value)
        }
        AssignmentTarget::Index {
            at: there,
            optional: _,
            object,
            property,
        } => {
            let member = lower_computed(alloc, builder, names, object, property)?;
            store_member(alloc, builder, there.span, member, value)
        }
        AssignmentTarget::PrivateMember {
            at: _,
            optional: _,
            object,
            property: _,
        } => {
            lower_expression(alloc, builder, names, object)?;
            refuse_as_undefined(alloc, builder, Row::F5, at)
        }
        AssignmentTarget::Array { .. } => {
            lower_target(alloc, builder, names, span_of(target.tree), target, value)
        }
        AssignmentTarget::Object { .. } => {
            lower_target(alloc, builder, names, span_of(target.tree), target, value)
        }
        AssignmentTarget::As { .. } => unreachable!(),
        AssignmentTarget::Satisfies { .. } => unreachable!(),
        AssignmentTarget::Assert { .. } => unreachable!(),
        AssignmentTarget::NonNull { .. } => unreachable!(),
    }
}

/// Computes the new value of a local variable at `there` from the old one and the right part of a compound assignment, stores it, and
/// loads the variable again. A constant is refused.
fn update_local_by<U: ReadsUnit>(
    alloc: Global,
    builder: &mut GraphBuilder<'_, U>,
    names: &FunctionNames<'_>,
    at: At,
    there: At,
    symbol: SymbolId,
    applied: BinaryOperator,
    old: Place,
    right: Place,
) -> Result<Place, Stop>
    requires names { IsNamed (seen names.now) (state_of U.tables builder.old) }
    requires variable { IsVariable (seen names.now) symbol }
    requires free { is_reserved ((seen names.now).name symbol.0) ≡ false }
    requires room { HasRoom (state_of U.tables builder.old) 14 }
    ensures same_reference { builder.new.env.ghost_name ≡ builder.old.env.ghost_name }
    ensures lowered { IfOk result (λ place. (name : List ℕ) (operator : AssignmentOperator) (e : Syntax) (s t : State) → (seen names.now).meaning there.reference.0 name ≡ Local symbol → applied_by operator ≡ Some applied → LowersExpression (seen names.now) (Node there Word.Id (Then (Said name) End)) s t old → LowersExpression (seen names.now) e t (state_of U.tables builder.old) right → LowersExpression (seen names.now) (Node at Word.Assign (Then (Said (assignment_text operator)) (Then (Node there Word.Id (Then (Said name) End)) (Then e End)))) s (state_of U.tables builder.new) place) }
    ensures memory { IfErr result (λ e. e ≡ Stop.OutOfMemory) }
{
    if names.is_const(symbol) {
        resolve_variable(builder, names, symbol, there.span)?;
        refuse_constant(alloc, builder, names, symbol, there.span)?;
        return lower_undefined(builder, Some(at.span));
    }
    let span = Some(at.span);
    let value = InstructionValue::BinaryExpression {
        operator: applied,
        left: old,
        right,
    };
    let updated = lower_value_to_temporary(builder, value, span)?;
    let identifier = resolve_variable(builder, names, symbol, there.span)?;
    let variable = Place {
        identifier,
        span: Some(there.span),
    };
    let store = assigned_to(variable, updated);
    lower_value_to_temporary(builder, store, span)?;
    lower_value_to_temporary(builder, InstructionValue::LoadLocal(variable), span)
}

/// As `update_local_by`, for any name. One that is no local is stored as a global.
fn update_name_by<U: ReadsUnit>(
    alloc: Global,
    builder: &mut GraphBuilder<'_, U>,
    names: &FunctionNames<'_>,
    at: At,
    identifier: &IdentifierReference<'_>,
    applied: BinaryOperator,
    old: Place,
    right: Place,
) -> Result<Place, Stop>
    requires names { IsNamed (seen names.now) (state_of U.tables builder.old) }
    requires free { IsFree (seen names.now) (local_of ((seen names.now).meaning identifier.now.at.reference.0 identifier.now.name.now)) }
    requires room { HasRoom (state_of U.tables builder.old) 14 }
    ensures same_reference { builder.new.env.ghost_name ≡ builder.old.env.ghost_name }
    ensures lowered { IfOk result (λ place. (operator : AssignmentOperator) (e : Syntax) (s t : State) → applied_by operator ≡ Some applied → LowersExpression (seen names.now) (seen_identifier_reference identifier.now) s t old → LowersExpression (seen names.now) e t (state_of U.tables builder.old) right → LowersExpression (seen names.now) (Node at Word.Assign (Then (Said (assignment_text operator)) (Then (seen_identifier_reference identifier.now) (Then e End)))) s (state_of U.tables builder.new) place) }
    ensures memory { IfErr result (λ e. e ≡ Stop.OutOfMemory) }
{
    match names.meaning(alloc, identifier)? {
        Meaning::Local(symbol) => {
            let there = identifier.at;
            update_local_by(
                alloc, builder, names, at, there, symbol, applied, old, right,
            )
        }
        Meaning::Outer(_binding) => {
            let span = Some(at.span);
            let value = InstructionValue::BinaryExpression {
                operator: applied,
                left: old,
                right,
            };
            let value = lower_value_to_temporary(builder, value, span)?;
            let name = identifier.name.copy(alloc)?;
            let store = InstructionValue::StoreGlobal { name, value };
            lower_value_to_temporary(builder, store, span)
        }
    }
}

/// Lowers a compound assignment to a property at `there`, whose object and key were lowered: the old value is loaded before the right part
/// is lowered, and the new one is computed and stored behind it.
#[cycle(expressions)]
fn update_member_by<U: ReadsUnit>(
    alloc: Global,
    builder: &mut GraphBuilder<'_, U>,
    names: &FunctionNames<'_>,
    there: At,
    applied: BinaryOperator,
    member: LoweredMember,
    right: ExpressionTree<'_>,
) -> Result<Place, Stop>
    requires names { IsNamed (seen names.now) (state_of U.tables builder.old) }
    requires may { IsLowerable (seen names.now) (syntax right.tree.now) }
    requires room { HasRoom (state_of U.tables builder.old) (share (nodes (syntax right.tree.now) + 1)) }
    ensures same_reference { builder.new.env.ghost_name ≡ builder.old.env.ghost_name }
    ensures lowered { IfOk result (λ place. (at : At) (operator : AssignmentOperator) (w : Word) (fields : Pieces) (s : State) → applied_by operator ≡ Some applied → LowersMember (seen names.now) w fields s (state_of U.tables builder.old) member → LowersExpression (seen names.now) (Node at Word.Assign (Then (Said (assignment_text operator)) (Then (Node there w fields) (Then (syntax right.entry.tree.now) End)))) s (state_of U.tables builder.new) place) }
    ensures memory { IfErr result (λ e. e ≡ Stop.OutOfMemory) }
{
    let span = Some(there.span);
    let load = load_again(alloc, &member)?;
    let old = lower_value_to_temporary(builder, load, span)?;
    let right = lower_expression(alloc, builder, names, right)?;
    let value = InstructionValue::BinaryExpression {
        operator: applied,
        left: old,
        right,
    };
    let updated = lower_value_to_temporary(builder, value, span)?;
    store_member(alloc, builder, there.span, member, updated)
}

/// Lowers a compound assignment to a property of a private name at `there`, which is refused: its object, and then the right part.
#[cycle(expressions)]
fn compound_private<U: ReadsUnit>(
    alloc: Global,
    builder: &mut GraphBuilder<'_, U>,
    names: &FunctionNames<'_>,
    at: At,
    there: At,
    object: ExpressionTree<'_>,
    right: ExpressionTree<'_>,
) -> Result<Place, Stop>
    requires names { IsNamed (seen names.now) (state_of U.tables builder.old) }
    requires may { IsLowerable (seen names.now) (syntax object.tree.now) × IsLowerable (seen names.now) (syntax right.tree.now) }
    requires room { HasRoom (state_of U.tables builder.old) (share (nodes (syntax object.tree.now) + nodes (syntax right.tree.now) + 2)) }
    ensures same_reference { builder.new.env.ghost_name ≡ builder.old.env.ghost_name }
    ensures lowered { IfOk result (λ place. (name : List ℕ) (operator : AssignmentOperator) (applied : BinaryOperator) → applied_by operator ≡ Some applied → LowersExpression (seen names.now) (Node at Word.Assign (Then (Said (assignment_text operator)) (Then (Node there Word.Privatemember (Then (Flag false) (Then (syntax object.entry.tree.now) (Then (Said name) End)))) (Then (syntax right.entry.tree.now) End)))) (state_of U.tables builder.old) (state_of U.tables builder.new) place) }
    ensures memory { IfErr result (λ e. e ≡ Stop.OutOfMemory) }
{
    lower_private(alloc, builder, names, there, object)?;
    lower_expression(alloc, builder, names, right)?;
    lower_undefined(builder, Some(at.span))
}

/// Lowers a compound assignment to a name: the old value, the right part, and then the store.
#[cycle(expressions)]
fn compound_name<U: ReadsUnit>(
    alloc: Global,
    builder: &mut GraphBuilder<'_, U>,
    names: &FunctionNames<'_>,
    at: At,
    applied: BinaryOperator,
    name: IdentifierReferenceTree<'_>,
    right: ExpressionTree<'_>,
) -> Result<Place, Stop>
    requires names { IsNamed (seen names.now) (state_of U.tables builder.old) }
    requires may { IsLowerable (seen names.now) (syntax name.tree.now) × IsLowerable (seen names.now) (syntax right.tree.now) }
    requires room { HasRoom (state_of U.tables builder.old) (share (nodes (syntax name.tree.now) + nodes (syntax right.tree.now) + 1)) }
    ensures same_reference { builder.new.env.ghost_name ≡ builder.old.env.ghost_name }
    ensures lowered { IfOk result (λ place. (operator : AssignmentOperator) → applied_by operator ≡ Some applied → LowersExpression (seen names.now) (Node at Word.Assign (Then (Said (assignment_text operator)) (Then (syntax name.entry.tree.now) (Then (syntax right.entry.tree.now) End)))) (state_of U.tables builder.old) (state_of U.tables builder.new) place) }
    ensures memory { IfErr result (λ e. e ≡ Stop.OutOfMemory) }
{
    let identifier = identifier_reference_view(name);
    let old = lower_identifier(alloc, builder, names, &identifier)?;
    let right = lower_expression(alloc, builder, names, right)?;
    update_name_by(alloc, builder, names, at, &identifier, applied, old, right)
}

/// Lowers a compound assignment: the old value, the right part, and then the store.
#[cycle(expressions)]
fn lower_compound<U: ReadsUnit>(
    alloc: Global,
    builder: &mut GraphBuilder<'_, U>,
    names: &FunctionNames<'_>,
    at: At,
    applied: BinaryOperator,
    target: AssignmentTargetTree<'_>,
    right: ExpressionTree<'_>,
) -> Result<Place, Stop>
    requires names { IsNamed (seen names.now) (state_of U.tables builder.old) }
    requires bare { is_wrapped (syntax target.tree.now) ≡ false }
    requires may { Where (not (is_pattern (syntax target.tree.now))) (IsLowerable (seen names.now) (syntax target.tree.now) × IsLowerable (seen names.now) (syntax right.tree.now)) }
    requires room { HasRoom (state_of U.tables builder.old) (share (nodes (syntax target.tree.now) + nodes (syntax right.tree.now) + 1)) }
    ensures same_reference { builder.new.env.ghost_name ≡ builder.old.env.ghost_name }
    ensures lowered { IfOk result (λ place. (operator : AssignmentOperator) → applied_by operator ≡ Some applied → LowersExpression (seen names.now) (Node at Word.Assign (Then (Said (assignment_text operator)) (Then (syntax target.entry.tree.now) (Then (syntax right.entry.tree.now) End)))) (state_of U.tables builder.old) (state_of U.tables builder.new) place) }
    ensures memory { IfErr result (λ e. e ≡ Stop.OutOfMemory) }
{
    match assignment_target_view(target) {
        AssignmentTarget::Identifier(name) => {
            compound_name(alloc, builder, names, at, applied, name, right)
        }
        AssignmentTarget::Member {
            at: there,
            optional: _,
            object,
            property,
        } => {
            let member = lower_static(alloc, builder, names, object, property)?;
            update_member_by(alloc, builder, names, there, applied, member, right)
        }
        AssignmentTarget::Index {
            at: there,
            optional: _,
            object,
            property,
        } => {
            let member = lower_computed(alloc, builder, names, object, property)?;
            update_member_by(alloc, builder, names, there, applied, member, right)
        }
        AssignmentTarget::PrivateMember {
            at: there,
            optional: _,
            object,
            property: _,
        } => compound_private(alloc, builder, names, at, there, object, right),
        AssignmentTarget::Array { .. } => refuse_as_undefined(alloc, builder, Row::F24, at),
        AssignmentTarget::Object { .. } => refuse_as_undefined(alloc, builder, Row::F24, at),
        AssignmentTarget::As { .. } => unreachable!(),
        AssignmentTarget::Satisfies { .. } => unreachable!(),
        AssignmentTarget::Assert { .. } => unreachable!(),
        AssignmentTarget::NonNull { .. } => unreachable!(),
    }
}

/// Lowers an assignment (`lowerAssignment`). A logical one, and a compound one to a pattern, are refused without their parts.
#[cycle(expressions)]
pub(crate) fn lower_assignment<U: ReadsUnit>(
    alloc: Global,
    builder: &mut GraphBuilder<'_, U>,
    names: &FunctionNames<'_>,
    at: At,
    operator: AssignmentOperator,
    target: AssignmentTargetTree<'_>,
    right: ExpressionTree<'_>,
) -> Result<Place, Stop>
    requires names { IsNamed (seen names.now) (state_of U.tables builder.old) }
    requires may { IsLowerable (seen names.now) (seen_expression (Expression.Assignment at operator target right)) }
    requires room { HasRoom (state_of U.tables builder.old) (share (nodes (seen_expression (Expression.Assignment at operator target right)))) }
    ensures same_reference { builder.new.env.ghost_name ≡ builder.old.env.ghost_name }
    ensures lowered { IfOk result (λ place. LowersExpression (seen names.now) (seen_expression (Expression.Assignment at operator target.entry right.entry)) (state_of U.tables builder.old) (state_of U.tables builder.new) place) }
    ensures memory { IfErr result (λ e. e ≡ Stop.OutOfMemory) }
{
    match operator {
        AssignmentOperator::Assign => lower_assigned(alloc, builder, names, at, target, right),
        _ => match applied_by(operator) {
            Some(applied) => lower_compound(alloc, builder, names, at, applied, target, right),
            None => refuse_as_undefined(alloc, builder, Row::F23, at),
        },
    }
}
