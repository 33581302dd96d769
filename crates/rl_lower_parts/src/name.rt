//! Lowering of names, of their updates, and of literals.

ghost use Rattle.std.specs.Prelude.{◌≡◌, ◌+◌, ◌≤◌, ℕ, List, OnOk, IfOk, IfErr, false};
ghost use Rattle.rl_syntax.specs.Syntax.{Node, Said, Flag, End, Then};
ghost use Rattle.rl_ast.specs.BindingViews.{seen_identifier_reference};
ghost use Rattle.rl_base.specs.Diagnostics.{diagnostic_at};
ghost use Rattle.rl_base.specs.Operators.{update_text};
ghost use Rattle.rl_base.specs.declared.row.Row.TheVariants as row;
ghost use Rattle.rl_base.specs.Reserved.{is_reserved};
ghost use Rattle.rl_builder.specs.Builder.{recorded, state_of};
ghost use Rattle.rl_lowered.specs.Lowered.{update_of};
ghost use Rattle.rl_lowered.specs.Named.{IsFound, IsNamed, found};
ghost use Rattle.rl_lowered.specs.Promised.{HasRoom, LowersExpression};
ghost use Rattle.rl_promises.specs.Lowerable.{IsFree};
ghost use Rattle.rl_promises.specs.Locals.{IsVariable};
ghost use Rattle.rl_promises.specs.Rows.{is_eval, row_of_update};
ghost use Rattle.rl_names.specs.Names.{Names, local_of};
ghost use Rattle.rl_names.specs.Seen.{seen};
ghost use Rattle.rl_names.specs.declared.names.Meaning.TheVariants.{Local, Outer};
ghost use Rattle.rl_runs.specs.Blocks.{size_of};

use crate::graph_builder::GraphBuilder;
use crate::temporary::{lower_undefined, lower_value_to_temporary, refuse, refuse_as_undefined};
use rl_ast::binding::IdentifierReference;
use rl_base::diagnostic::Diagnostic;
use rl_base::error::OutOfMemory;
use rl_base::ids::{IdentifierId, SymbolId};
use rl_base::number::WholeNumber;
use rl_base::operator::UpdateOperator;
use rl_base::row::Row;
use rl_base::span::Span;
use rl_base::stop::Stop;
use rl_base::text::Text;
use rl_builder::unit_tables::ReadsUnit;
use rl_hir::instruction::{InstructionValue, NonLocalBinding, Place, PrimitiveValue};
use rl_names::names::{FunctionNames, Meaning};
use rl_syntax::numbered::At;
use rl_syntax::word::Word;
use rl_text::number::parse_number;
use std::alloc::Global;

/// The identifier of a local variable, which it gets here if it has none. Its name is not reserved, so that nothing stops but on
/// `Stop::OutOfMemory`, where an allocation failed.
pub fn resolve_variable<U: ReadsUnit>(
    builder: &mut GraphBuilder<'_, U>,
    names: &FunctionNames<'_>,
    symbol: SymbolId,
    span: Span,
) -> Result<IdentifierId, Stop>
    requires names { IsNamed (seen names.now) (state_of U.tables builder.old) }
    requires variable { IsVariable (seen names.now) symbol }
    requires free { is_reserved ((seen names.now).name symbol.0) ≡ false }
    requires room { HasRoom (state_of U.tables builder.old) 2 }
    ensures same_reference { builder.new.env.ghost_name ≡ builder.old.env.ghost_name }
    ensures state { OnOk result (state_of U.tables builder.new ≡ found (seen names.now) (state_of U.tables builder.old) symbol span) }
    ensures found { IfOk result (λ identifier. IsFound (seen names.now) (state_of U.tables builder.old) symbol span identifier.0) }
    ensures names { OnOk result (IsNamed (seen names.now) (state_of U.tables builder.new)) }
    ensures size { OnOk result (size_of (state_of U.tables builder.new) ≤ size_of (state_of U.tables builder.old) + 2) }
    ensures memory { IfErr result (λ e. e ≡ Stop.OutOfMemory) }
{
    let name = names.name(symbol);
    let identifier = builder.resolve_binding_with_span(name, symbol, span)?;
    Ok(identifier)
}

/// Refuses a store to a constant at a name. On `OutOfMemory` an allocation failed.
pub fn refuse_constant<U: ReadsUnit>(
    alloc: Global,
    builder: &mut GraphBuilder<'_, U>,
    names: &FunctionNames<'_>,
    symbol: SymbolId,
    there: Span,
) -> Result<(), OutOfMemory>
    ensures same_reference { builder.new.env.ghost_name ≡ builder.old.env.ghost_name }
    ensures state { OnOk result (state_of U.tables builder.new ≡ recorded (state_of U.tables builder.old) (diagnostic_at row.F6 ((seen names.now).name symbol.0) there)) }
{
    let diagnostic = Diagnostic::at(alloc, Row::F6, names.name(symbol), there)?;
    builder.record_diagnostic(diagnostic)
}

/// True of the global `eval`.
fn is_eval(binding: &NonLocalBinding) -> bool
    ensures { result ≡ is_eval binding.now }
{
    match binding {
        NonLocalBinding::Global { name } => name.as_str() == "eval",
        NonLocalBinding::ModuleLocal { .. } => false,
        NonLocalBinding::ImportDefault { .. } => false,
        NonLocalBinding::ImportNamespace { .. } => false,
        NonLocalBinding::ImportSpecifier { .. } => false,
    }
}

/// The row of an update of a name that is no local.
fn row_of_update(binding: &NonLocalBinding) -> Row
    ensures { result ≡ row_of_update binding.now }
{
    match binding {
        NonLocalBinding::Global { .. } => Row::F20,
        NonLocalBinding::ModuleLocal { .. } => Row::F21,
        NonLocalBinding::ImportDefault { .. } => Row::F21,
        NonLocalBinding::ImportNamespace { .. } => Row::F21,
        NonLocalBinding::ImportSpecifier { .. } => Row::F21,
    }
}

/// Lowers a name that no local variable has: a load of what it is bound to. The global `eval` is refused.
fn lower_outer<U: ReadsUnit>(
    alloc: Global,
    builder: &mut GraphBuilder<'_, U>,
    at: At,
    binding: NonLocalBinding,
) -> Result<Place, Stop>
    requires room { HasRoom (state_of U.tables builder.old) 4 }
    ensures same_reference { builder.new.env.ghost_name ≡ builder.old.env.ghost_name }
    ensures lowered { IfOk result (λ place. (names : Names) (name : List ℕ) → names.meaning at.reference.0 name ≡ Outer binding → LowersExpression names (Node at Word.Id (Then (Said name) End)) (state_of U.tables builder.old) (state_of U.tables builder.new) place) }
    ensures memory { IfErr result (λ e. e ≡ Stop.OutOfMemory) }
{
    let is_refused = is_eval(&binding);
    let value = InstructionValue::LoadGlobal(binding);
    if is_refused {
        refuse(alloc, builder, Row::F2, at.span)?;
        return lower_value_to_temporary(builder, value, Some(at.span));
    }
    lower_value_to_temporary(builder, value, Some(at.span))
}

/// Lowers a local variable: a load.
fn lower_local<U: ReadsUnit>(
    builder: &mut GraphBuilder<'_, U>,
    names: &FunctionNames<'_>,
    at: At,
    symbol: SymbolId,
) -> Result<Place, Stop>
    requires names { IsNamed (seen names.now) (state_of U.tables builder.old) }
    requires variable { IsVariable (seen names.now) symbol }
    requires free { is_reserved ((seen names.now).name symbol.0) ≡ false }
    requires room { HasRoom (state_of U.tables builder.old) 6 }
    ensures same_reference { builder.new.env.ghost_name ≡ builder.old.env.ghost_name }
    ensures lowered { IfOk result (λ place. (name : List ℕ) → (seen names.now).meaning at.reference.0 name ≡ Local symbol → LowersExpression (seen names.now) (Node at Word.Id (Then (Said name) End)) (state_of U.tables builder.old) (state_of U.tables builder.new) place) }
    ensures memory { IfErr result (λ e. e ≡ Stop.OutOfMemory) }
{
    let identifier = resolve_variable(builder, names, symbol, at.span)?;
    let variable = Place {
        identifier,
        span: Some(at.span),
    };
    lower_value_to_temporary(
        builder,
        InstructionValue::LoadLocal(variable),
        Some(at.span),
    )
}

/// Lowers a name (`lowerIdentifier`).
pub fn lower_identifier<U: ReadsUnit>(
    alloc: Global,
    builder: &mut GraphBuilder<'_, U>,
    names: &FunctionNames<'_>,
    identifier: &IdentifierReference<'_>,
) -> Result<Place, Stop>
    requires names { IsNamed (seen names.now) (state_of U.tables builder.old) }
    requires free { IsFree (seen names.now) (local_of ((seen names.now).meaning identifier.now.at.reference.0 identifier.now.name.now)) }
    requires room { HasRoom (state_of U.tables builder.old) 6 }
    ensures same_reference { builder.new.env.ghost_name ≡ builder.old.env.ghost_name }
    ensures lowered { IfOk result (λ place. LowersExpression (seen names.now) (seen_identifier_reference identifier.now) (state_of U.tables builder.old) (state_of U.tables builder.new) place) }
    ensures memory { IfErr result (λ e. e ≡ Stop.OutOfMemory) }
{
    match names.meaning(alloc, identifier)? {
        Meaning::Local(symbol) => lower_local(builder, names, identifier.at, symbol),
        Meaning::Outer(binding) => lower_outer(alloc, builder, identifier.at, binding),
    }
}

/// The value of an update of a variable.
fn update_value(operator: UpdateOperator, prefix: bool, variable: Place) -> InstructionValue
    ensures { result ≡ update_of prefix operator variable }
{
    if prefix {
        return InstructionValue::PrefixUpdate {
            operator,
            place: variable,
            value: variable,
        };
    }
    InstructionValue::PostfixUpdate {
        operator,
        place: variable,
        value: variable,
    }
}

/// Lowers an update of a local variable at `there`, which is resolved, and again where it is read. A constant is refused.
fn update_local<U: ReadsUnit>(
    alloc: Global,
    builder: &mut GraphBuilder<'_, U>,
    names: &FunctionNames<'_>,
    at: At,
    there: At,
    symbol: SymbolId,
    operator: UpdateOperator,
    prefix: bool,
) -> Result<Place, Stop>
    requires names { IsNamed (seen names.now) (state_of U.tables builder.old) }
    requires variable { IsVariable (seen names.now) symbol }
    requires free { is_reserved ((seen names.now).name symbol.0) ≡ false }
    requires room { HasRoom (state_of U.tables builder.old) 8 }
    ensures same_reference { builder.new.env.ghost_name ≡ builder.old.env.ghost_name }
    ensures lowered { IfOk result (λ place. (name : List ℕ) → (seen names.now).meaning there.reference.0 name ≡ Local symbol → LowersExpression (seen names.now) (Node at Word.Update (Then (Said (update_text operator)) (Then (Flag prefix) (Then (Node there Word.Id (Then (Said name) End)) End)))) (state_of U.tables builder.old) (state_of U.tables builder.new) place) }
    ensures memory { IfErr result (λ e. e ≡ Stop.OutOfMemory) }
{
    resolve_variable(builder, names, symbol, there.span)?;
    if names.is_const(symbol) {
        refuse_constant(alloc, builder, names, symbol, there.span)?;
        return lower_undefined(builder, Some(at.span));
    }
    let identifier = resolve_variable(builder, names, symbol, there.span)?;
    let variable = Place {
        identifier,
        span: Some(there.span),
    };
    let value = update_value(operator, prefix, variable);
    lower_value_to_temporary(builder, value, Some(at.span))
}

/// Lowers an update of a name. One that is no local is refused.
pub fn update_name<U: ReadsUnit>(
    alloc: Global,
    builder: &mut GraphBuilder<'_, U>,
    names: &FunctionNames<'_>,
    at: At,
    operator: UpdateOperator,
    prefix: bool,
    identifier: &IdentifierReference<'_>,
) -> Result<Place, Stop>
    requires names { IsNamed (seen names.now) (state_of U.tables builder.old) }
    requires free { IsFree (seen names.now) (local_of ((seen names.now).meaning identifier.now.at.reference.0 identifier.now.name.now)) }
    requires room { HasRoom (state_of U.tables builder.old) 8 }
    ensures same_reference { builder.new.env.ghost_name ≡ builder.old.env.ghost_name }
    ensures lowered { IfOk result (λ place. LowersExpression (seen names.now) (Node at Word.Update (Then (Said (update_text operator)) (Then (Flag prefix) (Then (seen_identifier_reference identifier.now) End)))) (state_of U.tables builder.old) (state_of U.tables builder.new) place) }
    ensures memory { IfErr result (λ e. e ≡ Stop.OutOfMemory) }
{
    match names.meaning(alloc, identifier)? {
        Meaning::Local(symbol) => update_local(
            alloc,
            builder,
            names,
            at,
            identifier.at,
            symbol,
            operator,
            prefix,
        ),
        Meaning::Outer(binding) => {
            refuse_as_undefined(alloc, builder, row_of_update(&binding), at)
        }
    }
}

/// Lowers a number. A number that is no numeral of the notation is refused, and undefined stands for it.
pub fn lower_number<U: ReadsUnit>(
    alloc: Global,
    builder: &mut GraphBuilder<'_, U>,
    at: At,
    text: &Text,
) -> Result<Place, Stop>
    requires room { HasRoom (state_of U.tables builder.old) 4 }
    ensures same_reference { builder.new.env.ghost_name ≡ builder.old.env.ghost_name }
    ensures lowered { IfOk result (λ place. (names : Names) → LowersExpression names (Node at Word.Num (Then (Said text.now) End)) (state_of U.tables builder.old) (state_of U.tables builder.new) place) }
    ensures memory { IfErr result (λ e. e ≡ Stop.OutOfMemory) }
{
    match parse_number(text.as_bytes()) {
        Some(number) => {
            let number = WholeNumber::new(number);
            let value = InstructionValue::Primitive(PrimitiveValue::Number(number));
            lower_value_to_temporary(builder, value, Some(at.span))
        }
        None => refuse_as_undefined(alloc, builder, Row::F43, at),
    }
}
