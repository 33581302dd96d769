//! The identifiers of functions, by their parameters and tables.

ghost use Rattle.std.specs.Prelude.{◌≡◌, ◌∷◌, ◌++◌, [], if◌then◌else◌, map, IfOk, OnOk};
ghost use Rattle.rl_hir.specs.Pieces.{operands, pattern_pieces};
ghost use Rattle.rl_model.specs.Code.{flat};
ghost use Rattle.rl_model.specs.Runs.{param_identifier};
ghost use Rattle.rl_model.specs.WellFormed.{operand_places, value_places};
ghost use Rattle.rl_model.specs.Worlds.{identifiers_in, is_function_kind, is_hoisted, is_reassign};
ghost use Rattle.rl_graph_places.specs.Roles.{assigned_by, marked_by, shared_by};
ghost use Rattle.rl_graph_places.specs.Tables.{function_identifiers, param_identifiers, places_by, table_identifiers};

use crate::places::{push_none, push_pattern, push_place, push_two};
use crate::role::{Role, role_of};
use crate::value::push_value;
use rl_base::error::OutOfMemory;
use rl_hir::blocks::GraphBlocks;
use rl_hir::function::{HirFunction, InnerFunction, Param};
use rl_hir::instruction::{Destructure, Instruction, InstructionKind, InstructionValue, Place};

/// The identifiers of a function that are listed.
#[derive(Clone, Copy)]
pub enum Which {
    /// Those that its table assigns.
    Assigned,
    /// Those of its parameters and of the places that its table names; the marker of a hoisted declaration names none.
    Marked,
    /// As `Marked`, where the store of a function declaration names none either.
    Shared,
}

/// True of a store to a variable that is declared.
fn is_reassign(kind: InstructionKind) -> bool
    ensures { result ≡ is_reassign kind }
{
    match kind {
        InstructionKind::Reassign => true,
        InstructionKind::Const => false,
        InstructionKind::Let => false,
        InstructionKind::Catch => false,
        InstructionKind::Function => false,
        InstructionKind::HoistedConst => false,
        InstructionKind::HoistedLet => false,
        InstructionKind::HoistedFunction => false,
    }
}

/// True of the marker of a hoisted declaration.
fn is_hoisted(kind: InstructionKind) -> bool
    ensures { result ≡ is_hoisted kind }
{
    match kind {
        InstructionKind::Reassign => false,
        InstructionKind::Const => false,
        InstructionKind::Let => false,
        InstructionKind::Catch => false,
        InstructionKind::Function => false,
        InstructionKind::HoistedConst => true,
        InstructionKind::HoistedLet => true,
        InstructionKind::HoistedFunction => true,
    }
}

/// True of a function declaration.
fn is_function_kind(kind: InstructionKind) -> bool
    ensures { result ≡ is_function_kind kind }
{
    match kind {
        InstructionKind::Reassign => false,
        InstructionKind::Const => false,
        InstructionKind::Let => false,
        InstructionKind::Catch => false,
        InstructionKind::Function => true,
        InstructionKind::HoistedConst => false,
        InstructionKind::HoistedLet => false,
        InstructionKind::HoistedFunction => false,
    }
}

/// Appends the identifier of a place, if `assigns` is true. On `OutOfMemory` an allocation failed.
fn push_if(out: &mut Vec<u32>, assigns: bool, place: Place) -> Result<(), OutOfMemory>
    ensures { OnOk result (out.new.items ≡ out.old.items ++ identifiers_in (if assigns then place ∷ [] else [])) }
{
    if assigns {
        return push_place(out, place);
    }
    push_none(out)
}

/// Appends the identifier of a place, if it is not `hidden`. On `OutOfMemory` an allocation failed.
fn push_unless(out: &mut Vec<u32>, hidden: bool, place: Place) -> Result<(), OutOfMemory>
    ensures { OnOk result (out.new.items ≡ out.old.items ++ identifiers_in (if hidden then [] else place ∷ [])) }
{
    if hidden {
        return push_none(out);
    }
    push_place(out, place)
}

/// Appends the identifiers of a store, if it is not `hidden`. On `OutOfMemory` an allocation failed.
fn push_store(
    out: &mut Vec<u32>,
    hidden: bool,
    place: Place,
    value: Place,
) -> Result<(), OutOfMemory>
    ensures { OnOk result (out.new.items ≡ out.old.items ++ identifiers_in (if hidden then [] else place ∷ value ∷ [])) }
{
    if hidden {
        return push_none(out);
    }
    push_two(out, place, value)
}

/// Appends the identifiers of the places of a pattern, if it stores to variables that are declared. On `OutOfMemory` an allocation
/// failed.
fn push_targets(out: &mut Vec<u32>, taken: &Destructure) -> Result<(), OutOfMemory>
    ensures { OnOk result (out.new.items ≡ out.old.items
        ++ identifiers_in (if is_reassign taken.now.kind then operand_places (operands (pattern_pieces taken.now.pattern)) else [])) }
{
    if is_reassign(taken.kind) {
        return push_pattern(out, &taken.pattern);
    }
    push_none(out)
}

/// Appends the identifiers that a value with this role assigns. On `OutOfMemory` an allocation failed.
fn push_assigned(out: &mut Vec<u32>, role: Role<'_>) -> Result<(), OutOfMemory>
    ensures { OnOk result (out.new.items ≡ out.old.items ++ identifiers_in (assigned_by role.entry)) }
{
    match role {
        Role::Stores(kind, place, _) => push_if(out, is_reassign(kind), place),
        Role::Declares(_, _) => push_none(out),
        Role::Destructures(taken) => push_targets(out, taken),
        Role::Updates(place) => push_place(out, place),
        Role::Reads => push_none(out),
    }
}

/// Appends the identifiers that a value with this role marks. On `OutOfMemory` an allocation failed.
fn push_marked(
    out: &mut Vec<u32>,
    role: Role<'_>,
    value: &InstructionValue,
) -> Result<(), OutOfMemory>
    ensures { OnOk result (out.new.items ≡ out.old.items ++ identifiers_in (marked_by role.entry (value_places value.now))) }
{
    match role {
        Role::Stores(_, _, _) => push_value(out, value),
        Role::Declares(kind, place) => push_unless(out, is_hoisted(kind), place),
        Role::Destructures(_) => push_value(out, value),
        Role::Updates(_) => push_value(out, value),
        Role::Reads => push_value(out, value),
    }
}

/// As `push_marked`, where the store of a function declaration has none. On `OutOfMemory` an allocation failed.
fn push_shared(
    out: &mut Vec<u32>,
    role: Role<'_>,
    value: &InstructionValue,
) -> Result<(), OutOfMemory>
    ensures { OnOk result (out.new.items ≡ out.old.items ++ identifiers_in (shared_by role.entry (value_places value.now))) }
{
    match role {
        Role::Stores(kind, place, stored) => push_store(out, is_function_kind(kind), place, stored),
        Role::Declares(kind, place) => push_unless(out, is_hoisted(kind), place),
        Role::Destructures(_) => push_value(out, value),
        Role::Updates(_) => push_value(out, value),
        Role::Reads => push_value(out, value),
    }
}

/// Appends the identifiers of a value. On `OutOfMemory` an allocation failed.
fn push_places_by(
    out: &mut Vec<u32>,
    which: Which,
    value: &InstructionValue,
) -> Result<(), OutOfMemory>
    ensures { OnOk result (out.new.items ≡ out.old.items ++ identifiers_in (places_by which value.now)) }
{
    let role = role_of(value);
    match which {
        Which::Assigned => push_assigned(out, role),
        Which::Marked => push_marked(out, role, value),
        Which::Shared => push_shared(out, role, value),
    }
}

/// Appends the identifiers of a table. On `OutOfMemory` an allocation failed.
fn push_table(out: &mut Vec<u32>, which: Which, table: &[Instruction]) -> Result<(), OutOfMemory>
    ensures { OnOk result (out.new.items ≡ out.old.items ++ table_identifiers which table.now) }
{
    'table: for instruction in table {
        push_places_by(out, which, &instruction.value)?;
    }
    Ok(())
}

/// Appends the identifier of a parameter. On `OutOfMemory` an allocation failed.
fn push_param(out: &mut Vec<u32>, param: &Param) -> Result<(), OutOfMemory>
    ensures { OnOk result (out.new.items ≡ out.old.items ++ param_identifier param.now ∷ []) }
{
    match param {
        Param::Place(place) => push_place(out, *place),
        Param::Spread(place) => push_place(out, *place),
    }
}

/// Appends the identifiers of parameters. On `OutOfMemory` an allocation failed.
fn push_params(out: &mut Vec<u32>, params: &[Param]) -> Result<(), OutOfMemory>
    ensures { OnOk result (out.new.items ≡ out.old.items ++ map param_identifier params.now) }
{
    'params: for param in params {
        push_param(out, param)?;
    }
    Ok(())
}

/// Appends the identifiers of parameters, where they are listed. On `OutOfMemory` an allocation failed.
fn push_params_by(out: &mut Vec<u32>, which: Which, params: &[Param]) -> Result<(), OutOfMemory>
    ensures { OnOk result (out.new.items ≡ out.old.items ++ param_identifiers which params.now) }
{
    match which {
        Which::Assigned => push_none(out),
        Which::Marked => push_params(out, params),
        Which::Shared => push_params(out, params),
    }
}

/// Appends the identifiers of a function. On `OutOfMemory` an allocation failed.
pub fn push_function(
    out: &mut Vec<u32>,
    which: Which,
    function: &HirFunction<GraphBlocks>,
) -> Result<(), OutOfMemory>
    ensures { OnOk result (out.new.items ≡ out.old.items ++ function_identifiers which function.now) }
{
    let params = function.params.as_slice();
    let table = function.instructions.as_slice();
    push_params_by(out, which, params)?;
    push_table(out, which, table)?;
    Ok(())
}

/// Appends the identifiers of functions. On `OutOfMemory` an allocation failed.
pub fn push_inner(
    out: &mut Vec<u32>,
    which: Which,
    functions: &[InnerFunction],
) -> Result<(), OutOfMemory>
    ensures { OnOk result (out.new.items ≡ out.old.items
        ++ flat (function_identifiers which) (map (λ i. i.function) functions.now)) }
{
    'functions: for inner in functions {
        push_function(out, which, &inner.function)?;
    }
    Ok(())
}
