//! The variables that a function shares with other lowered functions.

ghost use Rattle.std.specs.Prelude.{◌≡◌, ◌&&◌, ◌++◌, ◌∷◌, [], ℕ, if◌then◌else◌, filter, length, map, IfOk, OnOk};
ghost use Rattle.std.specs.List.{list_any};
ghost use Rattle.rl_code.specs.Flags.{flag_at};
ghost use Rattle.rl_worlds.specs.Worlds as spec;
ghost use Rattle.rl_model.specs.Code as code;
ghost use Rattle.rl_names.specs.Seen.{seen};
ghost use Rattle.rl_syntax.specs.Syntax.{Syntax, syntax};

use rl_base::error::OutOfMemory;
use rl_base::text::Text;
use rl_code::assigned::push_assigned_in;
use rl_code::code::{at_of, push_tree};
use rl_code::named::{push_function_names, push_named_in};
use rl_code::numbers::{flag_at, flags_of};
use rl_code::variables::Variables;
use rl_names::names::FunctionNames;
use rl_syntax::numbered::Numbered;
use std::alloc::Global;

/// World of a function.
#[derive(Drop)]
pub struct World {
    /// By symbol: true of a variable that another lowered function assigns.
    pub opens: Vec<bool>,
    /// The symbols that the function names and another one names too, not only as its function declaration; in the order of their
    /// numbers.
    pub keeps: Vec<u32>,
}

/// True of a function that is not the one that `function` is, by their ids.
fn is_other(function: &Numbered, other: &Numbered) -> bool
    ensures { result ≡ spec.is_other (syntax function.now) (syntax other.now) }
{
    at_of(other).id.0 != at_of(function).id.0
}

/// The functions but one. On `OutOfMemory`, an allocation failed.
fn others<'t>(
    alloc: Global,
    functions: &[&'t Numbered],
    function: &Numbered,
) -> Result<Vec<&'t Numbered>, OutOfMemory>
    ensures { IfOk result (λ found. map (λ t. syntax t.now) found.items ≡ spec.others_among (map (λ t. syntax t.now) functions.now) (syntax function.now)) }
{
    let mut found = Vec::new(alloc);
    'functions: for other in functions {
        if is_other(function, other) {
            push_tree(&mut found, other)?;
        }
    }
    Ok(found)
}

/// The variables that functions assign. On `OutOfMemory`, an allocation failed.
pub fn assigned_by(
    alloc: Global,
    variables: &Variables<'_>,
    functions: &[&Numbered],
) -> Result<Vec<u32>, OutOfMemory>
    ensures { IfOk result (λ found. found.items ≡ code.flat (code.assigned_in (seen variables.now.names)) (map (λ t. syntax t.now) functions.now)) }
{
    let mut found = Vec::new(alloc);
    'functions: for function in functions {
        push_assigned_in(alloc, &mut found, variables, function)?;
    }
    Ok(found)
}

/// The variables that functions name. On `OutOfMemory`, an allocation failed.
fn named_by(
    alloc: Global,
    variables: &Variables<'_>,
    functions: &[&Numbered],
) -> Result<Vec<u32>, OutOfMemory>
    ensures { IfOk result (λ found. found.items ≡ code.flat (spec.named_here (seen variables.now.names)) (map (λ t. syntax t.now) functions.now)) }
{
    let mut found = Vec::new(alloc);
    'functions: for function in functions {
        push_named_here(alloc, &mut found, variables, function)?;
    }
    Ok(found)
}

/// Appends the variables that a function names. On `OutOfMemory`, an allocation failed.
#[tactic(auto, unfolding(crate::specs::Worlds::named_here))]
fn push_named_here(
    alloc: Global,
    out: &mut Vec<u32>,
    variables: &Variables<'_>,
    function: &Numbered,
) -> Result<(), OutOfMemory>
    ensures { OnOk result (out.new.items ≡ out.old.items ++ spec.named_here (seen variables.now.names) (syntax function.now)) }
{
    push_named_in(alloc, out, variables, function)?;
    Ok(())
}

/// The variables that other functions assign. On `OutOfMemory`, an allocation failed.
pub fn assigned_by_others(
    alloc: Global,
    variables: &Variables<'_>,
    functions: &[&Numbered],
    function: &Numbered,
) -> Result<Vec<u32>, OutOfMemory>
    ensures { IfOk result (λ found. found.items ≡ code.flat (code.assigned_in (seen variables.now.names)) (spec.others_among (map (λ t. syntax t.now) functions.now) (syntax function.now))) }
{
    let rest = others(alloc, functions, function)?;
    let found = assigned_by(alloc, variables, rest.as_slice())?;
    Ok(found)
}

/// The variables that other functions name. On `OutOfMemory`, an allocation failed.
fn named_by_others(
    alloc: Global,
    variables: &Variables<'_>,
    functions: &[&Numbered],
    function: &Numbered,
) -> Result<Vec<u32>, OutOfMemory>
    ensures { IfOk result (λ found. found.items ≡ code.flat (spec.named_here (seen variables.now.names)) (spec.others_among (map (λ t. syntax t.now) functions.now) (syntax function.now))) }
{
    let rest = others(alloc, functions, function)?;
    let found = named_by(alloc, variables, rest.as_slice())?;
    Ok(found)
}

/// The variables that a function names, its function declarations among them. On `OutOfMemory`, an allocation failed.
fn named_in(
    alloc: Global,
    variables: &Variables<'_>,
    function: &Numbered,
) -> Result<Vec<u32>, OutOfMemory>
    ensures { IfOk result (λ found. found.items ≡ spec.named_here (seen variables.now.names) (syntax function.now) ++ code.flat (code.function_names_at (seen variables.now.names).declared) (code.code_of (syntax function.now))) }
{
    let mut found = Vec::new(alloc);
    push_named_here(alloc, &mut found, variables, function)?;
    push_function_names(alloc, &mut found, variables, function)?;
    Ok(found)
}

/// Appends a number, if a flag is set. On `OutOfMemory`, an allocation failed.
fn push_if(out: &mut Vec<u32>, flag: bool, number: u32) -> Result<(), OutOfMemory>
    ensures { OnOk result (out.new.items ≡ out.old.items ++ (if flag then number ∷ [] else [])) }
{
    if flag {
        out.push(number)?;
        return Ok(());
    }
    Ok(())
}

/// True of a number that both flags are set of.
fn are_set(one: &[bool], other: &[bool], number: usize) -> bool
    ensures { result ≡ (flag_at one.now number && flag_at other.now number) }
{
    flag_at(one, number) && flag_at(other, number)
}

/// The numbers below `count` that both flags are set of. On `OutOfMemory`, an allocation failed.
#[tactic(auto, using(crate::proofs::Shared::further))]
fn both_set(
    alloc: Global,
    count: u32,
    one: &[bool],
    other: &[bool],
) -> Result<Vec<u32>, OutOfMemory>
    ensures { IfOk result (λ found. found.items ≡ filter (λ n. flag_at one.now n && flag_at other.now n) (code.below count)) }
{
    let mut found = Vec::new(alloc);
    'numbers: for number in 0..count {
        push_if(&mut found, are_set(one, other, number as usize), number)?;
    }
    Ok(found)
}

/// The number of symbols. On `OutOfMemory`, there are more symbols than ids, which no unit has.
fn symbol_count(variables: &Variables<'_>) -> Result<u32, OutOfMemory>
    ensures { IfOk result (λ count. count ≡ length variables.now.names.resolver.now.semantic.now.bindings.symbols) }
{
    let count = variables
        .names
        .resolver
        .semantic
        .bindings
        .symbols
        .as_slice()
        .len();
    if count <= 4_294_967_295 {
        Ok(count as u32)
    } else {
        Err(OutOfMemory)
    }
}

/// Flags of the variables that other functions assign, by symbol. On `OutOfMemory`, an allocation failed.
fn opens_of(
    alloc: Global,
    variables: &Variables<'_>,
    functions: &[&Numbered],
    function: &Numbered,
) -> Result<Vec<bool>, OutOfMemory>
    ensures { IfOk result (λ opens. (n : ℕ) → flag_at opens.items n ≡ list_any (λ other. code.contains (code.assigned_in (seen variables.now.names) other) n) (spec.others_among (map (λ t. syntax t.now) functions.now) (syntax function.now))) }
{
    let assigned = assigned_by_others(alloc, variables, functions, function)?;
    let opens = flags_of(alloc, &assigned)?;
    Ok(opens)
}

/// Flags of the variables that a function names, its function declarations among them, by symbol. On `OutOfMemory`, an allocation
/// failed.
fn named_flags(
    alloc: Global,
    variables: &Variables<'_>,
    function: &Numbered,
) -> Result<Vec<bool>, OutOfMemory>
    ensures { IfOk result (λ flags. (n : ℕ) → flag_at flags.items n ≡ code.names_symbol (seen variables.now.names) (seen variables.now.names).declared (syntax function.now) n) }
{
    let named = named_in(alloc, variables, function)?;
    let flags = flags_of(alloc, &named)?;
    Ok(flags)
}

/// Flags of the variables that other functions name, by symbol. On `OutOfMemory`, an allocation failed.
fn shared_flags(
    alloc: Global,
    variables: &Variables<'_>,
    functions: &[&Numbered],
    function: &Numbered,
) -> Result<Vec<bool>, OutOfMemory>
    ensures { IfOk result (λ flags. (n : ℕ) → flag_at flags.items n ≡ list_any (λ other. code.contains (code.named_in (seen variables.now.names) other) n) (spec.others_among (map (λ t. syntax t.now) functions.now) (syntax function.now))) }
{
    let named = named_by_others(alloc, variables, functions, function)?;
    let flags = flags_of(alloc, &named)?;
    Ok(flags)
}

/// The variables that a function shares with others, in the order of their numbers. On `OutOfMemory`, an allocation failed, or there
/// are more symbols than ids, which no unit has.
fn keeps_of(
    alloc: Global,
    variables: &Variables<'_>,
    functions: &[&Numbered],
    function: &Numbered,
) -> Result<Vec<u32>, OutOfMemory>
    ensures { IfOk result (λ keeps. keeps.items ≡ filter (spec.is_shared (seen variables.now.names) (map (λ t. syntax t.now) functions.now) (syntax function.now)) (code.below (length variables.now.names.resolver.now.semantic.now.bindings.symbols))) }
{
    let count = symbol_count(variables)?;
    let one = named_flags(alloc, variables, function)?;
    let other = shared_flags(alloc, variables, functions, function)?;
    let keeps = keeps_below(alloc, count, &one, &other)?;
    Ok(keeps)
}

/// As `both_set`, for vectors. On `OutOfMemory`, an allocation failed.
fn keeps_below(
    alloc: Global,
    count: u32,
    one: &Vec<bool>,
    other: &Vec<bool>,
) -> Result<Vec<u32>, OutOfMemory>
    ensures { IfOk result (λ keeps. keeps.items ≡ filter (λ n. flag_at one.now.items n && flag_at other.now.items n) (code.below count)) }
{
    both_set(alloc, count, one.as_slice(), other.as_slice())
}

/// The world of one of the lowered functions of a unit. `names` are those of the marked function, `functions` all lowered functions. On
/// `OutOfMemory`, an allocation failed, or there are more symbols than ids, which no unit has. It takes time that is linear in the
/// nodes of the functions, up to the logarithms of the look-ups.
pub fn world_of(
    alloc: Global,
    names: &FunctionNames<'_>,
    functions: &[&Numbered],
    function: &Numbered,
) -> Result<World, OutOfMemory>
    ensures opens { IfOk result (λ world. (marked : Syntax) → map (λ t. syntax t.now) functions.now ≡ code.lowered_functions marked → (symbol : ℕ) → flag_at world.opens.items symbol ≡ code.is_open (seen names.now) marked (syntax function.now) symbol) }
    ensures keeps { IfOk result (λ world. (marked : Syntax) → map (λ t. syntax t.now) functions.now ≡ code.lowered_functions marked → world.keeps.items ≡ (code.world_of (seen names.now) (length names.now.resolver.now.semantic.now.bindings.symbols) (seen names.now).declared marked (syntax function.now)).keeps) }
{
    let text = Text::from_str(alloc, "")?;
    let variables = Variables {
        names: *names,
        text: &text,
    };
    let opens = opens_of(alloc, &variables, functions, function)?;
    let keeps = keeps_of(alloc, &variables, functions, function)?;
    Ok(World { opens, keeps })
}
