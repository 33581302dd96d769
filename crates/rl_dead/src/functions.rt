//! The nodes in the dead parts of functions.

ghost use Rattle.std.specs.Prelude.{◌≡◌, ◌||◌, ℕ, map, option_map, IfOk, OnOk};
ghost use Rattle.std.specs.List.{list_any};
ghost use Rattle.rl_code.specs.Flags.{flag_at};
ghost use Rattle.rl_dead.specs.Functions as spec;
ghost use Rattle.rl_dead.specs.Ranges as ranges;
ghost use Rattle.rl_model.specs.Code.{contains};
ghost use Rattle.rl_model.specs.Dead.{dead_parts};
ghost use Rattle.rl_names.specs.Functions.{body_in};
ghost use Rattle.rl_syntax.specs.Syntax.{pieces_of, syntax};

use crate::jumps::Jumps;
use crate::parts::second_list;
use crate::ranges::Range;
use crate::walk::walk_statements;
use rl_base::error::OutOfMemory;
use rl_code::numbers::flags_of;
use rl_code::parts::function_parts;
use rl_syntax::numbered::Numbered;
use rl_syntax::word::Word;
use std::alloc::Global;

/// The statements of the body of a function, by its word and parts. `None` of any other node.
fn body_list(word: Word, parts: &[Numbered]) -> Option<&[Numbered]>
    ensures { option_map (λ s. pieces_of (map syntax s.now)) result ≡ spec.body_list word (pieces_of (map syntax parts.now)) }
{
    match word {
        Word::Body => second_list(parts),
        _ => None,
    }
}

/// The statements of the body of a function. `None` of any other tree.
#[tactic(auto, using(rl_syntax::proofs::Layers::by_layer))]
fn body_statements(tree: &Numbered) -> Option<&[Numbered]>
    ensures { option_map (λ s. pieces_of (map syntax s.now)) result ≡ spec.body_statements (syntax tree.now) }
{
    match tree {
        Numbered::Node(_, word, parts) => body_list(*word, parts.as_slice()),
        Numbered::List(_) => None,
        Numbered::Text(_) => None,
        Numbered::Number(_) => None,
        Numbered::Flag(_) => None,
        Numbered::Absent => None,
    }
}

/// Appends the dead parts of a body. On `OutOfMemory`, an allocation failed.
#[tactic(auto, using(crate::proofs::Bodies::bodies))]
fn push_in_body(alloc: Global, dead: &mut Vec<Range>, body: &Numbered) -> Result<(), OutOfMemory>
    ensures { OnOk result (ranges.Adds dead.old.items dead.new.items (dead_parts (syntax body.now))) }
{
    match body_statements(body) {
        Some(statements) => {
            let mut jumps = Jumps::new(alloc);
            walk_statements(alloc, &mut jumps, dead, statements)?;
            Ok(())
        }
        None => Ok(()),
    }
}

/// Appends the dead parts of a function. On `OutOfMemory`, an allocation failed.
#[tactic(auto, using(crate::proofs::Bodies::functions))]
fn push_dead(alloc: Global, dead: &mut Vec<Range>, function: &Numbered) -> Result<(), OutOfMemory>
    ensures { OnOk result (ranges.Adds dead.old.items dead.new.items (dead_parts (body_in (syntax function.now)))) }
{
    match function_parts(function) {
        Some((_params, body)) => {
            push_in_body(alloc, dead, body)?;
            Ok(())
        }
        None => Ok(()),
    }
}

/// The dead parts of functions. On `OutOfMemory`, an allocation failed.
#[tactic(auto, using(crate::proofs::Bodies::all_functions))]
fn dead_of(alloc: Global, functions: &[&Numbered]) -> Result<Vec<Range>, OutOfMemory>
    ensures { IfOk result (λ dead. (node : ℕ) → ranges.is_covered dead.items node ≡ list_any (spec.is_dead_in node) (map (λ t. syntax t.now) functions.now)) }
{
    let mut dead = Vec::new(alloc);
    'functions: for function in functions {
        push_dead(alloc, &mut dead, function)?;
    }
    Ok(dead)
}

/// Appends the ids in a range. On `OutOfMemory`, an allocation failed.
#[tactic(auto, using(crate::proofs::Ids::ids))]
fn push_ids(out: &mut Vec<u32>, range: Range) -> Result<(), OutOfMemory>
    ensures { OnOk result ((node : ℕ) → contains out.new.items node ≡ (contains out.old.items node || ranges.holds node range)) }
{
    'ids: for id in range.start..range.end {
        out.push(id)?;
    }
    Ok(())
}

/// The ids in ranges. On `OutOfMemory`, an allocation failed.
#[tactic(auto, using(crate::proofs::Ids::all_ranges))]
fn ids_of(alloc: Global, dead: &[Range]) -> Result<Vec<u32>, OutOfMemory>
    ensures { IfOk result (λ ids. (node : ℕ) → contains ids.items node ≡ ranges.is_covered dead.now node) }
{
    let mut ids = Vec::new(alloc);
    'dead: for range in dead {
        push_ids(&mut ids, *range)?;
    }
    Ok(ids)
}

/// Flags of the nodes in the dead parts of functions, by their ids. On `OutOfMemory`, an allocation failed. It takes a step for each
/// node, and one for each node in a dead part of each function around it.
pub fn dead_flags(alloc: Global, functions: &[&Numbered]) -> Result<Vec<bool>, OutOfMemory>
    ensures { IfOk result (λ flags. (node : ℕ) → flag_at flags.items node ≡ list_any (spec.is_dead_in node) (map (λ t. syntax t.now) functions.now)) }
{
    let dead = dead_of(alloc, functions)?;
    let ids = ids_of(alloc, dead.as_slice())?;
    let flags = flags_of(alloc, &ids)?;
    Ok(flags)
}
