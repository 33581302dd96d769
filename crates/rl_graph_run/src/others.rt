//! The functions of a result, and the identifiers of all but one.

ghost use Rattle.std.specs.Prelude.{◌≡◌, ◌++◌, map, OnOk};
ghost use Rattle.std.specs.Option.{option_map};
ghost use Rattle.rl_model.specs.Code.{flat};
ghost use Rattle.rl_model.specs.Worlds.{function_in, graphs, others_in, without};
ghost use Rattle.rl_graph_places.specs.Tables.{function_identifiers};

use rl_base::error::OutOfMemory;
use rl_base::ids::FunctionId;
use rl_graph_places::tables::{Which, push_function, push_inner};
use rl_hir::blocks::GraphBlocks;
use rl_hir::function::{HirFunction, InnerFunction, Lowered};

/// The function with an id; the marked function if there is no id. `None` if the id is that of no inner function.
pub fn function_of(
    lowered: &Lowered,
    function: Option<FunctionId>,
) -> Option<&HirFunction<GraphBlocks>>
    ensures { option_map (λ f. f.now) result ≡ function_in lowered.entry.now function }
{
    match function {
        None => Some(&lowered.function),
        Some(id) => match lowered.inner.as_slice().get(id.0 as usize) {
            Some(inner) => Some(&inner.function),
            None => None,
        },
    }
}

/// Appends the identifiers of functions but the one at an index. On `OutOfMemory` an allocation failed.
fn push_inner_but(
    out: &mut Vec<u32>,
    which: Which,
    inner: &[InnerFunction],
    index: usize,
) -> Result<(), OutOfMemory>
    ensures { OnOk result (out.new.items ≡ out.old.items ++ flat (function_identifiers which) (graphs (without index inner.now))) }
{
    let mut left = inner;
    let mut skip = index;
    'functions: while let Some((first, rest)) = left.split_first() {
        if skip == 0 {
            push_inner(out, which, rest)?;
            return Ok(());
        }
        push_function(out, which, &first.function)?;
        skip -= 1;
        left = rest;
    }
    Ok(())
}

/// Appends the identifiers of the functions beside one of them. On `OutOfMemory` an allocation failed.
pub fn push_others(
    out: &mut Vec<u32>,
    which: Which,
    lowered: &Lowered,
    function: Option<FunctionId>,
) -> Result<(), OutOfMemory>
    ensures { OnOk result (out.new.items ≡ out.old.items ++ flat (function_identifiers which) (others_in lowered.now function)) }
{
    let inner = lowered.inner.as_slice();
    match function {
        None => {
            push_inner(out, which, inner)?;
            Ok(())
        }
        Some(id) => {
            push_function(out, which, &lowered.function)?;
            push_inner_but(out, which, inner, id.0 as usize)?;
            Ok(())
        }
    }
}
