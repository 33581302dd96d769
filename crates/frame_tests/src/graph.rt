//! Graphs of functions that return the value of a formula.

ghost use Rattle.std.specs.Prelude.{ℕ, ◌+◌, ◌<◌, ◌^◌};
ghost use Rattle.frame_tests.specs.Formulas.{share};
ghost use Rattle.frame_tests.specs.Graphs.{CanBuild, whole_of};
ghost use Rattle.rl_builder.specs.Started.{Given};

use crate::formula::Formula;
use crate::lower::lower_formula;
use rl_atoms::entity_table::EntityTable;
use rl_base::error::OutOfMemory;
use rl_base::ids::{EvaluationOrder, ScopeId};
use rl_base::span::Span;
use rl_builder::builder::HirBuilder;
use rl_builder::graph::Built;
use rl_builder::unit_tables::ReadsUnit;
use rl_hir::blocks::Blocks;
use rl_hir::environment::Environment;
use rl_hir::function::ReactFunctionType;
use rl_hir::terminal::{ReturnVariant, Terminal, TerminalKind};
use std::alloc::Global;
use std::collections::BTreeSet;

/// The graph of a function that returns the value of a formula. On `OutOfMemory` an allocation failed.
fn graph_of<U: ReadsUnit, B: Blocks>(
    alloc: Global,
    unit: U,
    scope: ScopeId,
    formula: &Formula,
) -> Result<Built<B>, OutOfMemory>
    requires room { share formula.now + 1 < 2 ^ 31 }
    requires built { (given : Given) → CanBuild (whole_of formula.now given) }
{
    let mut env = Environment::new(alloc, ReactFunctionType::Other, EntityTable::new(alloc))?;
    let mut builder = HirBuilder::<U, B>::over(
        alloc,
        &mut env,
        unit,
        scope,
        scope,
        BTreeSet::new(alloc),
        None,
        None,
        None,
        None,
    )?;
    let value = lower_formula(&mut builder, formula)?;
    let end = Terminal {
        order: EvaluationOrder(0),
        span: None,
        kind: TerminalKind::Return {
            variant: ReturnVariant::Explicit,
            value,
        },
    };
    builder.terminate(end, None)?;
    builder.build()
}

/// The graph of `true && !false`.
pub fn graph_of_both<U: ReadsUnit, B: Blocks>(
    alloc: Global,
    unit: U,
    scope: ScopeId,
) -> Result<Built<B>, OutOfMemory> {
    let span = Span { start: 0, end: 0 };
    let left = Box::new(alloc, Formula::Truth { span, holds: true })?;
    let part = Box::new(alloc, Formula::Truth { span, holds: false })?;
    let right = Box::new(alloc, Formula::Not { span, part })?;
    graph_of(alloc, unit, scope, &Formula::Both { span, left, right })
}

/// The graph of `true ? false || true : false`.
pub fn graph_of_choice<U: ReadsUnit, B: Blocks>(
    alloc: Global,
    unit: U,
    scope: ScopeId,
) -> Result<Built<B>, OutOfMemory> {
    let span = Span { start: 0, end: 0 };
    let test = Box::new(alloc, Formula::Truth { span, holds: true })?;
    let left = Box::new(alloc, Formula::Truth { span, holds: false })?;
    let right = Box::new(alloc, Formula::Truth { span, holds: true })?;
    let consequent = Box::new(alloc, Formula::Either { span, left, right })?;
    let alternate = Box::new(alloc, Formula::Truth { span, holds: false })?;
    let formula = Formula::Choice {
        span,
        test,
        consequent,
        alternate,
    };
    graph_of(alloc, unit, scope, &formula)
}
