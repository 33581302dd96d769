//! Lowering of `switch` statements.

ghost use Rattle.std.specs.Prelude.{◌≡◌, ◌+◌, ◌<◌, ◌∷◌, None, length, map, MatchOption, IfSome, OnOk, IfOk, IfErr};
ghost use Rattle.rl_ast.specs.StatementViews.{seen_statement};
ghost use Rattle.rl_builder.specs.Builder.{state_of};
ghost use Rattle.rl_frames.specs.SwitchParts.{switch_of};
ghost use Rattle.rl_lower_statements.specs.Cases.{FramesCase, FramesCases, joined};
ghost use Rattle.rl_lowered.specs.Arounds.{arounds};
ghost use Rattle.rl_lowered.specs.Named.{IsNamed};
ghost use Rattle.rl_lowered.specs.Promised.{HasRoom, LowersStatement, share};
ghost use Rattle.rl_names.specs.Seen.{seen};
ghost use Rattle.rl_promises.specs.Jumps.{InSwitch};
ghost use Rattle.rl_promises.specs.Lowerable.{AreLowerableCases, IsLowerableCase, IsLowerableIn};
ghost use Rattle.rl_syntax.specs.Syntax.{End, Then, nodes, nodes_of, pieces_of, syntax};

use crate::case_test::lower_case_test;
use crate::statement::lower_statements;
use rl_ast::statement::Statement;
use rl_ast::statement_part::switch_case_view;
use rl_base::span::Span;
use rl_base::stop::Stop;
use rl_builder::unit_tables::ReadsUnit;
use rl_frames::switch_frame::SwitchFrame;
use rl_grammar::sort::{ExpressionTree, SwitchCaseTree, SwitchCaseTrees};
use rl_grammar::tree::{Tree, Trees};
use rl_lower_expressions::expression::lower_expression;
use rl_lower_parts::graph_builder::GraphBuilder;
use rl_names::names::FunctionNames;
use rl_syntax::numbered::{At, Numbered};
use std::alloc::Global;

/// The last tree and those before it. `None` if there is none.
#[tactic(auto, using(crate::proofs::SwitchDerivations::lasts))]
fn last_of(trees: &[Numbered]) -> Option<(&Numbered, &[Numbered])>
    ensures parts { MatchOption result (pieces_of (map syntax trees.now) ≡ End)
        (λ p. pieces_of (map syntax trees.now) ≡ joined (pieces_of (map syntax p.1.now)) (Then (syntax p.0.now) End)) }
    ensures fewer { IfSome result (λ p. length p.1.now < length trees.now) }
{
    match trees.split_last() {
        Some((last, rest)) => Some((last, rest)),
        None => None,
    }
}

/// The last case and those before it. `None` if there is none.
#[tactic(auto, using(crate::proofs::SwitchDerivations::fitting))]
fn split_last(cases: SwitchCaseTrees<'_>) -> Option<(SwitchCaseTree<'_>, SwitchCaseTrees<'_>)>
    ensures parts { MatchOption result (pieces_of (map syntax cases.entry.trees.now) ≡ End)
        (λ p. pieces_of (map syntax cases.entry.trees.now) ≡ joined (pieces_of (map syntax p.1.trees.now))
        (Then (syntax p.0.tree.now) End)) }
    ensures fewer { IfSome result (λ p. length p.1.trees.now < length cases.entry.trees.now) }
{
    let (last, rest) = last_of(cases.trees)?;
    Some((Tree::new(last), Trees::new(rest)))
}

/// Lowers a case: its statements, and then its test. Those behind it were lowered before.
#[cycle(statements)]
fn lower_case<U: ReadsUnit>(
    alloc: Global,
    builder: &mut GraphBuilder<'_, U>,
    names: &FunctionNames<'_>,
    frame: &mut SwitchFrame,
    case: SwitchCaseTree<'_>,
) -> Result<(), Stop>
    requires names { IsNamed (seen names.now) (state_of U.tables builder.old) }
    requires label { (switch_of frame.old).label ≡ None }
    requires may { IsLowerableCase (seen names.now) (InSwitch None ∷ arounds (state_of U.tables builder.old)) (syntax case.tree.now) }
    requires room { HasRoom (state_of U.tables builder.old) (share (nodes (syntax case.tree.now))) }
    ensures same_reference { builder.new.env.ghost_name ≡ builder.old.env.ghost_name }
    ensures lowered { OnOk result (FramesCase (seen names.now) (syntax case.entry.tree.now) (switch_of frame.old) (switch_of frame.new)
        (state_of U.tables builder.old) (state_of U.tables builder.new)) }
    ensures memory { IfErr result (λ e. e ≡ Stop.OutOfMemory) }
{
    let case = switch_case_view(case);
    frame.enter(builder)?;
    lower_statements(alloc, builder, names, case.consequent)?;
    frame.leave(builder, case.at.span)?;
    let test = lower_case_test(alloc, builder, names, case.test)?;
    frame.done(test)?;
    Ok(())
}

/// Lowers the cases of a `switch` at the span, from the last to the first. Returns its frame.
#[cycle(statements)]
fn lower_cases<U: ReadsUnit>(
    alloc: Global,
    builder: &mut GraphBuilder<'_, U>,
    names: &FunctionNames<'_>,
    span: Span,
    cases: SwitchCaseTrees<'_>,
) -> Result<SwitchFrame, Stop>
    requires names { IsNamed (seen names.now) (state_of U.tables builder.old) }
    requires may { AreLowerableCases (seen names.now) (InSwitch None ∷ arounds (state_of U.tables builder.old))
        (pieces_of (map syntax cases.trees.now)) }
    requires room { HasRoom (state_of U.tables builder.old) (share (nodes_of (pieces_of (map syntax cases.trees.now))) + 1) }
    ensures same_reference { builder.new.env.ghost_name ≡ builder.old.env.ghost_name }
    ensures lowered { IfOk result (λ frame. FramesCases (seen names.now) (state_of U.tables builder.old) span
        (pieces_of (map syntax cases.entry.trees.now)) (switch_of frame) (state_of U.tables builder.new)) }
    ensures memory { IfErr result (λ e. e ≡ Stop.OutOfMemory) }
{
    let mut frame = SwitchFrame::begin(builder, span, None)?;
    let mut left = cases;
    'cases: while let Some((case, rest)) = split_last(left) {
        lower_case(alloc, builder, names, &mut frame, case)?;
        left = rest;
    }
    Ok(frame)
}

/// Lowers a `switch` statement: its cases from the last to the first, and then its value.
#[cycle(statements)]
pub(crate) fn lower_switch<U: ReadsUnit>(
    alloc: Global,
    builder: &mut GraphBuilder<'_, U>,
    names: &FunctionNames<'_>,
    at: At,
    discriminant: ExpressionTree<'_>,
    cases: SwitchCaseTrees<'_>,
) -> Result<(), Stop>
    requires names { IsNamed (seen names.now) (state_of U.tables builder.old) }
    requires may { IsLowerableIn (seen names.now) (arounds (state_of U.tables builder.old)) None
        (seen_statement (Statement.Switch at discriminant cases)) }
    requires room { HasRoom (state_of U.tables builder.old) (share (nodes (seen_statement (Statement.Switch at discriminant cases)))) }
    ensures same_reference { builder.new.env.ghost_name ≡ builder.old.env.ghost_name }
    ensures lowered { OnOk result (LowersStatement (seen names.now) (seen_statement (Statement.Switch at discriminant.entry cases.entry))
        (state_of U.tables builder.old) (state_of U.tables builder.new)) }
    ensures memory { IfErr result (λ e. e ≡ Stop.OutOfMemory) }
{
    let frame = lower_cases(alloc, builder, names, at.span, cases)?;
    let value = lower_expression(alloc, builder, names, discriminant)?;
    frame.finish(builder, value)?;
    Ok(())
}
