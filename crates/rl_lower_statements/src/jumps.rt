//! Lowering of `break` and `continue`.

ghost use Rattle.std.specs.Prelude.{◌≡◌, None, Some, option_map, OnOk, IfErr};
ghost use Rattle.rl_ast.specs.StatementViews.{seen_statement};
ghost use Rattle.rl_builder.specs.Builder.{state_of};
ghost use Rattle.rl_lowered.specs.Arounds.{arounds};
ghost use Rattle.rl_lowered.specs.Promised.{HasRoom, LowersStatement, share};
ghost use Rattle.rl_names.specs.Names.{Names};
ghost use Rattle.rl_promises.specs.Jumps.{stop_of_break, stop_of_continue};
ghost use Rattle.rl_runs.specs.Moves.{next_hole};
ghost use Rattle.rl_syntax.specs.Syntax.{nodes};

use rl_ast::statement::Statement;
use rl_base::ids::{BlockId, EvaluationOrder};
use rl_base::span::Span;
use rl_base::stop::Stop;
use rl_base::text::Text;
use rl_builder::unit_tables::ReadsUnit;
use rl_hir::function::BlockKind;
use rl_hir::terminal::{GotoVariant, Terminal, TerminalKind};
use rl_lower_parts::graph_builder::GraphBuilder;
use rl_syntax::numbered::At;

/// The text of a label, if there is one.
fn text_of_label(label: Option<&Text>) -> Option<&str>
    ensures { option_map (λ l. l.now) result ≡ option_map (λ l. l.now) label.entry }
{
    label.map(|label| label.as_str())
}

/// Ends the block by a jump to another, and goes on in a fresh block, which is unreachable.
fn end_by_jump<U: ReadsUnit>(
    builder: &mut GraphBuilder<'_, U>,
    span: Span,
    block: BlockId,
    variant: GotoVariant,
) -> Result<(), Stop>
    requires { HasRoom (state_of U.tables builder.old) 1 }
    ensures same_reference { builder.new.env.ghost_name ≡ builder.old.env.ghost_name }
    ensures state { OnOk result (state_of U.tables builder.new ≡ next_hole (state_of U.tables builder.old) block.0 variant span
        BlockKind.Block) }
    ensures memory { IfErr result (λ e. e ≡ Stop.OutOfMemory) }
{
    let next = builder.reserve(BlockKind::Block)?;
    builder.terminate_with_continuation(
        Terminal {
            order: EvaluationOrder(0),
            span: Some(span),
            kind: TerminalKind::Goto { block, variant },
        },
        next,
    )?;
    Ok(())
}

/// Lowers a `break`.
pub(crate) fn lower_break<U: ReadsUnit>(
    builder: &mut GraphBuilder<'_, U>,
    at: At,
    label: Option<&Text>,
) -> Result<(), Stop>
    requires may { stop_of_break (option_map (λ l. l.now) label) at.span (arounds (state_of U.tables builder.old)) ≡ None }
    requires room { HasRoom (state_of U.tables builder.old) (share (nodes (seen_statement (Statement.Break at label)))) }
    ensures same_reference { builder.new.env.ghost_name ≡ builder.old.env.ghost_name }
    ensures lowered { OnOk result ((names : Names) → LowersStatement names (seen_statement (Statement.Break at label.entry))
        (state_of U.tables builder.old) (state_of U.tables builder.new)) }
    ensures memory { IfErr result (λ e. e ≡ Stop.OutOfMemory) }
{
    match builder.lookup_break(text_of_label(label)) {
        Ok(target) => end_by_jump(builder, at.span, target, GotoVariant::Break),
        Err(_) => unreachable!(),
    }
}

/// Lowers a `continue`.
pub(crate) fn lower_continue<U: ReadsUnit>(
    builder: &mut GraphBuilder<'_, U>,
    at: At,
    label: Option<&Text>,
) -> Result<(), Stop>
    requires may { stop_of_continue (option_map (λ l. l.now) label) at.span (arounds (state_of U.tables builder.old)) ≡ None }
    requires room { HasRoom (state_of U.tables builder.old) (share (nodes (seen_statement (Statement.Continue at label)))) }
    ensures same_reference { builder.new.env.ghost_name ≡ builder.old.env.ghost_name }
    ensures lowered { OnOk result ((names : Names) → LowersStatement names (seen_statement (Statement.Continue at label.entry))
        (state_of U.tables builder.old) (state_of U.tables builder.new)) }
    ensures memory { IfErr result (λ e. e ≡ Stop.OutOfMemory) }
{
    match builder.lookup_continue(text_of_label(label)) {
        Ok(target) => end_by_jump(builder, at.span, target, GotoVariant::Continue),
        Err(_) => unreachable!(),
    }
}
