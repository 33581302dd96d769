//! Lowering of the tests of the cases of a `switch`.

ghost use Rattle.std.specs.Prelude.{◌≡◌, OnOk, IfOk, IfErr};
ghost use Rattle.rl_builder.specs.Builder.{state_of};
ghost use Rattle.rl_grammar.specs.Fields.{maybe};
ghost use Rattle.rl_lowered.specs.Named.{IsNamed};
ghost use Rattle.rl_lowered.specs.Promised.{HasRoom, LowersCaseTest, share};
ghost use Rattle.rl_names.specs.Seen.{seen};
ghost use Rattle.rl_promises.specs.Lowerable.{IsLowerable};
ghost use Rattle.rl_syntax.specs.Syntax.{nodes, syntax};

use rl_base::stop::Stop;
use rl_builder::unit_tables::ReadsUnit;
use rl_grammar::sort::ExpressionTree;
use rl_hir::instruction::Place;
use rl_lower_expressions::expression::lower_expression;
use rl_lower_parts::graph_builder::GraphBuilder;
use rl_lower_parts::moved::note_moved;
use rl_names::names::FunctionNames;
use std::alloc::Global;

/// Lowers the test of a case, which a default has not. One that may not be evaluated in another place is refused, and lowered all
/// the same.
pub(crate) fn lower_case_test<U: ReadsUnit>(
    alloc: Global,
    builder: &mut GraphBuilder<'_, U>,
    names: &FunctionNames<'_>,
    test: Option<ExpressionTree<'_>>,
) -> Result<Option<Place>, Stop>
    requires names { IsNamed (seen names.now) (state_of U.tables builder.old) }
    requires may { IsLowerable (seen names.now) (maybe test (λ t. syntax t.tree.now)) }
    requires room { HasRoom (state_of U.tables builder.old) (share (nodes (maybe test (λ t. syntax t.tree.now)))) }
    ensures same_reference { builder.new.env.ghost_name ≡ builder.old.env.ghost_name }
    ensures lowered { IfOk result (λ place. LowersCaseTest (seen names.now) (maybe test.entry (λ t. syntax t.tree.now))
        (state_of U.tables builder.old) (state_of U.tables builder.new) place) }
    ensures memory { IfErr result (λ e. e ≡ Stop.OutOfMemory) }
{
    match test {
        Some(test) => {
            note_moved(alloc, builder, names, test.tree)?;
            let place = lower_expression(alloc, builder, names, test)?;
            Ok(Some(place))
        }
        None => Ok(None),
    }
}
