//! Temporaries with names of their own.

ghost use Rattle.std.specs.Prelude.{◌≡◌, ◌++◌, ◌+◌, ◌<◌, ◌^◌, length, codes, OnOk, IfOk};
ghost use Rattle.std.specs.Fmt.{decimal};
ghost use Rattle.rl_builder.specs.Builder.{state_of};
ghost use Rattle.rl_lowered.specs.Items.{caught, promoted};

use crate::graph_builder::GraphBuilder;
use rl_base::error::OutOfMemory;
use rl_base::ids::IdentifierId;
use rl_base::span::Span;
use rl_base::text::Text;
use rl_builder::unit_tables::ReadsUnit;
use rl_hir::function::IdentifierName;
use rl_hir::instruction::Place;
use std::alloc::Global;

/// The name of a temporary that has one: `#t0`, `#t1` and so on.
fn temporary_name(alloc: Global, identifier: IdentifierId) -> Result<Text, OutOfMemory>
    ensures { IfOk result (λ name. name ≡ codes "#t" ++ decimal identifier.0) }
{
    let number = identifier.0;
    Ok(Text::new(format!(in alloc; "#t{number}")?))
}

/// A fresh temporary with a name of its own (`promoteTemporary`). On `OutOfMemory` an allocation failed.
pub fn make_promoted<U: ReadsUnit>(
    alloc: Global,
    builder: &mut GraphBuilder<'_, U>,
    span: Span,
) -> Result<Place, OutOfMemory>
    requires identifiers { length (state_of U.tables builder.old).env.identifiers < 2 ^ 32 }
    requires types { (state_of U.tables builder.old).env.next_type + 1 < 2 ^ 32 }
    ensures same_reference { builder.new.env.ghost_name ≡ builder.old.env.ghost_name }
    ensures state { OnOk result (state_of U.tables builder.new ≡ promoted (state_of U.tables builder.old) span) }
    ensures place { IfOk result (λ place. place ≡ caught (state_of U.tables builder.old) span) }
{
    let place = builder.create_temporary_place(Some(span))?;
    let name = IdentifierName::Promoted(temporary_name(alloc, place.identifier)?);
    builder.environment_mut().set_name(place.identifier, name);
    Ok(place)
}
