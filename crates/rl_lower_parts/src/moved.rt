//! Expressions that are lowered in another place than they stand in: tests of cases, and defaults.

ghost use Rattle.std.specs.Prelude.{◌≡◌, OnOk};
ghost use Rattle.rl_builder.specs.Builder.{state_of};
ghost use Rattle.rl_lower_parts.specs.Moving.{moving};
ghost use Rattle.rl_names.specs.Seen.{seen};
ghost use Rattle.rl_promises.specs.Moved.{may_move};
ghost use Rattle.rl_syntax.specs.Syntax.{syntax};

use crate::graph_builder::GraphBuilder;
use rl_ast::binding::IdentifierReference;
use rl_base::diagnostic::Diagnostic;
use rl_base::error::OutOfMemory;
use rl_base::ids::{NodeId, ReferenceId, ScopeId, SymbolId};
use rl_base::row::Row;
use rl_base::span::Span;
use rl_base::text::Text;
use rl_builder::unit_tables::ReadsUnit;
use rl_forms::moved::type_name;
use rl_names::names::FunctionNames;
use rl_row_names::facts::RowFacts;
use rl_row_names::order::is_reorderable;
use rl_syntax::numbered::{At, Numbered};
use std::alloc::Global;

/// The names of a unit, of which row F29 asks for those of the module alone.
#[derive(Drop)]
struct ModuleNames<'n> {
    names: &'n FunctionNames<'n>,
}

impl RowFacts for ModuleNames<'_> {
    ghost use Rattle.rl_names.specs.Seen.{seen};
    ghost use Rattle.rl_promises.specs.Moved.{module_facts};

    ghost facts = { λ known. module_facts (seen known.names.now) };

    fn local(&self, reference: ReferenceId, name: &Text) -> Option<SymbolId> {
        self.names.local(&IdentifierReference {
            at: At {
                id: NodeId(0),
                end: NodeId(0),
                scope: ScopeId(0),
                reference,
                span: Span { start: 0, end: 0 },
            },
            name,
        })
    }

    fn is_const(&self, _symbol: SymbolId) -> bool {
        false
    }

    fn is_context(&self, _node: NodeId, _symbol: SymbolId) -> bool {
        false
    }

    fn is_global(&self, _reference: ReferenceId) -> bool {
        false
    }

    fn is_variable(&self, _bind: NodeId) -> bool {
        false
    }

    fn is_lost(&self, _bind: NodeId) -> bool {
        false
    }

    fn is_bound(&self, _name: &Text) -> bool {
        false
    }

    fn is_module(&self, reference: ReferenceId) -> bool {
        self.names.is_module(reference)
    }

    fn is_dead(&self, _node: NodeId) -> bool {
        false
    }
}

/// True of an expression that may be evaluated in another place.
fn may_move(names: &FunctionNames<'_>, tree: &Numbered) -> bool
    ensures { result ≡ may_move (seen names.now) (syntax tree.now) }
{
    is_reorderable(&ModuleNames { names }, true, tree)
}

/// Records row F29 of an expression that may not be evaluated in another place. On `OutOfMemory` an allocation failed.
pub fn note_moved<U: ReadsUnit>(
    alloc: Global,
    builder: &mut GraphBuilder<'_, U>,
    names: &FunctionNames<'_>,
    tree: &Numbered,
) -> Result<(), OutOfMemory>
    ensures same_reference { builder.new.env.ghost_name ≡ builder.old.env.ghost_name }
    ensures state { OnOk result (state_of U.tables builder.new ≡ moving (seen names.now) (state_of U.tables builder.old) (syntax tree.now)) }
{
    if may_move(names, tree) {
        return Ok(());
    }
    match tree {
        Numbered::Node(at, word, _) => {
            let diagnostic = Diagnostic::at(alloc, Row::F29, type_name(*word), at.span)?;
            builder.record_diagnostic(diagnostic)
        }
        Numbered::List(_) => Ok(()),
        Numbered::Text(_) => Ok(()),
        Numbered::Number(_) => Ok(()),
        Numbered::Flag(_) => Ok(()),
        Numbered::Absent => Ok(()),
    }
}
