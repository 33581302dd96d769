//! Calls of `rl_hir` on single values that a listing does not make.

use crate::parts::{place, span};
use rl_base::ids::{BlockId, EvaluationOrder, InstructionId, SymbolId};
use rl_base::list::List;
use rl_hir::block_sets::{BlockMap, new_map};
use rl_hir::function::{BasicBlock, BlockKind};
use rl_hir::instruction::PlaceOrSpread;
use rl_hir::symbol_set::SymbolSet;
use rl_hir::terminal::{Terminal, TerminalKind};
use std::test::Fail;

/// A throw of identifier 1, of order 9.
fn throw() -> Terminal {
    Terminal {
        order: EvaluationOrder(9),
        span: Some(span()),
        kind: TerminalKind::Throw { value: place(1) },
    }
}

#[test]
fn an_argument_has_a_shape_and_a_place(rt: HostRuntime) -> Result<(), Fail> {
    let one = PlaceOrSpread::Place(place(2));
    assert_eq!(rt; one.shape(), "place");
    assert_eq!(rt; one.place(), place(2));
    let spread = PlaceOrSpread::Spread(place(3));
    assert_eq!(rt; spread.shape(), "spread");
    assert_eq!(rt; spread.place(), place(3));
    Ok(())
}

#[test]
fn a_set_has_the_symbols_that_were_added(rt: HostRuntime) -> Result<(), Fail> {
    let mut set = SymbolSet::new(rt.alloc());
    assert!(rt; !set.contains(SymbolId(1)));
    set.insert(SymbolId(3))?;
    set.insert(SymbolId(1))?;
    assert!(rt; set.contains(SymbolId(1)));
    assert!(rt; set.contains(SymbolId(3)));
    assert!(rt; !set.contains(SymbolId(2)));
    Ok(())
}

#[test]
fn an_unreachable_end_keeps_order_and_span(rt: HostRuntime) -> Result<(), Fail> {
    let end = throw().unreachable();
    assert!(rt; matches!(end.kind, TerminalKind::Unreachable));
    assert_eq!(rt; end.order, EvaluationOrder(9));
    assert_eq!(rt; end.span, Some(span()));
    Ok(())
}

#[test]
fn a_blank_block_has_its_kind_alone(rt: HostRuntime) -> Result<(), Fail> {
    let alloc = rt.alloc();
    let mut instructions = List::new(alloc);
    instructions.push(InstructionId(0))?;
    let mut preds = List::new(alloc);
    preds.push(BlockId(2))?;
    let block = BasicBlock {
        kind: BlockKind::Catch,
        instructions,
        terminal: throw(),
        preds,
    };
    let blank = block.blank_beside();
    assert_eq!(rt; blank.kind, BlockKind::Catch);
    assert!(rt; blank.instructions.as_slice().is_empty());
    assert!(rt; blank.preds.as_slice().is_empty());
    assert!(rt; matches!(blank.terminal.kind, TerminalKind::Unreachable));
    assert_eq!(rt; blank.terminal.order, EvaluationOrder(0));
    assert_eq!(rt; blank.terminal.span, None);
    Ok(())
}

#[test]
fn a_new_map_has_no_values(rt: HostRuntime) -> Result<(), Fail> {
    let mut map: BlockMap<u32> = new_map(rt.alloc());
    assert!(rt; map.is_empty());
    map.insert(BlockId(5), 7)?;
    assert_eq!(rt; map.get(&BlockId(5)).copied(), Some(7));
    Ok(())
}
