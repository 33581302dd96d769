//! Graphs of five shapes. Each block is reached, or is the fallthrough of one that is, but for handlers.

use crate::graph::{Graph, back_to, end, leave_to, place};
use rl_base::error::OutOfMemory;
use rl_base::ids::BlockId;
use rl_base::list::List;
use rl_hir::blocks::Blocks;
use rl_hir::terminal::{Case, TerminalKind};
use std::alloc::Global;

/// Number of loops in one another.
const DEEPEST: u32 = 60;

/// The shape of a graph.
#[derive(Clone, Copy)]
pub enum Shape {
    /// Each block goes to the next one.
    Chain,
    /// `if` statements in a row.
    Comb,
    /// Nests of `while` loops in a row.
    Loops,
    /// A `switch` statement with all other blocks as cases.
    Switch,
    /// A `switch` statement whose cases are `try` statements. No block leads to their handlers; every other one returns in its block, so
    /// that the block behind it has the handler as its only predecessor.
    Tries,
}

/// All shapes.
pub const SHAPES: [Shape; 5] = [
    Shape::Chain,
    Shape::Comb,
    Shape::Loops,
    Shape::Switch,
    Shape::Tries,
];

impl Shape {
    /// The name of the shape.
    pub fn name(self) -> &'static str {
        match self {
            Shape::Chain => "chain",
            Shape::Comb => "comb",
            Shape::Loops => "loops",
            Shape::Switch => "switch",
            Shape::Tries => "tries",
        }
    }

    /// The shape that has this name.
    pub fn from_name(name: &str) -> Option<Shape> {
        for shape in SHAPES {
            if shape.name() == name {
                return Some(shape);
            }
        }
        None
    }
}

/// A chain of blocks.
fn chain<B: Blocks>(alloc: Global, size: u32) -> Result<Graph<B>, OutOfMemory> {
    let mut graph = Graph::new(alloc);
    let last = size.saturating_sub(1);
    for id in 0..last {
        graph.put(alloc, id, leave_to(id + 1))?;
    }
    graph.put(alloc, last, end())?;
    Ok(graph)
}

/// A comb of `if` statements, of two blocks each.
fn comb<B: Blocks>(alloc: Global, size: u32) -> Result<Graph<B>, OutOfMemory> {
    let mut graph = Graph::new(alloc);
    let mut at: u32 = 0;
    for _number in 0..size.saturating_sub(1) / 2 {
        let consequent = at.saturating_add(1);
        let behind = at.saturating_add(2);
        let kind = TerminalKind::If {
            test: place(at),
            consequent: BlockId(consequent),
            alternate: BlockId(behind),
            fallthrough: BlockId(behind),
        };
        graph.put(alloc, at, kind)?;
        graph.put(alloc, consequent, leave_to(behind))?;
        at = behind;
    }
    graph.put(alloc, at, end())?;
    Ok(graph)
}

/// Puts a loop: the block `at` opens it, and the three ids from `first` on are those of its test, its body and the block behind it.
fn put_loop<B: Blocks>(
    alloc: Global,
    graph: &mut Graph<B>,
    at: u32,
    first: u32,
) -> Result<(), OutOfMemory> {
    let body = first.saturating_add(1);
    let behind = first.saturating_add(2);
    let opened = TerminalKind::While {
        test: BlockId(first),
        loop_block: BlockId(body),
        fallthrough: BlockId(behind),
    };
    let tested = TerminalKind::Branch {
        test: place(first),
        consequent: BlockId(body),
        alternate: BlockId(behind),
        fallthrough: BlockId(first),
    };
    graph.put(alloc, at, opened)?;
    graph.put(alloc, first, tested)
}

/// Puts loops in one another, but for the block behind the outermost one, which the block `at` opens. The ids from `first` on are
/// those of the other blocks.
fn put_nest<B: Blocks>(
    alloc: Global,
    graph: &mut Graph<B>,
    at: u32,
    first: u32,
) -> Result<(), OutOfMemory> {
    let mut opening = at;
    let mut test = first;
    for _depth in 1..DEEPEST {
        put_loop(alloc, graph, opening, test)?;
        let inner = test.saturating_add(3);
        graph.put(alloc, inner.saturating_add(2), back_to(test))?;
        opening = test.saturating_add(1);
        test = inner;
    }
    put_loop(alloc, graph, opening, test)?;
    graph.put(alloc, test.saturating_add(1), back_to(test))
}

/// Nests of loops in a row.
fn loops<B: Blocks>(alloc: Global, size: u32) -> Result<Graph<B>, OutOfMemory> {
    let mut graph = Graph::new(alloc);
    let mut at = 0;
    let mut first: u32 = 1;
    for _number in 0..size.saturating_sub(1) / (3 * DEEPEST) {
        put_nest(alloc, &mut graph, at, first)?;
        at = first.saturating_add(2);
        first = first.saturating_add(3 * DEEPEST);
    }
    graph.put(alloc, at, end())?;
    Ok(graph)
}

/// A switch statement that ends block 0, with block 1 behind it.
fn switch_to(alloc: Global, blocks: &[u32]) -> Result<TerminalKind, OutOfMemory> {
    let mut cases = List::new(alloc);
    for block in blocks {
        cases.push(Case {
            test: Some(place(*block)),
            block: BlockId(*block),
        })?;
    }
    Ok(TerminalKind::Switch {
        test: place(0),
        cases,
        fallthrough: BlockId(1),
    })
}

/// A `switch` statement with a block for each case.
fn switch<B: Blocks>(alloc: Global, size: u32) -> Result<Graph<B>, OutOfMemory> {
    let mut graph = Graph::new(alloc);
    let mut cases = Vec::new(alloc);
    for id in 2..size {
        cases.push(id)?;
    }
    graph.put(alloc, 0, switch_to(alloc, cases.as_slice())?)?;
    for id in cases.as_slice() {
        graph.put(alloc, *id, leave_to(1))?;
    }
    graph.put(alloc, 1, end())?;
    Ok(graph)
}

/// Puts a `try` statement in a block: its body, its handler and the block behind it are the next three. No block leads to the handler,
/// and the body returns or goes on behind.
fn put_try<B: Blocks>(
    alloc: Global,
    graph: &mut Graph<B>,
    at: u32,
    returns: bool,
) -> Result<(), OutOfMemory> {
    let body = at.saturating_add(1);
    let handler = at.saturating_add(2);
    let behind = at.saturating_add(3);
    let kind = TerminalKind::Try {
        block: BlockId(body),
        handler_binding: None,
        handler: BlockId(handler),
        fallthrough: BlockId(behind),
    };
    graph.put(alloc, at, kind)?;
    let mut preds = List::new(alloc);
    if returns {
        graph.put(alloc, body, end())?;
    } else {
        graph.put(alloc, body, leave_to(behind))?;
        preds.push(BlockId(body))?;
    }
    graph.put(alloc, handler, leave_to(behind))?;
    preds.push(BlockId(handler))?;
    graph.put_with(alloc, behind, leave_to(1), preds)
}

/// A `switch` statement whose cases are `try` statements.
fn tries<B: Blocks>(alloc: Global, size: u32) -> Result<Graph<B>, OutOfMemory> {
    let mut graph = Graph::new(alloc);
    let mut cases = Vec::new(alloc);
    let mut at: u32 = 2;
    for _number in 0..size.saturating_sub(2) / 4 {
        cases.push(at)?;
        at = at.saturating_add(4);
    }
    graph.put(alloc, 0, switch_to(alloc, cases.as_slice())?)?;
    for at in cases.as_slice() {
        put_try(alloc, &mut graph, *at, *at % 8 == 2)?;
    }
    graph.put(alloc, 1, end())?;
    Ok(graph)
}

/// The graph of a shape with about so many blocks. On `OutOfMemory` an allocation failed.
pub fn make<B: Blocks>(alloc: Global, shape: Shape, size: u32) -> Result<Graph<B>, OutOfMemory> {
    match shape {
        Shape::Chain => chain(alloc, size),
        Shape::Comb => comb(alloc, size),
        Shape::Loops => loops(alloc, size),
        Shape::Switch => switch(alloc, size),
        Shape::Tries => tries(alloc, size),
    }
}
