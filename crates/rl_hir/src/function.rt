ghost use Rattle.std.specs.Prelude.{◌≡◌, None, [], IfOk};
ghost use Rattle.rl_hir.specs.declared.terminal.TerminalKind.TheVariants as ends;

use crate::blocks::GraphBlocks;
use crate::instruction::{Instruction, Place};
use crate::terminal::{Terminal, TerminalKind};
use rl_base::error::OutOfMemory;
use rl_base::ids::{
    BlockId, EvaluationOrder, IdentifierId, InstructionId, NodeId, SymbolId, TypeId,
};
use rl_base::list::List;
use rl_base::span::Span;
use rl_base::text::Text;
use std::alloc::Global;

/// The construct that a block belongs to.
#[derive(Clone, Copy, Debug, PartialEq, Eq)]
pub enum BlockKind {
    /// Statements in a row.
    Block,
    /// A part of an expression that branches, such as a logical or a conditional one.
    Value,
    /// The test, initialiser or update of a loop.
    Loop,
    /// An operand of a sequence expression, or of an optional chain.
    Sequence,
    /// The handler of a `try`.
    Catch,
}

/// Instructions that run one after the other, and the terminal that runs after them. A block holds no id of its own: in a
/// graph, its id is that of its pair (`Blocks`).
#[derive(Drop)]
pub struct BasicBlock {
    /// The construct that it belongs to.
    pub kind: BlockKind,
    /// Indices into the function's instruction table, in the order of evaluation.
    pub instructions: List<InstructionId>,
    /// The end of the block, which runs after the instructions.
    pub terminal: Terminal,
    /// The ids of the blocks that have this one as a successor, each once.
    pub preds: List<BlockId>,
}

impl BasicBlock {
    /// A block of this kind without instructions and predecessors, which ends as unreachable. Allocates nothing.
    pub fn blank_beside(&self) -> BasicBlock
        ensures { result ≡ record {
          kind = self.now.kind;
          instructions = [];
          terminal = record { order = record { 0 = 0 }; span = None; kind = ends.Unreachable };
          preds = [];
        } }
    {
        BasicBlock {
            kind: self.kind,
            instructions: self.instructions.empty_beside(),
            terminal: Terminal {
                order: EvaluationOrder(0),
                span: None,
                kind: TerminalKind::Unreachable,
            },
            preds: self.preds.empty_beside(),
        }
    }

    /// A copy in memory of its own. On `OutOfMemory` an allocation failed.
    pub fn copy(&self, alloc: Global) -> Result<BasicBlock, OutOfMemory>
        ensures { IfOk result (λ copy. copy ≡ self.now) }
    {
        Ok(BasicBlock {
            kind: self.kind,
            instructions: self.instructions.copy(alloc)?,
            terminal: self.terminal.copy(alloc)?,
            preds: self.preds.copy(alloc)?,
        })
    }
}

/// The control-flow graph of a function (`HIR` of the compiler), over the blocks `B`.
#[derive(Drop)]
pub struct Hir<B> {
    /// The id of the block that runs first.
    pub entry: BlockId,
    /// The blocks, each with its id, in the order in which they are listed.
    pub blocks: B,
}

/// The role that React gives a function.
#[derive(Clone, Copy, Debug, PartialEq, Eq)]
pub enum ReactFunctionType {
    /// A function that React renders.
    Component,
    /// A function that components and hooks call, under the rules of hooks.
    Hook,
    /// Neither a component nor a hook.
    Other,
}

/// A parameter of a function.
#[derive(Clone, Copy)]
pub enum Param {
    /// Takes one argument.
    Place(Place),
    /// Takes all arguments from its position on, as an array: a rest parameter.
    Spread(Place),
}

/// A function as a graph, over the blocks `B`.
#[derive(Drop)]
pub struct HirFunction<B> {
    /// The span of the function's node; `None` where no node stands for it.
    pub span: Option<Span>,
    /// The name that the source gives the function.
    pub name: Option<Text>,
    /// The role that React gives the function.
    pub fn_type: ReactFunctionType,
    /// True for a generator.
    pub generator: bool,
    /// True for an async function.
    pub is_async: bool,
    /// The directives of the body, without their quotes, in order.
    pub directives: List<Text>,
    /// The parameters, from left to right.
    pub params: List<Param>,
    /// The variables of enclosing functions that this one captures.
    pub context: List<Place>,
    /// The place that takes the value that the function returns.
    pub returns: Place,
    /// The control-flow graph.
    pub body: Hir<B>,
    /// The instruction table, indexed by instruction id. It may hold instructions that no block lists.
    pub instructions: List<Instruction>,
}

/// The name of an identifier.
#[derive(Drop)]
pub enum IdentifierName {
    /// A name that comes from the source: the symbol's own, or that with a suffix.
    Named(Text),
    /// A name that was made for a temporary.
    Promoted(Text),
}

/// An entry of the table of identifiers.
#[derive(Drop)]
pub struct Identifier {
    /// `None` for a temporary.
    pub name: Option<IdentifierName>,
    /// The span of the symbol's declaration, or of the node whose value a temporary takes; `None` where no node stands
    /// for it.
    pub span: Option<Span>,
    /// The type variable of the identifier, of its own.
    pub type_id: TypeId,
}

/// An inner function as a graph.
#[derive(Drop)]
pub struct InnerFunction {
    /// The node of the unit that was lowered.
    pub node: NodeId,
    /// The graph of the node.
    pub function: HirFunction<GraphBlocks>,
}

/// A symbol of the source, and the identifier that stands for it in every graph of the unit.
#[derive(Clone, Copy)]
pub struct Pair {
    /// The symbol, which is in one pair at most.
    pub symbol: SymbolId,
    /// The identifier, which is in one pair at most.
    pub identifier: IdentifierId,
}

/// The graphs of a unit, with the tables that they share.
#[derive(Drop)]
pub struct Lowered {
    /// The marked function.
    pub function: HirFunction<GraphBlocks>,
    /// The inner functions of the marked one, indexed by function id.
    pub inner: List<InnerFunction>,
    /// The identifiers of all functions, indexed by identifier id.
    pub identifiers: List<Identifier>,
    /// Symbols and their identifiers, in the order in which the symbols got them.
    pub pairs: List<Pair>,
}
