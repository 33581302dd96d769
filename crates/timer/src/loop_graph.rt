//! Runs of the graph of `while (n < n) g();`.

ghost use Rattle.std.specs.Prelude.{◌≡◌, ◌<◌};

use crate::loop_answers::answers_of;
use crate::loop_times::LoopTimes;
use anyhow::Result;
use rl_base::error::OutOfMemory;
use rl_base::ids::{BlockId, EvaluationOrder, IdentifierId, InstructionId, TypeId};
use rl_base::list::List;
use rl_base::operator::BinaryOperator;
use rl_base::steps::Steps;
use rl_base::text::Text;
use rl_graph_run::run::run_graph;
use rl_hir::blocks::{Blocks, GraphBlocks};
use rl_hir::function::{
    BasicBlock, BlockKind, Hir, HirFunction, Identifier, Lowered, Param, ReactFunctionType,
};
use rl_hir::instruction::{Instruction, InstructionValue, NonLocalBinding, Place, PrimitiveValue};
use rl_hir::terminal::{GotoVariant, ReturnVariant, Terminal, TerminalKind};
use rl_machine::trace::{Trace, Value};
use rl_trace::error::RunError;
use std::alloc::Global;
use std::marker::Brand;
use std::sync::ledger::{Blank, Ledger};
use std::time::{Duration, Instant};

/// The place of an identifier.
fn place(identifier: u32) -> Place {
    Place {
        identifier: IdentifierId(identifier),
        span: None,
    }
}

/// An instruction that gives an identifier its value.
fn instruction(identifier: u32, value: InstructionValue) -> Instruction {
    Instruction {
        order: EvaluationOrder(0),
        lvalue: place(identifier),
        value,
        span: None,
    }
}

/// The table: instruction N gives identifier N + 1, and identifier 0 is the parameter. On `OutOfMemory` an allocation failed.
fn table(alloc: Global) -> Result<List<Instruction>, OutOfMemory> {
    let mut table = List::new(alloc);
    let comparison = InstructionValue::BinaryExpression {
        operator: BinaryOperator::LessThan,
        left: place(0),
        right: place(0),
    };
    table.push(instruction(1, comparison))?;
    let name = NonLocalBinding::Global {
        name: Text::from_str(alloc, "g")?,
    };
    table.push(instruction(2, InstructionValue::LoadGlobal(name)))?;
    let call = InstructionValue::CallExpression {
        callee: place(2),
        arguments: List::new(alloc),
    };
    table.push(instruction(3, call))?;
    let undefined = InstructionValue::Primitive(PrimitiveValue::Undefined);
    table.push(instruction(4, undefined))?;
    Ok(table)
}

/// Puts a block that lists the instructions from `first` on, `count` of them. On `OutOfMemory` an allocation failed.
fn put(
    alloc: Global,
    blocks: &mut GraphBlocks,
    id: u32,
    first: u32,
    count: u32,
    kind: TerminalKind,
) -> Result<(), OutOfMemory> {
    let mut instructions = List::new(alloc);
    for number in 0..count {
        instructions.push(InstructionId(first.saturating_add(number)))?;
    }
    let block = BasicBlock {
        kind: BlockKind::Block,
        instructions,
        terminal: Terminal {
            order: EvaluationOrder(0),
            span: None,
            kind,
        },
        preds: List::new(alloc),
    };
    blocks.put(BlockId(id), block)
}

/// The blocks: the loop, its test, its body, and the end. On `OutOfMemory` an allocation failed.
fn blocks(alloc: Global) -> Result<GraphBlocks, OutOfMemory> {
    let mut blocks = GraphBlocks::empty(alloc);
    let enter = TerminalKind::While {
        test: BlockId(1),
        loop_block: BlockId(2),
        fallthrough: BlockId(3),
    };
    put(alloc, &mut blocks, 0, 0, 0, enter)?;
    let branch = TerminalKind::Branch {
        test: place(1),
        consequent: BlockId(2),
        alternate: BlockId(3),
        fallthrough: BlockId(3),
    };
    put(alloc, &mut blocks, 1, 0, 1, branch)?;
    let back = TerminalKind::Goto {
        block: BlockId(1),
        variant: GotoVariant::Continue,
    };
    put(alloc, &mut blocks, 2, 1, 2, back)?;
    let end = TerminalKind::Return {
        variant: ReturnVariant::Void,
        value: place(4),
    };
    put(alloc, &mut blocks, 3, 3, 1, end)?;
    Ok(blocks)
}

/// Number of the identifiers: the parameter, the values of the instructions, and that of the function.
const IDENTIFIERS: u32 = 6;

/// The table of identifiers. A run looks up those that it lists in constant time. On `OutOfMemory` an allocation failed.
fn identifiers(alloc: Global) -> Result<List<Identifier>, OutOfMemory> {
    let mut identifiers = List::new(alloc);
    for number in 0..IDENTIFIERS {
        identifiers.push(Identifier {
            name: None,
            span: None,
            type_id: TypeId(number),
        })?;
    }
    Ok(identifiers)
}

/// A result whose marked function is the loop. On `OutOfMemory` an allocation failed.
fn lowered(alloc: Global) -> Result<Lowered, OutOfMemory> {
    let mut params = List::new(alloc);
    params.push(Param::Place(place(0)))?;
    let function = HirFunction {
        span: None,
        name: None,
        fn_type: ReactFunctionType::Other,
        generator: false,
        is_async: false,
        directives: List::new(alloc),
        params,
        context: List::new(alloc),
        returns: place(5),
        body: Hir {
            entry: BlockId(0),
            blocks: blocks(alloc)?,
        },
        instructions: table(alloc)?,
    };
    Ok(Lowered {
        function,
        inner: List::new(alloc),
        identifiers: identifiers(alloc)?,
        pairs: List::new(alloc),
    })
}

/// A run of the loop from the argument 7. The ledger that `blank` becomes counts its steps.
fn run_by<L: Ledger>(alloc: Global, turns: u32, blank: Blank) -> Result<Trace, RunError>
    requires name { blank.name ≡ L.name }
    requires parts { blank.parts ≡ L.parts }
    requires shared { 0 < blank.parts }
{
    let lowered = lowered(alloc)?;
    let answers = answers_of(alloc, turns)?;
    let mut arguments = List::new(alloc);
    arguments.push(Value::Given(7))?;
    let mut steps = Steps::<L>::new(blank);
    run_graph(
        alloc,
        &lowered,
        None,
        &[],
        arguments.as_slice(),
        answers.as_slice(),
        &mut steps,
    )
}

/// The trace of so many turns.
pub fn trace_of(alloc: Global, turns: u32) -> Result<Trace> {
    Ok(run_by::<Brand>(alloc, turns, Blank::new(1))?)
}

/// The number of events of so many turns, and of the shortest of `runs` runs the nanoseconds, with the time to make the graph and the
/// answers. The longest duration without a run.
pub fn times_of(rt: &HostRuntime, turns: u32, runs: u32) -> Result<LoopTimes> {
    let mut least = Duration::MAX;
    let mut events = 0;
    for _run in 0..runs {
        let start = Instant::now(rt)?;
        let trace = run_by::<Brand>(rt.alloc(), turns, Blank::new(1))?;
        least = least.min(start.elapsed(rt)?);
        events = trace.events.len();
    }
    Ok(LoopTimes { events, least })
}
