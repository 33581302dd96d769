//! Terminals: the ends of blocks, and the blocks to which they lead.

ghost use Rattle.std.specs.Prelude.{◌≡◌, ◌++◌, IfOk, OnOk, map};
ghost use Rattle.rl_hir.specs.Terminals.{fallthrough, fields_of, leads, listed_id, successor_ids, unreachable};

use crate::instruction::Place;
use crate::terminal_table::with_terminals;
use rl_base::error::OutOfMemory;
use rl_base::ids::{BlockId, EvaluationOrder};
use rl_base::list::List;
use rl_base::operator::LogicalOperator;
use rl_base::span::Span;
use std::alloc::Global;

/// The end of a block.
#[derive(Drop)]
pub struct Terminal {
    /// Its evaluation order, from 1 in block order; 0 before orders are given.
    pub order: EvaluationOrder,
    /// The span of the node that it comes from; `None` where no node stands for it.
    pub span: Option<Span>,
    /// The way in which the block ends.
    pub kind: TerminalKind,
}

/// The way in which a block ends (`Terminal` of the compiler, whose order and span are those of `Terminal`). Blocks are
/// given by their ids. A `fallthrough` is the block behind the construct that the terminal opens.
#[derive(Drop)]
pub enum TerminalKind {
    /// Goes on in a block.
    Goto {
        block: BlockId,
        variant: GotoVariant,
    },
    /// An `if` statement.
    If {
        test: Place,
        consequent: BlockId,
        alternate: BlockId,
        fallthrough: BlockId,
    },
    /// The branch behind the test of an expression or a loop.
    Branch {
        test: Place,
        consequent: BlockId,
        alternate: BlockId,
        fallthrough: BlockId,
    },
    /// A `switch` statement.
    Switch {
        test: Place,
        cases: List<Case>,
        fallthrough: BlockId,
    },
    /// A logical expression. `test` computes the left operand.
    Logical {
        operator: LogicalOperator,
        test: BlockId,
        fallthrough: BlockId,
    },
    /// A conditional expression.
    Ternary {
        test: BlockId,
        fallthrough: BlockId,
    },
    /// A link of an optional chain. `optional` is true where the source has `?.`.
    Optional {
        optional: bool,
        test: BlockId,
        fallthrough: BlockId,
    },
    /// A sequence expression.
    Sequence {
        block: BlockId,
        fallthrough: BlockId,
    },
    /// A labelled statement that is no loop.
    Label {
        block: BlockId,
        fallthrough: BlockId,
    },
    /// A `try` statement. A throw in its block goes to `handler`, and its value to `handler_binding`.
    Try {
        block: BlockId,
        handler_binding: Option<Place>,
        handler: BlockId,
        fallthrough: BlockId,
    },
    /// A `while` loop.
    While {
        test: BlockId,
        loop_block: BlockId,
        fallthrough: BlockId,
    },
    /// A `do`-`while` loop.
    DoWhile {
        loop_block: BlockId,
        test: BlockId,
        fallthrough: BlockId,
    },
    /// A `for` loop. `update` is `None` if it has no update, or none that is run.
    For {
        init: BlockId,
        test: BlockId,
        update: Option<BlockId>,
        loop_block: BlockId,
        fallthrough: BlockId,
    },
    /// A `for`-`in` loop.
    ForIn {
        init: BlockId,
        loop_block: BlockId,
        fallthrough: BlockId,
    },
    /// A `for`-`of` loop.
    ForOf {
        init: BlockId,
        test: BlockId,
        loop_block: BlockId,
        fallthrough: BlockId,
    },
    /// The instructions of the block may throw: a throw goes to the handler, if there is one.
    MaybeThrow {
        continuation: BlockId,
        handler: Option<BlockId>,
    },
    /// The function returns.
    Return {
        variant: ReturnVariant,
        /// The place whose value is returned.
        value: Place,
    },
    /// The function throws.
    Throw {
        /// The place whose value is thrown.
        value: Place,
    },
    /// The block is never run to its end.
    Unreachable,
}

/// The reason for which a block goes on in another.
#[derive(Clone, Copy, Debug, PartialEq, Eq)]
pub enum GotoVariant {
    /// It leaves a construct, or goes on behind it.
    Break,
    /// It goes back to a loop.
    Continue,
    /// It leaves the block of a `try`.
    Try,
}

/// A case of a `switch`.
#[derive(Clone, Copy)]
pub struct Case {
    /// The place that the value of the `switch` is compared with; `None` for the default.
    pub test: Option<Place>,
    /// The block that runs if the case is taken.
    pub block: BlockId,
}

/// The form of the source that a return comes from.
#[derive(Clone, Copy, Debug, PartialEq, Eq)]
pub enum ReturnVariant {
    /// The body of an arrow that is an expression.
    Implicit,
    /// A `return` statement.
    Explicit,
    /// The end of a body of statements.
    Void,
}

/// Appends a block, if it is there. On `OutOfMemory`, an allocation failed.
fn add_if_there(ids: &mut Vec<BlockId>, id: Option<BlockId>) -> Result<(), OutOfMemory>
    ensures { OnOk result (ids.new.items ≡ ids.old.items ++ listed_id id) }
{
    if let Some(id) = id {
        ids.push(id)?;
    }
    Ok(())
}

/// Appends the block of each case, in order. On `OutOfMemory`, an allocation failed, and `ids` may hold some of them.
fn add_cases(ids: &mut Vec<BlockId>, cases: &[Case]) -> Result<(), OutOfMemory>
    ensures { OnOk result (ids.new.items ≡ ids.old.items ++ map (λ c. c.block) cases.now) }
{
    for case in cases {
        ids.push(case.block)?;
    }
    Ok(())
}

/// The blocks to which a terminal may lead: of at most two fields, and of cases.
#[derive(Clone, Copy)]
struct Led<'a> {
    first: Option<BlockId>,
    second: Option<BlockId>,
    cases: &'a [Case],
}

/// The pattern of a field: its name where the terminal may lead to its blocks.
macro_rules! led_pattern {
    (leads $field:ident) => {
        $field
    };
    (may_lead $field:ident) => {
        $field
    };
    (chooses $field:ident) => {
        $field
    };
    ($tells:ident $field:ident) => {
        _
    };
}

/// The blocks to which the fields of a terminal may lead.
macro_rules! led {
    () => {
        Led { first: None, second: None, cases: &[] }
    };
    (leads $first:ident, leads $second:ident $($rest:tt)*) => {
        Led { first: Some(*$first), second: Some(*$second), cases: &[] }
    };
    (leads $first:ident, may_lead $second:ident $($rest:tt)*) => {
        Led { first: Some(*$first), second: *$second, cases: &[] }
    };
    (leads $first:ident $($rest:tt)*) => {
        Led { first: Some(*$first), second: None, cases: &[] }
    };
    (chooses $cases:ident $($rest:tt)*) => {
        Led { first: None, second: None, cases: $cases.as_slice() }
    };
    ($tells:ident $field:ident $(, $($rest:tt)*)?) => {
        led!($($($rest)*)?)
    };
}

/// The blocks to which a terminal may lead.
macro_rules! led_of {
    (($kind:expr) $($name:ident $word:literal ($($tells:ident $field:ident),*))*) => {
        match $kind {
            $(TerminalKind::$name { $($field: led_pattern!($tells $field),)* } => led!($($tells $field),*),)*
        }
    };
}

/// The blocks to which a terminal of a kind may lead.
fn led_by(kind: &TerminalKind) -> Led<'_>
    ensures { listed_id result.first ++ (listed_id result.second ++ map (λ c. c.block) result.cases.now) ≡ leads (fields_of kind.now) }
{
    with_terminals!(led_of(kind))
}

/// The ids of the blocks to which a terminal may lead, in the original's order (`eachTerminalSuccessor`). A fallthrough is
/// not among them unless the terminal may lead there at once. On `OutOfMemory`, an allocation failed.
pub fn each_terminal_successor(
    alloc: Global,
    terminal: &Terminal,
) -> Result<Vec<BlockId>, OutOfMemory>
    ensures { IfOk result (λ ids. ids.items ≡ successor_ids terminal.now) }
{
    let led = led_by(&terminal.kind);
    let mut ids = Vec::with_capacity(alloc, led.cases.len().max(2))?;
    add_if_there(&mut ids, led.first)?;
    add_if_there(&mut ids, led.second)?;
    add_cases(&mut ids, led.cases)?;
    Ok(ids)
}

/// The pattern of a field: its name where it is the block behind the construct.
macro_rules! followed_pattern {
    (follows $field:ident) => {
        $field
    };
    ($tells:ident $field:ident) => {
        _
    };
}

/// The block of the first field that follows, if there is one.
macro_rules! followed {
    () => {
        None
    };
    (follows $block:ident $($rest:tt)*) => {
        Some(*$block)
    };
    ($tells:ident $field:ident $(, $($rest:tt)*)?) => {
        followed!($($($rest)*)?)
    };
}

/// The block behind the construct that a terminal opens.
macro_rules! followed_of {
    (($kind:expr) $($name:ident $word:literal ($($tells:ident $field:ident),*))*) => {
        match $kind {
            $(TerminalKind::$name { $($field: followed_pattern!($tells $field),)* } => followed!($($tells $field),*),)*
        }
    };
}

/// The id of the block that stands behind the construct which a terminal opens, if it opens one
/// (`terminalFallthrough`).
pub fn terminal_fallthrough(terminal: &Terminal) -> Option<BlockId>
    ensures { result ≡ fallthrough terminal.now }
{
    with_terminals!(followed_of(&terminal.kind))
}

impl Terminal {
    /// The terminal of a block that is never run to its end, with the order and the span of this one.
    pub fn unreachable(&self) -> Terminal
        ensures { result ≡ unreachable self.now }
    {
        Terminal {
            order: self.order,
            span: self.span,
            kind: TerminalKind::Unreachable,
        }
    }

    /// A copy in memory of its own. On `OutOfMemory` an allocation failed.
    pub fn copy(&self, alloc: Global) -> Result<Terminal, OutOfMemory>
        ensures { IfOk result (λ copy. copy ≡ self.now) }
    {
        Ok(Terminal {
            order: self.order,
            span: self.span,
            kind: self.kind.copy(alloc)?,
        })
    }
}

/// A copy of a field.
macro_rules! copied {
    ($alloc:ident chooses $cases:ident) => {
        $cases.copy($alloc)?
    };
    ($alloc:ident $tells:ident $field:ident) => {
        *$field
    };
}

/// A copy of a terminal.
macro_rules! copy_of {
    (($alloc:ident, $kind:expr) $($name:ident $word:literal ($($tells:ident $field:ident),*))*) => {
        match $kind {
            $(TerminalKind::$name { $($field,)* } => TerminalKind::$name {
                $($field: copied!($alloc $tells $field),)*
            },)*
        }
    };
}

impl TerminalKind {
    /// A copy in memory of its own. On `OutOfMemory` an allocation failed.
    pub fn copy(&self, alloc: Global) -> Result<TerminalKind, OutOfMemory>
        ensures { IfOk result (λ copy. copy ≡ self.now) }
    {
        Ok(with_terminals!(copy_of(alloc, self)))
    }
}
