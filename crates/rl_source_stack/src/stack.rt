//! The frames of a run: continuations of parts of the function.

use crate::apart::{Apart, Bindings, Targets};
use crate::behind::{Behind, Following, Turns};
use crate::gather::{Gather, Parts, Pending};
use rl_base::list::List;
use rl_base::text::Text;
use rl_grammar::sort::{
    ArgumentTrees, ArrowBodyTree, AssignmentTargetRestTree, BindingPatternTree,
    BindingRestElementTree, BlockStatementTree, ExpressionTree, ExpressionTrees,
    FormalParameterTrees, FunctionBodyTree, StatementTree, StatementTrees, SwitchCaseTrees,
    TemplateElementTrees, VariableDeclaratorTrees,
};
use rl_machine::trace::Value;
use rl_trace::value::Val;

/// The construct whose callee is evaluated.
#[derive(Clone, Copy)]
pub enum Heading<'b> {
    /// A call.
    Call {
        /// True of an optional call.
        optional: bool,
        /// The arguments.
        arguments: ArgumentTrees<'b>,
    },
    /// A tagged template.
    Tagged {
        /// Its texts.
        quasis: TemplateElementTrees<'b>,
        /// Its expressions.
        expressions: ExpressionTrees<'b>,
    },
}

/// The body of a function.
#[derive(Clone, Copy)]
pub enum Code<'b> {
    /// That of an arrow function.
    Arrow(ArrowBodyTree<'b>),
    /// That of another function.
    Function(FunctionBodyTree<'b>),
}

/// The construct around a statement.
#[derive(Clone, Copy)]
pub enum Around<'b> {
    /// The statements behind it.
    Statements {
        /// Those that are left.
        statements: StatementTrees<'b>,
    },
    /// The declarators behind it.
    Declarators {
        /// Those that are left.
        declarators: VariableDeclaratorTrees<'b>,
    },
    /// A loop, of which it is the body.
    Body {
        /// The turns that are left.
        turns: Turns<'b>,
    },
    /// A loop, whose head it is.
    Head {
        /// The turns that are left.
        turns: Turns<'b>,
    },
    /// A `for` loop, of which it is the first part.
    For {
        /// The label right in front of the loop.
        own: Option<&'b Text>,
        /// The test.
        condition: ExpressionTree<'b>,
        /// The update, or none.
        update: Option<ExpressionTree<'b>>,
        /// The body.
        body: StatementTree<'b>,
    },
    /// A `try`, of which it is the block.
    Try {
        /// The pattern that takes the value of a throw, or none.
        param: Option<BindingPatternTree<'b>>,
        /// The body of the `catch`.
        body: BlockStatementTree<'b>,
    },
    /// The body of a `catch`, behind its parameter.
    Catch {
        /// The body.
        body: BlockStatementTree<'b>,
    },
    /// A loop or a `switch`.
    Breakable,
    /// A label.
    Labeled {
        /// The label.
        label: &'b Text,
    },
    /// A `switch`, of which it is a case.
    Cases {
        /// The cases behind it.
        cases: SwitchCaseTrees<'b>,
    },
    /// A pattern, of which it is a part.
    Bindings {
        /// True in parameters, in `catch` and in heads of loops.
        everywhere: bool,
        /// The parts that are left.
        items: Bindings<'b>,
        /// The pieces that are left.
        pieces: &'b [Value],
        /// The rest.
        rest: Option<BindingRestElementTree<'b>>,
    },
    /// A parameter.
    Parameters {
        /// The parameters that are left.
        params: FormalParameterTrees<'b>,
        /// The arguments that are left.
        arguments: &'b [Value],
        /// The rest.
        rest: Option<BindingRestElementTree<'b>>,
    },
    /// The parameters of a function, whose body is next.
    Function {
        /// The body.
        body: Code<'b>,
    },
    /// The body of a function.
    End,
}

/// The construct around a target that takes a value.
#[derive(Clone, Copy)]
pub enum Receiving<'b> {
    /// A target, of which it is a part.
    Targets {
        /// The parts that are left.
        items: Targets<'b>,
        /// The pieces that are left.
        pieces: &'b [Value],
        /// The rest.
        rest: Option<AssignmentTargetRestTree<'b>>,
    },
    /// An assignment to a pattern, with the value that it gives.
    Give {
        /// The value.
        value: Val<'b>,
    },
}

/// The continuation of a part.
#[derive(Drop)]
pub enum Frame<'b> {
    /// For its value, in an expression.
    Value(Behind<'b>),
    /// For its value, in a statement.
    Following(Following<'b>),
    /// For its end.
    Statement(Around<'b>),
    /// For the end of a target that takes a value.
    Target(Receiving<'b>),
    /// For a function that is called, and for the object that lends itself to it.
    Head(Heading<'b>),
    /// For the pieces of a value.
    Pieces(Apart<'b>),
    /// For a value of a list.
    Given {
        /// The construct that takes the list.
        gather: Gather<'b>,
        /// The rest of the part.
        pending: Pending<'b>,
        /// The parts that are left.
        left: Parts<'b>,
        /// The values so far.
        given: List<Value>,
    },
    /// For the value of a chain, which may end early. `lends` is true of a chain that is called.
    Chained {
        /// True of a chain that lends its object.
        lends: bool,
    },
}
