//! Controls: the next step of a run.

use crate::apart::{Binding, Target};
use crate::behind::Turns;
use crate::property::{Property, Use};
use rl_base::text::Text;
use rl_grammar::sort::{
    ArgumentTrees, BlockStatementTree, ExpressionTree, ForHeadTree, JsxElementTree,
    JsxFragmentTree, StatementTree, StatementTrees, SwitchCaseTrees, VariableDeclarationTree,
};
use rl_hir::terminal::ReturnVariant;
use rl_machine::trace::Value;
use rl_trace::value::Val;

/// The next step of a run.
#[derive(Clone, Copy)]
pub enum Control<'b> {
    /// Evaluates an expression.
    Evaluate(ExpressionTree<'b>),
    /// Evaluates an element.
    Element(JsxElementTree<'b>),
    /// Evaluates a fragment.
    Fragment(JsxFragmentTree<'b>),
    /// Evaluates a callee that lends its object.
    Callee(ExpressionTree<'b>),
    /// Deletes a property.
    Delete(ExpressionTree<'b>),
    /// Goes on with a property of an object.
    Link {
        /// The key.
        property: Property<'b>,
        /// The use of the property.
        then: Use<'b>,
        /// The object.
        object: Val<'b>,
    },
    /// Evaluates the arguments of a call of a function.
    Call {
        /// The function.
        function: Val<'b>,
        /// The arguments.
        arguments: ArgumentTrees<'b>,
    },
    /// Evaluates the arguments of a call of a function that an object lends itself to.
    CallOf {
        /// The object.
        object: Val<'b>,
        /// The function.
        function: Val<'b>,
        /// The arguments.
        arguments: ArgumentTrees<'b>,
    },
    /// Executes a statement, with the label right in front of it.
    Execute(Option<&'b Text>, StatementTree<'b>),
    /// Executes a block.
    Block(BlockStatementTree<'b>),
    /// Declares variables.
    Variables(VariableDeclarationTree<'b>),
    /// Makes the next turn of a loop.
    Turn(Turns<'b>),
    /// Runs the body of a loop.
    Body(Turns<'b>),
    /// Gives a value to a pattern. The flag is true in parameters, in `catch` and in heads of loops.
    Bind(bool, Binding<'b>, Val<'b>),
    /// Gives a value to a target.
    AssignTo(Target<'b>, Val<'b>),
    /// Gives a value to the head of a loop.
    TakeHead(ForHeadTree<'b>, Val<'b>),
    /// Tries cases: the value, those that are left, and all of the `switch`.
    Cases(Val<'b>, SwitchCaseTrees<'b>, SwitchCaseTrees<'b>),
    /// Executes the statements of a case and of all behind it.
    Case(StatementTrees<'b>, SwitchCaseTrees<'b>),
    /// Goes on from the case without a test.
    Default(SwitchCaseTrees<'b>),
    /// Goes on with a value.
    Value(Val<'b>),
    /// Goes on with a function, behind the object that lends itself to it.
    Pair(Val<'b>, Val<'b>),
    /// Goes on with the pieces of a value.
    Pieces(&'b [Value]),
    /// Goes on behind a statement.
    Normal,
    /// Throws a value.
    Throw(Val<'b>),
    /// Breaks a statement.
    Break(Option<&'b Text>),
    /// Continues a loop.
    Continue(Option<&'b Text>),
    /// Ends an optional chain.
    Short,
    /// Ends with a value.
    Returned(ReturnVariant, Val<'b>),
    /// Ends with a throw.
    Threw(Val<'b>),
    /// Ends: no answer is left, or a part has no meaning.
    Waiting,
}
