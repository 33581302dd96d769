//! Continuations of values: the constructs that wait for one, and loops that are under way.

use crate::apart::{Binding, Target};
use crate::property::{Key, Property, Use};
use rl_ast::binding::IdentifierReference;
use rl_base::ids::SymbolId;
use rl_base::operator::{BinaryOperator, LogicalOperator, UnaryOperator};
use rl_base::text::Text;
use rl_grammar::sort::{
    ArgumentTrees, ExpressionTree, ExpressionTrees, ForHeadTree, JsxAttributeTrees, JsxChildTrees,
    JsxElementNameTree, StatementTree, StatementTrees, SwitchCaseTrees,
};
use rl_hir::terminal::ReturnVariant;
use rl_trace::value::Val;

/// A loop: its parts.
#[derive(Clone, Copy)]
pub enum Loop<'b> {
    /// `while`.
    While {
        /// The test.
        condition: ExpressionTree<'b>,
        /// The body.
        body: StatementTree<'b>,
    },
    /// `do`-`while`.
    DoWhile {
        /// The body.
        body: StatementTree<'b>,
        /// The test.
        condition: ExpressionTree<'b>,
    },
    /// `for`, behind its declarations.
    For {
        /// The test.
        condition: ExpressionTree<'b>,
        /// The update, or none.
        update: Option<ExpressionTree<'b>>,
        /// The body.
        body: StatementTree<'b>,
    },
    /// `for`-`in`, with the value whose keys it takes.
    ForIn {
        /// The head.
        head: ForHeadTree<'b>,
        /// The value.
        collection: Val<'b>,
        /// The body.
        body: StatementTree<'b>,
    },
    /// `for`-`of`, with the value whose items it takes.
    ForOf {
        /// The head.
        head: ForHeadTree<'b>,
        /// The iterator.
        iterator: Val<'b>,
        /// The value.
        collection: Val<'b>,
        /// The body.
        body: StatementTree<'b>,
    },
}

/// The turns of a loop that are left.
#[derive(Clone, Copy)]
pub struct Turns<'b> {
    /// The most that it can make.
    pub most: usize,
    /// The label right in front of the loop.
    pub own: Option<&'b Text>,
    /// The loop.
    pub parts: Loop<'b>,
}

/// The continuation of a value in an expression.
#[derive(Clone, Copy)]
pub enum Behind<'b> {
    /// Behind the operand of a unary operation.
    Unary {
        /// The operator, not `delete`.
        operator: UnaryOperator,
    },
    /// Behind the left part of a binary operation.
    BinaryRight {
        /// The operator.
        operator: BinaryOperator,
        /// The right part.
        right: ExpressionTree<'b>,
    },
    /// Behind the right part of a binary operation.
    BinaryLast {
        /// The operator.
        operator: BinaryOperator,
        /// The left value.
        left: Val<'b>,
    },
    /// Behind the left part of a logical operation.
    LogicalRight {
        /// The operator.
        operator: LogicalOperator,
        /// The right part.
        right: ExpressionTree<'b>,
    },
    /// Behind the test of a conditional expression.
    Conditional {
        /// The part for yes.
        consequent: ExpressionTree<'b>,
        /// The part for no.
        alternate: ExpressionTree<'b>,
    },
    /// Behind an expression in a row, whose value is not used.
    Sequence {
        /// The expressions behind it.
        expressions: ExpressionTrees<'b>,
    },
    /// Behind the operand of `await`.
    Await,
    /// Behind the right part of an assignment to a name.
    AssignName {
        /// The name.
        name: IdentifierReference<'b>,
    },
    /// Behind the old value of a name in a compound assignment.
    CompoundName {
        /// The name.
        name: IdentifierReference<'b>,
        /// The operator, without its last character.
        operator: BinaryOperator,
        /// The right part.
        right: ExpressionTree<'b>,
    },
    /// Behind the right part of a compound assignment to a name.
    CompoundNameLast {
        /// The name.
        name: IdentifierReference<'b>,
        /// The operator, without its last character.
        operator: BinaryOperator,
        /// The old value.
        old: Val<'b>,
    },
    /// Behind the new value of a name that is updated.
    UpdateName {
        /// The variable.
        symbol: SymbolId,
        /// True of an operator in front.
        prefix: bool,
        /// The old value.
        old: Val<'b>,
    },
    /// Behind the right part of an assignment to a pattern.
    AssignPattern {
        /// The pattern.
        target: Target<'b>,
    },
    /// Behind the object of a property.
    Object {
        /// True of an optional link.
        optional: bool,
        /// The key.
        property: Property<'b>,
        /// The use of the property.
        then: Use<'b>,
    },
    /// Behind the key of a property.
    Key {
        /// The object.
        object: Val<'b>,
        /// The use of the property.
        then: Use<'b>,
    },
    /// Behind the function that an object lends itself to.
    Lent {
        /// The object.
        object: Val<'b>,
    },
    /// Behind the value that is stored in a property.
    StoreIn {
        /// The object.
        object: Val<'b>,
        /// The key.
        key: Key<'b>,
    },
    /// Behind the old value of a property in a compound assignment.
    CompoundIn {
        /// The object.
        object: Val<'b>,
        /// The key.
        key: Key<'b>,
        /// The operator, without its last character.
        operator: BinaryOperator,
        /// The right part.
        right: ExpressionTree<'b>,
    },
    /// Behind the right part of a compound assignment to a property.
    CompoundInLast {
        /// The object.
        object: Val<'b>,
        /// The key.
        key: Key<'b>,
        /// The operator, without its last character.
        operator: BinaryOperator,
        /// The old value.
        old: Val<'b>,
    },
    /// Behind the old value of a property that is updated.
    UpdateIn {
        /// The object.
        object: Val<'b>,
        /// The key.
        key: Key<'b>,
        /// `+` or `-`.
        operator: BinaryOperator,
        /// True of an operator in front.
        prefix: bool,
    },
    /// Behind the new value of a property that is updated.
    UpdateInLast {
        /// The object.
        object: Val<'b>,
        /// The key.
        key: Key<'b>,
        /// True of an operator in front.
        prefix: bool,
        /// The old value.
        old: Val<'b>,
    },
    /// Behind the comparison of a value with Undefined: the value, or its default.
    Same {
        /// The value.
        value: Val<'b>,
        /// The default.
        default: ExpressionTree<'b>,
    },
    /// Behind the function of a construction.
    New {
        /// The arguments.
        arguments: ArgumentTrees<'b>,
    },
    /// Behind the tag of an element.
    Tag {
        /// The tag.
        tag: JsxElementNameTree<'b>,
        /// The attributes.
        attributes: JsxAttributeTrees<'b>,
        /// The children.
        children: JsxChildTrees<'b>,
    },
    /// Behind a value that a target takes.
    AssignTo {
        /// The target.
        target: Target<'b>,
    },
}

/// The continuation of a value in a statement.
#[derive(Clone, Copy)]
pub enum Following<'b> {
    /// Behind an expression whose value is not used.
    Ignore,
    /// Behind the value of a `return`, or of a body that is an expression.
    Return {
        /// The construct that returns.
        variant: ReturnVariant,
    },
    /// Behind the value of a `throw`.
    Throw,
    /// Behind a value that a pattern takes.
    Bind {
        /// True in parameters, in `catch` and in heads of loops.
        everywhere: bool,
        /// The pattern.
        pattern: Binding<'b>,
    },
    /// Behind the test of an `if`.
    If {
        /// The statement for yes.
        consequent: StatementTree<'b>,
        /// The statement for no.
        alternate: Option<StatementTree<'b>>,
    },
    /// Behind the test of a loop.
    Test {
        /// The turns that are left.
        turns: Turns<'b>,
    },
    /// Behind the update of a `for` loop.
    Update {
        /// The turns that are left.
        turns: Turns<'b>,
    },
    /// Behind the next key or item of a loop.
    Item {
        /// The turns that are left.
        turns: Turns<'b>,
    },
    /// Behind the value whose keys a `for`-`in` loop takes.
    ForIn {
        /// The label right in front of the loop.
        own: Option<&'b Text>,
        /// The head.
        head: ForHeadTree<'b>,
        /// The body.
        body: StatementTree<'b>,
    },
    /// Behind the value whose items a `for`-`of` loop takes.
    ForOf {
        /// The label right in front of the loop.
        own: Option<&'b Text>,
        /// The head.
        head: ForHeadTree<'b>,
        /// The body.
        body: StatementTree<'b>,
    },
    /// Behind the iterator of a `for`-`of` loop.
    Iterator {
        /// The label right in front of the loop.
        own: Option<&'b Text>,
        /// The head.
        head: ForHeadTree<'b>,
        /// The value.
        collection: Val<'b>,
        /// The body.
        body: StatementTree<'b>,
    },
    /// Behind the discriminant of a `switch`.
    Switch {
        /// The cases.
        cases: SwitchCaseTrees<'b>,
    },
    /// Behind the test of a case.
    Case {
        /// The value that is compared.
        value: Val<'b>,
        /// The statements of the case.
        statements: StatementTrees<'b>,
        /// The cases behind it.
        cases: SwitchCaseTrees<'b>,
        /// All cases of the `switch`.
        all: SwitchCaseTrees<'b>,
    },
}
