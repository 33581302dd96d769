//! Properties of objects: their keys and their uses.

use rl_base::operator::{BinaryOperator, UpdateOperator};
use rl_base::text::Text;
use rl_grammar::sort::ExpressionTree;
use rl_trace::value::Val;

/// The key of a property, as it is written.
#[derive(Clone, Copy)]
pub enum Property<'b> {
    /// A name behind a point.
    Named(&'b Text),
    /// An expression in brackets.
    Computed(ExpressionTree<'b>),
}

/// The key of a property, once it is known.
#[derive(Clone, Copy)]
pub struct Key<'b> {
    /// True of a key that is known before the run.
    pub fixed: bool,
    /// Its value.
    pub value: Val<'b>,
}

/// The use of a property, once its object and its key are known.
#[derive(Clone, Copy)]
pub enum Use<'b> {
    /// Its value is taken.
    Load,
    /// Its value is called, and the object lends itself.
    Lend,
    /// It is deleted.
    Delete,
    /// The value of an expression is stored in it.
    Assign {
        /// The expression.
        right: ExpressionTree<'b>,
    },
    /// A compound assignment.
    Compound {
        /// The operator, without its last character.
        operator: BinaryOperator,
        /// The right part.
        right: ExpressionTree<'b>,
    },
    /// `++` or `--`.
    Update {
        /// The operator.
        operator: UpdateOperator,
        /// True of an operator in front.
        prefix: bool,
    },
    /// A value is stored in it.
    Store {
        /// The value.
        value: Val<'b>,
    },
}
