//! Operators, by the names that oxc_syntax gives them.

ghost use Rattle.rl_base.specs.Operators.{operator_text, logical_text, unary_text, update_text, assignment_text, operators, logical_operators, unary_operators, update_operators, assignment_operators};
ghost use Rattle.rl_base.specs.FoundOperators.{operators_found, logical_operators_found, unary_operators_found, update_operators_found, assignment_operators_found};

use crate::closed_text::ClosedText;

/// An operator that takes the values of both operands: `BinaryOperator` of oxc_syntax, and sections 13.6 to 13.12 of
/// ECMA-262.
#[derive(Clone, Copy, Debug, PartialEq, Eq)]
pub enum BinaryOperator {
    /// `==`
    Equality,
    /// `!=`
    Inequality,
    /// `===`
    StrictEquality,
    /// `!==`
    StrictInequality,
    /// `<`
    LessThan,
    /// `<=`
    LessEqualThan,
    /// `>`
    GreaterThan,
    /// `>=`
    GreaterEqualThan,
    /// `+`
    Addition,
    /// `-`
    Subtraction,
    /// `*`
    Multiplication,
    /// `/`
    Division,
    /// `%`
    Remainder,
    /// `**`
    Exponential,
    /// `<<`
    ShiftLeft,
    /// `>>`
    ShiftRight,
    /// `>>>`
    ShiftRightZeroFill,
    /// `|`
    BitwiseOR,
    /// `^`
    BitwiseXOR,
    /// `&`
    BitwiseAnd,
    /// `in`
    In,
    /// `instanceof`
    Instanceof,
}

/// Every `BinaryOperator`, in the order of the declaration.
const BINARY_OPERATORS: [BinaryOperator; 22] = [
    BinaryOperator::Equality,
    BinaryOperator::Inequality,
    BinaryOperator::StrictEquality,
    BinaryOperator::StrictInequality,
    BinaryOperator::LessThan,
    BinaryOperator::LessEqualThan,
    BinaryOperator::GreaterThan,
    BinaryOperator::GreaterEqualThan,
    BinaryOperator::Addition,
    BinaryOperator::Subtraction,
    BinaryOperator::Multiplication,
    BinaryOperator::Division,
    BinaryOperator::Remainder,
    BinaryOperator::Exponential,
    BinaryOperator::ShiftLeft,
    BinaryOperator::ShiftRight,
    BinaryOperator::ShiftRightZeroFill,
    BinaryOperator::BitwiseOR,
    BinaryOperator::BitwiseXOR,
    BinaryOperator::BitwiseAnd,
    BinaryOperator::In,
    BinaryOperator::Instanceof,
];

impl ClosedText for BinaryOperator {
    ghost text = { operator_text };

    ghost values = { operators };

    ghost complete = { operators_found };

    fn as_str(self) -> &'static str {
        match self {
            BinaryOperator::Equality => "==",
            BinaryOperator::Inequality => "!=",
            BinaryOperator::StrictEquality => "===",
            BinaryOperator::StrictInequality => "!==",
            BinaryOperator::LessThan => "<",
            BinaryOperator::LessEqualThan => "<=",
            BinaryOperator::GreaterThan => ">",
            BinaryOperator::GreaterEqualThan => ">=",
            BinaryOperator::Addition => "+",
            BinaryOperator::Subtraction => "-",
            BinaryOperator::Multiplication => "*",
            BinaryOperator::Division => "/",
            BinaryOperator::Remainder => "%",
            BinaryOperator::Exponential => "**",
            BinaryOperator::ShiftLeft => "<<",
            BinaryOperator::ShiftRight => ">>",
            BinaryOperator::ShiftRightZeroFill => ">>>",
            BinaryOperator::BitwiseOR => "|",
            BinaryOperator::BitwiseXOR => "^",
            BinaryOperator::BitwiseAnd => "&",
            BinaryOperator::In => "in",
            BinaryOperator::Instanceof => "instanceof",
        }
    }

    fn every() -> &'static [BinaryOperator] {
        &BINARY_OPERATORS
    }
}

/// An operator that evaluates its right operand only if the left one does not decide: `LogicalOperator` of oxc_syntax,
/// and section 13.13 of ECMA-262.
#[derive(Clone, Copy, Debug, PartialEq, Eq)]
pub enum LogicalOperator {
    /// `||`
    Or,
    /// `&&`
    And,
    /// `??`
    Coalesce,
}

/// Every `LogicalOperator`, in the order of the declaration.
const LOGICAL_OPERATORS: [LogicalOperator; 3] = [
    LogicalOperator::Or,
    LogicalOperator::And,
    LogicalOperator::Coalesce,
];

impl ClosedText for LogicalOperator {
    ghost text = { logical_text };

    ghost values = { logical_operators };

    ghost complete = { logical_operators_found };

    fn as_str(self) -> &'static str {
        match self {
            LogicalOperator::Or => "||",
            LogicalOperator::And => "&&",
            LogicalOperator::Coalesce => "??",
        }
    }

    fn every() -> &'static [LogicalOperator] {
        &LOGICAL_OPERATORS
    }
}

/// An operator in front of its operand: `UnaryOperator` of oxc_syntax, and section 13.5 of ECMA-262.
#[derive(Clone, Copy, Debug, PartialEq, Eq)]
pub enum UnaryOperator {
    /// `-`
    UnaryNegation,
    /// `+`
    UnaryPlus,
    /// `!`
    LogicalNot,
    /// `~`
    BitwiseNot,
    /// `typeof`
    Typeof,
    /// `void`
    Void,
    /// `delete`
    Delete,
}

/// Every `UnaryOperator`, in the order of the declaration.
const UNARY_OPERATORS: [UnaryOperator; 7] = [
    UnaryOperator::UnaryNegation,
    UnaryOperator::UnaryPlus,
    UnaryOperator::LogicalNot,
    UnaryOperator::BitwiseNot,
    UnaryOperator::Typeof,
    UnaryOperator::Void,
    UnaryOperator::Delete,
];

impl ClosedText for UnaryOperator {
    ghost text = { unary_text };

    ghost values = { unary_operators };

    ghost complete = { unary_operators_found };

    fn as_str(self) -> &'static str {
        match self {
            UnaryOperator::UnaryNegation => "-",
            UnaryOperator::UnaryPlus => "+",
            UnaryOperator::LogicalNot => "!",
            UnaryOperator::BitwiseNot => "~",
            UnaryOperator::Typeof => "typeof",
            UnaryOperator::Void => "void",
            UnaryOperator::Delete => "delete",
        }
    }

    fn every() -> &'static [UnaryOperator] {
        &UNARY_OPERATORS
    }
}

/// An operator that adds 1 to its target or subtracts 1 from it: `UpdateOperator` of oxc_syntax, and section 13.4 of
/// ECMA-262.
#[derive(Clone, Copy, Debug, PartialEq, Eq)]
pub enum UpdateOperator {
    /// `++`
    Increment,
    /// `--`
    Decrement,
}

/// Every `UpdateOperator`, in the order of the declaration.
const UPDATE_OPERATORS: [UpdateOperator; 2] = [
    UpdateOperator::Increment,
    UpdateOperator::Decrement,
];

impl ClosedText for UpdateOperator {
    ghost text = { update_text };

    ghost values = { update_operators };

    ghost complete = { update_operators_found };

    fn as_str(self) -> &'static str {
        match self {
            UpdateOperator::Increment => "++",
            UpdateOperator::Decrement => "--",
        }
    }

    fn every() -> &'static [UpdateOperator] {
        &UPDATE_OPERATORS
    }
}

/// An operator that assigns to its left side: `AssignmentOperator` of oxc_syntax, and section 13.15 of ECMA-262.
#[derive(Clone, Copy, Debug, PartialEq, Eq)]
pub enum AssignmentOperator {
    /// `=`
    Assign,
    /// `+=`
    Addition,
    /// `-=`
    Subtraction,
    /// `*=`
    Multiplication,
    /// `/=`
    Division,
    /// `%=`
    Remainder,
    /// `**=`
    Exponential,
    /// `<<=`
    ShiftLeft,
    /// `>>=`
    ShiftRight,
    /// `>>>=`
    ShiftRightZeroFill,
    /// `|=`
    BitwiseOR,
    /// `^=`
    BitwiseXOR,
    /// `&=`
    BitwiseAnd,
    /// `||=`
    LogicalOr,
    /// `&&=`
    LogicalAnd,
    /// `??=`
    LogicalNullish,
}

/// Every `AssignmentOperator`, in the order of the declaration.
const ASSIGNMENT_OPERATORS: [AssignmentOperator; 16] = [
    AssignmentOperator::Assign,
    AssignmentOperator::Addition,
    AssignmentOperator::Subtraction,
    AssignmentOperator::Multiplication,
    AssignmentOperator::Division,
    AssignmentOperator::Remainder,
    AssignmentOperator::Exponential,
    AssignmentOperator::ShiftLeft,
    AssignmentOperator::ShiftRight,
    AssignmentOperator::ShiftRightZeroFill,
    AssignmentOperator::BitwiseOR,
    AssignmentOperator::BitwiseXOR,
    AssignmentOperator::BitwiseAnd,
    AssignmentOperator::LogicalOr,
    AssignmentOperator::LogicalAnd,
    AssignmentOperator::LogicalNullish,
];

impl ClosedText for AssignmentOperator {
    ghost text = { assignment_text };

    ghost values = { assignment_operators };

    ghost complete = { assignment_operators_found };

    fn as_str(self) -> &'static str {
        match self {
            AssignmentOperator::Assign => "=",
            AssignmentOperator::Addition => "+=",
            AssignmentOperator::Subtraction => "-=",
            AssignmentOperator::Multiplication => "*=",
            AssignmentOperator::Division => "/=",
            AssignmentOperator::Remainder => "%=",
            AssignmentOperator::Exponential => "**=",
            AssignmentOperator::ShiftLeft => "<<=",
            AssignmentOperator::ShiftRight => ">>=",
            AssignmentOperator::ShiftRightZeroFill => ">>>=",
            AssignmentOperator::BitwiseOR => "|=",
            AssignmentOperator::BitwiseXOR => "^=",
            AssignmentOperator::BitwiseAnd => "&=",
            AssignmentOperator::LogicalOr => "||=",
            AssignmentOperator::LogicalAnd => "&&=",
            AssignmentOperator::LogicalNullish => "??=",
        }
    }

    fn every() -> &'static [AssignmentOperator] {
        &ASSIGNMENT_OPERATORS
    }
}
