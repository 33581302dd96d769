//! Operators: what each asks.

ghost use Rattle.std.specs.Prelude.{◌≡◌, codes};
ghost use Rattle.std.specs.Str.{bytes_eq};
ghost use Rattle.rl_base.specs.Operators.{assignment_text, operator_text, unary_text, update_text};
ghost use Rattle.rl_model.specs.Shapes.{first_character};
ghost use Rattle.rl_source_shapes.specs.Operators.{IsChange};

use rl_base::operator::{AssignmentOperator, BinaryOperator, UnaryOperator, UpdateOperator};

/// The use that an assignment makes of the old value.
#[derive(Clone, Copy)]
pub enum Change {
    /// It is not read.
    Plain,
    /// It decides whether the right part is evaluated.
    Logical,
    /// It is the left operand.
    Compound(BinaryOperator),
}

/// The use that an assignment makes of the old value.
pub fn change_of(operator: AssignmentOperator) -> Change
    ensures { IsChange result (assignment_text operator) }
{
    match operator {
        AssignmentOperator::Assign => Change::Plain,
        AssignmentOperator::Addition => Change::Compound(BinaryOperator::Addition),
        AssignmentOperator::Subtraction => Change::Compound(BinaryOperator::Subtraction),
        AssignmentOperator::Multiplication => Change::Compound(BinaryOperator::Multiplication),
        AssignmentOperator::Division => Change::Compound(BinaryOperator::Division),
        AssignmentOperator::Remainder => Change::Compound(BinaryOperator::Remainder),
        AssignmentOperator::Exponential => Change::Compound(BinaryOperator::Exponential),
        AssignmentOperator::ShiftLeft => Change::Compound(BinaryOperator::ShiftLeft),
        AssignmentOperator::ShiftRight => Change::Compound(BinaryOperator::ShiftRight),
        AssignmentOperator::ShiftRightZeroFill => {
            Change::Compound(BinaryOperator::ShiftRightZeroFill)
        }
        AssignmentOperator::BitwiseOR => Change::Compound(BinaryOperator::BitwiseOR),
        AssignmentOperator::BitwiseXOR => Change::Compound(BinaryOperator::BitwiseXOR),
        AssignmentOperator::BitwiseAnd => Change::Compound(BinaryOperator::BitwiseAnd),
        AssignmentOperator::LogicalOr => Change::Logical,
        AssignmentOperator::LogicalAnd => Change::Logical,
        AssignmentOperator::LogicalNullish => Change::Logical,
    }
}

/// True of `delete`.
pub fn is_delete(operator: UnaryOperator) -> bool
    ensures { result ≡ bytes_eq (unary_text operator) (codes "delete") }
{
    match operator {
        UnaryOperator::UnaryNegation => false,
        UnaryOperator::UnaryPlus => false,
        UnaryOperator::LogicalNot => false,
        UnaryOperator::BitwiseNot => false,
        UnaryOperator::Typeof => false,
        UnaryOperator::Void => false,
        UnaryOperator::Delete => true,
    }
}

/// The operator that `++` and `--` apply to a property.
pub fn step_of(operator: UpdateOperator) -> BinaryOperator
    ensures { operator_text result ≡ first_character (update_text operator) }
{
    match operator {
        UpdateOperator::Increment => BinaryOperator::Addition,
        UpdateOperator::Decrement => BinaryOperator::Subtraction,
    }
}
