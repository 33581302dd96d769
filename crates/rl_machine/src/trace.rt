//! Observations of a run: values, answers of the outside, events, and traces.

use rl_base::ids::SymbolId;
use rl_base::list::List;
use rl_base::text::Text;
use rl_hir::terminal::ReturnVariant;

/// A value, as far as a function can be observed to handle it.
#[derive(Drop)]
pub enum Value {
    /// JavaScript's `undefined`, also the value of a variable that was never set.
    Undefined,
    /// JavaScript's `null`.
    Null,
    /// A Boolean.
    Bool(bool),
    /// A whole number, at most 2^53.
    Number(u64),
    /// A string, as the bytes of its UTF-8.
    Text(Text),
    /// A value of the outside, known by its number alone.
    Given(u64),
}

/// A symbol and the value that it is set to.
#[derive(Drop)]
pub struct Assignment {
    /// The id of the symbol in its unit.
    pub symbol: SymbolId,
    /// The value that the symbol has from then on.
    pub value: Value,
}

/// The kind of an answer of the outside.
#[derive(Clone, Copy, Debug, PartialEq, Eq)]
pub enum AnswerKind {
    /// The event completes normally with the answer's value; a test is true.
    Yes,
    /// The event completes normally with the answer's value; a test is false.
    No,
    /// The event throws the answer's value.
    Throw,
}

/// The outside's answer to one event.
#[derive(Drop)]
pub struct Answer {
    /// Completes normally, or throws.
    pub kind: AnswerKind,
    /// The value that is given or thrown.
    pub value: Value,
    /// The parts of a value that is destructured, in order.
    pub pieces: List<Value>,
    /// The variables that other functions change before the event completes, in order.
    pub assignments: List<Assignment>,
}

/// An observable operation of a function: it consumes one answer.
#[derive(Drop)]
pub struct Event {
    /// The name of its kind, as `global`, `binary` or `call`.
    pub kind: Text,
    /// The texts that belong to it: names, operators, shapes of arguments.
    pub texts: List<Text>,
    /// The values that it takes, in order.
    pub operands: List<Value>,
}

/// The ending of a run.
#[derive(Drop)]
pub enum Ending {
    /// The function returned.
    Returned {
        /// The construct that returned.
        variant: ReturnVariant,
        /// The value that was returned.
        value: Value,
        /// The final values of the variables that other functions see, by symbol.
        kept: List<Assignment>,
    },
    /// The function threw this value.
    Threw(Value),
    /// No answer is left.
    Waiting,
}

/// All that is observed of a run.
#[derive(Drop)]
pub struct Trace {
    /// The events, in order.
    pub events: List<Event>,
    /// The ending.
    pub ending: Ending,
}
