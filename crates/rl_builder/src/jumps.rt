//! Scopes of loops, labels and switches, and the targets of `break` and `continue` among them.

ghost use Rattle.std.specs.Prelude.{◌≡◌, Ok, Err, option_map};
ghost use Rattle.rl_builder.specs.Jumps as spec;

use rl_base::ids::BlockId;
use rl_base::text::Text;

/// A statement that `break` leaves, while its parts are lowered (`Scope` of `HIRBuilder`).
#[derive(Drop)]
pub enum JumpScope {
    /// A loop.
    Loop {
        /// Its label; `None` for a loop without one.
        label: Option<Text>,
        /// The block that `continue` goes to.
        continue_block: BlockId,
        /// The block behind the loop.
        break_block: BlockId,
    },
    /// A labelled statement that is no loop.
    Label {
        label: Text,
        /// The block behind the statement.
        break_block: BlockId,
    },
    /// A `switch` statement.
    Switch {
        /// Its label; `None` for a `switch` without one.
        label: Option<Text>,
        /// The block behind the statement.
        break_block: BlockId,
    },
}

/// The cause for which a `break` or a `continue` has no target.
#[derive(Clone, Copy, Debug, PartialEq, Eq)]
pub enum JumpError {
    /// A `break` without a label stands in no loop and no switch, or one with a label in no statement of that label.
    NoBreak,
    /// The innermost statement with the label of a `continue` is no loop.
    NotALoop,
    /// A `continue` without a label stands in no loop, or one with a label in no statement of that label.
    NoContinue,
}

impl JumpScope {
    /// The label, if there is one.
    fn label(&self) -> Option<&str>
        ensures { option_map (λ label. label.now) result ≡ spec.label_of self.now }
    {
        match self {
            JumpScope::Loop { label, .. } => label.as_ref().map(|label| label.as_str()),
            JumpScope::Label { label, .. } => Some(label.as_str()),
            JumpScope::Switch { label, .. } => label.as_ref().map(|label| label.as_str()),
        }
    }

    /// True of a scope with the label.
    fn has_label(&self, label: &str) -> bool
        ensures { result ≡ spec.has_label label.now self.now }
    {
        match self.label() {
            Some(own) => own == label,
            None => false,
        }
    }

    /// The block behind the statement.
    fn break_block(&self) -> BlockId
        ensures { result ≡ spec.break_block_of self.now }
    {
        match self {
            JumpScope::Loop { break_block, .. } => *break_block,
            JumpScope::Label { break_block, .. } => *break_block,
            JumpScope::Switch { break_block, .. } => *break_block,
        }
    }

    /// The block that `continue` goes to. On `NotALoop` the scope is no loop's.
    fn continue_block(&self) -> Result<BlockId, JumpError>
        ensures { result ≡ spec.continue_block_of self.now }
    {
        match self {
            JumpScope::Loop { continue_block, .. } => Ok(*continue_block),
            JumpScope::Label { .. } => Err(JumpError::NotALoop),
            JumpScope::Switch { .. } => Err(JumpError::NotALoop),
        }
    }

    /// True of a scope that a `break` with this label, or without one, leaves.
    fn takes_break(&self, label: Option<&str>) -> bool
        ensures { result ≡ spec.takes_break (option_map (λ l. l.now) label.entry) self.now }
    {
        match label {
            Some(label) => self.has_label(label),
            None => match self {
                JumpScope::Loop { .. } => true,
                JumpScope::Label { .. } => false,
                JumpScope::Switch { .. } => true,
            },
        }
    }

    /// True of a scope that decides on a `continue` with this label, or without one.
    fn takes_continue(&self, label: Option<&str>) -> bool
        ensures { result ≡ spec.takes_continue (option_map (λ l. l.now) label.entry) self.now }
    {
        match label {
            Some(label) => self.has_label(label),
            None => match self {
                JumpScope::Loop { .. } => true,
                JumpScope::Label { .. } => false,
                JumpScope::Switch { .. } => false,
            },
        }
    }
}

/// The block that a `break` goes to, with this label or without one. `scopes` are those around it, the innermost last. On
/// `NoBreak` none of them takes it.
pub(crate) fn lookup_break(scopes: &[JumpScope], label: Option<&str>) -> Result<BlockId, JumpError>
    ensures { result ≡ spec.lookup_break scopes.now (option_map (λ l. l.now) label.entry) }
{
    let mut left = scopes;
    while let Some((scope, outer)) = left.split_last() {
        if scope.takes_break(label) {
            return Ok(scope.break_block());
        }
        left = outer;
    }
    Err(JumpError::NoBreak)
}

/// The block that a `continue` goes to, with this label or without one. `scopes` are those around it, the innermost last. On
/// `NotALoop` the innermost scope of the label is no loop's; on `NoContinue` none of them takes it.
pub(crate) fn lookup_continue(
    scopes: &[JumpScope],
    label: Option<&str>,
) -> Result<BlockId, JumpError>
    ensures { result ≡ spec.lookup_continue scopes.now (option_map (λ l. l.now) label.entry) }
{
    let mut left = scopes;
    while let Some((scope, outer)) = left.split_last() {
        if scope.takes_continue(label) {
            return scope.continue_block();
        }
        left = outer;
    }
    Err(JumpError::NoContinue)
}
