//! Values that are taken apart: patterns, targets and their parts, and the pieces that they take.

ghost use Rattle.std.specs.Prelude.{◌≡◌};
ghost use Rattle.rl_model.specs.Expressions as values;
ghost use Rattle.rl_trace.specs.Values.{shown};

use rl_grammar::sort::{
    AssignmentTargetElementTrees, AssignmentTargetMaybeDefaultTree, AssignmentTargetPropertyTrees,
    AssignmentTargetRestTree, AssignmentTargetTree, BindingPatternElementTrees,
    BindingPatternMaybeDefaultTree, BindingPatternTree, BindingPropertyTree, BindingPropertyTrees,
    BindingRestElementTree, IdentifierReferenceTree,
};
use rl_machine::trace::Value;
use rl_trace::value::Val;

/// A pattern, or a part of one, that takes a value.
#[derive(Clone, Copy)]
pub enum Binding<'b> {
    /// A pattern.
    Pattern(BindingPatternTree<'b>),
    /// A pattern that may have a default.
    MaybeDefault(BindingPatternMaybeDefaultTree<'b>),
    /// A property of an object pattern.
    Property(BindingPropertyTree<'b>),
    /// The rest of a pattern.
    Rest(BindingRestElementTree<'b>),
}

/// Parts of a pattern in a row.
#[derive(Clone, Copy)]
pub enum Bindings<'b> {
    /// The items of an array pattern.
    Elements(BindingPatternElementTrees<'b>),
    /// The properties of an object pattern.
    Properties(BindingPropertyTrees<'b>),
}

/// A target, or a part of one, that takes a value.
#[derive(Clone, Copy)]
pub enum Target<'b> {
    /// A target.
    Whole(AssignmentTargetTree<'b>),
    /// A target that may have a default.
    MaybeDefault(AssignmentTargetMaybeDefaultTree<'b>),
    /// A name.
    Name(IdentifierReferenceTree<'b>),
    /// The rest of a target.
    Rest(AssignmentTargetRestTree<'b>),
}

/// Parts of a target in a row.
#[derive(Clone, Copy)]
pub enum Targets<'b> {
    /// The items of an array target.
    Elements(AssignmentTargetElementTrees<'b>),
    /// The properties of an object target.
    Properties(AssignmentTargetPropertyTrees<'b>),
}

/// The pattern or the target that takes the pieces of a value.
#[derive(Clone, Copy)]
pub enum Apart<'b> {
    /// A pattern.
    Bind {
        /// True in parameters, in `catch` and in heads of loops.
        everywhere: bool,
        /// The parts.
        items: Bindings<'b>,
        /// The rest.
        rest: Option<BindingRestElementTree<'b>>,
    },
    /// A target.
    Assign {
        /// The parts.
        items: Targets<'b>,
        /// The rest.
        rest: Option<AssignmentTargetRestTree<'b>>,
    },
}

/// The first of the pieces that are left; Undefined where none is left.
pub fn first_piece(pieces: &[Value]) -> Val<'_>
    ensures { shown result ≡ values.first_piece pieces.now }
{
    match pieces.split_first() {
        Some((first, _)) => Val::of(first),
        None => Val::Undefined,
    }
}

/// The pieces behind the first one.
pub fn later_pieces(pieces: &[Value]) -> &[Value]
    ensures { result.now ≡ values.later_pieces pieces.now }
{
    match pieces.split_first() {
        Some((_, rest)) => rest,
        None => pieces,
    }
}
