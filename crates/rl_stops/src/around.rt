//! The statements around another that jumps leave, and the stops of jumps that have no target.

ghost use Rattle.std.specs.Prelude.{◌≡◌, option_map};
ghost use Rattle.rl_names.specs.Names.{Names};
ghost use Rattle.rl_promises.specs.Jumps as spec;
ghost use Rattle.rl_stops.specs.SeenStops.{seen_around, seen_stop};

use crate::found_stop::FoundStop;
use rl_base::span::Span;
use rl_base::text::Text;

/// The statements around another that a jump may leave, from the innermost out.
#[derive(Clone, Copy)]
pub(crate) enum Around<'a> {
    /// None.
    Nothing,
    /// A loop.
    Loop {
        /// The label right in front of it, if it has one.
        label: Option<&'a Text>,
        /// The statements around the loop.
        outer: &'a Around<'a>,
    },
    /// A statement with a label that is no loop.
    Labeled {
        /// Its label.
        label: &'a Text,
        /// The statements around it.
        outer: &'a Around<'a>,
    },
    /// A `switch`.
    Switch {
        /// The label right in front of it, if it has one.
        label: Option<&'a Text>,
        /// The statements around the `switch`.
        outer: &'a Around<'a>,
    },
}

/// True if the statement's label is that of the jump.
fn has_label(jump: &Text, label: Option<&Text>) -> bool
    ensures { result ≡ spec.has_label jump.now (option_map (λ l. l.now) label.entry) }
{
    match label {
        Some(label) => label.as_str() == jump.as_str(),
        None => false,
    }
}

/// True of a loop that takes a `break`, and decides on a `continue`: one of the jump's label, or any where the jump has none.
fn ends_at_loop(jump: Option<&Text>, label: Option<&Text>) -> bool
    ensures breaks { result ≡ spec.breaks_out (option_map (λ l. l.now) jump.entry) (spec.InLoop (option_map (λ l. l.now) label.entry)) }
    ensures continues { result ≡ spec.continues_in (option_map (λ l. l.now) jump.entry) (spec.InLoop (option_map (λ l. l.now) label.entry)) }
{
    match jump {
        Some(jump) => has_label(jump, label),
        None => true,
    }
}

/// As `ends_at_loop`, of another statement: one of the jump's label.
fn ends_at_label(jump: Option<&Text>, label: &Text) -> bool
    ensures breaks { result ≡ spec.breaks_out (option_map (λ l. l.now) jump.entry) (spec.InLabeled label.now) }
    ensures continues { result ≡ spec.continues_in (option_map (λ l. l.now) jump.entry) (spec.InLabeled label.now) }
{
    match jump {
        Some(jump) => label.as_str() == jump.as_str(),
        None => false,
    }
}

/// True of a `switch` that takes a `break`: one of the jump's label, or any where the jump has none.
fn breaks_at_switch(jump: Option<&Text>, label: Option<&Text>) -> bool
    ensures { result ≡ spec.breaks_out (option_map (λ l. l.now) jump.entry) (spec.InSwitch (option_map (λ l. l.now) label.entry)) }
{
    match jump {
        Some(jump) => has_label(jump, label),
        None => true,
    }
}

/// True of a `switch` that decides on a `continue`: one of the jump's label.
fn continues_at_switch(jump: Option<&Text>, label: Option<&Text>) -> bool
    ensures { result ≡ spec.continues_in (option_map (λ l. l.now) jump.entry) (spec.InSwitch (option_map (λ l. l.now) label.entry)) }
{
    match jump {
        Some(jump) => has_label(jump, label),
        None => false,
    }
}

/// The stop of a `break` at `span`. `None` if one of the statements takes it.
pub(crate) fn stop_of_break(
    jump: Option<&Text>,
    span: Span,
    around: &Around<'_>,
) -> Option<FoundStop>
    ensures { (names : Names) → option_map (seen_stop names) result ≡ spec.stop_of_break (option_map (λ l. l.now) jump.entry) span (seen_around around.now) }
{
    match around {
        Around::Nothing => Some(FoundStop::BreakNowhere { span }),
        Around::Loop { label, outer } => {
            if ends_at_loop(jump, *label) {
                None
            } else {
                stop_of_break(jump, span, outer)
            }
        }
        Around::Labeled { label, outer } => {
            if ends_at_label(jump, label) {
                None
            } else {
                stop_of_break(jump, span, outer)
            }
        }
        Around::Switch { label, outer } => {
            if breaks_at_switch(jump, *label) {
                None
            } else {
                stop_of_break(jump, span, outer)
            }
        }
    }
}

/// The stop of a `continue` at `span`. `None` if a loop takes it.
pub(crate) fn stop_of_continue(
    jump: Option<&Text>,
    span: Span,
    around: &Around<'_>,
) -> Option<FoundStop>
    ensures { (names : Names) → option_map (seen_stop names) result ≡ spec.stop_of_continue (option_map (λ l. l.now) jump.entry) span (seen_around around.now) }
{
    match around {
        Around::Nothing => Some(FoundStop::ContinueNowhere { span }),
        Around::Loop { label, outer } => {
            if ends_at_loop(jump, *label) {
                None
            } else {
                stop_of_continue(jump, span, outer)
            }
        }
        Around::Labeled { label, outer } => {
            if ends_at_label(jump, label) {
                Some(FoundStop::ContinueOfNoLoop { span })
            } else {
                stop_of_continue(jump, span, outer)
            }
        }
        Around::Switch { label, outer } => {
            if continues_at_switch(jump, *label) {
                Some(FoundStop::ContinueOfNoLoop { span })
            } else {
                stop_of_continue(jump, span, outer)
            }
        }
    }
}
