//! Formulas over truth values.

ghost use Rattle.std.specs.Prelude.{◌≡◌};
ghost use Rattle.frame_tests.specs.Formulas as spec;

use rl_base::span::Span;

/// A formula, each with its span.
#[derive(Debug, Drop)]
pub enum Formula {
    /// A constant.
    Truth {
        span: Span,
        holds: bool,
    },
    /// Negation.
    Not {
        span: Span,
        part: Box<Formula>,
    },
    /// Both of two formulas. The right one is computed only if the left one holds.
    Both {
        span: Span,
        left: Box<Formula>,
        right: Box<Formula>,
    },
    /// Either of two formulas. The right one is computed only if the left one does not hold.
    Either {
        span: Span,
        left: Box<Formula>,
        right: Box<Formula>,
    },
    /// The second formula if the first one holds, else the third.
    Choice {
        span: Span,
        test: Box<Formula>,
        consequent: Box<Formula>,
        alternate: Box<Formula>,
    },
}

impl Formula {
    /// The span of the whole formula.
    pub fn span(&self) -> Span
        ensures { result ≡ spec.span_of self.now }
    {
        match self {
            Formula::Truth { span, .. } => *span,
            Formula::Not { span, .. } => *span,
            Formula::Both { span, .. } => *span,
            Formula::Either { span, .. } => *span,
            Formula::Choice { span, .. } => *span,
        }
    }
}
