//! Findings of the linter.

ghost use Rattle.std.specs.Prelude.{◌≡◌, ◌++◌, ◌∷◌, [], OnOk};
ghost use Rattle.rl_lint.specs.Findings as spec;

use rl_base::error::OutOfMemory;
use rl_base::span::Span;
use rl_base::text::Text;
use std::alloc::Global;

/// A rule of the linter.
#[derive(Clone, Copy, Debug, PartialEq, Eq)]
pub enum LintRule {
    /// A name of `let`, `const`, `using` or a class is used in a statement before the one that declares it, in the same list of
    /// statements and in no function inside that statement: `f(x); let x = 1;`. The use throws where it is evaluated (ECMA-262,
    /// 9.1.1.1.6). No finding: `const g = () => x; let x = 1;`, since a function between may run later, and `f(x); var x = 1;`.
    L1,
    /// A symbol has the name of a symbol of a scope outside its own, which nothing inside can name then:
    /// `const x = 1; { const x = 2; f(x); }`. No finding: `{ const x = 1; } { const x = 2; }`.
    L2,
    /// No `break` and no `continue` refers to a label: `a: while (b) { break; }`. One that does stands inside the labelled statement,
    /// in no function inside it, and in no other statement inside it that has the label too. No finding: `a: while (b) { break a; }`.
    L3,
    /// A function declaration has a name that another symbol of its own scope or of a scope around it has too, or would have less an
    /// ending `_` and digits, which the compiler adds where it makes a name unique: `const f = 1; function f_0() {}`. No finding:
    /// `const g = 1; function f_0() {}`.
    L4,
}

/// A finding of the linter in a unit.
#[derive(Debug, Drop)]
pub struct Finding {
    /// The rule.
    pub rule: LintRule,
    /// The span of the node: for L1 the `id`, for L2 and L4 the `bind` of the symbol or of the function, for L3 the labelled statement.
    pub span: Span,
    /// The name, or for L3 the label.
    pub name: Text,
    /// The span of the first `bind` of the symbol that the finding is about: for L1 the one that is used, for L2 and L4 the other one of
    /// the name. `None` for L3.
    pub other: Option<Span>,
}

/// Index of a rule, from 1.
fn rank(rule: LintRule) -> u8
    ensures { result ≡ spec.rank rule }
{
    match rule {
        LintRule::L1 => 1,
        LintRule::L2 => 2,
        LintRule::L3 => 3,
        LintRule::L4 => 4,
    }
}

/// The key by which findings are sorted: the start and the end of the span, then the rule.
pub(crate) fn place_of(finding: &Finding) -> (u32, u32, u8)
    ensures { result ≡ spec.place_of finding.now }
{
    (finding.span.start, finding.span.end, rank(finding.rule))
}

/// Appends a finding. On `OutOfMemory`, an allocation failed.
pub(crate) fn push_finding(
    alloc: Global,
    found: &mut Vec<Finding>,
    rule: LintRule,
    span: Span,
    name: &str,
    other: Option<Span>,
) -> Result<(), OutOfMemory>
    ensures { OnOk result (found.new.items ≡ found.old.items ++ spec.finding rule span name.now other ∷ []) }
{
    let name = Text::from_str(alloc, name)?;
    found.push(Finding {
        rule,
        span,
        name,
        other,
    })?;
    Ok(())
}
