//! The command `lint`: writes the findings of the linter in any well-formed unit, whatever the lowering covers.

ghost use Rattle.std.specs.Prelude.{◌≡◌, ◌≢◌, ◌++◌, IfErr, IfOk, IsErrOf, MatchResult, OnOk};
ghost use Rattle.rl_base.specs.Faults.{Rose};
ghost use Rattle.rl_base.specs.declared.span.Span.{Span as Range};
ghost use Rattle.rl_unit.specs.Known.{ExplainsBy, IsCompleteBy, RefusesUnit, WritesBy};
ghost use Rattle.react_lower.specs.Linted as spec;
ghost use Rattle.rl_syntax.specs.Syntax.{syntax};
ghost use Rattle.rl_unit.specs.Answers.{HasRead, ReadsWhole, RefusesKnown};
ghost use Rattle.rl_worlds.specs.Units.{IsSemanticOf};

use rl_ast::unit::Unit;
use rl_base::decimal::write_decimal;
use rl_base::error::OutOfMemory;
use rl_base::io::{Sink, Source, write_all};
use rl_base::span::Span;
use rl_lint::finding::{Finding, LintRule};
use rl_lint::lint::lint;
use rl_semantic::semantic::{RuleError, Semantic};
use rl_text::quoted::write_quoted;
use rl_unit::read::read_unit;
use rl_unit::run::{Output, Status};
use std::alloc::Global;

/// The name of a rule.
fn rule_name(rule: LintRule) -> &'static str
    ensures { result.now ≡ spec.rule_name rule }
{
    match rule {
        LintRule::L1 => "L1",
        LintRule::L2 => "L2",
        LintRule::L3 => "L3",
        LintRule::L4 => "L4",
    }
}

/// Appends a space and `START..END`. On `OutOfMemory`, an allocation failed.
fn push_span(span: Span, text: &mut Vec<u8>) -> Result<(), OutOfMemory>
    ensures { OnOk result (text.new.items ≡ text.old.items ++ spec.spaced span) }
{
    text.push(b' ')?;
    write_decimal(u64::from(span.start), text)?;
    text.extend_from_slice(b"..")?;
    write_decimal(u64::from(span.end), text)?;
    Ok(())
}

/// Appends the other span of a finding, if it has one. On `OutOfMemory`, an allocation failed.
fn push_other(other: Option<Span>, text: &mut Vec<u8>) -> Result<(), OutOfMemory>
    ensures { OnOk result (text.new.items ≡ text.old.items ++ spec.other_text other) }
{
    match other {
        Some(span) => {
            push_span(span, text)?;
            Ok(())
        }
        None => Ok(()),
    }
}

/// Appends the line of a finding. On `OutOfMemory`, an allocation failed.
fn push_line(finding: &Finding, text: &mut Vec<u8>) -> Result<(), OutOfMemory>
    ensures { OnOk result (text.new.items ≡ text.old.items ++ spec.line_of finding.now) }
{
    text.extend_from_slice(rule_name(finding.rule).as_bytes())?;
    push_span(finding.span, text)?;
    text.push(b' ')?;
    write_quoted(finding.name.as_bytes(), text)?;
    push_other(finding.other, text)?;
    text.push(b'\n')?;
    Ok(())
}

/// Appends the lines of findings, in order. On `OutOfMemory`, an allocation failed.
fn push_lines(found: &[Finding], text: &mut Vec<u8>) -> Result<(), OutOfMemory>
    ensures { OnOk result (text.new.items ≡ text.old.items ++ spec.lines_of found.now) }
{
    'found: for finding in found {
        push_line(finding, text)?;
    }
    Ok(())
}

/// The text of findings: their lines, and the line of their number. On `OutOfMemory`, an allocation failed.
fn text_of(alloc: Global, found: &[Finding]) -> Result<Vec<u8>, OutOfMemory>
    ensures { IfOk result (λ text. text.items ≡ spec.text_of found.now) }
{
    let mut text = Vec::new(alloc);
    push_lines(found, &mut text)?;
    write_decimal(found.len() as u64, &mut text)?;
    text.extend_from_slice(b" findings\n")?;
    Ok(text)
}

/// The output for a unit with its tables. On `OutOfMemory`, an allocation failed.
#[tactic(auto, using(crate::proofs::Linting::linted))]
fn output_of(alloc: Global, unit: &Unit, semantic: &Semantic<'_>) -> Result<Output, OutOfMemory>
    requires tables { IsSemanticOf semantic.now (syntax unit.now.tree) }
    ensures { IfOk result (λ o. spec.IsLintOutput o.status (syntax unit.now.tree) o.text.items) }
{
    let found = lint(alloc, unit, semantic)?;
    let text = text_of(alloc, found.as_slice())?;
    Ok(Output {
        status: Status::Done,
        text,
    })
}

/// The output for a unit that was read. An error is `Malformed`, of a unit that breaks a rule, or `OutOfMemory`.
fn unit_output(alloc: Global, unit: &Unit) -> Result<Output, Status>
    ensures output { IfOk result (λ o. spec.IsLintOutput o.status (syntax unit.now.tree) o.text.items) }
    ensures status { IfErr result (RefusesUnit (syntax unit.now.tree)) }
{
    let semantic = match Semantic::of(alloc, unit) {
        Ok(semantic) => semantic,
        Err(RuleError::Malformed(_)) => return Err(Status::Malformed),
        Err(RuleError::OutOfMemory) => return Err(Status::OutOfMemory),
    };
    match output_of(alloc, unit, &semantic) {
        Ok(output) => Ok(output),
        Err(OutOfMemory) => Err(Status::OutOfMemory),
    }
}

/// Reads the unit that the source has left. The result is the output for it, or the status of a run without output.
fn answer<S: Source>(alloc: Global, source: &mut S) -> Result<Output, Status>
    ensures writes { IfOk result (λ o. WritesBy spec.IsLintOutput (S.left source.old) o.status o.text.items) }
    ensures status { IfErr result (RefusesKnown (S.left source.old)) }
    ensures read { MatchResult result (λ _. ReadsWhole (S.left source.old) (S.left source.new))
        (λ status. HasRead status → ReadsWhole (S.left source.old) (S.left source.new)) }
    ensures cause { IsErrOf result Status.ReadFault → Rose (S.faults source.old) (S.faults source.new) }
{
    let unit = match read_unit(alloc, source) {
        Ok(unit) => unit,
        Err(status) => return Err(status),
    };
    match unit_output(alloc, &unit) {
        Ok(output) => Ok(output),
        Err(status) => Err(status),
    }
}

/// Writes to the sink the findings in the unit that the source has left, and their number. All memory is allocated before the first byte
/// is written.
pub fn lint_unit<S: Source, K: Sink>(alloc: Global, source: &mut S, sink: &mut K) -> Status
    ensures explained { ExplainsBy spec.IsLintOutput result (S.left source.old) (K.held sink.old) (K.held sink.new) }
    ensures complete { IsCompleteBy spec.IsLintAnswer (S.left source.old) result }
    ensures command { result ≢ Status.Usage }
    ensures read { HasRead result → ReadsWhole (S.left source.old) (S.left source.new) }
    ensures read_cause { result ≡ Status.ReadFault → Rose (S.faults source.old) (S.faults source.new) }
    ensures write_cause { result ≡ Status.WriteFault → Rose (K.faults sink.old) (K.faults sink.new) }
{
    let output = match answer(alloc, source) {
        Ok(output) => output,
        Err(status) => return status,
    };
    match write_all(sink, output.text.as_slice()) {
        Ok(()) => output.status,
        Err(_) => Status::WriteFault,
    }
}
