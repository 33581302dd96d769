//! The trim of a text between tags.

ghost use Rattle.std.specs.Prelude.{◌≡◌, IfOk, OnOk, string_bytes};
ghost use Rattle.rl_jsx.specs.JsxTexts as spec;
ghost use Rattle.rl_jsx.specs.Marks.{AddsLine};

use crate::cuts::cut_at_first;
use crate::lines::split_line;
use rl_base::error::OutOfMemory;
use rl_base::text::Text;
use std::alloc::Global;

/// A copy with a space for each tab.
fn tabs_as_spaces(alloc: Global, text: &str) -> Result<String, OutOfMemory>
    ensures { IfOk result (λ spaced. string_bytes spaced ≡ spec.tabs_as_spaces text.now) }
{
    let mut spaced = String::new(alloc);
    let mut rest = text;
    'replacing: while let Some((before, after)) = cut_at_first(rest, '\t') {
        spaced.push_str(before)?;
        spaced.push(' ')?;
        rest = after;
    }
    spaced.push_str(rest)?;
    Ok(spaced)
}

/// The line without the spaces at its start.
fn without_leading_spaces(line: &str) -> &str
    ensures { result.now ≡ spec.without_leading_spaces line.now }
{
    let bytes = line.as_bytes();
    let mut start = 0;
    'skipping: while start < bytes.len() && bytes[start] == b' ' {
        start += 1;
    }
    &line[start..]
}

/// The line without the spaces at its end.
fn without_trailing_spaces(line: &str) -> &str
    ensures { result.now ≡ spec.without_trailing_spaces line.now }
{
    let bytes = line.as_bytes();
    let mut end = bytes.len();
    'skipping: while end > 0 && bytes[end - 1] == b' ' {
        end -= 1;
    }
    &line[..end]
}

/// Appends a line to those that `joined` has, with a space between; an empty line is left out. On `OutOfMemory` an allocation failed.
fn push_line(line: &str, joined: &mut String) -> Result<(), OutOfMemory>
    ensures { OnOk result (AddsLine (string_bytes joined.old) (string_bytes joined.new) line.now) }
{
    if line.is_empty() {
        return Ok(());
    }
    if joined.as_str().is_empty() {
        joined.push_str(line)?;
        return Ok(());
    }
    joined.push(' ')?;
    joined.push_str(line)?;
    Ok(())
}

/// The lines of a text that has no tab, without the spaces beside line endings, joined. On `OutOfMemory` an allocation failed.
fn join_trimmed(alloc: Global, text: &str) -> Result<String, OutOfMemory>
    ensures { IfOk result (λ joined. string_bytes joined ≡ spec.joined_lines (spec.trimmed_lines (spec.split_line_endings text.now))) }
{
    let mut joined = String::new(alloc);
    let Some((first, behind)) = split_line(text) else {
        push_line(text, &mut joined)?;
        return Ok(joined);
    };
    push_line(without_trailing_spaces(first), &mut joined)?;
    let mut rest = behind;
    'joining: while let Some((line, after)) = split_line(rest) {
        push_line(
            without_leading_spaces(without_trailing_spaces(line)),
            &mut joined,
        )?;
        rest = after;
    }
    push_line(without_leading_spaces(rest), &mut joined)?;
    Ok(joined)
}

/// The text that a JSX text shows: its tabs are spaces, spaces beside line endings go, and the lines left that are not empty are joined by
/// spaces. `None` if nothing is left. On `OutOfMemory` an allocation failed. It is `trimJsxText` of the original.
pub fn trim_jsx_text(alloc: Global, text: &Text) -> Result<Option<Text>, OutOfMemory>
    ensures { IfOk result (λ trimmed. trimmed ≡ spec.trim_jsx_text text.now) }
{
    let spaced = tabs_as_spaces(alloc, text.as_str())?;
    let joined = join_trimmed(alloc, spaced.as_str())?;
    if joined.as_str().is_empty() {
        return Ok(None);
    }
    Ok(Some(Text::new(joined)))
}
