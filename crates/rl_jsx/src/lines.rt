//! The lines of a text.

ghost use Rattle.std.specs.Prelude.{◌≡◌, ◌+◌, ◌-◌, ◌<◌, ◌≤◌, ◌∷◌, [], true, false, length, take, drop, slice_index, IfOk, IfSome, IfNone};
ghost use Rattle.std.specs.List.{list_all};
ghost use Rattle.rl_jsx.specs.JsxTexts as spec;
ghost use Rattle.rl_jsx.specs.Marks.{is_inside};

use rl_base::error::OutOfMemory;
use rl_base::list::List;
use rl_base::text::Text;
use std::alloc::Global;

/// True of a byte that is neither a carriage return nor a line feed.
fn is_inside_line(byte: u8) -> bool
    ensures { result ≡ is_inside byte }
{
    byte != b'\r' && byte != b'\n'
}

/// The byte offset of the first line ending, or the length where there is none.
fn line_end(text: &[u8]) -> usize
    ensures within { result ≤ length text.now }
    ensures inside { list_all is_inside (take result text.now) ≡ true }
    ensures stopped { result < length text.now → is_inside (slice_index text.now result) ≡ false }
{
    let mut end = 0;
    'scanning: while end < text.len() && is_inside_line(text[end]) {
        end += 1;
    }
    end
}

/// The byte offset behind the line ending that stands at the byte offset `at`.
fn ending_end(text: &[u8], at: usize) -> usize
    requires within { at < length text.now }
    requires stopped { is_inside (slice_index text.now at) ≡ false }
    ensures forward { at < result }
    ensures within { result ≤ length text.now }
    ensures ascii { slice_index text.now (result - 1) < 128 }
    ensures ended { spec.split_line_endings (drop at text.now) ≡ [] ∷ spec.split_line_endings (drop result text.now) }
{
    let next = at + 1;
    if text[at] == b'\n' {
        return next;
    }
    if next == text.len() {
        return next;
    }
    if text[next] == b'\n' {
        return next + 1;
    }
    next
}

/// The first line of a text and the text behind its line ending. `None` if there is no line ending.
pub(crate) fn split_line(text: &str) -> Option<(&str, &str)>
    ensures some { IfSome result (λ parts. spec.split_line_endings text.now ≡ parts.0.now ∷ spec.split_line_endings parts.1.now) }
    ensures shorter { IfSome result (λ parts. length parts.1.now < length text.now) }
    ensures none { IfNone result (spec.split_line_endings text.now ≡ text.now ∷ []) }
{
    let bytes = text.as_bytes();
    let end = line_end(bytes);
    if end == bytes.len() {
        return None;
    }
    let next = ending_end(bytes, end);
    Some((&text[..end], &text[next..]))
}

/// The lines of a text, one more than it has line endings. A line ending is a carriage return and a line feed, or either alone. On
/// `OutOfMemory` an allocation failed.
pub fn split_line_endings(alloc: Global, text: &Text) -> Result<List<Text>, OutOfMemory>
    ensures { IfOk result (λ lines. lines ≡ spec.split_line_endings text.now) }
{
    let mut lines = List::new(alloc);
    let mut rest = text.as_str();
    'splitting: while let Some((line, after)) = split_line(rest) {
        let line = Text::from_str(alloc, line)?;
        lines.push(line)?;
        rest = after;
    }
    let last = Text::from_str(alloc, rest)?;
    lines.push(last)?;
    Ok(lines)
}
