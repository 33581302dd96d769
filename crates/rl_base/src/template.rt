//! Templates of messages and help texts.

ghost use Rattle.std.specs.Prelude.{◌≡◌, ◌++◌, ℕ, List, IfOk, OnOk, string_bytes};
ghost use Rattle.rl_base.specs.Templates.{filled, tag_of};
ghost use Rattle.rl_base.specs.Tags.{tagged};

use crate::error::OutOfMemory;
use crate::text::Text;
use std::alloc::Global;

/// A buffer that text is appended to.
pub(crate) trait TextBuffer {
    /// The bytes that the buffer holds.
    ghost bytes: { Self → List ℕ };

    /// Appends a text. On `OutOfMemory` an allocation failed.
    fn append(&mut self, text: &str) -> Result<(), OutOfMemory>
        ensures { OnOk result (bytes self.new ≡ bytes self.old ++ text.now) };
}

impl TextBuffer for String {
    ghost bytes = { λ text. string_bytes text };

    fn append(&mut self, text: &str) -> Result<(), OutOfMemory> {
        self.push_str(text)?;
        Ok(())
    }
}

impl TextBuffer for Vec<u8> {
    ghost bytes = { λ text. text.items };

    fn append(&mut self, text: &str) -> Result<(), OutOfMemory> {
        self.extend_from_slice(text.as_bytes())?;
        Ok(())
    }
}

/// The template with `word` in each place of `%`, and the word's tag in each place of `#`. On `OutOfMemory` an allocation failed.
pub(crate) fn fill(alloc: Global, template: &str, word: &str) -> Result<Text, OutOfMemory>
    ensures { IfOk result (λ text. text ≡ filled template.now word.now) }
{
    let mut text = String::new(alloc);
    write_filled(template, word, &mut text)?;
    Ok(Text::new(text))
}

/// Appends the template with `word` in each place of `%`, and the word's tag in each place of `#`. On `OutOfMemory` an
/// allocation failed, and `out` may end with a prefix of that.
pub(crate) fn write_filled<B: TextBuffer>(
    template: &str,
    word: &str,
    out: &mut B,
) -> Result<(), OutOfMemory>
    ensures { OnOk result (B.bytes out.new ≡ B.bytes out.old ++ filled template.now word.now) }
{
    let tag = tag_of(word);
    let mut rest = template;
    'filling: while let Some((before, after)) = rest.split_once('%') {
        write_tagged(before, tag, out)?;
        out.append(word)?;
        rest = after;
    }
    write_tagged(rest, tag, out)?;
    Ok(())
}

/// Appends the template with `tag` in each place of `#`. On `OutOfMemory` an allocation failed, and `out` may end with a prefix
/// of that.
fn write_tagged<B: TextBuffer>(template: &str, tag: &str, out: &mut B) -> Result<(), OutOfMemory>
    ensures { OnOk result (B.bytes out.new ≡ B.bytes out.old ++ tagged template.now tag.now) }
{
    let mut rest = template;
    'tagging: while let Some((before, after)) = rest.split_once('#') {
        out.append(before)?;
        out.append(tag)?;
        rest = after;
    }
    out.append(rest)?;
    Ok(())
}

/// The part of the word before its first colon; all of it where there is none.
fn tag_of(word: &str) -> &str
    ensures { result.now ≡ tag_of word.now }
{
    match word.split_once(':') {
        Some((tag, _name)) => tag,
        None => word,
    }
}
