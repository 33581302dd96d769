ghost use Rattle.std.specs.Prelude.{◌≡◌, ◌++◌, map, codes, IfOk, OnOk};
ghost use Rattle.std.specs.Option.{option_map};
ghost use Rattle.rl_base.specs.Diagnostics.{diagnostic_at, message_of, help_of, heading, span_text, spans_text, help_text, line_of};
ghost use Rattle.rl_base.specs.Rows.{help_template};
ghost use Rattle.rl_base.specs.Templates.{filled};

use crate::decimal::write_decimal;
use crate::error::OutOfMemory;
use crate::list::List;
use crate::row::Row;
use crate::span::Span;
use crate::template::{fill, write_filled};
use crate::text::Text;
use std::alloc::Global;

/// A diagnostic of a unit: a row with the word and the spans that it speaks of.
#[derive(Debug, Drop)]
pub struct Diagnostic {
    /// The kind of the diagnostic.
    pub row: Row,
    /// The word in the row's texts; empty if they have none.
    pub word: Text,
    /// The spans that it points at, in the order in which the line prints them. Lowering gives at least one.
    pub labels: List<Span>,
}

impl Diagnostic {
    /// A diagnostic with one label. On `OutOfMemory` an allocation failed.
    pub fn at(alloc: Global, row: Row, word: &str, span: Span) -> Result<Diagnostic, OutOfMemory>
        ensures { IfOk result (λ diagnostic. diagnostic ≡ diagnostic_at row word.now span) }
    {
        let word = Text::from_str(alloc, word)?;
        let mut labels = List::new(alloc);
        labels.push(span)?;
        Ok(Diagnostic { row, word, labels })
    }

    /// The row's message with the word in it. On `OutOfMemory` an allocation failed.
    pub fn message(&self, alloc: Global) -> Result<Text, OutOfMemory>
        ensures { IfOk result (λ message. message ≡ message_of self.now) }
    {
        let word = self.word.as_str();
        fill(alloc, self.row.message_template(word), word)
    }

    /// The row's help text with the word in it, if the row has one. On `OutOfMemory` an allocation failed.
    pub fn help(&self, alloc: Global) -> Result<Option<Text>, OutOfMemory>
        ensures { IfOk result (λ help. help ≡ help_of self.now) }
    {
        match self.row.help_template() {
            Some(template) => Ok(Some(fill(alloc, template, self.word.as_str())?)),
            None => Ok(None),
        }
    }

    /// Appends the line that the program prints. Allocates for `out` alone. On `OutOfMemory` an allocation failed, and `out` may
    /// end with a prefix of the line.
    pub fn write_line(&self, out: &mut Vec<u8>) -> Result<(), OutOfMemory>
        ensures { OnOk result (out.new.items ≡ out.old.items ++ line_of self.now) }
    {
        let word = self.word.as_str();
        write_heading(self.row, out)?;
        write_spans(self.labels.as_slice(), out)?;
        out.push(b' ')?;
        write_filled(self.row.message_template(word), word, out)?;
        write_help(self.row, word, out)?;
        out.push(b'\n')?;
        Ok(())
    }
}

/// Appends the name and the category of the row, with a space after each.
fn write_heading(row: Row, out: &mut Vec<u8>) -> Result<(), OutOfMemory>
    ensures { OnOk result (out.new.items ≡ out.old.items ++ heading row) }
{
    out.extend_from_slice(row.name().as_bytes())?;
    out.push(b' ')?;
    out.extend_from_slice(row.category().as_str().as_bytes())?;
    out.push(b' ')?;
    Ok(())
}

/// Appends `; ` and the help text with `word` in it, if the row has one.
fn write_help(row: Row, word: &str, out: &mut Vec<u8>) -> Result<(), OutOfMemory>
    ensures { OnOk result (out.new.items ≡ out.old.items ++ help_text (option_map (λ template. filled template word.now) (help_template row))) }
{
    match row.help_template() {
        Some(template) => {
            out.extend_from_slice(b"; ")?;
            write_filled(template, word, out)
        }
        None => Ok(()),
    }
}

/// Appends `START..END`.
fn write_span(span: Span, out: &mut Vec<u8>) -> Result<(), OutOfMemory>
    ensures { OnOk result (out.new.items ≡ out.old.items ++ span_text span) }
{
    write_decimal(u64::from(span.start), out)?;
    out.extend_from_slice(b"..")?;
    write_decimal(u64::from(span.end), out)
}

/// Appends spans with commas between them.
fn write_spans(spans: &[Span], out: &mut Vec<u8>) -> Result<(), OutOfMemory>
    ensures { OnOk result (out.new.items ≡ out.old.items ++ spans_text spans.now) }
{
    let Some((first, rest)) = spans.split_first() else {
        return Ok(());
    };
    write_span(*first, out)?;
    'rest: for span in rest {
        out.push(b',')?;
        write_span(*span, out)?;
    }
    Ok(())
}
