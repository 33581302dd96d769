//! Diagnostics, operators and streams over memory.

use rl_base::closed_text::ClosedText;
use rl_base::diagnostic::Diagnostic;
use rl_base::error::{Failed, OutOfMemory};
use rl_base::io::{Sink, Source};
use rl_base::list::List;
use rl_base::memory::{MemSink, MemSource};
use rl_base::operator::{
    AssignmentOperator, BinaryOperator, LogicalOperator, UnaryOperator, UpdateOperator,
};
use rl_base::row::Row;
use rl_base::span::Span;
use rl_base::text::Text;
use std::alloc::Global;
use std::process::Abort;
use std::test::Fail;

/// Checks the line of a diagnostic with one label.
fn check_line(
    rt: &impl Abort,
    alloc: Global,
    row: Row,
    word: &str,
    wanted: &str,
) -> Result<(), OutOfMemory> {
    let diagnostic = Diagnostic::at(alloc, row, word, Span { start: 75, end: 90 })?;
    let mut out = Vec::new(alloc);
    diagnostic.write_line(&mut out)?;
    assert_eq!(rt; out.as_slice(), wanted.as_bytes());
    Ok(())
}

#[test]
fn writes_the_lines_of_rows(rt: HostRuntime) -> Result<(), Fail> {
    let rows = [
        (
            Row::F2,
            "",
            "F2 UnsupportedSyntax 75..90 The 'eval' function is not supported; Eval is an anti-pattern in JavaScript, and the code executed cannot be evaluated by React Compiler\n",
        ),
        (
            Row::F26,
            "fbt:enum",
            "F26 Todo 75..90 Support duplicate fbt tags; Support `<fbt>` tags with multiple `<fbt:enum>` values\n",
        ),
        (
            Row::F27,
            "`a:c` : `b`",
            "F27 Syntax 75..90 Expected JSXNamespacedName to have no colons in the namespace or name; Got `a:c` : `b`\n",
        ),
        (
            Row::F43,
            "",
            "F43 Todo 75..90 Only whole numbers up to 2^53 are supported\n",
        ),
        (
            Row::S1,
            "class",
            "S1 Syntax 75..90 Expected a non-reserved identifier name; `class` is a reserved word in JavaScript and cannot be used as an identifier name\n",
        ),
        (
            Row::S7,
            "label",
            "S7 Invariant 75..90 Continue may only refer to a labeled loop\n",
        ),
        (
            Row::S7,
            "",
            "S7 Invariant 75..90 Expected a loop to be in scope for continue\n",
        ),
    ];
    for (row, word, wanted) in rows {
        check_line(&rt, rt.alloc(), row, word, wanted)?;
    }
    Ok(())
}

/// The line of row F43 with two labels.
fn line_of_two(alloc: Global) -> Result<Vec<u8>, OutOfMemory> {
    let mut labels = List::new(alloc);
    labels.push(Span { start: 50, end: 74 })?;
    labels.push(Span {
        start: 0,
        end: u32::MAX,
    })?;
    let diagnostic = Diagnostic {
        row: Row::F43,
        word: Text::from_str(alloc, "")?,
        labels,
    };
    let mut out = Vec::new(alloc);
    diagnostic.write_line(&mut out)?;
    Ok(out)
}

#[test]
fn writes_each_label(rt: HostRuntime) -> Result<(), Fail> {
    let written = line_of_two(rt.alloc())?;
    assert_eq!(rt;
        written.as_slice(),
        b"F43 Todo 50..74,0..4294967295 Only whole numbers up to 2^53 are supported\n".as_slice()
    );
    Ok(())
}

#[test]
fn finds_operators_by_their_texts(rt: HostRuntime) {
    assert_eq!(rt;
        BinaryOperator::from_text(">>>"),
        Some(BinaryOperator::ShiftRightZeroFill)
    );
    assert_eq!(rt; BinaryOperator::from_text("="), None);
    assert_eq!(rt;
        LogicalOperator::from_text("??"),
        Some(LogicalOperator::Coalesce)
    );
    assert_eq!(rt;
        UnaryOperator::from_text("typeof"),
        Some(UnaryOperator::Typeof)
    );
    assert_eq!(rt;
        UpdateOperator::from_text("--"),
        Some(UpdateOperator::Decrement)
    );
    assert_eq!(rt;
        AssignmentOperator::from_text("**="),
        Some(AssignmentOperator::Exponential)
    );
}

#[test]
fn gives_bytes_and_fails_in_the_listed_calls(rt: HostRuntime) -> Result<(), Fail> {
    let alloc = rt.alloc();
    let mut source = MemSource::new(Vec::from_slice(alloc, b"abcde")?, 2, vec![in alloc; 1]?);
    let mut buf = [0u8; 3];
    for want in [Ok(2), Err(Failed), Ok(2), Ok(1), Ok(0)] {
        assert_eq!(rt; source.take(&mut buf), want);
    }
    assert_eq!(rt; buf, *b"ed\0");
    Ok(())
}

#[test]
fn takes_bytes_and_fails_in_the_listed_calls(rt: HostRuntime) -> Result<(), Fail> {
    let alloc = rt.alloc();
    let mut sink = MemSink::new(alloc, 2, vec![in alloc; 0, 2]?);
    for want in [Err(Failed), Ok(2), Err(Failed), Ok(2)] {
        assert_eq!(rt; sink.put(b"abc"), want);
    }
    assert_eq!(rt; sink.held(), b"abab".as_slice());
    Ok(())
}
