//! The reader, the writer and the measure of the notation.

use rl_text::measure::measure;
use rl_text::read::{TextError, read_raw};
use rl_text::write::write_raw;
use std::alloc::{AllocError, Global};
use std::process::Abort;
use std::test::Fail;

/// Checks that a text is read as a tree, and written back.
fn check_written_back(rt: &impl Abort, alloc: Global, text: &[u8]) -> Result<(), Fail> {
    let raw = read_raw(alloc, text)?;
    let written = write_raw(alloc, &raw)?;
    assert_eq!(rt; written.as_slice(), text);
    Ok(())
}

/// Checks that a text spells no tree.
fn check_malformed(rt: &impl Abort, alloc: Global, text: &[u8]) {
    match read_raw(alloc, text) {
        Err(error) => assert_eq!(rt; error, TextError::Malformed),
        Ok(_) => assert!(rt; false, "read {text:?}"),
    }
}

#[test]
fn reads_and_writes_trees(rt: HostRuntime) -> Result<(), Fail> {
    let texts: [&[u8]; 12] = [
        b"(a \"x\\0a\" [1 y -] [])",
        b"[]",
        b"(abc)",
        b"9007199254740992",
        b"0",
        b"9",
        b"10",
        b"4294967295",
        b"n",
        b"\"\\22\\5c\\00 \"",
        b"\"\xc3\xa4\"",
        b"[[[] \"\"] (z n)]",
    ];
    for text in texts {
        check_written_back(&rt, rt.alloc(), text)?;
    }
    Ok(())
}

#[test]
fn refuses_what_spells_no_tree(rt: HostRuntime) {
    let texts: [&[u8]; 20] = [
        b"(a  b)",
        b"[1  2]",
        b"01",
        b"\"\\0A\"",
        b"\"\\41\"",
        b"\"\xff\"",
        b"9007199254740993",
        b"",
        b"[]\n",
        b"()",
        b"(a )",
        b"[ 1]",
        b"[1 ]",
        b"(A)",
        b"(a",
        b"[1",
        b"\"a",
        b"\"\\2\"",
        b"(a]",
        b"1y",
    ];
    for text in texts {
        check_malformed(&rt, rt.alloc(), text);
    }
}

/// `count` letters, then `piece`, and then a letter, in quotes.
fn quoted(alloc: Global, count: usize, piece: &str) -> Result<String, AllocError> {
    let mut text = String::from_str(alloc, "\"")?;
    for _ in 0..count {
        text.push('a')?;
    }
    text.push_str(piece)?;
    text.push_str("z\"")?;
    Ok(text)
}

#[test]
fn reads_and_writes_runs_and_escapes(rt: HostRuntime) -> Result<(), Fail> {
    let pieces = [
        "\\0a",
        "\\22\\5c",
        "\\1fz\\00",
        "\u{e9}",
        "\u{20ac}",
        "\u{1f600}\\0a",
    ];
    for count in 0..50 {
        for piece in pieces {
            let text = quoted(rt.alloc(), count, piece)?;
            check_written_back(&rt, rt.alloc(), text.as_bytes())?;
        }
    }
    Ok(())
}

#[test]
fn refuses_escapes_cut_short(rt: HostRuntime) -> Result<(), Fail> {
    for count in 0..50 {
        for piece in ["\\", "\\0", "\\0z", "\\61", "\n"] {
            let text = quoted(rt.alloc(), count, piece)?;
            check_malformed(&rt, rt.alloc(), text.as_bytes());
        }
    }
    Ok(())
}

#[test]
fn measures_bytes_of_any_form(rt: HostRuntime) {
    let rows: [(&[u8], usize, usize); 8] = [
        (b"", 0, 0),
        (b"(a \"(\" [1 y])", 1, 1),
        (b"))))", 0, 0),
        (b"))((((", 4, 4),
        (b"(\"", 1, 1),
        (b"(\"((", 1, 1),
        (b"(a (b) (c (d)))", 4, 3),
        (b"\"\\22)\"((\"))\")", 2, 2),
    ];
    for (bytes, nodes, deepest) in rows {
        let size = measure(bytes);
        assert_eq!(rt; size.bytes, bytes.len());
        assert_eq!(rt; size.nodes, nodes);
        assert_eq!(rt; size.deepest, deepest);
    }
}
