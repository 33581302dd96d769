//! Texts of JSX: their lines, what they show, and their entities.

use rl_atoms::entity::Entity;
use rl_atoms::entity_table::EntityTable;
use rl_base::text::Text;
use rl_jsx::entities::decode_jsx_entities;
use rl_jsx::lines::split_line_endings;
use rl_jsx::trim::trim_jsx_text;
use std::alloc::Global;
use std::process::Abort;
use std::test::Fail;

/// Checks what a text shows.
fn check_shown(
    rt: &impl Abort,
    alloc: Global,
    text: &str,
    shown: Option<&str>,
) -> Result<(), Fail> {
    let text = Text::from_str(alloc, text)?;
    match trim_jsx_text(alloc, &text)? {
        Some(found) => assert_eq!(rt; Some(found.as_str()), shown),
        None => assert_eq!(rt; None, shown),
    }
    Ok(())
}

#[test]
fn trims_texts(rt: HostRuntime) -> Result<(), Fail> {
    let rows = [
        ("a\n  b", Some("a b")),
        ("\n  \n", None),
        ("   ", Some("   ")),
        ("", None),
        (" \t a \t\r\n\t\r b \t", Some("   a b  ")),
        ("\na\r\r\n\n\u{20ac}  ", Some("a \u{20ac}  ")),
        ("\u{a0}\n", Some("\u{a0}")),
        ("  \n a", Some("a")),
    ];
    for (text, shown) in rows {
        check_shown(&rt, rt.alloc(), text, shown)?;
    }
    Ok(())
}

/// Checks the number of lines of a text, and the last.
fn check_lines(
    rt: &impl Abort,
    alloc: Global,
    text: &str,
    count: usize,
    last: &str,
) -> Result<(), Fail> {
    let text = Text::from_str(alloc, text)?;
    let lines = split_line_endings(alloc, &text)?;
    assert_eq!(rt; lines.len(), count);
    match lines.as_slice() {
        [.., line] => assert_eq!(rt; line.as_str(), last),
        [] => assert!(rt; false, "no line"),
    }
    Ok(())
}

#[test]
fn splits_lines(rt: HostRuntime) -> Result<(), Fail> {
    let rows = [
        ("a\r\nb\rc\n", 4, ""),
        ("", 1, ""),
        ("a\n\r\u{e9}", 3, "\u{e9}"),
        ("a\r\r\nb", 3, "b"),
    ];
    for (text, count, last) in rows {
        check_lines(&rt, rt.alloc(), text, count, last)?;
    }
    Ok(())
}

/// Checks a text with its entities decoded, where `amp` stands for 38.
fn check_decoded(rt: &impl Abort, alloc: Global, text: &str, decoded: &str) -> Result<(), Fail> {
    let mut table = EntityTable::new(alloc);
    let name = Text::from_str(alloc, "amp")?;
    table.push(alloc, Entity { name, value: 38 })?;
    let text = Text::from_str(alloc, text)?;
    let found = decode_jsx_entities(alloc, &table, &text)?;
    assert_eq!(rt; found.as_str(), decoded);
    Ok(())
}

#[test]
fn decodes_entities(rt: HostRuntime) -> Result<(), Fail> {
    let rows = [
        ("a &amp; b &bogus; &#x41;", "a & b &bogus; A"),
        ("&a&amp;", "&a&"),
        ("&amp", "&amp"),
        ("&#+65;", "A"),
        ("&#x+1F600;&#X20ac;", "\u{1f600}\u{20ac}"),
        ("&#;&#x;&#+;&#-1;&#++65;", "&#;&#x;&#+;&#-1;&#++65;"),
        ("&#55296;&#1114112;", "&#55296;&#1114112;"),
        (
            "&#4294967361;&#18446744073709551681;",
            "&#4294967361;&#18446744073709551681;",
        ),
        ("&#1114111;&#00065;", "\u{10ffff}A"),
        (";;&amp;;", ";;&;"),
        ("\u{e9}&\u{e9};&", "\u{e9}&\u{e9};&"),
    ];
    for (text, decoded) in rows {
        check_decoded(&rt, rt.alloc(), text, decoded)?;
    }
    Ok(())
}
