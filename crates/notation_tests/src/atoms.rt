//! Values with one spelling: what is read at an offset, and what is not.

use rl_atoms::atom::Atom;
use rl_atoms::entity::Entity;
use rl_atoms::entity_table::EntityTable;
use rl_atoms::list::{read_list, read_option};
use rl_base::error::OutOfMemory;
use rl_base::operator::BinaryOperator;
use rl_base::text::Text;
use std::alloc::Global;
use std::process::Abort;
use std::test::Fail;

/// Checks the number, and the offset behind it, that is read at the start of a text.
fn check_number(
    rt: &impl Abort,
    alloc: Global,
    text: &str,
    found: Option<(u64, usize)>,
) -> Result<(), Fail> {
    assert_eq!(rt; u64::read(alloc, text.as_bytes(), 0)?, found, "{text}");
    Ok(())
}

#[test]
fn reads_numbers(rt: HostRuntime) -> Result<(), Fail> {
    let rows = [
        ("0", Some((0, 1))),
        ("10 x", Some((10, 2))),
        ("7)", Some((7, 1))),
        ("9007199254740992]", Some((9007199254740992, 16))),
        ("9007199254740993", None),
        ("01", None),
        ("", None),
        ("-", None),
        ("1x", None),
    ];
    for (text, found) in rows {
        check_number(&rt, rt.alloc(), text, found)?;
    }
    Ok(())
}

/// Checks the flags of a list, and the offset behind it, that is read at the start of a text.
fn check_flags(
    rt: &impl Abort,
    alloc: Global,
    text: &str,
    count: Option<(usize, usize)>,
) -> Result<(), Fail> {
    let found = read_list::<bool>(alloc, text.as_bytes(), 0)?;
    assert_eq!(rt;
        found.map(|(flags, next)| (flags.len(), next)),
        count,
        "{text}"
    );
    Ok(())
}

#[test]
fn reads_lists(rt: HostRuntime) -> Result<(), Fail> {
    let rows = [
        ("[]", Some((0, 2))),
        ("[y n y]", Some((3, 7))),
        ("[y  n]", None),
        ("[ y]", None),
        ("[y ]", None),
        ("[y", None),
        ("[y]y", None),
    ];
    for (text, count) in rows {
        check_flags(&rt, rt.alloc(), text, count)?;
    }
    Ok(())
}

/// The operator that is read at the start of a text, or `-`.
fn operator_at(alloc: Global, text: &str) -> Result<Option<Option<BinaryOperator>>, OutOfMemory> {
    let found = read_option::<BinaryOperator>(alloc, text.as_bytes(), 0)?;
    Ok(found.map(|(operator, _next)| operator))
}

#[test]
fn reads_operators(rt: HostRuntime) -> Result<(), Fail> {
    let rows = [
        ("\">>>\"", Some(Some(BinaryOperator::ShiftRightZeroFill))),
        ("-", Some(None)),
        ("\"&&\"", None),
        (">>>", None),
    ];
    for (text, operator) in rows {
        assert_eq!(rt; operator_at(rt.alloc(), text)?, operator, "{text}");
    }
    Ok(())
}

#[test]
fn finds_the_first_entity_of_a_name(rt: HostRuntime) -> Result<(), Fail> {
    let mut table = EntityTable::new(rt.alloc());
    for (name, value) in [("amp", 38), ("lt", 60), ("amp", 64)] {
        let name = Text::from_str(rt.alloc(), name)?;
        table.push(rt.alloc(), Entity { name, value })?;
    }
    assert_eq!(rt; table.get("amp"), Some(38));
    assert_eq!(rt; table.get("lt"), Some(60));
    assert_eq!(rt; table.get("gt"), None);
    Ok(())
}
