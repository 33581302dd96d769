//! The result of the function, and its listing.

use crate::blocks::{BLOCKS, blocks};
use crate::parts::{place, places, span, text};
use crate::values::{VALUES, table};
use rl_base::error::OutOfMemory;
use rl_base::ids::{BlockId, IdentifierId, SymbolId, TypeId};
use rl_base::list::List;
use rl_base::text::Text;
use rl_hir::blocks::GraphBlocks;
use rl_hir::function::{
    Hir, HirFunction, Identifier, IdentifierName, Lowered, Pair, Param, ReactFunctionType,
};
use rl_hir::listing::{listing, write_listing};
use rl_text::write::write_raw;
use std::alloc::Global;
use std::test::Fail;

/// The listing in front of the blocks.
const HEAD: &str =
    r#"(lowered (fn (at 2 5) "f" "hook" y n ["use strict"] [(p 1 -) (spread (p 2 -))] [(p 3 -)] (p 4 -) 0 ["#;

/// The listing behind the instructions.
const TAIL: &str =
    r#"]) [] [(ident (named "x") (at 2 5) 0) (ident (promoted "t") - 1) (ident - - 2)] [(pair 0 1)])"#;

fn directives(alloc: Global) -> Result<List<Text>, OutOfMemory> {
    let mut directives = List::new(alloc);
    directives.push(text(alloc, "use strict")?)?;
    Ok(directives)
}

fn params(alloc: Global) -> Result<List<Param>, OutOfMemory> {
    let mut params = List::new(alloc);
    params.push(Param::Place(place(1)))?;
    params.push(Param::Spread(place(2)))?;
    Ok(params)
}

fn function(alloc: Global) -> Result<HirFunction<GraphBlocks>, OutOfMemory> {
    let name = Some(text(alloc, "f")?);
    let directives = directives(alloc)?;
    let params = params(alloc)?;
    let context = places(alloc, 3)?;
    let blocks = blocks(alloc)?;
    let instructions = table(alloc)?;
    Ok(HirFunction {
        span: Some(span()),
        name,
        fn_type: ReactFunctionType::Hook,
        generator: true,
        is_async: false,
        directives,
        params,
        context,
        returns: place(4),
        body: Hir {
            entry: BlockId(0),
            blocks,
        },
        instructions,
    })
}

fn identifiers(alloc: Global) -> Result<List<Identifier>, OutOfMemory> {
    let mut identifiers = List::new(alloc);
    identifiers.push(Identifier {
        name: Some(IdentifierName::Named(text(alloc, "x")?)),
        span: Some(span()),
        type_id: TypeId(0),
    })?;
    identifiers.push(Identifier {
        name: Some(IdentifierName::Promoted(text(alloc, "t")?)),
        span: None,
        type_id: TypeId(1),
    })?;
    identifiers.push(Identifier {
        name: None,
        span: None,
        type_id: TypeId(2),
    })?;
    Ok(identifiers)
}

fn result(alloc: Global) -> Result<Lowered, OutOfMemory> {
    let mut pairs = List::new(alloc);
    pairs.push(Pair {
        symbol: SymbolId(0),
        identifier: IdentifierId(1),
    })?;
    let identifiers = identifiers(alloc)?;
    let function = function(alloc)?;
    Ok(Lowered {
        function,
        inner: List::new(alloc),
        identifiers,
        pairs,
    })
}

/// The bytes of the listing.
fn listed(alloc: Global) -> Result<Vec<u8>, OutOfMemory> {
    let lowered = result(alloc)?;
    let mut out = Vec::new(alloc);
    write_listing(&lowered, &mut out)?;
    Ok(out)
}

/// The bytes that the tree of the listing spells.
fn spelled(alloc: Global) -> Result<Vec<u8>, OutOfMemory> {
    let lowered = result(alloc)?;
    let raw = listing(alloc, &lowered)?;
    write_raw(alloc, &raw)
}

/// Appends rows with a space between; each stands between `open` and `close`.
fn push_rows(rows: &[&str], open: &str, close: &str, out: &mut Vec<u8>) -> Result<(), OutOfMemory> {
    let mut apart = false;
    for row in rows {
        if apart {
            out.push(b' ')?;
        }
        apart = true;
        out.extend_from_slice(open.as_bytes())?;
        out.extend_from_slice(row.as_bytes())?;
        out.extend_from_slice(close.as_bytes())?;
    }
    Ok(())
}

/// The bytes that the rows make.
fn wanted(alloc: Global) -> Result<Vec<u8>, OutOfMemory> {
    let mut out = Vec::new(alloc);
    out.extend_from_slice(HEAD.as_bytes())?;
    push_rows(&BLOCKS, "", "", &mut out)?;
    out.extend_from_slice(b"] [")?;
    push_rows(&VALUES, "(i 0 (p 0 -) - ", ")", &mut out)?;
    out.extend_from_slice(TAIL.as_bytes())?;
    Ok(out)
}

#[test]
fn lists_each_value_and_terminal(rt: HostRuntime) -> Result<(), Fail> {
    let alloc = rt.alloc();
    let wanted = wanted(alloc)?;
    let listed = listed(alloc)?;
    assert_eq!(rt; listed.as_slice(), wanted.as_slice());
    Ok(())
}

#[test]
fn the_tree_spells_the_listing(rt: HostRuntime) -> Result<(), Fail> {
    let alloc = rt.alloc();
    let listed = listed(alloc)?;
    let spelled = spelled(alloc)?;
    assert_eq!(rt; spelled.as_slice(), listed.as_slice());
    Ok(())
}
