//! Listings: results as trees of the notation, in bytes. Each type appends the spelling of its tree.

ghost use Rattle.std.specs.Prelude.{◌≡◌, ◌++◌, false, map, IfOk, OnOk};
ghost use Rattle.rl_text.specs.Notation.{AreWritable, IsWritable, spelling};
ghost use Rattle.rl_text.specs.Raw.{parts_of, tree};
ghost use Rattle.rl_text.specs.Spaced.{separated};
ghost use Rattle.rl_hir.specs.Listing as spec;

use crate::blocks::{Blocks, GraphBlocks, MapBlocks};
use crate::dense_blocks::DenseBlocks;
use crate::function::{
    BasicBlock, BlockKind, HirFunction, Identifier, IdentifierName, InnerFunction, Lowered, Pair,
    Param, ReactFunctionType,
};
use crate::instruction::Instruction;
use rl_base::error::OutOfMemory;
use rl_base::ids::BlockId;
use rl_text::raw::Raw;
use rl_text::written::{Both, Literal, Written, tree_of, write_node};
use std::alloc::Global;

impl Written for Instruction {
    ghost shown = { spec.instruction };

    fn write(&self, out: &mut Vec<u8>) -> Result<(), OutOfMemory> {
        let parts = (self.order, self.lvalue, self.span, &self.value);
        write_node("i", &parts, out)
    }
}

impl BlockKind {
    /// The word of the kind in a listing.
    fn word(self) -> &'static str
        ensures { result.now ≡ spec.block_kind self }
    {
        match self {
            BlockKind::Block => "block",
            BlockKind::Value => "value",
            BlockKind::Loop => "loop",
            BlockKind::Sequence => "sequence",
            BlockKind::Catch => "catch",
        }
    }
}

/// Appends the listing of a block. On `OutOfMemory` an allocation failed, and `out` may hold a part of it.
fn write_block(id: BlockId, block: &BasicBlock, out: &mut Vec<u8>) -> Result<(), OutOfMemory>
    ensures written { OnOk result (out.new.items ≡ out.old.items ++ spelling (spec.block (id, block.now))) }
    ensures writable { OnOk result (IsWritable (spec.block (id, block.now))) }
{
    let parts = (
        id,
        Literal(block.kind.word()),
        &block.instructions,
        &block.terminal,
        &block.preds,
    );
    write_node("block", &parts, out)
}

/// Appends the listings of blocks with a space between. On `OutOfMemory` an allocation failed, and `out` may hold a part of them.
fn write_blocks<B: Blocks>(blocks: &B, out: &mut Vec<u8>) -> Result<(), OutOfMemory>
    ensures written { OnOk result (out.new.items ≡ out.old.items ++ separated false (parts_of (map spec.block (B.pairs blocks.now)))) }
    ensures writable { OnOk result (AreWritable (parts_of (map spec.block (B.pairs blocks.now)))) }
{
    let mut spaced = false;
    for index in 0..blocks.len() {
        if spaced {
            out.push(b' ')?;
        }
        spaced = true;
        let (id, block) = blocks.at(index);
        write_block(id, block, out)?;
    }
    Ok(())
}

/// Appends the listing of a table: of its blocks, in order. On `OutOfMemory` an allocation failed, and `out` may hold a part of it.
#[tactic(auto, using(rl_text::proofs::Tails::items_written))]
fn write_table<B: Blocks>(blocks: &B, out: &mut Vec<u8>) -> Result<(), OutOfMemory>
    ensures written { OnOk result (out.new.items ≡ out.old.items ++ spelling (spec.list spec.block (B.pairs blocks.now))) }
    ensures writable { OnOk result (IsWritable (spec.list spec.block (B.pairs blocks.now))) }
{
    out.push(b'[')?;
    write_blocks(blocks, out)?;
    out.push(b']')?;
    Ok(())
}

impl Written for MapBlocks {
    ghost shown = { spec.list spec.block };

    fn write(&self, out: &mut Vec<u8>) -> Result<(), OutOfMemory> {
        write_table(self, out)
    }
}

impl Written for DenseBlocks {
    ghost shown = { spec.list spec.block };

    fn write(&self, out: &mut Vec<u8>) -> Result<(), OutOfMemory> {
        write_table(self, out)
    }
}

impl ReactFunctionType {
    /// The word of the type in a listing.
    fn word(self) -> &'static str
        ensures { result.now ≡ spec.function_type self }
    {
        match self {
            ReactFunctionType::Component => "component",
            ReactFunctionType::Hook => "hook",
            ReactFunctionType::Other => "other",
        }
    }
}

impl Written for Param {
    ghost shown = { spec.param };

    fn write(&self, out: &mut Vec<u8>) -> Result<(), OutOfMemory> {
        match self {
            Param::Place(place) => place.write(out),
            Param::Spread(place) => write_node("spread", &(place,), out),
        }
    }
}

impl Written for HirFunction<GraphBlocks> {
    ghost shown = { spec.function };

    fn write(&self, out: &mut Vec<u8>) -> Result<(), OutOfMemory> {
        let head = (
            self.span,
            &self.name,
            Literal(self.fn_type.word()),
            self.generator,
            self.is_async,
            &self.directives,
        );
        let tables = (
            &self.params,
            &self.context,
            self.returns,
            self.body.entry,
            &self.body.blocks,
            &self.instructions,
        );
        write_node("fn", &Both(head, tables), out)
    }
}

impl Written for InnerFunction {
    ghost shown = { spec.inner };

    fn write(&self, out: &mut Vec<u8>) -> Result<(), OutOfMemory> {
        write_node("inner", &(self.node, &self.function), out)
    }
}

impl Written for IdentifierName {
    ghost shown = { spec.name };

    fn write(&self, out: &mut Vec<u8>) -> Result<(), OutOfMemory> {
        match self {
            IdentifierName::Named(text) => write_node("named", &(text,), out),
            IdentifierName::Promoted(text) => write_node("promoted", &(text,), out),
        }
    }
}

impl Written for Identifier {
    ghost shown = { spec.identifier };

    fn write(&self, out: &mut Vec<u8>) -> Result<(), OutOfMemory> {
        write_node("ident", &(&self.name, self.span, self.type_id), out)
    }
}

impl Written for Pair {
    ghost shown = { spec.pair };

    fn write(&self, out: &mut Vec<u8>) -> Result<(), OutOfMemory> {
        write_node("pair", &(self.symbol, self.identifier), out)
    }
}

impl Written for Lowered {
    ghost shown = { spec.lowered };

    #[tactic(auto, unfolding(crate::specs::Listing::lowered))]
    fn write(&self, out: &mut Vec<u8>) -> Result<(), OutOfMemory> {
        let parts = (&self.function, &self.inner, &self.identifiers, &self.pairs);
        write_node("lowered", &parts, out)
    }
}

/// Appends the listing of a result: the spelling of its tree. On `OutOfMemory` an allocation failed, and `out` may hold a part
/// of it.
#[tactic(auto, using(crate::proofs::ReadBack::only_result))]
pub fn write_listing(lowered: &Lowered, out: &mut Vec<u8>) -> Result<(), OutOfMemory>
    ensures listed { OnOk result (out.new.items ≡ out.old.items ++ spelling (spec.lowered lowered.now)) }
    ensures unique { spec.IsOnlyResult lowered.now }
{
    lowered.write(out)
}

/// The listing of a result as a tree. On `OutOfMemory` an allocation failed, and nothing is kept.
#[tactic(auto, using(crate::proofs::ReadBack::only_result))]
pub fn listing(alloc: Global, lowered: &Lowered) -> Result<Raw, OutOfMemory>
    ensures listed { IfOk result (λ raw. tree raw ≡ spec.lowered lowered.now) }
    ensures unique { spec.IsOnlyResult lowered.now }
{
    tree_of(alloc, lowered)
}
