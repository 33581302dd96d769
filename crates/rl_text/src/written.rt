//! Listings of values, appended to bytes. A type says its tree by `Written`; a row of parts is a tuple, which says its trees by
//! `WrittenParts`; `write_node` puts the brackets and a word around a row. A writer allocates for its output alone.

ghost use Rattle.std.specs.Prelude.{◌≡◌, [], ◌∷◌, ◌+◌, ◌≤◌, ◌++◌, length, take, drop, map, IfOk, OnOk};
ghost use Rattle.rl_text.specs.Notation.{Tree, Node, Listed, Said, Count, Flag, Absent, Parts, End, Then, IsWord, IsWritable, AreWritable, spelling};
ghost use Rattle.rl_text.specs.Number.{numeral};
ghost use Rattle.rl_text.specs.Raw.{tree, parts_of};
ghost use Rattle.rl_text.specs.Spaced as spec;

use crate::quoted::{write_dotted, write_quoted};
use crate::raw::Raw;
use crate::read::{TextError, read_raw};
use crate::span::{LONGEST_SPAN, write_span};
use crate::write::write_number;
use itoa::Buffer;
use rl_base::error::OutOfMemory;
use rl_base::ids::{
    BlockId, EvaluationOrder, IdentifierId, InstructionId, NodeId, SymbolId, TypeId,
};
use rl_base::list::List;
use rl_base::number::WholeNumber;
use rl_base::span::Span;
use rl_base::text::Text;
use std::alloc::Global;
use std::marker::PhantomData;

/// A value that is listed as one tree.
pub trait Written {
    /// The tree of a value.
    ghost shown: { Self → Tree };

    /// Appends the spelling of the value's tree. On `OutOfMemory` an allocation failed, and `out` may hold a part of it.
    fn write(&self, out: &mut Vec<u8>) -> Result<(), OutOfMemory>
        ensures written { OnOk result (out.new.items ≡ out.old.items ++ spelling (shown self.now)) }
        ensures writable { OnOk result (IsWritable (shown self.now)) };
}

/// Values that are listed as trees in a row.
pub trait WrittenParts {
    /// The trees of the values, in order.
    ghost parts: { Self → Parts };

    /// Appends each tree behind a space. On `OutOfMemory` an allocation failed, and `out` may hold a part of them.
    fn write_parts(&self, out: &mut Vec<u8>) -> Result<(), OutOfMemory>
        ensures written { OnOk result (out.new.items ≡ out.old.items ++ spec.spaced (parts self.now)) }
        ensures writable { OnOk result (AreWritable (parts self.now)) };
}

/// A way to list values of `T`, for a type that is listed in several ways.
pub trait Shows<T> {
    /// The tree of a value.
    ghost shows: { T → Tree };

    /// Appends the spelling of the value's tree. On `OutOfMemory` an allocation failed, and `out` may hold a part of it.
    fn write_shown(item: &T, out: &mut Vec<u8>) -> Result<(), OutOfMemory>
        ensures written { OnOk result (out.new.items ≡ out.old.items ++ spelling (shows item.now)) }
        ensures writable { OnOk result (IsWritable (shows item.now)) };
}

/// Appends a node: its word, and its parts. On `OutOfMemory` an allocation failed, and `out` may hold a part of it.
#[tactic(auto, using(crate::proofs::Tails::node_written))]
pub fn write_node<P: WrittenParts>(
    word: &str,
    parts: &P,
    out: &mut Vec<u8>,
) -> Result<(), OutOfMemory>
    requires { IsWord word.now }
    ensures written { OnOk result (out.new.items ≡ out.old.items ++ spelling (Node word.now (P.parts parts.now))) }
    ensures writable { OnOk result (IsWritable (Node word.now (P.parts parts.now))) }
{
    out.push(b'(')?;
    out.extend_from_slice(word.as_bytes())?;
    parts.write_parts(out)?;
    out.push(b')')?;
    Ok(())
}

/// Appends a part behind a space. On `OutOfMemory` an allocation failed, and `out` may hold a part of it.
pub fn write_part<T: Written>(item: &T, out: &mut Vec<u8>) -> Result<(), OutOfMemory>
    ensures written { OnOk result (out.new.items ≡ out.old.items ++ 32 ∷ spelling (T.shown item.now)) }
    ensures writable { OnOk result (IsWritable (T.shown item.now)) }
{
    out.push(b' ')?;
    item.write(out)
}

impl WrittenParts for () {
    ghost parts = { λ _. End };

    fn write_parts(&self, _out: &mut Vec<u8>) -> Result<(), OutOfMemory> {
        Ok(())
    }
}

impl<A: Written> WrittenParts for (A,) {
    ghost parts = { λ p. Then (A.shown p.0) End };

    fn write_parts(&self, out: &mut Vec<u8>) -> Result<(), OutOfMemory> {
        write_part(&self.0, out)
    }
}

impl<A: Written, B: Written> WrittenParts for (A, B) {
    ghost parts = { λ p. Then (A.shown p.0) (Then (B.shown p.1) End) };

    fn write_parts(&self, out: &mut Vec<u8>) -> Result<(), OutOfMemory> {
        write_part(&self.0, out)?;
        write_part(&self.1, out)
    }
}

impl<A: Written, B: Written, C: Written> WrittenParts for (A, B, C) {
    ghost parts = { λ p. Then (A.shown p.0) (Then (B.shown p.1) (Then (C.shown p.2) End)) };

    fn write_parts(&self, out: &mut Vec<u8>) -> Result<(), OutOfMemory> {
        write_part(&self.0, out)?;
        write_part(&self.1, out)?;
        write_part(&self.2, out)
    }
}

impl<A: Written, B: Written, C: Written, D: Written> WrittenParts for (A, B, C, D) {
    ghost parts = { λ p. Then (A.shown p.0) (Then (B.shown p.1) (Then (C.shown p.2) (Then (D.shown p.3) End))) };

    fn write_parts(&self, out: &mut Vec<u8>) -> Result<(), OutOfMemory> {
        write_part(&self.0, out)?;
        write_part(&self.1, out)?;
        write_part(&self.2, out)?;
        write_part(&self.3, out)
    }
}

impl<A: Written, B: Written, C: Written, D: Written, E: Written> WrittenParts for (A, B, C, D, E) {
    ghost parts = { λ p. Then (A.shown p.0) (Then (B.shown p.1) (Then (C.shown p.2) (Then (D.shown p.3) (Then (E.shown p.4) End)))) };

    fn write_parts(&self, out: &mut Vec<u8>) -> Result<(), OutOfMemory> {
        write_part(&self.0, out)?;
        write_part(&self.1, out)?;
        write_part(&self.2, out)?;
        write_part(&self.3, out)?;
        write_part(&self.4, out)
    }
}

impl<A: Written, B: Written, C: Written, D: Written, E: Written, F: Written> WrittenParts
    for (A, B, C, D, E, F) {
    ghost parts = { λ p. Then (A.shown p.0) (Then (B.shown p.1) (Then (C.shown p.2) (Then (D.shown p.3) (Then (E.shown p.4) (Then (F.shown p.5) End))))) };

    fn write_parts(&self, out: &mut Vec<u8>) -> Result<(), OutOfMemory> {
        write_part(&self.0, out)?;
        write_part(&self.1, out)?;
        write_part(&self.2, out)?;
        write_part(&self.3, out)?;
        write_part(&self.4, out)?;
        write_part(&self.5, out)
    }
}

/// Two rows as one, for a row of more than six parts.
#[derive(Drop)]
pub struct Both<P, Q>(pub P, pub Q);

impl<P: WrittenParts, Q: WrittenParts> WrittenParts for Both<P, Q> {
    ghost parts = { λ both. spec.join (P.parts both.0) (Q.parts both.1) };

    #[tactic(auto, using(crate::proofs::Tails::both_written, crate::proofs::Tails::both_writable))]
    fn write_parts(&self, out: &mut Vec<u8>) -> Result<(), OutOfMemory> {
        self.0.write_parts(out)?;
        self.1.write_parts(out)?;
        Ok(())
    }
}

impl<T: Written> Written for &T {
    ghost shown = { λ item. T.shown item.now };

    fn write(&self, out: &mut Vec<u8>) -> Result<(), OutOfMemory> {
        (**self).write(out)
    }
}

impl Written for WholeNumber {
    ghost shown = { λ number. Count number };

    fn write(&self, out: &mut Vec<u8>) -> Result<(), OutOfMemory> {
        write_number(self.get(), out)
    }
}

impl Written for u32 {
    ghost shown = { λ number. Count number };

    fn write(&self, out: &mut Vec<u8>) -> Result<(), OutOfMemory> {
        write_number(u64::from(*self), out)
    }
}

impl Written for bool {
    ghost shown = { λ flag. Flag flag };

    fn write(&self, out: &mut Vec<u8>) -> Result<(), OutOfMemory> {
        out.push(if *self { b'y' } else { b'n' })?;
        Ok(())
    }
}

/// Appends a text in quotes.
fn write_text(text: &str, out: &mut Vec<u8>) -> Result<(), OutOfMemory>
    ensures written { OnOk result (out.new.items ≡ out.old.items ++ spelling (Said text.now)) }
    ensures writable { OnOk result (IsWritable (Said text.now)) }
{
    write_quoted(text.as_bytes(), out)
}

impl Written for Text {
    ghost shown = { λ text. Said text };

    fn write(&self, out: &mut Vec<u8>) -> Result<(), OutOfMemory> {
        write_text(self.as_str(), out)
    }
}

/// A text of the program's own, in quotes.
#[derive(Drop)]
pub struct Literal<'a>(pub &'a str);

impl<'a> Written for Literal<'a> {
    ghost shown = { λ literal. Said literal.0.now };

    fn write(&self, out: &mut Vec<u8>) -> Result<(), OutOfMemory> {
        write_text(self.0, out)
    }
}

/// A text behind a dot, in quotes.
#[derive(Drop)]
pub struct Dotted<'a>(pub &'a Text);

impl<'a> Written for Dotted<'a> {
    ghost shown = { λ dotted. Said (46 ∷ dotted.0.now) };

    #[tactic(auto, using(crate::proofs::Quotes::dotted_utf8))]
    fn write(&self, out: &mut Vec<u8>) -> Result<(), OutOfMemory> {
        write_dotted(self.0.as_str().as_bytes(), out)
    }
}

/// A number in decimal digits, in quotes.
#[derive(Drop)]
pub struct Decimal(pub u32);

impl Written for Decimal {
    ghost shown = { λ decimal. Said (numeral decimal.0) };

    #[tactic(auto, using(crate::proofs::Digits::numerals))]
    fn write(&self, out: &mut Vec<u8>) -> Result<(), OutOfMemory> {
        let mut digits = Buffer::new();
        write_text(digits.format(u64::from(self.0)), out)
    }
}

impl<T: Written> Written for Option<T> {
    ghost shown = { spec.optional T.shown };

    fn write(&self, out: &mut Vec<u8>) -> Result<(), OutOfMemory> {
        match self {
            Some(item) => item.write(out),
            None => {
                out.push(b'-')?;
                Ok(())
            }
        }
    }
}

/// The empty list.
#[derive(Drop)]
pub struct Nothing;

impl Written for Nothing {
    ghost shown = { λ _. Listed End };

    fn write(&self, out: &mut Vec<u8>) -> Result<(), OutOfMemory> {
        out.extend_from_slice(b"[]")?;
        Ok(())
    }
}

/// A list of a first part and a row of others.
#[derive(Drop)]
pub struct Listing<A, P>(pub A, pub P);

impl<A: Written, P: WrittenParts> Written for Listing<A, P> {
    ghost shown = { λ list. Listed (Then (A.shown list.0) (P.parts list.1)) };

    #[tactic(auto, using(crate::proofs::Tails::list_written))]
    fn write(&self, out: &mut Vec<u8>) -> Result<(), OutOfMemory> {
        out.push(b'[')?;
        self.0.write(out)?;
        self.1.write_parts(out)?;
        out.push(b']')?;
        Ok(())
    }
}

/// Puts brackets around the parts that `out` holds from the byte offset `start` on, each behind a space.
fn bracket(start: usize, out: &mut Vec<u8>) -> Result<(), OutOfMemory>
    requires { start ≤ length out.old.items }
    ensures { OnOk result (out.new.items ≡ take start out.old.items ++ 91 ∷ (drop (start + 1) out.old.items ++ 93 ∷ [])) }
{
    if start < out.len() {
        out[start] = b'[';
        out.push(b']')?;
        return Ok(());
    }
    out.extend_from_slice(b"[]")?;
    Ok(())
}

/// A row as one list.
#[derive(Drop)]
pub struct Bracketed<P>(pub P);

impl<P: WrittenParts> Written for Bracketed<P> {
    ghost shown = { λ row. Listed (P.parts row.0) };

    #[tactic(auto, using(crate::proofs::Tails::bracketed))]
    fn write(&self, out: &mut Vec<u8>) -> Result<(), OutOfMemory> {
        let start = out.len();
        self.0.write_parts(out)?;
        bracket(start, out)?;
        Ok(())
    }
}

/// Appends items with a space between, and one in front of the first if `apart`.
fn write_items<V: Shows<T>, T>(
    items: &[T],
    apart: bool,
    out: &mut Vec<u8>,
) -> Result<(), OutOfMemory>
    ensures written { OnOk result (out.new.items ≡ out.old.items ++ spec.separated apart (parts_of (map V.shows items.now))) }
    ensures writable { OnOk result (AreWritable (parts_of (map V.shows items.now))) }
{
    let mut spaced = apart;
    'items: for item in items {
        if spaced {
            out.push(b' ')?;
        }
        spaced = true;
        V::write_shown(item, out)?;
    }
    Ok(())
}

/// Appends a list of items.
#[tactic(auto, using(crate::proofs::Tails::items_written))]
fn write_list<V: Shows<T>, T>(items: &[T], out: &mut Vec<u8>) -> Result<(), OutOfMemory>
    ensures written { OnOk result (out.new.items ≡ out.old.items ++ spelling (Listed (parts_of (map V.shows items.now)))) }
    ensures writable { OnOk result (IsWritable (Listed (parts_of (map V.shows items.now)))) }
{
    out.push(b'[')?;
    write_items::<V, T>(items, false, out)?;
    out.push(b']')?;
    Ok(())
}

/// The way to list values that are listed in one way: as `Written` says.
struct Plain;

impl<T: Written> Shows<T> for Plain {
    ghost shows = { T.shown };

    fn write_shown(item: &T, out: &mut Vec<u8>) -> Result<(), OutOfMemory> {
        item.write(out)
    }
}

impl<T: Written> Written for List<T> {
    ghost shown = { λ items. Listed (parts_of (map T.shown items)) };

    fn write(&self, out: &mut Vec<u8>) -> Result<(), OutOfMemory> {
        write_list::<Plain, T>(self.as_slice(), out)
    }
}

/// Items as `V` lists them: a list, or its items as a row of parts.
#[derive(Drop)]
pub struct Each<'a, V, T> {
    items: &'a List<T>,
    way: PhantomData<V>,
}

impl<'a, V: Shows<T>, T> Each<'a, V, T> {
    /// The items of a list, as `V` lists them.
    pub fn of(items: &'a List<T>) -> Each<'a, V, T>
        ensures { result.items.now ≡ items.now }
    {
        Each {
            items,
            way: PhantomData,
        }
    }
}

impl<'a, V: Shows<T>, T> Written for Each<'a, V, T> {
    ghost shown = { λ each. Listed (parts_of (map V.shows each.items.now)) };

    fn write(&self, out: &mut Vec<u8>) -> Result<(), OutOfMemory> {
        write_list::<V, T>(self.items.as_slice(), out)
    }
}

impl<'a, V: Shows<T>, T> WrittenParts for Each<'a, V, T> {
    ghost parts = { λ each. parts_of (map V.shows each.items.now) };

    fn write_parts(&self, out: &mut Vec<u8>) -> Result<(), OutOfMemory> {
        write_items::<V, T>(self.items.as_slice(), true, out)
    }
}

impl Written for Span {
    ghost shown = { spec.span };

    fn write(&self, out: &mut Vec<u8>) -> Result<(), OutOfMemory> {
        let mut buffer = [0; LONGEST_SPAN];
        let start = write_span(*self, &mut buffer);
        out.extend_from_slice(&buffer[start..])?;
        Ok(())
    }
}

impl Written for NodeId {
    ghost shown = { λ id. Count id.0 };

    fn write(&self, out: &mut Vec<u8>) -> Result<(), OutOfMemory> {
        self.0.write(out)
    }
}

impl Written for SymbolId {
    ghost shown = { λ id. Count id.0 };

    fn write(&self, out: &mut Vec<u8>) -> Result<(), OutOfMemory> {
        self.0.write(out)
    }
}

impl Written for BlockId {
    ghost shown = { λ id. Count id.0 };

    fn write(&self, out: &mut Vec<u8>) -> Result<(), OutOfMemory> {
        self.0.write(out)
    }
}

impl Written for IdentifierId {
    ghost shown = { λ id. Count id.0 };

    fn write(&self, out: &mut Vec<u8>) -> Result<(), OutOfMemory> {
        self.0.write(out)
    }
}

impl Written for InstructionId {
    ghost shown = { λ id. Count id.0 };

    fn write(&self, out: &mut Vec<u8>) -> Result<(), OutOfMemory> {
        self.0.write(out)
    }
}

impl Written for TypeId {
    ghost shown = { λ id. Count id.0 };

    fn write(&self, out: &mut Vec<u8>) -> Result<(), OutOfMemory> {
        self.0.write(out)
    }
}

impl Written for EvaluationOrder {
    ghost shown = { λ id. Count id.0 };

    fn write(&self, out: &mut Vec<u8>) -> Result<(), OutOfMemory> {
        self.0.write(out)
    }
}

/// The tree of a value, read back from its spelling. On `OutOfMemory` an allocation failed.
pub fn tree_of<T: Written>(alloc: Global, item: &T) -> Result<Raw, OutOfMemory>
    ensures { IfOk result (λ raw. tree raw ≡ T.shown item.now) }
{
    let mut bytes = Vec::new(alloc);
    item.write(&mut bytes)?;
    match read_raw(alloc, bytes.as_slice()) {
        Ok(raw) => Ok(raw),
        Err(TextError::OutOfMemory) => Err(OutOfMemory),
        Err(TextError::Malformed) => unreachable!(),
    }
}
