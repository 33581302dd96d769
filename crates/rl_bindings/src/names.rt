//! Names that a unit declares or uses, by number.

ghost use Rattle.std.specs.Prelude.{◌≡◌, ◌∷◌, [], Some, map, MatchOption, IfOk, OnOk};
ghost use Rattle.rl_bindings.specs.Names.{add_name, add_names, number_of, said};
ghost use Rattle.rl_bindings.specs.Walks.{IsNumber};
ghost use Rattle.rl_syntax.specs.Syntax.{Said, Pieces, Then, pieces_of, syntax};

use rl_base::error::OutOfMemory;
use rl_base::name_table::{NameTable, Named};
use rl_base::text::Text;
use rl_syntax::numbered::Numbered;
use std::alloc::Global;

/// A name that the unit declares or uses.
#[derive(Drop)]
pub struct Name {
    /// The name, in UTF-8.
    pub text: Text,
}

impl Named for Name {
    ghost name = { λ name. name.text };

    fn name(&self) -> &str {
        self.text.as_str()
    }
}

/// Adds a name, if it is new, and returns its number. On `OutOfMemory`, an allocation failed.
#[tactic(auto, using(crate::proofs::AddedNames::number_last))]
fn find_or_add(
    alloc: Global,
    names: &mut NameTable<Name>,
    text: &Text,
) -> Result<usize, OutOfMemory>
    ensures names { OnOk result (names.new ≡ add_name names.old text.now) }
    ensures number { IfOk result (λ number. number_of names.new text.now ≡ Some number) }
{
    if let Some(number) = names.find(text.as_str()) {
        return Ok(number);
    }
    let number = names.len();
    let name = Name {
        text: text.copy(alloc)?,
    };
    names.insert_new(alloc, name)?;
    Ok(number)
}

/// The text of a part. `None` at any other part.
#[tactic(auto, using(rl_syntax::proofs::Layers::by_layer))]
fn text_of(part: &Numbered) -> Option<&Text>
    ensures { MatchOption result ((rest : Pieces) → said (Then (syntax part.now) rest) ≡ []) (λ t. syntax part.now ≡ Said t.now) }
{
    match part {
        Numbered::Text(text) => Some(text),
        Numbered::Node(_, _, _) => None,
        Numbered::List(_) => None,
        Numbered::Number(_) => None,
        Numbered::Flag(_) => None,
        Numbered::Absent => None,
    }
}

/// The name that a `bind` or `id` node with these parts says. `None` at other parts.
pub(crate) fn said(parts: &[Numbered]) -> Option<&Text>
    ensures { MatchOption result (said (pieces_of (map syntax parts.now)) ≡ []) (λ t. said (pieces_of (map syntax parts.now)) ≡ t.now ∷ []) }
{
    match parts {
        [first, ..] => text_of(first),
        [] => None,
    }
}

/// Adds the name that a `bind` or `id` node with these parts says, if it is new, and returns its number; 0 where the parts say
/// none. On `OutOfMemory`, an allocation failed, or the number would not fit a `u32`.
#[tactic(auto, using(crate::proofs::AddedNames::none_numbered, crate::proofs::AddedNames::text_numbered))]
pub(crate) fn add_said(
    alloc: Global,
    names: &mut NameTable<Name>,
    parts: &[Numbered],
) -> Result<u32, OutOfMemory>
    ensures names { OnOk result (names.new ≡ add_names names.old (said (pieces_of (map syntax parts.now)))) }
    ensures number { IfOk result (λ number. IsNumber names.new (said (pieces_of (map syntax parts.now))) number) }
{
    match said(parts) {
        Some(text) => {
            let number = find_or_add(alloc, names, text)?;
            match u32::try_from(number) {
                Ok(number) => Ok(number),
                Err(_) => Err(OutOfMemory),
            }
        }
        None => Ok(0),
    }
}
