//! The row F26: a tag as `fbt:enum` that stands more than once in an `fbt` or `fbs` element.

ghost use Rattle.std.specs.Prelude.{◌≡◌, ◌++◌, IfOk, OnOk, map, option_map};
ghost use Rattle.rl_code.specs.Parts as shapes;
ghost use Rattle.rl_model.specs.Fbt as model;
ghost use Rattle.rl_rows.specs.Finds as spec;
ghost use Rattle.rl_syntax.specs.Syntax.{pieces_of, syntax};

use rl_base::error::OutOfMemory;
use rl_base::text::Text;
use rl_code::parts::{first, said_only};
use rl_code::role::{Part, part_at};
use rl_row_forms::forms::{first_two, fourth, items_in, node_in, said_in, said_pair};
use rl_row_names::names::is_fbt;
use rl_syntax::numbered::Numbered;
use rl_syntax::parts::split_first;
use rl_syntax::word::Word;
use std::alloc::Global;

/// Parts of a node in which tags are looked for.
#[derive(Clone, Copy)]
pub enum Look {
    /// The tag, the children and the attributes of an element.
    Element,
    /// A single part.
    Part(Part),
    /// The value of an attribute.
    Attribute,
    /// The second and the third part.
    Branches,
    /// The body of an arrow function.
    Arrow,
    /// None.
    Nothing,
}

/// The parts in which tags are looked for, by the word of the node.
fn look_of(word: Word) -> Look
    ensures { result ≡ spec.look_of word }
{
    match word {
        Word::Element => Look::Element,
        Word::Fragment => Look::Part(Part::Only),
        Word::Container => Look::Part(Part::Only),
        Word::Paren => Look::Part(Part::Only),
        Word::Attr => Look::Attribute,
        Word::Cond => Look::Branches,
        Word::Logical => Look::Branches,
        Word::Call => Look::Part(Part::Last),
        Word::Arrow => Look::Arrow,
        _ => Look::Nothing,
    }
}

/// The two parts. `None` where there are more or fewer.
fn pair_of(parts: &[Numbered]) -> Option<(&Numbered, &Numbered)>
    ensures { option_map (λ p. (syntax p.0.now, syntax p.1.now)) result ≡ shapes.both (pieces_of (map syntax parts.now)) }
{
    let (first, parts) = split_first(parts)?;
    let (second, parts) = split_first(parts)?;
    match split_first(parts) {
        Some(_) => None,
        None => Some((first, second)),
    }
}

/// The tag and the attributes of an opening, by its word. `None` of any other node.
fn opening_of(word: Word, parts: &[Numbered]) -> Option<(&Numbered, &Numbered)>
    ensures { option_map (λ p. (syntax p.0.now, syntax p.1.now)) result ≡ spec.opening_of word (pieces_of (map syntax parts.now)) }
{
    match word {
        Word::Opening => pair_of(parts),
        _ => None,
    }
}

/// The tag and the attributes of an opening. `None` of any other tree.
#[tactic(auto, using(rl_row_forms::proofs::Shaped::by_item))]
fn opening_in(opening: &Numbered) -> Option<(&Numbered, &Numbered)>
    ensures { option_map (λ p. (syntax p.0.now, syntax p.1.now)) result ≡ spec.opening_in (syntax opening.now) }
{
    match node_in(opening) {
        Some((_, word, parts)) => opening_of(word, parts),
        None => None,
    }
}

/// The items of the second of two parts, if it is a list.
#[tactic(auto, using(crate::proofs::Found::lists))]
fn second_items(parts: &[Numbered]) -> Option<&[Numbered]>
    ensures { option_map (λ items. pieces_of (map syntax items.now)) result ≡ spec.second_items (pieces_of (map syntax parts.now)) }
{
    match pair_of(parts) {
        Some((_, second)) => items_in(second),
        None => None,
    }
}

/// The statements of a body, by its word. `None` of any other node.
fn statements_of(word: Word, parts: &[Numbered]) -> Option<&[Numbered]>
    ensures { option_map (λ items. pieces_of (map syntax items.now)) result ≡ spec.statements_of word (pieces_of (map syntax parts.now)) }
{
    match word {
        Word::Body => second_items(parts),
        _ => None,
    }
}

/// The statements of a body. `None` of any other tree.
#[tactic(auto, using(rl_row_forms::proofs::Shaped::by_item))]
fn statements_in(body: &Numbered) -> Option<&[Numbered]>
    ensures { option_map (λ items. pieces_of (map syntax items.now)) result ≡ spec.statements_in (syntax body.now) }
{
    match node_in(body) {
        Some((_, word, parts)) => statements_of(word, parts),
        None => None,
    }
}

/// The expression that a statement returns or is, by its word. `None` of any other node.
fn returned_of(word: Word, parts: &[Numbered]) -> Option<&Numbered>
    ensures { option_map (λ t. syntax t.now) result ≡ spec.returned_of word (pieces_of (map syntax parts.now)) }
{
    match word {
        Word::Return => part_at(Part::Only, parts),
        Word::Expr => part_at(Part::Only, parts),
        _ => None,
    }
}

/// The expression that a statement returns or is. `None` of any other tree.
#[tactic(auto, using(rl_row_forms::proofs::Shaped::by_item))]
fn returned_in(statement: &Numbered) -> Option<&Numbered>
    ensures { option_map (λ t. syntax t.now) result ≡ spec.returned_in (syntax statement.now) }
{
    match node_in(statement) {
        Some((_, word, parts)) => returned_of(word, parts),
        None => None,
    }
}

/// True of the word of a fragment.
fn is_fragment_word(word: Word) -> bool
    ensures { result ≡ spec.is_fragment_word word }
{
    match word {
        Word::Fragment => true,
        _ => false,
    }
}

/// True of a fragment.
#[tactic(auto, using(rl_row_forms::proofs::Shaped::by_item))]
fn is_fragment(value: &Numbered) -> bool
    ensures { result ≡ spec.is_fragment (syntax value.now) }
{
    match node_in(value) {
        Some((_, word, _)) => is_fragment_word(word),
        None => false,
    }
}

/// Appends a name, if the namespaces are the same. On `OutOfMemory`, an allocation failed.
#[tactic(auto, using(crate::proofs::Found::names))]
fn push_same<'t>(
    out: &mut Vec<&'t Text>,
    namespace: &Text,
    first: &Text,
    name: &'t Text,
) -> Result<(), OutOfMemory>
    ensures { OnOk result (map (λ t. t.now) out.new.items ≡ map (λ t. t.now) out.old.items ++ spec.same_named namespace.now first.now name.now) }
{
    if first.as_str() == namespace.as_str() {
        out.push(name)?;
        return Ok(());
    }
    Ok(())
}

/// Two texts. `None` where the first part or the second is none.
#[tactic(auto, using(rl_row_forms::proofs::Shaped::by_item))]
fn two_said<'t>(first: &'t Text, second: &'t Numbered) -> Option<(&'t Text, &'t Text)>
    ensures { option_map (λ p. (p.0.now, p.1.now)) result ≡ spec.two_said first.now (syntax second.now) }
{
    match said_in(second) {
        Some(second) => Some((first, second)),
        None => None,
    }
}

/// The two parts, if both are texts.
#[tactic(auto, using(crate::proofs::Found::texts))]
fn said_both(parts: &[Numbered]) -> Option<(&Text, &Text)>
    ensures { option_map (λ p. (p.0.now, p.1.now)) result ≡ spec.said_both (pieces_of (map syntax parts.now)) }
{
    match said_pair(parts) {
        Some((first, second)) => two_said(first, second),
        None => None,
    }
}

/// The namespace and the name of a tag, by its word. `None` of any other node.
fn spaced_of(word: Word, parts: &[Numbered]) -> Option<(&Text, &Text)>
    ensures { option_map (λ p. (p.0.now, p.1.now)) result ≡ spec.spaced_of word (pieces_of (map syntax parts.now)) }
{
    match word {
        Word::Tagns => said_both(parts),
        _ => None,
    }
}

/// The namespace and the name of a tag. `None` of any other tree.
#[tactic(auto, using(rl_row_forms::proofs::Shaped::by_item))]
fn spaced_in(tag: &Numbered) -> Option<(&Text, &Text)>
    ensures { option_map (λ p. (p.0.now, p.1.now)) result ≡ spec.spaced_in (syntax tag.now) }
{
    match node_in(tag) {
        Some((_, word, parts)) => spaced_of(word, parts),
        None => None,
    }
}

/// Appends the name of a tag, if its namespace is `namespace`. On `OutOfMemory`, an allocation failed.
#[tactic(auto, using(crate::proofs::Found::adding))]
fn push_name<'t>(
    out: &mut Vec<&'t Text>,
    namespace: &Text,
    tag: &'t Numbered,
) -> Result<(), OutOfMemory>
    ensures { OnOk result (map (λ t. t.now) out.new.items ≡ map (λ t. t.now) out.old.items ++ spec.named namespace.now (syntax tag.now)) }
{
    match spaced_in(tag) {
        Some((first, name)) => {
            push_same(out, namespace, first, name)?;
            Ok(())
        }
        None => Ok(()),
    }
}

/// Appends the tags of the namespace that are found in a child or an expression. On `OutOfMemory`, an allocation failed.
#[cycle(finding)]
#[tactic(auto, using(crate::proofs::Found::by_form, rl_syntax::proofs::Layers::by_layer))]
fn push_found<'t>(
    out: &mut Vec<&'t Text>,
    namespace: &Text,
    tree: &'t Numbered,
) -> Result<(), OutOfMemory>
    ensures { OnOk result (map (λ t. t.now) out.new.items ≡ map (λ t. t.now) out.old.items ++ model.found_in namespace.now (syntax tree.now)) }
{
    match tree {
        Numbered::Node(_, word, parts) => {
            push_by(out, namespace, look_of(*word), parts.as_slice())?;
            Ok(())
        }
        Numbered::List(parts) => {
            push_among(out, namespace, parts.as_slice())?;
            Ok(())
        }
        Numbered::Text(_) => Ok(()),
        Numbered::Number(_) => Ok(()),
        Numbered::Flag(_) => Ok(()),
        Numbered::Absent => Ok(()),
    }
}

/// As `push_found`, of a node by the parts in which tags are looked for. On `OutOfMemory`, an allocation failed.
#[cycle(finding)]
#[tactic(auto, using(crate::proofs::Found::adding, crate::proofs::Found::smaller, rl_code::proofs::Smaller::smaller))]
fn push_by<'t>(
    out: &mut Vec<&'t Text>,
    namespace: &Text,
    look: Look,
    parts: &'t [Numbered],
) -> Result<(), OutOfMemory>
    ensures { OnOk result (map (λ t. t.now) out.new.items ≡ map (λ t. t.now) out.old.items ++ spec.found_by namespace.now look (pieces_of (map syntax parts.now))) }
{
    match look {
        Look::Element => {
            push_parts(out, namespace, parts)?;
            Ok(())
        }
        Look::Part(part) => match part_at(part, parts) {
            Some(part) => {
                push_found(out, namespace, part)?;
                Ok(())
            }
            None => Ok(()),
        },
        Look::Attribute => match pair_of(parts) {
            Some((_, value)) => {
                push_value(out, namespace, value)?;
                Ok(())
            }
            None => Ok(()),
        },
        Look::Branches => match last_two(parts) {
            Some((first, second)) => {
                push_two(out, namespace, first, second)?;
                Ok(())
            }
            None => Ok(()),
        },
        Look::Arrow => match fourth(parts) {
            Some(body) => {
                push_body(out, namespace, body)?;
                Ok(())
            }
            None => Ok(()),
        },
        Look::Nothing => Ok(()),
    }
}

/// As `push_found`, of an element by its parts. On `OutOfMemory`, an allocation failed.
#[cycle(finding)]
#[tactic(auto, using(crate::proofs::Found::parts, crate::proofs::Found::smaller))]
fn push_parts<'t>(
    out: &mut Vec<&'t Text>,
    namespace: &Text,
    parts: &'t [Numbered],
) -> Result<(), OutOfMemory>
    ensures { OnOk result (map (λ t. t.now) out.new.items ≡ map (λ t. t.now) out.old.items ++ spec.found_in_parts namespace.now (pieces_of (map syntax parts.now))) }
{
    match first_two(parts) {
        Some((opening, children)) => {
            push_element(out, namespace, opening, children)?;
            Ok(())
        }
        None => Ok(()),
    }
}

/// As `push_found`, of an element. On `OutOfMemory`, an allocation failed.
#[cycle(finding)]
#[tactic(auto, using(crate::proofs::Found::opened, crate::proofs::Found::adding, crate::proofs::Found::smaller))]
fn push_element<'t>(
    out: &mut Vec<&'t Text>,
    namespace: &Text,
    opening: &'t Numbered,
    children: &'t Numbered,
) -> Result<(), OutOfMemory>
    ensures { OnOk result (map (λ t. t.now) out.new.items ≡ map (λ t. t.now) out.old.items ++ spec.found_in_element namespace.now (syntax opening.now) (syntax children.now)) }
{
    match opening_in(opening) {
        Some((tag, attributes)) => {
            push_name(out, namespace, tag)?;
            push_found(out, namespace, children)?;
            push_found(out, namespace, attributes)?;
            Ok(())
        }
        None => Ok(()),
    }
}

/// As `push_found`, of the value of an attribute. On `OutOfMemory`, an allocation failed.
#[cycle(finding)]
#[tactic(auto, using(crate::proofs::Found::values))]
fn push_value<'t>(
    out: &mut Vec<&'t Text>,
    namespace: &Text,
    value: &'t Numbered,
) -> Result<(), OutOfMemory>
    ensures { OnOk result (map (λ t. t.now) out.new.items ≡ map (λ t. t.now) out.old.items ++ spec.found_in_value namespace.now (syntax value.now)) }
{
    if is_fragment(value) {
        return Ok(());
    }
    push_found(out, namespace, value)?;
    Ok(())
}

/// As `push_found`, of two trees. On `OutOfMemory`, an allocation failed.
#[cycle(finding)]
#[tactic(auto, using(crate::proofs::Found::two))]
fn push_two<'t>(
    out: &mut Vec<&'t Text>,
    namespace: &Text,
    first: &'t Numbered,
    second: &'t Numbered,
) -> Result<(), OutOfMemory>
    ensures { OnOk result (map (λ t. t.now) out.new.items ≡ map (λ t. t.now) out.old.items ++ spec.found_in_two namespace.now (syntax first.now) (syntax second.now)) }
{
    push_found(out, namespace, first)?;
    push_found(out, namespace, second)?;
    Ok(())
}

/// As `push_found`, of the body of an arrow function. On `OutOfMemory`, an allocation failed.
#[cycle(finding)]
#[tactic(auto, using(crate::proofs::Found::adding, crate::proofs::Found::smaller))]
fn push_body<'t>(
    out: &mut Vec<&'t Text>,
    namespace: &Text,
    body: &'t Numbered,
) -> Result<(), OutOfMemory>
    ensures { OnOk result (map (λ t. t.now) out.new.items ≡ map (λ t. t.now) out.old.items ++ spec.found_in_body namespace.now (syntax body.now)) }
{
    match statements_in(body) {
        Some(statements) => {
            push_statements(out, namespace, statements)?;
            Ok(())
        }
        None => {
            push_found(out, namespace, body)?;
            Ok(())
        }
    }
}

/// As `push_found`, of a statement: what it returns, or the expression that it is. On `OutOfMemory`, an allocation failed.
#[cycle(finding)]
#[tactic(auto, using(crate::proofs::Found::adding, crate::proofs::Found::smaller))]
fn push_statement<'t>(
    out: &mut Vec<&'t Text>,
    namespace: &Text,
    statement: &'t Numbered,
) -> Result<(), OutOfMemory>
    ensures { OnOk result (map (λ t. t.now) out.new.items ≡ map (λ t. t.now) out.old.items ++ spec.found_returned namespace.now (syntax statement.now)) }
{
    match returned_in(statement) {
        Some(expression) => {
            push_found(out, namespace, expression)?;
            Ok(())
        }
        None => Ok(()),
    }
}

/// As `push_statement`, for statements in a row. On `OutOfMemory`, an allocation failed.
#[cycle(finding)]
fn push_statements<'t>(
    out: &mut Vec<&'t Text>,
    namespace: &Text,
    statements: &'t [Numbered],
) -> Result<(), OutOfMemory>
    ensures { OnOk result (map (λ t. t.now) out.new.items ≡ map (λ t. t.now) out.old.items ++ spec.found_among_statements namespace.now (pieces_of (map syntax statements.now))) }
{
    'statements: for statement in statements {
        push_statement(out, namespace, statement)?;
    }
    Ok(())
}

/// As `push_found`, for trees in a row. On `OutOfMemory`, an allocation failed.
#[cycle(finding)]
fn push_among<'t>(
    out: &mut Vec<&'t Text>,
    namespace: &Text,
    trees: &'t [Numbered],
) -> Result<(), OutOfMemory>
    ensures { OnOk result (map (λ t. t.now) out.new.items ≡ map (λ t. t.now) out.old.items ++ model.found_among namespace.now (pieces_of (map syntax trees.now))) }
{
    'trees: for tree in trees {
        push_found(out, namespace, tree)?;
    }
    Ok(())
}

/// The second and the third of three parts. `None` where there are more or fewer.
fn last_two(parts: &[Numbered]) -> Option<(&Numbered, &Numbered)>
    ensures { option_map (λ p. (syntax p.0.now, syntax p.1.now)) result ≡ spec.last_two (pieces_of (map syntax parts.now)) }
{
    let (_first, parts) = split_first(parts)?;
    let (second, parts) = split_first(parts)?;
    let (third, parts) = split_first(parts)?;
    match split_first(parts) {
        Some(_) => None,
        None => Some((second, third)),
    }
}

/// True of a name that stands at most once among the names.
#[tactic(auto, using(crate::proofs::Found::single))]
fn is_single(name: &str, found: &[&Text]) -> bool
    ensures { result ≡ model.is_single name.now (map (λ t. t.now) found.now) }
{
    let mut once = false;
    'found: for text in found {
        if name == text.as_str() {
            if once {
                return false;
            }
            once = true;
        }
    }
    true
}

/// True if each of the three names stands at most once among the names.
fn are_single(found: &[&Text]) -> bool
    ensures { result ≡ model.are_single (map (λ t. t.now) found.now) }
{
    is_single("enum", found) && is_single("plural", found) && is_single("pronoun", found)
}

/// The name of the tag of an element, by the word of the tag. `None` of any other node.
fn tag_name_of(word: Word, parts: &[Numbered]) -> Option<&Text>
    ensures { option_map (λ t. t.now) result ≡ spec.tag_name_of word (pieces_of (map syntax parts.now)) }
{
    match word {
        Word::Tag => said_only(parts),
        Word::Id => said_only(parts),
        _ => None,
    }
}

/// The name of the tag of an element. `None` of a tag of another form.
#[tactic(auto, using(rl_row_forms::proofs::Shaped::by_item))]
fn tag_name_in(tag: &Numbered) -> Option<&Text>
    ensures { option_map (λ t. t.now) result ≡ spec.tag_name_in (syntax tag.now) }
{
    match node_in(tag) {
        Some((_, word, parts)) => tag_name_of(word, parts),
        None => None,
    }
}

/// The name of the tag of an opening, by its parts.
#[tactic(auto, using(rl_row_forms::proofs::Shaped::by_item))]
fn first_tag_name(parts: &[Numbered]) -> Option<&Text>
    ensures { option_map (λ t. t.now) result ≡ spec.opening_name_of Word.Opening (pieces_of (map syntax parts.now)) }
{
    match first(parts) {
        Some(tag) => tag_name_in(tag),
        None => None,
    }
}

/// The name of the tag of an opening, by its word. `None` of any other node.
fn opening_name_of(word: Word, parts: &[Numbered]) -> Option<&Text>
    ensures { option_map (λ t. t.now) result ≡ spec.opening_name_of word (pieces_of (map syntax parts.now)) }
{
    match word {
        Word::Opening => first_tag_name(parts),
        _ => None,
    }
}

/// The name of the tag of an opening. `None` of any other tree.
#[tactic(auto, using(rl_row_forms::proofs::Shaped::by_item))]
fn opening_name_in(opening: &Numbered) -> Option<&Text>
    ensures { option_map (λ t. t.now) result ≡ spec.opening_name_in (syntax opening.now) }
{
    match node_in(opening) {
        Some((_, word, parts)) => opening_name_of(word, parts),
        None => None,
    }
}

/// The name of an element and its children, by its opening.
#[tactic(auto, using(rl_row_forms::proofs::Shaped::by_item))]
fn element_of<'t>(opening: &'t Numbered, children: &'t Numbered) -> Option<(&'t Text, &'t Numbered)>
    ensures { option_map (λ p. (p.0.now, syntax p.1.now)) result ≡ spec.element_of (syntax opening.now) (syntax children.now) }
{
    match opening_name_in(opening) {
        Some(name) => Some((name, children)),
        None => None,
    }
}

/// The name of an element and its children, by its parts.
#[tactic(auto, using(crate::proofs::Found::elements))]
fn element_by(parts: &[Numbered]) -> Option<(&Text, &Numbered)>
    ensures { option_map (λ p. (p.0.now, syntax p.1.now)) result ≡ spec.named_element_of Word.Element (pieces_of (map syntax parts.now)) }
{
    match first_two(parts) {
        Some((opening, children)) => element_of(opening, children),
        None => None,
    }
}

/// The name of an element and its children, by its word. `None` of any other node.
fn named_element_of(word: Word, parts: &[Numbered]) -> Option<(&Text, &Numbered)>
    ensures { option_map (λ p. (p.0.now, syntax p.1.now)) result ≡ spec.named_element_of word (pieces_of (map syntax parts.now)) }
{
    match word {
        Word::Element => element_by(parts),
        _ => None,
    }
}

/// The name of an element and its children. `None` of any other tree, and of an element whose tag is no plain name.
#[tactic(auto, using(rl_row_forms::proofs::Shaped::by_item))]
fn named_element(node: &Numbered) -> Option<(&Text, &Numbered)>
    ensures { option_map (λ p. (p.0.now, syntax p.1.now)) result ≡ spec.named_element (syntax node.now) }
{
    match node_in(node) {
        Some((_, word, parts)) => named_element_of(word, parts),
        None => None,
    }
}

/// The tags of the namespace that are found in a tree, in order. On `OutOfMemory`, an allocation failed.
fn found_in<'t>(
    alloc: Global,
    namespace: &Text,
    tree: &'t Numbered,
) -> Result<Vec<&'t Text>, OutOfMemory>
    ensures { IfOk result (λ found. map (λ t. t.now) found.items ≡ model.found_in namespace.now (syntax tree.now)) }
{
    let mut found = Vec::new(alloc);
    push_found(&mut found, namespace, tree)?;
    Ok(found)
}

/// True if the row does not apply to an element of the name with the children. On `OutOfMemory`, an allocation failed.
fn children_are_clear(alloc: Global, name: &Text, children: &Numbered) -> Result<bool, OutOfMemory>
    ensures { IfOk result (λ clear. clear ≡ spec.clear_children name.now (syntax children.now)) }
{
    if is_fbt(name) {
        let found = found_in(alloc, name, children)?;
        Ok(are_single(found.as_slice()))
    } else {
        Ok(true)
    }
}

/// True of a node to which the row F26 does not apply. On `OutOfMemory`, an allocation failed.
#[tactic(auto, using(rl_row_forms::proofs::Shaped::by_item))]
fn fbt_is_clear(alloc: Global, node: &Numbered) -> Result<bool, OutOfMemory>
    ensures { IfOk result (λ clear. clear ≡ spec.clear_fbt (syntax node.now)) }
{
    match named_element(node) {
        Some((name, children)) => Ok(children_are_clear(alloc, name, children)?),
        None => Ok(true),
    }
}

/// True of a node to which the row F26 does not apply: tags as `fbt:enum` stand at most once in it, where it is an `fbt` or `fbs`
/// element. On `OutOfMemory`, an allocation failed.
#[tactic(auto, using(crate::proofs::Found::kept))]
pub fn keeps_fbt(alloc: Global, node: &Numbered) -> Result<bool, OutOfMemory>
    ensures { IfOk result (λ kept. kept ≡ model.keeps_fbt (syntax node.now)) }
{
    Ok(fbt_is_clear(alloc, node)?)
}
