//! The walk that lists the sites of a function.

ghost use Rattle.std.specs.Prelude.{◌≡◌, ◌++◌, map, IfOk, OnOk};
ghost use Rattle.rl_ast.specs.FunctionNodes.{seen_function, seen_function_node};
ghost use Rattle.rl_ast.specs.FunctionViews.{seen_arrow};
ghost use Rattle.rl_context.specs.Roles as roles;
ghost use Rattle.rl_context.specs.Sites as spec;
ghost use Rattle.rl_grammar.specs.Fields.{maybe};
ghost use Rattle.rl_syntax.specs.Syntax.{pieces_of, syntax};

use crate::role::{Above, Role, Target, below, even_below, is_even, role_of, top};
use crate::site::{IdentEntry, ReferenceSite, Site, WrappedSite};
use rl_ast::function::Arrow;
use rl_ast::function_node::{Function, FunctionNode};
use rl_base::error::OutOfMemory;
use rl_base::list::List;
use rl_grammar::tree::{Sort, Tree};
use rl_syntax::numbered::{At, Numbered};
use rl_syntax::word::Word;
use std::alloc::Global;

/// True of a target.
fn is_assigned(target: Target) -> bool
    ensures { result ≡ spec.is_assigned target }
{
    match target {
        Target::Nothing => false,
        Target::Assignment(_) => true,
        Target::Update => true,
    }
}

/// The reference that an `id` node is.
fn reference_of(above: &Above, at: &At) -> ReferenceSite
    ensures { result ≡ spec.reference_of above.now at.now }
{
    ReferenceSite {
        reference: at.reference,
        entry: IdentEntry {
            span: at.span,
            in_type_annotation: above.in_type,
            opening_element_span: above.opening,
        },
        function: above.function,
        assigned: is_assigned(above.target),
    }
}

/// Appends the site that a node itself is, if it is one. On `OutOfMemory`, an allocation failed.
fn push_site(out: &mut List<Site>, role: Role, above: &Above, at: &At) -> Result<(), OutOfMemory>
    ensures { OnOk result (out.new ≡ out.old ++ spec.site_of role above.now at.now) }
{
    match role {
        Role::Reference => {
            out.push(Site::Reference(reference_of(above, at)))?;
            Ok(())
        }
        Role::Declaration => {
            out.push(Site::Declaration(at.id))?;
            Ok(())
        }
        Role::Wrapper(wrapper) => match above.target {
            Target::Nothing => Ok(()),
            Target::Assignment(assignment) => {
                out.push(Site::Wrapped(WrappedSite {
                    assignment,
                    wrapper,
                    span: at.span,
                }))?;
                Ok(())
            }
            Target::Update => Ok(()),
        },
        Role::Class => Ok(()),
        Role::Plain => Ok(()),
    }
}

/// True of the role of classes.
fn is_class(role: Role) -> bool
    ensures { result ≡ spec.is_class role }
{
    match role {
        Role::Reference => false,
        Role::Declaration => false,
        Role::Wrapper(_) => false,
        Role::Class => true,
        Role::Plain => false,
    }
}

/// Appends the sites of a tree, by what stands above it. On `OutOfMemory`, an allocation failed.
#[cycle(walking)]
#[inline(always)]
#[tactic(auto, using(crate::proofs::Walking::by_form, rl_syntax::proofs::Layers::by_layer))]
fn push_sites(out: &mut List<Site>, above: &Above, tree: &Numbered) -> Result<(), OutOfMemory>
    ensures { OnOk result (out.new ≡ out.old ++ spec.sites above.now (syntax tree.now)) }
{
    match tree {
        Numbered::Node(at, word, parts) => {
            let role = role_of(*word);
            if is_class(role) {
                return Ok(());
            }
            push_site(out, role, above, at)?;
            push_parts(out, above, at, *word, parts.as_slice())?;
            Ok(())
        }
        Numbered::List(items) => {
            push_among(out, above, items.as_slice())?;
            Ok(())
        }
        Numbered::Text(_) => Ok(()),
        Numbered::Number(_) => Ok(()),
        Numbered::Flag(_) => Ok(()),
        Numbered::Absent => Ok(()),
    }
}

/// Appends the sites of the parts of a node of the word `word`. On `OutOfMemory`, an allocation failed.
#[cycle(walking)]
#[tactic(auto, using(crate::proofs::Walking::even_parts))]
fn push_parts(
    out: &mut List<Site>,
    above: &Above,
    at: &At,
    word: Word,
    parts: &[Numbered],
) -> Result<(), OutOfMemory>
    ensures { OnOk result (out.new ≡ out.old ++ spec.sites_from above.now at.now word 0 (pieces_of (map syntax parts.now))) }
{
    if is_even(word) {
        push_among(out, &even_below(*above), parts)?;
        return Ok(());
    }
    push_from(out, above, at, word, parts)?;
    Ok(())
}

/// As `push_parts`, with a summary of its own for each part. On `OutOfMemory`, an allocation failed.
#[cycle(walking)]
fn push_from(
    out: &mut List<Site>,
    above: &Above,
    at: &At,
    word: Word,
    parts: &[Numbered],
) -> Result<(), OutOfMemory>
    ensures { OnOk result (out.new ≡ out.old ++ spec.sites_from above.now at.now word 0 (pieces_of (map syntax parts.now))) }
{
    'parts: for (index, part) in parts.iter().enumerate() {
        push_sites(out, &below(*above, *at, word, index), part)?;
    }
    Ok(())
}

/// Appends the sites of trees in a row that have the same above them. On `OutOfMemory`, an allocation failed.
#[cycle(walking)]
fn push_among(out: &mut List<Site>, above: &Above, trees: &[Numbered]) -> Result<(), OutOfMemory>
    ensures { OnOk result (out.new ≡ out.old ++ spec.sites_among above.now (pieces_of (map syntax trees.now))) }
{
    'trees: for tree in trees {
        push_sites(out, above, tree)?;
    }
    Ok(())
}

/// Appends the sites of a part of the function that may be absent. On `OutOfMemory`, an allocation failed.
fn push_maybe<K: Sort>(out: &mut List<Site>, part: Option<Tree<'_, K>>) -> Result<(), OutOfMemory>
    ensures { OnOk result (out.new ≡ out.old ++ spec.sites roles.top (maybe part.entry (λ t. syntax t.tree.now))) }
{
    match part {
        Some(part) => {
            push_sites(out, &top(), part.tree)?;
            Ok(())
        }
        None => Ok(()),
    }
}

/// Appends the sites of a function that is no arrow function. On `OutOfMemory`, an allocation failed.
#[tactic(auto, using(crate::proofs::Walking::function_walked))]
fn push_function(out: &mut List<Site>, function: &Function<'_>) -> Result<(), OutOfMemory>
    ensures { OnOk result (out.new ≡ out.old ++ spec.sites_in (seen_function function.now)) }
{
    push_maybe(out, function.name)?;
    push_sites(out, &top(), function.params.tree)?;
    push_maybe(out, function.body)?;
    Ok(())
}

/// Appends the sites of an arrow function. On `OutOfMemory`, an allocation failed.
#[tactic(auto, using(crate::proofs::Walking::arrow_walked))]
fn push_arrow(out: &mut List<Site>, arrow: &Arrow<'_>) -> Result<(), OutOfMemory>
    ensures { OnOk result (out.new ≡ out.old ++ spec.sites_in (seen_arrow arrow.now)) }
{
    push_sites(out, &top(), arrow.params.tree)?;
    push_sites(out, &top(), arrow.body.tree)?;
    Ok(())
}

/// The sites of a function, in the order of its nodes. On `OutOfMemory`, an allocation failed.
pub(crate) fn sites_of(
    alloc: Global,
    function: &FunctionNode<'_>,
) -> Result<List<Site>, OutOfMemory>
    ensures { IfOk result (λ found. found ≡ spec.sites_in (seen_function_node function.now)) }
{
    let mut found = List::new(alloc);
    match function {
        FunctionNode::Function(function) => push_function(&mut found, function)?,
        FunctionNode::Arrow(arrow) => push_arrow(&mut found, arrow)?,
    }
    Ok(found)
}
