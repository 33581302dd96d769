//! The walk that lists the sites of a unit.

ghost use Rattle.std.specs.Prelude.{◌≡◌, ◌++◌, map, IfOk, OnOk};
ghost use Rattle.rl_lint.specs.Sites as spec;
ghost use Rattle.rl_syntax.specs.Syntax.{pieces_of, syntax};

use crate::role::{Above, Place, Role, below, listed, role_of, top};
use crate::site::{LateSite, NamedSite, Site, UseSite};
use rl_base::error::OutOfMemory;
use rl_base::list::List;
use rl_syntax::numbered::{At, Numbered};
use std::alloc::Global;

/// Appends a use of a name, unless it stands in a type. On `OutOfMemory`, an allocation failed.
fn push_use(out: &mut List<Site>, above: &Above, at: &At) -> Result<(), OutOfMemory>
    ensures { OnOk result (out.new ≡ out.old ++ spec.use_site above.now at.now) }
{
    if above.in_type {
        return Ok(());
    }
    out.push(Site::Use(UseSite {
        at: *at,
        function: above.function,
    }))?;
    Ok(())
}

/// Appends the site that a `bind` node is, by its place. On `OutOfMemory`, an allocation failed.
fn push_bind(out: &mut List<Site>, above: &Above, at: &At) -> Result<(), OutOfMemory>
    ensures { OnOk result (out.new ≡ out.old ++ spec.bind_site above.now.place above.now at.now) }
{
    match above.place {
        Place::Late(first, statement) => {
            out.push(Site::Late(LateSite {
                bind: at.id,
                first,
                statement,
                function: above.function,
            }))?;
            Ok(())
        }
        Place::Name(scope) => {
            out.push(Site::Named(NamedSite { bind: *at, scope }))?;
            Ok(())
        }
        Place::Listed(_) => Ok(()),
        Place::Elsewhere => Ok(()),
    }
}

/// Appends the site that a node itself is, if it is one. On `OutOfMemory`, an allocation failed.
fn push_site(out: &mut List<Site>, role: Role, above: &Above, at: &At) -> Result<(), OutOfMemory>
    ensures { OnOk result (out.new ≡ out.old ++ spec.site_of role above.now at.now) }
{
    match role {
        Role::Use => {
            push_use(out, above, at)?;
            Ok(())
        }
        Role::Bind => {
            push_bind(out, above, at)?;
            Ok(())
        }
        _ => Ok(()),
    }
}

/// Appends the sites of a tree, by what stands above it. On `OutOfMemory`, an allocation failed.
#[cycle(walking)]
#[tactic(auto, using(crate::proofs::Walking::by_form, rl_syntax::proofs::Layers::by_layer))]
fn push_sites(out: &mut List<Site>, above: &Above, tree: &Numbered) -> Result<(), OutOfMemory>
    ensures { OnOk result (out.new ≡ out.old ++ spec.sites above.now (syntax tree.now)) }
{
    match tree {
        Numbered::Node(at, word, parts) => {
            let role = role_of(*word, parts.as_slice());
            push_site(out, role, above, at)?;
            push_from(out, above, at, role, parts.as_slice())?;
            Ok(())
        }
        Numbered::List(items) => {
            push_among(out, &listed(above, items.as_slice()), items.as_slice())?;
            Ok(())
        }
        Numbered::Text(_) => Ok(()),
        Numbered::Number(_) => Ok(()),
        Numbered::Flag(_) => Ok(()),
        Numbered::Absent => Ok(()),
    }
}

/// Appends the sites of the parts of a node. On `OutOfMemory`, an allocation failed.
#[cycle(walking)]
fn push_from(
    out: &mut List<Site>,
    above: &Above,
    at: &At,
    role: Role,
    parts: &[Numbered],
) -> Result<(), OutOfMemory>
    ensures { OnOk result (out.new ≡ out.old ++ spec.sites_from above.now at.now role 0 (pieces_of (map syntax parts.now))) }
{
    'parts: for (index, part) in parts.iter().enumerate() {
        push_sites(out, &below(above, at, role, index), part)?;
    }
    Ok(())
}

/// Appends the sites of trees in a row that have the same above them. On `OutOfMemory`, an allocation failed.
#[cycle(walking)]
fn push_among(out: &mut List<Site>, above: &Above, trees: &[Numbered]) -> Result<(), OutOfMemory>
    ensures { OnOk result (out.new ≡ out.old ++ spec.sites_among above.now (pieces_of (map syntax trees.now))) }
{
    'trees: for tree in trees {
        push_sites(out, above, tree)?;
    }
    Ok(())
}

/// The sites of a unit, in the order of its nodes. On `OutOfMemory`, an allocation failed.
pub(crate) fn sites_of(alloc: Global, tree: &Numbered) -> Result<List<Site>, OutOfMemory>
    ensures { IfOk result (λ found. found ≡ spec.sites_in (syntax tree.now)) }
{
    let mut found = List::new(alloc);
    push_sites(&mut found, &top(), tree)?;
    Ok(found)
}
