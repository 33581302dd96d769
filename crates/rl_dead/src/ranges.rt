//! Ranges of the ids of nodes.

ghost use Rattle.std.specs.Prelude.{◌≡◌, [], ◌∷◌, ℕ, OnOk};
ghost use Rattle.rl_dead.specs.Ranges as spec;
ghost use Rattle.rl_model.specs.Dead.{parts_if};
ghost use Rattle.rl_model.specs.Supported.{is_among};
ghost use Rattle.rl_syntax.specs.Syntax.{syntax};

use rl_base::error::OutOfMemory;
use rl_code::code::at_of;
use rl_syntax::numbered::Numbered;

/// Range of the ids of a node and of the nodes inside it.
#[derive(Clone, Copy)]
pub struct Range {
    /// The id of the node.
    pub start: u32,
    /// The id behind those of its nodes.
    pub end: u32,
}

/// The ids of a node and of the nodes inside it. Those of no node for any other tree.
#[tactic(auto, using(crate::proofs::Covering::among))]
fn range_of(tree: &Numbered) -> Range
    ensures { (node : ℕ) → spec.holds node result ≡ is_among node (syntax tree.now) }
{
    let at = at_of(tree);
    Range {
        start: at.id.0,
        end: at.end.0,
    }
}

/// Appends the range of a part. On `OutOfMemory`, an allocation failed.
#[tactic(auto, using(crate::proofs::Covering::adds_one))]
pub fn push_range(out: &mut Vec<Range>, part: &Numbered) -> Result<(), OutOfMemory>
    ensures { OnOk result (spec.Adds out.old.items out.new.items (syntax part.now ∷ [])) }
{
    out.push(range_of(part))?;
    Ok(())
}

/// Appends the range of a part, if it is dead. On `OutOfMemory`, an allocation failed.
#[tactic(auto, using(crate::proofs::Covering::adds_if))]
pub fn push_if(out: &mut Vec<Range>, dead: bool, part: &Numbered) -> Result<(), OutOfMemory>
    ensures { OnOk result (spec.Adds out.old.items out.new.items (parts_if dead (syntax part.now))) }
{
    if dead {
        push_range(out, part)?;
        return Ok(());
    }
    Ok(())
}
