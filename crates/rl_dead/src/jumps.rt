//! The jumps of statements, `break` and `continue`.

ghost use Rattle.std.specs.Prelude.{◌≡◌, [], ◌∷◌, ◌++◌, filter, map, not, OnOk};
ghost use Rattle.std.specs.List.{list_any};
ghost use Rattle.rl_dead.specs.Jumps as spec;

use rl_base::error::OutOfMemory;
use rl_base::text::Text;
use std::alloc::Global;

/// Label of a statement or of a jump.
#[derive(Clone, Copy)]
pub struct Label<'t> {
    /// Its name. `None` of a statement without a label, and of a jump to none.
    pub name: Option<&'t Text>,
}

/// No label.
pub const UNLABELED: Label<'static> = Label { name: None };

/// The jumps that leave a statement, in order.
#[derive(Drop)]
pub struct Jumps<'t> {
    /// The labels of its `break` statements.
    pub breaks: Vec<Label<'t>>,
    /// The labels of its `continue` statements.
    pub continues: Vec<Label<'t>>,
}

/// Statement that takes jumps.
#[derive(Clone, Copy)]
pub enum Target<'t> {
    /// It takes none.
    Nothing,
    /// It takes jumps without a label.
    Unlabeled,
    /// A loop with this label: it takes `continue` statements without a label, and with its own.
    Own(Label<'t>),
    /// It takes jumps with this label.
    Labeled(&'t Text),
}

/// True of equal texts.
fn is_equal(one: &Text, other: &Text) -> bool
    ensures { result ≡ spec.is_equal one.now other.now }
{
    one.as_str() == other.as_str()
}

/// True of a jump that the loop with the label `own` takes, if the jump is a `continue`.
fn is_own(own: Label<'_>, jump: Label<'_>) -> bool
    ensures { result ≡ spec.is_own (spec.name_of own.entry) (spec.name_of jump.entry) }
{
    match jump.name {
        None => true,
        Some(name) => match own.name {
            None => false,
            Some(own) => is_equal(own, name),
        },
    }
}

/// True of a jump to the label `label`.
fn is_labeled(label: &Text, jump: Label<'_>) -> bool
    ensures { result ≡ spec.is_labeled label.now (spec.name_of jump.entry) }
{
    match jump.name {
        None => false,
        Some(name) => is_equal(label, name),
    }
}

/// True of a jump without a label.
fn is_unlabeled(jump: Label<'_>) -> bool
    ensures { result ≡ spec.is_unlabeled (spec.name_of jump.entry) }
{
    match jump.name {
        None => true,
        Some(_) => false,
    }
}

/// True of a jump that the target takes.
fn takes(target: Target<'_>, jump: Label<'_>) -> bool
    ensures { result ≡ spec.takes target.entry (spec.name_of jump.entry) }
{
    match target {
        Target::Nothing => false,
        Target::Unlabeled => is_unlabeled(jump),
        Target::Own(own) => is_own(own, jump),
        Target::Labeled(label) => is_labeled(label, jump),
    }
}

/// True if the target takes one of the jumps.
pub fn takes_any(target: Target<'_>, jumps: &[Label<'_>]) -> bool
    ensures { result ≡ list_any (spec.takes target.entry) (map spec.name_of jumps.now) }
{
    'jumps: for jump in jumps {
        if takes(target, *jump) {
            return true;
        }
    }
    false
}

/// Appends a jump. On `OutOfMemory`, an allocation failed.
pub fn push_jump<'t>(out: &mut Vec<Label<'t>>, jump: Label<'t>) -> Result<(), OutOfMemory>
    ensures { OnOk result (map spec.name_of out.new.items ≡ map spec.name_of out.old.items ++ spec.name_of jump.entry ∷ []) }
{
    out.push(jump)?;
    Ok(())
}

/// Appends the jumps that the target does not take. On `OutOfMemory`, an allocation failed.
pub fn push_others<'t>(
    out: &mut Vec<Label<'t>>,
    target: Target<'_>,
    jumps: &[Label<'t>],
) -> Result<(), OutOfMemory>
    ensures { OnOk result (map spec.name_of out.new.items ≡ map spec.name_of out.old.items ++ filter (λ jump. not (spec.takes target.entry jump)) (map spec.name_of jumps.now)) }
{
    'jumps: for jump in jumps {
        if !takes(target, *jump) {
            push_jump(out, *jump)?;
        }
    }
    Ok(())
}

impl<'t> Jumps<'t> {
    /// No jumps.
    pub fn new(alloc: Global) -> Jumps<'t>
        ensures breaks { map spec.name_of result.breaks.items ≡ [] }
        ensures continues { map spec.name_of result.continues.items ≡ [] }
    {
        Jumps {
            breaks: Vec::new(alloc),
            continues: Vec::new(alloc),
        }
    }
}
