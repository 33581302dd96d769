//! Patterns whose names are stored in the order in which they are written.

ghost use Rattle.std.specs.Prelude.{◌≡◌, ◌∷◌, ◌++◌, ℕ, Bool, List, true, false, map, IfOk, OnOk};
ghost use Rattle.std.specs.BTreeSet.{contains_by};
ghost use Rattle.std.specs.List.{list_all};
ghost use Rattle.std.specs.Ordering.{nat_cmp};
ghost use Rattle.rl_model.specs.Code as code;
ghost use Rattle.rl_model.specs.Orderly as orderly;
ghost use Rattle.rl_names.specs.Seen.{seen};
ghost use Rattle.rl_orderly.specs.Items.{item_of};
ghost use Rattle.rl_orderly.specs.Repeats.{is_alone, is_none, repeats, used_here};
ghost use Rattle.rl_syntax.specs.Syntax.{syntax};

use crate::items::{items_of, push_defaults};
use rl_base::error::OutOfMemory;
use rl_code::code::push_code;
use rl_code::named::{builtin_tags, is_id, push_used};
use rl_code::numbers::{Numbers, add};
use rl_code::variables::Variables;
use rl_syntax::numbered::Numbered;
use std::alloc::Global;
use std::collections::BTreeSet;

/// The symbols among items. On `OutOfMemory`, an allocation failed.
fn symbols_in(alloc: Global, items: &Vec<Option<u32>>) -> Result<Vec<u32>, OutOfMemory>
    ensures { IfOk result (λ found. found.items ≡ orderly.symbols_in (map item_of items.now.items)) }
{
    symbols_among(alloc, items.as_slice())
}

/// As `symbols_in`, for a slice. On `OutOfMemory`, an allocation failed.
fn symbols_among(alloc: Global, items: &[Option<u32>]) -> Result<Vec<u32>, OutOfMemory>
    ensures { IfOk result (λ found. found.items ≡ orderly.symbols_in (map item_of items.now)) }
{
    let mut found = Vec::new(alloc);
    'items: for item in items {
        if let Some(symbol) = *item {
            found.push(symbol)?;
        }
    }
    Ok(found)
}

/// The symbols right of a default or a nested part. On `OutOfMemory`, an allocation failed.
fn right_of(alloc: Global, items: &Vec<Option<u32>>) -> Result<Vec<u32>, OutOfMemory>
    ensures { IfOk result (λ found. found.items ≡ orderly.right_of (map item_of items.now.items)) }
{
    right_among(alloc, items.as_slice())
}

/// As `right_of`, for a slice. On `OutOfMemory`, an allocation failed.
fn right_among(alloc: Global, items: &[Option<u32>]) -> Result<Vec<u32>, OutOfMemory>
    ensures { IfOk result (λ found. found.items ≡ orderly.right_of (map item_of items.now)) }
{
    'items: for (index, item) in items.iter().enumerate() {
        if item.is_none() {
            return symbols_among(alloc, &items[index..]);
        }
    }
    Ok(Vec::new(alloc))
}

/// Counts a number: the first time it goes into `once`, and then into `twice`. On `OutOfMemory`, an allocation failed.
fn count(
    once: &mut BTreeSet<u32>,
    twice: &mut BTreeSet<u32>,
    number: u32,
) -> Result<(), OutOfMemory>
    ensures { OnOk result ((n : ℕ) (rest : List ℕ) → repeats (contains_by (nat_cmp n) once.new) (contains_by (nat_cmp n) twice.new) n rest ≡ repeats (contains_by (nat_cmp n) once.old) (contains_by (nat_cmp n) twice.old) n (number ∷ rest)) }
{
    if once.contains(&number) {
        add(twice, number)?;
        Ok(())
    } else {
        add(once, number)?;
        Ok(())
    }
}

/// The numbers that stand in a row more than once. On `OutOfMemory`, an allocation failed.
fn repeated(alloc: Global, numbers: &Vec<u32>) -> Result<BTreeSet<u32>, OutOfMemory>
    ensures { IfOk result (λ found. (n : ℕ) → contains_by (nat_cmp n) found ≡ repeats false false n numbers.now.items) }
{
    repeated_among(alloc, numbers.as_slice())
}

/// As `repeated`, for a slice. On `OutOfMemory`, an allocation failed.
fn repeated_among(alloc: Global, numbers: &[u32]) -> Result<BTreeSet<u32>, OutOfMemory>
    ensures { IfOk result (λ found. (n : ℕ) → contains_by (nat_cmp n) found ≡ repeats false false n numbers.now) }
{
    let mut once = BTreeSet::new(alloc);
    let mut twice = BTreeSet::new(alloc);
    'numbers: for number in numbers {
        count(&mut once, &mut twice, *number)?;
    }
    Ok(twice)
}

/// Appends the variables that an expression names, outside its inner functions. On `OutOfMemory`, an allocation failed.
#[tactic(auto, using(crate::proofs::Using::used))]
fn push_used_in(
    alloc: Global,
    out: &mut Vec<u32>,
    variables: &Variables<'_>,
    expression: &Numbered,
) -> Result<(), OutOfMemory>
    ensures { OnOk result (out.new.items ≡ out.old.items ++ orderly.used_in (seen variables.now.names) (syntax expression.now)) }
{
    let mut nodes = Vec::new(alloc);
    push_code(&mut nodes, expression)?;
    let tags = Numbers::of(alloc, builtin_tags(alloc, nodes.as_slice())?)?;
    push_used_among(out, variables, &tags, nodes.as_slice())?;
    Ok(())
}

/// Appends the variable that a node names, unless it is one of `tags`. On `OutOfMemory`, an allocation failed.
#[tactic(auto, using(crate::proofs::Using::used_form))]
fn push_used_at(
    out: &mut Vec<u32>,
    variables: &Variables<'_>,
    tags: &Numbers,
    node: &Numbered,
) -> Result<(), OutOfMemory>
    ensures { OnOk result (out.new.items ≡ out.old.items ++ orderly.used_at (seen variables.now.names) tags.now.list.items (syntax node.now)) }
{
    match node {
        Numbered::Node(at, word, parts) => {
            if is_id(*word) {
                push_used(out, variables, tags, *at, parts.as_slice())?;
                return Ok(());
            }
            Ok(())
        }
        Numbered::List(_) => Ok(()),
        Numbered::Text(_) => Ok(()),
        Numbered::Number(_) => Ok(()),
        Numbered::Flag(_) => Ok(()),
        Numbered::Absent => Ok(()),
    }
}

/// Appends the variables that some nodes name, but for `tags`. On `OutOfMemory`, an allocation failed.
fn push_used_among(
    out: &mut Vec<u32>,
    variables: &Variables<'_>,
    tags: &Numbers,
    nodes: &[&Numbered],
) -> Result<(), OutOfMemory>
    ensures { OnOk result (out.new.items ≡ out.old.items ++ code.flat (orderly.used_at (seen variables.now.names) tags.now.list.items) (map (λ t. syntax t.now) nodes.now)) }
{
    'nodes: for node in nodes {
        push_used_at(out, variables, tags, node)?;
    }
    Ok(())
}

/// As `push_used_in`, by the opaque word for what is appended. On `OutOfMemory`, an allocation failed.
#[tactic(auto, unfolding(crate::specs::Repeats::used_here))]
fn push_used_here(
    alloc: Global,
    out: &mut Vec<u32>,
    variables: &Variables<'_>,
    expression: &Numbered,
) -> Result<(), OutOfMemory>
    ensures { OnOk result (out.new.items ≡ out.old.items ++ used_here (seen variables.now.names) (syntax expression.now)) }
{
    push_used_in(alloc, out, variables, expression)?;
    Ok(())
}

/// Appends the variables that some expressions name. On `OutOfMemory`, an allocation failed.
fn push_used_all(
    alloc: Global,
    out: &mut Vec<u32>,
    variables: &Variables<'_>,
    expressions: &[&Numbered],
) -> Result<(), OutOfMemory>
    ensures { OnOk result (out.new.items ≡ out.old.items ++ code.flat (used_here (seen variables.now.names)) (map (λ t. syntax t.now) expressions.now)) }
{
    'expressions: for expression in expressions {
        push_used_here(alloc, out, variables, expression)?;
    }
    Ok(())
}

/// The variables that the defaults in a pattern name. On `OutOfMemory`, an allocation failed.
#[tactic(auto, using(crate::proofs::Using::all_used))]
fn used_in_defaults(
    alloc: Global,
    variables: &Variables<'_>,
    pattern: &Numbered,
) -> Result<Numbers, OutOfMemory>
    ensures { IfOk result (λ used. used.list.items ≡ code.flat (orderly.used_in (seen variables.now.names)) (orderly.defaults_in (syntax pattern.now))) }
{
    let mut defaults = Vec::new(alloc);
    push_defaults(&mut defaults, pattern)?;
    let mut used = Vec::new(alloc);
    push_used_all(alloc, &mut used, variables, defaults.as_slice())?;
    let used = Numbers::of(alloc, used)?;
    Ok(used)
}

/// True if no symbol of `right` is open, used or repeated.
fn are_alone(opens: &Numbers, used: &Numbers, twice: &BTreeSet<u32>, right: &[u32]) -> bool
    ensures { result ≡ list_all (is_alone opens.now.list.items used.now.list.items twice.now) right.now }
{
    'right: for symbol in right {
        if !is_alone(opens, used, twice, *symbol) {
            return false;
        }
    }
    true
}

/// True of a symbol that is not open, used or repeated.
fn is_alone(opens: &Numbers, used: &Numbers, twice: &BTreeSet<u32>, symbol: u32) -> bool
    ensures { result ≡ is_alone opens.now.list.items used.now.list.items twice.now symbol }
{
    !opens.has(symbol) && !used.has(symbol) && !twice.contains(&symbol)
}

/// True if no name right of a default or a nested part is one of `opens`, is named by a default, or stands in the pattern twice. On
/// `OutOfMemory`, an allocation failed.
fn are_names_alone(
    alloc: Global,
    variables: &Variables<'_>,
    opens: &Numbers,
    pattern: &Numbered,
) -> Result<bool, OutOfMemory>
    ensures { IfOk result (λ b. b ≡ orderly.is_orderly_pattern (seen variables.now.names) (code.contains opens.now.list.items) false (syntax pattern.now)) }
{
    let items = items_of(alloc, variables, pattern)?;
    let right = right_of(alloc, &items)?;
    let symbols = symbols_in(alloc, &items)?;
    let used = used_in_defaults(alloc, variables, pattern)?;
    let twice = repeated(alloc, &symbols)?;
    Ok(are_all_alone(opens, &used, &twice, &right))
}

/// True if no name stands right of a default or a nested part. On `OutOfMemory`, an allocation failed.
fn has_none_right(
    alloc: Global,
    variables: &Variables<'_>,
    pattern: &Numbered,
) -> Result<bool, OutOfMemory>
    ensures { IfOk result (λ b. (opens : ℕ → Bool) → b ≡ orderly.is_orderly_pattern (seen variables.now.names) opens true (syntax pattern.now)) }
{
    let items = items_of(alloc, variables, pattern)?;
    let right = right_of(alloc, &items)?;
    Ok(is_none(&right))
}

/// As `are_alone`, for a vector.
fn are_all_alone(opens: &Numbers, used: &Numbers, twice: &BTreeSet<u32>, right: &Vec<u32>) -> bool
    ensures { result ≡ list_all (is_alone opens.now.list.items used.now.list.items twice.now) right.now.items }
{
    are_alone(opens, used, twice, right.as_slice())
}

/// True of no numbers.
fn is_none(numbers: &Vec<u32>) -> bool
    ensures { result ≡ is_none numbers.now.items }
{
    match numbers.as_slice() {
        [] => true,
        [_first, _rest @ ..] => false,
    }
}

/// True of a pattern or a parameter list whose names are stored in the order in which they are written: right of a default or a nested
/// part, no name stands in a `try` block (`tried`), is one of `opens`, is named by a default, or stands in the pattern twice. On
/// `OutOfMemory`, an allocation failed.
pub fn is_orderly_pattern(
    alloc: Global,
    variables: &Variables<'_>,
    opens: &Numbers,
    tried: bool,
    pattern: &Numbered,
) -> Result<bool, OutOfMemory>
    ensures { IfOk result (λ b. b ≡ orderly.is_orderly_pattern (seen variables.now.names) (code.contains opens.now.list.items) tried (syntax pattern.now)) }
{
    match tried {
        true => {
            let result = has_none_right(alloc, variables, pattern)?;
            Ok(result)
        }
        false => {
            let result = are_names_alone(alloc, variables, opens, pattern)?;
            Ok(result)
        }
    }
}
