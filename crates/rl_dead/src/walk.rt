//! The walk over statements that finds their exits and their dead parts.

ghost use Rattle.std.specs.Prelude.{◌≡◌, ◌||◌, not, None, map, IfOk};
ghost use Rattle.rl_dead.specs.Jumps.{name_of};
ghost use Rattle.rl_dead.specs.Parts.{seen_for};
ghost use Rattle.rl_dead.specs.Walks as spec;
ghost use Rattle.rl_model.specs.Dead as model;
ghost use Rattle.rl_syntax.specs.Syntax.{pieces_of, syntax};
ghost use Rattle.rl_syntax.specs.declared.word.Word.TheVariants as words;

use crate::flow::{ACTS, Flow, JUMPS, LEAVES, QUIET};
use crate::jumps::{Jumps, Label, Target, UNLABELED, push_jump, push_others, takes_any};
use crate::parts::{
    ForParts, body_of_each, both, case_statements, declares, for_parts, has_default, init_acts,
    jump_of, labeled_of, last_two, only_list, second_list, second_of_two, third_of_three,
    try_parts,
};
use crate::ranges::{Range, push_if, push_range};
use rl_base::error::OutOfMemory;
use rl_base::text::Text;
use rl_code::parts::is_no_code;
use rl_syntax::numbered::Numbered;
use rl_syntax::parts::is_absent;
use rl_syntax::word::Word;
use std::alloc::Global;

/// Summary of the body of a loop.
#[derive(Clone, Copy)]
pub struct Body {
    /// True of a body that may complete normally or continue the loop.
    pub goes_on: bool,
    /// True of a body with a `break` without a label.
    pub is_broken: bool,
    /// True of a body in which something live may throw to a `catch` around it.
    pub acts: bool,
}

/// Walks over a statement that has the label `own`: appends its jumps and its dead parts. On `OutOfMemory`, an allocation failed.
#[cycle(walking)]
#[tactic(auto, using(crate::proofs::Statements::by_form, rl_syntax::proofs::Layers::by_layer))]
fn walk<'t>(
    alloc: Global,
    jumps: &mut Jumps<'t>,
    dead: &mut Vec<Range>,
    own: Label<'t>,
    tree: &'t Numbered,
) -> Result<Flow, OutOfMemory>
    ensures { IfOk result (λ flow. spec.Walked jumps.old jumps.new dead.old.items dead.new.items flow (model.lives (name_of own.entry) (syntax tree.now)) (model.dead_in (name_of own.entry) (syntax tree.now))) }
{
    match tree {
        Numbered::Node(_, word, parts) => {
            let flow = walk_node(alloc, jumps, dead, own, *word, parts.as_slice())?;
            Ok(flow)
        }
        Numbered::List(_) => Ok(QUIET),
        Numbered::Text(_) => Ok(QUIET),
        Numbered::Number(_) => Ok(QUIET),
        Numbered::Flag(_) => Ok(QUIET),
        Numbered::Absent => Ok(QUIET),
    }
}

/// As `walk`, by the word and the parts of a node. On `OutOfMemory`, an allocation failed.
#[cycle(walking)]
#[tactic(auto, using(crate::proofs::Statements::simple))]
fn walk_node<'t>(
    alloc: Global,
    jumps: &mut Jumps<'t>,
    dead: &mut Vec<Range>,
    own: Label<'t>,
    word: Word,
    parts: &'t [Numbered],
) -> Result<Flow, OutOfMemory>
    ensures { IfOk result (λ flow. spec.WalkedNode jumps.old jumps.new dead.old.items dead.new.items flow (name_of own.entry) word (pieces_of (map syntax parts.now))) }
{
    match word {
        Word::Return => Ok(LEAVES),
        Word::Throw => Ok(LEAVES),
        Word::Expr => Ok(ACTS),
        Word::Var => Ok(variables(parts)),
        Word::Debugger => Ok(ACTS),
        Word::Fundecl => Ok(declaration(parts)),
        Word::Break => walk_break(jumps, parts),
        Word::Continue => walk_continue(jumps, parts),
        Word::Block => walk_block(alloc, jumps, dead, parts),
        Word::If => walk_if(alloc, jumps, dead, parts),
        Word::While => walk_while(alloc, jumps, dead, own, parts),
        Word::For => walk_for(alloc, jumps, dead, own, parts),
        Word::Forin => walk_for_in(alloc, jumps, dead, own, parts),
        Word::Forof => walk_for_of(alloc, jumps, dead, own, parts),
        Word::Dowhile => walk_do_while(alloc, jumps, dead, own, parts),
        Word::Switch => walk_switch(alloc, jumps, dead, parts),
        Word::Labeled => walk_labeled(alloc, jumps, dead, parts),
        Word::Try => walk_try(alloc, jumps, dead, parts),
        _ => Ok(QUIET),
    }
}

/// The summary of a function declaration, by its parts.
#[tactic(auto, using(crate::proofs::Statements::declared))]
fn declaration(parts: &[Numbered]) -> Flow
    ensures { spec.WalkedStill result words.Fundecl (pieces_of (map syntax parts.now)) }
{
    if is_no_code(Word::Fundecl, parts) {
        return QUIET;
    }
    ACTS
}

/// The summary of a declaration of variables, by its parts.
#[tactic(auto, using(crate::proofs::Statements::variables_still))]
fn variables(parts: &[Numbered]) -> Flow
    ensures { spec.WalkedStill result words.Var (pieces_of (map syntax parts.now)) }
{
    Flow {
        falls: true,
        acts: declares(parts),
    }
}

/// As `walk_node`, of a `break`. On `OutOfMemory`, an allocation failed.
#[tactic(auto, using(crate::proofs::Statements::broken))]
fn walk_break<'t>(jumps: &mut Jumps<'t>, parts: &'t [Numbered]) -> Result<Flow, OutOfMemory>
    ensures { IfOk result (λ flow. spec.WalkedJump jumps.old jumps.new flow words.Break (pieces_of (map syntax parts.now))) }
{
    match jump_of(parts) {
        Some(label) => {
            push_jump(&mut jumps.breaks, label)?;
            Ok(JUMPS)
        }
        None => Ok(QUIET),
    }
}

/// As `walk_node`, of a `continue`. On `OutOfMemory`, an allocation failed.
#[tactic(auto, using(crate::proofs::Statements::continued))]
fn walk_continue<'t>(jumps: &mut Jumps<'t>, parts: &'t [Numbered]) -> Result<Flow, OutOfMemory>
    ensures { IfOk result (λ flow. spec.WalkedJump jumps.old jumps.new flow words.Continue (pieces_of (map syntax parts.now))) }
{
    match jump_of(parts) {
        Some(label) => {
            push_jump(&mut jumps.continues, label)?;
            Ok(JUMPS)
        }
        None => Ok(QUIET),
    }
}

/// As `walk_node`, of a block. On `OutOfMemory`, an allocation failed.
#[cycle(walking)]
#[tactic(auto, using(crate::proofs::Statements::blocks, crate::proofs::Smaller::only_list_smaller))]
fn walk_block<'t>(
    alloc: Global,
    jumps: &mut Jumps<'t>,
    dead: &mut Vec<Range>,
    parts: &'t [Numbered],
) -> Result<Flow, OutOfMemory>
    ensures { IfOk result (λ flow. spec.WalkedPlain jumps.old jumps.new dead.old.items dead.new.items flow words.Block (pieces_of (map syntax parts.now))) }
{
    match only_list(parts) {
        Some(statements) => {
            let flow = walk_statements(alloc, jumps, dead, statements)?;
            Ok(flow)
        }
        None => Ok(QUIET),
    }
}

/// As `walk_node`, of an `if` statement. On `OutOfMemory`, an allocation failed.
#[cycle(walking)]
#[tactic(auto, using(crate::proofs::Statements::branches, crate::proofs::Smaller::branches_smaller))]
fn walk_if<'t>(
    alloc: Global,
    jumps: &mut Jumps<'t>,
    dead: &mut Vec<Range>,
    parts: &'t [Numbered],
) -> Result<Flow, OutOfMemory>
    ensures { IfOk result (λ flow. spec.WalkedPlain jumps.old jumps.new dead.old.items dead.new.items flow words.If (pieces_of (map syntax parts.now))) }
{
    match last_two(parts) {
        Some((consequent, alternate)) => {
            let one = walk(alloc, jumps, dead, UNLABELED, consequent)?;
            let other = walk(alloc, jumps, dead, UNLABELED, alternate)?;
            Ok(Flow {
                falls: either(one.falls, other.falls),
                acts: true,
            })
        }
        None => Ok(QUIET),
    }
}

/// Walks over the body of a loop that has the label `own`. On `OutOfMemory`, an allocation failed.
#[cycle(walking)]
#[tactic(auto, using(crate::proofs::Loops::body_walked))]
fn walk_body<'t>(
    alloc: Global,
    jumps: &mut Jumps<'t>,
    dead: &mut Vec<Range>,
    own: Label<'t>,
    body: &'t Numbered,
) -> Result<Body, OutOfMemory>
    ensures { IfOk result (λ body_result. spec.WalkedBody jumps.old jumps.new dead.old.items dead.new.items body_result (name_of own.entry) (syntax body.now)) }
{
    let mut inner = Jumps::new(alloc);
    let flow = walk(alloc, &mut inner, dead, UNLABELED, body)?;
    let continued = takes_any(Target::Own(own), inner.continues.as_slice());
    let is_broken = takes_any(Target::Unlabeled, inner.breaks.as_slice());
    push_others(
        &mut jumps.breaks,
        Target::Unlabeled,
        inner.breaks.as_slice(),
    )?;
    push_others(
        &mut jumps.continues,
        Target::Own(own),
        inner.continues.as_slice(),
    )?;
    Ok(Body {
        goes_on: either(flow.falls, continued),
        is_broken,
        acts: flow.acts,
    })
}

/// As `walk_body`, of a loop that may complete normally whatever its body does. On `OutOfMemory`, an allocation failed.
#[cycle(walking)]
#[tactic(auto, using(crate::proofs::Loops::loop_walked))]
fn walk_loop<'t>(
    alloc: Global,
    jumps: &mut Jumps<'t>,
    dead: &mut Vec<Range>,
    own: Label<'t>,
    body: &'t Numbered,
) -> Result<Flow, OutOfMemory>
    ensures { IfOk result (λ flow. spec.WalkedLoop jumps.old jumps.new dead.old.items dead.new.items flow (name_of own.entry) (syntax body.now)) }
{
    walk_body(alloc, jumps, dead, own, body)?;
    Ok(ACTS)
}

/// As `walk_node`, of a `while` loop. On `OutOfMemory`, an allocation failed.
#[cycle(walking)]
#[tactic(auto, using(crate::proofs::Loops::whiles, crate::proofs::Smaller::second_smaller))]
fn walk_while<'t>(
    alloc: Global,
    jumps: &mut Jumps<'t>,
    dead: &mut Vec<Range>,
    own: Label<'t>,
    parts: &'t [Numbered],
) -> Result<Flow, OutOfMemory>
    ensures { IfOk result (λ flow. spec.WalkedNode jumps.old jumps.new dead.old.items dead.new.items flow (name_of own.entry) words.While (pieces_of (map syntax parts.now))) }
{
    match second_of_two(parts) {
        Some(body) => {
            let flow = walk_loop(alloc, jumps, dead, own, body)?;
            Ok(flow)
        }
        None => Ok(QUIET),
    }
}

/// As `walk_node`, of a `for`-`in` loop. On `OutOfMemory`, an allocation failed.
#[cycle(walking)]
#[tactic(auto, using(crate::proofs::Loops::for_ins, crate::proofs::Smaller::third_smaller))]
fn walk_for_in<'t>(
    alloc: Global,
    jumps: &mut Jumps<'t>,
    dead: &mut Vec<Range>,
    own: Label<'t>,
    parts: &'t [Numbered],
) -> Result<Flow, OutOfMemory>
    ensures { IfOk result (λ flow. spec.WalkedNode jumps.old jumps.new dead.old.items dead.new.items flow (name_of own.entry) words.Forin (pieces_of (map syntax parts.now))) }
{
    match third_of_three(parts) {
        Some(body) => {
            let flow = walk_loop(alloc, jumps, dead, own, body)?;
            Ok(flow)
        }
        None => Ok(QUIET),
    }
}

/// As `walk_node`, of a `for`-`of` loop. On `OutOfMemory`, an allocation failed.
#[cycle(walking)]
#[tactic(auto, using(crate::proofs::Loops::for_ofs, crate::proofs::Smaller::each_smaller))]
fn walk_for_of<'t>(
    alloc: Global,
    jumps: &mut Jumps<'t>,
    dead: &mut Vec<Range>,
    own: Label<'t>,
    parts: &'t [Numbered],
) -> Result<Flow, OutOfMemory>
    ensures { IfOk result (λ flow. spec.WalkedNode jumps.old jumps.new dead.old.items dead.new.items flow (name_of own.entry) words.Forof (pieces_of (map syntax parts.now))) }
{
    match body_of_each(parts) {
        Some(body) => {
            let flow = walk_loop(alloc, jumps, dead, own, body)?;
            Ok(flow)
        }
        None => Ok(QUIET),
    }
}

/// As `walk_node`, of a `for` loop. On `OutOfMemory`, an allocation failed.
#[cycle(walking)]
#[tactic(auto, using(crate::proofs::Loops::fors, crate::proofs::Smaller::for_smaller))]
fn walk_for<'t>(
    alloc: Global,
    jumps: &mut Jumps<'t>,
    dead: &mut Vec<Range>,
    own: Label<'t>,
    parts: &'t [Numbered],
) -> Result<Flow, OutOfMemory>
    ensures { IfOk result (λ flow. spec.WalkedNode jumps.old jumps.new dead.old.items dead.new.items flow (name_of own.entry) words.For (pieces_of (map syntax parts.now))) }
{
    match for_parts(parts) {
        Some(found) => {
            let flow = walk_for_parts(alloc, jumps, dead, own, found)?;
            Ok(flow)
        }
        None => Ok(QUIET),
    }
}

/// As `walk_for`, by its parts. On `OutOfMemory`, an allocation failed.
#[cycle(walking)]
#[tactic(auto, using(crate::proofs::Loops::for_made))]
fn walk_for_parts<'t>(
    alloc: Global,
    jumps: &mut Jumps<'t>,
    dead: &mut Vec<Range>,
    own: Label<'t>,
    found: ForParts<'t>,
) -> Result<Flow, OutOfMemory>
    ensures { IfOk result (λ flow. spec.WalkedFor jumps.old jumps.new dead.old.items dead.new.items flow (name_of own.entry) (seen_for found.entry)) }
{
    let body = walk_body(alloc, jumps, dead, own, found.body)?;
    push_if(dead, !body.goes_on, found.update)?;
    Ok(Flow {
        falls: true,
        acts: for_acts(found, body),
    })
}

/// As `walk_node`, of a `do`-`while` loop. On `OutOfMemory`, an allocation failed.
#[cycle(walking)]
#[tactic(auto, using(crate::proofs::Loops::do_whiles, crate::proofs::Smaller::both_smaller))]
fn walk_do_while<'t>(
    alloc: Global,
    jumps: &mut Jumps<'t>,
    dead: &mut Vec<Range>,
    own: Label<'t>,
    parts: &'t [Numbered],
) -> Result<Flow, OutOfMemory>
    ensures { IfOk result (λ flow. spec.WalkedNode jumps.old jumps.new dead.old.items dead.new.items flow (name_of own.entry) words.Dowhile (pieces_of (map syntax parts.now))) }
{
    match both(parts) {
        Some((body, condition)) => {
            let body = walk_body(alloc, jumps, dead, own, body)?;
            push_if(dead, !body.goes_on, condition)?;
            Ok(Flow {
                falls: either(body.goes_on, body.is_broken),
                acts: either(body.acts, body.goes_on),
            })
        }
        None => Ok(QUIET),
    }
}

/// As `walk_node`, of a `switch` statement. On `OutOfMemory`, an allocation failed.
#[cycle(walking)]
#[tactic(auto, using(crate::proofs::Switches::switches, crate::proofs::Smaller::second_list_smaller))]
fn walk_switch<'t>(
    alloc: Global,
    jumps: &mut Jumps<'t>,
    dead: &mut Vec<Range>,
    parts: &'t [Numbered],
) -> Result<Flow, OutOfMemory>
    ensures { IfOk result (λ flow. spec.WalkedPlain jumps.old jumps.new dead.old.items dead.new.items flow words.Switch (pieces_of (map syntax parts.now))) }
{
    match second_list(parts) {
        Some(cases) => {
            let flow = walk_clauses(alloc, jumps, dead, cases)?;
            Ok(flow)
        }
        None => Ok(QUIET),
    }
}

/// As `walk_switch`, by its cases. On `OutOfMemory`, an allocation failed.
#[cycle(walking)]
#[tactic(auto, using(crate::proofs::Switches::switch_made))]
fn walk_clauses<'t>(
    alloc: Global,
    jumps: &mut Jumps<'t>,
    dead: &mut Vec<Range>,
    cases: &'t [Numbered],
) -> Result<Flow, OutOfMemory>
    ensures { IfOk result (λ flow. spec.WalkedSwitch jumps.old jumps.new dead.old.items dead.new.items flow (pieces_of (map syntax cases.now))) }
{
    let mut inner = Jumps::new(alloc);
    let flow = walk_cases(alloc, &mut inner, dead, cases)?;
    let is_broken = takes_any(Target::Unlabeled, inner.breaks.as_slice());
    push_others(
        &mut jumps.breaks,
        Target::Unlabeled,
        inner.breaks.as_slice(),
    )?;
    push_others(
        &mut jumps.continues,
        Target::Nothing,
        inner.continues.as_slice(),
    )?;
    Ok(Flow {
        falls: switch_falls(flow.falls, cases, is_broken),
        acts: true,
    })
}

/// As `walk_node`, of a labelled statement. On `OutOfMemory`, an allocation failed.
#[cycle(walking)]
#[tactic(auto, using(crate::proofs::Switches::labels, crate::proofs::Smaller::labeled_smaller))]
fn walk_labeled<'t>(
    alloc: Global,
    jumps: &mut Jumps<'t>,
    dead: &mut Vec<Range>,
    parts: &'t [Numbered],
) -> Result<Flow, OutOfMemory>
    ensures { IfOk result (λ flow. spec.WalkedPlain jumps.old jumps.new dead.old.items dead.new.items flow words.Labeled (pieces_of (map syntax parts.now))) }
{
    match labeled_of(parts) {
        Some((label, body)) => {
            let flow = walk_under(alloc, jumps, dead, label, body)?;
            Ok(flow)
        }
        None => Ok(QUIET),
    }
}

/// As `walk_labeled`, by its label and its body. On `OutOfMemory`, an allocation failed.
#[cycle(walking)]
#[tactic(auto, using(crate::proofs::Switches::labeled_made))]
fn walk_under<'t>(
    alloc: Global,
    jumps: &mut Jumps<'t>,
    dead: &mut Vec<Range>,
    label: &'t Text,
    body: &'t Numbered,
) -> Result<Flow, OutOfMemory>
    ensures { IfOk result (λ flow. spec.WalkedLabeled jumps.old jumps.new dead.old.items dead.new.items flow label.now (syntax body.now)) }
{
    let target = Target::Labeled(label);
    let mut inner = Jumps::new(alloc);
    let flow = walk(alloc, &mut inner, dead, Label { name: Some(label) }, body)?;
    let is_broken = takes_any(target, inner.breaks.as_slice());
    push_others(&mut jumps.breaks, target, inner.breaks.as_slice())?;
    push_others(&mut jumps.continues, target, inner.continues.as_slice())?;
    Ok(Flow {
        falls: either(flow.falls, is_broken),
        acts: flow.acts,
    })
}

/// As `walk_node`, of a `try` statement. On `OutOfMemory`, an allocation failed.
#[cycle(walking)]
#[tactic(auto, using(crate::proofs::Switches::tries, crate::proofs::Smaller::tries_smaller))]
fn walk_try<'t>(
    alloc: Global,
    jumps: &mut Jumps<'t>,
    dead: &mut Vec<Range>,
    parts: &'t [Numbered],
) -> Result<Flow, OutOfMemory>
    ensures { IfOk result (λ flow. spec.WalkedPlain jumps.old jumps.new dead.old.items dead.new.items flow words.Try (pieces_of (map syntax parts.now))) }
{
    match try_parts(parts) {
        Some((block, handler, body)) => {
            let flow = walk(alloc, jumps, dead, UNLABELED, block)?;
            if flow.acts {
                let caught = walk(alloc, jumps, dead, UNLABELED, body)?;
                return Ok(Flow {
                    falls: either(flow.falls, caught.falls),
                    acts: caught.acts,
                });
            }
            push_range(dead, handler)?;
            Ok(flow)
        }
        None => Ok(QUIET),
    }
}

/// Walks over the next of statements in a row; `before` is the summary of those before it. On `OutOfMemory`, an allocation failed.
#[cycle(walking)]
#[tactic(auto, using(crate::proofs::Rows::next))]
fn walk_next<'t>(
    alloc: Global,
    jumps: &mut Jumps<'t>,
    dead: &mut Vec<Range>,
    before: Flow,
    statement: &'t Numbered,
) -> Result<Flow, OutOfMemory>
    ensures { IfOk result (λ after. spec.Stepped jumps.old jumps.new dead.old.items dead.new.items before after (syntax statement.now)) }
{
    if before.falls {
        let flow = walk(alloc, jumps, dead, UNLABELED, statement)?;
        return Ok(Flow {
            falls: flow.falls,
            acts: either(before.acts, flow.acts),
        });
    }
    push_range(dead, statement)?;
    Ok(before)
}

/// Walks over statements in a row: those behind one that cannot complete normally are dead. On `OutOfMemory`, an allocation failed.
#[cycle(walking)]
#[tactic(auto, using(crate::proofs::Rows::statements))]
pub fn walk_statements<'t>(
    alloc: Global,
    jumps: &mut Jumps<'t>,
    dead: &mut Vec<Range>,
    statements: &'t [Numbered],
) -> Result<Flow, OutOfMemory>
    ensures { IfOk result (λ flow. spec.WalkedStatements jumps.old jumps.new dead.old.items dead.new.items flow (pieces_of (map syntax statements.now))) }
{
    let mut flow = QUIET;
    'statements: for statement in statements {
        let next = walk_next(alloc, jumps, dead, flow, statement)?;
        flow = next;
    }
    Ok(flow)
}

/// Walks over the cases of a `switch`, which are all live. They may complete normally if the last of them may. On `OutOfMemory`, an
/// allocation failed.
#[cycle(walking)]
#[tactic(auto, using(crate::proofs::Rows::cases, crate::proofs::Smaller::case_smaller))]
fn walk_cases<'t>(
    alloc: Global,
    jumps: &mut Jumps<'t>,
    dead: &mut Vec<Range>,
    cases: &'t [Numbered],
) -> Result<Flow, OutOfMemory>
    ensures { IfOk result (λ flow. spec.WalkedCases jumps.old jumps.new dead.old.items dead.new.items flow (pieces_of (map syntax cases.now))) }
{
    let mut falls = true;
    let mut acts = false;
    'cases: for part in cases {
        match case_statements(part) {
            Some(statements) => {
                let flow = walk_statements(alloc, jumps, dead, statements)?;
                falls = flow.falls;
                acts = either(acts, flow.acts);
            }
            None => return Ok(Flow { falls: true, acts }),
        }
    }
    Ok(Flow { falls, acts })
}

/// True if one of two is.
fn either(one: bool, other: bool) -> bool
    ensures { result ≡ (one || other) }
{
    one || other
}

/// True of a `switch` that may complete normally: its last case may, as `last` tells, or none is the default, or a `break` leaves it.
fn switch_falls(last: bool, cases: &[Numbered], is_broken: bool) -> bool
    ensures { result ≡ (last || not (model.has_default (pieces_of (map syntax cases.now))) || is_broken) }
{
    last || !has_default(cases) || is_broken
}

/// True of a `for` loop in which something live, but for its jumps, may throw; `body` is the summary of its body.
fn for_acts(found: ForParts<'_>, body: Body) -> bool
    ensures { result ≡ spec.for_acts (seen_for found.entry) body }
{
    init_acts(found.init)
        || !is_absent(found.condition)
        || body.acts
        || (!is_absent(found.update) && body.goes_on)
}
